//! The text of a term, read back: its lines as tokens, and what these say.

use crate::faults::ReadFault;
use crate::names::Tables;
use crate::read_term::ReadTerm;
use crate::reader::tree_of;
use crate::sites::sites_of;
use crate::tokens::{Ending, Line, Token, Word};
use core_rule_sets::trie_again::BindingId;
use core_syntax::syntax::Pos;
use std::alloc::Global;

// What the next word of a line is.
#[derive(Clone, Copy)]
enum Next {
    // the word that says what the line is
    Head,
    Truth,
    Integer,
    TypeName,
    ConstantName,
    TermName,
    VariantName,
    // a variant or a struct
    Made,
    // no name of the definitions
    Plain,
}

/// What the text of a term says, where it begins with the term's name. The place of a rule is looked up in `source`, the only
/// file's text.
pub fn read_text(
    alloc: Global,
    tables: Tables<'_>,
    name: &str,
    source: &str,
    text: &str,
) -> Result<ReadTerm, ReadFault> {
    let Some(text) = lines_below(name, text) else {
        return Err(ReadFault::Unreadable);
    };
    let lines = lines_of(alloc, tables, source, text)?;
    Ok(ReadTerm {
        sites: sites_of(alloc, &lines)?,
        block: tree_of(alloc, &lines)?,
        parts: lines.len(),
        steps: steps_among(&lines),
    })
}

// What stands below the title of a term, without the end of the last line.
fn lines_below<'a>(name: &str, text: &'a str) -> Option<&'a str> {
    text.strip_prefix("term ")?
        .strip_prefix(name)?
        .strip_prefix("\n")?
        .strip_suffix("\n")
}

// How many lines are a test or a return.
fn steps_among(lines: &[Line]) -> usize {
    let mut steps = 0usize;
    for line in lines {
        if is_step(line) {
            steps = steps.saturating_add(1);
        }
    }
    steps
}

fn is_step(line: &Line) -> bool {
    match line.tokens.first() {
        Some(Token::Word(word)) => match word {
            Word::Match | Word::Equal | Word::Loop | Word::Return => true,
            _ => false,
        },
        _ => false,
    }
}

fn lines_of(
    alloc: Global,
    tables: Tables<'_>,
    source: &str,
    text: &str,
) -> Result<Vec<Line>, ReadFault> {
    let mut lines = Vec::new(alloc);
    for written in text.split('\n') {
        lines.push(line_of(alloc, tables, source, written)?)?;
    }
    Ok(lines)
}

fn line_of(
    alloc: Global,
    tables: Tables<'_>,
    source: &str,
    written: &str,
) -> Result<Line, ReadFault> {
    let inner = written.trim_start();
    let (words, ending) = parted(tables, source, inner)?;
    let tokens = tokens_of(alloc, tables, words)?;
    Ok(Line {
        depth: written.len().saturating_sub(inner.len()),
        tokens,
        ending,
    })
}

// The words of a line, and its ending.
fn parted<'a>(
    tables: Tables<'_>,
    source: &str,
    line: &'a str,
) -> Result<(&'a str, Ending), ReadFault> {
    if let Some(words) = line.strip_suffix(":") {
        return Ok((words, Ending::Colon));
    }
    match line.split_once("  ; ") {
        Some((words, said)) => match rule_at(tables, source, said) {
            Some(pos) => Ok((words, Ending::Comment(pos))),
            None => Err(ReadFault::Unreadable),
        },
        None => Ok((line, Ending::Nothing)),
    }
}

// The place of the rule that is said, where the rule at that place has this name, or no name and none is said.
fn rule_at(tables: Tables<'_>, source: &str, said: &str) -> Option<Pos> {
    let (name, place) = match said.split_once(" at ") {
        Some((name, place)) => (Some(name), place),
        None => (None, said),
    };
    let (line, column) = place.strip_prefix("a.isle:")?.split_once(":")?;
    let offset = offset_of(source, line.parse::<usize>().ok()?)?.checked_add(
        column.parse::<usize>().ok()?.checked_sub(1)?,
    )?;
    let pos = Pos { file: 0, offset };
    if tables.rule_name(pos) == name {
        Some(pos)
    } else {
        None
    }
}

// Where a line begins, whose number counts from 1.
fn offset_of(source: &str, number: usize) -> Option<usize> {
    let mut offset = 0usize;
    for line in source.split('\n').take(number.checked_sub(1)?) {
        offset = offset.checked_add(line.len())?.checked_add(1)?;
    }
    Some(offset)
}

fn tokens_of(alloc: Global, tables: Tables<'_>, words: &str) -> Result<Vec<Token>, ReadFault> {
    let mut tokens = Vec::new(alloc);
    let mut next = Next::Head;
    for word in words.split(' ') {
        let Some(token) = token_of(tables, next, word) else {
            return Err(ReadFault::Unreadable);
        };
        next = behind(next, &token);
        tokens.push(token)?;
    }
    Ok(tokens)
}

// What stands behind a token.
fn behind(next: Next, token: &Token) -> Next {
    match next {
        Next::Head => behind_head(token),
        Next::Integer => Next::TypeName,
        _ => Next::Plain,
    }
}

// What stands behind a token that may say what the line is. A site and `=` don't.
fn behind_head(token: &Token) -> Next {
    let Token::Word(word) = token else {
        return Next::Head;
    };
    match word {
        Word::Equals => Next::Head,
        Word::Bool => Next::Truth,
        Word::Int => Next::Integer,
        Word::Prim => Next::ConstantName,
        Word::Extract | Word::Call => Next::TermName,
        Word::Make => Next::Made,
        Word::Variant => Next::VariantName,
        Word::Struct => Next::TypeName,
        _ => Next::Plain,
    }
}

fn token_of(tables: Tables<'_>, next: Next, word: &str) -> Option<Token> {
    match next {
        Next::Head => head_token(word),
        Next::Truth => Some(Token::Truth(word.parse::<bool>().ok()?)),
        Next::Integer => Some(Token::Integer(word.parse::<i128>().ok()?)),
        Next::TypeName => Some(Token::TypeName(tables.type_named(word)?)),
        Next::ConstantName => Some(Token::ConstantName(tables.sym_named(word)?)),
        Next::TermName => Some(Token::TermName(tables.term_named(word)?)),
        Next::VariantName => variant_token(tables, word),
        Next::Made => match variant_token(tables, word) {
            Some(token) => Some(token),
            None => Some(Token::TypeName(tables.type_named(word)?)),
        },
        Next::Plain => plain_token(word),
    }
}

fn variant_token(tables: Tables<'_>, word: &str) -> Option<Token> {
    let (ty, variant) = tables.variant_named(word)?;
    Some(Token::VariantName(ty, variant))
}

// A word that says what a line is, or the site that such a word stands behind.
fn head_token(word: &str) -> Option<Token> {
    match word_of(word) {
        Some(word) => Some(Token::Word(word)),
        None => site_token(word),
    }
}

fn site_token(word: &str) -> Option<Token> {
    let number = word.strip_prefix("b")?.parse::<u16>().ok()?;
    Some(Token::Site(BindingId::from(number)))
}

// A site, an impure call's number, a word or a number.
fn plain_token(word: &str) -> Option<Token> {
    if let Some(number) = word.strip_prefix("#") {
        return Some(Token::Instance(number.parse::<u32>().ok()?));
    }
    match head_token(word) {
        Some(token) => Some(token),
        None => Some(Token::Count(word.parse::<usize>().ok()?)),
    }
}

// The words that are the same in all trees.
const WORDS: [(&str, Word); 22] = [
    ("bind", Word::Bind),
    ("match", Word::Match),
    ("equal", Word::Equal),
    ("loop", Word::Loop),
    ("return", Word::Return),
    ("bool", Word::Bool),
    ("int", Word::Int),
    ("prim", Word::Prim),
    ("arg", Word::Arg),
    ("extract", Word::Extract),
    ("call", Word::Call),
    ("pick", Word::Pick),
    ("make", Word::Make),
    ("some", Word::Some),
    ("unwrap", Word::Unwrap),
    ("field", Word::Field),
    ("part", Word::Part),
    ("of", Word::Of),
    ("variant", Word::Variant),
    ("struct", Word::Struct),
    ("_", Word::Nothing),
    ("=", Word::Equals),
];

fn word_of(text: &str) -> Option<Word> {
    for (written, word) in WORDS {
        if written == text {
            return Some(word);
        }
    }
    None
}
