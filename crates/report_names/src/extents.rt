//! Where forms end in their texts, and where the pieces are that fixes replace.

use report_print::lines::depth_after;
use report_print::report::{Place, Word};
use std::alloc::{AllocError, Global};
use text_reader::errors::ReadFault;
use text_reader::source::Source;
use text_reader::tokens::{Token, tokens};

/// The piece of a file's text that a fix replaces, by where it begins and ends; None where the text has no such piece.
///
/// # Errors
///
/// Where memory is refused.
pub fn piece_of(
    alloc: Global,
    text: &str,
    place: Place,
) -> Result<Option<(usize, usize)>, AllocError> {
    Ok(match place {
        Place::Before(pos) => Some((pos.offset, pos.offset)),
        Place::Name(pos, length) => Some((pos.offset, pos.offset.saturating_add(length))),
        Place::UpTo(from, to) => Some((from.offset, to.offset)),
        Place::Form(pos) => Some((pos.offset, end_of_form(text, pos.offset))),
        Place::Between(from, to, word) => {
            let between = text.get(from.offset..to.offset).unwrap_or("");
            match offset_in(alloc, between, word)? {
                Some(at) => Some(with_blanks(text, from.offset.saturating_add(at))),
                None => None,
            }
        }
    })
}

// Where a word stands in a part of a text.
fn offset_in(alloc: Global, part: &str, word: Word) -> Result<Option<usize>, AllocError> {
    let source = Source {
        alloc,
        file: 0,
        len: part.len(),
    };
    let read = match tokens(source, part) {
        Ok(read) => read,
        Err(ReadFault::Memory(error)) => return Err(error),
        Err(ReadFault::Text(_)) => return Ok(None),
    };
    for token in &read {
        match (token, word) {
            (Token::Word(name), Word::Rec) if name.0.as_str() == "rec" => {
                return Ok(Some(name.1.offset));
            }
            (Token::Number(_, pos), Word::Priority) => return Ok(Some(pos.offset)),
            _ => {}
        }
    }
    Ok(None)
}

// The word that begins at an offset of a text, with the blanks behind it.
fn with_blanks(text: &str, begin: usize) -> (usize, usize) {
    let rest = text.get(end_of_form(text, begin)..).unwrap_or("");
    (begin, text.len().saturating_sub(rest.trim_start().len()))
}

// Where a walk over a form is.
#[derive(Clone, Copy, PartialEq, Eq)]
enum Walk {
    // In the form.
    Text,
    // In a comment up to the line's end.
    Line,
    // In so many comments that parentheses end.
    Block(u64),
}

/// Where the form ends that begins at an offset of a text: behind the parenthesis that ends a list, else behind the word. A
/// list that isn't ended ends with the text. Where no form begins, this is behind the character there, if there is one.
pub fn end_of_form(text: &str, offset: usize) -> usize {
    let rest = text.get(offset..).unwrap_or("");
    let length = if rest.starts_with('(') {
        length_of_list(rest)
    } else {
        length_of_word(rest)
    };
    offset.saturating_add(length)
}

// The length of the list that a text begins with.
fn length_of_list(text: &str) -> usize {
    let mut walk = Walk::Text;
    let mut depth = 0u64;
    let mut last = ' ';
    for (at, c) in text.char_indices() {
        let before = walk;
        walk = after(before, last, c);
        if walk == Walk::Text && before == Walk::Text {
            depth = depth_after(depth, c);
            if depth == 0 && c == ')' {
                return at.saturating_add(1);
            }
        } else if before == Walk::Text && walk != Walk::Line {
            depth = depth.saturating_sub(1);
        }
        last = if walk == before { c } else { ' ' };
    }
    text.len()
}

/// The first line behind the list that begins at an offset of a text that begins with a list too, by where it begins: one whose first
/// character is `(` and stands in no comment.
pub fn line_with_list(text: &str, offset: usize) -> Option<usize> {
    let rest = text.get(offset..).unwrap_or("");
    let mut walk = Walk::Text;
    let mut last = ' ';
    let mut begun = None;
    for (at, c) in rest.char_indices() {
        let before = walk;
        walk = after(before, last, c);
        if begun.is_some() && walk == Walk::Text {
            return begun;
        }
        begun = None;
        if c == '(' && last == '\n' && walk == Walk::Text {
            begun = Some(offset.saturating_add(at));
        }
        last = if walk == before || c == '\n' { c } else { ' ' };
    }
    begun
}

// The length of the word that a text begins with, or of its first character where that begins none.
fn length_of_word(text: &str) -> usize {
    let mut length = 0usize;
    for (at, c) in text.char_indices() {
        if ends_word(c) {
            return if at == 0 { c.len_utf8() } else { at };
        }
        length = at.saturating_add(c.len_utf8());
    }
    length
}

/// Whether a word ends before this character.
pub fn ends_word(c: char) -> bool {
    c.is_whitespace() || matches!(c, '(' | ')' | ';' | '@')
}

// Where a walk is after a character, behind another one.
fn after(walk: Walk, last: char, c: char) -> Walk {
    match walk {
        Walk::Text if c == ';' && last == '(' => Walk::Block(1),
        Walk::Text if c == ';' => Walk::Line,
        Walk::Text => Walk::Text,
        Walk::Line if c == '\n' => Walk::Text,
        Walk::Line => Walk::Line,
        Walk::Block(depth) if last == '(' && c == ';' => Walk::Block(depth.saturating_add(1)),
        Walk::Block(depth) if last == ';' && c == ')' => {
            if depth <= 1 {
                Walk::Text
            } else {
                Walk::Block(depth.saturating_sub(1))
            }
        }
        Walk::Block(depth) => Walk::Block(depth),
    }
}
