//! Pieces as text.

ghost use Rattle.std.specs.Prelude.{◌≡◌, ◌++◌, ◌*◌, Bool, OnOk, codes, decimal, min, replicate, string_bytes};
ghost use Rattle.model_code.specs.Notation.{ReturnForm};
ghost use Rattle.model_code.specs.ProgramNotation.{notation_of};
ghost use Rattle.model_code.specs.Spelling.{deepest, piece_text, spelled, token_text, word_text};
ghost use Rattle.core_syntax.specs.SyntaxViews.{position};
ghost use Rattle.model.specs.rules.Program.{Program as Meant};
ghost use Rattle.rust_items.specs.FilePlaces.{place_written};
ghost use Rattle.rust_text.specs.ProgramNames.{IsProgramOf, names_of, notation_in};
ghost use Rattle.rust_text.specs.SettingViews.{setting_of};
ghost use Rattle.rust_text.specs.TokenViews.{piece_view, piece_views, token_view, word_view};

use crate::names::Names;
use crate::tokens::{Piece, RustToken, Word};
use cranelift_isle::syntax::Pos;
use std::alloc::AllocError;

// Lines are set in no deeper than so many times, since code is deeper than lines are wide.
const DEEPEST: usize = 13;

/// Adds pieces. The text is spelled by the names of the program, whatever program of these types and terms numbers the functions.
pub fn push_pieces(out: &mut String, names: Names<'_>, pieces: &[Piece]) -> Result<(), AllocError>
    ensures { (p : Meant) (kind : ReturnForm) (is_logged : Bool) → IsProgramOf (setting_of names.entry) p → OnOk result (string_bytes out.new
        ≡ string_bytes out.old ++ spelled (names_of (setting_of names.entry)) (piece_views (notation_of p kind is_logged) pieces.now)) }
{
    push_all(out, names, pieces)
}

// Adds pieces, by the notation of the names' own program.
fn push_all(out: &mut String, names: Names<'_>, pieces: &[Piece]) -> Result<(), AllocError>
    ensures { OnOk result (string_bytes out.new ≡ string_bytes out.old
        ++ spelled (names_of (setting_of names.entry)) (piece_views (notation_in (setting_of names.entry)) pieces.now)) }
{
    for piece in pieces {
        push_piece(out, names, *piece)?;
    }
    Ok(())
}

fn push_piece(out: &mut String, names: Names<'_>, piece: Piece) -> Result<(), AllocError>
    ensures { OnOk result (string_bytes out.new ≡ string_bytes out.old
        ++ piece_text (names_of (setting_of names.entry)) (piece_view (notation_in (setting_of names.entry)) piece)) }
{
    match piece {
        Piece::Token(token) => push_token(out, names, token),
        Piece::Space => out.push(' '),
        Piece::SetIn(depth) => push_indent(out, depth),
        Piece::LineEnd => out.push('\n'),
        Piece::RuleComment(pos) => push_comment(out, names, pos),
        Piece::LogLine(pos) => names.push_log(out, pos),
    }
}

fn push_token(out: &mut String, names: Names<'_>, token: RustToken) -> Result<(), AllocError>
    ensures { OnOk result (string_bytes out.new ≡ string_bytes out.old
        ++ token_text (names_of (setting_of names.entry)) (token_view (notation_in (setting_of names.entry)) token)) }
{
    match token {
        RustToken::Word(word) => out.push_str(word_text(word)),
        RustToken::Variable(site) => push_numbered(out, "v", site.index()),
        RustToken::Parameter(index) => push_numbered(out, "arg", index.index()),
        RustToken::Part(index) => push_numbered(out, ".", index.index()),
        RustToken::Int { val, ty } => names.push_int(out, val, ty),
        RustToken::Constant(name) => names.push_constant(out, name),
        RustToken::Owner(owner) => names.push_owner(out, owner),
        RustToken::Field { owner, index } => names.push_field(out, owner, index),
        RustToken::Function(callee) => names.push_function(out, callee),
        RustToken::List(callee) => names.push_list(out, callee),
        RustToken::Label(number) => push_numbered(out, "'at", number),
        RustToken::NoMatch => names.push_panic(out),
    }
}

fn push_numbered(out: &mut String, word: &str, number: usize) -> Result<(), AllocError>
    ensures { OnOk result (string_bytes out.new ≡ string_bytes out.old ++ word.now ++ decimal number) }
{
    write!(out, "{word}{number}")
}

// Adds the white space before a line.
fn push_indent(out: &mut String, depth: usize) -> Result<(), AllocError>
    ensures { OnOk result (string_bytes out.new ≡ string_bytes out.old ++ replicate (4 * min depth deepest) 32) }
{
    for step in 0..depth.min(DEEPEST) {
        out.push_str("    ")?;
    }
    Ok(())
}

// Adds a comment with the place of a rule.
fn push_comment(out: &mut String, names: Names<'_>, pos: Pos) -> Result<(), AllocError>
    ensures { OnOk result (string_bytes out.new ≡ string_bytes out.old
        ++ codes "// Rule at " ++ place_written (setting_of names.entry).sources (position pos) ++ codes ".") }
{
    out.push_str("// Rule at ")?;
    names.program.lines.push(out, pos)?;
    out.push('.')
}

fn word_text(word: Word) -> &'static str
    ensures { result.now ≡ word_text (word_view word) }
{
    match word {
        Word::Let => "let",
        Word::Mut => "mut",
        Word::Ref => "ref",
        Word::If => "if",
        Word::Else => "else",
        Word::Match => "match",
        Word::While => "while",
        Word::Return => "return",
        Word::Break => "break",
        Word::Some => "Some",
        Word::None => "None",
        Word::True => "true",
        Word::False => "false",
        Word::Ctx => "ctx",
        Word::Returns => "returns",
        Word::Extend => "extend",
        Word::Len => "len",
        Word::Most => "MAX_ISLE_RETURNS",
        Word::Clone => "clone",
        Word::Iter => "into_context_iter",
        Word::Next => "next",
        Word::Unreachable => "unreachable!",
        Word::Opening => "(",
        Word::Closing => ")",
        Word::OpeningBrace => "{",
        Word::ClosingBrace => "}",
        Word::Comma => ",",
        Word::Colon => ":",
        Word::Semicolon => ";",
        Word::Dot => ".",
        Word::TwoDots => "..",
        Word::Underscore => "_",
        Word::Arrow => "=>",
        Word::Equals => "=",
        Word::EqualTo => "==",
        Word::Unlike => "!=",
        Word::AtLeast => ">=",
        Word::Ampersand => "&",
        Word::Star => "*",
    }
}
