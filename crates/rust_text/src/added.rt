//! Words and other pieces that are added to those that are there.

ghost use Rattle.std.specs.Prelude.{◌∷◌, OnOk, map};
ghost use Rattle.model_code.specs.Pieces as Pieces;
ghost use Rattle.model_code.specs.Pieces.{put, put_all, put_between, put_first, put_first_if, put_if};
ghost use Rattle.rust_text.specs.TokenViews.{piece_view, token_view, word_view};
ghost use Rattle.rust_text.specs.Adding.{Adds};

use crate::tokens::{Piece, RustToken, Word};
use std::alloc::AllocError;

/// Adds a piece.
#[tactic(auto, using(crate::proofs::AddedSteps::added_steps))]
pub(crate) fn add(out: &mut Vec<Piece>, piece: Piece) -> Result<(), AllocError>
    ensures { OnOk result (Adds out.old.items out.new.items (λ p rest. piece_view p piece ∷ rest)) }
{
    // each form by its name: the prover does not cover a push of a form that it has not seen
    match piece {
        Piece::Token(token) => out.push(Piece::Token(token))?,
        Piece::Space => out.push(Piece::Space)?,
        Piece::SetIn(depth) => out.push(Piece::SetIn(depth))?,
        Piece::LineEnd => out.push(Piece::LineEnd)?,
        Piece::RuleComment(pos) => out.push(Piece::RuleComment(pos))?,
        Piece::LogLine(pos) => out.push(Piece::LogLine(pos))?,
    }
    Ok(())
}

/// Adds a token.
pub(crate) fn add_token(out: &mut Vec<Piece>, token: RustToken) -> Result<(), AllocError>
    ensures { OnOk result (Adds out.old.items out.new.items (λ p rest. Pieces.token (token_view p token) ∷ rest)) }
{
    add(out, Piece::Token(token))
}

/// Adds a word.
pub(crate) fn add_word(out: &mut Vec<Piece>, word: Word) -> Result<(), AllocError>
    ensures { OnOk result (Adds out.old.items out.new.items (λ p rest. put (word_view word) rest)) }
{
    add(out, Piece::Token(RustToken::Word(word)))
}

/// Adds a word with a space behind it.
pub(crate) fn add_first(out: &mut Vec<Piece>, word: Word) -> Result<(), AllocError>
    ensures { OnOk result (Adds out.old.items out.new.items (λ p rest. put_first (word_view word) rest)) }
{
    add_word(out, word)?;
    add(out, Piece::Space)
}

/// Adds a word with a space around it.
pub(crate) fn add_between(out: &mut Vec<Piece>, word: Word) -> Result<(), AllocError>
    ensures { OnOk result (Adds out.old.items out.new.items (λ p rest. put_between (word_view word) rest)) }
{
    add(out, Piece::Space)?;
    add_first(out, word)
}

/// Adds words.
pub(crate) fn add_words(out: &mut Vec<Piece>, words: &[Word]) -> Result<(), AllocError>
    ensures { OnOk result (Adds out.old.items out.new.items (λ p rest. put_all (map word_view words.now) rest)) }
{
    for word in words {
        add_word(out, *word)?;
    }
    Ok(())
}

/// Adds a word where it is wanted.
pub(crate) fn add_if(out: &mut Vec<Piece>, is_wanted: bool, word: Word) -> Result<(), AllocError>
    ensures { OnOk result (Adds out.old.items out.new.items (λ p rest. put_if is_wanted (word_view word) rest)) }
{
    if is_wanted {
        add_word(out, word)?;
    }
    Ok(())
}

/// Adds a word with a space behind it where it is wanted.
pub(crate) fn add_first_if(
    out: &mut Vec<Piece>,
    is_wanted: bool,
    word: Word,
) -> Result<(), AllocError>
    ensures { OnOk result (Adds out.old.items out.new.items (λ p rest. put_first_if is_wanted (word_view word) rest)) }
{
    if is_wanted {
        add_first(out, word)?;
    }
    Ok(())
}

/// Adds the end of a statement, and of its line.
pub(crate) fn end_line(out: &mut Vec<Piece>) -> Result<(), AllocError>
    ensures { OnOk result (Adds out.old.items out.new.items (λ p rest. Pieces.end_line rest)) }
{
    add_word(out, Word::Semicolon)?;
    add(out, Piece::LineEnd)
}
