//! How lines are set in.

ghost use Rattle.std.specs.Prelude.{◌≡◌, ◌+◌, ◌∷◌, IfOk, OnOk};
ghost use Rattle.model_code.specs.Pieces as Pieces;
ghost use Rattle.model_code.specs.Pieces.{in_braces_at, set_in};
ghost use Rattle.model_code.specs.Written.{no_margin};
ghost use Rattle.rust_text.specs.TokenViews.{word_view};
ghost use Rattle.rust_text.specs.Adding.{Adds};
ghost use Rattle.rust_text.specs.Margins.{margin_view};

use crate::added::{add, add_between, add_first, add_token, add_word};
use crate::tokens::{Piece, RustToken, Word};
use std::alloc::AllocError;

/// Where the lines of a block stand.
#[derive(Clone, Copy)]
pub struct Margin {
    /// How far they are set in.
    pub depth: usize,
    /// The number of the label next around.
    pub label: Option<usize>,
}

impl Margin {
    /// Where the body of a function stands.
    pub(crate) fn of_function() -> Margin
        ensures { margin_view result ≡ no_margin }
    {
        Margin {
            depth: 1,
            label: None,
        }
    }

    // One deeper. No memory holds code that is deeper than numbers go.
    fn deeper(self) -> Result<usize, AllocError>
        ensures { IfOk result (λ n. n ≡ self.depth + 1) }
    {
        match self.depth.checked_add(1) {
            Some(depth) => Ok(depth),
            None => Err(AllocError),
        }
    }

    /// Where a block within braces stands.
    pub(crate) fn inside(self) -> Result<Margin, AllocError>
        ensures { IfOk result (λ m. margin_view m ≡ Pieces.inside (margin_view self)) }
    {
        let depth = self.deeper()?;
        Ok(Margin {
            depth,
            label: self.label,
        })
    }

    /// Where a block within braces stands that have a label if a test leaves it. The label's number is how far its line is set in.
    pub(crate) fn in_braces(self, is_left: bool) -> Result<Margin, AllocError>
        ensures { IfOk result (λ m. margin_view m ≡ in_braces_at is_left (margin_view self)) }
    {
        let depth = self.deeper()?;
        let label = self.own_label(is_left);
        Ok(Margin { depth, label })
    }

    /// Where the arms of a match stand: one alone is a test.
    pub(crate) fn of_arms(self, is_alone: bool) -> Result<Margin, AllocError>
        ensures { IfOk result (λ m. margin_view m ≡ Pieces.arms_at is_alone (margin_view self)) }
    {
        if is_alone { Ok(self) } else { self.inside() }
    }

    // The number of a label that begins here, if it is left.
    fn own_label(self, is_left: bool) -> Option<usize>
        ensures { result ≡ Pieces.label_at is_left self.depth }
    {
        if is_left { Some(self.depth) } else { None }
    }

    // The number of the label next around. Where a test leaves one, it is there.
    fn label_number(self) -> usize
        ensures { result ≡ Pieces.label_number self.label }
    {
        match self.label {
            Some(number) => number,
            None => 0,
        }
    }
}

/// Adds the white space before a line.
pub(crate) fn add_margin(out: &mut Vec<Piece>, at: Margin) -> Result<(), AllocError>
    ensures { OnOk result (Adds out.old.items out.new.items (λ p rest. set_in at.depth ∷ rest)) }
{
    add(out, Piece::SetIn(at.depth))
}

/// Adds the white space before a line, and its first word.
pub(crate) fn begin_line(out: &mut Vec<Piece>, at: Margin, word: Word) -> Result<(), AllocError>
    ensures { OnOk result (Adds out.old.items out.new.items (λ p rest. set_in at.depth ∷ Pieces.put_first (word_view word) rest)) }
{
    add_margin(out, at)?;
    add_first(out, word)
}

/// Adds the brace that a body begins with.
pub(crate) fn open_body(out: &mut Vec<Piece>) -> Result<(), AllocError>
    ensures { OnOk result (Adds out.old.items out.new.items (λ p rest. Pieces.open_body rest)) }
{
    add(out, Piece::Space)?;
    add_word(out, Word::OpeningBrace)?;
    add(out, Piece::LineEnd)
}

/// Adds the brace that a body ends with.
pub(crate) fn close_body(out: &mut Vec<Piece>, at: Margin) -> Result<(), AllocError>
    ensures { OnOk result (Adds out.old.items out.new.items (λ p rest. Pieces.close_body (margin_view at) rest)) }
{
    add_margin(out, at)?;
    add_word(out, Word::ClosingBrace)?;
    add(out, Piece::LineEnd)
}

/// Adds a block that leaves the label next around.
pub(crate) fn add_break(out: &mut Vec<Piece>, at: Margin) -> Result<(), AllocError>
    ensures { OnOk result (Adds out.old.items out.new.items (λ p rest. Pieces.break_before (margin_view at) rest)) }
{
    add_between(out, Word::OpeningBrace)?;
    add_first(out, Word::Break)?;
    add_token(out, RustToken::Label(at.label_number()))?;
    add(out, Piece::Space)?;
    add_word(out, Word::ClosingBrace)
}

/// Adds the label that a block begins with, if it is left.
pub(crate) fn add_label(out: &mut Vec<Piece>, at: Margin, is_left: bool) -> Result<(), AllocError>
    ensures { OnOk result (Adds out.old.items out.new.items (λ p rest. Pieces.label_before is_left (margin_view at) rest)) }
{
    if !is_left {
        return Ok(());
    }
    add_token(out, RustToken::Label(at.depth))?;
    add_first(out, Word::Colon)
}
