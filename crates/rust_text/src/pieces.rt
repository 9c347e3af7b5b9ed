//! The pieces of a function.

ghost use Rattle.std.specs.Prelude.{◌≡◌, ◌∷◌, IfOk, OnOk};
ghost use Rattle.model_code.specs.Code.{no_statement};
ghost use Rattle.model_code.specs.Tokens.{closing_brace};
ghost use Rattle.model_code.specs.Notation.{Notation};
ghost use Rattle.model_code.specs.Pieces.{block_before, line_end, put, result_ends};
ghost use Rattle.model_code.specs.Written.{end_before, function_body, function_end, has_end, no_margin, written};
ghost use Rattle.rust_code.specs.CodeViews.{before, block_view};
ghost use Rattle.rust_text.specs.TokenViews.{piece_views};
ghost use Rattle.rust_text.specs.Adding.{Adds, AddsBy};
ghost use Rattle.rust_text.specs.Writers.{gives_view, Says};

use crate::added::{add, add_token, add_word};
use crate::labels::is_end;
use crate::layout::{Margin, add_margin};
use crate::notation::Writer;
use crate::tokens::{Piece, RustToken, Word};
use cranelift_isle::sema::ReturnKind;
use rust_code::code::{CodeBlock, Statement};
use std::alloc::{AllocError, Global};

// Whether nothing follows one of these statements, so that the code doesn't run through. `ends`: whether a result ends the
// function.
fn has_end(ends: bool, statements: &[Statement]) -> bool
    ensures { (p : Notation) → ends ≡ result_ends p → result ≡ has_end p (before statements.now no_statement) }
{
    for statement in statements {
        if is_end(ends, statement) {
            return true;
        }
    }
    false
}

// Adds what follows where the code has run through, and the function's last line.
fn add_end(out: &mut Vec<Piece>, has_end: bool, gives: ReturnKind) -> Result<(), AllocError>
    ensures { OnOk result (Adds out.old.items out.new.items (λ p rest.
        end_before has_end (gives_view gives) (put closing_brace (line_end ∷ rest)))) }
{
    if !has_end {
        add_fall(out, gives)?;
    }
    add_word(out, Word::ClosingBrace)?;
    add(out, Piece::LineEnd)
}

// Adds the line that follows where the code has run through.
fn add_fall(out: &mut Vec<Piece>, gives: ReturnKind) -> Result<(), AllocError>
    ensures { OnOk result (Adds out.old.items out.new.items (λ p rest. function_end (gives_view gives) rest)) }
{
    let margin = Margin::of_function();
    match gives {
        ReturnKind::Plain => {
            add_margin(out, margin)?;
            add_token(out, RustToken::NoMatch)?;
            add(out, Piece::LineEnd)
        }
        ReturnKind::Option => {
            add_margin(out, margin)?;
            add_word(out, Word::None)?;
            add(out, Piece::LineEnd)
        }
        ReturnKind::Iterator => Ok(()),
    }
}

impl Writer<'_> {
    // Adds a function from behind its first line on.
    fn add_function(&self, out: &mut Vec<Piece>, block: &CodeBlock) -> Result<(), AllocError>
        ensures { OnOk result (AddsBy self.now out.old.items out.new.items (λ p rest. block_before p no_margin (written p (block_view block.now))
            (end_before (has_end p (block_view block.now)) p.kind (put closing_brace (line_end ∷ rest))))) }
    {
        let has_end = has_end(self.ends(), &block.statements);
        self.add_statements(out, Margin::of_function(), &block.statements)?;
        add_end(out, has_end, self.gives())
    }
}

/// The pieces of a function from behind its first line on: those of its code, and what follows where that has run through.
///
/// # Errors
///
/// Where memory is refused.
pub(crate) fn function_pieces(
    alloc: Global,
    writer: &Writer<'_>,
    block: &CodeBlock,
) -> Result<Vec<Piece>, AllocError>
    ensures { IfOk result (λ v. Says writer.now (λ p. piece_views p v.items ≡ function_body p (block_view block.now))) }
{
    let mut out = Vec::new(alloc);
    writer.add_function(&mut out, block)?;
    Ok(out)
}
