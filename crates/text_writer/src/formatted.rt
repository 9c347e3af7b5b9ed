//! A rule file in the usual layout.
#![tactic(auto, using(crate::proofs::Texts::texts))]

ghost use Rattle.std.specs.Prelude.{◌≡◌, IfOk, List, string_bytes};
ghost use Rattle.std.specs.Str.{chars};
ghost use Rattle.text_reader.specs.Pieces.{AreIn, Piece};
ghost use Rattle.text_reader.specs.Solid.{HaveSameTokens};
ghost use Rattle.text_reader.specs.Views.{Gives};
ghost use Rattle.text_writer.specs.Layouts.{layout_in};
ghost use Rattle.text_writer.specs.Pages.{laid, text_of};

use crate::gaps::is_marked;
use crate::layout::laid_out;
use crate::layout_laws::layout_keeps_tokens;
pub use crate::lists::Indentation;
use crate::parts::parts_of;
use std::alloc::{AllocError, Global};
use text_reader::errors::ReadFault;
use text_reader::laws::texts_have_one_division;
use text_reader::lists::has_lists;

/// A text in the usual layout, where lines in lists begin by this indentation: it has the same tokens, but for their places, and the same comments, but for the carriage returns at
/// their end. A byte order mark stays.
///
/// The file's number is any; it stands in the position of an error.
///
/// # Errors
///
/// What is wrong with a text that has no tokens, or whose lists aren't ended; and where memory is refused.
pub fn formatted(
    alloc: Global,
    file: usize,
    indentation: Indentation,
    text: &str,
) -> Result<String, ReadFault>
    // The layout of the text's pieces, where the text has lists, else the first mistake.
    ensures exact { Gives (λ new. chars (string_bytes new)) result (layout_in file indentation text.now) }
    ensures same { IfOk result (λ new. HaveSameTokens file text.now (string_bytes new)) }
{
    texts_have_one_division();
    layout_keeps_tokens();
    has_lists(alloc, file, text)?;
    let made = laid_out_text(alloc, indentation, text)?;
    Ok(made)
}

fn laid_out_text(alloc: Global, indentation: Indentation, text: &str) -> Result<String, AllocError>
    ensures { IfOk result (λ new. (ps : List Piece) → AreIn 0 (chars text.now) ps → chars (string_bytes new) ≡ text_of (laid indentation ps)) }
{
    let parts = parts_of(alloc, text)?;
    let made = laid_out(alloc, indentation, is_marked(text), &parts)?;
    Ok(made)
}
