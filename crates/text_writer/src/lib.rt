//! Definitions as text: what `text_reader` reads as the same definitions.
//!
//! Each definition stands on a line of its own, with one space between the parts of a list. Some definitions no text spells, and
//! these aren't printed: with a name that the notation takes for something else, with a struct or a tuple that has no field, or for
//! other tools, since their lists aren't kept.
//!
//! So is what is said for a verifier (`verification`), and rule files are laid out (`formatted`): line breaks stay as the author set
//! them, and so do comments; the space around them is set anew.
#![tactic(auto)]

ghost use Rattle.std.specs.Prelude.{◌≡◌, IfErr, IfOk, None, string_bytes};
ghost use Rattle.core_syntax.specs.SyntaxViews.{definition_views};
ghost use Rattle.text_writer.specs.Faults.{TellsUnspellable};
ghost use Rattle.text_writer.specs.ReadsBack.{ReadsBackAs};
ghost use Rattle.text_writer.specs.Spellable.{first_unspelled};
ghost use Rattle.text_writer.specs.Texts.{printed, written};

use core_syntax::syntax::Def;
use definitions::{first_unspelled, push_definitions};
use faults::PrintFault;
use std::alloc::{AllocError, Global};

pub mod contents;
pub mod definitions;
mod expressions;
pub mod faults;
pub mod formatted;
mod gaps;
pub mod laws;
mod layout;
pub mod layout_laws;
mod lists;
mod parts;
mod patterns;
pub mod pieces;
mod rules;
mod signatures;
mod spec_expressions;
pub mod spec_faults;
pub mod spec_laws;
mod spec_terms;
mod spec_words;
mod spellable;
mod spellable_expressions;
mod terms;
mod types;
pub mod verification;
pub mod words;
mod woven;

/// The text of definitions.
///
/// # Errors
///
/// Where the first definition stands that no text spells, and where memory is refused.
#[tactic(auto, using(crate::proofs::ReadBack::printed_reads_back))]
pub fn print(alloc: Global, defs: &[Def]) -> Result<String, PrintFault>
    // What is printed can be spelled, and is this text.
    ensures spelled { IfOk result (λ s. first_unspelled (definition_views defs.now) ≡ None) }
    ensures text { IfOk result (λ s. string_bytes s ≡ printed (definition_views defs.now)) }
    // It is read as these definitions, but for places.
    ensures read_back { IfOk result (λ s. ReadsBackAs (string_bytes s) (definition_views defs.now)) }
    // An error but for memory tells of the first definition that can't be spelled.
    ensures first { IfErr result (λ e. TellsUnspellable e (first_unspelled (definition_views defs.now))) }
{
    match first_unspelled(defs) {
        Some(place) => Err(PrintFault::Unspellable(place)),
        None => Ok(text_of(alloc, defs)?),
    }
}

// The text of definitions that can be spelled.
fn text_of(alloc: Global, defs: &[Def]) -> Result<String, AllocError>
    ensures { IfOk result (λ s. string_bytes s ≡ printed (definition_views defs.now)) }
{
    let mut text = String::new(alloc);
    push_definitions(&mut text, defs)?;
    Ok(text)
}
