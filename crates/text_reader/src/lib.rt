//! A reader of ISLE text: definitions as text become the syntax trees of `core_syntax`.
//!
//! The text is read in three steps: characters to tokens, tokens to forms (words, numbers, and lists in parentheses), and forms
//! to definitions. A position is the file's number and the offset of a byte.
//!
//! What a text says for a verifier (specs of terms, models of types, forms of signatures, attributes, states and macros) `read` passes
//! over. `verification` reads it as trees of its own, from the same text. `specs/` has their grammar.
#![tactic(auto)]

ghost use Rattle.std.specs.Prelude.{length, IfOk, List, MatchResult, Ok, map};
ghost use Rattle.model.specs.lists.Syntax.{Definition};
ghost use Rattle.text_reader.specs.Views.{Gives};
ghost use Rattle.core_syntax.specs.SyntaxViews.{definition_views};
ghost use Rattle.text_reader.specs.Definitions.{Spells, reading};
ghost use Rattle.text_reader.specs.Within.{DefinitionsAreWithin};
ghost use Rattle.text_reader.specs.Faults.{FaultIsWithin};
ghost use Rattle.text_reader.specs.SpecViews.{numbered_view};
ghost use Rattle.text_reader.specs.Verifying.{verification_in};

use crate::syntax::VerificationForm;
use core_syntax::syntax::Def;
use errors::ReadFault;
use reading::verifications;
use source::Source;
use std::alloc::Global;

pub mod chunks;
mod definitions;
pub mod errors;
mod expressions;
pub mod forms;
pub mod heads;
pub mod laws;
pub mod lists;
mod models;
pub mod numbers;
pub mod parts;
mod patterns;
mod pieces;
mod reading;
pub mod recovery;
mod rules;
mod signatures;
pub mod source;
mod spec_expressions;
mod spec_terms;
pub mod syntax;
mod terms;
pub mod tokens;
mod types;

/// The definitions that a text spells, in its order.
///
/// The file's number is any: it stands in each position, beside the offset of a byte of the text. A definition's position, a
/// form's and a name's is that of its first byte; the `$` of a constant is part of the form, not of the name.
///
/// Definitions that begin with a word of `heads::is_passed_over` are any lists, and become `Def::Other`. A byte order mark at the
/// beginning is passed over; it counts among the bytes.
///
/// An error is what was expected, and where: at most the text's length. It is the first that is found, where a whole text's
/// tokens are read before its lists, and its lists before its definitions. A list that isn't ended is told at the text's end,
/// with where it begins, which lies before. Want of memory is a fault of its own.
pub fn read(alloc: Global, file: usize, text: &str) -> Result<Vec<Def>, ReadFault>
    // The result is what the text gives: its definitions, or the first mistake and its place.
    ensures exact { Gives (λ ds. definition_views ds.items) result (reading file text.now) }
    // What is read is what the text spells, and what it spells is read, unless memory runs out.
    ensures found { IfOk result (λ ds. Spells file text.now (definition_views ds.items)) }
    ensures only { (ds : List Definition) → Spells file text.now ds → Gives (λ es. definition_views es.items) result (Ok ds) }
    ensures within { MatchResult result
        (λ ds. DefinitionsAreWithin file (length text.now) (definition_views ds.items))
        (FaultIsWithin file (length text.now)) }
{
    let at = Source {
        alloc,
        file,
        len: text.len(),
    };
    let tokens = tokens::tokens(at, text)?;
    let forms = forms::forms(at, tokens)?;
    definitions::definitions(at, &forms)
}

/// What a text says for a verifier, in its order: each list that `crate::read` passes over, with its place among the
/// definitions that this gives.
///
/// The file's number is any: it stands in each position, beside the offset of a byte of the text. A form's position and a name's
/// is that of its first byte.
///
/// # Errors
///
/// What was expected, and where: the first mistake of the text's tokens, else of its lists, else of the lists that are passed
/// over. What definitions there are isn't looked at. Want of memory is a fault of its own.
pub fn verification(
    alloc: Global,
    file: usize,
    text: &str,
) -> Result<Vec<(usize, VerificationForm)>, ReadFault>
    ensures exact { Gives (λ vs. map numbered_view vs.items) result (verification_in file text.now) }
{
    let at = Source {
        alloc,
        file,
        len: text.len(),
    };
    let tokens = tokens::tokens(at, text)?;
    let forms = forms::forms(at, tokens)?;
    verifications(at, &forms)
}
