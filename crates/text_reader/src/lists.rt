//! Whether a text has lists, of whatever.

ghost use Rattle.std.specs.Prelude.{length, MatchResult, ⊤};
ghost use Rattle.text_reader.specs.Definitions.{lists_in};
ghost use Rattle.text_reader.specs.Faults.{FaultIsWithin};
ghost use Rattle.text_reader.specs.Views.{Gives};

use crate::errors::ReadFault;
use crate::forms::forms;
use crate::source::Source;
use crate::tokens::tokens;
use std::alloc::Global;

/// Reads the tokens of a text, and its lists.
///
/// # Errors
///
/// The first thing that is wrong with the tokens, or with the lists, and where memory is refused.
pub fn has_lists(alloc: Global, file: usize, text: &str) -> Result<(), ReadFault>
    ensures exact { Gives (λ x. x) result (lists_in file text.now) }
    ensures within { MatchResult result (λ _. ⊤) (FaultIsWithin file (length text.now)) }
{
    let at = Source {
        alloc,
        file,
        len: text.len(),
    };
    let tokens = tokens(at, text)?;
    forms(at, tokens)?;
    Ok(())
}
