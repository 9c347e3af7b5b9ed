//! Changes of a text in turn: the whole of it, or what is between two places.

ghost use Rattle.std.specs.Prelude.{◌≡◌, ℕ, List, IfOk, IfSome, IsSomeAnd, string_bytes};
ghost use Rattle.text_documents.specs.Changes.{AreEdits, IsEditBy};

use crate::edits::edited;
use crate::places::DocumentPosition;
use std::alloc::{AllocError, Global};

/// A change of a document's text (LSP 3.17: `TextDocumentContentChangeEvent`).
#[derive(Drop)]
pub enum Change {
    /// The whole text is replaced.
    Whole(String),
    /// What is between two places is replaced, as `edited` has it.
    Range {
        begin: DocumentPosition,
        end: DocumentPosition,
        text: String,
    },
}

// A text where changes are made, each of the text that the one before it left. None where one of them is refused.
pub(crate) fn changed(
    alloc: Global,
    text: &str,
    changes: &[Change],
) -> Result<Option<String>, AllocError>
    ensures made { IfOk result (λ made. IfSome made (λ s. AreEdits text.now changes.now (string_bytes s))) }
    ensures only { (bytes : List ℕ) → AreEdits text.now changes.now bytes
        → IfOk result (λ made. IsSomeAnd made (λ s. string_bytes s ≡ bytes)) }
{
    let mut now = String::from_str(alloc, text)?;
    for change in changes {
        match after(alloc, now.as_str(), change)? {
            Some(next) => now = next,
            None => return Ok(None),
        }
    }
    Ok(Some(now))
}

// A text where one change is made. None where it is refused.
fn after(alloc: Global, text: &str, change: &Change) -> Result<Option<String>, AllocError>
    ensures made { IfOk result (λ made. IfSome made (λ s. IsEditBy text.now change.now (string_bytes s))) }
    ensures only { (bytes : List ℕ) → IsEditBy text.now change.now bytes
        → IfOk result (λ made. IsSomeAnd made (λ s. string_bytes s ≡ bytes)) }
{
    match change {
        Change::Whole(whole) => Ok(Some(String::from_str(alloc, whole.as_str())?)),
        Change::Range {
            begin,
            end,
            text: new,
        } => edited(alloc, text, *begin, *end, new.as_str()),
    }
}
