//! Changes of a text between two places.

ghost use Rattle.std.specs.Prelude.{◌≡◌, ℕ, List, IfOk, IfSome, IsSomeAnd, string_bytes, IsCharBoundary};
ghost use Rattle.std.specs.Str.{chars};
ghost use Rattle.text_documents.specs.Places.{IsEdit, IsRange, replaced};

use crate::places::{DocumentPosition, offset_at};
use std::alloc::{AllocError, Global};

/// A text where what is between two places is replaced. A place past the end of its line is the line's end, as `offset_at` has it.
///
/// None where a place isn't in the text, and where `end` lies before `begin`.
///
/// # Errors
///
/// Where memory is refused. None needs no memory.
pub fn edited(
    alloc: Global,
    text: &str,
    begin: DocumentPosition,
    end: DocumentPosition,
    new: &str,
) -> Result<Option<String>, AllocError>
    ensures made { IfOk result (λ made. IfSome made (λ s. IsEdit text.now begin end new.now (string_bytes s))) }
    ensures only { (bytes : List ℕ) → IsEdit text.now begin end new.now bytes
        → IfOk result (λ made. IsSomeAnd made (λ s. string_bytes s ≡ bytes)) }
    ensures refused { ((bytes : List ℕ) → IsEdit text.now begin end new.now bytes → ⊥) → result ≡ Ok None }
{
    match range_at(text, begin, end) {
        Some(range) => Ok(Some(replaced(alloc, text, range.0, range.1, new)?)),
        None => Ok(None),
    }
}

/// The byte offsets of two places, each as `offset_at` has it.
///
/// None where a place isn't in the text, and where `end` lies before `begin`.
pub fn range_at(
    text: &str,
    begin: DocumentPosition,
    end: DocumentPosition,
) -> Option<(usize, usize)>
    ensures range { IfSome result (λ r. IsRange (chars text.now) begin end r.0 r.1) }
    ensures only { (from to : ℕ) → IsRange (chars text.now) begin end from to → result ≡ Some (from, to) }
{
    let from = offset_at(text, begin)?;
    let to = offset_at(text, end)?;
    if to < from {
        return None;
    }
    Some((from, to))
}

// A text where the bytes from `from` to `to` are replaced.
fn replaced(
    alloc: Global,
    text: &str,
    from: usize,
    to: usize,
    new: &str,
) -> Result<String, AllocError>
    requires from { IsCharBoundary text.now from }
    requires to { IsCharBoundary text.now to }
    ensures { IfOk result (λ made. string_bytes made ≡ replaced text.now from to new.now) }
{
    let mut made = String::from_str(alloc, &text[..from])?;
    made.push_str(new)?;
    made.push_str(&text[to..])?;
    Ok(made)
}
