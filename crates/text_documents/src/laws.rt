//! What holds of places and offsets, whatever finds them.

ghost use Rattle.std.specs.Prelude.{◌≡◌, ◌⊎◌, ℕ, List, length, IfNone, IfSome};
ghost use Rattle.std.specs.Char.Escape.{encode_utf16};
ghost use Rattle.std.specs.Str.{chars};
ghost use Rattle.text_documents.specs.declared.changes.Change.{Change};
ghost use Rattle.text_documents.specs.declared.places.DocumentPosition.{DocumentPosition};
ghost use Rattle.text_documents.specs.Changes.{AreEdits};
ghost use Rattle.text_documents.specs.Places.{IsBetween, IsCutAt, IsEdit, IsInEnd, IsInPair, IsOffsetOf, IsPastAt, IsPlaceAt, LacksLine, units};

use crate::places::{DocumentPosition, offset_at, place_at};

/// A place has one offset.
pub fn places_have_one_offset()
    ensures { (text : List ℕ) (place : DocumentPosition) (a b : ℕ) → IsOffsetOf text place a → IsOffsetOf text place b → a ≡ b }
{}

/// An offset has one place.
pub fn offsets_have_one_place()
    ensures { (text : List ℕ) (offset : ℕ) (p q : DocumentPosition) → IsPlaceAt text offset p → IsPlaceAt text offset q → p ≡ q }
{}

/// Wherever a text is cut there is a place, but between `\r` and `\n`.
pub fn cuts_have_places()
    ensures { (text front back : List ℕ) (offset : ℕ) → IsCutAt text offset front back
        → IsInEnd front back ⊎ ((p : DocumentPosition) × IsPlaceAt text offset p) }
{}

/// No place is between `\r` and `\n`.
pub fn ends_have_no_place_inside()
    ensures { (p : DocumentPosition) (front back : List ℕ) → IsInEnd front back → IsBetween p front back → ⊥ }
{}

/// A place has no offset where the text lacks its line, and inside a surrogate pair.
pub fn places_outside_have_no_offset()
    ensures { (text : List ℕ) (place : DocumentPosition) (offset : ℕ) → LacksLine text place.line ⊎ IsInPair text place
        → IsOffsetOf text place offset → ⊥ }
{}

/// A place in its line isn't past the line's end.
pub fn places_in_a_line_are_not_past_it()
    ensures { (text : List ℕ) (place : DocumentPosition) (a b : ℕ) → IsPlaceAt text a place → IsPastAt text b place → ⊥ }
{}

/// An edit has one outcome.
pub fn edits_have_one_outcome()
    ensures { (bytes : List ℕ) (begin end : DocumentPosition) (new made other : List ℕ) → IsEdit bytes begin end new made
        → IsEdit bytes begin end new other → made ≡ other }
{}

/// A list of changes has one outcome.
pub fn changes_have_one_outcome()
    ensures { (bytes : List ℕ) (changes : List Change) (made other : List ℕ) → AreEdits bytes changes made
        → AreEdits bytes changes other → made ≡ other }
{}

/// Units are those of UTF-16.
pub fn units_are_of_utf16()
    ensures { (c : ℕ) → units c ≡ length (encode_utf16 c) }
{}

/// The offset of an offset's place: that offset. None where it has no place.
pub fn offset_again(text: &str, offset: usize) -> Option<usize>
    ensures same { IfSome result (λ again. again ≡ offset) }
    ensures some { (p : DocumentPosition) → IsPlaceAt (chars text.now) offset p → result ≡ Some offset }
    ensures place { IfSome result (λ _. (p : DocumentPosition) × IsPlaceAt (chars text.now) offset p) }
{
    offset_at(text, place_at(text, offset)?)
}

/// The place of a place's offset: that place, where it isn't past the end of its line, and else the end of the line. None where it
/// has no offset.
pub fn place_again(text: &str, place: DocumentPosition) -> Option<DocumentPosition>
    ensures same { (offset : ℕ) → IsPlaceAt (chars text.now) offset place → result ≡ Some place }
    ensures found { IfSome result (λ p. (offset : ℕ) × IsOffsetOf (chars text.now) place offset × IsPlaceAt (chars text.now) offset p) }
    ensures none { IfNone result (LacksLine (chars text.now) place.line ⊎ IsInPair (chars text.now) place) }
{
    place_at(text, offset_at(text, place)?)
}
