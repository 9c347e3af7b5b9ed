//! Places in a text and its byte offsets, each from the other.

ghost use Rattle.std.specs.Prelude.{◌≡◌, ◌+◌, ◌∷◌, ◌<◌, ◌≤◌, ◌⊎◌, ◌&&◌, ◌==◌, ℕ, All, List, IfNone, IfOk, IfSome, option_map, if◌then◌else◌};
ghost use Rattle.std.specs.Char.{len_utf8};
ghost use Rattle.std.specs.Str.{chars, IsUtf8};
ghost use Rattle.text_documents.specs.declared.places.DocumentPosition.{DocumentPosition};
ghost use Rattle.text_documents.specs.Places.{IsCutAt, IsInEnd, IsInPair, IsOffsetOf, IsPlaceAt, LacksLine, units};
ghost use Rattle.text_documents.specs.Tables.{IsMark};
ghost use Rattle.text_documents.specs.Walks.{back_at, place_after, place_past};

use crate::lines::{after_lines, after_units};
use std::alloc::{AllocError, Global};

/// A place in a text: LSP 3.17's `Position`.
#[derive(Clone, Copy, PartialEq, Eq, Debug)]
pub struct DocumentPosition {
    /// The line, counted from 0.
    pub line: usize,
    /// How many UTF-16 units of the line stand before the place.
    pub character: usize,
}

// How a text is walked over.
#[derive(Clone, Copy)]
struct Walk {
    // the place that is reached
    place: DocumentPosition,
    // whether it is behind `\r`
    after_return: bool,
}

const START: Walk = Walk {
    place: DocumentPosition {
        line: 0,
        character: 0,
    },
    after_return: false,
};

/// The byte offset of a place, from 0 to the text's length. Past the end of its line that is the line's end, before the
/// characters that end it (LSP 3.17: a greater character "defaults back to the line length").
///
/// None where the text has no such line, and where the place is inside a surrogate pair.
pub fn offset_at(text: &str, place: DocumentPosition) -> Option<usize>
    ensures offset { IfSome result (IsOffsetOf (chars text.now) place) }
    ensures only { (o : ℕ) → IsOffsetOf (chars text.now) place o → result ≡ Some o }
    ensures none { IfNone result (LacksLine (chars text.now) place.line ⊎ IsInPair (chars text.now) place) }
{
    let back = back_at(text, place)?;
    Some(text.len() - back.len())
}

/// The place of a byte offset.
///
/// None where the offset isn't at the boundary of a character of the text, and between a `\r` and its `\n`.
pub fn place_at(text: &str, offset: usize) -> Option<DocumentPosition>
    ensures place { IfSome result (IsPlaceAt (chars text.now) offset) }
    ensures only { (p : DocumentPosition) → IsPlaceAt (chars text.now) offset p → result ≡ Some p }
    ensures none { IfNone result ((front back : List ℕ) → IsCutAt (chars text.now) offset front back → IsInEnd front back) }
{
    START.over(text, offset)
}

// What follows a place.
fn back_at(text: &str, place: DocumentPosition) -> Option<&str>
    ensures text { IfSome result (λ rest. IsUtf8 rest.now) }
    ensures rest { option_map (λ rest. chars rest.now) result ≡ back_at place (chars text.now) }
{
    after_units(after_lines(text, place.line)?, place.character)
}

impl Walk {
    // The place behind the first `len` bytes of what follows. None where there are fewer, or they end inside a character, or
    // between `\r` and `\n`.
    fn over(self, text: &str, len: usize) -> Option<DocumentPosition>
        requires line { self.place.line + len ≤ usize.MAX }
        requires character { self.place.character + len ≤ usize.MAX }
        ensures { result ≡ place_after self.place self.after_return len (chars text.now) }
    {
        let mut walk = self;
        let mut left = len;
        for c in text.chars() {
            if left == 0 {
                return walk.place_before(c);
            }
            left = left.checked_sub(c.len_utf8())?;
            walk = walk.past(c);
        }
        if left == 0 { Some(walk.place) } else { None }
    }

    // The place before a character, unless that is the `\n` of a `\r`.
    fn place_before(self, next: char) -> Option<DocumentPosition>
        ensures { result ≡ (if self.after_return && next == 10 then None else Some self.place) }
    {
        if self.after_return && next == '\n' {
            return None;
        }
        Some(self.place)
    }

    fn past(self, c: char) -> Walk
        requires line { self.place.line < usize.MAX }
        requires character { self.place.character + units c ≤ usize.MAX }
        ensures place { result.place ≡ place_past self.place self.after_return c }
        ensures after_return { result.after_return ≡ (c == 13) }
    {
        let place = match c {
            '\n' if self.after_return => self.place,
            '\n' | '\r' => DocumentPosition {
                line: self.place.line + 1,
                character: 0,
            },
            _ => DocumentPosition {
                line: self.place.line,
                character: self.place.character + c.len_utf16(),
            },
        };
        Walk {
            place,
            after_return: c == '\r',
        }
    }
}

// How far a text is walked over, and what follows.
#[derive(Clone, Copy)]
struct Mark<'a> {
    offset: usize,
    walk: Walk,
    rest: &'a str,
}

impl<'a> Mark<'a> {
    // The mark behind a character, which the rest follows.
    fn past(self, c: char, rest: &'a str) -> Mark<'a>
        requires offset { self.offset + 4 ≤ usize.MAX }
        requires line { self.walk.place.line ≤ self.offset }
        requires character { self.walk.place.character ≤ self.offset }
        ensures mark { (text : List ℕ) → IsMark text self.entry → chars self.entry.rest.now ≡ c ∷ chars rest.now → IsMark text result }
        ensures rest { result.rest.now ≡ rest.now }
        ensures offset { result.offset ≡ self.entry.offset + len_utf8 c }
    {
        Mark {
            offset: self.offset + c.len_utf8(),
            walk: self.walk.past(c),
            rest,
        }
    }
}

// A table has marks at about each so many bytes.
const STEP: usize = 256;

/// A text with marks, by which the place of an offset is found without the text being read from its beginning.
pub struct PlaceTable<'a> {
    text: &'a str,
    marks: Vec<Mark<'a>>,
    ghost marked: { All (IsMark (chars text.now)) marks.items },
}

impl<'a> Drop for PlaceTable<'a> {
    fn drop(self) {
        let PlaceTable { text: _, marks: _ } = self;
    }
}

impl<'a> PlaceTable<'a> {
    /// The table of a text.
    ///
    /// # Errors
    ///
    /// If memory is refused.
    pub fn new(alloc: Global, text: &'a str) -> Result<PlaceTable<'a>, AllocError>
        ensures { IfOk result (λ table. table.text.now ≡ text.now) }
    {
        let mut marks = Vec::new(alloc);
        let mut next = 0usize;
        let mut mark = Mark {
            offset: 0,
            walk: START,
            rest: text,
        };
        let mut rest = text.chars();
        while let Some(c) = rest.next() {
            if mark.offset >= next {
                marks.push(mark)?;
                next = next.saturating_add(STEP);
            }
            mark = mark.past(c, rest.as_str());
        }
        Ok(PlaceTable { text, marks })
    }

    /// The place of a byte offset in the text, as `place_at` gives it.
    pub fn place_at(&self, offset: usize) -> Option<DocumentPosition>
        ensures place { IfSome result (IsPlaceAt (chars self.now.text.now) offset) }
        ensures only { (p : DocumentPosition) → IsPlaceAt (chars self.now.text.now) offset p → result ≡ Some p }
        ensures none { IfNone result ((front back : List ℕ) → IsCutAt (chars self.now.text.now) offset front back → IsInEnd front back) }
    {
        let mark = self.mark_before(offset);
        mark.walk.over(mark.rest, offset - mark.offset)
    }

    // The last mark that is at an offset or before it, or the beginning.
    fn mark_before(&self, offset: usize) -> Mark<'a>
        ensures mark { IsMark (chars self.now.text.now) result }
        ensures before { result.offset ≤ offset }
    {
        let count = self.marks.partition_point(|mark| mark.offset <= offset);
        match self.marks.get(count.saturating_sub(1)) {
            Some(mark) if mark.offset <= offset => *mark,
            _ => Mark {
                offset: 0,
                walk: START,
                rest: self.text,
            },
        }
    }
}
