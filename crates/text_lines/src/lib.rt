//! The lines of a text: in which line and column a place of it stands.
#![tactic(auto)]

ghost use Rattle.std.specs.Prelude.{◌≡◌, ◌+◌, ◌++◌, ◌∷◌, ◌≤◌, ◌<◌, [], ℕ, List, IfOk, length};
ghost use Rattle.core_syntax.specs.Places.{line_of};
ghost use Rattle.text_lines.specs.Columns.{column_of};
ghost use Rattle.text_lines.specs.Marks.{AreMarks, IsBehind};

use std::alloc::{AllocError, Global};

// At each so many bytes of a text a table has a mark.
const STEP: usize = 256;

/// The line and the column that a place of a text stands in.
#[derive(Clone, Copy)]
pub struct LinePlace {
    /// The line, from 1: a line feed ends one.
    pub line: usize,
    /// The column, from 1, in characters.
    pub column: usize,
}

impl LinePlace {
    // The place behind some bytes that follow this one.
    fn past(self, bytes: &[u8]) -> LinePlace
        requires line { self.line + length bytes.now < usize.MAX }
        requires column { self.column + length bytes.now < usize.MAX }
        ensures { (front : List ℕ) → IsBehind front self → IsBehind (front ++ bytes.now) result }
    {
        let mut place = self;
        for byte in bytes {
            place = place.behind(*byte);
        }
        place
    }

    // The place behind a byte.
    fn behind(self, byte: u8) -> LinePlace
        requires line { self.line < usize.MAX }
        requires column { self.column < usize.MAX }
        ensures place { (front : List ℕ) → IsBehind front self → IsBehind (front ++ byte ∷ []) result }
        ensures line { result.line ≤ self.line + 1 }
        ensures column { result.column ≤ self.column + 1 }
    {
        match byte {
            b'\n' => LinePlace {
                line: self.line + 1,
                column: 1,
            },
            128..=191 => self,
            _ => LinePlace {
                line: self.line,
                column: self.column + 1,
            },
        }
    }
}

/// A text with a mark at each 256th byte, by which a place is found without the text being read from its beginning.
pub struct LineTable<'a> {
    text: &'a str,
    marks: Vec<LinePlace>,
    end: LinePlace,
    ghost marked: { AreMarks text.now (length text.now) marks.items },
    ghost ended: { IsBehind text.now end },
}

impl<'a> Drop for LineTable<'a> {
    fn drop(self) {
        let LineTable {
            text: _,
            marks: _,
            end: _,
        } = self;
    }
}

impl<'a> LineTable<'a> {
    /// The table of a text.
    ///
    /// # Errors
    ///
    /// If memory is refused.
    pub fn new(alloc: Global, text: &'a str) -> Result<LineTable<'a>, AllocError>
        ensures { IfOk result (λ table. table.text.now ≡ text.now) }
    {
        let mut marks = Vec::new(alloc);
        let mut end = LinePlace { line: 1, column: 1 };
        for (number, byte) in text.as_bytes().iter().enumerate() {
            if marks.len() * STEP <= number {
                marks.push(end)?;
            }
            end = end.behind(*byte);
        }
        Ok(LineTable { text, marks, end })
    }

    /// The text.
    pub fn text(&self) -> &'a str
        ensures { result.now ≡ self.now.text.now }
    {
        self.text
    }

    /// The line and the column of an offset in the text's bytes. An offset past the end stands where the text ends.
    pub fn place(&self, offset: usize) -> LinePlace
        ensures line { result.line ≡ line_of self.now.text.now offset }
        ensures column { result.column ≡ column_of self.now.text.now offset }
    {
        let number = offset / STEP;
        match self.marks.get(number) {
            Some(mark) => {
                let bytes = self.text.as_bytes();
                mark.past(&bytes[number * STEP..offset.min(bytes.len())])
            }
            None => self.end,
        }
    }
}
