//! Parts of texts that can't be read.

use core_syntax::syntax::Pos;

/// A part of the text of a file: a form that can't be read, or whose definition needs one that can't be read.
#[derive(Clone, Copy)]
pub struct LostPart {
    /// The file.
    pub file: usize,
    /// Where the part begins.
    pub begin: usize,
    /// Where it ends.
    pub end: usize,
}

impl LostPart {
    /// Whether a position is in this part.
    pub fn has(&self, pos: Pos) -> bool {
        self.file == pos.file && self.begin <= pos.offset && pos.offset < self.end
    }

    /// Where this part begins.
    pub fn begin(&self) -> Pos {
        Pos {
            file: self.file,
            offset: self.begin,
        }
    }
}
