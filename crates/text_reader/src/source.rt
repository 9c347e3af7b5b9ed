//! What is read: where memory comes from, and which positions its text has.

use core_syntax::syntax::Pos;
use std::alloc::Global;

/// The text that is read.
#[derive(Clone, Copy)]
pub struct Source {
    /// Where the trees' memory comes from.
    pub alloc: Global,
    /// The file's number, which each position has.
    pub file: usize,
    /// How many bytes the text has: positions lie below it.
    pub len: usize,
}
