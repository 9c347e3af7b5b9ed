//! How the places of errors are shown.

use core_syntax::syntax::{Def, Pos};
use std::alloc::AllocError;
use text_lines::LineTable;

/// How places are shown: two numbers with a colon between them.
#[derive(Clone, Copy)]
pub enum Places<'a> {
    /// The number of the file, and the offset.
    Files,
    /// The line and the column in this text, which is the only file. Both count from 1, a column in
    /// characters.
    Lines(&'a str),
    /// The same, in the text of a table.
    Table(&'a LineTable<'a>),
    /// 0, and the number from 0 of the definition that the place lies in. These are the definitions of the
    /// only file, in its order.
    Definitions(&'a [Def]),
}

impl<'a> Places<'a> {
    /// Adds a place to a text.
    pub fn push(self, out: &mut String, pos: Pos) -> Result<(), AllocError> {
        let (first, second) = match self {
            Places::Files => (pos.file, pos.offset),
            Places::Lines(text) => {
                let table = LineTable::new(*out.allocator(), text)?;
                let place = table.place(pos.offset);
                (place.line, place.column)
            }
            Places::Table(table) => {
                let place = table.place(pos.offset);
                (place.line, place.column)
            }
            Places::Definitions(defs) => (0, definition_at(defs, pos.offset)),
        };
        write!(out, "{first}:{second}")
    }
}

// The number of the last definition that begins at an offset or before it.
fn definition_at(defs: &[Def], offset: usize) -> usize {
    let mut found = 0;
    for (number, def) in defs.iter().enumerate() {
        if begins_by(def, offset) {
            found = number;
        }
    }
    found
}

// Whether a definition begins at an offset or before it. One that is passed over has no place.
fn begins_by(def: &Def, offset: usize) -> bool {
    match def.place() {
        Some(pos) => pos.offset <= offset,
        None => false,
    }
}
