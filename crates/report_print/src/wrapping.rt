//! Lines that are no wider than a screen.

use crate::lines::{columns_of, push_spaces};
use std::alloc::AllocError;

// How many columns a line may have.
const WIDTH: u64 = 100;

/// Adds a text whose first line begins at a column, counted from 0. Where a line has no room for the next word, the text goes
/// on in a new line, behind so many spaces. A word is never parted.
pub fn push_wrapped(
    out: &mut String,
    column: u64,
    indent: u64,
    text: &str,
) -> Result<(), AllocError> {
    let mut column = column;
    for (i, word) in text.split(' ').enumerate() {
        let width = columns_of_text(word);
        if i > 0 {
            column = push_blank(out, column, width, indent)?;
        }
        out.push_str(word)?;
        column = column.saturating_add(width);
    }
    Ok(())
}

// Adds the blank before a word of this width, or a new line if the word has no room. The column of the word.
fn push_blank(out: &mut String, column: u64, width: u64, indent: u64) -> Result<u64, AllocError> {
    if column.saturating_add(width) < WIDTH {
        out.push(' ')?;
        return Ok(column.saturating_add(1));
    }
    out.push('\n')?;
    push_spaces(out, indent)?;
    Ok(indent)
}

/// Whether a blank and a text have room in a line behind so many columns.
pub fn has_room(column: u64, text: &str) -> bool {
    column.saturating_add(columns_of_text(text)) < WIDTH
}

/// Behind how many columns a text has room in a line at most: 0 where it has no room in any.
pub fn room_before(text: &str) -> u64 {
    WIDTH.saturating_sub(columns_of_text(text))
}

// How many columns a text takes in one line.
fn columns_of_text(text: &str) -> u64 {
    let mut columns = 0u64;
    for c in text.chars() {
        columns = columns.saturating_add(columns_of(c));
    }
    columns
}
