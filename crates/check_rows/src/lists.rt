//! Rows that ask for what is read back of lists.

use check_trees::comparing::told;
use std::alloc::{AllocError, Global};

/// Adds what is told of lists of definitions whose terms are printed and read back.
pub fn push_lists(alloc: Global, text: &str, out: &mut String) -> Result<(), AllocError> {
    let lines = told(alloc, text)?;
    out.push_str(&lines)
}
