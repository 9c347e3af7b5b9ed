//! What solvers wrote, and what it is read as.

use spec_questions::replies::{Reply, reply_in};
use std::alloc::{AllocError, Global};

/// Adds what it comes to that a solver wrote this, where it was asked for so many values: `right`, `wrong` with the values, or
/// how the text begins, where it is no answer.
pub fn push_reply(
    alloc: Global,
    written: &str,
    count: usize,
    out: &mut String,
) -> Result<(), AllocError> {
    match &reply_in(alloc, written, count)? {
        Reply::Unsat => out.push_str("right\n"),
        Reply::Sat(values) => push_values(values, out),
        Reply::Other(said) => write!(out, "{said}\n"),
    }
}

// Adds that a rule is wrong, and values that show it.
fn push_values(values: &[String], out: &mut String) -> Result<(), AllocError> {
    out.push_str("wrong")?;
    for value in values {
        write!(out, " {value}")?;
    }
    out.push('\n')
}
