//! Errors as lines of text.

use crate::places::Places;
use core_syntax::syntax::{Error, Span};
use std::alloc::{AllocError, Global};
use std::fmt::Display;
use std::slice;
use text_lines::LineTable;

/// One line for each error, in order. A place is shown as `places` says, and a span stands for the place
/// where it begins.
pub fn error_lines(
    alloc: Global,
    errors: &[Error],
    places: Places<'_>,
) -> Result<String, AllocError> {
    let Places::Lines(text) = places else {
        return lines_at(alloc, errors, places);
    };
    let table = LineTable::new(alloc, text)?;
    lines_at(alloc, errors, Places::Table(&table))
}

// The lines of errors whose places are shown so.
fn lines_at(alloc: Global, errors: &[Error], places: Places<'_>) -> Result<String, AllocError> {
    let mut out = String::new(alloc);
    for error in errors {
        push_error(&mut out, error, places)?;
        out.push('\n')?;
    }
    Ok(out)
}

// An error without the end of its line.
fn push_error(out: &mut String, error: &Error, places: Places<'_>) -> Result<(), AllocError> {
    let kind = error.kind();
    write!(out, "{kind} at ")?;
    match error {
        Error::TypeError { msg, span } => push_placed(out, slice::from_ref(span), msg, places),
        Error::UnreachableError { msg, span } => {
            push_placed(out, slice::from_ref(span), msg, places)
        }
        Error::LimitError { msg, span, .. } => {
            push_placed(out, slice::from_ref(span), msg, places)
        }
        Error::OverlapError { msg, rules } => push_placed(out, rules, msg, places),
        Error::ShadowedError { shadowed, mask } => push_shadowed(out, shadowed, *mask, places),
    }
}

fn push_placed<M: Display>(
    out: &mut String,
    spans: &[Span],
    msg: &M,
    places: Places<'_>,
) -> Result<(), AllocError> {
    push_places(out, spans, places)?;
    write!(out, ": {msg}")
}

fn push_shadowed(
    out: &mut String,
    shadowed: &[Span],
    mask: Span,
    places: Places<'_>,
) -> Result<(), AllocError> {
    push_places(out, shadowed, places)?;
    out.push_str(" by ")?;
    places.push(out, mask.from)
}

// Places with commas between them.
fn push_places(out: &mut String, spans: &[Span], places: Places<'_>) -> Result<(), AllocError> {
    for (i, span) in spans.iter().enumerate() {
        if i > 0 {
            out.push_str(", ")?;
        }
        places.push(out, span.from)?;
    }
    Ok(())
}
