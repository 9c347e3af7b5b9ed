//! Rows on the lines that errors are by themselves.

use cranelift_isle::lower::lower;
use cranelift_isle::syntax::{Def, Error, Fault, Span};
use std::alloc::{AllocError, Global};
use text_reader::errors::ReadFault;
use text_reader::read;

/// Adds a line for each error of a text, which is read as file 3, behind a word where a place of it doesn't begin and end at one
/// position.
pub fn push_errors(alloc: Global, text: &str, out: &mut String) -> Result<(), AllocError> {
    match read(alloc, 3, text) {
        Ok(defs) => push_refusal(alloc, &defs, out),
        Err(ReadFault::Text(_)) => out.push_str("not read\n"),
        Err(ReadFault::Memory(error)) => Err(error),
    }
}

fn push_refusal(alloc: Global, defs: &[Def], out: &mut String) -> Result<(), AllocError> {
    match lower(alloc, defs, true) {
        Ok(_) => out.push_str("accepted\n"),
        Err(Fault::Errors(errors)) => push_lines(&errors, out),
        Err(Fault::Memory(error)) => Err(error),
    }
}

fn push_lines(errors: &[Error], out: &mut String) -> Result<(), AllocError> {
    for error in errors {
        let places = if is_single(error) { "" } else { "wide " };
        write!(out, "{places}{error}\n")?;
    }
    Ok(())
}

fn is_single(error: &Error) -> bool {
    match error {
        Error::TypeError { span, .. }
        | Error::UnreachableError { span, .. }
        | Error::LimitError { span, .. } => is_one_place(span),
        Error::OverlapError { rules, .. } => rules.iter().all(|span| is_one_place(span)),
        Error::ShadowedError { shadowed, mask } => {
            is_one_place(mask) && shadowed.iter().all(|span| is_one_place(span))
        }
    }
}

fn is_one_place(span: &Span) -> bool {
    *span == Span::new_single(span.from)
}
