//! Rows that ask for texts as they are written.

use crate::texts::push_told;
use report_queries::answers::TreesOrErrors;
use report_queries::answers_texts::syntax_error_line;
use report_queries::sample_run::run_sample;
use std::alloc::{AllocError, Global};
use text_reader::errors::ReadFault;
use text_reader::{read, verification};
use text_writer::formatted::{Indentation, formatted};
use text_writer::verification::print_all;

/// Adds a text in the usual layout, by two columns where the words behind the row's first one say so; or what is wrong with it.
pub fn push_laid(
    alloc: Global,
    words: &[String],
    text: &str,
    out: &mut String,
) -> Result<(), AllocError> {
    let indentation = match words.get(1) {
        Some(_) => Indentation::TwoColumns,
        None => Indentation::UnderPart,
    };
    match formatted(alloc, 0, indentation, text) {
        Ok(laid) => push_told(TreesOrErrors::Trees(laid), out),
        Err(ReadFault::Text(error)) => {
            let line = syntax_error_line(alloc, text, &error)?;
            push_told(TreesOrErrors::Errors(line), out)
        }
        Err(ReadFault::Memory(error)) => Err(error),
    }
}

/// Adds a text's definitions and what it says for a verifier, printed as one text; or that they can't be read or printed.
pub fn push_printed(alloc: Global, text: &str, out: &mut String) -> Result<(), AllocError> {
    let (Ok(defs), Ok(forms)) = (read(alloc, 0, text), verification(alloc, 0, text)) else {
        return out.push_str("not read\n");
    };
    match print_all(alloc, &defs, &forms) {
        Ok(text) => write!(out, "status 0\n{text}"),
        Err(_) => out.push_str("not printed\n"),
    }
}

/// Adds the status of `isle-tree` with the words behind the row's first one, and what it writes.
pub fn push_sample(alloc: Global, words: &[String], out: &mut String) -> Result<(), AllocError> {
    let mut trees = Vec::new(alloc);
    let mut errors = Vec::new(alloc);
    let status = run_sample(
        alloc,
        words.get(1..).unwrap_or(&[]),
        &mut trees,
        &mut errors,
    );
    write!(out, "status {status}\n")?;
    out.push_str(&String::from_utf8_lossy(alloc, &trees)?)?;
    out.push_str(&String::from_utf8_lossy(alloc, &errors)?)
}
