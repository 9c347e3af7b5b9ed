//! Rows on fixes of reports, made as an editor makes them.

use crate::documents::document_of;
use crate::forms::is_accepted;
use crate::read_back::{CHECK, document};
use crate::words::text_at;
use serde_json::Value;
use std::alloc::{AllocError, Global};

/// Adds whether a fix mends a text: what it makes of it is accepted, and the report is gone. The words behind the row's first one are
/// the code of the report, which is the first one of this code, and the number of the fix. The text has no line's end at its end where
/// the row's text has one.
pub fn push_fix(
    alloc: Global,
    words: &[String],
    text: &str,
    out: &mut String,
) -> Result<(), AllocError> {
    let number = text_at(words, 2).parse::<usize>().unwrap_or(usize::MAX);
    if mends(alloc, text_at(words, 1), number, document_of(text))? {
        out.push_str("mended\n")
    } else {
        out.push_str("not mended\n")
    }
}

fn mends(alloc: Global, code: &str, number: usize, text: &str) -> Result<bool, AllocError> {
    let before = document(alloc, CHECK, text)?;
    let edits = edits_of(&before, code, number).unwrap_or(&[]);
    let made = mended(alloc, text, edits)?;
    let after = document(alloc, CHECK, &made)?;
    Ok(!edits.is_empty() && is_accepted(&after) && report_of(&after, code).is_none())
}

// The first report of a code among the errors and the warnings of a document.
fn report_of<'a>(value: &'a Value, code: &str) -> Option<&'a Value> {
    match report_at(value, "errors", code) {
        Some(report) => Some(report),
        None => report_at(value, "warnings", code),
    }
}

fn report_at<'a>(value: &'a Value, key: &str, code: &str) -> Option<&'a Value> {
    for report in value.get(key).and_then(Value::as_array)? {
        if report.get("code").and_then(Value::as_str) == Some(code) {
            return Some(report);
        }
    }
    None
}

// The edits of a fix of the first report of a code, where each of them is one.
fn edits_of<'a>(value: &'a Value, code: &str, number: usize) -> Option<&'a [Value]> {
    let report = report_of(value, code)?;
    let fixes = report.get("fixes").and_then(Value::as_array)?;
    let edits = fixes.get(number)?.get("edits").and_then(Value::as_array)?;
    for edit in edits {
        parts_of(edit)?;
    }
    Some(edits.as_slice())
}

// Where an edit begins and ends, and what it puts there.
fn parts_of(edit: &Value) -> Option<(usize, usize, &str)> {
    let offset = edit.get("offset").and_then(Value::as_u64)?;
    let end = edit.get("end").and_then(Value::as_u64)?;
    let new = edit.get("text").and_then(Value::as_str)?;
    Some((offset as usize, end as usize, new))
}

// What edits make of a text. They stand in the order of the text.
fn mended(alloc: Global, text: &str, edits: &[Value]) -> Result<String, AllocError> {
    let mut made = String::new(alloc);
    let mut at = 0usize;
    for edit in edits {
        if let Some((offset, end, new)) = parts_of(edit) {
            made.push_str(text.get(at..offset).unwrap_or(""))?;
            made.push_str(new)?;
            at = end;
        }
    }
    made.push_str(text.get(at..).unwrap_or(""))?;
    Ok(made)
}
