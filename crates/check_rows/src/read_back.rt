//! Rows on what the command answers as JSON, read back by a reader of JSON.

use crate::command::push_command;
use crate::files::one_file;
use crate::forms::is_of_form;
use crate::words::{text_at, words_from};
use cranelift_isle::syntax::Files;
use report_queries::samples::SAMPLES;
use serde_json::Value;
use std::alloc::{AllocError, Global};

// What is asked for trees.
const LOWER: &str = "lower --format json a.isle";

// What is asked for the sizes of trees.
const STATS: &str = "stats --format json a.isle";

/// What is asked for errors and warnings.
pub const CHECK: &str = "check --format json a.isle";

// The forms of documents, each with what is asked for such a document.
const ASKED: [(&str, &str); 3] = [("trees", LOWER), ("sizes", STATS), ("checked", CHECK)];

/// Adds each document on a built-in sample that hasn't the documented form, and how many samples there are.
pub fn push_forms(alloc: Global, out: &mut String) -> Result<(), AllocError> {
    for (name, text) in SAMPLES {
        push_wrong_forms(alloc, name, text, out)?;
    }
    let count = SAMPLES.len();
    write!(out, "{count} samples\n")
}

// Adds each document on a text that hasn't the documented form.
fn push_wrong_forms(
    alloc: Global,
    name: &str,
    text: &str,
    out: &mut String,
) -> Result<(), AllocError> {
    for (form, asked) in ASKED {
        if !has_form(alloc, form, asked, text)? {
            write!(out, "the JSON of {name} has another form than {form}\n")?;
        }
    }
    Ok(())
}

// Whether what is answered to words about a text has a form.
fn has_form(
    alloc: Global,
    form: &'static str,
    asked: &str,
    text: &str,
) -> Result<bool, AllocError> {
    let value = document(alloc, asked, text)?;
    is_of_form(alloc, form, &value)
}

/// Adds the value at each path of a row's second file in the trees of its first file, or `nothing` where there is none; and before
/// them that the document with these trees hasn't the documented form, where it hasn't.
pub fn push_values(alloc: Global, files: &Files, out: &mut String) -> Result<(), AllocError> {
    let trees = document(alloc, LOWER, text_at(&files.texts, 0))?;
    if !is_of_form(alloc, "trees", &trees)? {
        out.push_str("the trees have another form\n")?;
    }
    for path in text_at(&files.texts, 1).lines() {
        push_value(alloc, path, trees.pointer(path), out)?;
    }
    Ok(())
}

fn push_value(
    alloc: Global,
    path: &str,
    value: Option<&Value>,
    out: &mut String,
) -> Result<(), AllocError> {
    match value {
        Some(value) => {
            let text = value.to_string(alloc)?;
            write!(out, "{path} {text}\n")
        }
        None => write!(out, "{path} nothing\n"),
    }
}

/// What the command answers to words about the file `a.isle`, read back; null where it is no JSON, or something is told beside.
pub fn document(alloc: Global, asked: &str, text: &str) -> Result<Value, AllocError> {
    let answer = answer_to(alloc, asked, text)?;
    let json = answer.split_once('\n').map_or("", |(_, json)| json);
    match Value::from_str(alloc, json) {
        Ok(value) => Ok(value),
        Err(_) => Ok(Value::Null),
    }
}

// A line with the status, and what is answered to words about the file `a.isle`.
fn answer_to(alloc: Global, asked: &str, text: &str) -> Result<String, AllocError> {
    let words = words_from(alloc, asked, 0)?;
    let files = one_file(alloc, text)?;
    let mut answer = String::new(alloc);
    push_command(alloc, &words, &files, &mut answer)?;
    Ok(answer)
}
