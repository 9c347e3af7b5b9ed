//! Rows: words that ask, and texts of files.

use crate::archive::push_call;
use crate::calls::push_calls;
use crate::code::push_code;
use crate::command::{push_command, push_files};
use crate::documents::{push_edits, push_offsets, push_places};
use crate::errors::push_errors;
use crate::exchange::push_exchange;
use crate::files::{add_file, one_file};
use crate::fixes::push_fix;
use crate::lists::push_lists;
use crate::outputs::push_output;
use crate::questions::{push_answer, push_questions, push_verdicts};
use crate::read_back::{push_forms, push_values};
use crate::texts::push_text;
use crate::words::{text_at, words_from};
use crate::writing::{push_laid, push_printed, push_sample};
use cranelift_isle::syntax::Files;
use std::alloc::{AllocError, Global};

// A row: its line, which is empty before the first row, and the files below it.
struct Row<'a> {
    line: &'a str,
    files: Files,
}

impl<'a> Drop for Row<'a> {
    fn drop(self) {
        let Row { line: _, files: _ } = self;
    }
}

/// What is answered to the rows of a text, each after the row's line.
///
/// A row is a line that begins with `# `, behind it the row's name and its words, and the text of the file `a.isle` below it.
/// A line that begins with `## ` and a name begins another file. What stands before the first row is passed over. The words
/// are those of the command, or the first one is one of those in `push_answered`. For these but `archive`, `code`, `edits`,
/// `values` and `verdicts` only the first file is looked at. The text of a row `shared` has no answer, and stands before the text of
/// each row `questions` or `verdicts` behind it. The last file of a row `verdicts` is a file of records. The text of a row `reply` is
/// what a solver wrote, and that of a row `files` is a project file.
pub fn answers<R: std::rt::Files + AllocGlobal>(rt: &R, text: &str) -> Result<String, AllocError> {
    let alloc = rt.alloc();
    let mut out = String::new(alloc);
    let mut shared = String::new(alloc);
    let mut row = begun(alloc, "")?;
    for line in text.split('\n') {
        if line.starts_with("# ") {
            push_row(rt, &row, &mut shared, &mut out)?;
            row = begun(alloc, line)?;
        } else {
            add_line(alloc, &mut row.files, line)?;
        }
    }
    push_row(rt, &row, &mut shared, &mut out)?;
    Ok(out)
}

// A row without text.
fn begun(alloc: Global, line: &str) -> Result<Row<'_>, AllocError> {
    let files = one_file(alloc, "")?;
    Ok(Row { line, files })
}

fn add_line(alloc: Global, files: &mut Files, line: &str) -> Result<(), AllocError> {
    if let Some(name) = line.strip_prefix("## ") {
        return add_file(alloc, files, name, "");
    }
    match files.texts.last_mut() {
        Some(text) => push_line(text, line),
        None => Ok(()),
    }
}

fn push_line(out: &mut String, line: &str) -> Result<(), AllocError> {
    out.push_str(line)?;
    out.push('\n')
}

// Adds a row's line and what is answered to it.
fn push_row<R: std::rt::Files + AllocGlobal>(
    rt: &R,
    row: &Row<'_>,
    shared: &mut String,
    out: &mut String,
) -> Result<(), AllocError> {
    if row.line.is_empty() {
        return Ok(());
    }
    push_line(out, row.line)?;
    let words = words_from(rt.alloc(), row.line, 2)?;
    push_answered(rt, &words, &row.files, shared, out)
}

// Adds what is answered to a row's words and files.
fn push_answered<R: std::rt::Files + AllocGlobal>(
    rt: &R,
    words: &[String],
    files: &Files,
    shared: &mut String,
    out: &mut String,
) -> Result<(), AllocError> {
    let alloc = rt.alloc();
    let text = text_at(&files.texts, 0);
    match text_at(words, 0) {
        "shared" => shared.push_str(text),
        "questions" => push_behind(alloc, words, shared, text, out),
        "verdicts" => push_judged(alloc, words, shared, &files.texts, out),
        "reply" => push_answer(alloc, words, text, out),
        "files" => push_files(alloc, words, text, out),
        "places" => push_places(text, out),
        "offsets" => push_offsets(words, text, out),
        "edits" => push_edits(alloc, files, out),
        "errors" => push_errors(alloc, text, out),
        "output" => push_output(alloc, words, out),
        "calls" => push_calls(alloc, out),
        "archive" => push_call(alloc, words, files, out),
        "code" => push_code(alloc, words, files, out),
        "laid" => push_laid(alloc, words, text, out),
        "printed" => push_printed(alloc, text, out),
        "sample" => push_sample(alloc, words, out),
        "exchange" => push_exchange(rt, text, out),
        "forms" => push_forms(alloc, out),
        "values" => push_values(alloc, files, out),
        "fix" => push_fix(alloc, words, text, out),
        "lists" => push_lists(alloc, text, out),
        "tree" | "rules" => push_text(alloc, words, text, out),
        _ => push_command(alloc, words, files, out),
    }
}

// Adds what is asked about the rules of a text that stands behind another.
fn push_behind(
    alloc: Global,
    words: &[String],
    shared: &str,
    text: &str,
    out: &mut String,
) -> Result<(), AllocError> {
    let mut whole = String::from_str(alloc, shared)?;
    whole.push_str(text)?;
    push_questions(alloc, words, &whole, out)
}

// Adds what the answers of the last text say of the rules of the first one, which stands behind another.
fn push_judged(
    alloc: Global,
    words: &[String],
    shared: &str,
    texts: &[String],
    out: &mut String,
) -> Result<(), AllocError> {
    let mut whole = String::from_str(alloc, shared)?;
    whole.push_str(text_at(texts, 0))?;
    match texts.last() {
        Some(records) => push_verdicts(alloc, words, &whole, records, out),
        None => Ok(()),
    }
}
