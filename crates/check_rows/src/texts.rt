//! Rows that ask for trees as `isle-tree` prints them, or for rules as they are read.

use crate::rules::rules_of_text;
use crate::words::has_word;
use report_queries::answers::TreesOrErrors;
use report_queries::answers_texts::{TextOptions, answer_to_text};
use std::alloc::{AllocError, Global};

/// Adds what is answered to a row's text.
///
/// The first of the row's words is `tree`, or `rules`: then nothing is lowered, and where nothing is wrong with the rules the
/// answer is a line with the number of terms and a line for each rule, with its name and its variables. Words behind it:
/// `no-expand`, internal extractors aren't expanded; `prefixes`, in place of the whole text each beginning of it that ends with
/// a line is answered, after a line `## ` with the number of its lines; of `tree` also `lines`, places are lines and columns of
/// the text; and of `rules` also `typed`, below each rule are its typed parts.
pub fn push_text(
    alloc: Global,
    words: &[String],
    text: &str,
    out: &mut String,
) -> Result<(), AllocError> {
    if has_word(words, "prefixes") {
        push_prefixes(alloc, words, text, out)
    } else {
        push_answer(alloc, words, text, out)
    }
}

// Adds what is answered to each beginning of a text.
fn push_prefixes(
    alloc: Global,
    words: &[String],
    text: &str,
    out: &mut String,
) -> Result<(), AllocError> {
    let mut prefix = String::new(alloc);
    let mut count = 0usize;
    for line in text.lines() {
        prefix.push_str(line)?;
        prefix.push('\n')?;
        count = count.saturating_add(1);
        write!(out, "## {count}\n")?;
        push_answer(alloc, words, &prefix, out)?;
    }
    Ok(())
}

// Adds the status and the text of what is answered to a text.
fn push_answer(
    alloc: Global,
    words: &[String],
    text: &str,
    out: &mut String,
) -> Result<(), AllocError> {
    push_told(answer_by(alloc, words, text)?, out)
}

/// Adds an answer, below its status.
pub fn push_told(answer: TreesOrErrors, out: &mut String) -> Result<(), AllocError> {
    match answer {
        TreesOrErrors::Trees(text) => write!(out, "status 0\n{text}"),
        TreesOrErrors::Errors(text) => write!(out, "status 1\n{text}"),
    }
}

fn answer_by(alloc: Global, words: &[String], text: &str) -> Result<TreesOrErrors, AllocError> {
    let expand = !has_word(words, "no-expand");
    if has_word(words, "rules") {
        rules_of_text(alloc, text, expand, has_word(words, "typed"))
    } else {
        let lines = has_word(words, "lines");
        answer_to_text(alloc, text, TextOptions { expand, lines })
    }
}
