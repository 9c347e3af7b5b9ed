//! Which rules a person means.

use cranelift_isle::syntax::{Files, Rule};
use report_names::extents::end_of_form;
use report_names::names::name_of;
use report_witness::witness::term_of;
use std::alloc::{AllocError, Global};

/// What a person calls rules, and where that may be a line, the piece of each file that the line is.
pub struct Called<'a> {
    called: &'a str,
    // Where the line begins in a file, and where it ends.
    lines: Vec<Option<(usize, usize)>>,
}

impl<'a> Drop for Called<'a> {
    fn drop(self) {
        let Called {
            called: _,
            lines: _,
        } = self;
    }
}

impl<'a> Called<'a> {
    /// Rules may be called by their name, by that of their term, by the number of a line that they stand in, or by the end of
    /// the path of their file, a colon and that number.
    pub fn new(alloc: Global, files: &Files, called: &'a str) -> Result<Called<'a>, AllocError> {
        let mut lines = Vec::new(alloc);
        for (name, text) in files.names.iter().zip(&files.texts) {
            lines.push(line_in(name, text, called))?;
        }
        Ok(Called { called, lines })
    }

    /// Whether a rule is so called.
    pub fn is(&self, files: &Files, rule: &Rule) -> bool {
        name_of(rule) == self.called || term_of(rule) == self.called || self.is_at(files, rule)
    }

    // Whether a rule stands in the line.
    fn is_at(&self, files: &Files, rule: &Rule) -> bool {
        let Some(Some((begin, end))) = self.lines.get(rule.pos.file) else {
            return false;
        };
        let Some(text) = files.texts.get(rule.pos.file) else {
            return false;
        };
        rule.pos.offset <= *end && end_of_form(text, rule.pos.offset) > *begin
    }
}

// The piece of a file that a line is, if the file is meant and has that line.
fn line_in(name: &str, text: &str, called: &str) -> Option<(usize, usize)> {
    match called.rsplit_once(':') {
        Some((path, number)) if is_end_of_path(name, path) => line_of(
            text,
            number.parse::<u64>().ok()?,
        ),
        Some(_) => None,
        None => line_of(text, called.parse::<u64>().ok()?),
    }
}

fn is_end_of_path(name: &str, end: &str) -> bool {
    let end = end.strip_prefix("./").unwrap_or(end);
    match name.strip_suffix(end) {
        Some(before) => !end.is_empty() && (before.is_empty() || before.ends_with('/')),
        None => false,
    }
}

// The piece of a text that a line is.
fn line_of(text: &str, wanted: u64) -> Option<(usize, usize)> {
    let mut begin = 0usize;
    let mut number = 1u64;
    for line in text.split('\n') {
        let end = begin.saturating_add(line.len());
        if number == wanted {
            return Some((begin, end));
        }
        begin = end.saturating_add(1);
        number = number.saturating_add(1);
    }
    None
}
