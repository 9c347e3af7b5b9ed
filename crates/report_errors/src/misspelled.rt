//! Words that stand where only a few are known.

use crate::nearest::{KnownNames, Nearest};
use core_syntax::syntax::Pos;
use report_names::extents::end_of_form;
use report_print::report::Report;
use std::alloc::{AllocError, Global};

/// Adds the question whether one of the words that are known at a place of a text is meant there, where one is near. If a list
/// begins at the place, it is its first word.
///
/// # Errors
///
/// Where memory is refused.
pub fn add_question_at(
    alloc: Global,
    report: &mut Report,
    text: &str,
    pos: Pos,
    known: &[&str],
) -> Result<(), AllocError> {
    let rest = text.get(pos.offset..).unwrap_or("");
    let word = rest.strip_prefix("(").unwrap_or(rest).trim_start();
    let pos = Pos {
        file: pos.file,
        offset: text.len().saturating_sub(word.len()),
    };
    let end = end_of_form(word, 0);
    let mut names = KnownNames::new(alloc);
    for word in known {
        names.push(word)?;
    }
    let mut nearest = Nearest::new(alloc, "", word.get(..end).unwrap_or(""));
    nearest.look_through(&names.in_order()?)?;
    nearest.add_to(report, pos)
}
