//! Comments that allow a warning.

use cranelift_isle::syntax::{Def, Files};
use report_names::definitions::definition_around;
use report_print::report::Report;

/// Whether a comment above the definition that a warning is told at allows it: one of the lines of comments that end right above
/// the definition's is `; isle: allow NAME`, where further names stand behind commas.
pub(crate) fn is_allowed_above(files: &Files, defs: &[Def], report: &Report) -> bool {
    match text_above(files, defs, report) {
        Some(text) => allows(text, report.kind),
        None => false,
    }
}

// The text up to the definition that a report is told at.
fn text_above<'a>(files: &'a Files, defs: &[Def], report: &Report) -> Option<&'a str> {
    let label = report.labels.first()?;
    let place = definition_around(defs, label.pos)?.place()?;
    files.texts.get(place.file)?.get(..place.offset)
}

// Whether the comments above the last line of a text allow warnings of a kind.
fn allows(text: &str, kind: &str) -> bool {
    for line in text.rsplit('\n').skip(1) {
        let Some(comment) = line.trim().strip_prefix(';') else {
            return false;
        };
        if let Some(names) = comment.trim().strip_prefix("isle: allow ") {
            if names.split(',').any(|name| name.trim() == kind) {
                return true;
            }
        }
    }
    false
}
