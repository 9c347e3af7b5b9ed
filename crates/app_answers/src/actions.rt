//! The fixes of reports, as actions of the protocol.

use crate::analysis::Analysis;
use crate::diagnostics::{Shown, diagnostic_of, place_of};
use crate::edits::changes_value;
use app_messages::edits::Edit;
use app_messages::messages::{member, range_of};
use app_messages::refusals::Refusal;
use report_names::extents::{end_of_form, piece_of};
use report_print::report::{Fix, Report};
use serde_json::{Value, json};
use std::alloc::{AllocError, Global};
use text_documents::places::offset_at;

/// The fixes of the reports that are told in a range.
pub fn actions_at(
    alloc: Global,
    analysis: &Analysis,
    file: usize,
    params: &Value,
) -> Result<Value, Refusal> {
    let (begin, end) = range_of(member(params, "range")?)?;
    let text = analysis.text(file);
    let (Some(begin), Some(end)) = (offset_at(text, begin), offset_at(text, end)) else {
        return Err(Refusal::Outside);
    };
    let shown = Shown::new(alloc, analysis)?;
    let mut actions = Vec::new(alloc);
    for report in &analysis.reports {
        if is_told_in(report, text, (file, begin, end)) {
            add_fixes(alloc, &mut actions, &shown, report)?;
        }
    }
    Ok(Value::Array(actions))
}

fn is_told_in(report: &Report, text: &str, (file, begin, end): (usize, usize, usize)) -> bool {
    match place_of(report) {
        Some(pos) => {
            pos.file == file && pos.offset <= end && begin <= end_of_form(text, pos.offset)
        }
        None => false,
    }
}

// Adds an action for each fix of a report. The first one is preferred.
fn add_fixes(
    alloc: Global,
    actions: &mut Vec<Value>,
    shown: &Shown<'_>,
    report: &Report,
) -> Result<(), AllocError> {
    for (number, fix) in report.fixes.iter().enumerate() {
        let mut linked = Vec::new(alloc);
        linked.push(diagnostic_of(alloc, shown, report)?)?;
        let edits = edits_of(alloc, shown.analysis, fix)?;
        let changes = changes_value(alloc, shown.analysis, &edits)?;
        let title = fix.title.as_str();
        let is_first = number == 0;
        let action = json!(in alloc; {
            "title": title,
            "kind": "quickfix",
            "diagnostics": linked,
            "isPreferred": is_first,
            "edit": changes
        })?;
        actions.push(action)?;
    }
    Ok(())
}

// The edits of a fix whose places its files have.
fn edits_of<'a>(
    alloc: Global,
    analysis: &'a Analysis,
    fix: &'a Fix,
) -> Result<Vec<Edit<'a>>, AllocError> {
    let mut edits = Vec::new(alloc);
    for edit in &fix.edits {
        let file = edit.place.pos().file;
        if let Some((begin, end)) = piece_of(alloc, analysis.text(file), edit.place)? {
            edits.push(Edit {
                file,
                begin,
                end,
                text: &edit.text,
            })?;
        }
    }
    Ok(edits)
}
