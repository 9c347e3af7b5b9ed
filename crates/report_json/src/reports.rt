//! Reports of what is wrong.

use crate::places::LinePlaces;
use report_names::extents::piece_of;
use report_print::lines::{file_name, file_text};
use report_print::report::{Edit, Fix, Label, Note, Report};
use std::alloc::AllocError;
use text_json::Json;

/// Adds reports at a key, in order.
pub(crate) fn push_reports(
    json: &mut Json,
    places: &LinePlaces<'_>,
    key: &str,
    reports: &[Report],
) -> Result<(), AllocError> {
    json.begin_list_at(key)?;
    for report in reports {
        push_report(json, places, report)?;
    }
    json.end()
}

fn push_report(
    json: &mut Json,
    places: &LinePlaces<'_>,
    report: &Report,
) -> Result<(), AllocError> {
    json.begin_object()?;
    json.key_string("kind", report.kind)?;
    json.key_string("code", report.code)?;
    json.key_string("message", &report.message)?;
    push_labels(json, places, &report.labels)?;
    push_notes(json, "help", "help", &report.notes)?;
    push_notes(json, "witness", "note", &report.notes)?;
    push_fixes(json, places, &report.fixes)?;
    json.end()
}

// Adds fixes, the most likely first.
fn push_fixes(json: &mut Json, places: &LinePlaces<'_>, fixes: &[Fix]) -> Result<(), AllocError> {
    json.begin_list_at("fixes")?;
    for fix in fixes {
        json.begin_object()?;
        json.key_string("title", &fix.title)?;
        json.begin_list_at("edits")?;
        for edit in &fix.edits {
            push_edit(json, places, edit)?;
        }
        json.end()?;
        json.end()?;
    }
    json.end()
}

// Adds an edit: its file, the offsets where it begins and ends, and the new text.
fn push_edit(json: &mut Json, places: &LinePlaces<'_>, edit: &Edit) -> Result<(), AllocError> {
    let file = edit.place.pos().file;
    let text = file_text(places.files(), file);
    let Some((begin, end)) = piece_of(*edit.text.allocator(), text, edit.place)? else {
        return Ok(());
    };
    json.begin_object()?;
    json.key_string("file", file_name(places.files(), file))?;
    json.key_number("offset", begin)?;
    json.key_number("end", end)?;
    json.key_string("text", &edit.text)?;
    json.end()
}

// Adds places, the one first where a report is told.
fn push_labels(
    json: &mut Json,
    places: &LinePlaces<'_>,
    labels: &[Label],
) -> Result<(), AllocError> {
    json.begin_list_at("places")?;
    for label in labels {
        json.begin_object()?;
        places.push_place(json, label.pos)?;
        json.key_string("text", &label.text)?;
        json.end()?;
    }
    json.end()
}

// Adds the notes that begin with a word, at a key.
fn push_notes(json: &mut Json, key: &str, word: &str, notes: &[Note]) -> Result<(), AllocError> {
    json.begin_list_at(key)?;
    for note in notes {
        if note.word == word {
            json.string(&note.told()?)?;
        }
    }
    json.end()
}
