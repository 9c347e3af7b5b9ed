//! Edits of files.

use crate::analysis::Analysis;
use crate::ranges::Ranges;
use app_messages::edits::Edit;
use serde_json::{Value, json};
use std::alloc::{AllocError, Global};

/// Edits as a change of the workspace.
pub fn changes_value(
    alloc: Global,
    analysis: &Analysis,
    edits: &[Edit<'_>],
) -> Result<Value, AllocError> {
    let changes = file_changes(alloc, analysis, edits)?;
    json!(in alloc; {"changes": changes})
}

/// Edits by the URIs of their files.
pub fn file_changes(
    alloc: Global,
    analysis: &Analysis,
    edits: &[Edit<'_>],
) -> Result<Value, AllocError> {
    let ranges = Ranges::new(alloc, analysis)?;
    let mut changes = json!(in alloc; {})?;
    for file in 0..analysis.sources.uris.len() {
        let found = edits_in(alloc, &ranges, edits, file)?;
        if let (false, Some(object)) = (found.is_empty(), changes.as_object_mut()) {
            serde_json::put(object, alloc, analysis.uri(file), Value::Array(found))?;
        }
    }
    Ok(changes)
}

fn edits_in(
    alloc: Global,
    ranges: &Ranges<'_>,
    edits: &[Edit<'_>],
    file: usize,
) -> Result<Vec<Value>, AllocError> {
    let mut found = Vec::new(alloc);
    for edit in edits {
        if edit.file == file {
            let range = ranges.between(file, edit.begin, edit.end)?;
            found.push(json!(in alloc; {"range": range, "newText": edit.text})?)?;
        }
    }
    Ok(found)
}
