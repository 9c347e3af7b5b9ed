//! The forms of a text, as ranges: to fold, and to select.

use crate::analysis::Analysis;
use crate::formatting::form_offset;
use crate::ranges::Ranges;
use app_messages::messages::{member, place_of};
use app_messages::refusals::Refusal;
use app_names::contexts::{Context, context_at};
use cranelift_isle::syntax::Pos;
use report_names::extents::end_of_form;
use serde_json::{Value, json};
use std::alloc::{AllocError, Global};
use text_documents::places::offset_at;
use text_reader::chunks::chunks;

/// The forms of a file that take several lines.
pub fn folds_of(alloc: Global, analysis: &Analysis, file: usize) -> Result<Value, AllocError> {
    let text = analysis.text(file);
    let ranges = Ranges::new(alloc, analysis)?;
    let mut found = Vec::new(alloc);
    for chunk in &chunks(alloc, text)? {
        let begin = form_offset(chunk);
        let end = end_of_form(text.get(..chunk.end).unwrap_or(""), begin);
        let first = ranges.place_near(file, begin).line;
        let last = ranges.place_near(file, end).line;
        if first < last {
            found.push(json!(in alloc; {"startLine": first, "endLine": last})?)?;
        }
    }
    Ok(Value::Array(found))
}

/// The forms around each of some places, from the innermost on.
pub fn selections_at(
    alloc: Global,
    analysis: &Analysis,
    file: usize,
    params: &Value,
) -> Result<Value, Refusal> {
    let Some(places) = member(params, "positions")?.as_array() else {
        return Err(Refusal::NoParameter);
    };
    let text = analysis.text(file);
    let ranges = Ranges::new(alloc, analysis)?;
    let mut found = Vec::new(alloc);
    for place in places {
        let Some(offset) = offset_at(text, place_of(place)?) else {
            return Err(Refusal::Outside);
        };
        let context = context_at(alloc, text, offset)?;
        found.push(selection(alloc, &ranges, Pos { file, offset }, context)?)?;
    }
    Ok(Value::Array(found))
}

// The word or the list at a position, in the lists around it.
fn selection(
    alloc: Global,
    ranges: &Ranges<'_>,
    pos: Pos,
    context: Option<Context>,
) -> Result<Value, AllocError> {
    let Some(context) = context else {
        return json!(in alloc; {"range": ranges.between(pos.file, pos.offset, pos.offset)?});
    };
    let file = pos.file;
    let mut around = Value::Null;
    for up in (0..context.depth()).rev() {
        if let Some(offset) = context.begin_of(up) {
            around = within(alloc, ranges.of_form(Pos { file, offset })?, around)?;
        }
    }
    let offset = context.begin;
    within(alloc, ranges.of_form(Pos { file, offset })?, around)
}

// A range that is selected before the one around it.
fn within(alloc: Global, range: Value, around: Value) -> Result<Value, AllocError> {
    let mut made = json!(in alloc; {"range": range})?;
    if let (false, Some(object)) = (around.is_null(), made.as_object_mut()) {
        serde_json::put(object, alloc, "parent", around)?;
    }
    Ok(made)
}
