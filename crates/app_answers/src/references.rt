//! Where names are defined, and where they stand.

use crate::analysis::Analysis;
use crate::ranges::Ranges;
use app_messages::messages::{member, place_of};
use app_messages::refusals::Refusal;
use app_names::symbols::{Specs, mention_at, names_of, specs_of, symbol_of};
use cranelift_isle::syntax::Pos;
use report_names::mentions::Mention;
use serde_json::{Value, json};
use std::alloc::{AllocError, Global};
use text_documents::places::offset_at;

/// The position in a file that a request is of.
pub(crate) fn position_in(
    analysis: &Analysis,
    file: usize,
    params: &Value,
) -> Result<Pos, Refusal> {
    let place = place_of(member(params, "position")?)?;
    match offset_at(analysis.text(file), place) {
        Some(offset) => Ok(Pos { file, offset }),
        None => Err(Refusal::Outside),
    }
}

/// Where the name at a place is defined.
pub fn definition_at(
    alloc: Global,
    analysis: &Analysis,
    file: usize,
    params: &Value,
) -> Result<Value, Refusal> {
    let pos = position_in(analysis, file, params)?;
    let specs = specs_of(alloc, &analysis.sources.files.texts)?;
    let ranges = Ranges::new(alloc, analysis)?;
    let mut found = Vec::new(alloc);
    for mention in &same_names(alloc, analysis, &specs, pos)? {
        if mention.defines {
            found.push(location_of(&ranges, mention)?)?;
        }
    }
    Ok(Value::Array(found))
}

/// Where the name at a place stands, with its definitions if they are wanted.
pub fn references_at(
    alloc: Global,
    analysis: &Analysis,
    file: usize,
    params: &Value,
) -> Result<Value, Refusal> {
    let pos = position_in(analysis, file, params)?;
    let with_definitions = wants_definitions(params).unwrap_or(true);
    let specs = specs_of(alloc, &analysis.sources.files.texts)?;
    let ranges = Ranges::new(alloc, analysis)?;
    let mut found = Vec::new(alloc);
    for mention in &same_names(alloc, analysis, &specs, pos)? {
        if with_definitions || !mention.defines {
            found.push(location_of(&ranges, mention)?)?;
        }
    }
    Ok(Value::Array(found))
}

/// Where the name at a place stands in its file: as it is written where it is defined, else as it is read.
pub fn highlights_at(
    alloc: Global,
    analysis: &Analysis,
    file: usize,
    params: &Value,
) -> Result<Value, Refusal> {
    let pos = position_in(analysis, file, params)?;
    let specs = specs_of(alloc, &analysis.sources.files.texts)?;
    let ranges = Ranges::new(alloc, analysis)?;
    let mut found = Vec::new(alloc);
    for mention in &same_names(alloc, analysis, &specs, pos)? {
        if mention.name.1.file == file {
            let range = ranges.of_name(mention.name)?;
            let kind = if mention.defines { 3u8 } else { 2u8 };
            found.push(json!(in alloc; {"range": range, "kind": kind})?)?;
        }
    }
    Ok(Value::Array(found))
}

// Whether a request for names wants those that define.
fn wants_definitions(params: &Value) -> Option<bool> {
    params.get("context")?.get("includeDeclaration")?.as_bool()
}

// The names that mean the same as the one at a place.
fn same_names<'a>(
    alloc: Global,
    analysis: &'a Analysis,
    specs: &'a Specs,
    pos: Pos,
) -> Result<Vec<Mention<'a>>, AllocError> {
    match mention_at(alloc, &analysis.defs, specs, pos)? {
        Some(mention) => {
            let symbol = symbol_of(&analysis.defs, &mention);
            names_of(alloc, &analysis.defs, specs, symbol)
        }
        None => Ok(Vec::new(alloc)),
    }
}

/// The place of a name.
pub(crate) fn location_of(ranges: &Ranges<'_>, mention: &Mention<'_>) -> Result<Value, AllocError> {
    let range = ranges.of_name(mention.name)?;
    ranges.location(mention.name.1.file, range)
}
