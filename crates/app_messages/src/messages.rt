//! What a JSON value is as a message.

use crate::refusals::Refusal;
use serde_json::Value;
use std::alloc::Global;
use text_documents::changes::Change;
use text_documents::places::DocumentPosition;

/// A message.
#[derive(Clone, Copy)]
pub enum Message<'a> {
    /// A request with its id and its method. It is answered once.
    Request(&'a Value, &'a str),
    /// A notification with its method. It is never answered.
    Notification(&'a str),
    /// An answer to a request. The server makes none.
    Response,
    /// No message.
    Wrong,
}

/// The message that a value is.
pub fn message_of(value: &Value) -> Message<'_> {
    let Some(method) = value.get("method").and_then(Value::as_str) else {
        return without_method(value);
    };
    match value.get("id") {
        None => Message::Notification(method),
        Some(id) if is_id(id) => Message::Request(id, method),
        Some(_) => Message::Wrong,
    }
}

fn without_method(value: &Value) -> Message<'_> {
    let is_response = value.get("id").is_some()
        && value.get("method").is_none()
        && (value.get("result").is_some() || value.get("error").is_some());
    if is_response {
        Message::Response
    } else {
        Message::Wrong
    }
}

// Whether a value can be the id of a request.
fn is_id(value: &Value) -> bool {
    value.is_string() || value.is_i64() || value.is_u64()
}

/// The member of a value.
pub fn member<'a>(value: &'a Value, key: &str) -> Result<&'a Value, Refusal> {
    match value.get(key) {
        Some(found) => Ok(found),
        None => Err(Refusal::NoParameter),
    }
}

/// The text behind a key.
pub fn text_of<'a>(value: &'a Value, key: &str) -> Result<&'a str, Refusal> {
    match value.get(key).and_then(Value::as_str) {
        Some(text) => Ok(text),
        None => Err(Refusal::NoParameter),
    }
}

/// The URI of the document that a request is of.
pub fn document_uri(params: &Value) -> Result<&str, Refusal> {
    text_of(member(params, "textDocument")?, "uri")
}

/// The place that a value is.
pub fn place_of(value: &Value) -> Result<DocumentPosition, Refusal> {
    let line = count_of(member(value, "line")?)?;
    let character = count_of(member(value, "character")?)?;
    Ok(DocumentPosition { line, character })
}

fn count_of(value: &Value) -> Result<usize, Refusal> {
    let Some(number) = value.as_u64() else {
        return Err(Refusal::NoParameter);
    };
    match usize::try_from(number) {
        Ok(count) => Ok(count),
        Err(_) => Err(Refusal::NoParameter),
    }
}

/// The two places that a range is.
pub fn range_of(value: &Value) -> Result<(DocumentPosition, DocumentPosition), Refusal> {
    let begin = place_of(member(value, "start")?)?;
    let end = place_of(member(value, "end")?)?;
    Ok((begin, end))
}

/// The changes of a document that values are.
pub fn changes_of(alloc: Global, values: &[Value]) -> Result<Vec<Change>, Refusal> {
    let mut changes = Vec::new(alloc);
    for value in values {
        changes.push(change_of(alloc, value)?)?;
    }
    Ok(changes)
}

// The change that a value is: of a range, or of the whole text.
fn change_of(alloc: Global, value: &Value) -> Result<Change, Refusal> {
    let text = String::from_str(alloc, text_of(value, "text")?)?;
    let Some(range) = value.get("range") else {
        return Ok(Change::Whole(text));
    };
    let (begin, end) = range_of(range)?;
    Ok(Change::Range { begin, end, text })
}
