//! What is written to the client.

use crate::refusals::Refusal;
use serde_json::Value;
use std::alloc::{AllocError, Global};
use std::io;
use std::io::Write;

/// Why something wasn't written.
#[derive(Clone, Copy, PartialEq, Eq)]
pub enum Unsent {
    /// Memory was refused.
    Memory,
    /// The stream can't be written.
    Closed,
}

impl From<AllocError> for Unsent {
    fn from(_: AllocError) -> Unsent {
        Unsent::Memory
    }
}

impl From<io::Error> for Unsent {
    fn from(_: io::Error) -> Unsent {
        Unsent::Closed
    }
}

/// Writes a message of these parts.
pub fn send<W: Write>(out: &mut W, parts: &[&str]) -> io::Result<()> {
    let mut length = 0usize;
    for part in parts {
        length = length.saturating_add(part.len());
    }
    write!(out, "Content-Length: {length}\r\n\r\n")?;
    send_parts(out, parts)?;
    out.flush()
}

// Writes parts one after another.
fn send_parts<W: Write>(out: &mut W, parts: &[&str]) -> io::Result<()> {
    for part in parts {
        out.write_all(part.as_bytes())?;
    }
    Ok(())
}

/// Writes the answer to the request of an id, which is JSON.
pub fn send_answer<W: Write>(
    alloc: Global,
    out: &mut W,
    id: &str,
    answer: &Value,
) -> Result<(), Unsent> {
    let text = answer.to_string(alloc)?;
    send(
        out,
        &[
            "{\"jsonrpc\":\"2.0\",\"id\":",
            id,
            ",\"result\":",
            text.as_str(),
            "}",
        ],
    )?;
    Ok(())
}

/// Writes that the request of an id has no answer. It needs no memory.
pub fn send_refusal<W: Write>(out: &mut W, id: &str, why: Refusal) -> io::Result<()> {
    send_error(out, id, why.number(), why.text())
}

// Writes the parts of an error of a request.
fn send_error<'a, W: Write>(
    out: &mut W,
    id: &'a str,
    code: &'a str,
    message: &'a str,
) -> io::Result<()> {
    send(
        out,
        &[
            "{\"jsonrpc\":\"2.0\",\"id\":",
            id,
            ",\"error\":{\"code\":",
            code,
            ",\"message\":\"",
            message,
            "\"}}",
        ],
    )
}

/// Writes a notification.
pub fn send_notification<W: Write>(
    alloc: Global,
    out: &mut W,
    method: &str,
    params: &Value,
) -> Result<(), Unsent> {
    let text = params.to_string(alloc)?;
    send(
        out,
        &[
            "{\"jsonrpc\":\"2.0\",\"method\":\"",
            method,
            "\",\"params\":",
            text.as_str(),
            "}",
        ],
    )?;
    Ok(())
}

/// Tells the client why a notification was passed over. It needs no memory.
pub fn send_log<W: Write>(out: &mut W, method: &str, why: Refusal) -> io::Result<()> {
    if is_plain(method) {
        send_note(out, method, why.text(), why.number())
    } else {
        send_note(out, "a notification", why.text(), why.number())
    }
}

/// Tells whoever edits that a document has another text than the server thinks. It needs no memory.
pub fn send_out_of_step<W: Write>(out: &mut W) -> io::Result<()> {
    send(
        out,
        &[
            "{\"jsonrpc\":\"2.0\",\"method\":\"window/showMessage\",\"params\":{\"type\":1,\"message\":\"",
            "isle has lost the text of a document: close it, and open it again",
            "\"}}",
        ],
    )
}

// Writes the parts of a note on a notification.
fn send_note<'a, W: Write>(
    out: &mut W,
    method: &'a str,
    message: &'a str,
    code: &'a str,
) -> io::Result<()> {
    send(
        out,
        &[
            "{\"jsonrpc\":\"2.0\",\"method\":\"window/logMessage\",\"params\":{\"type\":1,\"message\":\"",
            method,
            ": ",
            message,
            " (",
            code,
            ")\"}}",
        ],
    )
}

// Whether a text can stand in JSON as it is.
fn is_plain(text: &str) -> bool {
    text.chars().all(|c| c.is_ascii_alphanumeric() || matches!(c, '/' | '$' | '_'))
}
