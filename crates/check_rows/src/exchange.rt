//! Rows on exchanges with the server for editors, which are repeated.

use app_server::server::serve;
use std::alloc::{AllocError, Global};

/// Adds what is told of an exchange: each answer that isn't the wanted one, how many are wanted, the server's status, and what it
/// writes behind the answers.
///
/// In a row's text a line behind `> ` is a message to the server, one behind `< ` a message that it has to answer with, in this
/// order, and one behind `! ` is sent as it is, where `\r\n` stands for these two characters. Other lines are passed over.
pub fn push_exchange<R: std::rt::Files + AllocGlobal>(
    rt: &R,
    text: &str,
    out: &mut String,
) -> Result<(), AllocError> {
    let sent = sent_by(rt.alloc(), text)?;
    let mut answered = Vec::new(rt.alloc());
    let status = serve(rt, sent.as_bytes(), &mut answered);
    match String::from_utf8(answered) {
        Ok(answered) => push_answers(&answered, text, status, out),
        Err(_) => out.push_str("the answers are no text\n"),
    }
}

fn sent_by(alloc: Global, text: &str) -> Result<String, AllocError> {
    let mut sent = String::new(alloc);
    for line in text.split('\n') {
        if let Some(message) = line.strip_prefix("> ") {
            let length = message.len();
            write!(sent, "Content-Length: {length}\r\n\r\n{message}")?;
        } else if let Some(bytes) = line.strip_prefix("! ") {
            sent.push_str(&bytes.replace(alloc, "\\r\\n", "\r\n")?)?;
        }
    }
    Ok(sent)
}

fn push_answers(
    answered: &str,
    text: &str,
    status: u8,
    out: &mut String,
) -> Result<(), AllocError> {
    let mut at = 0usize;
    let mut count = 0usize;
    for line in text.split('\n') {
        if let Some(wanted) = line.strip_prefix("< ") {
            let rest = answered.get(at..).unwrap_or("");
            let found = first_message(rest).unwrap_or("nothing");
            if found != wanted {
                write!(out, "answer {count} is {found}\nand not {wanted}\n")?;
            }
            at = at.saturating_add(first_length(rest).unwrap_or(0));
            count = count.saturating_add(1);
        }
    }
    let rest = answered.get(at..).unwrap_or("");
    write!(out, "{count} answers, status {status}\n{rest}")
}

// The message that a text begins with, behind its length.
fn first_message(text: &str) -> Option<&str> {
    let (length, rest) = text
        .strip_prefix("Content-Length: ")?
        .split_once("\r\n\r\n")?;
    let length = length.parse::<usize>().ok()?;
    rest.get(..length)
}

// How many bytes this message takes, with its length before it.
fn first_length(text: &str) -> Option<usize> {
    let (head, _) = text.split_once("\r\n\r\n")?;
    let message = first_message(text)?;
    Some(head.len().saturating_add(message.len()).saturating_add(4))
}
