//! URIs of documents, and the paths of their files.

use std::alloc::{AllocError, Global};

/// What a document is known by: the path of its file, or its URI where it has none.
pub fn name_of(alloc: Global, uri: &str) -> Result<String, AllocError> {
    match path_in(uri) {
        Some(path) => unescaped(alloc, path),
        None => String::from_str(alloc, uri),
    }
}

// The path in the URI of a file, as it is written.
fn path_in(uri: &str) -> Option<&str> {
    let rest = uri.strip_prefix("file://")?;
    let at = rest.find('/')?;
    rest.get(at..)
}

// The text that escapes stand for: the text itself, where that is no UTF-8.
fn unescaped(alloc: Global, text: &str) -> Result<String, AllocError> {
    let mut bytes = Vec::new(alloc);
    let mut rest = text.as_bytes();
    for _ in 0..text.len() {
        let Some((byte, after)) = first_byte(rest) else {
            break;
        };
        bytes.push(byte)?;
        rest = after;
    }
    match String::from_utf8(bytes) {
        Ok(text) => Ok(text),
        Err(_) => String::from_str(alloc, text),
    }
}

// The first byte that is meant, and what follows.
fn first_byte(bytes: &[u8]) -> Option<(u8, &[u8])> {
    if let [b'%', high, low, rest @ ..] = bytes {
        if let (Some(high), Some(low)) = (digit_of(*high), digit_of(*low)) {
            return Some((high.saturating_mul(16).saturating_add(low), rest));
        }
    }
    let (first, rest) = bytes.split_first()?;
    Some((*first, rest))
}

// The value of a hexadecimal digit.
fn digit_of(byte: u8) -> Option<u8> {
    match byte {
        b'0'..=b'9' => Some(byte.saturating_sub(b'0')),
        b'a'..=b'f' => Some(byte.saturating_sub(b'a').saturating_add(10)),
        b'A'..=b'F' => Some(byte.saturating_sub(b'A').saturating_add(10)),
        _ => None,
    }
}

/// The URI of the file at a path that begins with `/`.
pub fn uri_of(alloc: Global, path: &str) -> Result<String, AllocError> {
    let mut out = String::from_str(alloc, "file://")?;
    for byte in path.as_bytes() {
        push_escaped(&mut out, *byte)?;
    }
    Ok(out)
}

fn push_escaped(out: &mut String, byte: u8) -> Result<(), AllocError> {
    let c = char::from(byte);
    if c.is_ascii_alphanumeric() || matches!(c, '/' | '-' | '.' | '_' | '~') {
        return out.push(c);
    }
    write!(out, "%{byte:02X}")
}
