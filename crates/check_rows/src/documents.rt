//! Rows on the text of an open document: places in UTF-16 and bytes, and changes. A document has no line's end at its end where the
//! row's text has one.

use crate::words::text_at;
use cranelift_isle::syntax::Files;
use std::alloc::{AllocError, Global};
use text_documents::changes::Change;
use text_documents::documents::Document;
use text_documents::places::{DocumentPosition, offset_at, place_at};

/// The text of a document, of which a row's text has a line's end more.
pub fn document_of(text: &str) -> &str {
    text.strip_suffix("\n").unwrap_or(text)
}

/// Adds the place of each byte of a text, of its end and of a byte behind it, or `-` where there is none.
pub fn push_places(text: &str, out: &mut String) -> Result<(), AllocError> {
    let document = document_of(text);
    out.push_str("places")?;
    for offset in 0..document.len().saturating_add(2) {
        match place_at(document, offset) {
            Some(place) => write!(out, " {}:{}", place.line, place.character)?,
            None => out.push_str(" -")?,
        }
    }
    out.push('\n')
}

/// Adds the byte of each place that a row's words name, or `-` where there is none.
pub fn push_offsets(words: &[String], text: &str, out: &mut String) -> Result<(), AllocError> {
    let document = document_of(text);
    out.push_str("offsets")?;
    for word in words.iter().skip(1) {
        match offset_at(document, place_by(word)) {
            Some(offset) => write!(out, " {offset}")?,
            None => out.push_str(" -")?,
        }
    }
    out.push('\n')
}

/// Adds whether the changes of a row are made in its first file, the version that is then reached from 1, and the text. Each further
/// file is a change: its name has the two places, or is `whole`, and its text is what is put there.
pub fn push_edits(alloc: Global, files: &Files, out: &mut String) -> Result<(), AllocError> {
    let text = document_of(text_at(&files.texts, 0));
    let mut document = Document::new(1, String::from_str(alloc, text)?);
    let changes = changes_of(alloc, files)?;
    let made = document.change(alloc, 2, &changes)?;
    let (version, text) = (document.version(), document.text());
    write!(out, "{made}, version {version}\n{text}\n")
}

fn changes_of(alloc: Global, files: &Files) -> Result<Vec<Change>, AllocError> {
    let mut changes = Vec::new(alloc);
    for (range, text) in files.names.iter().zip(&files.texts).skip(1) {
        let text = String::from_str(alloc, document_of(text))?;
        changes.push(change_by(range, text))?;
    }
    Ok(changes)
}

fn change_by(range: &str, text: String) -> Change {
    match range.split_once('-') {
        Some((begin, end)) => Change::Range {
            begin: place_by(begin),
            end: place_by(end),
            text,
        },
        None => Change::Whole(text),
    }
}

fn place_by(word: &str) -> DocumentPosition {
    let (line, character) = word.split_once(':').unwrap_or((word, ""));
    DocumentPosition {
        line: line.parse::<usize>().unwrap_or(0),
        character: character.parse::<usize>().unwrap_or(0),
    }
}
