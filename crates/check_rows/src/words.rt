//! Words that ask, and other texts in a row.

use std::alloc::{AllocError, Global};

/// The words of a line from a place on.
pub fn words_from(alloc: Global, line: &str, first: usize) -> Result<Vec<String>, AllocError> {
    let mut words = Vec::new(alloc);
    for word in line.split(' ').skip(first) {
        words.push(String::from_str(alloc, word)?)?;
    }
    Ok(words)
}

/// The text at a place, or the empty one where there is none.
pub fn text_at(texts: &[String], place: usize) -> &str {
    match texts.get(place) {
        Some(text) => text.as_str(),
        None => "",
    }
}

/// Whether a word is among others.
pub fn has_word(words: &[String], wanted: &str) -> bool {
    for word in words {
        if word.as_str() == wanted {
            return true;
        }
    }
    false
}
