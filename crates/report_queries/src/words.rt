//! The words that a program is given.

use std::alloc::{AllocError, Global};
use std::env::{Env, FillError};

// The longest word that is read.
const WORD_BYTES: usize = 4096;

/// The words after the program's name. One that is longer than 4,096 bytes is handed on as the empty text, which no program asks
/// for. What isn't UTF-8 in a word is U+FFFD.
pub fn words(rt: &impl Env, alloc: Global) -> Result<Vec<String>, AllocError> {
    let mut words = Vec::new(alloc);
    let mut buf = [0u8; WORD_BYTES];
    for i in 1..usize::MAX {
        match rt.arg(i, &mut buf) {
            Ok(n) => words.push(String::from_utf8_lossy(alloc, &buf[..n])?)?,
            Err(FillError::TooLong) => words.push(String::new(alloc))?,
            Err(FillError::NotPresent) => break,
        }
    }
    Ok(words)
}
