//! Rows that ask the library for C and Rust, by the call that it exports.

use crate::words::text_at;
use app_calls::inputs::FileLengths;
use app_calls::lower_texts;
use app_calls::options::Options;
use app_calls::output::Sizes;
use cranelift_isle::syntax::Files;
use std::alloc::{AllocError, Global};

/// Adds the status of a call with a row's files, and what then stands at the beginning of a buffer that was full of `#`; where that is
/// the whole buffer also how many bytes the call wrote and how many its text has.
///
/// Behind the row's first word are the numbers of the task and of the format, how many bytes the buffer has, and how many of them are
/// shown; and a number of bytes, by which `rules/a` stands for `a` at the beginning of a file's name where the number is 7.
pub fn push_call(
    alloc: Global,
    words: &[String],
    files: &Files,
    out: &mut String,
) -> Result<(), AllocError> {
    let mut bytes = String::new(alloc);
    let lengths = add_files(alloc, files, &mut bytes)?;
    let mut buffer = vec![in alloc; 35u8; number_at(words, 3)]?;
    let mut sizes = Sizes::none();
    let status = answered(alloc, words, &bytes, &lengths, &mut buffer, &mut sizes);
    write!(out, "status {status}")?;
    if number_at(words, 4) == buffer.len() {
        write!(out, ", {} of {} bytes", sizes.written, sizes.needed)?;
    }
    out.push('\n')?;
    let shown = buffer.get(..number_at(words, 4)).unwrap_or(&[]);
    out.push_str(&String::from_utf8_lossy(alloc, shown)?)?;
    out.push('\n')
}

// The call with these files, and with a prefix where the words have a number for it.
fn answered(
    alloc: Global,
    words: &[String],
    bytes: &str,
    lengths: &[FileLengths],
    buffer: &mut [u8],
    sizes: &mut Sizes,
) -> u32 {
    let options = options_by(words);
    let prefix = [FileLengths {
        name_length: 1,
        text_length: number_at(words, 5),
    }];
    let (prefix_bytes, prefixes): (&[u8], &[FileLengths]) = match words.get(5) {
        Some(_) => (b"arules/a", &prefix),
        None => (&[], &[]),
    };
    lower_texts(
        alloc,
        bytes.as_bytes(),
        lengths,
        &options,
        prefix_bytes,
        prefixes,
        buffer,
        sizes,
    )
}

// What the words ask of the call.
fn options_by(words: &[String]) -> Options {
    Options {
        task: option_at(words, 1),
        format: option_at(words, 2),
        expand: 1,
        exclude_global_allow_pragmas: 1,
        emit_logging: 0,
    }
}

// Adds the name and the text of each file, and answers how many bytes they take.
fn add_files(
    alloc: Global,
    files: &Files,
    bytes: &mut String,
) -> Result<Vec<FileLengths>, AllocError> {
    let mut lengths = Vec::new(alloc);
    for (name, text) in files.names.iter().zip(&files.texts) {
        bytes.push_str(name)?;
        bytes.push_str(text)?;
        lengths.push(FileLengths {
            name_length: name.len(),
            text_length: text.len(),
        })?;
    }
    Ok(lengths)
}

// The number of an option that a word is, or 0.
fn option_at(words: &[String], place: usize) -> u32 {
    text_at(words, place).parse::<u32>().unwrap_or(0)
}

// The number that a word is, or 0.
fn number_at(words: &[String], place: usize) -> usize {
    text_at(words, place).parse::<usize>().unwrap_or(0)
}
