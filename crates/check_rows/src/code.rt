//! Rows that ask for Rust code, which may be written otherwise than the command writes it.

use crate::texts::push_told;
use crate::words::has_word;
use cranelift_isle::lower::{Lowered, lower};
use cranelift_isle::syntax::{Def, Fault, Files};
use report_print::errors::error_lines;
use report_print::places::Places;
use report_queries::answers::TreesOrErrors;
use report_queries::answers_texts::syntax_error_line;
use rust_items::beside::BESIDE;
use rust_text::code::{CodeError, CodegenOptions, Prefix, rust_code_with};
use std::alloc::{AllocError, Global};
use text_reader::errors::ReadFault;
use text_reader::read;

/// Adds the Rust code of a row's files, or what is wrong with them, below the status.
///
/// The first of the row's words is `code`. Words behind it are options of the code: `--with-allows`, `--log` and
/// `--prefix=FROM=TO`; with `--no-expand` internal extractors stay as they are. In place of the traits that all code has behind
/// `Context`, the answer has a line of two points.
pub fn push_code(
    alloc: Global,
    words: &[String],
    files: &Files,
    out: &mut String,
) -> Result<(), AllocError> {
    push_told(answer_by(alloc, words, files)?, out)
}

fn answer_by(alloc: Global, words: &[String], files: &Files) -> Result<TreesOrErrors, AllocError> {
    let mut defs = Vec::new(alloc);
    for (number, text) in files.texts.iter().enumerate() {
        match read(alloc, number, text) {
            Ok(mut read) => defs.append(&mut read)?,
            Err(ReadFault::Text(error)) => {
                return Ok(TreesOrErrors::Errors(syntax_error_line(alloc, text, &error)?));
            }
            Err(ReadFault::Memory(error)) => return Err(error),
        }
    }
    answer_to_defs(alloc, words, files, &defs)
}

fn answer_to_defs(
    alloc: Global,
    words: &[String],
    files: &Files,
    defs: &[Def],
) -> Result<TreesOrErrors, AllocError> {
    let stays = has_word(words, "--no-expand");
    match lower(alloc, defs, !stays) {
        Ok(lowered) => code_of(alloc, words, files, &lowered),
        Err(Fault::Errors(errors)) => {
            let lines = error_lines(alloc, &errors, Places::Files)?;
            Ok(TreesOrErrors::Errors(lines))
        }
        Err(Fault::Memory(error)) => Err(error),
    }
}

// The code of a program, or why it has none.
fn code_of(
    alloc: Global,
    words: &[String],
    files: &Files,
    lowered: &Lowered,
) -> Result<TreesOrErrors, AllocError> {
    let options = options_by(alloc, words)?;
    match rust_code_with(alloc, lowered, files, &options) {
        Ok(code) => Ok(TreesOrErrors::Trees(shortened(alloc, &code)?)),
        Err(CodeError::Names(why)) => {
            let line = format!(in alloc; "error[names]: {why}\n")?;
            Ok(TreesOrErrors::Errors(line))
        }
        Err(CodeError::Memory) => Err(AllocError),
    }
}

// Code, with two points in place of what all code has.
fn shortened(alloc: Global, code: &str) -> Result<String, AllocError> {
    match code.split_once(BESIDE) {
        Some((before, behind)) => format!(in alloc; "{before}..\n{behind}"),
        None => String::from_str(alloc, code),
    }
}

fn options_by(alloc: Global, words: &[String]) -> Result<CodegenOptions, AllocError> {
    let mut options = CodegenOptions::included(alloc);
    for word in words {
        match word.as_str() {
            "--with-allows" => options.exclude_global_allow_pragmas = false,
            "--log" => options.emit_logging = true,
            _ => add_prefix(alloc, &mut options, word)?,
        }
    }
    Ok(options)
}

// Adds the prefix of a word, where it has one.
fn add_prefix(alloc: Global, options: &mut CodegenOptions, word: &str) -> Result<(), AllocError> {
    let Some(both) = word.strip_prefix("--prefix=") else {
        return Ok(());
    };
    let Some((prefix, name)) = both.split_once('=') else {
        return Ok(());
    };
    let prefix = String::from_str(alloc, prefix)?;
    let name = String::from_str(alloc, name)?;
    options.prefixes.push(Prefix { prefix, name })?;
    Ok(())
}
