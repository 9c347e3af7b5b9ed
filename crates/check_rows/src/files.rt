//! The files that a question is about.

use cranelift_isle::syntax::Files;
use std::alloc::{AllocError, Global};

/// The file `a.isle` alone.
pub fn one_file(alloc: Global, text: &str) -> Result<Files, AllocError> {
    let mut files = Files {
        names: Vec::new(alloc),
        texts: Vec::new(alloc),
    };
    add_file(alloc, &mut files, "a.isle", text)?;
    Ok(files)
}

/// Adds a file.
pub fn add_file(
    alloc: Global,
    files: &mut Files,
    name: &str,
    text: &str,
) -> Result<(), AllocError> {
    files.names.push(String::from_str(alloc, name)?)?;
    files.texts.push(String::from_str(alloc, text)?)?;
    Ok(())
}
