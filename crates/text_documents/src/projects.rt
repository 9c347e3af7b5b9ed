//! The project file of a folder: its rule files, in order, and lists of them that have names.

use std::alloc::{AllocError, Global};

/// The name of a project file.
pub const PROJECT_FILE: &str = "isle.files";

/// The files that the text of a project file names, in order: those before the first list, and those of the list of this name. The
/// empty name is that of no list. A line has the path of a file, or none where it is empty or begins with `#`; a line `[NAME]`
/// begins a list.
///
/// # Errors
///
/// Where memory is refused.
pub fn files_in<'a>(alloc: Global, text: &'a str, list: &str) -> Result<Vec<&'a str>, AllocError> {
    let mut files = Vec::new(alloc);
    let mut is_wanted = true;
    for line in text.lines() {
        let line = line.trim();
        if let Some(name) = list_of(line) {
            is_wanted = name == list;
        } else if is_wanted && !line.is_empty() && !line.starts_with('#') {
            files.push(line)?;
        }
    }
    Ok(files)
}

/// The names of the lists in the text of a project file, in order.
///
/// # Errors
///
/// Where memory is refused.
pub fn lists_in(alloc: Global, text: &str) -> Result<Vec<&str>, AllocError> {
    let mut lists = Vec::new(alloc);
    for line in text.lines() {
        if let Some(name) = list_of(line.trim()) {
            lists.push(name)?;
        }
    }
    Ok(lists)
}

// The name of the list that a line begins.
fn list_of(line: &str) -> Option<&str> {
    line.strip_prefix('[')?.strip_suffix(']')
}
