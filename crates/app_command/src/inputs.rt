//! The files that the command reads.

use app_words::request::Request;
use cranelift_isle::syntax::Files;
use std::alloc::{AllocError, AllocFailed, Global};
use std::io::{ErrorKind, Read};
use std::{fs, io};

/// Why files can't be read.
#[derive(Drop)]
pub enum Unread {
    /// Memory was refused.
    Memory,
    /// A text isn't UTF-8: what it is instead, the name of its file, and where.
    Text(String),
    /// A file, or the folder of files, can't be read: its name and why.
    File(String),
}

impl From<AllocError> for Unread {
    fn from(_: AllocError) -> Unread {
        Unread::Memory
    }
}

impl<T: Drop> From<AllocFailed<T>> for Unread {
    fn from(_: AllocFailed<T>) -> Unread {
        Unread::Memory
    }
}

/// The names and the texts of the files that are asked for. `-` is `input`, by the name `<stdin>`.
pub fn read_files<R: std::rt::Files + AllocGlobal, I: Read + Drop>(
    rt: &R,
    asked: &Request<'_>,
    input: I,
) -> Result<Files, Unread> {
    let alloc = rt.alloc();
    let wants = asked.files.iter().any(|name| name.as_str() == "-");
    let standard = standard_text(alloc, wants, input)?;
    let mut files = Files {
        names: Vec::new(alloc),
        texts: Vec::new(alloc),
    };
    for name in &asked.files {
        if name.as_str() == "-" {
            files.names.push(String::from_str(alloc, "<stdin>")?)?;
            files.texts.push(standard.clone()?)?;
        } else {
            files.names.push(String::from_str(alloc, name)?)?;
            files.texts.push(file_text(rt, asked.folder, name)?)?;
        }
    }
    Ok(files)
}

/// The text of standard input where it is wanted, else the empty text.
pub fn standard_text<I: Read + Drop>(
    alloc: Global,
    wants: bool,
    mut input: I,
) -> Result<String, Unread> {
    let mut bytes = Vec::new(alloc);
    if wants {
        if let Err(error) = input.read_to_end(&mut bytes) {
            return Err(why_unread(alloc, "<stdin>", &error));
        }
    }
    text_of(alloc, "<stdin>", bytes)
}

/// The text of a file.
pub fn file_text<R: std::rt::Files + AllocGlobal>(
    rt: &R,
    folder: &str,
    name: &str,
) -> Result<String, Unread> {
    if is_in_folder(folder, name) {
        if let Some(why) = unread_folder(rt, folder) {
            return Err(why);
        }
    }
    let path = path_of(rt.alloc(), folder, name)?;
    text_at(rt, &path, name)
}

// Whether a file is looked for in a folder.
fn is_in_folder(folder: &str, name: &str) -> bool {
    !folder.is_empty() && !name.starts_with('/')
}

/// The path of a file.
pub(crate) fn path_of(alloc: Global, folder: &str, name: &str) -> Result<String, AllocError> {
    if is_in_folder(folder, name) {
        format!(in alloc; "{folder}/{name}")
    } else {
        String::from_str(alloc, name)
    }
}

fn text_at<R: std::rt::Files + AllocGlobal>(
    rt: &R,
    path: &str,
    name: &str,
) -> Result<String, Unread> {
    let alloc = rt.alloc();
    match fs::read(rt, path) {
        Ok(bytes) => text_of(alloc, name, bytes),
        Err(error) => Err(why_unread(alloc, name, &error)),
    }
}

/// Why files in a folder can't be read, where that is the folder.
pub(crate) fn unread_folder<R: std::rt::Files + AllocGlobal>(
    rt: &R,
    folder: &str,
) -> Option<Unread> {
    let alloc = rt.alloc();
    let why = match fs::metadata(rt, folder) {
        Ok(found) if found.is_dir() => return None,
        Ok(_) => "it is no folder",
        Err(error) if error.kind() == ErrorKind::NotFound => "no such folder",
        Err(_) => "no permission",
    };
    Some(file(format!(in alloc; "the folder {folder}: {why}")))
}

fn text_of(alloc: Global, name: &str, bytes: Vec<u8>) -> Result<String, Unread> {
    if let Some(at) = utf16_at(&bytes) {
        return Err(Unread::Text(format!(in alloc;
            "this looks like UTF-16, and must be UTF-8: {name}, at byte {at}"
        )?));
    }
    match String::from_utf8(bytes) {
        Ok(text) => Ok(text),
        Err(error) => {
            let at = error.utf8_error().valid_up_to();
            Err(Unread::Text(format!(in alloc; "this text isn't UTF-8: {name}, at byte {at}")?))
        }
    }
}

// Where bytes look like UTF-16: they begin with a mark for it, or a character of two bytes has a byte 0.
fn utf16_at(bytes: &[u8]) -> Option<usize> {
    match bytes {
        [0xff, 0xfe, ..] | [0xfe, 0xff, ..] | [0, ..] => Some(0),
        [_, 0, ..] => Some(1),
        _ => None,
    }
}

fn why_unread(alloc: Global, name: &str, error: &io::Error) -> Unread {
    // the words of a program have this character in place of what isn't UTF-8
    let is_named = !name.contains('\u{fffd}');
    let why = match error.kind() {
        ErrorKind::OutOfMemory => return Unread::Memory,
        ErrorKind::NotFound if is_named => "no such file",
        ErrorKind::NotFound => "no such file, or its name isn't UTF-8",
        ErrorKind::IsADirectory => "it is a folder",
        ErrorKind::NotADirectory => "a part of its path is no folder",
        ErrorKind::PermissionDenied => "no permission",
        _ => return file(format!(in alloc; "{name}: {error}")),
    };
    file(format!(in alloc; "{name}: {why}"))
}

// That a file can't be read, in these words.
fn file(words: Result<String, AllocError>) -> Unread {
    match words {
        Ok(words) => Unread::File(words),
        Err(AllocError) => Unread::Memory,
    }
}
