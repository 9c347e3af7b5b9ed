//! The files of a call.

ghost use Rattle.std.specs.Prelude.{◌≡◌, ◌≤◌, ◌-◌, ◌↔◌, false, true, map, string_bytes, IfErr, IfOk, IsTrue, SomeIff};
ghost use Rattle.std.specs.Str.{is_utf8};
ghost use Rattle.app_calls.specs.Calls.{are_texts, length_of, texts_in, total_length, AddUp, AreOther};
ghost use Rattle.app_calls.specs.declared.inputs.UnreadInput.TheVariants.{Memory, Text};

use cranelift_isle::syntax::Files;
use std::alloc::{AllocError, AllocFailed, Global};

/// How many bytes a file's name and its text take.
#[repr(C)]
#[derive(Clone, Copy)]
pub struct FileLengths {
    /// How many bytes its name takes.
    pub name_length: usize,
    /// How many bytes its text takes, behind its name.
    pub text_length: usize,
}

/// Why files can't be read.
#[derive(Clone, Copy, PartialEq, Eq)]
pub enum UnreadInput {
    /// Memory was refused.
    Memory,
    /// A name or a text isn't UTF-8.
    Text,
}

impl From<AllocError> for UnreadInput {
    ghost from_gives = { λ _ e. e ≡ Memory };

    fn from(_: AllocError) -> UnreadInput {
        UnreadInput::Memory
    }
}

impl<T: Drop> From<AllocFailed<T>> for UnreadInput {
    ghost from_gives = { λ _ e. e ≡ Memory };

    fn from(_: AllocFailed<T>) -> UnreadInput {
        UnreadInput::Memory
    }
}

/// Whether the names and texts of these files take as many bytes, together.
pub fn add_up(files: &[FileLengths], length: usize) -> bool
    ensures { IsTrue result ↔ (total_length files.now ≡ length) }
{
    let mut left = length;
    for file in files {
        let Some(rest) = rest_of(left, file) else {
            return false;
        };
        left = rest;
    }
    left == 0
}

// How many of these bytes are left behind a file.
fn rest_of(length: usize, file: &FileLengths) -> Option<usize>
    ensures { SomeIff result (length_of file.now ≤ length) (length - length_of file.now) }
{
    length
        .checked_sub(file.name_length)?
        .checked_sub(file.text_length)
}

/// The files whose names and texts stand one after the other in `bytes`, as many bytes of them as `lengths` say.
///
/// # Errors
///
/// `UnreadInput::Text` where a name or a text isn't UTF-8, `UnreadInput::Memory` where memory is refused.
pub fn files_of(alloc: Global, bytes: &[u8], lengths: &[FileLengths]) -> Result<Files, UnreadInput>
    requires { AddUp lengths.now bytes.now }
    ensures texts { IfOk result (λ _. are_texts lengths.now bytes.now ≡ true) }
    ensures same { IfOk result (λ files. map string_bytes files.texts.items ≡ texts_in lengths.now bytes.now) }
    ensures other { IfErr result (λ e. e ≡ Text → AreOther lengths.now bytes.now) }
{
    let mut files = Files {
        names: Vec::new(alloc),
        texts: Vec::new(alloc),
    };
    let mut rest = bytes;
    for file in lengths {
        let (name, behind) = rest.split_at(file.name_length);
        let (text, behind) = behind.split_at(file.text_length);
        files.names.push(string_of(alloc, name)?)?;
        files.texts.push(string_of(alloc, text)?)?;
        rest = behind;
    }
    Ok(files)
}

fn string_of(alloc: Global, bytes: &[u8]) -> Result<String, UnreadInput>
    ensures text { IfOk result (λ _. is_utf8 bytes.now ≡ true) }
    ensures same { IfOk result (λ text. string_bytes text ≡ bytes.now) }
    ensures other { IfErr result (λ e. e ≡ Text → is_utf8 bytes.now ≡ false) }
{
    match std::str::from_utf8(bytes) {
        Ok(text) => Ok(String::from_str(alloc, text)?),
        Err(_) => Err(UnreadInput::Text),
    }
}
