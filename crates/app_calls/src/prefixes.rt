//! What is shown in place of the beginnings of file names.

ghost use Rattle.std.specs.Prelude.{◌≡◌, is_none, true, IfOk, IfSome};
ghost use Rattle.app_calls.specs.Calls.{ArePrefixes};

use crate::inputs::{FileLengths, UnreadInput, add_up, files_of};
use cranelift_isle::syntax::Files;
use rust_text::code::Prefix;
use std::alloc::{AllocError, Global};

/// The prefixes that are handed in as files are: the beginning of a file's name in the place of a name, and what is shown for it
/// in the place of a text. None where the lengths don't add up to the bytes, or where the bytes aren't UTF-8.
///
/// # Errors
///
/// Where memory is refused.
pub fn prefixes_of(
    alloc: Global,
    bytes: &[u8],
    lengths: &[FileLengths],
) -> Result<Option<Vec<Prefix>>, AllocError>
    ensures right { IfOk result (λ made. IfSome made (λ _. ArePrefixes lengths.now bytes.now)) }
    ensures wrong { IfOk result (λ made. is_none made ≡ true → ArePrefixes lengths.now bytes.now → ⊥) }
{
    if !add_up(lengths, bytes.len()) {
        return Ok(None);
    }
    match files_of(alloc, bytes, lengths) {
        Ok(files) => Ok(Some(pairs_of(alloc, &files)?)),
        Err(UnreadInput::Text) => Ok(None),
        Err(UnreadInput::Memory) => Err(AllocError),
    }
}

// The names of files, each with the text of its file.
fn pairs_of(alloc: Global, files: &Files) -> Result<Vec<Prefix>, AllocError> {
    let mut prefixes = Vec::new(alloc);
    for (prefix, name) in files.names.iter().zip(files.texts.iter()) {
        let prefix = prefix.clone()?;
        let name = name.clone()?;
        prefixes.push(Prefix { prefix, name })?;
    }
    Ok(prefixes)
}
