//! The compiler as one call, which takes the texts of files and writes what comes of them into the caller's buffer. The static library
//! for C and Rust, `isle_capi`, exports it.
#![tactic(auto)]

ghost use Rattle.std.specs.Prelude.{◌≡◌, true};
ghost use Rattle.app_calls.specs.Calls.{are_texts, texts_in, AddUp, AreOther, ArePrefixes, IsStatus, LeavesBehind, TellsOther, TellsPrefixes};
ghost use Rattle.app_calls.specs.Known.{AreOptions};
ghost use Rattle.app_calls.specs.Told.{IsToldByCall};

mod answers;
pub mod inputs;
pub mod options;
pub mod output;
pub mod prefixes;
pub mod statuses;

use crate::answers::{codegen_options, told};
use crate::inputs::{FileLengths, UnreadInput, add_up, files_of};
use crate::options::{Options, asked_by};
use crate::output::Sizes;
use crate::prefixes::prefixes_of;
use crate::statuses::{NO_MEMORY, NOT_UTF8, WRONG_LENGTHS, WRONG_OPTION, WRONG_PREFIX};
use std::alloc::{AllocError, Global};

/// Does what is asked of files of ISLE text, and answers a status, one of `statuses`.
///
/// `bytes` has for each file its name and then its text, file after file, and `files` how many bytes each takes, which add up
/// to all of them. All files together are one list of definitions. `prefix_bytes` and `prefixes` hand in the same way what Rust
/// code shows in place of the beginnings of file names: the beginning in the place of a name, what is shown in the place of a
/// text. `options` says what is wanted: it is written to the beginning of `out` where the definitions are accepted (`DONE`), else
/// what is wrong with them (`ERRORS`), or why there is no Rust code (`NO_CODE`). `sizes` is given how many bytes were written,
/// and how many the text has: where `out` has fewer, nothing is written (`NO_ROOM`), and the same call with room for as many
/// goes through. Any other status comes without a text.
pub fn lower_texts(
    alloc: Global,
    bytes: &[u8],
    files: &[FileLengths],
    options: &Options,
    prefix_bytes: &[u8],
    prefixes: &[FileLengths],
    out: &mut [u8],
    sizes: &mut Sizes,
) -> u32
    ensures known { IsStatus result }
    // wrong options are told exactly where they are wrong
    ensures options { ¬ (AreOptions options.now) → result ≡ WRONG_OPTION }
    ensures asked { result ≡ WRONG_OPTION → ¬ (AreOptions options.now) }
    // then lengths, exactly where they don't add up
    ensures lengths { AreOptions options.now → ¬ (AddUp files.now bytes.now) → result ≡ WRONG_LENGTHS }
    ensures summed { result ≡ WRONG_LENGTHS → ¬ (AddUp files.now bytes.now) }
    // then names and texts, exactly where they aren't UTF-8, unless memory is refused
    ensures texts { AreOptions options.now → AddUp files.now bytes.now → AreOther files.now bytes.now → TellsOther result }
    ensures other { result ≡ NOT_UTF8 → AreOther files.now bytes.now }
    // then prefixes, exactly where they don't add up or aren't UTF-8, unless memory is refused
    ensures prefixes { AreOptions options.now → AddUp files.now bytes.now → are_texts files.now bytes.now ≡ true
        → ¬ (ArePrefixes prefixes.now prefix_bytes.now) → TellsPrefixes result }
    ensures prefixed { result ≡ WRONG_PREFIX → ¬ (ArePrefixes prefixes.now prefix_bytes.now) }
    // what is written is UTF-8 and no more than there is room for, and nothing behind it is touched
    ensures left { LeavesBehind out.old out.new sizes.new result }
    // of the definitions that the texts spell, or as of texts that can't be read, the status says whether they are accepted,
    // and what is written is made of them
    ensures told { AreOptions options.now → AddUp files.now bytes.now → are_texts files.now bytes.now ≡ true
        → ArePrefixes prefixes.now prefix_bytes.now → IsToldByCall options.now (texts_in files.now bytes.now) out.old out.new sizes.new result }
{
    *sizes = Sizes::none();
    let Some(asked) = asked_by(options) else {
        return WRONG_OPTION;
    };
    if !add_up(files, bytes.len()) {
        return WRONG_LENGTHS;
    }
    match files_of(alloc, bytes, files) {
        Ok(files) => match prefixes_of(alloc, prefix_bytes, prefixes) {
            Ok(Some(prefixes)) => {
                let code = codegen_options(asked, prefixes);
                told(alloc, asked, &code, &files, out, sizes)
            }
            Ok(None) => WRONG_PREFIX,
            Err(AllocError) => NO_MEMORY,
        },
        Err(UnreadInput::Memory) => NO_MEMORY,
        Err(UnreadInput::Text) => NOT_UTF8,
    }
}
