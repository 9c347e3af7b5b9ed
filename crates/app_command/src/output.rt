//! How the command ends, and how an answer is written.

ghost use Rattle.std.specs.Io.KnownBytes.{Appends};
ghost use Rattle.std.specs.Prelude.{◌≡◌, false};
ghost use Rattle.app_command.specs.declared.output.Writing.TheVariants.{Whole};
ghost use Rattle.app_command.specs.Outputs.{IsWrittenOut};

use report_queries::answers::{end, write_whole};
use std::io::{ErrorKind, Write};

/// How the command ends.
#[derive(Clone, Copy)]
pub struct Ending {
    /// Its status.
    pub status: u8,
    /// Whether nobody reads `out` any more: who asked has had enough. `out` may lack a part of the answer then. Of the trees of a
    /// sample it isn't told.
    pub is_cut: bool,
}

impl Ending {
    /// The end with a status, where nobody has had enough.
    pub fn with(status: u8) -> Ending
        ensures status { result.status ≡ status }
        ensures whole { result.is_cut ≡ false }
    {
        Ending {
            status,
            is_cut: false,
        }
    }
}

/// How the writing of a text ends.
#[derive(Clone, Copy)]
pub(crate) enum Writing {
    /// All of it is written.
    Whole,
    /// Nobody reads any more.
    Cut,
    /// It can't be written.
    Failed,
}

/// Writes a text to `out` and another one to `err`, and ends with this status; or with 4 where `out` can't be written, which is
/// all that `err` says then. The empty text isn't written. A failure of `err` changes nothing.
#[tactic(auto, using(crate::proofs::SinkBytes::empty_added))]
pub fn write_texts<O: Write, E: Write>(
    text: &str,
    told: &str,
    status: u8,
    out: &mut O,
    err: &mut E,
) -> Ending
    ensures { IsWrittenOut (O.contents out.old) (O.contents out.new) text.now status result }
{
    if text.is_empty() {
        return Ending::with(end(err, told, status));
    }
    match write_out(text, out) {
        Writing::Whole => Ending::with(end(err, told, status)),
        Writing::Cut => Ending {
            status: end(err, told, status),
            is_cut: true,
        },
        Writing::Failed => Ending::with(end(err, "cannot write\n", 4)),
    }
}

// Writes a text and flushes it.
fn write_out<O: Write>(text: &str, out: &mut O) -> Writing
    ensures { result ≡ Whole → Appends (O.contents out.old) (O.contents out.new) text.now }
{
    match write_whole(out, text) {
        Ok(()) => Writing::Whole,
        Err(error) if error.kind() == ErrorKind::BrokenPipe => Writing::Cut,
        Err(_) => Writing::Failed,
    }
}
