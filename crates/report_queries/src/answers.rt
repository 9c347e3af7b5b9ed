//! What is answered to definitions: the text of their trees, or of what is wrong with them.

ghost use Rattle.std.specs.Io.KnownBytes.{Appends};
ghost use Rattle.std.specs.Prelude.{◌≡◌, ◌≢◌, ◌≤◌, ◌⊎◌, IfOk, OnOk, Bool, List};
ghost use Rattle.cranelift_isle.specs.SyntaxViews.{definition_views};
ghost use Rattle.cranelift_isle.specs.Syntax.{Definition};
ghost use Rattle.report_queries.specs.Statuses.{IsAnswerTo, IsStatusOf};

use crate::trees::trees;
use cranelift_isle::lower::lower;
use cranelift_isle::syntax::{Def, Fault};
use report_print::errors::error_lines;
use report_print::places::Places;
use std::alloc::{AllocError, Global};
use std::io;
use std::io::{ErrorKind, Write};

/// What is to be written: the text of trees, or lines of errors.
#[derive(Drop)]
pub enum TreesOrErrors {
    /// The trees of accepted definitions, or whatever else a program gives of them.
    Trees(String),
    /// What is wrong, one error a line.
    Errors(String),
}

/// What comes of lowering definitions, as text. `expand` says whether uses of internal extractors are
/// replaced by their templates, and `places` how the places of errors are shown.
pub fn answer_to(
    alloc: Global,
    defs: &[Def],
    expand: bool,
    places: Places<'_>,
) -> Result<TreesOrErrors, AllocError>
    ensures { IfOk result (IsAnswerTo (definition_views defs.now) expand) }
{
    match lower(alloc, defs, expand) {
        Ok(lowered) => Ok(TreesOrErrors::Trees(trees(alloc, &lowered)?)),
        Err(Fault::Errors(errors)) => Ok(TreesOrErrors::Errors(error_lines(
            alloc, &errors, places,
        )?)),
        Err(Fault::Memory(e)) => Err(e),
    }
}

/// Writes what is answered, and answers the program's status for it: 0 where trees are on `out`, 1 where errors
/// are on `err`, 3 where memory was refused, 4 where `out` can't be written or flushed. Neither a failure of `err` nor an `out`
/// that nobody reads changes a status.
pub fn write_answer<O: Write, E: Write>(
    answer: Result<TreesOrErrors, AllocError>,
    out: &mut O,
    err: &mut E,
) -> u8
    ensures known { result ≤ 4 }
    ensures used { result ≢ 2 }
    // of the definitions that are answered to, the status says whether they are accepted
    ensures lowered { (defs : List Definition) (expand : Bool) → IfOk answer (IsAnswerTo defs expand) → IsStatusOf defs expand result }
{
    match answer {
        Ok(TreesOrErrors::Trees(text)) => write_text(text.as_str(), out, err),
        Ok(TreesOrErrors::Errors(text)) => end(err, text.as_str(), 1),
        Err(AllocError) => no_memory(err),
    }
}

/// Writes a text to `out` and flushes it. The answer is the program's status: 0, or 4 where that fails. It is 0 too where nobody
/// reads any more: who asked has had enough.
pub fn write_text<O: Write, E: Write>(text: &str, out: &mut O, err: &mut E) -> u8
    ensures { (result ≡ 0) ⊎ (result ≡ 4) }
{
    match write_whole(out, text) {
        Ok(()) => 0,
        Err(error) if error.kind() == ErrorKind::BrokenPipe => 0,
        Err(_) => end(err, "cannot write\n", 4),
    }
}

/// Says that memory was refused, and answers the status for it.
pub fn no_memory<E: Write>(err: &mut E) -> u8
    ensures { result ≡ 3 }
{
    end(err, "out of memory\n", 3)
}

/// Says why a text can't be read, and answers the status for it: 3 for memory, 1 for a text that is not UTF-8, else 4.
pub fn cannot_read<E: Write>(why: ErrorKind, err: &mut E) -> u8
    ensures known { result ≤ 4 }
    ensures used { result ≢ 2 }
{
    match why {
        ErrorKind::OutOfMemory => no_memory(err),
        ErrorKind::InvalidData => end(err, "syntax error: the text is not UTF-8\n", 1),
        _ => end(err, "cannot read\n", 4),
    }
}

/// Says why the program ends, where that can be said, and answers its status.
pub fn end<E: Write>(err: &mut E, text: &str, status: u8) -> u8
    ensures { result ≡ status }
{
    let _ = err.write_all(text.as_bytes());
    status
}

/// Writes a text and flushes it.
///
/// # Errors
///
/// Why it can't be written, as that nobody reads any more.
#[tactic(auto, using(crate::proofs::NameSteps::appends_kept))]
pub fn write_whole<O: Write>(out: &mut O, text: &str) -> io::Result<()>
    // a sink whose bytes are known has those that it had, and the text
    ensures { OnOk result (Appends (O.contents out.old) (O.contents out.new) text.now) }
{
    out.write_all(text.as_bytes())?;
    out.flush()
}
