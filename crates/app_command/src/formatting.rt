//! `isle fmt`: files in the usual layout.

ghost use Rattle.std.specs.Prelude.{◌≡◌, ◌≢◌, ◌⊎◌, ◌≤◌, ◌↔◌, codes, false, true};
ghost use Rattle.app_command.specs.Layouts.{indentation_asked};
ghost use Rattle.app_command.specs.Outputs.{IsWrittenOut};

use crate::inputs::{file_text, path_of, standard_text};
use crate::output::{Ending, write_texts};
use crate::run::{cannot_read, say};
use app_words::formatting::Formatting;
use cranelift_isle::syntax::Files;
use report_errors::syntax_report;
use report_print::layout::{Layout, push_reports};
use report_queries::answers::{end, no_memory};
use std::alloc::{AllocError, Global};
use std::fs::{self, File, OpenFile};
use std::io::{self, ErrorKind, Read, Write};
use text_reader::errors::{ReadFault, TextError};
use text_writer::formatted::{Indentation, formatted};

/// Lays files out, and ends with the status: 0 where all are laid out, or with `check` where none would change; 1 where a text is
/// wrong, or would change; 3 where memory is refused; 4 where a file can't be read or written. The greatest of all files counts.
/// A changed layout is written to a new file, which then takes the name of the old one: so nothing is lost.
pub fn run_formatting<R: std::rt::Files + AllocGlobal, I: Read + Drop, O: Write, E: Write>(
    rt: &R,
    asked: &Formatting<'_>,
    input: I,
    out: &mut O,
    err: &mut E,
) -> Ending
    ensures known { result.status ≤ 4 }
    ensures used { result.status ≢ 2 }
{
    let wants = asked.files.iter().any(|name| name.as_str() == "-");
    match standard_text(rt.alloc(), wants, input) {
        Ok(standard) => format_files(rt, asked, &standard, out, err),
        Err(why) => Ending::with(cannot_read(rt.alloc(), why, err)),
    }
}

// Lays out all files, where this is the text of standard input.
fn format_files<R: std::rt::Files + AllocGlobal, O: Write, E: Write>(
    rt: &R,
    asked: &Formatting<'_>,
    standard: &str,
    out: &mut O,
    err: &mut E,
) -> Ending
    ensures known { result.status ≤ 4 }
    ensures used { result.status ≢ 2 }
{
    let mut status = 0u8;
    let mut is_cut = false;
    for name in &asked.files {
        let one = if name.as_str() == "-" {
            format_text(rt, asked, "<stdin>", standard, out, err)
        } else {
            format_file(rt, asked, name, out, err)
        };
        status = status.max(one.status);
        is_cut = is_cut || one.is_cut;
    }
    Ending { status, is_cut }
}

fn format_file<R: std::rt::Files + AllocGlobal, O: Write, E: Write>(
    rt: &R,
    asked: &Formatting<'_>,
    name: &str,
    out: &mut O,
    err: &mut E,
) -> Ending
    ensures known { result.status ≤ 4 }
    ensures used { result.status ≢ 2 }
{
    match file_text(rt, asked.folder, name) {
        Ok(text) => format_text(rt, asked, name, &text, out, err),
        Err(why) => Ending::with(cannot_read(rt.alloc(), why, err)),
    }
}

fn format_text<R: std::rt::Files + AllocGlobal, O: Write, E: Write>(
    rt: &R,
    asked: &Formatting<'_>,
    name: &str,
    text: &str,
    out: &mut O,
    err: &mut E,
) -> Ending
    ensures known { result.status ≤ 4 }
    ensures used { result.status ≢ 2 }
{
    match formatted(rt.alloc(), 0, indentation_asked(asked), text) {
        Ok(made) => hand_over(
            rt,
            asked,
            Laid {
                name,
                text,
                made: &made,
            },
            out,
            err,
        ),
        Err(ReadFault::Text(error)) => Ending::with(refuse(rt.alloc(), name, text, error, err)),
        Err(ReadFault::Memory(_)) => Ending::with(no_memory(err)),
    }
}

// Where lines begin.
fn indentation_asked(asked: &Formatting<'_>) -> Indentation
    ensures { result ≡ indentation_asked asked.now.indentation }
{
    match asked.indentation {
        Some(indentation) => indentation,
        None => Indentation::UnderPart,
    }
}

// A file's name, its text, and its text as it is laid out.
#[derive(Clone, Copy)]
struct Laid<'a> {
    name: &'a str,
    text: &'a str,
    made: &'a str,
}

// Hands over what is laid out: names the file with `check`, prints standard input, and writes a file that changes.
fn hand_over<R: std::rt::Files + AllocGlobal, O: Write, E: Write>(
    rt: &R,
    asked: &Formatting<'_>,
    laid: Laid<'_>,
    out: &mut O,
    err: &mut E,
) -> Ending
    ensures known { result.status ≤ 4 }
    ensures used { result.status ≢ 2 }
    // with `check`, the status is 0 exactly where nothing would change
    ensures checked { asked.now.check ≡ true → (result.status ≡ 0) ↔ (laid.entry.made.now ≡ laid.entry.text.now) }
    // without it, the layout of standard input is written
    ensures printed { asked.now.check ≡ false → laid.entry.name.now ≡ codes "<stdin>"
        → IsWrittenOut (O.contents out.old) (O.contents out.new) laid.entry.made.now 0 result }
{
    if asked.check {
        return if laid.made == laid.text {
            Ending::with(0)
        } else {
            say_changed(rt.alloc(), laid, asked.diff, out, err)
        };
    }
    if laid.name == "<stdin>" {
        return write_texts(laid.made, "", 0, out, err);
    }
    if laid.made == laid.text {
        return Ending::with(0);
    }
    match replace(rt, asked.folder, laid.name, laid.made) {
        Ok(()) => Ending::with(0),
        Err(error) => Ending::with(cannot_write(rt.alloc(), laid.name, &error, err)),
    }
}

// Says that a file can't be written, and why.
fn cannot_write<E: Write>(alloc: Global, name: &str, error: &io::Error, err: &mut E) -> u8
    ensures { (result ≡ 4) ⊎ (result ≡ 3) }
{
    let why = match error.kind() {
        ErrorKind::OutOfMemory => return no_memory(err),
        ErrorKind::AlreadyExists => format!(in alloc; "{name}: {name}.isle-fmt is there already"),
        ErrorKind::PermissionDenied => format!(in alloc; "{name}: no permission"),
        _ => format!(in alloc; "{name}: {error}"),
    };
    match why {
        Ok(why) => say(alloc, "isle: cannot write ", &why, 4, err),
        Err(AllocError) => no_memory(err),
    }
}

// Names a file that would change, and shows its lines that would, if that is wanted.
fn say_changed<O: Write, E: Write>(
    alloc: Global,
    laid: Laid<'_>,
    diff: bool,
    out: &mut O,
    err: &mut E,
) -> Ending
    ensures known { result.status ≤ 4 }
    ensures used { result.status ≢ 2 }
    ensures told { result.status ≢ 0 }
{
    match changes_told(alloc, laid, diff) {
        Ok(told) => write_texts(&told, "", 1, out, err),
        Err(AllocError) => Ending::with(no_memory(err)),
    }
}

fn changes_told(alloc: Global, laid: Laid<'_>, diff: bool) -> Result<String, AllocError> {
    let mut told = String::from_str(alloc, laid.name)?;
    told.push('\n')?;
    if diff {
        push_changes(&mut told, laid.text, laid.made)?;
    }
    Ok(told)
}

// Adds the lines of a text that a layout changes, each by its number, and below each the new one. A layout keeps lines, except for
// some that are empty.
fn push_changes(out: &mut String, text: &str, made: &str) -> Result<(), AllocError> {
    let mut laid = made.split('\n');
    let mut next = laid.next();
    for (before, line) in text.split('\n').enumerate() {
        let is_kept = next.is_some() && (!line.trim().is_empty() || next == Some(""));
        if next != Some(line) {
            let number = before.saturating_add(1);
            write!(out, "{number}: -{line}\n")?;
            push_new(out, number, next, is_kept)?;
        }
        if is_kept {
            next = laid.next();
        }
    }
    Ok(())
}

// Adds a line that takes the place of another one, if it does.
fn push_new(
    out: &mut String,
    number: usize,
    line: Option<&str>,
    is_kept: bool,
) -> Result<(), AllocError> {
    match line {
        Some(line) if is_kept => write!(out, "{number}: +{line}\n"),
        _ => Ok(()),
    }
}

// Says what is wrong with a text that can't be laid out.
fn refuse<E: Write>(alloc: Global, name: &str, text: &str, error: TextError, err: &mut E) -> u8
    ensures { (result ≡ 1) ⊎ (result ≡ 3) }
{
    match refusal(alloc, name, text, error) {
        Ok(report) => end(err, &report, 1),
        Err(AllocError) => no_memory(err),
    }
}

// The report of what is wrong with a text.
fn refusal(alloc: Global, name: &str, text: &str, error: TextError) -> Result<String, AllocError> {
    let mut files = Files {
        names: Vec::new(alloc),
        texts: Vec::new(alloc),
    };
    files.names.push(String::from_str(alloc, name)?)?;
    files.texts.push(String::from_str(alloc, text)?)?;
    let mut reports = Vec::new(alloc);
    reports.push(syntax_report(alloc, text, &error)?)?;
    let mut report = String::new(alloc);
    push_reports(&mut report, &files, &reports, Layout::Text)?;
    Ok(report)
}

// Gives a file this text, by a new file beside it that takes its name. A link stays, and what it leads to is written.
fn replace<R: std::rt::Files + AllocGlobal>(
    rt: &R,
    folder: &str,
    name: &str,
    text: &str,
) -> io::Result<()> {
    let path = fs::canonicalize(rt, path_of(rt.alloc(), folder, name)?.as_str())?;
    let mut beside = String::from_str(rt.alloc(), path.as_str())?;
    beside.push_str(".isle-fmt")?;
    let file = File::create_new(rt, beside.as_str())?;
    let moved = fill_and_move(rt, file, beside.as_str(), path.as_str(), text);
    if moved.is_err() {
        let _ = fs::remove_file(rt, beside.as_str());
    }
    moved
}

// Writes a text into a new file, with the permissions of another one, whose name it then takes.
fn fill_and_move<R: std::rt::Files>(
    rt: &R,
    mut file: R::File,
    beside: &str,
    path: &str,
    text: &str,
) -> io::Result<()> {
    file.write_all(text.as_bytes())?;
    file.set_permissions(fs::metadata(rt, path)?.permissions())?;
    file.sync_all()?;
    fs::rename(rt, beside, path)
}
