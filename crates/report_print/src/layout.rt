//! How reports are laid out: as rustc's, or each in one line.

ghost use Rattle.std.specs.Prelude.{◌≡◌, ◌≢◌, ◌++◌, [], OnOk, string_bytes};
ghost use Rattle.core_syntax.specs.SyntaxViews.{position};
ghost use Rattle.report_print.specs.PlaceTexts.{place_text};

use crate::lines::{FileLines, Line, file_name, push_spaces, push_times};
use crate::report::{Label, Level, Note, Report};
use crate::wrapping::{has_room, push_wrapped, room_before};
use core_syntax::syntax::{Files, Pos};
use std::alloc::{AllocError, Global};

/// How reports are laid out.
#[derive(Clone, Copy, PartialEq, Eq)]
pub enum Layout {
    /// With the lines that they speak of, and what is meant underlined; an empty line after each.
    Text,
    /// The same in a terminal's colours: what is told, and the marks, red where they tell of an error's own place, else blue.
    Colored,
    /// Each in one line: the first place, what it says, the further places, and the notes.
    Line,
}

/// Adds reports, in order.
pub fn push_reports(
    out: &mut String,
    files: &Files,
    reports: &[Report],
    layout: Layout,
) -> Result<(), AllocError>
    // of no reports nothing is said, and of any something
    ensures none { reports.now ≡ [] → OnOk result (string_bytes out.new ≡ string_bytes out.old) }
    ensures some { reports.now ≢ [] → OnOk result (string_bytes out.new ≢ []) }
{
    let lines = FileLines::new(*out.allocator(), files)?;
    for report in reports {
        match layout {
            Layout::Text => push_text(out, &lines, report, false)?,
            Layout::Colored => push_text(out, &lines, report, true)?,
            Layout::Line => push_line(out, &lines, report)?,
        }
    }
    Ok(())
}

/// Adds a place: the file's name, the line and the column.
pub fn push_place(out: &mut String, lines: &FileLines<'_>, pos: Pos) -> Result<(), AllocError>
    ensures { OnOk result (string_bytes out.new ≡ string_bytes out.old ++ place_text lines.now.files.now (position pos)) }
{
    let name = file_name(lines.files(), pos.file);
    let place = lines.place(pos);
    let (line, column) = (place.line, place.column);
    write!(out, "{name}:{line}:{column}")
}

fn push_line(out: &mut String, lines: &FileLines<'_>, report: &Report) -> Result<(), AllocError>
    ensures { OnOk result (string_bytes out.new ≢ []) }
{
    for (i, label) in report.labels.iter().enumerate() {
        if i == 0 {
            push_place(out, lines, label.pos)?;
            out.push_str(": ")?;
        }
    }
    push_kind(out, report, false)?;
    out.push_str(&report.message)?;
    for (i, label) in report.labels.iter().enumerate() {
        if i > 0 {
            push_further(out, lines, label)?;
        }
    }
    for note in &report.notes {
        out.push_str("; ")?;
        push_note(out, note)?;
    }
    out.push('\n')
}

fn push_further(out: &mut String, lines: &FileLines<'_>, label: &Label) -> Result<(), AllocError> {
    out.push_str("; ")?;
    out.push_str(&label.text)?;
    out.push_str(" at ")?;
    push_place(out, lines, label.pos)
}

// The codes of a terminal: bold red for errors, bold yellow for warnings, bold blue for further places, bold, and none.
const RED: &str = "1;31";

const YELLOW: &str = "1;33";

const BLUE: &str = "1;34";

const BOLD: &str = "1";

const PLAIN: &str = "0";

// Adds what turns a terminal to this code, where colours are wanted.
fn push_code(out: &mut String, code: &str, colored: bool) -> Result<(), AllocError> {
    if colored {
        out.push_str("\u{1b}[")?;
        out.push_str(code)?;
        out.push('m')?;
    }
    Ok(())
}

// The code of a report's kind, and of the marks at its own place.
fn code_of(level: Level) -> &'static str {
    match level {
        Level::Error => RED,
        Level::Warning => YELLOW,
    }
}

// Adds the kind of a report, and begins what it says.
fn push_kind(out: &mut String, report: &Report, colored: bool) -> Result<(), AllocError> {
    let word = report.level.word();
    let kind = report.kind;
    push_code(out, code_of(report.level), colored)?;
    write!(out, "{word}[{kind}]")?;
    push_code(out, PLAIN, colored)?;
    push_code(out, BOLD, colored)?;
    out.push_str(": ")
}

// Adds what a report says, in as many lines as it takes.
fn push_head(out: &mut String, report: &Report, colored: bool) -> Result<(), AllocError> {
    push_kind(out, report, colored)?;
    let begin = report.level.word().len().saturating_add(report.kind.len());
    push_wrapped(out, (begin as u64).saturating_add(4), 4, &report.message)?;
    push_code(out, PLAIN, colored)
}

// Adds a note, without the end of its line.
fn push_note(out: &mut String, note: &Note) -> Result<(), AllocError> {
    out.push_str(note.word)?;
    out.push_str(": ")?;
    out.push_str(&note.told()?)
}

// Adds a report with the lines that it speaks of, and an empty line.
fn push_text(
    out: &mut String,
    lines: &FileLines<'_>,
    report: &Report,
    colored: bool,
) -> Result<(), AllocError>
    ensures { OnOk result (string_bytes out.new ≢ []) }
{
    push_head(out, report, colored)?;
    out.push('\n')?;
    let width = number_width(lines, report);
    push_labels(out, lines, report, width, colored)?;
    for note in &report.notes {
        push_spaces(out, width)?;
        out.push_str(" = ")?;
        push_note_lines(out, note, width)?;
    }
    out.push('\n')
}

// Adds a note behind the bar, in as many lines as it takes.
fn push_note_lines(out: &mut String, note: &Note, width: u64) -> Result<(), AllocError> {
    out.push_str(note.word)?;
    out.push_str(": ")?;
    let column = (note.word.len() as u64)
        .saturating_add(width)
        .saturating_add(5);
    push_wrapped(out, column, column, &note.told()?)?;
    out.push('\n')
}

// How many columns the bar beside lines of text takes.
const BAR_COLUMNS: u64 = 3;

// How far to the right of the bar what is told of a place stands at most, where it takes several lines below the place's marks.
const MOST_INDENT: u64 = 40;

// Adds the places of a report: those in the file of the first one before others, in the order of the text. Each file has a
// place in words before its lines, and a line that has several places is shown once.
fn push_labels(
    out: &mut String,
    lines: &FileLines<'_>,
    report: &Report,
    width: u64,
    colored: bool,
) -> Result<(), AllocError> {
    let Some(first) = report.labels.first() else {
        return Ok(());
    };
    push_arrow(out, lines, first.pos, "-->", width)?;
    let mut last = (first.pos.file, 0, 0);
    for label in &in_order(*out.allocator(), report, first.pos.file)? {
        let line = lines.line(label.pos);
        push_source(out, lines, label.pos, line, last, width)?;
        let (mark, code) = if label.pos == first.pos {
            ('^', code_of(report.level))
        } else {
            ('-', BLUE)
        };
        push_bar(out, width, " ")?;
        push_spaces(out, line.indent())?;
        push_code(out, code, colored)?;
        push_times(out, mark, line.extent())?;
        push_beside(out, line, &label.text, width)?;
        push_code(out, PLAIN, colored)?;
        out.push('\n')?;
        last = (label.pos.file, line.number, line.part().begin);
    }
    if !report.notes.is_empty() {
        push_bar(out, width, "\n")?;
    }
    Ok(())
}

// The places of a report, those in this file first, in the order of the text.
fn in_order(alloc: Global, report: &Report, file: usize) -> Result<Vec<&Label>, AllocError> {
    let mut labels = Vec::new(alloc);
    for label in &report.labels {
        labels.push(label)?;
    }
    labels.sort_by_key(|label| (label.pos.file != file, label.pos))?;
    Ok(labels)
}

// Adds the line of a place, where the last place wasn't in it, and what leads from there to it. No place was before where the
// last line is 0. A long line is shown again where another part of it is shown.
fn push_source(
    out: &mut String,
    lines: &FileLines<'_>,
    pos: Pos,
    line: Line<'_>,
    last: (usize, u64, u64),
    width: u64,
) -> Result<(), AllocError> {
    let (file, number, begin) = last;
    if file != pos.file {
        push_arrow(out, lines, pos, ":::", width)?;
    } else if number == line.number {
        if begin == line.part().begin {
            return Ok(());
        }
    } else if number > 0 && number.saturating_add(1) != line.number {
        out.push_str("...\n")?;
    }
    push_numbered(out, line, width)
}

// Adds the line that names a place, and an empty one.
fn push_arrow(
    out: &mut String,
    lines: &FileLines<'_>,
    pos: Pos,
    arrow: &str,
    width: u64,
) -> Result<(), AllocError> {
    push_spaces(out, width)?;
    out.push_str(arrow)?;
    out.push(' ')?;
    push_place(out, lines, pos)?;
    out.push('\n')?;
    push_bar(out, width, "\n")
}

// Adds a line of text behind its number.
fn push_numbered(out: &mut String, line: Line<'_>, width: u64) -> Result<(), AllocError> {
    let number = line.number;
    write!(out, "{number}")?;
    push_spaces(out, width.saturating_sub(digits(number)))?;
    out.push_str(if line.text.is_empty() { " |" } else { " | " })?;
    line.push(out)?;
    out.push('\n')
}

// Adds what a place has to do with the report: beside its marks, or below them where it has no room.
fn push_beside(out: &mut String, line: Line<'_>, text: &str, width: u64) -> Result<(), AllocError> {
    if text.is_empty() {
        return Ok(());
    }
    let behind = width.saturating_add(BAR_COLUMNS);
    let column = behind
        .saturating_add(line.indent())
        .saturating_add(line.extent());
    if has_room(column, text) {
        out.push(' ')?;
        return out.push_str(text);
    }
    out.push('\n')?;
    push_bar(out, width, " ")?;
    let indent = indent_below(line.indent(), behind, text);
    push_spaces(out, indent)?;
    let column = behind.saturating_add(indent);
    push_wrapped(out, column, column, text)
}

// How far to the right of the bar a text stands below marks that begin there: right below them, or as near to that as it has
// room in one line.
fn indent_below(marks: u64, behind: u64, text: &str) -> u64 {
    let room = room_before(text).saturating_sub(behind);
    marks.min(room.max(MOST_INDENT))
}

// Adds the bar beside lines of text, where no number stands.
fn push_bar(out: &mut String, width: u64, end: &str) -> Result<(), AllocError> {
    push_spaces(out, width)?;
    out.push_str(" |")?;
    out.push_str(end)
}

// How many digits the greatest line number of a report's places has.
fn number_width(lines: &FileLines<'_>, report: &Report) -> u64 {
    let mut width = 1u64;
    for label in &report.labels {
        width = width.max(digits(lines.place(label.pos).line as u64));
    }
    width
}

// How many digits a number has, of those that texts have lines for.
fn digits(number: u64) -> u64 {
    let mut count = 1u64;
    for power in [
        10u64,
        100,
        1000,
        10_000,
        100_000,
        1_000_000,
        10_000_000,
        100_000_000,
    ] {
        if number >= power {
            count = count.saturating_add(1);
        }
    }
    count
}
