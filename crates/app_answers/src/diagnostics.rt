//! Reports as diagnostics of the protocol.

use crate::analysis::Analysis;
use crate::ranges::Ranges;
use crate::session::Session;
use app_messages::replies::{Unsent, send_notification};
use cranelift_isle::syntax::Pos;
use report_print::lines::{FileLines, file_name};
use report_print::report::{Label, Level, Report};
use serde_json::{Value, json};
use std::alloc::{AllocError, Global};
use std::io::Write;

/// Sends the diagnostics of all files: of each document that is open, and of each other file that has some or had some. Those of a
/// file that is in several lists come from each.
pub fn publish<W: Write>(
    alloc: Global,
    out: &mut W,
    analyses: &[Analysis],
    session: &Session,
) -> Result<(), Unsent> {
    for (number, analysis) in analyses.iter().enumerate() {
        for (uri, path) in analysis.sources.uris.iter().zip(&analysis.sources.paths) {
            let earlier = analyses.get(..number).unwrap_or(&[]);
            if !earlier
                .iter()
                .any(|other| other.sources.number_of(path).is_some())
            {
                let found = diagnostics_of(alloc, analyses, path)?;
                if !found.is_empty() || session.shows(path, uri) {
                    publish_file(alloc, out, (uri.as_str(), session.version_of(path)), found)?;
                }
            }
        }
    }
    publish_gone(alloc, out, analyses, session)
}

// The diagnostics of the file at a path, in all lists.
fn diagnostics_of(
    alloc: Global,
    analyses: &[Analysis],
    path: &str,
) -> Result<Vec<Value>, AllocError> {
    let mut found = Vec::new(alloc);
    for analysis in analyses {
        if let Some(file) = analysis.sources.number_of(path) {
            add_diagnostics(alloc, analysis, file, &mut found)?;
        }
    }
    Ok(found)
}

// Sends that files which are no longer there have no diagnostics.
fn publish_gone<W: Write>(
    alloc: Global,
    out: &mut W,
    analyses: &[Analysis],
    session: &Session,
) -> Result<(), Unsent> {
    for uri in &session.shown {
        if !analyses
            .iter()
            .any(|analysis| analysis.sources.uris.contains(uri))
        {
            publish_file(alloc, out, (uri.as_str(), None), Vec::new(alloc))?;
        }
    }
    Ok(())
}

// Sends the diagnostics of a file, with the version of its text if it is open.
fn publish_file<W: Write>(
    alloc: Global,
    out: &mut W,
    (uri, version): (&str, Option<i64>),
    found: Vec<Value>,
) -> Result<(), Unsent> {
    let mut params = json!(in alloc; {"uri": uri, "diagnostics": found})?;
    if let (Some(version), Some(object)) = (version, params.as_object_mut()) {
        serde_json::put(object, alloc, "version", Value::from(version))?;
    }
    send_notification(alloc, out, "textDocument/publishDiagnostics", &params)
}

/// The URIs of the files that have diagnostics.
pub fn told_files(alloc: Global, analyses: &[Analysis]) -> Result<Vec<String>, AllocError> {
    let mut told = Vec::new(alloc);
    for analysis in analyses {
        for report in &analysis.reports {
            if let Some(uri) = analysis.sources.uris.get(file_of(report)) {
                if !told.contains(uri) {
                    told.push(uri.clone()?)?;
                }
            }
        }
    }
    Ok(told)
}

/// Where a report is told: at its first place.
pub fn place_of(report: &Report) -> Option<Pos> {
    let label = report.labels.first()?;
    Some(label.pos)
}

/// The file in which a report is told.
pub fn file_of(report: &Report) -> usize {
    match place_of(report) {
        Some(pos) => pos.file,
        None => 0,
    }
}

/// How places in the files of an analysis are shown.
pub(crate) struct Shown<'a> {
    pub(crate) analysis: &'a Analysis,
    ranges: Ranges<'a>,
    lines: FileLines<'a>,
}

impl<'a> Drop for Shown<'a> {
    fn drop(self) {
        let Shown {
            analysis: _,
            ranges: _,
            lines: _,
        } = self;
    }
}

impl<'a> Shown<'a> {
    /// The lines of all files are found here, once.
    pub fn new(alloc: Global, analysis: &'a Analysis) -> Result<Shown<'a>, AllocError> {
        let ranges = Ranges::new(alloc, analysis)?;
        let lines = FileLines::new(alloc, &analysis.sources.files)?;
        Ok(Shown {
            analysis,
            ranges,
            lines,
        })
    }
}

// Adds the diagnostics of a file that no earlier list gave.
fn add_diagnostics(
    alloc: Global,
    analysis: &Analysis,
    file: usize,
    found: &mut Vec<Value>,
) -> Result<(), AllocError> {
    if !analysis
        .reports
        .iter()
        .any(|report| file_of(report) == file)
    {
        return Ok(());
    }
    let shown = Shown::new(alloc, analysis)?;
    let count = found.len();
    for report in &analysis.reports {
        if file_of(report) == file {
            let diagnostic = diagnostic_of(alloc, &shown, report)?;
            if !is_among(&diagnostic, found, count) {
                found.push(diagnostic)?;
            }
        }
    }
    Ok(())
}

// Whether a diagnostic is one of the first so many.
fn is_among(diagnostic: &Value, found: &[Value], count: usize) -> bool {
    found.iter().take(count).any(|other| *other == *diagnostic)
}

/// A report as a diagnostic. Where `--all` shows more is left out: an editor hasn't it.
pub(crate) fn diagnostic_of(
    alloc: Global,
    shown: &Shown<'_>,
    report: &Report,
) -> Result<Value, AllocError> {
    let range = match place_of(report) {
        Some(pos) if report.code == "unclosed-list" => shown.ranges.of_head(pos)?,
        Some(pos) => shown.ranges.of_form(pos)?,
        None => shown.ranges.between(0, 0, 0)?,
    };
    let message = message_of(alloc, &shown.lines, report)?;
    let related = related_to(alloc, &shown.ranges, report)?;
    let list = shown.analysis.sources.name.as_str();
    let source = if list.is_empty() {
        String::from_str(alloc, "isle")?
    } else {
        format!(in alloc; "isle, {list}")?
    };
    json!(in alloc; {
        "range": range,
        "severity": severity_of(report),
        "code": report.kind,
        "source": source,
        "message": message,
        "relatedInformation": related
    })
}

// How grave a report is, in the protocol's numbers.
fn severity_of(report: &Report) -> u8 {
    match report.level {
        Level::Error => 1,
        Level::Warning => 2,
    }
}

// What a report says: its message, what is said of its places, and its notes. Some editors show no related information, so the
// further places stand here too.
fn message_of(alloc: Global, lines: &FileLines<'_>, report: &Report) -> Result<String, AllocError> {
    let mut text = report.message.clone()?;
    if let Some(label) = report.labels.first() {
        push_line(&mut text, "", &label.text)?;
    }
    for label in report.labels.iter().skip(1) {
        push_place(&mut text, lines, label)?;
    }
    for note in &report.notes {
        push_line(&mut text, note.word, &note.text)?;
    }
    String::from_str(alloc, &text)
}

// Adds a line, unless it is empty.
fn push_line(out: &mut String, word: &str, text: &str) -> Result<(), AllocError> {
    if text.is_empty() {
        return Ok(());
    }
    out.push('\n')?;
    if !word.is_empty() {
        out.push_str(word)?;
        out.push_str(": ")?;
    }
    out.push_str(text)
}

// Adds a line on a further place: its file and line, and what is said of it.
fn push_place(out: &mut String, lines: &FileLines<'_>, label: &Label) -> Result<(), AllocError> {
    let name = file_name(lines.files(), label.pos.file);
    let line = lines.place(label.pos).line;
    let said = said_of(label);
    write!(out, "\n{name}:{line}: {said}")
}

// What is said of a further place.
fn said_of(label: &Label) -> &str {
    if label.text.is_empty() {
        return "here";
    }
    label.text.as_str()
}

// The further places of a report.
fn related_to(
    alloc: Global,
    ranges: &Ranges<'_>,
    report: &Report,
) -> Result<Vec<Value>, AllocError> {
    let mut related = Vec::new(alloc);
    for label in report.labels.iter().skip(1) {
        let range = ranges.of_form(label.pos)?;
        let location = ranges.location(label.pos.file, range)?;
        let said = said_of(label);
        related.push(json!(in alloc; {"location": location, "message": said})?)?;
    }
    Ok(related)
}
