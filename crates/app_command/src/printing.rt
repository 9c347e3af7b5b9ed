//! What the command answers where what its files have is printed as one text.

ghost use Rattle.std.specs.Prelude.{◌≡◌, ◌≢◌, ◌∷◌, [], map, string_bytes, IfOk};
ghost use Rattle.text_writer.specs.Contents.{AreOfTexts, contents_of_texts, contents_view};
ghost use Rattle.app_command.specs.TaskAnswers.{label_places, HasReport, IsPrintOfContents, IsPrintOfTexts, IsRefusal};

use crate::answers::{Answer, accepted, refusal};
use crate::progress::Teller;
use crate::unread::refusal_of_texts;
use app_words::request::Request;
use cranelift_isle::syntax::{Files, Pos};
use report_print::lines::file_name;
use report_print::report::{Label, Level, Report};
use std::alloc::{AllocError, Global};
use std::io::Write;
use text_writer::contents::{Contents, ContentsFault, texts_follow};

/// What is answered to files whose definitions are printed as one text, and with them what they say for a verifier, in their order.
/// They are only read, and needn't be accepted.
pub(crate) fn printed_texts<E: Write>(
    alloc: Global,
    asked: &Request<'_>,
    files: &Files,
    teller: &mut Teller<'_, E>,
) -> Result<Answer, AllocError>
    ensures { IfOk result (IsPrintOfTexts asked.now (map string_bytes files.now.texts.items)) }
{
    let contents = contents_of(alloc, files, teller)?;
    printed_contents(alloc, asked, files, &contents, teller)
}

// What the texts of files have. It is told of each that it is read.
fn contents_of<E: Write>(
    alloc: Global,
    files: &Files,
    teller: &mut Teller<'_, E>,
) -> Result<Contents, AllocError>
    ensures { IfOk result (λ found. contents_view found ≡ contents_of_texts 0 (map string_bytes files.now.texts.items)) }
{
    texts_follow();
    let mut found = Contents::new(alloc);
    for (number, text) in files.texts.iter().enumerate() {
        teller.tell("reading", file_name(files, number));
        found.add_text(alloc, number, text)?;
    }
    Ok(found)
}

// The text of what texts have, or why there is none.
fn printed_contents<E: Write>(
    alloc: Global,
    asked: &Request<'_>,
    files: &Files,
    contents: &Contents,
    teller: &mut Teller<'_, E>,
) -> Result<Answer, AllocError>
    requires { AreOfTexts contents.now }
    ensures { IfOk result (IsPrintOfContents (contents_view contents.now) asked.now) }
{
    if contents.mistakes.is_empty() {
        printed_reading(alloc, asked, files, contents, teller)
    } else {
        unread(alloc, asked, files, contents)
    }
}

// The answer where texts have mistakes.
fn unread(
    alloc: Global,
    asked: &Request<'_>,
    files: &Files,
    contents: &Contents,
) -> Result<Answer, AllocError>
    requires { contents.now.mistakes.items ≢ [] }
    ensures { IfOk result (IsPrintOfContents (contents_view contents.now) asked.now) }
{
    let answer = refusal_of_texts(alloc, asked, files, &contents.mistakes)?;
    Ok(answer)
}

// The text of what texts have that have no mistake, or that something can't be spelled.
fn printed_reading<E: Write>(
    alloc: Global,
    asked: &Request<'_>,
    files: &Files,
    contents: &Contents,
    teller: &mut Teller<'_, E>,
) -> Result<Answer, AllocError>
    requires of_texts { AreOfTexts contents.now }
    requires read { contents.now.mistakes.items ≡ [] }
    ensures { IfOk result (IsPrintOfContents (contents_view contents.now) asked.now) }
{
    teller.tell("printing", "all definitions");
    match contents.printed(alloc) {
        Ok(text) => Ok(accepted(alloc, text)),
        Err(ContentsFault::Unspellable(place)) => unspelled(alloc, asked, files, place),
        Err(ContentsFault::Memory(error)) => Err(error),
    }
}

// The answer where what stands at this place can't be spelled.
fn unspelled(
    alloc: Global,
    asked: &Request<'_>,
    files: &Files,
    place: Pos,
) -> Result<Answer, AllocError>
    ensures { IfOk result (λ a. IsRefusal asked.now a × HasReport asked.now.format a) }
{
    let reports = reports_of_unspelled(alloc, place)?;
    let answer = refusal(alloc, asked, files, &reports, 0)?;
    Ok(answer)
}

// The one report of it, at its place.
fn reports_of_unspelled(alloc: Global, place: Pos) -> Result<Vec<Report>, AllocError>
    ensures some { IfOk result (λ reports. reports.items ≢ []) }
    ensures places { IfOk result (λ reports. map label_places reports.items ≡ (place ∷ []) ∷ []) }
{
    let report = report_of_unspelled(alloc, place)?;
    let mut reports = Vec::new(alloc);
    reports.push(report)?;
    Ok(reports)
}

fn report_of_unspelled(alloc: Global, place: Pos) -> Result<Report, AllocError>
    ensures { IfOk result (λ report. label_places report ≡ place ∷ []) }
{
    let labels = labels_of(alloc, place)?;
    let message = String::from_str(alloc, "no text spells this")?;
    Ok(Report {
        level: Level::Error,
        kind: "print",
        code: "print",
        message,
        labels,
        notes: Vec::new(alloc),
        fixes: Vec::new(alloc),
    })
}

fn labels_of(alloc: Global, place: Pos) -> Result<Vec<Label>, AllocError>
    ensures { IfOk result (λ labels. map (λ label. label.pos) labels.items ≡ place ∷ []) }
{
    let mut labels = Vec::new(alloc);
    let text = String::new(alloc);
    labels.push(Label { pos: place, text })?;
    Ok(labels)
}
