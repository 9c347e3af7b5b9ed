//! Forms that can't be read: what is said of them, and which errors of other forms come of them.

ghost use Rattle.std.specs.Prelude.{IfOk};
ghost use Rattle.core_syntax.specs.declared.syntax.Pos.{Pos};
ghost use Rattle.report_errors.specs.Places.{BeginsAt, BeginsAtError};

use crate::error_order::place_of;
use crate::lost_names::{FormSeen, LostNames};
use crate::syntax_report;
use cranelift_isle::environments::Environments;
use cranelift_isle::lower::{Refused, lower_or_environments};
use cranelift_isle::syntax::{Def, Error, Files, Pos};
use report_names::definitions::definition_around;
use report_names::extents::end_of_form;
use report_names::lost_part::LostPart;
use report_print::lines::file_text;
use report_print::report::Report;
use std::alloc::{AllocError, Global};
use std::collections::BTreeSet;
use text_reader::chunks::chunks;
use text_reader::errors::{Problem, TextError};

// How often definitions are taken away because of others that were.
const MOST_ROUNDS: usize = 50;

/// The report of what is wrong with a form among others. Of a list that isn't ended its end is told only where the text ends
/// there.
///
/// # Errors
///
/// Where memory is refused.
#[tactic(auto, using(crate::proofs::Labels::at_error))]
pub fn lost_report(alloc: Global, text: &str, error: &TextError) -> Result<Report, AllocError>
    ensures { IfOk result (BeginsAtError error.now) }
{
    let report = syntax_report(alloc, text, error)?;
    if is_unclosed(error) && error.pos.offset < text.len() {
        return Ok(without_end(report));
    }
    Ok(report)
}

// A report without its second place, where the text ends.
fn without_end(mut report: Report) -> Report
    ensures { (pos : Pos) → BeginsAt pos report → BeginsAt pos result }
{
    if report.labels.len() < 2 {
        return report;
    }
    let _ = report.labels.remove(1);
    report
}

fn is_unclosed(error: &TextError) -> bool {
    matches!(&error.problem, Problem::Unclosed(_))
}

/// The parts of the texts of files that have these mistakes.
///
/// # Errors
///
/// Where memory is refused.
pub fn lost_parts(
    alloc: Global,
    texts: &[String],
    errors: &[TextError],
) -> Result<Vec<LostPart>, AllocError> {
    let mut lost = Vec::new(alloc);
    for (file, text) in texts.iter().enumerate() {
        add_lost(alloc, file, text, errors, &mut lost)?;
    }
    Ok(lost)
}

/// Adds the parts of the text of a file that have one of these mistakes.
///
/// # Errors
///
/// Where memory is refused.
pub fn add_lost(
    alloc: Global,
    file: usize,
    text: &str,
    errors: &[TextError],
    lost: &mut Vec<LostPart>,
) -> Result<(), AllocError> {
    let begins = begins_in(alloc, file, text.len(), errors)?;
    if begins.is_empty() {
        return Ok(());
    }
    for chunk in &chunks(alloc, text)? {
        if has_one(&begins, chunk.offset, chunk.end) {
            lost.push(LostPart {
                file,
                begin: chunk.offset,
                end: chunk.end,
            })?;
        }
    }
    Ok(())
}

// Where the mistakes begin that are in the text of a file, which has a length: in ascending order.
fn begins_in(
    alloc: Global,
    file: usize,
    length: usize,
    errors: &[TextError],
) -> Result<Vec<usize>, AllocError> {
    let mut begins = Vec::new(alloc);
    for error in errors {
        let begin = begin_of(error, length);
        if begin.file == file {
            begins.push(begin.offset)?;
        }
    }
    begins.sort()?;
    Ok(begins)
}

// Whether one of these offsets, which ascend, is between two others: found by halving.
fn has_one(offsets: &[usize], begin: usize, end: usize) -> bool {
    let before = offsets.partition_point(|offset| *offset < begin);
    match offsets.get(before) {
        Some(offset) => *offset < end,
        None => false,
    }
}

// Where a mistake begins in a text of a length: of a list that isn't ended where the list does, and what is missing at the text's
// end at the last character.
fn begin_of(error: &TextError, length: usize) -> Pos {
    let pos = match &error.problem {
        Problem::Unclosed(begin) => *begin,
        Problem::Expected(_) | Problem::UnknownDefinition(_) => error.pos,
    };
    Pos {
        file: pos.file,
        offset: pos.offset.min(length.saturating_sub(1)),
    }
}

/// The errors of definitions that could be read, but for those that come of lost parts, and the environments of the definitions. One
/// with an error that does is taken away, and is a lost part too.
///
/// # Errors
///
/// Where memory is refused.
pub fn errors_beside(
    alloc: Global,
    files: &Files,
    defs: &mut Vec<Def>,
    lost: &mut Vec<LostPart>,
    expand: bool,
) -> Result<(Vec<Error>, Option<Environments>), AllocError> {
    for _ in 0..MOST_ROUNDS {
        let (errors, environments) = errors_of(alloc, defs.as_slice(), expand)?;
        let come = come_of_lost(alloc, files, defs.as_slice(), lost.as_slice(), &errors)?;
        let more = forms_with(alloc, files, defs.as_slice(), &errors, &come)?;
        if more.is_empty() {
            return Ok((without(alloc, errors, &come)?, environments));
        }
        take_away(alloc, defs, &more)?;
        lost.extend_from_slice(&more)?;
    }
    Ok((Vec::new(alloc), None))
}

// The errors of definitions, and what comes with them.
fn errors_of(
    alloc: Global,
    defs: &[Def],
    expand: bool,
) -> Result<(Vec<Error>, Option<Environments>), AllocError> {
    match lower_or_environments(alloc, defs, expand) {
        Ok(_) => Ok((Vec::new(alloc), None)),
        Err(Refused::Errors(errors, environments)) => Ok((errors, environments)),
        Err(Refused::Memory(error)) => Err(error),
    }
}

/// Of each error of definitions whether it comes of lost parts.
///
/// # Errors
///
/// Where memory is refused.
pub fn come_of_lost(
    alloc: Global,
    files: &Files,
    defs: &[Def],
    lost: &[LostPart],
    errors: &[Error],
) -> Result<Vec<bool>, AllocError> {
    let names = LostNames::of(alloc, &files.texts, defs, lost)?;
    let mut seen = FormSeen::none();
    let mut come = Vec::new(alloc);
    for error in errors {
        let comes = match place_of(error) {
            Some(pos) => names.comes_of(pos, &mut seen),
            None => false,
        };
        come.push(comes)?;
    }
    Ok(come)
}

// The forms of the definitions with errors that come of lost parts.
fn forms_with(
    alloc: Global,
    files: &Files,
    defs: &[Def],
    errors: &[Error],
    come: &[bool],
) -> Result<Vec<LostPart>, AllocError> {
    let mut forms: Vec<LostPart> = Vec::new(alloc);
    for (error, comes) in errors.iter().zip(come) {
        if let (true, Some(place)) = (*comes, definition_with(defs, error)) {
            if !is_last(&forms, place) {
                forms.push(form_at(files, place))?;
            }
        }
    }
    Ok(forms)
}

// Where the definition begins that an error is in.
fn definition_with(defs: &[Def], error: &Error) -> Option<Pos> {
    definition_around(defs, place_of(error)?)?.place()
}

// Whether the last of some parts begins at a place.
fn is_last(parts: &[LostPart], place: Pos) -> bool {
    match parts.last() {
        Some(part) => part.begin() == place,
        None => false,
    }
}

// The form that begins at a place, as a part.
fn form_at(files: &Files, place: Pos) -> LostPart {
    let end = end_of_form(file_text(files, place.file), place.offset);
    LostPart {
        file: place.file,
        begin: place.offset,
        end,
    }
}

// Takes the definitions away that begin where these parts do.
fn take_away(alloc: Global, defs: &mut Vec<Def>, parts: &[LostPart]) -> Result<(), AllocError> {
    let mut begins = BTreeSet::new(alloc);
    for part in parts {
        begins.insert(part.begin())?;
    }
    defs.retain(|def| match def.place() {
        Some(pos) => !begins.contains(&pos),
        None => true,
    });
    Ok(())
}

// Those of some errors that come of no lost part.
fn without(alloc: Global, errors: Vec<Error>, come: &[bool]) -> Result<Vec<Error>, AllocError> {
    let mut kept = Vec::new(alloc);
    for (error, comes) in errors.into_iter().zip(come) {
        if !*comes {
            kept.push(error)?;
        }
    }
    Ok(kept)
}
