//! What the command answers where texts can't be read.

ghost use Rattle.std.specs.Prelude.{◌≡◌, ◌≢◌, ◌++◌, [], List, map, string_bytes, IfOk, OnOk};
ghost use Rattle.std.specs.List.{AllZip};
ghost use Rattle.report_errors.specs.Places.{BeginsAtError, IsAtError};
ghost use Rattle.report_print.specs.declared.report.Report.{Report};
ghost use Rattle.app_command.specs.Readings.{has_no_definitions, mistakes_of_texts};
ghost use Rattle.app_command.specs.TaskAnswers.{HasReport, IsRefusal};

use crate::answers::{Answer, refusal, shown_of};
use crate::progress::Teller;
use crate::reading::{recovered_of, recovered_texts_have_no_mistake};
use app_words::request::Request;
use cranelift_isle::syntax::Files;
use report_errors::diagnosis::{amount_wanted, reports_of};
use report_errors::lost::{errors_beside, lost_parts, lost_report};
use report_errors::syntax_report;
use report_print::lines::file_text;
use report_print::report::Report;
use std::alloc::{AllocError, Global};
use std::io::Write;
use text_reader::errors::TextError;
use text_reader::recovery::Recovered;

/// The answer where these mistakes are in the texts of files: a report for each.
pub(crate) fn refusal_of_texts(
    alloc: Global,
    asked: &Request<'_>,
    files: &Files,
    mistakes: &[TextError],
) -> Result<Answer, AllocError>
    ensures refusal { IfOk result (IsRefusal asked.now) }
    ensures told { mistakes.now ≢ [] → IfOk result (HasReport asked.now.format) }
{
    let reports = reports_of_texts(alloc, files, mistakes)?;
    let answer = refusal(alloc, asked, files, &reports, 0)?;
    Ok(answer)
}

/// The answer to `check` where texts can't be read: a report for each form that can't be read, and for each error of the others
/// that comes of no such form. If not all are wanted, only the first forms and the first errors are told.
pub(crate) fn refusal_of_forms<E: Write>(
    alloc: Global,
    asked: &Request<'_>,
    files: &Files,
    teller: &mut Teller<'_, E>,
) -> Result<Answer, AllocError>
    ensures { IfOk result (λ a. IsRefusal asked.now a
        × (mistakes_of_texts (has_no_definitions asked.now) 0 (map string_bytes files.now.texts.items) ≢ [] → HasReport asked.now.format a)) }
{
    recovered_texts_have_no_mistake();
    teller.tell("explaining", "errors");
    let mut found = recovered_of(alloc, asked, files)?;
    teller.check_stack(alloc, asked, files, &found.defs)?;
    let told = shown_of(asked.wants_all(), &found.errors);
    let mut reports = reports_of_forms(alloc, files, told)?;
    let untold = found.errors.len().saturating_sub(reports.len());
    let rest = add_errors(alloc, asked, files, &mut found, &mut reports)?;
    let answer = refusal(alloc, asked, files, &reports, rest.saturating_add(untold))?;
    Ok(answer)
}

/// A report for each mistake in forms of the texts of files, at its place.
pub fn reports_of_forms(
    alloc: Global,
    files: &Files,
    mistakes: &[TextError],
) -> Result<Vec<Report>, AllocError>
    ensures { IfOk result (λ reports. AllZip BeginsAtError mistakes.now reports.items) }
{
    let mut reports = Vec::new(alloc);
    for mistake in mistakes {
        let text = file_text(files, mistake.pos.file);
        reports.push(lost_report(alloc, text, mistake)?)?;
    }
    Ok(reports)
}

// Adds a report for each error of what can be read that comes of no form that can't, and says how many more there are.
fn add_errors(
    alloc: Global,
    asked: &Request<'_>,
    files: &Files,
    found: &mut Recovered,
    reports: &mut Vec<Report>,
) -> Result<usize, AllocError>
    ensures { OnOk result ((more : List Report) × (reports.new.items ≡ reports.old.items ++ more)) }
{
    let mut lost = lost_parts(alloc, &files.texts, &found.errors)?;
    let (errors, environments) = errors_beside(
        alloc,
        files,
        &mut found.defs,
        &mut lost,
        asked.expand,
    )?;
    let amount = amount_wanted(asked.wants_all());
    let mut told = reports_of(
        alloc,
        &found.defs,
        environments.as_ref(),
        asked.expand,
        &errors,
        amount,
    )?;
    reports.append(&mut told.reports)?;
    Ok(told.rest.len())
}

/// A report for each mistake in the texts of files, at its place.
pub fn reports_of_texts(
    alloc: Global,
    files: &Files,
    mistakes: &[TextError],
) -> Result<Vec<Report>, AllocError>
    ensures { IfOk result (λ reports. AllZip IsAtError mistakes.now reports.items) }
{
    let mut reports = Vec::new(alloc);
    for mistake in mistakes {
        let text = file_text(files, mistake.pos.file);
        reports.push(syntax_report(alloc, text, mistake)?)?;
    }
    Ok(reports)
}
