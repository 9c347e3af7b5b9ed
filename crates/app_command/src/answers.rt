//! What the command answers to texts.

ghost use Rattle.std.specs.Prelude.{◌≡◌, ◌≢◌, ◌⊎◌, true, false, [], map, string_bytes, take, IfOk, OnOk};
ghost use Rattle.cranelift_isle.specs.SyntaxViews.{definition_views};
ghost use Rattle.app_words.specs.declared.tasks.Task.TheVariants.{Compare, Lower, Run};
ghost use Rattle.app_command.specs.Codes.{IsAnswerOfCode, IsAnswerOfRust};
ghost use Rattle.app_command.specs.TaskAnswers.{AreReports, AreSizes, HasNoReport, HasReport, IsDone, IsDoneWithText, IsDoneWithoutText, IsFailed, IsRefusal, IsStatusOfWarnings, denies};
ghost use Rattle.app_command.specs.TaskAnswers.{IsAnswerBy, IsAnswerOfComparing, IsAnswerOfTold, IsAnswerToDefinitions, IsAnswerToFiles, IsAnswerToOneReading, IsAnswerToReading};
ghost use Rattle.app_command.specs.Statuses.{IsStatusOfReading};

use crate::calls::{Told, ran, told_why};
use crate::code::{Code, code_or_stubs};
use crate::printing::printed_texts;
use crate::progress::{Teller, Unanswered};
use crate::reading::{Reading, reading_of};
use crate::trees::{missing_term, text_of_trees, told, wanted};
use crate::unread::{refusal_of_forms, refusal_of_texts};
use crate::versions::answer_to_versions;
use app_words::request::{Format, Request};
use app_words::tasks::Task;
use cranelift_isle::environments::Environments;
use cranelift_isle::lower::{Lowered, Refused, lower_or_environments};
use cranelift_isle::syntax::{Def, Error, Files};
use report_compare::departures;
use report_errors::diagnosis::{MOST_ERRORS, amount_wanted, reports_of};
use report_json::documents::{
    DocumentPurpose, document_of_reports, document_of_sizes, document_of_warnings,
};
use report_print::layout::push_reports;
use report_print::lines::{FileLines, file_name};
use report_print::report::Report;
use report_warnings::kinds::is_one_of;
use report_warnings::lints::warnings;
use report_ways::explanation::explanation;
use report_ways::term_sizes::stats;
use std::alloc::{AllocError, Global};
use std::io::Write;

/// What the command answers.
pub struct Answer {
    /// Its status: 0, or 1 where something is wrong with the files, there is nothing of a name that is asked for, or versions or
    /// trees differ.
    pub status: u8,
    /// What goes to standard output.
    pub out: String,
    /// What goes to standard error.
    pub err: String,
}

impl Drop for Answer {
    fn drop(self) {
        let Self {
            status: _,
            out: _,
            err: _,
        } = self;
    }
}

/// What is answered to files, where there are so many bytes of stack. All errors of the first pass that finds some are told: of
/// reading, one for each file, but by `check` one for each form that can't be read, and the errors of the others. It is told on
/// `err` what is being done, where that is asked for or `err` is a terminal.
///
/// # Errors
///
/// Where memory is refused, or a rule takes more stack than there is, which is told on `err`.
pub fn answer_within<E: Write>(
    alloc: Global,
    asked: &Request<'_>,
    files: &Files,
    stack: usize,
    terminal: bool,
    err: &mut E,
) -> Result<Answer, Unanswered>
    ensures { IfOk result (IsAnswerToFiles asked.now files.now) }
{
    let mut teller = Teller::within(stack, asked.progress, terminal, err);
    let answer = answer_to_files(alloc, asked, files, &mut teller);
    teller.end();
    match answer {
        Ok(answer) => Ok(answer),
        Err(AllocError) => Err(teller.why()),
    }
}

// What is answered to files, by what tells what is being done.
fn answer_to_files<E: Write>(
    alloc: Global,
    asked: &Request<'_>,
    files: &Files,
    teller: &mut Teller<'_, E>,
) -> Result<Answer, AllocError>
    ensures { IfOk result (IsAnswerToFiles asked.now files.now) }
{
    if asked.task == Task::Diff {
        let answer = answer_to_versions(alloc, asked, files, teller)?;
        return Ok(answer);
    }
    if asked.task == Task::Print {
        let answer = printed_texts(alloc, asked, files, teller)?;
        return Ok(answer);
    }
    let answer = answer_to_texts(alloc, asked, files, teller)?;
    Ok(answer)
}

// What is answered to files that together are one list of definitions.
fn answer_to_texts<E: Write>(
    alloc: Global,
    asked: &Request<'_>,
    files: &Files,
    teller: &mut Teller<'_, E>,
) -> Result<Answer, AllocError>
    ensures { IfOk result (IsAnswerToOneReading asked.now files.now) }
{
    let reading = reading_of(alloc, asked, files, teller)?;
    match &reading {
        Reading::Unread(_) if asked.task == Task::Check => refusal_of_forms(
            alloc, asked, files, teller,
        ),
        _ => answer_to_reading(alloc, asked, files, &reading, teller),
    }
}

/// What is answered to what the texts of files were read as.
pub fn answer_to_reading<E: Write>(
    alloc: Global,
    asked: &Request<'_>,
    files: &Files,
    reading: &Reading,
    teller: &mut Teller<'_, E>,
) -> Result<Answer, AllocError>
    ensures answer { IfOk result (IsAnswerToReading asked.now files.now reading.now) }
    ensures status { IfOk result (λ a. IsStatusOfReading asked.now reading.now a.status) }
{
    match reading {
        Reading::Defs(defs) => answer_to_defs(alloc, asked, files, defs, teller),
        Reading::Unread(mistakes) => refusal_of_texts(alloc, asked, files, mistakes),
    }
}

/// The answer where something is wrong: these reports, and how many more there are.
pub(crate) fn refusal(
    alloc: Global,
    asked: &Request<'_>,
    files: &Files,
    reports: &[Report],
    rest: usize,
) -> Result<Answer, AllocError>
    ensures refusal { IfOk result (IsRefusal asked.now) }
    ensures told { reports.now ≢ [] → IfOk result (HasReport asked.now.format) }
{
    if asked.format == Format::Json {
        return Ok(Answer {
            status: 1,
            out: document_of_reports(alloc, files, reports, document_for(asked.task))?,
            err: String::new(alloc),
        });
    }
    let mut err = String::new(alloc);
    push_reports(&mut err, files, reports, asked.layout())?;
    push_rest(&mut err, rest)?;
    Ok(Answer {
        status: 1,
        out: String::new(alloc),
        err,
    })
}

fn document_for(task: Task) -> DocumentPurpose {
    match task {
        Task::Lower => DocumentPurpose::Trees,
        Task::Stats => DocumentPurpose::Sizes,
        // the other tasks have no JSON
        _ => DocumentPurpose::Check,
    }
}

// Adds how many more errors or warnings there are.
fn push_rest(err: &mut String, count: usize) -> Result<(), AllocError>
    ensures none { count ≡ 0 → OnOk result (string_bytes err.new ≡ string_bytes err.old) }
    ensures some { OnOk result (string_bytes err.old ≢ [] → string_bytes err.new ≢ []) }
{
    if count == 0 {
        return Ok(());
    }
    write!(err, "and {count} more, shown by `--all`\n")
}

fn answer_to_defs<E: Write>(
    alloc: Global,
    asked: &Request<'_>,
    files: &Files,
    defs: &[Def],
    teller: &mut Teller<'_, E>,
) -> Result<Answer, AllocError>
    ensures { IfOk result (IsAnswerToDefinitions (definition_views defs.now) asked.now files.now) }
{
    teller.tell("lowering", "all terms");
    teller.check_stack(alloc, asked, files, defs)?;
    match lower_or_environments(alloc, defs, asked.expand) {
        Ok(lowered) => answer_to_lowered(alloc, asked, files, defs, &lowered, teller),
        Err(Refused::Errors(errors, environments)) => {
            let environments = environments.as_ref();
            refused(alloc, asked, files, defs, environments, &errors, teller)
        }
        Err(Refused::Memory(error)) => Err(error),
    }
}

/// The answer where definitions, which became these environments, have errors.
pub(crate) fn refused<E: Write>(
    alloc: Global,
    asked: &Request<'_>,
    files: &Files,
    defs: &[Def],
    environments: Option<&Environments>,
    errors: &[Error],
    teller: &mut Teller<'_, E>,
) -> Result<Answer, AllocError>
    ensures { IfOk result (IsRefusal asked.now) }
{
    teller.tell("explaining", "errors");
    let amount = amount_wanted(asked.wants_all());
    let found = reports_of(alloc, defs, environments, asked.expand, errors, amount)?;
    refusal(alloc, asked, files, &found.reports, found.rest.len())
}

// What is answered to definitions with trees.
fn answer_to_lowered<E: Write>(
    alloc: Global,
    asked: &Request<'_>,
    files: &Files,
    defs: &[Def],
    lowered: &Lowered,
    teller: &mut Teller<'_, E>,
) -> Result<Answer, AllocError>
    ensures { IfOk result (IsAnswerBy asked.now.task asked.now files.now lowered.now) }
{
    match asked.task {
        Task::Lower => trees(alloc, asked, files, defs, lowered, teller),
        Task::Rust => {
            teller.tell("printing", "all terms");
            coded(alloc, asked, files, lowered)
        }
        Task::Check => {
            teller.tell("checking", "all rules");
            let warnings = warnings(alloc, files, defs, lowered, &asked.allowed)?;
            warned(alloc, asked, files, &warnings)
        }
        // one list of definitions is no second version, and what is lowered isn't printed
        Task::Samples | Task::Diff | Task::Print => Ok(accepted(alloc, String::new(alloc))),
        Task::Stats => counted(alloc, asked, lowered),
        Task::Compare => compared(alloc, asked, files, lowered, teller),
        Task::Run => run_answered(alloc, asked, files, lowered),
        Task::Why => why_answered(alloc, asked, files, defs, lowered),
        Task::Explain => explained(alloc, asked, files, defs, lowered),
    }
}

// The Rust code of lowered definitions, or stubs of what it asks for; or why there is no code.
fn coded(
    alloc: Global,
    asked: &Request<'_>,
    files: &Files,
    lowered: &Lowered,
) -> Result<Answer, AllocError>
    ensures { IfOk result (IsAnswerOfRust lowered.now files.now asked.now.code asked.now.stubs) }
{
    let code = code_or_stubs(alloc, files, lowered, &asked.code, asked.stubs)?;
    Ok(answer_of_code(alloc, code))
}

// Code is answered on standard output, and why there is none on standard error.
fn answer_of_code(alloc: Global, code: Code) -> Answer
    ensures { IsAnswerOfCode code result }
{
    match code {
        Code::Text(text) => accepted(alloc, text),
        Code::Names(why) => Answer {
            status: 1,
            out: String::new(alloc),
            err: why,
        },
    }
}

// How large terms are.
fn counted(alloc: Global, asked: &Request<'_>, lowered: &Lowered) -> Result<Answer, AllocError>
    ensures { IfOk result (λ a. IsDone a × AreSizes asked.now.format (string_bytes a.out)) }
{
    let out = text_of_sizes(alloc, asked.format, lowered)?;
    Ok(accepted(alloc, out))
}

fn text_of_sizes(alloc: Global, format: Format, lowered: &Lowered) -> Result<String, AllocError>
    ensures { IfOk result (λ text. AreSizes format (string_bytes text)) }
{
    match format {
        Format::Json => document_of_sizes(alloc, lowered),
        Format::Dot | Format::Text | Format::Line => stats(alloc, lowered),
    }
}

// What is said of the rules that are so called.
fn explained(
    alloc: Global,
    asked: &Request<'_>,
    files: &Files,
    defs: &[Def],
    lowered: &Lowered,
) -> Result<Answer, AllocError>
    ensures { IfOk result (λ a. IsDoneWithText a ⊎ IsFailed a) }
{
    let lines = FileLines::new(alloc, files)?;
    let text = explanation(alloc, &lines, defs, lowered, asked.rule)?;
    if text.is_empty() {
        missing(alloc, "rule or term with rules", asked.rule)
    } else {
        Ok(accepted(alloc, text))
    }
}

/// The answer where nothing is wrong.
pub(crate) fn accepted(alloc: Global, out: String) -> Answer
    ensures status { result.status ≡ 0 }
    ensures out { string_bytes result.out ≡ string_bytes out }
    ensures err { string_bytes result.err ≡ [] }
{
    Answer {
        status: 0,
        out,
        err: String::new(alloc),
    }
}

// The answer to `check` where nothing is wrong: what is likely not meant. Its status is 1 where that is asked for.
fn warned(
    alloc: Global,
    asked: &Request<'_>,
    files: &Files,
    warnings: &[Report],
) -> Result<Answer, AllocError>
    ensures reports { IfOk result (AreReports asked.now.format) }
    // what is told are the warnings
    ensures none { warnings.now ≡ [] → IfOk result (HasNoReport asked.now.format) }
    ensures some { warnings.now ≢ [] → IfOk result (HasReport asked.now.format) }
    ensures status { IfOk result (IsStatusOfWarnings asked.now) }
{
    let status = if has_denied(asked, warnings) { 1 } else { 0 };
    let mut out = String::new(alloc);
    let mut err = String::new(alloc);
    if asked.format == Format::Json {
        out = document_of_warnings(alloc, files, warnings)?;
    } else {
        let shown = shown_of(asked.wants_all(), warnings);
        push_reports(&mut err, files, shown, asked.layout())?;
        push_rest(&mut err, warnings.len().saturating_sub(shown.len()))?;
    }
    Ok(Answer { status, out, err })
}

/// The errors or warnings that are shown: all, if all are wanted, or the first 20.
pub(crate) fn shown_of<T>(all: bool, found: &[T]) -> &[T]
    ensures all { all ≡ true → result.now ≡ found.now }
    ensures few { all ≡ false → result.now ≡ take 20 found.now }
    ensures none { found.now ≡ [] → result.now ≡ [] }
    ensures some { found.now ≢ [] → result.now ≢ [] }
{
    if all || found.len() <= MOST_ERRORS {
        return found;
    }
    &found[..MOST_ERRORS]
}

// Whether one of these warnings counts as an error.
fn has_denied(asked: &Request<'_>, warnings: &[Report]) -> bool
    ensures all { asked.now.deny ≡ true → warnings.now ≢ [] → result ≡ true }
    ensures none { warnings.now ≡ [] → result ≡ false }
    ensures some { result ≡ true → denies asked.now ≡ true }
{
    if asked.deny {
        return !warnings.is_empty();
    }
    !asked.denied.is_empty()
        && warnings
            .iter()
            .any(|report| is_one_of(report, &asked.denied))
}

// The answer where there is nothing of a name.
fn missing(alloc: Global, what: &str, name: &str) -> Result<Answer, AllocError>
    ensures { IfOk result IsFailed }
{
    Ok(Answer {
        status: 1,
        out: String::new(alloc),
        err: format!(in alloc; "error: no {what} is called `{name}`\n")?,
    })
}

// The outcome of the call that is asked for.
#[tactic(auto, using(crate::proofs::CallAnswers::run_answered_lem))]
fn run_answered(
    alloc: Global,
    asked: &Request<'_>,
    files: &Files,
    lowered: &Lowered,
) -> Result<Answer, AllocError>
    ensures { IfOk result (IsAnswerBy Run asked.now files.now lowered.now) }
{
    let lines = FileLines::new(alloc, files)?;
    let told = ran(alloc, asked, &lines, lowered)?;
    let answer = answer_of_call(alloc, told)?;
    Ok(answer)
}

// Whether the rules that are asked about are taken on the call.
#[tactic(auto, using(crate::proofs::CallAnswers::why_answered_lem))]
fn why_answered(
    alloc: Global,
    asked: &Request<'_>,
    files: &Files,
    defs: &[Def],
    lowered: &Lowered,
) -> Result<Answer, AllocError>
    ensures { IfOk result (λ a. IsDoneWithText a ⊎ IsFailed a) }
{
    let lines = FileLines::new(alloc, files)?;
    let told = told_why(alloc, asked, &lines, defs, lowered)?;
    let answer = answer_of_call(alloc, told)?;
    Ok(answer)
}

// The answer to a call, or what is wrong with it.
fn answer_of_call(alloc: Global, told: Told) -> Result<Answer, AllocError>
    ensures { IfOk result (IsAnswerOfTold told) }
{
    match told {
        Told::Text(text) => Ok(accepted(alloc, format!(in alloc; "{text}\n")?)),
        Told::Wrong(why) => Ok(Answer {
            status: 1,
            out: String::new(alloc),
            err: format!(in alloc; "{why}\n")?,
        }),
    }
}

// Where the trees of the last file depart from those of the terms that are asked for.
fn compared<E: Write>(
    alloc: Global,
    asked: &Request<'_>,
    files: &Files,
    lowered: &Lowered,
    teller: &mut Teller<'_, E>,
) -> Result<Answer, AllocError>
    ensures { IfOk result (IsAnswerBy Compare asked.now files.now lowered.now) }
{
    if let Some(name) = missing_term(asked.terms, lowered) {
        return missing(alloc, "term with rules", name);
    }
    let wanted = wanted(alloc, asked.terms, lowered)?;
    let trees = told(alloc, files, lowered, &wanted, teller)?;
    compared_with(alloc, asked.all, files, &trees)
}

// Where the trees of the last file depart from these: in all terms, or the first line.
fn compared_with(alloc: Global, all: bool, files: &Files, trees: &str) -> Result<Answer, AllocError>
    ensures { IfOk result (IsAnswerOfComparing (map string_bytes files.now.texts.items) trees.now) }
{
    let Some(text) = files.texts.last() else {
        return Ok(accepted(alloc, String::new(alloc)));
    };
    let name = file_name(files, files.texts.len().saturating_sub(1));
    let err = departures(alloc, name, text, trees, all)?;
    let status = if err.is_empty() { 0 } else { 1 };
    Ok(Answer {
        status,
        out: String::new(alloc),
        err,
    })
}

fn trees<E: Write>(
    alloc: Global,
    asked: &Request<'_>,
    files: &Files,
    defs: &[Def],
    lowered: &Lowered,
    teller: &mut Teller<'_, E>,
) -> Result<Answer, AllocError>
    ensures { IfOk result (IsAnswerBy Lower asked.now files.now lowered.now) }
{
    if let Some(name) = missing_term(asked.terms, lowered) {
        return missing(alloc, "term with rules", name);
    }
    let wanted = wanted(alloc, asked.terms, lowered)?;
    let out = text_of_trees(alloc, asked.format, files, defs, lowered, &wanted, teller)?;
    Ok(accepted(alloc, out))
}
