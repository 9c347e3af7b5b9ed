//! What `conditions` does.

ghost use Rattle.std.specs.Prelude.{◌≡◌, ◌≢◌, ◌≤◌, ◌⊎◌, map, string_bytes, IfOk};
ghost use Rattle.app_conditions.specs.Accepted.{AreAcceptedTexts, IsMadeOf, IsMadeWritten, IsRefusal};
ghost use Rattle.app_command.specs.Readings.{none_without, AreOfTexts};
ghost use Rattle.cranelift_isle.specs.SyntaxViews.{definition_views};

use crate::documents::{document_of_questions, document_of_verdicts};
use crate::judging::{Judge, open_places};
use crate::reading::{Said, Texts, definitions_in, said_in, texts_of};
use crate::told::Teller;
use app_command::output::{Ending, write_texts};
use app_command::project::find_files;
use app_command::reading::Reading;
use app_command::run::cannot_read;
use app_command::unread::reports_of_texts;
use app_words::conditions::{ConditionsRequest, WrittenTexts};
use cranelift_isle::environments::Environments;
use cranelift_isle::lower::{Lowered, Refused, lower_or_environments};
use cranelift_isle::syntax::{Def, Error, Files, Pos};
use report_errors::diagnosis::{Amount, reports_of};
use report_print::layout::{Layout, push_reports};
use report_print::lines::FileLines;
use report_print::report::{Level, Report};
use report_queries::answers::{end, no_memory};
use report_stack::deep_rule;
use report_ways::meant_rules::Called;
use spec_questions::answers::{Answers, answers_in};
use spec_questions::questions::{QuestionFault, Questions, Wanted, questions_about};
use spec_tables::faults::SpecError;
use std::alloc::{AllocError, Global};
use std::io::{Read, Write};
use text_reader::errors::TextError;
use text_reader::syntax::VerificationForm;

/// Does what is asked of `isle conditions`: `input` is standard input, and the answer says by which status it ends, and whether nobody
/// reads `out` any more.
///
/// 0: what is asked is on `out`: questions, or what is told of rules, none of which is wrong. 1: a text, a definition or a spec is
/// wrong, or no rule is called so, as `err` says; or a rule is wrong, as `out` says. 2: no file is named, and `err` says so. 3:
/// memory was refused, or a rule takes more stack than there is, as `err` says. 4: a file can't be read, or `out` can't be written.
pub fn run<R: std::rt::Files + AllocGlobal, I: Read + Drop, O: Write, E: Write>(
    rt: &R,
    mut asked: ConditionsRequest<'_>,
    input: I,
    out: &mut O,
    err: &mut E,
) -> Ending
    ensures { result.status ≤ 4 }
{
    match find_files(rt, asked.folder, &mut asked.files, err) {
        Ok(()) => run_conditions(rt, &asked, input, out, err),
        Err(status) => Ending::with(status),
    }
}

// Writes the questions about the rules of files, or what answers say of them.
fn run_conditions<R: std::rt::Files + AllocGlobal, I: Read + Drop, O: Write, E: Write>(
    rt: &R,
    asked: &ConditionsRequest<'_>,
    input: I,
    out: &mut O,
    err: &mut E,
) -> Ending
    ensures known { result.status ≤ 4 }
    ensures used { result.status ≢ 2 }
{
    match texts_of(rt, asked, input) {
        Ok(texts) => answer(rt.alloc(), asked, &texts, out, err),
        Err(why) => Ending::with(cannot_read(rt.alloc(), why, err)),
    }
}

// What comes of files.
#[derive(Drop)]
enum Made {
    // Questions, or what is told of rules of which none is wrong.
    Text(String),
    // What is told of rules, where one is wrong or isn't shown to be right.
    Unshown(String),
    // Why there is no such text.
    Wrong(String),
    // That a rule takes more stack than there is.
    Deep(String),
}

// Writes what comes of files.
fn answer<O: Write, E: Write>(
    alloc: Global,
    asked: &ConditionsRequest<'_>,
    texts: &Texts,
    out: &mut O,
    err: &mut E,
) -> Ending
    ensures known { result.status ≤ 4 }
    ensures used { result.status ≢ 2 }
    // success means that the definitions are accepted
    ensures accepted { result.status ≡ 0 → AreAcceptedTexts (map string_bytes texts.now.files.texts.items) }
{
    match made_of(alloc, asked, texts) {
        Ok(made) => write_made(&made, out, err),
        Err(AllocError) => Ending::with(no_memory(err)),
    }
}

// Writes it: on `out` questions and what is told of rules, and all else on `err`.
#[tactic(auto, using(crate::proofs::Made::nothing_kept))]
fn write_made<O: Write, E: Write>(made: &Made, out: &mut O, err: &mut E) -> Ending
    ensures { IsMadeWritten made.now (O.contents out.old) (O.contents out.new) result }
{
    match made {
        Made::Text(text) => write_texts(text, "", 0, out, err),
        Made::Unshown(text) => write_texts(text, "", 1, out, err),
        Made::Wrong(text) => Ending::with(end(err, text, 1)),
        Made::Deep(text) => Ending::with(end(err, text, 3)),
    }
}

// What comes of files.
#[tactic(auto, using(crate::proofs::Made::refused_of_any))]
fn made_of(alloc: Global, asked: &ConditionsRequest<'_>, texts: &Texts) -> Result<Made, AllocError>
    ensures { IfOk result (IsMadeOf (map string_bytes texts.now.files.texts.items)) }
{
    let reading = definitions_in(alloc, &texts.files)?;
    match &reading {
        Reading::Defs(defs) => made_of_definitions(alloc, asked, texts, defs),
        Reading::Unread(mistakes) => unread(alloc, &texts.files, mistakes),
    }
}

// What is wrong with texts.
fn unread(alloc: Global, files: &Files, mistakes: &[TextError]) -> Result<Made, AllocError>
    ensures { IfOk result IsRefusal }
{
    let reports = reports_of_texts(alloc, files, mistakes)?;
    Ok(Made::Wrong(text_of(alloc, files, &reports)?))
}

// What comes of the definitions of files, and of what they say for a verifier.
fn made_of_definitions(
    alloc: Global,
    asked: &ConditionsRequest<'_>,
    texts: &Texts,
    defs: &[Def],
) -> Result<Made, AllocError>
    requires said { AreOfTexts none_without 0 (map string_bytes texts.now.files.texts.items) (definition_views defs.now) }
    ensures { IfOk result (IsMadeOf (map string_bytes texts.now.files.texts.items)) }
{
    match said_in(alloc, &texts.files)? {
        Said::Forms(forms) => made_of_all(alloc, asked, texts, defs, &forms),
        Said::Unread(reports) => Ok(Made::Wrong(text_of(alloc, &texts.files, &reports)?)),
    }
}

// What comes of what files say, where no rule takes more stack than there is.
fn made_of_all(
    alloc: Global,
    asked: &ConditionsRequest<'_>,
    texts: &Texts,
    defs: &[Def],
    forms: &[VerificationForm],
) -> Result<Made, AllocError>
    requires said { AreOfTexts none_without 0 (map string_bytes texts.now.files.texts.items) (definition_views defs.now) }
    ensures { IfOk result (IsMadeOf (map string_bytes texts.now.files.texts.items)) }
{
    if let Some(report) = deep_rule(alloc, defs, true, texts.stack)? {
        return Ok(Made::Deep(text_of(alloc, &texts.files, &[report])?));
    }
    made_of_lowered(alloc, asked, texts, defs, forms)
}

// What comes of what files say.
#[tactic(auto, using(crate::proofs::Made::made_of_accepted, crate::proofs::Made::refused_of_any))]
fn made_of_lowered(
    alloc: Global,
    asked: &ConditionsRequest<'_>,
    texts: &Texts,
    defs: &[Def],
    forms: &[VerificationForm],
) -> Result<Made, AllocError>
    requires said { AreOfTexts none_without 0 (map string_bytes texts.now.files.texts.items) (definition_views defs.now) }
    ensures { IfOk result (IsMadeOf (map string_bytes texts.now.files.texts.items)) }
{
    match lower_or_environments(alloc, defs, true) {
        Ok(lowered) => asked_of(alloc, asked, texts, defs, forms, &lowered),
        Err(Refused::Errors(errors, environments)) => {
            refused(alloc, &texts.files, defs, environments.as_ref(), &errors)
        }
        Err(Refused::Memory(error)) => Err(error),
    }
}

// What is wrong with definitions, which became these environments.
fn refused(
    alloc: Global,
    files: &Files,
    defs: &[Def],
    environments: Option<&Environments>,
    errors: &[Error],
) -> Result<Made, AllocError>
    ensures { IfOk result IsRefusal }
{
    let found = reports_of(alloc, defs, environments, true, errors, Amount::Few)?;
    Ok(Made::Wrong(text_of(alloc, files, &found.reports)?))
}

// Reports as text.
fn text_of(alloc: Global, files: &Files, reports: &[Report]) -> Result<String, AllocError> {
    let mut text = String::new(alloc);
    push_reports(&mut text, files, reports, Layout::Text)?;
    Ok(text)
}

// What is made of accepted definitions, for the rules that are asked about.
fn asked_of(
    alloc: Global,
    asked: &ConditionsRequest<'_>,
    texts: &Texts,
    defs: &[Def],
    forms: &[VerificationForm],
    lowered: &Lowered,
) -> Result<Made, AllocError> {
    let Some(called) = asked.rule else {
        return made_for(alloc, asked, texts, forms, lowered, None);
    };
    let places = places_called(alloc, &texts.files, defs, called)?;
    if places.is_empty() {
        return Ok(Made::Wrong(format!(in alloc;
            "error: no rule or term with rules is called `{called}`\n"
        )?));
    }
    made_for(alloc, asked, texts, forms, lowered, Some(&places))
}

// Where the rules stand that are so called.
fn places_called(
    alloc: Global,
    files: &Files,
    defs: &[Def],
    called: &str,
) -> Result<Vec<Pos>, AllocError> {
    let known = Called::new(alloc, files, called)?;
    let mut places = Vec::new(alloc);
    for def in defs {
        if let Def::Rule(rule) = def {
            if known.is(files, rule) {
                places.push(rule.pos)?;
            }
        }
    }
    Ok(places)
}

// What is made of the questions about rules at these places, or about all, or what is wrong with the specs.
fn made_for(
    alloc: Global,
    asked: &ConditionsRequest<'_>,
    texts: &Texts,
    forms: &[VerificationForm],
    lowered: &Lowered,
    only: Option<&[Pos]>,
) -> Result<Made, AllocError> {
    let answers = answers_in(alloc, &texts.answers)?;
    let wanted = Wanted {
        above: asked.above,
        lax: asked.lax,
        only,
        answers: Some(&answers),
    };
    match questions_about(alloc, lowered, forms, wanted) {
        Ok(found) => made_with(alloc, asked, texts, forms, lowered, &found, &answers),
        Err(QuestionFault::Wrong(errors)) => {
            let reports = spec_reports(alloc, errors)?;
            Ok(Made::Wrong(text_of(alloc, &texts.files, &reports)?))
        }
        Err(QuestionFault::TooMany) => Ok(Made::Wrong(String::from_str(
            alloc,
            "error: the specs have more expressions than have numbers\n",
        )?)),
        Err(QuestionFault::Memory) => Err(AllocError),
    }
}

// What is made of questions: what answers say of their rules, or their document.
fn made_with(
    alloc: Global,
    asked: &ConditionsRequest<'_>,
    texts: &Texts,
    forms: &[VerificationForm],
    lowered: &Lowered,
    found: &Questions,
    answers: &Answers,
) -> Result<Made, AllocError> {
    let files = &texts.files;
    let lines = FileLines::new(alloc, files)?;
    let teller = Teller {
        alloc,
        lines: &lines,
        lowered,
    };
    if asked.answers.is_none() && asked.texts.is_none() {
        return Ok(Made::Text(document_of_questions(alloc, files, lowered, forms, found)?));
    }
    made_by_answers(teller, asked, texts, forms, found, answers)
}

// What records of answers say of rules, behind the texts that are wanted.
fn made_by_answers(
    teller: Teller<'_, '_>,
    asked: &ConditionsRequest<'_>,
    texts: &Texts,
    forms: &[VerificationForm],
    found: &Questions,
    answers: &Answers,
) -> Result<Made, AllocError> {
    let above = above_wrong(teller, asked, forms, found, answers)?;
    let judge = Judge {
        teller,
        expected: &texts.expected,
        answers,
        asked: found,
        above: &above,
    };
    judged(judge, asked, forms)
}

// What is asked of rules that may be wrong by themselves, where no rule of greater priority matches.
fn above_wrong(
    teller: Teller<'_, '_>,
    asked: &ConditionsRequest<'_>,
    forms: &[VerificationForm],
    found: &Questions,
    answers: &Answers,
) -> Result<Questions, AllocError> {
    let alloc = teller.alloc;
    let none = Questions {
        rules: Vec::new(alloc),
        without: Vec::new(alloc),
    };
    let places = open_places(teller, found, answers)?;
    if asked.above || places.is_empty() {
        return Ok(none);
    }
    let wanted = Wanted {
        above: true,
        lax: asked.lax,
        only: Some(&places),
        answers: Some(answers),
    };
    match questions_about(alloc, teller.lowered, forms, wanted) {
        Ok(above) => Ok(above),
        Err(QuestionFault::Wrong(_) | QuestionFault::TooMany) => Ok(none),
        Err(QuestionFault::Memory) => Err(AllocError),
    }
}

// What is written of rules that are judged: the texts that are wanted, and then what is told of each rule.
fn judged(
    judge: Judge<'_, '_>,
    asked: &ConditionsRequest<'_>,
    forms: &[VerificationForm],
) -> Result<Made, AllocError> {
    let mut text = String::new(judge.teller.alloc);
    if let Some(wanted) = asked.texts {
        judge.push_texts(&mut text, wanted == WrittenTexts::All)?;
    }
    let counts = if asked.json {
        document_of_verdicts(judge, &mut text)?
    } else {
        judge.push_lines(&mut text, forms)?
    };
    let is_pass = match asked.expected {
        Some(_) => judge.are_expected(&counts),
        None => counts.is_pass(asked.deny),
    };
    Ok(if is_pass {
        Made::Text(text)
    } else {
        Made::Unshown(text)
    })
}

// Reports of wrong specs.
fn spec_reports(alloc: Global, errors: Vec<SpecError>) -> Result<Vec<Report>, AllocError> {
    let mut reports = Vec::new(alloc);
    for error in errors {
        reports.push(spec_report(alloc, error)?)?;
    }
    Ok(reports)
}

// The report of a wrong spec.
fn spec_report(alloc: Global, error: SpecError) -> Result<Report, AllocError> {
    let SpecError {
        code,
        pos,
        message,
        other,
    } = error;
    let mut report = Report::new(alloc, Level::Error, code, message);
    report.add_label(pos, String::new(alloc))?;
    if let Some(other) = other {
        report.add_label(other, String::from_str(alloc, "the other place")?)?;
    }
    Ok(report)
}
