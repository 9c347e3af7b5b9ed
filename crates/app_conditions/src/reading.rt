//! What files have to say: definitions, what is said for a verifier, or what is wrong with their texts.

ghost use Rattle.std.specs.Prelude.{◌≡◌, map, string_bytes, IfOk, None};
ghost use Rattle.app_command.specs.Readings.{none_without, IsReadingOf};
ghost use Rattle.app_words.specs.declared.tasks.Task.TheVariants.{Check};

use app_command::inputs::{Unread, file_text, standard_text};
use app_command::progress::Teller;
use app_command::reading::{Reading, reading_of};
use app_words::conditions::ConditionsRequest;
use app_words::request::{Format, Request};
use app_words::tasks::Task;
use cranelift_isle::syntax::Files;
use report_errors::syntax_report;
use report_print::report::Report;
use report_stack::size_of_stack;
use rust_text::code::CodegenOptions;
use std::alloc::{AllocError, Global};
use std::io::{Read, sink};
use text_reader::errors::ReadFault;
use text_reader::syntax::VerificationForm;
use text_reader::verification;

/// What is read.
#[derive(Drop)]
pub(crate) struct Texts {
    /// The files.
    pub(crate) files: Files,
    /// What solvers answered, as records; nothing where no file of them is named.
    pub(crate) answers: String,
    /// What is expected to be told of rules that aren't right, a line each; nothing where no file of that is named.
    pub(crate) expected: String,
    /// The bytes of stack that there are.
    pub(crate) stack: usize,
}

/// The names and texts of the files that are asked for, and what solvers answered. `-` is `input`, by the name `<stdin>`.
pub(crate) fn texts_of<R: std::rt::Files + AllocGlobal, I: Read + Drop>(
    rt: &R,
    asked: &ConditionsRequest<'_>,
    input: I,
) -> Result<Texts, Unread> {
    let standard = standard_text(rt.alloc(), wants_standard(asked), input)?;
    let answers = text_if_called(rt, asked.folder, asked.answers, &standard)?;
    let expected = text_if_called(rt, asked.folder, asked.expected, &standard)?;
    let files = files_of(rt, asked, &standard)?;
    Ok(Texts {
        files,
        answers,
        expected,
        stack: size_of_stack(rt),
    })
}

// Whether standard input is asked for.
fn wants_standard(asked: &ConditionsRequest<'_>) -> bool {
    asked.answers == Some("-")
        || asked.expected == Some("-")
        || asked.files.iter().any(|name| name.as_str() == "-")
}

// The text of a file, or of standard input, where one is named.
fn text_if_called<R: std::rt::Files + AllocGlobal>(
    rt: &R,
    folder: &str,
    called: Option<&str>,
    standard: &str,
) -> Result<String, Unread> {
    match called {
        Some(name) => text_called(rt, folder, name, standard),
        None => Ok(String::new(rt.alloc())),
    }
}

// The names and texts of the files that are asked for.
fn files_of<R: std::rt::Files + AllocGlobal>(
    rt: &R,
    asked: &ConditionsRequest<'_>,
    standard: &str,
) -> Result<Files, Unread> {
    let alloc = rt.alloc();
    let mut files = Files {
        names: Vec::new(alloc),
        texts: Vec::new(alloc),
    };
    for name in &asked.files {
        let shown = match name.as_str() {
            "-" => "<stdin>",
            name => name,
        };
        files.names.push(String::from_str(alloc, shown)?)?;
        files
            .texts
            .push(text_called(rt, asked.folder, name, standard)?)?;
    }
    Ok(files)
}

// The text of a file, or of standard input.
fn text_called<R: std::rt::Files + AllocGlobal>(
    rt: &R,
    folder: &str,
    name: &str,
    standard: &str,
) -> Result<String, Unread> {
    if name == "-" {
        Ok(String::from_str(rt.alloc(), standard)?)
    } else {
        file_text(rt, folder, name)
    }
}

/// What the texts of files say for a verifier.
#[derive(Drop)]
pub(crate) enum Said {
    /// All of it.
    Forms(Vec<VerificationForm>),
    /// What is wrong with the texts.
    Unread(Vec<Report>),
}

/// The definitions of files, or the first mistake of each. Nobody is told what is being done.
pub(crate) fn definitions_in(alloc: Global, files: &Files) -> Result<Reading, AllocError>
    ensures { IfOk result (IsReadingOf none_without (map string_bytes files.now.texts.items)) }
{
    let request = check_request(alloc);
    let mut nobody = sink();
    let mut teller = Teller::new(false, false, &mut nobody);
    reading_of(alloc, &request, files, &mut teller)
}

// The request that files are checked, each of which has definitions.
fn check_request<'a>(alloc: Global) -> Request<'a>
    ensures task { result.task ≡ Check }
    ensures answers { result.answers ≡ None }
{
    Request {
        task: Task::Check,
        expand: true,
        deny: false,
        denied: Vec::new(alloc),
        allowed: Vec::new(alloc),
        all: false,
        format: Format::Text,
        colored: false,
        terms: None,
        folder: "",
        rule: "",
        code: CodegenOptions::included(alloc),
        stubs: false,
        progress: false,
        answers: None,
        trace: false,
        files: Vec::new(alloc),
        old: 0,
        call: Vec::new(alloc),
    }
}

/// What the texts of files say for a verifier, or the first mistake of each text in that.
pub(crate) fn said_in(alloc: Global, files: &Files) -> Result<Said, AllocError> {
    let mut forms = Vec::new(alloc);
    let mut reports = Vec::new(alloc);
    for (number, text) in files.texts.iter().enumerate() {
        add_text(alloc, number, text, &mut forms, &mut reports)?;
    }
    if reports.is_empty() {
        Ok(Said::Forms(forms))
    } else {
        Ok(Said::Unread(reports))
    }
}

// Adds what a text says for a verifier, or why it can't be read.
fn add_text(
    alloc: Global,
    number: usize,
    text: &str,
    forms: &mut Vec<VerificationForm>,
    reports: &mut Vec<Report>,
) -> Result<(), AllocError> {
    match add_forms(alloc, number, text, forms) {
        Ok(()) => Ok(()),
        Err(ReadFault::Text(error)) => {
            reports.push(syntax_report(alloc, text, &error)?)?;
            Ok(())
        }
        Err(ReadFault::Memory(error)) => Err(error),
    }
}

// Adds what a text says for a verifier.
fn add_forms(
    alloc: Global,
    number: usize,
    text: &str,
    forms: &mut Vec<VerificationForm>,
) -> Result<(), ReadFault> {
    for (_, form) in verification(alloc, number, text)? {
        forms.push(form)?;
    }
    Ok(())
}
