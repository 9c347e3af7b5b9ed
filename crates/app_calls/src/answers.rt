//! What is answered to files: Rust code, or what the command answers.

ghost use Rattle.std.specs.Prelude.{◌≡◌, map, string_bytes, IfOk};
ghost use Rattle.app_command.specs.Readings.{none_without, IsReadingOf};
ghost use Rattle.app_calls.specs.Calls.{HasText, IsAnswered, LeavesBehind};
ghost use Rattle.app_calls.specs.declared.options.CallTask.TheVariants.{Code};
ghost use Rattle.app_calls.specs.Told.{command_format, command_task, status_of, text_of, IsCommandAnswer, IsRequestOf, IsSaidTo, IsToldOf, IsToldOfTexts};

use crate::options::{CallRequest, CallTask, ReportFormat};
use crate::output::{Sizes, hand_over};
use crate::statuses::{DONE, ERRORS, NO_CODE, NO_MEMORY};
use app_command::answers::{Answer, answer_to_reading};
use app_command::code;
use app_command::progress::Teller;
use app_command::reading::{Reading, reading_of};
use app_words::request::{Format, Request};
use app_words::tasks::Task;
use cranelift_isle::syntax::Files;
use rust_text::code::{CodegenOptions, Prefix};
use std::alloc::{AllocError, Global};
use std::io::sink;

// How Rust code is written.
pub(crate) fn codegen_options(asked: CallRequest, prefixes: Vec<Prefix>) -> CodegenOptions
    ensures attributes { result.exclude_global_allow_pragmas ≡ asked.exclude_global_allow_pragmas }
    ensures logging { result.emit_logging ≡ asked.emit_logging }
{
    CodegenOptions {
        exclude_global_allow_pragmas: asked.exclude_global_allow_pragmas,
        prefixes,
        emit_logging: asked.emit_logging,
    }
}

// Writes what is asked of these files, or what is wrong with them, and answers the status of it.
pub(crate) fn told(
    alloc: Global,
    asked: CallRequest,
    options: &CodegenOptions,
    files: &Files,
    out: &mut [u8],
    sizes: &mut Sizes,
) -> u32
    ensures known { IsAnswered result }
    ensures left { LeavesBehind out.old out.new sizes.new result }
    ensures told { IsToldOfTexts asked (map string_bytes files.now.texts.items) out.old out.new sizes.new result }
{
    match read_silently(alloc, asked, files) {
        Ok(reading) => told_of(alloc, asked, options, files, &reading, out, sizes),
        Err(AllocError) => refused(sizes),
    }
}

// Writes what is asked of what was read.
fn told_of(
    alloc: Global,
    asked: CallRequest,
    options: &CodegenOptions,
    files: &Files,
    reading: &Reading,
    out: &mut [u8],
    sizes: &mut Sizes,
) -> u32
    ensures known { IsAnswered result }
    ensures left { LeavesBehind out.old out.new sizes.new result }
    ensures told { IsToldOf asked reading.now out.old out.new sizes.new result }
{
    match asked.task {
        CallTask::Code => coded(alloc, asked, options, files, reading, out, sizes),
        CallTask::Trees | CallTask::Check => said(alloc, asked, files, reading, out, sizes),
    }
}

// Writes the Rust code of what was read, or what is wrong with it.
fn coded(
    alloc: Global,
    asked: CallRequest,
    options: &CodegenOptions,
    files: &Files,
    reading: &Reading,
    out: &mut [u8],
    sizes: &mut Sizes,
) -> u32
    ensures known { IsAnswered result }
    ensures left { LeavesBehind out.old out.new sizes.new result }
    ensures told { asked.task ≡ Code → IsToldOf asked reading.now out.old out.new sizes.new result }
{
    match code::code_of(alloc, asked.expand, files, reading, options) {
        Ok(Some(made)) => match made {
            code::Code::Text(text) => hand_over(DONE, &text, out, sizes),
            code::Code::Names(why) => hand_over(NO_CODE, &why, out, sizes),
        },
        Ok(None) => said(alloc, asked, files, reading, out, sizes),
        Err(AllocError) => refused(sizes),
    }
}

// Writes what the command says of what was read.
fn said(
    alloc: Global,
    asked: CallRequest,
    files: &Files,
    reading: &Reading,
    out: &mut [u8],
    sizes: &mut Sizes,
) -> u32
    ensures known { IsAnswered result }
    ensures left { LeavesBehind out.old out.new sizes.new result }
    ensures said { IsSaidTo asked reading.now out.old out.new sizes.new result }
{
    match answer_of_command(alloc, asked, files, reading) {
        Ok(answer) => hand_over(status_of(&answer), text_of(&answer), out, sizes),
        Err(AllocError) => refused(sizes),
    }
}

// Says that memory was refused.
fn refused(sizes: &mut Sizes) -> u32
    ensures status { result ≡ NO_MEMORY }
    ensures written { sizes.new.written ≡ 0 }
    ensures needed { sizes.new.needed ≡ 0 }
{
    *sizes = Sizes::none();
    NO_MEMORY
}

// What these files are read as. Nobody is told what is being done.
fn read_silently(alloc: Global, asked: CallRequest, files: &Files) -> Result<Reading, AllocError>
    ensures { IfOk result (IsReadingOf none_without (map string_bytes files.now.texts.items)) }
{
    let request = request_of(alloc, asked);
    let mut nobody = sink();
    let mut teller = Teller::new(false, false, &mut nobody);
    reading_of(alloc, &request, files, &mut teller)
}

// What the command answers to what was read. It tells nobody what is being done.
fn answer_of_command(
    alloc: Global,
    asked: CallRequest,
    files: &Files,
    reading: &Reading,
) -> Result<Answer, AllocError>
    ensures { IfOk result (IsCommandAnswer asked reading.now) }
{
    let request = request_of(alloc, asked);
    let mut nobody = sink();
    let mut teller = Teller::new(false, false, &mut nobody);
    answer_to_reading(alloc, &request, files, reading, &mut teller)
}

// What is asked, as the command is asked it. Where Rust code is wanted, the command says what is wrong.
fn request_of<'a>(alloc: Global, asked: CallRequest) -> Request<'a>
    ensures { IsRequestOf asked result }
{
    Request {
        task: task_of(asked.task),
        expand: asked.expand,
        deny: false,
        denied: Vec::new(alloc),
        allowed: Vec::new(alloc),
        all: false,
        format: format_of(asked.format),
        colored: asked.format == ReportFormat::Colored,
        terms: None,
        folder: "",
        rule: "",
        code: CodegenOptions::included(alloc),
        stubs: false,
        progress: false,
        answers: None,
        trace: false,
        files: Vec::new(alloc),
        old: 0,
        call: Vec::new(alloc),
    }
}

fn task_of(task: CallTask) -> Task
    ensures { result ≡ command_task task }
{
    match task {
        CallTask::Trees => Task::Lower,
        CallTask::Check | CallTask::Code => Task::Check,
    }
}

fn format_of(format: ReportFormat) -> Format
    ensures { result ≡ command_format format }
{
    match format {
        ReportFormat::Text | ReportFormat::Colored => Format::Text,
        ReportFormat::Line => Format::Line,
        ReportFormat::Json => Format::Json,
    }
}

fn status_of(answer: &Answer) -> u32
    ensures text { HasText result }
    ensures same { result ≡ status_of answer.now }
{
    if answer.status == 0 { DONE } else { ERRORS }
}

// The text of what the command answers, of which it writes one side alone.
fn text_of(answer: &Answer) -> &str
    ensures { result.now ≡ text_of answer.now }
{
    if answer.out.is_empty() {
        &answer.err
    } else {
        &answer.out
    }
}
