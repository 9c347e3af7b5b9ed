//! What the command does.

ghost use Rattle.std.specs.Prelude.{◌≡◌, ◌≢◌, ◌⊎◌, ◌≤◌, [], ◌∷◌, false, map, string_bytes, true, IfErr, IfOk, MatchResult};
ghost use Rattle.report_queries.specs.Samples.{names_sample};
ghost use Rattle.app_words.specs.declared.tasks.Task.TheVariants.{Samples};
ghost use Rattle.app_command.specs.Outputs.{IsNothingWritten, IsWrittenOut};
ghost use Rattle.app_command.specs.Statuses.{IsEndingFor, IsEndingOf, IsStatusOfUnread};

use crate::answers::{Answer, answer_within};
use crate::formatting::run_formatting;
use crate::inputs::{Unread, read_files};
use crate::output::{Ending, write_texts};
use crate::progress::Unanswered;
use crate::project::find_files;
use app_words::formatting::Formatting;
use app_words::help::help_text;
use app_words::request::{Request, add_answers};
use app_words::tasks::{Job, Task};
use app_words::unasked::Unasked;
use app_words::words::first_job;
use cranelift_isle::syntax::Files;
use report_queries::answers::{end, no_memory};
use report_queries::sample_run::run_sample;
use report_queries::samples::sample_names;
use report_stack::size_of_stack;
use std::alloc::{AllocError, Global};
use std::env::{Env, FillError};
use std::io::{Read, Write};

/// Whether errors have a terminal's colours where no word says so: on a terminal, if the environment has no `NO_COLOR`.
pub fn has_colors(env: &impl Env, terminal: bool) -> bool {
    terminal && !has_variable(env, "NO_COLOR")
}

// Whether an environment variable has a text that isn't empty.
fn has_variable(env: &impl Env, name: &str) -> bool {
    let mut buf = [0u8; 1];
    match env.var(name, &mut buf) {
        Ok(length) => length > 0,
        Err(FillError::TooLong) => true,
        Err(FillError::NotPresent) => false,
    }
}

/// Says why words ask nothing, and answers the status for it: 2 where something is wrong with them, and 3 where memory is refused.
pub fn refuse_words<E: Write>(alloc: Global, words: &[String], why: Unasked, err: &mut E) -> u8
    ensures { (result ≡ 2) ⊎ (result ≡ 3) }
{
    match (why, first_job(words)) {
        (Unasked::Memory, _) => no_memory(err),
        (Unasked::Words(why), Some(Job::Conditions)) => {
            wrong_words(alloc, &why, "isle conditions --help", err)
        }
        (Unasked::Words(why), _) => wrong_words(alloc, &why, "isle --help", err),
    }
}

/// Says what is wrong with the words, and what to see, and answers the status for it, or 3 where memory is refused.
pub(crate) fn wrong_words<E: Write>(alloc: Global, why: &str, see: &str, err: &mut E) -> u8
    ensures { (result ≡ 2) ⊎ (result ≡ 3) }
{
    match format!(in alloc; "isle: {why} (see {see})\n") {
        Ok(line) => end(err, &line, 2),
        Err(AllocError) => no_memory(err),
    }
}

/// Says how the command is used, or what its first word names.
pub fn tell_help<O: Write, E: Write>(
    alloc: Global,
    job: Option<Job>,
    out: &mut O,
    err: &mut E,
) -> Ending
    ensures { result.status ≤ 4 }
{
    match help_text(alloc, job) {
        Ok(text) => write_texts(&text, "", 0, out, err),
        Err(AllocError) => Ending::with(no_memory(err)),
    }
}

/// Lays out the files that words name, or those of a project.
pub fn format_asked<R: std::rt::Files + AllocGlobal, I: Read + Drop, O: Write, E: Write>(
    rt: &R,
    mut asked: Formatting<'_>,
    input: I,
    out: &mut O,
    err: &mut E,
) -> Ending
    ensures { result.status ≤ 4 }
{
    match find_files(rt, asked.folder, &mut asked.files, err) {
        Ok(()) => run_formatting(rt, &asked, input, out, err),
        Err(status) => Ending::with(status),
    }
}

/// Does what is asked of the files that words name, or of those of a project, and answers by which status it ends, and whether
/// nobody reads `out` any more. `input` is standard input, and `terminal` says whether `err` is a terminal, which shows what is being
/// done.
///
/// 0: what is asked is on `out`. 1: what is wrong with the files is on `err`, or on `out` as JSON; or `err` says what there
/// isn't; or two versions differ, as `out` says. 2: no file is named, or no list or sample has this name, and `err` says so. 3:
/// memory was refused, or a rule takes more stack than there is, as `err` says. 4: a file can't be read, or `out` can't be written.
/// Neither a failure of `err` nor an `out` that nobody reads changes a status.
pub fn run_asked<R: std::rt::Files + AllocGlobal, I: Read + Drop, O: Write, E: Write>(
    rt: &R,
    mut asked: Request<'_>,
    input: I,
    terminal: bool,
    out: &mut O,
    err: &mut E,
) -> Ending
    ensures { result.status ≤ 4 }
{
    if asked.task.has_project() {
        if let Err(status) = find_definitions(rt, &mut asked, err) {
            return Ending::with(status);
        }
    }
    run_request(rt, &asked, input, terminal, out, err)
}

// Finds the files with definitions. The one with answers stands behind them.
fn find_definitions<R: std::rt::Files + AllocGlobal, E: Write>(
    rt: &R,
    asked: &mut Request<'_>,
    err: &mut E,
) -> Result<(), u8>
    ensures { IfErr result (λ status. status ≤ 4) }
{
    if asked.answers.is_some() {
        let _ = asked.files.pop();
    }
    find_files(rt, asked.folder, &mut asked.files, err)?;
    match add_answers(rt.alloc(), &mut asked.files, asked.answers) {
        Ok(()) => Ok(()),
        Err(AllocError) => Err(no_memory(err)),
    }
}

fn run_request<R: std::rt::Files + AllocGlobal, I: Read + Drop, O: Write, E: Write>(
    rt: &R,
    asked: &Request<'_>,
    input: I,
    terminal: bool,
    out: &mut O,
    err: &mut E,
) -> Ending
    ensures known { result.status ≤ 4 }
    // only samples have names that may be wrong words
    ensures used { asked.now.task ≢ Samples → result.status ≢ 2 }
    ensures ending { asked.now.task ≢ Samples → IsEndingOf asked.now (O.contents out.old) (O.contents out.new) result }
{
    if asked.task == Task::Samples {
        return run_samples(rt.alloc(), asked, out, err);
    }
    match read_files(rt, asked, input) {
        Ok(files) => {
            let stack = stack_for(rt, asked.task);
            run_files(rt.alloc(), asked, &files, stack, terminal, out, err)
        }
        Err(why) => Ending::with(cannot_read(rt.alloc(), why, err)),
    }
}

// The bytes of stack that there are, for a task that lowers rules.
fn stack_for<R: std::rt::Files + AllocGlobal>(rt: &R, task: Task) -> usize {
    if task.lowers() {
        size_of_stack(rt)
    } else {
        usize::MAX
    }
}

// Writes what is answered to files.
fn run_files<O: Write, E: Write>(
    alloc: Global,
    asked: &Request<'_>,
    files: &Files,
    stack: usize,
    terminal: bool,
    out: &mut O,
    err: &mut E,
) -> Ending
    ensures ending { IsEndingFor asked.now files.now (O.contents out.old) (O.contents out.new) result }
    ensures known { result.status ≤ 4 }
    ensures used { result.status ≢ 2 }
{
    let answer = answer_within(alloc, asked, files, stack, terminal, err);
    write_answer(answer, out, err)
}

// Writes what is answered. The status is 3, and nothing is written, exactly where there is no answer.
#[tactic(auto, using(crate::proofs::SinkBytes::nothing_kept))]
fn write_answer<O: Write, E: Write>(
    answer: Result<Answer, Unanswered>,
    out: &mut O,
    err: &mut E,
) -> Ending
    ensures { MatchResult answer (λ a. IsWrittenOut (O.contents out.old) (O.contents out.new) (string_bytes a.out) a.status result)
        (λ _. IsNothingWritten (O.contents out.old) (O.contents out.new) 3 result) }
{
    match answer {
        Ok(answer) => write_texts(&answer.out, &answer.err, answer.status, out, err),
        Err(Unanswered::Memory) => Ending::with(no_memory(err)),
        Err(Unanswered::Stack) => Ending::with(3),
    }
}

/// Says why files can't be read, and answers the status for it.
pub fn cannot_read<E: Write>(alloc: Global, why: Unread, err: &mut E) -> u8
    ensures { IsStatusOfUnread why result }
{
    match why {
        Unread::Memory => no_memory(err),
        Unread::Text(why) => say(alloc, "error[syntax]: ", &why, 1, err),
        Unread::File(why) => say(alloc, "isle: cannot read ", &why, 4, err),
    }
}

/// Says why files can't be read, and answers this status, or 3 where memory is refused.
pub(crate) fn say<E: Write>(alloc: Global, text: &str, why: &str, status: u8, err: &mut E) -> u8
    ensures { (result ≡ status) ⊎ (result ≡ 3) }
{
    match format!(in alloc; "{text}{why}\n") {
        Ok(line) => end(err, &line, status),
        Err(AllocError) => no_memory(err),
    }
}

// Writes the names of the samples, or what comes of one.
fn run_samples<O: Write, E: Write>(
    alloc: Global,
    asked: &Request<'_>,
    out: &mut O,
    err: &mut E,
) -> Ending
    ensures { result.status ≤ 4 }
{
    match asked.files.first() {
        Some(name) => Ending::with(run_sample_named(alloc, name, out, err)),
        None => match sample_names(alloc) {
            Ok(names) => write_texts(&names, "", 0, out, err),
            Err(AllocError) => Ending::with(no_memory(err)),
        },
    }
}

fn run_sample_named<O: Write, E: Write>(alloc: Global, name: &str, out: &mut O, err: &mut E) -> u8
    ensures known { result ≤ 4 }
    // a name that is no sample's is wrong use, where memory isn't refused before
    ensures used { names_sample (name.now ∷ []) ≡ true → result ≢ 2 }
    ensures misused { names_sample (name.now ∷ []) ≡ false → (result ≡ 2) ⊎ (result ≡ 3) }
{
    match words_of(alloc, name) {
        Ok(words) => run_sample(alloc, &words, out, err),
        Err(AllocError) => no_memory(err),
    }
}

// A word as the words of a program.
fn words_of(alloc: Global, name: &str) -> Result<Vec<String>, AllocError>
    ensures { IfOk result (λ words. map string_bytes words.items ≡ name.now ∷ []) }
{
    let mut words = Vec::new(alloc);
    words.push(String::from_str(alloc, name)?)?;
    Ok(words)
}
