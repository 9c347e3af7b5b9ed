//! What the command is asked by its words.

ghost use Rattle.std.specs.Prelude.{◌≡◌, MatchResult, Some, false, map, string_bytes};
ghost use Rattle.app_words.specs.Asked.{IsAskedBehind, IsAskedBy, IsAskedFirst, IsFirstWrong, IsRefusedBehind, IsRefusedFirst, IsRefusedFor, TellsWhy, asked_of_program, first_job, own_word, unnamed};
ghost use Rattle.app_words.specs.Refusals.{Tells, text_of};
ghost use Rattle.app_words.specs.declared.tasks.Job.TheVariants as J;

use crate::conditions::{ConditionsRequest, conditions_by};
use crate::formatting::{Formatting, formatting_by};
use crate::given::{first_of, given_by};
use crate::request::{Request, request_by};
use crate::tasks::Job;
use crate::unasked::{Unasked, wrong, wrong_as};
use std::alloc::Global;

/// What words ask.
#[derive(Drop)]
pub enum Command<'a> {
    /// How the command is used, or what its first word names.
    Help(Option<Job>),
    /// Which program this is.
    Version,
    /// The server for editors.
    Server,
    /// Files in the usual layout.
    Formatting(Formatting<'a>),
    /// Questions about rules for a solver.
    Conditions(ConditionsRequest<'a>),
    /// Something else to be done.
    Request(Request<'a>),
}

/// What these words ask. `colors` says whether errors have a terminal's colours where no word says so.
///
/// Where a word before `--` is `--help`, `-h` or `--version`, that is all they ask. Else the first word is the name of a task. For
/// `explain` and `why` the rule follows. Then there are files; the last one of `compare` has trees, and `samples` has at most one
/// name of a sample. For `run` and `why` then come `--` and the words of a call: the term and its arguments. For `diff` then come
/// `--` and the files of the new version. Options may stand everywhere behind the task, but not in a call: `isle --help` lists
/// them.
///
/// # Errors
///
/// What is wrong with the words, or that memory was refused.
pub fn asked_by<'a>(
    alloc: Global,
    words: &'a [String],
    colors: bool,
) -> Result<Command<'a>, Unasked>
    ensures { MatchResult result (IsAskedBy (map string_bytes words.now) colors) (TellsWhy (IsRefusedFor (map string_bytes words.now))) }
{
    match asked_of_program(words) {
        Some(true) => Ok(Command::Help(first_job(words))),
        Some(false) => Ok(Command::Version),
        None => asked_of_job(alloc, words, colors),
    }
}

// What is asked of the program itself: help, which is true, or its version. The words behind `--` are a call's.
fn asked_of_program(words: &[String]) -> Option<bool>
    ensures { result ≡ asked_of_program (map string_bytes words.now) }
{
    for word in words {
        if word.as_str() == "--" {
            return None;
        }
        let asked = own_word(word.as_str());
        if asked.is_some() {
            return asked;
        }
    }
    None
}

fn own_word(word: &str) -> Option<bool>
    ensures { result ≡ own_word word.now }
{
    match word {
        "--help" | "-h" => Some(true),
        "--version" => Some(false),
        _ => None,
    }
}

/// What the first word names.
pub fn first_job(words: &[String]) -> Option<Job>
    ensures { result ≡ first_job (map string_bytes words.now) }
{
    match words {
        [word, ..] => Job::named(word.as_str()),
        [] => None,
    }
}

// What the words ask of what the first one names.
fn asked_of_job<'a>(
    alloc: Global,
    words: &'a [String],
    colors: bool,
) -> Result<Command<'a>, Unasked>
    ensures { MatchResult result (IsAskedFirst colors (map string_bytes words.now)) (TellsWhy (IsRefusedFirst (map string_bytes words.now))) }
{
    match first_of(words) {
        None => Err(wrong_as(alloc, "no task")),
        Some((word, rest)) => asked_behind(alloc, colors, Job::named(word), word, rest),
    }
}

fn asked_behind<'a>(
    alloc: Global,
    colors: bool,
    job: Option<Job>,
    word: &'a str,
    rest: &'a [String],
) -> Result<Command<'a>, Unasked>
    ensures { MatchResult result (IsAskedBehind colors job (map string_bytes rest.now)) (TellsWhy (IsRefusedBehind job word.now (map string_bytes rest.now))) }
{
    match job {
        None => Err(unnamed(alloc, word)),
        Some(Job::Task(task)) => Ok(Command::Request(request_by(alloc, colors, task, rest)?)),
        Some(Job::Formatting) => Ok(Command::Formatting(formatting_by(alloc, rest)?)),
        Some(Job::Conditions) => Ok(Command::Conditions(conditions_by(alloc, rest)?)),
        Some(Job::Server) => server_by(alloc, rest),
    }
}

// The server takes no words: each item of it is wrong.
fn server_by<'a>(alloc: Global, rest: &'a [String]) -> Result<Command<'a>, Unasked>
    ensures { MatchResult result (IsAskedBehind false (Some J.Server) (map string_bytes rest.now)) (TellsWhy (IsFirstWrong J.Server (map string_bytes rest.now))) }
{
    given_by(alloc, Job::Server, rest)?;
    Ok(Command::Server)
}

// That a word names nothing.
fn unnamed(alloc: Global, word: &str) -> Unasked
    ensures { Tells (text_of (unnamed word.now)) result }
{
    if word.is_empty() {
        return wrong_as(alloc, "no task");
    }
    wrong(format!(in alloc; "no task is called '{word}'"))
}
