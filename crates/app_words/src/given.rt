//! What the words behind a task give, by its items.

ghost use Rattle.std.specs.Prelude.{◌≡◌, [], ◌∷◌, MatchOption, MatchResult, map, string_bytes};
ghost use Rattle.std.specs.Option.{option_copied, option_map};
ghost use Rattle.app_words.specs.Asked.{AreGiven, IsFirstWrong, TellsWhy, call_words};
ghost use Rattle.app_words.specs.Items.{begins_call};
ghost use Rattle.app_words.specs.Refusals.{IsRightUnless, text_of};
ghost use Rattle.app_words.specs.WrongItems.{missing, wrong_call, wrong_files};

use crate::checks::check_item;
use crate::items::{Item, count_of_files, first_item, old_count};
use crate::tasks::{Job, Task};
use crate::unasked::{Unasked, wrong_as};
use std::alloc::Global;

/// The items, and the words of a call, where `--` stands before one.
#[derive(Drop)]
pub(crate) struct Given<'a> {
    /// The items.
    pub(crate) items: Vec<Item<'a>>,
    /// The words of the call.
    pub(crate) call: Option<&'a [String]>,
}

/// What the words behind a task give.
pub(crate) fn given_by<'a>(
    alloc: Global,
    job: Job,
    words: &'a [String],
) -> Result<Given<'a>, Unasked>
    ensures { MatchResult result (λ given. AreGiven job (map string_bytes words.now) given.items.items (call_words given.call))
        (TellsWhy (IsFirstWrong job (map string_bytes words.now))) }
{
    let mut items = Vec::new(alloc);
    let mut left = words;
    while let Some((word, others)) = first_of(left) {
        if begins_call(job, word) {
            return Ok(Given {
                items,
                call: Some(others),
            });
        }
        let (item, rest) = first_item(job, word, others);
        if let Err(why) = check_item(alloc, job, items.as_slice(), item) {
            return Err(why);
        }
        items.push(item)?;
        left = rest;
    }
    Ok(Given { items, call: None })
}

/// The first word, and those behind it.
pub(crate) fn first_of(words: &[String]) -> Option<(&str, &[String])>
    ensures { MatchOption result (words.now ≡ []) (λ first. map string_bytes words.now ≡ first.0.now ∷ map string_bytes first.1.now) }
{
    match words {
        [] => None,
        [word, others @ ..] => Some((word.as_str(), others)),
    }
}

// Whether a word begins the words of a call.
fn begins_call(job: Job, word: &str) -> bool
    ensures { result ≡ begins_call job word.now }
{
    job.has_call() && word == "--"
}

/// Says what isn't there when all words behind a task are read, where something isn't.
pub(crate) fn check_all(alloc: Global, task: Task, given: &Given<'_>) -> Result<(), Unasked>
    ensures { IsRightUnless (missing task given.now.items.items (call_words given.now.call)) result }
{
    match task {
        Task::Run | Task::Why => check_call(alloc, given.call),
        _ => {
            let items = given.items.as_slice();
            check_files(alloc, task, count_of_files(items), old_count(items))
        }
    }
}

fn check_call(alloc: Global, call: Option<&[String]>) -> Result<(), Unasked>
    ensures { IsRightUnless (wrong_call (call_words call.entry)) result }
{
    match call {
        None => Err(wrong_as(alloc, "no call after the files, such as -- f 1 2")),
        Some([]) => Err(wrong_as(alloc, "nothing after '--'")),
        Some(_) => Ok(()),
    }
}

// What is wrong with how many files there are, where something is.
fn check_files(alloc: Global, task: Task, count: usize, old: usize) -> Result<(), Unasked>
    ensures { IsRightUnless (wrong_files task count old) result }
{
    match wrong_files(task, count, old) {
        Some(why) => Err(wrong_as(alloc, why)),
        None => Ok(()),
    }
}

fn wrong_files(task: Task, count: usize, old: usize) -> Option<&'static str>
    ensures { option_copied result ≡ option_map text_of (wrong_files task count old) }
{
    match task {
        Task::Samples if count > 1 => Some("more than one sample"),
        Task::Compare | Task::Diff if count == 0 => Some("no file"),
        Task::Compare if count == 1 => Some("no trees to compare"),
        Task::Diff if old == 0 || old == count => {
            Some("no new version after the files, such as -- new.isle")
        }
        _ => None,
    }
}
