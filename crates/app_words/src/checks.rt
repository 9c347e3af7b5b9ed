//! What is wrong with an item behind others.

ghost use Rattle.std.specs.Prelude.{◌≡◌, ◌==◌, ◌++◌, ◌∷◌, false, if◌then◌else◌, length, not, true, ◌&&◌};
ghost use Rattle.std.specs.List.{list_any};
ghost use Rattle.app_words.specs.Items.{files_of, is_option};
ghost use Rattle.app_words.specs.Refusals.{IsRightUnless, Tells, has_no_option, text_of};
ghost use Rattle.app_words.specs.WrongItems.{foreign, has_line_break, is_dashed, takes_nothing, unknown, wrong_again, names_sample, wrong_alone, wrong_file_again, wrong_item, wrong_joined, wrong_line, wrong_name, wrong_sample, wrong_separator, wrong_versions, wrong_word};

use crate::items::{Item, count_of_files, has_file, has_separator, is_given, parts};
use crate::options::{Takes, TaskOption, is_option_of_tasks};
use crate::tasks::{Job, Task};
use crate::unasked::{Unasked, wrong, wrong_as};
use crate::values::check_value;
use report_queries::samples::sample_text;
use std::alloc::{AllocError, Global};

/// Says what is wrong with an item behind others, where something is.
pub(crate) fn check_item(
    alloc: Global,
    job: Job,
    before: &[Item<'_>],
    item: Item<'_>,
) -> Result<(), Unasked>
    ensures { IsRightUnless (wrong_item job before.now item.entry) result }
{
    match item {
        Item::Alone(word, option) => {
            check_again(alloc, before, word, option)?;
            check_alone(alloc, before, word, option)
        }
        Item::Joined(word, option, value) => {
            check_again(alloc, before, word, option)?;
            check_joined(alloc, job, word, option, value)
        }
        Item::Apart(word, option, value) => {
            check_again(alloc, before, word, option)?;
            check_value(alloc, job, option.takes, value)
        }
        Item::Plain(word) => check_word(alloc, job, before, word),
    }
}

// That an option isn't given a second time.
fn check_again(
    alloc: Global,
    before: &[Item<'_>],
    word: &str,
    option: TaskOption,
) -> Result<(), Unasked>
    ensures { IsRightUnless (wrong_again before.now word.now option) result }
{
    if !option.repeats && is_given(before, word) {
        return Err(wrong(format!(in alloc; "the option '{word}' is given twice")));
    }
    Ok(())
}

// That an option is no last word that takes the next one.
fn check_alone(
    alloc: Global,
    before: &[Item<'_>],
    word: &str,
    option: TaskOption,
) -> Result<(), Unasked>
    ensures { IsRightUnless (wrong_alone before.now word.now option) result }
{
    if option.takes.takes_next() {
        return Err(wrong(format!(in alloc; "nothing after '{word}'")));
    }
    if word == "--stdin" {
        return check_file_again(alloc, before, "-");
    }
    Ok(())
}

// That an option takes what is joined to it.
fn check_joined(
    alloc: Global,
    job: Job,
    word: &str,
    option: TaskOption,
    value: &str,
) -> Result<(), Unasked>
    ensures { IsRightUnless (wrong_joined job word.now option value.now) result }
{
    if matches!(option.takes, Takes::Nothing) {
        return Err(unknown_joined(alloc, job, word, value));
    }
    check_value(alloc, job, option.takes, value)
}

fn unknown_joined(alloc: Global, job: Job, word: &str, value: &str) -> Unasked
    ensures { Tells (text_of (unknown job (word.now ++ (61 ∷ value.now)))) result }
{
    match format!(in alloc; "{word}={value}") {
        Ok(whole) => unknown(alloc, job, &whole),
        Err(AllocError) => Unasked::Memory,
    }
}

// That there is no such option.
fn unknown(alloc: Global, job: Job, word: &str) -> Unasked
    ensures { Tells (text_of (unknown job word.now)) result }
{
    match job {
        Job::Task(_) => wrong(format!(in alloc; "no option is called '{word}'")),
        _ => has_no_option(alloc, job, word),
    }
}

fn has_no_option(alloc: Global, job: Job, word: &str) -> Unasked
    ensures { Tells (text_of (has_no_option job word.now)) result }
{
    let job = job.word();
    wrong(format!(in alloc; "{job} has no option '{word}'"))
}

// That a task has no option of the name of this word.
fn foreign(alloc: Global, job: Job, word: &str) -> Unasked
    ensures { Tells (text_of (foreign job word.now)) result }
{
    let (name, _) = parts(word);
    if is_option_of_tasks(name) {
        has_no_option(alloc, job, word)
    } else {
        unknown(alloc, job, word)
    }
}

// Says what is wrong with a word that is no option.
fn check_word(alloc: Global, job: Job, before: &[Item<'_>], word: &str) -> Result<(), Unasked>
    ensures { IsRightUnless (wrong_word job before.now word.now) result }
{
    if word == "--" {
        return check_separator(alloc, job, before);
    }
    if word.is_empty() {
        return Err(wrong_as(alloc, "a file without a name"));
    }
    if is_dashed(word) {
        return Err(foreign(alloc, job, word));
    }
    check_name(alloc, job, before, word)
}

// Whether a word looks like an option.
fn is_dashed(word: &str) -> bool
    ensures { result ≡ is_dashed word.now }
{
    matches!(word.as_bytes(), [b'-', _, ..])
}

fn check_separator(alloc: Global, job: Job, before: &[Item<'_>]) -> Result<(), Unasked>
    ensures { IsRightUnless (wrong_separator job before.now) result }
{
    match job {
        Job::Task(Task::Diff) => check_versions(alloc, before),
        Job::Task(task) => {
            let task = task.word();
            Err(wrong(format!(in alloc; "{task} runs no call")))
        }
        _ => Err(has_no_option(alloc, job, "--")),
    }
}

// That `--` stands between two versions.
fn check_versions(alloc: Global, before: &[Item<'_>]) -> Result<(), Unasked>
    ensures { IsRightUnless (wrong_versions before.now) result }
{
    if count_of_files(before) == 0 {
        return Err(wrong_as(alloc, "no old version before '--'"));
    }
    if has_separator(before) {
        return Err(wrong_as(alloc, "more than two versions"));
    }
    Ok(())
}

// Says what is wrong with a word as the name of a sample or of a file.
fn check_name(alloc: Global, job: Job, before: &[Item<'_>], word: &str) -> Result<(), Unasked>
    ensures { IsRightUnless (wrong_name job before.now word.now) result }
{
    match job {
        Job::Task(Task::Samples) => check_sample(alloc, word),
        Job::Task(_) => {
            check_line(alloc, word)?;
            check_file_again(alloc, before, word)
        }
        Job::Formatting => check_file_again(alloc, before, word),
        Job::Conditions => Ok(()),
        Job::Server => Err(wrong_as(alloc, "lsp takes no file")),
    }
}

fn check_sample(alloc: Global, word: &str) -> Result<(), Unasked>
    ensures { IsRightUnless (wrong_sample word.now) result }
{
    if !names_sample(word) {
        return Err(wrong(format!(in alloc; "no sample is called '{word}'")));
    }
    check_line(alloc, word)
}

fn names_sample(word: &str) -> bool
    ensures { result ≡ names_sample word.now }
{
    sample_text(word).is_some()
}

// A tree shows the name of a file behind `;`, where it must end with the line.
fn check_line(alloc: Global, word: &str) -> Result<(), Unasked>
    ensures { IsRightUnless (wrong_line word.now) result }
{
    if word.as_bytes().contains(&b'\n') {
        return Err(wrong_as(alloc, "the name of a file has a line break"));
    }
    Ok(())
}

// That a file isn't given a second time.
fn check_file_again(alloc: Global, before: &[Item<'_>], word: &str) -> Result<(), Unasked>
    ensures { IsRightUnless (wrong_file_again before.now word.now) result }
{
    if has_file(before, word) {
        return Err(wrong(format!(in alloc; "the file '{word}' is given twice")));
    }
    Ok(())
}
