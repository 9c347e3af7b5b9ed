//! The values that options take.

ghost use Rattle.std.specs.Prelude.{◌≡◌, ◌==◌, IfOk, codes, find, if◌then◌else◌, map};
ghost use Rattle.std.specs.List.{list_any};
ghost use Rattle.std.specs.Option.{option_copied};
ghost use Rattle.std.specs.Str.{bytes_eq};
ghost use Rattle.report_warnings.specs.Kinds.{kind_name};
ghost use Rattle.app_words.specs.Refusals.{no_color, no_columns, no_renaming, no_warning, text_of, IsRightUnless, Tells};
ghost use Rattle.app_words.specs.Values.{colored_by, format_named, has_format, is_color, kind_named, names_in, wrong_format, wrong_format_of, wrong_names, wrong_value};

use crate::options::Takes;
use crate::tasks::{Job, Task};
use crate::unasked::{Unasked, wrong};
use report_warnings::kinds::{WARNINGS, Warning};
use std::alloc::{AllocError, Global};

/// The form of an answer.
#[derive(Clone, Copy, PartialEq, Eq)]
pub enum Format {
    /// For a person: of an error the lines that it speaks of.
    Text,
    /// The same, but each error in one line.
    Line,
    /// One JSON object, errors too: docs/JSON.md.
    Json,
    /// Trees as graphs in Graphviz's notation.
    Dot,
}

impl Format {
    /// The form that a word names.
    pub(crate) fn named(word: &str) -> Option<Format>
        ensures { result ≡ format_named word.now }
    {
        match word {
            "text" => Some(Format::Text),
            "line" => Some(Format::Line),
            "json" => Some(Format::Json),
            "dot" => Some(Format::Dot),
            _ => None,
        }
    }

    // Whether a task has answers of this form.
    fn is_of(self, task: Task) -> bool
        ensures { result ≡ has_format task self }
    {
        match self {
            Format::Text | Format::Line => true,
            Format::Json => matches!(task, Task::Lower | Task::Check | Task::Stats),
            Format::Dot => matches!(task, Task::Lower),
        }
    }
}

/// Whether errors have colours, by what a word says of it, if one does.
pub(crate) fn colored_by(colors: bool, word: Option<&str>) -> bool
    ensures { result ≡ colored_by colors (option_copied word.entry) }
{
    match word {
        Some("always") => true,
        Some("never") => false,
        _ => colors,
    }
}

/// The names in a word, which commas part.
pub(crate) fn names_in<'a>(alloc: Global, word: &'a str) -> Result<Vec<&'a str>, AllocError>
    ensures { IfOk result (λ names. map (λ name. name.now) names.items ≡ names_in word.now) }
{
    word.split(',').collect(alloc)
}

/// The kind of warnings of a name.
pub(crate) fn kind_named(name: &str) -> Option<Warning>
    ensures { result ≡ kind_named name.now }
{
    kind_among(&WARNINGS, name)
}

fn kind_among(kinds: &[Warning], name: &str) -> Option<Warning>
    ensures { result ≡ find (λ kind. bytes_eq (kind_name kind) name.now) kinds.now }
{
    for kind in kinds {
        if kind.name() == name {
            return Some(*kind);
        }
    }
    None
}

/// Says what is wrong with a value, where something is.
pub(crate) fn check_value(alloc: Global, job: Job, takes: Takes, value: &str) -> Result<(), Unasked>
    ensures { IsRightUnless (wrong_value job takes value.now) result }
{
    match takes {
        Takes::Nothing | Takes::Text => Ok(()),
        Takes::Format => check_format(alloc, job, value),
        Takes::Color => check_color(alloc, value),
        Takes::Renaming => check_renaming(alloc, value),
        Takes::Kinds | Takes::MaybeKinds => check_kinds(alloc, value),
        Takes::Columns => check_columns(alloc, value),
    }
}

fn check_format(alloc: Global, job: Job, value: &str) -> Result<(), Unasked>
    ensures { IsRightUnless (wrong_format job value.now) result }
{
    match job {
        Job::Task(task) => check_format_of(alloc, task, value),
        _ if value == "json" => Ok(()),
        _ => Err(wrong(format!(in alloc; "conditions has no format '{value}', but json"))),
    }
}

fn check_format_of(alloc: Global, task: Task, value: &str) -> Result<(), Unasked>
    ensures { IsRightUnless (wrong_format_of task value.now (format_named value.now)) result }
{
    match Format::named(value) {
        None => Err(wrong(format!(in alloc; "no format is called '{value}'"))),
        Some(format) if format.is_of(task) => Ok(()),
        Some(_) => {
            let task = task.word();
            Err(wrong(format!(in alloc; "{task} has no format {value}")))
        }
    }
}

fn check_color(alloc: Global, value: &str) -> Result<(), Unasked>
    ensures { IsRightUnless (if is_color value.now then None else Some (no_color value.now)) result }
{
    match value {
        "always" | "never" | "auto" => Ok(()),
        _ => Err(wrong(format!(in alloc; "--color is always, never or auto, not '{value}'"))),
    }
}

fn check_renaming(alloc: Global, value: &str) -> Result<(), Unasked>
    ensures { IsRightUnless (if list_any (λ b. b == 61) value.now then None else Some (no_renaming value.now)) result }
{
    if value.as_bytes().contains(&b'=') {
        return Ok(());
    }
    Err(wrong(format!(in alloc; "--prefix is FROM=TO, not '{value}'")))
}

fn check_columns(alloc: Global, value: &str) -> Result<(), Unasked>
    ensures { IsRightUnless (if bytes_eq value.now (codes "2") then None else Some (no_columns value.now)) result }
{
    if value == "2" {
        return Ok(());
    }
    Err(wrong(format!(in alloc; "--indent is 2, not '{value}'")))
}

fn check_kinds(alloc: Global, value: &str) -> Result<(), Unasked>
    ensures { IsRightUnless (wrong_names (names_in value.now)) result }
{
    check_names(alloc, names_in(alloc, value)?.as_slice())
}

fn check_names(alloc: Global, names: &[&str]) -> Result<(), Unasked>
    ensures { IsRightUnless (wrong_names (map (λ name. name.now) names.now)) result }
{
    for name in names {
        if kind_named(name).is_none() {
            return Err(no_warning(alloc, name));
        }
    }
    Ok(())
}

fn no_warning(alloc: Global, name: &str) -> Unasked
    ensures { Tells (text_of (no_warning name.now)) result }
{
    wrong(format!(in alloc;
        "no warning is called '{name}'. The warnings are never-run, priority, uncovered, recursion, constant, name, unused, literal, always"
    ))
}
