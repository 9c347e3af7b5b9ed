//! The items that the words behind a task are.

ghost use Rattle.std.specs.Prelude.{◌≡◌, ◌≢◌, ◌++◌, ◌∷◌, IfOk, MatchOption, false, length, map, string_bytes};
ghost use Rattle.std.specs.List.{list_any};
ghost use Rattle.std.specs.Option.{option_copied};
ghost use Rattle.app_words.specs.Items.{BeginsWith, IsOptionWith, begins_call, file_of, files_of, has_file, is_alone, is_option, is_same_path, is_separator, items_behind, name_in, newest, plain, value_in, value_of, values_of};
ghost use Rattle.app_words.specs.WrongItems.{old_count};

use crate::options::{TaskOption, option_of};
use crate::tasks::Job;
use std::alloc::{AllocError, Global};

/// What a word says, or two.
#[derive(Clone, Copy)]
pub enum Item<'a> {
    /// An option alone, by its word.
    Alone(&'a str, TaskOption),
    /// An option, and the value that is joined to its word by `=`.
    Joined(&'a str, TaskOption, &'a str),
    /// An option, and its value in the next word.
    Apart(&'a str, TaskOption, &'a str),
    /// A word that is no option: a file, or `--`.
    Plain(&'a str),
}

/// The first item of the words behind a task, of which this is the first, and the words that are left. It isn't the `--` before a call.
pub(crate) fn first_item<'a>(
    job: Job,
    word: &'a str,
    others: &'a [String],
) -> (Item<'a>, &'a [String])
    requires { begins_call job word.now ≡ false }
    ensures { BeginsWith job (word.now ∷ map string_bytes others.now) result.0 (map string_bytes result.1.now) }
{
    let (name, value) = parts(word);
    match (option_of(job, name), value) {
        (None, _) => (Item::Plain(word), others),
        (Some(option), Some(value)) => (Item::Joined(name, option, value), others),
        (Some(option), None) => alone_or_apart(name, option, others),
    }
}

// An option to which nothing is joined.
fn alone_or_apart<'a>(
    name: &'a str,
    option: TaskOption,
    others: &'a [String],
) -> (Item<'a>, &'a [String])
    ensures { IsOptionWith name.now option (map string_bytes others.now) result.0 (map string_bytes result.1.now) }
{
    match others {
        [value, rest @ ..] if option.takes.takes_next() => {
            (Item::Apart(name, option, value.as_str()), rest)
        }
        _ => (Item::Alone(name, option), others),
    }
}

/// A word's name, and what is joined to it by `=`, where something is.
pub(crate) fn parts(word: &str) -> (&str, Option<&str>)
    ensures name { result.0.now ≡ name_in word.now }
    ensures value { MatchOption result.1 (word.now ≡ result.0.now) (λ value. word.now ≡ result.0.now ++ (61 ∷ value.now)) }
{
    match word.split_once('=') {
        Some((name, value)) => (name, Some(value)),
        None => (word, None),
    }
}

impl<'a> Item<'a> {
    /// Whether it is an option of this word.
    pub(crate) fn is_option(self, name: &str) -> bool
        ensures { result ≡ is_option name.now self.entry }
    {
        match self {
            Item::Alone(word, _) | Item::Joined(word, _, _) | Item::Apart(word, _, _) => word
                == name,
            Item::Plain(_) => false,
        }
    }

    /// Whether it is one without a value.
    fn is_alone(self, name: &str) -> bool
        ensures { result ≡ is_alone name.now self.entry }
    {
        match self {
            Item::Alone(word, _) => word == name,
            Item::Joined(..) | Item::Apart(..) | Item::Plain(_) => false,
        }
    }

    /// Its value, if it is an option of this word.
    fn value(self, name: &str) -> Option<&'a str>
        ensures { option_copied result ≡ value_in name.now self.entry }
    {
        match self {
            Item::Joined(word, _, value) | Item::Apart(word, _, value) if word == name => Some(
                value,
            ),
            _ => None,
        }
    }

    /// The file that it names.
    fn file(self) -> Option<&'a str>
        ensures { option_copied result ≡ file_of self.entry }
    {
        match self {
            Item::Plain(word) if word != "--" => Some(word),
            Item::Alone(word, _) if word == "--stdin" => Some("-"),
            _ => None,
        }
    }

    /// Whether it is `--`.
    pub(crate) fn is_separator(self) -> bool
        ensures { result ≡ is_separator self.entry }
    {
        matches!(self, Item::Plain("--"))
    }
}

/// Whether an option is given.
pub(crate) fn is_given(items: &[Item<'_>], name: &str) -> bool
    ensures { result ≡ list_any (is_option name.now) items.now }
{
    for item in items {
        if item.is_option(name) {
            return true;
        }
    }
    false
}

/// Whether it is given without a value.
pub(crate) fn is_given_alone(items: &[Item<'_>], name: &str) -> bool
    ensures { result ≡ list_any (is_alone name.now) items.now }
{
    for item in items {
        if item.is_alone(name) {
            return true;
        }
    }
    false
}

/// The value of an option, if it is given.
pub(crate) fn value_of<'a>(items: &[Item<'a>], name: &str) -> Option<&'a str>
    ensures { option_copied result ≡ value_of name.now items.now }
{
    for item in items {
        let value = item.value(name);
        if value.is_some() {
            return value;
        }
    }
    None
}

/// All its values, in order.
pub(crate) fn values_of<'a>(
    alloc: Global,
    items: &[Item<'a>],
    name: &str,
) -> Result<Vec<&'a str>, AllocError>
    ensures { IfOk result (λ values. map (λ value. value.now) values.items ≡ values_of name.now items.now) }
{
    let mut values = Vec::new(alloc);
    for item in items {
        if let Some(value) = item.value(name) {
            values.push(value)?;
        }
    }
    Ok(values)
}

/// Whether `--` is among them.
pub(crate) fn has_separator(items: &[Item<'_>]) -> bool
    ensures { result ≡ list_any is_separator items.now }
{
    for item in items {
        if item.is_separator() {
            return true;
        }
    }
    false
}

/// The files, in order.
pub(crate) fn files_of(alloc: Global, items: &[Item<'_>]) -> Result<Vec<String>, AllocError>
    ensures { IfOk result (λ files. map string_bytes files.items ≡ files_of items.now) }
{
    let mut files = Vec::new(alloc);
    for item in items {
        if let Some(file) = item.file() {
            files.push(String::from_str(alloc, file)?)?;
        }
    }
    Ok(files)
}

/// How many files there are.
pub(crate) fn count_of_files(items: &[Item<'_>]) -> usize
    ensures { result ≡ length (files_of items.now) }
{
    let mut count = 0;
    for item in items {
        if item.file().is_some() {
            count += 1;
        }
    }
    count
}

/// The items of the last version: those behind `--`, or all.
pub(crate) fn newest<'b, 'a>(items: &'b [Item<'a>]) -> &'b [Item<'a>]
    ensures { result.now ≡ newest items.now }
{
    let mut left = items;
    while let [item, rest @ ..] = left {
        if item.is_separator() {
            return rest;
        }
        left = rest;
    }
    items
}

/// How many files are of the old version.
pub(crate) fn old_count(items: &[Item<'_>]) -> usize
    ensures { result ≡ old_count items.now }
{
    count_of_files(items).saturating_sub(count_of_files(newest(items)))
}

/// Whether the last version has a file.
pub(crate) fn has_file(items: &[Item<'_>], path: &str) -> bool
    ensures { result ≡ has_file path.now items.now }
{
    is_among(newest(items), path)
}

fn is_among(items: &[Item<'_>], path: &str) -> bool
    ensures { result ≡ list_any (λ item. is_same_path path.now (file_of item)) items.now }
{
    for item in items {
        if is_same_path(path, item.file()) {
            return true;
        }
    }
    false
}

fn is_same_path(path: &str, file: Option<&str>) -> bool
    ensures { result ≡ is_same_path path.now (option_copied file.entry) }
{
    match file {
        Some(file) => plain(file) == plain(path),
        None => false,
    }
}

// A path without `./` before it.
fn plain(path: &str) -> &str
    ensures { result.now ≡ plain path.now }
{
    path.strip_prefix("./").unwrap_or(path)
}
