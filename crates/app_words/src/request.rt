//! What a task is asked.

ghost use Rattle.std.specs.Prelude.{◌≡◌, ◌++◌, ◌∷◌, IfOk, MatchResult, OnOk, codes, map, string_bytes};
ghost use Rattle.std.specs.List.{filter_map};
ghost use Rattle.std.specs.Option.{option_copied, option_to_list};
ghost use Rattle.app_words.specs.Asked.{IsAskedOfRule, IsAskedOfTask, IsRefusedBy, IsRefusedOfRule, IsRefusedOfTask, IsRequestBy, TellsWhy, call_words, called_words};
ghost use Rattle.app_words.specs.Items.{files_of, value_of, values_of};
ghost use Rattle.app_words.specs.Refusals.{Tells, no_rule, text_of};
ghost use Rattle.app_words.specs.Requests.{IsCodeOf, IsRequestOf, format_asked, kinds_of, prefix_view, renaming, text_or_none};
ghost use Rattle.app_words.specs.Tasks.{has_rule};
ghost use Rattle.app_words.specs.Values.{kind_named};

use crate::given::{Given, check_all, first_of, given_by};
use crate::items::{Item, files_of, is_given, is_given_alone, old_count, value_of, values_of};
use crate::tasks::{Job, Task};
use crate::unasked::{Unasked, wrong_as};
pub use crate::values::Format;
use crate::values::{colored_by, kind_named, names_in};
use report_print::layout::Layout;
use report_warnings::kinds::Warning;
use rust_items::options::{CodegenOptions, Prefix};
use std::alloc::{AllocError, Global};

/// What a task is asked.
pub struct Request<'a> {
    /// What is to be done.
    pub task: Task,
    /// Whether uses of internal extractors are replaced by their templates.
    pub expand: bool,
    /// Whether all warnings count as errors.
    pub deny: bool,
    /// The kinds of warnings that count as errors even if not all do.
    pub denied: Vec<Warning>,
    /// The kinds of warnings that aren't looked for.
    pub allowed: Vec<Warning>,
    /// Whether a person sees all errors, and not only the first ones; of printed trees, the first of each term.
    pub all: bool,
    /// The form of the answer.
    pub format: Format,
    /// Whether what is told to a person has a terminal's colours.
    pub colored: bool,
    /// The names of the terms whose trees are wanted, with commas between them; all where there are none.
    pub terms: Option<&'a str>,
    /// Where files are looked for whose names don't begin with `/`; the empty text for where the command runs.
    pub folder: &'a str,
    /// The rules that are asked about: the name of a rule or of a term, the number of a line in the rules, or the end of a
    /// file's path, a colon and such a number.
    pub rule: &'a str,
    /// How Rust code is written.
    pub code: CodegenOptions,
    /// Whether stubs of what Rust code asks for are wanted in place of the code.
    pub stubs: bool,
    /// Whether it is told what is being done.
    pub progress: bool,
    /// The file that has the answers to what a call calls, where there is one. It is the last of `files`.
    pub answers: Option<&'a str>,
    /// Whether the tests of a run are told.
    pub trace: bool,
    /// The files, where `-` is standard input, or the sample. The last one has printed trees where they are compared.
    pub files: Vec<String>,
    /// How many of the files are of the old version, where two versions are compared.
    pub old: usize,
    /// The words of the call.
    pub call: Vec<&'a str>,
}

impl<'a> Drop for Request<'a> {
    fn drop(self) {
        let Request {
            task: _,
            expand: _,
            deny: _,
            denied: _,
            allowed: _,
            all: _,
            format: _,
            colored: _,
            terms: _,
            folder: _,
            rule: _,
            code: _,
            stubs: _,
            progress: _,
            answers: _,
            trace: _,
            files: _,
            old: _,
            call: _,
        } = self;
    }
}

impl<'a> Request<'a> {
    /// How reports are laid out where they are told to a person.
    pub fn layout(&self) -> Layout {
        match self.format {
            Format::Line => Layout::Line,
            Format::Text | Format::Json | Format::Dot => {
                if self.colored {
                    Layout::Colored
                } else {
                    Layout::Text
                }
            }
        }
    }

    /// Whether all errors are shown: where that is asked for, and to programs.
    pub fn wants_all(&self) -> bool {
        match self.format {
            Format::Line | Format::Json => true,
            Format::Text | Format::Dot => self.all,
        }
    }
}

/// Adds the file with answers, where there is one: it is read behind all others.
pub fn add_answers(
    alloc: Global,
    files: &mut Vec<String>,
    answers: Option<&str>,
) -> Result<(), AllocError>
    ensures { OnOk result (map string_bytes files.new.items ≡ map string_bytes files.old.items ++ option_to_list (option_copied answers.entry)) }
{
    if let Some(name) = answers {
        files.push(String::from_str(alloc, name)?)?;
    }
    Ok(())
}

/// What the words behind a task ask.
pub(crate) fn request_by<'a>(
    alloc: Global,
    colors: bool,
    task: Task,
    words: &'a [String],
) -> Result<Request<'a>, Unasked>
    ensures { MatchResult result (IsAskedOfTask (has_rule task) colors task (map string_bytes words.now))
        (TellsWhy (IsRefusedOfTask (has_rule task) task (map string_bytes words.now))) }
{
    if task.has_rule() {
        return request_about(alloc, colors, task, words);
    }
    request_behind(alloc, colors, task, "", words)
}

// The same of a task whose first word is the rule that it is about.
fn request_about<'a>(
    alloc: Global,
    colors: bool,
    task: Task,
    words: &'a [String],
) -> Result<Request<'a>, Unasked>
    ensures { MatchResult result (IsAskedOfRule colors task (map string_bytes words.now))
        (TellsWhy (IsRefusedOfRule task (map string_bytes words.now))) }
{
    match first_of(words) {
        None => Err(no_rule(alloc, task)),
        Some((rule, rest)) => request_of_rule(alloc, colors, task, rule, rest),
    }
}

fn request_of_rule<'a>(
    alloc: Global,
    colors: bool,
    task: Task,
    rule: &'a str,
    words: &'a [String],
) -> Result<Request<'a>, Unasked>
    ensures { MatchResult result (IsAskedOfRule colors task (rule.now ∷ map string_bytes words.now))
        (TellsWhy (IsRefusedOfRule task (rule.now ∷ map string_bytes words.now))) }
{
    if rule == "" {
        return Err(no_rule(alloc, task));
    }
    request_behind(alloc, colors, task, rule, words)
}

fn no_rule(alloc: Global, task: Task) -> Unasked
    ensures { Tells (text_of (no_rule task)) result }
{
    match task {
        Task::Why => wrong_as(alloc, "no rule to ask about"),
        _ => wrong_as(alloc, "no rule to explain"),
    }
}

// What is asked by the words behind a task and its rule.
fn request_behind<'a>(
    alloc: Global,
    colors: bool,
    task: Task,
    rule: &'a str,
    words: &'a [String],
) -> Result<Request<'a>, Unasked>
    ensures { MatchResult result (IsRequestBy colors task rule.now (map string_bytes words.now))
        (TellsWhy (IsRefusedBy task (map string_bytes words.now))) }
{
    let given = given_by(alloc, Job::Task(task), words)?;
    if let Err(why) = check_all(alloc, task, &given) {
        return Err(why);
    }
    Ok(request_of(alloc, colors, task, rule, &given)?)
}

// The request that items make.
fn request_of<'a>(
    alloc: Global,
    colors: bool,
    task: Task,
    rule: &'a str,
    given: &Given<'a>,
) -> Result<Request<'a>, AllocError>
    ensures { IfOk result (IsRequestOf colors task rule.now given.now.items.items (called_words (call_words given.now.call))) }
{
    let items = given.items.as_slice();
    Ok(Request {
        task,
        expand: !is_given(items, "--no-expand"),
        deny: is_given_alone(items, "--deny"),
        denied: kinds_of(alloc, items, "--deny")?,
        allowed: kinds_of(alloc, items, "--allow")?,
        all: is_given(items, "--all"),
        format: format_asked(items),
        colored: colored_by(colors, value_of(items, "--color")),
        terms: value_of(items, "--terms"),
        folder: text_or_none(items, "-C"),
        rule,
        code: code_asked(alloc, items)?,
        stubs: is_given(items, "--stubs"),
        progress: is_given(items, "--progress"),
        answers: value_of(items, "--answers"),
        trace: is_given(items, "--trace"),
        files: files_asked(alloc, items)?,
        old: old_count(items),
        call: words_of_call(alloc, given.call)?,
    })
}

/// The value of an option, or the empty text.
pub(crate) fn text_or_none<'a>(items: &[Item<'a>], name: &str) -> &'a str
    ensures { result.now ≡ text_or_none name.now items.now }
{
    value_of(items, name).unwrap_or("")
}

fn format_asked(items: &[Item<'_>]) -> Format
    ensures { result ≡ format_asked items.now }
{
    match value_of(items, "--format") {
        Some(word) => Format::named(word).unwrap_or(Format::Text),
        None => Format::Text,
    }
}

fn code_asked(alloc: Global, items: &[Item<'_>]) -> Result<CodegenOptions, AllocError>
    ensures { IfOk result (IsCodeOf items.now) }
{
    Ok(CodegenOptions {
        exclude_global_allow_pragmas: !is_given(items, "--with-allows"),
        prefixes: prefixes_of(alloc, values_of(alloc, items, "--prefix")?.as_slice())?,
        emit_logging: is_given(items, "--log"),
    })
}

// What is shown in place of the beginnings of files' names.
fn prefixes_of(alloc: Global, values: &[&str]) -> Result<Vec<Prefix>, AllocError>
    ensures { IfOk result (λ prefixes. map prefix_view prefixes.items ≡ map renaming (map (λ value. value.now) values.now)) }
{
    let mut prefixes = Vec::new(alloc);
    for value in values {
        prefixes.push(prefix_of(alloc, value)?)?;
    }
    Ok(prefixes)
}

fn prefix_of(alloc: Global, value: &str) -> Result<Prefix, AllocError>
    ensures { IfOk result (λ prefix. prefix_view prefix ≡ renaming value.now) }
{
    let (prefix, name) = value.split_once('=').unwrap_or((value, ""));
    Ok(Prefix {
        prefix: String::from_str(alloc, prefix)?,
        name: String::from_str(alloc, name)?,
    })
}

// The kinds of warnings that an option names.
fn kinds_of(alloc: Global, items: &[Item<'_>], name: &str) -> Result<Vec<Warning>, AllocError>
    ensures { IfOk result (λ kinds. kinds.items ≡ kinds_of (values_of name.now items.now)) }
{
    kinds_in(alloc, values_of(alloc, items, name)?.as_slice())
}

fn kinds_in(alloc: Global, values: &[&str]) -> Result<Vec<Warning>, AllocError>
    ensures { IfOk result (λ kinds. kinds.items ≡ kinds_of (map (λ value. value.now) values.now)) }
{
    let mut kinds = Vec::new(alloc);
    for value in values {
        push_kinds(&mut kinds, names_in(alloc, value)?.as_slice())?;
    }
    Ok(kinds)
}

fn push_kinds(kinds: &mut Vec<Warning>, names: &[&str]) -> Result<(), AllocError>
    ensures { OnOk result (kinds.new.items ≡ kinds.old.items ++ filter_map kind_named (map (λ name. name.now) names.now)) }
{
    for name in names {
        if let Some(kind) = kind_named(name) {
            kinds.push(kind)?;
        }
    }
    Ok(())
}

// The files, and behind them the one with answers.
fn files_asked(alloc: Global, items: &[Item<'_>]) -> Result<Vec<String>, AllocError>
    ensures { IfOk result (λ files. map string_bytes files.items ≡ files_of items.now ++ option_to_list (value_of (codes "--answers") items.now)) }
{
    let mut files = files_of(alloc, items)?;
    add_answers(alloc, &mut files, value_of(items, "--answers"))?;
    Ok(files)
}

fn words_of_call<'a>(alloc: Global, call: Option<&'a [String]>) -> Result<Vec<&'a str>, AllocError>
    ensures { IfOk result (λ words. map (λ word. word.now) words.items ≡ called_words (call_words call.entry)) }
{
    match call {
        Some(words) => texts_of(alloc, words),
        None => Ok(Vec::new(alloc)),
    }
}

fn texts_of<'a>(alloc: Global, words: &'a [String]) -> Result<Vec<&'a str>, AllocError>
    ensures { IfOk result (λ texts. map (λ text. text.now) texts.items ≡ map string_bytes words.now) }
{
    let mut texts = Vec::new(alloc);
    for word in words {
        texts.push(word.as_str())?;
    }
    Ok(texts)
}
