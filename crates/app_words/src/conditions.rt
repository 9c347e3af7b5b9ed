//! What `conditions` is asked.

ghost use Rattle.std.specs.Prelude.{◌≡◌, IfOk, MatchResult, map, string_bytes, None};
ghost use Rattle.app_words.specs.Asked.{IsConditionsBy, IsFirstWrong, TellsWhy};
ghost use Rattle.app_words.specs.Requests.{IsConditionsOf, texts_behind, texts_with};
ghost use Rattle.app_words.specs.declared.tasks.Job.TheVariants as J;

use crate::given::given_by;
use crate::items::{Item, files_of, is_given, value_of};
use crate::request::text_or_none;
use crate::tasks::Job;
use crate::unasked::Unasked;
use std::alloc::{AllocError, Global};

/// Which texts for solvers are written.
#[derive(Clone, Copy, PartialEq, Eq)]
pub enum WrittenTexts {
    /// Those that lack an answer.
    Open,
    /// All that verdicts rest on.
    All,
}

/// What `conditions` is asked.
pub struct ConditionsRequest<'a> {
    /// Where files are looked for whose names don't begin with `/`; the empty text for where the command runs.
    pub folder: &'a str,
    /// Whether rules are asked about where no rule of greater priority matches.
    pub above: bool,
    /// Whether it isn't asked if pure calls on right sides are as their terms require.
    pub lax: bool,
    /// What the rules are called that are asked about, as by `explain`; all where nothing is said.
    pub rule: Option<&'a str>,
    /// Whether what is told of rules is written as JSON: docs/JSON.md. Questions always are.
    pub json: bool,
    /// The texts that are written before what is told of rules, as lines of a file of records.
    pub texts: Option<WrittenTexts>,
    /// The file of records with what solvers answered, or `-`: what that says of rules is written then.
    pub answers: Option<&'a str>,
    /// Whether each rule has to be right.
    pub deny: bool,
    /// The file of what is expected to be told of rules that aren't right, or `-`.
    pub expected: Option<&'a str>,
    /// The files that are named, where `-` is standard input.
    pub files: Vec<String>,
}

impl<'a> Drop for ConditionsRequest<'a> {
    fn drop(self) {
        let Self {
            folder: _,
            above: _,
            lax: _,
            rule: _,
            json: _,
            texts: _,
            answers: _,
            deny: _,
            expected: _,
            files: _,
        } = self;
    }
}

/// What the words behind `conditions` ask.
pub(crate) fn conditions_by<'a>(
    alloc: Global,
    words: &'a [String],
) -> Result<ConditionsRequest<'a>, Unasked>
    ensures { MatchResult result (IsConditionsBy (map string_bytes words.now)) (TellsWhy (IsFirstWrong J.Conditions (map string_bytes words.now))) }
{
    let given = given_by(alloc, Job::Conditions, words)?;
    Ok(conditions_of(alloc, given.items.as_slice())?)
}

fn conditions_of<'a>(alloc: Global, items: &[Item<'a>]) -> Result<ConditionsRequest<'a>, AllocError>
    ensures { IfOk result (IsConditionsOf items.now) }
{
    Ok(ConditionsRequest {
        folder: text_or_none(items, "-C"),
        above: is_given(items, "--above"),
        lax: is_given(items, "--lax"),
        rule: value_of(items, "--rule"),
        json: is_given(items, "--format"),
        texts: texts_asked(items),
        answers: value_of(items, "--answers"),
        deny: is_given(items, "--deny"),
        expected: value_of(items, "--expect"),
        files: files_of(alloc, items)?,
    })
}

// Which texts are written: what is said last.
fn texts_asked(items: &[Item<'_>]) -> Option<WrittenTexts>
    ensures { result ≡ texts_behind None items.now }
{
    let mut texts = None;
    for item in items {
        texts = texts_with(*item, texts);
    }
    texts
}

fn texts_with(item: Item<'_>, before: Option<WrittenTexts>) -> Option<WrittenTexts>
    ensures { result ≡ texts_with item.entry before }
{
    if item.is_option("--open") {
        Some(WrittenTexts::Open)
    } else if item.is_option("--asked") {
        Some(WrittenTexts::All)
    } else {
        before
    }
}
