//! What `fmt` is asked.

ghost use Rattle.std.specs.Prelude.{◌≡◌, IfOk, MatchResult, map, string_bytes};
ghost use Rattle.app_words.specs.Asked.{IsFirstWrong, IsFormattingBy, TellsWhy};
ghost use Rattle.app_words.specs.Requests.{IsFormattingOf, indentation_of};
ghost use Rattle.app_words.specs.declared.tasks.Job.TheVariants as J;

use crate::given::given_by;
use crate::items::{Item, files_of, is_given};
use crate::request::text_or_none;
use crate::tasks::Job;
use crate::unasked::Unasked;
use std::alloc::{AllocError, Global};
use text_writer::formatted::Indentation;

/// What `fmt` is asked.
pub struct Formatting<'a> {
    /// Whether files only are named that would change.
    pub check: bool,
    /// Whether then the lines are shown that would change.
    pub diff: bool,
    /// Where lines begin, if that is said.
    pub indentation: Option<Indentation>,
    /// Where files are looked for whose names don't begin with `/`; the empty text for where the command runs.
    pub folder: &'a str,
    /// The files, where `-` is standard input, whose layout goes to standard output.
    pub files: Vec<String>,
}

impl<'a> Drop for Formatting<'a> {
    fn drop(self) {
        let Self {
            check: _,
            diff: _,
            indentation: _,
            folder: _,
            files: _,
        } = self;
    }
}

/// What the words behind `fmt` ask.
pub(crate) fn formatting_by<'a>(
    alloc: Global,
    words: &'a [String],
) -> Result<Formatting<'a>, Unasked>
    ensures { MatchResult result (IsFormattingBy (map string_bytes words.now)) (TellsWhy (IsFirstWrong J.Formatting (map string_bytes words.now))) }
{
    let given = given_by(alloc, Job::Formatting, words)?;
    Ok(formatting_of(alloc, given.items.as_slice())?)
}

fn formatting_of<'a>(alloc: Global, items: &[Item<'a>]) -> Result<Formatting<'a>, AllocError>
    ensures { IfOk result (IsFormattingOf items.now) }
{
    let diff = is_given(items, "--diff");
    Ok(Formatting {
        check: is_given(items, "--check") || diff,
        diff,
        indentation: indentation_of(is_given(items, "--indent")),
        folder: text_or_none(items, "-C"),
        files: files_of(alloc, items)?,
    })
}

fn indentation_of(indents: bool) -> Option<Indentation>
    ensures { result ≡ indentation_of indents }
{
    if indents {
        Some(Indentation::TwoColumns)
    } else {
        None
    }
}
