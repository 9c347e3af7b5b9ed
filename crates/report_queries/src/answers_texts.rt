//! Definitions as text, and what is answered to them.

ghost use Rattle.std.specs.Prelude.{IfOk};
ghost use Rattle.report_queries.specs.Statuses.{IsAnswerTo};
ghost use Rattle.cranelift_isle.specs.SyntaxViews.{definition_views};

use crate::answers::{TreesOrErrors, answer_to};
use cranelift_isle::syntax::Def;
use report_print::places::Places;
use std::alloc::{AllocError, Global};
use text_reader::errors::{Problem, ReadFault, TextError};
use text_reader::read;

/// How a text is lowered, and its errors shown.
#[derive(Clone, Copy)]
pub struct TextOptions {
    /// Whether uses of internal extractors are replaced by their templates.
    pub expand: bool,
    /// Whether the place of an error is shown as its line and column. Else it is 0 and the number of the definition
    /// that it lies in, where the text is read.
    pub lines: bool,
}

/// The trees of a text's definitions, or one line for each error: those found on the way to them, or the one of reading.
pub fn answer_to_text(
    alloc: Global,
    text: &str,
    asked: TextOptions,
) -> Result<TreesOrErrors, AllocError> {
    match read(alloc, 0, text) {
        Ok(defs) => answer_to_defs(alloc, text, &defs, asked),
        Err(ReadFault::Text(error)) => Ok(TreesOrErrors::Errors(syntax_error_line(
            alloc, text, &error,
        )?)),
        Err(ReadFault::Memory(error)) => Err(error),
    }
}

fn answer_to_defs(
    alloc: Global,
    text: &str,
    defs: &[Def],
    asked: TextOptions,
) -> Result<TreesOrErrors, AllocError>
    // the answer is that of lowering these definitions
    ensures { IfOk result (IsAnswerTo (definition_views defs.now) asked.expand) }
{
    answer_to(alloc, defs, asked.expand, places(text, defs, asked))
}

// How the places in a text with these definitions are shown.
fn places<'a>(text: &'a str, defs: &'a [Def], asked: TextOptions) -> Places<'a> {
    if asked.lines {
        Places::Lines(text)
    } else {
        Places::Definitions(defs)
    }
}

/// The line for what keeps a text from being read, as `syntax error at 1:7: expected a name`, with its line end.
///
/// # Errors
///
/// Where memory is refused.
pub fn syntax_error_line(
    alloc: Global,
    text: &str,
    error: &TextError,
) -> Result<String, AllocError> {
    let mut line = String::from_str(alloc, "syntax error at ")?;
    Places::Lines(text).push(&mut line, error.pos)?;
    write!(line, ": {error}")?;
    if let Problem::Unclosed(open) = &error.problem {
        line.push_str(" for the `(` at ")?;
        Places::Lines(text).push(&mut line, *open)?;
    }
    line.push('\n')?;
    Ok(line)
}
