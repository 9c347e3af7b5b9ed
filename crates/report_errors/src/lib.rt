//! Errors, explained. What is behind a type error: the names that may be meant, the other places that it speaks of, and which errors
//! say no more than another one. What is wrong with a text that can't be read. Why rules are refused.
#![tactic(auto)]

ghost use Rattle.std.specs.Prelude.{◌≡◌, ◌++◌, ◌∷◌, [], IfOk, List, OnOk};
ghost use Rattle.core_syntax.specs.declared.syntax.Pos.{Pos};
ghost use Rattle.report_errors.specs.Places.{AreAtError, IsAtError, begin_of};
ghost use Rattle.report_print.specs.Reports.{places_of};

use crate::misspelled::add_question_at;
use core_syntax::syntax::Pos;
use report_names::extents::line_with_list;
use report_print::report::{Label, Level, Place, Report};
use std::alloc::{AllocError, Global};
use text_reader::errors::{Mistake, Problem, TextError};
use text_reader::heads::nearest;

mod conflicts;
mod declarations;
pub mod diagnosis;
pub mod error_order;
pub mod lost;
pub mod lost_names;
mod mismatches;
pub mod misspelled;
mod named_forms;
mod nearest;
mod repeats;
pub mod reports;
mod template_errors;
pub mod undefined_terms;
mod unknown;
mod unmatched_templates;

/// The report of what is wrong with a text: at its place, but of a list that isn't ended where that begins; and with the word that
/// may be meant where one of a few is expected.
///
/// # Errors
///
/// Where memory is refused.
pub fn syntax_report(alloc: Global, text: &str, error: &TextError) -> Result<Report, AllocError>
    ensures { IfOk result (IsAtError error.now) }
{
    let mut report = meant(alloc, text, error)?;
    report.shorten()?;
    report.labels = labels_of(alloc, text, error)?;
    Ok(report)
}

// The places of what is wrong with a text: of a list that isn't ended its beginning, the text's end, and where the next form
// seems to begin.
fn labels_of(alloc: Global, text: &str, error: &TextError) -> Result<Vec<Label>, AllocError>
    ensures { IfOk result (λ labels. AreAtError error.now labels.items) }
{
    let mut labels = Vec::new(alloc);
    match &error.problem {
        Problem::Unclosed(begin) => {
            push_label(alloc, &mut labels, *begin, "")?;
            push_label(alloc, &mut labels, error.pos, "the text ends here")?;
            push_next_line(alloc, &mut labels, text, *begin)?;
        }
        Problem::Expected(_) | Problem::UnknownDefinition(_) => {
            push_label(alloc, &mut labels, error.pos, "")?;
        }
    }
    Ok(labels)
}

// Adds a place, with what it has to do with the report.
fn push_label(
    alloc: Global,
    labels: &mut Vec<Label>,
    pos: Pos,
    text: &str,
) -> Result<(), AllocError>
    ensures { OnOk result (places_of labels.new.items ≡ places_of labels.old.items ++ pos ∷ []) }
{
    let text = String::from_str(alloc, text)?;
    labels.push(Label { pos, text })?;
    Ok(())
}

// Adds the line behind a list that isn't ended where the next form seems to begin.
fn push_next_line(
    alloc: Global,
    labels: &mut Vec<Label>,
    text: &str,
    begin: Pos,
) -> Result<(), AllocError>
    ensures { OnOk result ((others : List Pos) × (places_of labels.new.items ≡ places_of labels.old.items ++ others)) }
{
    match line_with_list(text, begin.offset) {
        Some(offset) => {
            let file = begin.file;
            push_label(alloc, labels, Pos { file, offset }, NEXT_LINE)
        }
        None => Ok(()),
    }
}

// What is said of a line that begins with a list, inside a list that isn't ended.
const NEXT_LINE: &str = "this line begins a new form: is a `)` missing before it?";

// The words that may stand before a declaration's name.
const FLAGS: [&str; 4] = ["pure", "multi", "partial", "rec"];

// The words that a further condition of a rule may begin with.
const STATEMENTS: [&str; 2] = ["if-let", "if"];

// What is said of a mistake, without its places: with the word that may be meant where one of a few is expected.
fn meant(alloc: Global, text: &str, error: &TextError) -> Result<Report, AllocError> {
    let message = match &error.problem {
        Problem::Unclosed(_) => String::from_str(alloc, "this list isn't closed")?,
        _ => format!(in alloc; "{error}")?,
    };
    let mut report = Report::new(alloc, Level::Error, "syntax", message);
    let pos = error.pos;
    match &error.problem {
        Problem::Expected(Mistake::Flag) => {
            add_question_at(alloc, &mut report, text, pos, &FLAGS)?;
        }
        Problem::Expected(Mistake::Statement) => {
            add_question_at(alloc, &mut report, text, pos, &STATEMENTS)?;
        }
        Problem::UnknownDefinition(word) => {
            report.code = "unknown-definition";
            if let Some(known) = nearest(word) {
                let title = format!(in alloc; "Write `{known}`")?;
                let known = String::from_str(alloc, known)?;
                report.add_fix(title, Place::Name(pos, word.len()), known)?;
            }
        }
        Problem::Unclosed(_) => report.code = "unclosed-list",
        Problem::Expected(_) => {}
    }
    Ok(report)
}
