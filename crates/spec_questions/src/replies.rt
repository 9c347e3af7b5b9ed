//! What a solver says to a question with one `check-sat`, and `get-value` behind it.

ghost use Rattle.std.specs.Prelude.{IfOk, IsSome, codes};
ghost use Rattle.std.specs.Str.{trim_start};
ghost use Rattle.spec_questions.specs.Replies.{BeginsText, HasValues, IsSaidIn};

use crate::tokens::{Token, tokens_of};
use crate::values::{list_in, values_in};
use std::alloc::{AllocError, Global};

// So many characters of what a solver wrote are told, where it isn't an answer.
const MOST_TOLD: usize = 100;

/// What a solver says.
pub enum Reply {
    /// `unsat`: the facts of the question are never true together.
    Unsat,
    /// `sat`: they can be. The values of the formulas, in their order, as a person reads them: words below 65,536 in decimal
    /// digits, others in hexadecimal ones.
    Sat(Vec<String>),
    /// Anything else, which counts for nothing: how it begins, in one line.
    Other(String),
}

impl Drop for Reply {
    fn drop(self) {
        match self {
            Reply::Unsat => {}
            Reply::Sat(_) => {}
            Reply::Other(_) => {}
        }
    }
}

/// What a solver wrote that was asked one question, and then for the values of so many formulas, if any.
///
/// `unsat` is taken only if it is the first word, and nothing follows but one error: that there are no values.
pub fn reply_in(alloc: Global, text: &str, count: usize) -> Result<Reply, AllocError>
    // behind white space `unsat` is the first word, or `sat`
    ensures said { IfOk result (IsSaidIn (trim_start text.now)) }
    // each formula has its value
    ensures values { IfOk result (HasValues count) }
{
    let said = text.trim_start();
    if let Some(behind) = said.strip_prefix("unsat") {
        if has_no_values(alloc, behind, count)? {
            return Ok(Reply::Unsat);
        }
    }
    other_reply(alloc, said, count)
}

// Whether nothing stands behind `unsat`, or one error where values were asked for.
fn has_no_values(alloc: Global, behind: &str, count: usize) -> Result<bool, AllocError> {
    let tokens = tokens_of(alloc, behind)?;
    Ok(tokens.is_empty() || count > 0 && is_error(&tokens))
}

// Whether tokens are one error.
fn is_error(tokens: &[Token]) -> bool {
    match list_in(tokens) {
        Some([Token::Word(word), ..]) => word.as_str() == "error",
        _ => false,
    }
}

// Any other reply than `unsat`.
fn other_reply(alloc: Global, said: &str, count: usize) -> Result<Reply, AllocError>
    ensures said { IfOk result (IsSaidIn said.now) }
    ensures values { IfOk result (HasValues count) }
{
    match values_where_sat(alloc, said)? {
        Some(values) if values.len() == count => Ok(Reply::Sat(values)),
        _ => Ok(Reply::Other(beginning(alloc, said)?)),
    }
}

// The values of formulas that a solver gives behind `sat`.
fn values_where_sat(alloc: Global, said: &str) -> Result<Option<Vec<String>>, AllocError>
    ensures { IfOk result (λ found. IsSome found → BeginsText (codes "sat") said.now) }
{
    match said.strip_prefix("sat") {
        Some(behind) => values_in(alloc, &tokens_of(alloc, behind)?),
        None => Ok(None),
    }
}

// How a text begins, in one line; `nothing` where there is no text.
fn beginning(alloc: Global, text: &str) -> Result<String, AllocError> {
    let text = text.trim();
    if text.is_empty() {
        return String::from_str(alloc, "nothing");
    }
    let mut line = String::new(alloc);
    for c in text.chars().take(MOST_TOLD) {
        line.push(if c.is_control() { ' ' } else { c })?;
    }
    if line.len() < text.len() {
        line.push_str(" ..")?;
    }
    Ok(line)
}
