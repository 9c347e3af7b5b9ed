//! What calls are answered.

use crate::answers_file::{AnswerLine, Given, LineReply};
use crate::asked::{AskedCall, Count, Side, count_of};
use crate::echo::Echo;
use cranelift_isle::lower::Lowered;
use run_terms::externs::Externs;
use run_terms::values::{Content, Value, same_value, value_clones};
use std::alloc::{AllocError, Global};

/// What answers calls.
#[derive(Drop)]
pub enum Replies {
    /// Each call is answered in a fixed way, as an echo.
    Echoes,
    /// The lines of a file.
    Lines(Vec<AnswerLine>),
}

impl Replies {
    /// The answer to a call, where there is one. `before` is the number of impure calls that were made before.
    pub fn answer(
        &self,
        alloc: Global,
        lowered: &Lowered,
        asked: &AskedCall,
        before: usize,
    ) -> Result<Option<Content>, AllocError> {
        match self {
            Replies::Echoes => Ok(Some(echoed(alloc, lowered, asked, before)?)),
            Replies::Lines(lines) => written(alloc, lowered, lines, asked),
        }
    }
}

fn echoed(
    alloc: Global,
    lowered: &Lowered,
    asked: &AskedCall,
    before: usize,
) -> Result<Content, AllocError> {
    let echo = Echo {
        tyenv: &lowered.tyenv,
        terms: &lowered.termenv.terms,
    };
    match asked.side {
        Side::Extractor => match asked.args.first() {
            Some(value) => echo.extractor(alloc, asked.term, value),
            None => Ok(Content::Nothing),
        },
        Side::Constructor => {
            if asked.impure {
                echo.impure_call(alloc, asked.term, &asked.args, before)
            } else {
                echo.pure_call(alloc, asked.term, &asked.args)
            }
        }
    }
}

// What lines answer. The first one that fits counts; of a multi call all that fit.
fn written(
    alloc: Global,
    lowered: &Lowered,
    lines: &[AnswerLine],
    asked: &AskedCall,
) -> Result<Option<Content>, AllocError> {
    let Some(term) = lowered.termenv.terms.get(asked.term.index()) else {
        return Ok(None);
    };
    match count_of(term, asked.side) {
        Count::Many => all_written(alloc, lines, asked),
        Count::Optional => first_written(alloc, lines, asked, true),
        Count::One => first_written(alloc, lines, asked, false),
    }
}

// The answer of the first line that fits.
fn first_written(
    alloc: Global,
    lines: &[AnswerLine],
    asked: &AskedCall,
    optional: bool,
) -> Result<Option<Content>, AllocError> {
    for line in lines {
        if fits(line, asked) {
            let content = content_of(alloc, line, optional)?;
            return Ok(Some(content));
        }
    }
    Ok(None)
}

// The answers of all lines that fit.
fn all_written(
    alloc: Global,
    lines: &[AnswerLine],
    asked: &AskedCall,
) -> Result<Option<Content>, AllocError> {
    let mut contents = Vec::new(alloc);
    let mut there = false;
    for line in lines {
        if fits(line, asked) {
            there = true;
            push_reply(&mut contents, line)?;
        }
    }
    if there {
        Ok(Some(Content::Many(contents)))
    } else {
        Ok(None)
    }
}

// Adds the answer of a line, where it has one.
fn push_reply(contents: &mut Vec<Content>, line: &AnswerLine) -> Result<(), AllocError> {
    match &line.reply {
        LineReply::Nothing => Ok(()),
        LineReply::Outputs(values) => {
            let content = together(*values.allocator(), values)?;
            contents.push(content)?;
            Ok(())
        }
    }
}

// The answer of a line, marked as there where it may be missing.
fn content_of(alloc: Global, line: &AnswerLine, optional: bool) -> Result<Content, AllocError> {
    match &line.reply {
        LineReply::Nothing => Ok(Content::Nothing),
        LineReply::Outputs(values) => {
            let content = together(alloc, values)?;
            if optional {
                Ok(Content::Just(Box::new(alloc, content)?))
            } else {
                Ok(content)
            }
        }
    }
}

// Outputs as a content: one stands alone, none or several stand together.
fn together(alloc: Global, values: &[Value]) -> Result<Content, AllocError> {
    match values {
        [value] => Ok(Content::One(value.clone()?)),
        _ => Ok(Content::Parts(value_clones(alloc, values)?)),
    }
}

fn fits(line: &AnswerLine, asked: &AskedCall) -> bool {
    line.term == asked.term
        && line.side == asked.side
        && line.args.len() == asked.args.len()
        && all_fit(&line.args, &asked.args)
}

fn all_fit(given: &[Given], args: &[Value]) -> bool {
    for (given, arg) in given.iter().zip(args) {
        if !is_given(given, arg) {
            return false;
        }
    }
    true
}

fn is_given(given: &Given, arg: &Value) -> bool {
    match given {
        Given::Any => true,
        Given::Is(value) => same_value(value, arg),
    }
}
