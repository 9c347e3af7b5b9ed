//! What the command answers to calls.

ghost use Rattle.std.specs.Prelude.{◌≡◌, IfOk, is_none, string_bytes};
ghost use Rattle.cranelift_isle.specs.Lowerings.{lowered_view};
ghost use Rattle.report_traces.specs.CallAnswers.{IsEntry};
ghost use Rattle.report_traces.specs.RunTexts.{answers_as_echo};
ghost use Rattle.app_command.specs.CallTexts.{IsTextOfRun, IsToldOfRun};

use app_words::request::Request;
use cranelift_isle::lower::Lowered;
use cranelift_isle::syntax::Def;
use report_print::lines::FileLines;
use report_traces::answers_file::{ReadAnswers, read_answers};
use report_traces::calls::{ReadCall, read_call};
use report_traces::faults::{TraceFault, fault_lines, fault_of_call};
use report_traces::replies::Replies;
use report_traces::run_text::run_text;
use report_traces::why::{Asking, why};
use std::alloc::{AllocError, Global};

/// What is told of a call, without the end of the last line.
#[derive(Drop)]
pub(crate) enum Told {
    /// What is asked for.
    Text(String),
    /// What is wrong.
    Wrong(String),
}

/// The outcome of the call that is asked for, below the tests of its runs where they are asked for.
pub(crate) fn ran(
    alloc: Global,
    asked: &Request<'_>,
    lines: &FileLines<'_>,
    lowered: &Lowered,
) -> Result<Told, AllocError>
    ensures { IfOk result (IsToldOfRun asked.now lowered.now) }
{
    match outcome(alloc, asked, lines, lowered) {
        Ok(text) => Ok(Told::Text(text)),
        Err(fault) => Ok(Told::Wrong(fault_lines(alloc, fault)?)),
    }
}

/// Whether the rules that are asked about are taken on the call.
pub(crate) fn told_why(
    alloc: Global,
    asked: &Request<'_>,
    lines: &FileLines<'_>,
    defs: &[Def],
    lowered: &Lowered,
) -> Result<Told, AllocError> {
    match reasons(alloc, asked, lines, defs, lowered) {
        Ok(text) => Ok(Told::Text(String::from_str(alloc, text.trim_end())?)),
        Err(fault) => Ok(Told::Wrong(fault_lines(alloc, fault)?)),
    }
}

// Whether the rules that are asked about are taken on the call.
fn reasons(
    alloc: Global,
    asked: &Request<'_>,
    lines: &FileLines<'_>,
    defs: &[Def],
    lowered: &Lowered,
) -> Result<String, TraceFault> {
    let replies = replies_of(alloc, asked, lines, lowered)?;
    let call = call_asked(alloc, asked, lowered)?;
    let asking = Asking {
        alloc,
        lines,
        defs,
        lowered,
        expand: asked.expand,
        replies: &replies,
    };
    why(asking, asked.rule, &call)
}

// The outcome of a call, below what happened in its runs where that is asked for.
fn outcome(
    alloc: Global,
    asked: &Request<'_>,
    lines: &FileLines<'_>,
    lowered: &Lowered,
) -> Result<String, TraceFault>
    ensures { IfOk result (λ text. IsTextOfRun asked.now lowered.now (string_bytes text)) }
{
    let replies = replies_of(alloc, asked, lines, lowered)?;
    let call = call_asked(alloc, asked, lowered)?;
    run_text(alloc, lines, lowered, &replies, asked.trace, &call)
}

fn call_asked<'a>(
    alloc: Global,
    asked: &Request<'_>,
    lowered: &'a Lowered,
) -> Result<ReadCall<'a>, TraceFault>
    ensures { IfOk result (λ call. IsEntry lowered.now (lowered_view call.entry.now)) }
{
    let text = call_text(alloc, &asked.call)?;
    match read_call(alloc, lowered, &text) {
        Ok(call) => Ok(call),
        Err(why) => Err(fault_of_call(alloc, why)),
    }
}

// What answers calls: the last file, where it has answers.
fn replies_of(
    alloc: Global,
    asked: &Request<'_>,
    lines: &FileLines<'_>,
    lowered: &Lowered,
) -> Result<Replies, TraceFault>
    ensures { IfOk result (λ replies. answers_as_echo replies ≡ is_none asked.now.answers) }
{
    if asked.answers.is_none() {
        return Ok(Replies::Echoes);
    }
    let number = lines.files().texts.len().saturating_sub(1);
    match read_answers(alloc, lowered, lines, (number, asked.expand))? {
        ReadAnswers::Lines(lines) => Ok(Replies::Lines(lines)),
        ReadAnswers::Wrong(why) => Err(TraceFault::Text(why)),
    }
}

// The text of a call whose words are these, in parentheses where the words have none.
fn call_text(alloc: Global, words: &[&str]) -> Result<String, AllocError> {
    let mut text = String::new(alloc);
    for (i, word) in words.iter().enumerate() {
        text.push_str(if i == 0 { "" } else { " " })?;
        text.push_str(word)?;
    }
    if text.starts_with('(') {
        return Ok(text);
    }
    format!(in alloc; "({text})")
}
