//! Calls of terms with rules.

ghost use Rattle.std.specs.Prelude.{◌≡◌, ◌++◌, false, IfOk, OnOk, string_bytes};
ghost use Rattle.cranelift_isle.specs.Lowerings.{lowered_view};
ghost use Rattle.cranelift_isle.specs.TermViews.{term_views};
ghost use Rattle.cranelift_isle.specs.Envs.{constant_at};
ghost use Rattle.run_terms.specs.RunViews.{arg_views};
ghost use Rattle.report_traces.specs.Echoes.{echoes};
ghost use Rattle.report_traces.specs.CallAnswers.{IsEntry, answer_by, answer_words, by_source_rules, choice_by_echoes, echoes_in, outcome_under};
ghost use Rattle.report_traces.specs.OutcomeTexts.{names_in, outcome_words};

use crate::echo::Echo;
use crate::echoed::push_echoed;
use crate::outcomes::outcome_text;
use crate::values::{Unanswered, term_of, values_of, wrong};
use cranelift_isle::lower::{Lowered, LoweredTerm};
use cranelift_isle::sema::TermId;
use cranelift_isle::syntax::{Def, Expr, Ident};
use report_queries::premises::is_multi;
use report_queries::rules::lowered_term;
use run_terms::choose::choose;
use run_terms::run::run;
use run_terms::values::Value;
use std::alloc::{AllocError, Global};
use text_reader::errors::{ReadFault, TextError};
use text_reader::read;

// What stands before a call where it is read: it is the right side of a rule.
const BEFORE: &str = "(rule (run) ";

/// A call that was read: what a term with rules is called on.
#[derive(Drop)]
pub struct ReadCall<'a> {
    /// The term.
    pub entry: &'a LoweredTerm,
    /// A value for each of its arguments.
    pub args: Vec<Value>,
}

/// Reads a call, as `(f 1 (T.A 2))`.
///
/// # Errors
///
/// What is wrong with the call, or that memory was refused.
pub fn read_call<'a>(
    alloc: Global,
    lowered: &'a Lowered,
    call: &str,
) -> Result<ReadCall<'a>, Unanswered>
    // what is called has rules
    ensures { IfOk result (λ called. IsEntry lowered.now (lowered_view called.entry.now)) }
{
    let text = format!(in alloc; "{BEFORE}{call}\n)")?;
    match read(alloc, 0, &text) {
        Ok(defs) => match call_in(&defs) {
            Some((name, args)) => call_of(alloc, lowered, name, args),
            None => Err(wrong(String::from_str(
                alloc,
                "this isn't a call of a term, such as (f 1 2)",
            ))),
        },
        Err(ReadFault::Text(error)) => Err(unread(alloc, call, &error)),
        Err(ReadFault::Memory(_)) => Err(Unanswered::Memory),
    }
}

/// The outcome of a term of lowered definitions on arguments in words: its tree is run by echoes. If the term isn't multi and its
/// source rules have another outcome in words, that follows. A line before names the terms that its rules call, if they call any.
///
/// # Errors
///
/// Where memory is refused.
pub fn answer_to(
    alloc: Global,
    lowered: &Lowered,
    entry: &LoweredTerm,
    args: &[Value],
) -> Result<String, AllocError>
    ensures { IfOk result (λ text. string_bytes text ≡ answer_words lowered.now (lowered_view entry.now) (arg_views args.now)) }
{
    let multi = is_multi(&lowered.termenv, entry.id);
    let mut text = String::new(alloc);
    push_echoed(&mut text, lowered, &entry.rules.bindings)?;
    let line = answer_by(alloc, lowered, multi, entry, args)?;
    text.push_str(&line)?;
    Ok(text)
}

// That outcome, of a term that is multi, or isn't.
fn answer_by(
    alloc: Global,
    lowered: &Lowered,
    multi: bool,
    entry: &LoweredTerm,
    args: &[Value],
) -> Result<String, AllocError>
    ensures { IfOk result (λ text. string_bytes text ≡ answer_by multi lowered.now (lowered_view entry.now) (arg_views args.now)) }
{
    let mut told = tree_text(alloc, lowered, multi, entry, args)?;
    if multi {
        return Ok(told);
    }
    let chosen = choice_text(alloc, lowered, entry.id, args)?;
    push_choice(&mut told, &chosen)?;
    Ok(told)
}

// The outcome of a term's tree by echoes in words.
fn tree_text(
    alloc: Global,
    lowered: &Lowered,
    multi: bool,
    entry: &LoweredTerm,
    args: &[Value],
) -> Result<String, AllocError>
    ensures { IfOk result (λ text. string_bytes text
        ≡ outcome_words (names_in lowered.now) multi (outcome_under (echoes_in lowered.now) multi (lowered_view entry.now) (arg_views args.now))) }
{
    let echo = echo_in(lowered);
    let outcome = run(alloc, &echo, &entry.rules, &entry.block, args, multi)?;
    outcome_text(alloc, lowered, multi, &outcome)
}

// The outcome of a term that isn't multi by its source rules in words.
fn choice_text(
    alloc: Global,
    lowered: &Lowered,
    term: TermId,
    args: &[Value],
) -> Result<String, AllocError>
    ensures { IfOk result (λ text. string_bytes text ≡ outcome_words (names_in lowered.now) false (choice_by_echoes lowered.now term.0 (arg_views args.now))) }
{
    let env = &lowered.termenv;
    let echo = echo_in(lowered);
    let outcome = choose(alloc, &echo, &env.terms, &env.rules, term, args)?;
    outcome_text(alloc, lowered, false, &outcome)
}

// Adds the outcome by the source rules in words, if it differs from the text so far.
fn push_choice(told: &mut String, chosen: &str) -> Result<(), AllocError>
    ensures { OnOk result (string_bytes told.new ≡ string_bytes told.old ++ by_source_rules (string_bytes told.old) chosen.now) }
{
    if chosen == told.as_str() {
        return Ok(());
    }
    write!(told, "; by the source rules {chosen}")
}

// What answers calls as echoes.
fn echo_in(lowered: &Lowered) -> Echo<'_>
    ensures { echoes (constant_at result.tyenv.now) (term_views result.terms.now) ≡ echoes_in lowered.now }
{
    Echo {
        tyenv: &lowered.tyenv,
        terms: &lowered.termenv.terms,
    }
}

fn unread(alloc: Global, call: &str, error: &TextError) -> Unanswered {
    let place = error.pos.offset.saturating_sub(BEFORE.len());
    let column = place.min(call.len()).saturating_add(1);
    wrong(format!(in alloc; "at column {column}: {error}"))
}

// The call that is the right side of the one rule.
fn call_in(defs: &[Def]) -> Option<(&Ident, &[Expr])> {
    let [Def::Rule(rule)] = defs else {
        return None;
    };
    if !rule.iflets.is_empty() {
        return None;
    }
    match &rule.expr {
        Expr::Term { sym, args, .. } => Some((sym, args)),
        _ => None,
    }
}

fn call_of<'a>(
    alloc: Global,
    lowered: &'a Lowered,
    name: &Ident,
    args: &[Expr],
) -> Result<ReadCall<'a>, Unanswered>
    ensures { IfOk result (λ called. IsEntry lowered.now (lowered_view called.entry.now)) }
{
    let Some(term) = term_of(lowered, name) else {
        return Err(wrong(format!(in alloc; "no term is called `{}`", name.0)));
    };
    let Some(entry) = lowered_term(lowered, term.id) else {
        return Err(wrong(format!(in alloc; "`{}` has no rules", name.0)));
    };
    let args = values_of(alloc, lowered, term, args)?;
    Ok(ReadCall { entry, args })
}
