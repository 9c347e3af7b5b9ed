//! Whether a rule is taken on a call, and why not.

ghost use Rattle.std.specs.Prelude.{◌≡◌, ◌++◌, ◌∷◌, IfOk, [], string_bytes};
ghost use Rattle.cranelift_isle.specs.RuleViews.{rule_view, rule_views};
ghost use Rattle.model.specs.rules.Meaning.{total};
ghost use Rattle.run_terms.specs.RunViews.{arg_views};
ghost use Rattle.run_terms.specs.SourceViews.{of_terms};
ghost use Rattle.report_traces.specs.RuleVerdicts.{verdict_on, verdict_view, verdict_words};
ghost use Rattle.report_traces.specs.RunAnswers.{answered_in};

use crate::calls::ReadCall;
use crate::demands::{Verdict, verdict_of};
use crate::faults::{TraceFault, fault_saying, no_answer_line};
use crate::replies::Replies;
use crate::runs::Runs;
use crate::templates::Sight;
use crate::verdicts::{RuleVerdict, verdict_on, verdict_words};
use cranelift_isle::lower::{Lowered, LoweredTerm};
use cranelift_isle::sema;
use cranelift_isle::syntax::{self, Def, Pos};
use cranelift_isle::trie_again::Rule;
use report_names::names::rule_at;
use report_print::lines::FileLines;
use report_queries::names::term_name;
use report_queries::premises::is_multi;
use report_queries::rules::typed_rule;
use report_ways::explanation::{comes_first, push_title};
use report_ways::indented_lines::push_line;
use report_ways::meant_rules::Called;
use report_witness::conditions::{Conditions, conditions_of};
use run_terms::source::RuleContext;
use run_terms::values::Value;
use std::alloc::{AllocError, Global};

// How many answers the demands of a rule may need.
const MOST_ANSWERS: usize = 20000;

/// What rules are looked for in, and what answers their calls.
#[derive(Clone, Copy)]
pub struct Asking<'a, 'f> {
    /// Where memory is asked of.
    pub alloc: Global,
    /// The files of the definitions.
    pub lines: &'a FileLines<'f>,
    /// The definitions.
    pub defs: &'a [Def],
    /// Their trees.
    pub lowered: &'a Lowered,
    /// Whether internal extractors are replaced by their templates.
    pub expand: bool,
    /// What answers calls.
    pub replies: &'a Replies,
}

/// Says of each rule of a term that is so called (`Called::new`) whether it is taken on a call: if not, the first of its
/// demands that isn't met, or the rule that comes first.
///
/// # Errors
///
/// There is no such rule, or calls that demands need have no answer. Then the other rules are told of, and below them each such call
/// once.
pub fn why<'a, 'f>(
    asking: Asking<'a, 'f>,
    called: &str,
    call: &ReadCall<'a>,
) -> Result<String, TraceFault> {
    let alloc = asking.alloc;
    let found = Called::new(alloc, asking.lines.files(), called)?;
    let mut runs = Runs::new(alloc, asking.lowered, asking.lines, asking.replies, false);
    let mut out = String::new(alloc);
    let mut unanswered = Vec::new(alloc);
    for rule in &call.entry.rules.rules {
        if let Some(written) = rule_at(asking.defs, rule.pos) {
            if found.is(asking.lines.files(), written) {
                push_title(asking.lines, asking.lowered, rule, &mut out)?;
                let said = said_of(asking, &mut runs, call, (rule, written));
                push_said(said, &mut out, &mut unanswered)?;
            }
        }
    }
    if out.is_empty() {
        let env = &asking.lowered.termenv;
        let term = term_name(&asking.lowered.tyenv, env, call.entry.id).unwrap_or("?");
        return Err(fault_saying(format!(in alloc;
            "error: no rule of `{term}` is called `{called}`"
        )));
    }
    if unanswered.is_empty() {
        return Ok(out);
    }
    Err(fault_saying(with_unanswered(alloc, out, &unanswered)))
}

// Adds what is said of a rule. A call that has no answer is noted, unless it is already.
fn push_said(
    said: Result<String, TraceFault>,
    out: &mut String,
    unanswered: &mut Vec<String>,
) -> Result<(), TraceFault> {
    match said {
        Ok(said) => out.push_str(&said)?,
        Err(TraceFault::NoAnswer(call)) => {
            out.push_str(": not known\n")?;
            if !has_text(unanswered, &call) {
                unanswered.push(call)?;
            }
        }
        Err(fault) => return Err(fault),
    }
    Ok(())
}

fn has_text(texts: &[String], text: &str) -> bool {
    texts.iter().any(|other| other.as_str() == text)
}

// What is said of rules, and below it each call that has no answer.
fn with_unanswered(
    alloc: Global,
    mut out: String,
    unanswered: &[String],
) -> Result<String, AllocError> {
    for (number, call) in unanswered.iter().enumerate() {
        out.push_str(if number == 0 { "" } else { "\n" })?;
        let line = no_answer_line(alloc, call)?;
        out.push_str(&line)?;
    }
    Ok(out)
}

// What is said of a rule behind its title.
fn said_of<'a, 'f>(
    asking: Asking<'a, 'f>,
    runs: &mut Runs<'a, 'f>,
    call: &ReadCall<'a>,
    (rule, written): (&Rule, &syntax::Rule),
) -> Result<String, TraceFault> {
    let alloc = asking.alloc;
    let conditions = conditions_of(alloc, written)?;
    if is_multi(&asking.lowered.termenv, call.entry.id) {
        return said_of_multi(asking, runs, call, rule, &conditions);
    }
    let judged = settled(asking, runs, &conditions, &call.args)?;
    if let Verdict::Met = &judged {
        learn_above(asking, runs, call, rule)?;
    }
    let Some(typed) = typed_rule(&asking.lowered.termenv, rule.id) else {
        return Err(differ(alloc));
    };
    let verdict = verdict_by_answers(alloc, asking.lowered, runs, typed, &call.args)?;
    let reasons = reasons_for(asking, call.entry, &conditions, verdict, judged)?;
    let said = text_saying(alloc, verdict, &reasons)?;
    Ok(said)
}

// What becomes of a rule of a term that isn't multi on arguments, by the answers that are known.
fn verdict_by_answers<'a>(
    alloc: Global,
    lowered: &'a Lowered,
    runs: &Runs<'_, '_>,
    rule: &sema::Rule,
    args: &[Value],
) -> Result<RuleVerdict<'a>, AllocError>
    ensures { IfOk result (λ v. verdict_view v ≡ verdict_on (of_terms lowered.now.termenv.terms.items) (total (answered_in lowered.now runs.now []))
        (rule_views lowered.now.termenv.rules.items) (rule_view rule.now) (arg_views args.now)) }
{
    let answered = runs.answered(lowered, &[]);
    let env = &lowered.termenv;
    let source = RuleContext {
        alloc,
        externs: &answered,
        terms: &env.terms,
    };
    verdict_on(&source, &env.rules, rule, args)
}

// What is said of a rule of which this becomes, for these reasons.
fn text_saying(alloc: Global, verdict: RuleVerdict<'_>, reasons: &str) -> Result<String, AllocError>
    ensures { IfOk result (λ text. string_bytes text ≡ verdict_words (verdict_view verdict.entry) ++ (10 ∷ reasons.now)) }
{
    let words = verdict_words(verdict);
    format!(in alloc; "{words}\n{reasons}")
}

// The lines below what is said of a rule: its demands as they were judged, or the rule that comes first.
fn reasons_for(
    asking: Asking<'_, '_>,
    entry: &LoweredTerm,
    conditions: &Conditions<'_>,
    verdict: RuleVerdict<'_>,
    judged: Verdict,
) -> Result<String, TraceFault> {
    let alloc = asking.alloc;
    match (verdict, judged) {
        (RuleVerdict::Taken, Verdict::Met) => Ok(String::new(alloc)),
        (RuleVerdict::PassedOver(first), Verdict::Met) => comes_before(asking, entry, first),
        (RuleVerdict::Unmet, Verdict::Unmet(met, reason)) => {
            Ok(unmet_lines(alloc, conditions, met, &reason)?)
        }
        _ => Err(differ(alloc)),
    }
}

fn differ(alloc: Global) -> TraceFault {
    fault_saying(String::from_str(alloc, "error[internal]: the demands and the rule differ"))
}

// That a rule comes first.
fn comes_before(
    asking: Asking<'_, '_>,
    entry: &LoweredTerm,
    first: &sema::Rule,
) -> Result<String, TraceFault> {
    for rule in &entry.rules.rules {
        if rule.id == first.id {
            let mut out = String::from_str(asking.alloc, "  ")?;
            push_title(asking.lines, asking.lowered, rule, &mut out)?;
            out.push_str(" matches too, and comes first\n")?;
            return Ok(out);
        }
    }
    Err(differ(asking.alloc))
}

// The demands that are met, and the first one that isn't.
fn unmet_lines(
    alloc: Global,
    conditions: &Conditions<'_>,
    met: usize,
    reason: &str,
) -> Result<String, AllocError> {
    let mut out = String::new(alloc);
    for (number, demand) in conditions.demands.iter().enumerate() {
        let text = demand.text.as_str();
        if number < met && !text.is_empty() {
            let line = format!(in alloc; "met: {text}")?;
            push_line(&mut out, 2, &line)?;
        }
        if number == met {
            let text = if text.is_empty() {
                "a call gives a value"
            } else {
                text
            };
            let line = format!(in alloc; "not met: {text}: {reason}")?;
            push_line(&mut out, 2, &line)?;
        }
    }
    Ok(out)
}

// Makes the answers known that tell which rules above one match: of all that a rule needs which may come first.
fn learn_above<'a, 'f>(
    asking: Asking<'a, 'f>,
    runs: &mut Runs<'a, 'f>,
    call: &ReadCall<'a>,
    rule: &Rule,
) -> Result<(), TraceFault> {
    let mut first: Option<&Rule> = None;
    for other in &call.entry.rules.rules {
        if comes_first(rule, other) && is_higher(other, first) {
            if meets_all(asking, runs, other, &call.args)? {
                first = Some(other);
            }
        }
    }
    Ok(())
}

// Whether a rule has a greater priority than another one, where there is one.
fn is_higher(rule: &Rule, other: Option<&Rule>) -> bool {
    match other {
        Some(other) => rule.prio > other.prio,
        None => true,
    }
}

fn meets_all<'a, 'f>(
    asking: Asking<'a, 'f>,
    runs: &mut Runs<'a, 'f>,
    rule: &Rule,
    args: &[Value],
) -> Result<bool, TraceFault> {
    let Some(written) = rule_at(asking.defs, rule.pos) else {
        return Ok(false);
    };
    let conditions = conditions_of(asking.alloc, written)?;
    match settled(asking, runs, &conditions, args)? {
        Verdict::Met => Ok(true),
        Verdict::Unmet(..) | Verdict::Asks(_) => Ok(false),
    }
}

// What is said of a rule of a multi term: a run tells whether it is taken.
fn said_of_multi<'a, 'f>(
    asking: Asking<'a, 'f>,
    runs: &mut Runs<'a, 'f>,
    call: &ReadCall<'a>,
    rule: &Rule,
    conditions: &Conditions<'_>,
) -> Result<String, TraceFault> {
    let alloc = asking.alloc;
    let ended = runs.run(asking.lowered, call.entry, &call.args)?;
    if has_place(&ended.taken, rule.pos) {
        return Ok(text_saying(alloc, RuleVerdict::Taken, "")?);
    }
    let reasons = match settled(asking, runs, conditions, &call.args)? {
        Verdict::Unmet(met, reason) => unmet_lines(alloc, conditions, met, &reason)?,
        Verdict::Met | Verdict::Asks(_) => String::from_str(
            alloc,
            "  no answers of its multi calls meet all demands together\n",
        )?,
    };
    Ok(text_saying(alloc, RuleVerdict::Unmet, &reasons)?)
}

fn has_place(places: &[Pos], pos: Pos) -> bool {
    places.iter().any(|other| *other == pos)
}

// Whether values meet demands: all answers that this needs are made known.
fn settled<'a, 'f>(
    asking: Asking<'a, 'f>,
    runs: &mut Runs<'a, 'f>,
    conditions: &Conditions<'_>,
    args: &[Value],
) -> Result<Verdict, TraceFault> {
    for _ in 0..MOST_ANSWERS {
        match judged(asking, runs, conditions, args)? {
            Verdict::Asks(asked) => runs.learn(asked)?,
            Verdict::Met => return Ok(Verdict::Met),
            Verdict::Unmet(met, reason) => return Ok(Verdict::Unmet(met, reason)),
        }
    }
    let alloc = asking.alloc;
    Err(fault_saying(format!(in alloc; "error[limit]: more than {MOST_ANSWERS} calls")))
}

// Whether values meet demands, by the answers that are known.
fn judged(
    asking: Asking<'_, '_>,
    runs: &Runs<'_, '_>,
    conditions: &Conditions<'_>,
    args: &[Value],
) -> Result<Verdict, AllocError> {
    let answered = runs.answered(asking.lowered, &[]);
    let sight = Sight {
        alloc: asking.alloc,
        lowered: asking.lowered,
        answered: &answered,
        expand: asking.expand,
    };
    verdict_of(sight, conditions, args)
}
