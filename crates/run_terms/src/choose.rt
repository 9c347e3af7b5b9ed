//! The choice of a source rule: every rule of a term is tried, and the matching one of greatest priority is taken.

ghost use Rattle.std.specs.Prelude.{◌≡◌, ◌&&◌, IfOk, Some, is_some, map, option_map};
ghost use Rattle.std.specs.Bool.{◌==◌};
ghost use Rattle.std.specs.List.{filter};
ghost use Rattle.model.specs.rules.Choice as Choice;
ghost use Rattle.model.specs.rules.Outcome.{no_rule};
ghost use Rattle.model.specs.rules.Program.{flags_of, kind};
ghost use Rattle.model.specs.rules.RightSide.{outcome_of, result_content, right_side};
ghost use Rattle.model.specs.rules.Choice.{choice, chosen};
ghost use Rattle.model.specs.rules.Matching.{iflets_hold, matches};
ghost use Rattle.core_typed.specs.RuleViews.{iflet_view, rule_view, rule_views};
ghost use Rattle.run_terms.specs.RunViews.{arg_views, call_views, outcome_view};
ghost use Rattle.run_terms.specs.ValueViews.{content_view, value_view};
ghost use Rattle.model.specs.rules.Meaning.{total};
ghost use Rattle.run_terms.specs.SourceViews.{of_terms, source_program, meaning_in, evaluated_view, if_held, vars_view};

use crate::exprs::{Evaluated, eval, pure_value};
use crate::externs::Externs;
use crate::patterns::{each_holds, holds};
use crate::source::RuleContext;
use crate::state::{Call, Ending, Outcome, Trace};
use crate::values::{Content, Value};
use core_terms::{Term, TermKind};
use core_typed::{IfLet, Rule};
use core_types::{TermId, VarId};
use std::alloc::{AllocError, Global};

// Whether if-lets hold, in order: each has a value of which its pattern holds.
fn iflets_hold<E: Externs>(
    source: &RuleContext<'_, E>,
    iflets: &[IfLet],
    vars: &mut Vec<(VarId, Option<Value>)>,
) -> Result<bool, AllocError>
    ensures { IfOk result (λ b. if_held b (vars_view vars.new.items)
        ≡ iflets_hold (source_program source.now) (meaning_in E.functions source.now) (map iflet_view iflets.now) (vars_view vars.old.items)) }
{
    for iflet in iflets {
        match pure_value(source, &iflet.rhs, vars)? {
            Some(value) => {
                let held = holds(source, &iflet.lhs, &value, vars)?;
                if !held {
                    return Ok(false);
                }
            }
            None => return Ok(false),
        }
    }
    Ok(true)
}

/// The variables with which a rule matches arguments, where it matches them.
///
/// # Errors
///
/// Where memory is refused, by the call or by what it calls.
pub fn matched<E: Externs>(
    source: &RuleContext<'_, E>,
    rule: &Rule,
    args: &[Value],
) -> Result<Option<Vec<(VarId, Option<Value>)>>, AllocError>
    ensures { IfOk result (λ o. option_map (λ v. vars_view v.items) o
        ≡ matches (of_terms source.now.terms.now) (total (E.functions source.now.externs.now)) (rule_view rule.now) (arg_views args.now)) }
{
    let mut vars = Vec::new(source.alloc);
    let held = each_holds(source, &rule.args, args, &mut vars)?;
    if !held {
        return Ok(None);
    }
    let all = iflets_hold(source, &rule.iflets, &mut vars)?;
    if !all {
        return Ok(None);
    }
    Ok(Some(vars))
}

// Whether a rule is one of this term, and matches.
fn is_taken<E: Externs>(
    source: &RuleContext<'_, E>,
    rule: &Rule,
    term: TermId,
    args: &[Value],
) -> Result<bool, AllocError>
    ensures { IfOk result (λ b. b ≡ ((rule.now.root_term.0 == term.0)
        && is_some (matches (source_program source.now) (meaning_in E.functions source.now) (rule_view rule.now) (arg_views args.now)))) }
{
    if rule.root_term.index() == term.index() {
        Ok(matched(source, rule, args)?.is_some())
    } else {
        Ok(false)
    }
}

// The first of two rules, where its priority isn't lower.
fn higher<'a>(rule: &'a Rule, other: Option<&'a Rule>) -> &'a Rule
    ensures { Some (rule_view result.now) ≡ Choice.higher (rule_view rule.now) (option_map (λ r. rule_view r.now) other.entry) }
{
    match other {
        Some(other) => { if rule.prio < other.prio { other } else { rule } }
        None => rule,
    }
}

// The matching rule of a term of greatest priority; the first one of these.
fn chosen<'a, E: Externs>(
    source: &RuleContext<'_, E>,
    rules: &'a [Rule],
    term: TermId,
    args: &[Value],
) -> Result<Option<&'a Rule>, AllocError>
    ensures { IfOk result (λ o. option_map (λ r. rule_view r.now) o
        ≡ chosen (source_program source.now) (meaning_in E.functions source.now) (filter (λ r. r.root_term == term.0) (rule_views rules.now))
        (arg_views args.now)) }
{
    let mut best = None;
    let mut at = rules.len();
    while at > 0 {
        at -= 1;
        let rule = &rules[at];
        let taken = is_taken(source, rule, term, args)?;
        if taken {
            best = Some(higher(rule, best));
        }
    }
    Ok(best)
}

// Whether a term may give no value.
fn is_partial(terms: &[Term], term: TermId) -> bool
    ensures { result ≡ (flags_of (kind (of_terms terms.now) term.0)).partial }
{
    match terms.get(term.index()) {
        Some(entry) => match &entry.kind {
            TermKind::Decl { flags, .. } => flags.partial,
            TermKind::EnumVariant { .. } => false,
            TermKind::Struct => false,
        },
        None => false,
    }
}

// A result: of a partial term, one that is there.
fn result_content(alloc: Global, partial: bool, value: Value) -> Result<Content, AllocError>
    ensures { IfOk result (λ c. content_view c ≡ result_content partial (value_view value)) }
{
    if partial {
        Ok(Content::Just(Box::new(alloc, Content::One(value))?))
    } else {
        Ok(Content::One(value))
    }
}

// The outcome of a rule whose right side comes to this.
fn outcome_of(
    alloc: Global,
    partial: bool,
    evaluated: Evaluated,
    calls: Vec<Call>,
) -> Result<Outcome, AllocError>
    ensures { IfOk result (λ o. outcome_view o ≡ outcome_of partial (evaluated_view evaluated (call_views calls.items))) }
{
    let mut results = Vec::new(alloc);
    let ending = match evaluated {
        Evaluated::Gives(Some(value)) => {
            results.push(result_content(alloc, partial, value)?)?;
            Ending::Ended
        }
        Evaluated::Gives(None) => Ending::Failed,
        Evaluated::Ends => Ending::Failed,
    };
    Ok(Outcome {
        trace: Trace { calls, results },
        ending,
    })
}

// The outcome of a rule whose left side took these variables.
fn right_side<E: Externs>(
    source: &RuleContext<'_, E>,
    rule: &Rule,
    vars: &[(VarId, Option<Value>)],
) -> Result<Outcome, AllocError>
    ensures { IfOk result (λ o. outcome_view o
        ≡ right_side (source_program source.now) (meaning_in E.functions source.now) (rule_view rule.now) (vars_view vars.now)) }
{
    let mut calls = Vec::new(source.alloc);
    let evaluated = eval(source, &rule.rhs, vars, &mut calls)?;
    let partial = is_partial(source.terms, rule.root_term);
    outcome_of(source.alloc, partial, evaluated, calls)
}

fn no_rule(alloc: Global) -> Outcome
    ensures { outcome_view result ≡ no_rule }
{
    Outcome {
        trace: Trace {
            calls: Vec::new(alloc),
            results: Vec::new(alloc),
        },
        ending: Ending::RanThrough,
    }
}

/// What a term comes to on arguments by its source rules, under what is called: the matching rule of greatest priority is
/// taken, its right side gives the result or fails, and the impure calls that it makes are listed in order; or no rule
/// matches, and the outcome ran through. `terms` and `rules` are those of a `TermEnv`, of which the rules of `term` are
/// looked at, and `args` has one value for each argument.
///
/// Of a multi term this gives the outcome of the first rule that matches, and no further results: its tree's run gives all. A
/// call that answers `Many` has no single value here. So a rule with a multi extractor in its patterns, or with an if-let whose
/// value needs a multi call, never matches. A rule that is taken fails where its right side makes an impure multi call, or where
/// its result or an impure call needs a pure multi call.
///
/// Where calls are well-typed functions that tell constants apart, a tree that `lower` gives of a term that isn't multi runs
/// to the same outcome on well-typed arguments.
///
/// # Errors
///
/// Where memory is refused, by the choice or by what it calls.
pub fn choose<E: Externs>(
    alloc: Global,
    externs: &E,
    terms: &[Term],
    rules: &[Rule],
    term: TermId,
    args: &[Value],
) -> Result<Outcome, AllocError>
    ensures { IfOk result (λ o. outcome_view o
        ≡ choice (of_terms terms.now) (total (E.functions externs.now)) (filter (λ r. r.root_term == term.0) (rule_views rules.now)) (arg_views args.now)) }
{
    let source = RuleContext {
        alloc,
        externs,
        terms,
    };
    let Some(rule) = chosen(&source, rules, term, args)? else {
        return Ok(no_rule(alloc));
    };
    match matched(&source, rule, args)? {
        Some(vars) => right_side(&source, rule, &vars),
        None => Ok(no_rule(alloc)),
    }
}
