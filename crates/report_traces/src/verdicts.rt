//! Whether a rule is taken on a call, by the known answers.

ghost use Rattle.std.specs.Prelude.{◌≡◌, ◌&&◌, IfOk, Some, is_some, option_map};
ghost use Rattle.cranelift_isle.specs.RuleViews.{rule_view, rule_views};
ghost use Rattle.model.specs.rules.Choice as Choice;
ghost use Rattle.model.specs.rules.Choice.{chosen};
ghost use Rattle.model.specs.rules.Matching.{matches};
ghost use Rattle.run_terms.specs.RunViews.{arg_views};
ghost use Rattle.run_terms.specs.SourceViews.{meaning_in, source_program};
ghost use Rattle.report_traces.specs.RuleVerdicts.{is_above, rules_above, verdict_on, verdict_view, verdict_words};

use cranelift_isle::sema::Rule;
use run_terms::choose::matched;
use run_terms::externs::Externs;
use run_terms::source::RuleContext;
use run_terms::values::Value;
use std::alloc::AllocError;

/// What becomes of a rule of a term that isn't multi on a call.
#[derive(Clone, Copy)]
pub enum RuleVerdict<'a> {
    /// It is taken.
    Taken,
    /// It matches, and this rule comes first: it is the one of greatest priority that matches.
    PassedOver(&'a Rule),
    /// It doesn't match.
    Unmet,
}

/// What becomes of a rule of a term that isn't multi on arguments, under what is called. `rules` are those of a `TermEnv`.
///
/// # Errors
///
/// Where memory is refused, by the call or by what it calls.
pub fn verdict_on<'a, E: Externs>(
    source: &RuleContext<'_, E>,
    rules: &'a [Rule],
    rule: &Rule,
    args: &[Value],
) -> Result<RuleVerdict<'a>, AllocError>
    ensures { IfOk result (λ v. verdict_view v
        ≡ verdict_on (source_program source.now) (meaning_in E.functions source.now) (rule_views rules.now) (rule_view rule.now) (arg_views args.now)) }
{
    if matched(source, rule, args)?.is_none() {
        return Ok(RuleVerdict::Unmet);
    }
    match chosen_above(source, rules, rule, args)? {
        Some(first) => Ok(RuleVerdict::PassedOver(first)),
        None => Ok(RuleVerdict::Taken),
    }
}

// Of the rules that have a greater priority than one of their term, the matching one of greatest priority.
fn chosen_above<'a, E: Externs>(
    source: &RuleContext<'_, E>,
    rules: &'a [Rule],
    rule: &Rule,
    args: &[Value],
) -> Result<Option<&'a Rule>, AllocError>
    ensures { IfOk result (λ o. option_map (λ r. rule_view r.now) o
        ≡ chosen (source_program source.now) (meaning_in E.functions source.now) (rules_above (rule_view rule.now) (rule_views rules.now)) (arg_views args.now)) }
{
    let mut best = None;
    let mut at = rules.len();
    while at > 0 {
        at -= 1;
        let other = &rules[at];
        let takes = matches_above(source, rule, other, args)?;
        if takes {
            best = Some(higher(other, best));
        }
    }
    Ok(best)
}

// Whether a rule is one of another's term, has a greater priority, and matches.
fn matches_above<E: Externs>(
    source: &RuleContext<'_, E>,
    rule: &Rule,
    other: &Rule,
    args: &[Value],
) -> Result<bool, AllocError>
    ensures { IfOk result (λ b. b ≡ (is_above (rule_view rule.now) (rule_view other.now)
        && is_some (matches (source_program source.now) (meaning_in E.functions source.now) (rule_view other.now) (arg_views args.now)))) }
{
    if is_above(rule, other) {
        Ok(matched(source, other, args)?.is_some())
    } else {
        Ok(false)
    }
}

/// Whether a rule is one of another's term, with a greater priority.
pub fn is_above(rule: &Rule, other: &Rule) -> bool
    ensures { result ≡ is_above (rule_view rule.now) (rule_view other.now) }
{
    other.root_term.index() == rule.root_term.index() && rule.prio < other.prio
}

// The first of two rules, where its priority isn't lower.
fn higher<'a>(rule: &'a Rule, other: Option<&'a Rule>) -> &'a Rule
    ensures { Some (rule_view result.now) ≡ Choice.higher (rule_view rule.now) (option_map (λ r. rule_view r.now) other.entry) }
{
    match other {
        Some(other) => { if rule.prio < other.prio { other } else { rule } }
        None => rule,
    }
}

/// What is said of a rule first.
pub fn verdict_words(verdict: RuleVerdict<'_>) -> &'static str
    ensures { result.now ≡ verdict_words (verdict_view verdict.entry) }
{
    match verdict {
        RuleVerdict::Taken => ": taken",
        RuleVerdict::PassedOver(_) | RuleVerdict::Unmet => ": not taken",
    }
}
