//! The positions that an error names, and the rules there.

ghost use Rattle.std.specs.Prelude.{◌≡◌, ◌++◌, map, IfOk, OnOk};
ghost use Rattle.cranelift_isle.specs.ErrorViews.{error_view, span_starts};
ghost use Rattle.cranelift_isle.specs.SyntaxViews.{position};
ghost use Rattle.cranelift_isle.specs.RuleViews.{rule_views};
ghost use Rattle.report_queries.specs.Lookups.{refusal_positions, rule_numbers_at, rule_numbers_at_each};

use cranelift_isle::sema::{RuleId, TermEnv};
use cranelift_isle::syntax::{Error, Pos, Span};
use std::alloc::{AllocError, Global};

/// The positions that an error names, where each span begins, in the order in which its text has them: of shadowed rules
/// these, and then their mask.
///
/// # Errors
///
/// Where memory is refused.
pub fn positions(alloc: Global, error: &Error) -> Result<Vec<Pos>, AllocError>
    ensures { IfOk result (λ v. map position v.items ≡ refusal_positions (error_view error.now)) }
{
    match error {
        Error::TypeError { span, .. }
        | Error::UnreachableError { span, .. }
        | Error::LimitError { span, .. } => Ok(vec![in alloc; span.from]?),
        Error::OverlapError { rules, .. } => starts(alloc, rules),
        Error::ShadowedError { shadowed, mask } => {
            let mut places = starts(alloc, shadowed)?;
            places.push(mask.from)?;
            Ok(places)
        }
    }
}

fn starts(alloc: Global, spans: &[Span]) -> Result<Vec<Pos>, AllocError>
    ensures { IfOk result (λ v. map position v.items ≡ span_starts spans.now) }
{
    let mut places = Vec::new(alloc);
    for span in spans {
        places.push(span.from)?;
    }
    Ok(places)
}

/// The rules at a position, in rule order: one, where no two rules stand at one position.
///
/// # Errors
///
/// Where memory is refused.
pub fn rules_at(alloc: Global, termenv: &TermEnv, pos: Pos) -> Result<Vec<RuleId>, AllocError>
    ensures { IfOk result (λ v. map (λ r. r.0) v.items ≡ rule_numbers_at (rule_views termenv.now.rules.items) (position pos)) }
{
    let mut found = Vec::new(alloc);
    for rule in &termenv.rules {
        if rule.pos == pos {
            found.push(rule.id)?;
        }
    }
    Ok(found)
}

/// The rules at each position that an error names, in the order of these.
///
/// # Errors
///
/// Where memory is refused.
pub fn rules_named(
    alloc: Global,
    termenv: &TermEnv,
    error: &Error,
) -> Result<Vec<RuleId>, AllocError>
    ensures { IfOk result (λ v. map (λ r. r.0) v.items ≡ rule_numbers_at_each (rule_views termenv.now.rules.items) (refusal_positions (error_view error.now))) }
{
    let places = positions(alloc, error)?;
    let named = rules_at_each(alloc, termenv, &places)?;
    Ok(named)
}

fn rules_at_each(
    alloc: Global,
    termenv: &TermEnv,
    places: &[Pos],
) -> Result<Vec<RuleId>, AllocError>
    ensures { IfOk result (λ v. map (λ r. r.0) v.items ≡ rule_numbers_at_each (rule_views termenv.now.rules.items) (map position places.now)) }
{
    let mut named = Vec::new(alloc);
    for pos in places {
        push_rules_at(&mut named, termenv, *pos)?;
    }
    Ok(named)
}

fn push_rules_at(found: &mut Vec<RuleId>, termenv: &TermEnv, pos: Pos) -> Result<(), AllocError>
    ensures { OnOk result (map (λ r. r.0) found.new.items ≡ map (λ r. r.0) found.old.items ++ rule_numbers_at (rule_views termenv.now.rules.items) (position pos)) }
{
    for rule in &termenv.rules {
        if rule.pos == pos {
            found.push(rule.id)?;
        }
    }
    Ok(())
}
