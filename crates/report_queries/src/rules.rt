//! Rules and entries of terms by id.

ghost use Rattle.std.specs.Prelude.{◌≡◌, option_map, slice_get};
ghost use Rattle.std.specs.List.{find};
ghost use Rattle.cranelift_isle.specs.Lowerings.{lowered_view, lowered_views};
ghost use Rattle.cranelift_isle.specs.SyntaxViews.{position};
ghost use Rattle.cranelift_isle.specs.SiteViews.{set_rule_view, set_view};
ghost use Rattle.cranelift_isle.specs.TreeViews.{check_view};
ghost use Rattle.report_queries.specs.Lookups.{entry_of, is_behind, returned_rule};

use cranelift_isle::lower::{Lowered, LoweredTerm};
use cranelift_isle::sema::{Rule, RuleId, TermEnv, TermId};
use cranelift_isle::serialize::{ControlFlow, EvalStep};
use cranelift_isle::syntax::Pos;
use cranelift_isle::trie_again::{self, BindingId, RuleSet};

/// The typed rule of an id, or None where the id is no rule's.
pub fn typed_rule(termenv: &TermEnv, id: RuleId) -> Option<&Rule>
    ensures { option_map (λ r. r.now) result ≡ slice_get termenv.now.rules.items id.0 }
{
    termenv.rules.get(id.index())
}

/// The entry of a term: its set and its tree. None where the term has no rules.
pub fn lowered_term(lowered: &Lowered, id: TermId) -> Option<&LoweredTerm>
    ensures { option_map (λ t. lowered_view t.now) result ≡ entry_of id.0 (lowered_views lowered.now.terms.items) }
{
    for term in &lowered.terms {
        if term.id == id {
            return Some(term);
        }
    }
    None
}

/// The rule of a set that a return of its tree takes, by the position and the result that the return names: the first such
/// rule. None where no rule has both.
pub fn rule_behind(set: &RuleSet, pos: Pos, result_site: BindingId) -> Option<&trie_again::Rule>
    ensures { option_map (λ r. set_rule_view r.now) result ≡ find (is_behind (position pos) result_site) (set_view set.now).rules }
{
    for rule in &set.rules {
        if rule.pos == pos && rule.result == result_site {
            return Some(rule);
        }
    }
    None
}

/// The rule of a set that a step takes: the one behind a return (`rule_behind`). None where the step is no return.
pub fn rule_returned<'a>(set: &'a RuleSet, step: &EvalStep) -> Option<&'a trie_again::Rule>
    ensures { option_map (λ r. set_rule_view r.now) result ≡ returned_rule (set_view set.now).rules (check_view step.now.check) }
{
    match &step.check {
        ControlFlow::Return { pos, result } => rule_behind(set, *pos, *result),
        ControlFlow::Match { .. } => None,
        ControlFlow::Equal { .. } => None,
        ControlFlow::Loop { .. } => None,
    }
}
