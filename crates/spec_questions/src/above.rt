//! That no rule of greater priority matches.

use crate::asking::{Asked, Asker};
use crate::faults::NoQuestion;
use crate::shown::site_in;
use core_rule_sets::trie_again::{Binding, BindingId, Constraint, Overlap, Rule, RuleSet};
use core_syntax::syntax::Pos;
use cranelift_isle::lower::Lowered;
use cranelift_isle::sema::{RuleId, TermId};
use spec_asked::above::{is_plain_above, other_tests};
use spec_calls::conditions::Condition;
use spec_cases::arena::Formulas;
use spec_cases::formulas::Fact;
use spec_steps::demands::Tested;
use spec_steps::excluding::not_all_met;
use std::alloc::{AllocError, Global};

/// The rules that come before a rule where both match, and that "no rule of greater priority matches" leaves out, by their places.
pub fn left_out_above(
    alloc: Global,
    lowered: &Lowered,
    term: TermId,
    rule: RuleId,
) -> Result<Vec<Pos>, AllocError> {
    for known in &lowered.terms {
        if known.id == term {
            return left_out_in(alloc, &known.rules, rule);
        }
    }
    Ok(Vec::new(alloc))
}

// Those of the rules of its term.
fn left_out_in(alloc: Global, set: &RuleSet, rule: RuleId) -> Result<Vec<Pos>, AllocError> {
    let mut places = Vec::new(alloc);
    if let Some(below) = set.rules.iter().find(|known| known.id == rule) {
        for above in &set.rules {
            if is_above(above, below) && !is_told_apart(set, above, below) {
                places.push(above.pos)?;
            }
        }
    }
    Ok(places)
}

// Whether a rule comes before another one, and may match where it does.
fn is_above(rule: &Rule, below: &Rule) -> bool {
    rule.prio > below.prio && rule.may_overlap(below) != Overlap::No
}

// Whether a rule excludes another one where its tests are met: it asks for no equal sites, and what it asks beside the other rule are
// variants, structs and truth values of sites that surely hold a value.
fn is_told_apart(set: &RuleSet, rule: &Rule, below: &Rule) -> bool {
    rule.classes().is_empty()
        && rule.constraints().iter().all(|(site, asked)| is_own(below, *site, *asked)
            || (is_decided(*asked) && is_sure(&set.bindings, *site)))
}

// Whether a rule asks this of a site.
fn is_own(rule: &Rule, site: BindingId, asked: Constraint) -> bool {
    rule.get_constraint(site) == Some(asked)
}

// Whether what a site stands for decides a constraint: different values may stand for one number, and nobody knows of other
// calls whether they answer.
fn is_decided(asked: Constraint) -> bool {
    match asked {
        Constraint::Variant { .. } | Constraint::Struct { .. } | Constraint::ConstBool { .. } => {
            true
        }
        Constraint::ConstInt { .. } | Constraint::ConstPrim { .. } | Constraint::Some => false,
    }
}

// Whether a site is an argument, or a part of one.
fn is_sure(bindings: &[Binding], site: BindingId) -> bool {
    let mut at = site.index();
    for _ in 0..bindings.len() {
        match bindings.get(at) {
            Some(Binding::Argument { .. }) => return true,
            Some(Binding::MatchVariant { source, .. } | Binding::ExtractStruct { source, .. }) => {
                at = source.index();
            }
            _ => return false,
        }
    }
    false
}

/// That no rule of greater priority matches, as far as the sites of a condition tell what such rules ask, calls being looked through or not:
/// nothing, unless it is wanted.
pub(crate) fn excluded_among(
    formulas: &mut Formulas,
    asker: Asker<'_>,
    asked: Asked<'_>,
    condition: &Condition,
) -> Result<Vec<Fact>, NoQuestion> {
    let mut facts = Vec::new(asker.alloc);
    if asker.wanted.above {
        let demands = asker.demands(asked, condition);
        for rule in &asked.term.rules.rules {
            if is_plain_above(asked.rule, rule) {
                let tests = other_tests(asker.alloc, asked.rule, rule)?;
                if let Some(placed) = placed_tests(asker.alloc, condition, &tests)? {
                    push_unless_plain(&mut facts, not_all_met(formulas, &demands, &placed)?)?;
                }
            }
        }
    }
    Ok(facts)
}

// Adds a fact, unless it is known to be so.
fn push_unless_plain(facts: &mut Vec<Fact>, fact: Fact) -> Result<(), AllocError> {
    if fact.known() != Some(true) {
        facts.push(fact)?;
    }
    Ok(())
}

// Tests, of the sites of a condition: none, where a site stands nowhere.
fn placed_tests(
    alloc: Global,
    condition: &Condition,
    tests: &[Tested],
) -> Result<Option<Vec<Tested>>, AllocError> {
    let mut placed = Vec::new(alloc);
    for test in tests {
        match site_in(condition, test.site as usize) {
            None => return Ok(None),
            Some(site) => placed.push(Tested {
                site,
                constraint: test.constraint,
            })?,
        }
    }
    Ok(Some(placed))
}
