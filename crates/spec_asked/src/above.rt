//! Rules of greater priority, and that they don't match.
ghost use Rattle.std.specs.Prelude.{◌≡◌, ◌++◌, Contains, IsTrue, IfOk, OnOk};
ghost use Rattle.std.specs.List.{filter};
ghost use Rattle.model.specs.sites.Sites.{SetRule, SiteSet};
ghost use Rattle.model.specs.trees.Judge.{is_that};
ghost use Rattle.model.specs.trees.Places.{constraint_at};
ghost use Rattle.laws_questions.specs.BelowLaws.{ExcludesOne};
ghost use Rattle.core_rule_sets.specs.SiteViews.{constraint_view, constraint_views, set_rule_view};
ghost use Rattle.spec_cases.specs.Namings.{fact_of};
ghost use Rattle.spec_steps.specs.Demands.{MakesFor};
ghost use Rattle.spec_asked.specs.Above.{is_other, AreExcluding, AreOfSet, IsPlainAbove, IsOfRule};
ghost use Rattle.spec_asked.specs.Demanded.{test_numbers};

use crate::demanded::{are_tests_within, number};
use core_rule_sets::trie_again::{BindingId, Constraint, Overlap, Rule};
use spec_cases::arena::Formulas;
use spec_cases::faults::Fault;
use spec_cases::formulas::Fact;
use spec_steps::constraints::constraint_of;
use spec_steps::demands::{Demands, Tested};
use spec_steps::excluding::not_all_met;
use std::alloc::{AllocError, Global};

// Whether a rule asks this of a site.
fn is_asked(rule: &Rule, site: BindingId, asked: Constraint) -> bool
    ensures { result ≡ is_that (constraint_at (set_rule_view rule.now).constraints site) (constraint_view asked) }
{
    match rule.get_constraint(site) {
        None => false,
        Some(known) => known == asked,
    }
}

// Adds the tests that a rule doesn't make.
#[tactic(auto, using(crate::proofs::DemandSteps::test_steps))]
fn add_others(
    below: &Rule,
    asked: &[(BindingId, Constraint)],
    out: &mut Vec<Tested>,
) -> Result<(), AllocError>
    ensures { OnOk result (test_numbers out.new.items ≡ test_numbers out.old.items ++ filter (is_other (set_rule_view below.now).constraints) (constraint_views asked.now)) }
{
    match asked {
        [] => Ok(()),
        [(site, constraint), rest @ ..] => {
            if !is_asked(below, *site, *constraint) {
                out.push(Tested {
                    site: number(*site),
                    constraint: constraint_of(*constraint),
                })?;
            }
            Ok(add_others(below, rest, out)?)
        }
    }
}

/// The tests of a rule that another one doesn't make.
///
/// # Errors
///
/// Where memory is refused.
pub fn other_tests(alloc: Global, below: &Rule, above: &Rule) -> Result<Vec<Tested>, AllocError>
    ensures { IfOk result (λ ts. test_numbers ts.items ≡ filter (is_other (set_rule_view below.now).constraints) (set_rule_view above.now).constraints) }
{
    let mut tests = Vec::new(alloc);
    add_others(below, above.constraints(), &mut tests)?;
    Ok(tests)
}

/// Whether a rule has greater priority than another one that may match where it does, and asks for no equal sites.
pub fn is_plain_above(below: &Rule, above: &Rule) -> bool
    ensures { IsTrue result → IsPlainAbove (set_rule_view below.now) (set_rule_view above.now) }
{
    below.prio < above.prio && above.classes().is_empty() && above.may_overlap(below) != Overlap::No
}

// That a rule of greater priority doesn't match.
fn excluded_by(
    formulas: &mut Formulas,
    demands: &Demands<'_>,
    count: usize,
    below: &Rule,
    above: &Rule,
) -> Result<Fact, Fault>
    ensures { IfOk result (λ f. MakesFor formulas.old formulas.new demands.now (λ v m. (t : _) (set : SiteSet) (r : SetRule)
        → IsOfRule v m.c t set r (set_rule_view below.now) count → Contains set.rules (set_rule_view above.now) → IsPlainAbove (set_rule_view below.now) (set_rule_view above.now)
        → ExcludesOne m.p m.specs t set r (fact_of v f))) }
{
    let tests = other_tests(formulas.alloc(), below, above)?;
    if !are_tests_within(count, &tests) {
        return Err(Fault::Foreign);
    }
    Ok(not_all_met(formulas, demands, &tests)?)
}

// Adds that a rule doesn't match, if it has greater priority and its tests are told.
fn add_if_excluding(
    formulas: &mut Formulas,
    demands: &Demands<'_>,
    count: usize,
    below: &Rule,
    above: &Rule,
    out: &mut Vec<Fact>,
) -> Result<(), Fault>
    ensures { OnOk result (MakesFor formulas.old formulas.new demands.now (λ v m. (t : _) (set : SiteSet) (r : SetRule)
        → IsOfRule v m.c t set r (set_rule_view below.now) count → Contains set.rules (set_rule_view above.now)
        → AreExcluding m.p m.specs t set r v out.old.items → AreExcluding m.p m.specs t set r v out.new.items)) }
{
    if !is_plain_above(below, above) {
        return Ok(());
    }
    let fact = excluded_by(formulas, demands, count, below, above)?;
    if fact.known() == Some(true) {
        return Ok(());
    }
    out.push(fact)?;
    Ok(())
}

// Adds that rules of greater priority don't match, of these.
fn add_excluded(
    formulas: &mut Formulas,
    demands: &Demands<'_>,
    count: usize,
    below: &Rule,
    rules: &[Rule],
    out: &mut Vec<Fact>,
) -> Result<(), Fault>
    ensures { OnOk result (MakesFor formulas.old formulas.new demands.now (λ v m. (t : _) (set : SiteSet) (r : SetRule)
        → IsOfRule v m.c t set r (set_rule_view below.now) count → AreOfSet rules.now set
        → AreExcluding m.p m.specs t set r v out.old.items → AreExcluding m.p m.specs t set r v out.new.items)) }
{
    match rules {
        [] => Ok(()),
        [first, rest @ ..] => {
            add_if_excluding(formulas, demands, count, below, first, out)?;
            Ok(add_excluded(formulas, demands, count, below, rest, out)?)
        }
    }
}

/// That none of these rules matches that has greater priority than a rule, as far as the sites of the rule's condition tell what it asks.
///
/// # Errors
///
/// `Foreign` where a rule speaks of a number past so many sites, else as `not_all_met`.
pub fn excluded_above(
    formulas: &mut Formulas,
    demands: &Demands<'_>,
    count: usize,
    below: &Rule,
    rules: &[Rule],
) -> Result<Vec<Fact>, Fault>
    ensures { IfOk result (λ fs. MakesFor formulas.old formulas.new demands.now (λ v m. (t : _) (set : SiteSet) (r : SetRule)
        → IsOfRule v m.c t set r (set_rule_view below.now) count → AreOfSet rules.now set → AreExcluding m.p m.specs t set r v fs.items)) }
{
    let mut facts = Vec::new(formulas.alloc());
    add_excluded(formulas, demands, count, below, rules, &mut facts)?;
    Ok(facts)
}
