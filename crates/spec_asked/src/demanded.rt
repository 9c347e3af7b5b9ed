//! What a rule of a set demands, by the numbers of its sites.
ghost use Rattle.std.specs.Prelude.{◌≡◌, ◌∷◌, ◌++◌, [], not, map, length, IfOk, OnOk};
ghost use Rattle.std.specs.Bool.{◌==◌};
ghost use Rattle.std.specs.List.{filter, flat_map};
ghost use Rattle.laws_specs.specs.SetConditions.{pairs_of};
ghost use Rattle.core_rule_sets.specs.Listings.{class_lists};
ghost use Rattle.core_rule_sets.specs.SiteViews.{constraint_views, set_rule_view, site_views};
ghost use Rattle.spec_asked.specs.Demanded.{are_within, numbers_within, same_numbers, sames_within, test_numbers, tests_within, AreListedDemands, AreRuleDemands};

use crate::marks::made_below;
use core_rule_sets::trie_again::{Binding, BindingId, Constraint, Rule};
use spec_cases::faults::Fault;
use spec_steps::constraints::constraint_of;
use spec_steps::demands::{Same, Tested};
use std::alloc::{AllocError, Global};

/// What a rule of a set demands.
#[derive(Drop)]
pub struct RuleDemands {
    /// Which sites it makes.
    pub made: Vec<bool>,
    /// What it asks of sites.
    pub constraints: Vec<Tested>,
    /// Which sites are to be equal.
    pub equalities: Vec<Same>,
    /// Its impure calls, in order.
    pub impure: Vec<u32>,
    /// Its result.
    pub result: u32,
}

// The number of a site.
pub(crate) fn number(site: BindingId) -> u32
    ensures { result ≡ site }
{
    site.index() as u32
}

// Adds the tests of constraints.
#[tactic(auto, using(crate::proofs::DemandSteps::test_steps))]
fn add_tests(asked: &[(BindingId, Constraint)], out: &mut Vec<Tested>) -> Result<(), AllocError>
    ensures { OnOk result (test_numbers out.new.items ≡ test_numbers out.old.items ++ constraint_views asked.now) }
{
    match asked {
        [] => Ok(()),
        [(site, constraint), rest @ ..] => {
            out.push(Tested {
                site: number(*site),
                constraint: constraint_of(*constraint),
            })?;
            Ok(add_tests(rest, out)?)
        }
    }
}

// Adds the pairs of a site with the others of its class.
#[tactic(auto, using(crate::proofs::DemandSteps::same_steps))]
fn add_pairs_with(
    site: BindingId,
    class: &[BindingId],
    out: &mut Vec<Same>,
) -> Result<(), AllocError>
    ensures { OnOk result (same_numbers out.new.items ≡ same_numbers out.old.items ++ map (λ b. (site, b)) (filter (λ b. not (site == b)) class.now)) }
{
    match class {
        [] => Ok(()),
        [other, rest @ ..] => {
            if site.index() != other.index() {
                out.push(Same {
                    first: number(site),
                    second: number(*other),
                })?;
            }
            Ok(add_pairs_with(site, rest, out)?)
        }
    }
}

// Adds the pairs of some sites of a class with the others.
#[tactic(auto, using(crate::proofs::DemandSteps::joined_steps))]
fn add_pairs(
    sites: &[BindingId],
    class: &[BindingId],
    out: &mut Vec<Same>,
) -> Result<(), AllocError>
    ensures { OnOk result (same_numbers out.new.items ≡ same_numbers out.old.items ++ flat_map (λ a. map (λ b. (a, b)) (filter (λ b. not (a == b)) class.now)) sites.now) }
{
    match sites {
        [] => Ok(()),
        [first, rest @ ..] => {
            add_pairs_with(*first, class, out)?;
            Ok(add_pairs(rest, class, out)?)
        }
    }
}

// Adds the pairs of classes.
#[tactic(auto, using(crate::proofs::DemandSteps::joined_steps))]
fn add_class_pairs(classes: &[Vec<BindingId>], out: &mut Vec<Same>) -> Result<(), AllocError>
    ensures { OnOk result (same_numbers out.new.items ≡ same_numbers out.old.items ++ flat_map pairs_of (class_lists classes.now)) }
{
    match classes {
        [] => Ok(()),
        [class, rest @ ..] => {
            add_pairs(class, class, out)?;
            Ok(add_class_pairs(rest, out)?)
        }
    }
}

// Adds the numbers of sites.
#[tactic(auto, using(crate::proofs::DemandSteps::joined_steps))]
fn add_numbers(sites: &[BindingId], out: &mut Vec<u32>) -> Result<(), AllocError>
    ensures { OnOk result (out.new.items ≡ out.old.items ++ sites.now) }
{
    match sites {
        [] => Ok(()),
        [first, rest @ ..] => {
            out.push(number(*first))?;
            Ok(add_numbers(rest, out)?)
        }
    }
}

// Adds the sites of constraints.
#[tactic(auto, using(crate::proofs::DemandSteps::joined_steps))]
fn add_tested(asked: &[(BindingId, Constraint)], out: &mut Vec<BindingId>) -> Result<(), AllocError>
    ensures { OnOk result (out.new.items ≡ out.old.items ++ map (λ d. d.0) (constraint_views asked.now)) }
{
    match asked {
        [] => Ok(()),
        [(site, _), rest @ ..] => {
            out.push(*site)?;
            Ok(add_tested(rest, out)?)
        }
    }
}

// Adds the sites of classes.
#[tactic(auto, using(crate::proofs::DemandSteps::joined_steps))]
fn add_members(classes: &[Vec<BindingId>], out: &mut Vec<BindingId>) -> Result<(), AllocError>
    ensures { OnOk result (out.new.items ≡ out.old.items ++ flat_map (λ c. c) (class_lists classes.now)) }
{
    match classes {
        [] => Ok(()),
        [class, rest @ ..] => {
            out.extend_from_slice(class)?;
            Ok(add_members(rest, out)?)
        }
    }
}

// The sites that a rule speaks of: those that it tests, its impure calls and its result.
fn roots_of(
    alloc: Global,
    rule: &Rule,
    classes: &[Vec<BindingId>],
) -> Result<Vec<BindingId>, AllocError>
    ensures { IfOk result (λ out. out.items ≡ (map (λ d. d.0) (set_rule_view rule.now).constraints ++ flat_map (λ c. c) (class_lists classes.now)) ++ ((set_rule_view rule.now).impure ++ (set_rule_view rule.now).result ∷ [])) }
{
    let mut out = Vec::new(alloc);
    add_tested(rule.constraints(), &mut out)?;
    add_members(classes, &mut out)?;
    out.extend_from_slice(&rule.impure)?;
    out.push(rule.result)?;
    Ok(out)
}

// Whether tests are of so many sites.
pub(crate) fn are_tests_within(count: usize, tests: &[Tested]) -> bool
    ensures { result ≡ tests_within count tests.now }
{
    tests.iter().all(|test| (test.site as usize) < count)
}

// Whether equal sites are of so many.
fn are_sames_within(count: usize, sames: &[Same]) -> bool
    ensures { result ≡ sames_within count sames.now }
{
    sames.iter().all(|same| (same.first as usize) < count && (same.second as usize) < count)
}

// Whether numbers are of so many sites.
fn are_numbers_within(count: usize, numbers: &[u32]) -> bool
    ensures { result ≡ numbers_within count numbers.now }
{
    numbers.iter().all(|number| (*number as usize) < count)
}

// Whether demands are of so many sites.
fn are_demands_within(count: usize, demands: &RuleDemands) -> bool
    ensures { result ≡ are_within count demands.now }
{
    are_tests_within(count, &demands.constraints)
        && are_sames_within(count, &demands.equalities)
        && are_numbers_within(count, &demands.impure)
        && (demands.result as usize) < count
}

// What a rule demands, by a list of its classes, without looking whether all sites are there.
fn listed_demands(
    alloc: Global,
    bindings: &[Binding],
    rule: &Rule,
    classes: &[Vec<BindingId>],
) -> Result<RuleDemands, AllocError>
    ensures { IfOk result (λ d. AreListedDemands (site_views bindings.now) (set_rule_view rule.now) (class_lists classes.now) d) }
{
    let roots = roots_of(alloc, rule, classes)?;
    let made = made_below(alloc, bindings, &roots)?;
    let mut constraints = Vec::new(alloc);
    add_tests(rule.constraints(), &mut constraints)?;
    let mut equalities = Vec::new(alloc);
    add_class_pairs(classes, &mut equalities)?;
    let mut impure = Vec::new(alloc);
    add_numbers(&rule.impure, &mut impure)?;
    Ok(RuleDemands {
        made,
        constraints,
        equalities,
        impure,
        result: number(rule.result),
    })
}

/// What a rule demands, of the set with these sites.
///
/// # Errors
///
/// `Foreign` where it speaks of a number that is no site's, `Memory` where memory is refused.
pub fn rule_demands(alloc: Global, bindings: &[Binding], rule: &Rule) -> Result<RuleDemands, Fault>
    ensures { IfOk result (λ d. AreRuleDemands (site_views bindings.now) (set_rule_view rule.now) d) }
{
    let demands = listed_demands(alloc, bindings, rule, rule.classes())?;
    if !are_demands_within(bindings.len(), &demands) {
        return Err(Fault::Foreign);
    }
    Ok(demands)
}
