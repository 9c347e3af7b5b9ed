//! Priorities that have no effect.

ghost use Rattle.std.specs.Prelude.{◌≡◌, ◌||◌, ◌++◌, ◌∷◌, [], true, Some, if◌then◌else◌, map, IfOk, OnOk};
ghost use Rattle.std.specs.BTreeMap.{is_at};
ghost use Rattle.core_rule_sets.specs.contracts.trie_again.ConstraintOrd.TheImpl.{ghosts};
ghost use Rattle.core_syntax.specs.SyntaxViews.{position};
ghost use Rattle.cranelift_isle.specs.SiteViews.{set_rule_view, set_rule_views};
ghost use Rattle.laws_ways.specs.IdlePriorities.{idle_priorities, may_meet};
ghost use Rattle.report_warnings.specs.Added.{told_of, AddsTold};
ghost use Rattle.report_warnings.specs.IdlePriorities.{is_idle, meets_some, told_of_idle};
ghost use Rattle.report_warnings.specs.RuleGroups.{AddsIfThere, AddsNumber, AreGrouped, AreGroupedAmong, AreGroupedTwice, Asks, meets_listed, meets_number, numbers_asking};

use crate::kinds::{Warning, begun};
use cranelift_isle::syntax::{Def, Pos};
use cranelift_isle::trie_again::{BindingId, Constraint, Overlap, Rule};
use report_names::names::rule_at;
use report_names::rule_notes::{add_help, add_rule};
use report_print::report::{Place, Report, Word};
use std::alloc::{AllocError, Global};
use std::collections::{BTreeMap, BTreeSet};

/// The places of those rules of a set that have a priority other than 0 and may match together with no other one, in rule order.
///
/// # Errors
///
/// If memory is refused.
pub(crate) fn idle_priorities(alloc: Global, rules: &[Rule]) -> Result<Vec<Pos>, AllocError>
    ensures { IfOk result (λ v. map position v.items ≡ idle_priorities (set_rule_views rules.now)) }
{
    let site = telling_site(alloc, rules, None)?;
    let another = telling_site(alloc, rules, Some(site))?;
    let groups = TwoGroups::of(alloc, rules, site, another)?;
    let others = TwoGroups::of(alloc, rules, another, site)?;
    let mut idle = Vec::new(alloc);
    for rule in rules {
        if is_idle(rules, rule, &groups, &others) {
            idle.push(rule.pos)?;
        }
    }
    Ok(idle)
}

// Whether a rule has a priority and may match together with no other one: looked for by the site of which it asks something.
fn is_idle(rules: &[Rule], rule: &Rule, groups: &TwoGroups, others: &TwoGroups) -> bool
    requires groups { AreGroupedTwice rules.now groups.now }
    requires others { AreGroupedTwice rules.now others.now }
    ensures { result ≡ is_idle rules.now rule.now }
{
    if rule.get_constraint(groups.outer.site).is_some() {
        groups.is_idle(rules, rule)
    } else {
        others.is_idle(rules, rule)
    }
}

// The numbers of rules by what they ask of one site: rules that ask different things there never match together.
#[derive(Drop)]
struct Groups {
    site: BindingId,
    // those that ask this there
    asking: BTreeMap<Constraint, Vec<usize>>,
    // those that ask nothing there
    bare: Vec<usize>,
}

// Rules by what they ask of one site, and those that ask nothing there by what they ask of another one.
#[derive(Drop)]
struct TwoGroups {
    outer: Groups,
    inner: Groups,
}

impl TwoGroups {
    fn of(
        alloc: Global,
        rules: &[Rule],
        site: BindingId,
        another: BindingId,
    ) -> Result<TwoGroups, AllocError>
        ensures { IfOk result (AreGroupedTwice rules.now) }
    {
        let outer = Groups::of(alloc, rules, site)?;
        let inner = Groups::among(alloc, rules, &outer.bare, another)?;
        Ok(TwoGroups { outer, inner })
    }

    // Whether a rule has a priority and may match together with no other one.
    fn is_idle(&self, rules: &[Rule], rule: &Rule) -> bool
        requires { AreGroupedTwice rules.now self.now }
        ensures { result ≡ is_idle rules.now rule.now }
    {
        rule.prio != 0 && !self.meets_some(rules, rule)
    }

    // Whether a rule may match together with another one of these: one that asks the same of the site, or nothing.
    fn meets_some(&self, rules: &[Rule], rule: &Rule) -> bool
        requires { AreGroupedTwice rules.now self.now }
        ensures { result ≡ meets_some rules.now rule.now }
    {
        match rule.get_constraint(self.outer.site) {
            Some(asked) => self.meets_asking(rules, rule, asked),
            None => meets_any(rules, rule),
        }
    }

    fn meets_asking(&self, rules: &[Rule], rule: &Rule, asked: Constraint) -> bool
        requires grouped { AreGroupedTwice rules.now self.now }
        requires asks { Asks self.now.outer.site rule.now (Some asked) }
        ensures { result ≡ meets_some rules.now rule.now }
    {
        meets_listed(rules, rule, self.outer.asking(asked)) || self.meets_bare(rules, rule)
    }

    // Whether a rule may match together with one that asks nothing of the site: with one that asks the same of the other site,
    // or nothing.
    fn meets_bare(&self, rules: &[Rule], rule: &Rule) -> bool
        requires { AreGroupedTwice rules.now self.now }
        ensures met { meets_listed rules.now rule.now self.now.outer.bare.items ≡ true → result ≡ true }
        ensures only { result ≡ true → meets_some rules.now rule.now ≡ true }
    {
        match rule.get_constraint(self.inner.site) {
            Some(asked) => self.inner.meets_asking(rules, rule, asked),
            None => meets_listed(rules, rule, &self.outer.bare),
        }
    }
}

impl Groups {
    fn none(alloc: Global, site: BindingId) -> Groups
        ensures { result.site ≡ site }
    {
        Groups {
            site,
            asking: BTreeMap::new(alloc),
            bare: Vec::new(alloc),
        }
    }

    // The rules by what they ask of a site.
    fn of(alloc: Global, rules: &[Rule], site: BindingId) -> Result<Groups, AllocError>
        ensures { IfOk result (AreGrouped rules.now) }
    {
        let mut groups = Groups::none(alloc, site);
        for number in 0..rules.len() {
            groups.add(&rules[number], number)?;
        }
        Ok(groups)
    }

    // Those of these numbers.
    fn among(
        alloc: Global,
        rules: &[Rule],
        numbers: &[usize],
        site: BindingId,
    ) -> Result<Groups, AllocError>
        ensures { IfOk result (AreGroupedAmong numbers.now rules.now) }
    {
        let mut groups = Groups::none(alloc, site);
        for number in numbers {
            groups.add_number(rules, *number)?;
        }
        Ok(groups)
    }

    // Adds the rule of a number, if there is one.
    fn add_number(&mut self, rules: &[Rule], number: usize) -> Result<(), AllocError>
        ensures { OnOk result (AddsIfThere rules.now number self.old self.new) }
    {
        match rules.get(number) {
            Some(rule) => self.add(rule, number),
            None => Ok(()),
        }
    }

    fn add(&mut self, rule: &Rule, number: usize) -> Result<(), AllocError>
        ensures { OnOk result (AddsNumber rule.now number self.old self.new) }
    {
        match rule.get_constraint(self.site) {
            Some(asked) => add_asking(&mut self.asking, asked, number)?,
            None => self.bare.push(number)?,
        }
        Ok(())
    }

    fn meets_asking(&self, rules: &[Rule], rule: &Rule, asked: Constraint) -> bool
        ensures { result ≡ (meets_listed rules.now rule.now (numbers_asking self.now.asking asked) || meets_listed rules.now rule.now self.now.bare.items) }
    {
        meets_listed(rules, rule, self.asking(asked)) || meets_listed(rules, rule, &self.bare)
    }

    // The rules that ask this of the site.
    fn asking(&self, asked: Constraint) -> &[usize]
        ensures { result.now ≡ numbers_asking self.now.asking asked }
    {
        match self.asking.get(&asked) {
            Some(numbers) => numbers,
            None => &[],
        }
    }
}

fn add_asking(
    asking: &mut BTreeMap<Constraint, Vec<usize>>,
    asked: Constraint,
    number: usize,
) -> Result<(), AllocError>
    ensures { OnOk result ((q : Constraint) → numbers_asking asking.new q ≡ numbers_asking asking.old q ++ (if is_at (ghosts.cmp asked) q then number ∷ [] else [])) }
{
    asking.entry(asked)?.or_default().push(number)?;
    Ok(())
}

// Whether a rule may match together with another one that has one of these numbers.
fn meets_listed(rules: &[Rule], rule: &Rule, numbers: &[usize]) -> bool
    ensures { result ≡ meets_listed rules.now rule.now numbers.now }
{
    numbers
        .iter()
        .any(|number| meets_number(rules, rule, *number))
}

fn meets_number(rules: &[Rule], rule: &Rule, number: usize) -> bool
    ensures { result ≡ meets_number rules.now rule.now number }
{
    match rules.get(number) {
        Some(other) => may_meet(rule, other),
        None => false,
    }
}

// Whether a rule may match together with another one of these.
fn meets_any(rules: &[Rule], rule: &Rule) -> bool
    ensures { result ≡ meets_some rules.now rule.now }
{
    rules.iter().any(|other| may_meet(rule, other))
}

// Whether two different rules may match together.
fn may_meet(rule: &Rule, other: &Rule) -> bool
    ensures { result ≡ may_meet (set_rule_view rule.now) (set_rule_view other.now) }
{
    rule.id != other.id
        && match rule.may_overlap(other) {
            Overlap::No => false,
            Overlap::Yes { subset: _ } => true,
        }
}

// The site of which some rules, evenly taken, ask the most different things, but for one.
fn telling_site(
    alloc: Global,
    rules: &[Rule],
    but: Option<BindingId>,
) -> Result<BindingId, AllocError> {
    let mut asked = BTreeMap::new(alloc);
    for rule in rules.iter().step_by(rules.len() / LOOKED_AT + 1) {
        add_asked(&mut asked, rule)?;
    }
    Ok(
        asked
            .iter()
            .filter(|(site, _)| Some(**site) != but)
            .max_by_key(|(_, different)| different.len())
            .map_or(BindingId::from(0), |(site, _)| *site),
    )
}

// About as many rules are looked at.
const LOOKED_AT: usize = 64;

fn add_asked(
    asked: &mut BTreeMap<BindingId, BTreeSet<Constraint>>,
    rule: &Rule,
) -> Result<(), AllocError> {
    for (site, constraint) in rule.constraints() {
        asked.entry(*site)?.or_default().insert(*constraint)?;
    }
    Ok(())
}

/// Adds a warning for each idle priority, in rule order.
///
/// # Errors
///
/// If memory is refused.
pub(crate) fn add_idle_priorities(
    alloc: Global,
    reports: &mut Vec<Report>,
    defs: &[Def],
    rules: &[Rule],
) -> Result<(), AllocError>
    ensures { OnOk result (AddsTold (map told_of_idle (idle_priorities (set_rule_views rules.now))) reports.old.items reports.new.items) }
{
    let idle = idle_priorities(alloc, rules)?;
    add_reports(alloc, reports, defs, &idle)
}

// Adds a warning for the rule at each of these places.
fn add_reports(
    alloc: Global,
    reports: &mut Vec<Report>,
    defs: &[Def],
    idle: &[Pos],
) -> Result<(), AllocError>
    ensures { OnOk result (AddsTold (map told_of_idle (map position idle.now)) reports.old.items reports.new.items) }
{
    for place in idle {
        reports.push(idle_report(alloc, defs, place)?)?;
    }
    Ok(())
}

// The warning of a rule whose priority changes nothing.
fn idle_report(alloc: Global, defs: &[Def], place: &Pos) -> Result<Report, AllocError>
    ensures { IfOk result (λ report. told_of report ≡ told_of_idle (position place.now)) }
{
    let message = String::from_str(alloc, "a priority has no effect")?;
    let mut report = begun(alloc, Warning::Priority, message);
    let after = " never matches together with another rule of its term";
    add_rule(alloc, &mut report, defs, *place, "", after)?;
    add_help(alloc, &mut report, "remove the priority")?;
    if let Some(rule) = rule_at(defs, *place) {
        let title = String::from_str(alloc, "Remove the priority")?;
        let place = Place::Between(rule.pos, rule.pattern.pos(), Word::Priority);
        report.add_fix(title, place, String::new(alloc))?;
    }
    Ok(report)
}
