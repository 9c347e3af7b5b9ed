//! The rule set of a term, as its rules are read one after another.
ghost use Rattle.std.specs.Prelude.{◌≡◌, ◌≢◌, List, false, All, IfOk, OnOk};
ghost use Rattle.core_syntax.specs.Positions.{HasSingleSpans};
ghost use Rattle.core_syntax.specs.declared.visit_fault.VisitFault.TheVariants as Faults;
ghost use Rattle.model.specs.rules.Program.{Program};
ghost use Rattle.model.specs.sites.Closure.{Closed, is_unreachable};
ghost use Rattle.model.specs.visits.Demands.{Visit, demands_of};
ghost use Rattle.model.specs.sites.Sites.{SiteTerm};
ghost use Rattle.laws_sites.specs.RuleByRule.{nothing_built};
ghost use Rattle.core_typed.specs.RuleViews.{rule_view};
ghost use Rattle.core_rule_sets.specs.Closings.{AreDemandsOf};
ghost use Rattle.core_rule_sets.specs.SiteViews.{set_rule_view, set_view};
ghost use Rattle.core_builder.specs.AddedRules.{AddsListed, HasTable, SetGoesOn, IsListed, MayAddRule, ReportsLimit, WasVisited, set_so_far};
ghost use Rattle.core_builder.specs.VisitedSites.{BuilderStandsAt, built_sites};

use crate::refusals::{report_conflicts, report_limit, report_unreachable};
use crate::ruleset_builder::RuleSetBuilder;
use core_rule_sets::trie_again::{self, BindingId, RuleSet};
use core_rule_sets::verdict::why_unreachable;
use core_syntax::stablemapset::StableSet;
use core_syntax::syntax::{Error, Pos};
use core_syntax::visit_fault::VisitFault;
use core_typed::{Rule, UsedTerms};
use std::alloc::{AllocError, Global};
use std::mem;

/// The rules of a term that are read so far, and their sites.
pub struct TermSet {
    builder: RuleSetBuilder,
    // The rules that aren't left out, in rule order.
    rules: Vec<trie_again::Rule>,
}

impl Drop for TermSet {
    fn drop(self) {
        let Self {
            builder: _,
            rules: _,
        } = self;
    }
}

impl TermSet {
    /// Before the first rule of a term.
    pub fn new(alloc: Global) -> TermSet
        ensures empty { set_so_far result ≡ nothing_built }
        ensures table { HasTable result }
    {
        TermSet {
            builder: RuleSetBuilder::new(alloc),
            rules: Vec::new(alloc),
        }
    }

    /// The set, after the last rule of the term.
    pub fn into_rule_set(self) -> RuleSet
        ensures { set_view result ≡ set_so_far self }
    {
        let Self { builder, rules } = self;
        RuleSet {
            rules,
            bindings: builder.into_bindings(),
        }
    }

    /// Reads the next rule of the term: it is added, or left out with its errors, and its sites stay.
    ///
    /// # Errors
    ///
    /// Where memory is refused.
    pub fn add_rule<E: UsedTerms>(
        &mut self,
        rule: &Rule,
        termenv: &E,
        errors: &mut Vec<Error>,
    ) -> Result<(), AllocError>
        requires may { (p : Program) × (before : List SiteTerm) × MayAddRule (E.term_entries termenv.now) (rule_view rule.now) self.old.builder p before }
        ensures goes { (p : Program) (before : List SiteTerm) → MayAddRule (E.term_entries termenv.now) (rule_view rule.now) self.old.builder p before
            → OnOk result (SetGoesOn p before (rule_view rule.now) self.old self.new errors.old.items errors.new.items) }
        ensures single { OnOk result (All HasSingleSpans errors.old.items → All HasSingleSpans errors.new.items) }
    {
        self.builder.start_rule();
        match self.builder.visit_rule(rule, termenv) {
            Ok(value) => self.add_visited(rule, value, errors),
            Err(fault) => report_fault(errors, fault, rule.pos),
        }
    }

    // A rule whose visit is done, with the site of its result.
    fn add_visited(
        &mut self,
        rule: &Rule,
        value: BindingId,
        errors: &mut Vec<Error>,
    ) -> Result<(), AllocError>
        requires visited { (before : List SiteTerm) × (v : Visit) × BuilderStandsAt before self.old.builder v }
        ensures goes { (p : Program) (before : List SiteTerm) → WasVisited p before (rule_view rule.now) self.old.builder value
            → OnOk result (SetGoesOn p before (rule_view rule.now) self.old self.new errors.old.items errors.new.items) }
        ensures single { OnOk result (All HasSingleSpans errors.old.items → All HasSingleSpans errors.new.items) }
    {
        if !self.builder.conflicts.is_empty() {
            return report_conflicts(errors, &self.builder.conflicts, rule.pos);
        }
        let alloc = self.builder.alloc;
        match why_unreachable(alloc, &self.builder.table, &self.builder.demanded)? {
            Some(why) => report_unreachable(errors, why, rule.pos),
            None => self.add_reachable(rule, value, errors),
        }
    }

    // A rule that values can match.
    fn add_reachable(
        &mut self,
        rule: &Rule,
        value: BindingId,
        errors: &mut Vec<Error>,
    ) -> Result<(), AllocError>
        requires visited { (before : List SiteTerm) × (v : Visit) × BuilderStandsAt before self.old.builder v }
        ensures goes { (p : Program) (before : List SiteTerm) → WasVisited p before (rule_view rule.now) self.old.builder value
            → is_unreachable (demands_of p (rule_view rule.now)) ≡ false
            → OnOk result (SetGoesOn p before (rule_view rule.now) self.old self.new errors.old.items errors.new.items) }
        ensures single { OnOk result (All HasSingleSpans errors.old.items → All HasSingleSpans errors.new.items) }
    {
        match self.builder.close() {
            Ok(()) => self.push_rule(rule, value),
            Err(fault) => report_fault(errors, fault, rule.pos),
        }
    }

    // A rule whose demands are closed.
    fn push_rule(&mut self, rule: &Rule, value: BindingId) -> Result<(), AllocError>
        ensures added { (k : Closed) → AreDemandsOf (built_sites self.old.builder) self.old.builder.demanded k
            → OnOk result (AddsListed self.old.builder k rule.now value self.old self.new) }
        ensures table { self.new.builder.table ≡ self.old.builder.table }
    {
        let listed = self.builder.list_rule(rule, value)?;
        self.rules.push(listed)?;
        Ok(())
    }
}

impl RuleSetBuilder {
    // The rule by its closed demands, and its calls.
    fn list_rule(&mut self, rule: &Rule, value: BindingId) -> Result<trie_again::Rule, AllocError>
        ensures listed { (k : Closed) → AreDemandsOf (built_sites self.old) self.old.demanded k
            → IfOk result (λ r. IsListed self.old k rule.now value (set_rule_view r)) }
        ensures table { self.new.table ≡ self.old.table }
    {
        let alloc = self.alloc;
        let mut listed = trie_again::Rule::demanding(alloc, &mut self.demanded)?;
        listed.id = rule.id;
        listed.pos = rule.pos;
        listed.prio = rule.prio;
        listed.name = rule.name;
        listed.iterators = mem::replace(&mut self.iterators, StableSet::new(alloc));
        listed.impure = mem::replace(&mut self.impure, Vec::new(alloc));
        listed.result = value;
        Ok(listed)
    }
}

// A rule is left out for the limit that it passes; or memory was refused. A builder never stops a visit itself.
fn report_fault(errors: &mut Vec<Error>, fault: VisitFault, pos: Pos) -> Result<(), AllocError>
    requires goes_on { fault ≢ Faults.Stopped }
    ensures says { OnOk result (ReportsLimit errors.old.items errors.new.items fault pos) }
    ensures single { OnOk result (All HasSingleSpans errors.old.items → All HasSingleSpans errors.new.items) }
{
    match &fault {
        VisitFault::Limit(limit) => report_limit(errors, *limit, pos),
        VisitFault::Memory(refused) => Err(*refused),
        VisitFault::Stopped => unreachable!(),
    }
}
