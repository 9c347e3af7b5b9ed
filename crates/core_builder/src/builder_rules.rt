//! What the calls of a rule's visit make of sites, and ask of them.
ghost use Rattle.std.specs.Prelude.{◌≡◌, ◌<◌, ◌++◌, ℕ, suc, true, if◌then◌else◌, List, [], Ok, IsTrue, is_some, length, map, slice_get, All, IfErr, IfOk, OnOk};
ghost use Rattle.std.specs.Bool.{◌==◌};
ghost use Rattle.core_syntax.specs.Stable.{contains};
ghost use Rattle.core_syntax.specs.declared.syntax.Limit.TheVariants as Limits;
ghost use Rattle.model.specs.sites.Sites.{SiteTerm, argument, sources_at, unfold_site};
ghost use Rattle.model.specs.lists.Formed.{is_formed_rule};
ghost use Rattle.model.specs.lists.Visitable.{is_visitable_rule};
ghost use Rattle.model.specs.rules.Program.{Program, is_partial};
ghost use Rattle.model.specs.visits.Demands.{Visit, asking_all, taking_argument, unwraps, valued, visit_rule, visit_start};
ghost use Rattle.model.specs.sites.Limits.{most_arguments};
ghost use Rattle.laws_sites.specs.Followers.{AsksNothingElse};
ghost use Rattle.core_typed.specs.RuleViews.{rule_view};
ghost use Rattle.core_rule_sets.specs.SiteTables.{IsTable};
ghost use Rattle.core_builder.specs.VisitedSites.{AsksAnswers, EndsAtLimit, EndsOpening, GoesTo, AreUnwrapped, MakesArgument, BuilderStandsAt, ValuesTo, built_sites, unwrapped_at, with_keys};

use crate::ruleset_builder::RuleSetBuilder;
use core_rule_sets::trie_again::{Binding, BindingId, Constraint, TupleIndex};
use core_syntax::stablemapset::StableSet;
use core_syntax::syntax::Limit;
use core_syntax::visit_fault::VisitFault;
use core_typed::{Body, Rule, RuleVisitor, UsedTerms, VisitedExpr};
use core_types::{TermId, TypeId};
use std::alloc::AllocError;
use std::collections::BTreeSet;
use std::mem;

impl RuleSetBuilder {
    /// Visits a typed rule of the term: the site of its result. `termenv` is the rule's environment. What the answer says
    /// holds where the rule hangs together, and nothing was visited since the rule before.
    ///
    /// # Errors
    ///
    /// `Limit` where the rule passes one: the one that the visit meets first. The sites that were made until then stay, where
    /// one would be one past 65,536 the first 65,536. `Memory` where memory is refused.
    pub fn visit_rule<E: UsedTerms>(
        &mut self,
        rule: &Rule,
        termenv: &E,
    ) -> Result<BindingId, VisitFault>
        requires visitable { IsTrue (is_visitable_rule (E.term_entries termenv.now) (rule_view rule.now)) }
        ensures visited { (p : Program) (before : List SiteTerm) → p.terms ≡ E.term_entries termenv.now
            → is_formed_rule p (rule_view rule.now) ≡ true → BuilderStandsAt before self.old visit_start
            → IfOk result (ValuesTo before self.old self.new (visit_rule p (rule_view rule.now))) }
        ensures limit { (p : Program) (before : List SiteTerm) → p.terms ≡ E.term_entries termenv.now
            → is_formed_rule p (rule_view rule.now) ≡ true → BuilderStandsAt before self.old visit_start
            → IfErr result (EndsAtLimit p before (rule_view rule.now) self.new) }
    {
        let value = rule.visit(self.alloc, self, termenv)?;
        let partial = may_give_nothing(termenv, rule.root_term);
        self.finish(value, partial)
    }

    fn make_argument(&mut self, index: usize) -> Result<BindingId, VisitFault>
        ensures made { (before : List SiteTerm) (v : Visit) → BuilderStandsAt before self.old v
            → IfOk result (λ n. (index < most_arguments) × ValuesTo before self.old self.new (valued (argument index) (taking_argument index v)) n) }
        ensures full { (before : List SiteTerm) (v : Visit) → BuilderStandsAt before self.old v
            → IfErr result (EndsOpening before self.new (taking_argument index v) Limits.Arguments most_arguments (suc index) v) }
    {
        let Ok(index) = TupleIndex::try_from(index) else {
            return Err(VisitFault::Limit(Limit::Arguments));
        };
        self.make(Binding::Argument { index })
    }

    // Takes a site apart that wasn't yet: its sources are due then, and where it is what a call answers, unwrapped, the
    // call is noted.
    fn take_apart(
        &self,
        site: BindingId,
        walked: &mut StableSet<BindingId>,
        due: &mut BTreeSet<BindingId>,
        calls: &mut Vec<BindingId>,
    ) -> Result<(), AllocError>
        ensures walked { OnOk result ((s : ℕ) → contains ◌==◌ walked.new s ≡ (if site == s then true else contains ◌==◌ walked.old s)) }
        ensures due { OnOk result (due.new.keys
            ≡ with_keys due.old.keys (if contains ◌==◌ walked.old site then [] else sources_at (built_sites self.now) site)) }
        ensures calls { OnOk result (calls.new.items ≡ calls.old.items
            ++ (if contains ◌==◌ walked.old site then [] else unwrapped_at (built_sites self.now) site)) }
    {
        if !walked.insert(site)? {
            return Ok(());
        }
        let Some(binding) = self.table.binding(site) else {
            return Ok(());
        };
        insert_each(due, binding.sources())?;
        if let Binding::MatchSome { source } = binding {
            calls.push(*source)?;
        }
        Ok(())
    }

    // The calls whose answers a site unwraps, at any depth, but for those of sites that are walked already. A site has a
    // greater number than its sources, so each is taken apart once, however many share it.
    fn unwrapped_calls(
        &self,
        site: BindingId,
        walked: &mut StableSet<BindingId>,
    ) -> Result<Vec<BindingId>, AllocError>
        ensures { IsTable self.now.table → site < length (built_sites self.now)
            → IfOk result (λ calls. AreUnwrapped (built_sites self.now) site walked.old walked.new calls.items) }
    {
        let mut calls = Vec::new(self.alloc);
        let mut due = BTreeSet::new(self.alloc);
        due.insert(site)?;
        for _ in 0..site.index() + 1 {
            let Some(next) = due.pop_last() else {
                return Ok(calls);
            };
            self.take_apart(next, walked, &mut due, &mut calls)?;
        }
        Ok(calls)
    }

    // Asks each call that a site unwraps to answer. A rule walks each site once, however many if-lets stand on it.
    fn ask_unwrapped(&mut self, site: BindingId) -> Result<(), AllocError>
        ensures { (before : List SiteTerm) (v : Visit) → BuilderStandsAt before self.old v
            → site < length (built_sites self.old) → AsksNothingElse v (unfold_site (built_sites self.old) site)
            → OnOk result (GoesTo before self.old self.new (asking_all (unwraps (unfold_site (built_sites self.old) site)) v)) }
    {
        let alloc = self.alloc;
        let mut walked = mem::replace(&mut self.answered, StableSet::new(alloc));
        let calls = self.unwrapped_calls(site, &mut walked)?;
        self.ask_answers(&calls)?;
        self.answered = walked;
        Ok(())
    }

    fn ask_answers(&mut self, calls: &[BindingId]) -> Result<(), AllocError>
        ensures { (before : List SiteTerm) (v : Visit) → BuilderStandsAt before self.old v → All (λ n. n < length (built_sites self.old)) calls.now
            → OnOk result (GoesTo before self.old self.new (asking_all (map (unfold_site (built_sites self.old)) calls.now) v)) }
    {
        for call in calls {
            self.ask(*call, &Constraint::Some)?;
        }
        Ok(())
    }
}

// Whether a term is declared so that its constructor may give nothing.
fn may_give_nothing<E: UsedTerms>(termenv: &E, term: TermId) -> bool
    requires { IsTrue (is_some (slice_get (E.term_entries termenv.now) term.0)) }
    ensures { (p : Program) → p.terms ≡ E.term_entries termenv.now → result ≡ is_partial p term.0 }
{
    termenv.used_term(term).is_partial()
}

fn insert_each(due: &mut BTreeSet<BindingId>, sites: &[BindingId]) -> Result<(), AllocError>
    ensures { OnOk result (due.new.keys ≡ with_keys due.old.keys sites.now) }
{
    for site in sites {
        due.insert(*site)?;
    }
    Ok(())
}

// It lends itself.
impl RuleVisitor for RuleSetBuilder {
    type PatternVisitor = Self;

    type ExprVisitor = Self;

    type Expr = BindingId;

    ghost arg_steps = { λ s index ty r t. MakesArgument index s r t };

    ghost expr_as_pattern_steps = { λ s expr r t. AsksAnswers s expr r t };

    ghost pattern_as_expr_steps = { λ s pattern r t. (r ≡ Ok pattern) × (t ≡ s) };

    ghost lend_pattern_steps = { λ s r t. (r ≡ Ok s) × (t ≡ s) };

    ghost take_pattern_steps = { λ s l r t. (r ≡ Ok tt) × (t ≡ l) };

    ghost leave_pattern_steps = { λ l s t. t ≡ l };

    ghost lend_expr_steps = { λ s r t. (r ≡ Ok s) × (t ≡ s) };

    ghost take_expr_steps = { λ s l ty value r t. (r ≡ Ok value) × (t ≡ l) };

    ghost leave_expr_steps = { λ l s t. t ≡ l };

    fn add_arg(&mut self, index: usize, _: TypeId) -> Result<BindingId, VisitFault> {
        self.make_argument(index)
    }

    fn with_pattern<T: Drop, B: Body<Self, Answer = T> + Drop>(
        &mut self,
        body: B,
    ) -> Result<T, VisitFault> {
        body.run(self)
    }

    fn with_expr<B: Body<Self, Answer = VisitedExpr<BindingId>> + Drop>(
        &mut self,
        body: B,
    ) -> Result<BindingId, VisitFault> {
        let visited = body.run(self)?;
        Ok(visited.value)
    }

    fn expr_as_pattern(&mut self, expr: BindingId) -> Result<BindingId, VisitFault> {
        self.ask_unwrapped(expr)?;
        Ok(expr)
    }

    fn pattern_as_expr(&mut self, pattern: BindingId) -> Result<BindingId, VisitFault> {
        Ok(pattern)
    }
}
