//! Rules as they are read into the rule set of their term: sites, and what each rule demands of them.
ghost use Rattle.std.specs.Prelude.{◌≡◌, ◌<◌, List, [], ◌∷◌, ◌++◌, length, map, IfErr, IfOk, OnOk};
ghost use Rattle.model.specs.lists.Names.{IsDistinct};
ghost use Rattle.model.specs.sites.RuleSets.{StandFor};
ghost use Rattle.model.specs.sites.Sites.{SiteTerm, layer, unfold_site};
ghost use Rattle.model.specs.visits.Demands.{Visit, asking, calling, equating, iterating, making, visit_start};
ghost use Rattle.core_rule_sets.specs.SiteTables.{ForWantOfRoom, HasSources, IsTable};
ghost use Rattle.model.specs.sites.Closure.{before_closing, closing, most_closing_steps};
ghost use Rattle.core_rule_sets.specs.Closings.{EndsFull, GoOn};
ghost use Rattle.core_rule_sets.specs.SiteViews.{constraint_view, site_view, site_views};
ghost use Rattle.core_builder.specs.VisitedSites.{EndsBefore, GoesTo, IsNextCall, MakesSite, BuilderStandsAt, built_sites, conflict_beside, conflict_view};

use core_rule_sets::demanded::Demanded;
use core_rule_sets::site_table::SiteTable;
use core_rule_sets::trie_again::{Binding, BindingId, Constraint};
use core_syntax::stablemapset::StableSet;
use core_syntax::visit_fault::VisitFault;
use std::alloc::{AllocError, Global};

/// Reads the rules of a term, one after another.
pub struct RuleSetBuilder {
    pub(crate) alloc: Global,
    // The sites of the term: those of the rules before too, since rules that speak of the same value share its site.
    pub(crate) table: SiteTable,
    // What the rule demands of sites.
    pub(crate) demanded: Demanded,
    // Each constraint that a site was asked to meet beside the different one that it had, after that one.
    pub(crate) conflicts: Vec<(Constraint, Constraint)>,
    // The multi calls whose answers the rule goes over.
    pub(crate) iterators: StableSet<BindingId>,
    // The rule's impure calls, each by the last site that was made for it, since that one's value is used.
    pub(crate) impure: Vec<BindingId>,
    // Sites of which all calls that they unwrap are asked to answer, so that none is walked twice for one rule.
    pub(crate) answered: StableSet<BindingId>,
}

impl Drop for RuleSetBuilder {
    fn drop(self) {
        let Self {
            alloc: _,
            table: _,
            demanded: _,
            conflicts: _,
            iterators: _,
            impure: _,
            answered: _,
        } = self;
    }
}

impl RuleSetBuilder {
    /// Before the first rule of a term: no sites, and nothing demanded.
    pub fn new(alloc: Global) -> RuleSetBuilder
        ensures { BuilderStandsAt [] result visit_start }
    {
        RuleSetBuilder {
            alloc,
            table: SiteTable::new(alloc),
            demanded: Demanded::new(alloc),
            conflicts: Vec::new(alloc),
            iterators: StableSet::new(alloc),
            impure: Vec::new(alloc),
            answered: StableSet::new(alloc),
        }
    }

    /// Goes on to the next rule of the term: the sites stay, and nothing is demanded yet.
    pub fn start_rule(&mut self)
        ensures started { (before : List SiteTerm) → IsTable self.old.table → IsDistinct before
            → StandFor (built_sites self.old) before → BuilderStandsAt before self.new visit_start }
        ensures kept { built_sites self.new ≡ built_sites self.old }
    {
        self.demanded.clear(self.alloc);
        self.conflicts = Vec::new(self.alloc);
        self.iterators = StableSet::new(self.alloc);
        self.impure = Vec::new(self.alloc);
        self.answered = StableSet::new(self.alloc);
    }

    // What each site of the term stands for.
    pub(crate) fn into_bindings(self) -> Vec<Binding>
        ensures { site_views result.items ≡ built_sites self }
    {
        let Self {
            alloc: _,
            table,
            demanded: _,
            conflicts: _,
            iterators: _,
            impure: _,
            answered: _,
        } = self;
        table.into_bindings()
    }

    // Closes the demands of the rule, once it is visited.
    pub(crate) fn close(&mut self) -> Result<(), VisitFault>
        requires { (before : List SiteTerm) × (v : Visit) × BuilderStandsAt before self.old v }
        ensures closed { (before : List SiteTerm) (v : Visit) → BuilderStandsAt before self.old v
            → OnOk result (IsTable self.new.table
            × GoOn (built_sites self.old) (built_sites self.new) self.new.demanded (closing most_closing_steps (before_closing before v.demands))) }
        ensures full { (before : List SiteTerm) (v : Visit) → BuilderStandsAt before self.old v
            → IfErr result (EndsFull (built_sites self.new) (closing most_closing_steps (before_closing before v.demands))) }
        ensures kept { IfErr result (ForWantOfRoom (IsTable self.new.table)) }
        ensures calls { (self.new.iterators ≡ self.old.iterators) × (self.new.impure ≡ self.old.impure) }
    {
        self.demanded.close(self.alloc, &mut self.table)
    }

    // The site of a binding, a new one where it has none.
    pub(crate) fn make(&mut self, binding: Binding) -> Result<BindingId, VisitFault>
        ensures made { (before : List SiteTerm) (v : Visit) → BuilderStandsAt before self.old v → HasSources (built_sites self.old) (site_view binding)
            → IfOk result (MakesSite before self.old self.new v (layer (unfold_site (built_sites self.old)) (site_view binding))) }
        ensures full { (before : List SiteTerm) (v : Visit) → BuilderStandsAt before self.old v → HasSources (built_sites self.old) (site_view binding)
            → IfErr result (EndsBefore before self.new (making (layer (unfold_site (built_sites self.old)) (site_view binding) ∷ []) v)) }
    {
        self.table.add(binding)
    }

    pub(crate) fn ask(&mut self, site: BindingId, constraint: &Constraint) -> Result<(), AllocError>
        ensures asked { (before : List SiteTerm) (v : Visit) → BuilderStandsAt before self.old v → site < length (built_sites self.old)
            → OnOk result (GoesTo before self.old self.new (asking (unfold_site (built_sites self.old) site) (constraint_view constraint.now) v)) }
    {
        let first = self.demanded.ask(site, *constraint)?;
        note_conflict(&mut self.conflicts, first, *constraint)
    }

    // Two sites must be equal.
    pub(crate) fn equate(&mut self, first: BindingId, second: BindingId) -> Result<(), AllocError>
        ensures equated { (before : List SiteTerm) (v : Visit) → BuilderStandsAt before self.old v
            → first < length (built_sites self.old) → second < length (built_sites self.old)
            → OnOk result (GoesTo before self.old self.new
            (equating (unfold_site (built_sites self.old) first) (unfold_site (built_sites self.old) second) v)) }
    {
        self.demanded.equate(first, second)
    }

    // The rule goes over the answers of a call.
    pub(crate) fn iterate(&mut self, call: BindingId) -> Result<(), AllocError>
        ensures gone_over { (before : List SiteTerm) (v : Visit) → BuilderStandsAt before self.old v → call < length (built_sites self.old)
            → OnOk result (GoesTo before self.old self.new (iterating (unfold_site (built_sites self.old) call) v)) }
    {
        self.iterators.insert(call)?;
        Ok(())
    }

    // The rule makes an impure call, whose last site this is.
    pub(crate) fn call(&mut self, site: BindingId) -> Result<(), AllocError>
        ensures called { (before : List SiteTerm) (v : Visit) → BuilderStandsAt before self.old v → site < length (built_sites self.old) → IsNextCall self.old v site
            → OnOk result (GoesTo before self.old self.new (calling (unfold_site (built_sites self.old) site) v)) }
    {
        self.impure.push(site)?;
        Ok(())
    }
}

// Notes two constraints that one site is asked to meet, where there is a first one beside the second.
fn note_conflict(
    conflicts: &mut Vec<(Constraint, Constraint)>,
    first: Option<Constraint>,
    second: Constraint,
) -> Result<(), AllocError>
    ensures { OnOk result (map conflict_view conflicts.new.items ≡ map conflict_view conflicts.old.items ++ conflict_beside first (constraint_view second)) }
{
    if let Some(first) = first {
        conflicts.push((first, second))?;
    }
    Ok(())
}
