//! What a rule demands of sites, as its visit meets it and its closing goes on.
ghost use Rattle.std.specs.Prelude.{◌≡◌, ℕ, IsTrue, false, None, Some, length, if◌then◌else◌, IfOk, OnOk, nat_eq};
ghost use Rattle.std.specs.List.{zip};
ghost use Rattle.core_rule_sets.specs.Closings.{KeepsDue, is_open};
ghost use Rattle.core_rule_sets.specs.SiteDemands.{constraint_held, first_kept, IsConflict, are_equated, equated_too, equated_each};
ghost use Rattle.core_rule_sets.specs.SiteViews.{constraint_view};

use crate::asked_sites::AskedSites;
use crate::equal_sites::EqualSites;
use crate::overlaps::is_same_constraint;
use crate::trie_again::{BindingId, Constraint};
use core_containers::disjointsets::DisjointSets;
use std::alloc::{AllocError, Global};
use std::collections::BTreeSet;
use std::mem;

/// What a rule demands of sites.
pub struct Demanded {
    // Of each site what is asked first.
    pub(crate) constraints: AskedSites,
    // Sites that must be equal.
    pub(crate) equals: EqualSites,
    // Sites that the closing has yet to look at: all that have a constraint and must equal another one, and it may be
    // others.
    pub(crate) open: BTreeSet<BindingId>,
}

impl Drop for Demanded {
    fn drop(self) {
        let Self {
            constraints: _,
            equals: _,
            open: _,
        } = self;
    }
}

impl Demanded {
    /// Nothing.
    pub fn new(alloc: Global) -> Demanded
        ensures asked { (s : ℕ) → constraint_held result s ≡ None }
        ensures equated { (a b : ℕ) → are_equated result a b ≡ false }
        ensures due { KeepsDue result }
    {
        Demanded {
            constraints: AskedSites::new(alloc),
            equals: EqualSites::new(alloc),
            open: BTreeSet::new(alloc),
        }
    }

    /// Goes on to the next rule: nothing again. Takes no memory.
    pub fn clear(&mut self, alloc: Global)
        ensures asked { (s : ℕ) → constraint_held self.new s ≡ None }
        ensures equated { (a b : ℕ) → are_equated self.new a b ≡ false }
        ensures due { KeepsDue self.new }
    {
        self.constraints.clear();
        self.equals = EqualSites::new(alloc);
        self.open = BTreeSet::new(alloc);
    }

    /// Asks something of a site, which keeps what was asked first: another constraint than this one is answered.
    ///
    /// # Errors
    ///
    /// Where memory is refused.
    pub fn ask(
        &mut self,
        site: BindingId,
        constraint: Constraint,
    ) -> Result<Option<Constraint>, AllocError>
        ensures conflict { IfOk result (IsConflict (constraint_held self.old site) (constraint_view constraint)) }
        ensures asked { OnOk result ((s : ℕ) → constraint_held self.new s
            ≡ (if nat_eq site s then Some (first_kept (constraint_held self.old site) (constraint_view constraint)) else constraint_held self.old s)) }
        ensures equated { self.new.equals ≡ self.old.equals }
        ensures due { KeepsDue self.old → OnOk result (KeepsDue self.new) }
    {
        match self.constraints.get(site) {
            Some(before) => Ok(other_than(before, constraint)),
            None => {
                self.open_equated(site)?;
                self.constraints.push(site, constraint)?;
                Ok(None)
            }
        }
    }

    // A site that gets a constraint is one to look at where it must equal another one. What must equal no other yet is
    // looked at once it must.
    fn open_equated(&mut self, site: BindingId) -> Result<(), AllocError>
        ensures opened { OnOk result ((r : ℕ) → IsTrue (are_equated self.old r site) → IsTrue (is_open self.new site)) }
        ensures still { OnOk result ((s : ℕ) → IsTrue (is_open self.old s) → IsTrue (is_open self.new s)) }
        ensures asked { self.new.constraints ≡ self.old.constraints }
        ensures equated { self.new.equals ≡ self.old.equals }
    {
        if self.equals.contains(site) {
            self.open.insert(site)?;
        }
        Ok(())
    }

    /// Two sites must be equal: nothing new where they are one.
    ///
    /// # Errors
    ///
    /// Where memory is refused.
    pub fn equate(&mut self, first: BindingId, second: BindingId) -> Result<(), AllocError>
        ensures equated { OnOk result ((a b : ℕ) → are_equated self.new a b ≡ equated_too (are_equated self.old) first second a b) }
        ensures asked { self.new.constraints ≡ self.old.constraints }
        ensures due { KeepsDue self.old → OnOk result (KeepsDue self.new) }
    {
        if first != second {
            self.open.insert(first)?;
            self.open.insert(second)?;
            self.equals.merge(first, second)?;
        }
        Ok(())
    }

    /// The sites of two lists of one length must be equal, place by place.
    ///
    /// # Errors
    ///
    /// Where memory is refused.
    pub fn equate_each(
        &mut self,
        firsts: &[BindingId],
        seconds: &[BindingId],
    ) -> Result<(), AllocError>
        requires { length firsts.now ≡ length seconds.now }
        ensures equated { OnOk result ((a b : ℕ) → are_equated self.new a b ≡ equated_each (are_equated self.old) (zip firsts.now seconds.now) a b) }
        ensures asked { self.new.constraints ≡ self.old.constraints }
        ensures due { KeepsDue self.old → OnOk result (KeepsDue self.new) }
    {
        for i in 0..firsts.len() {
            self.equate(firsts[i], seconds[i])?;
        }
        Ok(())
    }

    /// Takes the sites that must be equal away.
    pub fn take_equals(&mut self, alloc: Global) -> DisjointSets<BindingId>
        ensures { result ≡ self.old.equals }
    {
        let equals = mem::replace(&mut self.equals, EqualSites::new(alloc));
        equals.into_sets()
    }
}

// The constraint that was asked before, where the new one is another.
fn other_than(before: Constraint, new: Constraint) -> Option<Constraint>
    ensures { IsConflict (Some (constraint_view before)) (constraint_view new) result }
{
    if is_same_constraint(&before, &new) {
        None
    } else {
        Some(before)
    }
}
