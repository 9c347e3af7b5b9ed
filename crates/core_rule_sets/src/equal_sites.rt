//! Sites that must be equal: disjoint sets that can be listed.
ghost use Rattle.std.specs.Prelude.{◌≡◌, ◌&&◌, ◌∷◌, ℕ, List, [], false, not, nat_eq, IfOk, OnOk, IsTrue};
ghost use Rattle.std.specs.List.Sorted.{IsStrictlySortedBy};
ghost use Rattle.std.specs.Ordering.{nat_cmp};
ghost use Rattle.core_containers.specs.Partition.{IsPartition, in_set, together, together_after};
ghost use Rattle.model.specs.trees.Places.{joins_in};
ghost use Rattle.core_rule_sets.specs.Listings.{are_listed, class_lists};
ghost use Rattle.core_rule_sets.specs.SetLists.{IsListedBefore};

use crate::trie_again::BindingId;
use core_containers::disjointsets::DisjointSets;
use std::alloc::{AllocError, Global};
use std::collections::BTreeSet;
use std::marker::Model;

/// Sites that must be equal. A contract sees the sets.
pub(crate) struct EqualSites {
    sets: DisjointSets<BindingId>,
    // All sites that are in a set, and it may be others: the sets themselves show no members.
    noted: BTreeSet<BindingId>,
}

impl Model for EqualSites {
    ghost use Rattle.std.specs.Prelude.{ℕ, List};
    ghost use Rattle.core_rule_sets.specs.SetLists.{AreNoted};

    ghost Value = { List (List ℕ) };

    ghost view = { λ e. e.sets };

    ghost invariant = { λ e. AreNoted e.sets e.noted };
}

impl Drop for EqualSites {
    fn drop(self) {
        let Self { sets: _, noted: _ } = self;
    }
}

impl EqualSites {
    /// No sets.
    pub(crate) fn new(alloc: Global) -> EqualSites
        ensures { result ≡ [] }
    {
        EqualSites {
            sets: DisjointSets::new(alloc),
            noted: BTreeSet::new(alloc),
        }
    }

    /// The sets.
    pub(crate) fn sets(&self) -> &DisjointSets<BindingId>
        ensures { result.now ≡ self.now }
    {
        &self.sets
    }

    /// The sets, by themselves.
    pub(crate) fn into_sets(self) -> DisjointSets<BindingId>
        ensures { result ≡ self }
    {
        let Self { sets, noted: _ } = self;
        sets
    }

    /// Whether a site must equal another one.
    pub(crate) fn contains(&self, site: BindingId) -> bool
        ensures value { result ≡ together nat_eq self.now site site }
        ensures partition { IsPartition nat_eq self.now }
    {
        self.sets.in_same_set(site, site)
    }

    /// Two sites that differ must be equal.
    ///
    /// # Errors
    ///
    /// Where memory is refused.
    pub(crate) fn merge(&mut self, first: BindingId, second: BindingId) -> Result<(), AllocError>
        requires { nat_eq first second ≡ false }
        ensures ok { OnOk result ((a b : ℕ) → together nat_eq self.new a b ≡ together_after nat_eq self.old first second a b) }
    {
        self.noted.insert(first)?;
        self.noted.insert(second)?;
        self.sets.merge(first, second)?;
        Ok(())
    }

    /// Takes the set of a site away and answers its members, ascending.
    ///
    /// # Errors
    ///
    /// Where memory is refused.
    pub(crate) fn remove_set_of(&mut self, site: BindingId) -> Result<Vec<BindingId>, AllocError>
        ensures members { IfOk result (λ set. (y : ℕ) → in_set nat_eq set.items y ≡ together nat_eq self.old site y) }
        ensures ascending { IfOk result (λ set. IsStrictlySortedBy nat_cmp set.items) }
        ensures rest { OnOk result ((a b : ℕ) → together nat_eq self.new a b ≡ (together nat_eq self.old a b && not (together nat_eq self.old site a))) }
    {
        let set = self.sets.remove_set_of(site)?;
        Ok(set)
    }

    /// The sets as lists, each ascending, by their least sites.
    ///
    /// # Errors
    ///
    /// Where memory is refused.
    pub(crate) fn list(&self, alloc: Global) -> Result<Vec<Vec<BindingId>>, AllocError>
        ensures listed { IfOk result (λ v. IsTrue (are_listed (class_lists v.items))) }
        ensures joined { IfOk result (λ v. (a b : ℕ) → joins_in (class_lists v.items) a b ≡ together nat_eq self.now a b) }
        ensures partition { IfOk result (λ v. IsPartition nat_eq self.now) }
    {
        let mut rest = self.sets.clone()?;
        let mut listed = Vec::new(alloc);
        for site in &self.noted {
            list_set_of(&mut rest, &mut listed, *site)?;
        }
        Ok(listed)
    }
}

// Moves the set of a site, if it is in one, to the end of a list.
fn list_set_of(
    rest: &mut DisjointSets<BindingId>,
    listed: &mut Vec<Vec<BindingId>>,
    site: BindingId,
) -> Result<(), AllocError>
    ensures { OnOk result ((whole : List (List ℕ)) (later : List ℕ) → IsListedBefore whole rest.old (class_lists listed.old.items) (site ∷ later)
        → IsListedBefore whole rest.new (class_lists listed.new.items) later) }
{
    let set = rest.remove_set_of(site)?;
    if !set.is_empty() {
        listed.push(set)?;
    }
    Ok(())
}
