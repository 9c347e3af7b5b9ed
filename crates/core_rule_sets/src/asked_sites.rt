//! What is asked of sites, each found at once.
ghost use Rattle.std.specs.Prelude.{◌≡◌, ◌∷◌, ◌++◌, [], ℕ, None, IfOk, IsTrue, OnOk, nat_eq, option_map};
ghost use Rattle.std.specs.List.{IsDistinct};
ghost use Rattle.model.specs.trees.Places.{constraint_at};
ghost use Rattle.core_rule_sets.specs.Listings.{ascends, sites_of};
ghost use Rattle.core_rule_sets.specs.SiteViews.{constraint_view, constraint_views};

use crate::trie_again::{BindingId, Constraint};
use core_containers::stacks::Stack;
use std::alloc::{AllocError, Global};
use std::marker::Model;

/// Sites, each once, and what is asked of each. A contract sees the list of both, in the order of asking.
pub(crate) struct AskedSites {
    // The sites alone. Its table stays when all are taken away, so that the next rule needs no other one.
    sites: Stack,
    asked: Vec<(BindingId, Constraint)>,
}

impl Model for AskedSites {
    ghost use Rattle.std.specs.Prelude.{◌≡◌, ℕ, List, nat_eq};
    ghost use Rattle.std.specs.List.{IsDistinct};
    ghost use Rattle.core_rule_sets.specs.declared.trie_again.Constraint.{Constraint};
    ghost use Rattle.core_rule_sets.specs.Listings.{sites_of};

    ghost Value = { List (ℕ × Constraint) };

    ghost view = { λ a. a.asked.items };

    ghost invariant = { λ a. (sites_of a.asked.items ≡ a.sites) × IsDistinct nat_eq (sites_of a.asked.items) };
}

impl Drop for AskedSites {
    fn drop(self) {
        let Self { sites: _, asked: _ } = self;
    }
}

impl AskedSites {
    /// Nothing. Takes no memory.
    pub(crate) fn new(alloc: Global) -> AskedSites
        ensures { result ≡ [] }
    {
        AskedSites {
            sites: Stack::new(alloc),
            asked: Vec::new(alloc),
        }
    }

    /// What is asked of a site, where something is.
    pub(crate) fn get(&self, site: BindingId) -> Option<Constraint>
        ensures { option_map constraint_view result ≡ constraint_at (constraint_views self.now) site }
    {
        match self.sites.place_of(site.0) {
            Some(place) => Some(self.asked[place].1),
            None => None,
        }
    }

    /// Asks something of a site of which nothing is asked.
    ///
    /// # Errors
    ///
    /// Where memory is refused.
    pub(crate) fn push(&mut self, site: BindingId, constraint: Constraint) -> Result<(), AllocError>
        requires { constraint_at (constraint_views self.old) site ≡ None }
        ensures { OnOk result (self.new ≡ self.old ++ (site, constraint) ∷ []) }
    {
        // so that both lists grow, or none
        self.asked.reserve(1)?;
        self.sites.push(site.0)?;
        self.asked.push((site, constraint))?;
        Ok(())
    }

    /// Takes all away.
    pub(crate) fn clear(&mut self)
        ensures { self.new ≡ [] }
    {
        self.sites.truncate(0);
        self.asked.clear();
    }

    /// The same, ascending by site.
    ///
    /// # Errors
    ///
    /// Where memory is refused.
    pub(crate) fn list(&self, alloc: Global) -> Result<Vec<(BindingId, Constraint)>, AllocError>
        ensures ascending { IfOk result (λ v. IsTrue (ascends (sites_of v.items))) }
        ensures asked { IfOk result (λ v. (s : ℕ) → constraint_at (constraint_views v.items) s ≡ constraint_at (constraint_views self.now) s) }
    {
        let mut listed = self.copy(alloc)?;
        listed.sort_unstable_by_key(|asked| asked.0);
        Ok(listed)
    }

    // The sites with what is asked of them, in a list of its own.
    fn copy(&self, alloc: Global) -> Result<Vec<(BindingId, Constraint)>, AllocError>
        ensures copied { IfOk result (λ v. v.items ≡ self.now) }
        ensures once { IsDistinct nat_eq (sites_of self.now) }
    {
        let mut copied = Vec::new(alloc);
        for asked in &self.asked {
            copied.push(*asked)?;
        }
        Ok(copied)
    }
}
