//! What the demands of a rule are as lists that a set keeps: what is asked of sites, ascending by site, and the classes of
//! sites that must be equal.
ghost use Rattle.std.specs.Prelude.{◌≡◌, ℕ, IsTrue, IfOk, nat_eq};
ghost use Rattle.core_containers.specs.Partition.{IsPartition};
ghost use Rattle.model.specs.trees.Places.{constraint_at, joins_in};
ghost use Rattle.core_rule_sets.specs.SiteDemands.{are_equated, constraint_held};
ghost use Rattle.core_rule_sets.specs.Listings.{are_listed, ascends, class_lists, sites_of};
ghost use Rattle.core_rule_sets.specs.SiteViews.{constraint_views};

use crate::demanded::Demanded;
use crate::trie_again::{BindingId, Constraint};
use std::alloc::{AllocError, Global};

impl Demanded {
    /// What is asked of sites, ascending by site, each site once.
    ///
    /// # Errors
    ///
    /// Where memory is refused.
    pub fn list_constraints(
        &self,
        alloc: Global,
    ) -> Result<Vec<(BindingId, Constraint)>, AllocError>
        ensures ascending { IfOk result (λ v. IsTrue (ascends (sites_of v.items))) }
        ensures asked { IfOk result (λ v. (s : ℕ) → constraint_at (constraint_views v.items) s ≡ constraint_held self.now s) }
    {
        self.constraints.list(alloc)
    }

    /// The classes of sites that must be equal: each ascending and of two sites or more, by their least sites.
    ///
    /// # Errors
    ///
    /// Where memory is refused.
    pub fn list_classes(&self, alloc: Global) -> Result<Vec<Vec<BindingId>>, AllocError>
        ensures listed { IfOk result (λ v. IsTrue (are_listed (class_lists v.items))) }
        ensures joined { IfOk result (λ v. (a b : ℕ) → joins_in (class_lists v.items) a b ≡ are_equated self.now a b) }
        ensures partition { IfOk result (λ v. IsPartition nat_eq self.now.equals) }
    {
        self.equals.list(alloc)
    }
}
