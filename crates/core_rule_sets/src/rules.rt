//! What is asked of one rule of a set.
ghost use Rattle.std.specs.Prelude.{◌≡◌, ℕ, List, IfOk, IsTrue, option_map};
ghost use Rattle.laws_sites.specs.RuleByRule.{AreListedAs};
ghost use Rattle.model.specs.sites.Closure.{Closed};
ghost use Rattle.model.specs.sites.Sites.{Site};
ghost use Rattle.model.specs.trees.Places.{constraint_at, joins_in};
ghost use Rattle.core_rule_sets.specs.Closings.{AreDemandsOf};
ghost use Rattle.core_rule_sets.specs.Listings.{are_listed, ascends, class_lists, sites_of};
ghost use Rattle.core_rule_sets.specs.SiteViews.{constraint_view, empty_rule, set_rule_view};

use crate::demanded::Demanded;
use crate::trie_again::{BindingId, Constraint, Rule};
use core_containers::disjointsets::DisjointSets;
use core_syntax::stablemapset::StableSet;
use core_syntax::syntax::Pos;
use core_types::RuleId;
use std::alloc::{AllocError, Global};

impl Rule {
    /// A rule that demands nothing: zeros, no name and empty parts.
    pub fn new(alloc: Global) -> Rule
        ensures { set_rule_view result ≡ empty_rule }
    {
        Rule {
            id: RuleId(0),
            pos: Pos { file: 0, offset: 0 },
            constraints: Vec::new(alloc),
            equals: DisjointSets::new(alloc),
            iterators: StableSet::new(alloc),
            prio: 0,
            name: None,
            impure: Vec::new(alloc),
            result: BindingId(0),
            classes: Vec::new(alloc),
        }
    }

    /// A rule that demands these, and is nothing else yet: zeros, no name, no calls. Its other parts are set after; upstream
    /// fills `RuleSetBuilder::current_rule` as it goes.
    ///
    /// # Errors
    ///
    /// Where memory is refused.
    pub fn demanding(alloc: Global, demanded: &mut Demanded) -> Result<Rule, AllocError>
        ensures listed { (sites : List Site) (k : Closed) → AreDemandsOf sites demanded.old k
            → IfOk result (λ r. AreListedAs sites k (set_rule_view r).constraints (set_rule_view r).classes) }
        ensures nothing_else { IfOk result (λ r. set_rule_view r
            ≡ record empty_rule { constraints = (set_rule_view r).constraints; classes = (set_rule_view r).classes }) }
    {
        let constraints = demanded.list_constraints(alloc)?;
        let classes = demanded.list_classes(alloc)?;
        Ok(Rule {
            id: RuleId(0),
            pos: Pos { file: 0, offset: 0 },
            constraints,
            equals: demanded.take_equals(alloc),
            iterators: StableSet::new(alloc),
            prio: 0,
            name: None,
            impure: Vec::new(alloc),
            result: BindingId(0),
            classes,
        })
    }

    /// What the rule asks of sites, ascending by site, each site once.
    pub fn constraints(&self) -> &[(BindingId, Constraint)]
        ensures value { result.now ≡ self.now.constraints.items }
        ensures ascending { IsTrue (ascends (sites_of result.now)) }
    {
        &self.constraints
    }

    /// The classes of `equals`: each ascending and of two sites or more, by their least sites.
    pub fn classes(&self) -> &[Vec<BindingId>]
        ensures joined { (a b : ℕ) → joins_in (class_lists result.now) a b ≡ joins_in (set_rule_view self.now).classes a b }
        ensures listed { IsTrue (are_listed (class_lists result.now)) }
    {
        &self.classes
    }

    /// What the rule asks of a site, where it asks something.
    pub fn get_constraint(&self, source: BindingId) -> Option<Constraint>
        ensures { option_map constraint_view result ≡ constraint_at (set_rule_view self.now).constraints source }
    {
        match self
            .constraints
            .binary_search_by_key(&source, |asked| asked.0)
        {
            Ok(place) => Some(self.constraints[place].1),
            Err(_) => None,
        }
    }
}
