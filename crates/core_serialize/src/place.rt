//! A place of a tree, and the set that the tree is made of.

ghost use Rattle.std.specs.Prelude.{◌≡◌, ◌<◌, ℕ, true, IsTrue};
ghost use Rattle.model.specs.trees.Best.{descend};
ghost use Rattle.model.specs.trees.Places.{is_in};
ghost use Rattle.core_rule_sets.specs.SiteViews.{set_view};
ghost use Rattle.core_serialize.specs.AroundViews.{NamesClasses};
ghost use Rattle.core_serialize.specs.FieldTests.{AreFields};
ghost use Rattle.core_serialize.specs.Growing.{CanGrow};
ghost use Rattle.core_serialize.specs.Matches.{AreMatched};
ghost use Rattle.core_serialize.specs.RuleCalls.{AreCalls};

use crate::around::Around;
use crate::calls::CallsByRule;
use crate::fields::FieldsBySource;
use core_rule_sets::trie_again::RuleSet;

/// A set of which a tree can be grown, its fields by their sources, and its calls by rules. All places of the tree share it.
#[derive(Clone, Copy)]
pub struct IndexedSet<'a> {
    /// The rules and their sites.
    pub set: &'a RuleSet,
    /// The sites that arms and loops bring.
    pub fields: &'a FieldsBySource,
    /// The calls that rules go over.
    pub calls: &'a CallsByRule,
    pub ghost can_grow: { CanGrow (set_view set.now) },
    pub ghost are_fields: { AreFields (set_view set.now).sites fields.now },
    pub ghost are_calls: { AreCalls (set_view set.now) calls.now },
}

/// A place of a tree, for the time in which its next test is searched.
#[derive(Clone, Copy)]
pub struct Place<'a> {
    /// The set that the tree is made of.
    pub indexed: IndexedSet<'a>,
    /// What stands around the place.
    pub around: &'a Around,
    /// The rules of the place, in order.
    pub here: &'a [usize],
    /// No site of this number or a later one is emitted.
    pub emitted_end: usize,
    pub ghost are_named: { NamesClasses around.now.joined.items around.now.names.items },
    pub ghost are_matched: { AreMatched (set_view indexed.set.now).rules around.now.matched.counts.items around.now.sources },
    pub ghost ends: { (s : ℕ) → is_in s around.now.emitted ≡ true → s < emitted_end },
    pub ghost in_order: { IsTrue (descend (set_view indexed.set.now).rules here.now) },
}
