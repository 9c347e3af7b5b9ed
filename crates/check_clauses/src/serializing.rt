//! Calls that make the trees of tests, under their own clauses.

ghost use Rattle.std.specs.Prelude.{◌≡◌, IfOk, IsTrue, MatchOption, not, OnOk, option_map};
ghost use Rattle.std.specs.List.{filter};
ghost use Rattle.model.specs.trees.Best.{descend};
ghost use Rattle.model.specs.trees.Tests as Tests;
ghost use Rattle.core_rule_sets.specs.SiteViews.{set_view};
ghost use Rattle.core_serialize.specs.AroundViews.{around_view, NamesClasses};
ghost use Rattle.core_serialize.specs.Changes.{Emits, IsBack, IsKept};
ghost use Rattle.core_serialize.specs.Growing.{AreEnds, IsBestFrom, IsNext};
ghost use Rattle.core_serialize.specs.Matches.{AreMatched};
ghost use Rattle.core_serialize.specs.PlaceViews.{around_at, here_at, set_at, set_in};
ghost use Rattle.core_serialize.specs.TestViews.{greater_test, test_view, IsScored};
ghost use Rattle.core_serialize.specs.TreeViews.{steps_view, tree_view};

use core_containers::stacks::Stack;
use core_rule_sets::trie_again::RuleSet;
use core_serialize::around::Around;
use core_serialize::best::block_of;
use core_serialize::ends::returns_of;
use core_serialize::place::{IndexedSet, Place};
use core_serialize::serialize::{Block, EvalStep};
use core_serialize::steps::{NextTest, next_test};
use core_serialize::tests::{Scored, Test, greater_of, parted};
use std::alloc::{AllocError, Global};

/// `next_test`, the test that is made next at a place.
///
/// # Errors
///
/// As it has them.
pub fn test_at(
    alloc: Global,
    indexed: &IndexedSet<'_>,
    around: &Around,
    found: &mut Stack,
    here: &[usize],
) -> Result<Option<NextTest>, AllocError>
    requires order { IsTrue (descend (set_in indexed.now).rules here.now) }
    requires named { NamesClasses around.now.joined.items around.now.names.items }
    requires matched { AreMatched (set_in indexed.now).rules around.now.matched.counts.items around.now.sources }
    ensures { IfOk result (λ o. IsNext (set_in indexed.now) (around_view around.now) here.now o) }
{
    next_test(alloc, indexed, around, found, here)
}

/// `parted`, the rules of a place that a test covers, and the others.
///
/// # Errors
///
/// As it has them.
pub fn parts(
    alloc: Global,
    set: &RuleSet,
    here: &[usize],
    test: &Test,
) -> Result<(Vec<usize>, Vec<usize>), AllocError>
    requires { IsTrue (descend (set_view set.now).rules here.now) }
    ensures covered { IfOk result (λ p. p.0.items ≡ Tests.cover (set_view set.now).rules here.now (test_view test.now)) }
    ensures others { IfOk result (λ p. p.1.items ≡ filter (λ i. not (Tests.is_covered (set_view set.now).rules here.now (test_view test.now) i)) here.now) }
{
    parted(alloc, set, here, test)
}

/// `greater_of`, the greater one of a test and of another one, if there is one.
pub fn greater(place: &Place<'_>, best: Option<Scored>, test: &Test) -> Scored
    requires { MatchOption best (Unit {0}) (IsScored (set_at place.now) (around_at place.now) (here_at place.now)) }
    ensures test { result.test ≡ greater_test (set_at place.now) (around_at place.now) (here_at place.now) (option_map (λ s. s.test) best) test.now }
    ensures score { IsScored (set_at place.now) (around_at place.now) (here_at place.now) result }
{
    greater_of(place, best, test)
}

/// `block_of`, the best steps from a place on.
///
/// # Errors
///
/// As it has them.
pub fn block(
    alloc: Global,
    indexed: &IndexedSet<'_>,
    around: &mut Around,
    found: &mut Stack,
    here: Vec<usize>,
) -> Result<Block, AllocError>
    requires order { IsTrue (descend (set_in indexed.now).rules here.items) }
    requires kept { IsKept (set_in indexed.now) around.old }
    ensures best { IfOk result (λ b. IsBestFrom (set_in indexed.now) (around_view around.old) here.items (tree_view b)) }
    ensures back { OnOk result (IsBack around.old around.new) }
{
    block_of(alloc, indexed, around, found, here)
}

/// `returns_of`, the returns that close a block.
///
/// # Errors
///
/// As it has them.
pub fn returns(
    alloc: Global,
    indexed: &IndexedSet<'_>,
    around: &mut Around,
    here: &[usize],
) -> Result<Vec<EvalStep>, AllocError>
    requires order { IsTrue (descend (set_in indexed.now).rules here.now) }
    requires kept { IsKept (set_in indexed.now) around.old }
    ensures ends { IfOk result (λ v. AreEnds (set_in indexed.now) (around_view around.old) here.now (steps_view v.items)) }
    ensures emits { OnOk result (Emits around.old around.new) }
{
    returns_of(alloc, indexed, around, here)
}
