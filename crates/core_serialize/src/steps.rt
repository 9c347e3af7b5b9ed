//! The test steps of a place: which test comes next, and what its step binds, covers and leaves.

ghost use Rattle.std.specs.Prelude.{◌≡◌, IfOk, IsTrue, OnOk, option_map};
ghost use Rattle.model.specs.trees.Best.{descend};
ghost use Rattle.model.specs.trees.Places as Places;
ghost use Rattle.core_serialize.specs.AroundViews.{around_view, NamesClasses};
ghost use Rattle.core_serialize.specs.Changes.{Emits, IsKept};
ghost use Rattle.core_serialize.specs.FieldTests.{HasIterator, IsIteratorOf};
ghost use Rattle.core_serialize.specs.Growing.{test_sites, AreEmittedBy, IsNext};
ghost use Rattle.core_serialize.specs.Matches.{AreMatched};
ghost use Rattle.core_serialize.specs.PlaceViews.{around_at, here_at, set_at, set_in};
ghost use Rattle.core_serialize.specs.TestViews.{test_view, IsBestOpen, IsChosen};

use crate::around::{Around, emitted_end};
use crate::binds::{bind, sources_of};
use crate::fields::iterator_of;
use crate::open_tests::best_open;
use crate::place::{IndexedSet, Place};
use crate::tests::{Scored, Test, parted};
use core_containers::stacks::Stack;
use core_rule_sets::trie_again::BindingId;
use std::alloc::{AllocError, Global};

/// The test that is made at a place, and what goes with it.
#[derive(Debug, Drop)]
pub struct NextTest {
    /// The test.
    pub test: Test,
    /// The rules that it covers: its step holds these.
    pub covered: Vec<usize>,
    /// The other rules of the place: they are left for the steps behind it.
    pub others: Vec<usize>,
}

/// What is bound before the step of a test. What the test emits is emitted then.
pub fn bind_test(
    alloc: Global,
    indexed: &IndexedSet<'_>,
    around: &mut Around,
    test: &Test,
) -> Result<Vec<BindingId>, AllocError>
    requires { IsKept (set_in indexed.now) around.old }
    ensures binds { IfOk result (λ v. v.items ≡ Places.bind_order (set_in indexed.now).sites (around_view around.old) (test_sites (test_view test.now))) }
    ensures emitted { OnOk result (AreEmittedBy (set_in indexed.now) (around_view around.old) (test_view test.now) around.new.emitted) }
    ensures emits { OnOk result (Emits around.old around.new) }
    ensures kept { OnOk result (IsKept (set_in indexed.now) around.new) }
{
    match test {
        Test::Match { source } => {
            let used = [*source];
            bind(alloc, indexed, around, &used, &used)
        }
        Test::Equal { a, b } => {
            let used = [*a, *b];
            bind(alloc, indexed, around, &used, &used)
        }
        // the call itself may be bound again, so that its sources alone are emitted
        Test::Loop { source } => {
            let call = [*source];
            bind(
                alloc,
                indexed,
                around,
                &call,
                sources_of(indexed.set, *source),
            )
        }
    }
}

// The test that is made at a place, of its best open one.
fn chosen_of(place: &Place<'_>, best: Option<Scored>) -> Option<Test>
    requires { IsBestOpen (set_at place.now) (around_at place.now) (here_at place.now) best }
    ensures { IsChosen (set_at place.now) (around_at place.now) (here_at place.now) (option_map test_view result) }
{
    match best {
        Some(best) if best.score.count > 0 => Some(best.test),
        _ => None,
    }
}

// The test that is made at a place: the greatest one, where it covers some rule.
fn chosen_test(
    alloc: Global,
    place: &Place<'_>,
    found: &mut Stack,
) -> Result<Option<Test>, AllocError>
    ensures { IfOk result (λ o. IsChosen (set_at place.now) (around_at place.now) (here_at place.now) (option_map test_view o)) }
{
    let best = best_open(alloc, place, found)?;
    Ok(chosen_of(place, best))
}

/// The test that is made next at a place with these rules, and none where the place is an end. `found` is room for the search.
pub fn next_test(
    alloc: Global,
    indexed: &IndexedSet<'_>,
    around: &Around,
    found: &mut Stack,
    here: &[usize],
) -> Result<Option<NextTest>, AllocError>
    requires order { IsTrue (descend (set_in indexed.now).rules here.now) }
    requires named { NamesClasses around.now.joined.items around.now.names.items }
    requires matched { AreMatched (set_in indexed.now).rules around.now.matched.counts.items around.now.sources }
    ensures { IfOk result (λ o. IsNext (set_in indexed.now) (around_view around.now) here.now o) }
{
    if here.is_empty() {
        return Ok(None);
    }
    let place = Place {
        indexed: *indexed,
        around,
        here,
        emitted_end: emitted_end(around),
    };
    let Some(test) = chosen_test(alloc, &place, found)? else {
        return Ok(None);
    };
    let (covered, others) = parted(alloc, indexed.set, here, &test)?;
    Ok(Some(NextTest {
        test,
        covered,
        others,
    }))
}

/// The site that stands for each answer of a call that a rule goes over: a built set has one.
pub fn pick_of(indexed: &IndexedSet<'_>, call: BindingId) -> BindingId
    requires { HasIterator (set_in indexed.now).sites call }
    ensures { IsIteratorOf (set_in indexed.now).sites call result }
{
    match iterator_of(indexed, call) {
        Some(each) => each,
        None => unreachable!(),
    }
}
