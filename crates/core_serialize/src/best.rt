//! The best tree of a set: at each place the greatest test is made, for exactly the rules that it covers.

ghost use Rattle.std.specs.Prelude.{◌≡◌, ◌≤◌, ◌∷◌, [], None, IfOk, IsTrue, OnOk, length};
ghost use Rattle.model.specs.trees.Best.{descend};
ghost use Rattle.model.specs.trees.Places as Places;
ghost use Rattle.model.specs.trees.Tests as Tests;
ghost use Rattle.core_serialize.specs.AroundViews.{around_view, brings, where_joined};
ghost use Rattle.core_serialize.specs.Changes.{IsAfterTest, IsBack, IsKept, IsNewSource};
ghost use Rattle.core_serialize.specs.Growing.{AreBestArms, IsBestBody, IsBestFrom, IsStepOf};
ghost use Rattle.core_serialize.specs.PlaceViews.{set_in};
ghost use Rattle.core_serialize.specs.TestViews.{test_view};
ghost use Rattle.core_serialize.specs.TreeViews.{arms_view, check_view, tree_view};

use crate::arms::{asked_in_turn, next_arm};
use crate::around::{Around, join, number_of, take_apart};
use crate::bodies::{field_sites, go_in};
use crate::ends::returns_of;
use crate::parts::behind;
use crate::place::IndexedSet;
use crate::serialize::{Block, ControlFlow, EvalStep, MatchArm};
use crate::steps::{bind_test, next_test, pick_of};
use crate::tests::Test;
use core_containers::stacks::Stack;
use core_rule_sets::trie_again::BindingId;
use std::alloc::{AllocError, Global};

/// The best steps from a place on, whose rules stand in order: tests while some open test covers a rule, then the
/// returns of the rules that are left. What stands around the place is there again afterwards. `found` is room that all places
/// share: what it holds counts at none.
#[cycle(grow)]
pub fn block_of(
    alloc: Global,
    indexed: &IndexedSet<'_>,
    around: &mut Around,
    found: &mut Stack,
    here: Vec<usize>,
) -> Result<Block, AllocError>
    requires order { IsTrue (descend (set_in indexed.now).rules here.items) }
    requires kept { IsKept (set_in indexed.now) around.old }
    ensures best { IfOk result (λ b. IsBestFrom (set_in indexed.now) (around_view around.old) here.items (tree_view b)) }
    ensures back { OnOk result (IsBack around.old around.new) }
{
    let start = around.mark();
    let mut steps = Vec::new(alloc);
    let mut left = here;
    while let Some(next) = next_test(alloc, indexed, around, found, &left)? {
        let bind_order = bind_test(alloc, indexed, around, &next.test)?;
        let check = check_of(alloc, indexed, around, found, next.test, next.covered)?;
        steps.push(EvalStep { bind_order, check })?;
        left = next.others;
    }
    let mut ends = returns_of(alloc, indexed, around, &left)?;
    steps.append(&mut ends)?;
    around.go_back(start);
    Ok(Block { steps })
}

// What the step of an open test holds for these rules, which all need it. What the test emits is emitted already.
#[cycle(grow)]
fn check_of(
    alloc: Global,
    indexed: &IndexedSet<'_>,
    around: &mut Around,
    found: &mut Stack,
    test: Test,
    here: Vec<usize>,
) -> Result<ControlFlow, AllocError>
    requires order { IsTrue (descend (set_in indexed.now).rules here.items) }
    requires step { IsStepOf (set_in indexed.now) (around_view around.old) (test_view test) here.items }
    requires kept { IsKept (set_in indexed.now) around.old }
    ensures best { IfOk result (λ check. (ar : Places.Around) → IsAfterTest (set_in indexed.now) ar (test_view test) (around_view around.old) → IsBestBody (set_in indexed.now) ar (test_view test) here.items (check_view check)) }
    ensures back { OnOk result (IsBack around.old around.new) }
{
    match test {
        Test::Match { source } => {
            let arms = arms_of(alloc, indexed, around, found, source, here)?;
            Ok(ControlFlow::Match { source, arms })
        }
        Test::Equal { a, b } => {
            let body = joined_body(alloc, indexed, around, found, a, b, here)?;
            Ok(ControlFlow::Equal { a, b, body })
        }
        Test::Loop { source } => {
            let result = pick_of(indexed, source);
            let sites = [number_of(result)];
            let body = body_of(alloc, indexed, around, found, source, &sites, here)?;
            Ok(ControlFlow::Loop { result, body })
        }
    }
}

// The arms of a match for these rules, which all ask something of its source.
#[cycle(grow)]
fn arms_of(
    alloc: Global,
    indexed: &IndexedSet<'_>,
    around: &mut Around,
    found: &mut Stack,
    source: BindingId,
    here: Vec<usize>,
) -> Result<Vec<MatchArm>, AllocError>
    requires order { IsTrue (descend (set_in indexed.now).rules here.items) }
    requires step { IsStepOf (set_in indexed.now) (around_view around.old) (Tests.match_test source) here.items }
    requires kept { IsKept (set_in indexed.now) around.old }
    ensures best { IfOk result (λ v. (ar : Places.Around) → IsAfterTest (set_in indexed.now) ar (Tests.match_test source) (around_view around.old) → AreBestArms (set_in indexed.now) ar source None here.items (arms_view v.items)) }
    ensures back { OnOk result (IsBack around.old around.new) }
{
    let turns = asked_in_turn(alloc, indexed.set, source, &here)?;
    let mut arms = Vec::new(alloc);
    let mut left = behind(&turns, 0);
    while let Some(next) = next_arm(alloc, indexed, source, left)? {
        let asking = next.asking.len();
        let sites = field_sites(alloc, &next.fields)?;
        let body = body_of(alloc, indexed, around, found, source, &sites, next.asking)?;
        arms.push(MatchArm {
            constraint: next.constraint,
            bindings: next.fields,
            body,
        })?;
        left = behind(left, asking);
    }
    Ok(arms)
}

// The body of an arm or a loop of a source, which brings these sites, for these rules.
#[cycle(grow)]
fn body_of(
    alloc: Global,
    indexed: &IndexedSet<'_>,
    around: &mut Around,
    found: &mut Stack,
    source: BindingId,
    sites: &[u16],
    here: Vec<usize>,
) -> Result<Block, AllocError>
    requires order { IsTrue (descend (set_in indexed.now).rules here.items) }
    requires source { IsNewSource (set_in indexed.now) (around_view around.old) source }
    requires kept { IsKept (set_in indexed.now) around.old }
    ensures best { IfOk result (λ b. IsBestFrom (set_in indexed.now) (brings (around_view around.old) source sites.now) here.items (tree_view b)) }
    ensures back { OnOk result (IsBack around.old around.new) }
{
    let start = around.mark();
    go_in(indexed, around, source, sites, &here)?;
    let body = block_of(alloc, indexed, around, found, here)?;
    around.go_back(start);
    Ok(body)
}

// The body of an equality of two sites, for these rules.
#[cycle(grow)]
fn joined_body(
    alloc: Global,
    indexed: &IndexedSet<'_>,
    around: &mut Around,
    found: &mut Stack,
    a: BindingId,
    b: BindingId,
    here: Vec<usize>,
) -> Result<Block, AllocError>
    requires order { IsTrue (descend (set_in indexed.now).rules here.items) }
    requires pair { Tests.IsOpen (set_in indexed.now) (around_view around.old) (Tests.equal_test a b) }
    requires kept { IsKept (set_in indexed.now) around.old }
    ensures best { IfOk result (λ body. IsBestFrom (set_in indexed.now) (where_joined (around_view around.old) a b) here.items (tree_view body)) }
    ensures back { OnOk result (IsBack around.old around.new) }
{
    let renamed = join(alloc, around, a, b)?;
    let body = block_of(alloc, indexed, around, found, here)?;
    take_apart(around, renamed);
    Ok(body)
}
