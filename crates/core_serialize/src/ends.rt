//! The end of a block: the rules that no open test covers return one after another.

ghost use Rattle.std.specs.Prelude.{◌≡◌, IsTrue, None, Some, IfOk, OnOk, slice_get};
ghost use Rattle.model.specs.trees.Best.{descend};
ghost use Rattle.model.specs.trees.Places as Places;
ghost use Rattle.model.specs.trees.Places.{return_uses};
ghost use Rattle.model.specs.trees.Trees as Trees;
ghost use Rattle.core_rule_sets.specs.SiteViews.{set_rule_view, set_view};
ghost use Rattle.core_serialize.specs.AroundViews.{around_view, AreEmitted};
ghost use Rattle.core_serialize.specs.Changes.{Emits, IsKept};
ghost use Rattle.core_serialize.specs.Growing.{AreEnds};
ghost use Rattle.core_serialize.specs.PlaceViews.{set_in};
ghost use Rattle.core_serialize.specs.TreeViews.{check_view, steps_view};

use crate::around::Around;
use crate::binds::bind;
use crate::place::IndexedSet;
use crate::serialize::{ControlFlow, EvalStep};
use core_rule_sets::trie_again::{BindingId, Rule, RuleSet};
use core_syntax::syntax::Pos;
use std::alloc::{AllocError, Global};

// What the rule of a number uses: its impure calls in order, then its result.
fn used_by(alloc: Global, set: &RuleSet, number: usize) -> Result<Vec<BindingId>, AllocError>
    ensures { IfOk result (λ v. v.items ≡ return_uses (slice_get (set_view set.now).rules number)) }
{
    let mut used = Vec::new(alloc);
    if let Some(rule) = set.rules.get(number) {
        used.extend_from_slice(&rule.impure)?;
        used.push(rule.result)?;
    }
    Ok(used)
}

#[tactic(auto, using(crate::proofs::TreeLaws::tree_steps))]
fn return_from(rule: &Rule) -> ControlFlow
    ensures { check_view result ≡ Trees.return_of (Some (set_rule_view rule.now)) }
{
    ControlFlow::Return {
        pos: rule.pos,
        result: rule.result,
    }
}

// The return that stands where there is no rule.
#[tactic(auto, using(crate::proofs::TreeLaws::tree_steps))]
fn return_from_none() -> ControlFlow
    ensures { check_view result ≡ Trees.return_of None }
{
    ControlFlow::Return {
        pos: Pos { file: 0, offset: 0 },
        result: BindingId::from(0),
    }
}

#[tactic(auto, using(crate::proofs::TreeLaws::tree_steps))]
fn return_of(set: &RuleSet, number: usize) -> ControlFlow
    ensures { check_view result ≡ Trees.return_of (slice_get (set_view set.now).rules number) }
{
    match set.rules.get(number) {
        Some(rule) => return_from(rule),
        None => return_from_none(),
    }
}

// The step that returns by a rule.
fn return_step(
    alloc: Global,
    indexed: &IndexedSet<'_>,
    around: &mut Around,
    number: usize,
) -> Result<EvalStep, AllocError>
    requires { IsKept (set_in indexed.now) around.old }
    ensures binds { IfOk result (λ s. s.bind_order.items ≡ Places.bind_order (set_in indexed.now).sites (around_view around.old) (return_uses (slice_get (set_in indexed.now).rules number))) }
    ensures check { IfOk result (λ s. check_view s.check ≡ Trees.return_of (slice_get (set_in indexed.now).rules number)) }
    ensures emitted { OnOk result (AreEmitted (set_in indexed.now) (around_view around.old) (return_uses (slice_get (set_in indexed.now).rules number)) around.new.emitted) }
    ensures emits { OnOk result (Emits around.old around.new) }
    ensures kept { OnOk result (IsKept (set_in indexed.now) around.new) }
{
    let used = used_by(alloc, indexed.set, number)?;
    let bind_order = bind(alloc, indexed, around, &used, &used)?;
    let check = return_of(indexed.set, number);
    Ok(EvalStep { bind_order, check })
}

/// The returns of these rules, which stand in order, each with its impure calls and its result bound.
pub fn returns_of(
    alloc: Global,
    indexed: &IndexedSet<'_>,
    around: &mut Around,
    here: &[usize],
) -> Result<Vec<EvalStep>, AllocError>
    requires order { IsTrue (descend (set_in indexed.now).rules here.now) }
    requires kept { IsKept (set_in indexed.now) around.old }
    ensures ends { IfOk result (λ v. AreEnds (set_in indexed.now) (around_view around.old) here.now (steps_view v.items)) }
    ensures emits { OnOk result (Emits around.old around.new) }
{
    let mut steps = Vec::with_capacity(alloc, here.len())?;
    for number in here {
        let step = return_step(alloc, indexed, around, *number)?;
        steps.push(step)?;
    }
    Ok(steps)
}
