//! The tree of tests of a rule set. It picks the rule that trying all rules by descending priority would pick. One test
//! may serve several rules.

ghost use Rattle.std.specs.Prelude.{◌≡◌, IfOk, IsPermutation, IsTrue, length};
ghost use Rattle.model.specs.claims.Layers.{IsBuiltForSome, IsSerialized};
ghost use Rattle.model.specs.trees.Best.{descend};
ghost use Rattle.model.specs.trees.Tests.{up_to};
ghost use Rattle.model.specs.trees.Trees.{no_step};
ghost use Rattle.laws_trees.specs.OneTree.{IsOnlyBest};
ghost use Rattle.core_rule_sets.specs.Listings.{ascends};
ghost use Rattle.core_rule_sets.specs.SiteViews.{set_view};
ghost use Rattle.core_serialize.specs.TreeViews.{tree_view};

use crate::around::Around;
use crate::best::block_of;
use crate::calls::calls_by_rule;
use crate::fields::fields_by_source;
use crate::place::IndexedSet;
use crate::tests::priority;
use core_containers::stacks::Stack;
use core_rule_sets::trie_again::{BindingId, Constraint, RuleSet};
use core_syntax::syntax::Pos;
use laws_trees::{best_trees_mean_their_sets, built_sets_have_one_best_tree};
use std::alloc::{AllocError, Global};
use std::cmp::Reverse;

/// Steps, tried in order. If the test of a step fails, or its body runs through, the next step follows. A step may not
/// assume that an earlier one would have ended the run.
#[cycle(tree)]
#[derive(Clone, Debug, PartialEq)]
pub struct Block {
    /// The steps.
    pub steps: Vec<EvalStep>,
}

impl Drop for Block {
    #[cycle(drop)]
    fn drop(self) {
        let Self { steps: _ } = self;
    }
}

impl Block {
    /// A block without steps.
    #[tactic(auto, using(crate::proofs::TreeLaws::tree_steps))]
    pub fn new(alloc: Global) -> Block
        ensures { tree_view result ≡ no_step }
    {
        Block {
            steps: Vec::new(alloc),
        }
    }
}

/// Sites to bind, and then a test or an end. Calls and made values are bound first, because nothing can be computed while
/// a value is matched.
#[cycle(tree)]
#[derive(Clone, Debug, PartialEq)]
pub struct EvalStep {
    /// The sites to bind, in this order.
    pub bind_order: Vec<BindingId>,
    /// The test or the end.
    pub check: ControlFlow,
}

impl Drop for EvalStep {
    #[cycle(drop)]
    fn drop(self) {
        let Self {
            bind_order: _,
            check: _,
        } = self;
    }
}

/// A test or an end.
#[cycle(tree)]
#[derive(Clone, Debug, PartialEq)]
pub enum ControlFlow {
    /// Goes on in the arm whose constraint the value meets. No value meets the constraints of two arms.
    Match {
        /// The value.
        source: BindingId,
        /// The arms, with distinct constraints.
        arms: Vec<MatchArm>,
    },
    /// Goes on if two values are equal.
    Equal {
        /// One value.
        a: BindingId,
        /// The other value. It has the greater number, so each pair is written in one way.
        b: BindingId,
        /// What follows.
        body: Block,
    },
    /// Goes on once for each value that a call answered.
    Loop {
        /// The site of the current value, a `Binding::Iterator`.
        result: BindingId,
        /// What follows for each value.
        body: Block,
    },
    /// Picks a rule and ends the run. In a multi term it adds a result instead, and the next step follows.
    Return {
        /// Where the rule was defined. A reader of the tree finds the rule by it.
        pos: Pos,
        /// The value of the term.
        result: BindingId,
    },
}

impl Drop for ControlFlow {
    #[cycle(drop)]
    fn drop(self) {
        match self {
            ControlFlow::Match { source: _, arms: _ } => {}
            ControlFlow::Equal {
                a: _,
                b: _,
                body: _,
            } => {}
            ControlFlow::Loop { result: _, body: _ } => {}
            ControlFlow::Return { pos: _, result: _ } => {}
        }
    }
}

/// What follows if a value meets a constraint.
#[cycle(tree)]
#[derive(Clone, Debug, PartialEq)]
pub struct MatchArm {
    /// The constraint.
    pub constraint: Constraint,
    /// The site of each field that the constraint brings, in order; `None` if no rule of the set uses the field.
    pub bindings: Vec<Option<BindingId>>,
    /// What follows.
    pub body: Block,
}

impl Drop for MatchArm {
    #[cycle(drop)]
    fn drop(self) {
        let Self {
            constraint: _,
            bindings: _,
            body: _,
        } = self;
    }
}

/// Makes the best tree of a built set. At each place the tree makes the test that covers the most rules, for exactly the
/// rules that it covers. The tree means what the set means, and the set has no other best tree. A set without rules gives a
/// block without steps.
///
/// # Errors
///
/// Only if an allocation fails.
pub fn serialize(alloc: Global, set: &RuleSet) -> Result<Block, AllocError>
    requires { IsBuiltForSome (set_view set.now) }
    ensures serialized { IfOk result (λ block. IsSerialized (set_view set.now) (tree_view block)) }

    // it is the only best tree of the set
    ensures unique { IfOk result (λ block. IsOnlyBest (set_view set.now) (tree_view block)) }
{
    // laws, without code: best trees of built sets mean what the sets do, and no set has two
    best_trees_mean_their_sets();
    built_sets_have_one_best_tree();
    let numbers = all_rules(alloc, set)?;
    let here = in_order(set, numbers)?;
    let fields = fields_by_source(alloc, set)?;
    let calls = calls_by_rule(alloc, set)?;
    let indexed = IndexedSet {
        set,
        fields: &fields,
        calls: &calls,
    };
    let mut around = Around::new(alloc, set.rules.len())?;
    let mut found = Stack::new(alloc);
    block_of(alloc, &indexed, &mut around, &mut found, here)
}

// The numbers of all rules of a set, ascending.
fn all_rules(alloc: Global, set: &RuleSet) -> Result<Vec<usize>, AllocError>
    ensures { IfOk result (λ v. v.items ≡ up_to (length (set_view set.now).rules)) }
{
    let mut rules = Vec::new(alloc);
    for number in 0..set.rules.len() {
        rules.push(number)?;
    }
    Ok(rules)
}

// These rules by descending priority, those of one priority in rule order.
fn in_order(set: &RuleSet, here: Vec<usize>) -> Result<Vec<usize>, AllocError>
    requires { IsTrue (ascends here.items) }
    ensures permutation { IfOk result (λ v. IsPermutation here.items v.items) }
    ensures order { IfOk result (λ v. IsTrue (descend (set_view set.now).rules v.items)) }
{
    let mut order = here;
    order.sort_by_key(|number| Reverse(priority(set, *number)))?;
    Ok(order)
}
