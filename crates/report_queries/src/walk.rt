//! A walk over a tree: each step once, in the order in which the printed tree has them.

ghost use Rattle.std.specs.Prelude.{◌≡◌, ◌++◌, ◌∷◌, [], length, IfOk, OnOk};
ghost use Rattle.cranelift_isle.specs.Trees.{no_arm};
ghost use Rattle.cranelift_isle.specs.TreeViews.{arm_view, check_view, tree_view};
ghost use Rattle.report_queries.specs.Walks.{step_place, steps_from, steps_inside, steps_from_root, steps_of_arms, turn_view, turn_views, visit_view, visit_views};

use cranelift_isle::serialize::{Block, ControlFlow, EvalStep, MatchArm};
use cranelift_isle::trie_again::{BindingId, Constraint};
use std::alloc::{AllocError, Global};

/// A test that stands around a step: what has held where the step is reached.
#[derive(Clone, Copy, PartialEq, Eq, Debug)]
pub enum Turn {
    /// A value met a constraint.
    Arm {
        /// The value.
        source: BindingId,
        /// The constraint.
        constraint: Constraint,
    },
    /// Two values were equal.
    Equal {
        /// One value.
        a: BindingId,
        /// The other one.
        b: BindingId,
    },
    /// This is one of the values that a call answered.
    Loop {
        /// The site that stands for each of them in turn.
        result: BindingId,
    },
}

/// A step of a tree, with what stands around it.
#[derive(Drop)]
pub struct Visit<'a> {
    /// The tests around the step, outermost first.
    pub path: Vec<Turn>,
    /// The step, with all that is inside it.
    pub step: &'a EvalStep,
}

impl<'a> Visit<'a> {
    /// How many tests stand around the step.
    pub fn depth(&self) -> usize
        ensures { result ≡ length (visit_view self.now).path }
    {
        self.path.len()
    }
}

/// Each step of a tree once: a step, then those inside it, arm by arm, then the next one of its block.
///
/// # Errors
///
/// Where memory is refused.
pub fn steps<'a>(alloc: Global, block: &'a Block) -> Result<Vec<Visit<'a>>, AllocError>
    ensures { IfOk result (λ v. visit_views v.items ≡ steps_from_root (tree_view block.now)) }
{
    let mut out = Vec::new(alloc);
    push_block(alloc, &mut out, &[], block)?;
    Ok(out)
}

#[cycle(walk)]
fn push_block<'a>(
    alloc: Global,
    out: &mut Vec<Visit<'a>>,
    path: &[Turn],
    block: &'a Block,
) -> Result<(), AllocError>
    ensures { OnOk result (visit_views out.new.items ≡ visit_views out.old.items ++ steps_from (turn_views path.now) (tree_view block.now)) }
{
    for step in &block.steps {
        push_visit(alloc, out, path, step)?;
        push_inside(alloc, out, path, &step.check)?;
    }
    Ok(())
}

#[cycle(walk)]
fn push_inside<'a>(
    alloc: Global,
    out: &mut Vec<Visit<'a>>,
    path: &[Turn],
    check: &'a ControlFlow,
) -> Result<(), AllocError>
    ensures { OnOk result (visit_views out.new.items ≡ visit_views out.old.items ++ steps_inside (turn_views path.now) (check_view check.now)) }
{
    match check {
        ControlFlow::Match { source, arms } => {
            for arm in arms {
                push_arm(alloc, out, path, *source, arm)?;
            }
            Ok(())
        }
        ControlFlow::Equal { a, b, body } => {
            let inner = with_turn(alloc, path, Turn::Equal { a: *a, b: *b })?;
            push_block(alloc, out, &inner, body)
        }
        ControlFlow::Loop { result, body } => {
            let inner = with_turn(alloc, path, Turn::Loop { result: *result })?;
            push_block(alloc, out, &inner, body)
        }
        ControlFlow::Return { .. } => Ok(()),
    }
}

#[cycle(walk)]
fn push_arm<'a>(
    alloc: Global,
    out: &mut Vec<Visit<'a>>,
    path: &[Turn],
    source: BindingId,
    arm: &'a MatchArm,
) -> Result<(), AllocError>
    ensures { OnOk result (visit_views out.new.items ≡ visit_views out.old.items ++ steps_of_arms (turn_views path.now) source (arm_view arm.now no_arm)) }
{
    let turn = Turn::Arm {
        source,
        constraint: arm.constraint,
    };
    let inner = with_turn(alloc, path, turn)?;
    push_block(alloc, out, &inner, &arm.body)
}

fn push_visit<'a>(
    alloc: Global,
    out: &mut Vec<Visit<'a>>,
    path: &[Turn],
    step: &'a EvalStep,
) -> Result<(), AllocError>
    ensures { OnOk result (visit_views out.new.items ≡ visit_views out.old.items ++ step_place path.now step.now ∷ []) }
{
    let path = path_of(alloc, path)?;
    out.push(Visit { path, step })?;
    Ok(())
}

fn path_of(alloc: Global, path: &[Turn]) -> Result<Vec<Turn>, AllocError>
    ensures { IfOk result (λ v. v.items ≡ path.now) }
{
    path.iter().copied().collect(alloc)
}

// A path with one more test.
fn with_turn(alloc: Global, path: &[Turn], turn: Turn) -> Result<Vec<Turn>, AllocError>
    ensures { IfOk result (λ v. turn_views v.items ≡ turn_views path.now ++ turn_view turn ∷ []) }
{
    let mut longer = path_of(alloc, path)?;
    longer.push(turn)?;
    Ok(longer)
}
