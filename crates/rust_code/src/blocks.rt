//! The code of a tree. Past some depth the body of a test gets a label, and the tests at its end leave it, so that long chains
//! of tests don't nest.

ghost use Rattle.std.specs.Prelude.{◌≡◌, ℕ, false, IfOk, OnOk};
ghost use Rattle.model.specs.trees.Trees as Trees;
ghost use Rattle.model_code.specs.Code as Code;
ghost use Rattle.model_code.specs.Code.{no_code_arm, no_statement};
ghost use Rattle.model_code.specs.Flat.{flat_arms, flat_at, leaving_last};
ghost use Rattle.model_code.specs.TreeCode.{binds_code};
ghost use Rattle.core_rule_sets.specs.SiteViews.{constraint_view, site_views};
ghost use Rattle.core_serialize.specs.TreeViews as Tree;
ghost use Rattle.core_serialize.specs.TreeViews.{arms_view, check_view, steps_view, tree_view};
ghost use Rattle.core_serialize.specs.declared.serialize.MatchArm.{out-MatchArm};
ghost use Rattle.rust_code.specs.CodeViews.{arm_view, arms_before, before, block_view, statement_view};
ghost use Rattle.rust_code.specs.HeldViews.{passes_in};
ghost use Rattle.rust_code.specs.Labels.{arms_in, body_in, check_in, code_in, is_deep, room_at, shaped, with_check, IsWhereEnded};

use crate::binds::add_binds;
use crate::code::{CodeArm, CodeBlock, Statement};
use crate::stage::Stage;
use crate::tests::{
    add_unless_equal, add_unless_let, compared, given, in_label, is_end, loop_over, matched,
};
use core_rule_sets::trie_again::BindingId;
use core_serialize::serialize::{Block, ControlFlow, EvalStep, MatchArm};
use std::alloc::AllocError;

/// Adds the code of steps. `room` says how much deeper bodies nest before they get labels. Within a label, which `leaves` says, a
/// test at their end leaves it where it isn't met; all other tests have braces around what follows them.
#[cycle(code)]
pub(crate) fn add_steps(
    steps: &[EvalStep],
    stage: &Stage<'_>,
    out: &mut Vec<Statement>,
    room: usize,
    leaves: bool,
) -> Result<(), AllocError>
    ensures { OnOk result ((n : ℕ) → room ≡ room_at n → before out.new.items no_statement
        ≡ before out.old.items (shaped leaves (code_in stage.now (steps_view steps.now)) n)) }
{
    let mut number = 0;
    for step in steps {
        number += 1;
        let ends = is_end(leaves, number, steps.len());
        add_step(step, stage, out, room, ends)?;
    }
    Ok(())
}

// Adds the code of a step, which ends the block of a label or not.
#[cycle(code)]
fn add_step(
    step: &EvalStep,
    stage: &Stage<'_>,
    out: &mut Vec<Statement>,
    room: usize,
    ends: bool,
) -> Result<(), AllocError>
    ensures { OnOk result ((n : ℕ) (rest : Code.Block) → room ≡ room_at n → IsWhereEnded ends rest → before out.new.items rest
        ≡ before out.old.items (binds_code (site_views stage.now.sites.now) (passes_in stage.now) step.now.bind_order.items
        (with_check ends (check_in stage.now (check_view step.now.check)) n rest))) }
{
    add_binds(stage, out, &step.bind_order)?;
    if ends {
        Ok(add_last(&step.check, stage, out, room)?)
    } else {
        Ok(add_check(&step.check, stage, out, room)?)
    }
}

// Adds a test with braces around what follows it, or a result.
#[cycle(code)]
fn add_check(
    check: &ControlFlow,
    stage: &Stage<'_>,
    out: &mut Vec<Statement>,
    room: usize,
) -> Result<(), AllocError>
    ensures { OnOk result ((n : ℕ) (rest : Code.Block) → room ≡ room_at n → before out.new.items rest
        ≡ before out.old.items (with_check false (check_in stage.now (check_view check.now)) n rest)) }
{
    let tested = check_of(check, stage, room)?;
    out.push(tested)?;
    Ok(())
}

// A test with what follows it, or a result.
#[cycle(code)]
fn check_of(check: &ControlFlow, stage: &Stage<'_>, room: usize) -> Result<Statement, AllocError>
    ensures { IfOk result (λ s. (n : ℕ) → room ≡ room_at n → statement_view s ≡ flat_at (check_in stage.now (check_view check.now)) is_deep n) }
{
    match check {
        ControlFlow::Match { source, arms } => {
            let made = arms_of(arms, stage, room)?;
            Ok(matched(stage, *source, made))
        }
        ControlFlow::Equal { a, b, body } => {
            let made = body_of(body, stage, room)?;
            Ok(compared(stage, *a, *b, made))
        }
        ControlFlow::Loop { result, body } => {
            let made = body_of(body, stage, room)?;
            Ok(loop_over(stage, *result, made))
        }
        ControlFlow::Return { pos, result } => Ok(given(stage, *pos, *result)),
    }
}

#[cycle(code)]
fn arms_of(arms: &[MatchArm], stage: &Stage<'_>, room: usize) -> Result<Vec<CodeArm>, AllocError>
    ensures { IfOk result (λ v. (n : ℕ) → room ≡ room_at n → arms_before v.items no_code_arm ≡ flat_arms (arms_in stage.now (arms_view arms.now)) is_deep n) }
{
    let mut out = Vec::new(stage.alloc);
    for arm in arms {
        let made = arm_of(arm, stage, room)?;
        out.push(made)?;
    }
    Ok(out)
}

#[cycle(code)]
fn arm_of(arm: &MatchArm, stage: &Stage<'_>, room: usize) -> Result<CodeArm, AllocError>
    ensures { IfOk result (λ a. (n : ℕ) (rest : Code.CodeArms) → room ≡ room_at n → arm_view a rest
        ≡ Code.code_arm (constraint_view (out-MatchArm arm.now).constraint) (out-MatchArm arm.now).bindings.items
        (body_in stage.now (tree_view (out-MatchArm arm.now).body) n) rest) }
{
    let fields = Vec::from_slice(stage.alloc, &arm.bindings)?;
    let body = body_of(&arm.body, stage, room)?;
    Ok(CodeArm {
        pattern: arm.constraint,
        fields,
        body,
    })
}

// The body of a test. It gets a label where there is no room for more braces.
#[cycle(code)]
fn body_of(body: &Block, stage: &Stage<'_>, room: usize) -> Result<CodeBlock, AllocError>
    ensures { IfOk result (λ b. (n : ℕ) → room ≡ room_at n → block_view b ≡ body_in stage.now (tree_view body.now) n) }
{
    let is_deep = room == 0;
    let inside = room.saturating_sub(1);
    let mut statements = Vec::new(stage.alloc);
    add_steps(&body.steps, stage, &mut statements, inside, is_deep)?;
    Ok(in_label(stage, statements, is_deep)?)
}

// Adds the test that ends the block of a label: one with one outcome leaves it where it isn't met.
#[cycle(code)]
fn add_last(
    check: &ControlFlow,
    stage: &Stage<'_>,
    out: &mut Vec<Statement>,
    room: usize,
) -> Result<(), AllocError>
    ensures { OnOk result ((n : ℕ) → room ≡ room_at n → before out.new.items no_statement
        ≡ before out.old.items (leaving_last (check_in stage.now (check_view check.now)) is_deep n)) }
{
    match check {
        ControlFlow::Match { source, arms } => match arms.as_slice() {
            [] => Ok(add_check(check, stage, out, room)?),
            [arm] => Ok(add_unless(arm, stage, out, *source, room)?),
            [_, _, ..] => Ok(add_check(check, stage, out, room)?),
        },
        ControlFlow::Equal { a, b, body } => {
            add_unless_equal(stage, out, *a, *b)?;
            Ok(add_steps(&body.steps, stage, out, room, true)?)
        }
        ControlFlow::Loop { .. } => Ok(add_check(check, stage, out, room)?),
        ControlFlow::Return { .. } => Ok(add_check(check, stage, out, room)?),
    }
}

// Adds a match of one arm at the end of the block of a label.
#[cycle(code)]
fn add_unless(
    arm: &MatchArm,
    stage: &Stage<'_>,
    out: &mut Vec<Statement>,
    source: BindingId,
    room: usize,
) -> Result<(), AllocError>
    ensures { OnOk result ((n : ℕ) → room ≡ room_at n → before out.new.items no_statement
        ≡ before out.old.items (leaving_last (check_in stage.now (Trees.match_at source (Tree.arm_view arm.now Trees.no_arm))) is_deep n)) }
{
    add_unless_let(stage, out, source, arm.constraint, &arm.bindings)?;
    Ok(add_steps(&arm.body.steps, stage, out, room, true)?)
}
