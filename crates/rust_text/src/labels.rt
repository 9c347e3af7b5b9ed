//! Which labels are left, and what ends a block.

ghost use Rattle.std.specs.Prelude.{◌≡◌};
ghost use Rattle.model_code.specs.Code.{no_code_arm, no_statement};
ghost use Rattle.model_code.specs.Pieces as Pieces;
ghost use Rattle.model_code.specs.Pieces.{is_left, leaves_arms, leaves_at};
ghost use Rattle.rust_code.specs.CodeViews.{arms_before, before, statement_view};

use rust_code::code::{CodeArm, Statement};

/// Whether nothing of a block is written behind a statement: no run comes to `unreachable!()`, and a result may end the function,
/// which `ends` says.
#[tactic(auto, using(rust_code::proofs::CodeBridges::code_steps))]
pub(crate) fn is_end(ends: bool, statement: &Statement) -> bool
    ensures { result ≡ Pieces.is_end ends (statement_view statement.now) }
{
    match statement {
        Statement::NoWay => true,
        Statement::Give { .. } => ends,
        Statement::Bind { .. } => false,
        Statement::BindSome { .. } => false,
        Statement::MatchOn { .. } => false,
        Statement::IfEqual { .. } => false,
        Statement::ForEachOf { .. } => false,
        Statement::Labelled { .. } => false,
        Statement::UnlessLet { .. } => false,
        Statement::UnlessEqual { .. } => false,
    }
}

/// Whether a test that is written leaves the label next around these statements. `ends`: whether a result ends the function.
#[cycle(leaves)]
pub(crate) fn leaves_label(ends: bool, statements: &[Statement]) -> bool
    ensures { result ≡ is_left ends (before statements.now no_statement) }
{
    for statement in statements {
        if leaves_at(ends, statement) {
            return true;
        }
        if is_end(ends, statement) {
            return false;
        }
    }
    false
}

// Whether a statement does.
#[tactic(auto, using(rust_code::proofs::CodeBridges::code_steps))]
#[cycle(leaves)]
fn leaves_at(ends: bool, statement: &Statement) -> bool
    ensures { result ≡ leaves_at ends (statement_view statement.now) }
{
    match statement {
        Statement::MatchOn { arms, .. } => leaves_in(ends, arms),
        Statement::IfEqual { body, .. } => leaves_label(ends, &body.statements),
        Statement::ForEachOf { body, .. } => leaves_label(ends, &body.statements),
        Statement::UnlessLet { .. } => true,
        Statement::UnlessEqual { .. } => true,
        Statement::Bind { .. } => false,
        Statement::BindSome { .. } => false,
        Statement::NoWay => false,
        Statement::Give { .. } => false,
        Statement::Labelled { .. } => false,
    }
}

// Whether the bodies of arms do.
#[cycle(leaves)]
fn leaves_in(ends: bool, arms: &[CodeArm]) -> bool
    ensures { result ≡ leaves_arms ends (arms_before arms.now no_code_arm) }
{
    for arm in arms {
        if leaves_label(ends, &arm.body.statements) {
            return true;
        }
    }
    false
}
