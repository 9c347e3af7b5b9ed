//! How expressions without parts are typed, but for variables.

ghost use Rattle.std.specs.Prelude.{[], ◌∷◌, ℕ, OnOk, option_map};
ghost use Rattle.core_syntax.specs.SyntaxViews.{name_view, position};
ghost use Rattle.model.specs.lists.Syntax.{bool_expr, int_expr, prim_expr};
ghost use Rattle.model.specs.lists.Tables.{Flags};
ghost use Rattle.model.specs.lists.Setting.{is_expected};
ghost use Rattle.core_types.specs.Envs.{IsInterned};
ghost use Rattle.core_typed.specs.Elaborating.{NotesEachAt, place_unless};
ghost use Rattle.core_typed.specs.ExprViews.{expr_view};
ghost use Rattle.core_rules.specs.ExprReadings.{expected};
ghost use Rattle.core_rules.specs.ExprTaking.{expr_steps};
ghost use Rattle.core_rules.specs.Taking.{Takes};
ghost use Rattle.core_rules.specs.ShownSettings.{standing, Keeps};
ghost use Rattle.core_syntax.specs.Positions.{NotesAt};
ghost use Rattle.core_rules.specs.RulePositions.{StaysPlaced};

use crate::term_env::TermEnv;
use crate::typing::expr_uses::meets_expected;
use crate::typing::progress::{Progress, Stop};
use core_syntax::syntax::{Error, Ident, Pos};
use core_typed::Expr;
use core_typed::checks::{check_bool, check_integer, constant_type, literal_number};
use core_typed::reports::report_mismatch;
use core_types::{TypeEnv, TypeId, report, report_name};
use core_why::{Typed, Why, Wrong};
use std::alloc::AllocError;

impl TermEnv {
    // A truth value, which only the type of truth values has.
    pub(crate) fn make_bool(
        &self,
        tyenv: &TypeEnv,
        work: &mut Progress,
        val: bool,
        pos: Pos,
        expected_ty: Option<TypeId>,
    ) -> Result<Option<Expr>, Stop>
        ensures places { StaysPlaced (position pos ∷ []) work.old.errors.items work.new.errors.items result }
        ensures reads { (flags : Flags) (d : ℕ) → Takes self.now (standing tyenv.now work.old) (standing tyenv.now work.new)
            (expr_steps (bool_expr val (position pos)) flags (expected expected_ty) d) (option_map expr_view) result }
    {
        check_truth(tyenv, &mut work.errors, pos, val, expected_ty)?;
        Ok(Some(Expr::ConstBool(TypeId::BOOL, val)))
    }

    // An integer, at a type that is expected and has integers: one of the type's range, where it has one. What is noted
    // names the number as it is written.
    pub(crate) fn make_int(
        &self,
        tyenv: &TypeEnv,
        work: &mut Progress,
        val: i128,
        pos: Pos,
        expected_ty: Option<TypeId>,
    ) -> Result<Option<Expr>, Stop>
        ensures places { StaysPlaced (position pos ∷ []) work.old.errors.items work.new.errors.items result }
        ensures reads { (flags : Flags) (d : ℕ) → Takes self.now (standing tyenv.now work.old) (standing tyenv.now work.new)
            (expr_steps (int_expr val (position pos)) flags (expected expected_ty) d) (option_map expr_view) result }
    {
        let Some(ty) = expected_ty else {
            report(&mut work.errors, pos, Why::UntypedInteger)?;
            return Ok(None);
        };
        check_integer(tyenv, &mut work.errors, pos, val, ty)?;
        let number = literal_number(tyenv, ty, val);
        Ok(Some(Expr::ConstInt(ty, number)))
    }

    // A named constant, at its own type. One of another type is noted, and nothing is made.
    #[tactic(auto, using(core_syntax::proofs::Positioned::notes_nothing))]
    pub(crate) fn make_prim(
        &self,
        tyenv: &mut TypeEnv,
        work: &mut Progress,
        val: &Ident,
        pos: Pos,
        expected_ty: Option<TypeId>,
    ) -> Result<Option<Expr>, Stop>
        requires { IsInterned tyenv.old }
        ensures keeps { Keeps tyenv.old tyenv.new }
        ensures places { StaysPlaced (position pos ∷ []) work.old.errors.items work.new.errors.items result }
        ensures reads { (flags : Flags) (d : ℕ) → Takes self.now (standing tyenv.old work.old) (standing tyenv.new work.new)
            (expr_steps (prim_expr (name_view val.now) (position pos)) flags (expected expected_ty) d) (option_map expr_view) result }
    {
        let name = tyenv.intern_mut(val)?;
        let Some(ty) = constant_type(tyenv, name) else {
            report_name(&mut work.errors, pos, Wrong::UnknownConstant, &val.0)?;
            return Ok(None);
        };
        if !meets_expected(ty, expected_ty) {
            report_mismatch(
                tyenv,
                &mut work.errors,
                pos,
                Typed::Constant,
                val,
                ty,
                expected_ty,
            )?;
            return Ok(None);
        }
        Ok(Some(Expr::ConstPrim(ty, name)))
    }
}

// Whether a truth value is expected, or anything; else this is noted.
#[tactic(auto, using(core_syntax::proofs::Positioned::notes_nothing))]
fn check_truth(
    tyenv: &TypeEnv,
    errors: &mut Vec<Error>,
    pos: Pos,
    val: bool,
    expected_ty: Option<TypeId>,
) -> Result<(), AllocError>
    ensures places { OnOk result (NotesAt (position pos ∷ []) errors.old.items errors.new.items) }
    ensures exact { OnOk result (NotesEachAt (place_unless (is_expected (expected expected_ty) 0) (position pos)) errors.old.items errors.new.items) }
{
    match expected_ty {
        Some(ty) => check_bool(tyenv, errors, pos, val, ty),
        None => Ok(()),
    }
}
