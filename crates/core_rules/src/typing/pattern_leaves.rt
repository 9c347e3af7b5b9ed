//! How patterns without parts are typed, and how a name is bound around a pattern.

ghost use Rattle.std.specs.Prelude.{[], ◌∷◌, not, None, OnOk, is_some, option_map, string_bytes};
ghost use Rattle.core_syntax.specs.SyntaxViews.{name_view, position};
ghost use Rattle.model.specs.lists.Syntax.{var_pattern, bool_pattern, int_pattern, prim_pattern, macro_arg};
ghost use Rattle.core_types.specs.Envs.{IsInterned};
ghost use Rattle.core_typed.specs.Elaborating.{NotesEachAt, place_unless};
ghost use Rattle.core_typed.specs.PatternViews.{pattern_view};
ghost use Rattle.core_rules.specs.PatternTaking.{leaf_steps, around_steps};
ghost use Rattle.core_rules.specs.Progress.{newest, Remains};
ghost use Rattle.core_rules.specs.Taking.{Takes};
ghost use Rattle.core_rules.specs.ShownSettings.{standing, Keeps};
ghost use Rattle.core_syntax.specs.Positions.{NotesAt};
ghost use Rattle.core_rules.specs.RulePositions.{StaysPlaced};

use crate::term_env::TermEnv;
use crate::typing::progress::{Progress, Stop};
use core_syntax::syntax::{Ident, Pos};
use core_typed::Pattern;
use core_typed::checks::{check_bool, check_integer, check_same, constant_type, literal_number};
use core_types::{Sym, TypeEnv, TypeId, report, report_name};
use core_why::{Typed, Why, Wrong};
use std::alloc::AllocError;

impl TermEnv {
    // A name that is bound already is a use of its variable, at that one's type; a new name is bound.
    #[tactic(auto, using(core_syntax::proofs::Positioned::notes_nothing))]
    pub(crate) fn translate_var(
        &self,
        tyenv: &mut TypeEnv,
        work: &mut Progress,
        var: &Ident,
        pos: Pos,
        expected_ty: TypeId,
    ) -> Result<Option<Pattern>, Stop>
        requires { IsInterned tyenv.old }
        ensures keeps { Keeps tyenv.old tyenv.new }
        ensures places { StaysPlaced (position pos ∷ []) work.old.errors.items work.new.errors.items result }
        ensures reads { Takes self.now (standing tyenv.old work.old) (standing tyenv.new work.new)
            (leaf_steps (var_pattern (name_view var.now) (position pos)) expected_ty.0) (option_map pattern_view) result }
    {
        let name = tyenv.intern_mut(var)?;
        let Some(bound) = work.lookup(name) else {
            let of = Box::new(*work.errors.allocator(), Pattern::Wildcard(expected_ty))?;
            let id = work.add_var(name, expected_ty)?;
            return Ok(Some(Pattern::BindPattern(expected_ty, id, of)));
        };
        check_same(
            tyenv,
            &mut work.errors,
            pos,
            Typed::Bound,
            var,
            bound.ty,
            expected_ty,
        )?;
        Ok(Some(Pattern::Var(bound.ty, bound.id)))
    }

    // A truth value, which only the type of truth values has.
    pub(crate) fn translate_bool(
        &self,
        tyenv: &TypeEnv,
        work: &mut Progress,
        val: bool,
        pos: Pos,
        expected_ty: TypeId,
    ) -> Result<Option<Pattern>, Stop>
        ensures places { StaysPlaced (position pos ∷ []) work.old.errors.items work.new.errors.items result }
        ensures reads { Takes self.now (standing tyenv.now work.old) (standing tyenv.now work.new)
            (leaf_steps (bool_pattern val (position pos)) expected_ty.0) (option_map pattern_view) result }
    {
        check_bool(tyenv, &mut work.errors, pos, val, expected_ty)?;
        Ok(Some(Pattern::ConstBool(TypeId::BOOL, val)))
    }

    // An integer, at a type that has integers: one of the type's range, where it has one. What is noted names the
    // number as it is written.
    pub(crate) fn translate_int(
        &self,
        tyenv: &TypeEnv,
        work: &mut Progress,
        val: i128,
        pos: Pos,
        expected_ty: TypeId,
    ) -> Result<Option<Pattern>, Stop>
        ensures places { StaysPlaced (position pos ∷ []) work.old.errors.items work.new.errors.items result }
        ensures reads { Takes self.now (standing tyenv.now work.old) (standing tyenv.now work.new)
            (leaf_steps (int_pattern val (position pos)) expected_ty.0) (option_map pattern_view) result }
    {
        check_integer(tyenv, &mut work.errors, pos, val, expected_ty)?;
        let number = literal_number(tyenv, expected_ty, val);
        Ok(Some(Pattern::ConstInt(expected_ty, number)))
    }

    // A named constant, at its own type.
    #[tactic(auto, using(core_syntax::proofs::Positioned::notes_nothing))]
    pub(crate) fn translate_prim(
        &self,
        tyenv: &mut TypeEnv,
        work: &mut Progress,
        val: &Ident,
        pos: Pos,
        expected_ty: TypeId,
    ) -> Result<Option<Pattern>, Stop>
        requires { IsInterned tyenv.old }
        ensures keeps { Keeps tyenv.old tyenv.new }
        ensures places { StaysPlaced (position pos ∷ []) work.old.errors.items work.new.errors.items result }
        ensures reads { Takes self.now (standing tyenv.old work.old) (standing tyenv.new work.new)
            (leaf_steps (prim_pattern (name_view val.now) (position pos)) expected_ty.0) (option_map pattern_view) result }
    {
        let name = tyenv.intern_mut(val)?;
        let Some(ty) = constant_type(tyenv, name) else {
            report_name(&mut work.errors, pos, Wrong::UnknownConstant, &val.0)?;
            return Ok(None);
        };
        check_same(
            tyenv,
            &mut work.errors,
            pos,
            Typed::MatchedConstant,
            val,
            ty,
            expected_ty,
        )?;
        Ok(Some(Pattern::ConstPrim(ty, name)))
    }

    // A pattern under a name, which must be new, and is bound after the pattern: a name that isn't new is noted, and
    // bound all the same.
    pub(crate) fn bind_around(
        &self,
        tyenv: &mut TypeEnv,
        work: &mut Progress,
        var: &Ident,
        pos: Pos,
        of: Pattern,
    ) -> Result<Option<Pattern>, Stop>
        requires { IsInterned tyenv.old }
        ensures keeps { Keeps tyenv.old tyenv.new }
        ensures places { StaysPlaced (position pos ∷ []) work.old.errors.items work.new.errors.items result }
        ensures reads { Takes self.now (standing tyenv.old work.old) (standing tyenv.new work.new)
            (around_steps (string_bytes var.now.0) (position pos) (pattern_view of)) (option_map pattern_view) result }
    {
        let ty = of.ty();
        let name = tyenv.intern_mut(var)?;
        let of = Box::new(*work.errors.allocator(), of)?;
        check_new(work, name, var, pos)?;
        let id = work.add_var(name, ty)?;
        Ok(Some(Pattern::BindPattern(ty, id, of)))
    }

    // A macro argument stands in templates alone.
    pub(crate) fn refuse_macro_arg(
        &self,
        tyenv: &TypeEnv,
        work: &mut Progress,
        pos: Pos,
        index: usize,
        expected_ty: TypeId,
    ) -> Result<Option<Pattern>, Stop>
        ensures places { StaysPlaced (position pos ∷ []) work.old.errors.items work.new.errors.items result }
        ensures reads { Takes self.now (standing tyenv.now work.old) (standing tyenv.now work.new)
            (leaf_steps (macro_arg index (position pos)) expected_ty.0) (option_map pattern_view) result }
    {
        report(&mut work.errors, pos, Why::MacroArgument(index))?;
        Ok(None)
    }
}

// Whether a name stands for no variable; else this is noted.
#[tactic(auto, using(core_syntax::proofs::Positioned::notes_nothing))]
fn check_new(work: &mut Progress, name: Sym, var: &Ident, pos: Pos) -> Result<(), AllocError>
    ensures remains { Remains work.old work.new }
    ensures places { OnOk result (NotesAt (position pos ∷ []) work.old.errors.items work.new.errors.items) }
    ensures exact { OnOk result (NotesEachAt (place_unless (not (is_some (newest work.old name.0))) (position pos)) work.old.errors.items work.new.errors.items) }
{
    let Some(_) = work.lookup(name) else {
        return Ok(());
    };
    report_name(&mut work.errors, pos, Wrong::Rebound, &var.0)
}
