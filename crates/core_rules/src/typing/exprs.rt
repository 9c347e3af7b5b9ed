//! How expressions are typed.

ghost use Rattle.std.specs.Prelude.{◌≡◌, ◌∷◌, ◌++◌, Some, OnOk, map, option_map};
ghost use Rattle.std.specs.Option.{option_to_list};
ghost use Rattle.core_syntax.specs.SyntaxViews as S;
ghost use Rattle.model.specs.lists.Syntax.{no_let, let_expr};
ghost use Rattle.core_terms.specs.TermViews.{flags_view};
ghost use Rattle.core_types.specs.Envs.{IsInterned};
ghost use Rattle.core_rules.specs.ExprReadings.{expected};
ghost use Rattle.core_typed.specs.ExprViews.{expr_view, expr_views, expr_parts, let_views, let_parts};
ghost use Rattle.core_rules.specs.ExprTaking.{expr_steps, args_steps};
ghost use Rattle.core_rules.specs.LetTaking.{lets_steps, one_def_steps, def_view, defs_made, def_made, HidesBy};
ghost use Rattle.core_rules.specs.Lets.{with_let};
ghost use Rattle.core_rules.specs.Taking.{Takes};
ghost use Rattle.core_rules.specs.ShownSettings.{standing, Keeps};
ghost use Rattle.core_syntax.specs.Positions.{expr_positions, exprs_positions, lets_positions};
ghost use Rattle.core_rules.specs.RulePositions.{StaysPlaced};

use crate::term_env::TermEnv;
use crate::typing::expr_uses::{CallUse, VarUse};
use crate::typing::lets::{begin_def, bind_def, end_let, push_def};
use crate::typing::progress::{Progress, Stop};
use core_syntax::syntax;
use core_syntax::syntax::{LetDef, Pos};
use core_terms::TermFlags;
use core_typed::{BoundVar, Expr};
use core_types::{Sym, TypeEnv, TypeId, VarId};
use std::alloc::AllocError;

impl TermEnv {
    /// An expression where a type, or any type, is expected, under the flags in force and where so many expansions may nest
    /// in one another. What is wrong is noted, and the work goes on as upstream's does; a term that has no constructor is
    /// noted after all rules, as upstream notes it. Upstream's `TermEnv::translate_expr`.
    ///
    /// # Errors
    ///
    /// Where memory is refused, and where the rule passes a limit on expansions.
    #[cycle(translate_expr)]
    pub(crate) fn translate_expr(
        &self,
        tyenv: &mut TypeEnv,
        work: &mut Progress,
        expr: &syntax::Expr,
        expected_ty: Option<TypeId>,
        flags: TermFlags,
        nesting: usize,
    ) -> Result<Option<Expr>, Stop>
        requires { IsInterned tyenv.old }
        ensures keeps { Keeps tyenv.old tyenv.new }
        ensures places { StaysPlaced (expr_positions (S.expr_view expr.now)) work.old.errors.items work.new.errors.items result }
        ensures reads { Takes self.now (standing tyenv.old work.old) (standing tyenv.new work.new)
            (expr_steps (S.expr_view expr.now) (flags_view flags) (expected expected_ty) nesting) (option_map expr_view) result }
    {
        match expr {
            syntax::Expr::Term { sym, args, pos } => {
                match self.use_in_expr(
                    tyenv,
                    work,
                    expr,
                    sym,
                    args,
                    *pos,
                    expected_ty,
                    flags,
                    nesting,
                )? {
                    CallUse::Wrong => Ok(None),
                    CallUse::Conversion(inside, left) => {
                        self.translate_expr(tyenv, work, &inside, expected_ty, flags, left)
                    }
                    CallUse::Parts(term) => {
                        let tys = term.arg_tys.as_slice();
                        let parts = self.translate_exprs(tyenv, work, args, tys, flags, nesting)?;
                        Ok(Some(Expr::Term(term.ret_ty, term.id, parts)))
                    }
                }
            }
            syntax::Expr::Var { name, pos } => {
                match self.use_var(tyenv, work, expr, name, *pos, expected_ty, nesting)? {
                    VarUse::Wrong => Ok(None),
                    VarUse::Conversion(inside, left) => {
                        self.translate_expr(tyenv, work, &inside, expected_ty, flags, left)
                    }
                    VarUse::Var(var) => Ok(Some(Expr::Var(var.ty, var.id))),
                }
            }
            syntax::Expr::ConstBool { val, pos } => {
                self.make_bool(tyenv, work, *val, *pos, expected_ty)
            }
            syntax::Expr::ConstInt { val, pos } => {
                self.make_int(tyenv, work, *val, *pos, expected_ty)
            }
            syntax::Expr::ConstPrim { val, pos } => {
                self.make_prim(tyenv, work, val, *pos, expected_ty)
            }
            syntax::Expr::Let { defs, body, pos } => self.translate_let(
                tyenv,
                work,
                defs,
                body,
                *pos,
                expected_ty,
                flags,
                nesting,
            ),
        }
    }

    // Expressions for arguments, each at its type, as far as there are both. One for which nothing is made is left out.
    #[cycle(translate_expr)]
    fn translate_exprs(
        &self,
        tyenv: &mut TypeEnv,
        work: &mut Progress,
        args: &[syntax::Expr],
        tys: &[TypeId],
        flags: TermFlags,
        nesting: usize,
    ) -> Result<Vec<Expr>, Stop>
        requires { IsInterned tyenv.old }
        ensures keeps { Keeps tyenv.old tyenv.new }
        ensures reads { Takes self.now (standing tyenv.old work.old) (standing tyenv.new work.new)
            (args_steps (S.expr_views args.now) (flags_view flags) (map (λ t. t.0) tys.now) nesting) (λ v. Some (expr_parts (expr_views v.items))) result }
        ensures places { StaysPlaced (exprs_positions (S.expr_views args.now)) work.old.errors.items work.new.errors.items result }
    {
        let count = args.len().min(tys.len());
        let mut parts = Vec::with_capacity(*self.terms.allocator(), count)?;
        for i in 0..count {
            let part = self.translate_expr(tyenv, work, &args[i], Some(tys[i]), flags, nesting)?;
            push_expr(&mut parts, part)?;
        }
        Ok(parts)
    }

    // A let: its definitions, then its body, where the definitions' names can be used. A let for whose body nothing is made
    // leaves its scope open, as upstream's does.
    #[cycle(translate_expr)]
    fn translate_let(
        &self,
        tyenv: &mut TypeEnv,
        work: &mut Progress,
        defs: &[LetDef],
        body: &syntax::Expr,
        pos: Pos,
        expected_ty: Option<TypeId>,
        flags: TermFlags,
        nesting: usize,
    ) -> Result<Option<Expr>, Stop>
        requires { IsInterned tyenv.old }
        ensures keeps { Keeps tyenv.old tyenv.new }
        ensures places { StaysPlaced (expr_positions (let_expr (S.let_views defs.now) (S.expr_view body.now)
            (S.position pos))) work.old.errors.items work.new.errors.items result }
        ensures reads { Takes self.now (standing tyenv.old work.old) (standing tyenv.new work.new)
            (expr_steps (let_expr (S.let_views defs.now) (S.expr_view body.now) (S.position pos)) (flags_view flags) (expected expected_ty) nesting) (option_map expr_view) result }
    {
        let mut hidden = Vec::new(*self.terms.allocator());
        let bindings = self.translate_defs(tyenv, work, &mut hidden, defs, pos, flags, nesting)?;
        let made = self.translate_expr(tyenv, work, body, expected_ty, flags, nesting)?;
        let Some(body) = made else {
            return Ok(None);
        };
        let whole = end_let(work, &hidden, bindings, body)?;
        Ok(Some(whole))
    }

    // The definitions of a let, in order. One for which nothing is made is left out, and its name isn't bound.
    #[cycle(translate_expr)]
    fn translate_defs(
        &self,
        tyenv: &mut TypeEnv,
        work: &mut Progress,
        hidden: &mut Vec<(Sym, Option<BoundVar>)>,
        defs: &[LetDef],
        pos: Pos,
        flags: TermFlags,
        nesting: usize,
    ) -> Result<Vec<(VarId, TypeId, Box<Expr>)>, Stop>
        requires { IsInterned tyenv.old }
        ensures keeps { Keeps tyenv.old tyenv.new }
        ensures places { StaysPlaced (S.position pos ∷ lets_positions (S.let_views defs.now)) work.old.errors.items work.new.errors.items result }
        ensures reads { Takes self.now (standing tyenv.old work.old) (standing tyenv.new work.new)
            (lets_steps (S.let_views defs.now) (flags_view flags) (S.position pos) nesting) (λ v. Some (let_parts (let_views v.items))) result }
        ensures hides { OnOk result (HidesBy self.now (standing tyenv.old work.old)
            (lets_steps (S.let_views defs.now) (flags_view flags) (S.position pos) nesting) defs_made hidden.old.items hidden.new.items) }
    {
        let mut bindings = Vec::with_capacity(*self.terms.allocator(), defs.len())?;
        for def in defs {
            let made = self.translate_def(tyenv, work, hidden, def, pos, flags, nesting)?;
            push_def(&mut bindings, made)?;
        }
        Ok(bindings)
    }

    // A definition of a let: its value, which may use the earlier ones, then its name is bound.
    #[cycle(translate_expr)]
    fn translate_def(
        &self,
        tyenv: &mut TypeEnv,
        work: &mut Progress,
        hidden: &mut Vec<(Sym, Option<BoundVar>)>,
        def: &LetDef,
        pos: Pos,
        flags: TermFlags,
        nesting: usize,
    ) -> Result<Option<(VarId, TypeId, Box<Expr>)>, Stop>
        requires { IsInterned tyenv.old }
        ensures keeps { Keeps tyenv.old tyenv.new }
        ensures places { StaysPlaced (S.position pos ∷ lets_positions (with_let def.now no_let)) work.old.errors.items work.new.errors.items result }
        ensures reads { Takes self.now (standing tyenv.old work.old) (standing tyenv.new work.new)
            (one_def_steps def.now (flags_view flags) (S.position pos) nesting) (option_map def_view) result }
        ensures hides { OnOk result (HidesBy self.now (standing tyenv.old work.old)
            (one_def_steps def.now (flags_view flags) (S.position pos) nesting) def_made hidden.old.items hidden.new.items) }
    {
        let Some((name, ty)) = begin_def(tyenv, &mut work.errors, def, pos)? else {
            return Ok(None);
        };
        let made = self.translate_expr(tyenv, work, &def.val, Some(ty), flags, nesting)?;
        let Some(val) = made else {
            return Ok(None);
        };
        let bound = bind_def(work, hidden, name, ty, val)?;
        Ok(Some(bound))
    }
}

fn push_expr(out: &mut Vec<Expr>, made: Option<Expr>) -> Result<(), AllocError>
    ensures { OnOk result (out.new.items ≡ out.old.items ++ option_to_list made) }
{
    if let Some(expr) = made {
        out.push(expr)?;
        return Ok(());
    }
    Ok(())
}
