//! How patterns are typed.

ghost use Rattle.std.specs.Prelude.{◌≡◌, ◌++◌, Some, OnOk, map, option_map};
ghost use Rattle.std.specs.Option.{option_to_list};
ghost use Rattle.core_syntax.specs.SyntaxViews as S;
ghost use Rattle.core_types.specs.Envs.{IsInterned};
ghost use Rattle.core_typed.specs.PatternViews.{pattern_view, pattern_views, pattern_parts};
ghost use Rattle.core_rules.specs.PatternTaking.{pattern_steps, parts_steps, each_steps};
ghost use Rattle.core_rules.specs.Taking.{Takes};
ghost use Rattle.core_rules.specs.ShownSettings.{standing, Keeps};
ghost use Rattle.core_syntax.specs.Positions.{pattern_positions, patterns_positions};
ghost use Rattle.core_rules.specs.RulePositions.{with_templates, StaysPlaced};

use crate::term_env::TermEnv;
use crate::typing::pattern_uses::PatternUse;
use crate::typing::progress::{Progress, Stop};
use core_syntax::syntax;
use core_typed::Pattern;
use core_types::{TypeEnv, TypeId};
use std::alloc::AllocError;

impl TermEnv {
    /// A pattern at a type, in a rule whose term is multi or not, where so many expansions may nest in one another. What is
    /// wrong is noted, and the work goes on as upstream's does. Upstream's `TermEnv::translate_pattern`.
    ///
    /// # Errors
    ///
    /// Where memory is refused, and where the rule passes a limit on expansions.
    #[cycle(translate_pattern)]
    pub(crate) fn translate_pattern(
        &self,
        tyenv: &mut TypeEnv,
        work: &mut Progress,
        pat: &syntax::Pattern,
        expected_ty: TypeId,
        multi: bool,
        nesting: usize,
    ) -> Result<Option<Pattern>, Stop>
        requires { IsInterned tyenv.old }
        ensures keeps { Keeps tyenv.old tyenv.new }
        ensures places { StaysPlaced (with_templates self.now (pattern_positions (S.pattern_view pat.now))) work.old.errors.items work.new.errors.items result }
        ensures reads { Takes self.now (standing tyenv.old work.old) (standing tyenv.new work.new)
            (pattern_steps multi (S.pattern_view pat.now) expected_ty.0 nesting) (option_map pattern_view) result }
    {
        match pat {
            syntax::Pattern::Var { var, pos } => {
                self.translate_var(tyenv, work, var, *pos, expected_ty)
            }
            syntax::Pattern::BindPattern { var, subpat, pos } => {
                let made = self.translate_pattern(
                    tyenv,
                    work,
                    subpat,
                    expected_ty,
                    multi,
                    nesting,
                )?;
                let Some(of) = made else {
                    return Ok(None);
                };
                self.bind_around(tyenv, work, var, *pos, of)
            }
            syntax::Pattern::ConstBool { val, pos } => {
                self.translate_bool(tyenv, work, *val, *pos, expected_ty)
            }
            syntax::Pattern::ConstInt { val, pos } => {
                self.translate_int(tyenv, work, *val, *pos, expected_ty)
            }
            syntax::Pattern::ConstPrim { val, pos } => {
                self.translate_prim(tyenv, work, val, *pos, expected_ty)
            }
            syntax::Pattern::Term { sym, args, pos } => {
                match self.use_in_pattern(
                    tyenv,
                    work,
                    pat,
                    sym,
                    args,
                    *pos,
                    expected_ty,
                    multi,
                    nesting,
                )? {
                    PatternUse::Wrong => Ok(None),
                    PatternUse::Expansion(made, left) => {
                        self.translate_pattern(tyenv, work, &made, expected_ty, multi, left)
                    }
                    PatternUse::Parts(term) => {
                        let tys = term.arg_tys.as_slice();
                        let parts = self.translate_args(tyenv, work, args, tys, multi, nesting)?;
                        Ok(Some(Pattern::Term(term.ret_ty, term.id, parts)))
                    }
                }
            }
            syntax::Pattern::Wildcard { .. } => Ok(Some(Pattern::Wildcard(expected_ty))),
            syntax::Pattern::And { subpats, .. } => {
                let parts = self.translate_each(tyenv, work, subpats, expected_ty, multi, nesting)?;
                Ok(Some(Pattern::And(expected_ty, parts)))
            }
            syntax::Pattern::MacroArg { index, pos } => {
                self.refuse_macro_arg(tyenv, work, *pos, *index, expected_ty)
            }
        }
    }

    /// Patterns for arguments, each at its type, as far as there are both. One for which nothing is made is left out.
    /// Upstream's `TermEnv::translate_args`.
    ///
    /// # Errors
    ///
    /// Where memory is refused, and where the rule passes a limit on expansions.
    #[cycle(translate_pattern)]
    pub(crate) fn translate_args(
        &self,
        tyenv: &mut TypeEnv,
        work: &mut Progress,
        args: &[syntax::Pattern],
        tys: &[TypeId],
        multi: bool,
        nesting: usize,
    ) -> Result<Vec<Pattern>, Stop>
        requires { IsInterned tyenv.old }
        ensures keeps { Keeps tyenv.old tyenv.new }
        ensures places { StaysPlaced (with_templates self.now (patterns_positions
            (S.pattern_views args.now))) work.old.errors.items work.new.errors.items result }
        ensures reads { Takes self.now (standing tyenv.old work.old) (standing tyenv.new work.new)
            (parts_steps multi (S.pattern_views args.now) (map (λ t. t.0) tys.now) nesting) (λ v. Some (pattern_parts (pattern_views v.items))) result }
    {
        let count = args.len().min(tys.len());
        let mut parts = Vec::with_capacity(*self.terms.allocator(), count)?;
        for i in 0..count {
            let part = self.translate_pattern(tyenv, work, &args[i], tys[i], multi, nesting)?;
            push_part(&mut parts, part)?;
        }
        Ok(parts)
    }

    // Patterns of one value. One for which nothing is made is left out.
    #[cycle(translate_pattern)]
    fn translate_each(
        &self,
        tyenv: &mut TypeEnv,
        work: &mut Progress,
        subpats: &[syntax::Pattern],
        expected_ty: TypeId,
        multi: bool,
        nesting: usize,
    ) -> Result<Vec<Pattern>, Stop>
        requires { IsInterned tyenv.old }
        ensures keeps { Keeps tyenv.old tyenv.new }
        ensures places { StaysPlaced (with_templates self.now (patterns_positions
            (S.pattern_views subpats.now))) work.old.errors.items work.new.errors.items result }
        ensures reads { Takes self.now (standing tyenv.old work.old) (standing tyenv.new work.new)
            (each_steps multi (S.pattern_views subpats.now) expected_ty.0 nesting) (λ v. Some (pattern_parts (pattern_views v.items))) result }
    {
        let mut parts = Vec::with_capacity(*self.terms.allocator(), subpats.len())?;
        for subpat in subpats {
            let part = self.translate_pattern(tyenv, work, subpat, expected_ty, multi, nesting)?;
            push_part(&mut parts, part)?;
        }
        Ok(parts)
    }
}

fn push_part(out: &mut Vec<Pattern>, made: Option<Pattern>) -> Result<(), AllocError>
    ensures { OnOk result (out.new.items ≡ out.old.items ++ option_to_list made) }
{
    if let Some(pattern) = made {
        out.push(pattern)?;
        return Ok(());
    }
    Ok(())
}
