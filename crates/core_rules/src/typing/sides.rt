//! How the if-lets of rules, their arguments and their right sides are typed.

ghost use Rattle.std.specs.Prelude.{◌≡◌, ◌∷◌, ◌++◌, OnOk, map, Some, option_map};
ghost use Rattle.std.specs.Option.{option_to_list};
ghost use Rattle.core_syntax.specs.SyntaxViews as S;
ghost use Rattle.model.specs.lists.Elaborated.{root_parts};
ghost use Rattle.core_terms.specs.TermViews.{flags_view, term_view};
ghost use Rattle.core_types.specs.Envs.{IsInterned};
ghost use Rattle.core_typed.specs.PatternViews.{pattern_views, pattern_parts};
ghost use Rattle.core_rules.specs.RuleReadings.{sides_view};
ghost use Rattle.core_rules.specs.RuleTaking.{iflet_steps, iflets_steps, root_steps, sides_steps};
ghost use Rattle.core_rules.specs.Taking.{Takes};
ghost use Rattle.core_typed.specs.RuleViews.{iflet_view};
ghost use Rattle.core_rules.specs.ShownSettings.{standing, Keeps};
ghost use Rattle.std.specs.List.{flat_map};
ghost use Rattle.core_syntax.specs.Positions.{patterns_positions, iflet_positions, rule_positions};
ghost use Rattle.core_rules.specs.RulePositions.{with_templates, StaysPlaced};

use crate::term_env::TermEnv;
use crate::typing::progress::{Progress, Stop};
use core_syntax::syntax;
use core_syntax::syntax::{Ident, Pos};
use core_terms::{Term, TermFlags};
use core_typed::checks::check_count;
use core_typed::{Expr, IfLet, Pattern};
use core_types::{TypeEnv, TypeId};
use std::alloc::AllocError;

/// What a rule matches and makes: its arguments, its if-lets, its right side.
#[derive(Drop)]
pub(crate) struct RuleSides {
    pub args: Vec<Pattern>,
    pub iflets: Vec<IfLet>,
    pub rhs: Expr,
}

impl TermEnv {
    /// An if-let of a rule of a term with these flags: its expression, of any type, then its pattern at that type. Upstream's
    /// `TermEnv::translate_iflet`.
    ///
    /// # Errors
    ///
    /// Where memory is refused, and where the rule passes a limit on expansions.
    pub(crate) fn translate_iflet(
        &self,
        tyenv: &mut TypeEnv,
        work: &mut Progress,
        iflet: &syntax::IfLet,
        flags: TermFlags,
        nesting: usize,
    ) -> Result<Option<IfLet>, Stop>
        requires { IsInterned tyenv.old }
        ensures keeps { Keeps tyenv.old tyenv.new }
        ensures places { StaysPlaced (with_templates self.now (iflet_positions (S.iflet_view iflet.now))) work.old.errors.items work.new.errors.items result }
        ensures reads { Takes self.now (standing tyenv.old work.old) (standing tyenv.new work.new)
            (iflet_steps (S.iflet_view iflet.now) (flags_view flags) nesting) (option_map iflet_view) result }
    {
        let value = self.translate_expr(tyenv, work, &iflet.expr, None, flags.on_lhs(), nesting)?;
        let Some(rhs) = value else {
            return Ok(None);
        };
        let ty = rhs.ty();
        let taken = self.translate_pattern(tyenv, work, &iflet.pattern, ty, flags.multi, nesting)?;
        let Some(lhs) = taken else {
            return Ok(None);
        };
        Ok(Some(IfLet { lhs, rhs }))
    }

    /// If-lets, in order. One for which nothing is made is left out.
    ///
    /// # Errors
    ///
    /// Where memory is refused, and where the rule passes a limit on expansions.
    pub(crate) fn translate_iflets(
        &self,
        tyenv: &mut TypeEnv,
        work: &mut Progress,
        iflets: &[syntax::IfLet],
        flags: TermFlags,
        nesting: usize,
    ) -> Result<Vec<IfLet>, Stop>
        requires { IsInterned tyenv.old }
        ensures keeps { Keeps tyenv.old tyenv.new }
        ensures places { StaysPlaced (with_templates self.now (flat_map iflet_positions
            (map S.iflet_view iflets.now))) work.old.errors.items work.new.errors.items result }
        ensures reads { Takes self.now (standing tyenv.old work.old) (standing tyenv.new work.new)
            (iflets_steps (map S.iflet_view iflets.now) (flags_view flags) nesting) (λ v. Some (map iflet_view v.items)) result }
    {
        let mut made = Vec::new(*self.terms.allocator());
        for iflet in iflets {
            let one = self.translate_iflet(tyenv, work, iflet, flags, nesting)?;
            push_iflet(&mut made, one)?;
        }
        Ok(made)
    }

    // The arguments of a rule whose term is multi or not, which are to be as many as its term has; else this is noted first.
    fn translate_root(
        &self,
        tyenv: &mut TypeEnv,
        work: &mut Progress,
        args: &[syntax::Pattern],
        tys: &[TypeId],
        sym: &Ident,
        pos: Pos,
        multi: bool,
        nesting: usize,
    ) -> Result<Vec<Pattern>, Stop>
        requires { IsInterned tyenv.old }
        ensures keeps { Keeps tyenv.old tyenv.new }
        ensures places { StaysPlaced (with_templates self.now (S.position pos ∷ patterns_positions
            (S.pattern_views args.now))) work.old.errors.items work.new.errors.items result }
        ensures reads { Takes self.now (standing tyenv.old work.old) (standing tyenv.new work.new)
            (root_steps multi (S.pattern_views args.now) (map (λ t. t.0) tys.now) (S.name_view sym.now) (S.position pos) nesting) (λ v. Some (pattern_parts (pattern_views v.items))) result }
    {
        check_count(&mut work.errors, pos, sym, args.len(), tys.len())?;
        self.translate_args(tyenv, work, args, tys, multi, nesting)
    }

    /// The sides of a rule of a term with these flags, whose root has this name and these arguments.
    ///
    /// # Errors
    ///
    /// Where memory is refused, and where the rule passes a limit on expansions.
    pub(crate) fn translate_sides(
        &self,
        tyenv: &mut TypeEnv,
        work: &mut Progress,
        rule: &syntax::Rule,
        sym: &Ident,
        args: &[syntax::Pattern],
        term: &Term,
        flags: TermFlags,
        nesting: usize,
    ) -> Result<Option<RuleSides>, Stop>
        requires inverse { IsInterned tyenv.old }
        requires root { root_parts (S.pattern_view rule.now.pattern) ≡ S.pattern_views args.now }
        ensures keeps { Keeps tyenv.old tyenv.new }
        ensures places { StaysPlaced (with_templates self.now (rule_positions (S.rule_view rule.now))) work.old.errors.items work.new.errors.items result }
        ensures reads { Takes self.now (standing tyenv.old work.old) (standing tyenv.new work.new)
            (sides_steps (S.rule_view rule.now) (S.name_view sym.now) (term_view term.now) (flags_view flags) nesting) (option_map sides_view) result }
    {
        let tys = term.arg_tys.as_slice();
        let parts = self.translate_root(
            tyenv,
            work,
            args,
            tys,
            sym,
            rule.pos,
            flags.multi,
            nesting,
        )?;
        let iflets = self.translate_iflets(tyenv, work, &rule.iflets, flags, nesting)?;
        let value = self.translate_expr(
            tyenv,
            work,
            &rule.expr,
            Some(term.ret_ty),
            flags,
            nesting,
        )?;
        let Some(rhs) = value else {
            return Ok(None);
        };
        Ok(Some(RuleSides {
            args: parts,
            iflets,
            rhs,
        }))
    }
}

fn push_iflet(out: &mut Vec<IfLet>, made: Option<IfLet>) -> Result<(), AllocError>
    ensures { OnOk result (out.new.items ≡ out.old.items ++ option_to_list made) }
{
    if let Some(iflet) = made {
        out.push(iflet)?;
        return Ok(());
    }
    Ok(())
}
