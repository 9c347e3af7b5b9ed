//! What names in expressions stand for: variables and terms.

ghost use Rattle.std.specs.Bool.{◌==◌};
ghost use Rattle.std.specs.Prelude.{◌≡◌, ◌||◌, [], ◌∷◌, ◌++◌, true, not, IfOk, OnOk, option_map, option_and_then, length, string_bytes};
ghost use Rattle.core_syntax.specs.SyntaxViews.{name_view, position, expr_view, expr_views};
ghost use Rattle.model.specs.lists.Syntax.{term_expr, var_expr};
ghost use Rattle.model.specs.lists.Setting.{is_expected};
ghost use Rattle.model.specs.lists.Tables.{Flags};
ghost use Rattle.laws_errors.specs.ExprSteps.{forbidden};
ghost use Rattle.core_terms.specs.TermViews.{flags_view, term_view};
ghost use Rattle.core_types.specs.Envs.{symbol_of, IsInterned};
ghost use Rattle.core_syntax.specs.NotedErrors.{NotesMore};
ghost use Rattle.core_typed.specs.Elaborating.{NotesEachAt, place_unless};
ghost use Rattle.core_rules.specs.ExprReadings.{expected};
ghost use Rattle.core_rules.specs.ExprTaking.{VarTakes, CallTakes, VarDeepens, CallDeepens};
ghost use Rattle.core_rules.specs.ExprUses.{found_expr_converter, declared_converter, inside_call, allowed};
ghost use Rattle.core_rules.specs.Progress.{newest, Remains};
ghost use Rattle.core_typed.specs.RuleViews.{var_view};
ghost use Rattle.core_rules.specs.Taking.{places_of};
ghost use Rattle.core_rules.specs.ShownSettings.{standing};
ghost use Rattle.core_syntax.specs.Positions.{NotesAt, expr_positions};
ghost use Rattle.core_rules.specs.RulePositions.{StaysPlaced, ConvertsAmong, CallsAmong};

use crate::term_env::TermEnv;
use crate::typing::progress::{Progress, Stop};
use core_syntax::syntax::{Error, Expr, Ident, Pos};
use core_terms::{Term, TermFlags, TermKind};
use core_typed::BoundVar;
use core_typed::checks::check_count;
use core_typed::reports::report_mismatch;
use core_types::{TypeEnv, TypeId, report_name};
use core_why::{Typed, Wrong};
use std::alloc::AllocError;

/// What the use of a variable in an expression stands for.
#[derive(Drop)]
pub(crate) enum VarUse {
    /// Nothing: this was noted.
    Wrong,
    /// This expression, by a conversion, in which so many may nest.
    Conversion(Expr, usize),
    /// The variable itself, of the type that is expected; or else this was noted.
    Var(BoundVar),
}

/// What the use of a term in an expression stands for.
#[derive(Drop)]
pub(crate) enum CallUse<'a> {
    /// Nothing: this was noted.
    Wrong,
    /// This expression, by a conversion, in which so many may nest.
    Conversion(Expr, usize),
    /// The term itself, which the flags in force allow, with as many parts as it has arguments; or else this was noted.
    Parts(&'a Term),
}

impl TermEnv {
    /// The term that converts expressions of a type into the one that is expected, where that is another one.
    #[tactic(auto, using(crate::proofs::UsedTerms::entry_at))]
    fn expr_converter(&self, inner: TypeId, outer: Option<TypeId>) -> Option<&Term>
        ensures { option_map (λ t. term_view t.now) result ≡ found_expr_converter self.now inner.0 (expected outer) }
    {
        let outer = outer?;
        if inner == outer {
            return None;
        }
        let id = self.converters.get(&(inner, outer))?;
        let by = self.terms.get(id.index())?;
        if by.has_constructor() { Some(by) } else { None }
    }

    /// The term that is declared to convert a type into the one that is expected, where that is another one, whether it can
    /// make a value or not.
    #[tactic(auto, using(crate::proofs::UsedTerms::entry_at))]
    fn declared_converter(&self, inner: TypeId, outer: Option<TypeId>) -> Option<&Term>
        ensures { option_map (λ t. term_view t.now) result ≡ declared_converter self.now inner.0 (expected outer) }
    {
        let outer = outer?;
        if inner == outer {
            return None;
        }
        let id = self.converters.get(&(inner, outer))?;
        self.terms.get(id.index())
    }

    /// What a use of a variable where a type, or any type, is expected stands for, where so many expansions may nest.
    pub(crate) fn use_var(
        &self,
        tyenv: &TypeEnv,
        work: &mut Progress,
        whole: &Expr,
        name: &Ident,
        pos: Pos,
        expected_ty: Option<TypeId>,
        nesting: usize,
    ) -> Result<VarUse, Stop>
        requires inverse { IsInterned tyenv.now }
        requires whole { expr_view whole.now ≡ var_expr (name_view name.now) (position pos) }
        ensures deeper { VarDeepens nesting (expr_view whole.now) result }
        ensures places { StaysPlaced (position pos ∷ []) work.old.errors.items work.new.errors.items result }
        ensures among { ConvertsAmong (expr_positions (expr_view whole.now)) result }
        ensures reads { (flags : Flags) → VarTakes self.now (standing tyenv.now work.old) (standing tyenv.now work.new) nesting
            (expr_view whole.now) flags (expected expected_ty) result }
    {
        let Some(bound) = find_var(tyenv, work, name) else {
            report_name(&mut work.errors, pos, Wrong::UnknownVariable, &name.0)?;
            return Ok(VarUse::Wrong);
        };
        if let Some(by) = self.expr_converter(bound.ty, expected_ty) {
            let left = work.expand(nesting)?;
            let inside = convert(tyenv, by, whole, pos)?;
            return Ok(VarUse::Conversion(inside, left));
        }
        if let Some(by) = self.declared_converter(bound.ty, expected_ty) {
            let name = tyenv.text_of(by.name);
            report_name(&mut work.errors, pos, Wrong::NoConstructor, name)?;
            return Ok(VarUse::Wrong);
        }
        check_expected(
            tyenv,
            &mut work.errors,
            pos,
            Typed::Variable,
            name,
            bound.ty,
            expected_ty,
        )?;
        Ok(VarUse::Var(bound))
    }

    /// What a use of a term where a type, or any type, is expected stands for, under the flags in force and where so many
    /// expansions may nest: upstream's steps before the parts of a term expression.
    pub(crate) fn use_in_expr(
        &self,
        tyenv: &TypeEnv,
        work: &mut Progress,
        whole: &Expr,
        sym: &Ident,
        args: &[Expr],
        pos: Pos,
        expected_ty: Option<TypeId>,
        flags: TermFlags,
        nesting: usize,
    ) -> Result<CallUse<'_>, Stop>
        requires inverse { IsInterned tyenv.now }
        requires whole { expr_view whole.now ≡ term_expr (name_view sym.now) (expr_views args.now) (position pos) }
        ensures deeper { CallDeepens nesting (expr_view whole.now) result }
        ensures places { StaysPlaced (position pos ∷ []) work.old.errors.items work.new.errors.items result }
        ensures among { CallsAmong (expr_positions (expr_view whole.now)) result }
        ensures reads { CallTakes self.now (standing tyenv.now work.old) (standing tyenv.now work.new) nesting (expr_view whole.now)
            (expr_views args.now) (flags_view flags) (expected expected_ty) result }
    {
        let Some(term) = self.find_term(tyenv, sym) else {
            report_unknown(tyenv, work, pos, sym)?;
            return Ok(CallUse::Wrong);
        };
        if let Some(by) = self.expr_converter(term.ret_ty, expected_ty) {
            let left = work.expand(nesting)?;
            let inside = convert(tyenv, by, whole, pos)?;
            return Ok(CallUse::Conversion(inside, left));
        }
        if let Some(by) = self.declared_converter(term.ret_ty, expected_ty) {
            let name = tyenv.text_of(by.name);
            report_name(&mut work.errors, pos, Wrong::NoConstructor, name)?;
            return Ok(CallUse::Wrong);
        }
        check_call(tyenv, work, term, sym, args.len(), pos, expected_ty, flags)?;
        Ok(CallUse::Parts(term))
    }
}

// An expression inside a use of a converter.
fn convert(tyenv: &TypeEnv, by: &Term, of: &Expr, pos: Pos) -> Result<Expr, AllocError>
    ensures { IfOk result (λ x. expr_view x ≡ inside_call tyenv.now (term_view by.now) (position pos) (expr_view of.now)) }
{
    let alloc = *tyenv.syms.allocator();
    let name = String::from_str(alloc, tyenv.text_of(by.name))?;
    let mut args = Vec::new(alloc);
    args.push(of.clone()?)?;
    Ok(Expr::Term {
        sym: Ident(name, pos),
        args,
        pos,
    })
}

// The newest variable of a name that can be used.
fn find_var(tyenv: &TypeEnv, work: &Progress, name: &Ident) -> Option<BoundVar>
    ensures { option_map var_view result ≡ option_and_then (newest work.now) (symbol_of tyenv.now (string_bytes name.now.0)) }
{
    let sym = tyenv.intern(name)?;
    work.lookup(sym)
}

// Whether what has this name has the type that is expected, where one is; else this is noted.
#[tactic(auto, using(core_syntax::proofs::Positioned::notes_nothing))]
fn check_expected(
    tyenv: &TypeEnv,
    errors: &mut Vec<Error>,
    pos: Pos,
    what: Typed,
    name: &Ident,
    has: TypeId,
    want: Option<TypeId>,
) -> Result<(), AllocError>
    ensures places { OnOk result (NotesAt (position pos ∷ []) errors.old.items errors.new.items) }
    ensures exact { OnOk result (NotesEachAt (place_unless (is_expected (expected want) has.0) (position pos)) errors.old.items errors.new.items) }
{
    if meets_expected(has, want) {
        return Ok(());
    }
    report_mismatch(tyenv, errors, pos, what, name, has, want)
}

// Whether a call has the type that is expected, where one is, the flags in force allow it, and it has as many arguments as
// the term; else this is noted.
#[tactic(auto, using(core_syntax::proofs::Positioned::notes_both))]
fn check_call(
    tyenv: &TypeEnv,
    work: &mut Progress,
    term: &Term,
    sym: &Ident,
    args: usize,
    pos: Pos,
    expected_ty: Option<TypeId>,
    flags: TermFlags,
) -> Result<(), AllocError>
    ensures remains { Remains work.old work.new }
    ensures places { OnOk result (NotesAt (position pos ∷ []) work.old.errors.items work.new.errors.items) }
    ensures exact { OnOk result (NotesEachAt (place_unless (is_expected (expected expected_ty) (term_view term.now).ret_ty) (position pos)
        ++ (places_of (forbidden (flags_view flags) (string_bytes sym.now.0) (position pos) (term_view term.now).kind)
        ++ place_unless (args == length (term_view term.now).arg_tys) (position pos))) work.old.errors.items work.new.errors.items) }
{
    check_expected(
        tyenv,
        &mut work.errors,
        pos,
        Typed::Constructor,
        sym,
        term.ret_ty,
        expected_ty,
    )?;
    check_flags(&mut work.errors, pos, sym, term, flags)?;
    check_count(&mut work.errors, pos, sym, args, term.arg_tys.len())?;
    Ok(())
}

// Whether the flags in force allow a call; else each that forbids it is noted.
#[tactic(auto, using(core_syntax::proofs::Positioned::notes_nothing, core_syntax::proofs::Positioned::notes_both))]
fn check_flags(
    errors: &mut Vec<Error>,
    pos: Pos,
    sym: &Ident,
    term: &Term,
    flags: TermFlags,
) -> Result<(), AllocError>
    ensures places { OnOk result (NotesAt (position pos ∷ []) errors.old.items errors.new.items) }
    ensures exact { OnOk result (NotesEachAt (places_of (forbidden (flags_view flags) (string_bytes sym.now.0) (position pos) (term_view term.now).kind))
        errors.old.items errors.new.items) }
{
    let TermKind::Decl { flags: own, .. } = &term.kind else {
        return Ok(());
    };
    let pure = is_pure_enough(flags, *own);
    check_allowed(errors, pos, sym, pure, Wrong::Impure)?;
    let single = is_single_enough(flags, *own);
    check_allowed(errors, pos, sym, single, Wrong::MultiConstructor)?;
    let total = is_total_enough(flags, *own);
    check_allowed(errors, pos, sym, total, partial_under(flags))?;
    Ok(())
}

// What isn't right where a term may give no value and the flags in force forbid that.
fn partial_under(flags: TermFlags) -> Wrong {
    if flags.multi {
        Wrong::PartialInMulti
    } else {
        Wrong::Partial
    }
}

// Notes what isn't right with a call, unless it is allowed.
#[tactic(auto, using(core_syntax::proofs::Positioned::notes_nothing))]
fn check_allowed(
    errors: &mut Vec<Error>,
    pos: Pos,
    sym: &Ident,
    is_allowed: bool,
    wrong: Wrong,
) -> Result<(), AllocError>
    ensures places { OnOk result (NotesAt (position pos ∷ []) errors.old.items errors.new.items) }
    ensures exact { OnOk result (NotesEachAt (place_unless is_allowed (position pos)) errors.old.items errors.new.items) }
{
    if is_allowed {
        return Ok(());
    }
    report_name(errors, pos, wrong, &sym.0)
}

// Whether a term of flags of its own is pure where the flags in force ask for that.
fn is_pure_enough(flags: TermFlags, own: TermFlags) -> bool
    ensures { result ≡ (not flags.pure || own.pure) }
{
    !flags.pure || own.pure
}

// Whether it gives one value at most, or more are allowed.
fn is_single_enough(flags: TermFlags, own: TermFlags) -> bool
    ensures { result ≡ (flags.multi || not own.multi) }
{
    flags.multi || !own.multi
}

// Whether it always gives a value, or none is allowed.
fn is_total_enough(flags: TermFlags, own: TermFlags) -> bool
    ensures { result ≡ (flags.partial || not own.partial) }
{
    flags.partial || !own.partial
}

// Notes that no term has the name, which may be that of a variable.
fn report_unknown(
    tyenv: &TypeEnv,
    work: &mut Progress,
    pos: Pos,
    sym: &Ident,
) -> Result<(), AllocError>
    ensures noted { OnOk result (NotesMore work.old.errors.items work.new.errors.items) }
    ensures remains { Remains work.old work.new }
    ensures places { OnOk result (NotesAt (position pos ∷ []) work.old.errors.items work.new.errors.items) }
    ensures exact { OnOk result (NotesEachAt (position pos ∷ []) work.old.errors.items work.new.errors.items) }
{
    let wrong = match find_var(tyenv, work, sym) {
        Some(_) => Wrong::CalledVariable,
        None => Wrong::UnknownConstructor,
    };
    report_name(&mut work.errors, pos, wrong, &sym.0)
}

// Whether an expression of a type may stand where a type, or any type, is expected.
pub(crate) fn meets_expected(has: TypeId, want: Option<TypeId>) -> bool
    ensures { result ≡ is_expected (expected want) has.0 }
{
    match want {
        Some(ty) => has == ty,
        None => true,
    }
}
