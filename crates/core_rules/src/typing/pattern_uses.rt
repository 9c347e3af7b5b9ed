//! What the use of a term in a pattern stands for.

ghost use Rattle.std.specs.Bool.{◌==◌};
ghost use Rattle.std.specs.Prelude.{◌≡◌, [], ◌∷◌, ◌++◌, true, IfOk, OnOk, option_map, length, string_bytes};
ghost use Rattle.core_syntax.specs.SyntaxViews.{name_view, position, pattern_view, pattern_views};
ghost use Rattle.model.specs.lists.Setting.{is_matchable};
ghost use Rattle.model.specs.lists.Syntax.{term_pattern};
ghost use Rattle.core_terms.specs.Terms.{has_extractor_kind};
ghost use Rattle.core_terms.specs.TermViews.{term_view};
ghost use Rattle.core_types.specs.Envs.{IsInterned};
ghost use Rattle.core_typed.specs.Elaborating.{NotesEachAt, place_unless};
ghost use Rattle.core_rules.specs.Progress.{Remains};
ghost use Rattle.core_rules.specs.PatternUses.{Deepens, found_term, found_converter, found_template, inside_term};
ghost use Rattle.core_rules.specs.PatternTaking.{UseTakes};
ghost use Rattle.core_rules.specs.ShownSettings.{standing};
ghost use Rattle.core_syntax.specs.Positions.{NotesAt, pattern_positions};
ghost use Rattle.core_rules.specs.RulePositions.{with_templates, StaysPlaced, ExpandsAmong};

use crate::term_env::TermEnv;
use crate::typing::progress::{Progress, Stop};
use core_syntax::syntax::{Error, Ident, Pattern, Pos};
use core_terms::{ExtractorKind, Term, TermKind};
use core_typed::checks::{check_count, check_same};
use core_types::{TypeEnv, TypeId, report_name};
use core_why::{Typed, Wrong};
use std::alloc::AllocError;

/// What the use of a term in a pattern stands for.
#[derive(Drop)]
pub(crate) enum PatternUse<'a> {
    /// Nothing: this was noted.
    Wrong,
    /// This pattern, by an expansion, in which so many may nest.
    Expansion(Pattern, usize),
    /// The term itself, whose extractor may stand there, with as many parts as it has arguments; or else this was noted.
    Parts(&'a Term),
}

impl TermEnv {
    /// The term of a name.
    #[tactic(auto, using(crate::proofs::UsedTerms::entry_at))]
    pub(crate) fn find_term(&self, tyenv: &TypeEnv, name: &Ident) -> Option<&Term>
        ensures { option_map (λ t. term_view t.now) result ≡ found_term self.now tyenv.now (string_bytes name.now.0) }
    {
        let id = self.get_term_by_name(tyenv, name)?;
        self.terms.get(id.index())
    }

    /// The term that converts patterns of an inner type into those of another one.
    #[tactic(auto, using(crate::proofs::UsedTerms::entry_at))]
    fn pattern_converter(&self, inner: TypeId, outer: TypeId) -> Option<&Term>
        ensures { option_map (λ t. term_view t.now) result ≡ found_converter self.now has_extractor_kind inner.0 outer.0 }
    {
        if inner == outer {
            return None;
        }
        let id = self.converters.get(&(inner, outer))?;
        let by = self.terms.get(id.index())?;
        if by.has_extractor() { Some(by) } else { None }
    }

    /// The template that stands for a term, where internal extractors are expanded.
    fn template_of<'a>(&self, term: &'a Term) -> Option<&'a Pattern>
        ensures { option_map (λ p. pattern_view p.now) result ≡ found_template self.now (term_view term.now) }
    {
        if !self.expand_internal_extractors {
            return None;
        }
        match &term.kind {
            TermKind::Decl {
                extractor_kind: Some(ExtractorKind::InternalExtractor { template }),
                ..
            } => Some(template),
            _ => None,
        }
    }

    /// What a use of a term at a type stands for, in a rule whose term is multi or not, where so many expansions may nest:
    /// upstream's steps before the parts of a term pattern.
    pub(crate) fn use_in_pattern(
        &self,
        tyenv: &TypeEnv,
        work: &mut Progress,
        whole: &Pattern,
        sym: &Ident,
        args: &[Pattern],
        pos: Pos,
        expected_ty: TypeId,
        multi: bool,
        nesting: usize,
    ) -> Result<PatternUse<'_>, Stop>
        requires inverse { IsInterned tyenv.now }
        requires whole { pattern_view whole.now ≡ term_pattern (name_view sym.now) (pattern_views args.now) (position pos) }
        ensures deeper { Deepens self.now nesting (pattern_view whole.now) (pattern_views args.now) result }
        ensures places { StaysPlaced (position pos ∷ []) work.old.errors.items work.new.errors.items result }
        ensures among { ExpandsAmong (with_templates self.now (pattern_positions (pattern_view whole.now))) result }
        ensures reads { UseTakes self.now (standing tyenv.now work.old) (standing tyenv.now work.new) nesting multi (pattern_view whole.now)
            (pattern_views args.now) expected_ty.0 result }
    {
        let Some(term) = self.find_term(tyenv, sym) else {
            report_name(&mut work.errors, pos, Wrong::UnknownExtractor, &sym.0)?;
            return Ok(PatternUse::Wrong);
        };
        if let Some(by) = self.pattern_converter(term.ret_ty, expected_ty) {
            let left = work.expand(nesting)?;
            let inside = convert(tyenv, by, whole, pos)?;
            return Ok(PatternUse::Expansion(inside, left));
        }
        check_use(tyenv, work, term, sym, args.len(), pos, expected_ty)?;
        let Some(template) = self.template_of(term) else {
            check_extractor(&mut work.errors, pos, sym, term, multi)?;
            return Ok(PatternUse::Parts(term));
        };
        let Some(made) = template.subst_macro_args(*self.terms.allocator(), args)? else {
            return Ok(PatternUse::Wrong);
        };
        let left = work.expand(nesting)?;
        Ok(PatternUse::Expansion(made, left))
    }
}

// A pattern inside a use of a converter.
fn convert(tyenv: &TypeEnv, by: &Term, of: &Pattern, pos: Pos) -> Result<Pattern, AllocError>
    ensures { IfOk result (λ p. pattern_view p ≡ inside_term tyenv.now (term_view by.now) (position pos) (pattern_view of.now)) }
{
    let alloc = *tyenv.syms.allocator();
    let name = String::from_str(alloc, tyenv.text_of(by.name))?;
    let mut args = Vec::new(alloc);
    args.push(of.clone()?)?;
    Ok(Pattern::Term {
        sym: Ident(name, pos),
        args,
        pos,
    })
}

// Whether a term is of the type that is expected and has so many arguments; else this is noted.
#[tactic(auto, using(core_syntax::proofs::Positioned::notes_both))]
fn check_use(
    tyenv: &TypeEnv,
    work: &mut Progress,
    term: &Term,
    sym: &Ident,
    args: usize,
    pos: Pos,
    expected_ty: TypeId,
) -> Result<(), AllocError>
    ensures remains { Remains work.old work.new }
    ensures places { OnOk result (NotesAt (position pos ∷ []) work.old.errors.items work.new.errors.items) }
    ensures exact { OnOk result (NotesEachAt (place_unless ((term_view term.now).ret_ty == expected_ty.0) (position pos) ++ place_unless
        (args == length (term_view term.now).arg_tys) (position pos)) work.old.errors.items work.new.errors.items) }
{
    check_same(
        tyenv,
        &mut work.errors,
        pos,
        Typed::Extractor,
        sym,
        term.ret_ty,
        expected_ty,
    )?;
    check_count(&mut work.errors, pos, sym, args, term.arg_tys.len())?;
    Ok(())
}

// Whether a term has an extractor, and one that a rule may use whose term is multi or not; else this is noted.
#[tactic(auto, using(core_syntax::proofs::Positioned::notes_nothing))]
fn check_extractor(
    errors: &mut Vec<Error>,
    pos: Pos,
    sym: &Ident,
    term: &Term,
    multi: bool,
) -> Result<(), AllocError>
    ensures places { OnOk result (NotesAt (position pos ∷ []) errors.old.items errors.new.items) }
    ensures exact { OnOk result (NotesEachAt (place_unless (is_matchable multi (term_view term.now).kind) (position pos)) errors.old.items errors.new.items) }
{
    if is_usable(term, multi) {
        return Ok(());
    }
    report_name(errors, pos, why_unusable(term), &sym.0)
}

// Why a pattern may not use a term: it has no extractor, or one that gives many answers.
fn why_unusable(term: &Term) -> Wrong {
    if term.has_extractor() {
        Wrong::MultiExtractor
    } else {
        Wrong::NoExtractor
    }
}

// Whether a term has an extractor, and one that a rule may use whose term is multi or not: those of multi terms give many
// answers.
fn is_usable(term: &Term, multi: bool) -> bool
    ensures { result ≡ is_matchable multi (term_view term.now).kind }
{
    match &term.kind {
        TermKind::Decl {
            flags: own,
            extractor_kind,
            ..
        } => extractor_kind.is_some() && (multi || !own.multi),
        TermKind::EnumVariant { .. } | TermKind::Struct => true,
    }
}
