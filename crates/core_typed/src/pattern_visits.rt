//! The visit of a pattern by any visitor.

ghost use Rattle.std.specs.Prelude.{◌≡◌, IfOk, IsTrue, Some, length, slice_get, vec_len};
ghost use Rattle.model.specs.rules.Program.{always_answers};
ghost use Rattle.model.specs.visits.PatternRuns.{part_types, PatternRun, PartsRun, EachRun, Opens};
ghost use Rattle.core_typed.specs.PatternViews.{pattern_view, pattern_views, pattern_parts};
ghost use Rattle.model.specs.lists.Visitable.{is_visitable_pattern, are_visitable_parts, opens_into};
ghost use Rattle.core_typed.specs.VisitAnswers.{listed, type_numbers};
ghost use Rattle.model.specs.visits.Runs.{bound_vars};
ghost use Rattle.core_typed.specs.VisitorSteps.{no_memory, pattern_steps};
ghost use Rattle.core_terms.specs.TermViews.{flags_view, extractor_view};

use crate::bound_ids::BoundIds;
use crate::patterns::Pattern;
use crate::used_terms::UsedTerms;
use crate::visitors::PatternVisitor;
use core_syntax::visit_fault::VisitFault;
use core_terms::{ExtractorKind, TermFlags, TermKind};
use core_types::{TermId, TypeId};
use std::alloc::{AllocError, Global};

fn types_of(alloc: Global, patterns: &[Pattern]) -> Result<Vec<TypeId>, AllocError>
    ensures { IfOk result (λ tys. type_numbers tys.items ≡ part_types (pattern_parts (pattern_views patterns.now))) }
{
    let mut tys = Vec::new(alloc);
    for pattern in patterns {
        tys.push(pattern.ty())?;
    }
    Ok(tys)
}

// Whether an extractor, of a term of these flags, always answers. An internal one may not: it stands for a
// pattern.
fn is_infallible(flags: &TermFlags, extractor: &ExtractorKind) -> bool
    ensures { result ≡ always_answers (flags_view flags.now) (Some (extractor_view extractor.now)) }
{
    match extractor {
        ExtractorKind::ExternalExtractor { infallible, .. } => *infallible && !flags.multi,
        ExtractorKind::InternalExtractor { .. } => false,
    }
}

// The call for a term: the ids of the parts that its pattern has.
fn part_ids<V: PatternVisitor, E: UsedTerms>(
    alloc: Global,
    visitor: &mut V,
    input: V::PatternId,
    termenv: &E,
    ty: TypeId,
    term: TermId,
    parts: &[Pattern],
) -> Result<Vec<V::PatternId>, VisitFault>
    requires { IsTrue (opens_into (E.term_entries termenv.now) term.0 (length parts.now)) }
    ensures steps { Opens no_memory (pattern_steps V.PatternVisitor) ty.0 term.0 (part_types (pattern_parts (pattern_views parts.now))) input
        (slice_get (E.term_entries termenv.now) term.0) visitor.old (listed result) visitor.new }
    ensures count { IfOk result (λ ids. vec_len ids ≡ length parts.now) }
{
    let used = termenv.used_term(term);
    match &used.kind {
        TermKind::EnumVariant { variant } => {
            visitor.add_match_variant(input, ty, used.arg_tys.as_slice(), *variant)
        }
        TermKind::Struct => visitor.add_extract_struct(input, ty, used.arg_tys.as_slice()),
        TermKind::Decl {
            flags,
            extractor_kind: Some(extractor),
            ..
        } => {
            let output_tys = types_of(alloc, parts)?;
            let infallible = is_infallible(flags, extractor);
            visitor.add_extract(
                input,
                used.ret_ty,
                output_tys,
                term,
                infallible,
                flags.multi,
            )
        }
        TermKind::Decl {
            extractor_kind: None,
            ..
        } => unreachable!(),
    }
}

impl Pattern {
    /// Shows the pattern to a visitor, with the id of the value that it is for: what an outer pattern says of
    /// a value before what its parts say, parts left to right. A variable is bound, in `vars`, to the id of
    /// its value before the pattern beneath it is shown; the use of a variable is shown as an equality with
    /// what it is bound to.
    ///
    /// `termenv` is the environment of the pattern's terms: each has an extractor, or is a variant or a
    /// struct, and as many parts as arguments. `vars` has the variables bound so far: none that the pattern
    /// binds, and each that it uses and doesn't bind before.
    ///
    /// A fault is the one that a call of the visitor answered, and that call was the last, or `Memory` where
    /// memory is refused. Then the visitor was shown a beginning, and `vars` has what it had and what was
    /// bound by then.
    #[cycle(visit_pattern)]
    #[tactic(auto, using(crate::proofs::PatternRunForms::opens_term))]
    pub fn visit<V: PatternVisitor, E: UsedTerms>(
        &self,
        alloc: Global,
        visitor: &mut V,
        input: V::PatternId,
        termenv: &E,
        vars: &mut BoundIds<V::PatternId>,
    ) -> Result<(), VisitFault>
        requires visitable { IsTrue (is_visitable_pattern (E.term_entries termenv.now) (pattern_view self.now) (bound_vars vars.old)) }
        ensures run { PatternRun no_memory (pattern_steps V.PatternVisitor) (E.term_entries termenv.now)
            (pattern_view self.now) input (visitor.old, vars.old) result (visitor.new, vars.new) }
    {
        match self {
            Pattern::BindPattern(_, var, of) => {
                vars.bind(*var, input)?;
                of.visit(alloc, visitor, input, termenv, vars)
            }
            Pattern::Var(ty, var) => visitor.add_match_equal(input, vars.id_of(*var), *ty),
            Pattern::ConstBool(ty, val) => visitor.add_match_bool(input, *ty, *val),
            Pattern::ConstInt(ty, val) => visitor.add_match_int(input, *ty, *val),
            Pattern::ConstPrim(ty, val) => visitor.add_match_prim(input, *ty, *val),
            Pattern::Term(ty, term, parts) => {
                let ids = part_ids(alloc, visitor, input, termenv, *ty, *term, parts)?;
                visit_parts(alloc, visitor, parts, &ids, termenv, vars)
            }
            Pattern::Wildcard(_) => Ok(()),
            Pattern::And(_, parts) => visit_each(alloc, visitor, parts, input, termenv, vars),
        }
    }
}

// The visits of a term's parts, each with its own id.
#[cycle(visit_pattern)]
fn visit_parts<V: PatternVisitor, E: UsedTerms>(
    alloc: Global,
    visitor: &mut V,
    parts: &[Pattern],
    ids: &[V::PatternId],
    termenv: &E,
    vars: &mut BoundIds<V::PatternId>,
) -> Result<(), VisitFault>
    requires visitable { IsTrue (are_visitable_parts (E.term_entries termenv.now)
        (pattern_parts (pattern_views parts.now)) (bound_vars vars.old)) }
    requires count { length ids.now ≡ length parts.now }
    ensures { PartsRun no_memory (pattern_steps V.PatternVisitor) (E.term_entries termenv.now) (pattern_parts (pattern_views parts.now)) ids.now
        (visitor.old, vars.old) result (visitor.new, vars.new) }
{
    for (i, part) in parts.iter().enumerate() {
        part.visit(alloc, visitor, ids[i], termenv, vars)?;
    }
    Ok(())
}

// The visits of several patterns of one value.
#[cycle(visit_pattern)]
fn visit_each<V: PatternVisitor, E: UsedTerms>(
    alloc: Global,
    visitor: &mut V,
    parts: &[Pattern],
    input: V::PatternId,
    termenv: &E,
    vars: &mut BoundIds<V::PatternId>,
) -> Result<(), VisitFault>
    requires { IsTrue (are_visitable_parts (E.term_entries termenv.now) (pattern_parts (pattern_views parts.now)) (bound_vars vars.old)) }
    ensures { EachRun no_memory (pattern_steps V.PatternVisitor) (E.term_entries termenv.now) (pattern_parts (pattern_views parts.now)) input
        (visitor.old, vars.old) result (visitor.new, vars.new) }
{
    for part in parts {
        part.visit(alloc, visitor, input, termenv, vars)?;
    }
    Ok(())
}
