//! What the calls of a pattern's visit make of sites, and ask of them.
ghost use Rattle.std.specs.Prelude.{◌≡◌, ◌<◌, ◌≤◌, List, [], ◌∷◌, length, vec_len, IfErr, IfOk};
ghost use Rattle.core_syntax.specs.declared.syntax.Limit.TheVariants as Limits;
ghost use Rattle.model.specs.lists.Tables.{Flags};
ghost use Rattle.model.specs.rules.Typed.{TypedPatterns};
ghost use Rattle.model.specs.sites.Sites.{SiteTerm, extractor_call, is_bool, is_int, is_prim, is_struct, is_variant, unfold_site, fields_from};
ghost use Rattle.model.specs.visits.Demands.{Visit, making, open_call, outputs_opened, pattern_count, fields_opened};
ghost use Rattle.model.specs.sites.Limits.{most_fields, most_outputs};
ghost use Rattle.core_rule_sets.specs.SiteViews.{site_view};
ghost use Rattle.core_builder.specs.VisitedSites.{AnswersTo, Asks, EndsBefore, EndsOpening, AsksEqual, MakesAll, OpensExtractor, OpensFields, OpensTo, BuilderStandsAt, answered, built_sites, part_of, part_site};

use crate::ruleset_builder::RuleSetBuilder;
use core_rule_sets::trie_again::{Binding, BindingId, Constraint, TupleIndex};
use core_syntax::syntax::Limit;
use core_syntax::visit_fault::VisitFault;
use core_typed::PatternVisitor;
use core_types::{Sym, TermId, TypeId, VariantId};

// What the parts of a site are.
#[derive(Clone, Copy)]
pub(crate) enum Parts {
    // The fields of this variant.
    Variant(VariantId),
    // The fields of a struct.
    Struct,
    // The outputs of a call.
    Outputs,
}

impl Parts {
    // The part of a site at a place.
    fn binding(self, source: BindingId, field: TupleIndex) -> Binding
        ensures { site_view result ≡ part_site self source field }
    {
        match self {
            Parts::Variant(variant) => Binding::MatchVariant {
                source,
                variant,
                field,
            },
            Parts::Struct => Binding::ExtractStruct { source, field },
            Parts::Outputs => Binding::MatchTuple { source, field },
        }
    }
}

impl RuleSetBuilder {
    // The sites of a site's parts, in order, new ones where they aren't there.
    fn make_parts(
        &mut self,
        source: BindingId,
        parts: Parts,
        count: TupleIndex,
    ) -> Result<Vec<BindingId>, VisitFault>
        ensures made { (before : List SiteTerm) (v : Visit) → BuilderStandsAt before self.old v → source < length (built_sites self.old)
            → IfOk result (λ ids. MakesAll before self.old self.new v
            (fields_from (part_of parts (unfold_site (built_sites self.old) source)) 0 count) ids.items) }
        ensures full { (before : List SiteTerm) (v : Visit) → BuilderStandsAt before self.old v → source < length (built_sites self.old)
            → IfErr result (EndsBefore before self.new (making (fields_from (part_of parts (unfold_site (built_sites self.old) source)) 0 count) v)) }
        ensures count { IfOk result (λ ids. vec_len ids ≡ count) }
    {
        let mut ids = Vec::new(self.alloc);
        for place in 0..count.as_u8() {
            let field = TupleIndex::from(place);
            let part = parts.binding(source, field);
            let id = self.make(part)?;
            ids.push(id)?;
        }
        Ok(ids)
    }

    // A site must be of a variant, and its fields are open.
    pub(crate) fn open_variant(
        &mut self,
        input: BindingId,
        ty: TypeId,
        variant: VariantId,
        count: usize,
    ) -> Result<Vec<BindingId>, VisitFault>
        ensures opened { (before : List SiteTerm) (v : Visit) → BuilderStandsAt before self.old v → input < length (built_sites self.old)
            → IfOk result (λ ids. (count ≤ most_fields)
            × OpensTo before self.old self.new (fields_opened (is_variant ty.0 variant.0 count) count (unfold_site (built_sites self.old) input) v) ids.items) }
        ensures full { (before : List SiteTerm) (v : Visit) → BuilderStandsAt before self.old v → input < length (built_sites self.old)
            → IfErr result (EndsOpening before self.new
            (fields_opened (is_variant ty.0 variant.0 count) count (unfold_site (built_sites self.old) input) v).visit Limits.Fields most_fields count v) }
        ensures count { IfOk result (λ ids. vec_len ids ≡ count) }
    {
        let Ok(fields) = TupleIndex::try_from(count) else {
            return Err(VisitFault::Limit(Limit::Fields));
        };
        let ids = self.make_parts(input, Parts::Variant(variant), fields)?;
        self.ask(
            input,
            &Constraint::Variant {
                ty,
                variant,
                fields,
            },
        )?;
        Ok(ids)
    }

    // A site must be a struct, and its fields are open.
    pub(crate) fn open_struct(
        &mut self,
        input: BindingId,
        ty: TypeId,
        count: usize,
    ) -> Result<Vec<BindingId>, VisitFault>
        ensures opened { (before : List SiteTerm) (v : Visit) → BuilderStandsAt before self.old v → input < length (built_sites self.old)
            → IfOk result (λ ids. (count ≤ most_fields)
            × OpensTo before self.old self.new (fields_opened (is_struct ty.0 count) count (unfold_site (built_sites self.old) input) v) ids.items) }
        ensures full { (before : List SiteTerm) (v : Visit) → BuilderStandsAt before self.old v → input < length (built_sites self.old)
            → IfErr result (EndsOpening before self.new
            (fields_opened (is_struct ty.0 count) count (unfold_site (built_sites self.old) input) v).visit Limits.Fields most_fields count v) }
        ensures count { IfOk result (λ ids. vec_len ids ≡ count) }
    {
        let Ok(fields) = TupleIndex::try_from(count) else {
            return Err(VisitFault::Limit(Limit::Fields));
        };
        let ids = self.make_parts(input, Parts::Struct, fields)?;
        self.ask(input, &Constraint::Struct { ty, fields })?;
        Ok(ids)
    }

    // The outputs of a call: one is the site itself, several are its parts, none has no site.
    fn open_outputs(&mut self, site: BindingId, count: usize) -> Result<Vec<BindingId>, VisitFault>
        ensures opened { (before : List SiteTerm) (v : Visit) (args : TypedPatterns)
            → BuilderStandsAt before self.old v → site < length (built_sites self.old) → pattern_count args ≡ count
            → IfOk result (λ ids. (count ≤ most_outputs)
            × OpensTo before self.old self.new (outputs_opened (unfold_site (built_sites self.old) site) args v) ids.items) }
        ensures full { (before : List SiteTerm) (v : Visit) (args : TypedPatterns)
            → BuilderStandsAt before self.old v → site < length (built_sites self.old) → pattern_count args ≡ count
            → IfErr result (EndsOpening before self.new
            (outputs_opened (unfold_site (built_sites self.old) site) args v).visit Limits.Outputs most_outputs count v) }
        ensures count { IfOk result (λ ids. vec_len ids ≡ count) }
    {
        let Ok(parts) = TupleIndex::try_from(count) else {
            return Err(VisitFault::Limit(Limit::Outputs));
        };
        if count == 0 {
            return Ok(Vec::new(self.alloc));
        }
        if count == 1 {
            return Ok(vec![in self.alloc; site]?);
        }
        self.make_parts(site, Parts::Outputs, parts)
    }

    // What a call answers: one of its answers where there may be many, what is in its answer where there may be none.
    fn open_answer(
        &mut self,
        call: BindingId,
        infallible: bool,
        multi: bool,
    ) -> Result<BindingId, VisitFault>
        ensures opened { (before : List SiteTerm) (v : Visit) → BuilderStandsAt before self.old v → call < length (built_sites self.old)
            → IfOk result (AnswersTo before self.old self.new multi infallible (unfold_site (built_sites self.old) call) v) }
        ensures full { (before : List SiteTerm) (v : Visit) → BuilderStandsAt before self.old v → call < length (built_sites self.old)
            → IfErr result (EndsBefore before self.new (answered multi infallible (unfold_site (built_sites self.old) call) v)) }
    {
        if multi {
            let site = self.make(Binding::Iterator { source: call })?;
            self.iterate(call)?;
            Ok(site)
        } else if infallible {
            Ok(call)
        } else {
            let site = self.make(Binding::MatchSome { source: call })?;
            self.ask(call, &Constraint::Some)?;
            Ok(site)
        }
    }

    // An extractor is called for a site, and its outputs are open.
    pub(crate) fn open_extractor(
        &mut self,
        input: BindingId,
        term: TermId,
        count: usize,
        infallible: bool,
        multi: bool,
    ) -> Result<Vec<BindingId>, VisitFault>
        ensures opened { (before : List SiteTerm) (v : Visit) (flags : Flags) (args : TypedPatterns)
            → BuilderStandsAt before self.old v → input < length (built_sites self.old)
            → flags.multi ≡ multi → pattern_count args ≡ count
            → IfOk result (λ ids. (count ≤ most_outputs)
            × OpensTo before self.old self.new
            (open_call flags infallible (extractor_call term.0 (unfold_site (built_sites self.old) input)) args v) ids.items) }
        ensures full { (before : List SiteTerm) (v : Visit) (flags : Flags) (args : TypedPatterns)
            → BuilderStandsAt before self.old v → input < length (built_sites self.old)
            → flags.multi ≡ multi → pattern_count args ≡ count
            → IfErr result (EndsOpening before self.new
            (open_call flags infallible (extractor_call term.0 (unfold_site (built_sites self.old) input)) args v).visit
            Limits.Outputs most_outputs count
            (let call = extractor_call term.0 (unfold_site (built_sites self.old) input) in answered multi infallible call (making (call ∷ []) v))) }
        ensures count { IfOk result (λ ids. vec_len ids ≡ count) }
    {
        let call = self.make(Binding::Extractor {
            term,
            parameter: input,
        })?;
        let site = self.open_answer(call, infallible, multi)?;
        self.open_outputs(site, count)
    }
}

// Each call goes on from every visit at which the builder stands. `add_match_variant`, `add_extract_struct` and
// `add_extract` end with `Limit` where there are too many parts.
impl PatternVisitor for RuleSetBuilder {
    type PatternId = BindingId;

    ghost match_equal_steps = { λ s a b ty r t. AsksEqual s a b r t };

    ghost match_bool_steps = { λ s input ty b r t. Asks (is_bool b ty) s input r t };

    ghost match_int_steps = { λ s input ty z r t. Asks (is_int z ty) s input r t };

    ghost match_prim_steps = { λ s input ty name r t. Asks (is_prim name) s input r t };

    ghost match_variant_steps = { λ s input ty tys variant r t. OpensFields (is_variant ty variant (length tys)) (length tys) s input r t };

    ghost extract_struct_steps = { λ s input ty tys r t. OpensFields (is_struct ty (length tys)) (length tys) s input r t };

    ghost extract_steps = { λ s input ty tys term infallible multi r t. OpensExtractor term (length tys) infallible multi s input r t };

    fn add_match_equal(&mut self, a: BindingId, b: BindingId, _: TypeId) -> Result<(), VisitFault> {
        self.equate(a, b)?;
        Ok(())
    }

    fn add_match_bool(
        &mut self,
        input: BindingId,
        ty: TypeId,
        bool_val: bool,
    ) -> Result<(), VisitFault> {
        self.ask(input, &Constraint::ConstBool { val: bool_val, ty })?;
        Ok(())
    }

    fn add_match_int(
        &mut self,
        input: BindingId,
        ty: TypeId,
        int_val: i128,
    ) -> Result<(), VisitFault> {
        self.ask(input, &Constraint::ConstInt { val: int_val, ty })?;
        Ok(())
    }

    fn add_match_prim(&mut self, input: BindingId, _: TypeId, val: Sym) -> Result<(), VisitFault> {
        self.ask(input, &Constraint::ConstPrim { val })?;
        Ok(())
    }

    fn add_match_variant(
        &mut self,
        input: BindingId,
        input_ty: TypeId,
        arg_tys: &[TypeId],
        variant: VariantId,
    ) -> Result<Vec<BindingId>, VisitFault> {
        self.open_variant(input, input_ty, variant, arg_tys.len())
    }

    fn add_extract_struct(
        &mut self,
        input: BindingId,
        input_ty: TypeId,
        arg_tys: &[TypeId],
    ) -> Result<Vec<BindingId>, VisitFault> {
        self.open_struct(input, input_ty, arg_tys.len())
    }

    fn add_extract(
        &mut self,
        input: BindingId,
        _: TypeId,
        output_tys: Vec<TypeId>,
        term: TermId,
        infallible: bool,
        multi: bool,
    ) -> Result<Vec<BindingId>, VisitFault> {
        self.open_extractor(input, term, output_tys.len(), infallible, multi)
    }
}
