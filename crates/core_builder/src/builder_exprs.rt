//! What the calls of an expression's visit make of sites.
ghost use Rattle.std.specs.Prelude.{◌≡◌, ◌<◌, List, false, not, suc, length, map, All, IfErr, IfOk, OnOk, if◌then◌else◌};
ghost use Rattle.model.specs.lists.Tables.{Flags};
ghost use Rattle.model.specs.sites.Sites.{SiteTerm, bool_term, each_term, int_term, prim_term, struct_made, unfold_site, variant_made};
ghost use Rattle.model.specs.visits.Demands.{Visit, calling, finished, making, valued, visit_call, where_multi, value_made};
ghost use Rattle.core_typed.specs.VisitAnswers.{typed_inputs};
ghost use Rattle.core_builder.specs.VisitedSites.{HaveSites, Constructs, EndsBefore, GivesValue, GoesTo, IsNextCall, MakesValue, BuilderStandsAt, ValuesTo, built_sites, input_terms, value_sites};

use crate::ruleset_builder::RuleSetBuilder;
use core_rule_sets::trie_again::{Binding, BindingId};
use core_syntax::visit_fault::VisitFault;
use core_typed::ExprVisitor;
use core_types::{Sym, TermId, TypeId, VariantId};
use std::alloc::{AllocError, Global};

impl RuleSetBuilder {
    // The number of a call among the impure calls of its rule, from 1, and 0 for a pure one. It fits: each impure call has
    // sites of its own, and there are 65,536 sites at most.
    #[tactic(auto, using(crate::proofs::CallNumbers::calls_fit))]
    pub(crate) fn instance(&self, pure: bool) -> u32
        ensures number { (before : List SiteTerm) (v : Visit) → BuilderStandsAt before self.now v → result ≡ (if pure then 0 else suc (length self.now.impure.items)) }
    {
        if pure {
            return 0;
        }
        u32::try_from(self.impure.len() + 1).unwrap_or(u32::MAX)
    }

    // What a constructor's call gives: what is in its answer where there may be none, or one of its answers where there
    // may be many.
    pub(crate) fn make_value(
        &mut self,
        call: BindingId,
        infallible: bool,
        multi: bool,
    ) -> Result<BindingId, VisitFault>
        ensures made { (before : List SiteTerm) (v : Visit) (flags : Flags) → BuilderStandsAt before self.old v
            → call < length (built_sites self.old) → flags.partial ≡ not infallible → flags.multi ≡ multi
            → IfOk result (MakesValue before self.old self.new flags (unfold_site (built_sites self.old) call) v) }
        ensures full { (before : List SiteTerm) (v : Visit) (flags : Flags) → BuilderStandsAt before self.old v
            → call < length (built_sites self.old) → flags.partial ≡ not infallible → flags.multi ≡ multi
            → IfErr result (EndsBefore before self.new (making (value_sites flags (unfold_site (built_sites self.old) call)) v)) }
    {
        if !infallible {
            self.make(Binding::MatchSome { source: call })
        } else if multi {
            self.make(Binding::Iterator { source: call })
        } else {
            Ok(call)
        }
    }

    // The rule goes over a multi call.
    pub(crate) fn go_over(&mut self, call: BindingId, multi: bool) -> Result<(), AllocError>
        ensures gone_over { (before : List SiteTerm) (v : Visit) (flags : Flags)
            → BuilderStandsAt before self.old v → call < length (built_sites self.old) → flags.multi ≡ multi
            → OnOk result (GoesTo before self.old self.new (where_multi flags (unfold_site (built_sites self.old) call) v)) }
    {
        if multi {
            self.iterate(call)?;
        }
        Ok(())
    }

    // The rule makes an impure call, whose last site this is.
    pub(crate) fn note_call(&mut self, site: BindingId, pure: bool) -> Result<(), AllocError>
        ensures called { (before : List SiteTerm) (v : Visit) → BuilderStandsAt before self.old v
            → site < length (built_sites self.old) → (pure ≡ false → IsNextCall self.old v site)
            → OnOk result (GoesTo before self.old self.new (if pure then v else calling (unfold_site (built_sites self.old) site) v)) }
    {
        if !pure {
            self.call(site)?;
        }
        Ok(())
    }

    // The result of a rule, as one that is there where the term is partial.
    pub(crate) fn finish(
        &mut self,
        value: BindingId,
        partial: bool,
    ) -> Result<BindingId, VisitFault>
        ensures finished { (before : List SiteTerm) (v : Visit) → BuilderStandsAt before self.old v → value < length (built_sites self.old)
            → IfOk result (ValuesTo before self.old self.new (finished partial (valued (unfold_site (built_sites self.old) value) v))) }
        ensures full { (before : List SiteTerm) (v : Visit) → BuilderStandsAt before self.old v → value < length (built_sites self.old)
            → IfErr result (EndsBefore before self.new (finished partial (valued (unfold_site (built_sites self.old) value) v)).visit) }
    {
        if partial {
            self.make(Binding::MakeSome { inner: value })
        } else {
            Ok(value)
        }
    }

    // A constructor is called with these values: the value that it gives.
    pub(crate) fn construct(
        &mut self,
        term: TermId,
        parameters: Vec<BindingId>,
        pure: bool,
        infallible: bool,
        multi: bool,
    ) -> Result<BindingId, VisitFault>
        ensures constructed { (before : List SiteTerm) (v : Visit) (flags : Flags)
            → BuilderStandsAt before self.old v → All (λ n. n < length (built_sites self.old)) parameters.items
            → flags.pure ≡ pure → flags.partial ≡ not infallible → flags.multi ≡ multi
            → IfOk result (ValuesTo before self.old self.new (visit_call flags term.0 (each_term (unfold_site (built_sites self.old)) parameters.items) v)) }
        ensures full { (before : List SiteTerm) (v : Visit) (flags : Flags)
            → BuilderStandsAt before self.old v → All (λ n. n < length (built_sites self.old)) parameters.items
            → flags.pure ≡ pure → flags.partial ≡ not infallible → flags.multi ≡ multi
            → IfErr result (EndsBefore before self.new (visit_call flags term.0 (each_term (unfold_site (built_sites self.old)) parameters.items) v).visit) }
    {
        let instance = self.instance(pure);
        let call = self.make(Binding::Constructor {
            term,
            parameters,
            instance,
        })?;
        let value = self.make_value(call, infallible, multi)?;
        self.go_over(call, multi)?;
        self.note_call(value, pure)?;
        Ok(value)
    }
}

// The ids of values that are handed over with their types.
fn ids_of(alloc: Global, inputs: &[(BindingId, TypeId)]) -> Result<Vec<BindingId>, AllocError>
    ensures { IfOk result (λ ids. ids.items ≡ map (λ x. x.0) inputs.now) }
{
    let mut ids = Vec::new(alloc);
    for input in inputs {
        ids.push(input.0)?;
    }
    Ok(ids)
}

// Each call goes on from every visit at which the builder stands.
impl ExprVisitor for RuleSetBuilder {
    type ExprId = BindingId;

    ghost const_bool_steps = { λ s ty b r t. GivesValue s t r (value_made (bool_term b ty)) };

    ghost const_int_steps = { λ s ty z r t. GivesValue s t r (value_made (int_term z ty)) };

    ghost const_prim_steps = { λ s ty name r t. GivesValue s t r (value_made (prim_term name)) };

    ghost create_variant_steps = { λ s inputs ty variant r t. HaveSites s inputs
        → GivesValue s t r (value_made (variant_made ty variant (input_terms s inputs))) };

    ghost create_struct_steps = { λ s inputs ty r t. HaveSites s inputs → GivesValue s t r (value_made (struct_made ty (input_terms s inputs))) };

    ghost construct_steps = { λ s inputs ty term pure infallible multi recursive r t. Constructs term pure infallible multi s inputs r t };

    fn add_const_bool(&mut self, ty: TypeId, val: bool) -> Result<BindingId, VisitFault> {
        self.make(Binding::ConstBool { val, ty })
    }

    fn add_const_int(&mut self, ty: TypeId, val: i128) -> Result<BindingId, VisitFault> {
        self.make(Binding::ConstInt { val, ty })
    }

    fn add_const_prim(&mut self, _: TypeId, val: Sym) -> Result<BindingId, VisitFault> {
        self.make(Binding::ConstPrim { val })
    }

    fn add_create_variant(
        &mut self,
        inputs: Vec<(BindingId, TypeId)>,
        ty: TypeId,
        variant: VariantId,
    ) -> Result<BindingId, VisitFault>
        ensures { HaveSites self.old (typed_inputs inputs.items)
            → GivesValue self.old self.new result (value_made (variant_made ty.0 variant.0 (input_terms self.old (typed_inputs inputs.items)))) }
    {
        let fields = ids_of(self.alloc, &inputs)?;
        self.make(Binding::MakeVariant {
            ty,
            variant,
            fields,
        })
    }

    fn add_create_struct(
        &mut self,
        inputs: Vec<(BindingId, TypeId)>,
        ty: TypeId,
    ) -> Result<BindingId, VisitFault>
        ensures { HaveSites self.old (typed_inputs inputs.items)
            → GivesValue self.old self.new result (value_made (struct_made ty.0 (input_terms self.old (typed_inputs inputs.items)))) }
    {
        let fields = ids_of(self.alloc, &inputs)?;
        self.make(Binding::MakeStruct { ty, fields })
    }

    fn add_construct(
        &mut self,
        inputs: Vec<(BindingId, TypeId)>,
        _: TypeId,
        term: TermId,
        pure: bool,
        infallible: bool,
        multi: bool,
        _: bool,
    ) -> Result<BindingId, VisitFault>
        ensures { Constructs term.0 pure infallible multi self.old (typed_inputs inputs.items) result self.new }
    {
        let parameters = ids_of(self.alloc, &inputs)?;
        self.construct(term, parameters, pure, infallible, multi)
    }
}
