//! What stands at a place of an enum: its variants, each under the guard that it stands there.
ghost use Rattle.std.specs.Prelude.{◌≡◌, ◌++◌, ◌∷◌, [], true, false, None, map, slice_get, IfOk, OnOk};
ghost use Rattle.model_questions.specs.Evaluated as E;
ghost use Rattle.model_questions.specs.Formulas as M;
ghost use Rattle.core_types.specs.TypeViews.{variant_view};
ghost use Rattle.spec_cases.specs.CaseViews.{cases_of, form_cases};
ghost use Rattle.spec_cases.specs.Variants.{is_empty, under_guard};
ghost use Rattle.spec_cases.specs.Namings.{fact_of, form_of, Makes};

use crate::arena::Formulas;
use crate::cases::{Case, Cases, anything, one_case};
use crate::faults::Fault;
use crate::forms::Form;
use crate::formulas::{Fact, PlaceId};
use crate::opening::Around;
use core_types::{TypeId, Variant, VariantId};

// Whether there are no variants.
pub(crate) fn is_empty(variants: &[Variant]) -> bool
    ensures { result ≡ is_empty (map variant_view variants.now) }
{
    match variants {
        [] => true,
        [_, ..] => false,
    }
}

impl Formulas {
    // A variant, with its fields.
    #[tactic(auto, using(crate::proofs::VariantSteps::types_seen))]
    fn variant_at(
        &mut self,
        ty: TypeId,
        place: PlaceId,
        number: usize,
        variant: &Variant,
    ) -> Result<Form, Fault>
        ensures { IfOk result (λ f. Makes self.old self.new (λ v. form_of v f ≡ E.variant_at ty.0 (v.place place.0) number (variant_view variant.now))) }
    {
        let around = Around::Variant {
            of: place,
            ty,
            variant: VariantId(number),
        };
        let types = variant.fields.types(self.alloc())?;
        let list = self.fields_at(around, &types)?;
        let fields = self.made_fields(list)?;
        Ok(Form::Variant {
            ty,
            variant: VariantId(number),
            fields,
        })
    }

    // Adds a variant, under a guard.
    #[tactic(auto, using(crate::proofs::PairSteps::cases_pushed))]
    fn add_variant(
        &mut self,
        guard: Fact,
        ty: TypeId,
        place: PlaceId,
        number: usize,
        variant: &Variant,
        out: &mut Vec<Case<Form>>,
    ) -> Result<(), Fault>
        ensures { OnOk result (Makes self.old self.new (λ v. form_cases v out.new.items ≡ form_cases v out.old.items ++ under_guard (fact_of v guard) (E.variant_at ty.0 (v.place place.0) number (variant_view variant.now)) ∷ [])) }
    {
        let gives = self.variant_at(ty, place, number, variant)?;
        out.push(Case { guard, gives })?;
        Ok(())
    }

    // Adds the variants from one on, each under the guard that it stands there.
    #[tactic(auto, using(crate::proofs::VariantSteps::variant_steps))]
    fn add_each_variant(
        &mut self,
        ty: TypeId,
        place: PlaceId,
        first: usize,
        variants: &[Variant],
        out: &mut Vec<Case<Form>>,
    ) -> Result<(), Fault>
        ensures { OnOk result (Makes self.old self.new (λ v. form_cases v out.new.items ≡ form_cases v out.old.items ++ E.each_variant ty.0 (v.place place.0) first (map variant_view variants.now))) }
    {
        match variants {
            [] => Ok(()),
            [variant, rest @ ..] => {
                let Some(next) = first.checked_add(1) else {
                    return Err(Fault::Full);
                };
                let is = Fact::IsKind(place, VariantId(first));
                self.add_variant(is, ty, place, first, variant, out)?;
                Ok(self.add_each_variant(ty, place, next, rest, out)?)
            }
        }
    }

    // Where none of the variants from one on stands.
    fn is_no_variant(
        &mut self,
        place: PlaceId,
        first: usize,
        variants: &[Variant],
    ) -> Result<Fact, Fault>
        ensures { IfOk result (λ f. Makes self.old self.new (λ v. fact_of v f ≡ E.is_no_variant (v.place place.0) first (map variant_view variants.now))) }
    {
        match variants {
            [] => Ok(Fact::Known(true)),
            [_, rest @ ..] => {
                let Some(next) = first.checked_add(1) else {
                    return Err(Fault::Full);
                };
                let is = self.none_of(Fact::IsKind(place, VariantId(first)))?;
                let later = self.is_no_variant(place, next, rest)?;
                Ok(self.both_of(is, later)?)
            }
        }
    }

    // Where a variant stands, and where it doesn't.
    fn guards(&mut self, guard: Fact, is: Fact) -> Result<(Fact, Fact), Fault>
        ensures { IfOk result (λ gs. Makes self.old self.new (λ v. (fact_of v gs.0 ≡ M.both_of (fact_of v guard) (fact_of v is)) × (fact_of v gs.1 ≡ M.both_of (fact_of v guard) (M.none_of (fact_of v is))))) }
    {
        let here = self.both_of(guard, is)?;
        let not = self.none_of(is)?;
        let later = self.both_of(guard, not)?;
        Ok((here, later))
    }

    // Adds the variants from one on: the last one stands where no other does.
    #[tactic(auto, using(crate::proofs::VariantSteps::variant_steps))]
    fn add_one_variant(
        &mut self,
        guard: Fact,
        ty: TypeId,
        place: PlaceId,
        first: usize,
        variants: &[Variant],
        out: &mut Vec<Case<Form>>,
    ) -> Result<(), Fault>
        ensures { OnOk result (Makes self.old self.new (λ v. form_cases v out.new.items ≡ form_cases v out.old.items ++ E.one_variant (fact_of v guard) ty.0 (v.place place.0) first (map variant_view variants.now))) }
    {
        match variants {
            [] => Ok(()),
            [variant] => Ok(self.add_variant(guard, ty, place, first, variant, out)?),
            [variant, rest @ ..] => {
                let Some(next) = first.checked_add(1) else {
                    return Err(Fault::Full);
                };
                let is = Fact::IsKind(place, VariantId(first));
                let (here, later) = self.guards(guard, is)?;
                self.add_variant(here, ty, place, first, variant, out)?;
                Ok(self.add_one_variant(later, ty, place, next, rest, out)?)
            }
        }
    }

    // The variant of this number.
    #[tactic(auto, using(crate::proofs::AppliedSteps::case_steps))]
    fn variant_known(
        &mut self,
        ty: TypeId,
        place: PlaceId,
        number: usize,
        variants: &[Variant],
    ) -> Result<Cases<Form>, Fault>
        ensures { IfOk result (λ cs. Makes self.old self.new (λ v. cases_of v cs ≡ E.variant_known ty.0 (v.place place.0) number (slice_get (map variant_view variants.now) number))) }
    {
        match variants.get(number) {
            None => Ok(anything(self.alloc())),
            Some(variant) => {
                let gives = self.variant_at(ty, place, number, variant)?;
                Ok(one_case(self.alloc(), gives)?)
            }
        }
    }

    // The variants of an enum that may hold something else too.
    fn each_variant(
        &mut self,
        ty: TypeId,
        place: PlaceId,
        variants: &[Variant],
    ) -> Result<Cases<Form>, Fault>
        ensures { IfOk result (λ cs. Makes self.old self.new (λ v. cases_of v cs ≡ E.at_variants true ty.0 (v.place place.0) (map variant_view variants.now) None)) }
    {
        let mut cases = Vec::new(self.alloc());
        self.add_each_variant(ty, place, 0, variants, &mut cases)?;
        let rest = self.is_no_variant(place, 0, variants)?;
        Ok(Cases { cases, rest })
    }

    // The variants of an enum that holds nothing else.
    fn one_variant(
        &mut self,
        ty: TypeId,
        place: PlaceId,
        variants: &[Variant],
    ) -> Result<Cases<Form>, Fault>
        ensures { IfOk result (λ cs. Makes self.old self.new (λ v. cases_of v cs ≡ E.at_variants false ty.0 (v.place place.0) (map variant_view variants.now) None)) }
    {
        let mut cases = Vec::new(self.alloc());
        self.add_one_variant(Fact::Known(true), ty, place, 0, variants, &mut cases)?;
        Ok(Cases {
            cases,
            rest: Fact::Known(false),
        })
    }

    /// The variants of an enum: the one that is known to stand there, else each.
    ///
    /// # Errors
    ///
    /// As `made_fact`.
    pub fn at_variants(
        &mut self,
        is_extern: bool,
        ty: TypeId,
        place: PlaceId,
        variants: &[Variant],
        known: Option<usize>,
    ) -> Result<Cases<Form>, Fault>
        ensures { IfOk result (λ cs. Makes self.old self.new (λ v. cases_of v cs ≡ E.at_variants is_extern ty.0 (v.place place.0) (map variant_view variants.now) known)) }
    {
        match known {
            Some(number) => Ok(self.variant_known(ty, place, number, variants)?),
            None => {
                if is_extern {
                    Ok(self.each_variant(ty, place, variants)?)
                } else {
                    Ok(self.one_variant(ty, place, variants)?)
                }
            }
        }
    }
}
