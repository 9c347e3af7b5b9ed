//! What stands at a place whose type is known, one layer of it.
ghost use Rattle.std.specs.Prelude.{◌≡◌, ◌++◌, map, IfOk, OnOk};
ghost use Rattle.model_questions.specs.Evaluated as E;
ghost use Rattle.model_questions.specs.Forms as MF;
ghost use Rattle.spec_cases.specs.CaseViews.{case_of, cases_of, form_cases};
ghost use Rattle.spec_cases.specs.Namings.{fact_of, form_of, forms_of, layer_of_place, Makes};
ghost use Rattle.spec_cases.specs.Opening.{place_in};

use crate::arena::Formulas;
use crate::cases::{Case, Cases, one_case};
use crate::faults::Fault;
use crate::forms::Form;
use crate::formulas::{Fact, Integer, Place, PlaceId, Word};
use core_types::{TypeId, VariantId};

/// What has fields or arguments.
#[derive(Clone, Copy)]
pub enum Around {
    /// The term.
    Arguments,
    /// The call of an extractor.
    Outputs {
        /// Its site.
        site: u32,
    },
    /// A variant.
    Variant {
        /// Where it stands.
        of: PlaceId,
        /// Its enum.
        ty: TypeId,
        /// Which one.
        variant: VariantId,
    },
    /// A struct.
    Struct {
        /// Where it stands.
        of: PlaceId,
        /// Its type.
        ty: TypeId,
    },
}

impl Around {
    // The place of a field.
    fn place(self, index: usize) -> Place
        ensures { (v : _) → layer_of_place v result ≡ place_in v self index }
    {
        match self {
            Around::Arguments => Place::Argument { index },
            Around::Outputs { site } => Place::Output { site, index },
            Around::Variant { of, ty, variant } => Place::VariantField {
                of,
                ty,
                variant,
                index,
            },
            Around::Struct { of, ty } => Place::StructField { of, ty, index },
        }
    }
}

// A word of this width, under a guard.
fn wide_case(guard: Fact, place: PlaceId, width: u32) -> Case<Form>
    ensures { (v : _) → case_of v result ≡ E.wide_case (fact_of v guard) (v.place place.0) width }
{
    Case {
        guard,
        gives: Form::Word(width, Word::At(place, width)),
    }
}

impl Formulas {
    // Adds what stands at the fields from one on, by their types.
    #[tactic(auto, using(crate::proofs::OpeningSteps::field_steps))]
    fn add_fields(
        &mut self,
        around: Around,
        first: usize,
        types: &[TypeId],
        out: &mut Vec<Form>,
    ) -> Result<(), Fault>
        ensures { OnOk result (Makes self.old self.new (λ v. map (form_of v) out.new.items ≡ map (form_of v) out.old.items ++ MF.form_list (E.fields_at (place_in v around) first (map (λ t. t.0) types.now)))) }
    {
        match types {
            [] => Ok(()),
            [ty, rest @ ..] => {
                let Some(next) = first.checked_add(1) else {
                    return Err(Fault::Full);
                };
                let place = self.made_place(around.place(first))?;
                out.push(Form::AnyOf { ty: *ty, place })?;
                Ok(self.add_fields(around, next, rest, out)?)
            }
        }
    }

    /// What stands at the fields of something, by their types.
    ///
    /// # Errors
    ///
    /// As `made_fact`.
    #[tactic(auto, using(crate::proofs::OpeningSteps::same_forms))]
    pub fn fields_at(&mut self, around: Around, types: &[TypeId]) -> Result<Vec<Form>, Fault>
        ensures { IfOk result (λ fs. Makes self.old self.new (λ v. forms_of v fs.items ≡ E.fields_at (place_in v around) 0 (map (λ t. t.0) types.now))) }
    {
        let mut out = Vec::new(self.alloc());
        self.add_fields(around, 0, types, &mut out)?;
        Ok(out)
    }

    // Adds a word of each width, each but the last under the guard that it is so wide.
    #[tactic(auto, using(crate::proofs::OpeningSteps::width_steps))]
    fn add_widths(
        &mut self,
        guard: Fact,
        widths: &[u32],
        place: PlaceId,
        out: &mut Vec<Case<Form>>,
    ) -> Result<(), Fault>
        ensures { OnOk result (Makes self.old self.new (λ v. form_cases v out.new.items ≡ form_cases v out.old.items ++ E.at_each (fact_of v guard) widths.now (v.place place.0))) }
    {
        match widths {
            [] => Ok(()),
            [width] => {
                out.push(wide_case(guard, place, *width))?;
                Ok(())
            }
            [width, rest @ ..] => {
                let wide = Fact::AsWide(place, *width);
                let here = self.both_of(guard, wide)?;
                let not = self.none_of(wide)?;
                let later = self.both_of(guard, not)?;
                out.push(wide_case(here, place, *width))?;
                Ok(self.add_widths(later, rest, place, out)?)
            }
        }
    }

    /// A word at a place: of the width that is known, else of each that is listed.
    ///
    /// # Errors
    ///
    /// As `made_fact`.
    #[tactic(auto, using(crate::proofs::AppliedSteps::case_steps))]
    pub fn at_widths(
        &mut self,
        widths: &[u32],
        place: PlaceId,
        known: Option<u32>,
    ) -> Result<Cases<Form>, Fault>
        ensures { IfOk result (λ cs. Makes self.old self.new (λ v. cases_of v cs ≡ E.at_widths widths.now (v.place place.0) known)) }
    {
        match known {
            None => {
                let mut cases = Vec::new(self.alloc());
                self.add_widths(Fact::Known(true), widths, place, &mut cases)?;
                Ok(Cases {
                    cases,
                    rest: Fact::Known(false),
                })
            }
            Some(width) => Ok(one_case(self.alloc(), Form::Word(width, Word::At(place, width)))?),
        }
    }

    /// An integer at a place: the one that is known, else its constant.
    ///
    /// # Errors
    ///
    /// As `made_fact`.
    #[tactic(auto, using(crate::proofs::AppliedSteps::case_steps))]
    pub fn integer_known(
        &mut self,
        place: PlaceId,
        known: Option<i128>,
    ) -> Result<Cases<Form>, Fault>
        ensures { IfOk result (λ cs. Makes self.old self.new (λ v. cases_of v cs ≡ E.integer_known (v.place place.0) known)) }
    {
        match known {
            None => Ok(one_case(self.alloc(), Form::Integer(Integer::At(place)))?),
            Some(number) => Ok(one_case(self.alloc(), Form::Integer(Integer::Written(number)))?),
        }
    }
}
