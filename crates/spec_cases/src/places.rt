//! Whether two places are one, and what is told of a place.
ghost use Rattle.std.specs.Prelude.{◌≡◌, IfOk};
ghost use Rattle.model_questions.specs.Evaluated as E;
ghost use Rattle.model_questions.specs.Formulas as M;
ghost use Rattle.spec_cases.specs.Namings.{layer_of_place, Names};
ghost use Rattle.spec_cases.specs.Places.{are_same, told_each, AreApart};

use crate::arena::Formulas;
use crate::faults::Fault;
use crate::formulas::{Place, PlaceId};
use crate::known::Told;
use core_types::{TypeId, VariantId};

/// Whether two places are one, by one layer of each.
#[derive(Clone, Copy)]
pub enum Compared {
    /// It is known.
    Known(bool),
    /// They are where these two are.
    Below(PlaceId, PlaceId),
}

impl Place {
    // With an argument.
    fn beside_argument(self, index: usize) -> bool
        ensures { (v : _) → result ≡ M.place_eq (M.argument_at index) (layer_of_place v self) }
    {
        match self {
            Place::Argument { index: other } => index == other,
            Place::Site { .. }
            | Place::Output { .. }
            | Place::VariantField { .. }
            | Place::StructField { .. } => false,
        }
    }

    // With the value of a site.
    fn beside_site(self, site: u32) -> bool
        ensures { (v : _) → AreApart v → result ≡ M.place_eq (M.site_at (v.site site)) (layer_of_place v self) }
    {
        match self {
            Place::Site { site: other } => site == other,
            Place::Argument { .. }
            | Place::Output { .. }
            | Place::VariantField { .. }
            | Place::StructField { .. } => false,
        }
    }

    // With an output.
    #[tactic(auto, using(crate::proofs::PlaceSteps::output_steps))]
    fn beside_output(self, site: u32, index: usize) -> bool
        ensures { (v : _) → AreApart v → result ≡ M.place_eq (M.output_at (v.site site) index) (layer_of_place v self) }
    {
        match self {
            Place::Output {
                site: other,
                index: place,
            } => site == other && index == place,
            Place::Argument { .. }
            | Place::Site { .. }
            | Place::VariantField { .. }
            | Place::StructField { .. } => false,
        }
    }

    // With a field of a variant.
    fn beside_variant(self, of: PlaceId, ty: TypeId, variant: VariantId, index: usize) -> Compared
        ensures { (v : _) → are_same v result ≡ M.place_eq (M.variant_field_at (v.place of.0) ty.0 variant.0 index) (layer_of_place v self) }
    {
        match self {
            Place::VariantField {
                of: other,
                ty: enum_ty,
                variant: kind,
                index: place,
            } => {
                if ty.0 == enum_ty.0 && variant.0 == kind.0 && index == place {
                    Compared::Below(of, other)
                } else {
                    Compared::Known(false)
                }
            }
            Place::Argument { .. }
            | Place::Site { .. }
            | Place::Output { .. }
            | Place::StructField { .. } => Compared::Known(false),
        }
    }

    // With a field of a struct.
    fn beside_struct(self, of: PlaceId, ty: TypeId, index: usize) -> Compared
        ensures { (v : _) → are_same v result ≡ M.place_eq (M.struct_field_at (v.place of.0) ty.0 index) (layer_of_place v self) }
    {
        match self {
            Place::StructField {
                of: other,
                ty: struct_ty,
                index: place,
            } => {
                if ty.0 == struct_ty.0 && index == place {
                    Compared::Below(of, other)
                } else {
                    Compared::Known(false)
                }
            }
            Place::Argument { .. }
            | Place::Site { .. }
            | Place::Output { .. }
            | Place::VariantField { .. } => Compared::Known(false),
        }
    }

    // One layer of each.
    fn beside(self, other: Place) -> Compared
        ensures { (v : _) → AreApart v → are_same v result ≡ M.place_eq (layer_of_place v self) (layer_of_place v other) }
    {
        match self {
            Place::Argument { index } => Compared::Known(other.beside_argument(index)),
            Place::Site { site } => Compared::Known(other.beside_site(site)),
            Place::Output { site, index } => Compared::Known(other.beside_output(site, index)),
            Place::VariantField {
                of,
                ty,
                variant,
                index,
            } => other.beside_variant(of, ty, variant, index),
            Place::StructField { of, ty, index } => other.beside_struct(of, ty, index),
        }
    }
}

impl Formulas {
    /// Whether two places are one.
    ///
    /// # Errors
    ///
    /// `Foreign` where one isn't there.
    pub fn same_place(&self, a: PlaceId, b: PlaceId) -> Result<bool, Fault>
        ensures { IfOk result (λ same. (v : _) → Names v self.now → AreApart v → same ≡ M.place_eq (v.place a.0) (v.place b.0)) }
    {
        let first = self.layer_at(a)?;
        let second = self.layer_at(b)?;
        match first.beside(second) {
            Compared::Known(same) => Ok(same),
            Compared::Below(p, q) => {
                if p.0 < a.0 {
                    Ok(self.same_place(p, q)?)
                } else {
                    Err(Fault::Foreign)
                }
            }
        }
    }

    /// What is told of a place, the first that is.
    ///
    /// # Errors
    ///
    /// As `same_place`.
    pub fn found<X: Copy>(&self, told: &[Told<X>], place: PlaceId) -> Result<Option<X>, Fault>
        ensures { IfOk result (λ o. (v : _) → Names v self.now → AreApart v → o ≡ E.found (told_each v told.now) (v.place place.0)) }
    {
        match told {
            [] => Ok(None),
            [first, rest @ ..] => {
                if self.same_place(first.place, place)? {
                    Ok(Some(first.is))
                } else {
                    Ok(self.found(rest, place)?)
                }
            }
        }
    }
}
