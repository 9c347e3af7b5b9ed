//! What stands at a place whose type is known, one layer of it.
ghost use Rattle.std.specs.Prelude.{◌≡◌, map, Some, slice_get, IfOk};
ghost use Rattle.model.specs.rules.Meaning.{look};
ghost use Rattle.model_questions.specs.Evaluated as E;
ghost use Rattle.model_questions.specs.Forms as MF;
ghost use Rattle.model_questions.specs.Formulas as M;
ghost use Rattle.std.specs.Bool.{◌==◌};
ghost use Rattle.core_types.specs.TypeViews.{fields_view, type_view, type_views, variant_view};
ghost use Rattle.spec_cases.specs.CaseViews.{cases_of};
ghost use Rattle.spec_cases.specs.Namings.{form_of, Makes};
ghost use Rattle.spec_cases.specs.Places.{known_of, MakesApart};
ghost use Rattle.spec_cases.specs.Sorts.{sort_view, type_sorts};
ghost use Rattle.spec_cases.specs.Tables.{known_in, specs_in, types_in};
ghost use Rattle.model.specs.rules.Values.{field_types};

use crate::arena::Formulas;
use crate::cases::{Cases, anything, one_case};
use crate::faults::Fault;
use crate::forms::Form;
use crate::formulas::{Fact, PlaceId, Word};
use crate::known::Known;
use crate::opening::Around;
use crate::sorts::{Sort, TypeSort, is_type_closed};
use crate::tables::Tables;
use crate::variants::is_empty;
use core_types::{BuiltinType, Fields, Type, TypeId, Variant};

// Whether a type is an enum that has variants.
#[tactic(auto, using(crate::proofs::VariantSteps::variants_there))]
fn is_enum_of_variants(entry: &Type) -> bool
    ensures { result ≡ E.is_enum_of_variants (Some (type_view entry.now)) }
{
    match entry {
        Type::Enum { variants, .. } => !is_empty(variants),
        Type::Builtin(_) | Type::Primitive(_, _, _) | Type::Struct { .. } => false,
    }
}

// Whether the type of a number is an enum that has variants.
fn has_variants_at(types: &[Type], ty: TypeId) -> bool
    ensures { result ≡ E.is_enum_of_variants (slice_get (type_views types.now) ty.0) }
{
    match types.get(ty.0) {
        None => false,
        Some(entry) => is_enum_of_variants(entry),
    }
}

/// Whether a form is any value of an enum that has variants.
pub fn has_variants(types: &[Type], form: Form) -> bool
    ensures { (v : _) → result ≡ E.has_variants (type_views types.now) (form_of v form) }
{
    match form {
        Form::AnyOf { ty, .. } => has_variants_at(types, ty),
        Form::Fact(_)
        | Form::Integer(_)
        | Form::Word(_, _)
        | Form::Variant { .. }
        | Form::Struct { .. }
        | Form::SomeAt { .. } => false,
    }
}

impl Formulas {
    // A value of a sort.
    #[tactic(auto, using(crate::proofs::AppliedSteps::case_steps))]
    fn at_sort(&mut self, known: &Known, place: PlaceId, sort: &Sort) -> Result<Cases<Form>, Fault>
        ensures { IfOk result (λ cs. MakesApart self.old self.new (λ v. cases_of v cs ≡ E.at_sort (known_of v known.now) (v.place place.0) (Some (sort_view sort.now)))) }
    {
        match sort {
            Sort::Truths => Ok(one_case(self.alloc(), Form::Fact(Fact::At(place)))?),
            Sort::Integers => {
                let told = self.found(&known.integers, place)?;
                Ok(self.integer_known(place, told)?)
            }
            Sort::Words(width) => Ok(one_case(
                self.alloc(),
                Form::Word(*width, Word::At(place, *width)),
            )?),
            Sort::WordsAmong(widths) => {
                let told = self.found(&known.widths, place)?;
                Ok(self.at_widths(widths, place, told)?)
            }
        }
    }

    // A value of a type that has a sort, else anything.
    #[tactic(auto, using(crate::proofs::AppliedSteps::case_steps))]
    fn at_type_sort(
        &mut self,
        sorts: &[TypeSort],
        known: &Known,
        ty: TypeId,
        place: PlaceId,
    ) -> Result<Cases<Form>, Fault>
        ensures { IfOk result (λ cs. MakesApart self.old self.new (λ v. cases_of v cs ≡ E.at_sort (known_of v known.now) (v.place place.0) (look (λ k. k == ty.0) (type_sorts sorts.now)))) }
    {
        match sorts {
            [] => Ok(anything(self.alloc())),
            [first, rest @ ..] => {
                if first.ty.0 == ty.0 {
                    Ok(self.at_sort(known, place, &first.sort)?)
                } else {
                    Ok(self.at_type_sort(rest, known, ty, place)?)
                }
            }
        }
    }

    // A value of an enum.
    fn at_enum(
        &mut self,
        tables: &Tables<'_>,
        is_extern: bool,
        ty: TypeId,
        place: PlaceId,
        variants: &[Variant],
    ) -> Result<Cases<Form>, Fault>
        ensures { IfOk result (λ cs. MakesApart self.old self.new (λ v. cases_of v cs
            ≡ E.at_enum (specs_in tables.now) (known_in v tables.now) is_extern ty.0 (v.place place.0) (map variant_view variants.now))) }
    {
        match variants {
            [] => Ok(self.at_type_sort(tables.sorts, tables.known, ty, place)?),
            [_, ..] => {
                let told = self.found(&tables.known.kinds, place)?;
                let closed = is_type_closed(tables.sorts, ty);
                Ok(self.at_variants(is_extern && !closed, ty, place, variants, told)?)
            }
        }
    }

    // A struct, with its fields.
    #[tactic(auto, using(crate::proofs::VariantSteps::struct_steps))]
    fn struct_at(
        &mut self,
        ty: TypeId,
        place: PlaceId,
        fields: &Fields,
    ) -> Result<Cases<Form>, Fault>
        ensures { IfOk result (λ cs. Makes self.old self.new (λ v. cases_of v cs ≡ MF.one_case (MF.struct_by ty.0 (E.fields_at (M.struct_field_at (v.place place.0) ty.0) 0 (field_types (fields_view fields.now)))))) }
    {
        let types = fields.types(self.alloc())?;
        let list = self.fields_at(Around::Struct { of: place, ty }, &types)?;
        let made = self.made_fields(list)?;
        Ok(one_case(self.alloc(), Form::Struct { ty, fields: made })?)
    }

    // A value of a type of the table.
    #[tactic(auto, using(crate::proofs::VariantSteps::entry_steps))]
    fn at_entry(
        &mut self,
        tables: &Tables<'_>,
        ty: TypeId,
        place: PlaceId,
        entry: &Type,
    ) -> Result<Cases<Form>, Fault>
        ensures { IfOk result (λ cs. MakesApart self.old self.new (λ v. cases_of v cs
            ≡ E.at_type (specs_in tables.now) (known_in v tables.now) ty.0 (v.place place.0) (Some (type_view entry.now)))) }
    {
        match entry {
            Type::Builtin(BuiltinType::Bool) => {
                Ok(one_case(self.alloc(), Form::Fact(Fact::At(place)))?)
            }
            Type::Builtin(BuiltinType::Int(_)) | Type::Primitive(_, _, _) => {
                Ok(self.at_type_sort(tables.sorts, tables.known, ty, place)?)
            }
            Type::Enum {
                is_extern,
                variants,
                ..
            } => Ok(self.at_enum(tables, *is_extern, ty, place, variants)?),
            Type::Struct { fields, .. } => Ok(self.struct_at(ty, place, fields)?),
        }
    }

    /// What stands at a place, by the type of this number.
    ///
    /// # Errors
    ///
    /// As `made_fact`.
    #[tactic(auto, using(crate::proofs::AppliedSteps::case_steps))]
    pub fn at_type(
        &mut self,
        tables: &Tables<'_>,
        ty: TypeId,
        place: PlaceId,
    ) -> Result<Cases<Form>, Fault>
        ensures { IfOk result (λ cs. MakesApart self.old self.new (λ v. cases_of v cs
            ≡ E.at_type (specs_in tables.now) (known_in v tables.now) ty.0 (v.place place.0) (slice_get (types_in tables.now) ty.0))) }
    {
        match tables.types.get(ty.0) {
            None => Ok(anything(self.alloc())),
            Some(entry) => Ok(self.at_entry(tables, ty, place, entry)?),
        }
    }

    /// A value, with one layer of what stands at a place.
    ///
    /// # Errors
    ///
    /// As `made_fact`.
    #[tactic(auto, using(crate::proofs::AppliedSteps::case_steps))]
    pub fn opened(&mut self, tables: &Tables<'_>, form: Form) -> Result<Cases<Form>, Fault>
        ensures { IfOk result (λ cs. MakesApart self.old self.new (λ v. cases_of v cs
            ≡ E.opened (types_in tables.now) (specs_in tables.now) (known_in v tables.now) (form_of v form))) }
    {
        match form {
            Form::AnyOf { ty, place } => Ok(self.at_type(tables, ty, place)?),
            Form::SomeAt { .. } => Ok(anything(self.alloc())),
            Form::Fact(_)
            | Form::Integer(_)
            | Form::Word(_, _)
            | Form::Variant { .. }
            | Form::Struct { .. } => Ok(one_case(self.alloc(), form)?),
        }
    }
}
