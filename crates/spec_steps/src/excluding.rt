//! That tests of a rule of greater priority aren't all met, by what places tell of them.
ghost use Rattle.std.specs.Prelude.{◌≡◌, ◌&&◌, suc, is_some, slice_get, Some, IfOk};
ghost use Rattle.std.specs.Bool.{◌==◌};
ghost use Rattle.model.specs.rules.Values as Values;
ghost use Rattle.model.specs.sites.Sites.{layer};
ghost use Rattle.model_questions.specs.Forms as MF;
ghost use Rattle.model_questions.specs.Formulas as M;
ghost use Rattle.model_questions.specs.Questions as Q;
ghost use Rattle.laws_questions.specs.BelowLaws as B;
ghost use Rattle.core_rule_sets.specs.SiteViews.{site_view};
ghost use Rattle.core_types.specs.TypeViews.{type_view, type_views};
ghost use Rattle.spec_cases.specs.Namings.{fact_of, form_of, Makes, Naming};
ghost use Rattle.spec_cases.specs.Steps.{constraint_view};
ghost use Rattle.spec_steps.specs.Demands.{tested_views, Meant, MakesFor};
ghost use Rattle.spec_steps.specs.Excluding.{all_met};
ghost use Rattle.spec_steps.specs.Sites.{IsBound};

use crate::demands::{Demands, Tested};
use crate::placing::form_at;
use crate::sites::{binding_at, source_of};
use crate::typing::{own_type, struct_types, type_at, variant_types};
use core_rule_sets::trie_again::Binding;
use core_types::{BuiltinType, Type, TypeId, VariantId};
use spec_cases::arena::Formulas;
use spec_cases::faults::Fault;
use spec_cases::forms::Form;
use spec_cases::formulas::{Fact, PlaceId};
use spec_cases::sorts::is_type_closed;
use spec_cases::steps::Constraint;
use std::alloc::Global;

// That none of the variants before this one stands at a place.
fn none_before(formulas: &mut Formulas, place: PlaceId, variant: usize) -> Result<Fact, Fault>
    ensures { IfOk result (λ f. Makes formulas.old formulas.new (λ v. fact_of v f ≡ B.none_before (v.place place.0) variant)) }
{
    if variant == 0 {
        return Ok(Fact::Known(true));
    }
    let last = variant - 1;
    let earlier = none_before(formulas, place, last)?;
    let not = formulas.none_of(Fact::IsKind(place, VariantId(last)))?;
    Ok(formulas.both_of(earlier, not)?)
}

// Whether a variant is the last one of a type that has no other values.
fn is_last_in(entry: &Type, closed: bool, variant: usize) -> bool
    ensures { result ≡ B.is_last_of (Some (type_view entry.now)) closed variant }
{
    match entry {
        Type::Enum {
            is_extern,
            variants,
            ..
        } => is_last(variants.len(), variant) && (!*is_extern || closed),
        Type::Builtin(_) | Type::Primitive(_, _, _) | Type::Struct { .. } => false,
    }
}

// Whether a place is the last one of so many.
fn is_last(count: usize, place: usize) -> bool
    ensures { result ≡ (suc place == count) }
{
    place < count && place + 1 == count
}

fn is_last_of(types: &[Type], ty: TypeId, closed: bool, variant: usize) -> bool
    ensures { result ≡ B.is_last_of (slice_get (type_views types.now) ty.0) closed variant }
{
    match types.get(ty.0) {
        None => false,
        Some(entry) => is_last_in(entry, closed, variant),
    }
}

// That a variant of a type stands at a place.
fn variant_fact(
    formulas: &mut Formulas,
    demands: &Demands<'_>,
    ty: TypeId,
    place: PlaceId,
    variant: VariantId,
) -> Result<Fact, Fault>
    ensures { IfOk result (λ f. MakesFor formulas.old formulas.new demands.now (λ v m. fact_of v f ≡ B.variant_fact m.p m.specs ty.0 (v.place place.0) variant.0)) }
{
    let closed = is_type_closed(demands.sorts, ty);
    if is_last_of(demands.types, ty, closed, variant.0) {
        Ok(none_before(formulas, place, variant.0)?)
    } else {
        Ok(Fact::IsKind(place, variant))
    }
}

// That a field of a variant is there.
fn field_fact(
    formulas: &mut Formulas,
    demands: &Demands<'_>,
    form: Form,
    variant: VariantId,
    index: usize,
) -> Result<Fact, Fault>
    ensures { IfOk result (λ f. MakesFor formulas.old formulas.new demands.now (λ v m. fact_of v f ≡ B.field_fact m.p m.specs variant.0 index (form_of v form))) }
{
    match form {
        Form::AnyOf { ty, place } => { Ok(field_at(formulas, demands, ty, place, variant, index)?) }
        Form::Fact(_)
        | Form::Integer(_)
        | Form::Word(_, _)
        | Form::Variant { .. }
        | Form::Struct { .. }
        | Form::SomeAt { .. } => Ok(Fact::Known(false)),
    }
}

fn field_at(
    formulas: &mut Formulas,
    demands: &Demands<'_>,
    ty: TypeId,
    place: PlaceId,
    variant: VariantId,
    index: usize,
) -> Result<Fact, Fault>
    ensures { IfOk result (λ f. MakesFor formulas.old formulas.new demands.now (λ v m. fact_of v f ≡ B.field_fact m.p m.specs variant.0 index (MF.any_of ty.0 (v.place place.0)))) }
{
    let types = variant_types(formulas.alloc(), demands.types, ty, variant)?;
    if type_at(types, index).is_some() {
        Ok(variant_fact(formulas, demands, ty, place, variant)?)
    } else {
        Ok(Fact::Known(false))
    }
}

// That a field of a struct is there.
fn struct_fact(
    alloc: Global,
    demands: &Demands<'_>,
    form: Form,
    index: usize,
) -> Result<Fact, Fault>
    ensures { IfOk result (λ f. (v : Naming) (m : Meant v demands.now) → fact_of v f ≡ B.struct_fact m.p m.specs index (form_of v form)) }
{
    match form {
        Form::AnyOf { ty, .. } => {
            let types = struct_types(alloc, demands.types, ty)?;
            Ok(Fact::Known(type_at(types, index).is_some()))
        }
        Form::Fact(_)
        | Form::Integer(_)
        | Form::Word(_, _)
        | Form::Variant { .. }
        | Form::Struct { .. }
        | Form::SomeAt { .. } => Ok(Fact::Known(false)),
    }
}

// Whether a type is that of truth values.
fn is_truth_type(types: &[Type], ty: TypeId) -> bool
    ensures { result ≡ Values.is_truth_type (slice_get (type_views types.now) ty.0) }
{
    match types.get(ty.0) {
        Some(Type::Builtin(BuiltinType::Bool)) => true,
        _ => false,
    }
}

// That a value of a type is a variant.
fn variant_met(
    formulas: &mut Formulas,
    demands: &Demands<'_>,
    of: TypeId,
    place: PlaceId,
    ty: TypeId,
    variant: VariantId,
) -> Result<Fact, Fault>
    ensures { IfOk result (λ f. MakesFor formulas.old formulas.new demands.now (λ v m. fact_of v f
        ≡ B.if_had ((of.0 == ty.0) && is_some (Values.variant_types (slice_get m.p.types ty.0) variant.0)) (B.variant_fact m.p m.specs ty.0 (v.place place.0) variant.0))) }
{
    let types = variant_types(formulas.alloc(), demands.types, ty, variant)?;
    if of.0 == ty.0 && types.is_some() {
        Ok(variant_fact(formulas, demands, ty, place, variant)?)
    } else {
        Ok(Fact::Known(false))
    }
}

// That a value of a type is a struct.
fn struct_met(alloc: Global, demands: &Demands<'_>, of: TypeId, ty: TypeId) -> Result<Fact, Fault>
    ensures { IfOk result (λ f. (v : Naming) (m : Meant v demands.now) → fact_of v f ≡ M.known ((of.0 == ty.0) && is_some (Values.struct_types (slice_get m.p.types ty.0)))) }
{
    let types = struct_types(alloc, demands.types, ty)?;
    Ok(Fact::Known(of.0 == ty.0 && types.is_some()))
}

// That a value of a type is this truth.
fn truth_met(
    formulas: &mut Formulas,
    demands: &Demands<'_>,
    of: TypeId,
    place: PlaceId,
    truth: bool,
) -> Result<Fact, Fault>
    ensures { IfOk result (λ f. MakesFor formulas.old formulas.new demands.now (λ v m. fact_of v f
        ≡ B.if_had (Values.is_truth_type (slice_get m.p.types of.0)) (Q.truth_fact truth (MF.any_of of.0 (v.place place.0))))) }
{
    if !is_truth_type(demands.types, of) {
        Ok(Fact::Known(false))
    } else if truth {
        Ok(Fact::At(place))
    } else {
        Ok(formulas.none_of(Fact::At(place))?)
    }
}

// That the value of a place of a type meets a constraint.
fn place_meets(
    formulas: &mut Formulas,
    demands: &Demands<'_>,
    of: TypeId,
    place: PlaceId,
    constraint: Constraint,
) -> Result<Fact, Fault>
    ensures { IfOk result (λ f. MakesFor formulas.old formulas.new demands.now (λ v m. fact_of v f ≡ B.meets_fact m.p m.specs (MF.any_of of.0 (v.place place.0)) (constraint_view constraint))) }
{
    match constraint {
        Constraint::Variant { ty, variant, .. } => {
            Ok(variant_met(formulas, demands, of, place, ty, variant)?)
        }
        Constraint::Struct { ty, .. } => Ok(struct_met(formulas.alloc(), demands, of, ty)?),
        Constraint::ConstBool { val, .. } => Ok(truth_met(formulas, demands, of, place, val)?),
        Constraint::ConstInt { .. } | Constraint::ConstPrim { .. } | Constraint::Some => {
            Ok(Fact::Known(false))
        }
    }
}

// That a value meets a constraint.
fn meets_fact(
    formulas: &mut Formulas,
    demands: &Demands<'_>,
    form: Form,
    constraint: Constraint,
) -> Result<Fact, Fault>
    ensures { IfOk result (λ f. MakesFor formulas.old formulas.new demands.now (λ v m. fact_of v f ≡ B.meets_fact m.p m.specs (form_of v form) (constraint_view constraint))) }
{
    match form {
        Form::AnyOf { ty, place } => Ok(place_meets(formulas, demands, ty, place, constraint)?),
        Form::Fact(_)
        | Form::Integer(_)
        | Form::Word(_, _)
        | Form::Variant { .. }
        | Form::Struct { .. }
        | Form::SomeAt { .. } => Ok(Fact::Known(false)),
    }
}

// That a site surely holds a value: an argument, or a field of what surely holds one.
#[cycle(excluding)]
fn there_fact(formulas: &mut Formulas, demands: &Demands<'_>, site: u32) -> Result<Fact, Fault>
    ensures { IfOk result (λ f. MakesFor formulas.old formulas.new demands.now (λ v m. fact_of v f ≡ B.there_fact m.p m.specs m.c (v.site site))) }
{
    let binding = binding_at(demands.bindings, site)?;
    Ok(there_by(formulas, demands, site, binding)?)
}

#[cycle(excluding)]
fn there_by(
    formulas: &mut Formulas,
    demands: &Demands<'_>,
    site: u32,
    binding: &Binding,
) -> Result<Fact, Fault>
    ensures { IfOk result (λ f. MakesFor formulas.old formulas.new demands.now (λ v m. IsBound v site binding.now → fact_of v f ≡ B.there_fact m.p m.specs m.c (layer v.site (site_view binding.now)))) }
{
    match binding {
        Binding::Argument { index } => {
            Ok(Fact::Known(own_type(demands, index.index()).is_some()))
        }
        Binding::MatchVariant {
            source,
            variant,
            field,
        } => {
            let whole = source_of(site, *source)?;
            let there = there_fact(formulas, demands, whole)?;
            let form = form_at(formulas, demands, &[], whole)?;
            let stands = field_fact(formulas, demands, form, *variant, field.index())?;
            Ok(formulas.both_of(there, stands)?)
        }
        Binding::ExtractStruct { source, field } => {
            let whole = source_of(site, *source)?;
            let there = there_fact(formulas, demands, whole)?;
            let form = form_at(formulas, demands, &[], whole)?;
            let stands = struct_fact(formulas.alloc(), demands, form, field.index())?;
            Ok(formulas.both_of(there, stands)?)
        }
        Binding::ConstBool { .. }
        | Binding::ConstInt { .. }
        | Binding::ConstPrim { .. }
        | Binding::Extractor { .. }
        | Binding::Constructor { .. }
        | Binding::Iterator { .. }
        | Binding::MakeVariant { .. }
        | Binding::MakeStruct { .. }
        | Binding::MakeSome { .. }
        | Binding::MatchSome { .. }
        | Binding::MatchTuple { .. } => Ok(Fact::Known(false)),
    }
}

// That a test is met.
fn met_fact(formulas: &mut Formulas, demands: &Demands<'_>, test: Tested) -> Result<Fact, Fault>
    ensures { IfOk result (λ f. MakesFor formulas.old formulas.new demands.now (λ v m. fact_of v f ≡ B.met_fact m.p m.specs m.c (v.site test.site) (constraint_view test.constraint))) }
{
    let there = there_fact(formulas, demands, test.site)?;
    let form = form_at(formulas, demands, &[], test.site)?;
    let meets = meets_fact(formulas, demands, form, test.constraint)?;
    Ok(formulas.both_of(there, meets)?)
}

// That tests are met, all of them.
fn all_met(formulas: &mut Formulas, demands: &Demands<'_>, tests: &[Tested]) -> Result<Fact, Fault>
    ensures { IfOk result (λ f. MakesFor formulas.old formulas.new demands.now (λ v m. fact_of v f ≡ all_met m.p m.specs m.c (tested_views v tests.now))) }
{
    match tests {
        [] => Ok(Fact::Known(true)),
        [first, rest @ ..] => {
            let others = all_met(formulas, demands, rest)?;
            let met = met_fact(formulas, demands, *first)?;
            Ok(formulas.both_of(met, others)?)
        }
    }
}

/// That not all of these tests are met, of what the condition's sites may hold: nothing, where one of them is of a site that doesn't surely hold a
/// value, or asks for a number, a named constant, or whether a call answers.
///
/// # Errors
///
/// As `form_at`.
pub fn not_all_met(
    formulas: &mut Formulas,
    demands: &Demands<'_>,
    tests: &[Tested],
) -> Result<Fact, Fault>
    ensures { IfOk result (λ f. MakesFor formulas.old formulas.new demands.now (λ v m. fact_of v f ≡ M.none_of (all_met m.p m.specs m.c (tested_views v tests.now)))) }
{
    let all = all_met(formulas, demands, tests)?;
    Ok(formulas.none_of(all)?)
}
