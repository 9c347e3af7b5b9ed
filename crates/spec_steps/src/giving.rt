//! What calls give, and what fields are.
ghost use Rattle.std.specs.Prelude.{◌≡◌, option_map, slice_get, IfOk};
ghost use Rattle.model.specs.rules.Values as Values;
ghost use Rattle.model.specs.sites.Sites.{layer};
ghost use Rattle.core_rule_sets.specs.SiteViews.{site_view};
ghost use Rattle.model_questions.specs.Formulas as M;
ghost use Rattle.model_questions.specs.Forms as MF;
ghost use Rattle.model_questions.specs.Steps as S;
ghost use Rattle.spec_cases.specs.Literals.{literal_view};
ghost use Rattle.spec_cases.specs.Namings.{form_of, layer_of_place, Makes, Naming, Names};
ghost use Rattle.spec_steps.specs.Demands.{Meant, MakesFor};
ghost use Rattle.spec_steps.specs.Forming.{each_form, perhaps_form};
ghost use Rattle.spec_steps.specs.Typing.{type_number};

use crate::demands::Demands;
use crate::sites::binding_at;
use crate::typing::{arg_type, result_type, struct_types, type_at, variant_types};
use core_rule_sets::trie_again::Binding;
use core_types::{TypeId, VariantId};
use spec_cases::arena::Formulas;
use spec_cases::faults::Fault;
use spec_cases::forms::{FieldsId, Form};
use spec_cases::formulas::Place;
use spec_cases::literals::Literal;

// What stands at a place.
pub(crate) fn some_at(formulas: &mut Formulas, place: Place) -> Result<Form, Fault>
    ensures { IfOk result (λ f. Makes formulas.old formulas.new (λ v. form_of v f ≡ MF.some_at (layer_of_place v place))) }
{
    let made = formulas.made_place(place)?;
    Ok(Form::SomeAt { place: made })
}

// What stands at a place of a type.
fn any_of(formulas: &mut Formulas, ty: TypeId, place: Place) -> Result<Form, Fault>
    ensures { IfOk result (λ f. Makes formulas.old formulas.new (λ v. form_of v f ≡ MF.any_of ty.0 (layer_of_place v place))) }
{
    let made = formulas.made_place(place)?;
    Ok(Form::AnyOf { ty, place: made })
}

// What stands at a place whose type may be known.
pub(crate) fn typed_at(
    formulas: &mut Formulas,
    ty: Option<TypeId>,
    place: Place,
) -> Result<Form, Fault>
    ensures { IfOk result (λ f. Makes formulas.old formulas.new (λ v. form_of v f ≡ S.typed_at (type_number ty) (layer_of_place v place))) }
{
    match ty {
        None => Ok(some_at(formulas, place)?),
        Some(known) => Ok(any_of(formulas, known, place)?),
    }
}

// What stands at one place by its type, or else at another.
fn where_typed(
    formulas: &mut Formulas,
    typed: bool,
    ty: Option<TypeId>,
    at: Place,
    place: Place,
) -> Result<Form, Fault>
    ensures { IfOk result (λ f. Makes formulas.old formulas.new (λ v. form_of v f ≡ S.where_typed typed (type_number ty) (layer_of_place v at) (layer_of_place v place))) }
{
    if typed {
        Ok(typed_at(formulas, ty, at)?)
    } else {
        Ok(some_at(formulas, place)?)
    }
}

// A value that is written, if one is.
pub(crate) fn written_or(
    formulas: &mut Formulas,
    literal: Option<Literal>,
    place: Place,
) -> Result<Form, Fault>
    ensures { IfOk result (λ f. Makes formulas.old formulas.new (λ v. form_of v f ≡ S.written_or (layer_of_place v place) (option_map literal_view literal))) }
{
    match literal {
        None => Ok(some_at(formulas, place)?),
        Some(value) => Ok(value.form()),
    }
}

// A form that is known, or else what stands at a place.
pub(crate) fn or_some_at(
    formulas: &mut Formulas,
    form: Option<Form>,
    place: Place,
) -> Result<Form, Fault>
    ensures { IfOk result (λ f. Makes formulas.old formulas.new (λ v. form_of v f ≡ S.or_form (MF.some_at (layer_of_place v place)) (perhaps_form v form))) }
{
    match form {
        None => Ok(some_at(formulas, place)?),
        Some(known) => Ok(known),
    }
}

// What stands at a place whose type may be known, if it is.
fn any_if(formulas: &mut Formulas, ty: Option<TypeId>, place: Place) -> Result<Option<Form>, Fault>
    ensures { IfOk result (λ o. Makes formulas.old formulas.new (λ v. perhaps_form v o ≡ S.any_if (type_number ty) (layer_of_place v place))) }
{
    match ty {
        None => Ok(None),
        Some(known) => Ok(Some(any_of(formulas, known, place)?)),
    }
}

// One of some forms.
fn form_in(list: &[Form], index: usize) -> Option<Form>
    ensures { (v : Naming) → perhaps_form v result ≡ slice_get (each_form v list.now) index }
{
    match list.get(index) {
        None => None,
        Some(form) => Some(*form),
    }
}

// One of the fields of a value.
fn field_at(formulas: &Formulas, fields: FieldsId, index: usize) -> Result<Option<Form>, Fault>
    ensures { IfOk result (λ o. (v : Naming) → Names v formulas.now → perhaps_form v o ≡ slice_get (MF.form_list (v.fields fields.0)) index) }
{
    let list = formulas.fields(fields)?;
    Ok(form_in(list, index))
}

fn variant_field_at(
    formulas: &mut Formulas,
    demands: &Demands<'_>,
    ty: TypeId,
    variant: VariantId,
    index: usize,
    place: Place,
) -> Result<Option<Form>, Fault>
    ensures { IfOk result (λ o. MakesFor formulas.old formulas.new demands.now (λ v m. perhaps_form v o ≡ S.any_if (S.type_at (Values.variant_types (slice_get m.p.types ty.0) variant.0) index) (layer_of_place v place))) }
{
    let types = variant_types(formulas.alloc(), demands.types, ty, variant)?;
    Ok(any_if(formulas, type_at(types, index), place)?)
}

fn struct_field_at(
    formulas: &mut Formulas,
    demands: &Demands<'_>,
    ty: TypeId,
    index: usize,
    place: Place,
) -> Result<Option<Form>, Fault>
    ensures { IfOk result (λ o. MakesFor formulas.old formulas.new demands.now (λ v m. perhaps_form v o ≡ S.any_if (S.type_at (Values.struct_types (slice_get m.p.types ty.0)) index) (layer_of_place v place))) }
{
    let types = struct_types(formulas.alloc(), demands.types, ty)?;
    Ok(any_if(formulas, type_at(types, index), place)?)
}

// What a field of a variant is, where that is known.
pub(crate) fn variant_field_form(
    formulas: &mut Formulas,
    demands: &Demands<'_>,
    variant: VariantId,
    index: usize,
    form: Form,
) -> Result<Option<Form>, Fault>
    ensures { IfOk result (λ o. MakesFor formulas.old formulas.new demands.now (λ v m. perhaps_form v o ≡ S.variant_field_form m.p variant.0 index (form_of v form))) }
{
    match form {
        Form::Variant { fields, .. } => Ok(field_at(formulas, fields, index)?),
        Form::AnyOf { ty, place } => {
            let at = Place::VariantField {
                of: place,
                ty,
                variant,
                index,
            };
            Ok(variant_field_at(formulas, demands, ty, variant, index, at)?)
        }
        Form::Fact(_)
        | Form::Integer(_)
        | Form::Word(_, _)
        | Form::Struct { .. }
        | Form::SomeAt { .. } => Ok(None),
    }
}

// What a field of a struct is, where that is known.
pub(crate) fn struct_field_form(
    formulas: &mut Formulas,
    demands: &Demands<'_>,
    index: usize,
    form: Form,
) -> Result<Option<Form>, Fault>
    ensures { IfOk result (λ o. MakesFor formulas.old formulas.new demands.now (λ v m. perhaps_form v o ≡ S.struct_field_form m.p index (form_of v form))) }
{
    match form {
        Form::Struct { fields, .. } => Ok(field_at(formulas, fields, index)?),
        Form::AnyOf { ty, place } => {
            let at = Place::StructField {
                of: place,
                ty,
                index,
            };
            Ok(struct_field_at(formulas, demands, ty, index, at)?)
        }
        Form::Fact(_)
        | Form::Integer(_)
        | Form::Word(_, _)
        | Form::Variant { .. }
        | Form::SomeAt { .. } => Ok(None),
    }
}

// The value that a site of a call holds, or the one that another site picks of its answers.
pub(crate) fn answer_form(
    formulas: &mut Formulas,
    demands: &Demands<'_>,
    typed: bool,
    call: u32,
    site: u32,
) -> Result<Form, Fault>
    ensures { IfOk result (λ f. MakesFor formulas.old formulas.new demands.now (λ v m. form_of v f ≡ S.answer_form m.p m.specs m.c typed (v.site call) (v.site site))) }
{
    let binding = binding_at(demands.bindings, call)?;
    Ok(answer_by(formulas, demands, typed, binding, site)?)
}

fn answer_by(
    formulas: &mut Formulas,
    demands: &Demands<'_>,
    typed: bool,
    binding: &Binding,
    site: u32,
) -> Result<Form, Fault>
    ensures { IfOk result (λ f. MakesFor formulas.old formulas.new demands.now (λ v m. form_of v f ≡ S.answer_form m.p m.specs m.c typed (layer v.site (site_view binding.now)) (v.site site))) }
{
    match binding {
        Binding::Constructor { term, .. } => {
            let ty = result_type(demands, *term);
            let at = Place::Site { site };
            Ok(where_typed(formulas, typed, ty, at, at)?)
        }
        Binding::Extractor { term, .. } => {
            let ty = arg_type(demands, *term, 0);
            let at = Place::Output { site, index: 0 };
            Ok(where_typed(formulas, typed, ty, at, Place::Site { site })?)
        }
        Binding::Iterator { .. }
        | Binding::MakeSome { .. }
        | Binding::MakeVariant { .. }
        | Binding::MakeStruct { .. }
        | Binding::MatchVariant { .. }
        | Binding::ExtractStruct { .. }
        | Binding::MatchSome { .. }
        | Binding::MatchTuple { .. }
        | Binding::ConstBool { .. }
        | Binding::ConstInt { .. }
        | Binding::ConstPrim { .. }
        | Binding::Argument { .. } => Ok(some_at(formulas, Place::Site { site })?),
    }
}

// An output of an extractor that has several.
pub(crate) fn output_form(
    formulas: &mut Formulas,
    demands: &Demands<'_>,
    typed: bool,
    call: u32,
    site: u32,
    index: usize,
    place: Place,
) -> Result<Form, Fault>
    ensures { IfOk result (λ f. MakesFor formulas.old formulas.new demands.now (λ v m. form_of v f ≡ S.output_form m.p m.specs m.c typed (v.site call) (v.site site) index (layer_of_place v place))) }
{
    let binding = binding_at(demands.bindings, call)?;
    Ok(output_by(formulas, demands, typed, binding, site, index, place)?)
}

fn output_by(
    formulas: &mut Formulas,
    demands: &Demands<'_>,
    typed: bool,
    binding: &Binding,
    site: u32,
    index: usize,
    place: Place,
) -> Result<Form, Fault>
    ensures { IfOk result (λ f. MakesFor formulas.old formulas.new demands.now (λ v m. form_of v f ≡ S.output_form m.p m.specs m.c typed (layer v.site (site_view binding.now)) (v.site site) index (layer_of_place v place))) }
{
    match binding {
        Binding::Extractor { term, .. } => {
            let ty = arg_type(demands, *term, index);
            let at = Place::Output { site, index };
            Ok(where_typed(formulas, typed, ty, at, place)?)
        }
        Binding::Constructor { .. }
        | Binding::Iterator { .. }
        | Binding::MakeSome { .. }
        | Binding::MakeVariant { .. }
        | Binding::MakeStruct { .. }
        | Binding::MatchVariant { .. }
        | Binding::ExtractStruct { .. }
        | Binding::MatchSome { .. }
        | Binding::MatchTuple { .. }
        | Binding::ConstBool { .. }
        | Binding::ConstInt { .. }
        | Binding::ConstPrim { .. }
        | Binding::Argument { .. } => Ok(some_at(formulas, place)?),
    }
}
