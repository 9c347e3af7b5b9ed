//! What sites stand for, where they hold a value.
ghost use Rattle.std.specs.Prelude.{◌≡◌, ◌∷◌, ◌++◌, [], if◌then◌else◌, slice_get, IfOk, OnOk};
ghost use Rattle.laws_specs.specs.Specs as L;
ghost use Rattle.model.specs.rules.Program.{arg_types};
ghost use Rattle.model.specs.sites.Sites.{each_term, layer};
ghost use Rattle.core_rule_sets.specs.SiteViews.{site_view};
ghost use Rattle.model_questions.specs.Formulas as M;
ghost use Rattle.model_questions.specs.Forms as MF;
ghost use Rattle.model_questions.specs.Steps as S;
ghost use Rattle.spec_cases.specs.Namings.{form_of, forms_of, layer_of_place, Naming};
ghost use Rattle.spec_steps.specs.Demands.{Meant, MakesFor};
ghost use Rattle.spec_steps.specs.Forming.{each_form};
ghost use Rattle.spec_steps.specs.Listing.{sites};
ghost use Rattle.spec_steps.specs.Sites.{IsBound};

use crate::demands::Demands;
use crate::giving::{
    answer_form, or_some_at, output_form, some_at, struct_field_form, typed_at, variant_field_form,
    written_or,
};
use crate::made::{is_answered, is_pure_made, is_unwrapped};
use crate::sites::{binding_at, source_of};
use crate::typing::{constant, literal, own_type};
use core_rule_sets::trie_again::{Binding, BindingId};
use core_types::{Sym, TypeId, VariantId};
use spec_cases::arena::Formulas;
use spec_cases::faults::Fault;
use spec_cases::forms::{FieldsId, Form};
use spec_cases::formulas::{Fact, Place};

// An argument of the term whose rule it is.
fn argument_form(
    formulas: &mut Formulas,
    demands: &Demands<'_>,
    index: usize,
) -> Result<Form, Fault>
    ensures { IfOk result (λ f. MakesFor formulas.old formulas.new demands.now (λ v m. form_of v f ≡ S.typed_at (slice_get (arg_types m.p m.c.term) index) (M.argument_at index))) }
{
    let ty = own_type(demands, index);
    Ok(typed_at(formulas, ty, Place::Argument { index })?)
}

// An integer that is written, if its type says what it stands for.
fn integer_form(
    formulas: &mut Formulas,
    demands: &Demands<'_>,
    number: i128,
    ty: TypeId,
    place: Place,
) -> Result<Form, Fault>
    ensures { IfOk result (λ f. MakesFor formulas.old formulas.new demands.now (λ v m. form_of v f ≡ S.written_or (layer_of_place v place) (L.literal_of m.specs number ty.0))) }
{
    let value = literal(demands, number, ty)?;
    Ok(written_or(formulas, value, place)?)
}

// A named constant, if it is known what it stands for.
fn constant_form(
    formulas: &mut Formulas,
    demands: &Demands<'_>,
    name: Sym,
    place: Place,
) -> Result<Form, Fault>
    ensures { IfOk result (λ f. MakesFor formulas.old formulas.new demands.now (λ v m. form_of v f ≡ S.written_or (layer_of_place v place) (L.constant_of m.specs name.0))) }
{
    let value = constant(demands, name);
    Ok(written_or(formulas, value, place)?)
}

// The value that the site of a call holds.
fn called_form(
    formulas: &mut Formulas,
    demands: &Demands<'_>,
    done: &[u32],
    site: u32,
) -> Result<Form, Fault>
    ensures { IfOk result (λ f. MakesFor formulas.old formulas.new demands.now (λ v m. form_of v f
        ≡ S.answer_form m.p m.specs m.c (S.is_answered m.p m.specs m.c (sites v done.now) (v.site site)) (v.site site) (v.site site))) }
{
    let typed = is_answered(demands, done, site)?;
    Ok(answer_form(formulas, demands, typed, site, site)?)
}

// The value that a site picks of a call's answers.
fn picked_form(
    formulas: &mut Formulas,
    demands: &Demands<'_>,
    call: u32,
    site: u32,
) -> Result<Form, Fault>
    ensures { IfOk result (λ f. MakesFor formulas.old formulas.new demands.now (λ v m. form_of v f
        ≡ S.answer_form m.p m.specs m.c (S.is_pure_made m.p m.specs m.c (v.site call)) (v.site call) (v.site site))) }
{
    let typed = is_pure_made(demands, call)?;
    Ok(answer_form(formulas, demands, typed, call, site)?)
}

// An output of the site of a call.
fn called_output(
    formulas: &mut Formulas,
    demands: &Demands<'_>,
    done: &[u32],
    site: u32,
    index: usize,
    place: Place,
) -> Result<Form, Fault>
    ensures { IfOk result (λ f. MakesFor formulas.old formulas.new demands.now (λ v m. form_of v f
        ≡ S.output_form m.p m.specs m.c (S.is_answered m.p m.specs m.c (sites v done.now) (v.site site)) (v.site site) (v.site site) index (layer_of_place v place))) }
{
    let typed = is_answered(demands, done, site)?;
    Ok(output_form(formulas, demands, typed, site, site, index, place)?)
}

// An output that a site picks of a call's answers.
fn picked_output(
    formulas: &mut Formulas,
    demands: &Demands<'_>,
    call: u32,
    site: u32,
    index: usize,
    place: Place,
) -> Result<Form, Fault>
    ensures { IfOk result (λ f. MakesFor formulas.old formulas.new demands.now (λ v m. form_of v f
        ≡ S.output_form m.p m.specs m.c (S.is_pure_made m.p m.specs m.c (v.site call)) (v.site call) (v.site site) index (layer_of_place v place))) }
{
    let typed = is_pure_made(demands, call)?;
    Ok(output_form(formulas, demands, typed, call, site, index, place)?)
}

// A field of a variant, or else what the site holds.
fn variant_part(
    formulas: &mut Formulas,
    demands: &Demands<'_>,
    form: Form,
    variant: VariantId,
    index: usize,
    site: u32,
) -> Result<Form, Fault>
    ensures { IfOk result (λ f. MakesFor formulas.old formulas.new demands.now (λ v m. form_of v f
        ≡ S.or_form (MF.some_at (M.site_at (v.site site))) (S.variant_field_form m.p variant.0 index (form_of v form)))) }
{
    let part = variant_field_form(formulas, demands, variant, index, form)?;
    Ok(or_some_at(formulas, part, Place::Site { site })?)
}

// A field of a struct, or else what the site holds.
fn struct_part(
    formulas: &mut Formulas,
    demands: &Demands<'_>,
    form: Form,
    index: usize,
    site: u32,
) -> Result<Form, Fault>
    ensures { IfOk result (λ f. MakesFor formulas.old formulas.new demands.now (λ v m. form_of v f
        ≡ S.or_form (MF.some_at (M.site_at (v.site site))) (S.struct_field_form m.p index (form_of v form)))) }
{
    let part = struct_field_form(formulas, demands, index, form)?;
    Ok(or_some_at(formulas, part, Place::Site { site })?)
}

/// What a site stands for, where it holds a value.
///
/// # Errors
///
/// `Foreign` where a number isn't a site's or isn't made of smaller ones, `TooGreat` where an integer is one of a type of words past 127
/// bits, else as `made_place`.
#[cycle(placing)]
pub fn form_at(
    formulas: &mut Formulas,
    demands: &Demands<'_>,
    done: &[u32],
    site: u32,
) -> Result<Form, Fault>
    ensures { IfOk result (λ f. MakesFor formulas.old formulas.new demands.now (λ v m. form_of v f ≡ S.form_at m.p m.specs m.c (sites v done.now) (v.site site))) }
{
    let binding = binding_at(demands.bindings, site)?;
    Ok(form_by(formulas, demands, done, site, binding)?)
}

#[cycle(placing)]
fn form_by(
    formulas: &mut Formulas,
    demands: &Demands<'_>,
    done: &[u32],
    site: u32,
    binding: &Binding,
) -> Result<Form, Fault>
    ensures { IfOk result (λ f. MakesFor formulas.old formulas.new demands.now (λ v m. IsBound v site binding.now → form_of v f
        ≡ S.form_at m.p m.specs m.c (sites v done.now) (layer v.site (site_view binding.now)))) }
{
    match binding {
        Binding::ConstBool { val, .. } => Ok(Form::Fact(Fact::Known(*val))),
        Binding::ConstInt { val, ty } => {
            Ok(integer_form(formulas, demands, *val, *ty, Place::Site { site })?)
        }
        Binding::ConstPrim { val } => {
            Ok(constant_form(formulas, demands, *val, Place::Site { site })?)
        }
        Binding::Argument { index } => Ok(argument_form(formulas, demands, index.index())?),
        Binding::Extractor { .. } => Ok(called_form(formulas, demands, done, site)?),
        Binding::Constructor { .. } => Ok(called_form(formulas, demands, done, site)?),
        Binding::Iterator { source } => {
            let call = source_of(site, *source)?;
            Ok(picked_form(formulas, demands, call, site)?)
        }
        Binding::MakeVariant {
            ty,
            variant,
            fields,
        } => {
            let made = fields_at(formulas, demands, done, site, fields)?;
            Ok(Form::Variant {
                ty: *ty,
                variant: *variant,
                fields: made,
            })
        }
        Binding::MatchVariant {
            source,
            variant,
            field,
        } => {
            let whole = source_of(site, *source)?;
            let form = form_at(formulas, demands, done, whole)?;
            Ok(variant_part(formulas, demands, form, *variant, field.index(), site)?)
        }
        Binding::MakeStruct { ty, fields } => {
            let made = fields_at(formulas, demands, done, site, fields)?;
            Ok(Form::Struct {
                ty: *ty,
                fields: made,
            })
        }
        Binding::ExtractStruct { source, field } => {
            let whole = source_of(site, *source)?;
            let form = form_at(formulas, demands, done, whole)?;
            Ok(struct_part(formulas, demands, form, field.index(), site)?)
        }
        Binding::MakeSome { .. } => Ok(some_at(formulas, Place::Site { site })?),
        Binding::MatchSome { source } => {
            let whole = source_of(site, *source)?;
            Ok(part_form(formulas, demands, done, whole, Place::Site { site })?)
        }
        Binding::MatchTuple { source, field } => {
            let whole = source_of(site, *source)?;
            Ok(outputs_form(
                formulas,
                demands,
                done,
                whole,
                field.index(),
                Place::Site { site },
            )?)
        }
    }
}

fn push_form(form: Form, out: &mut Vec<Form>) -> Result<(), Fault>
    ensures { OnOk result (out.new.items ≡ out.old.items ++ form ∷ []) }
{
    out.push(form)?;
    Ok(())
}

// Adds what sites stand for.
#[cycle(placing)]
fn add_forms(
    formulas: &mut Formulas,
    demands: &Demands<'_>,
    done: &[u32],
    site: u32,
    sources: &[BindingId],
    out: &mut Vec<Form>,
) -> Result<(), Fault>
    ensures { OnOk result (MakesFor formulas.old formulas.new demands.now (λ v m. each_form v out.new.items
        ≡ each_form v out.old.items ++ MF.form_list (S.forms_at m.p m.specs m.c (sites v done.now) (each_term v.site sources.now)))) }
{
    match sources {
        [] => Ok(()),
        [first, rest @ ..] => {
            let source = source_of(site, *first)?;
            let form = form_at(formulas, demands, done, source)?;
            push_form(form, out)?;
            Ok(add_forms(formulas, demands, done, site, rest, out)?)
        }
    }
}

// What sites stand for that others are made of.
#[cycle(placing)]
pub(crate) fn fields_at(
    formulas: &mut Formulas,
    demands: &Demands<'_>,
    done: &[u32],
    site: u32,
    sources: &[BindingId],
) -> Result<FieldsId, Fault>
    ensures { IfOk result (λ n. MakesFor formulas.old formulas.new demands.now (λ v m. v.fields n.0
        ≡ S.forms_at m.p m.specs m.c (sites v done.now) (each_term v.site sources.now))) }
{
    let mut out = Vec::new(formulas.alloc());
    add_forms(formulas, demands, done, site, sources, &mut out)?;
    Ok(formulas.made_fields(out)?)
}

// What is there just of a site.
#[cycle(placing)]
fn part_form(
    formulas: &mut Formulas,
    demands: &Demands<'_>,
    done: &[u32],
    site: u32,
    place: Place,
) -> Result<Form, Fault>
    ensures { IfOk result (λ f. MakesFor formulas.old formulas.new demands.now (λ v m. form_of v f
        ≡ S.part_form m.p m.specs m.c (sites v done.now) (v.site site) (layer_of_place v place))) }
{
    let binding = binding_at(demands.bindings, site)?;
    Ok(part_by(formulas, demands, done, site, binding, place)?)
}

#[cycle(placing)]
fn part_by(
    formulas: &mut Formulas,
    demands: &Demands<'_>,
    done: &[u32],
    site: u32,
    binding: &Binding,
    place: Place,
) -> Result<Form, Fault>
    ensures { IfOk result (λ f. MakesFor formulas.old formulas.new demands.now (λ v m. IsBound v site binding.now → form_of v f
        ≡ S.part_form m.p m.specs m.c (sites v done.now) (layer v.site (site_view binding.now)) (layer_of_place v place))) }
{
    match binding {
        Binding::Extractor { .. } => Ok(called_form(formulas, demands, done, site)?),
        Binding::Constructor { .. } => Ok(called_form(formulas, demands, done, site)?),
        Binding::Iterator { source } => {
            let call = source_of(site, *source)?;
            Ok(picked_form(formulas, demands, call, site)?)
        }
        Binding::MakeSome { inner } => {
            let source = source_of(site, *inner)?;
            Ok(form_at(formulas, demands, done, source)?)
        }
        Binding::MakeVariant { .. }
        | Binding::MakeStruct { .. }
        | Binding::MatchVariant { .. }
        | Binding::ExtractStruct { .. }
        | Binding::MatchSome { .. }
        | Binding::MatchTuple { .. }
        | Binding::ConstBool { .. }
        | Binding::ConstInt { .. }
        | Binding::ConstPrim { .. }
        | Binding::Argument { .. } => Ok(some_at(formulas, place)?),
    }
}

// An output of a site.
fn outputs_form(
    formulas: &mut Formulas,
    demands: &Demands<'_>,
    done: &[u32],
    site: u32,
    index: usize,
    place: Place,
) -> Result<Form, Fault>
    ensures { IfOk result (λ f. MakesFor formulas.old formulas.new demands.now (λ v m. form_of v f
        ≡ S.outputs_form m.p m.specs m.c (sites v done.now) (v.site site) index (layer_of_place v place))) }
{
    let binding = binding_at(demands.bindings, site)?;
    Ok(outputs_by(formulas, demands, done, site, binding, index, place)?)
}

fn outputs_by(
    formulas: &mut Formulas,
    demands: &Demands<'_>,
    done: &[u32],
    site: u32,
    binding: &Binding,
    index: usize,
    place: Place,
) -> Result<Form, Fault>
    ensures { IfOk result (λ f. MakesFor formulas.old formulas.new demands.now (λ v m. IsBound v site binding.now → form_of v f
        ≡ S.outputs_form m.p m.specs m.c (sites v done.now) (layer v.site (site_view binding.now)) index (layer_of_place v place))) }
{
    match binding {
        Binding::Extractor { .. } => {
            Ok(called_output(formulas, demands, done, site, index, place)?)
        }
        Binding::Iterator { source } => {
            let call = source_of(site, *source)?;
            Ok(picked_output(formulas, demands, call, site, index, place)?)
        }
        Binding::MatchSome { source } => {
            let whole = source_of(site, *source)?;
            Ok(part_outputs_form(formulas, demands, done, whole, index, place)?)
        }
        Binding::Constructor { .. }
        | Binding::MakeSome { .. }
        | Binding::MakeVariant { .. }
        | Binding::MakeStruct { .. }
        | Binding::MatchVariant { .. }
        | Binding::ExtractStruct { .. }
        | Binding::MatchTuple { .. }
        | Binding::ConstBool { .. }
        | Binding::ConstInt { .. }
        | Binding::ConstPrim { .. }
        | Binding::Argument { .. } => Ok(some_at(formulas, place)?),
    }
}

// An output of what is there just of a site.
fn part_outputs_form(
    formulas: &mut Formulas,
    demands: &Demands<'_>,
    done: &[u32],
    site: u32,
    index: usize,
    place: Place,
) -> Result<Form, Fault>
    ensures { IfOk result (λ f. MakesFor formulas.old formulas.new demands.now (λ v m. form_of v f
        ≡ S.part_outputs_form m.p m.specs m.c (sites v done.now) (v.site site) index (layer_of_place v place))) }
{
    let binding = binding_at(demands.bindings, site)?;
    Ok(part_outputs_by(formulas, demands, done, site, binding, index, place)?)
}

fn part_outputs_by(
    formulas: &mut Formulas,
    demands: &Demands<'_>,
    done: &[u32],
    site: u32,
    binding: &Binding,
    index: usize,
    place: Place,
) -> Result<Form, Fault>
    ensures { IfOk result (λ f. MakesFor formulas.old formulas.new demands.now (λ v m. IsBound v site binding.now → form_of v f
        ≡ S.part_outputs_form m.p m.specs m.c (sites v done.now) (layer v.site (site_view binding.now)) index (layer_of_place v place))) }
{
    match binding {
        Binding::Extractor { .. } => {
            Ok(called_output(formulas, demands, done, site, index, place)?)
        }
        Binding::Iterator { source } => {
            let call = source_of(site, *source)?;
            Ok(picked_output(formulas, demands, call, site, index, place)?)
        }
        Binding::Constructor { .. }
        | Binding::MatchSome { .. }
        | Binding::MakeSome { .. }
        | Binding::MakeVariant { .. }
        | Binding::MakeStruct { .. }
        | Binding::MatchVariant { .. }
        | Binding::ExtractStruct { .. }
        | Binding::MatchTuple { .. }
        | Binding::ConstBool { .. }
        | Binding::ConstInt { .. }
        | Binding::ConstPrim { .. }
        | Binding::Argument { .. } => Ok(some_at(formulas, place)?),
    }
}

/// The result, unwrapped where the term is partial.
///
/// # Errors
///
/// As `form_at`.
pub fn result_form(
    formulas: &mut Formulas,
    demands: &Demands<'_>,
    done: &[u32],
    site: u32,
) -> Result<Form, Fault>
    ensures { IfOk result (λ f. MakesFor formulas.old formulas.new demands.now (λ v m. form_of v f ≡ S.result_form m.p m.specs m.c (sites v done.now) (v.site site))) }
{
    let binding = binding_at(demands.bindings, site)?;
    Ok(result_by(formulas, demands, done, site, binding)?)
}

// What is unwrapped of a site, where that is known.
fn unwrapped_form(
    formulas: &mut Formulas,
    demands: &Demands<'_>,
    done: &[u32],
    whole: u32,
    site: u32,
) -> Result<Form, Fault>
    ensures { IfOk result (λ f. MakesFor formulas.old formulas.new demands.now (λ v m. form_of v f
        ≡ (if S.is_unwrapped m.p m.specs m.c (sites v done.now) (v.site whole) then S.form_at m.p m.specs m.c (sites v done.now) (v.site site) else MF.some_at (M.site_at (v.site site))))) }
{
    if is_unwrapped(demands, done, whole)? {
        Ok(form_at(formulas, demands, done, site)?)
    } else {
        Ok(some_at(formulas, Place::Site { site })?)
    }
}

fn result_by(
    formulas: &mut Formulas,
    demands: &Demands<'_>,
    done: &[u32],
    site: u32,
    binding: &Binding,
) -> Result<Form, Fault>
    ensures { IfOk result (λ f. MakesFor formulas.old formulas.new demands.now (λ v m. IsBound v site binding.now → form_of v f
        ≡ S.result_form m.p m.specs m.c (sites v done.now) (layer v.site (site_view binding.now)))) }
{
    match binding {
        Binding::MakeSome { inner } => {
            let source = source_of(site, *inner)?;
            Ok(form_at(formulas, demands, done, source)?)
        }
        Binding::MatchSome { source } => {
            let whole = source_of(site, *source)?;
            Ok(unwrapped_form(formulas, demands, done, whole, site)?)
        }
        Binding::Extractor { .. }
        | Binding::Constructor { .. }
        | Binding::Iterator { .. }
        | Binding::MakeVariant { .. }
        | Binding::MakeStruct { .. }
        | Binding::MatchVariant { .. }
        | Binding::ExtractStruct { .. }
        | Binding::MatchTuple { .. }
        | Binding::ConstBool { .. }
        | Binding::ConstInt { .. }
        | Binding::ConstPrim { .. }
        | Binding::Argument { .. } => Ok(form_by(formulas, demands, done, site, binding)?),
    }
}
