//! Which places are asked at each of their widths by themselves.
ghost use Rattle.std.specs.Prelude.{◌≡◌, ◌∷◌, [], if◌then◌else◌, slice_get, IfOk, OnOk};
ghost use Rattle.model.specs.rules.Values as Values;
ghost use Rattle.model_questions.specs.Formulas as M;
ghost use Rattle.model_questions.specs.Forms as MF;
ghost use Rattle.model_questions.specs.Steps as S;
ghost use Rattle.spec_cases.specs.Expressions.{Saying};
ghost use Rattle.spec_cases.specs.Namings.{form_of, forms_of, layer_of_place, Naming, Names};
ghost use Rattle.spec_cases.specs.Places.{AreApart};
ghost use Rattle.spec_cases.specs.Steps.{constraint_view};
ghost use Rattle.spec_steps.specs.Demands.{tested_views, Meant, MakesFor};
ghost use Rattle.spec_steps.specs.Roots.{plan, root_in};
ghost use Rattle.spec_steps.specs.Saying.{Adds};

use crate::demands::{Demands, Tested};
use crate::placing::form_at;
use crate::typing::variant_types;
use core_types::{TypeId, VariantId};
use spec_cases::arena::Formulas;
use spec_cases::faults::Fault;
use spec_cases::forms::Form;
use spec_cases::formulas::{Place, PlaceId};
use spec_cases::opening::Around;
use spec_cases::steps::{Constraint, Step};

/// What places are below of.
#[derive(Clone, Copy)]
pub enum Root {
    /// An argument.
    Arguments,
    /// An output of the call of an extractor.
    Outputs(u32),
}

// Adds that a value's place is split, if it is one whose type is known.
#[tactic(auto, using(crate::proofs::SayingSteps::step_steps))]
pub(crate) fn split_form(flag: bool, form: Form, out: &mut Vec<Step>) -> Result<(), Fault>
    ensures { OnOk result ((v : Naming) (w : Saying) → Adds v w out.old.items out.new.items (S.split_form (plan flag) (form_of v form))) }
{
    match form {
        Form::AnyOf { ty, place } => {
            if flag {
                out.push(Step::SplitAt { ty, place })?;
                Ok(())
            } else {
                Ok(())
            }
        }
        Form::Fact(_)
        | Form::Integer(_)
        | Form::Word(_, _)
        | Form::Variant { .. }
        | Form::Struct { .. }
        | Form::SomeAt { .. } => Ok(()),
    }
}

// Adds that the places of values are split.
#[tactic(auto, using(crate::proofs::SayingSteps::step_steps))]
pub(crate) fn split_list(flag: bool, forms: &[Form], out: &mut Vec<Step>) -> Result<(), Fault>
    ensures { OnOk result ((v : Naming) (w : Saying) → Adds v w out.old.items out.new.items (S.split_each (plan flag) (forms_of v forms.now))) }
{
    match forms {
        [] => Ok(()),
        [first, rest @ ..] => {
            split_form(flag, *first, out)?;
            Ok(split_list(flag, rest, out)?)
        }
    }
}

// Whether a place that isn't a field is one of a root.
#[tactic(auto, using(crate::proofs::SplittingSteps::root_steps))]
fn is_root(root: Root, layer: Place) -> bool
    ensures { (v : Naming) → AreApart v → result ≡ root_in v root (layer_of_place v layer) }
{
    match (root, layer) {
        (Root::Arguments, Place::Argument { .. }) => true,
        (Root::Outputs(call), Place::Output { site, .. }) => site == call,
        (Root::Arguments, Place::Site { .. })
        | (Root::Arguments, Place::Output { .. })
        | (Root::Arguments, Place::VariantField { .. })
        | (Root::Arguments, Place::StructField { .. })
        | (Root::Outputs(_), Place::Argument { .. })
        | (Root::Outputs(_), Place::Site { .. })
        | (Root::Outputs(_), Place::VariantField { .. })
        | (Root::Outputs(_), Place::StructField { .. }) => false,
    }
}

// Whether a place is below a root.
#[cycle(below)]
fn is_below(formulas: &Formulas, root: Root, place: PlaceId) -> Result<bool, Fault>
    ensures { IfOk result (λ b. (v : Naming) → Names v formulas.now → AreApart v → b ≡ S.is_below (root_in v root) (v.place place.0)) }
{
    let layer = formulas.layer_at(place)?;
    Ok(is_layer_below(formulas, root, place, layer)?)
}

#[cycle(below)]
fn is_layer_below(
    formulas: &Formulas,
    root: Root,
    limit: PlaceId,
    layer: Place,
) -> Result<bool, Fault>
    ensures { IfOk result (λ b. (v : Naming) → Names v formulas.now → AreApart v → b ≡ S.is_below (root_in v root) (layer_of_place v layer)) }
{
    match layer {
        Place::VariantField { of, .. } | Place::StructField { of, .. } => {
            if of.0 < limit.0 {
                Ok(is_below(formulas, root, of)?)
            } else {
                Err(Fault::Foreign)
            }
        }
        Place::Argument { .. } | Place::Site { .. } | Place::Output { .. } => {
            Ok(is_root(root, layer))
        }
    }
}

// Whether a value stands at a place below a root.
pub(crate) fn is_form_below(formulas: &Formulas, root: Root, form: Form) -> Result<bool, Fault>
    ensures { IfOk result (λ b. (v : Naming) → Names v formulas.now → AreApart v → b ≡ S.is_form_below (root_in v root) (form_of v form)) }
{
    match form {
        Form::AnyOf { place, .. } => Ok(is_below(formulas, root, place)?),
        Form::Fact(_)
        | Form::Integer(_)
        | Form::Word(_, _)
        | Form::Variant { .. }
        | Form::Struct { .. }
        | Form::SomeAt { .. } => Ok(false),
    }
}

// The fields of a variant that stands at a place.
fn variant_fields(
    formulas: &mut Formulas,
    demands: &Demands<'_>,
    ty: TypeId,
    variant: VariantId,
    place: PlaceId,
) -> Result<Vec<Form>, Fault>
    ensures { IfOk result (λ l. MakesFor formulas.old formulas.new demands.now (λ v m. forms_of v l.items
        ≡ S.fields_if (M.variant_field_at (v.place place.0) ty.0 variant.0) (Values.variant_types (slice_get m.p.types ty.0) variant.0))) }
{
    match variant_types(formulas.alloc(), demands.types, ty, variant)? {
        None => Ok(Vec::new(formulas.alloc())),
        Some(types) => {
            let around = Around::Variant {
                of: place,
                ty,
                variant,
            };
            Ok(formulas.fields_at(around, &types)?)
        }
    }
}

fn told_at(
    formulas: &mut Formulas,
    demands: &Demands<'_>,
    ty: TypeId,
    place: PlaceId,
    constraint: Constraint,
) -> Result<Vec<Form>, Fault>
    ensures { IfOk result (λ l. MakesFor formulas.old formulas.new demands.now (λ v m. forms_of v l.items
        ≡ S.told_fields m.p (MF.any_of ty.0 (v.place place.0)) (constraint_view constraint))) }
{
    match constraint {
        Constraint::Variant { variant, .. } => {
            Ok(variant_fields(formulas, demands, ty, variant, place)?)
        }
        Constraint::Struct { .. }
        | Constraint::ConstBool { .. }
        | Constraint::ConstInt { .. }
        | Constraint::ConstPrim { .. }
        | Constraint::Some => Ok(Vec::new(formulas.alloc())),
    }
}

// The fields of what a constraint tells to be a variant.
pub(crate) fn told_fields(
    formulas: &mut Formulas,
    demands: &Demands<'_>,
    form: Form,
    constraint: Constraint,
) -> Result<Vec<Form>, Fault>
    ensures { IfOk result (λ l. MakesFor formulas.old formulas.new demands.now (λ v m. forms_of v l.items ≡ S.told_fields m.p (form_of v form) (constraint_view constraint))) }
{
    match form {
        Form::AnyOf { ty, place } => Ok(told_at(formulas, demands, ty, place, constraint)?),
        Form::Fact(_)
        | Form::Integer(_)
        | Form::Word(_, _)
        | Form::Variant { .. }
        | Form::Struct { .. }
        | Form::SomeAt { .. } => Ok(Vec::new(formulas.alloc())),
    }
}

// What is told by the demands, before any impure call.
pub(crate) fn told_form(
    formulas: &mut Formulas,
    demands: &Demands<'_>,
    site: u32,
) -> Result<Form, Fault>
    ensures { IfOk result (λ f. MakesFor formulas.old formulas.new demands.now (λ v m. form_of v f ≡ S.told_form m.p m.specs m.c (v.site site))) }
{
    Ok(form_at(formulas, demands, &[], site)?)
}

// Adds that the places of a told variant's fields are split, if it stands below a root.
fn split_told(
    formulas: &mut Formulas,
    demands: &Demands<'_>,
    flag: bool,
    root: Root,
    form: Form,
    constraint: Constraint,
    out: &mut Vec<Step>,
) -> Result<(), Fault>
    ensures { OnOk result (MakesFor formulas.old formulas.new demands.now (λ v m. Adds v m.w out.old.items out.new.items
        (if S.is_form_below (root_in v root) (form_of v form) then S.split_each (plan flag) (S.told_fields m.p (form_of v form) (constraint_view constraint)) else []))) }
{
    if is_form_below(formulas, root, form)? {
        let fields = told_fields(formulas, demands, form, constraint)?;
        Ok(split_list(flag, &fields, out)?)
    } else {
        Ok(())
    }
}

fn told_splits(
    formulas: &mut Formulas,
    demands: &Demands<'_>,
    flag: bool,
    root: Root,
    tested: Tested,
    out: &mut Vec<Step>,
) -> Result<(), Fault>
    ensures { OnOk result (MakesFor formulas.old formulas.new demands.now (λ v m. Adds v m.w out.old.items out.new.items
        (S.told_splits m.p m.specs m.c (plan flag) (root_in v root) (v.site tested.site) (constraint_view tested.constraint)))) }
{
    let form = told_form(formulas, demands, tested.site)?;
    Ok(split_told(formulas, demands, flag, root, form, tested.constraint, out)?)
}

// Adds that the fields of variants that are told are split too.
pub(crate) fn field_splits(
    formulas: &mut Formulas,
    demands: &Demands<'_>,
    flag: bool,
    root: Root,
    tests: &[Tested],
    out: &mut Vec<Step>,
) -> Result<(), Fault>
    ensures { OnOk result (MakesFor formulas.old formulas.new demands.now (λ v m. Adds v m.w out.old.items out.new.items
        (S.field_splits m.p m.specs m.c (plan flag) (root_in v root) (tested_views v tests.now)))) }
{
    match tests {
        [] => Ok(()),
        [first, rest @ ..] => {
            told_splits(formulas, demands, flag, root, *first, out)?;
            Ok(field_splits(formulas, demands, flag, root, rest, out)?)
        }
    }
}

fn add_told(
    formulas: &mut Formulas,
    demands: &Demands<'_>,
    tested: Tested,
    out: &mut Vec<Step>,
) -> Result<(), Fault>
    ensures { OnOk result (MakesFor formulas.old formulas.new demands.now (λ v m. Adds v m.w out.old.items out.new.items
        (S.told_as (S.told_form m.p m.specs m.c (v.site tested.site)) (constraint_view tested.constraint) ∷ []))) }
{
    let form = told_form(formulas, demands, tested.site)?;
    out.push(Step::ToldAs {
        form,
        constraint: tested.constraint,
    })?;
    Ok(())
}

// Adds what constraints tell.
pub(crate) fn told_steps(
    formulas: &mut Formulas,
    demands: &Demands<'_>,
    tests: &[Tested],
    out: &mut Vec<Step>,
) -> Result<(), Fault>
    ensures { OnOk result (MakesFor formulas.old formulas.new demands.now (λ v m. Adds v m.w out.old.items out.new.items
        (S.told_steps m.p m.specs m.c (tested_views v tests.now)))) }
{
    match tests {
        [] => Ok(()),
        [first, rest @ ..] => {
            add_told(formulas, demands, *first, out)?;
            Ok(told_steps(formulas, demands, rest, out)?)
        }
    }
}
