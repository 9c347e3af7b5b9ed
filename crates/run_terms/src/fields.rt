//! What a content brings that meets a constraint, and the sites of fields.

ghost use Rattle.std.specs.Prelude.{◌≡◌, ◌==◌, ◌&&◌, ◌∷◌, [], IfOk, None, Some, false, if◌then◌else◌, map, option_map, true};
ghost use Rattle.model.specs.rules.Meaning.{just, total};
ghost use Rattle.model.specs.rules.Values.{listed};
ghost use Rattle.model.specs.trees.Run as Run;
ghost use Rattle.model.specs.trees.Run.{all_one, where_constant, content_fields, value_fields};
ghost use Rattle.model.specs.sites.Sites.{is_present, is_struct, is_variant};
ghost use Rattle.core_rule_sets.specs.SiteViews.{constraint_view};
ghost use Rattle.run_terms.specs.RunViews.{IsBeginningOf, content_list, env_view, if_bound, with_field};
ghost use Rattle.run_terms.specs.ValueViews.{content_view, value_view, value_views};

use crate::externs::Externs;
use crate::state::Stage;
use crate::values::{Content, Value, same_type, same_value, same_variant};
use core_rule_sets::trie_again::{BindingId, Constraint};
use core_types::{TypeId, VariantId};
use std::alloc::{AllocError, Global};

fn each_one(alloc: Global, values: &[Value]) -> Result<Vec<Content>, AllocError>
    ensures { IfOk result (λ v. content_list v.items ≡ all_one (listed (value_views values.now))) }
{
    let mut out = Vec::new(alloc);
    for value in values {
        out.push(Content::One(value.clone()?))?;
    }
    Ok(out)
}

fn variant_fields(
    alloc: Global,
    ty: TypeId,
    variant: VariantId,
    value: &Value,
) -> Result<Option<Vec<Content>>, AllocError>
    ensures { IfOk result (λ o. (m : _) (n : _) → option_map (λ v. content_list v.items) o
        ≡ value_fields m (is_variant ty.0 variant.0 n) (value_view value.now)) }
{
    match value {
        Value::Variant(t, i, fields) => {
            if same_variant(*t, *i, ty, variant) {
                Ok(Some(each_one(alloc, fields)?))
            } else {
                Ok(None)
            }
        }
        _ => Ok(None),
    }
}

fn struct_fields(
    alloc: Global,
    ty: TypeId,
    value: &Value,
) -> Result<Option<Vec<Content>>, AllocError>
    ensures { IfOk result (λ o. (m : _) (n : _) → option_map (λ v. content_list v.items) o ≡ value_fields m (is_struct ty.0 n) (value_view value.now)) }
{
    match value {
        Value::Struct(t, fields) => {
            if same_type(*t, ty) {
                Ok(Some(each_one(alloc, fields)?))
            } else {
                Ok(None)
            }
        }
        _ => Ok(None),
    }
}

// No fields, of a value that is this constant.
fn constant_fields(alloc: Global, constant: &Value, value: &Value) -> Option<Vec<Content>>
    ensures { option_map (λ v. content_list v.items) result ≡ where_constant (Some (value_view constant.now)) (value_view value.now) }
{
    if same_value(constant, value) {
        Some(Vec::new(alloc))
    } else {
        None
    }
}

// The fields of a value that meets a constraint.
fn value_fields<E: Externs>(
    stage: &Stage<'_, E>,
    constraint: Constraint,
    value: &Value,
) -> Result<Option<Vec<Content>>, AllocError>
    ensures { IfOk result (λ o. option_map (λ v. content_list v.items) o
        ≡ value_fields (total (E.functions stage.now.externs.now)) (constraint_view constraint) (value_view value.now)) }
{
    match constraint {
        Constraint::Variant { ty, variant, .. } => Ok(variant_fields(
            stage.alloc,
            ty,
            variant,
            value,
        )?),
        Constraint::Struct { ty, .. } => Ok(struct_fields(stage.alloc, ty, value)?),
        Constraint::ConstBool { val, ty } => {
            let constant = stage.externs.bool_literal(stage.alloc, val, ty)?;
            Ok(constant_fields(stage.alloc, &constant, value))
        }
        Constraint::ConstInt { val, ty } => {
            let constant = stage.externs.int_literal(stage.alloc, val, ty)?;
            Ok(constant_fields(stage.alloc, &constant, value))
        }
        Constraint::ConstPrim { val } => {
            let constant = stage.externs.constant(stage.alloc, val)?;
            Ok(constant_fields(stage.alloc, &constant, value))
        }
        Constraint::Some => Ok(None),
    }
}

fn single(alloc: Global, content: &Content) -> Result<Vec<Content>, AllocError>
    ensures { IfOk result (λ v. content_list v.items ≡ content_view content.now ∷ []) }
{
    let mut out = Vec::new(alloc);
    out.push(content.clone()?)?;
    Ok(out)
}

// What is in a content that is there, where that is asked.
fn inner_field(
    alloc: Global,
    constraint: Constraint,
    inner: &Content,
) -> Result<Option<Vec<Content>>, AllocError>
    ensures { IfOk result (λ o. (m : _) → option_map (λ v. content_list v.items) o
        ≡ content_fields m (constraint_view constraint) (just (content_view inner.now))) }
{
    match constraint {
        Constraint::Some => Ok(Some(single(alloc, inner)?)),
        Constraint::Variant { .. } => Ok(None),
        Constraint::Struct { .. } => Ok(None),
        Constraint::ConstBool { .. } => Ok(None),
        Constraint::ConstInt { .. } => Ok(None),
        Constraint::ConstPrim { .. } => Ok(None),
    }
}

/// What a content brings that meets a constraint; none where it doesn't.
#[tactic(auto, using(crate::proofs::ValueSteps::value_steps, crate::proofs::ContentSteps::content_steps, crate::proofs::FieldSteps::brought))]
pub fn content_fields<E: Externs>(
    stage: &Stage<'_, E>,
    constraint: Constraint,
    content: &Content,
) -> Result<Option<Vec<Content>>, AllocError>
    ensures { IfOk result (λ o. option_map (λ v. content_list v.items) o
        ≡ content_fields (total (E.functions stage.now.externs.now)) (constraint_view constraint) (content_view content.now)) }
{
    match content {
        Content::One(value) => Ok(value_fields(stage, constraint, value)?),
        Content::Just(inner) => Ok(inner_field(stage.alloc, constraint, inner)?),
        Content::Parts(_) => Ok(None),
        Content::Nothing => Ok(None),
        Content::Many(_) => Ok(None),
    }
}

// The site of a field is bound to it, where there is such a site.
fn bind_field(
    env: &mut Vec<(BindingId, Content)>,
    field: Option<BindingId>,
    content: &Content,
) -> Result<(), AllocError>
    ensures bound { IfOk result (λ u. env_view env.new.items ≡ with_field field (content_view content.now) (env_view env.old.items)) }
    ensures kept { IfOk result (λ u. IsBeginningOf env.old.items env.new.items) }
{
    if let Some(site) = field {
        env.push((site, content.clone()?))?;
    }
    Ok(())
}

/// The sites of fields are bound to them, where there are such sites; whether there are as many fields as places for them.
pub fn bind_fields(
    env: &mut Vec<(BindingId, Content)>,
    fields: &[Option<BindingId>],
    contents: &[Content],
) -> Result<bool, AllocError>
    ensures bound { IfOk result (λ b. if_bound b (env_view env.new.items) ≡ Run.bind_fields fields.now (content_list contents.now) (env_view env.old.items)) }
    ensures kept { IfOk result (λ b. IsBeginningOf env.old.items env.new.items) }
{
    let mut place = 0;
    for field in fields {
        match contents.get(place) {
            Some(content) => bind_field(env, *field, content)?,
            None => return Ok(false),
        }
        place += 1;
    }
    Ok(contents.get(place).is_none())
}
