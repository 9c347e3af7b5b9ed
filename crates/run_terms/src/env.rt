//! What sites are bound to, and what a site that is used holds.

ghost use Rattle.std.specs.Prelude.{◌≡◌, IfOk, option_map};
ghost use Rattle.model.specs.rules.Meaning.{one};
ghost use Rattle.model.specs.rules.Values.{no_value, of_struct, of_variant};
ghost use Rattle.model.specs.trees.Run.{bound_to, part_at, in_place, used, used_value, used_values};
ghost use Rattle.core_rule_sets.specs.SiteViews.{site_view};
ghost use Rattle.run_terms.specs.RunViews.{env_view, stage_view};
ghost use Rattle.run_terms.specs.ValueViews.{value_view, value_views, content_view};

use crate::externs::Externs;
use crate::state::Stage;
use crate::values::{Content, Value};
use core_rule_sets::trie_again::{Binding, BindingId};
use core_types::{TypeId, VariantId};
use std::alloc::{AllocError, Global};

/// The content that a site was bound to last.
pub fn bound<'a>(env: &'a [(BindingId, Content)], site: BindingId) -> Option<&'a Content>
    ensures { option_map (λ c. content_view c.now) result ≡ bound_to (env_view env.now) site }
{
    let mut found = None;
    for entry in env {
        if entry.0 == site {
            found = Some(&entry.1);
        }
    }
    found
}

/// A part of a content that has parts.
pub fn part(content: &Content, place: usize) -> Result<Option<Content>, AllocError>
    ensures { IfOk result (λ o. option_map content_view o ≡ part_at (content_view content.now) place) }
{
    match content {
        Content::Parts(values) => match values.get(place) {
            Some(value) => Ok(Some(Content::One(value.clone()?))),
            None => Ok(None),
        },
        _ => Ok(None),
    }
}

// A variant without fields.
fn lone_variant(alloc: Global, ty: TypeId, variant: VariantId) -> Content
    ensures { content_view result ≡ one (of_variant ty.0 variant.0 no_value) }
{
    Content::One(Value::Variant(ty, variant, Vec::new(alloc)))
}

// A struct without fields.
fn lone_struct(alloc: Global, ty: TypeId) -> Content
    ensures { content_view result ≡ one (of_struct ty.0 no_value) }
{
    Content::One(Value::Struct(ty, Vec::new(alloc)))
}

/// The content of a site that is written in place.
pub fn in_place<E: Externs>(
    stage: &Stage<'_, E>,
    env: &[(BindingId, Content)],
    binding: &Binding,
) -> Result<Option<Content>, AllocError>
    ensures { IfOk result (λ o. option_map content_view o ≡ in_place (stage_view E.functions stage.now) (env_view env.now) (site_view binding.now)) }
{
    match binding {
        Binding::ConstInt { val, ty } => {
            Ok(Some(Content::One(stage.externs.int_literal(stage.alloc, *val, *ty)?)))
        }
        Binding::ConstPrim { val } => {
            Ok(Some(Content::One(stage.externs.constant(stage.alloc, *val)?)))
        }
        Binding::Argument { index } => match stage.args.get(index.index()) {
            Some(value) => Ok(Some(Content::One(value.clone()?))),
            None => Ok(None),
        },
        Binding::MatchTuple { source, field } => match bound(env, *source) {
            Some(content) => part(content, field.index()),
            None => Ok(None),
        },
        Binding::MakeVariant {
            ty,
            variant,
            fields,
        } => Ok(if fields.is_empty() {
            Some(lone_variant(stage.alloc, *ty, *variant))
        } else {
            None
        }),
        Binding::MakeStruct { ty, fields } => Ok(if fields.is_empty() {
            Some(lone_struct(stage.alloc, *ty))
        } else {
            None
        }),
        _ => Ok(None),
    }
}

/// What a site holds that is used: what it is bound to, or what is written in place.
pub fn used<E: Externs>(
    stage: &Stage<'_, E>,
    env: &[(BindingId, Content)],
    site: BindingId,
) -> Result<Option<Content>, AllocError>
    ensures { IfOk result (λ o. option_map content_view o ≡ used (stage_view E.functions stage.now) (env_view env.now) site) }
{
    match bound(env, site) {
        Some(content) => Ok(Some(content.clone()?)),
        None => match stage.sites.get(site.index()) {
            Some(binding) => in_place(stage, env, binding),
            None => Ok(None),
        },
    }
}

/// The value that a site holds, where it holds one.
pub fn used_value<E: Externs>(
    stage: &Stage<'_, E>,
    env: &[(BindingId, Content)],
    site: BindingId,
) -> Result<Option<Value>, AllocError>
    ensures { IfOk result (λ o. option_map value_view o ≡ used_value (stage_view E.functions stage.now) (env_view env.now) site) }
{
    match used(stage, env, site)? {
        Some(content) => Ok(content.into_value()),
        None => Ok(None),
    }
}

/// The values that sites hold, where each of them holds one.
pub fn used_values<E: Externs>(
    stage: &Stage<'_, E>,
    env: &[(BindingId, Content)],
    wanted: &[BindingId],
) -> Result<Option<Vec<Value>>, AllocError>
    ensures { IfOk result (λ o. option_map (λ vs. value_views vs.items) o ≡ used_values (stage_view E.functions stage.now) (env_view env.now) wanted.now) }
{
    let mut out = Vec::new(stage.alloc);
    for site in wanted {
        match used_value(stage, env, *site)? {
            Some(value) => out.push(value)?,
            None => return Ok(None),
        }
    }
    Ok(Some(out))
}
