//! Sites that are bound, in order, before a test.

ghost use Rattle.std.specs.Prelude.{◌≡◌, ◌++◌, ◌∷◌, [], ℕ, IfOk, Some, length, map, option_map, slice_get};
ghost use Rattle.model.specs.rules.Meaning.{just, one};
ghost use Rattle.model.specs.rules.Outcome as Outcomes;
ghost use Rattle.model.specs.rules.Outcome.{then_option};
ghost use Rattle.model.specs.rules.Values.{of_struct, of_variant};
ghost use Rattle.model.specs.trees.Run.{Env, now_bound, part_at, unwrapped, bind_all, bind_site, constructed};
ghost use Rattle.core_rule_sets.specs.SiteViews.{site_view, site_views};
ghost use Rattle.run_terms.specs.RunViews.{IsBeginningOf, bound_view, call_views, env_view, found_view, is_all_bound, stage_view};
ghost use Rattle.run_terms.specs.RunViews.{used_in, used_value_in, used_values_in};
ghost use Rattle.run_terms.specs.ValueViews.{content_view, value_views};

use crate::env::{in_place, part, used, used_value, used_values};
use crate::externs::Externs;
use crate::state::{Bound, Call, Found, Stage};
use crate::values::{Content, Value};
use core_rule_sets::trie_again::{Binding, BindingId};
use core_types::{TermId, TypeId, VariantId};
use std::alloc::{AllocError, Global};

// A content that may be there.
fn there(content: Option<Content>) -> Found
    ensures { (env : Env) (calls : _) (s : ℕ) → found_view result env calls s ≡ now_bound env calls s (option_map content_view content) }
{
    match content {
        Some(content) => Found::There(content),
        None => Found::Missing,
    }
}

fn unwrap_used<E: Externs>(
    stage: &Stage<'_, E>,
    env: &[(BindingId, Content)],
    source: BindingId,
) -> Result<Found, AllocError>
    ensures { IfOk result (λ f. (around : Env) (calls : _) (s : ℕ) → found_view f around calls s
        ≡ unwrapped around calls s (used_in E.functions stage.now env.now source)) }
{
    match used(stage, env, source)? {
        Some(content) => Ok(content.unwrapped()),
        None => Ok(Found::Missing),
    }
}

fn part_used<E: Externs>(
    stage: &Stage<'_, E>,
    env: &[(BindingId, Content)],
    source: BindingId,
    place: usize,
) -> Result<Option<Content>, AllocError>
    ensures { IfOk result (λ o. option_map content_view o
        ≡ then_option (used_in E.functions stage.now env.now source) (λ c. part_at c place)) }
{
    match used(stage, env, source)? {
        Some(content) => Ok(part(&content, place)?),
        None => Ok(None),
    }
}

fn some_used<E: Externs>(
    stage: &Stage<'_, E>,
    env: &[(BindingId, Content)],
    source: BindingId,
) -> Result<Option<Content>, AllocError>
    ensures { IfOk result (λ o. option_map content_view o
        ≡ then_option (used_in E.functions stage.now env.now source) (λ c. Some (just c))) }
{
    match used(stage, env, source)? {
        Some(content) => Ok(Some(Content::Just(Box::new(stage.alloc, content)?))),
        None => Ok(None),
    }
}

// What an extractor answers on the value of a site.
fn extracted<E: Externs>(
    stage: &Stage<'_, E>,
    env: &[(BindingId, Content)],
    term: TermId,
    source: BindingId,
) -> Result<Option<Content>, AllocError>
    ensures { IfOk result (λ o. option_map content_view o
        ≡ then_option (used_value_in E.functions stage.now env.now source) (λ v. Some ((E.functions stage.now.externs.now).extractors term.0 v))) }
{
    match used_value(stage, env, source)? {
        Some(value) => Ok(Some(stage.externs.extractor(stage.alloc, term, &value)?)),
        None => Ok(None),
    }
}

fn variant_made<E: Externs>(
    stage: &Stage<'_, E>,
    env: &[(BindingId, Content)],
    ty: TypeId,
    variant: VariantId,
    fields: &[BindingId],
) -> Result<Option<Content>, AllocError>
    ensures { IfOk result (λ o. option_map content_view o
        ≡ then_option (used_values_in E.functions stage.now env.now fields.now) (λ vs. Some (one (of_variant ty.0 variant.0 vs)))) }
{
    match used_values(stage, env, fields)? {
        Some(values) => Ok(Some(Content::One(Value::Variant(ty, variant, values)))),
        None => Ok(None),
    }
}

fn struct_made<E: Externs>(
    stage: &Stage<'_, E>,
    env: &[(BindingId, Content)],
    ty: TypeId,
    fields: &[BindingId],
) -> Result<Option<Content>, AllocError>
    ensures { IfOk result (λ o. option_map content_view o
        ≡ then_option (used_values_in E.functions stage.now env.now fields.now) (λ vs. Some (one (of_struct ty.0 vs)))) }
{
    match used_values(stage, env, fields)? {
        Some(values) => Ok(Some(Content::One(Value::Struct(ty, values)))),
        None => Ok(None),
    }
}

// An impure call is made, and listed.
fn impure_made<E: Externs>(
    stage: &Stage<'_, E>,
    calls: &mut Vec<Call>,
    term: TermId,
    args: Vec<Value>,
) -> Result<Content, AllocError>
    ensures content { IfOk result (λ c. content_view c ≡ (E.functions stage.now.externs.now).impures term.0 (length (call_views calls.old.items))) }
    ensures calls { IfOk result (λ c. call_views calls.new.items ≡ call_views calls.old.items ++ record { term = term.0; args = value_views args.items } ∷ []) }
{
    let content = stage
        .externs
        .impure_call(stage.alloc, term, &args, calls.len())?;
    calls.push(Call { term, args })?;
    Ok(content)
}

// What a constructor answers on values: a pure one where the instance is 0.
fn called<E: Externs>(
    stage: &Stage<'_, E>,
    calls: &mut Vec<Call>,
    term: TermId,
    args: Vec<Value>,
    instance: u32,
) -> Result<Content, AllocError>
    ensures { IfOk result (λ c. (env : Env) (s : ℕ) → now_bound env (call_views calls.new.items) s (Some (content_view c))
        ≡ constructed (stage_view E.functions stage.now) env (call_views calls.old.items) s term.0 instance (Some (value_views args.items))) }
{
    if instance == 0 {
        Ok(stage.externs.pure_call(stage.alloc, term, &args)?)
    } else {
        Ok(impure_made(stage, calls, term, args)?)
    }
}

// What a constructor answers on the values of sites.
fn constructed<E: Externs>(
    stage: &Stage<'_, E>,
    env: &[(BindingId, Content)],
    calls: &mut Vec<Call>,
    term: TermId,
    parameters: &[BindingId],
    instance: u32,
) -> Result<Option<Content>, AllocError>
    ensures { IfOk result (λ o. (around : Env) (s : ℕ) → now_bound around (call_views calls.new.items) s (option_map content_view o)
        ≡ constructed (stage_view E.functions stage.now) around (call_views calls.old.items) s term.0 instance
        (used_values_in E.functions stage.now env.now parameters.now)) }
{
    match used_values(stage, env, parameters)? {
        Some(args) => Ok(Some(called(stage, calls, term, args, instance)?)),
        None => Ok(None),
    }
}

// What a site is found to hold where it is bound.
fn found<E: Externs>(
    stage: &Stage<'_, E>,
    env: &[(BindingId, Content)],
    calls: &mut Vec<Call>,
    binding: &Binding,
) -> Result<Found, AllocError>
    ensures { IfOk result (λ f. (s : ℕ) → found_view f (env_view env.now) (call_views calls.new.items) s
        ≡ bind_site (stage_view E.functions stage.now) (env_view env.now) (call_views calls.old.items) s (Some (site_view binding.now))) }
{
    match binding {
        Binding::ConstBool { val, ty } => Ok(Found::There(Content::One(
            stage.externs.bool_literal(stage.alloc, *val, *ty)?,
        ))),
        Binding::ConstInt { .. } => Ok(there(in_place(stage, env, binding)?)),
        Binding::ConstPrim { .. } => Ok(there(in_place(stage, env, binding)?)),
        Binding::Argument { .. } => Ok(there(in_place(stage, env, binding)?)),
        Binding::Extractor { term, parameter } => {
            Ok(there(extracted(stage, env, *term, *parameter)?))
        }
        Binding::Constructor {
            term,
            parameters,
            instance,
        } => Ok(there(constructed(stage, env, calls, *term, parameters, *instance)?)),
        Binding::MakeVariant {
            ty,
            variant,
            fields,
        } => Ok(there(variant_made(stage, env, *ty, *variant, fields)?)),
        Binding::MakeStruct { ty, fields } => Ok(there(struct_made(stage, env, *ty, fields)?)),
        Binding::MakeSome { inner } => Ok(there(some_used(stage, env, *inner)?)),
        Binding::MatchSome { source } => Ok(unwrap_used(stage, env, *source)?),
        Binding::MatchTuple { source, field } => {
            Ok(there(part_used(stage, env, *source, field.index())?))
        }
        Binding::Iterator { .. } => Ok(Found::Missing),
        Binding::MatchVariant { .. } => Ok(Found::Missing),
        Binding::ExtractStruct { .. } => Ok(Found::Missing),
    }
}

fn bind(
    env: &mut Vec<(BindingId, Content)>,
    site: BindingId,
    held: Found,
) -> Result<Bound, AllocError>
    ensures bound { IfOk result (λ b. (calls : _) → bound_view b (env_view env.new.items) calls ≡ found_view held (env_view env.old.items) calls site) }
    ensures kept { IfOk result (λ b. IsBeginningOf env.old.items env.new.items) }
{
    match held {
        Found::There(content) => {
            env.push((site, content))?;
            Ok(Bound::All)
        }
        Found::Failed => Ok(Bound::Failed),
        Found::Missing => Ok(Bound::Missing),
    }
}

fn bind_site<E: Externs>(
    stage: &Stage<'_, E>,
    env: &mut Vec<(BindingId, Content)>,
    calls: &mut Vec<Call>,
    site: BindingId,
) -> Result<Bound, AllocError>
    ensures bound { IfOk result (λ b. bound_view b (env_view env.new.items) (call_views calls.new.items)
        ≡ bind_site (stage_view E.functions stage.now) (env_view env.old.items) (call_views calls.old.items) site
        (slice_get (site_views stage.now.sites.now) site)) }
    ensures kept { IfOk result (λ b. IsBeginningOf env.old.items env.new.items) }
{
    match stage.sites.get(site.index()) {
        Some(binding) => {
            let held = found(stage, env, calls, binding)?;
            Ok(bind(env, site, held)?)
        }
        None => Ok(Bound::Missing),
    }
}

// Whether all sites were bound.
fn is_all(bound: Bound) -> bool
    ensures { result ≡ is_all_bound bound }
{
    match bound {
        Bound::All => true,
        Bound::Failed => false,
        Bound::Missing => false,
    }
}

/// Sites are bound in order, each to its content, until one can't be.
pub fn bind_all<E: Externs>(
    stage: &Stage<'_, E>,
    env: &mut Vec<(BindingId, Content)>,
    calls: &mut Vec<Call>,
    sites: &[BindingId],
) -> Result<Bound, AllocError>
    ensures bound { IfOk result (λ b. bound_view b (env_view env.new.items) (call_views calls.new.items)
        ≡ bind_all (stage_view E.functions stage.now) (env_view env.old.items) (call_views calls.old.items) sites.now) }
    ensures kept { IfOk result (λ b. IsBeginningOf env.old.items env.new.items) }
{
    for site in sites {
        let bound = bind_site(stage, env, calls, *site)?;
        if !is_all(bound) {
            return Ok(bound);
        }
    }
    Ok(Bound::All)
}
