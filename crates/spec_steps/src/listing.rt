//! The sites that are told of in what happens.
ghost use Rattle.std.specs.Prelude.{◌≡◌, ◌∷◌, ◌++◌, if◌then◌else◌, OnOk, IfOk};
ghost use Rattle.laws_specs.specs.Conditions.{call_of};
ghost use Rattle.model.specs.sites.Sites as Sites;
ghost use Rattle.model.specs.sites.Sites.{layer};
ghost use Rattle.core_rule_sets.specs.SiteViews.{site_view};
ghost use Rattle.model_questions.specs.Steps as S;
ghost use Rattle.spec_cases.specs.Namings.{Naming};
ghost use Rattle.spec_cases.specs.Places.{AreApart};
ghost use Rattle.spec_cases.specs.Steps.{constraint_view};
ghost use Rattle.spec_steps.specs.Demands.{Meant};
ghost use Rattle.spec_steps.specs.Listing.{sites, Lists};
ghost use Rattle.spec_steps.specs.Sites.{AreSites, IsBound};

use crate::demands::Demands;
use crate::made::{is_one_of, is_pure_made, is_unwrapped};
use crate::sites::{binding_at, source_of};
use crate::telling::{sources_in, told_in, told_in_each};
use crate::typing::{constant, literal};
use core_rule_sets::trie_again::Binding;
use core_types::{Sym, TypeId};
use spec_cases::faults::Fault;
use spec_cases::steps::Constraint;
use std::alloc::Global;

// Adds the calls of a site that is asked to be there.
pub(crate) fn present_in(bindings: &[Binding], site: u32, out: &mut Vec<u32>) -> Result<(), Fault>
    ensures { OnOk result ((v : Naming) → AreSites v bindings.now → Lists v out.old.items out.new.items (S.present_in (v.site site))) }
{
    let binding = binding_at(bindings, site)?;
    Ok(present_by(bindings, site, binding, out)?)
}

fn present_by(
    bindings: &[Binding],
    site: u32,
    binding: &Binding,
    out: &mut Vec<u32>,
) -> Result<(), Fault>
    ensures { OnOk result ((v : Naming) → AreSites v bindings.now → IsBound v site binding.now → Lists v out.old.items out.new.items (S.present_in (layer v.site (site_view binding.now)))) }
{
    match binding {
        Binding::Extractor { .. } | Binding::Constructor { .. } => {
            Ok(told_in(bindings, site, out)?)
        }
        Binding::Iterator { .. }
        | Binding::MakeSome { .. }
        | Binding::MakeVariant { .. }
        | Binding::MakeStruct { .. }
        | Binding::MatchVariant { .. }
        | Binding::ExtractStruct { .. }
        | Binding::MatchSome { .. }
        | Binding::MatchTuple { .. }
        | Binding::ConstBool { .. }
        | Binding::ConstInt { .. }
        | Binding::ConstPrim { .. }
        | Binding::Argument { .. } => Ok(sources_in(bindings, site, out)?),
    }
}

// Adds the calls of a site that is asked to be a number.
fn tested_integer(
    demands: &Demands<'_>,
    site: u32,
    number: i128,
    ty: TypeId,
    out: &mut Vec<u32>,
) -> Result<(), Fault>
    ensures { OnOk result ((v : Naming) (m : Meant v demands.now) → Lists v out.old.items out.new.items (S.tested_in m.p m.specs m.c (v.site site) (Sites.is_int number ty.0))) }
{
    match literal(demands, number, ty)? {
        None => Ok(()),
        Some(_) => Ok(told_in(demands.bindings, site, out)?),
    }
}

// Adds the calls of a site that is asked to be a named constant.
fn tested_constant(
    demands: &Demands<'_>,
    site: u32,
    name: Sym,
    out: &mut Vec<u32>,
) -> Result<(), Fault>
    ensures { OnOk result ((v : Naming) (m : Meant v demands.now) → Lists v out.old.items out.new.items (S.tested_in m.p m.specs m.c (v.site site) (Sites.is_prim name.0))) }
{
    match constant(demands, name) {
        None => Ok(()),
        Some(_) => Ok(told_in(demands.bindings, site, out)?),
    }
}

// Adds the calls of a site that is asked to be there, unwrapped or not.
fn tested_present(demands: &Demands<'_>, site: u32, out: &mut Vec<u32>) -> Result<(), Fault>
    ensures { OnOk result ((v : Naming) (m : Meant v demands.now) → Lists v out.old.items out.new.items (if S.is_pure_made m.p m.specs m.c (v.site site) then S.present_in (v.site site) else S.sources_in (v.site site))) }
{
    if is_pure_made(demands, site)? {
        Ok(present_in(demands.bindings, site, out)?)
    } else {
        Ok(sources_in(demands.bindings, site, out)?)
    }
}

/// Adds the calls that a test tells of.
///
/// # Errors
///
/// `Foreign` where a number isn't a site's or isn't made of smaller ones, `TooGreat` where an integer is one of a type of words past 127
/// bits, `Memory` where memory is refused.
pub fn tested_in(
    demands: &Demands<'_>,
    site: u32,
    constraint: Constraint,
    out: &mut Vec<u32>,
) -> Result<(), Fault>
    ensures { OnOk result ((v : Naming) (m : Meant v demands.now) → Lists v out.old.items out.new.items (S.tested_in m.p m.specs m.c (v.site site) (constraint_view constraint))) }
{
    match constraint {
        Constraint::ConstInt { val, ty } => Ok(tested_integer(demands, site, val, ty, out)?),
        Constraint::ConstPrim { val } => Ok(tested_constant(demands, site, val, out)?),
        Constraint::Some => Ok(tested_present(demands, site, out)?),
        Constraint::Variant { .. } | Constraint::Struct { .. } | Constraint::ConstBool { .. } => {
            Ok(told_in(demands.bindings, site, out)?)
        }
    }
}

/// Adds the calls that the result is made of.
///
/// # Errors
///
/// As `tested_in`.
pub fn result_in(
    demands: &Demands<'_>,
    done: &[u32],
    site: u32,
    out: &mut Vec<u32>,
) -> Result<(), Fault>
    ensures { OnOk result ((v : Naming) (m : Meant v demands.now) → Lists v out.old.items out.new.items (S.result_in m.p m.specs m.c (sites v done.now) (v.site site))) }
{
    let binding = binding_at(demands.bindings, site)?;
    Ok(result_by(demands, done, site, binding, out)?)
}

fn result_by(
    demands: &Demands<'_>,
    done: &[u32],
    site: u32,
    binding: &Binding,
    out: &mut Vec<u32>,
) -> Result<(), Fault>
    ensures { OnOk result ((v : Naming) (m : Meant v demands.now) → IsBound v site binding.now → Lists v out.old.items out.new.items (S.result_in m.p m.specs m.c (sites v done.now) (layer v.site (site_view binding.now)))) }
{
    match binding {
        Binding::MakeSome { inner } => {
            let source = source_of(site, *inner)?;
            Ok(told_in(demands.bindings, source, out)?)
        }
        Binding::MatchSome { source } => {
            let whole = source_of(site, *source)?;
            if is_unwrapped(demands, done, whole)? {
                Ok(told_in(demands.bindings, site, out)?)
            } else {
                Ok(())
            }
        }
        Binding::Extractor { .. }
        | Binding::Constructor { .. }
        | Binding::Iterator { .. }
        | Binding::MakeVariant { .. }
        | Binding::MakeStruct { .. }
        | Binding::MatchVariant { .. }
        | Binding::ExtractStruct { .. }
        | Binding::MatchTuple { .. }
        | Binding::ConstBool { .. }
        | Binding::ConstInt { .. }
        | Binding::ConstPrim { .. }
        | Binding::Argument { .. } => Ok(told_in(demands.bindings, site, out)?),
    }
}

// Adds the calls of an impure call's arguments.
pub(crate) fn args_in(bindings: &[Binding], site: u32, out: &mut Vec<u32>) -> Result<(), Fault>
    ensures { OnOk result ((v : Naming) → AreSites v bindings.now → Lists v out.old.items out.new.items (S.args_in (v.site site))) }
{
    let binding = binding_at(bindings, site)?;
    Ok(args_by(bindings, site, binding, out)?)
}

fn args_by(
    bindings: &[Binding],
    site: u32,
    binding: &Binding,
    out: &mut Vec<u32>,
) -> Result<(), Fault>
    ensures { OnOk result ((v : Naming) → AreSites v bindings.now → Lists v out.old.items out.new.items (S.args_in (layer v.site (site_view binding.now)))) }
{
    match binding {
        Binding::Constructor { parameters, .. } => {
            Ok(told_in_each(bindings, site, parameters, out)?)
        }
        Binding::Extractor { .. }
        | Binding::Iterator { .. }
        | Binding::MakeSome { .. }
        | Binding::MakeVariant { .. }
        | Binding::MakeStruct { .. }
        | Binding::MatchVariant { .. }
        | Binding::ExtractStruct { .. }
        | Binding::MatchSome { .. }
        | Binding::MatchTuple { .. }
        | Binding::ConstBool { .. }
        | Binding::ConstInt { .. }
        | Binding::ConstPrim { .. }
        | Binding::Argument { .. } => Ok(()),
    }
}

// The call that a site is the answer of, unwrapped or not.
pub(crate) fn call_of(bindings: &[Binding], site: u32) -> Result<u32, Fault>
    ensures { IfOk result (λ n. (v : Naming) → AreSites v bindings.now → v.site n ≡ call_of (v.site site)) }
{
    let binding = binding_at(bindings, site)?;
    Ok(call_by(site, binding)?)
}

fn call_by(site: u32, binding: &Binding) -> Result<u32, Fault>
    ensures { IfOk result (λ n. (v : Naming) → IsBound v site binding.now → v.site n ≡ call_of (layer v.site (site_view binding.now))) }
{
    match binding {
        Binding::MatchSome { source } => Ok(source_of(site, *source)?),
        Binding::Extractor { .. }
        | Binding::Constructor { .. }
        | Binding::Iterator { .. }
        | Binding::MakeSome { .. }
        | Binding::MakeVariant { .. }
        | Binding::MakeStruct { .. }
        | Binding::MatchVariant { .. }
        | Binding::ExtractStruct { .. }
        | Binding::MatchTuple { .. }
        | Binding::ConstBool { .. }
        | Binding::ConstInt { .. }
        | Binding::ConstPrim { .. }
        | Binding::Argument { .. } => Ok(site),
    }
}

// One before others.
pub(crate) fn with_first(alloc: Global, first: u32, list: &[u32]) -> Result<Vec<u32>, Fault>
    ensures { IfOk result (λ l. l.items ≡ first ∷ list.now) }
{
    let mut all = Vec::new(alloc);
    all.push(first)?;
    all.extend_from_slice(list)?;
    Ok(all)
}

// Some before others.
pub(crate) fn joined(alloc: Global, before: &[u32], list: &[u32]) -> Result<Vec<u32>, Fault>
    ensures { IfOk result (λ l. l.items ≡ before.now ++ list.now) }
{
    let mut all = Vec::from_slice(alloc, before)?;
    all.extend_from_slice(list)?;
    Ok(all)
}

/// Adds those of a list that weren't seen before.
///
/// # Errors
///
/// `Memory` where memory is refused.
#[tactic(auto, using(crate::proofs::ListingSteps::fresh_steps))]
pub fn fresh(alloc: Global, seen: &[u32], list: &[u32], out: &mut Vec<u32>) -> Result<(), Fault>
    ensures { OnOk result ((v : Naming) → AreApart v → Lists v out.old.items out.new.items (S.fresh (sites v seen.now) (sites v list.now))) }
{
    match list {
        [] => Ok(()),
        [first, rest @ ..] => {
            if is_one_of(seen, *first) {
                Ok(fresh(alloc, seen, rest, out)?)
            } else {
                out.push(*first)?;
                let more = with_first(alloc, *first, seen)?;
                Ok(fresh(alloc, &more, rest, out)?)
            }
        }
    }
}
