//! What is bound before a step, and what a step emits.

ghost use Rattle.std.specs.Prelude.{◌≡◌, ◌∷◌, ◌++◌, [], Some, cond, not, IfOk, OnOk, slice_get};
ghost use Rattle.std.specs.List.{filter};
ghost use Rattle.model.specs.sites.Sites.{sources_at};
ghost use Rattle.model.specs.trees.Places as Places;
ghost use Rattle.model.specs.trees.Places.{is_in_place, nothing_around};
ghost use Rattle.core_rule_sets.specs.SiteViews.{site_view, set_view};
ghost use Rattle.core_serialize.specs.AroundViews.{around_view, where_emitted, AreEmitted};
ghost use Rattle.core_serialize.specs.Changes.{Emits, IsKept, ListsAll, ListsBelow};
ghost use Rattle.core_serialize.specs.PlaceViews.{set_in};

use crate::around::{Around, number_of};
use crate::parts::keep;
use crate::place::IndexedSet;
use core_containers::stacks::Stack;
use core_rule_sets::trie_again::{Binding, BindingId, RuleSet};
use std::alloc::{AllocError, Global};

/// The sources of a site, and none where there is no such site.
pub fn sources_of(set: &RuleSet, site: BindingId) -> &[BindingId]
    ensures { result.now ≡ sources_at (set_view set.now).sites site }
{
    match set.bindings.get(site.index()) {
        Some(binding) => binding.sources(),
        None => &[],
    }
}

// Lists the sites below a site, after those already listed: sources first, left to right, each once. Those listed first may
// be emitted already.
fn list_below(
    indexed: &IndexedSet<'_>,
    site: BindingId,
    listed: &mut Stack,
) -> Result<(), AllocError>
    ensures { OnOk result (ListsBelow (set_in indexed.now).sites site listed.old listed.new) }
{
    if listed.contains(number_of(site)) {
        return Ok(());
    }
    for source in sources_of(indexed.set, site) {
        list_below(indexed, *source, listed)?;
    }
    listed.insert(number_of(site))?;
    Ok(())
}

// Lists the sites below these, in the order in which they are made of one another.
fn list_all(
    indexed: &IndexedSet<'_>,
    sites: &[BindingId],
    listed: &mut Stack,
) -> Result<(), AllocError>
    ensures { OnOk result (ListsAll (set_in indexed.now).sites sites.now listed.old listed.new) }
{
    for site in sites {
        list_below(indexed, *site, listed)?;
    }
    Ok(())
}

fn stands_in_place(binding: &Binding) -> bool
    ensures { result ≡ is_in_place (Some (site_view binding.now)) }
{
    match binding {
        Binding::ConstInt { .. }
        | Binding::ConstPrim { .. }
        | Binding::Argument { .. }
        | Binding::MatchTuple { .. } => true,
        Binding::MakeVariant { fields, .. } | Binding::MakeStruct { fields, .. } =>
            fields.is_empty(),
        Binding::ConstBool { .. }
        | Binding::Extractor { .. }
        | Binding::Constructor { .. }
        | Binding::Iterator { .. }
        | Binding::MatchVariant { .. }
        | Binding::ExtractStruct { .. }
        | Binding::MakeSome { .. }
        | Binding::MatchSome { .. } => false,
    }
}

// Whether a site is bound by a step that needs it.
fn is_bound(set: &RuleSet, site: BindingId) -> bool
    ensures { result ≡ not (is_in_place (slice_get (set_view set.now).sites site)) }
{
    match set.bindings.get(site.index()) {
        Some(binding) => !stands_in_place(binding),
        None => true,
    }
}

// Adds a site, where a step that needs it binds it.
fn keep_bound(set: &RuleSet, number: u16, bound: &mut Vec<BindingId>) -> Result<(), AllocError>
    ensures { OnOk result (bound.new.items ≡ bound.old.items ++ cond (not (is_in_place (slice_get (set_view set.now).sites number))) (number ∷ []) []) }
{
    let site = BindingId::from(number);
    keep(bound, site, is_bound(set, site))
}

// Those of some sites that a step which needs them binds.
fn bound_of(alloc: Global, set: &RuleSet, listed: &[u16]) -> Result<Vec<BindingId>, AllocError>
    ensures { IfOk result (λ v. v.items ≡ filter (λ s. not (is_in_place (slice_get (set_view set.now).sites s))) listed.now) }
{
    let mut bound = Vec::new(alloc);
    for number in listed {
        keep_bound(set, *number, &mut bound)?;
    }
    Ok(bound)
}

// What is bound before a step that uses these sites: what isn't emitted, each once, sources first and left to right.
fn bind_order(
    alloc: Global,
    indexed: &IndexedSet<'_>,
    emitted: &mut Stack,
    sites: &[BindingId],
) -> Result<Vec<BindingId>, AllocError>
    ensures binds { IfOk result (λ v. v.items ≡ Places.bind_order (set_in indexed.now).sites (where_emitted nothing_around emitted.old) sites.now) }
    ensures back { OnOk result (emitted.new ≡ emitted.old) }
{
    let start = emitted.len();
    list_all(indexed, sites, emitted)?;
    let bound = bound_of(alloc, indexed.set, emitted.behind(start))?;
    emitted.truncate(start);
    Ok(bound)
}

// Emits these sites, and all that they are made of.
fn emit_all(
    indexed: &IndexedSet<'_>,
    around: &mut Around,
    used: &[BindingId],
) -> Result<(), AllocError>
    requires { IsKept (set_in indexed.now) around.old }
    ensures emitted { OnOk result (AreEmitted (set_in indexed.now) (around_view around.old) used.now around.new.emitted) }
    ensures emits { OnOk result (Emits around.old around.new) }
    ensures kept { OnOk result (IsKept (set_in indexed.now) around.new) }
{
    let start = around.closed.len();
    list_all(indexed, used, &mut around.closed)?;
    let listed = around.closed.behind(start);
    around.emitted.insert_all(listed)?;
    Ok(())
}

/// What is bound before a step that uses these sites, where it emits those: they are emitted then.
pub fn bind(
    alloc: Global,
    indexed: &IndexedSet<'_>,
    around: &mut Around,
    sites: &[BindingId],
    used: &[BindingId],
) -> Result<Vec<BindingId>, AllocError>
    requires { IsKept (set_in indexed.now) around.old }
    ensures binds { IfOk result (λ v. v.items ≡ Places.bind_order (set_in indexed.now).sites (around_view around.old) sites.now) }
    ensures emitted { OnOk result (AreEmitted (set_in indexed.now) (around_view around.old) used.now around.new.emitted) }
    ensures emits { OnOk result (Emits around.old around.new) }
    ensures kept { OnOk result (IsKept (set_in indexed.now) around.new) }
{
    let bound = bind_order(alloc, indexed, &mut around.emitted, sites)?;
    emit_all(indexed, around, used)?;
    Ok(bound)
}
