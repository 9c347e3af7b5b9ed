//! The sites that an arm or a loop brings.

ghost use Rattle.std.specs.Prelude.{◌≡◌, ◌≤◌, ◌<◌, ◌∷◌, ◌++◌, [], ℕ, cond, Some, Contains, IfOk, OnOk, length};
ghost use Rattle.std.specs.List.{find};
ghost use Rattle.model.specs.trees.Places as Places;
ghost use Rattle.model.specs.trees.Places.{site_from};
ghost use Rattle.core_rule_sets.specs.SiteViews.{constraint_view, set_view, site_view};
ghost use Rattle.core_serialize.specs.FieldTests as FieldTests;
ghost use Rattle.core_serialize.specs.FieldTests.{passes_at, AreFields, ListsOneMore, list_at, listed_under};
ghost use Rattle.core_serialize.specs.Growing.{SourcesFirst};
ghost use Rattle.core_serialize.specs.PlaceViews.{set_in};

use crate::around::site_at;
use crate::place::IndexedSet;
use core_rule_sets::trie_again::{Binding, BindingId, Constraint, RuleSet};
use core_types::VariantId;
use std::alloc::{AllocError, Global};

/// The sites that only an arm or a loop brings, by their sources, so that the fields of one site are found without a look
/// at all others.
#[derive(Debug, Drop)]
pub struct FieldsBySource {
    /// At the number of each site those that an arm or a loop of it brings, ascending.
    pub by_source: Vec<Vec<BindingId>>,
}

impl FieldsBySource {
    /// The sites that only an arm or a loop of this one brings, ascending.
    pub fn under(&self, source: BindingId) -> &[BindingId]
        ensures { result.now ≡ listed_under self.now source }
    {
        match self.by_source.get(source.index()) {
            Some(sites) => sites,
            None => &[],
        }
    }
}

// The source of a site that only an arm or a loop brings, and none of any other one.
fn brought_from(binding: &Binding) -> Option<BindingId>
    ensures { result ≡ FieldTests.brought_from (site_view binding.now) }
{
    match binding {
        Binding::Iterator { source }
        | Binding::MatchVariant { source, .. }
        | Binding::ExtractStruct { source, .. }
        | Binding::MatchSome { source } => Some(*source),
        Binding::ConstBool { .. }
        | Binding::ConstInt { .. }
        | Binding::ConstPrim { .. }
        | Binding::Argument { .. }
        | Binding::Extractor { .. }
        | Binding::Constructor { .. }
        | Binding::MakeVariant { .. }
        | Binding::MakeStruct { .. }
        | Binding::MakeSome { .. }
        | Binding::MatchTuple { .. } => None,
    }
}

fn empty_lists(alloc: Global, count: usize) -> Result<Vec<Vec<BindingId>>, AllocError>
    ensures count { IfOk result (λ v. length v.items ≡ count) }
    ensures empty { IfOk result (λ v. (s : ℕ) → list_at v.items s ≡ []) }
{
    let mut lists = Vec::with_capacity(alloc, count)?;
    for _ in 0..count {
        lists.push(Vec::new(alloc))?;
    }
    Ok(lists)
}

// Lists a site under its source, where only an arm or a loop brings it.
fn add_field(
    lists: &mut Vec<Vec<BindingId>>,
    binding: &Binding,
    site: BindingId,
) -> Result<(), AllocError>
    requires { (a : ℕ) → FieldTests.brought_from (site_view binding.now) ≡ Some a → a < length lists.old.items }
    ensures count { OnOk result (length lists.new.items ≡ length lists.old.items) }
    ensures listed { OnOk result (ListsOneMore (site_view binding.now) site lists.old.items lists.new.items) }
{
    if let Some(source) = brought_from(binding) {
        lists[source.index()].push(site)?;
    }
    Ok(())
}

/// The sites of a set that arms and loops bring, by their sources.
pub fn fields_by_source(alloc: Global, set: &RuleSet) -> Result<FieldsBySource, AllocError>
    requires few { length (set_view set.now).sites ≤ 65536 }
    requires sources { SourcesFirst (set_view set.now).sites }
    ensures { IfOk result (AreFields (set_view set.now).sites) }
{
    let mut by_source = empty_lists(alloc, set.bindings.len())?;
    for s in 0..set.bindings.len() {
        add_field(&mut by_source, &set.bindings[s], site_at(s))?;
    }
    Ok(FieldsBySource { by_source })
}

// Whether a site is that field of a source, which is of that variant.
fn is_variant_field(binding: &Binding, of: BindingId, of_variant: VariantId, number: usize) -> bool
    ensures { result ≡ Places.is_variant_field of of_variant.0 number (site_view binding.now) }
{
    match binding {
        Binding::MatchVariant {
            source,
            variant,
            field,
        } => *source == of && *variant == of_variant && field.index() == number,
        _ => false,
    }
}

// Whether a site is that field of a source, which is a struct.
fn is_struct_field(binding: &Binding, of: BindingId, number: usize) -> bool
    ensures { result ≡ Places.is_struct_field of number (site_view binding.now) }
{
    match binding {
        Binding::ExtractStruct { source, field } => *source == of && field.index() == number,
        _ => false,
    }
}

// Whether a site is what is in a source, which is there.
fn is_part(binding: &Binding, of: BindingId) -> bool
    ensures { result ≡ Places.is_part_of of (site_view binding.now) }
{
    match binding {
        Binding::MatchSome { source } => *source == of,
        _ => false,
    }
}

// Whether a site is that field of what a constraint on a source brings.
fn is_field(binding: &Binding, of: BindingId, constraint: &Constraint, number: usize) -> bool
    ensures { result ≡ FieldTests.is_field of (constraint_view constraint.now) number (site_view binding.now) }
{
    match constraint {
        Constraint::Variant { variant, .. } => is_variant_field(binding, of, *variant, number),
        Constraint::Struct { .. } => is_struct_field(binding, of, number),
        Constraint::Some => is_part(binding, of),
        Constraint::ConstBool { .. } | Constraint::ConstInt { .. } | Constraint::ConstPrim { .. } =>
            { false }
    }
}

fn field_count(constraint: &Constraint) -> usize
    ensures { result ≡ FieldTests.field_count (constraint_view constraint.now) }
{
    match constraint {
        Constraint::Variant { fields, .. } | Constraint::Struct { fields, .. } => fields.index(),
        Constraint::Some => 1,
        Constraint::ConstBool { .. } | Constraint::ConstInt { .. } | Constraint::ConstPrim { .. } =>
            0,
    }
}

// Whether the site of a number is that field of what a constraint on a source brings.
fn is_field_at(
    set: &RuleSet,
    of: BindingId,
    constraint: &Constraint,
    number: usize,
    site: BindingId,
) -> bool
    ensures { result ≡ passes_at (FieldTests.is_field of (constraint_view constraint.now) number) (set_view set.now).sites site }
{
    match set.bindings.get(site.index()) {
        Some(binding) => is_field(binding, of, constraint, number),
        None => false,
    }
}

// The first of some sites that is that field of what a constraint on a source brings.
fn first_field(
    set: &RuleSet,
    sites: &[BindingId],
    of: BindingId,
    constraint: &Constraint,
    number: usize,
) -> Option<BindingId>
    ensures { result ≡ find (passes_at (FieldTests.is_field of (constraint_view constraint.now) number) (set_view set.now).sites) sites.now }
{
    sites
        .iter()
        .copied()
        .find(|site| is_field_at(set, of, constraint, number, *site))
}

// The site of that field of what a constraint on a source brings.
fn field_site(
    indexed: &IndexedSet<'_>,
    of: BindingId,
    constraint: &Constraint,
    number: usize,
) -> Option<BindingId>
    ensures { result ≡ site_from 0 (FieldTests.is_field of (constraint_view constraint.now) number) (set_in indexed.now).sites }
{
    first_field(
        indexed.set,
        indexed.fields.under(of),
        of,
        constraint,
        number,
    )
}

/// The sites of the fields that a constraint on a source brings, in order; None where the set has no such site.
pub fn fields_of(
    alloc: Global,
    indexed: &IndexedSet<'_>,
    source: BindingId,
    constraint: &Constraint,
) -> Result<Vec<Option<BindingId>>, AllocError>
    ensures { IfOk result (λ v. v.items ≡ Places.fields_of (set_in indexed.now).sites source (constraint_view constraint.now)) }
{
    let mut sites = Vec::new(alloc);
    for number in 0..field_count(constraint) {
        sites.push(field_site(indexed, source, constraint, number))?;
    }
    Ok(sites)
}

// Whether a site stands for each value that a call answered.
fn is_pick(binding: &Binding, call: BindingId) -> bool
    ensures { result ≡ FieldTests.is_iterator_of call (site_view binding.now) }
{
    match binding {
        Binding::Iterator { source } => *source == call,
        _ => false,
    }
}

// Whether the site of a number stands for each value that a call answered.
fn is_pick_at(set: &RuleSet, call: BindingId, site: BindingId) -> bool
    ensures { result ≡ passes_at (FieldTests.is_iterator_of call) (set_view set.now).sites site }
{
    match set.bindings.get(site.index()) {
        Some(binding) => is_pick(binding, call),
        None => false,
    }
}

// The first of some sites that stands for each value that a call answered.
fn first_pick(set: &RuleSet, sites: &[BindingId], call: BindingId) -> Option<BindingId>
    ensures { result ≡ find (passes_at (FieldTests.is_iterator_of call) (set_view set.now).sites) sites.now }
{
    sites
        .iter()
        .copied()
        .find(|site| is_pick_at(set, call, *site))
}

/// The site that stands for each value that a call answered, if the set has one.
pub fn iterator_of(indexed: &IndexedSet<'_>, call: BindingId) -> Option<BindingId>
    ensures { result ≡ site_from 0 (FieldTests.is_iterator_of call) (set_in indexed.now).sites }
{
    first_pick(indexed.set, indexed.fields.under(call), call)
}
