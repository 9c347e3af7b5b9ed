//! Where sites are read, and how they are handed on.

ghost use Rattle.std.specs.Prelude.{◌≡◌, ℕ, IfOk, Some, map};
ghost use Rattle.model_code.specs.Modes.{hand_back, is_new, keep_or_clone, lend, look_at, place_in};
ghost use Rattle.model_code.specs.TreeCode.{place_of, to_compare, to_extractor, to_field, to_match, to_result, to_some, use_at};
ghost use Rattle.model.specs.sites.Sites.{make_struct_site, make_variant_site};
ghost use Rattle.core_rule_sets.specs.SiteViews.{site_view, site_views};
ghost use Rattle.rust_code.specs.CodeViews.{pass_view, place_view, use_view, use_views};
ghost use Rattle.rust_code.specs.HeldPasses.{owned_by};
ghost use Rattle.rust_code.specs.HeldViews.{hold_in, hold_view, passes_in};

use crate::code::{Pass, ReadPlace, Use};
use crate::held::{Held, held_at};
use crate::stage::Stage;
use core_rule_sets::trie_again::{Binding, BindingId};
use core_types::{TypeId, VariantId};
use std::alloc::AllocError;

// Where a variant is read: one without fields is written out.
fn variant_place(ty: TypeId, variant: VariantId, fields: &[BindingId], site: BindingId) -> ReadPlace
    ensures { place_view result ≡ place_of (Some (make_variant_site ty.0 variant.0 fields.now)) site }
{
    if fields.is_empty() {
        ReadPlace::VariantWritten { ty, variant }
    } else {
        ReadPlace::Variable { site }
    }
}

// Where a struct is read: one without fields is written out.
fn struct_place(ty: TypeId, fields: &[BindingId], site: BindingId) -> ReadPlace
    ensures { place_view result ≡ place_of (Some (make_struct_site ty.0 fields.now)) site }
{
    if fields.is_empty() {
        ReadPlace::StructWritten { ty }
    } else {
        ReadPlace::Variable { site }
    }
}

fn place_of_binding(binding: &Binding, site: BindingId) -> ReadPlace
    ensures { place_view result ≡ place_of (Some (site_view binding.now)) site }
{
    match binding {
        Binding::ConstInt { val, ty } => ReadPlace::IntWritten { val: *val, ty: *ty },
        Binding::ConstPrim { val } => ReadPlace::NameWritten { name: *val },
        Binding::Argument { index } => ReadPlace::Parameter { index: *index },
        Binding::MatchTuple { source, field } => ReadPlace::PartOf {
            tuple: *source,
            field: *field,
        },
        Binding::MakeVariant {
            ty,
            variant,
            fields,
        } => variant_place(*ty, *variant, fields, site),
        Binding::MakeStruct { ty, fields } => struct_place(*ty, fields, site),
        Binding::ConstBool { .. } => ReadPlace::Variable { site },
        Binding::Extractor { .. } => ReadPlace::Variable { site },
        Binding::Constructor { .. } => ReadPlace::Variable { site },
        Binding::Iterator { .. } => ReadPlace::Variable { site },
        Binding::MatchVariant { .. } => ReadPlace::Variable { site },
        Binding::ExtractStruct { .. } => ReadPlace::Variable { site },
        Binding::MakeSome { .. } => ReadPlace::Variable { site },
        Binding::MatchSome { .. } => ReadPlace::Variable { site },
    }
}

fn place_at(sites: &[Binding], site: BindingId) -> ReadPlace
    ensures { place_view result ≡ place_in (site_views sites.now) site }
{
    match sites.get(site.index()) {
        Some(binding) => place_of_binding(binding, site),
        None => ReadPlace::Variable { site },
    }
}

// How what is looked at is handed on.
fn lent(held: Held) -> Pass
    ensures { pass_view result ≡ lend (hold_view held).mode held.is_copied }
{
    if held.is_reference || held.is_copied {
        Pass::AsItIs
    } else {
        Pass::Lent
    }
}

// Whether a place is written out, so that each use makes the value anew.
fn is_written(place: &ReadPlace) -> bool
    ensures { result ≡ is_new (place_view place.now) }
{
    match place {
        ReadPlace::Variable { .. } => false,
        ReadPlace::Parameter { .. } => false,
        ReadPlace::PartOf { .. } => false,
        ReadPlace::IntWritten { .. } => true,
        ReadPlace::NameWritten { .. } => true,
        ReadPlace::VariantWritten { .. } => true,
        ReadPlace::StructWritten { .. } => true,
    }
}

// How a value is handed on that is kept, `free` where it is copied or made anew.
fn kept(free: bool) -> Pass
    ensures { pass_view result ≡ keep_or_clone free }
{
    if free { Pass::AsItIs } else { Pass::Cloned }
}

// How one of two values is handed on that are compared: both are references, or neither.
fn compared(held: Held, other: Held) -> Pass
    ensures { pass_view result ≡ look_at (hold_view held).mode (hold_view other).mode }
{
    if held.is_reference && !other.is_reference {
        Pass::SeenThrough
    } else {
        Pass::AsItIs
    }
}

// Whether a place isn't behind a reference, but for that its variable is one.
fn is_owned(stage: &Stage<'_>, place: &ReadPlace) -> bool
    ensures { result ≡ owned_by (hold_in stage.now.held.now) (place_view place.now) }
{
    match place {
        ReadPlace::PartOf { tuple, .. } => !held_at(stage.held, *tuple).is_reference,
        ReadPlace::Variable { .. } => true,
        ReadPlace::Parameter { .. } => true,
        ReadPlace::IntWritten { .. } => true,
        ReadPlace::NameWritten { .. } => true,
        ReadPlace::VariantWritten { .. } => true,
        ReadPlace::StructWritten { .. } => true,
    }
}

// How a result is handed on: where it ends the function, what is owned is moved.
fn handed_back(held: Held, free: bool, owned: bool, multi: bool) -> Pass
    ensures { pass_view result ≡ hand_back (hold_view held).mode free owned multi }
{
    if free || (!held.is_reference && owned && !multi) {
        Pass::AsItIs
    } else {
        Pass::Cloned
    }
}

/// A site as it is looked at: by a match, an extractor or a constructor.
pub(crate) fn lent_use(stage: &Stage<'_>, site: BindingId) -> Use
    ensures matched { use_view result ≡ use_at (site_views stage.now.sites.now) (passes_in stage.now) to_match site }
    ensures extracted { (term : ℕ) → use_view result ≡ use_at (site_views stage.now.sites.now) (passes_in stage.now) (to_extractor term) site }
{
    Use {
        place: place_at(stage.sites, site),
        pass: lent(held_at(stage.held, site)),
    }
}

/// A site as it is kept: in a field, or within `Some`.
pub(crate) fn kept_use(stage: &Stage<'_>, site: BindingId) -> Use
    ensures field { use_view result ≡ use_at (site_views stage.now.sites.now) (passes_in stage.now) to_field site }
    ensures inside { use_view result ≡ use_at (site_views stage.now.sites.now) (passes_in stage.now) to_some site }
{
    let place = place_at(stage.sites, site);
    Use {
        place,
        pass: kept(is_written(&place) || held_at(stage.held, site).is_copied),
    }
}

/// A site as it is compared with another one.
pub(crate) fn compared_use(stage: &Stage<'_>, site: BindingId, other: BindingId) -> Use
    ensures { use_view result ≡ use_at (site_views stage.now.sites.now) (passes_in stage.now) (to_compare other) site }
{
    Use {
        place: place_at(stage.sites, site),
        pass: compared(held_at(stage.held, site), held_at(stage.held, other)),
    }
}

/// A site as a result.
pub(crate) fn result_use(stage: &Stage<'_>, site: BindingId) -> Use
    ensures { use_view result ≡ use_at (site_views stage.now.sites.now) (passes_in stage.now) to_result site }
{
    let place = place_at(stage.sites, site);
    let held = held_at(stage.held, site);
    let free = is_written(&place) || held.is_copied;
    let owned = is_owned(stage, &place);
    let pass = handed_back(held, free, owned, stage.multi);
    Use { place, pass }
}

/// Sites as they are looked at.
pub(crate) fn lent_uses(stage: &Stage<'_>, sites: &[BindingId]) -> Result<Vec<Use>, AllocError>
    ensures { IfOk result (λ v. use_views v.items ≡ map (use_at (site_views stage.now.sites.now) (passes_in stage.now) to_match) sites.now) }
{
    let mut uses = Vec::new(stage.alloc);
    for site in sites {
        let Use { place, pass } = lent_use(stage, *site);
        uses.push(Use { place, pass })?;
    }
    Ok(uses)
}

/// Sites as they are kept.
pub(crate) fn kept_uses(stage: &Stage<'_>, sites: &[BindingId]) -> Result<Vec<Use>, AllocError>
    ensures { IfOk result (λ v. use_views v.items ≡ map (use_at (site_views stage.now.sites.now) (passes_in stage.now) to_field) sites.now) }
{
    let mut uses = Vec::new(stage.alloc);
    for site in sites {
        let Use { place, pass } = kept_use(stage, *site);
        uses.push(Use { place, pass })?;
    }
    Ok(uses)
}
