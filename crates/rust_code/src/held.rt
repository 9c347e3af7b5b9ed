//! How sites hold their values.

ghost use Rattle.std.specs.Prelude.{◌≡◌, ◌&&◌, ℕ, Some, IfOk, not, slice_get};
ghost use Rattle.model.specs.rules.Program.{Program};
ghost use Rattle.model.specs.rules.Program as Program;
ghost use Rattle.model.specs.sites.Sites.{layer, unfolded};
ghost use Rattle.model_code.specs.SiteTypes as Sites;
ghost use Rattle.model_code.specs.SiteTypes.{is_held_by_reference, types_at};
ghost use Rattle.core_terms.specs.TermViews.{term_view, term_views};
ghost use Rattle.core_rule_sets.specs.SiteViews.{site_view, site_views};
ghost use Rattle.rust_code.specs.HeldViews.{hold_in, hold_view};
ghost use Rattle.rust_code.specs.SeenTypes.{arguments_in, seen_types, AreTablesOf, OfTables};
ghost use Rattle.rust_code.specs.SiteHolds.{hold_of, term_hold};

use crate::types::{SiteTypes, Tables, are_copied, is_one_composed, place_types, types_of};
use core_rule_sets::trie_again::{Binding, BindingId};
use core_terms::{Term, TermKind};
use core_types::TermId;
use std::alloc::{AllocError, Global};

/// How a site holds its value.
#[derive(Clone, Copy)]
pub struct Held {
    /// Whether it is behind a reference.
    pub is_reference: bool,
    /// Whether it counts as `Copy`.
    pub is_copied: bool,
}

/// How a site holds its value, by a table that has all sites. One that isn't there holds a value without parts.
pub(crate) fn held_at(held: &[Held], site: BindingId) -> Held
    ensures { hold_view result ≡ hold_in held.now site }
{
    match held.get(site.index()) {
        Some(held) => *held,
        None => Held {
            is_reference: false,
            is_copied: true,
        },
    }
}

/// Whether a term may give many values.
pub(crate) fn is_multi(terms: &[Term], term: TermId) -> bool
    ensures { (p : Program) → p.terms ≡ term_views terms.now → result ≡ Program.is_multi p term.0 }
{
    match terms.get(term.index()) {
        Some(term) => is_declared_multi(term),
        None => false,
    }
}

// Whether a term is declared so that it may give many values.
fn is_declared_multi(term: &Term) -> bool
    ensures { result ≡ (Program.flags_of (Program.kind_of (term_view term.now))).multi }
{
    match &term.kind {
        TermKind::Decl { flags, .. } => flags.multi,
        TermKind::EnumVariant { .. } => false,
        TermKind::Struct => false,
    }
}

// Whether the answer of a call of a term, with these types, is held by reference.
fn is_held_call(tables: &Tables<'_>, term: TermId, types: SiteTypes) -> bool
    ensures { OfTables tables.now (λ p. result ≡ (not (Program.is_multi p term.0) && Sites.is_one_composed p (seen_types tables.now.terms.now types))) }
{
    !is_multi(tables.terms, term) && is_one_composed(tables, types)
}

// Whether a site that stands for this, with these types, is held by reference.
fn is_reference(tables: &Tables<'_>, binding: &Binding, types: SiteTypes) -> bool
    ensures { (layers : ℕ) → OfTables tables.now (λ p. seen_types tables.now.terms.now types
        ≡ types_at p (arguments_in tables.now) (layer (unfolded layers (site_views tables.now.sites.now)) (site_view binding.now))
        → result ≡ is_held_by_reference p (arguments_in tables.now) (layer (unfolded layers (site_views tables.now.sites.now)) (site_view binding.now))) }
{
    match binding {
        Binding::Argument { .. } => is_one_composed(tables, types),
        Binding::MatchVariant { .. } => is_one_composed(tables, types),
        Binding::ExtractStruct { .. } => is_one_composed(tables, types),
        Binding::Extractor { term, .. } => is_held_call(tables, *term, types),
        Binding::Constructor { term, .. } => is_held_call(tables, *term, types),
        Binding::MatchSome { .. } => !are_copied(tables, types),
        Binding::ConstBool { .. } => false,
        Binding::ConstInt { .. } => false,
        Binding::ConstPrim { .. } => false,
        Binding::Iterator { .. } => false,
        Binding::MakeVariant { .. } => false,
        Binding::MakeStruct { .. } => false,
        Binding::MakeSome { .. } => false,
        Binding::MatchTuple { .. } => false,
    }
}

// How a site holds its value that stands for this.
fn held_of(tables: &Tables<'_>, number: usize, binding: &Binding) -> Held
    ensures { slice_get (site_views tables.now.sites.now) number ≡ Some (site_view binding.now)
        → OfTables tables.now (λ p. hold_view result ≡ hold_of p (arguments_in tables.now) (site_views tables.now.sites.now) number) }
{
    let types = types_of(tables, number, binding);
    Held {
        is_reference: is_reference(tables, binding, types),
        is_copied: are_copied(tables, place_types(tables, number, binding)),
    }
}

// How a site of a number holds its value.
fn held_here(tables: &Tables<'_>, number: usize) -> Held
    ensures { OfTables tables.now (λ p. hold_view result ≡ hold_of p (arguments_in tables.now) (site_views tables.now.sites.now) number) }
{
    match tables.sites.get(number) {
        Some(binding) => held_of(tables, number, binding),
        None => Held {
            is_reference: false,
            is_copied: true,
        },
    }
}

/// How each site of a term's tree holds its value, by the types of its program.
///
/// # Errors
///
/// Where memory is refused.
pub fn held_by(alloc: Global, tables: &Tables<'_>) -> Result<Vec<Held>, AllocError>
    ensures { IfOk result (λ v. (p : Program) → AreTablesOf tables.now.tyenv.now tables.now.terms.now p → (s : ℕ)
        → hold_in v.items s ≡ term_hold p tables.now.term.0 (site_views tables.now.sites.now) s) }
{
    let mut held = Vec::new(alloc);
    for number in 0..tables.sites.len() {
        held.push(held_here(tables, number))?;
    }
    Ok(held)
}
