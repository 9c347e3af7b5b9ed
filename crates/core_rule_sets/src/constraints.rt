//! What a constraint says of bindings: those that it brings into reach, and those that it may fit.
ghost use Rattle.std.specs.Prelude.{◌≡◌, ◌∷◌, [], ℕ, IfOk};
ghost use Rattle.model.specs.sites.Sites.{is_int, is_variant, extract_struct_site, match_some_site, match_variant_site};
ghost use Rattle.model.specs.sites.SetRules.{each_place, may_fit, sites_brought};
ghost use Rattle.core_rule_sets.specs.SiteViews.{constraint_view, site_view, site_views};

use crate::trie_again::{Binding, BindingId, Constraint, TupleIndex};
use core_types::{TypeId, VariantId};
use std::alloc::{AllocError, Global};

impl Constraint {
    /// The bindings that matching a site by the constraint brings into reach: the fields of a variant or a struct, in
    /// order, or what is in the answer of a call that may fail.
    ///
    /// # Errors
    ///
    /// Where memory is refused.
    pub fn bindings_for(self, alloc: Global, source: BindingId) -> Result<Vec<Binding>, AllocError>
        ensures { IfOk result (λ v. site_views v.items ≡ sites_brought (constraint_view self) source) }
    {
        match self {
            Constraint::ConstBool { .. }
            | Constraint::ConstInt { .. }
            | Constraint::ConstPrim { .. } => Ok(Vec::new(alloc)),
            Constraint::Some => answer_of(alloc, source),
            Constraint::Variant {
                variant,
                fields,
                ..
            } => variant_fields(alloc, source, variant, fields),
            Constraint::Struct { fields, .. } => struct_fields(alloc, source, fields),
        }
    }

    /// Whether the constraint may fit what a binding makes. Only a variant that is made and an integer can deny it: of
    /// all others the value isn't known.
    pub fn compatible(&self, binding: &Binding) -> bool
        ensures { result ≡ may_fit (constraint_view self.now) (site_view binding.now) }
    {
        match self {
            Constraint::Variant { ty, variant, .. } => is_not_another_variant(
                binding, *ty, *variant,
            ),
            Constraint::ConstInt { val, ty } => is_not_another_integer(binding, *val, *ty),
            _ => true,
        }
    }
}

// What is in the answer of a call that may fail, as the one binding.
fn answer_of(alloc: Global, source: BindingId) -> Result<Vec<Binding>, AllocError>
    ensures { IfOk result (λ v. site_views v.items ≡ match_some_site source ∷ []) }
{
    let mut bindings = Vec::new(alloc);
    bindings.push(Binding::MatchSome { source })?;
    Ok(bindings)
}

// The fields of a variant, in order.
fn variant_fields(
    alloc: Global,
    source: BindingId,
    variant: VariantId,
    fields: TupleIndex,
) -> Result<Vec<Binding>, AllocError>
    ensures { IfOk result (λ v. site_views v.items ≡ each_place (match_variant_site source variant.0) 0 fields) }
{
    let mut bindings = Vec::new(alloc);
    for place in 0..fields.0 {
        let field = TupleIndex(place);
        bindings.push(Binding::MatchVariant {
            source,
            variant,
            field,
        })?;
    }
    Ok(bindings)
}

// The fields of a struct, in order.
fn struct_fields(
    alloc: Global,
    source: BindingId,
    fields: TupleIndex,
) -> Result<Vec<Binding>, AllocError>
    ensures { IfOk result (λ v. site_views v.items ≡ each_place (extract_struct_site source) 0 fields) }
{
    let mut bindings = Vec::new(alloc);
    for place in 0..fields.0 {
        let field = TupleIndex(place);
        bindings.push(Binding::ExtractStruct { source, field })?;
    }
    Ok(bindings)
}

// Whether a binding makes no variant but this one.
fn is_not_another_variant(binding: &Binding, ty: TypeId, variant: VariantId) -> bool
    ensures { (fields : ℕ) → result ≡ may_fit (is_variant ty.0 variant.0 fields) (site_view binding.now) }
{
    match binding {
        Binding::MakeVariant {
            ty: made_ty,
            variant: made,
            ..
        } => *made_ty == ty && *made == variant,
        _ => true,
    }
}

// Whether a binding is no integer but this one.
fn is_not_another_integer(binding: &Binding, val: i128, ty: TypeId) -> bool
    ensures { result ≡ may_fit (is_int val ty.0) (site_view binding.now) }
{
    match binding {
        Binding::ConstInt {
            val: made,
            ty: made_ty,
        } => *made == val && *made_ty == ty,
        _ => true,
    }
}
