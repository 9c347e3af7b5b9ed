//! What a reader of a tree never finds in a bind order.

ghost use Rattle.std.specs.Prelude.{◌≡◌, Some, slice_get};
ghost use Rattle.cranelift_isle.specs.Places.{is_in_place};
ghost use Rattle.cranelift_isle.specs.SiteViews.{set_view, site_view};

use cranelift_isle::trie_again::{Binding, BindingId, RuleSet};

/// Whether a binding is written where it is used, and bound by no step: an integer, a named constant, an argument, a part of
/// a tuple, a variant or a struct without fields. A truth value is bound.
pub fn is_in_place(binding: &Binding) -> bool
    ensures { result ≡ is_in_place (Some (site_view binding.now)) }
{
    match binding {
        Binding::ConstInt { .. }
        | Binding::ConstPrim { .. }
        | Binding::Argument { .. }
        | Binding::MatchTuple { .. } => true,
        Binding::MakeVariant { fields, .. } | Binding::MakeStruct { fields, .. } => {
            fields.is_empty()
        }
        Binding::ConstBool { .. }
        | Binding::Extractor { .. }
        | Binding::Constructor { .. }
        | Binding::Iterator { .. }
        | Binding::MatchVariant { .. }
        | Binding::ExtractStruct { .. }
        | Binding::MakeSome { .. }
        | Binding::MatchSome { .. } => false,
    }
}

/// The same of a site of a set. A number that is no site's is not in place.
pub fn is_site_in_place(set: &RuleSet, site: BindingId) -> bool
    ensures { result ≡ is_in_place (slice_get (set_view set.now).sites site) }
{
    match set.bindings.get(site.index()) {
        Some(binding) => is_in_place(binding),
        None => false,
    }
}
