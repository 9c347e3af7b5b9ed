//! What is asked of a binding.
ghost use Rattle.std.specs.Prelude.{◌≡◌, option_map};
ghost use Rattle.model.specs.claims.Questions.{term_of_site};
ghost use Rattle.model.specs.sites.Sites.{sources_of};
ghost use Rattle.core_rule_sets.specs.SiteViews.{site_view};
ghost use Rattle.core_rule_sets.specs.VariantTerms.{HasTermIfMade};
ghost use Rattle.core_types.specs.TypeViews.{type_views};

use crate::trie_again::{Binding, BindingId};
use core_types::{TermId, TypeEnv, VariantTerms};
use std::slice;

impl Binding {
    /// The term of an extractor or a constructor that is called, or of a variant that is made; of all others none.
    /// Condition: the type of a variant that is made is an enum of `tyenv` and has that variant, whose full name is a
    /// term's of `termenv`. Takes no memory. Upstream's `Binding::term`.
    pub fn term<E: VariantTerms>(&self, tyenv: &TypeEnv, termenv: &E) -> Option<TermId>
        requires { HasTermIfMade (type_views tyenv.now.types.items) (E.term_of_name termenv.now) (site_view self.now) }
        ensures { option_map (λ t. t.0) result ≡ term_of_site (type_views tyenv.now.types.items) (E.term_of_name termenv.now) (site_view self.now) }
    {
        match self {
            Binding::Extractor { term, .. } | Binding::Constructor { term, .. } => Some(*term),
            Binding::MakeVariant { ty, variant, .. } => Some(termenv.get_variant_term(
                tyenv, *ty, *variant,
            )),
            Binding::ConstBool { .. }
            | Binding::ConstInt { .. }
            | Binding::ConstPrim { .. }
            | Binding::Argument { .. }
            | Binding::Iterator { .. }
            | Binding::MatchVariant { .. }
            | Binding::MakeStruct { .. }
            | Binding::ExtractStruct { .. }
            | Binding::MakeSome { .. }
            | Binding::MatchSome { .. }
            | Binding::MatchTuple { .. } => None,
        }
    }

    /// The sites that it is made of, left to right.
    pub fn sources(&self) -> &[BindingId]
        ensures { result.now ≡ sources_of (site_view self.now) }
    {
        match self {
            Binding::ConstBool { .. }
            | Binding::ConstInt { .. }
            | Binding::ConstPrim { .. }
            | Binding::Argument { .. } => &[],
            Binding::Constructor { parameters, .. } => parameters,
            Binding::MakeVariant { fields, .. } | Binding::MakeStruct { fields, .. } => fields,
            Binding::Extractor {
                parameter: source,
                ..
            }
            | Binding::Iterator { source }
            | Binding::MatchVariant { source, .. }
            | Binding::ExtractStruct { source, .. }
            | Binding::MakeSome { inner: source }
            | Binding::MatchSome { source }
            | Binding::MatchTuple { source, .. } => slice::from_ref(source),
        }
    }
}
