//! Where variants' terms are looked up, for crates that stand below the term table.

ghost use Rattle.std.specs.Prelude.{◌≡◌, ℕ, Option, Some, IsSome};
ghost use Rattle.model.specs.claims.Questions.{term_of_variant, variant_by_id};
ghost use Rattle.core_types.specs.TypeViews.{type_views};

use crate::ids::{TermId, TypeId, VariantId};
use crate::type_env::TypeEnv;

/// Where variants' terms are looked up. Upstream's `TermEnv` does it, which stands in a crate that this one doesn't need.
pub trait VariantTerms {
    /// The term of the name of a number.
    ghost term_of_name: { Self → ℕ → Option ℕ };

    /// The term of a variant, by the ids of the enum and of the variant. Condition: the type is an enum of `tyenv` and
    /// has that variant, whose full name is a term's here. Upstream's `TermEnv::get_variant_term`.
    fn get_variant_term(&self, tyenv: &TypeEnv, ty: TypeId, variant: VariantId) -> TermId
        requires variant { IsSome (variant_by_id (type_views tyenv.now.types.items) ty.0 variant.0) }
        requires term { IsSome (term_of_variant (type_views tyenv.now.types.items) (term_of_name self.now) ty.0 variant.0) }
        ensures { Some result.0 ≡ term_of_variant (type_views tyenv.now.types.items) (term_of_name self.now) ty.0 variant.0 };
}
