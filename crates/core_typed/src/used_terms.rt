//! Where the terms of typed rules are looked up, for crates that stand below the environment of terms.

ghost use Rattle.std.specs.Prelude.{◌≡◌, IsTrue, List, is_some, slice_get, Some};
ghost use Rattle.model.specs.lists.Tables.{TermEntry};
ghost use Rattle.core_terms.specs.TermViews.{term_view};

use core_terms::Term;
use core_types::TermId;

/// Where the terms are looked up that typed rules use. Upstream's `TermEnv` does it, which stands in a crate that this
/// one doesn't need.
pub trait UsedTerms {
    /// The terms, by their ids.
    ghost term_entries: { Self → List TermEntry };

    /// The term of an id. Condition: it is one of these terms.
    fn used_term(&self, term: TermId) -> &Term
        requires { IsTrue (is_some (slice_get (term_entries self.now) term.0)) }
        ensures { slice_get (term_entries self.now) term.0 ≡ Some (term_view result.now) };
}
