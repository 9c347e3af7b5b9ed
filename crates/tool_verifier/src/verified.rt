//! What is known of the tree of one term, as contracts that rest on that of `lower`.

ghost use Rattle.std.specs.Prelude.{◌≡◌, IfSome};
ghost use Rattle.cranelift_isle.specs.Lowerings.{lowered_view, IsLowered};
ghost use Rattle.cranelift_isle.specs.SyntaxViews.{definition_views};
ghost use Rattle.tool_verifier.specs.Verified.{RunsAlways, RunsWhereApart};

use cranelift_isle::laws::demands;
use cranelift_isle::lower::{Lowered, LoweredTerm};
use cranelift_isle::syntax::Def;
use laws_specs::lowered_sets_compute_as_said;
use report_queries::premises::{asks_own_constants, is_multi};

/// The entry at a place of `lowered.terms`, where the term isn't `multi`: its tree runs as the chosen rule, on well-typed
/// arguments and under meanings that serve the term's rules and tell their constants apart. And where each rule is right by specs,
/// the run answers what the term's spec says. None of another term, and where there is no such place. Condition: `lowered` is what `lower` answers to these definitions and this choice to expand.
pub fn runs_where_apart<'a>(
    defs: &[Def],
    expand: bool,
    lowered: &'a Lowered,
    place: usize,
) -> Option<&'a LoweredTerm>
    requires { IsLowered (definition_views defs.now) expand lowered.now }
    ensures { IfSome result (λ t. RunsWhereApart (definition_views defs.now) expand (lowered_view t.now)) }
{
    // a law, without code
    lowered_sets_compute_as_said();
    let term = lowered.terms.get(place)?;
    if is_multi(&lowered.termenv, term.id) {
        return None;
    }
    Some(term)
}

/// The entry at a place of `lowered.terms`, where the term isn't `multi` and its rules ask no constant whose value a meaning
/// may choose: its tree runs as the chosen rule, on well-typed arguments and under every meaning that serves the term's rules.
/// None as above. Condition: as above.
pub fn runs_always<'a>(
    defs: &[Def],
    expand: bool,
    lowered: &'a Lowered,
    place: usize,
) -> Option<&'a LoweredTerm>
    requires { IsLowered (definition_views defs.now) expand lowered.now }
    ensures { IfSome result (λ t. RunsAlways (definition_views defs.now) expand (lowered_view t.now)) }
{
    // laws, without code
    demands();
    lowered_sets_compute_as_said();
    let term = lowered.terms.get(place)?;
    if is_multi(&lowered.termenv, term.id) || !asks_own_constants(&lowered.tyenv, &term.rules) {
        return None;
    }
    Some(term)
}
