//! What follows of each answer of `lower`: whatever meets its clause `accepted`, or its clause `refused`, has these properties.
//!
//! A function here has no code, or calls the laws that its proof rests on: its clause is a law. A caller of `lower` may cite it
//! in a proof, as `c.chosen.ensures`.

ghost use Rattle.std.specs.Prelude.{All};
ghost use Rattle.core_syntax.specs.ErrorViews.{error_views};
ghost use Rattle.model.specs.claims.Refusals.{NamesOnlyPassed};
ghost use Rattle.laws_trees.specs.NoLimits.{PassedInLowering, PassNoLimit};
ghost use Rattle.laws_trees.specs.OneTree.{IsOnlyBest};
ghost use Rattle.cranelift_isle.specs.LoweringErrors.{OfEachRefusal};
ghost use Rattle.cranelift_isle.specs.Lowerings.{lowered_views, OfEachAnswer, OfAccepted, ChooseAsSource, SharesTests, CollectBags, BindsBeforeAnyUse, DemandWhole, SetsAreWhole};
ghost use Rattle.cranelift_isle.specs.ShownPrograms.{OfShown, ChooseByPriority, CollectTheBags};

use laws_trees::{
    accepted_demands_are_whole, accepted_pass_no_limit, accepted_sets_are_whole,
    best_trees_bind_before_use, best_trees_mean_their_sets, lowered_terms_run_by_functions,
    lowered_trees_are_only_best,
};

/// Each tree picks the rule that trying every rule of the answer by priority would pick, by all total functions that are well
/// typed for what the term's rules use and tell their constants apart.
pub fn chosen()
    ensures { OfEachAnswer (λ defs expand l. OfShown l (ChooseByPriority l)) }
{
    lowered_terms_run_by_functions();
}

/// The tree of a multi term collects the bag of the results of the answer's rules, by such functions.
pub fn collected()
    ensures { OfEachAnswer (λ defs expand l. OfShown l (CollectTheBags l)) }
{
    lowered_terms_run_by_functions();
}

/// Each tree picks the rule that trying every source rule of the definitions by priority would pick, under every meaning that
/// serves the term's rules and tells their constants apart. A meaning's functions may say nothing of what isn't asked.
pub fn chosen_as_source()
    ensures { OfEachAnswer (λ defs expand l. OfAccepted defs expand (ChooseAsSource (lowered_views l.terms.items))) }
{}

/// The tree of a multi term collects the bag of the results of the definitions' source rules, under such meanings.
pub fn collected_as_source()
    ensures { OfEachAnswer (λ defs expand l. OfAccepted defs expand (CollectBags (lowered_views l.terms.items))) }
{}

/// Each tree is a best tree of its set: at no place does an open test cover more rules than the test that is made.
pub fn shared()
    ensures { OfEachAnswer (λ defs expand l. All (λ t. SharesTests t.set t.tree) (lowered_views l.terms.items)) }
{
    best_trees_mean_their_sets();
}

/// Each tree binds sites before it uses them.
pub fn bound()
    ensures { OfEachAnswer (λ defs expand l. All (λ t. BindsBeforeAnyUse t.set t.tree) (lowered_views l.terms.items)) }
{
    best_trees_bind_before_use();
}

/// Each tree is the only best tree of its set.
pub fn unique()
    ensures { OfEachAnswer (λ defs expand l. All (λ t. IsOnlyBest t.set t.tree) (lowered_views l.terms.items)) }
{
    lowered_trees_are_only_best();
}

/// Accepted definitions pass none of the six limits.
pub fn within_limits()
    ensures { OfEachAnswer (λ defs expand l. PassNoLimit defs expand) }
{
    accepted_pass_no_limit();
}

/// Each rule of a set asks, at the set's sites, all that follows from what its source rule demands, and nothing else.
pub fn whole()
    ensures { OfEachAnswer (λ defs expand l. OfAccepted defs expand (SetsAreWhole (lowered_views l.terms.items))) }
{
    accepted_sets_are_whole();
}

/// So do the closed demands of each term's rules.
pub fn demands()
    ensures { OfEachAnswer (λ defs expand l. OfAccepted defs expand (DemandWhole (lowered_views l.terms.items))) }
{
    accepted_demands_are_whole();
}

/// An error names a limit only if a rule passes it.
pub fn limits()
    ensures { OfEachRefusal (λ defs expand errors. NamesOnlyPassed (PassedInLowering defs expand) (error_views errors)) }
{}
