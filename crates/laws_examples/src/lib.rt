//! What code can't show: runs, choices and bags, premises of laws that can be met, and near answers that statements refuse.
//!
//! A function here has an empty body: its clauses say what holds of a sample. What a list of definitions becomes, its errors
//! and its trees are rows (`check_rows`).
#![tactic(auto)]

ghost use Rattle.std.specs.Prelude.{[], pos, true, ◌∷◌};
ghost use Rattle.model.specs.rules.Meaning.{nothing, one};
ghost use Rattle.model.specs.rules.Outcome.{ended, failed, no_rule};
ghost use Rattle.model.specs.trees.Collects.{LeavesNoCallUnused};
ghost use Rattle.laws_examples.specs.Answered.{ExtractIsAnswered, LeftOverIsAnswered};
ghost use Rattle.laws_examples.specs.AskedForms.{FormsAreAsked};
ghost use Rattle.laws_examples.specs.Asked.{AllPremisesHold};
ghost use Rattle.laws_examples.specs.ReadingSamples.{ReadingsAreJudged};
ghost use Rattle.laws_examples.specs.RulesBetween.{between_sample};
ghost use Rattle.laws_examples.specs.Chosen.{ExtractIsChosen, ExtractIsWithoutMulti};
ghost use Rattle.laws_examples.specs.ConstEq.{ConstEqIsRespected, const_eq_sample};
ghost use Rattle.laws_examples.specs.Dropped.{CallsAreBoundToo, dropped_sample};
ghost use Rattle.laws_examples.specs.Effects.{EffectsEnds, effects_sample, im_of_one, pair_of};
ghost use Rattle.laws_examples.specs.EmittedFirst.{emitted_first_sample};
ghost use Rattle.laws_examples.specs.Equal.{equal_sample};
ghost use Rattle.laws_examples.specs.Expansions.{NestedUsesDouble};
ghost use Rattle.laws_examples.specs.Extract.{ExtractEnds, ExtractIsServed, ExtractMeaningServes, NearSetsAreNotBuilt, extract_mute, extract_program, extract_sample};
ghost use Rattle.laws_examples.specs.Fall.{FallIsSubsetPair, FallRuns, fall_sample};
ghost use Rattle.laws_examples.specs.FormedRules.{ArgumentsAreLimited, FormedRulesMayTestImpureCalls, OthersAreNotFormed, ResultsMayUnwrap};
ghost use Rattle.laws_examples.specs.ShownCounts.{VisitsCountWhatIsShown};
ghost use Rattle.laws_examples.specs.VisitedRules.{LimitsAreMetInOrder, RunsAnswerOneSite, VisitsCount};
ghost use Rattle.laws_examples.specs.FoundSites.{SitesAreFound};
ghost use Rattle.laws_examples.specs.OpaqueTypes.{ClosedEnums, NamedEnds, NamedIsServed, OpaqueIsChosen, OpaqueIsServed, OpaqueIsTaken, OpenEnds, OpenIsServed, named_sample, nine_after_both, opaque_meaning, opaque_sample, open_sample};
ghost use Rattle.laws_examples.specs.OtherTypes.{IllFormed, NamesGoOn, OwnTypesDoNotCount, TypesHandedIn};
ghost use Rattle.laws_examples.specs.Hiding.{BetterTestsAreNotHidden, hidden_sample};
ghost use Rattle.laws_examples.specs.Impure.{ImpureIsCalled, impure_sample};
ghost use Rattle.laws_examples.specs.ImpureTaken.{ImpureIsServed, ImpureIsTaken};
ghost use Rattle.laws_examples.specs.LeftoverSites.{LeftOverCollects, LeftOverIsCollected, LeftOverIsServed, LeftOverLacksACall, left_over_defs, left_over_rules, left_over_set, left_over_tree};
ghost use Rattle.laws_examples.specs.LookUps.{ConvertersAreLookedUp, FallSpeaksOfNames, FlagIsKept, NearEnvironments};
ghost use Rattle.laws_examples.specs.MeaningForms.{DoesNotServe, alone, answers, blank, ends_with, given, just_number, v};
ghost use Rattle.laws_examples.specs.Multi.{LoopsMayBindAgain, MultiCollects, MultiGives, MultiIsCollected, MultiIsNot, MultiIsServed, MultiIsTaken, MultiResultsAreHeld, MultiSetCollects, MultiTakenGives, MultiTreeCollects, multi_mute, multi_program, multi_sample};
ghost use Rattle.laws_examples.specs.MultiCalls.{DemandsGatesThough, GivesResults, LeavesACallUnused, OneCallIsServed, UnusedGateGives, call_in_call, calls_program, extracted_twice, impure_twice, pure_twice, unused_condition, unused_let, used_condition};
ghost use Rattle.laws_examples.specs.NamedConstants.{ConstantsAreServed};
ghost use Rattle.laws_examples.specs.NearRefusals.{NoOverlapOfAcceptedRules, OnlyPassedLimitsAreNamed, TermsAreRefused};
ghost use Rattle.laws_examples.specs.TextPremises.{TextPremisesHold};
ghost use Rattle.laws_examples.specs.TwoLiterals.{OneOrTwoHoldsOnce, OneOrTwoIsServed, one_or_two_sample};
ghost use Rattle.laws_examples.specs.Partial.{PartialEnds, PartialIsServed, g_of_one, partial_mute, partial_program};
ghost use Rattle.laws_examples.specs.PickOrders.{OrderDoesNotMatter, OuterCallDoesNot, ResultIsOfPlaces, SecondCallComesFirst};
ghost use Rattle.laws_examples.specs.PickedAnswers.{HoldUnderNoPick, HoldUnderOnePick};
ghost use Rattle.laws_examples.specs.PickedNumber.{FivesAreNotMatched, PickedNumberGives, PickedNumberIsServed, picked_number_sample};
ghost use Rattle.laws_examples.specs.Prio.{prio_sample};
ghost use Rattle.laws_examples.specs.ReportedOnce.{MultiGoesOverMultiCalls, OverlapIsListedOnce, ShadowIsReportedOnce};
ghost use Rattle.laws_examples.specs.RulesPassed.{LeftOverGoesOn, ReportsAreNotDropped, WideRuleIsPassed};
ghost use Rattle.laws_examples.specs.Shared.{SharedGives, SharedIsStuck};
ghost use Rattle.laws_examples.specs.Stages.{HasOutcome, HasStages, IsBuiltOf, IsJudged, OneIsBest};
ghost use Rattle.laws_examples.specs.UntestedRules.{surplus_sample};
ghost use Rattle.laws_examples.specs.Ties.{ties_sample};
ghost use Rattle.laws_examples.specs.ShadowedRules.{MasksMatchToo, ShadowIsServed, ShadowIsTold};
ghost use Rattle.laws_examples.specs.TotalMeanings.{EchoIsTotal, EchoIsTotalWithAConstant, EchoGives, EchoServes, MisfitIsNotTotal};
ghost use Rattle.laws_examples.specs.UnmatchedRules.{ConstEqHolds, ConstEqHoldsAlike, ConstEqIsTried, OneStepDoesNotMatch, OneStepIsTried, VariantEqHolds, VariantEqHoldsAlike, VariantEqIsTried};
ghost use Rattle.laws_examples.specs.Unasked.{UnaskedIsNotDemanded, unasked_defs, unasked_rules, unasked_sample, unasked_set};
ghost use Rattle.laws_examples.specs.Unreached.{UnreachedCallsAreNotAsked, UnreachedEnds, first_answers, one_im_of_one, unreached_program, unreached_sample};
ghost use Rattle.laws_examples.specs.Unused.{UnusedEnds, unused_sample};
ghost use Rattle.laws_examples.specs.UsedCalls.{NearTreesDoNotBind, UsedEnds, used_sample};
ghost use Rattle.laws_examples.specs.VariantEq.{variant_eq_sample};
ghost use Rattle.laws_examples.specs.VariantIds.{VariantsStandAtTheirIds};
ghost use Rattle.laws_examples.specs.VisitableRules.{OthersAreNotVisitable, RulesAreVisitable};
ghost use Rattle.laws_examples.specs.Ranges.{NumbersAreReduced};
ghost use Rattle.laws_examples.specs.WrappedCalls.{NothingIsAskedAboveCalls, wrapped_defs, wrapped_rules};

use laws_code::pure_functions_call_alike;

/// A list may name a type that is handed in, and its names go on after all that were met before; a type that a list
/// defines isn't known to its terms unless it is handed in. Types that break one demand each are not well formed.
#[tactic(auto, using(crate::proofs::OtherTypes::types_handed_in_lem, crate::proofs::OtherTypes::own_types_do_not_count_lem, crate::proofs::OtherTypes::names_go_on_lem, crate::proofs::OtherTypes::ill_formed_lem))]
pub fn handed_in()
    ensures types { TypesHandedIn }
    ensures own_types { OwnTypesDoNotCount }
    ensures names { NamesGoOn }
    ensures ill_formed { IllFormed }
{}

/// A literal, and a name that stands again: whatever classes respect the demands hold both arguments, and one of these holds
/// no third.
#[tactic(auto, using(crate::proofs::ConstEqRespected::const_eq_is_respected))]
pub fn const_eq_sample()
    ensures respected { ConstEqIsRespected }
{}

/// A rule for a literal, and a lower one: the tree answers 10 at 1, and 2 at 2; the demands of one are the other's too.
#[tactic(auto, using(crate::proofs::SampleStages::fall_stages, crate::proofs::FallOverlap::fall_is_subset_pair))]
pub fn fall_sample()
    ensures stages { HasStages fall_sample }
    ensures runs { FallRuns }
    ensures overlap { FallIsSubsetPair }
{}

/// Trees near the best one that are refused: of tests of other scores, of sites in another order, of rules that are taken
/// together or apart, of returns before or behind their place.
#[tactic(auto, using(crate::proofs::NearTrees::prio_is_best, crate::proofs::NearTrees::equal_is_best, crate::proofs::NearTrees::surplus_is_best, crate::proofs::NearTrees::ties_is_best, crate::proofs::NearTrees::emitted_first_is_best, crate::proofs::NearTrees::between_is_best))]
pub fn near_trees()
    ensures prio { OneIsBest prio_sample }
    ensures equal { OneIsBest equal_sample }
    ensures surplus { OneIsBest surplus_sample }
    ensures ties { OneIsBest ties_sample }
    ensures emitted_first { OneIsBest emitted_first_sample }
    ensures between { OneIsBest between_sample }
{}

/// Literals of a built-in type stand for numbers of its range: those past its ends, and one within.
pub fn numbers_are_reduced()
    ensures { NumbersAreReduced }
{}

/// A variant under a name that stands again: its tree brings the fields of both arguments, and tests that they are equal.
#[tactic(auto, using(crate::proofs::SampleStages::variant_eq_stages))]
pub fn variant_eq_sample()
    ensures stages { HasStages variant_eq_sample }
{}

/// An external extractor: a call that is asked to answer, and its answer to be a literal. Sets near its own aren't built.
#[tactic(auto, using(crate::proofs::SampleStages::extract_stages, crate::proofs::Extract::near_sets_are_not_built))]
pub fn extract_sample()
    ensures stages { HasStages extract_sample }
    ensures near_sets { NearSetsAreNotBuilt }
{}

/// Where the extractor answers 1 the higher rule gives 10, where it answers 5 the lower rule gives it, and where it
/// answers nothing no rule matches.
pub fn extract_ends()
    ensures of_one { ExtractEnds (just_number (pos 1)) (answers (pos 10)) }
    ensures of_another { ExtractEnds (just_number (pos 5)) (answers (pos 5)) }
    ensures of_none { ExtractEnds nothing no_rule }
{}

/// A meaning with its literals and a fitting answer has what its rules ask, and a world serves their tests whatever it
/// answers; meanings without literals or calls don't.
#[tactic(auto, using(crate::proofs::Served::extract_served, crate::proofs::Served::blank_extract, crate::proofs::Served::mute_extract, crate::proofs::Extract::extract_is_served_lem))]
pub fn extract_is_served()
    ensures meaning { ExtractMeaningServes }
    ensures tests { ExtractIsServed }
    ensures without_all { DoesNotServe extract_program blank (pos 7) }
    ensures without_calls { DoesNotServe extract_program extract_mute (pos 7) }
{}

/// The total meaning whose extractor answers its argument is well typed, so it serves for each number and gives what the rules say;
/// a constant more, which no rule names, changes nothing; the one whose extractor answers a boolean isn't well typed.
#[tactic(auto, using(crate::proofs::TotalMeanings::echo_is_total, crate::proofs::TotalMeanings::echo_is_total_with_a_constant, crate::proofs::TotalMeanings::misfit_is_not_total, crate::proofs::TotalMeanings::echo_serves, crate::proofs::TotalMeanings::echo_gives_ten, crate::proofs::TotalMeanings::echo_gives_itself))]
pub fn total_meanings()
    ensures total { EchoIsTotal }
    ensures with_a_constant { EchoIsTotalWithAConstant }
    ensures not_total { MisfitIsNotTotal }
    ensures serves { EchoServes }
    ensures of_one { EchoGives (pos 1) (pos 10) }
    ensures of_seven { EchoGives (pos 7) (pos 7) }
{}

/// Where the partial call answers nothing, the one call is made and then all fails: the lower rule isn't tried. Where
/// it answers 3, the result is Some of 3. Elsewhere the lower rule gives Some of 7, and nothing is called.
pub fn partial_ends()
    ensures fails { PartialEnds nothing (pos 1) (record { calls = g_of_one; results = []; ending = failed }) }
    ensures gives_some { PartialEnds (just_number (pos 3)) (pos 1) (record { calls = g_of_one; results = just_number (pos 3) ∷ []; ending = ended }) }
    ensures elsewhere { PartialEnds nothing (pos 2) (ends_with (just_number (pos 7))) }
{}

/// The meaning of the sample with a partial call has what its rules ask; meanings without literals or calls don't.
#[tactic(auto, using(crate::proofs::Served::partial_served, crate::proofs::Served::blank_partial, crate::proofs::Served::mute_partial))]
pub fn partial_is_served()
    ensures meaning { PartialIsServed }
    ensures without_all { DoesNotServe partial_program blank (pos 1) }
    ensures without_calls { DoesNotServe partial_program partial_mute (pos 1) }
{}

/// Of two impure calls on the right side, both are made and unwrapped in order.
#[tactic(auto, using(crate::proofs::SampleStages::unreached_stages))]
pub fn unreached_sample()
    ensures stages { HasStages unreached_sample }
{}

/// Where the first call answers nothing, it alone is made and then all fails: no answer is asked of the second one.
/// Where it answers, one is.
#[tactic(auto, using(crate::proofs::Unreached::unreached_calls_are_not_asked, crate::proofs::Unreached::reached_calls_are_asked))]
pub fn unreached_calls_are_not_asked()
    ensures fails { UnreachedEnds (record { calls = one_im_of_one; results = []; ending = failed }) }
    ensures unreached { UnreachedCallsAreNotAsked }
    ensures reached { DoesNotServe unreached_program (first_answers (just_number (pos 5))) (pos 1) }
{}

/// A pure call that may answer nothing, beside an impure one, inside a variant.
#[tactic(auto, using(crate::proofs::SampleStages::effects_stages))]
pub fn effects_sample()
    ensures stages { HasStages effects_sample }
{}

/// Where the pure call answers nothing, the impure one is made once, and then all fails. Where it answers 5, the result
/// has both answers.
pub fn effects_end()
    ensures fail { EffectsEnds nothing (record { calls = im_of_one; results = []; ending = failed }) }
    ensures give_both { EffectsEnds (just_number (pos 5)) (record { calls = im_of_one; results = pair_of (pos 5) (pos 6) ∷ []; ending = ended }) }
{}

/// A multi call is gone over; what a loop goes over may be bound again, and what it brings may not.
#[tactic(auto, using(crate::proofs::SampleStages::multi_stages, crate::proofs::Multi::loops_may_bind_again))]
pub fn multi_sample()
    ensures stages { HasStages multi_sample }
    ensures binds_again { LoopsMayBindAgain }
{}

/// On 1 the bag is 4, 4 and 9, and the run gives 9 first; on 2, where the call answers 7 alone, it is 7; on 3, where it
/// answers the empty list, there is no result. A run that stopped after the first answer would not collect the bag, nor
/// one with as many results, of which another stands twice.
#[tactic(auto, using(crate::proofs::Multi::on_one, crate::proofs::Multi::on_two, crate::proofs::Multi::on_three, crate::proofs::Multi::stopped, crate::proofs::Multi::exchanged))]
pub fn multi_gives()
    ensures on_one { MultiGives (pos 1) (pos 4 ∷ pos 4 ∷ pos 9 ∷ []) (pos 9 ∷ pos 4 ∷ pos 4 ∷ []) }
    ensures on_two { MultiGives (pos 2) (pos 7 ∷ []) (pos 7 ∷ []) }
    ensures on_three { MultiGives (pos 3) [] [] }
    ensures collects_on_one { MultiCollects (pos 1) }
    ensures collects_on_two { MultiCollects (pos 2) }
    ensures collects_on_three { MultiCollects (pos 3) }
    ensures stopped { MultiIsNot (pos 9 ∷ pos 4 ∷ []) }
    ensures exchanged { MultiIsNot (pos 9 ∷ pos 9 ∷ pos 4 ∷ []) }
{}

/// Its meaning has what its rules ask, and its world serves its set, so the laws on runs of multi terms and on best trees
/// apply, and the results are held; meanings without literals or calls don't serve.
#[tactic(auto, using(crate::proofs::Served::multi_served, crate::proofs::Served::blank_multi, crate::proofs::Served::mute_multi, crate::proofs::Multi::multi_is_collected, crate::proofs::Multi::multi_set_collects, crate::proofs::Multi::multi_results_are_held))]
pub fn multi_is_served()
    ensures meaning { MultiIsServed }
    ensures set { MultiIsCollected }
    ensures collects { MultiSetCollects }
    ensures best_tree { MultiTreeCollects }
    ensures results { MultiResultsAreHeld }
    ensures without_all { DoesNotServe multi_program blank (pos 1) }
    ensures without_calls { DoesNotServe multi_program multi_mute (pos 1) }
{}

/// Under the pick of the call's first answer the first rule is taken on 1, and so its right side's outcome is that answer.
#[tactic(auto, using(crate::proofs::Multi::multi_is_taken, crate::proofs::Multi::multi_taken_gives))]
pub fn multi_rule_is_taken()
    ensures taken { MultiIsTaken }
    ensures outcome { MultiTakenGives }
{}

/// A tree may choose rightly though it makes a test that covers one rule where another covers two: it isn't a best tree, and
/// its tests aren't shared.
#[tactic(auto, using(crate::proofs::NearTrees::hidden_is_best, crate::proofs::Hiding::better_tests_are_not_hidden))]
pub fn hidden_sample()
    ensures best { OneIsBest hidden_sample }
    ensures hidden { BetterTestsAreNotHidden }
{}

/// A partial call that an if-let's value takes is bound once, before it is used.
#[tactic(auto, using(crate::proofs::UsedCalls::near_trees_do_not_bind))]
pub fn used_sample()
    ensures near_trees { NearTreesDoNotBind }
{}

/// Where the call answers 5 the rule gives 7, and where it answers nothing the rule doesn't match.
pub fn used_ends()
    ensures of_one { UsedEnds (just_number (pos 5)) (answers (pos 7)) }
    ensures of_none { UsedEnds nothing no_rule }
{}

/// A partial call that an if-let's value doesn't take isn't asked to answer, and no tree goes by its answer.
#[tactic(auto, using(crate::proofs::SampleStages::unused_stages))]
pub fn unused_sample()
    ensures stages { HasStages unused_sample }
{}

/// Whether the call answers 5 or nothing, the rule gives 7.
pub fn unused_ends()
    ensures of_one { UnusedEnds (just_number (pos 5)) (answers (pos 7)) }
    ensures of_none { UnusedEnds nothing (answers (pos 7)) }
{}

/// On 1, where the call answers 2 at 1 and 3 at 2, the results are 2 and 3; where it answers 2 at 2 as well, 2 stands
/// twice. A meaning without the second answer doesn't serve the rules: the run is stuck there.
pub fn shared_gives()
    ensures of_two { SharedGives (((0, alone (pos 2)), one (v (pos 3))) ∷ []) (pos 2 ∷ pos 3 ∷ []) }
    ensures of_one_twice { SharedGives (((0, alone (pos 2)), one (v (pos 2))) ∷ []) (pos 2 ∷ pos 2 ∷ []) }
    ensures without { SharedIsStuck }
{}

/// A multi call whose answer nothing uses: a set is built that doesn't demand what stands below the call.
#[tactic(auto, using(crate::proofs::Unasked::unasked_built))]
pub fn unasked_sample()
    ensures built { IsBuiltOf unasked_defs unasked_rules 2 unasked_set }
    ensures not_demanded { UnaskedIsNotDemanded }
{}

/// An impure call: the rule can be taken, and makes the call from whatever place it is taken.
#[tactic(auto, using(crate::proofs::SampleStages::impure_stages, crate::proofs::Impure::impure_is_called, crate::proofs::ImpureTaken::impure_is_served, crate::proofs::ImpureTaken::impure_is_taken))]
pub fn impure_sample()
    ensures stages { HasStages impure_sample }
    ensures called { ImpureIsCalled }
    ensures served { ImpureIsServed }
    ensures taken { ImpureIsTaken }
{}

/// An impure call whose answer nothing takes is a call of its rule all the same: it is bound before the rule returns.
#[tactic(auto, using(crate::proofs::NearTrees::dropped_is_best, crate::proofs::UsedCalls::calls_are_bound_too))]
pub fn dropped_sample()
    ensures best { OneIsBest dropped_sample }
    ensures bound { CallsAreBoundToo }
{}

/// Constants, and a boolean literal.
#[tactic(auto, using(crate::proofs::NamedConstants::constants_are_served))]
pub fn named_constants()
    ensures served { ConstantsAreServed }
{}

/// Extern enums. One without variants has values, which calls hand on: its term is served, and its tree runs as the choice. A value
/// that is of none of the declared variants falls through. Constants of an enum without variants may stand in patterns. An enum
/// that isn't extern has no values but those of its variants.
#[tactic(auto, using(crate::proofs::OpaqueTypes::opaque_stages, crate::proofs::OpaqueTypes::opaque_is_served, crate::proofs::OpaqueTypes::opaque_is_chosen, crate::proofs::OpaqueTypes::opaque_is_taken, crate::proofs::OpaqueTypes::open_stages, crate::proofs::OpaqueTypes::open_is_served, crate::proofs::OpaqueTypes::open_ends, crate::proofs::OpaqueTypes::named_stages, crate::proofs::OpaqueTypes::named_is_served, crate::proofs::OpaqueTypes::named_ends, crate::proofs::OpaqueTypes::closed_enums))]
pub fn extern_enums()
    ensures opaque_stages { HasStages opaque_sample }
    ensures opaque_served { OpaqueIsServed }
    ensures opaque_taken { OpaqueIsTaken }
    ensures opaque_chosen { OpaqueIsChosen }
    ensures opaque_ends { HasOutcome opaque_sample opaque_meaning (given (pos 3)) nine_after_both }
    ensures open_stages { HasStages open_sample }
    ensures open_served { OpenIsServed }
    ensures open_ends { OpenEnds }
    ensures named_stages { HasStages named_sample }
    ensures named_served { NamedIsServed }
    ensures named_ends { NamedEnds }
    ensures closed { ClosedEnums }
{}

/// A set with an impure call that none of its rules uses, and a pure one above it. A meaning in which the first answers what
/// is no number serves the rules, so its world, which lacks the second, serves the set, and the run of its tree collects
/// the bag.
#[tactic(auto, using(crate::proofs::LeftoverSites::left_over_built, crate::proofs::LeftoverSites::left_over_judged, crate::proofs::LeftoverSites::left_over_is_served, crate::proofs::LeftoverSites::left_over_is_collected, crate::proofs::LeftoverSites::left_over_lacks_a_call, crate::proofs::LeftoverSites::left_over_collects))]
pub fn left_over_sample()
    ensures built { IsBuiltOf left_over_defs left_over_rules 2 left_over_set }
    ensures tree { IsJudged left_over_set true left_over_tree }
    ensures meaning { LeftOverIsServed }
    ensures lacks_a_call { LeftOverLacksACall }
    ensures served { LeftOverIsCollected }
    ensures collects { LeftOverCollects }
{}

/// A call that a rule makes twice on the same sites is one call, and so with an extractor; two impure calls are two. A
/// call on another call's answer has a list for each of them.
pub fn multi_calls()
    ensures pure { GivesResults pure_twice (pos 1) (pos 44 ∷ pos 55 ∷ []) }
    ensures extractors { GivesResults extracted_twice (pos 1) (pos 44 ∷ pos 55 ∷ []) }
    ensures impure { GivesResults impure_twice (pos 1) (pos 46 ∷ pos 47 ∷ pos 56 ∷ pos 57 ∷ []) }
    ensures nested { GivesResults call_in_call (pos 1) (pos 6 ∷ pos 7 ∷ pos 8 ∷ []) }
{}

/// Of a call that a rule makes twice each pick takes one answer: a meaning serves the rule that answers no two different ones.
#[tactic(auto, using(crate::proofs::MultiCalls::one_call_is_served))]
pub fn one_call_is_served()
    ensures { OneCallIsServed }
{}

/// A call that a right side or an if-let leaves unused still gives a result for each answer, and its rule may demand
/// every gate. Where an argument of a condition's call has no value, the rule has no pick, and no result.
#[tactic(auto, using(crate::proofs::MultiCalls::demands_gates_though, crate::proofs::MultiCalls::unused_condition_leaves_a_call))]
pub fn unused_calls()
    ensures count { GivesResults unused_let (pos 1) (pos 1 ∷ pos 1 ∷ []) }
    ensures without_lists { GivesResults used_condition (pos 2) [] }
    ensures with_lists { GivesResults used_condition (pos 1) (pos 8 ∷ []) }
    ensures leaves_none { LeavesNoCallUnused calls_program used_condition }
    ensures leaves_one { LeavesACallUnused unused_condition }
    ensures gates { DemandsGatesThough }
    ensures gate_gives { UnusedGateGives }
{}

/// Demands that two answers of a multi call meet in part hold under no pick; those that one answer meets hold under its
/// pick.
#[tactic(auto, using(crate::proofs::PickedAnswers::hold_under_no_pick_lem, crate::proofs::PickedAnswers::hold_under_one_pick_lem))]
pub fn picked_answers()
    ensures no_pick { HoldUnderNoPick }
    ensures one_pick { HoldUnderOnePick }
{}

/// A template that uses its argument twice doubles the expansions inside: 16 nested uses are within the limit of
/// 65,536, and 17 aren't.
#[tactic(auto, using(crate::proofs::Expansions::nested_uses_double))]
pub fn templates()
    ensures nested { NestedUsesDouble }
{}

/// A rule whose right side is of another type doesn't hang together; those that do may test an impure call, if an if-let isn't
/// pure, and what they return may unwrap a call that nothing asks to answer. A term of 257 arguments passes the limit, and
/// the 256 before it are made.
pub fn formed_rules()
    ensures others { OthersAreNotFormed }
    ensures impure { FormedRulesMayTestImpureCalls }
    ensures unwrap { ResultsMayUnwrap }
    ensures arguments { ArgumentsAreLimited }
{}

/// A visit counts fields and arguments before it makes their sites; of two limits that a rule passes the one that the visit
/// comes to is first; and the run of the visitor of sites answers the site of the rule's value, and no other.
#[tactic(auto, using(crate::proofs::VisitedRules::runs_answer_one_site_lem))]
pub fn visited_rules()
    ensures counts { VisitsCount }
    ensures limits { LimitsAreMetInOrder }
    ensures run { RunsAnswerOneSite }
{}

/// What a rule's visit counts, from which its limits are read, can be seen of its patterns alone: each argument, and each
/// term of the patterns with how many parts it has.
#[tactic(auto, using(crate::proofs::ShownCounts::visits_count_what_is_shown_lem))]
pub fn visits_count_what_is_shown()
    ensures { VisitsCountWhatIsShown }
{}

ghost use Rattle.laws_examples.specs.SmallestInputs.{wrapped_set, AboveCallsNothingIsAsked, ReturnsOfMultiTermsGoOn, OverlapsMayHoldTwice, NamelessIsNotAnswered, LookUpsHaveNoList, LimitsAreNamedWherePassed, SecondIsReadAlone, EmptySetsAreBuilt, SignaturesOfW, SitesAreBrought, OverlapsAreTold, TermsOfSites, IdentifiersOfRules, EnvironmentsOfLists, VariantHasItsTerm};

use laws_questions::{questions_ask_enough, refuted_programs_compute_as_said};
use laws_trees::best_trees_keep_the_headline;

/// A world that has what tests ask may have no content for a construction above an impure call that is never made.
#[tactic(auto, using(crate::proofs::SmallestInputs::above_calls_nothing_is_asked_lem))]
pub fn above_calls_nothing_is_asked()
    ensures { AboveCallsNothingIsAsked }
{}

/// The run of a multi term goes on after a return, where the right side ends with its result.
pub fn returns_of_multi_terms_go_on()
    ensures { ReturnsOfMultiTermsGoOn }
{}

/// The demands of two rules of one priority may both hold where they overlap.
#[tactic(auto, using(crate::proofs::SmallestInputs::overlaps_may_hold_twice_lem))]
pub fn overlaps_may_hold_twice()
    ensures { OverlapsMayHoldTwice }
{}

/// What lowering gives has the names that were met.
#[tactic(auto, using(crate::proofs::SmallestInputs::nameless_is_not_answered_lem))]
pub fn nameless_is_not_answered()
    ensures { NamelessIsNotAnswered }
{}

/// One look-up answers by two lists.
#[tactic(auto, using(crate::proofs::SmallestInputs::look_ups_have_no_list_lem))]
pub fn look_ups_have_no_list()
    ensures { LookUpsHaveNoList }
{}

/// No error names a limit of a list whose types aren't valid, and nothing is reported of rules that can be told apart.
#[tactic(auto, using(crate::proofs::SmallestInputs::limits_are_named_where_passed_lem))]
pub fn limits_are_named_where_passed()
    ensures { LimitsAreNamedWherePassed }
{}

/// A rule behind one that has no typed rule is read from the names of the terms.
#[tactic(auto, using(crate::proofs::SmallestInputs::second_is_read_alone_lem))]
pub fn second_is_read_alone()
    ensures { SecondIsReadAlone }
{}

/// A set without rules is built for some list.
#[tactic(auto, using(crate::proofs::SmallestInputs::empty_sets_are_built_lem))]
pub fn empty_sets_are_built()
    ensures { EmptySetsAreBuilt }
{}

/// The signatures of a term with external functions.
pub fn signatures_of_w()
    ensures { SignaturesOfW }
{}

/// The sites that matching brings, and which constraints may fit a site.
pub fn sites_are_brought()
    ensures { SitesAreBrought }
{}

/// Two rules have no overlap where one site has different constraints in them; else they have one, and a subset where
/// the constraints of one are the other's too and neither has an equality.
pub fn overlaps_are_told()
    ensures { OverlapsAreTold }
{}

/// The terms of the sites of a set: those of its calls and of the variant that it makes.
pub fn terms_of_sites()
    ensures { TermsOfSites }
{}

/// A rule's identifier is its name, or its place where it has none.
pub fn identifiers_of_rules()
    ensures { IdentifiersOfRules }
{}

/// The types of a list are shown by a well-formed environment; where all names are mapped to one type it isn't such.
#[tactic(auto, using(crate::proofs::SmallestInputs::environments_of_lists))]
pub fn environments_of_lists()
    ensures { EnvironmentsOfLists }
{}

/// The variant of a list has its term.
#[tactic(auto, using(crate::proofs::SmallestInputs::variant_has_its_term))]
pub fn variant_has_its_term()
    ensures { VariantHasItsTerm }
{}

/// A meaning serves rules though it has nothing for an impure call of a rule that doesn't match, and the set is built of them
/// whose world has no content above that call.
#[tactic(auto, using(crate::proofs::WrappedCalls::wrapped_built, crate::proofs::WrappedCalls::nothing_is_asked_above_calls))]
pub fn nothing_is_asked_above_calls()
    ensures built { IsBuiltOf wrapped_defs wrapped_rules 1 wrapped_set }
    ensures served { NothingIsAskedAboveCalls }
{}

/// Answers near right ones that aren't allowed: an overlap of rules that are accepted, both at one position; a limit that
/// wasn't passed, beside the error that refuses a list. Terms are refused by errors of their definitions alone.
#[tactic(auto, using(crate::proofs::NearRefusals::no_overlap_of_accepted_rules, crate::proofs::NearRefusals::only_passed_limits_are_named, crate::proofs::NearRefusals::terms_are_refused))]
pub fn near_refusals()
    ensures overlap { NoOverlapOfAcceptedRules }
    ensures limit { OnlyPassedLimitsAreNamed }
    ensures terms { TermsAreRefused }
{}

/// Types may be well formed and yet not such as rules are read with: where a variant doesn't stand at the id that it says.
#[tactic(auto, using(crate::proofs::VariantIds::variants_stand_at_their_ids))]
pub fn variants_stand_at_their_ids()
    ensures { VariantsStandAtTheirIds }
{}

/// What a set finds of a site: its number, or that it isn't there.
#[tactic(auto, using(crate::proofs::FoundSites::sites_are_found))]
pub fn sites_are_found()
    ensures { SitesAreFound }
{}

/// The term of the sample with an extractor isn't multi: so no rule goes over calls, and its tree runs as the choice by priority.
#[tactic(auto, using(crate::proofs::Chosen::extract_is_without_multi, crate::proofs::Chosen::extract_is_chosen))]
pub fn extract_is_chosen()
    ensures without_multi { ExtractIsWithoutMulti }
    ensures chosen { ExtractIsChosen }
{}

/// Where a shadowed rule matches, its mask does.
#[tactic(auto, using(crate::proofs::ShadowedRules::shadow_is_told, crate::proofs::ShadowedRules::shadow_is_served, crate::proofs::ShadowedRules::masks_match_too))]
pub fn rules_are_told_apart()
    ensures shadow { ShadowIsTold }
    ensures served { ShadowIsServed }
    ensures masks { MasksMatchToo }
{}

/// Two rules of one priority for different numbers: no two overlap wrongly, and the demands of one alone hold.
#[tactic(auto, using(crate::proofs::TwoLiterals::one_or_two_stages, crate::proofs::TwoLiterals::one_or_two_is_served, crate::proofs::TwoLiterals::one_or_two_holds_once))]
pub fn one_or_two_sample()
    ensures stages { HasStages one_or_two_sample }
    ensures served { OneOrTwoIsServed }
    ensures holds_once { OneOrTwoHoldsOnce }
{}

/// Demands with an equality hold on 2 twice and not on 2 and 3, and on one variant twice, and their closed demands hold
/// alike. A rule whose demands no values meet is tried on a value, and doesn't match.
#[tactic(auto, using(crate::proofs::UnmatchedRules::two_is_tried, crate::proofs::UnmatchedRules::three_is_tried, crate::proofs::UnmatchedRules::two_holds, crate::proofs::UnmatchedRules::three_does_not, crate::proofs::UnmatchedRules::two_holds_alike, crate::proofs::UnmatchedRules::three_holds_alike, crate::proofs::UnmatchedRules::variant_is_tried, crate::proofs::UnmatchedRules::variant_holds, crate::proofs::UnmatchedRules::variant_holds_alike, crate::proofs::UnmatchedRules::one_step_is_tried, crate::proofs::UnmatchedRules::one_step_does_not_match))]
pub fn rules_are_tried()
    ensures two { ConstEqIsTried (pos 2) }
    ensures three { ConstEqIsTried (pos 3) }
    ensures two_holds { ConstEqHolds (pos 2) }
    ensures three_does_not { ConstEqHolds (pos 3) → ⊥ }
    ensures two_alike { ConstEqHoldsAlike (pos 2) }
    ensures three_alike { ConstEqHoldsAlike (pos 3) }
    ensures variant { VariantEqIsTried }
    ensures variant_holds { VariantEqHolds }
    ensures variant_alike { VariantEqHoldsAlike }
    ensures one_step { OneStepIsTried }
    ensures no_match { OneStepDoesNotMatch }
{}

/// A rule that goes over a call and constrains its answers: of the answers 1 and 5 it gives one result, and under the pick
/// of 5 it doesn't match.
#[tactic(auto, using(crate::proofs::PickedNumber::picked_number_stages, crate::proofs::PickedNumber::picked_number_is_served, crate::proofs::PickedNumber::picked_number_gives, crate::proofs::PickedNumber::fives_are_not_matched))]
pub fn picked_number_sample()
    ensures stages { HasStages picked_number_sample }
    ensures served { PickedNumberIsServed }
    ensures gives { PickedNumberGives }
    ensures fives { FivesAreNotMatched }
{}

/// A mask whose rules stand at distinct positions has one report, and so has a wrong overlap; the rule of the multi sample
/// goes over multi calls, and tests none.
#[tactic(auto, using(crate::proofs::ReportedOnce::shadow_is_reported_once, crate::proofs::ReportedOnce::overlap_is_listed_once, crate::proofs::ReportedOnce::multi_goes_over_multi_calls))]
pub fn reports_stand_once()
    ensures mask { ShadowIsReportedOnce }
    ensures overlap { OverlapIsListedOnce }
    ensures multi { MultiGoesOverMultiCalls }
{}

/// Converters are looked up by their inner and outer types. Types are read by an environment that shows them, and by none
/// that differs from them in a type, a kept error or a look-up, nor are rules by one of another flag. The tables of a list
/// speak of the names of its terms alone.
#[tactic(auto, using(crate::proofs::LookUps::converters_are_looked_up, crate::proofs::LookUps::near_environments, crate::proofs::LookUps::flag_is_kept, crate::proofs::LookUps::fall_speaks_of_names))]
pub fn look_ups()
    ensures converters { ConvertersAreLookedUp }
    ensures environments { NearEnvironments }
    ensures flag { FlagIsKept }
    ensures names { FallSpeaksOfNames }
{}

/// A rule can be visited though its types don't fit; where a variable isn't bound before it is used, or is bound twice, or a
/// term has other parts or no extractor, it can't.
pub fn visitable_rules()
    ensures visitable { RulesAreVisitable }
    ensures others { OthersAreNotVisitable }
{}

/// Two calls of a rule may be gone over in either order: picks of one and the other act alike, and the bags are one. A call on
/// another call's answer can't come first.
#[tactic(auto, using(crate::proofs::PickOrders::order_does_not_matter, crate::proofs::PickOrders::result_is_of_places, crate::proofs::PickOrders::second_call_comes_first, crate::proofs::PickOrders::outer_call_does_not))]
pub fn pick_orders()
    ensures order { OrderDoesNotMatter }
    ensures result { ResultIsOfPlaces }
    ensures first { SecondCallComesFirst }
    ensures outer { OuterCallDoesNot }
{}

/// What building gives: the set of each term with rules, and a report of each rule that is left out.
#[tactic(auto, using(crate::proofs::Answered::extract_is_answered, crate::proofs::Answered::left_over_is_answered))]
pub fn building_answers()
    ensures extract { ExtractIsAnswered }
    ensures left_over { LeftOverIsAnswered }
{}

/// Building goes rule by rule: past a rule that no values meet, which is reported and not added, past one that is added, and
/// past one that meets a limit. Its report can't be dropped.
#[tactic(auto, using(crate::proofs::RulesPassed::left_over_goes_on, crate::proofs::RulesPassed::reports_are_not_dropped, crate::proofs::RulesPassed::wide_rule_is_passed))]
pub fn rules_are_passed()
    ensures left_over { LeftOverGoesOn }
    ensures not_dropped { ReportsAreNotDropped }
    ensures wide { WideRuleIsPassed }
{}

/// All premises hold together of the laws on rules whose questions solvers refute, and on sets whose conditions are valid: two terms with
/// rules and specs, and the questions about them.
pub fn asked_premises_hold()
    ensures { AllPremisesHold }
{
    best_trees_keep_the_headline();
    questions_ask_enough();
    refuted_programs_compute_as_said();
}

/// What the law on generated texts asks of its user holds together, of the sample with an extractor, on each number.
pub fn text_premises_hold()
    ensures { TextPremisesHold }
{
    pure_functions_call_alike();
}

/// Two lists of tokens have one text where they don't stand in order, and two codes where names aren't apart.
#[tactic(auto, using(crate::proofs::ReadingSamples::readings_are_judged_lem))]
pub fn readings_are_judged()
    ensures { ReadingsAreJudged }
{}

/// What is asked of fields of variants, of enums with and without atoms, and of an answer that has to be there.
pub fn forms_are_asked()
    ensures { FormsAreAsked }
{}
