//! Laws of runs, matching and trees. The run of a sound tree is a choice by priority, or collects the bag of a multi term. Rules
//! match by what they demand, so built sets mean their rules, under every meaning that serves them. In best trees the greatest test
//! is made at each place, for exactly the rules that it covers. And what follows for those who use what `lower` promises.
//!
//! A function here has no code, or calls the laws that its proof rests on: its clause is a law, and its proof stands in
//! `proofs/`.
#![tactic(auto)]

ghost use Rattle.model.specs.trees.Collects.{SoundTreesCollect};
ghost use Rattle.laws_trees.specs.WithoutMulti.{NoMultiIsNoIterators, MatchesAsPlain, EndsAsPlain, BagAsPlain};
ghost use Rattle.model.specs.rules.Meaning.{one};
ghost use Rattle.laws_trees.specs.PickLaws.{PicksAreExact, OnlyPlacesMatter, ContentsAreHeld, HeldAreContents};
ghost use Rattle.laws_trees.specs.ChoiceLaws.{ChoiceAsksTerms, OrderDoesntMatter, OthersCanBeTakenAway, OrderInProgramsDoesntMatter, OthersInProgramsCanBeTakenAway};
ghost use Rattle.laws_trees.specs.Orders.{CallsCanComeFirst, ResultsAreOfPlaces};
ghost use Rattle.model.specs.rules.Values.{Value, value_eq};
ghost use Rattle.std.specs.Prelude.{◌≡◌, Decides};
ghost use Rattle.model.specs.trees.SetRuns.{SoundTreesChoose, RulesHoldOnce, TakenOnce};
ghost use Rattle.laws_trees.specs.ShadowedLaws.{ShadowedRulesAreNeverChosen, ShadowedRulesCanBeTakenAway};
ghost use Rattle.laws_trees.specs.AnswerLaws.{BuiltSetsHaveNumbersInRange, BuiltSetsAreAnswered};
ghost use Rattle.laws_trees.specs.TotalLaws.{RunsByFunctionsAsChosen, TotalMeaningsServe};
ghost use Rattle.laws_trees.specs.MatchLaws.{VisitsMatch, UnreachableRulesNeverMatch, ClosedDemandsHoldAlike, BuiltDemandsHoldAlike, BuiltSetsMatchByDemands, BuiltRulesAreToldApart, RulesWithoutMultiGoOverNoCalls, BuiltSetsHoldResults};
ghost use Rattle.laws_trees.specs.OutcomeLaws.{TakenRulesGiveTheirOutcome, TakenRulesGiveTheirOutcomeUnderPicks, BuiltSetsMeanTheirRules};
ghost use Rattle.laws_trees.specs.ServeLaws.{ServedSetsServeTests, ServedMultiSetsServe};
ghost use Rattle.laws_trees.specs.BestLaws.{OpenTestsAreListed, BestTreesShareMost, SitesAreTestedOnce, StepsAreFew, StepsMakeBestTrees, JudgeIsExact, TreeJudgeIsExact, BindingJudgeIsExact};
ghost use Rattle.laws_trees.specs.Scores.{ScoresAreOrdered, OneTestIsGreatest};
ghost use Rattle.model.specs.trees.WellBuilt.{BestTreesAreSound};
ghost use Rattle.laws_trees.specs.BuiltLaws.{BestTreesOfBuiltSetsAreSound, BestTreesBindBeforeUse, BestTreesCollectTheBag};
ghost use Rattle.model.specs.claims.Layers.{BestTreesKeepTheHeadline};
ghost use Rattle.laws_trees.specs.TreeMeanings.{BestTreesMeanTheirSets};
ghost use Rattle.laws_trees.specs.OneTree.{BestTreesAreOne, BuiltSetsHaveOneBestTree, LoweredTreesAreOnlyBest};
ghost use Rattle.laws_trees.specs.OneAnswer.{BestTreesAreOfWhatIsShown, BuiltSetsShowSame, ReadingGivesOne, SerializingGivesOne, BuildingGivesOne, LoweringGivesOne, NoneIsAcceptedAndRefused, RefusingGivesOne};
ghost use Rattle.laws_trees.specs.NoLimits.{CheckableProgramsPassNoLimit, AcceptedPassNoLimit};
ghost use Rattle.laws_trees.specs.WholeDemands.{AcceptedDemandsAreWhole, AcceptedSetsAreWhole};
ghost use Rattle.laws_trees.specs.NoLoops.{TreesWithoutCallsHaveNoLoop};
ghost use Rattle.laws_trees.specs.FiniteAndTotal.{HeadlineIsOfMaps, LoweredTermsRunByFunctions};
ghost use Rattle.laws_trees.specs.PatternConstants.{ConstantsAreOfPatterns, HeadlineIsOfPatterns, LiteralsAreToldApart};
ghost use Rattle.laws_trees.specs.SetsServed.{LoweredSetsMeanTheirRules};
ghost use Rattle.laws_trees.specs.Uses.{BytesAreToldApart};

use laws_sites::{
    built_demands_are_whole, built_sets_are_collected, built_sets_are_tested,
    built_sets_are_well_built, built_sets_can_be_served, multi_terms_have_one_priority,
    no_rule_asks_and_goes_over,
};

/// The run of a sound tree of any set of a multi term, whose rules make no impure call and demand every gate below their
/// sites, collects the bag of the rules' results under each pick under which their demands hold.
pub fn sound_trees_collect()
    ensures { SoundTreesCollect }
{}

/// A rule is without multi calls exactly where its demands go over no call.
#[tactic(auto, using(crate::proofs::picks::OnePick::no_iterators, crate::proofs::picks::NoIterators::calls_no_multi))]
pub fn no_multi_is_no_iterators()
    ensures { NoMultiIsNoIterators }
{}

/// A rule without multi calls matches under every pick as it does without one.
#[tactic(auto, using(crate::proofs::picks::PlainMatching::matches_as_plain_lem))]
pub fn matches_as_plain()
    ensures { MatchesAsPlain }
{}

/// The right side of a rule without multi calls ends under every pick as it does without one.
#[tactic(auto, using(crate::proofs::picks::PlainMatching::ends_as_plain_lem))]
pub fn ends_as_plain()
    ensures { EndsAsPlain }
{}

/// A rule without multi calls has the empty pick alone, and its bag is the result of its right side, where it matches.
#[tactic(auto, using(crate::proofs::picks::OnePick::bag_as_plain_lem))]
pub fn bag_as_plain()
    ensures { BagAsPlain }
{}

/// The list of a rule's picks has its picks and no others, each once.
pub fn picks_are_exact()
    ensures { PicksAreExact }
{}

/// Of a pick only the places of its calls matter: two picks with the same places act alike, whatever their order.
pub fn only_places_matter()
    ensures { OnlyPlacesMatter }
{}

/// A call that takes answers of calls with a place alone can be gone over before others: what is made of the picks is one
/// bag.
#[tactic(auto, using(crate::proofs::picks::FirstCall::calls_can_come_first_lem))]
pub fn calls_can_come_first()
    ensures { CallsCanComeFirst }
{}

/// The results of a rule under a pick are of the pick's places alone, and so are those of a set's rule.
#[tactic(auto, using(crate::proofs::picks::FirstCall::results_are_of_places_lem))]
pub fn results_are_of_places()
    ensures { ResultsAreOfPlaces }
{}

/// What a site has under a pick, it can hold.
#[tactic(auto, using(crate::proofs::picks::HeldContents::contents_are_held_lem))]
pub fn contents_are_held()
    ensures { ContentsAreHeld }
{}

/// What a site can hold, it has under every pick, where it takes no answers of multi calls.
#[tactic(auto, using(crate::proofs::picks::HeldContents::held_are_contents_lem))]
pub fn held_are_contents()
    ensures { HeldAreContents }
{}

/// The test of values is exact.
#[tactic(auto, using(model::proofs::ValuesEqual::value_eq_decides))]
pub fn value_eq_is_exact()
    ensures { (v : Value) → (w : Value) → Decides (value_eq v w) (v ≡ w) }
{}

/// The run of a sound tree of any set whose rules go over no calls is a choice by priority.
pub fn sound_trees_choose()
    ensures { SoundTreesChoose }
{}

/// In a set without a wrong overlap, the demands of at most one rule of a priority hold.
#[tactic(auto, using(crate::proofs::runs::HoldsOnce::rules_hold_once_lem))]
pub fn rules_hold_once()
    ensures { RulesHoldOnce }
{}

/// Taking a rule comes to one outcome, whatever the place that it is taken from.
pub fn taken_once()
    ensures { TakenOnce }
{}

/// Of a program, the choice by priority asks the terms alone.
pub fn choice_asks_terms()
    ensures { ChoiceAsksTerms }
{}

/// Where of two rules of one priority at most one matches, rules in another order choose the same.
pub fn order_doesnt_matter()
    ensures { OrderDoesntMatter }
{}

/// A rule that isn't chosen can be taken away.
pub fn others_can_be_taken_away()
    ensures { OthersCanBeTakenAway }
{}

/// So the terms of a program choose the same where its rules stand in another order.
pub fn order_in_programs_doesnt_matter()
    ensures { OrderInProgramsDoesntMatter }
{}

/// And where a rule is taken away that isn't chosen.
pub fn others_in_programs_can_be_taken_away()
    ensures { OthersInProgramsCanBeTakenAway }
{}

/// The integer literals of a set that is built of well-typed rules lie in the ranges of their types, as sites and as constraints.
pub fn built_sets_have_numbers_in_range()
    ensures { BuiltSetsHaveNumbersInRange }
{}

/// A rule of a well-typed program matches under a pick exactly where the demands of its visit hold.
pub fn visits_match()
    ensures { VisitsMatch }
{}

/// An unreachable rule never matches.
pub fn unreachable_rules_never_match()
    ensures { UnreachableRulesNeverMatch }
{}

/// The closed demands of a rule hold exactly where its demands do, if they are all that follows.
pub fn closed_demands_hold_alike()
    ensures { ClosedDemandsHoldAlike }
{}

/// So those of each rule that is built of well-typed ones do.
pub fn built_demands_hold_alike()
    ensures { BuiltDemandsHoldAlike }
{
    built_demands_are_whole();
}

/// And so, under each of its picks, a rule of a set that is built of well-typed ones matches exactly where its demands hold.
pub fn built_sets_match_by_demands()
    ensures { BuiltSetsMatchByDemands }
{
    built_demands_are_whole();
}

/// Of two rules of a term that isn't multi, built of well-typed rules, those that don't overlap never match together, and a
/// shadowed one matches only where its mask does.
pub fn built_rules_are_told_apart()
    ensures { BuiltRulesAreToldApart }
{
    built_demands_are_whole();
}

/// The rules of a term that isn't multi go over no calls.
pub fn rules_without_multi_go_over_no_calls()
    ensures { RulesWithoutMultiGoOverNoCalls }
{}

/// For a built set of well-typed rules, a meaning that serves the term's rules and tells constants apart has what the tests
/// of trees ask.
pub fn served_sets_serve_tests()
    ensures { ServedSetsServeTests }
{}

/// Under each of its picks, what the right side of a rule gives that makes no impure call is what the result's site holds.
pub fn results_are_held()
    ensures { BuiltSetsHoldResults }
{}

/// And where none of the set's rules makes an impure call, it has what collecting the results of a multi term asks.
pub fn served_multi_sets_serve()
    ensures { ServedMultiSetsServe }
{}

/// For a built set of well-typed rules, taking a rule that matches and goes over no calls gives its right side's outcome: its
/// impure calls in order, and its result or a failure.
pub fn taken_rules_give_their_outcome()
    ensures { TakenRulesGiveTheirOutcome }
{}

/// And so does, under each of its picks, taking a rule that goes over calls and makes no impure one.
pub fn taken_rules_give_their_outcome_under_picks()
    ensures { TakenRulesGiveTheirOutcomeUnderPicks }
{}

/// A set that is built of well-typed rules means what they do: under each of its picks a rule matches exactly where its demands
/// hold, taking it gives its right side's outcome, and the result's site holds what the right side gives.
pub fn built_sets_mean_their_rules()
    ensures { BuiltSetsMeanTheirRules }
{
    built_sets_match_by_demands();
    taken_rules_give_their_outcome();
    taken_rules_give_their_outcome_under_picks();
    results_are_held();
}

/// Of a well-typed program, built sets of all its terms with rules, and these reports, are what building gives.
pub fn built_sets_are_answered()
    ensures { BuiltSetsAreAnswered }
{
    built_demands_are_whole();
    built_sets_can_be_served();
    built_sets_have_numbers_in_range();
    built_sets_mean_their_rules();
    built_rules_are_told_apart();
}

/// In a term that isn't multi a rule that is shadowed is never chosen.
pub fn shadowed_rules_are_never_chosen()
    ensures { ShadowedRulesAreNeverChosen }
{
    built_rules_are_told_apart();
}

/// So it can be taken away from the program, and the term chooses the same.
pub fn shadowed_rules_can_be_taken_away()
    ensures { ShadowedRulesCanBeTakenAway }
{
    shadowed_rules_are_never_chosen();
}

/// Every total meaning that is well typed for what the rules of a term use serves these rules.
pub fn total_meanings_serve()
    ensures { TotalMeaningsServe }
{}

/// In a term that isn't multi, by well-typed functions that tell constants apart, a tree that runs as chosen comes to the
/// outcome of the matching source rule of greatest priority.
pub fn runs_by_functions_as_chosen()
    ensures { RunsByFunctionsAsChosen }
{}

/// The list of a place's open tests holds exactly the tests that are open there.
#[tactic(auto, using(crate::proofs::OpenTests::open_tests_are_listed_lem))]
pub fn open_tests_are_listed()
    ensures { OpenTestsAreListed }
{}

/// The order of scores is strict, and tells any two tests of a place apart.
#[tactic(auto, using(crate::proofs::Scores::scores_are_ordered_lem))]
pub fn scores_are_ordered()
    ensures { ScoresAreOrdered }
{}

/// Where a test is open, one and only one is the greatest.
pub fn one_test_is_greatest()
    ensures { OneTestIsGreatest }
{}

/// Where the greatest tests are made, nowhere would an open test cover more rules than the test made.
#[tactic(auto, using(crate::proofs::Shares::best_trees_share_most_lem))]
pub fn best_trees_share_most()
    ensures { BestTreesShareMost }
{}

/// And no site is tested twice around a return.
#[tactic(auto, using(crate::proofs::SingleTests::sites_are_tested_once_lem))]
pub fn sites_are_tested_once()
    ensures { SitesAreTestedOnce }
{}

/// And all blocks together hold at most a step for each demand of a rule, and its return.
#[tactic(auto, using(crate::proofs::StepCounts::steps_are_few_lem))]
pub fn steps_are_few()
    ensures { StepsAreFew }
{}

/// So the facts of a tree's steps are enough.
#[tactic(auto, using(crate::proofs::StepCounts::steps_make_best_trees_lem))]
pub fn steps_make_best_trees()
    ensures { StepsMakeBestTrees }
{}

/// The judge of a marked tree passes it exactly where it is a best tree.
#[tactic(auto, using(crate::proofs::JudgeExactness::judge_is_exact_lem))]
pub fn judge_is_exact()
    ensures { JudgeIsExact }
{}

/// The judge of a tree passes it exactly where it is a best tree, if the set's returns can be told apart.
#[tactic(auto, using(crate::proofs::Marking::tree_judge_is_exact_lem))]
pub fn tree_judge_is_exact()
    ensures { TreeJudgeIsExact }
{}

/// Likewise the judge of binding before use passes a tree exactly where it binds each site before it is used.
#[tactic(auto, using(crate::proofs::binding::BindingJudge::binding_judge_is_exact_lem))]
pub fn binding_judge_is_exact()
    ensures { BindingJudgeIsExact }
{}

/// A best tree of a well built set is sound.
#[tactic(auto, using(crate::proofs::Soundness::best_trees_are_sound_lem))]
pub fn best_trees_are_sound()
    ensures { BestTreesAreSound }
{}

/// So its best trees are sound.
pub fn best_trees_of_built_sets_are_sound()
    ensures { BestTreesOfBuiltSetsAreSound }
{
    built_sets_are_well_built();
}

/// A best tree of a set that is built of well-typed rules binds each site before it is used, also the impure calls of a rule before
/// its return, and none twice in one scope but for the calls of loops.
pub fn best_trees_bind_before_use()
    ensures { BestTreesBindBeforeUse }
{}

/// In a multi term whose rules can be told apart, make no impure call and leave no multi call of an if-let unused, the run of a
/// best tree collects the bag of the rules' results.
pub fn best_trees_collect_the_bag()
    ensures { BestTreesCollectTheBag }
{
    built_sets_are_collected();
    served_multi_sets_serve();
    multi_terms_have_one_priority();
    no_rule_asks_and_goes_over();
    built_sets_match_by_demands();
    results_are_held();
}

/// The best trees of accepted definitions keep the headline, whatever code made them: they run as the choice by priority, share
/// tests, collect the bag of a multi term, and bind before use.
pub fn best_trees_keep_the_headline()
    ensures { BestTreesKeepTheHeadline }
{
    built_sets_are_tested();
    served_sets_serve_tests();
    best_trees_of_built_sets_are_sound();
    built_sets_match_by_demands();
    built_rules_are_told_apart();
    rules_without_multi_go_over_no_calls();
    taken_rules_give_their_outcome();
    best_trees_collect_the_bag();
    best_trees_bind_before_use();
}

/// And they mean what their sets do.
pub fn best_trees_mean_their_sets()
    ensures { BestTreesMeanTheirSets }
{
    best_trees_of_built_sets_are_sound();
}

/// A best tree of a set whose rules go over no calls has no loop.

pub fn trees_without_calls_have_no_loop()
    ensures { TreesWithoutCallsHaveNoLoop }
{}

/// Where each site stands once, a set has one best tree.
pub fn best_trees_are_one()
    ensures { BestTreesAreOne }
{}

/// So the best tree of a built set is the only one.
pub fn built_sets_have_one_best_tree()
    ensures { BuiltSetsHaveOneBestTree }
{}

/// And the tree that a term is lowered to is the only best tree of its set.
pub fn lowered_trees_are_only_best()
    ensures { LoweredTreesAreOnlyBest }
{}

/// No rule of a program whose rules can be told apart passes a limit on what rules make.
pub fn checkable_programs_pass_no_limit()
    ensures { CheckableProgramsPassNoLimit }
{}

/// Accepted definitions pass none of the six limits, while they are read and while they are built.
pub fn accepted_pass_no_limit()
    ensures { AcceptedPassNoLimit }
{}

/// The closed demands of each rule of accepted definitions are all that follows from what it demands.
pub fn accepted_demands_are_whole()
    ensures { AcceptedDemandsAreWhole }
{
    built_demands_are_whole();
}

/// So each rule of their sets asks all that follows from what its source rule demands, and nothing else.
pub fn accepted_sets_are_whole()
    ensures { AcceptedSetsAreWhole }
{
    built_demands_are_whole();
}

/// A best tree of a set is one of each set that shows the same: it looks at a rule's constraints, classes and iterators only
/// through what they ask of sites.
pub fn best_trees_are_of_what_is_shown()
    ensures { BestTreesAreOfWhatIsShown }
{}

/// Two sets that are built of the rules of one term have the same sites, and rules that show the same.
pub fn built_sets_show_same()
    ensures { BuiltSetsShowSame }
{}

/// Reading types, terms and rules gives one answer.
pub fn reading_gives_one()
    ensures { ReadingGivesOne }
{}

/// Building gives one list of sets, as far as they show.
pub fn building_gives_one()
    ensures { BuildingGivesOne }
{}

/// Sets that show the same are serialized to one tree.
pub fn serializing_gives_one()
    ensures { SerializingGivesOne }
{}

/// And lowering gives one answer: of the same definitions and the same choice to expand, all that satisfies what it
/// promises has the same environments, typed rules and terms, sets that show the same, and the same trees.
pub fn lowering_gives_one()
    ensures { LoweringGivesOne }
{}

/// No definitions are both accepted and refused.
pub fn none_is_accepted_and_refused()
    ensures { NoneIsAcceptedAndRefused }
{}

/// Definitions that are read are refused with one list of errors, those of their check; what says why they are refused fixes
/// it too, where no two rules stand at one position.
pub fn refusing_gives_one()
    ensures { RefusingGivesOne }
{}

/// The headline's premise on constants is one on the constants that a walk over typed patterns meets.
pub fn constants_are_of_patterns()
    ensures { ConstantsAreOfPatterns }
{}

/// So whatever tree has the headline, or collects the bag of a multi term, has it by this premise.
pub fn headline_is_of_patterns()
    ensures { HeadlineIsOfPatterns }
{}

/// Where patterns name no constants but booleans and numbers of built-in types, every meaning tells them apart.
pub fn literals_are_told_apart()
    ensures { LiteralsAreToldApart }
{}

/// So it is for the two rules of a term that gives 10 for 1, and else its argument.
pub fn bytes_are_told_apart()
    ensures { BytesAreToldApart }
{}

/// Of what accepted definitions are lowered to, each set means what its rules do wherever a meaning serves the term's rules and
/// tells constants apart.
pub fn lowered_sets_mean_their_rules()
    ensures { LoweredSetsMeanTheirRules }
{
    best_trees_mean_their_sets();
    built_sets_are_tested();
    served_sets_serve_tests();
    built_sets_are_collected();
    served_multi_sets_serve();
    multi_terms_have_one_priority();
    rules_without_multi_go_over_no_calls();
    built_sets_mean_their_rules();
}

/// Whatever tree has the headline, or collects the bag of a multi term, has it under all finite maps that serve: these are
/// meanings.
pub fn headline_is_of_maps()
    ensures { HeadlineIsOfMaps }
{}

/// By total functions that are well typed for what its rules use, and tell the constants of their patterns apart, the tree of
/// each term of accepted definitions runs to the choice by priority, or collects the bag of the rules.
pub fn lowered_terms_run_by_functions()
    ensures { LoweredTermsRunByFunctions }
{}
