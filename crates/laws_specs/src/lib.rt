//! Laws of conditions: where what is asked of a solver holds of each rule, what a term answers is as its spec says. So it is in
//! whole programs: terms with rules that call one another.
//!
//! A function here has no code, or calls the laws that its proof rests on: its clause is a law, and its proof stands in
//! `proofs/`.
#![tactic(auto)]

ghost use Rattle.laws_specs.specs.CollectLaws.{BagsAreAsSaid, CollectsAsSaid, LoweredTermsCollectAsSaid};
ghost use Rattle.laws_specs.specs.ConditionLaws.{ChoosesAsSaid, ComputesAsSaid, ChoosesAsSaidByPriority, ComputesAsSaidByPriority, LoweredTermsComputeAsSaid};
ghost use Rattle.laws_specs.specs.ListLaws.{ListProgramsComputeAsSaid, LoweredListProgramsComputeAsSaid};
ghost use Rattle.laws_specs.specs.ListRuns.{LikeFunctionsHaveLikeListRuns, LoweredProgramsCollectAsTheirSource, WholeRunsAreListRuns};
ghost use Rattle.laws_specs.specs.SampleCalls.{PremisesHold, OthersAreRefused};
ghost use Rattle.laws_specs.specs.SampleBelow.{PriorityPremisesHold};
ghost use Rattle.laws_specs.specs.SampleLists.{ListsAreSaid, BagPremisesHold};
ghost use Rattle.laws_specs.specs.SampleNumbers.{NumbersExcludeNothing};
ghost use Rattle.laws_specs.specs.SampleOperators.{FormsAreSaid, OperatorsAreApplied};
ghost use Rattle.laws_specs.specs.SamplePriorities.{PrioritiesCount};
ghost use Rattle.laws_specs.specs.SampleUnknowns.{UnknownsHaveSorts};
ghost use Rattle.laws_specs.specs.SampleUnwraps.{UnusedCallsShowNothing};
ghost use Rattle.laws_specs.specs.SampleWidths.{WidthsAreListed};
ghost use Rattle.laws_specs.specs.Samples.{SumsAreSaid, WordsAreFormed, SumsAreRight, CallsAreRequired};
ghost use Rattle.laws_specs.specs.TotalLaws.{TotalMeaningsAnswerAsSaid};
ghost use Rattle.laws_specs.specs.ProgramLaws.{LikeFunctionsHaveLikeRuns, LoweredProgramsComputeAsSaid, LoweredProgramsRunAsTheirSource, ProgramsComputeAsSaid};
ghost use Rattle.laws_specs.specs.SampleListRuns.{ListRunsAreJudged};
ghost use Rattle.laws_specs.specs.SampleRuns.{RunsAreWhole};
ghost use Rattle.laws_specs.specs.SampleSets.{SetsAreAsked};
ghost use Rattle.laws_specs.specs.SetConditions.{LoweredSetsComputeAsSaid, ProgramsOfSetsComputeAsSaid, SetsAskEnough, TermsOfValidSetsAreValid};

use laws_trees::{accepted_sets_are_whole, built_demands_hold_alike};

/// Where the condition of each rule of a term that isn't multi is valid, and what is called meets its spec, the choice among
/// source rules gives what the term's spec says, and each impure call meets its require.
pub fn chooses_as_said()
    ensures { ChoosesAsSaid }
{}

/// So a tree that runs as chosen computes what the term's spec says.
pub fn computes_as_said()
    ensures { ComputesAsSaid }
{}

/// It is enough that conditions are valid where no rule of greater priority matches, if atoms stand for numbers.
pub fn chooses_as_said_by_priority()
    ensures { ChoosesAsSaidByPriority }
{}

/// So a tree that runs as chosen computes what the spec says under the weaker premise too.
pub fn computes_as_said_by_priority()
    ensures { ComputesAsSaidByPriority }
{}

/// Each tree that lowering gives of accepted definitions computes what its term's spec says, in terms that aren't multi.
pub fn lowered_terms_compute_as_said()
    ensures { LoweredTermsComputeAsSaid }
{}

/// By well-typed functions that meet specs a tree that runs as chosen computes what its term's spec says.
pub fn total_meanings_answer_as_said()
    ensures { TotalMeaningsAnswerAsSaid }
{}

/// Each result of the bag of a term's rules, where they make no impure call, is a value that the term's spec provides.
pub fn bags_are_as_said()
    ensures { BagsAreAsSaid }
{}

/// So is each result that a tree collects which collects the bag.
pub fn collects_as_said()
    ensures { CollectsAsSaid }
{}

/// Each tree that lowering gives of accepted definitions collects values that its term's spec provides, in multi terms whose
/// rules make no impure call and leave no multi call of an if-let unused.
pub fn lowered_terms_collect_as_said()
    ensures { LoweredTermsCollectAsSaid }
{}

/// Sums of words are taken modulo two to their width, and nothing is said where widths or places don't fit.
pub fn sums_are_said()
    ensures { SumsAreSaid }
{}

/// Words lie below two to their width, and literals are read modulo it.
pub fn words_are_formed()
    ensures { WordsAreFormed }
{}

/// The sum of an argument with itself is twice it; the argument alone isn't, and a call whose require fails shows nothing.
pub fn sums_are_right()
    ensures { SumsAreRight }
{}

/// The require of an impure call is to be shown, and what is provided, also where operands don't fit.
pub fn calls_are_required()
    ensures { CallsAreRequired }
{}

/// The premises of the law hold together: of a program with one rule, a sum, the choice gives 200 for 100.
pub fn premises_hold()
    ensures { PremisesHold }
{}

/// A meaning that answers 201 doesn't meet the specs, and 201 isn't what is provided.
pub fn others_are_refused()
    ensures { OthersAreRefused }
{}

/// Each answer of a multi call is as the call's spec says, so a rule that gives them is right, and one that gives its argument isn't.
pub fn lists_are_said()
    ensures { ListsAreSaid }
{}

/// The premises of the law of bags hold together: of a program with one rule, a multi call, the bag has 200 twice for 100.
pub fn bag_premises_hold()
    ensures { BagPremisesHold }
{}

/// A rule that is wrong alone is right where the one above it doesn't match.
pub fn priorities_count()
    ensures { PrioritiesCount }
{}

/// The premises of the law by priority hold together of these rules: A gives 10, and B gives 20.
pub fn priority_premises_hold()
    ensures { PriorityPremisesHold }
{}

/// A rule that is wrong of a number stays wrong below the rule that names the number: another value may stand for it too.
pub fn numbers_exclude_nothing()
    ensures { NumbersExcludeNothing }
{}

/// What the spec of a call says that the result doesn't use, and that gives no value, makes no wrong rule right.
pub fn unused_calls_show_nothing()
    ensures { UnusedCallsShowNothing }
{}

/// What an unknown function answers to operands of its sort is of its sort, whatever it is; without a sort nothing is known of it.
#[tactic(auto, using(crate::proofs::SampleUnknowns::unknowns_have_sorts_lem))]
pub fn unknowns_have_sorts()
    ensures { UnknownsHaveSorts }
{}

/// A rule that is right of words of eight bits isn't where sixteen are listed too, and no atom stands for a word of another width.
#[tactic(auto, using(crate::proofs::SampleWidths::widths_are_listed_lem))]
pub fn widths_are_listed()
    ensures { WidthsAreListed }
{}

/// Operators are applied as two SMT solvers apply them, and say nothing of operands that don't fit.
#[tactic(auto, using(crate::proofs::SampleOperators::operators_are_applied_lem))]
pub fn operators_are_applied()
    ensures { OperatorsAreApplied }
{}

/// Expressions with cases, arms, variables, fields and unknown functions say what they should.
#[tactic(auto, using(crate::proofs::SampleOperators::forms_are_said_lem))]
pub fn forms_are_said()
    ensures { FormsAreSaid }
{}

/// Functions that do the same, wherever what they call is answered, have the same whole runs: the same answers, and the same impure
/// calls outside in the same order.
#[tactic(auto, using(crate::proofs::LikeRuns::like_functions_have_like_runs_lem))]
pub fn like_functions_have_like_runs()
    ensures { LikeFunctionsHaveLikeRuns }
{}

/// So the trees that lowering gives, and their code, have the whole runs of the source rules.
#[tactic(auto, using(crate::proofs::LikeRuns::lowered_programs_run_as_their_source_lem))]
pub fn lowered_programs_run_as_their_source()
    ensures { LoweredProgramsRunAsTheirSource }
{}

/// Functions that do the same, and in multi terms collect the same bags, have the same runs also where multi terms with rules are called:
/// the same answers, lists up to the order of their elements, and the same impure calls outside in the same order.
#[tactic(auto, using(crate::proofs::ListRuns::like_functions_have_like_list_runs_lem))]
pub fn like_functions_have_like_list_runs()
    ensures { LikeFunctionsHaveLikeListRuns }
{}

/// A whole run in which no multi term with rules is called is such a run.
#[tactic(auto, using(crate::proofs::ListRuns::whole_runs_are_list_runs_lem))]
pub fn whole_runs_are_list_runs()
    ensures { WholeRunsAreListRuns }
{}

/// So the trees that lowering gives, and their code without a bound of results, have the runs of the source rules, where multi terms call one
/// another too.
#[tactic(auto, using(crate::proofs::ListRuns::lowered_programs_collect_as_their_source_lem))]
pub fn lowered_programs_collect_as_their_source()
    ensures { LoweredProgramsCollectAsTheirSource }
{}

/// Where the condition of each rule is valid, whole runs by source rules answer as specs say: what rules take of the terms that they call
/// is shown by the rules of those.
pub fn programs_compute_as_said()
    ensures { ProgramsComputeAsSaid }
{
    chooses_as_said();
    chooses_as_said_by_priority();
}

/// So do whole runs of the trees that lowering gives of accepted definitions, and of their code.
pub fn lowered_programs_compute_as_said()
    ensures { LoweredProgramsComputeAsSaid }
{
    programs_compute_as_said();
}

/// Where the conditions of multi terms' rules are valid too, runs in which such terms are called answer as specs say, each element of a list
/// too.
pub fn list_programs_compute_as_said()
    ensures { ListProgramsComputeAsSaid }
{
    chooses_as_said();
    chooses_as_said_by_priority();
    bags_are_as_said();
}

/// So do such runs of the trees that lowering gives of accepted definitions, and of their code without a bound of results.
pub fn lowered_list_programs_compute_as_said()
    ensures { LoweredListProgramsComputeAsSaid }
{
    list_programs_compute_as_said();
}

/// A term with rules calls another one, and what is outside, in a run that nests two deep.
#[tactic(auto, using(crate::proofs::SampleRuns::runs_are_whole_lem))]
pub fn runs_are_whole()
    ensures { RunsAreWhole }
{}

/// A multi term runs, and its caller gets all results, in any order.
#[tactic(auto, using(crate::proofs::SampleListRuns::list_runs_are_judged_lem))]
pub fn list_runs_are_judged()
    ensures { ListRunsAreJudged }
{}

/// What a rule of a term's set asks is enough: where its condition is valid, so is the condition of its source rule.
pub fn sets_ask_enough()
    ensures { SetsAskEnough }
{
    accepted_sets_are_whole();
}

/// So where the conditions of all rules of a set are valid, those of all source rules of its term are, and each law on terms whose
/// conditions are valid speaks of it.
pub fn terms_of_valid_sets_are_valid()
    ensures { TermsOfValidSetsAreValid }
{
    accepted_sets_are_whole();
}

/// So a tree that lowering gives of accepted definitions computes what its term's spec says where the conditions of the rules of its set
/// are valid, alone or where no rule of the set with greater priority matches.
pub fn lowered_sets_compute_as_said()
    ensures { LoweredSetsComputeAsSaid }
{
    accepted_sets_are_whole();
    built_demands_hold_alike();
    chooses_as_said();
}

/// So do whole runs of the trees that lowering gives of accepted definitions, and of their code.
pub fn programs_of_sets_compute_as_said()
    ensures { ProgramsOfSetsComputeAsSaid }
{
    accepted_sets_are_whole();
    built_demands_hold_alike();
    chooses_as_said();
}

/// The condition of a set's rule that gives a sum is valid, and it isn't of one that gives the argument; of a class each pair is asked; and
/// a lower rule that is wrong alone is right below the one above it.
pub fn sets_are_asked()
    ensures { SetsAreAsked }
{
    sums_are_right();
    priorities_count();
}
