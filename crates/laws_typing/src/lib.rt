//! Laws of tables and typing: ids of names, types and terms, and that the rules of typing and the function agree.
//!
//! A function here has an empty body: its clause is a law, and its proof stands in `proofs/`.
#![tactic(auto)]

ghost use Rattle.laws_typing.specs.TypingLaws.{PatternsAgree, ExprsAgree, RulesAgree, TypedWithinLimits, ListsAgree, MoreMayNest, PatternsOneWay, ExprsOneWay, RulesOneWay};
ghost use Rattle.laws_typing.specs.TypingResults.{TypesAreExpected, VariablesAtPlaces, NamesStay, NamesStayInLists, FormedRulesCanBeVisited};
ghost use Rattle.model.specs.lists.Formed.{RulesAreFormed};
ghost use Rattle.laws_typing.specs.WellTypedPrograms.{ElaboratedProgramsAreWellTyped};
ghost use Rattle.laws_typing.specs.OwnTypes.{OwnTypesAreReadable};
ghost use Rattle.laws_typing.specs.JudgeLaws.{TypesAreJudged, CyclesAreFound, TermsAreJudged, DefinedAreJudged, KnownTypesAreJudged, ReadTypesAreJudged, ListsAreElaborated, TypedRulesAreFound, ListsAreRead, ListsAreRefused};
ghost use Rattle.laws_typing.specs.TableLaws.{OwnTypesAreWellFormed, NamesStandOnce, NumbersStay, TypesStandAtIds, TypesAreFound, LastDefinitionCounts, TermsStandAtIds, TermsAreOfTypes, TermsHaveNames, TermsAreFound, TypesMakeTerms, ConvertersStandOnce};
ghost use Rattle.laws_typing.specs.FurtherNames.{FurtherNamesDontMatter, NamesOfRulesDontMatter};
ghost use Rattle.laws_typing.specs.QuestionLaws.{VariantsHaveTerms, WellFormedEnvironmentsAreRead};
ghost use Rattle.laws_typing.specs.RangeLaws.{ReducedNumbersAreInRange, NumbersInRangeStay, ReducingTwiceIsReducing, ReducedAlikeByMultiples, ReducedNumbersDifferByMultiples, OneOfTheRangeDiffersByAMultiple};
ghost use Rattle.laws_typing.specs.ReadEnvironments.{TypesAreShown, TypesStay};
ghost use Rattle.laws_typing.specs.ReadLimits.{ElaboratedRulesAreWithinLimits, ElaboratedListsPassNoLimit};
ghost use Rattle.laws_typing.specs.RefusedTerms.{RefusedTermsRefuseRules};
ghost use Rattle.laws_typing.specs.AfterRefusals.{RefusedEnvironmentsCanBeReadAgain, RulesAreRefusedAgain, RulesAreTypedAgain};

/// A pattern becomes by the rules of typing what the function gives, and nothing where it gives nothing.
pub fn patterns_agree()
    ensures { PatternsAgree }
{}

/// So does an expression.
pub fn exprs_agree()
    ensures { ExprsAgree }
{}

/// So does a rule.
pub fn rules_agree()
    ensures { RulesAgree }
{}

/// Within the limits on expansions too.
pub fn typed_within_limits()
    ensures { TypedWithinLimits }
{}

/// A list of rules becomes by the rules of typing what the function gives, names included.
pub fn lists_agree()
    ensures { ListsAgree }
{}

/// A rule that elaborates within some nested expansions elaborates alike within more.
pub fn more_may_nest()
    ensures { MoreMayNest }
{}

/// A pattern becomes one typed pattern at most, by one number of expansions.
pub fn patterns_one_way()
    ensures { PatternsOneWay }
{}

/// An expression becomes one typed expression at most.
pub fn exprs_one_way()
    ensures { ExprsOneWay }
{}

/// A rule becomes one typed rule at most.
pub fn rules_one_way()
    ensures { RulesOneWay }
{}

/// A pattern is made at the type asked for, an expression at the type expected.
pub fn types_are_expected()
    ensures { TypesAreExpected }
{}

/// The variables of a rule stand at their numbers.
pub fn variables_at_places()
    ensures { VariablesAtPlaces }
{}

/// Names keep their numbers, and stay distinct.
pub fn names_stay()
    ensures { NamesStay }
{}

/// So they do over a list of rules.
pub fn names_stay_in_lists()
    ensures { NamesStayInLists }
{}

/// A rule that elaborates hangs together: its terms have as many parts as arguments, all at their types, and each
/// variable is bound once, before it is used.
#[tactic(auto, using(crate::proofs::FormedRules::rules_are_formed))]
pub fn rules_are_formed()
    ensures { RulesAreFormed }
{}

/// A rule that hangs together can be visited: the condition of `Rule::visit` holds of it.
#[tactic(auto, using(crate::proofs::VisitableRules::formed_rules_can_be_visited))]
pub fn formed_rules_can_be_visited()
    ensures { FormedRulesCanBeVisited }
{}

/// Rules that elaborate make a well-typed program: its types stand at their ids, and its rules hang together, call what
/// their terms' flags allow, and have no priority of their own where their terms are multi.
pub fn elaborated_programs_are_well_typed()
    ensures { ElaboratedProgramsAreWellTyped }
{}

/// Terms and rules can be read with the types of a list, if these are valid.
pub fn own_types_are_readable()
    ensures { OwnTypesAreReadable }
{}

/// The types of a list with valid types are well formed.
pub fn own_types_are_well_formed()
    ensures { OwnTypesAreWellFormed }
{}

/// A name has one number, in the type table and in the term table.
#[tactic(auto, using(crate::proofs::TermLaws::names_stand_once_lem))]
pub fn names_stand_once()
    ensures { NamesStandOnce }
{}

/// A name that was met before keeps its number in the term table.
#[tactic(auto, using(crate::proofs::TermLaws::numbers_stay_lem))]
pub fn numbers_stay()
    ensures { NumbersStay }
{}

/// The i-th type, from 0, stands at 13 + i, which in a valid list is the id of its name.
pub fn types_stand_at_ids()
    ensures { TypesStandAtIds }
{}

/// The id of the name of a well-formed type is the type's.
#[tactic(auto, using(crate::proofs::WellFormed::types_are_found_lem))]
pub fn types_are_found()
    ensures { TypesAreFound }
{}

/// Of the definitions of a constant the last one counts.
#[tactic(auto, using(crate::proofs::TypeLaws::last_definition_counts_lem))]
pub fn last_definition_counts()
    ensures { LastDefinitionCounts }
{}

/// Each term stands at its id.
pub fn terms_stand_at_ids()
    ensures { TermsStandAtIds }
{}

/// The types of the arguments and of the result of each term are types.
#[tactic(auto, using(crate::proofs::TermTypes::terms_are_of_types_lem))]
pub fn terms_are_of_types()
    ensures { TermsAreOfTypes }
{}

/// Each term has the number of its name, variants and structs too.
#[tactic(auto, using(crate::proofs::TermLaws::terms_have_names_lem))]
pub fn terms_have_names()
    ensures { TermsHaveNames }
{}

/// In a valid list, the id of the name of a term is the term's.
pub fn terms_are_found()
    ensures { TermsAreFound }
{}

/// The terms of a list that is read with its own types: the declared ones, then those that its types make.
#[tactic(auto, using(crate::proofs::TermLaws::types_make_terms_lem))]
pub fn types_make_terms()
    ensures { TypesMakeTerms }
{}

/// In a valid list no two converters have one pair of types.
#[tactic(auto, using(crate::proofs::Converters::converters_stand_once_lem))]
pub fn converters_stand_once()
    ensures { ConvertersStandOnce }
{}

/// The judge of types is exact.
#[tactic(auto, using(crate::proofs::JudgedTypes::types_are_judged_lem))]
pub fn types_are_judged()
    ensures { TypesAreJudged }
{}

/// The search for extractors that come back to themselves is exact.
#[tactic(auto, using(crate::proofs::UsesFound::cycles_are_found_lem))]
pub fn cycles_are_found()
    ensures { CyclesAreFound }
{}

/// The judge of terms is exact.
#[tactic(auto, using(crate::proofs::JudgedTerms::terms_are_judged_lem))]
pub fn terms_are_judged()
    ensures { TermsAreJudged }
{}

/// The test that all declared terms are defined is exact.
#[tactic(auto, using(crate::proofs::JudgedTerms::defined_are_judged_lem))]
pub fn defined_are_judged()
    ensures { DefinedAreJudged }
{}

/// The judge of types that are handed in is exact.
#[tactic(auto, using(crate::proofs::JudgedKnown::known_types_are_judged_lem))]
pub fn known_types_are_judged()
    ensures { KnownTypesAreJudged }
{}

/// So is the judge of types that rules can be read with.
#[tactic(auto, using(crate::proofs::JudgedKnown::read_types_are_judged_lem))]
pub fn read_types_are_judged()
    ensures { ReadTypesAreJudged }
{}

/// By any types, the judge gives the typed rules of a list, and nothing where it has none.
pub fn lists_are_elaborated()
    ensures { ListsAreElaborated }
{}

/// So a list has typed rules exactly where the judge gives some.
pub fn typed_rules_are_found()
    ensures { TypedRulesAreFound }
{}

/// It gives them by a list's own types.
pub fn lists_are_read()
    ensures { ListsAreRead }
{}

/// It gives nothing exactly where a list isn't read.
pub fn lists_are_refused()
    ensures { ListsAreRefused }
{}

/// Having a typed rule doesn't depend on further names.
pub fn further_names_dont_matter()
    ensures { FurtherNamesDontMatter }
{}

/// So a rule of a list is read from the names of the list's terms, whatever names the rules before it met.
pub fn names_of_rules_dont_matter()
    ensures { NamesOfRulesDontMatter }
{}

/// Types that can be read are shown by some environment.
pub fn types_are_shown()
    ensures { TypesAreShown }
{}

/// With more names, types and their look-ups stay as they were.
pub fn types_stay()
    ensures { TypesStay }
{}

/// In a valid list each variant has its term, and the look-up of its full name finds it.
pub fn variants_have_terms()
    ensures { VariantsHaveTerms }
{}

/// A type environment is well formed exactly where it shows types that can be read.
pub fn well_formed_environments_are_read()
    ensures { WellFormedEnvironmentsAreRead }
{}

/// What refuses the terms of a list refuses its rules, with the same errors.
pub fn refused_terms_refuse_rules()
    ensures { RefusedTermsRefuseRules }
{}

/// Reducing a number to a range gives a number of the range.
#[tactic(auto, using(crate::proofs::Ranges::reduced_numbers_are_in_range_lem))]
pub fn reduced_numbers_are_in_range()
    ensures { ReducedNumbersAreInRange }
{}

/// It gives a number of the range itself.
#[tactic(auto, using(crate::proofs::Ranges::numbers_in_range_stay_lem))]
pub fn numbers_in_range_stay()
    ensures { NumbersInRangeStay }
{}

/// It gives one that differs by a multiple of the range's size.
#[tactic(auto, using(crate::proofs::Ranges::reduced_numbers_differ_by_multiples_lem))]
pub fn reduced_numbers_differ_by_multiples()
    ensures { ReducedNumbersDifferByMultiples }
{}

/// No other number of the range does.
#[tactic(auto, using(crate::proofs::Ranges::one_of_the_range_differs_by_a_multiple_lem))]
pub fn one_of_the_range_differs_by_a_multiple()
    ensures { OneOfTheRangeDiffersByAMultiple }
{}

/// So reducing twice gives no more than reducing once.
#[tactic(auto, using(crate::proofs::Ranges::reducing_twice_is_reducing_lem))]
pub fn reducing_twice_is_reducing()
    ensures { ReducingTwiceIsReducing }
{}

/// Two numbers are reduced to one exactly where they differ by a multiple of the range's size.
#[tactic(auto, using(crate::proofs::Ranges::reduced_alike_by_multiples_lem))]
pub fn reduced_alike_by_multiples()
    ensures { ReducedAlikeByMultiples }
{}

/// Each rule of a list that elaborates has a typed rule within the limits on expansions, from the names of the terms.
pub fn elaborated_rules_are_within_limits()
    ensures { ElaboratedRulesAreWithinLimits }
{}

/// No rule of a list that elaborates passes a limit on expansions.
pub fn elaborated_lists_pass_no_limit()
    ensures { ElaboratedListsPassNoLimit }
{}

/// What a refusal to read terms or rules leaves of a type environment can be read again: terms are valid by it exactly where
/// they were, and the same errors refuse them.
pub fn refused_environments_can_be_read_again()
    ensures { RefusedEnvironmentsCanBeReadAgain }
{}

/// And a list has typed rules by its types exactly where it had some before.
pub fn rules_are_typed_again()
    ensures { RulesAreTypedAgain }
{}

/// And the same errors refuse its rules, limits that they name included.
pub fn rules_are_refused_again()
    ensures { RulesAreRefusedAgain }
{}
