//! Laws of sites. What the visit of a typed rule demands and makes, and which limit it meets first; a visitor that follows the
//! visitor of sites step by step follows it through whole rules, faults included. And the closure of demands: unreachable rules,
//! overlap, shadow and what is reported of them; how sets are built, rule by rule, and what built sets are.
//!
//! The law on visitors speaks of all of them, so no clause can state it: `VisitsFollow` (`specs/Followers`) is proved by the lemma
//! `visits_follow_lem` (`proofs/FollowedRules`).
//!
//! A function here has no code, or calls the laws that its proof rests on: its clause is a law, and its proof stands in
//! `proofs/`.
#![tactic(auto)]

ghost use Rattle.laws_sites.specs.Followers.{SiteRunsExist, SiteRunsVisit};
ghost use Rattle.laws_sites.specs.LimitLaws.{FirstLimitIsPassed, PassedLimitIsMet, LimitsAreMet, FullSitesStay, FirstCountsArePassed};
ghost use Rattle.laws_sites.specs.VisitLaws.{VisitsMakeEqualSites, FormedRulesDemandGates, WellTypedRulesDemandGates, FormedRulesMakeEqualSites, VisitsContinue};
ghost use Rattle.laws_sites.specs.ClosureLaws.{JoinedIsEquivalence, ClassesBoundJoined, VerdictIsExact, NamesAreExact, ClosingAddsNothing, ConstraintsAreKept, ClosingIsSound, OverlapIsSymmetric, OverlapIsExact, ClashIsExact, ClosingIsWhole, ReportsAreExact, ShadowsAreExact, PlainClosingEnds, ClosingEnds};
ghost use Rattle.laws_sites.specs.AcceptLaws.{WellTypedRulesHaveTerms, RulesAreJudged, ListsAreAccepted, ListsAreNotAccepted};
ghost use Rattle.laws_sites.specs.PairLaws.{WrongPairsStandOnce, OnlyWrongPairsStand};
ghost use Rattle.laws_sites.specs.ShadowLaws.{MasksAreNamedOnce, OnlyMasksAreNamed, CheckErrorsAreAnswered};
ghost use Rattle.laws_sites.specs.ErrorLaws.{CheckErrorsNameLeftOut, CheckErrorsNamePairs, CheckErrorsNameMasks};
ghost use Rattle.laws_sites.specs.LeftOutLaws.{LeftOutRulesAreReported};
ghost use Rattle.laws_sites.specs.FieldLaws.{ConflictFreeConstraintsAgree, FieldsAreGiven};
ghost use Rattle.laws_sites.specs.ReportLaws.{CheckIsExact, OverlapsAreListedOnce, ListedRulesOverlap, MasksAreReportedOnce, ReportedMasksShadow};
ghost use Rattle.laws_sites.specs.RuleByRule.{SetsStartEmpty, SetsGoPastRules, SetsEndBuilt, BuildingStarts, BuildingGoesOn, BuildingEnds, OrderAsksTheSame, ListedDemandsStand};
ghost use Rattle.laws_sites.specs.SetOverlapLaws.{SetRulesOverlapAsTheirDemands, OverlapOfSetRulesIsSymmetric, SetRulesConstrainAsTheirDemands};
ghost use Rattle.laws_sites.specs.SetReportLaws.{BuiltSetsAreReported, BuiltSetsAreChecked};
ghost use Rattle.laws_sites.specs.GateLaws.{SitesStandOnce, ClosingKeepsGates, BuiltRulesDemandGates, BuiltSetsAreWellBuilt, NoneAskedAndGoneOver, MultiCallsAreGoneOver, NoRuleAsksAndGoesOver, MultiTermsHaveOnePriority};
ghost use Rattle.laws_sites.specs.BuiltLaws.{BuiltSetsAreTested, ClosingsOfBuiltRulesAreWhole, ConstrainedSitesStandInNoClass, BuiltRulesConstrainOrEquate, BuiltSetsCanBeServed, BuiltSetsAreCollected, BuiltDemandsAreWhole};
ghost use Rattle.laws_sites.specs.RefusalLaws.{ReportsNamePassedLimits};

/// A limit that is reported is passed.
#[tactic(auto, using(crate::proofs::LimitsPassed::first_limit_is_passed_lem))]
pub fn first_limit_is_passed()
    ensures { FirstLimitIsPassed }
{}

/// Where a limit is passed, one is reported.
#[tactic(auto, using(crate::proofs::LimitsPassed::passed_limit_is_met_lem))]
pub fn passed_limit_is_met()
    ensures { PassedLimitIsMet }
{}

/// The sites that a visit equates are made by it, but for variables that nothing binds.
pub fn visits_make_equal_sites()
    ensures { VisitsMakeEqualSites }
{}

/// A rule that hangs together, and whose if-lets make no impure call, demands the gates of all that it tests and returns.
#[tactic(auto, using(crate::proofs::Rules::formed_rules_demand_gates_lem))]
pub fn formed_rules_demand_gates()
    ensures { FormedRulesDemandGates }
{}

/// So do the rules of a well-typed program.
pub fn well_typed_rules_demand_gates()
    ensures { WellTypedRulesDemandGates }
{}

/// The visit of a rule that hangs together makes the sites that it equates.
pub fn formed_rules_make_equal_sites()
    ensures { FormedRulesMakeEqualSites }
{}

/// Which limit is met first, by what the rule's visit counts and by the number of sites.
#[tactic(auto, using(crate::proofs::Limits::limits_are_met_lem))]
pub fn limits_are_met()
    ensures { LimitsAreMet }
{}

/// Sites that are too many stay the first of themselves and more.
#[tactic(auto, using(crate::proofs::Limits::full_sites_stay_lem))]
pub fn full_sites_stay()
    ensures { FullSitesStay }
{}

/// Visits only add to what is made and counted, at the end.
#[tactic(auto, using(crate::proofs::Continued::visits_continue_lem))]
pub fn visits_continue()
    ensures { VisitsContinue }
{}

/// The first count of a rule's visit that passes a limit is the first limit that is passed, and what was made until then is
/// what the visit had made.
pub fn first_counts_are_passed()
    ensures { FirstCountsArePassed }
{}

/// The run of the visitor of sites over a rule that hangs together gives the site of the rule's value, what the rule
/// demands up to there, and how many impure calls were met.
pub fn site_runs_visit()
    ensures { SiteRunsVisit }
{}

/// Each rule that hangs together has a run of the visitor of sites.
#[tactic(auto, using(crate::proofs::SiteRunsMade::site_runs_exist_lem))]
pub fn site_runs_exist()
    ensures { SiteRunsExist }
{}

/// Sites that must be equal are an equivalence.
#[tactic(auto, using(crate::proofs::Classes::joined_is_equivalence_lem))]
pub fn joined_is_equivalence()
    ensures { JoinedIsEquivalence }
{}

/// Whatever classes respect the demands hold all that must be equal.
#[tactic(auto, using(crate::proofs::Classes::classes_bound))]
pub fn classes_bound_joined()
    ensures { ClassesBoundJoined }
{}

/// The test finds exactly the demands that no values meet.
pub fn verdict_is_exact()
    ensures { VerdictIsExact }
{}

/// The names of classes are exact where the demands can be met.
pub fn names_are_exact()
    ensures { NamesAreExact }
{}

/// Demands without equalities are closed.
#[tactic(auto, using(crate::proofs::Closing::closing_adds_nothing_lem))]
pub fn closing_adds_nothing()
    ensures { ClosingAddsNothing }
{}

/// Of demands that can be met each constraint is kept.
pub fn constraints_are_kept()
    ensures { ConstraintsAreKept }
{}

/// Closed demands ask nothing that does not follow.
#[tactic(auto, using(crate::proofs::Closing::closing_is_sound_lem))]
pub fn closing_is_sound()
    ensures { ClosingIsSound }
{}

/// Two closed demand sets overlap in either order.
#[tactic(auto, using(crate::proofs::overlaps::Overlaps::overlaps_symmetric_lem))]
pub fn overlap_is_symmetric()
    ensures { OverlapIsSymmetric }
{}

/// The tests of overlap and of subset pairs are exact.
pub fn overlap_is_exact()
    ensures { OverlapIsExact }
{}

/// The test of wrong overlaps is exact.
pub fn clash_is_exact()
    ensures { ClashIsExact }
{}

/// Where closing ends, closed demands are all that follows from demands that can be met.
pub fn closing_is_whole()
    ensures { ClosingIsWhole }
{}

/// Something is reported of demands exactly where they can't be met.
pub fn reports_are_exact()
    ensures { ReportsAreExact }
{}

/// No conflict is met exactly where the constraints of each site are one.
pub fn conflict_free_constraints_agree()
    ensures { ConflictFreeConstraintsAgree }
{}

/// In the demands of a rule each field that is spoken of is given by a constraint, and each that is given is made.
#[tactic(auto, using(crate::proofs::GivenFields::fields_are_given_lem))]
pub fn fields_are_given()
    ensures { FieldsAreGiven }
{}

/// The test of shadows is exact.
#[tactic(auto, using(crate::proofs::overlaps::ShadowTest::shadows_decides))]
pub fn shadows_are_exact()
    ensures { ShadowsAreExact }
{}

/// Two rules of one built set overlap, and are a subset pair, where their closed demands are.
pub fn set_rules_overlap_as_their_demands()
    ensures { SetRulesOverlapAsTheirDemands }
{}

/// What is told of two rules of a set is the same in either order.
#[tactic(auto, using(crate::proofs::overlaps::SetRules::overlap_of_set_rules_is_symmetric_lem))]
pub fn overlap_of_set_rules_is_symmetric()
    ensures { OverlapOfSetRulesIsSymmetric }
{}

/// A rule of a built set has as many constraints and equated sites as its closed demands.
pub fn set_rules_constrain_as_their_demands()
    ensures { SetRulesConstrainAsTheirDemands }
{}

/// Nothing is reported of a program exactly where all its rules are built, none overlap wrongly, and none is shadowed.
#[tactic(auto, using(crate::proofs::overlaps::CheckedPrograms::check_is_exact_lem))]
pub fn check_is_exact()
    ensures { CheckIsExact }
{}

/// Each two rules that overlap wrongly stand in exactly one report that lists one of them first.
pub fn overlaps_are_listed_once()
    ensures { OverlapsAreListedOnce }
{}

/// Each further rule of a report overlaps wrongly with its first.
#[tactic(auto, using(crate::proofs::overlaps::ListedOverlaps::listed_rules_overlap_lem))]
pub fn listed_rules_overlap()
    ensures { ListedRulesOverlap }
{}

/// Where rules stand at distinct positions, each built rule that shadows others is the mask of one report, which lists these.
#[tactic(auto, using(crate::proofs::overlaps::Masks::masks_are_reported_once_lem))]
pub fn masks_are_reported_once()
    ensures { MasksAreReportedOnce }
{}

/// Each shadow report is of such a rule.
#[tactic(auto, using(crate::proofs::overlaps::Masks::reported_masks_shadow_lem))]
pub fn reported_masks_shadow()
    ensures { ReportedMasksShadow }
{}

/// The closing of demands without equalities ends.
#[tactic(auto, using(crate::proofs::Closing::plain_closing_ends_lem))]
pub fn plain_closing_ends()
    ensures { PlainClosingEnds }
{}

/// In a built set no site stands twice.
#[tactic(auto, using(crate::proofs::built::DistinctSites::sites_stand_once_lem))]
pub fn sites_stand_once()
    ensures { SitesStandOnce }
{}

/// The closing of demands that can be met keeps their constraints and the gates of what they test.
pub fn closing_keeps_gates()
    ensures { ClosingKeepsGates }
{}

/// In a built set each rule demands the gates of the sites that it tests.
pub fn built_rules_demand_gates()
    ensures { BuiltRulesDemandGates }
{}

/// A set that is built of well-typed rules, none of which goes over calls, is well built.
pub fn built_sets_are_well_built()
    ensures { BuiltSetsAreWellBuilt }
{}

/// And in a term that isn't multi it meets what choosing from it asks.
pub fn built_sets_are_tested()
    ensures { BuiltSetsAreTested }
{}

/// Where no term is multi and partial at once, no call that a rule goes over is constrained.
pub fn none_asked_and_gone_over()
    ensures { NoneAskedAndGoneOver }
{}

/// What a rule goes over are multi calls, and it tests none, where no term is multi and partial at once.
#[tactic(auto, using(crate::proofs::built::MultiCalls::multi_calls_are_gone_over_lem))]
pub fn multi_calls_are_gone_over()
    ensures { MultiCallsAreGoneOver }
{}

/// So no rule of a built set goes over a call that it constrains.
pub fn no_rule_asks_and_goes_over()
    ensures { NoRuleAsksAndGoesOver }
{}

/// The rules of a multi term have one priority in a built set.
pub fn multi_terms_have_one_priority()
    ensures { MultiTermsHaveOnePriority }
{}

/// The term of each rule of a well-typed program is one of its terms.
pub fn well_typed_rules_have_terms()
    ensures { WellTypedRulesHaveTerms }
{}

/// The judge of rules is exact, where each rule's term is one of the program's.
#[tactic(auto, using(crate::proofs::overlaps::JudgedLists::rules_are_judged_lem))]
pub fn rules_are_judged()
    ensures { RulesAreJudged }
{}

/// The judge of acceptance gives the typed rules of a list that is accepted.
pub fn lists_are_accepted()
    ensures { ListsAreAccepted }
{}

/// It gives nothing exactly where a list isn't accepted.
pub fn lists_are_not_accepted()
    ensures { ListsAreNotAccepted }
{}

/// The closing of the demands of each rule that is built ends.
#[tactic(auto, using(crate::proofs::BuiltRules::closing_ends_lem))]
pub fn closings_end()
    ensures { ClosingEnds }
{}

/// So the closed demands of a rule that is built are all that follows, where its visit makes the sites that it equates.
#[tactic(auto, using(crate::proofs::BuiltRules::closings_of_built_rules_are_whole_lem))]
pub fn closings_of_built_rules_are_whole()
    ensures { ClosingsOfBuiltRulesAreWhole }
{}

/// And none of their classes holds a constrained site.
pub fn constrained_sites_stand_in_no_class()
    ensures { ConstrainedSitesStandInNoClass }
{}

/// So no rule of a built set both constrains and equates a site.
pub fn built_rules_constrain_or_equate()
    ensures { BuiltRulesConstrainOrEquate }
{}

/// A set that is built of well-typed rules can be served: no site stands twice or is both constrained and equated, the
/// gates below what a rule tests and goes over are demanded, and the rules of a multi term have one priority.
pub fn built_sets_can_be_served()
    ensures { BuiltSetsCanBeServed }
{}

/// And in a multi term whose rules make no impure call and leave no multi call unused it meets what collecting asks.
pub fn built_sets_are_collected()
    ensures { BuiltSetsAreCollected }
{}

/// The closed demands of each rule that is built of well-typed ones are all that follows.
pub fn built_demands_are_whole()
    ensures { BuiltDemandsAreWhole }
{}

/// An error of building names a limit only where a rule at that position passes it.
pub fn reports_name_passed_limits()
    ensures { ReportsNamePassedLimits }
{}

/// What is reported of the built sets of a program's terms is what is reported of the program.
#[tactic(auto, using(crate::proofs::overlaps::SetReports::built_sets_are_reported_lem))]
pub fn built_sets_are_reported()
    ensures { BuiltSetsAreReported }
{}

/// Of what building gives: where its errors and the reports of the sets are none, checking gives the sets, and else these
/// reports.
#[tactic(auto, using(crate::proofs::overlaps::SetChecks::built_sets_are_checked_lem))]
pub fn built_sets_are_checked()
    ensures { BuiltSetsAreChecked }
{}

/// A set of a term stands after none of its rules where it is empty.
#[tactic(auto, using(crate::proofs::building::RulesPassed::sets_start_empty_lem))]
pub fn sets_start_empty()
    ensures { SetsStartEmpty }
{}

/// A set that stands after some rules stands after one more, where this one is added by its closed demands, or is left out
/// and its sites stay; and what is reported of it is that.
#[tactic(auto, using(crate::proofs::building::RulesPassed::sets_go_past_rules_lem))]
pub fn sets_go_past_rules()
    ensures { SetsGoPastRules }
{}

/// After all rules of its term it is built, and only then.
#[tactic(auto, using(crate::proofs::building::RulesPassed::sets_end_built_lem))]
pub fn sets_end_built()
    ensures { SetsEndBuilt }
{}

/// Before the first rule of a program no term has a set, and nothing is reported.
#[tactic(auto, using(crate::proofs::building::SetsSoFar::building_starts_lem))]
pub fn building_starts()
    ensures { BuildingStarts }
{}

/// With one more rule the set of its term goes on, the others stay, and its reports come last.
pub fn building_goes_on()
    ensures { BuildingGoesOn }
{}

/// After all rules the sets are built, and the reports are those of the program.
pub fn building_ends()
    ensures { BuildingEnds }
{}

/// Putting classes in order keeps what they hold, so a rule needn't be listed by that order.
pub fn order_asks_the_same()
    ensures { OrderAsksTheSame }
{}

/// What is listed over numbers at the end of the closing is what a rule's closed demands ask.
pub fn listed_demands_stand()
    ensures { ListedDemandsStand }
{}

/// Each rule that building leaves out is reported at its position, and each report of building is of such a rule.
#[tactic(auto, using(crate::proofs::overlaps::LeftOut::left_out_rules_are_reported_lem))]
pub fn left_out_rules_are_reported()
    ensures { LeftOutRulesAreReported }
{}

/// Each two rules that overlap wrongly stand in exactly one report of checking that lists one of them first.
pub fn wrong_pairs_stand_once()
    ensures { WrongPairsStandOnce }
{}

/// And each further rule of a report of checking overlaps wrongly with its first.
pub fn only_wrong_pairs_stand()
    ensures { OnlyWrongPairsStand }
{}

/// Each built rule that shadows others is the mask of an error of checking, which lists exactly these, in rule order; where
/// rules stand at distinct positions, of no other.
#[tactic(auto, using(crate::proofs::overlaps::MaskErrors::masks_are_named_once_lem))]
pub fn masks_are_named_once()
    ensures { MasksAreNamedOnce }
{}

/// And each error that names a mask is of such a rule, and lists some.
#[tactic(auto, using(crate::proofs::overlaps::MaskErrors::only_masks_are_named_lem))]
pub fn only_masks_are_named()
    ensures { OnlyMasksAreNamed }
{}

/// These are the errors that checking answers where rules stand at distinct positions.
#[tactic(auto, using(crate::proofs::overlaps::MaskErrors::check_errors_are_answered_lem))]
pub fn check_errors_are_answered()
    ensures { CheckErrorsAreAnswered }
{}

/// Of the errors that checking a well-typed program answers: each rule that is left out has one at its position, and each that
/// says so is of a rule that is left out. If no two rules stand at one position, a rule that passes a limit has exactly one.
pub fn check_errors_name_left_out()
    ensures { CheckErrorsNameLeftOut }
{}

/// Each two rules that overlap wrongly stand in exactly one overlap error that lists one of them first; each overlap error
/// lists a rule besides its first, and each further rule overlaps wrongly with the first.
pub fn check_errors_name_pairs()
    ensures { CheckErrorsNamePairs }
{}

/// And each mask is named by a shadow error, which lists exactly the rules that it shadows; if no two rules stand at one
/// position, by no other.
pub fn check_errors_name_masks()
    ensures { CheckErrorsNameMasks }
{}
