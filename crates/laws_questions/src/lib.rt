//! Laws of questions: where none about a rule can be satisfied, its condition is valid; and where solvers refute all of them, runs are as
//! specs say.
//!
//! A function here has no code, or calls the laws that its proof rests on: its clause is a law, and its proof stands in
//! `proofs/`.
#![tactic(auto)]

ghost use Rattle.laws_questions.specs.BelowLaws.{BelowAskEnough};
ghost use Rattle.laws_questions.specs.EnoughLaws.{QuestionsAskEnough, RefutedProgramsComputeAsSaid};

use laws_specs::programs_of_sets_compute_as_said;

/// Where no question about a condition can be satisfied, the condition is valid: of each spec, each rule and each plan of splits.
pub fn questions_ask_enough()
    ensures { QuestionsAskEnough }
{}

/// So where solvers are right, and refute each question about each rule, whole runs of the trees that lowering gives of accepted
/// definitions, and of their code, answer as specs say.
pub fn refuted_programs_compute_as_said()
    ensures { RefutedProgramsComputeAsSaid }
{
    questions_ask_enough();
    programs_of_sets_compute_as_said();
}

/// Where no question about a rule can be satisfied beside facts that say that rules of greater priority don't match, the condition is valid
/// where no rule of greater priority matches.
pub fn below_ask_enough()
    ensures { BelowAskEnough }
{}
