//! Laws of verdicts. A function here has no code: its clause is a law, and its proof stands in `proofs/`.
ghost use Rattle.spec_questions.specs.Right.{RightLoweringsComputeAsSaid, RightRulesAreValid, RightRulesAreValidBelow};

use laws_specs::programs_of_sets_compute_as_said;
use spec_asked::laws::{asked_rules_are_valid, asked_rules_are_valid_below};

/// Where a rule is told right by all questions about its own condition, and no rule of greater priority is excluded, the condition is
/// valid, if solvers are right and the text of a question says what its facts say.
pub fn right_rules_are_valid()
    ensures { RightRulesAreValid }
{
    asked_rules_are_valid();
}

/// Where rules of greater priority are excluded, it is valid where no rule of greater priority matches.
pub fn right_rules_are_valid_below()
    ensures { RightRulesAreValidBelow }
{
    asked_rules_are_valid_below();
}

/// Where each rule of each term that isn't multi is told right so, whole runs of the trees that `lower` answers, and of their code, answer
/// as specs say; if some are told right only below others, where atoms stand for integers and words.
pub fn right_lowerings_compute_as_said()
    ensures { RightLoweringsComputeAsSaid }
{
    right_rules_are_valid();
    right_rules_are_valid_below();
    programs_of_sets_compute_as_said();
}
