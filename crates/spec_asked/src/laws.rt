//! Laws of what is asked of rules. A function here has no code: its clause is a law, and its proof stands in `proofs/`.
ghost use Rattle.spec_asked.specs.Asked.{AskedRulesAreValid, AskedRulesAreValidBelow};
ghost use Rattle.spec_asked.specs.Lowered.{RefutedLoweringsComputeAsSaid, RefutedRulesAreValid, RefutedTermsComputeAsSaid};

use laws_questions::{below_ask_enough, questions_ask_enough};
use laws_specs::{lowered_sets_compute_as_said, programs_of_sets_compute_as_said};

/// Where no question that was made of a rule of a set can be satisfied, the rule's condition is valid.
pub fn asked_rules_are_valid()
    ensures { AskedRulesAreValid }
{
    questions_ask_enough();
}

/// Where none can be satisfied beside the facts that exclude rules of greater priority, it is valid where no rule of greater priority matches.
pub fn asked_rules_are_valid_below()
    ensures { AskedRulesAreValidBelow }
{
    below_ask_enough();
}

/// So of a rule that was lowered, by what `lowered_questions` answers.
pub fn refuted_rules_are_valid()
    ensures { RefutedRulesAreValid }
{
    asked_rules_are_valid();
}

/// Where all questions about all rules of a term that was lowered are refuted, runs of its tree answer what its spec says.
pub fn refuted_terms_compute_as_said()
    ensures { RefutedTermsComputeAsSaid }
{
    refuted_rules_are_valid();
    lowered_sets_compute_as_said();
}

/// Where that is so of all terms that aren't multi, whole runs of the trees that `lower` answers, and of their code, answer as specs say.
pub fn refuted_lowerings_compute_as_said()
    ensures { RefutedLoweringsComputeAsSaid }
{
    refuted_rules_are_valid();
    programs_of_sets_compute_as_said();
}
