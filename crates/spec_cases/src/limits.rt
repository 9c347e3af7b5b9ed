//! How many questions are made, and why they aren't.
ghost use Rattle.std.specs.Prelude.{◌≡◌, ◌∷◌, ◌++◌, [], OnOk};
ghost use Rattle.spec_cases.specs.declared.limits.AskingFault.TheVariants.{Formula};

use crate::faults::Fault;
use crate::trails::Trail;

/// The most branches that are followed: each width of each place that is split begins one. What ends in no question counts too, so that
/// asking comes to an end where many places are split.
pub const MOST_BRANCHES: usize = 2000;

/// The most questions that are made: a solver has to answer each.
pub const MOST_QUESTIONS: usize = 2000;

/// Why questions aren't made.
pub enum AskingFault {
    /// A formula isn't made.
    Formula(Fault),
    /// There would be more questions, or more branches, than are made.
    TooMany,
}

impl From<Fault> for AskingFault {
    ghost from_gives = { λ a e. e ≡ Formula a };

    fn from(e: Fault) -> AskingFault {
        AskingFault::Formula(e)
    }
}

impl Drop for AskingFault {
    fn drop(self) {
        match self {
            AskingFault::Formula(_) => {}
            AskingFault::TooMany => {}
        }
    }
}

fn push_question(out: &mut Vec<Trail>, end: Trail) -> Result<(), Fault>
    ensures { OnOk result (out.new.items ≡ out.old.items ++ end ∷ []) }
{
    out.push(end)?;
    Ok(())
}

// Adds a question.
pub(crate) fn add_question(out: &mut Vec<Trail>, end: Trail) -> Result<(), AskingFault>
    ensures { OnOk result (out.new.items ≡ out.old.items ++ end ∷ []) }
{
    if out.len() >= MOST_QUESTIONS {
        return Err(AskingFault::TooMany);
    }
    Ok(push_question(out, end)?)
}
