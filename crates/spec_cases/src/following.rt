//! What comes of each case, as one.
ghost use Rattle.std.specs.Prelude.{◌≡◌, map, IfOk};
ghost use Rattle.model_questions.specs.Forms as M;
ghost use Rattle.spec_cases.specs.Namings.{fact_of, Makes};
ghost use Rattle.spec_cases.specs.CaseViews.{guarded, guarded_each};
ghost use Rattle.spec_cases.specs.Following.{joined_parts, then_parts};

use crate::arena::Formulas;
use crate::cases::{Case, Cases};
use crate::faults::Fault;
use crate::formulas::Fact;
use std::alloc::Global;

// The cases of all parts.
fn gathered<X: Copy>(alloc: Global, parts: &[Cases<X>]) -> Result<Vec<Case<X>>, Fault>
    ensures { IfOk result (λ cs. (v : _) → guarded_each v cs.items ≡ (joined_parts (map (guarded v) parts.now)).cases) }
{
    let mut out = Vec::new(alloc);
    for part in parts {
        out.extend_from_slice(&part.cases)?;
    }
    Ok(out)
}

impl Formulas {
    // Where anything may come of one of the parts.
    fn rests<X: Copy>(&mut self, parts: &[Cases<X>]) -> Result<Fact, Fault>
        ensures { IfOk result (λ f. Makes self.old self.new (λ v. fact_of v f ≡ (joined_parts (map (guarded v) parts.now)).rest)) }
    {
        match parts {
            [] => Ok(Fact::Known(false)),
            [part, more @ ..] => {
                let later = self.rests(more)?;
                Ok(self.one_of(part.rest, later)?)
            }
        }
    }

    /// What comes of cases: the parts are what comes of each, under its guard.
    ///
    /// # Errors
    ///
    /// As `made_fact`.
    pub fn then_parts<X: Copy>(&mut self, rest: Fact, parts: &[Cases<X>]) -> Result<Cases<X>, Fault>
        ensures { IfOk result (λ cs. Makes self.old self.new (λ v. guarded v cs ≡ then_parts (fact_of v rest) (map (guarded v) parts.now))) }
    {
        let cases = gathered(self.alloc(), parts)?;
        let later = self.rests(parts)?;
        let rest = self.one_of(rest, later)?;
        Ok(Cases { cases, rest })
    }
}
