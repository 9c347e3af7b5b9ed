//! Values under guards: what an expression comes to.
ghost use Rattle.std.specs.Prelude.{◌≡◌, ◌++◌, [], IfOk, OnOk};
ghost use Rattle.model_questions.specs.Forms as M;
ghost use Rattle.spec_cases.specs.Namings.{fact_of, Makes};
ghost use Rattle.spec_cases.specs.CaseViews.{guarded, guarded_each};

use crate::arena::Formulas;
use crate::faults::Fault;
use crate::formulas::Fact;
use std::alloc::Global;

/// The most cases that are joined with others. Each is gone through by a call in a call, and what has more would be no question that a
/// solver answers.
pub const MOST_CASES: usize = 1000;

/// A value under a guard.
#[derive(Clone, Copy)]
pub struct Case<X> {
    /// The guard.
    pub guard: Fact,
    /// What it gives where the guard is so.
    pub gives: X,
}

/// What an expression comes to. Where no guard is so it says nothing, unless the rest is so: then anything may come of it.
#[derive(Drop)]
pub struct Cases<X> {
    /// The values.
    pub cases: Vec<Case<X>>,
    /// Where anything may come of it.
    pub rest: Fact,
}

/// Nothing is said.
pub fn nothing_said<X>(alloc: Global) -> Cases<X>
    ensures { (v : _) → guarded v result ≡ M.nothing_said }
{
    Cases {
        cases: Vec::new(alloc),
        rest: Fact::Known(false),
    }
}

/// Anything may come of it.
pub fn anything<X>(alloc: Global) -> Cases<X>
    ensures { (v : _) → guarded v result ≡ M.anything }
{
    Cases {
        cases: Vec::new(alloc),
        rest: Fact::Known(true),
    }
}

/// One value.
///
/// # Errors
///
/// `Memory` where memory is refused.
pub fn one_case<X: Copy>(alloc: Global, gives: X) -> Result<Cases<X>, Fault>
    ensures { IfOk result (λ cs. (v : _) → guarded v cs ≡ M.one_case gives) }
{
    let mut cases = Vec::new(alloc);
    cases.push(Case {
        guard: Fact::Known(true),
        gives,
    })?;
    Ok(Cases {
        cases,
        rest: Fact::Known(false),
    })
}

// Adds a value under a guard, unless it is never taken.
#[tactic(auto, using(crate::proofs::CaseSteps::guarded_steps))]
pub(crate) fn add_case<X: Copy>(guard: Fact, gives: X, out: &mut Vec<Case<X>>) -> Result<(), Fault>
    ensures { OnOk result ((v : _) → guarded_each v out.new.items ≡ guarded_each v out.old.items ++ M.case_under (fact_of v guard) gives []) }
{
    if guard.is_false() {
        Ok(())
    } else {
        out.push(Case { guard, gives })?;
        Ok(())
    }
}

impl Formulas {
    // Each under a further guard.
    fn each_under<X: Copy>(&mut self, guard: Fact, cases: &[Case<X>]) -> Result<Vec<Case<X>>, Fault>
        ensures { IfOk result (λ cs. Makes self.old self.new (λ v. guarded_each v cs.items ≡ M.each_under (fact_of v guard) (guarded_each v cases.now))) }
    {
        let mut out = Vec::new(self.alloc());
        for case in cases {
            let both = self.both_of(guard, case.guard)?;
            add_case(both, case.gives, &mut out)?;
        }
        Ok(out)
    }

    /// Under a further guard.
    ///
    /// # Errors
    ///
    /// As `made_fact`.
    pub fn under<X: Copy>(&mut self, guard: Fact, cases: &Cases<X>) -> Result<Cases<X>, Fault>
        ensures { IfOk result (λ cs. Makes self.old self.new (λ v. guarded v cs ≡ M.under (fact_of v guard) (guarded v cases.now))) }
    {
        let each = self.each_under(guard, &cases.cases)?;
        let rest = self.both_of(guard, cases.rest)?;
        Ok(Cases { cases: each, rest })
    }

    /// These cases and those.
    ///
    /// # Errors
    ///
    /// `TooMany` where there are more than `MOST_CASES` of one kind, else as `made_fact`.
    pub fn joined_cases<X: Copy>(&mut self, a: Cases<X>, b: &Cases<X>) -> Result<Cases<X>, Fault>
        ensures { IfOk result (λ cs. Makes self.old self.new (λ v. guarded v cs ≡ M.joined_cases (guarded v a) (guarded v b.now))) }
    {
        if a.cases.len() > MOST_CASES || b.cases.len() > MOST_CASES {
            return Err(Fault::TooMany);
        }
        let rest = self.one_of(a.rest, b.rest)?;
        let mut cases = a.cases;
        cases.extend_from_slice(&b.cases)?;
        Ok(Cases { cases, rest })
    }
}
