//! Truths made of others, without facts that change nothing.
ghost use Rattle.std.specs.Prelude.{◌≡◌, IfOk};
ghost use Rattle.model_questions.specs.Formulas as M;
ghost use Rattle.spec_cases.specs.Namings.{fact_of, Makes};

use crate::arena::Formulas;
use crate::faults::Fault;
use crate::formulas::{Fact, FactNode};

impl Formulas {
    /// Both, of which the first isn't known.
    ///
    /// # Errors
    ///
    /// As `made_fact`.
    pub fn and_last(&mut self, a: Fact, b: Fact) -> Result<Fact, Fault>
        ensures { IfOk result (λ f. Makes self.old self.new (λ v. fact_of v f ≡ M.and_last (fact_of v a) (fact_of v b))) }
    {
        match b.known() {
            Some(true) => Ok(a),
            Some(false) => Ok(Fact::Known(false)),
            None => self.made_fact(FactNode::Both(a, b)),
        }
    }

    /// Both.
    ///
    /// # Errors
    ///
    /// As `made_fact`.
    pub fn both_of(&mut self, a: Fact, b: Fact) -> Result<Fact, Fault>
        ensures { IfOk result (λ f. Makes self.old self.new (λ v. fact_of v f ≡ M.both_of (fact_of v a) (fact_of v b))) }
    {
        match a.known() {
            Some(true) => Ok(b),
            Some(false) => Ok(Fact::Known(false)),
            None => self.and_last(a, b),
        }
    }

    /// One or both, of which the first isn't known.
    ///
    /// # Errors
    ///
    /// As `made_fact`.
    pub fn or_last(&mut self, a: Fact, b: Fact) -> Result<Fact, Fault>
        ensures { IfOk result (λ f. Makes self.old self.new (λ v. fact_of v f ≡ M.or_last (fact_of v a) (fact_of v b))) }
    {
        match b.known() {
            Some(true) => Ok(Fact::Known(true)),
            Some(false) => Ok(a),
            None => self.made_fact(FactNode::One(a, b)),
        }
    }

    /// One or both.
    ///
    /// # Errors
    ///
    /// As `made_fact`.
    pub fn one_of(&mut self, a: Fact, b: Fact) -> Result<Fact, Fault>
        ensures { IfOk result (λ f. Makes self.old self.new (λ v. fact_of v f ≡ M.one_of (fact_of v a) (fact_of v b))) }
    {
        match a.known() {
            Some(true) => Ok(Fact::Known(true)),
            Some(false) => Ok(b),
            None => self.or_last(a, b),
        }
    }

    /// It isn't so.
    ///
    /// # Errors
    ///
    /// As `made_fact`.
    pub fn none_of(&mut self, a: Fact) -> Result<Fact, Fault>
        ensures { IfOk result (λ f. Makes self.old self.new (λ v. fact_of v f ≡ M.none_of (fact_of v a))) }
    {
        match a.known() {
            Some(truth) => Ok(Fact::Known(!truth)),
            None => self.made_fact(FactNode::No(a)),
        }
    }
}
