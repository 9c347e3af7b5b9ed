//! Whether a case surely gives true, or perhaps.
ghost use Rattle.std.specs.Prelude.{◌≡◌, IfOk};
ghost use Rattle.model_questions.specs.Forms as M;
ghost use Rattle.spec_cases.specs.Namings.{fact_of, form_of, Makes};
ghost use Rattle.spec_cases.specs.CaseViews.{cases_of, form_cases};

use crate::arena::Formulas;
use crate::cases::{Case, Cases};
use crate::faults::Fault;
use crate::forms::Form;
use crate::formulas::Fact;

impl Form {
    // Where it is true.
    fn truth(self) -> Fact
        ensures { (v : _) → fact_of v result ≡ M.truth_of (form_of v self) }
    {
        match self {
            Form::Fact(fact) => fact,
            Form::Integer(_)
            | Form::Word(_, _)
            | Form::Variant { .. }
            | Form::Struct { .. }
            | Form::AnyOf { .. }
            | Form::SomeAt { .. } => Fact::Known(false),
        }
    }

    // Where it may be true.
    fn possible_truth(self) -> Fact
        ensures { (v : _) → fact_of v result ≡ M.possible_truth (form_of v self) }
    {
        match self {
            Form::Fact(fact) => fact,
            Form::AnyOf { .. } | Form::SomeAt { .. } => Fact::Known(true),
            Form::Integer(_) | Form::Word(_, _) | Form::Variant { .. } | Form::Struct { .. } =>
                Fact::Known(false),
        }
    }
}

impl Formulas {
    // Where one of the cases gives true.
    fn is_true(&mut self, cases: &[Case<Form>]) -> Result<Fact, Fault>
        ensures { IfOk result (λ f. Makes self.old self.new (λ v. fact_of v f ≡ M.is_true (form_cases v cases.now))) }
    {
        match cases {
            [] => Ok(Fact::Known(false)),
            [case, rest @ ..] => {
                let here = self.both_of(case.guard, case.gives.truth())?;
                let later = self.is_true(rest)?;
                Ok(self.one_of(here, later)?)
            }
        }
    }

    // Where one of the cases may give true.
    fn may_be_true(&mut self, cases: &[Case<Form>]) -> Result<Fact, Fault>
        ensures { IfOk result (λ f. Makes self.old self.new (λ v. fact_of v f ≡ M.may_be_true (form_cases v cases.now))) }
    {
        match cases {
            [] => Ok(Fact::Known(false)),
            [case, rest @ ..] => {
                let here = self.both_of(case.guard, case.gives.possible_truth())?;
                let later = self.may_be_true(rest)?;
                Ok(self.one_of(here, later)?)
            }
        }
    }

    /// Where a case surely gives true.
    ///
    /// # Errors
    ///
    /// As `made_fact`.
    pub fn surely(&mut self, cases: &Cases<Form>) -> Result<Fact, Fault>
        ensures { IfOk result (λ f. Makes self.old self.new (λ v. fact_of v f ≡ M.surely (cases_of v cases.now))) }
    {
        self.is_true(&cases.cases)
    }

    /// Where a case may give true, or anything may come of it.
    ///
    /// # Errors
    ///
    /// As `made_fact`.
    pub fn perhaps(&mut self, cases: &Cases<Form>) -> Result<Fact, Fault>
        ensures { IfOk result (λ f. Makes self.old self.new (λ v. fact_of v f ≡ M.perhaps (cases_of v cases.now))) }
    {
        let possible = self.may_be_true(&cases.cases)?;
        Ok(self.one_of(possible, cases.rest)?)
    }
}
