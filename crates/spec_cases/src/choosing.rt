//! A choice by a truth.
ghost use Rattle.std.specs.Prelude.{◌≡◌, IfOk};
ghost use Rattle.model_questions.specs.Evaluated as E;
ghost use Rattle.model_questions.specs.Forms as MF;
ghost use Rattle.model_questions.specs.Formulas as M;
ghost use Rattle.spec_cases.specs.CaseViews.{cases_of};
ghost use Rattle.spec_cases.specs.Namings.{fact_of, form_of, Makes};

use crate::arena::Formulas;
use crate::cases::{Cases, anything};
use crate::faults::Fault;
use crate::forms::Form;
use crate::formulas::Fact;

impl Formulas {
    /// The first where the fact is so, else the second.
    ///
    /// # Errors
    ///
    /// As `made_fact`.
    #[tactic(auto, using(crate::proofs::AppliedSteps::under_steps))]
    pub fn by_truth(
        &mut self,
        fact: Fact,
        x: &Cases<Form>,
        y: &Cases<Form>,
    ) -> Result<Cases<Form>, Fault>
        ensures { IfOk result (λ cs. Makes self.old self.new (λ v. cases_of v cs
            ≡ MF.joined_cases (MF.under (fact_of v fact) (cases_of v x.now)) (MF.under (M.none_of (fact_of v fact)) (cases_of v y.now)))) }
    {
        let not = self.none_of(fact)?;
        let first = self.under(fact, x)?;
        let second = self.under(not, y)?;
        Ok(self.joined_cases(first, &second)?)
    }

    /// The first where the value is true, else the second. Where it isn't known to be a truth, anything.
    ///
    /// # Errors
    ///
    /// As `made_fact`.
    #[tactic(auto, using(crate::proofs::AppliedSteps::case_steps))]
    pub fn by_fact(
        &mut self,
        x: &Cases<Form>,
        y: &Cases<Form>,
        form: Form,
    ) -> Result<Cases<Form>, Fault>
        ensures { IfOk result (λ cs. Makes self.old self.new (λ v. cases_of v cs ≡ E.by_fact (cases_of v x.now) (cases_of v y.now) (form_of v form))) }
    {
        match form {
            Form::Fact(fact) => Ok(self.by_truth(fact, x, y)?),
            Form::Integer(_)
            | Form::Word(_, _)
            | Form::Variant { .. }
            | Form::Struct { .. }
            | Form::AnyOf { .. }
            | Form::SomeAt { .. } => Ok(anything(self.alloc())),
        }
    }
}
