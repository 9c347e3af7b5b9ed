//! Operators whose width is an integer that isn't written: it is each of the listed ones, and what it is besides isn't followed.
ghost use Rattle.std.specs.Prelude.{◌≡◌, IfOk};
ghost use Rattle.model_questions.specs.Evaluated as E;
ghost use Rattle.model_questions.specs.Formulas as M;
ghost use Rattle.spec_cases.specs.CaseViews.{cases_of};
ghost use Rattle.spec_cases.specs.Namings.{fact_of, integer_of, operand_and, operands_of, operator_view, word_of, Makes};
ghost use Rattle.spec_cases.specs.Results.{at_size, outcome_view};

use crate::arena::Formulas;
use crate::cases::{Cases, anything};
use crate::faults::Fault;
use crate::forms::Form;
use crate::formulas::{Fact, Integer, Operand, Word};
use crate::operators::Operator;
use crate::results::{Outcome, result_of};
use crate::shapes::{Shape, shape_of};

impl Formulas {
    // An integer is this one.
    fn is_size(&mut self, size: Integer, width: u32) -> Result<Fact, Fault>
        ensures { IfOk result (λ f. Makes self.old self.new (λ v. fact_of v f ≡ E.is_size (integer_of v size) width)) }
    {
        let operands = [
            Operand::Integer(size),
            Operand::Integer(Integer::Written(width as i128)),
        ];
        Ok(self.fact_by(Operator::Equals, &operands)?)
    }

    // What an operator comes to at this width.
    fn at_size(
        &mut self,
        width: u32,
        operator: Operator,
        rest: Operand,
    ) -> Result<Cases<Form>, Fault>
        ensures { IfOk result (λ cs. Makes self.old self.new (λ v. cases_of v cs ≡ at_size (operator_view operator) width (operand_and v rest M.no_operand))) }
    {
        let operands = [Operand::Integer(Integer::Written(width as i128)), rest];
        let outcome = result_of(operator, &operands)?;
        Ok(self.came_to(operator, &operands, outcome)?)
    }

    // At each width.
    fn each_size(
        &mut self,
        widths: &[u32],
        operator: Operator,
        size: Integer,
        rest: Operand,
    ) -> Result<Cases<Form>, Fault>
        ensures { IfOk result (λ cs. Makes self.old self.new (λ v. cases_of v cs ≡ E.each_size widths.now (operator_view operator) (integer_of v size) (operand_and v rest M.no_operand))) }
    {
        match widths {
            [] => Ok(anything(self.alloc())),
            [width, more @ ..] => {
                let here = self.at_size(*width, operator, rest)?;
                let later = self.each_size(more, operator, size, rest)?;
                let is = self.is_size(size, *width)?;
                Ok(self.by_truth(is, &here, &later)?)
            }
        }
    }

    // Of two integers.
    #[tactic(auto, using(crate::proofs::AppliedSteps::case_steps))]
    fn by_size_of_integers(
        &mut self,
        widths: &[u32],
        operator: Operator,
        size: Integer,
        integer: Integer,
    ) -> Result<Cases<Form>, Fault>
        ensures { IfOk result (λ cs. Makes self.old self.new (λ v. cases_of v cs ≡ E.by_size widths.now (operator_view operator) (M.integer_and (integer_of v size) (M.integer_and (integer_of v integer) M.no_operand)))) }
    {
        match operator {
            Operator::AsWord => Ok(self.each_size(
                widths,
                operator,
                size,
                Operand::Integer(integer),
            )?),
            Operator::Equals
            | Operator::Both
            | Operator::OneOf
            | Operator::Negation
            | Operator::Implied
            | Operator::Less
            | Operator::LessOrEqual
            | Operator::Plus
            | Operator::Minus
            | Operator::Times
            | Operator::WordPlus
            | Operator::WordMinus
            | Operator::WordTimes
            | Operator::WordQuotient
            | Operator::WordRemainder
            | Operator::SignedQuotient
            | Operator::SignedRemainder
            | Operator::WordAnd
            | Operator::WordOr
            | Operator::WordXor
            | Operator::WordNot
            | Operator::WordNegated
            | Operator::ShiftedLeft
            | Operator::ShiftedRight
            | Operator::ShiftedRightSigned
            | Operator::RotatedLeft
            | Operator::RotatedRight
            | Operator::WordLess
            | Operator::WordLessOrEqual
            | Operator::SignedLess
            | Operator::SignedLessOrEqual
            | Operator::Joined
            | Operator::Bits
            | Operator::Widened
            | Operator::WidenedSigned
            | Operator::AsInteger
            | Operator::WidthOf
            | Operator::Field { .. } => Ok(anything(self.alloc())),
        }
    }

    // Of an integer and a word.
    #[tactic(auto, using(crate::proofs::AppliedSteps::case_steps))]
    fn by_size_of_word(
        &mut self,
        widths: &[u32],
        operator: Operator,
        size: Integer,
        width: u32,
        word: Word,
    ) -> Result<Cases<Form>, Fault>
        ensures { IfOk result (λ cs. Makes self.old self.new (λ v. cases_of v cs ≡ E.by_size widths.now (operator_view operator) (M.integer_and (integer_of v size) (M.word_and width (word_of v word) M.no_operand)))) }
    {
        match operator {
            Operator::Widened | Operator::WidenedSigned => Ok(self.each_size(
                widths,
                operator,
                size,
                Operand::Word(width, word),
            )?),
            Operator::Equals
            | Operator::Both
            | Operator::OneOf
            | Operator::Negation
            | Operator::Implied
            | Operator::Less
            | Operator::LessOrEqual
            | Operator::Plus
            | Operator::Minus
            | Operator::Times
            | Operator::WordPlus
            | Operator::WordMinus
            | Operator::WordTimes
            | Operator::WordQuotient
            | Operator::WordRemainder
            | Operator::SignedQuotient
            | Operator::SignedRemainder
            | Operator::WordAnd
            | Operator::WordOr
            | Operator::WordXor
            | Operator::WordNot
            | Operator::WordNegated
            | Operator::ShiftedLeft
            | Operator::ShiftedRight
            | Operator::ShiftedRightSigned
            | Operator::RotatedLeft
            | Operator::RotatedRight
            | Operator::WordLess
            | Operator::WordLessOrEqual
            | Operator::SignedLess
            | Operator::SignedLessOrEqual
            | Operator::Joined
            | Operator::Bits
            | Operator::AsWord
            | Operator::AsInteger
            | Operator::WidthOf
            | Operator::Field { .. } => Ok(anything(self.alloc())),
        }
    }

    /// An operator whose width is an integer that isn't written.
    ///
    /// # Errors
    ///
    /// `TooGreat` where a width is past 2 to 32, else as `made_fact`.
    #[tactic(auto, using(crate::proofs::AppliedSteps::size_steps))]
    pub fn by_size(
        &mut self,
        widths: &[u32],
        operator: Operator,
        operands: &[Operand],
    ) -> Result<Cases<Form>, Fault>
        ensures { IfOk result (λ cs. Makes self.old self.new (λ v. cases_of v cs ≡ E.by_size widths.now (operator_view operator) (operands_of v operands.now))) }
    {
        match shape_of(operands) {
            Shape::TwoIntegers(size, integer) => {
                Ok(self.by_size_of_integers(widths, operator, size, integer)?)
            }
            Shape::IntegerWord(size, width, word) => {
                Ok(self.by_size_of_word(widths, operator, size, width, word)?)
            }
            Shape::OneFact(_)
            | Shape::TwoFacts(_, _)
            | Shape::OneWord(_, _)
            | Shape::TwoWords(_, _, _, _)
            | Shape::WordInteger(_, _, _)
            | Shape::TwoIntegersWord(_, _, _, _)
            | Shape::Others => Ok(anything(self.alloc())),
        }
    }

    /// What an operator comes to, by each listed width where its own isn't written.
    ///
    /// # Errors
    ///
    /// As `by_size`.
    pub fn followed(
        &mut self,
        widths: &[u32],
        operator: Operator,
        operands: &[Operand],
        outcome: Outcome,
    ) -> Result<Cases<Form>, Fault>
        ensures { IfOk result (λ cs. Makes self.old self.new (λ v. cases_of v cs ≡ E.followed widths.now (operator_view operator) (operands_of v operands.now) (outcome_view outcome))) }
    {
        match outcome {
            Outcome::Unfollowed => Ok(self.by_size(widths, operator, operands)?),
            Outcome::Nothing | Outcome::Truth | Outcome::Integer | Outcome::Word(_) => {
                Ok(self.came_to(operator, operands, outcome)?)
            }
        }
    }
}
