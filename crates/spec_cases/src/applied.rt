//! What an operator gives, by formulas.
ghost use Rattle.std.specs.Prelude.{◌≡◌, IfOk};
ghost use Rattle.model_questions.specs.Evaluated as E;
ghost use Rattle.model_questions.specs.Formulas as M;
ghost use Rattle.spec_cases.specs.CaseViews.{cases_of};
ghost use Rattle.spec_cases.specs.Namings.{fact_of, integer_of, operands_of, operator_view, word_of, Makes};
ghost use Rattle.spec_cases.specs.Results.{outcome_view};

use crate::arena::Formulas;
use crate::cases::{Cases, anything, nothing_said, one_case};
use crate::faults::Fault;
use crate::forms::Form;
use crate::formulas::{Fact, FactNode, Integer, IntegerNode, Operand, Word, WordNode};
use crate::operators::Operator;
use crate::results::Outcome;
use crate::shapes::{Shape, shape_of};

impl Formulas {
    // A truth that an operator gives.
    pub(crate) fn fact_by(
        &mut self,
        operator: Operator,
        operands: &[Operand],
    ) -> Result<Fact, Fault>
        ensures { IfOk result (λ f. Makes self.old self.new (λ v. fact_of v f ≡ M.fact_by (operator_view operator) (operands_of v operands.now))) }
    {
        let list = Vec::from_slice(self.alloc(), operands)?;
        Ok(self.made_fact(FactNode::By(operator, list))?)
    }

    // Of a truth.
    fn fact_from_one(&mut self, operator: Operator, a: Fact) -> Result<Fact, Fault>
        ensures { IfOk result (λ f. Makes self.old self.new (λ v. fact_of v f ≡ E.fact_from (operator_view operator) (M.fact_and (fact_of v a) M.no_operand))) }
    {
        match operator {
            Operator::Negation => Ok(self.none_of(a)?),
            Operator::Equals
            | Operator::Both
            | Operator::OneOf
            | Operator::Implied
            | Operator::Less
            | Operator::LessOrEqual
            | Operator::Plus
            | Operator::Minus
            | Operator::Times
            | Operator::WordPlus
            | Operator::WordMinus
            | Operator::WordTimes
            | Operator::WordQuotient
            | Operator::WordRemainder
            | Operator::SignedQuotient
            | Operator::SignedRemainder
            | Operator::WordAnd
            | Operator::WordOr
            | Operator::WordXor
            | Operator::WordNot
            | Operator::WordNegated
            | Operator::ShiftedLeft
            | Operator::ShiftedRight
            | Operator::ShiftedRightSigned
            | Operator::RotatedLeft
            | Operator::RotatedRight
            | Operator::WordLess
            | Operator::WordLessOrEqual
            | Operator::SignedLess
            | Operator::SignedLessOrEqual
            | Operator::Joined
            | Operator::Bits
            | Operator::Widened
            | Operator::WidenedSigned
            | Operator::AsWord
            | Operator::AsInteger
            | Operator::WidthOf
            | Operator::Field { .. } => { Ok(self.fact_by(operator, &[Operand::Fact(a)])?) }
        }
    }

    // Of two truths.
    fn fact_from_two(&mut self, operator: Operator, a: Fact, b: Fact) -> Result<Fact, Fault>
        ensures { IfOk result (λ f. Makes self.old self.new (λ v. fact_of v f ≡ E.fact_from (operator_view operator) (M.fact_and (fact_of v a) (M.fact_and (fact_of v b) M.no_operand)))) }
    {
        match operator {
            Operator::Both => Ok(self.both_of(a, b)?),
            Operator::OneOf => Ok(self.one_of(a, b)?),
            Operator::Implied => {
                let not = self.none_of(a)?;
                Ok(self.one_of(not, b)?)
            }
            Operator::Equals => Ok(self.made_fact(FactNode::Same(a, b))?),
            Operator::Negation
            | Operator::Less
            | Operator::LessOrEqual
            | Operator::Plus
            | Operator::Minus
            | Operator::Times
            | Operator::WordPlus
            | Operator::WordMinus
            | Operator::WordTimes
            | Operator::WordQuotient
            | Operator::WordRemainder
            | Operator::SignedQuotient
            | Operator::SignedRemainder
            | Operator::WordAnd
            | Operator::WordOr
            | Operator::WordXor
            | Operator::WordNot
            | Operator::WordNegated
            | Operator::ShiftedLeft
            | Operator::ShiftedRight
            | Operator::ShiftedRightSigned
            | Operator::RotatedLeft
            | Operator::RotatedRight
            | Operator::WordLess
            | Operator::WordLessOrEqual
            | Operator::SignedLess
            | Operator::SignedLessOrEqual
            | Operator::Joined
            | Operator::Bits
            | Operator::Widened
            | Operator::WidenedSigned
            | Operator::AsWord
            | Operator::AsInteger
            | Operator::WidthOf
            | Operator::Field { .. } => {
                Ok(self.fact_by(operator, &[Operand::Fact(a), Operand::Fact(b)])?)
            }
        }
    }

    /// A truth that an operator gives, without facts that change nothing.
    ///
    /// # Errors
    ///
    /// As `made_fact`.
    #[tactic(auto, using(crate::proofs::AppliedSteps::fact_steps))]
    pub fn fact_from(&mut self, operator: Operator, operands: &[Operand]) -> Result<Fact, Fault>
        ensures { IfOk result (λ f. Makes self.old self.new (λ v. fact_of v f ≡ E.fact_from (operator_view operator) (operands_of v operands.now))) }
    {
        match shape_of(operands) {
            Shape::OneFact(a) => Ok(self.fact_from_one(operator, a)?),
            Shape::TwoFacts(a, b) => Ok(self.fact_from_two(operator, a, b)?),
            Shape::TwoIntegers(_, _)
            | Shape::OneWord(_, _)
            | Shape::TwoWords(_, _, _, _)
            | Shape::WordInteger(_, _, _)
            | Shape::IntegerWord(_, _, _)
            | Shape::TwoIntegersWord(_, _, _, _)
            | Shape::Others => Ok(self.fact_by(operator, operands)?),
        }
    }

    // An integer that an operator gives.
    fn integer_by(&mut self, operator: Operator, operands: &[Operand]) -> Result<Integer, Fault>
        ensures { IfOk result (λ z. Makes self.old self.new (λ v. integer_of v z ≡ M.integer_by (operator_view operator) (operands_of v operands.now))) }
    {
        let list = Vec::from_slice(self.alloc(), operands)?;
        Ok(self.made_integer(IntegerNode::By(operator, list))?)
    }

    // Of a word.
    fn integer_from_word(
        &mut self,
        operator: Operator,
        width: u32,
        word: Word,
    ) -> Result<Integer, Fault>
        ensures { IfOk result (λ z. Makes self.old self.new (λ v. integer_of v z ≡ E.integer_from (operator_view operator) (M.word_and width (word_of v word) M.no_operand))) }
    {
        match operator {
            Operator::WidthOf => Ok(Integer::Written(width as i128)),
            Operator::Equals
            | Operator::Both
            | Operator::OneOf
            | Operator::Negation
            | Operator::Implied
            | Operator::Less
            | Operator::LessOrEqual
            | Operator::Plus
            | Operator::Minus
            | Operator::Times
            | Operator::WordPlus
            | Operator::WordMinus
            | Operator::WordTimes
            | Operator::WordQuotient
            | Operator::WordRemainder
            | Operator::SignedQuotient
            | Operator::SignedRemainder
            | Operator::WordAnd
            | Operator::WordOr
            | Operator::WordXor
            | Operator::WordNot
            | Operator::WordNegated
            | Operator::ShiftedLeft
            | Operator::ShiftedRight
            | Operator::ShiftedRightSigned
            | Operator::RotatedLeft
            | Operator::RotatedRight
            | Operator::WordLess
            | Operator::WordLessOrEqual
            | Operator::SignedLess
            | Operator::SignedLessOrEqual
            | Operator::Joined
            | Operator::Bits
            | Operator::Widened
            | Operator::WidenedSigned
            | Operator::AsWord
            | Operator::AsInteger
            | Operator::Field { .. } => {
                Ok(self.integer_by(operator, &[Operand::Word(width, word)])?)
            }
        }
    }

    /// An integer that an operator gives: a width is known.
    ///
    /// # Errors
    ///
    /// As `made_fact`.
    #[tactic(auto, using(crate::proofs::AppliedSteps::integer_steps))]
    pub fn integer_from(
        &mut self,
        operator: Operator,
        operands: &[Operand],
    ) -> Result<Integer, Fault>
        ensures { IfOk result (λ z. Makes self.old self.new (λ v. integer_of v z ≡ E.integer_from (operator_view operator) (operands_of v operands.now))) }
    {
        match shape_of(operands) {
            Shape::OneWord(width, word) => Ok(self.integer_from_word(operator, width, word)?),
            Shape::OneFact(_)
            | Shape::TwoFacts(_, _)
            | Shape::TwoIntegers(_, _)
            | Shape::TwoWords(_, _, _, _)
            | Shape::WordInteger(_, _, _)
            | Shape::IntegerWord(_, _, _)
            | Shape::TwoIntegersWord(_, _, _, _)
            | Shape::Others => Ok(self.integer_by(operator, operands)?),
        }
    }

    /// What an operator comes to.
    ///
    /// # Errors
    ///
    /// As `made_fact`.
    #[tactic(auto, using(crate::proofs::AppliedSteps::case_steps))]
    pub fn came_to(
        &mut self,
        operator: Operator,
        operands: &[Operand],
        outcome: Outcome,
    ) -> Result<Cases<Form>, Fault>
        ensures { IfOk result (λ cs. Makes self.old self.new (λ v. cases_of v cs ≡ E.came_to (operator_view operator) (operands_of v operands.now) (outcome_view outcome))) }
    {
        match outcome {
            Outcome::Nothing => Ok(nothing_said(self.alloc())),
            Outcome::Truth => {
                let fact = self.fact_from(operator, operands)?;
                Ok(one_case(self.alloc(), Form::Fact(fact))?)
            }
            Outcome::Integer => {
                let integer = self.integer_from(operator, operands)?;
                Ok(one_case(self.alloc(), Form::Integer(integer))?)
            }
            Outcome::Word(width) => {
                let list = Vec::from_slice(self.alloc(), operands)?;
                let word = self.made_word(WordNode::By(operator, list))?;
                Ok(one_case(self.alloc(), Form::Word(width, word))?)
            }
            Outcome::Unfollowed => Ok(anything(self.alloc())),
        }
    }
}
