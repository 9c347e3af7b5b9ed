//! What an operator comes to on values.
ghost use Rattle.std.specs.Prelude.{◌≡◌, Some, map, option_map, slice_get, IfOk};
ghost use Rattle.laws_specs.specs.Words as D;
ghost use Rattle.model_questions.specs.Evaluated as E;
ghost use Rattle.model_questions.specs.Formulas as M;
ghost use Rattle.model_questions.specs.Forms as MF;
ghost use Rattle.spec_cases.specs.CaseViews.{cases_of};
ghost use Rattle.spec_cases.specs.Fitting.{with_operand};
ghost use Rattle.spec_cases.specs.Literals.{literal_view};
ghost use Rattle.spec_cases.specs.Namings.{form_of, forms_of, operands_of, operator_view, Makes};

use crate::arena::Formulas;
use crate::cases::{Cases, anything, nothing_said, one_case};
use crate::computing::applied;
use crate::faults::Fault;
use crate::forms::{FieldsId, Form};
use crate::formulas::Operand;
use crate::literals::{Literal, literals};
use crate::operators::Operator;
use crate::results::result_of;
use std::alloc::Global;

impl Form {
    // What it is as an operand, where it is plain.
    fn operand(self) -> Option<Operand>
        ensures { (v : _) (rest : _) → E.operands (MF.form_and (form_of v self) rest) ≡ with_operand v result (E.operands rest) }
    {
        match self {
            Form::Fact(fact) => Some(Operand::Fact(fact)),
            Form::Integer(integer) => Some(Operand::Integer(integer)),
            Form::Word(width, word) => Some(Operand::Word(width, word)),
            Form::Variant { .. } | Form::Struct { .. } | Form::AnyOf { .. } | Form::SomeAt { .. } =>
                None,
        }
    }
}

/// Plain forms as operands.
///
/// # Errors
///
/// `Memory` where memory is refused.
pub fn operands(alloc: Global, forms: &[Form]) -> Result<Option<Vec<Operand>>, Fault>
    ensures { IfOk result (λ o. (v : _) → E.operands (forms_of v forms.now) ≡ option_map (λ l. operands_of v l.items) o) }
{
    match forms {
        [] => Ok(Some(Vec::new(alloc))),
        [first, rest @ ..] => match first.operand() {
            None => Ok(None),
            Some(operand) => Ok(operands_with(alloc, operand, operands(alloc, rest)?)?),
        },
    }
}

// One before others.
fn operands_with(
    alloc: Global,
    operand: Operand,
    later: Option<Vec<Operand>>,
) -> Result<Option<Vec<Operand>>, Fault>
    ensures { IfOk result (λ o. (v : _) → option_map (λ l. operands_of v l.items) o ≡ with_operand v (Some operand) (option_map (λ l. operands_of v l.items) later)) }
{
    match later {
        None => Ok(None),
        Some(more) => {
            let mut all = Vec::new(alloc);
            all.push(operand)?;
            all.extend_from_slice(&more)?;
            Ok(Some(all))
        }
    }
}

// What is written as a case.
#[tactic(auto, using(crate::proofs::AppliedSteps::case_steps))]
fn literal_case(alloc: Global, literal: Option<Literal>) -> Result<Cases<Form>, Fault>
    ensures { IfOk result (λ cs. (v : _) → cases_of v cs ≡ E.literal_case (option_map literal_view literal)) }
{
    match literal {
        None => Ok(nothing_said(alloc)),
        Some(value) => Ok(one_case(alloc, value.form())?),
    }
}

/// The form at a place of a list, where there is one.
///
/// # Errors
///
/// `Memory` where memory is refused.
#[tactic(auto, using(crate::proofs::AppliedSteps::case_steps))]
pub fn form_at(alloc: Global, forms: &[Form], index: usize) -> Result<Cases<Form>, Fault>
    ensures { IfOk result (λ cs. (v : _) → cases_of v cs ≡ MF.or_nothing (slice_get (map (form_of v) forms.now) index)) }
{
    match forms.get(index) {
        None => Ok(nothing_said(alloc)),
        Some(form) => Ok(one_case(alloc, *form)?),
    }
}

impl Formulas {
    /// An operator on operands: those that are written are computed with.
    ///
    /// # Errors
    ///
    /// `TooGreat` where a number or a width is too great, else as `made_fact`.
    pub fn folded(
        &mut self,
        widths: &[u32],
        operator: Operator,
        operands: &[Operand],
    ) -> Result<Cases<Form>, Fault>
        ensures { IfOk result (λ cs. Makes self.old self.new (λ v. cases_of v cs ≡ E.folded widths.now (operator_view operator) (operands_of v operands.now) (E.literals (operands_of v operands.now)))) }
    {
        match literals(self.alloc(), operands)? {
            None => {
                let outcome = result_of(operator, operands)?;
                Ok(self.followed(widths, operator, operands, outcome)?)
            }
            Some(written) => {
                let value = applied(operator, &written)?;
                Ok(literal_case(self.alloc(), value)?)
            }
        }
    }

    // An operator on plain forms; on others it isn't followed.
    #[tactic(auto, using(crate::proofs::AppliedSteps::case_steps))]
    fn by_operands(
        &mut self,
        widths: &[u32],
        operator: Operator,
        forms: &[Form],
    ) -> Result<Cases<Form>, Fault>
        ensures { IfOk result (λ cs. Makes self.old self.new (λ v. cases_of v cs ≡ E.by_operands widths.now (operator_view operator) (E.operands (forms_of v forms.now)))) }
    {
        match operands(self.alloc(), forms)? {
            None => Ok(anything(self.alloc())),
            Some(of) => Ok(self.folded(widths, operator, &of)?),
        }
    }

    // A field of a struct.
    #[tactic(auto, using(crate::proofs::FittingSteps::fields_listed))]
    fn field_at(&mut self, fields: FieldsId, index: usize) -> Result<Cases<Form>, Fault>
        ensures { IfOk result (λ cs. Makes self.old self.new (λ v. cases_of v cs ≡ MF.or_nothing (slice_get (MF.form_list (v.fields fields.0)) index))) }
    {
        let list = self.fields(fields)?;
        Ok(form_at(self.alloc(), list, index)?)
    }

    // A field of one form.
    fn field_of(&mut self, widths: &[u32], index: usize, form: Form) -> Result<Cases<Form>, Fault>
        ensures { IfOk result (λ cs. Makes self.old self.new (λ v. cases_of v cs ≡ E.fitted widths.now (D.field index) (MF.form_and (form_of v form) MF.no_form))) }
    {
        match form {
            Form::Struct { fields, .. } => Ok(self.field_at(fields, index)?),
            Form::Fact(_)
            | Form::Integer(_)
            | Form::Word(_, _)
            | Form::Variant { .. }
            | Form::AnyOf { .. }
            | Form::SomeAt { .. } => {
                Ok(self.by_operands(widths, Operator::Field { index }, &[form])?)
            }
        }
    }

    // A field, of a list of forms.
    #[tactic(auto, using(crate::proofs::FittingSteps::field_steps))]
    fn fitted_field(
        &mut self,
        widths: &[u32],
        index: usize,
        forms: &[Form],
    ) -> Result<Cases<Form>, Fault>
        ensures { IfOk result (λ cs. Makes self.old self.new (λ v. cases_of v cs ≡ E.fitted widths.now (D.field index) (forms_of v forms.now))) }
    {
        match forms {
            [form] => Ok(self.field_of(widths, index, *form)?),
            [] | [_, _, ..] => Ok(self.by_operands(widths, Operator::Field { index }, forms)?),
        }
    }

    /// What an operator comes to.
    ///
    /// # Errors
    ///
    /// As `folded`.
    pub fn fitted(
        &mut self,
        widths: &[u32],
        operator: Operator,
        forms: &[Form],
    ) -> Result<Cases<Form>, Fault>
        ensures { IfOk result (λ cs. Makes self.old self.new (λ v. cases_of v cs ≡ E.fitted widths.now (operator_view operator) (forms_of v forms.now))) }
    {
        match operator {
            Operator::Field { index } => Ok(self.fitted_field(widths, index, forms)?),
            Operator::Equals
            | Operator::Both
            | Operator::OneOf
            | Operator::Negation
            | Operator::Implied
            | Operator::Less
            | Operator::LessOrEqual
            | Operator::Plus
            | Operator::Minus
            | Operator::Times
            | Operator::WordPlus
            | Operator::WordMinus
            | Operator::WordTimes
            | Operator::WordQuotient
            | Operator::WordRemainder
            | Operator::SignedQuotient
            | Operator::SignedRemainder
            | Operator::WordAnd
            | Operator::WordOr
            | Operator::WordXor
            | Operator::WordNot
            | Operator::WordNegated
            | Operator::ShiftedLeft
            | Operator::ShiftedRight
            | Operator::ShiftedRightSigned
            | Operator::RotatedLeft
            | Operator::RotatedRight
            | Operator::WordLess
            | Operator::WordLessOrEqual
            | Operator::SignedLess
            | Operator::SignedLessOrEqual
            | Operator::Joined
            | Operator::Bits
            | Operator::Widened
            | Operator::WidenedSigned
            | Operator::AsWord
            | Operator::AsInteger
            | Operator::WidthOf => Ok(self.by_operands(widths, operator, forms)?),
        }
    }
}
