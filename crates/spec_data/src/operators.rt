//! What operators become.

use crate::faults::{Stop, wrong};
use crate::translation::{Translation, Typed};
use core_syntax::syntax::Pos;
use spec_cases::expressions::ExprId;
use spec_cases::operators::Operator;
use spec_tables::operators::{Group, Operator as SaidOperator};

// An operator of data, and whether its operands are swapped.
#[derive(Clone, Copy)]
struct Meant {
    operator: Operator,
    is_swapped: bool,
}

fn plain(operator: Operator) -> Option<Meant> {
    Some(Meant {
        operator,
        is_swapped: false,
    })
}

fn swapped(operator: Operator) -> Option<Meant> {
    Some(Meant {
        operator,
        is_swapped: true,
    })
}

// The operator of data that is meant. A choice, a conversion and a turn are made of others.
fn meant_by(operator: SaidOperator) -> Option<Meant> {
    match operator {
        SaidOperator::And => plain(Operator::Both),
        SaidOperator::Or => plain(Operator::OneOf),
        SaidOperator::Not => plain(Operator::Negation),
        SaidOperator::Implies => plain(Operator::Implied),
        SaidOperator::Equal => plain(Operator::Equals),
        SaidOperator::Less => plain(Operator::Less),
        SaidOperator::LessEqual => plain(Operator::LessOrEqual),
        SaidOperator::Greater => swapped(Operator::Less),
        SaidOperator::GreaterEqual => swapped(Operator::LessOrEqual),
        SaidOperator::Plus => plain(Operator::Plus),
        SaidOperator::Minus => plain(Operator::Minus),
        SaidOperator::Times => plain(Operator::Times),
        SaidOperator::Concat => plain(Operator::Joined),
        SaidOperator::RotateLeft => plain(Operator::RotatedLeft),
        SaidOperator::RotateRight => plain(Operator::RotatedRight),
        SaidOperator::Extract => plain(Operator::Bits),
        SaidOperator::ZeroExtend => plain(Operator::Widened),
        SaidOperator::SignExtend => plain(Operator::WidenedSigned),
        SaidOperator::ToWord => plain(Operator::AsWord),
        SaidOperator::ToInteger => plain(Operator::AsInteger),
        SaidOperator::WidthOf => plain(Operator::WidthOf),
        SaidOperator::If | SaidOperator::Convert | SaidOperator::Turns => None,
        other => meant_on_words(other),
    }
}

// The operator of data on words that is meant.
fn meant_on_words(operator: SaidOperator) -> Option<Meant> {
    match operator {
        SaidOperator::WordPlus => plain(Operator::WordPlus),
        SaidOperator::WordMinus => plain(Operator::WordMinus),
        SaidOperator::WordTimes => plain(Operator::WordTimes),
        SaidOperator::WordDivided => plain(Operator::WordQuotient),
        SaidOperator::WordRemainder => plain(Operator::WordRemainder),
        SaidOperator::SignedDivided => plain(Operator::SignedQuotient),
        SaidOperator::SignedRemainder => plain(Operator::SignedRemainder),
        SaidOperator::WordAnd => plain(Operator::WordAnd),
        SaidOperator::WordOr => plain(Operator::WordOr),
        SaidOperator::WordXor => plain(Operator::WordXor),
        SaidOperator::WordNot => plain(Operator::WordNot),
        SaidOperator::WordNegated => plain(Operator::WordNegated),
        SaidOperator::ShiftLeft => plain(Operator::ShiftedLeft),
        SaidOperator::ShiftRight => plain(Operator::ShiftedRight),
        SaidOperator::ShiftRightSigned => plain(Operator::ShiftedRightSigned),
        SaidOperator::WordLess => plain(Operator::WordLess),
        SaidOperator::WordLessEqual => plain(Operator::WordLessOrEqual),
        SaidOperator::WordGreater => swapped(Operator::WordLess),
        SaidOperator::WordGreaterEqual => swapped(Operator::WordLessOrEqual),
        SaidOperator::SignedLess => plain(Operator::SignedLess),
        SaidOperator::SignedLessEqual => plain(Operator::SignedLessOrEqual),
        SaidOperator::SignedGreater => swapped(Operator::SignedLess),
        SaidOperator::SignedGreaterEqual => swapped(Operator::SignedLessOrEqual),
        _ => None,
    }
}

// Whether so many operands are those of an operator.
fn is_count_of(group: Group, count: usize) -> bool {
    match group {
        Group::Truths => true,
        Group::Words => count >= 2,
        Group::Join => count >= 1,
        Group::Truth | Group::Word | Group::Number => count == 1,
        Group::Implication
        | Group::Equality
        | Group::Order
        | Group::Arithmetic
        | Group::WordOrder
        | Group::Turn
        | Group::Resize
        | Group::Making => count == 2,
        Group::Choice | Group::Part => count == 3,
    }
}

impl<'c, 's> Translation<'c, 's> {
    /// That operands are of the wrong sorts, or that there are too many or too few.
    pub(crate) fn misfit(&self, operator: SaidOperator, pos: Pos) -> Stop {
        self.misfit_of(operator.word(), pos)
    }

    /// That operands are of the wrong sorts for what has this name.
    pub(crate) fn misfit_of(&self, name: &str, pos: Pos) -> Stop {
        let alloc = self.alloc;
        wrong(pos, format!(in alloc; "these operands don't fit `{name}`"))
    }

    /// An operator on values, if there are as many as it has, of the sorts that it takes. Those that take any number are between two after another.
    pub(crate) fn operated(
        &mut self,
        operator: SaidOperator,
        group: Group,
        values: &[Typed],
        pos: Pos,
    ) -> Result<ExprId, Stop> {
        let Some(meant) = meant_by(operator) else {
            return Err(self.misfit(operator, pos));
        };
        if !is_count_of(group, values.len()) {
            return Err(self.misfit(operator, pos));
        }
        let of = self.operands(operator, group, values, pos)?;
        match (group, of.as_slice()) {
            (Group::Truths | Group::Words | Group::Join, _) => {
                let empty = operator == SaidOperator::And;
                Ok(self.joined(meant.operator, &of, empty)?)
            }
            (_, [first, second]) if meant.is_swapped => {
                Ok(self.operation(meant.operator, &[*second, *first])?)
            }
            _ => Ok(self.operation(meant.operator, &of)?),
        }
    }
}
