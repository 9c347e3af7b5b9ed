//! The operators' words.

use spec_cases::operators::Operator;

/// The word of an operator whose operands follow it as they are, if it is such a one.
pub fn word_for(operator: Operator) -> Option<&'static str> {
    match operator {
        Operator::Equals => Some("="),
        Operator::Both => Some("and"),
        Operator::OneOf => Some("or"),
        Operator::Negation => Some("not"),
        Operator::Implied => Some("=>"),
        Operator::Less => Some("<"),
        Operator::LessOrEqual => Some("<="),
        Operator::Plus => Some("+"),
        Operator::Minus => Some("-"),
        Operator::Times => Some("*"),
        Operator::WordPlus => Some("bvadd"),
        Operator::WordMinus => Some("bvsub"),
        Operator::WordTimes => Some("bvmul"),
        Operator::WordQuotient => Some("bvudiv"),
        Operator::WordRemainder => Some("bvurem"),
        Operator::SignedQuotient => Some("bvsdiv"),
        Operator::SignedRemainder => Some("bvsrem"),
        Operator::WordAnd => Some("bvand"),
        Operator::WordOr => Some("bvor"),
        Operator::WordXor => Some("bvxor"),
        Operator::WordNot => Some("bvnot"),
        Operator::WordNegated => Some("bvneg"),
        Operator::ShiftedLeft => Some("bvshl"),
        Operator::ShiftedRight => Some("bvlshr"),
        Operator::ShiftedRightSigned => Some("bvashr"),
        Operator::WordLess => Some("bvult"),
        Operator::WordLessOrEqual => Some("bvule"),
        Operator::SignedLess => Some("bvslt"),
        Operator::SignedLessOrEqual => Some("bvsle"),
        Operator::Joined => Some("concat"),
        Operator::AsInteger => Some("bv2nat"),
        Operator::RotatedLeft
        | Operator::RotatedRight
        | Operator::Bits
        | Operator::Widened
        | Operator::WidenedSigned
        | Operator::AsWord
        | Operator::WidthOf
        | Operator::Field { .. } => None,
    }
}
