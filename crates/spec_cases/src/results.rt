//! What an operator comes to, by the sorts of its operands, and by the numbers that say widths and bits.
ghost use Rattle.std.specs.Prelude.{◌≡◌, IfOk};
ghost use Rattle.model_questions.specs.Evaluated as E;
ghost use Rattle.model_questions.specs.Formulas as M;
ghost use Rattle.spec_cases.specs.Namings.{integer_of, operands_of, operator_view};
ghost use Rattle.spec_cases.specs.Results.{bits_result, outcome_view, size_of, sized_result, widened_result};

use crate::faults::Fault;
use crate::formulas::{Integer, Operand};
use crate::operators::Operator;
use crate::shapes::{Shape, shape_of};

/// What an operator comes to.
#[derive(Clone, Copy)]
pub enum Outcome {
    /// It says nothing.
    Nothing,
    /// A truth.
    Truth,
    /// An integer.
    Integer,
    /// A word of a width.
    Word(u32),
    /// It isn't followed.
    Unfollowed,
}

impl Outcome {
    // Where two words are of one width.
    fn of_same_width(self, width: u32, other: u32) -> Outcome
        ensures { outcome_view result ≡ E.of_same_width width other (outcome_view self) }
    {
        if width == other {
            self
        } else {
            Outcome::Nothing
        }
    }
}

// A width that is written. A negative number is none.
#[tactic(auto, using(crate::proofs::SizedResults::size_made))]
fn width_written(integer: Integer) -> Result<Option<u32>, Fault>
    ensures { IfOk result (λ o. (v : _) → o ≡ size_of (integer_of v integer)) }
{
    match integer {
        Integer::Written(number) => {
            if number < 0 {
                return Ok(None);
            }
            match u32::try_from(number) {
                Ok(width) => Ok(Some(width)),
                Err(_) => Err(Fault::TooGreat),
            }
        }
        Integer::At(_) | Integer::Made(_) => Ok(None),
    }
}

// A word of a width that is written.
fn word_written(integer: Integer) -> Result<Outcome, Fault>
    ensures { IfOk result (λ r. (v : _) → outcome_view r ≡ sized_result (size_of (integer_of v integer))) }
{
    match width_written(integer)? {
        Some(width) => Ok(Outcome::Word(width)),
        None => Ok(Outcome::Unfollowed),
    }
}

// A word that is widened to a width that is written.
fn word_widened(integer: Integer, width: u32) -> Result<Outcome, Fault>
    ensures { IfOk result (λ r. (v : _) → outcome_view r ≡ widened_result (size_of (integer_of v integer)) width) }
{
    match width_written(integer)? {
        Some(wider) => {
            if wider < width {
                Ok(Outcome::Nothing)
            } else {
                Ok(Outcome::Word(wider))
            }
        }
        None => Ok(Outcome::Unfollowed),
    }
}

// The bits of a word from one down to another, which are written.
fn bits_written(high: Integer, low: Integer, width: u32) -> Result<Outcome, Fault>
    ensures { IfOk result (λ r. (v : _) → outcome_view r ≡ bits_result (size_of (integer_of v high)) (size_of (integer_of v low)) width) }
{
    let highest = width_written(high)?;
    let lowest = width_written(low)?;
    match highest {
        None => Ok(Outcome::Unfollowed),
        Some(h) => match lowest {
            None => Ok(Outcome::Unfollowed),
            Some(l) => {
                if h < l || h >= width {
                    Ok(Outcome::Nothing)
                } else {
                    Ok(Outcome::Word((h - l) + 1))
                }
            }
        },
    }
}

impl Operator {
    // Of a truth.
    fn of_fact(self) -> Outcome
        ensures { (a : M.Fact) → outcome_view result ≡ E.result (operator_view self) (M.fact_and a M.no_operand) }
    {
        match self {
            Operator::Negation => Outcome::Truth,
            Operator::Equals
            | Operator::Both
            | Operator::OneOf
            | Operator::Implied
            | Operator::Less
            | Operator::LessOrEqual
            | Operator::Plus
            | Operator::Minus
            | Operator::Times
            | Operator::WordPlus
            | Operator::WordMinus
            | Operator::WordTimes
            | Operator::WordQuotient
            | Operator::WordRemainder
            | Operator::SignedQuotient
            | Operator::SignedRemainder
            | Operator::WordAnd
            | Operator::WordOr
            | Operator::WordXor
            | Operator::WordNot
            | Operator::WordNegated
            | Operator::ShiftedLeft
            | Operator::ShiftedRight
            | Operator::ShiftedRightSigned
            | Operator::RotatedLeft
            | Operator::RotatedRight
            | Operator::WordLess
            | Operator::WordLessOrEqual
            | Operator::SignedLess
            | Operator::SignedLessOrEqual
            | Operator::Joined
            | Operator::Bits
            | Operator::Widened
            | Operator::WidenedSigned
            | Operator::AsWord
            | Operator::AsInteger
            | Operator::WidthOf
            | Operator::Field { .. } => Outcome::Unfollowed,
        }
    }

    // Of two truths.
    fn of_facts(self) -> Outcome
        ensures { (a b : M.Fact) → outcome_view result ≡ E.result (operator_view self) (M.fact_and a (M.fact_and b M.no_operand)) }
    {
        match self {
            Operator::Equals | Operator::Both | Operator::OneOf | Operator::Implied =>
                Outcome::Truth,
            Operator::Negation
            | Operator::Less
            | Operator::LessOrEqual
            | Operator::Plus
            | Operator::Minus
            | Operator::Times
            | Operator::WordPlus
            | Operator::WordMinus
            | Operator::WordTimes
            | Operator::WordQuotient
            | Operator::WordRemainder
            | Operator::SignedQuotient
            | Operator::SignedRemainder
            | Operator::WordAnd
            | Operator::WordOr
            | Operator::WordXor
            | Operator::WordNot
            | Operator::WordNegated
            | Operator::ShiftedLeft
            | Operator::ShiftedRight
            | Operator::ShiftedRightSigned
            | Operator::RotatedLeft
            | Operator::RotatedRight
            | Operator::WordLess
            | Operator::WordLessOrEqual
            | Operator::SignedLess
            | Operator::SignedLessOrEqual
            | Operator::Joined
            | Operator::Bits
            | Operator::Widened
            | Operator::WidenedSigned
            | Operator::AsWord
            | Operator::AsInteger
            | Operator::WidthOf
            | Operator::Field { .. } => Outcome::Unfollowed,
        }
    }

    // Of two integers.
    #[tactic(auto, using(crate::proofs::SizedResults::as_word_sized))]
    fn of_integers(self, first: Integer) -> Result<Outcome, Fault>
        ensures { IfOk result (λ r. (v : _) (z : M.Integer)
            → outcome_view r ≡ E.result (operator_view self) (M.integer_and (integer_of v first) (M.integer_and z M.no_operand))) }
    {
        match self {
            Operator::Equals | Operator::Less | Operator::LessOrEqual => Ok(Outcome::Truth),
            Operator::Plus | Operator::Minus | Operator::Times => Ok(Outcome::Integer),
            Operator::AsWord => Ok(word_written(first)?),
            Operator::Both
            | Operator::OneOf
            | Operator::Negation
            | Operator::Implied
            | Operator::WordPlus
            | Operator::WordMinus
            | Operator::WordTimes
            | Operator::WordQuotient
            | Operator::WordRemainder
            | Operator::SignedQuotient
            | Operator::SignedRemainder
            | Operator::WordAnd
            | Operator::WordOr
            | Operator::WordXor
            | Operator::WordNot
            | Operator::WordNegated
            | Operator::ShiftedLeft
            | Operator::ShiftedRight
            | Operator::ShiftedRightSigned
            | Operator::RotatedLeft
            | Operator::RotatedRight
            | Operator::WordLess
            | Operator::WordLessOrEqual
            | Operator::SignedLess
            | Operator::SignedLessOrEqual
            | Operator::Joined
            | Operator::Bits
            | Operator::Widened
            | Operator::WidenedSigned
            | Operator::AsInteger
            | Operator::WidthOf
            | Operator::Field { .. } => Ok(Outcome::Unfollowed),
        }
    }

    // Of a word.
    fn of_word(self, width: u32) -> Outcome
        ensures { (a : M.Word) → outcome_view result ≡ E.result (operator_view self) (M.word_and width a M.no_operand) }
    {
        match self {
            Operator::WordNot | Operator::WordNegated => Outcome::Word(width),
            Operator::AsInteger | Operator::WidthOf => Outcome::Integer,
            Operator::Equals
            | Operator::Both
            | Operator::OneOf
            | Operator::Negation
            | Operator::Implied
            | Operator::Less
            | Operator::LessOrEqual
            | Operator::Plus
            | Operator::Minus
            | Operator::Times
            | Operator::WordPlus
            | Operator::WordMinus
            | Operator::WordTimes
            | Operator::WordQuotient
            | Operator::WordRemainder
            | Operator::SignedQuotient
            | Operator::SignedRemainder
            | Operator::WordAnd
            | Operator::WordOr
            | Operator::WordXor
            | Operator::ShiftedLeft
            | Operator::ShiftedRight
            | Operator::ShiftedRightSigned
            | Operator::RotatedLeft
            | Operator::RotatedRight
            | Operator::WordLess
            | Operator::WordLessOrEqual
            | Operator::SignedLess
            | Operator::SignedLessOrEqual
            | Operator::Joined
            | Operator::Bits
            | Operator::Widened
            | Operator::WidenedSigned
            | Operator::AsWord
            | Operator::Field { .. } => Outcome::Unfollowed,
        }
    }

    // Of two words.
    fn of_words(self, width: u32, other: u32) -> Result<Outcome, Fault>
        ensures { IfOk result (λ r. (a b : M.Word) → outcome_view r ≡ E.result (operator_view self) (M.word_and width a (M.word_and other b M.no_operand))) }
    {
        match self {
            Operator::Equals
            | Operator::WordLess
            | Operator::WordLessOrEqual
            | Operator::SignedLess
            | Operator::SignedLessOrEqual => { Ok(Outcome::Truth.of_same_width(width, other)) },
            Operator::WordPlus
            | Operator::WordMinus
            | Operator::WordTimes
            | Operator::WordQuotient
            | Operator::WordRemainder
            | Operator::SignedQuotient
            | Operator::SignedRemainder
            | Operator::WordAnd
            | Operator::WordOr
            | Operator::WordXor
            | Operator::ShiftedLeft
            | Operator::ShiftedRight
            | Operator::ShiftedRightSigned
            | Operator::RotatedLeft
            | Operator::RotatedRight => { Ok(Outcome::Word(width).of_same_width(width, other)) },
            Operator::Joined => match width.checked_add(other) {
                Some(sum) => Ok(Outcome::Word(sum)),
                None => Err(Fault::TooGreat),
            },
            Operator::Both
            | Operator::OneOf
            | Operator::Negation
            | Operator::Implied
            | Operator::Less
            | Operator::LessOrEqual
            | Operator::Plus
            | Operator::Minus
            | Operator::Times
            | Operator::WordNot
            | Operator::WordNegated
            | Operator::Bits
            | Operator::Widened
            | Operator::WidenedSigned
            | Operator::AsWord
            | Operator::AsInteger
            | Operator::WidthOf
            | Operator::Field { .. } => Ok(Outcome::Unfollowed),
        }
    }

    // Of a word and an integer.
    fn of_word_integer(self, width: u32) -> Outcome
        ensures { (a : M.Word) (z : M.Integer) → outcome_view result ≡ E.result (operator_view self) (M.word_and width a (M.integer_and z M.no_operand)) }
    {
        match self {
            Operator::RotatedLeft | Operator::RotatedRight => Outcome::Word(width),
            Operator::Equals
            | Operator::Both
            | Operator::OneOf
            | Operator::Negation
            | Operator::Implied
            | Operator::Less
            | Operator::LessOrEqual
            | Operator::Plus
            | Operator::Minus
            | Operator::Times
            | Operator::WordPlus
            | Operator::WordMinus
            | Operator::WordTimes
            | Operator::WordQuotient
            | Operator::WordRemainder
            | Operator::SignedQuotient
            | Operator::SignedRemainder
            | Operator::WordAnd
            | Operator::WordOr
            | Operator::WordXor
            | Operator::WordNot
            | Operator::WordNegated
            | Operator::ShiftedLeft
            | Operator::ShiftedRight
            | Operator::ShiftedRightSigned
            | Operator::WordLess
            | Operator::WordLessOrEqual
            | Operator::SignedLess
            | Operator::SignedLessOrEqual
            | Operator::Joined
            | Operator::Bits
            | Operator::Widened
            | Operator::WidenedSigned
            | Operator::AsWord
            | Operator::AsInteger
            | Operator::WidthOf
            | Operator::Field { .. } => Outcome::Unfollowed,
        }
    }

    // Of an integer and a word.
    #[tactic(auto, using(crate::proofs::SizedResults::widening_sized))]
    fn of_integer_word(self, first: Integer, width: u32) -> Result<Outcome, Fault>
        ensures { IfOk result (λ r. (v : _) (a : M.Word)
            → outcome_view r ≡ E.result (operator_view self) (M.integer_and (integer_of v first) (M.word_and width a M.no_operand))) }
    {
        match self {
            Operator::Widened | Operator::WidenedSigned => Ok(word_widened(first, width)?),
            Operator::Equals
            | Operator::Both
            | Operator::OneOf
            | Operator::Negation
            | Operator::Implied
            | Operator::Less
            | Operator::LessOrEqual
            | Operator::Plus
            | Operator::Minus
            | Operator::Times
            | Operator::WordPlus
            | Operator::WordMinus
            | Operator::WordTimes
            | Operator::WordQuotient
            | Operator::WordRemainder
            | Operator::SignedQuotient
            | Operator::SignedRemainder
            | Operator::WordAnd
            | Operator::WordOr
            | Operator::WordXor
            | Operator::WordNot
            | Operator::WordNegated
            | Operator::ShiftedLeft
            | Operator::ShiftedRight
            | Operator::ShiftedRightSigned
            | Operator::RotatedLeft
            | Operator::RotatedRight
            | Operator::WordLess
            | Operator::WordLessOrEqual
            | Operator::SignedLess
            | Operator::SignedLessOrEqual
            | Operator::Joined
            | Operator::Bits
            | Operator::AsWord
            | Operator::AsInteger
            | Operator::WidthOf
            | Operator::Field { .. } => Ok(Outcome::Unfollowed),
        }
    }

    // Of two integers and a word.
    #[tactic(auto, using(crate::proofs::SizedResults::bits_sized))]
    fn of_integers_word(self, high: Integer, low: Integer, width: u32) -> Result<Outcome, Fault>
        ensures { IfOk result (λ r. (v : _) (a : M.Word)
            → outcome_view r ≡ E.result (operator_view self) (M.integer_and (integer_of v high) (M.integer_and (integer_of v low) (M.word_and width a M.no_operand)))) }
    {
        match self {
            Operator::Bits => Ok(bits_written(high, low, width)?),
            Operator::Equals
            | Operator::Both
            | Operator::OneOf
            | Operator::Negation
            | Operator::Implied
            | Operator::Less
            | Operator::LessOrEqual
            | Operator::Plus
            | Operator::Minus
            | Operator::Times
            | Operator::WordPlus
            | Operator::WordMinus
            | Operator::WordTimes
            | Operator::WordQuotient
            | Operator::WordRemainder
            | Operator::SignedQuotient
            | Operator::SignedRemainder
            | Operator::WordAnd
            | Operator::WordOr
            | Operator::WordXor
            | Operator::WordNot
            | Operator::WordNegated
            | Operator::ShiftedLeft
            | Operator::ShiftedRight
            | Operator::ShiftedRightSigned
            | Operator::RotatedLeft
            | Operator::RotatedRight
            | Operator::WordLess
            | Operator::WordLessOrEqual
            | Operator::SignedLess
            | Operator::SignedLessOrEqual
            | Operator::Joined
            | Operator::Widened
            | Operator::WidenedSigned
            | Operator::AsWord
            | Operator::AsInteger
            | Operator::WidthOf
            | Operator::Field { .. } => Ok(Outcome::Unfollowed),
        }
    }
}

/// What an operator comes to.
///
/// # Errors
///
/// `TooGreat` where it has a width past 2 to 32.
#[tactic(auto, using(crate::proofs::SizedResults::result_steps))]
pub fn result_of(operator: Operator, operands: &[Operand]) -> Result<Outcome, Fault>
    ensures { IfOk result (λ r. (v : _) → outcome_view r ≡ E.result (operator_view operator) (operands_of v operands.now)) }
{
    match shape_of(operands) {
        Shape::OneFact(_) => Ok(operator.of_fact()),
        Shape::TwoFacts(_, _) => Ok(operator.of_facts()),
        Shape::TwoIntegers(first, _) => Ok(operator.of_integers(first)?),
        Shape::OneWord(width, _) => Ok(operator.of_word(width)),
        Shape::TwoWords(width, _, other, _) => Ok(operator.of_words(width, other)?),
        Shape::WordInteger(width, _, _) => Ok(operator.of_word_integer(width)),
        Shape::IntegerWord(first, width, _) => Ok(operator.of_integer_word(first, width)?),
        Shape::TwoIntegersWord(high, low, width, _) => {
            Ok(operator.of_integers_word(high, low, width)?)
        }
        Shape::Others => Ok(Outcome::Unfollowed),
    }
}
