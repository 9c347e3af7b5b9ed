//! What operators give of operands that are written.
ghost use Rattle.std.specs.Prelude.{◌≡◌, ℕ, ◌+ℤ◌, ◌-ℤ◌, ◌*ℤ◌, option_map, IfOk};
ghost use Rattle.laws_specs.specs.Words as D;
ghost use Rattle.spec_cases.specs.Computing.{bits_at, calculated, is_test, of_words, size_in};
ghost use Rattle.spec_cases.specs.Literals.{literal_view, literal_views};
ghost use Rattle.spec_cases.specs.Namings.{operator_view};

use crate::faults::Fault;
use crate::literals::{Literal, LiteralShape, literal_shape};
use crate::operators::Operator;
use crate::words;

/// What gives a word of two words of one width.
#[derive(Clone, Copy)]
pub enum Calculation {
    /// `Operator::WordPlus`
    Plus,
    /// `Operator::WordMinus`
    Minus,
    /// `Operator::WordTimes`
    Times,
    /// `Operator::WordQuotient`
    Quotient,
    /// `Operator::WordRemainder`
    Remainder,
    /// `Operator::SignedQuotient`
    SignedQuotient,
    /// `Operator::SignedRemainder`
    SignedRemainder,
    /// `Operator::WordAnd`
    And,
    /// `Operator::WordOr`
    Or,
    /// `Operator::WordXor`
    Xor,
    /// `Operator::ShiftedLeft`
    ShiftedLeft,
    /// `Operator::ShiftedRight`
    ShiftedRight,
    /// `Operator::ShiftedRightSigned`
    ShiftedRightSigned,
    /// `Operator::RotatedLeft`
    RotatedLeft,
    /// `Operator::RotatedRight`
    RotatedRight,
}

/// What gives a truth of two words of one width.
#[derive(Clone, Copy)]
pub enum Test {
    /// `Operator::Equals`
    Equal,
    /// `Operator::WordLess`
    Less,
    /// `Operator::WordLessOrEqual`
    LessOrEqual,
    /// `Operator::SignedLess`
    SignedLess,
    /// `Operator::SignedLessOrEqual`
    SignedLessOrEqual,
}

/// What an operator gives of two words.
#[derive(Clone, Copy)]
pub enum OfWords {
    /// A word, of words of one width.
    Word(Calculation),
    /// A truth, of words of one width.
    Truth(Test),
    /// Both in a row.
    Joined,
    /// Nothing.
    Nothing,
}

impl Operator {
    // Of two words.
    #[tactic(auto, using(crate::proofs::ComputingSteps::equal_within))]
    fn of_two_words(self) -> OfWords
        ensures { (w a v b : ℕ) → D.applied_to (operator_view self) (D.denoted_and (D.a_word w a) (D.denoted_and (D.a_word v b) D.no_denoted)) ≡ of_words result w a v b }
    {
        match self {
            Operator::WordPlus => OfWords::Word(Calculation::Plus),
            Operator::WordMinus => OfWords::Word(Calculation::Minus),
            Operator::WordTimes => OfWords::Word(Calculation::Times),
            Operator::WordQuotient => OfWords::Word(Calculation::Quotient),
            Operator::WordRemainder => OfWords::Word(Calculation::Remainder),
            Operator::SignedQuotient => OfWords::Word(Calculation::SignedQuotient),
            Operator::SignedRemainder => OfWords::Word(Calculation::SignedRemainder),
            Operator::WordAnd => OfWords::Word(Calculation::And),
            Operator::WordOr => OfWords::Word(Calculation::Or),
            Operator::WordXor => OfWords::Word(Calculation::Xor),
            Operator::ShiftedLeft => OfWords::Word(Calculation::ShiftedLeft),
            Operator::ShiftedRight => OfWords::Word(Calculation::ShiftedRight),
            Operator::ShiftedRightSigned => OfWords::Word(Calculation::ShiftedRightSigned),
            Operator::RotatedLeft => OfWords::Word(Calculation::RotatedLeft),
            Operator::RotatedRight => OfWords::Word(Calculation::RotatedRight),
            Operator::Equals => OfWords::Truth(Test::Equal),
            Operator::WordLess => OfWords::Truth(Test::Less),
            Operator::WordLessOrEqual => OfWords::Truth(Test::LessOrEqual),
            Operator::SignedLess => OfWords::Truth(Test::SignedLess),
            Operator::SignedLessOrEqual => OfWords::Truth(Test::SignedLessOrEqual),
            Operator::Joined => OfWords::Joined,
            Operator::Both
            | Operator::OneOf
            | Operator::Negation
            | Operator::Implied
            | Operator::Less
            | Operator::LessOrEqual
            | Operator::Plus
            | Operator::Minus
            | Operator::Times
            | Operator::WordNot
            | Operator::WordNegated
            | Operator::Bits
            | Operator::Widened
            | Operator::WidenedSigned
            | Operator::AsWord
            | Operator::AsInteger
            | Operator::WidthOf
            | Operator::Field { .. } => OfWords::Nothing,
        }
    }
}

// The words.
fn calculated(how: Calculation, width: u32, a: u128, b: u128) -> Result<u128, Fault>
    ensures { IfOk result (λ n. n ≡ calculated how width a b) }
{
    match how {
        Calculation::Plus => Ok(words::plus(width, a, b)?),
        Calculation::Minus => Ok(words::minus(width, a, b)?),
        Calculation::Times => Ok(words::times(width, a, b)?),
        Calculation::Quotient => Ok(words::quotient(width, a, b)?),
        Calculation::Remainder => Ok(words::remainder(a, b)),
        Calculation::SignedQuotient => Ok(words::quotient_by_signs(width, a, b)?),
        Calculation::SignedRemainder => Ok(words::remainder_by_signs(width, a, b)?),
        Calculation::And => Ok(a & b),
        Calculation::Or => Ok(a | b),
        Calculation::Xor => Ok(a ^ b),
        Calculation::ShiftedLeft => Ok(words::left_by(width, a, b)?),
        Calculation::ShiftedRight => Ok(words::right_by(width, a, b)?),
        Calculation::ShiftedRightSigned => Ok(words::right_by_sign(width, a, b)?),
        Calculation::RotatedLeft => Ok(words::turned_by(width, a, b)?),
        Calculation::RotatedRight => Ok(words::turned_back_by(width, a, b)?),
    }
}

// The tests.
fn is_test(test: Test, width: u32, a: u128, b: u128) -> Result<bool, Fault>
    ensures { IfOk result (λ t. t ≡ is_test test width a b) }
{
    match test {
        Test::Equal => Ok(a == b),
        Test::Less => Ok(a < b),
        Test::LessOrEqual => Ok(!(b < a)),
        Test::SignedLess => Ok(words::signed_less(width, a, b)?),
        Test::SignedLessOrEqual => Ok(!words::signed_less(width, b, a)?),
    }
}

// Of words of one width.
fn of_one_width(how: OfWords, width: u32, a: u128, b: u128) -> Result<Option<Literal>, Fault>
    ensures { IfOk result (λ o. option_map literal_view o ≡ of_words how width a width b) }
{
    match how {
        OfWords::Word(calculation) => Ok(Some(Literal::Word(
            width,
            calculated(calculation, width, a, b)?,
        ))),
        OfWords::Truth(test) => Ok(Some(Literal::Truth(is_test(test, width, a, b)?))),
        OfWords::Joined => Ok(Some(words::joined(width, a, width, b)?)),
        OfWords::Nothing => Ok(None),
    }
}

// Of two words.
fn of_words(
    how: OfWords,
    width: u32,
    a: u128,
    other: u32,
    b: u128,
) -> Result<Option<Literal>, Fault>
    ensures { IfOk result (λ o. option_map literal_view o ≡ of_words how width a other b) }
{
    match how {
        OfWords::Joined => Ok(Some(words::joined(width, a, other, b)?)),
        OfWords::Nothing => Ok(None),
        OfWords::Word(_) | OfWords::Truth(_) => {
            if width == other {
                Ok(of_one_width(how, width, a, b)?)
            } else {
                Ok(None)
            }
        }
    }
}

impl Operator {
    // Of a truth.
    fn of_truth(self, a: bool) -> Option<Literal>
        ensures { option_map literal_view result ≡ D.applied_to (operator_view self) (D.denoted_and (D.a_truth a) D.no_denoted) }
    {
        match self {
            Operator::Negation => Some(Literal::Truth(!a)),
            Operator::Equals
            | Operator::Both
            | Operator::OneOf
            | Operator::Implied
            | Operator::Less
            | Operator::LessOrEqual
            | Operator::Plus
            | Operator::Minus
            | Operator::Times
            | Operator::WordPlus
            | Operator::WordMinus
            | Operator::WordTimes
            | Operator::WordQuotient
            | Operator::WordRemainder
            | Operator::SignedQuotient
            | Operator::SignedRemainder
            | Operator::WordAnd
            | Operator::WordOr
            | Operator::WordXor
            | Operator::WordNot
            | Operator::WordNegated
            | Operator::ShiftedLeft
            | Operator::ShiftedRight
            | Operator::ShiftedRightSigned
            | Operator::RotatedLeft
            | Operator::RotatedRight
            | Operator::WordLess
            | Operator::WordLessOrEqual
            | Operator::SignedLess
            | Operator::SignedLessOrEqual
            | Operator::Joined
            | Operator::Bits
            | Operator::Widened
            | Operator::WidenedSigned
            | Operator::AsWord
            | Operator::AsInteger
            | Operator::WidthOf
            | Operator::Field { .. } => None,
        }
    }

    // Of two truths.
    fn of_truths(self, a: bool, b: bool) -> Option<Literal>
        ensures { option_map literal_view result ≡ D.applied_to (operator_view self) (D.denoted_and (D.a_truth a) (D.denoted_and (D.a_truth b) D.no_denoted)) }
    {
        match self {
            Operator::Equals => Some(Literal::Truth(a == b)),
            Operator::Both => Some(Literal::Truth(a && b)),
            Operator::OneOf => Some(Literal::Truth(a || b)),
            Operator::Implied => Some(Literal::Truth(!a || b)),
            Operator::Negation
            | Operator::Less
            | Operator::LessOrEqual
            | Operator::Plus
            | Operator::Minus
            | Operator::Times
            | Operator::WordPlus
            | Operator::WordMinus
            | Operator::WordTimes
            | Operator::WordQuotient
            | Operator::WordRemainder
            | Operator::SignedQuotient
            | Operator::SignedRemainder
            | Operator::WordAnd
            | Operator::WordOr
            | Operator::WordXor
            | Operator::WordNot
            | Operator::WordNegated
            | Operator::ShiftedLeft
            | Operator::ShiftedRight
            | Operator::ShiftedRightSigned
            | Operator::RotatedLeft
            | Operator::RotatedRight
            | Operator::WordLess
            | Operator::WordLessOrEqual
            | Operator::SignedLess
            | Operator::SignedLessOrEqual
            | Operator::Joined
            | Operator::Bits
            | Operator::Widened
            | Operator::WidenedSigned
            | Operator::AsWord
            | Operator::AsInteger
            | Operator::WidthOf
            | Operator::Field { .. } => None,
        }
    }

    // Of two integers.
    fn of_two_integers(self, a: i128, b: i128) -> Result<Option<Literal>, Fault>
        ensures { IfOk result (λ o. option_map literal_view o ≡ D.applied_to (operator_view self) (D.denoted_and (D.an_integer a) (D.denoted_and (D.an_integer b) D.no_denoted))) }
    {
        match self {
            Operator::Equals => Ok(Some(Literal::Truth(a == b))),
            Operator::Less => Ok(Some(Literal::Truth(a < b))),
            Operator::LessOrEqual => Ok(Some(Literal::Truth(!(b < a)))),
            Operator::Plus => Ok(Some(Literal::Integer(integer_sum(a, b)?))),
            Operator::Minus => Ok(Some(Literal::Integer(integer_difference(a, b)?))),
            Operator::Times => Ok(Some(Literal::Integer(integer_product(a, b)?))),
            Operator::AsWord => Ok(word_of(a, b)?),
            Operator::Both
            | Operator::OneOf
            | Operator::Negation
            | Operator::Implied
            | Operator::WordPlus
            | Operator::WordMinus
            | Operator::WordTimes
            | Operator::WordQuotient
            | Operator::WordRemainder
            | Operator::SignedQuotient
            | Operator::SignedRemainder
            | Operator::WordAnd
            | Operator::WordOr
            | Operator::WordXor
            | Operator::WordNot
            | Operator::WordNegated
            | Operator::ShiftedLeft
            | Operator::ShiftedRight
            | Operator::ShiftedRightSigned
            | Operator::RotatedLeft
            | Operator::RotatedRight
            | Operator::WordLess
            | Operator::WordLessOrEqual
            | Operator::SignedLess
            | Operator::SignedLessOrEqual
            | Operator::Joined
            | Operator::Bits
            | Operator::Widened
            | Operator::WidenedSigned
            | Operator::AsInteger
            | Operator::WidthOf
            | Operator::Field { .. } => Ok(None),
        }
    }

    // Of a word.
    fn of_one_word(self, width: u32, a: u128) -> Result<Option<Literal>, Fault>
        ensures { IfOk result (λ o. option_map literal_view o ≡ D.applied_to (operator_view self) (D.denoted_and (D.a_word width a) D.no_denoted)) }
    {
        match self {
            Operator::WordNot => Ok(Some(Literal::Word(width, words::not(width, a)?))),
            Operator::WordNegated => Ok(Some(Literal::Word(width, words::negated(width, a)?))),
            Operator::AsInteger => Ok(Some(Literal::Integer(words::integer(a)?))),
            Operator::WidthOf => Ok(Some(Literal::Integer(width as i128))),
            Operator::Equals
            | Operator::Both
            | Operator::OneOf
            | Operator::Negation
            | Operator::Implied
            | Operator::Less
            | Operator::LessOrEqual
            | Operator::Plus
            | Operator::Minus
            | Operator::Times
            | Operator::WordPlus
            | Operator::WordMinus
            | Operator::WordTimes
            | Operator::WordQuotient
            | Operator::WordRemainder
            | Operator::SignedQuotient
            | Operator::SignedRemainder
            | Operator::WordAnd
            | Operator::WordOr
            | Operator::WordXor
            | Operator::ShiftedLeft
            | Operator::ShiftedRight
            | Operator::ShiftedRightSigned
            | Operator::RotatedLeft
            | Operator::RotatedRight
            | Operator::WordLess
            | Operator::WordLessOrEqual
            | Operator::SignedLess
            | Operator::SignedLessOrEqual
            | Operator::Joined
            | Operator::Bits
            | Operator::Widened
            | Operator::WidenedSigned
            | Operator::AsWord
            | Operator::Field { .. } => Ok(None),
        }
    }

    // Of a word and an integer.
    fn of_word_and_integer(self, width: u32, a: u128, z: i128) -> Result<Option<Literal>, Fault>
        ensures { IfOk result (λ o. option_map literal_view o ≡ D.applied_to (operator_view self) (D.denoted_and (D.a_word width a) (D.denoted_and (D.an_integer z) D.no_denoted))) }
    {
        match self {
            Operator::RotatedLeft => Ok(Some(Literal::Word(
                width,
                words::turned_by_integer(width, a, z)?,
            ))),
            Operator::RotatedRight => Ok(Some(Literal::Word(
                width,
                words::turned_back_by_integer(width, a, z)?,
            ))),
            Operator::Equals
            | Operator::Both
            | Operator::OneOf
            | Operator::Negation
            | Operator::Implied
            | Operator::Less
            | Operator::LessOrEqual
            | Operator::Plus
            | Operator::Minus
            | Operator::Times
            | Operator::WordPlus
            | Operator::WordMinus
            | Operator::WordTimes
            | Operator::WordQuotient
            | Operator::WordRemainder
            | Operator::SignedQuotient
            | Operator::SignedRemainder
            | Operator::WordAnd
            | Operator::WordOr
            | Operator::WordXor
            | Operator::WordNot
            | Operator::WordNegated
            | Operator::ShiftedLeft
            | Operator::ShiftedRight
            | Operator::ShiftedRightSigned
            | Operator::WordLess
            | Operator::WordLessOrEqual
            | Operator::SignedLess
            | Operator::SignedLessOrEqual
            | Operator::Joined
            | Operator::Bits
            | Operator::Widened
            | Operator::WidenedSigned
            | Operator::AsWord
            | Operator::AsInteger
            | Operator::WidthOf
            | Operator::Field { .. } => Ok(None),
        }
    }

    // Of an integer and a word.
    fn of_integer_and_word(self, z: i128, width: u32, a: u128) -> Result<Option<Literal>, Fault>
        ensures { IfOk result (λ o. option_map literal_view o ≡ D.applied_to (operator_view self) (D.denoted_and (D.an_integer z) (D.denoted_and (D.a_word width a) D.no_denoted))) }
    {
        match self {
            Operator::Widened => Ok(widened(z, width, a)?),
            Operator::WidenedSigned => Ok(widened_signed(z, width, a)?),
            Operator::Equals
            | Operator::Both
            | Operator::OneOf
            | Operator::Negation
            | Operator::Implied
            | Operator::Less
            | Operator::LessOrEqual
            | Operator::Plus
            | Operator::Minus
            | Operator::Times
            | Operator::WordPlus
            | Operator::WordMinus
            | Operator::WordTimes
            | Operator::WordQuotient
            | Operator::WordRemainder
            | Operator::SignedQuotient
            | Operator::SignedRemainder
            | Operator::WordAnd
            | Operator::WordOr
            | Operator::WordXor
            | Operator::WordNot
            | Operator::WordNegated
            | Operator::ShiftedLeft
            | Operator::ShiftedRight
            | Operator::ShiftedRightSigned
            | Operator::RotatedLeft
            | Operator::RotatedRight
            | Operator::WordLess
            | Operator::WordLessOrEqual
            | Operator::SignedLess
            | Operator::SignedLessOrEqual
            | Operator::Joined
            | Operator::Bits
            | Operator::AsWord
            | Operator::AsInteger
            | Operator::WidthOf
            | Operator::Field { .. } => Ok(None),
        }
    }

    // Of two integers and a word.
    fn of_integers_and_word(
        self,
        high: i128,
        low: i128,
        width: u32,
        a: u128,
    ) -> Result<Option<Literal>, Fault>
        ensures { IfOk result (λ o. option_map literal_view o ≡ D.applied_to (operator_view self) (D.denoted_and (D.an_integer high) (D.denoted_and (D.an_integer low) (D.denoted_and (D.a_word width a) D.no_denoted)))) }
    {
        match self {
            Operator::Bits => Ok(bits(high, low, width, a)?),
            Operator::Equals
            | Operator::Both
            | Operator::OneOf
            | Operator::Negation
            | Operator::Implied
            | Operator::Less
            | Operator::LessOrEqual
            | Operator::Plus
            | Operator::Minus
            | Operator::Times
            | Operator::WordPlus
            | Operator::WordMinus
            | Operator::WordTimes
            | Operator::WordQuotient
            | Operator::WordRemainder
            | Operator::SignedQuotient
            | Operator::SignedRemainder
            | Operator::WordAnd
            | Operator::WordOr
            | Operator::WordXor
            | Operator::WordNot
            | Operator::WordNegated
            | Operator::ShiftedLeft
            | Operator::ShiftedRight
            | Operator::ShiftedRightSigned
            | Operator::RotatedLeft
            | Operator::RotatedRight
            | Operator::WordLess
            | Operator::WordLessOrEqual
            | Operator::SignedLess
            | Operator::SignedLessOrEqual
            | Operator::Joined
            | Operator::Widened
            | Operator::WidenedSigned
            | Operator::AsWord
            | Operator::AsInteger
            | Operator::WidthOf
            | Operator::Field { .. } => Ok(None),
        }
    }
}

fn integer_sum(a: i128, b: i128) -> Result<i128, Fault>
    ensures { IfOk result (λ z. z ≡ a +ℤ b) }
{
    match a.checked_add(b) {
        None => Err(Fault::TooGreat),
        Some(z) => Ok(z),
    }
}

fn integer_difference(a: i128, b: i128) -> Result<i128, Fault>
    ensures { IfOk result (λ z. z ≡ a -ℤ b) }
{
    match a.checked_sub(b) {
        None => Err(Fault::TooGreat),
        Some(z) => Ok(z),
    }
}

fn integer_product(a: i128, b: i128) -> Result<i128, Fault>
    ensures { IfOk result (λ z. z ≡ a *ℤ b) }
{
    match a.checked_mul(b) {
        None => Err(Fault::TooGreat),
        Some(z) => Ok(z),
    }
}

// A width or a bit's number; a negative integer is none.
fn size_in(integer: i128) -> Result<Option<u32>, Fault>
    ensures { IfOk result (λ o. o ≡ size_in integer) }
{
    if integer < 0 {
        return Ok(None);
    }
    match u32::try_from(integer) {
        Err(_) => Err(Fault::TooGreat),
        Ok(size) => Ok(Some(size)),
    }
}

// An integer as a word of so many bits.
#[tactic(auto, using(crate::proofs::ComputingSteps::as_word_size))]
fn word_of(size: i128, z: i128) -> Result<Option<Literal>, Fault>
    ensures { IfOk result (λ o. option_map literal_view o ≡ D.applied_to D.as_word (D.denoted_and (D.an_integer size) (D.denoted_and (D.an_integer z) D.no_denoted))) }
{
    match size_in(size)? {
        None => Ok(None),
        Some(width) => Ok(Some(Literal::Word(width, words::word_of(width, z)?))),
    }
}

#[tactic(auto, using(crate::proofs::ComputingSteps::widened_size))]
fn widened(size: i128, width: u32, a: u128) -> Result<Option<Literal>, Fault>
    ensures { IfOk result (λ o. option_map literal_view o ≡ D.applied_to D.widened (D.denoted_and (D.an_integer size) (D.denoted_and (D.a_word width a) D.no_denoted))) }
{
    match size_in(size)? {
        None => Ok(None),
        Some(wider) => {
            if wider < width {
                Ok(None)
            } else {
                Ok(Some(Literal::Word(wider, a)))
            }
        }
    }
}

#[tactic(auto, using(crate::proofs::ComputingSteps::widened_signed_size))]
fn widened_signed(size: i128, width: u32, a: u128) -> Result<Option<Literal>, Fault>
    ensures { IfOk result (λ o. option_map literal_view o ≡ D.applied_to D.widened_signed (D.denoted_and (D.an_integer size) (D.denoted_and (D.a_word width a) D.no_denoted))) }
{
    match size_in(size)? {
        None => Ok(None),
        Some(wider) => {
            if wider < width {
                Ok(None)
            } else {
                let number = words::signed(width, a)?;
                Ok(Some(Literal::Word(wider, words::word_of(wider, number)?)))
            }
        }
    }
}

// The bits of a word from one down to another.
#[tactic(auto, using(crate::proofs::ComputingSteps::bits_size))]
fn bits(high: i128, low: i128, width: u32, a: u128) -> Result<Option<Literal>, Fault>
    ensures { IfOk result (λ o. option_map literal_view o ≡ D.applied_to D.bits (D.denoted_and (D.an_integer high) (D.denoted_and (D.an_integer low) (D.denoted_and (D.a_word width a) D.no_denoted)))) }
{
    let highest = size_in(high)?;
    let lowest = size_in(low)?;
    match highest {
        None => Ok(None),
        Some(h) => match lowest {
            None => Ok(None),
            Some(l) => Ok(bits_of(h, l, width, a)?),
        },
    }
}

fn bits_of(high: u32, low: u32, width: u32, a: u128) -> Result<Option<Literal>, Fault>
    ensures { IfOk result (λ o. option_map literal_view o ≡ bits_at high low width a) }
{
    if high < low || high >= width {
        Ok(None)
    } else {
        let count = (high - low) + 1;
        Ok(Some(Literal::Word(count, words::bits(low, count, a)?)))
    }
}

/// What an operator gives of operands that are written.
///
/// # Errors
///
/// `TooGreat` where a number or a width is too great.
#[tactic(auto, using(crate::proofs::AppliedLiterals::applied_steps))]
pub fn applied(operator: Operator, literals: &[Literal]) -> Result<Option<Literal>, Fault>
    ensures { IfOk result (λ o. option_map literal_view o ≡ D.applied_to (operator_view operator) (literal_views literals.now)) }
{
    match literal_shape(literals) {
        LiteralShape::OneTruth(a) => Ok(operator.of_truth(a)),
        LiteralShape::TwoTruths(a, b) => Ok(operator.of_truths(a, b)),
        LiteralShape::TwoIntegers(y, z) => Ok(operator.of_two_integers(y, z)?),
        LiteralShape::OneWord(width, a) => Ok(operator.of_one_word(width, a)?),
        LiteralShape::TwoWords(width, a, other, b) => {
            Ok(of_words(operator.of_two_words(), width, a, other, b)?)
        }
        LiteralShape::WordInteger(width, a, z) => Ok(operator.of_word_and_integer(width, a, z)?),
        LiteralShape::IntegerWord(z, width, a) => Ok(operator.of_integer_and_word(z, width, a)?),
        LiteralShape::TwoIntegersWord(high, low, width, a) => {
            Ok(operator.of_integers_and_word(high, low, width, a)?)
        }
        LiteralShape::Others => Ok(None),
    }
}
