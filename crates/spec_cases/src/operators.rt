//! The operators of specs.

/// An operator, by its name in SMT-LIB; those that swap their operands (as `bvugt`) aren't here.
#[derive(Clone, Copy)]
pub enum Operator {
    /// `=`
    Equals,
    /// `and`
    Both,
    /// `or`
    OneOf,
    /// `not`
    Negation,
    /// `=>`
    Implied,
    /// `<`
    Less,
    /// `<=`
    LessOrEqual,
    /// `+`
    Plus,
    /// `-`
    Minus,
    /// `*`
    Times,
    /// `bvadd`
    WordPlus,
    /// `bvsub`
    WordMinus,
    /// `bvmul`
    WordTimes,
    /// `bvudiv`
    WordQuotient,
    /// `bvurem`
    WordRemainder,
    /// `bvsdiv`
    SignedQuotient,
    /// `bvsrem`
    SignedRemainder,
    /// `bvand`
    WordAnd,
    /// `bvor`
    WordOr,
    /// `bvxor`
    WordXor,
    /// `bvnot`
    WordNot,
    /// `bvneg`
    WordNegated,
    /// `bvshl`
    ShiftedLeft,
    /// `bvlshr`
    ShiftedRight,
    /// `bvashr`
    ShiftedRightSigned,
    /// To the left by a word of the same width or by an integer, modulo the width.
    RotatedLeft,
    /// Likewise to the right.
    RotatedRight,
    /// `bvult`
    WordLess,
    /// `bvule`
    WordLessOrEqual,
    /// `bvslt`
    SignedLess,
    /// `bvsle`
    SignedLessOrEqual,
    /// `concat`
    Joined,
    /// Of two integers and a word: from the bit of the first number down to that of the second.
    Bits,
    /// Of an integer and a word: to so many bits, by zeros.
    Widened,
    /// Likewise by the sign.
    WidenedSigned,
    /// Of two integers: the second as a word of so many bits as the first says.
    AsWord,
    /// The number of a word.
    AsInteger,
    /// The width of a word.
    WidthOf,
    /// A field of a struct.
    Field {
        /// Its place.
        index: usize,
    },
}
