//! The operators of specs.

/// An operator of a spec.
#[derive(Clone, Copy, PartialEq, Eq)]
pub enum Operator {
    And,
    Or,
    Not,
    Implies,
    Equal,
    If,
    Less,
    LessEqual,
    Greater,
    GreaterEqual,
    Plus,
    Minus,
    Times,
    WordPlus,
    WordMinus,
    WordTimes,
    WordDivided,
    WordRemainder,
    SignedDivided,
    SignedRemainder,
    WordAnd,
    WordOr,
    WordXor,
    WordNot,
    WordNegated,
    ShiftLeft,
    ShiftRight,
    ShiftRightSigned,
    RotateLeft,
    RotateRight,
    WordLess,
    WordLessEqual,
    WordGreater,
    WordGreaterEqual,
    SignedLess,
    SignedLessEqual,
    SignedGreater,
    SignedGreaterEqual,
    /// The first word above the second.
    Concat,
    /// Bits of a word, from a number down to another.
    Extract,
    /// A wider word, with zeros above.
    ZeroExtend,
    /// A wider word, with copies of the highest bit above.
    SignExtend,
    /// A word of any width; new bits above may be anything.
    Convert,
    /// An integer as a word.
    ToWord,
    /// How far a word is turned by an integer: the integer modulo the width, as a word.
    Turns,
    /// A word as an integer that isn't negative.
    ToInteger,
    /// The width of a word.
    WidthOf,
}

/// What operands an operator has, and what it gives.
#[derive(Clone, Copy, PartialEq, Eq)]
pub enum Group {
    /// Any number of truth values to one.
    Truths,
    /// One truth value to one.
    Truth,
    /// Two truth values to one.
    Implication,
    /// Two values of one sort to a truth value.
    Equality,
    /// A truth value and two values of one sort to such a value.
    Choice,
    /// Two integers to a truth value.
    Order,
    /// Two integers to one.
    Arithmetic,
    /// Two words of one width to such a word.
    Words,
    /// A word to one of its width.
    Word,
    /// Two words of one width to a truth value.
    WordOrder,
    /// Words to one of the sum of their widths.
    Join,
    /// A word and how far it is turned, an integer or a word of its width.
    Turn,
    /// Two numbers and a word.
    Part,
    /// A width and a word.
    Resize,
    /// A width and an integer.
    Making,
    /// A word to an integer.
    Number,
}

// The operators, by the words of specs.
const OPERATORS: [(&str, Operator, Group); 46] = [
    ("and", Operator::And, Group::Truths),
    ("or", Operator::Or, Group::Truths),
    ("not", Operator::Not, Group::Truth),
    ("=>", Operator::Implies, Group::Implication),
    ("=", Operator::Equal, Group::Equality),
    ("if", Operator::If, Group::Choice),
    ("<", Operator::Less, Group::Order),
    ("<=", Operator::LessEqual, Group::Order),
    (">", Operator::Greater, Group::Order),
    (">=", Operator::GreaterEqual, Group::Order),
    ("+", Operator::Plus, Group::Arithmetic),
    ("-", Operator::Minus, Group::Arithmetic),
    ("*", Operator::Times, Group::Arithmetic),
    ("bvadd", Operator::WordPlus, Group::Words),
    ("bvsub", Operator::WordMinus, Group::Words),
    ("bvmul", Operator::WordTimes, Group::Words),
    ("bvudiv", Operator::WordDivided, Group::Words),
    ("bvurem", Operator::WordRemainder, Group::Words),
    ("bvsdiv", Operator::SignedDivided, Group::Words),
    ("bvsrem", Operator::SignedRemainder, Group::Words),
    ("bvand", Operator::WordAnd, Group::Words),
    ("bvor", Operator::WordOr, Group::Words),
    ("bvxor", Operator::WordXor, Group::Words),
    ("bvshl", Operator::ShiftLeft, Group::Words),
    ("bvlshr", Operator::ShiftRight, Group::Words),
    ("bvashr", Operator::ShiftRightSigned, Group::Words),
    ("bvnot", Operator::WordNot, Group::Word),
    ("bvneg", Operator::WordNegated, Group::Word),
    ("bvult", Operator::WordLess, Group::WordOrder),
    ("bvule", Operator::WordLessEqual, Group::WordOrder),
    ("bvugt", Operator::WordGreater, Group::WordOrder),
    ("bvuge", Operator::WordGreaterEqual, Group::WordOrder),
    ("bvslt", Operator::SignedLess, Group::WordOrder),
    ("bvsle", Operator::SignedLessEqual, Group::WordOrder),
    ("bvsgt", Operator::SignedGreater, Group::WordOrder),
    ("bvsge", Operator::SignedGreaterEqual, Group::WordOrder),
    ("concat", Operator::Concat, Group::Join),
    ("rotl", Operator::RotateLeft, Group::Turn),
    ("rotr", Operator::RotateRight, Group::Turn),
    ("extract", Operator::Extract, Group::Part),
    ("zero_ext", Operator::ZeroExtend, Group::Resize),
    ("sign_ext", Operator::SignExtend, Group::Resize),
    ("conv_to", Operator::Convert, Group::Resize),
    ("int2bv", Operator::ToWord, Group::Making),
    ("bv2int", Operator::ToInteger, Group::Number),
    ("widthof", Operator::WidthOf, Group::Number),
];

/// The operator of a word, and its group.
pub fn operator_of(word: &str) -> Option<(Operator, Group)> {
    for (name, operator, group) in &OPERATORS {
        if name.len() == word.len() && *name == word {
            return Some((*operator, *group));
        }
    }
    None
}

impl Operator {
    /// The word of the operator in a spec.
    pub fn word(self) -> &'static str {
        for (name, operator, _) in &OPERATORS {
            if *operator == self {
                return *name;
            }
        }
        ""
    }
}
