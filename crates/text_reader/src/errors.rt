//! What can be wrong with a text.

ghost use Rattle.std.specs.Prelude.{◌≡◌, alloc_error};
ghost use Rattle.text_reader.specs.declared.errors.Problem.TheVariants.{Expected};
ghost use Rattle.text_reader.specs.declared.errors.ReadFault.TheVariants.{Memory, Text};

use crate::heads::{DEFINITIONS, nearest};
use core_syntax::syntax::Pos;
use std::alloc::{AllocError, AllocFailed};
use std::fmt;

/// What was expected, where something else stands or nothing.
#[derive(Clone, Copy, Debug, PartialEq, Eq)]
pub enum Mistake {
    /// A block comment isn't ended. At its beginning.
    CommentEnd,
    /// A parenthesis ends no list.
    ListBegin,
    /// More lists, bindings or comments in one another than `DEEPEST`.
    Depth,
    /// Not a number, where a digit or `-` begins one. A word that begins with `-` and no digit is one in a list that is passed over.
    Digits,
    /// A number that has no 128 bits.
    NumberRange,
    /// No name after `$`.
    ConstantName,
    /// No name before `@`.
    BoundName,
    /// No pattern after `@`.
    BoundPattern,
    /// Something other than a list with a word at its head.
    Definition,
    /// Something other than a name.
    Name,
    /// Something after the last part of a form. At its first part too many.
    End,
    /// A type's definition without what the type is.
    TypeValue,
    /// Something other than a variant.
    Variant,
    /// Something other than a field `(NAME TYPE)`, among such fields.
    Field,
    /// A declaration without its arguments' types and its result's type.
    Declaration,
    /// A word before a declaration's name that is no flag.
    Flag,
    /// A flag for the second time.
    OtherFlag,
    /// Names that aren't in a list.
    Names,
    /// Something other than `constructor`, `extractor` or `const`.
    Extern,
    /// Something other than a constant.
    Constant,
    /// A priority of more than 64 bits.
    PriorityRange,
    /// No number of an argument.
    Index,
    /// Something other than a pattern.
    Pattern,
    /// Something other than a statement, between a rule's pattern and its expression.
    Statement,
    /// Something other than an expression.
    Expression,
    /// Something other than a let's definitions.
    LetDefinitions,
    /// Something other than a part of a spec.
    SpecPart,
    /// A part of a spec for the second time.
    OtherSpecPart,
    /// No value of a model.
    ModelValue,
    /// Something other than a type of a model.
    ModelType,
    /// No width of bit vectors.
    Width,
    /// Something other than a signature.
    Signature,
    /// Something other than an attribute.
    Attribute,
    /// Something other than what a state is.
    StatePart,
    /// No bits after `#x` or `#b`.
    Bits,
    /// Something other than two expressions in parentheses.
    Case,
}

impl fmt::Display for Mistake {
    fn fmt<W: fmt::Write>(&self, f: &mut fmt::Formatter<W>) -> fmt::Result {
        let expected = match self {
            Mistake::CommentEnd => "`;)` after this comment",
            Mistake::ListBegin => "no `)`, since no list is open",
            Mistake::Depth => "at most 1000 levels of nesting",
            Mistake::Digits => "an integer",
            Mistake::NumberRange => "an integer from -2^127 to 2^128 - 1",
            Mistake::ConstantName => "a name after `$`",
            Mistake::BoundName => "a name before `@`",
            Mistake::BoundPattern => "a pattern after `@`",
            Mistake::Definition => "a definition",
            Mistake::Name => "a name",
            Mistake::End => "`)`",
            Mistake::TypeValue => "(primitive ..), (enum ..) or (struct ..)",
            Mistake::Variant => "a name, or (NAME FIELDS)",
            Mistake::Field => "a field (NAME TYPE)",
            Mistake::Declaration => "(decl FLAGS NAME (TYPES) TYPE)",
            Mistake::Flag => "pure, multi, partial or rec",
            Mistake::OtherFlag => "each flag only once",
            Mistake::Names => "names in parentheses",
            Mistake::Extern => "constructor, extractor or const",
            Mistake::Constant => "a constant, as $NAME",
            Mistake::PriorityRange => "a priority from -2^63 to 2^63 - 1",
            Mistake::Index => "the number of an argument",
            Mistake::Pattern => "a pattern",
            Mistake::Statement => "(if-let PATTERN EXPRESSION) or (if EXPRESSION)",
            Mistake::Expression => "an expression",
            Mistake::LetDefinitions => "definitions ((NAME TYPE EXPRESSION) ..)",
            Mistake::SpecPart => "(provide ..), (require ..), (match ..) or (modifies ..)",
            Mistake::OtherSpecPart => "each part of a spec only once",
            Mistake::ModelValue => "(type MODEL), (enum ..) or (const EXPRESSION)",
            Mistake::ModelType => "Int, Bool, Unit, (bv), (bv WIDTH) or (named TYPE)",
            Mistake::Width => "the width of bit vectors",
            Mistake::Signature => "a signature ((args MODEL ..) (ret MODEL) (canon MODEL))",
            Mistake::Attribute => "(tag NAME), (veri chain) or (veri priority)",
            Mistake::StatePart => "(type MODEL) and (default EXPRESSION)",
            Mistake::Bits => "#x with 1 to 32 digits, or #b with 1 to 128",
            Mistake::Case => "a case (EXPRESSION EXPRESSION)",
        };
        f.write_str(expected)
    }
}

/// What is wrong with a text.
#[derive(Debug, Drop)]
pub enum Problem {
    /// Something else was expected.
    Expected(Mistake),
    /// A list isn't ended. It begins here, and the error stands at the text's end.
    Unclosed(Pos),
    /// A list begins with this word, which no definition begins with. At the word.
    UnknownDefinition(String),
}

impl fmt::Display for Problem {
    fn fmt<W: fmt::Write>(&self, f: &mut fmt::Formatter<W>) -> fmt::Result {
        match self {
            Problem::Expected(mistake) => write!(f, "expected {mistake}"),
            Problem::Unclosed(_) => f.write_str("expected `)`"),
            Problem::UnknownDefinition(word) => {
                write!(f, "unknown definition `{word}`")?;
                if let Some(known) = nearest(word) {
                    write!(f, ": did you mean `{known}`?")?;
                }
                write_definitions(f)
            }
        }
    }
}

// Writes the words that a definition may begin with.
fn write_definitions<W: fmt::Write>(f: &mut fmt::Formatter<W>) -> fmt::Result {
    let mut before = " (one of: ";
    for word in DEFINITIONS {
        write!(f, "{before}{word}")?;
        before = ", ";
    }
    f.write_str(")")
}

/// What is wrong with a text, and where.
#[derive(Debug, Drop)]
pub struct TextError {
    /// What is wrong.
    pub problem: Problem,
    /// Where: an offset of at most the text's length.
    pub pos: Pos,
}

impl fmt::Display for TextError {
    fn fmt<W: fmt::Write>(&self, f: &mut fmt::Formatter<W>) -> fmt::Result {
        let problem = &self.problem;
        write!(f, "{problem}")
    }
}

/// Why a text has no definitions: memory, or the text. Kept apart, since the first says nothing of the text and the same call
/// may succeed another time.
#[derive(Debug, Drop)]
pub enum ReadFault {
    /// The allocator refused.
    Memory(AllocError),
    /// The first thing that is wrong with the text.
    Text(TextError),
}

impl From<AllocError> for ReadFault {
    ghost from_gives = { λ a e. e ≡ Memory a };

    fn from(e: AllocError) -> ReadFault {
        ReadFault::Memory(e)
    }
}

impl<T: Drop> From<AllocFailed<T>> for ReadFault {
    ghost from_gives = { λ _ e. e ≡ Memory alloc_error };

    fn from(e: AllocFailed<T>) -> ReadFault {
        ReadFault::Memory(AllocError::from(e))
    }
}

// What was expected, at a position.
pub fn fault(mistake: Mistake, pos: Pos) -> ReadFault
    ensures { result ≡ Text (record { problem = Expected mistake; pos = pos }) }
{
    ReadFault::Text(TextError {
        problem: Problem::Expected(mistake),
        pos,
    })
}
