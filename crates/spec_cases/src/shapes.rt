//! What kinds of operands there are.
ghost use Rattle.std.specs.Prelude.{◌≡◌};
ghost use Rattle.spec_cases.specs.Shapes.{pair_shape, shape_of, single_shape, triple_shape};

use crate::formulas::{Fact, Integer, Operand, Word};

/// Operands, as operators ask for them.
#[derive(Clone, Copy)]
pub enum Shape {
    /// A truth.
    OneFact(Fact),
    /// Two truths.
    TwoFacts(Fact, Fact),
    /// Two integers.
    TwoIntegers(Integer, Integer),
    /// A word of a width.
    OneWord(u32, Word),
    /// Two words.
    TwoWords(u32, Word, u32, Word),
    /// A word and an integer.
    WordInteger(u32, Word, Integer),
    /// An integer and a word.
    IntegerWord(Integer, u32, Word),
    /// Two integers and a word.
    TwoIntegersWord(Integer, Integer, u32, Word),
    /// Any others, which no operator asks for.
    Others,
}

fn single_shape(a: Operand) -> Shape
    ensures { result ≡ single_shape a }
{
    match a {
        Operand::Fact(fact) => Shape::OneFact(fact),
        Operand::Integer(_) => Shape::Others,
        Operand::Word(width, word) => Shape::OneWord(width, word),
    }
}

fn pair_shape(a: Operand, b: Operand) -> Shape
    ensures { result ≡ pair_shape a b }
{
    match a {
        Operand::Fact(f) => match b {
            Operand::Fact(g) => Shape::TwoFacts(f, g),
            Operand::Integer(_) | Operand::Word(_, _) => Shape::Others,
        },
        Operand::Integer(y) => match b {
            Operand::Fact(_) => Shape::Others,
            Operand::Integer(z) => Shape::TwoIntegers(y, z),
            Operand::Word(width, word) => Shape::IntegerWord(y, width, word),
        },
        Operand::Word(width, word) => match b {
            Operand::Fact(_) => Shape::Others,
            Operand::Integer(z) => Shape::WordInteger(width, word, z),
            Operand::Word(other_width, other) => {
                Shape::TwoWords(width, word, other_width, other)
            }
        },
    }
}

fn triple_shape(a: Operand, b: Operand, c: Operand) -> Shape
    ensures { result ≡ triple_shape a b c }
{
    match a {
        Operand::Integer(y) => match b {
            Operand::Integer(z) => match c {
                Operand::Word(width, word) => Shape::TwoIntegersWord(y, z, width, word),
                Operand::Fact(_) | Operand::Integer(_) => Shape::Others,
            },
            Operand::Fact(_) | Operand::Word(_, _) => Shape::Others,
        },
        Operand::Fact(_) | Operand::Word(_, _) => Shape::Others,
    }
}

/// What kinds of operands these are.
#[tactic(auto, using(crate::proofs::ShapeSteps::shape_steps))]
pub fn shape_of(operands: &[Operand]) -> Shape
    ensures { result ≡ shape_of operands.now }
{
    match operands {
        [] => Shape::Others,
        [a] => single_shape(*a),
        [a, b] => pair_shape(*a, *b),
        [a, b, c] => triple_shape(*a, *b, *c),
        [_, _, _, _, ..] => Shape::Others,
    }
}
