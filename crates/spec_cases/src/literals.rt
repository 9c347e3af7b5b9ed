//! Operands that are written.
ghost use Rattle.std.specs.Prelude.{◌≡◌, Some, option_map, IfOk};
ghost use Rattle.model_questions.specs.Evaluated as E;
ghost use Rattle.model_questions.specs.Forms as MF;
ghost use Rattle.spec_cases.specs.Literals.{literal_shape, literal_view, literal_views, pair_literal, single_literal, triple_literal, with_literal};
ghost use Rattle.spec_cases.specs.Namings.{form_of, operand_and, operands_of};

use crate::faults::Fault;
use crate::forms::Form;
use crate::formulas::{Fact, Integer, Operand, Word};
use std::alloc::Global;

/// A value that is written.
#[derive(Clone, Copy)]
pub enum Literal {
    /// A truth.
    Truth(bool),
    /// An integer.
    Integer(i128),
    /// A word of a width.
    Word(u32, u128),
}

/// Literals, as operators ask for them.
#[derive(Clone, Copy)]
pub enum LiteralShape {
    /// A truth.
    OneTruth(bool),
    /// Two truths.
    TwoTruths(bool, bool),
    /// Two integers.
    TwoIntegers(i128, i128),
    /// A word of a width.
    OneWord(u32, u128),
    /// Two words.
    TwoWords(u32, u128, u32, u128),
    /// A word and an integer.
    WordInteger(u32, u128, i128),
    /// An integer and a word.
    IntegerWord(i128, u32, u128),
    /// Two integers and a word.
    TwoIntegersWord(i128, i128, u32, u128),
    /// Any others, which no operator asks for.
    Others,
}

impl Literal {
    /// It as a form.
    pub fn form(self) -> Form
        ensures { (v : _) → form_of v result ≡ MF.form_of (literal_view self) }
    {
        match self {
            Literal::Truth(truth) => Form::Fact(Fact::Known(truth)),
            Literal::Integer(number) => Form::Integer(Integer::Written(number)),
            Literal::Word(width, number) => Form::Word(width, Word::Written(number)),
        }
    }
}

impl Operand {
    // What it is, where it is written.
    #[tactic(auto, using(crate::proofs::LiteralSteps::made_steps))]
    fn literal(self) -> Option<Literal>
        ensures { (v : _) (rest : _) → E.literals (operand_and v self rest) ≡ with_literal result (E.literals rest) }
    {
        match self {
            Operand::Fact(Fact::Known(truth)) => Some(Literal::Truth(truth)),
            Operand::Integer(Integer::Written(number)) => Some(Literal::Integer(number)),
            Operand::Word(width, Word::Written(number)) => Some(Literal::Word(width, number)),
            Operand::Fact(Fact::At(_) | Fact::AsWide(_, _) | Fact::IsKind(_, _) | Fact::Made(_))
            | Operand::Integer(Integer::At(_) | Integer::Made(_))
            | Operand::Word(_, Word::At(_, _) | Word::Made(_)) => None,
        }
    }
}

/// Operands that are all written.
///
/// # Errors
///
/// `Memory` where memory is refused.
pub fn literals(alloc: Global, operands: &[Operand]) -> Result<Option<Vec<Literal>>, Fault>
    ensures { IfOk result (λ o. (v : _) → E.literals (operands_of v operands.now) ≡ option_map (λ l. literal_views l.items) o) }
{
    match operands {
        [] => Ok(Some(Vec::new(alloc))),
        [first, rest @ ..] => match first.literal() {
            None => Ok(None),
            Some(literal) => Ok(literals_with(alloc, literal, literals(alloc, rest)?)?),
        },
    }
}

// One before others.
fn literals_with(
    alloc: Global,
    literal: Literal,
    later: Option<Vec<Literal>>,
) -> Result<Option<Vec<Literal>>, Fault>
    ensures { IfOk result (λ o. option_map (λ l. literal_views l.items) o ≡ with_literal (Some literal) (option_map (λ l. literal_views l.items) later)) }
{
    match later {
        None => Ok(None),
        Some(more) => {
            let mut all = Vec::new(alloc);
            all.push(literal)?;
            all.extend_from_slice(&more)?;
            Ok(Some(all))
        }
    }
}

fn single_literal(a: Literal) -> LiteralShape
    ensures { result ≡ single_literal a }
{
    match a {
        Literal::Truth(truth) => LiteralShape::OneTruth(truth),
        Literal::Integer(_) => LiteralShape::Others,
        Literal::Word(width, number) => LiteralShape::OneWord(width, number),
    }
}

fn pair_literal(a: Literal, b: Literal) -> LiteralShape
    ensures { result ≡ pair_literal a b }
{
    match a {
        Literal::Truth(p) => match b {
            Literal::Truth(q) => LiteralShape::TwoTruths(p, q),
            Literal::Integer(_) | Literal::Word(_, _) => LiteralShape::Others,
        },
        Literal::Integer(y) => match b {
            Literal::Truth(_) => LiteralShape::Others,
            Literal::Integer(z) => LiteralShape::TwoIntegers(y, z),
            Literal::Word(width, number) => LiteralShape::IntegerWord(y, width, number),
        },
        Literal::Word(width, number) => match b {
            Literal::Truth(_) => LiteralShape::Others,
            Literal::Integer(z) => LiteralShape::WordInteger(width, number, z),
            Literal::Word(other_width, other) => {
                LiteralShape::TwoWords(width, number, other_width, other)
            }
        },
    }
}

fn triple_literal(a: Literal, b: Literal, c: Literal) -> LiteralShape
    ensures { result ≡ triple_literal a b c }
{
    match a {
        Literal::Integer(y) => match b {
            Literal::Integer(z) => match c {
                Literal::Word(width, number) => LiteralShape::TwoIntegersWord(y, z, width, number),
                Literal::Truth(_) | Literal::Integer(_) => LiteralShape::Others,
            },
            Literal::Truth(_) | Literal::Word(_, _) => LiteralShape::Others,
        },
        Literal::Truth(_) | Literal::Word(_, _) => LiteralShape::Others,
    }
}

/// What kinds of literals these are.
#[tactic(auto, using(crate::proofs::LiteralSteps::literal_shapes))]
pub fn literal_shape(literals: &[Literal]) -> LiteralShape
    ensures { result ≡ literal_shape literals.now }
{
    match literals {
        [] => LiteralShape::Others,
        [a] => single_literal(*a),
        [a, b] => pair_literal(*a, *b),
        [a, b, c] => triple_literal(*a, *b, *c),
        [_, _, _, _, ..] => LiteralShape::Others,
    }
}
