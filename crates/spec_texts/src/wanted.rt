//! What a fact wants a formula to be equal to.

use crate::faults::Fault;
use spec_cases::arena::Formulas;
use spec_cases::formulas::{Fact, FactNode, Integer, Operand, Word};
use spec_cases::operators::Operator;

// So many parts of a fact are looked at.
const MOST_PARTS: usize = 1000;

// Whether two truths are one number, or the same of one place.
fn is_same_fact(formulas: &Formulas, a: Fact, b: Fact) -> Result<bool, Fault> {
    match (a, b) {
        (Fact::Known(own), Fact::Known(other)) => Ok(own == other),
        (Fact::At(p), Fact::At(q)) => Ok(formulas.same_place(p, q)?),
        (Fact::AsWide(p, own), Fact::AsWide(q, other)) => {
            Ok(own == other && formulas.same_place(p, q)?)
        }
        (Fact::IsKind(p, own), Fact::IsKind(q, other)) => {
            Ok(own.0 == other.0 && formulas.same_place(p, q)?)
        }
        (Fact::Made(own), Fact::Made(other)) => Ok(own.number() == other.number()),
        _ => Ok(false),
    }
}

fn is_same_integer(formulas: &Formulas, a: Integer, b: Integer) -> Result<bool, Fault> {
    match (a, b) {
        (Integer::Written(own), Integer::Written(other)) => Ok(own == other),
        (Integer::At(p), Integer::At(q)) => Ok(formulas.same_place(p, q)?),
        (Integer::Made(own), Integer::Made(other)) => Ok(own.number() == other.number()),
        _ => Ok(false),
    }
}

fn is_same_word(formulas: &Formulas, a: Word, b: Word) -> Result<bool, Fault> {
    match (a, b) {
        (Word::Written(own), Word::Written(other)) => Ok(own == other),
        (Word::At(p, own), Word::At(q, other)) => Ok(own == other && formulas.same_place(p, q)?),
        (Word::Made(own), Word::Made(other)) => Ok(own.number() == other.number()),
        _ => Ok(false),
    }
}

fn is_same(formulas: &Formulas, a: Operand, b: Operand) -> Result<bool, Fault> {
    match (a, b) {
        (Operand::Fact(own), Operand::Fact(other)) => is_same_fact(formulas, own, other),
        (Operand::Integer(own), Operand::Integer(other)) => is_same_integer(formulas, own, other),
        (Operand::Word(width, own), Operand::Word(other_width, other)) => {
            if width == other_width {
                is_same_word(formulas, own, other)
            } else {
                Ok(false)
            }
        }
        _ => Ok(false),
    }
}

// The other of two, where one of them is the given one.
fn other_side(
    formulas: &Formulas,
    given: Operand,
    a: Operand,
    b: Operand,
) -> Result<Option<Operand>, Fault> {
    if is_same(formulas, given, a)? {
        Ok(Some(b))
    } else if is_same(formulas, given, b)? {
        Ok(Some(a))
    } else {
        Ok(None)
    }
}

// What operands, which are equal, want the given one to be.
fn wanted_beside(
    formulas: &Formulas,
    given: Operand,
    operands: &[Operand],
) -> Result<Option<Operand>, Fault> {
    match operands {
        [a, b] => other_side(formulas, given, *a, *b),
        _ => Ok(None),
    }
}

// What a fact wants the given formula to be. The parts of a fact that is so where both are come to the open ones.
fn wanted_by(
    formulas: &Formulas,
    given: Operand,
    fact: Fact,
    open: &mut Vec<Fact>,
) -> Result<Option<Operand>, Fault> {
    let Fact::Made(node) = fact else {
        return Ok(None);
    };
    match formulas.fact_node(node)? {
        FactNode::By(Operator::Equals, operands) => wanted_beside(formulas, given, operands),
        FactNode::Same(a, b) => {
            other_side(formulas, given, Operand::Fact(*a), Operand::Fact(*b))
        }
        FactNode::Both(a, b) => {
            open.push(*b)?;
            open.push(*a)?;
            Ok(None)
        }
        FactNode::By(_, _) | FactNode::Answered(_, _) | FactNode::One(_, _) | FactNode::No(_) => Ok(
            None,
        ),
    }
}

/// What a fact wants a given formula to be: the other side of the first equation in it that has that formula on one side. Only what is so
/// wherever the fact is so is looked at, and at most 1,000 parts.
///
/// # Errors
///
/// `Foreign` where what the fact is made of isn't there, `Memory` where memory is refused.
pub fn wanted_of(
    formulas: &Formulas,
    goal: Fact,
    given: Operand,
) -> Result<Option<Operand>, Fault> {
    let mut open = Vec::new(formulas.alloc());
    open.push(goal)?;
    for _ in 0..MOST_PARTS {
        let Some(fact) = open.pop() else {
            return Ok(None);
        };
        if let Some(wanted) = wanted_by(formulas, given, fact, &mut open)? {
            return Ok(Some(wanted));
        }
    }
    Ok(None)
}
