//! What a truth tells of places.
ghost use Rattle.std.specs.Prelude.{◌≡◌, ◌∷◌, IfOk};
ghost use Rattle.laws_specs.specs.Words as D;
ghost use Rattle.model_questions.specs.Questions as Q;
ghost use Rattle.spec_cases.specs.Namings.{fact_of, integer_of, operands_of, operator_view, Names};
ghost use Rattle.spec_cases.specs.Places.{known_of};

use crate::arena::Formulas;
use crate::faults::Fault;
use crate::formulas::{Fact, FactNode, Integer, NodeId, Operand, PlaceId};
use crate::known::{Known, Told};
use crate::operators::Operator;
use crate::shapes::{Shape, shape_of};
use core_types::VariantId;
use std::alloc::Global;

/// Nothing is told of any place. Takes no memory.
pub fn nothing_known(alloc: Global) -> Known
    ensures { (v : _) → known_of v result ≡ Q.nothing_known }
{
    Known {
        widths: Vec::new(alloc),
        integers: Vec::new(alloc),
        kinds: Vec::new(alloc),
    }
}

// What is told of one more place.
fn told_before<X: Copy>(
    alloc: Global,
    first: Told<X>,
    rest: &[Told<X>],
) -> Result<Vec<Told<X>>, Fault>
    ensures { IfOk result (λ ts. ts.items ≡ first ∷ rest.now) }
{
    let mut all = Vec::new(alloc);
    all.push(first)?;
    all.extend_from_slice(rest)?;
    Ok(all)
}

impl Known {
    // The same.
    fn copied(&self, alloc: Global) -> Result<Known, Fault>
        ensures { IfOk result (λ k. (v : _) → known_of v k ≡ known_of v self.now) }
    {
        let widths = Vec::from_slice(alloc, &self.widths)?;
        let integers = Vec::from_slice(alloc, &self.integers)?;
        let kinds = Vec::from_slice(alloc, &self.kinds)?;
        Ok(Known {
            widths,
            integers,
            kinds,
        })
    }

    // How wide the word at a place is.
    fn with_width(&self, alloc: Global, place: PlaceId, width: u32) -> Result<Known, Fault>
        ensures { IfOk result (λ k. (v : _) → known_of v k ≡ Q.with_width (v.place place.0) width (known_of v self.now)) }
    {
        let widths = told_before(alloc, Told { place, is: width }, &self.widths)?;
        let integers = Vec::from_slice(alloc, &self.integers)?;
        let kinds = Vec::from_slice(alloc, &self.kinds)?;
        Ok(Known {
            widths,
            integers,
            kinds,
        })
    }

    // Which integer stands at a place.
    fn with_integer(&self, alloc: Global, place: PlaceId, number: i128) -> Result<Known, Fault>
        ensures { IfOk result (λ k. (v : _) → known_of v k ≡ Q.with_integer (v.place place.0) number (known_of v self.now)) }
    {
        let integers = told_before(alloc, Told { place, is: number }, &self.integers)?;
        let widths = Vec::from_slice(alloc, &self.widths)?;
        let kinds = Vec::from_slice(alloc, &self.kinds)?;
        Ok(Known {
            widths,
            integers,
            kinds,
        })
    }

    // Which variant stands at a place.
    fn with_kind(&self, alloc: Global, place: PlaceId, variant: VariantId) -> Result<Known, Fault>
        ensures { IfOk result (λ k. (v : _) → known_of v k ≡ Q.with_kind (v.place place.0) variant.0 (known_of v self.now)) }
    {
        let told = Told {
            place,
            is: variant.0,
        };
        let kinds = told_before(alloc, told, &self.kinds)?;
        let widths = Vec::from_slice(alloc, &self.widths)?;
        let integers = Vec::from_slice(alloc, &self.integers)?;
        Ok(Known {
            widths,
            integers,
            kinds,
        })
    }
}

// What two integers that are one tell: which one stands at a place.
#[tactic(auto, using(crate::proofs::LearningSteps::integer_steps))]
fn same_learned(alloc: Global, a: Integer, b: Integer, known: &Known) -> Result<Known, Fault>
    ensures { IfOk result (λ k. (v : _) → known_of v k ≡ Q.same_learned (integer_of v a) (integer_of v b) (known_of v known.now)) }
{
    match a {
        Integer::At(place) => match b {
            Integer::Written(number) => Ok(known.with_integer(alloc, place, number)?),
            Integer::At(_) | Integer::Made(_) => Ok(known.copied(alloc)?),
        },
        Integer::Written(number) => match b {
            Integer::At(place) => Ok(known.with_integer(alloc, place, number)?),
            Integer::Written(_) | Integer::Made(_) => Ok(known.copied(alloc)?),
        },
        Integer::Made(_) => Ok(known.copied(alloc)?),
    }
}

// What operands that are one tell.
#[tactic(auto, using(crate::proofs::LearningSteps::operand_steps))]
fn equals_learned(alloc: Global, operands: &[Operand], known: &Known) -> Result<Known, Fault>
    ensures { IfOk result (λ k. (v : _) → known_of v k ≡ Q.equals_learned D.equals (operands_of v operands.now) (known_of v known.now)) }
{
    match shape_of(operands) {
        Shape::TwoIntegers(a, b) => Ok(same_learned(alloc, a, b, known)?),
        Shape::OneFact(_)
        | Shape::TwoFacts(_, _)
        | Shape::OneWord(_, _)
        | Shape::TwoWords(_, _, _, _)
        | Shape::WordInteger(_, _, _)
        | Shape::IntegerWord(_, _, _)
        | Shape::TwoIntegersWord(_, _, _, _)
        | Shape::Others => Ok(known.copied(alloc)?),
    }
}

// What an operator tells where it gives true.
fn operator_learned(
    alloc: Global,
    operator: Operator,
    operands: &[Operand],
    known: &Known,
) -> Result<Known, Fault>
    ensures { IfOk result (λ k. (v : _) → known_of v k ≡ Q.equals_learned (operator_view operator) (operands_of v operands.now) (known_of v known.now)) }
{
    match operator {
        Operator::Equals => Ok(equals_learned(alloc, operands, known)?),
        Operator::Both
        | Operator::OneOf
        | Operator::Negation
        | Operator::Implied
        | Operator::Less
        | Operator::LessOrEqual
        | Operator::Plus
        | Operator::Minus
        | Operator::Times
        | Operator::WordPlus
        | Operator::WordMinus
        | Operator::WordTimes
        | Operator::WordQuotient
        | Operator::WordRemainder
        | Operator::SignedQuotient
        | Operator::SignedRemainder
        | Operator::WordAnd
        | Operator::WordOr
        | Operator::WordXor
        | Operator::WordNot
        | Operator::WordNegated
        | Operator::ShiftedLeft
        | Operator::ShiftedRight
        | Operator::ShiftedRightSigned
        | Operator::RotatedLeft
        | Operator::RotatedRight
        | Operator::WordLess
        | Operator::WordLessOrEqual
        | Operator::SignedLess
        | Operator::SignedLessOrEqual
        | Operator::Joined
        | Operator::Bits
        | Operator::Widened
        | Operator::WidenedSigned
        | Operator::AsWord
        | Operator::AsInteger
        | Operator::WidthOf
        | Operator::Field { .. } => Ok(known.copied(alloc)?),
    }
}

impl Formulas {
    // What a truth tells that is made of what has smaller numbers than the limit.
    #[cycle(learning)]
    fn learned_below(&self, limit: usize, fact: Fact, known: &Known) -> Result<Known, Fault>
        ensures { IfOk result (λ k. (v : _) → Names v self.now → known_of v k ≡ Q.learned (fact_of v fact) (known_of v known.now)) }
    {
        match fact {
            Fact::AsWide(place, width) => Ok(known.with_width(self.alloc(), place, width)?),
            Fact::IsKind(place, variant) => Ok(known.with_kind(self.alloc(), place, variant)?),
            Fact::Known(_) | Fact::At(_) => Ok(known.copied(self.alloc())?),
            Fact::Made(node) => {
                if (node.0 as usize) < limit {
                    Ok(self.learned_made(node, known)?)
                } else {
                    Err(Fault::Foreign)
                }
            }
        }
    }

    // What a truth that is made of others tells.
    #[cycle(learning)]
    fn learned_made(&self, node: NodeId, known: &Known) -> Result<Known, Fault>
        ensures { IfOk result (λ k. (v : _) → Names v self.now → known_of v k ≡ Q.learned (v.fact node.0) (known_of v known.now)) }
    {
        match self.fact_node(node)? {
            FactNode::By(operator, operands) => {
                Ok(operator_learned(self.alloc(), *operator, operands, known)?)
            }
            FactNode::Both(a, b) => {
                let later = self.learned_below(node.0 as usize, *b, known)?;
                Ok(self.learned_below(node.0 as usize, *a, &later)?)
            }
            FactNode::Answered(_, _)
            | FactNode::One(_, _)
            | FactNode::No(_)
            | FactNode::Same(_, _) => Ok(known.copied(self.alloc())?),
        }
    }

    /// What is told of places where a truth is told too: how wide words are, which variants stand there, and integers that are equal to
    /// one that is written.
    ///
    /// # Errors
    ///
    /// `Foreign` where the truth isn't there, `Memory` where memory is refused.
    pub fn learned(&self, fact: Fact, known: &Known) -> Result<Known, Fault>
        ensures { IfOk result (λ k. (v : _) → Names v self.now → known_of v k ≡ Q.learned (fact_of v fact) (known_of v known.now)) }
    {
        Ok(self.learned_below(self.count(), fact, known)?)
    }
}
