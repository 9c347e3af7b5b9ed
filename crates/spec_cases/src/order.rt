//! Whether formulas are made of earlier ones alone.
ghost use Rattle.std.specs.Prelude.{◌≡◌};
ghost use Rattle.spec_cases.specs.Arenas.{fact_within, form_within, forms_within, integer_within, node_within, operand_within, operands_within, place_within, word_within};

use crate::forms::Form;
use crate::formulas::{Fact, FactNode, Integer, IntegerNode, Node, Operand, Place, Word, WordNode};

impl Place {
    fn is_within(self, count: usize) -> bool
        ensures { result ≡ place_within count self }
    {
        match self {
            Place::Argument { .. } | Place::Site { .. } | Place::Output { .. } => true,
            Place::VariantField { of, .. } | Place::StructField { of, .. } => {
                (of.0 as usize) < count
            }
        }
    }
}

impl Word {
    pub(crate) fn is_within(self, count: usize) -> bool
        ensures { result ≡ word_within count self }
    {
        match self {
            Word::Written(_) => true,
            Word::At(place, _) => (place.0 as usize) < count,
            Word::Made(node) => (node.0 as usize) < count,
        }
    }
}

impl Integer {
    fn is_within(self, count: usize) -> bool
        ensures { result ≡ integer_within count self }
    {
        match self {
            Integer::Written(_) => true,
            Integer::At(place) => (place.0 as usize) < count,
            Integer::Made(node) => (node.0 as usize) < count,
        }
    }
}

impl Fact {
    fn is_within(self, count: usize) -> bool
        ensures { result ≡ fact_within count self }
    {
        match self {
            Fact::Known(_) => true,
            Fact::At(place) | Fact::AsWide(place, _) | Fact::IsKind(place, _) => {
                (place.0 as usize) < count
            }
            Fact::Made(node) => (node.0 as usize) < count,
        }
    }
}

impl Operand {
    fn is_within(self, count: usize) -> bool
        ensures { result ≡ operand_within count self }
    {
        match self {
            Operand::Fact(fact) => fact.is_within(count),
            Operand::Integer(integer) => integer.is_within(count),
            Operand::Word(_, word) => word.is_within(count),
        }
    }
}

fn are_operands_within(operands: &[Operand], count: usize) -> bool
    ensures { result ≡ operands_within count operands.now }
{
    operands.iter().all(|operand| operand.is_within(count))
}

impl Form {
    pub(crate) fn is_within(self, count: usize) -> bool
        ensures { result ≡ form_within count self }
    {
        match self {
            Form::Fact(fact) => fact.is_within(count),
            Form::Integer(integer) => integer.is_within(count),
            Form::Word(_, word) => word.is_within(count),
            Form::Variant { fields, .. } | Form::Struct { fields, .. } => {
                (fields.0 as usize) < count
            }
            Form::AnyOf { place, .. } | Form::SomeAt { place } => (place.0 as usize) < count,
        }
    }
}

fn are_forms_within(forms: &[Form], count: usize) -> bool
    ensures { result ≡ forms_within count forms.now }
{
    forms.iter().all(|form| form.is_within(count))
}

impl Node {
    // Whether all that it is made of has smaller numbers.
    pub(crate) fn is_within(&self, count: usize) -> bool
        ensures { result ≡ node_within count self.now }
    {
        match self {
            Node::Place(place) => place.is_within(count),
            Node::Fields(forms) => are_forms_within(forms, count),
            Node::Word(WordNode::By(_, operands) | WordNode::Answered(_, operands))
            | Node::Integer(IntegerNode::By(_, operands) | IntegerNode::Answered(_, operands))
            | Node::Fact(FactNode::By(_, operands) | FactNode::Answered(_, operands)) => {
                are_operands_within(operands, count)
            }
            Node::Word(WordNode::Either(fact, a, b)) => {
                fact.is_within(count) && a.is_within(count) && b.is_within(count)
            }
            Node::Integer(IntegerNode::Either(fact, a, b)) => {
                fact.is_within(count) && a.is_within(count) && b.is_within(count)
            }
            Node::Fact(FactNode::Both(a, b) | FactNode::One(a, b) | FactNode::Same(a, b)) => {
                a.is_within(count) && b.is_within(count)
            }
            Node::Fact(FactNode::No(a)) => a.is_within(count),
        }
    }
}
