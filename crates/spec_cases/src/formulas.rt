//! Formulas of words, integers and truths. What is made of others names them by numbers, so that what many share stands once.
ghost use Rattle.std.specs.Prelude.{◌≡◌};
ghost use Rattle.spec_cases.specs.Arenas.{is_false, known_of};

use crate::forms::Form;
use crate::operators::Operator;
use core_types::{TypeId, VariantId};

/// The number of a place. It means nothing outside its arena.
#[derive(Clone, Copy)]
pub struct PlaceId(pub u32);

/// The number of a formula that is made of others. It means nothing outside its arena.
#[derive(Clone, Copy)]
pub struct NodeId(pub(crate) u32);

/// Where a value stands.
#[derive(Clone, Copy)]
pub enum Place {
    /// An argument.
    Argument {
        /// Which one.
        index: usize,
    },
    /// The value that a site holds, or that its call answers.
    Site {
        /// The site's number.
        site: u32,
    },
    /// An output of the call of an extractor.
    Output {
        /// The call's site.
        site: u32,
        /// Which output.
        index: usize,
    },
    /// A field of a variant.
    VariantField {
        /// Where the variant stands.
        of: PlaceId,
        /// Its enum.
        ty: TypeId,
        /// Which variant.
        variant: VariantId,
        /// Which field.
        index: usize,
    },
    /// A field of a struct.
    StructField {
        /// Where the struct stands.
        of: PlaceId,
        /// Its type.
        ty: TypeId,
        /// Which field.
        index: usize,
    },
}

/// A word of some width.
#[derive(Clone, Copy)]
pub enum Word {
    /// A number that is written.
    Written(u128),
    /// The constant of a place at a width.
    At(PlaceId, u32),
    /// What is made of others.
    Made(NodeId),
}

/// An integer.
#[derive(Clone, Copy)]
pub enum Integer {
    /// One that is written.
    Written(i128),
    /// The constant of a place.
    At(PlaceId),
    /// What is made of others.
    Made(NodeId),
}

/// A truth.
#[derive(Clone, Copy)]
pub enum Fact {
    /// One that is known.
    Known(bool),
    /// The constant of a place.
    At(PlaceId),
    /// The word at a place is of this width.
    AsWide(PlaceId, u32),
    /// What stands at a place is this variant.
    IsKind(PlaceId, VariantId),
    /// What is made of others.
    Made(NodeId),
}

/// What an operator is applied to.
#[derive(Clone, Copy)]
pub enum Operand {
    /// A truth.
    Fact(Fact),
    /// An integer.
    Integer(Integer),
    /// A word of a width.
    Word(u32, Word),
}

/// A word that is made of others.
pub enum WordNode {
    /// What an operator gives.
    By(Operator, Vec<Operand>),
    /// What an unknown function answers.
    Answered(u32, Vec<Operand>),
    /// The first where the fact is so, else the second.
    Either(Fact, Word, Word),
}

/// An integer that is made of others.
pub enum IntegerNode {
    /// What an operator gives.
    By(Operator, Vec<Operand>),
    /// What an unknown function answers.
    Answered(u32, Vec<Operand>),
    /// The first where the fact is so, else the second.
    Either(Fact, Integer, Integer),
}

/// A truth that is made of others.
pub enum FactNode {
    /// What an operator gives.
    By(Operator, Vec<Operand>),
    /// What an unknown function answers.
    Answered(u32, Vec<Operand>),
    /// Both are so.
    Both(Fact, Fact),
    /// One is so, or both.
    One(Fact, Fact),
    /// It isn't so.
    No(Fact),
    /// Both are so, or neither is.
    Same(Fact, Fact),
}

/// What an arena has a number for.
pub enum Node {
    /// A place.
    Place(Place),
    /// A word.
    Word(WordNode),
    /// An integer.
    Integer(IntegerNode),
    /// A truth.
    Fact(FactNode),
    /// The fields of a value.
    Fields(Vec<Form>),
}

impl Drop for WordNode {
    fn drop(self) {
        match self {
            WordNode::By(_, _) => {}
            WordNode::Answered(_, _) => {}
            WordNode::Either(_, _, _) => {}
        }
    }
}

impl Drop for IntegerNode {
    fn drop(self) {
        match self {
            IntegerNode::By(_, _) => {}
            IntegerNode::Answered(_, _) => {}
            IntegerNode::Either(_, _, _) => {}
        }
    }
}

impl Drop for FactNode {
    fn drop(self) {
        match self {
            FactNode::By(_, _) => {}
            FactNode::Answered(_, _) => {}
            FactNode::Both(_, _) => {}
            FactNode::One(_, _) => {}
            FactNode::No(_) => {}
            FactNode::Same(_, _) => {}
        }
    }
}

impl Drop for Node {
    fn drop(self) {
        match self {
            Node::Place(_) => {}
            Node::Word(_) => {}
            Node::Integer(_) => {}
            Node::Fact(_) => {}
            Node::Fields(_) => {}
        }
    }
}

impl PlaceId {
    /// It as a number.
    pub fn number(self) -> u32
        ensures { result ≡ self.0 }
    {
        self.0
    }
}

impl NodeId {
    /// It as a number.
    pub fn number(self) -> u32
        ensures { result ≡ self.0 }
    {
        self.0
    }
}

impl Fact {
    /// The truth that is known, if one is.
    pub fn known(self) -> Option<bool>
        ensures { result ≡ known_of self }
    {
        match self {
            Fact::Known(truth) => Some(truth),
            Fact::At(_) | Fact::AsWide(_, _) | Fact::IsKind(_, _) | Fact::Made(_) => None,
        }
    }

    // Whether it is known not to be so.
    pub(crate) fn is_false(self) -> bool
        ensures { result ≡ is_false self }
    {
        match self {
            Fact::Known(truth) => !truth,
            Fact::At(_) | Fact::AsWide(_, _) | Fact::IsKind(_, _) | Fact::Made(_) => false,
        }
    }
}
