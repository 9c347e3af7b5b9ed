//! The condition of a rule of a set, by the numbers of its sites, and what its program and its specs say.
use core_rule_sets::trie_again::Binding;
use core_types::{TermId, Type, TypeId};
use spec_cases::expressions::ExprId;
use spec_cases::sorts::TypeSort;
use spec_cases::steps::{Constant, Constraint};

/// The types of a term.
#[derive(Drop)]
pub struct Signature {
    /// Those of its arguments.
    pub args: Vec<TypeId>,
    /// That of its result.
    pub result: TypeId,
}

/// What the spec of a term says.
#[derive(Drop)]
pub struct TermSaid {
    /// What a call requires.
    pub require: Vec<ExprId>,
    /// What it provides.
    pub provide: Vec<ExprId>,
}

/// A test of a site.
#[derive(Clone, Copy)]
pub struct Tested {
    /// The site.
    pub site: u32,
    /// What is asked of it.
    pub constraint: Constraint,
}

/// Two sites that are to be equal.
#[derive(Clone, Copy)]
pub struct Same {
    /// One.
    pub first: u32,
    /// The other.
    pub second: u32,
}

/// The condition of a rule of a set, and what it speaks of.
#[derive(Clone, Copy)]
pub struct Demands<'d> {
    /// The types, by their numbers.
    pub types: &'d [Type],
    /// The types of terms, by the terms' numbers.
    pub signatures: &'d [Signature],
    /// What values of types stand for.
    pub sorts: &'d [TypeSort],
    /// What named constants stand for.
    pub constants: &'d [Constant],
    /// What the specs of terms say, by the terms' numbers.
    pub said: &'d [TermSaid],
    /// What the numbers of sites stand for.
    pub bindings: &'d [Binding],
    /// Which sites the condition makes.
    pub made: &'d [bool],
    /// The term whose rule it is.
    pub term: TermId,
    /// What is asked of sites.
    pub constraints: &'d [Tested],
    /// Which sites are to be equal.
    pub equalities: &'d [Same],
    /// The impure calls, in order.
    pub impure: &'d [u32],
    /// The result.
    pub result: u32,
}
