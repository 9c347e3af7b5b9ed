//! Why no value can match a rule.

use std::fmt;

/// Why no value can match a rule.
#[derive(Clone, Copy)]
pub enum Unreachable {
    /// It asks two things of one value that exclude each other.
    Conflict { first: Asked, second: Asked },
    /// It asks a value to be a part of itself.
    Cycle,
}

/// What a rule asks of a value, by ids: the tables that the definitions make have their names.
#[derive(Clone, Copy)]
pub enum Asked {
    /// That it is a variant of an enum.
    Variant { ty: usize, variant: usize },
    /// That it is a struct.
    Struct { ty: usize },
    /// That it is a truth value.
    Bool { ty: usize, val: bool },
    /// That it is an integer.
    Int { ty: usize, val: i128 },
    /// That it is a constant, by its name.
    Prim { val: usize },
    /// That there is one.
    Some,
}

// As its text, so that the parts need none.
impl fmt::Debug for Unreachable {
    fn fmt<W: fmt::Write>(&self, f: &mut fmt::Formatter<W>) -> fmt::Result {
        write!(f, "{self}")
    }
}

impl fmt::Display for Unreachable {
    fn fmt<W: fmt::Write>(&self, f: &mut fmt::Formatter<W>) -> fmt::Result {
        match self {
            Unreachable::Conflict { first, second } => {
                write!(
                    f,
                    "rule requires binding to match both {first} and {second}"
                )
            }
            Unreachable::Cycle => { f.write_str("rule requires a value to equal a part of itself") }
        }
    }
}

impl fmt::Display for Asked {
    fn fmt<W: fmt::Write>(&self, f: &mut fmt::Formatter<W>) -> fmt::Result {
        match self {
            Asked::Variant { ty, variant } => write!(f, "variant {variant} of type {ty}"),
            Asked::Struct { ty } => write!(f, "struct of type {ty}"),
            Asked::Bool { ty, val } => write!(f, "bool {val} of type {ty}"),
            Asked::Int { ty, val } => write!(f, "integer {val} of type {ty}"),
            Asked::Prim { val } => write!(f, "constant {val}"),
            Asked::Some => f.write_str("some"),
        }
    }
}
