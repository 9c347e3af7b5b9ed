//! What questions are asked by: the tables of a program, and those of specs.
use core_types::Type;
use spec_cases::expressions::Expr;
use spec_cases::sorts::{FunctionSort, TypeSort};
use spec_cases::steps::Constant;
use spec_steps::demands::{Signature, TermSaid};

/// The types of a program, and those of its terms.
#[derive(Clone, Copy)]
pub struct ProgramTables<'t> {
    /// The types, by their numbers.
    pub types: &'t [Type],
    /// The types of terms, by the terms' numbers.
    pub signatures: &'t [Signature],
}

/// What specs say.
#[derive(Clone, Copy)]
pub struct SpecTables<'t> {
    /// What values of types stand for.
    pub sorts: &'t [TypeSort],
    /// What named constants stand for.
    pub constants: &'t [Constant],
    /// What unknown functions take and give.
    pub functions: &'t [FunctionSort],
    /// The expressions, by their numbers.
    pub exprs: &'t [Expr],
    /// What the specs of terms say, by the terms' numbers.
    pub said: &'t [TermSaid],
}
