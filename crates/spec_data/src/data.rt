//! What specs say, as data.

use core_syntax::syntax::Pos;
use spec_cases::expressions::{Expr, ExprId};
use spec_cases::sorts::{FunctionSort, TypeSort};
use spec_cases::steps::Constant;

/// What specs say.
#[derive(Drop)]
pub struct SpecData {
    /// All expressions, each made of earlier ones.
    pub exprs: Vec<Expr>,
    /// What values of types stand for.
    pub sorts: Vec<TypeSort>,
    /// The unknown functions, by numbers: that of a term is its id, and those for the bits above in `conv_to` have greater ones.
    pub functions: Vec<FunctionSort>,
    /// The named constants that stand for a value that is written.
    pub constants: Vec<Constant>,
    /// What is said of terms, by the terms' ids.
    pub terms: Vec<TermSaid>,
}

/// What is said of a term.
#[derive(Drop)]
pub struct TermSaid {
    /// Whether a text has a spec of it.
    pub is_said: bool,
    /// What a call requires.
    pub require: Vec<SaidAt>,
    /// What holds of arguments and result.
    pub provide: Vec<SaidAt>,
}

/// An expression, and where a text says it.
#[derive(Clone, Copy)]
pub struct SaidAt {
    /// The expression.
    pub expr: ExprId,
    /// Its place.
    pub pos: Pos,
}
