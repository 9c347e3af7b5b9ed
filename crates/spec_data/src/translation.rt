//! What data is made with, and what there is of it.

use crate::kinds::Kind;
use cranelift_isle::lower::Lowered;
use cranelift_isle::sema::TypeId;
use spec_cases::expressions::{Expr, ExprId, add_expr};
use spec_cases::faults::Fault;
use spec_cases::literals::Literal;
use spec_tables::specs::Specs;
use std::alloc::Global;

/// How deep expressions may nest.
pub(crate) const DEEPEST: usize = 1000;

/// An expression, and what is known of it without its values.
#[derive(Clone, Copy)]
pub(crate) struct Typed {
    pub(crate) expr: ExprId,
    /// What sort of value it gives.
    pub(crate) kind: Kind,
    /// What it is, where it is written.
    pub(crate) literal: Option<Literal>,
}

/// The function for the bits above a word that becomes wider.
#[derive(Clone, Copy)]
pub(crate) struct Above {
    pub(crate) function: u32,
    /// The width that it becomes.
    pub(crate) to: u32,
    /// Its own width, which is smaller.
    pub(crate) from: u32,
}

/// That two values of a type are equal, of which the first is bound before the second.
#[derive(Clone, Copy)]
pub(crate) struct Equality {
    pub(crate) ty: TypeId,
    /// How deep fields are compared.
    pub(crate) depth: usize,
    pub(crate) body: ExprId,
}

/// The arms that give the number of each variant of an enum.
#[derive(Clone, Copy)]
pub(crate) struct Numbers {
    pub(crate) ty: TypeId,
    pub(crate) arms: ExprId,
}

/// What data is made with, and what there is of it.
pub(crate) struct Translation<'c, 's> {
    pub(crate) alloc: Global,
    pub(crate) lowered: &'c Lowered,
    pub(crate) specs: &'c Specs<'s>,
    /// The expressions.
    pub(crate) exprs: Vec<Expr>,
    /// The widths that words may have, each once: the listed ones, and those of models that specs say.
    pub(crate) widths: Vec<u32>,
    /// The functions for the bits above.
    pub(crate) above: Vec<Above>,
    /// What is made of equality.
    pub(crate) equalities: Vec<Equality>,
    /// What is made of numbers of enums.
    pub(crate) numbers: Vec<Numbers>,
    /// What a word becomes at any width, where that is made: the width is bound before the word.
    pub(crate) converted_any: Option<ExprId>,
}

// Written out, and so proved here once.
impl<'c, 's> Drop for Translation<'c, 's> {
    fn drop(self) {
        let Translation {
            alloc: _,
            lowered: _,
            specs: _,
            exprs: _,
            widths: _,
            above: _,
            equalities: _,
            numbers: _,
            converted_any: _,
        } = self;
    }
}

/// An expression of a kind, which isn't written.
pub(crate) fn of_kind(expr: ExprId, kind: Kind) -> Typed {
    Typed {
        expr,
        kind,
        literal: None,
    }
}

impl<'c, 's> Translation<'c, 's> {
    /// Adds an expression.
    pub(crate) fn add(&mut self, expr: Expr) -> Result<ExprId, Fault> {
        add_expr(&mut self.exprs, expr)
    }
}
