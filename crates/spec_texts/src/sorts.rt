//! The sorts of a solver.

use crate::faults::Fault;
use spec_cases::formulas::Operand;
use std::alloc::{AllocError, Global};

/// A sort.
#[derive(Clone, Copy, PartialEq, Eq)]
pub enum Sort {
    /// The truths.
    Truths,
    /// The integers.
    Integers,
    /// The words of a width.
    Words(u32),
}

impl Sort {
    /// Adds it.
    pub fn push_to(self, out: &mut String) -> Result<(), AllocError> {
        match self {
            Sort::Truths => out.push_str("Bool"),
            Sort::Integers => out.push_str("Int"),
            Sort::Words(width) => write!(out, "(_ BitVec {width})"),
        }
    }
}

// That of an operand.
fn sort_of(operand: Operand) -> Result<Sort, Fault> {
    match operand {
        Operand::Fact(_) => Ok(Sort::Truths),
        Operand::Integer(_) => Ok(Sort::Integers),
        Operand::Word(0, _) => Err(Fault::Unfit),
        Operand::Word(width, _) => Ok(Sort::Words(width)),
    }
}

/// Those of operands.
pub fn sorts_of(alloc: Global, operands: &[Operand]) -> Result<Vec<Sort>, Fault> {
    let mut sorts = Vec::new(alloc);
    for operand in operands {
        sorts.push(sort_of(*operand)?)?;
    }
    Ok(sorts)
}
