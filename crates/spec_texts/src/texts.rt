//! The text of a question.

use crate::faults::Fault;
use crate::writing::written;
use spec_cases::arena::Formulas;
use spec_cases::formulas::Fact;

/// The text in which a solver reads facts, in SMT-LIB 2: it answers `unsat` where they can't all be so. What is made of others stands
/// once, under the name `nK` by its number, its parts before it; places are named by the least number in use that is the same place.
///
/// # Errors
///
/// `Foreign` where what a fact is made of isn't there, or is used at two sorts, `Unfit` where a width or a number isn't one that a solver
/// is asked about, `Unspelled` where an operator has no text on its operands, `Memory` where memory is refused.
pub fn text_of(formulas: &Formulas, facts: &[Fact]) -> Result<String, Fault> {
    let lines = written(formulas, facts)?;
    lines.text()
}
