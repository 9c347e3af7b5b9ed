//! Texts of what is on the way to a step, as the printed tree has it.

use crate::walk::Turn;
use cranelift_isle::lower::Lowered;
use cranelift_isle::sema::{TermEnv, TypeEnv};
pub use report_print::errors::error_lines;
pub use report_print::places::Places;
pub use report_print::print::{Comments, TreeNames, print_binding, print_constraint, print_term};
use std::alloc::{AllocError, Global};

/// The names that texts of an answer need.
pub fn names_of(lowered: &Lowered) -> TreeNames<'_> {
    names_in(&lowered.tyenv, &lowered.termenv)
}

/// The names that texts need, of these environments.
pub fn names_in<'a>(tyenv: &'a TypeEnv, termenv: &'a TermEnv) -> TreeNames<'a> {
    TreeNames {
        syms: &tyenv.syms,
        types: &tyenv.types,
        terms: &termenv.terms,
    }
}

/// A test on the way to a step, as `b0 is variant T.A`, `b0 and b1 are equal` or `b4 is one of several`.
///
/// # Errors
///
/// Where memory is refused.
pub fn turn_text(alloc: Global, names: TreeNames<'_>, turn: &Turn) -> Result<String, AllocError> {
    match turn {
        Turn::Arm { source, constraint } => {
            let site = source.index();
            let mut text = format!(in alloc; "b{site} is ")?;
            print_constraint(&mut text, names, *constraint)?;
            Ok(text)
        }
        Turn::Equal { a, b } => {
            let (a, b) = (a.index(), b.index());
            format!(in alloc; "b{a} and b{b} are equal")
        }
        Turn::Loop { result } => {
            let site = result.index();
            format!(in alloc; "b{site} is one of several")
        }
    }
}
