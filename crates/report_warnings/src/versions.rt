//! Versions of definitions, and their terms.

use cranelift_isle::lower::{Lowered, LoweredTerm};
use cranelift_isle::syntax::Def;
use report_print::lines::FileLines;
use report_queries::names;

/// A version of definitions, and what comes of lowering them.
#[derive(Clone, Copy)]
pub struct Version<'a, 'f> {
    /// The files that have them.
    pub lines: &'a FileLines<'f>,
    /// The definitions.
    pub defs: &'a [Def],
    /// Their trees.
    pub lowered: &'a Lowered,
}

pub(crate) fn term_name<'a>(lowered: &'a Lowered, term: &LoweredTerm) -> &'a str {
    match names::term_name(&lowered.tyenv, &lowered.termenv, term.id) {
        Some(name) => name,
        None => "?",
    }
}

// The entry of the term of a name, or None where it has no rules.
pub(crate) fn term_called<'a>(lowered: &'a Lowered, name: &str) -> Option<&'a LoweredTerm> {
    lowered
        .terms
        .iter()
        .find(|term| term_name(lowered, term) == name)
}
