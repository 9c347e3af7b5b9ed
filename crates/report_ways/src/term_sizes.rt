//! How large terms are.

ghost use Rattle.std.specs.Prelude.{◌<◌, string_len, IfOk};

use crate::tree_sizes::{TreeSize, size_of_tree};
use cranelift_isle::lower::{Lowered, LoweredTerm};
use cranelift_isle::sema::TermId;
use report_names::names::NameTables;
use std::alloc::{AllocError, Global};
use std::cmp::Reverse;

/// How large a term with rules is.
#[derive(Clone, Copy)]
pub struct TermSize {
    /// The term.
    pub term: TermId,
    /// How many rules it has.
    pub rules: usize,
    /// How many sites these have.
    pub sites: usize,
    /// How large its tree is.
    pub tree: TreeSize,
}

/// A table of terms with rules, the one with most rules first and those with as many in order: their rules, the sites of
/// these, the tests, arms and returns of their trees, and how deep tests stand in one another.
pub fn stats(alloc: Global, lowered: &Lowered) -> Result<String, AllocError>
    ensures { IfOk result (λ text. 0 < string_len text) }
{
    let names = NameTables {
        tyenv: &lowered.tyenv,
        terms: &lowered.termenv.terms,
    };
    let mut rows = String::new(alloc);
    for size in &sizes(alloc, lowered)? {
        push_row(&mut rows, names, size)?;
    }
    format!(in alloc; "  rules   sites   tests    arms returns   depth  term\n{rows}")
}

/// How large each term with rules is, the one with most rules first and those with as many in order.
pub fn sizes(alloc: Global, lowered: &Lowered) -> Result<Vec<TermSize>, AllocError> {
    let mut listed = Vec::new(alloc);
    for term in &lowered.terms {
        listed.push(size_of(term))?;
    }
    listed.sort_by_key(|size| Reverse(size.rules))?;
    Ok(listed)
}

fn size_of(term: &LoweredTerm) -> TermSize {
    TermSize {
        term: term.id,
        rules: term.rules.rules.len(),
        sites: term.rules.bindings.len(),
        tree: size_of_tree(&term.block),
    }
}

fn push_row(out: &mut String, names: NameTables<'_>, size: &TermSize) -> Result<(), AllocError> {
    let name = names.term(size.term);
    let rules = size.rules;
    let sites = size.sites;
    let tests = size.tree.tests;
    let arms = size.tree.arms;
    let returns = size.tree.returns;
    let depth = size.tree.depth;
    write!(
        out,
        "{rules:>7} {sites:>7} {tests:>7} {arms:>7} {returns:>7} {depth:>7}  {name}\n"
    )
}
