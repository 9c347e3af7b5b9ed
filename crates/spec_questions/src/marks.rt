//! Which sites stand at or below others, and which are made of impure calls.

use core_rule_sets::trie_again::{Binding, BindingId};
use spec_asked::marks::{is_marked, mark, no_marks, spread_marks};
use std::alloc::{AllocError, Global};

/// Marks these sites and those that they are made of.
pub(crate) fn marked_below(
    alloc: Global,
    bindings: &[Binding],
    roots: &[u32],
) -> Result<Vec<bool>, AllocError> {
    let mut marks = no_marks(alloc, bindings)?;
    for root in roots {
        mark(&mut marks, *root as usize);
    }
    spread_marks(&mut marks, bindings);
    Ok(marks)
}

/// Marks the impure calls, and what is made of them.
pub(crate) fn made_of_impure(alloc: Global, bindings: &[Binding]) -> Result<Vec<bool>, AllocError> {
    let mut marks = Vec::new(alloc);
    for binding in bindings {
        let mark = is_impure(binding) || is_any_marked(&marks, binding.sources());
        marks.push(mark)?;
    }
    Ok(marks)
}

fn is_impure(binding: &Binding) -> bool {
    match binding {
        Binding::Constructor { instance, .. } => *instance > 0,
        _ => false,
    }
}

fn is_any_marked(marks: &[bool], sites: &[BindingId]) -> bool {
    sites.iter().any(|site| is_marked(marks, site.index()))
}
