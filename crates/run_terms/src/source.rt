//! What rules are looked at with.

use core_terms::Term;
use std::alloc::Global;

/// What rules are looked at with.
pub struct RuleContext<'a, E> {
    /// Where memory is asked of.
    pub alloc: Global,
    /// What is called.
    pub externs: &'a E,
    /// The terms, in the order of their ids.
    pub terms: &'a [Term],
}

impl<E> Drop for RuleContext<'_, E> {
    fn drop(self) {
        let Self {
            alloc: _,
            externs: _,
            terms: _,
        } = self;
    }
}
