//! What the code of a tree is made with.

use crate::held::Held;
use core_rule_sets::trie_again::Binding;
use std::alloc::Global;

/// What the code of a tree is made with.
pub(crate) struct Stage<'a> {
    /// Where memory is asked of.
    pub alloc: Global,
    /// The sites of the tree.
    pub sites: &'a [Binding],
    /// How each holds its value.
    pub held: &'a [Held],
    /// Whether the term is multi.
    pub multi: bool,
}

impl Drop for Stage<'_> {
    fn drop(self) {
        let Self {
            alloc: _,
            sites: _,
            held: _,
            multi: _,
        } = self;
    }
}
