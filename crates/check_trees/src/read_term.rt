//! A term as it was read back, compared with what `lower` gave.

use core_rule_sets::trie_again::Binding;
use core_serialize::serialize::Block;
use cranelift_isle::lower::LoweredTerm;

/// What was read of a term.
pub struct ReadTerm {
    pub sites: Vec<Binding>,
    pub block: Block,
    /// How many lines or objects were read.
    pub parts: usize,
    /// How many of them are steps.
    pub steps: usize,
}

impl Drop for ReadTerm {
    fn drop(self) {
        let Self {
            sites: _,
            block: _,
            parts: _,
            steps: _,
        } = self;
    }
}

impl ReadTerm {
    /// What differs from a term, if anything does.
    pub fn difference(&self, term: &LoweredTerm) -> Option<&'static str> {
        if self.sites != term.rules.bindings {
            return Some("other sites");
        }
        if self.block != term.block {
            return Some("another tree");
        }
        None
    }
}
