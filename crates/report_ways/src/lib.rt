//! What a rule demands, and when it is taken: the ways to it in the tree of its term. And how large trees are.
#![tactic(auto)]

pub mod explanation;
pub mod indented_lines;
pub mod meant_rules;
pub mod term_sizes;
mod tree_sizes;
pub mod way_text;
pub mod ways;
