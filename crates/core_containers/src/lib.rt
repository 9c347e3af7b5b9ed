//! Partitions, which are sets of items that are apart from each other; and stacks of numbers, in which each number occurs once and is
//! found at once.
#![tactic(auto)]

pub mod disjointsets;
pub mod stacks;
