//! The rules of each term as sets of demands on binding sites, and which of them overlap.
#![tactic(auto)]

mod asked_sites;
pub mod bindings;
mod class_lists;
mod closing;
pub mod closure_classes;
mod constraints;
pub mod cycles;
mod demand_lists;
pub mod demanded;
mod equal_sites;
mod overlaps;
mod rule_sets;
mod rules;
pub mod site_table;
pub mod trie_again;
pub mod verdict;
