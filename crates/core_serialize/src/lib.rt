//! The trees of tests that say which of a term's rules is taken, and how they are made of rule sets.
#![tactic(auto)]

pub mod arms;
pub mod around;
pub mod best;
pub mod binds;
pub mod bodies;
pub mod calls;
pub mod ends;
pub mod fields;
pub mod matched;
pub mod open_tests;
mod parts;
pub mod place;
pub mod serialize;
pub mod steps;
pub mod tests;
