//! Syntax trees, tables that keep no order, and why a visit ends: what the other crates stand on.
#![tactic(auto)]

mod display;
pub mod stablemapset;
pub mod syntax;
pub mod visit_fault;
