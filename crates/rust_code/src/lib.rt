//! Generated code as data: what a function does that is made of a term's tree.
#![tactic(auto)]

mod binds;
mod blocks;
pub mod code;
pub mod code_of;
pub mod held;
pub mod moves;
mod reads;
mod stage;
mod tests;
pub mod types;
mod uses;
