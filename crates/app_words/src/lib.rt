//! What the words of the command `isle` ask: its tasks, its options in one table, and each request that words make.
#![tactic(auto)]

mod checks;
pub mod conditions;
pub mod formatting;
mod given;
pub mod help;
mod items;
pub mod options;
pub mod request;
pub mod tasks;
pub mod unasked;
mod values;
pub mod words;
