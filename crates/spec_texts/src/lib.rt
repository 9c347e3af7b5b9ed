//! A question as a text in which a solver reads it, and what people are shown of it.
#![tactic(auto)]

pub mod declared;
pub mod faults;
pub mod operators;
mod paths;
pub mod shown;
pub mod sorts;
pub mod texts;
pub mod uses;
pub mod wanted;
mod writing;
