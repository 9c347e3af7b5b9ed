//! What a text says for a verifier, by the terms, types and constants that it says it of: `specs`; what values of types stand for:
//! `models`; the words of operators: `operators`; and what is wrong with specs: `faults`.
#![tactic(auto)]

pub mod faults;
pub mod models;
pub mod operators;
pub mod specs;
