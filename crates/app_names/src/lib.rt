//! Names in definitions and in what is said for a verifier: where each stands, what it means, and what a place in a text is in while it
//! is written.
#![tactic(auto)]

pub mod contexts;
mod spec_mentions;
pub mod symbols;
