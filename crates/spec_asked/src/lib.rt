//! Questions about the rules of lowered definitions.
#![tactic(auto)]

pub mod above;
pub mod asking;
pub mod demanded;
pub mod laws;
pub mod lowered;
pub mod marks;
pub mod signatures;
pub mod standing;
pub mod tables;
