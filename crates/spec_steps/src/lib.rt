//! The steps in which the condition of a rule of a set is asked.
#![tactic(auto)]

mod answering;
pub mod constraints;
pub mod demands;
pub mod events;
pub mod excluding;
mod giving;
pub mod listing;
mod made;
pub mod placing;
pub mod saying;
mod sites;
pub mod splitting;
pub mod steps;
mod telling;
mod typing;
