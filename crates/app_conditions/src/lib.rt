//! `isle conditions`: questions about rules for a solver, by specs, the forms that they are written in, and what an answer says of a
//! rule.
#![tactic(auto)]

mod calls;
mod documents;
mod forms;
mod judging;
mod reading;
pub mod run;
mod told;
