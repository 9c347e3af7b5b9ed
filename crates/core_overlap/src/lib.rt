//! The check of rule sets: which rules may both match though nothing says which of them to take, and which are never taken.
#![tactic(auto)]

mod keys;
pub mod overlap;
