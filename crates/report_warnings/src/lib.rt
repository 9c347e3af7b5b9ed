//! Warnings: what is likely not meant, in definitions that are accepted. And what changed between two versions of definitions.
#![tactic(auto)]

mod allowances;
mod always;
mod calls;
pub mod changes;
mod constants;
mod coverage;
pub mod kinds;
pub mod lints;
mod literals;
mod missing_rules;
mod passing;
mod priorities;
mod recursion;
mod returns;
mod sample_values;
mod takers;
mod type_changes;
mod uncovered;
mod untaken;
mod variables;
pub mod versions;
