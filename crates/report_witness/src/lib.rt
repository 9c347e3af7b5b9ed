//! What rules ask of values, by their patterns as they are written.
#![tactic(auto)]

pub mod conditions;
pub mod extractors;
pub mod forms;
mod part_names;
mod parts_text;
mod rule_demands;
pub mod rule_text;
pub mod templates;
mod value_parts;
pub mod witness;
