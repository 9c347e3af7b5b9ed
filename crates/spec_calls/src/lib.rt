//! The conditions of rules whose calls of terms without specs are looked through: `conditions` makes one, `copies` looks through calls,
//! `templates` finds what the specs of internal extractors say, and `reasons` says what isn't followed.
#![tactic(auto)]

mod called_rules;
pub mod conditions;
mod copies;
pub mod faults;
mod makers;
mod moving;
mod reasons;
mod templates;
