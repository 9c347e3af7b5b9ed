//! The rule set of a term, rule by rule: what the visit of a typed rule makes of sites, and asks of them.
#![tactic(auto)]

mod builder_exprs;
mod builder_patterns;
mod builder_rules;
mod refusals;
pub mod ruleset_builder;
mod term_sets;

pub use term_sets::TermSet;
