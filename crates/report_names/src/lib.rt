//! What reports speak of: the names in definitions, where each is defined and what it stands for; how far forms reach in their texts;
//! sites and rules in words.
#![tactic(auto)]

pub mod definitions;
pub mod extents;
pub mod lost_part;
pub mod meanings;
pub mod mentions;
pub mod names;
pub mod rule_notes;
pub mod site_words;
