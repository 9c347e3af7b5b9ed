//! Questions about what `lower` gives: names by id, the rule behind a return, what is bound in place, texts, the sites of a rule's
//! variables, and a walk over a tree. And what programs answer to ISLE text and to their words: trees, or what is wrong, as text.
#![tactic(auto)]

pub mod answers;
pub mod answers_texts;
pub mod in_place;
pub mod names;
pub mod positions;
pub mod premises;
pub mod rules;
pub mod sample_run;
pub mod samples;
pub mod texts;
pub mod trees;
pub mod variable_sites;
pub mod walk;
pub mod words;
