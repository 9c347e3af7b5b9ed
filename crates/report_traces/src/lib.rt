//! Calls of terms, as ISLE text. They are read, run on the trees of their terms, and their outcomes told in words; calls of what is
//! outside are echoed, or answered from a file. A trace has the tests that are made, the rule that is taken, and why another one
//! isn't.
#![tactic(auto)]

pub mod answers_file;
pub mod asked;
pub mod calls;
pub mod demands;
pub mod echo;
mod echoed;
pub mod faults;
pub mod known;
pub mod laws;
pub mod opaque;
pub mod outcomes;
pub mod replies;
pub mod run_text;
pub mod runs;
pub mod templates;
pub mod trace_text;
pub mod values;
pub mod verdicts;
pub mod walk;
pub mod why;
