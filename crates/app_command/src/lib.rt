//! The command `isle`: what it answers to files of ISLE text.
#![tactic(auto)]

pub mod answers;
mod calls;
pub mod code;
pub mod formatting;
mod graphs;
pub mod inputs;
pub mod output;
mod printing;
pub mod progress;
pub mod project;
pub mod reading;
pub mod run;
mod trees;
pub mod unread;
mod versions;
