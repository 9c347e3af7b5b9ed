//! Text that people read: trees, errors in a line each, and reports that show the line of an error.
#![tactic(auto)]

pub mod errors;
pub mod layout;
pub mod lines;
pub mod places;
pub mod print;
pub mod report;
pub mod wrapping;
