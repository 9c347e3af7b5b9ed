//! Reads printed trees and JSON back. A text has definitions that all lists share, then lists of further ones, each behind an empty
//! line. What `lower` gives of each is compared with what is read back from the text of its terms and from their JSON.
#![tactic(auto)]

pub mod comparing;
mod documents;
mod faults;
mod names;
mod read_term;
mod reader;
mod sites;
mod text;
mod tokens;
