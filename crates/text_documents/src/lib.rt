//! The text of one document as an editor sees it: places are lines and UTF-16 units (LSP 3.17, `Position`), changes replace the
//! whole text or what is between two places. And the text that names the documents of a folder.
#![tactic(auto)]

pub mod changes;
pub mod documents;
pub mod edits;
pub mod laws;
mod lines;
pub mod places;
pub mod projects;
