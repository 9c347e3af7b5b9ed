//! A language server for ISLE: it reads messages of the Language Server Protocol from a stream and answers on another one.
//! `readings` holds what was read of the open documents, and `checking` works out what all files together mean.
#![tactic(auto)]

mod checking;
mod readings;
pub mod server;
