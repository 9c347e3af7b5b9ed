//! What rules, values, sites, trees and their runs mean, as plain data that knows no Rust.
//!
//! The definitions are in `specs/`. A function here has an empty body: its clause is a law.
#![tactic(auto)]
