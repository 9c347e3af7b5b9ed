//! The items of generated Rust code but for the functions of terms: the trait of what comes from outside, the traits beside it,
//! and the types that definitions declare; how names are written, and whether all of them are told apart.
#![tactic(auto)]

pub mod beside;
pub mod claims;
pub mod context;
pub mod faults;
pub mod head;
pub mod items;
pub mod laws;
pub mod lines;
pub mod names;
pub mod options;
pub mod own;
mod paths;
pub mod program;
pub mod stubs;
pub mod taken;
pub mod types;
