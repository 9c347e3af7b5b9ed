//! The whole way from definitions to trees. All that the crates below define is shown here, under the names of the
//! upstream crate's modules.
#![tactic(auto)]

pub use core_containers::disjointsets;
pub use core_serialize::serialize;
pub use core_syntax::{stablemapset, syntax};
pub use core_why as why;

pub mod environments;
pub mod laws;
pub mod lower;
pub mod overlap;
pub mod sema;
pub mod trie_again;
