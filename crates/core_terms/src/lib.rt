//! Terms: what is known of each, the questions that are asked of them, and the table of them all.
#![tactic(auto)]

mod reading;
mod signature;
mod term;
mod term_table;

pub use reading::set_internal;
pub use signature::{ExternalSig, ReturnKind};
pub use term::{ConstructorKind, ExtractorKind, Term, TermFlags, TermKind};
pub use term_table::TermTable;
