//! Why definitions are refused, as data: an error of the compiler says what its case here says, and its text is made here alone.
#![tactic(auto)]

mod conflicts;
mod questions;
mod reasons;
mod texts;

pub use conflicts::{Asked, Unreachable};
pub use questions::NameKind;
pub use reasons::{FieldName, Typed, Why, Wrong};
