//! The table of terms and rules, and how definitions are typed.
#![tactic(auto)]

mod term_env;
pub mod typing;

pub use term_env::TermEnv;
