//! Questions about rules, as data: formulas, models, what an expression of a spec comes to by formulas, and which questions a
//! condition asks.
//!
//! The definitions are in `specs/`, lemmas on them in `proofs/`. There is no code.
#![tactic(auto)]
