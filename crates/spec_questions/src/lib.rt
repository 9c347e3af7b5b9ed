//! Questions about rules for a solver: whether each rule gives what the specs of its term and of the terms that it calls say. And what a
//! solver wrote when it was asked: `unsat`, or `sat` and the values of formulas.
#![tactic(auto)]

pub mod above;
pub mod answers;
mod asking;
mod branches;
mod faults;
mod following;
pub mod laws;
mod marks;
pub mod questions;
pub mod replies;
mod required;
pub mod shown;
mod telling;
mod tokens;
mod values;
pub mod verdicts;
mod widths;
