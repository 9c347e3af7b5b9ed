//! What specs say, as data: `data` holds it, and `making` makes it of what a text says. The other modules say what each kind of expression
//! becomes.
#![tactic(auto)]

mod arms;
mod calls;
mod cases;
mod checks;
mod conversions;
pub mod data;
mod equality;
mod expressions;
mod faults;
mod fields;
mod heads;
mod kinds;
mod lists;
pub mod making;
mod names;
mod numbers;
mod operators;
mod patterns;
mod scopes;
mod signatures;
mod sorts;
mod translation;
