//! What terms do on values, under meanings of the terms that they call: the run of a term's tree, and the choice of one of its source
//! rules by priority, which needs no tree.
#![tactic(auto, using(crate::proofs::ValueSteps::value_steps, crate::proofs::ContentSteps::content_steps, core_typed::proofs::PatternBridges::pattern_steps, core_typed::proofs::ExprBridges::expr_steps))]

pub mod answers;
pub mod binds;
pub mod choose;
pub mod env;
pub mod exprs;
pub mod externs;
pub mod fields;
pub mod patterns;
pub mod run;
pub mod source;
pub mod state;
pub mod values;
pub mod vars;
