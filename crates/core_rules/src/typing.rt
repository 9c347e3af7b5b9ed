//! How the trees of rules become typed patterns, expressions and rules, in all forms: what is wrong is noted, and the
//! work goes on where it can; only a limit ends the work on a rule.

mod constructors;
mod expr_leaves;
mod expr_uses;
mod exprs;
mod lets;
mod limits;
mod pattern_leaves;
mod pattern_uses;
mod patterns;
pub mod progress;
mod rule;
mod rule_lists;
mod rules;
mod sides;
