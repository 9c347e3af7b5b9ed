//! Typed rules: patterns, expressions, the rules that they make, and how a tool walks them. What can be asked of a rule before its
//! parts are read (names, literals, counts), and how an error is reported.
#![tactic(auto)]

mod bound_ids;
pub mod checks;
mod expr_visits;
mod exprs;
mod pattern_visits;
mod patterns;
pub mod reports;
pub mod rule_names;
mod rule_visits;
mod rules;
mod used_terms;
mod visitors;

pub use bound_ids::BoundIds;
pub use core_syntax::visit_fault::VisitFault;
pub use exprs::Expr;
pub use patterns::Pattern;
pub use rules::{BoundVar, IfLet, Rule};
pub use used_terms::UsedTerms;
pub use visitors::{Body, ExprVisitor, PatternVisitor, RuleVisitor, VisitedExpr};
