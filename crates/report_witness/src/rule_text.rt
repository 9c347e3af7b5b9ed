//! The text of a rule apart from its place.

use crate::conditions::push_expr;
use crate::forms::{ValueForm, push_form};
use core_syntax::syntax::{IfLet, Pattern, Rule};
use std::alloc::{AllocError, Global};

/// The text of a rule without its name, its priority and its place: its left side, its further conditions and its right side.
/// Rules that differ in blanks, comments and the forms of their numbers alone have one text.
///
/// # Errors
///
/// Where memory is refused.
pub fn rule_text(alloc: Global, rule: &Rule) -> Result<String, AllocError> {
    let mut text = String::new(alloc);
    push_pattern(&rule.pattern, &mut text)?;
    for iflet in &rule.iflets {
        push_iflet(iflet, &mut text)?;
    }
    text.push(' ')?;
    push_expr(&rule.expr, &mut text)?;
    Ok(text)
}

fn push_iflet(iflet: &IfLet, out: &mut String) -> Result<(), AllocError> {
    out.push_str(" (if-let ")?;
    push_pattern(&iflet.pattern, out)?;
    out.push(' ')?;
    push_expr(&iflet.expr, out)?;
    out.push(')')
}

#[cycle(patterns)]
fn push_pattern(pattern: &Pattern, out: &mut String) -> Result<(), AllocError> {
    match pattern {
        Pattern::Var { var, pos: _ } => out.push_str(&var.0),
        Pattern::BindPattern { var, subpat, .. } => {
            out.push_str(&var.0)?;
            out.push_str(" @ ")?;
            push_pattern(subpat, out)
        }
        Pattern::ConstBool { val, .. } => push_form(out, ValueForm::Bool(*val)),
        Pattern::ConstInt { val, .. } => push_form(out, ValueForm::Int(*val)),
        Pattern::ConstPrim { val, .. } => push_form(out, ValueForm::Const(&val.0)),
        Pattern::Term { sym, args, .. } => push_patterns(&sym.0, args, out),
        Pattern::Wildcard { .. } => out.push('_'),
        Pattern::And { subpats, .. } => push_patterns("and", subpats, out),
        // only templates have one
        Pattern::MacroArg { index, .. } => write!(out, "argument {index}"),
    }
}

// Adds patterns behind a word, in parentheses.
#[cycle(patterns)]
fn push_patterns(word: &str, patterns: &[Pattern], out: &mut String) -> Result<(), AllocError> {
    out.push('(')?;
    out.push_str(word)?;
    for pattern in patterns {
        out.push(' ')?;
        push_pattern(pattern, out)?;
    }
    out.push(')')
}
