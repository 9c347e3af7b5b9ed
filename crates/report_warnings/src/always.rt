//! Conditions that are always true.

use crate::kinds::{Warning, add_place, begun};
use cranelift_isle::lower::Lowered;
use cranelift_isle::sema::{BuiltinType, Expr, IfLet, Pattern, Term, TermKind, Type};
use cranelift_isle::syntax::{self, Def};
use report_names::names::rule_at;
use report_names::rule_notes::add_help;
use report_print::report::{Place, Report};
use std::alloc::{AllocError, Global};

/// Adds a warning for each condition of a rule that asks for any truth value, and so is always true: its expression always gives
/// one.
pub(crate) fn add_always(
    alloc: Global,
    reports: &mut Vec<Report>,
    defs: &[Def],
    lowered: &Lowered,
) -> Result<(), AllocError> {
    for rule in &lowered.termenv.rules {
        if rule.iflets.iter().any(|iflet| is_always(lowered, iflet)) {
            if let Some(written) = rule_at(defs, rule.pos) {
                add_of_rule(alloc, reports, lowered, &rule.iflets, written)?;
            }
        }
    }
    Ok(())
}

fn add_of_rule(
    alloc: Global,
    reports: &mut Vec<Report>,
    lowered: &Lowered,
    iflets: &[IfLet],
    written: &syntax::Rule,
) -> Result<(), AllocError> {
    for (iflet, written) in iflets.iter().zip(&written.iflets) {
        if is_always(lowered, iflet) {
            reports.push(always(alloc, written)?)?;
        }
    }
    Ok(())
}

// Whether a condition asks for any truth value, and there always is one.
fn is_always(lowered: &Lowered, iflet: &IfLet) -> bool {
    let Pattern::Wildcard(ty) = &iflet.lhs else {
        return false;
    };
    let is_truth = matches!(
        lowered.tyenv.types.get(ty.index()),
        Some(Type::Builtin(BuiltinType::Bool))
    );
    is_truth && always_gives(&lowered.termenv.terms, &iflet.rhs)
}

// Whether an expression gives just one value, whatever is called.
#[cycle(gives)]
fn always_gives(terms: &[Term], expr: &Expr) -> bool {
    match expr {
        Expr::Term(_, id, args) => match terms.get(id.index()) {
            Some(term) => gives_one(term) && all_give(terms, args),
            None => false,
        },
        Expr::Let { bindings, body, .. } => {
            for binding in bindings {
                if !always_gives(terms, &binding.2) {
                    return false;
                }
            }
            always_gives(terms, body)
        }
        Expr::Var(..) | Expr::ConstBool(..) | Expr::ConstInt(..) | Expr::ConstPrim(..) => true,
    }
}

#[cycle(gives)]
fn all_give(terms: &[Term], exprs: &[Expr]) -> bool {
    for expr in exprs {
        if !always_gives(terms, expr) {
            return false;
        }
    }
    true
}

// Whether a term gives just one value.
fn gives_one(term: &Term) -> bool {
    match &term.kind {
        TermKind::Decl { flags, .. } => !flags.partial && !flags.multi,
        TermKind::EnumVariant { .. } | TermKind::Struct => true,
    }
}

// The warning of a condition.
fn always(alloc: Global, iflet: &syntax::IfLet) -> Result<Report, AllocError> {
    let message = String::from_str(
        alloc,
        "a condition is always true: it takes any truth value",
    )?;
    let mut report = begun(alloc, Warning::Always, message);
    add_place(alloc, &mut report, iflet.pos, "false is taken here too")?;
    add_help(alloc, &mut report, "ask for the value, as (if-let true ..)")?;
    let title = String::from_str(alloc, "Write `if-let true`")?;
    let written = String::from_str(alloc, "(if-let true ")?;
    report.add_fix(title, Place::UpTo(iflet.pos, iflet.expr.pos()), written)?;
    Ok(report)
}
