//! Typed expressions.

use crate::patterns::push_typed;
use crate::sites::{push_bool, push_int, push_named};
use cranelift_isle::sema::{Expr, TypeId, VarId};
use report_names::names::NameTables;
use std::alloc::AllocError;
use text_json::Json;

/// Adds a typed expression.
#[cycle(exprs)]
pub(crate) fn push_expr(
    json: &mut Json,
    names: NameTables<'_>,
    expr: &Expr,
) -> Result<(), AllocError> {
    json.begin_object()?;
    match expr {
        Expr::Term(ty, term, arguments) => {
            push_typed(json, names, "term", *ty)?;
            json.key_string("name", names.term(*term))?;
            push_exprs(json, names, arguments)?;
        }
        Expr::Let { ty, bindings, body } => {
            push_typed(json, names, "let", *ty)?;
            push_bindings(json, names, bindings)?;
            json.key("body")?;
            push_expr(json, names, body)?;
        }
        _ => push_leaf(json, names, expr)?,
    }
    json.end()
}

// Adds the arguments of a term.
#[cycle(exprs)]
fn push_exprs(json: &mut Json, names: NameTables<'_>, exprs: &[Expr]) -> Result<(), AllocError> {
    json.begin_list_at("arguments")?;
    for expr in exprs {
        push_expr(json, names, expr)?;
    }
    json.end()
}

// Adds the variables of a let, each with its type and its value.
#[cycle(exprs)]
fn push_bindings(
    json: &mut Json,
    names: NameTables<'_>,
    bindings: &[(VarId, TypeId, Box<Expr>)],
) -> Result<(), AllocError> {
    json.begin_list_at("variables")?;
    for binding in bindings {
        json.begin_object()?;
        json.key_number("variable", binding.0.index())?;
        json.key_string("type", names.ty(binding.1))?;
        json.key("value")?;
        push_expr(json, names, &binding.2)?;
        json.end()?;
    }
    json.end()
}

// Adds what an expression without parts is.
fn push_leaf(json: &mut Json, names: NameTables<'_>, expr: &Expr) -> Result<(), AllocError> {
    match expr {
        Expr::Var(ty, variable) => {
            push_typed(json, names, "variable", *ty)?;
            json.key_number("variable", variable.index())
        }
        Expr::ConstBool(ty, value) => push_bool(json, names, *value, *ty),
        Expr::ConstInt(ty, value) => push_int(json, names, *value, *ty),
        Expr::ConstPrim(ty, name) => {
            push_named(json, "constant", names.sym(*name))?;
            json.key_string("type", names.ty(*ty))
        }
        Expr::Term(..) | Expr::Let { .. } => Ok(()),
    }
}
