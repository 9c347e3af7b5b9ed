//! Expressions as text.
#![tactic(auto, using(core_syntax::proofs::ExprViews::expr_steps))]

ghost use Rattle.std.specs.Prelude.{◌≡◌, [], ◌∷◌, ◌++◌, OnOk, string_bytes};
ghost use Rattle.core_syntax.specs.SyntaxViews.{expr_view, expr_views, let_views, name_view};
ghost use Rattle.text_writer.specs.Forms.{expr_form, expr_forms, let_forms, list_form};
ghost use Rattle.text_writer.specs.Spellable.{expr_is_spellable, exprs_are_spellable, lets_are_spellable};
ghost use Rattle.text_writer.specs.Texts.{parted, spaced, written};

use crate::pieces::{push_constant, push_gap, push_number, push_truth, push_word};
use crate::words::{is_constant_name, is_expr_head, is_expr_variable, is_signed_128, is_word};
use core_syntax::syntax::{Expr, LetDef};
use std::alloc::AllocError;

/// Whether an expression can be spelled, where its lists nest so deep at most.
#[cycle(spellable)]
pub fn expr_is_spellable(expr: &Expr, room: usize) -> bool
    ensures { result ≡ expr_is_spellable (expr_view expr.now) room }
{
    match expr {
        Expr::Term { sym, args, .. } => {
            room > 0 && is_expr_head(sym) && exprs_are_spellable(args, room - 1)
        }
        Expr::Var { name, .. } => is_expr_variable(name),
        Expr::ConstBool { .. } => true,
        Expr::ConstInt { val, .. } => is_signed_128(*val),
        Expr::ConstPrim { val, .. } => is_constant_name(val),
        Expr::Let { defs, body, .. } => {
            room > 1 && lets_are_spellable(defs, room - 2) && expr_is_spellable(body, room - 1)
        }
    }
}

#[cycle(spellable)]
fn exprs_are_spellable(exprs: &[Expr], room: usize) -> bool
    ensures { result ≡ exprs_are_spellable (expr_views exprs.now) room }
{
    for expr in exprs {
        if !expr_is_spellable(expr, room) {
            return false;
        }
    }
    true
}

#[cycle(spellable)]
fn lets_are_spellable(defs: &[LetDef], room: usize) -> bool
    ensures { result ≡ lets_are_spellable (let_views defs.now) room }
{
    for def in defs {
        if !let_is_spellable(def, room) {
            return false;
        }
    }
    true
}

#[cycle(spellable)]
fn let_is_spellable(def: &LetDef, room: usize) -> bool
    ensures { result ≡ lets_are_spellable (let_views (def.now ∷ [])) room }
{
    room > 0 && is_word(&def.var) && is_word(&def.ty) && expr_is_spellable(&def.val, room - 1)
}

/// Adds an expression.
#[cycle(expression)]
pub fn push_expr(out: &mut String, expr: &Expr) -> Result<(), AllocError>
    ensures { OnOk result (string_bytes out.new ≡ string_bytes out.old ++ written (expr_form (expr_view expr.now))) }
{
    match expr {
        Expr::Term { sym, args, .. } => push_call(out, &sym.0, args),
        Expr::Var { name, .. } => out.push_str(&name.0),
        Expr::ConstBool { val, .. } => push_truth(out, *val),
        Expr::ConstInt { val, .. } => push_number(out, *val),
        Expr::ConstPrim { val, .. } => push_constant(out, val),
        Expr::Let { defs, body, .. } => {
            out.push_str("(let ")?;
            push_let_list(out, defs)?;
            push_last(out, body)
        }
    }
}

// Adds a list of a word and expressions.
#[cycle(expression)]
fn push_call(out: &mut String, head: &str, exprs: &[Expr]) -> Result<(), AllocError>
    ensures { OnOk result (string_bytes out.new
        ≡ string_bytes out.old ++ 40 ∷ ((head.now ++ spaced (expr_forms (expr_views exprs.now))) ++ 41 ∷ [])) }
{
    out.push_str("(")?;
    out.push_str(head)?;
    push_exprs(out, exprs)?;
    out.push_str(")")
}

// Adds expressions, each behind a space.
#[cycle(expression)]
fn push_exprs(out: &mut String, exprs: &[Expr]) -> Result<(), AllocError>
    ensures { OnOk result (string_bytes out.new ≡ string_bytes out.old ++ spaced (expr_forms (expr_views exprs.now))) }
{
    for expr in exprs {
        out.push_str(" ")?;
        push_expr(out, expr)?;
    }
    Ok(())
}

/// Adds the last part of a list, an expression, behind a space, and ends the list.
#[cycle(expression)]
pub fn push_last(out: &mut String, expr: &Expr) -> Result<(), AllocError>
    ensures { OnOk result (string_bytes out.new ≡ string_bytes out.old ++ 32 ∷ (written (expr_form (expr_view expr.now)) ++ 41 ∷ [])) }
{
    out.push_str(" ")?;
    push_expr(out, expr)?;
    out.push_str(")")
}

// Adds the list of a let's definitions.
#[cycle(expression)]
fn push_let_list(out: &mut String, defs: &[LetDef]) -> Result<(), AllocError>
    ensures { OnOk result (string_bytes out.new ≡ string_bytes out.old ++ written (list_form (let_forms (let_views defs.now)))) }
{
    out.push_str("(")?;
    push_lets(out, defs)?;
    out.push_str(")")
}

// Adds the definitions of a let, with a space between them.
#[cycle(expression)]
fn push_lets(out: &mut String, defs: &[LetDef]) -> Result<(), AllocError>
    ensures { OnOk result (string_bytes out.new ≡ string_bytes out.old ++ parted (let_forms (let_views defs.now))) }
{
    for i in 0..defs.len() {
        push_gap(out, i > 0)?;
        push_let_def(out, &defs[i])?;
    }
    Ok(())
}

#[cycle(expression)]
fn push_let_def(out: &mut String, def: &LetDef) -> Result<(), AllocError>
    ensures { OnOk result (string_bytes out.new ≡ string_bytes out.old ++ parted (let_forms (let_views (def.now ∷ [])))) }
{
    out.push_str("(")?;
    out.push_str(&def.var.0)?;
    push_word(out, &def.ty.0)?;
    push_last(out, &def.val)
}
