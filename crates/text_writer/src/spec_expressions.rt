//! Types and expressions as text.
#![tactic(auto, using(text_reader::proofs::SpecViews::spec_steps))]

ghost use Rattle.std.specs.Prelude.{◌≡◌, ◌<◌, ◌≤◌, [], ◌∷◌, ◌++◌, codes, OnOk, map, string_bytes};
ghost use Rattle.core_syntax.specs.SyntaxViews.{name_view};
ghost use Rattle.text_reader.specs.FormTrees.{form_and, no_form};
ghost use Rattle.text_writer.specs.SpecForms.{bits_text, digit_text, digits_text, model_type_form, spec_expr_form, spec_expr_forms};
ghost use Rattle.text_reader.specs.SpecViews.{model_type_view, spec_expr_view, spec_expr_views};
ghost use Rattle.text_writer.specs.Forms.{list_form, names_before};
ghost use Rattle.text_writer.specs.Texts.{parted, spaced, written};

use crate::pieces::{push_gap, push_names, push_number, push_truth, push_word};
use core_syntax::syntax::Ident;
use std::alloc::AllocError;
use text_reader::syntax::{ModelType, SpecExpr};

// Adds names in parentheses.
fn push_list(out: &mut String, names: &[Ident]) -> Result<(), AllocError>
    ensures { OnOk result (string_bytes out.new ≡ string_bytes out.old ++ written (list_form (names_before (map name_view names.now) no_form))) }
{
    out.push_str("(")?;
    push_names(out, names)?;
    out.push_str(")")
}

/// Adds a type.
pub fn push_type(out: &mut String, ty: &ModelType) -> Result<(), AllocError>
    ensures { OnOk result (string_bytes out.new ≡ string_bytes out.old ++ written (model_type_form (model_type_view ty.now))) }
{
    match ty {
        ModelType::Int(_) => out.push_str("Int"),
        ModelType::Bool(_) => out.push_str("Bool"),
        ModelType::Unit(_) => out.push_str("Unit"),
        ModelType::BitVec(None, _) => out.push_str("(bv)"),
        ModelType::BitVec(Some(width), _) => write!(out, "(bv {width})"),
        ModelType::Named(name, _) => {
            out.push_str("(named")?;
            push_word(out, &name.0)?;
            out.push_str(")")
        }
    }
}

/// Adds an expression.
#[cycle(printing)]
pub fn push_expr(out: &mut String, expr: &SpecExpr) -> Result<(), AllocError>
    ensures { OnOk result (string_bytes out.new ≡ string_bytes out.old ++ written (spec_expr_form (spec_expr_view expr.now))) }
{
    match expr {
        SpecExpr::ConstInt { val, .. } => push_number(out, *val),
        SpecExpr::ConstBitVec { val, width, .. } => push_bits(out, *val, *width),
        SpecExpr::ConstBool { val, .. } => push_truth(out, *val),
        SpecExpr::ConstUnit { .. } => out.push_str("()"),
        SpecExpr::Var { var, .. } => out.push_str(&var.0),
        SpecExpr::Op { op, args, .. } => push_section(out, &op.0, args),
        SpecExpr::Cases {
            op,
            value,
            cases,
            ..
        } => {
            push_first(out, &op.0, value)?;
            push_rest(out, cases)
        }
        SpecExpr::Let { defs, body, .. } => {
            out.push_str("(let ")?;
            push_group(out, defs)?;
            push_last(out, body)
        }
        SpecExpr::With { names, body, .. } => push_with(out, names, body),
        SpecExpr::As { value, ty, .. } => push_as(out, value, ty),
        SpecExpr::Pair { left, right, .. } => {
            out.push_str("(")?;
            push_expr(out, left)?;
            push_last(out, right)
        }
    }
}

/// Adds a list of a word and expressions.
#[cycle(printing)]
pub fn push_section(out: &mut String, head: &str, exprs: &[SpecExpr]) -> Result<(), AllocError>
    ensures { OnOk result (string_bytes out.new
        ≡ string_bytes out.old ++ 40 ∷ ((head.now ++ spaced (spec_expr_forms (spec_expr_views exprs.now))) ++ 41 ∷ [])) }
{
    out.push_str("(")?;
    out.push_str(head)?;
    push_rest(out, exprs)
}

// Begins a list of a word and expressions, and adds the first of these.
#[cycle(printing)]
fn push_first(out: &mut String, head: &str, expr: &SpecExpr) -> Result<(), AllocError>
    ensures { OnOk result (string_bytes out.new ≡ string_bytes out.old ++ 40 ∷ (head.now ++ 32 ∷ written (spec_expr_form (spec_expr_view expr.now)))) }
{
    out.push_str("(")?;
    out.push_str(head)?;
    out.push_str(" ")?;
    push_expr(out, expr)
}

// Adds expressions, each behind a space, and ends the list.
#[cycle(printing)]
fn push_rest(out: &mut String, exprs: &[SpecExpr]) -> Result<(), AllocError>
    ensures { OnOk result (string_bytes out.new ≡ string_bytes out.old ++ (spaced (spec_expr_forms (spec_expr_views exprs.now)) ++ 41 ∷ [])) }
{
    push_exprs(out, exprs)?;
    out.push_str(")")
}

#[cycle(printing)]
fn push_with(out: &mut String, names: &[Ident], body: &SpecExpr) -> Result<(), AllocError>
    ensures { OnOk result (string_bytes out.new
        ≡ string_bytes out.old
        ++ (codes "(with " ++ (written (list_form (names_before (map name_view names.now) no_form)) ++ 32 ∷ (written (spec_expr_form (spec_expr_view body.now)) ++ 41 ∷ [])))) }
{
    out.push_str("(with ")?;
    push_list(out, names)?;
    push_last(out, body)
}

#[cycle(printing)]
fn push_as(out: &mut String, value: &SpecExpr, ty: &ModelType) -> Result<(), AllocError>
    ensures { OnOk result (string_bytes out.new
        ≡ string_bytes out.old
        ++ (codes "(as " ++ (written (spec_expr_form (spec_expr_view value.now)) ++ 32 ∷ (written (model_type_form (model_type_view ty.now)) ++ 41 ∷ [])))) }
{
    out.push_str("(as ")?;
    push_expr(out, value)?;
    out.push_str(" ")?;
    push_type(out, ty)?;
    out.push_str(")")
}

// Adds expressions, each behind a space.
#[cycle(printing)]
fn push_exprs(out: &mut String, exprs: &[SpecExpr]) -> Result<(), AllocError>
    ensures { OnOk result (string_bytes out.new ≡ string_bytes out.old ++ spaced (spec_expr_forms (spec_expr_views exprs.now))) }
{
    for expr in exprs {
        out.push_str(" ")?;
        push_expr(out, expr)?;
    }
    Ok(())
}

#[cycle(printing)]
fn push_group(out: &mut String, exprs: &[SpecExpr]) -> Result<(), AllocError>
    ensures { OnOk result (string_bytes out.new ≡ string_bytes out.old ++ written (list_form (spec_expr_forms (spec_expr_views exprs.now)))) }
{
    out.push_str("(")?;
    push_parts(out, exprs)?;
    out.push_str(")")
}

// Adds expressions with a space between them.
#[cycle(printing)]
fn push_parts(out: &mut String, exprs: &[SpecExpr]) -> Result<(), AllocError>
    ensures { OnOk result (string_bytes out.new ≡ string_bytes out.old ++ parted (spec_expr_forms (spec_expr_views exprs.now))) }
{
    for i in 0..exprs.len() {
        push_gap(out, i > 0)?;
        push_expr(out, &exprs[i])?;
    }
    Ok(())
}

/// Adds the last part of a list, an expression, behind a space, and ends the list.
#[cycle(printing)]
pub fn push_last(out: &mut String, expr: &SpecExpr) -> Result<(), AllocError>
    ensures { OnOk result (string_bytes out.new ≡ string_bytes out.old ++ 32 ∷ (written (spec_expr_form (spec_expr_view expr.now)) ++ 41 ∷ [])) }
{
    out.push_str(" ")?;
    push_expr(out, expr)?;
    out.push_str(")")
}

// Adds bits: four a digit, if the width allows it.
fn push_bits(out: &mut String, val: u128, width: usize) -> Result<(), AllocError>
    ensures { OnOk result (string_bytes out.new ≡ string_bytes out.old ++ bits_text val width) }
{
    if width % 4 == 0 {
        out.push_str("#x")?;
        push_digits(out, val, width / 4, 16)
    } else {
        out.push_str("#b")?;
        push_digits(out, val, width, 2)
    }
}

// Adds the last digits of a number, so many of them.
fn push_digits(out: &mut String, val: u128, count: usize, radix: u128) -> Result<(), AllocError>
    requires lower { 0 < radix }
    requires upper { radix ≤ 16 }
    ensures { OnOk result (string_bytes out.new ≡ string_bytes out.old ++ digits_text radix count val) }
{
    if count == 0 {
        return Ok(());
    }
    push_digits(out, val / radix, count - 1, radix)?;
    out.push_str(digit(val % radix))
}

// A number below 16 as a digit.
fn digit(value: u128) -> &'static str
    requires { value < 16 }
    ensures { result.now ≡ digit_text value ∷ [] }
{
    match value {
        0 => "0",
        1 => "1",
        2 => "2",
        3 => "3",
        4 => "4",
        5 => "5",
        6 => "6",
        7 => "7",
        8 => "8",
        9 => "9",
        10 => "a",
        11 => "b",
        12 => "c",
        13 => "d",
        14 => "e",
        _ => "f",
    }
}
