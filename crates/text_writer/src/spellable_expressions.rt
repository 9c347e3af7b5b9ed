//! Which types and expressions a text can spell.
#![tactic(auto, using(text_reader::proofs::SpecViews::spec_steps))]

ghost use Rattle.std.specs.Prelude.{◌≡◌, ◌-◌, ◌^◌, ◌&&◌, map, nat_lt};
ghost use Rattle.core_syntax.specs.SyntaxViews.{name_view};
ghost use Rattle.text_reader.specs.SpecGrammar.{has_cases};
ghost use Rattle.text_reader.specs.SpecViews.{model_type_view, spec_expr_view, spec_expr_views};
ghost use Rattle.text_writer.specs.SpellableTrees.{are_any_words, is_operator, model_type_is_spellable, pair_is_spellable, pairs_are_spellable, spec_expr_is_spellable, spec_exprs_are_spellable};

use crate::spec_words::{
    are_any_words, bits_are_spellable, has_cases, is_any_word, is_operator, is_spec_variable,
};
use crate::words::is_signed_128;
use core_syntax::syntax::Ident;
use text_reader::syntax::{ModelType, SpecExpr};

/// Whether a type can be spelled, where its lists nest so deep at most.
pub fn type_is_spellable(ty: &ModelType, room: usize) -> bool
    ensures { result ≡ model_type_is_spellable (model_type_view ty.now) room }
{
    match ty {
        ModelType::Int(_) | ModelType::Bool(_) | ModelType::Unit(_) => true,
        ModelType::BitVec(None, _) => room > 0,
        ModelType::BitVec(Some(width), _) => room > 0 && is_width(*width),
        ModelType::Named(name, _) => room > 0 && is_any_word(name),
    }
}

// Whether a width can be written: each of 64 bits can.
fn is_width(_width: usize) -> bool
    ensures { result ≡ nat_lt _width (2 ^ 64) }
{
    true
}

/// Whether an expression can be spelled, where its lists nest so deep at most.
#[cycle(spellable)]
pub fn expr_is_spellable(expr: &SpecExpr, room: usize) -> bool
    ensures { result ≡ spec_expr_is_spellable (spec_expr_view expr.now) room }
{
    match expr {
        SpecExpr::ConstInt { val, .. } => is_signed_128(*val),
        SpecExpr::ConstBitVec { val, width, .. } => bits_are_spellable(*val, *width),
        SpecExpr::ConstBool { .. } => true,
        SpecExpr::ConstUnit { .. } => room > 0,
        SpecExpr::Var { var, .. } => is_spec_variable(var),
        SpecExpr::Op { op, args, .. } => operation_is_spellable(op, args, room),
        SpecExpr::Cases {
            op,
            value,
            cases,
            ..
        } => {
            value_is_spellable(op, value, room)
                && pairs_are_spellable(cases, room.saturating_sub(1))
        }
        SpecExpr::Let { defs, body, .. } => {
            defs_are_spellable(defs, room) && expr_is_spellable(body, room.saturating_sub(1))
        }
        SpecExpr::With { names, body, .. } => with_is_spellable(names, body, room),
        SpecExpr::As { value, ty, .. } => as_is_spellable(value, ty, room),
        SpecExpr::Pair { .. } => false,
    }
}

/// Whether several expressions can be spelled.
#[cycle(spellable)]
pub fn exprs_are_spellable(exprs: &[SpecExpr], room: usize) -> bool
    ensures { result ≡ spec_exprs_are_spellable (spec_expr_views exprs.now) room }
{
    for expr in exprs {
        if !expr_is_spellable(expr, room) {
            return false;
        }
    }
    true
}

#[cycle(spellable)]
fn operation_is_spellable(op: &Ident, args: &[SpecExpr], room: usize) -> bool
    ensures { result ≡ (nat_lt 0 room && is_operator (name_view op.now) && spec_exprs_are_spellable (spec_expr_views args.now) (room - 1)) }
{
    room > 0 && is_operator(op) && exprs_are_spellable(args, room - 1)
}

// Whether an operator that has cases and its value can be spelled.
#[cycle(spellable)]
fn value_is_spellable(op: &Ident, value: &SpecExpr, room: usize) -> bool
    ensures { result ≡ (nat_lt 0 room && has_cases (name_view op.now) && spec_expr_is_spellable (spec_expr_view value.now) (room - 1)) }
{
    room > 0 && has_cases(op) && expr_is_spellable(value, room - 1)
}

#[cycle(spellable)]
fn defs_are_spellable(defs: &[SpecExpr], room: usize) -> bool
    ensures { result ≡ (nat_lt 1 room && pairs_are_spellable (spec_expr_views defs.now) (room - 2)) }
{
    room > 1 && pairs_are_spellable(defs, room - 2)
}

#[cycle(spellable)]
fn with_is_spellable(names: &[Ident], body: &SpecExpr, room: usize) -> bool
    ensures { result
        ≡ (nat_lt 1 room && are_any_words (map name_view names.now) && spec_expr_is_spellable (spec_expr_view body.now) (room - 1)) }
{
    room > 1 && are_any_words(names) && expr_is_spellable(body, room - 1)
}

#[cycle(spellable)]
fn as_is_spellable(value: &SpecExpr, ty: &ModelType, room: usize) -> bool
    ensures { result
        ≡ (nat_lt 0 room && spec_expr_is_spellable (spec_expr_view value.now) (room - 1) && model_type_is_spellable (model_type_view ty.now) (room - 1)) }
{
    room > 0 && expr_is_spellable(value, room - 1) && type_is_spellable(ty, room - 1)
}

#[cycle(spellable)]
fn pairs_are_spellable(exprs: &[SpecExpr], room: usize) -> bool
    ensures { result ≡ pairs_are_spellable (spec_expr_views exprs.now) room }
{
    for expr in exprs {
        if !pair_is_spellable(expr, room) {
            return false;
        }
    }
    true
}

// Whether a pair can be spelled. Nothing else stands for one.
#[cycle(spellable)]
fn pair_is_spellable(expr: &SpecExpr, room: usize) -> bool
    ensures { result ≡ pair_is_spellable (spec_expr_view expr.now) room }
{
    match expr {
        SpecExpr::Pair { left, right, .. } => {
            left_is_spellable(left, room) && expr_is_spellable(right, room.saturating_sub(1))
        }
        _ => false,
    }
}

// Whether the first part of a pair can be spelled.
#[cycle(spellable)]
fn left_is_spellable(left: &SpecExpr, room: usize) -> bool
    ensures { result ≡ (nat_lt 0 room && spec_expr_is_spellable (spec_expr_view left.now) (room - 1)) }
{
    room > 0 && expr_is_spellable(left, room - 1)
}
