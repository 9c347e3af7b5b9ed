//! Forms to expressions.

ghost use Rattle.std.specs.Prelude.{◌≡◌, ◌≤◌, ◌*◌, ◌^◌, codes, length, nat_le, false, true, Ok, drop, map};
ghost use Rattle.core_syntax.specs.SyntaxViews.{name_view, position};
ghost use Rattle.text_reader.specs.Forms.{FormIsWithin, FormsAreWithin, PosIsWithin};
ghost use Rattle.text_reader.specs.FormTrees.{a_list};
ghost use Rattle.text_reader.specs.FormViews.{all_view, form_view, parts_view};
ghost use Rattle.text_reader.specs.Grammar.{reads};
ghost use Rattle.text_reader.specs.Lists.{PartsAreWithin};
ghost use Rattle.text_reader.specs.Numbers.{digits_after};
ghost use Rattle.text_reader.specs.Views.{Gives};
ghost use Rattle.text_reader.specs.SpecGrammar.{are_bits, are_digits, arguments_of, bits_of, defs_of, has_cases, has_three, is_empty, last_expr_of, pair_in, pair_of, pairs_of, plain_word_of, spec_expr_of, spec_exprs_of, switch_of, three_of, word_spec_of};
ghost use Rattle.text_reader.specs.SpecTrees.{spec_as, spec_cases, spec_let, spec_op, spec_pair, spec_with};
ghost use Rattle.text_reader.specs.SpecViews.{model_type_view, spec_expr_view, spec_expr_views};

use crate::errors::{Mistake, ReadFault, fault};
use crate::forms::TextForm;
use crate::models::model_type;
use crate::numbers::{digit_of, size_of};
use crate::parts::{Parts, head, seen};
use crate::pieces::{last, name_list};
use crate::source::Source;
use crate::syntax::{ModelType, SpecExpr};
use core_syntax::syntax::{Ident, Pos};

/// The expression that is a list's last part.
pub fn last_expression(at: Source, parts: Parts<'_>) -> Result<SpecExpr, ReadFault>
    requires { PartsAreWithin at.file at.len parts }
    ensures { Gives spec_expr_view result (last_expr_of (parts_view parts.entry)) }
{
    expression(at, last(at, parts, Mistake::Expression)?)
}

/// The expressions that forms are.
pub fn expressions(at: Source, forms: &[TextForm]) -> Result<Vec<SpecExpr>, ReadFault>
    requires { FormsAreWithin at.file at.len forms.now }
    ensures { Gives (λ xs. spec_expr_views xs.items) result (spec_exprs_of (all_view forms.now)) }
{
    let mut expressions = Vec::new(at.alloc);
    for form in forms {
        expressions.push(expression(at, form)?)?;
    }
    Ok(expressions)
}

#[cycle(expression)]
fn expression(at: Source, form: &TextForm) -> Result<SpecExpr, ReadFault>
    requires { FormIsWithin at.file at.len form.now }
    ensures { Gives spec_expr_view result (spec_expr_of (form_view form.now)) }
{
    match form {
        TextForm::Word(word) => word_expression(word),
        TextForm::Number(val, pos) => Ok(SpecExpr::ConstInt {
            val: *val,
            pos: *pos,
        }),
        TextForm::Constant(_, pos) => Err(fault(Mistake::Expression, *pos)),
        TextForm::Bound(name, _) => Err(fault(Mistake::Expression, name.1)),
        TextForm::Group(parts, pos, end) => {
            let parts: &[TextForm] = parts;
            seen(at, parts);
            list_expression(at, parts, *pos, *end)
        }
    }
}

#[cycle(expression)]
fn list_expression(
    at: Source,
    parts: &[TextForm],
    pos: Pos,
    end: Pos,
) -> Result<SpecExpr, ReadFault>
    requires parts { FormsAreWithin at.file at.len parts.now }
    requires end { PosIsWithin at.file at.len end }
    ensures { Gives spec_expr_view result (spec_expr_of (a_list (all_view parts.now) (position pos) (position end))) }
{
    if is_empty(parts) {
        return Ok(SpecExpr::ConstUnit { pos });
    }
    let op = head(at, parts, end)?;
    if has_cases(&op) {
        return switch(at, op, parts, pos, end);
    }
    if has_three(&op) {
        return three(at, &op, parts, pos, end);
    }
    let args = arguments(at, parts)?;
    Ok(operation(op, args, pos))
}

// A switch with these parts, its head the first.
#[cycle(expression)]
fn switch(
    at: Source,
    op: Ident,
    parts: &[TextForm],
    pos: Pos,
    end: Pos,
) -> Result<SpecExpr, ReadFault>
    requires { FormsAreWithin at.file at.len parts.now }
    ensures { Gives spec_expr_view result (switch_of (name_view op) (all_view parts.now) (position pos) (position end)) }
{
    match parts {
        [_, value, ..] => {
            let value = expression(at, value)?;
            let cases = pairs(at, parts, 2)?;
            with_cases(at, op, value, cases, pos)
        }
        _ => Err(fault(Mistake::Expression, end)),
    }
}

// A list of three parts that begins with `let`, `with` or `as`.
#[cycle(expression)]
fn three(
    at: Source,
    op: &Ident,
    parts: &[TextForm],
    pos: Pos,
    end: Pos,
) -> Result<SpecExpr, ReadFault>
    requires { FormsAreWithin at.file at.len parts.now }
    ensures { Gives spec_expr_view result (three_of (name_view op.now) (all_view parts.now) (position pos) (position end)) }
{
    if let [_, _, _, more, ..] = parts {
        return Err(fault(Mistake::End, more.pos()));
    }
    if is_let(op) {
        return let_in(at, op, parts, pos, end);
    }
    if is_with(op) {
        return with_names(at, op, parts, pos, end);
    }
    as_type(at, op, parts, pos, end)
}

// Definitions and an expression, behind `let`.
#[cycle(expression)]
fn let_in(
    at: Source,
    op: &Ident,
    parts: &[TextForm],
    pos: Pos,
    end: Pos,
) -> Result<SpecExpr, ReadFault>
    requires parts { FormsAreWithin at.file at.len parts.now }
    requires few { length parts.now ≤ 3 }
    requires word { reads (name_view op.now) (codes "let") ≡ true }
    ensures { Gives spec_expr_view result (three_of (name_view op.now) (all_view parts.now) (position pos) (position end)) }
{
    match parts {
        [_, defs, body, ..] => {
            let defs = definitions(at, defs)?;
            let body = expression(at, body)?;
            under_definitions(at, defs, body, pos)
        }
        _ => Err(fault(Mistake::Expression, end)),
    }
}

#[cycle(expression)]
fn definitions(at: Source, form: &TextForm) -> Result<Vec<SpecExpr>, ReadFault>
    requires { FormIsWithin at.file at.len form.now }
    ensures { Gives (λ xs. spec_expr_views xs.items) result (defs_of (form_view form.now)) }
{
    match form {
        TextForm::Group(parts, _, _) => {
            let parts: &[TextForm] = parts;
            seen(at, parts);
            pairs(at, parts, 0)
        }
        _ => Err(fault(Mistake::Case, form.pos())),
    }
}

// Names and an expression, behind `with`.
#[cycle(expression)]
fn with_names(
    at: Source,
    op: &Ident,
    parts: &[TextForm],
    pos: Pos,
    end: Pos,
) -> Result<SpecExpr, ReadFault>
    requires parts { FormsAreWithin at.file at.len parts.now }
    requires few { length parts.now ≤ 3 }
    requires other { reads (name_view op.now) (codes "let") ≡ false }
    requires word { reads (name_view op.now) (codes "with") ≡ true }
    ensures { Gives spec_expr_view result (three_of (name_view op.now) (all_view parts.now) (position pos) (position end)) }
{
    match parts {
        [_, names, body, ..] => {
            let names = name_list(at, names)?;
            let body = expression(at, body)?;
            under_names(at, names, body, pos)
        }
        _ => Err(fault(Mistake::Expression, end)),
    }
}

// An expression and its type, behind `as`.
#[cycle(expression)]
fn as_type(
    at: Source,
    op: &Ident,
    parts: &[TextForm],
    pos: Pos,
    end: Pos,
) -> Result<SpecExpr, ReadFault>
    requires parts { FormsAreWithin at.file at.len parts.now }
    requires few { length parts.now ≤ 3 }
    requires no_let { reads (name_view op.now) (codes "let") ≡ false }
    requires no_with { reads (name_view op.now) (codes "with") ≡ false }
    ensures { Gives spec_expr_view result (three_of (name_view op.now) (all_view parts.now) (position pos) (position end)) }
{
    match parts {
        [_, value, ty, ..] => {
            let value = expression(at, value)?;
            let ty = model_type(at, ty)?;
            of_type(at, value, ty, pos)
        }
        _ => Err(fault(Mistake::Expression, end)),
    }
}

// The expressions behind the first part of a list.
#[cycle(expression)]
fn arguments(at: Source, parts: &[TextForm]) -> Result<Vec<SpecExpr>, ReadFault>
    requires { FormsAreWithin at.file at.len parts.now }
    ensures { Gives (λ xs. spec_expr_views xs.items) result (arguments_of (all_view parts.now)) }
{
    let mut arguments = Vec::new(at.alloc);
    for i in 1..parts.len() {
        arguments.push(expression(at, &parts[i])?)?;
    }
    Ok(arguments)
}

// The pairs that the parts of a list are, from this one on.
#[cycle(expression)]
fn pairs(at: Source, parts: &[TextForm], from: usize) -> Result<Vec<SpecExpr>, ReadFault>
    requires { FormsAreWithin at.file at.len parts.now }
    ensures { Gives (λ xs. spec_expr_views xs.items) result (pairs_of (all_view (drop from parts.now))) }
{
    let mut pairs = Vec::new(at.alloc);
    for i in from..parts.len() {
        pairs.push(pair(at, &parts[i])?)?;
    }
    Ok(pairs)
}

#[cycle(expression)]
fn pair(at: Source, form: &TextForm) -> Result<SpecExpr, ReadFault>
    requires { FormIsWithin at.file at.len form.now }
    ensures { Gives spec_expr_view result (pair_of (form_view form.now)) }
{
    match form {
        TextForm::Group(parts, pos, _) => {
            let parts: &[TextForm] = parts;
            seen(at, parts);
            pair_in(at, parts, *pos)
        }
        _ => Err(fault(Mistake::Case, form.pos())),
    }
}

#[cycle(expression)]
fn pair_in(at: Source, parts: &[TextForm], pos: Pos) -> Result<SpecExpr, ReadFault>
    requires { FormsAreWithin at.file at.len parts.now }
    ensures { Gives spec_expr_view result (pair_in (all_view parts.now) (position pos)) }
{
    match parts {
        [left, right] => {
            let left = expression(at, left)?;
            let right = expression(at, right)?;
            both(at, left, right, pos)
        }
        [_, _, _, ..] => Err(fault(Mistake::Case, pos)),
        _ => Err(fault(Mistake::Case, pos)),
    }
}

/// Whether there are no parts.
pub fn is_empty(parts: &[TextForm]) -> bool
    ensures { result ≡ is_empty (all_view parts.now) }
{
    match parts {
        [] => true,
        [_, ..] => false,
    }
}

fn operation(op: Ident, args: Vec<SpecExpr>, pos: Pos) -> SpecExpr
    ensures { spec_expr_view result ≡ spec_op (name_view op) (spec_expr_views args.items) (position pos) }
{
    SpecExpr::Op { op, args, pos }
}

fn with_cases(
    at: Source,
    op: Ident,
    value: SpecExpr,
    cases: Vec<SpecExpr>,
    pos: Pos,
) -> Result<SpecExpr, ReadFault>
    ensures { Gives spec_expr_view result (Ok (spec_cases (name_view op) (spec_expr_view value) (spec_expr_views cases.items) (position pos))) }
{
    let value = Box::new(at.alloc, value)?;
    Ok(SpecExpr::Cases {
        op,
        value,
        cases,
        pos,
    })
}

fn under_definitions(
    at: Source,
    defs: Vec<SpecExpr>,
    body: SpecExpr,
    pos: Pos,
) -> Result<SpecExpr, ReadFault>
    ensures { Gives spec_expr_view result (Ok (spec_let (spec_expr_views defs.items) (spec_expr_view body) (position pos))) }
{
    let body = Box::new(at.alloc, body)?;
    Ok(SpecExpr::Let { defs, body, pos })
}

fn under_names(
    at: Source,
    names: Vec<Ident>,
    body: SpecExpr,
    pos: Pos,
) -> Result<SpecExpr, ReadFault>
    ensures { Gives spec_expr_view result (Ok (spec_with (map name_view names.items) (spec_expr_view body) (position pos))) }
{
    let body = Box::new(at.alloc, body)?;
    Ok(SpecExpr::With { names, body, pos })
}

fn of_type(at: Source, value: SpecExpr, ty: ModelType, pos: Pos) -> Result<SpecExpr, ReadFault>
    ensures { Gives spec_expr_view result (Ok (spec_as (spec_expr_view value) (model_type_view ty) (position pos))) }
{
    let value = Box::new(at.alloc, value)?;
    Ok(SpecExpr::As { value, ty, pos })
}

// Two expressions as a pair.
fn both(at: Source, left: SpecExpr, right: SpecExpr, pos: Pos) -> Result<SpecExpr, ReadFault>
    ensures { Gives spec_expr_view result (Ok (spec_pair (spec_expr_view left) (spec_expr_view right) (position pos))) }
{
    let left = Box::new(at.alloc, left)?;
    let right = Box::new(at.alloc, right)?;
    Ok(SpecExpr::Pair { left, right, pos })
}

// Whether what follows the first argument of an operator are cases.
fn has_cases(op: &Ident) -> bool
    ensures { result ≡ has_cases (name_view op.now) }
{
    matches!(op.0.as_str(), "switch" | "match")
}

// Whether an operator is `let`, `with` or `as`.
fn has_three(op: &Ident) -> bool
    ensures { result ≡ has_three (name_view op.now) }
{
    matches!(op.0.as_str(), "let" | "with" | "as")
}

// Whether definitions follow an operator.
fn is_let(op: &Ident) -> bool
    ensures { result ≡ reads (name_view op.now) (codes "let") }
{
    op.0.as_str() == "let"
}

// Whether names follow an operator.
fn is_with(op: &Ident) -> bool
    ensures { result ≡ reads (name_view op.now) (codes "with") }
{
    op.0.as_str() == "with"
}

// A word as an expression: bits, a truth value or a name.
fn word_expression(word: &Ident) -> Result<SpecExpr, ReadFault>
    ensures { Gives spec_expr_view result (word_spec_of (name_view word.now)) }
{
    match word.0.as_bytes() {
        [b'#', b'x', digits @ ..] => bits(digits, 16, 4, word.1),
        [b'#', b'b', digits @ ..] => bits(digits, 2, 1, word.1),
        _ => plain_word(word),
    }
}

// A word that is no bits.
fn plain_word(word: &Ident) -> Result<SpecExpr, ReadFault>
    ensures { Gives spec_expr_view result (Ok (plain_word_of (name_view word.now))) }
{
    let pos = word.1;
    match word.0.as_str() {
        "true" => Ok(SpecExpr::ConstBool { val: true, pos }),
        "false" => Ok(SpecExpr::ConstBool { val: false, pos }),
        _ => Ok(SpecExpr::Var {
            var: word.clone()?,
            pos,
        }),
    }
}

// Bits by digits of a base, so many bits each.
fn bits(digits: &[u8], radix: u32, each: usize, pos: Pos) -> Result<SpecExpr, ReadFault>
    requires lower { 2 ≤ radix }
    requires upper { radix ≤ 16 }
    requires fits { radix ≡ 2 ^ each }
    ensures { Gives spec_expr_view result (bits_of radix each digits.now (position pos)) }
{
    if are_bits(digits, radix, each) {
        return Ok(SpecExpr::ConstBitVec {
            val: number(digits, radix, each),
            width: digits.len() * each,
            pos,
        });
    }
    Err(fault(Mistake::Bits, pos))
}

// The number that digits spell, which has 128 bits at most.
fn number(digits: &[u8], radix: u32, each: usize) -> u128
    requires lower { 2 ≤ radix }
    requires upper { radix ≤ 16 }
    requires fits { radix ≡ 2 ^ each }
    requires bits { are_bits radix each digits.now ≡ true }
    ensures { result ≡ digits_after radix 0 digits.now }
{
    match size_of(digits, radix) {
        Some(size) => size,
        None => 0,
    }
}

// Whether these are digits of a base, at least one, and 128 bits at most with so many bits each.
fn are_bits(digits: &[u8], radix: u32, each: usize) -> bool
    ensures { result ≡ are_bits radix each digits.now }
{
    !digits.is_empty() && are_few(digits.len(), each) && are_digits(digits, radix)
}

// Whether so many digits are 128 bits at most.
fn are_few(count: usize, each: usize) -> bool
    ensures { result ≡ nat_le (count * each) 128 }
{
    match count.checked_mul(each) {
        Some(bits) => bits <= 128,
        None => false,
    }
}

fn are_digits(digits: &[u8], radix: u32) -> bool
    ensures { result ≡ are_digits radix digits.now }
{
    digits.iter().all(|digit| digit_of(*digit) < radix)
}
