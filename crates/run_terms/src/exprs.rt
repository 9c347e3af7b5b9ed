//! Typed expressions: the value of one without impure calls, and what one of a right side comes to, its impure calls made
//! in order.

ghost use Rattle.std.specs.Prelude.{◌≡◌, ◌++◌, ◌∷◌, [], ℕ, IfOk, Some, length, option_map};
ghost use Rattle.model.specs.rules.Outcome.{then_option};
ghost use Rattle.model.specs.rules.RightSide.{applied, eval_all, eval, eval_lets, impure_call};
ghost use Rattle.model.specs.rules.Program.{kind};
ghost use Rattle.model.specs.rules.Matching.{pure_lets, pure_term, pure_value, pure_values};
ghost use Rattle.core_typed.specs.ExprViews.{expr_parts, expr_view, expr_views, let_parts, let_views};
ghost use Rattle.run_terms.specs.RunViews.{call_views};
ghost use Rattle.run_terms.specs.ValueViews.{value_view, value_views};
ghost use Rattle.model.specs.rules.Meaning.{total};
ghost use Rattle.run_terms.specs.SourceViews.{of_terms, source_program, meaning_in, evaluated_all_view, evaluated_view, lets_view, purity, vars_view, with_value};

use crate::answers::single;
use crate::externs::Externs;
use crate::source::RuleContext;
use crate::state::Call;
use crate::values::Value;
use crate::vars::{copied, value_of};
use core_terms::{Term, TermKind};
use core_typed::Expr;
use core_types::{TermId, TypeId, VarId};
use std::alloc::AllocError;

// The value of a term on values: what it makes, or what its call answers, where that is one value.
fn pure_term<E: Externs>(
    source: &RuleContext<'_, E>,
    term: TermId,
    args: Vec<Value>,
) -> Result<Option<Value>, AllocError>
    ensures { IfOk result (λ o. option_map value_view o
        ≡ pure_term (kind (source_program source.now) term.0) (meaning_in E.functions source.now) term.0 (value_views args.items)) }
{
    match source.terms.get(term.index()) {
        Some(entry) => match &entry.kind {
            TermKind::EnumVariant { variant } => {
                Ok(Some(Value::Variant(entry.ret_ty, *variant, args)))
            }
            TermKind::Struct => Ok(Some(Value::Struct(entry.ret_ty, args))),
            TermKind::Decl { .. } => {
                let answer = source.externs.pure_call(source.alloc, term, &args)?;
                Ok(single(&answer)?)
            }
        },
        None => Ok(None),
    }
}

/// The value of an expression that makes no impure calls, where it has one.
#[cycle(pure)]
pub fn pure_value<E: Externs>(
    source: &RuleContext<'_, E>,
    expr: &Expr,
    vars: &[(VarId, Option<Value>)],
) -> Result<Option<Value>, AllocError>
    ensures { IfOk result (λ o. option_map value_view o
        ≡ pure_value (of_terms source.now.terms.now) (total (E.functions source.now.externs.now)) (expr_view expr.now) (vars_view vars.now)) }
{
    match expr {
        Expr::Term(_, term, args) => match pure_values(source, args, vars)? {
            Some(values) => Ok(pure_term(source, *term, values)?),
            None => Ok(None),
        },
        Expr::Var(_, var) => value_of(vars, *var),
        Expr::ConstBool(ty, val) => Ok(Some(source.externs.bool_literal(source.alloc, *val, *ty)?)),
        Expr::ConstInt(ty, val) => Ok(Some(source.externs.int_literal(source.alloc, *val, *ty)?)),
        Expr::ConstPrim(_, val) => Ok(Some(source.externs.constant(source.alloc, *val)?)),
        Expr::Let { bindings, body, .. } => {
            let mut inner = copied(source.alloc, vars)?;
            pure_lets(source, bindings, &mut inner)?;
            Ok(pure_value(source, body, &inner)?)
        }
    }
}

// The values of expressions, where each has one.
#[cycle(pure)]
fn pure_values<E: Externs>(
    source: &RuleContext<'_, E>,
    exprs: &[Expr],
    vars: &[(VarId, Option<Value>)],
) -> Result<Option<Vec<Value>>, AllocError>
    ensures { IfOk result (λ o. option_map (λ v. value_views v.items) o
        ≡ pure_values (source_program source.now) (meaning_in E.functions source.now) (expr_parts (expr_views exprs.now)) (vars_view vars.now)) }
{
    let mut out = Vec::new(source.alloc);
    for expr in exprs {
        match pure_value(source, expr, vars)? {
            Some(value) => out.push(value)?,
            None => return Ok(None),
        }
    }
    Ok(Some(out))
}

// A let's definitions: each variable is bound to its value, or as one whose value failed.
#[cycle(pure)]
fn pure_lets<E: Externs>(
    source: &RuleContext<'_, E>,
    bindings: &[(VarId, TypeId, Box<Expr>)],
    vars: &mut Vec<(VarId, Option<Value>)>,
) -> Result<(), AllocError>
    ensures { IfOk result (λ u. vars_view vars.new.items
        ≡ pure_lets (source_program source.now) (meaning_in E.functions source.now) (let_parts (let_views bindings.now)) (vars_view vars.old.items)) }
{
    for binding in bindings {
        let value = pure_value(source, &binding.2, vars)?;
        vars.push((binding.0, value))?;
    }
    Ok(())
}

/// What an expression of a right side comes to.
#[derive(Drop)]
pub enum Evaluated {
    /// Its value, or that it failed.
    Gives(Option<Value>),
    /// An impure call gave nothing, or was handed a value that failed: all ends.
    Ends,
}

// What the arguments of a term come to.
#[derive(Drop)]
pub(crate) enum EvaluatedAll {
    // Their values, or that one failed.
    GivesAll(Option<Vec<Value>>),
    // All ends.
    EndsAll,
}

// An impure call with values for its arguments is made, and listed.
fn impure_call<E: Externs>(
    source: &RuleContext<'_, E>,
    term: TermId,
    args: Vec<Value>,
    calls: &mut Vec<Call>,
) -> Result<Evaluated, AllocError>
    ensures { IfOk result (λ r. evaluated_view r (call_views calls.new.items)
        ≡ impure_call (meaning_in E.functions source.now) term.0 (Some (value_views args.items)) (call_views calls.old.items)) }
{
    let answer = source
        .externs
        .impure_call(source.alloc, term, &args, calls.len())?;
    calls.push(Call { term, args })?;
    match single(&answer)? {
        Some(value) => Ok(Evaluated::Gives(Some(value))),
        None => Ok(Evaluated::Ends),
    }
}

// Whether a term is pure, where there is such a term.
fn purity(terms: &[Term], term: TermId) -> Option<bool>
    ensures { result ≡ purity (kind (of_terms terms.now) term.0) }
{
    match terms.get(term.index()) {
        Some(entry) => match &entry.kind {
            TermKind::EnumVariant { .. } => Some(true),
            TermKind::Struct => Some(true),
            TermKind::Decl { flags, .. } => Some(flags.pure),
        },
        None => None,
    }
}

// What a pure term comes to on values, or where one of them failed.
fn pure_applied<E: Externs>(
    source: &RuleContext<'_, E>,
    term: TermId,
    args: Option<Vec<Value>>,
) -> Result<Option<Value>, AllocError>
    ensures { IfOk result (λ o. option_map value_view o
        ≡ then_option (option_map (λ v. value_views v.items) args)
        (λ vs. pure_term (kind (source_program source.now) term.0) (meaning_in E.functions source.now) term.0 vs)) }
{
    match args {
        Some(args) => pure_term(source, term, args),
        None => Ok(None),
    }
}

// What an impure term comes to on values, or where one of them failed.
fn impure_applied<E: Externs>(
    source: &RuleContext<'_, E>,
    term: TermId,
    args: Option<Vec<Value>>,
    calls: &mut Vec<Call>,
) -> Result<Evaluated, AllocError>
    ensures { IfOk result (λ r. evaluated_view r (call_views calls.new.items)
        ≡ impure_call (meaning_in E.functions source.now) term.0 (option_map (λ v. value_views v.items) args) (call_views calls.old.items)) }
{
    match args {
        Some(args) => impure_call(source, term, args, calls),
        None => Ok(Evaluated::Ends),
    }
}

// What a term comes to on values, or where one of them failed.
fn applied<E: Externs>(
    source: &RuleContext<'_, E>,
    term: TermId,
    args: Option<Vec<Value>>,
    calls: &mut Vec<Call>,
) -> Result<Evaluated, AllocError>
    ensures { IfOk result (λ r. evaluated_view r (call_views calls.new.items)
        ≡ applied (kind (source_program source.now) term.0) (meaning_in E.functions source.now) term.0 (option_map (λ v. value_views v.items) args)
        (call_views calls.old.items)) }
{
    match purity(source.terms, term) {
        Some(true) => Ok(Evaluated::Gives(pure_applied(source, term, args)?)),
        Some(false) => impure_applied(source, term, args, calls),
        None => Ok(Evaluated::Ends),
    }
}

/// What an expression of a right side comes to. Its impure calls are made in order, and listed behind those before.
#[cycle(eval)]
pub fn eval<E: Externs>(
    source: &RuleContext<'_, E>,
    expr: &Expr,
    vars: &[(VarId, Option<Value>)],
    calls: &mut Vec<Call>,
) -> Result<Evaluated, AllocError>
    ensures { IfOk result (λ r. evaluated_view r (call_views calls.new.items)
        ≡ eval (of_terms source.now.terms.now) (total (E.functions source.now.externs.now)) (expr_view expr.now) (vars_view vars.now)
        (call_views calls.old.items)) }
{
    match expr {
        Expr::Term(_, term, args) => match eval_all(source, args, vars, calls)? {
            EvaluatedAll::GivesAll(values) => Ok(applied(source, *term, values, calls)?),
            EvaluatedAll::EndsAll => Ok(Evaluated::Ends),
        },
        Expr::Var(_, var) => Ok(Evaluated::Gives(value_of(vars, *var)?)),
        Expr::ConstBool(ty, val) => {
            let value = source.externs.bool_literal(source.alloc, *val, *ty)?;
            Ok(Evaluated::Gives(Some(value)))
        }
        Expr::ConstInt(ty, val) => {
            let value = source.externs.int_literal(source.alloc, *val, *ty)?;
            Ok(Evaluated::Gives(Some(value)))
        }
        Expr::ConstPrim(_, val) => {
            let value = source.externs.constant(source.alloc, *val)?;
            Ok(Evaluated::Gives(Some(value)))
        }
        Expr::Let { bindings, body, .. } => {
            let mut inner = copied(source.alloc, vars)?;
            let goes_on = eval_lets(source, bindings, &mut inner, calls)?;
            if goes_on {
                Ok(eval(source, body, &inner, calls)?)
            } else {
                Ok(Evaluated::Ends)
            }
        }
    }
}

// Values with one more behind them, where all are there.
fn with_value(
    given: Option<Vec<Value>>,
    value: Option<Value>,
) -> Result<Option<Vec<Value>>, AllocError>
    ensures { IfOk result (λ o. option_map (λ v. v.items) o ≡ with_value (option_map (λ v. v.items) given) value) }
{
    let Some(mut out) = given else {
        return Ok(None);
    };
    let Some(value) = value else {
        return Ok(None);
    };
    out.push(value)?;
    Ok(Some(out))
}

// What arguments come to, left to right.
#[cycle(eval)]
fn eval_all<E: Externs>(
    source: &RuleContext<'_, E>,
    exprs: &[Expr],
    vars: &[(VarId, Option<Value>)],
    calls: &mut Vec<Call>,
) -> Result<EvaluatedAll, AllocError>
    ensures { IfOk result (λ r. evaluated_all_view r (call_views calls.new.items)
        ≡ eval_all (source_program source.now) (meaning_in E.functions source.now) (expr_parts (expr_views exprs.now)) (vars_view vars.now)
        (call_views calls.old.items)) }
{
    let mut given = Some(Vec::new(source.alloc));
    for expr in exprs {
        match eval(source, expr, vars, calls)? {
            Evaluated::Gives(value) => {
                let more = with_value(given, value)?;
                given = more;
            }
            Evaluated::Ends => return Ok(EvaluatedAll::EndsAll),
        }
    }
    Ok(EvaluatedAll::GivesAll(given))
}

// A let's definitions, in order; whether all goes on.
#[cycle(eval)]
fn eval_lets<E: Externs>(
    source: &RuleContext<'_, E>,
    bindings: &[(VarId, TypeId, Box<Expr>)],
    vars: &mut Vec<(VarId, Option<Value>)>,
    calls: &mut Vec<Call>,
) -> Result<bool, AllocError>
    ensures { IfOk result (λ b. lets_view b (vars_view vars.new.items) (call_views calls.new.items)
        ≡ eval_lets (source_program source.now) (meaning_in E.functions source.now) (let_parts (let_views bindings.now)) (vars_view vars.old.items)
        (call_views calls.old.items)) }
{
    for binding in bindings {
        match eval(source, &binding.2, vars, calls)? {
            Evaluated::Gives(value) => vars.push((binding.0, value))?,
            Evaluated::Ends => return Ok(false),
        }
    }
    Ok(true)
}
