//! Values, as expressions write them.

use crate::echo::named_value;
use crate::opaque::{bare_integer, has_opaque_values, opaque_value};
use cranelift_isle::lower::Lowered;
use cranelift_isle::sema::{BuiltinType, Term, TermKind, Type, TypeId};
use cranelift_isle::syntax::{Expr, Ident};
use report_queries::names::{term_name, type_name};
use run_terms::values::Value;
use std::alloc::{AllocError, AllocFailed, Global};

/// Why a call has no outcome.
#[derive(Drop)]
pub enum Unanswered {
    /// Memory was refused.
    Memory,
    /// What is wrong with the call.
    Call(String),
}

impl From<AllocError> for Unanswered {
    fn from(_: AllocError) -> Unanswered {
        Unanswered::Memory
    }
}

impl<T: Drop> From<AllocFailed<T>> for Unanswered {
    fn from(_: AllocFailed<T>) -> Unanswered {
        Unanswered::Memory
    }
}

/// That something is wrong with a call.
pub fn wrong(text: Result<String, AllocError>) -> Unanswered {
    match text {
        Ok(text) => Unanswered::Call(text),
        Err(AllocError) => Unanswered::Memory,
    }
}

/// The term of a name.
pub fn term_of<'a>(lowered: &'a Lowered, name: &Ident) -> Option<&'a Term> {
    let id = lowered.termenv.get_term_by_name(&lowered.tyenv, name)?;
    lowered.termenv.terms.get(id.index())
}

/// The values that expressions write for the arguments of a term.
#[cycle(values)]
pub fn values_of(
    alloc: Global,
    lowered: &Lowered,
    term: &Term,
    args: &[Expr],
) -> Result<Vec<Value>, Unanswered> {
    let mut values = Vec::new(alloc);
    if args.len() != term.arg_tys.len() {
        return Err(wrong_count(alloc, lowered, term, args.len()));
    }
    for arg in args {
        match term.arg_tys.get(values.len()) {
            Some(ty) => values.push(value_of(alloc, lowered, arg, *ty)?)?,
            None => return Err(wrong_count(alloc, lowered, term, args.len())),
        }
    }
    Ok(values)
}

// That a term has another number of arguments.
fn wrong_count(alloc: Global, lowered: &Lowered, term: &Term, given: usize) -> Unanswered {
    let name = term_name(&lowered.tyenv, &lowered.termenv, term.id).unwrap_or("?");
    let wanted = term.arg_tys.len();
    wrong(format!(in alloc; "wrong number of arguments of `{name}`: {given} instead of {wanted}"))
}

/// The value of a type that an expression writes: an integer, a truth value, a constant, an opaque value, a variant or a struct.
#[cycle(values)]
pub fn value_of(
    alloc: Global,
    lowered: &Lowered,
    expr: &Expr,
    ty: TypeId,
) -> Result<Value, Unanswered> {
    match expr {
        Expr::ConstInt { val, .. } => integer(alloc, lowered, *val, ty),
        Expr::ConstBool { val, .. } => truth(alloc, lowered, *val, ty),
        Expr::ConstPrim { val, .. } => constant(alloc, lowered, val, ty),
        Expr::Term { sym, args, .. } => composed(alloc, lowered, sym, args, ty),
        Expr::Var { name, .. } => opaque_value(alloc, lowered, name, ty),
        Expr::Let { .. } => Err(no_value(alloc, lowered, "let", ty)),
    }
}

// The variant or the struct of this name with these fields.
#[cycle(values)]
fn composed(
    alloc: Global,
    lowered: &Lowered,
    name: &Ident,
    fields: &[Expr],
    ty: TypeId,
) -> Result<Value, Unanswered> {
    let Some(term) = term_of(lowered, name) else {
        return Err(no_value(alloc, lowered, name.0.as_str(), ty));
    };
    if term.ret_ty != ty {
        return Err(no_value(alloc, lowered, name.0.as_str(), ty));
    }
    match &term.kind {
        TermKind::EnumVariant { variant } => {
            let fields = values_of(alloc, lowered, term, fields)?;
            Ok(Value::Variant(ty, *variant, fields))
        }
        TermKind::Struct => {
            let fields = values_of(alloc, lowered, term, fields)?;
            Ok(Value::Struct(ty, fields))
        }
        TermKind::Decl { .. } => Err(no_value(alloc, lowered, name.0.as_str(), ty)),
    }
}

/// An integer as a value of a type: of a built-in one the number of its range that it stands for. Opaque values aren't written so.
pub fn integer(
    alloc: Global,
    lowered: &Lowered,
    val: i128,
    ty: TypeId,
) -> Result<Value, Unanswered> {
    match lowered.tyenv.types.get(ty.index()) {
        Some(Type::Builtin(BuiltinType::Int(int))) => Ok(Value::Atom(ty, int.reduce(val))),
        Some(Type::Primitive(..)) => Ok(Value::Atom(ty, val)),
        _ if has_opaque_values(&lowered.tyenv, ty) => Err(bare_integer(alloc, lowered, val, ty)),
        _ => {
            let text = format!(in alloc; "{val}")?;
            Err(no_value(alloc, lowered, &text, ty))
        }
    }
}

fn truth(alloc: Global, lowered: &Lowered, val: bool, ty: TypeId) -> Result<Value, Unanswered> {
    if ty == TypeId::BOOL {
        Ok(Value::Truth(val))
    } else {
        let text = if val { "true" } else { "false" };
        Err(no_value(alloc, lowered, text, ty))
    }
}

fn constant(
    alloc: Global,
    lowered: &Lowered,
    name: &Ident,
    ty: TypeId,
) -> Result<Value, Unanswered> {
    if let Some(sym) = lowered.tyenv.intern(name) {
        if lowered.tyenv.const_types.get(&sym).copied() == Some(ty) {
            return Ok(named_value(&lowered.tyenv, sym));
        }
    }
    let text = format!(in alloc; "${}", name.0)?;
    Err(no_value(alloc, lowered, &text, ty))
}

/// That something is no value of a type.
pub fn no_value(alloc: Global, lowered: &Lowered, text: &str, ty: TypeId) -> Unanswered {
    let name = type_name(&lowered.tyenv, ty).unwrap_or("?");
    wrong(format!(in alloc; "`{text}` isn't a value of type `{name}`"))
}
