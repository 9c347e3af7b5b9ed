//! What the library says of rules that can't match, with names in the place of ids.

use core_why::{Asked, Unreachable};
use cranelift_isle::environments::Environments;
use cranelift_isle::sema::{Sym, TypeId, VariantId};
use cranelift_isle::syntax::Pos;
use report_names::mentions::{LiteralValue, Mention, MentionKind, Mentions};
use report_names::names::NameTables;
use std::alloc::{AllocError, Global};

/// The two forms that the library says a rule asks of one value, with the names that the environments have for ids. None where it
/// says something else, or there are no environments.
pub(crate) fn named_forms(
    alloc: Global,
    environments: Option<&Environments>,
    why: Unreachable,
) -> Result<Option<(String, String)>, AllocError> {
    let (Unreachable::Conflict { first, second }, Some(environments)) = (why, environments) else {
        return Ok(None);
    };
    let names = NameTables {
        tyenv: &environments.tyenv,
        terms: &environments.termenv.terms,
    };
    let first = named(alloc, names, first)?;
    let second = named(alloc, names, second)?;
    Ok(Some((first, second)))
}

// What is asked, by names. Nothing, where any value will do.
fn named(alloc: Global, names: NameTables<'_>, asked: Asked) -> Result<String, AllocError> {
    match asked {
        Asked::Variant { ty, variant } => {
            String::from_str(alloc, names.variant(TypeId(ty), VariantId(variant)))
        }
        Asked::Struct { ty } => String::from_str(alloc, names.ty(TypeId(ty))),
        Asked::Bool { val, .. } => format!(in alloc; "{val}"),
        Asked::Int { val, .. } => format!(in alloc; "{val}"),
        Asked::Prim { val } => {
            let name = names.sym(Sym(val));
            format!(in alloc; "${name}")
        }
        Asked::Some => Ok(String::new(alloc)),
    }
}

/// The place of a form in the patterns of a rule, by its names and literals, if it stands there once.
pub(crate) fn only_place(names: &Mentions<'_>, form: &str) -> Option<Pos> {
    let mut found = None;
    let mut count = 0usize;
    for mention in names.names.iter().filter(|mention| mention.in_pattern) {
        if is_named(mention, form) {
            found = Some(mention.form);
            count = count.saturating_add(1);
        }
    }
    for literal in names.literals.iter().filter(|literal| literal.in_pattern) {
        if is_literal(literal.value, form) {
            found = Some(literal.pos);
            count = count.saturating_add(1);
        }
    }
    if count == 1 { found } else { None }
}

// Whether a term or a constant has a form.
fn is_named(mention: &Mention<'_>, form: &str) -> bool {
    match mention.kind {
        MentionKind::Term => mention.text() == form,
        MentionKind::Constant => form.strip_prefix("$") == Some(mention.text()),
        _ => false,
    }
}

fn is_literal(value: LiteralValue, form: &str) -> bool {
    match value {
        LiteralValue::Truth(true) => form == "true",
        LiteralValue::Truth(false) => form == "false",
        LiteralValue::Integer(val) => match form.parse::<i128>() {
            Ok(number) => number == val,
            Err(_) => false,
        },
    }
}
