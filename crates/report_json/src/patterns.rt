//! Typed patterns.

use crate::sites::{push_bool, push_int, push_named};
use cranelift_isle::sema::{Pattern, TypeId};
use report_names::names::NameTables;
use std::alloc::AllocError;
use text_json::Json;

/// Adds a typed pattern.
#[cycle(patterns)]
pub(crate) fn push_pattern(
    json: &mut Json,
    names: NameTables<'_>,
    pattern: &Pattern,
) -> Result<(), AllocError> {
    json.begin_object()?;
    match pattern {
        Pattern::BindPattern(ty, variable, inner) => {
            push_typed(json, names, "bind", *ty)?;
            json.key_number("variable", variable.index())?;
            json.key("pattern")?;
            push_pattern(json, names, inner)?;
        }
        Pattern::Term(ty, term, parts) => {
            push_typed(json, names, "term", *ty)?;
            json.key_string("name", names.term(*term))?;
            push_patterns(json, names, "arguments", parts)?;
        }
        Pattern::And(ty, parts) => {
            push_typed(json, names, "and", *ty)?;
            push_patterns(json, names, "patterns", parts)?;
        }
        _ => push_leaf(json, names, pattern)?,
    }
    json.end()
}

/// Adds typed patterns at a key.
#[cycle(patterns)]
pub(crate) fn push_patterns(
    json: &mut Json,
    names: NameTables<'_>,
    key: &str,
    patterns: &[Pattern],
) -> Result<(), AllocError> {
    json.begin_list_at(key)?;
    for pattern in patterns {
        push_pattern(json, names, pattern)?;
    }
    json.end()
}

// Adds what a pattern without parts is.
fn push_leaf(json: &mut Json, names: NameTables<'_>, pattern: &Pattern) -> Result<(), AllocError> {
    match pattern {
        Pattern::Var(ty, variable) => {
            push_typed(json, names, "variable", *ty)?;
            json.key_number("variable", variable.index())
        }
        Pattern::ConstBool(ty, value) => push_bool(json, names, *value, *ty),
        Pattern::ConstInt(ty, value) => push_int(json, names, *value, *ty),
        Pattern::ConstPrim(ty, name) => {
            push_named(json, "constant", names.sym(*name))?;
            json.key_string("type", names.ty(*ty))
        }
        Pattern::Wildcard(ty) => push_typed(json, names, "any", *ty),
        Pattern::BindPattern(..) | Pattern::Term(..) | Pattern::And(..) => Ok(()),
    }
}

/// Adds a kind and a type.
pub(crate) fn push_typed(
    json: &mut Json,
    names: NameTables<'_>,
    kind: &str,
    ty: TypeId,
) -> Result<(), AllocError> {
    json.key_string("kind", kind)?;
    json.key_string("type", names.ty(ty))
}
