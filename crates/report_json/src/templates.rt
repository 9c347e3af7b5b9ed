//! Templates of internal extractors: patterns as they are written, with places for the arguments.

use cranelift_isle::syntax::Pattern;
use std::alloc::AllocError;
use text_json::Json;

/// Adds a template.
#[cycle(templates)]
pub(crate) fn push_template(json: &mut Json, pattern: &Pattern) -> Result<(), AllocError> {
    json.begin_object()?;
    match pattern {
        Pattern::BindPattern { var, subpat, .. } => {
            push_called(json, "bind", &var.0)?;
            json.key("pattern")?;
            push_template(json, subpat)?;
        }
        Pattern::Term { sym, args, .. } => {
            push_called(json, "term", &sym.0)?;
            push_templates(json, "arguments", args)?;
        }
        Pattern::And { subpats, .. } => {
            json.key_string("kind", "and")?;
            push_templates(json, "patterns", subpats)?;
        }
        _ => push_leaf(json, pattern)?,
    }
    json.end()
}

#[cycle(templates)]
fn push_templates(json: &mut Json, key: &str, patterns: &[Pattern]) -> Result<(), AllocError> {
    json.begin_list_at(key)?;
    for pattern in patterns {
        push_template(json, pattern)?;
    }
    json.end()
}

// Adds what a template without parts is.
fn push_leaf(json: &mut Json, pattern: &Pattern) -> Result<(), AllocError> {
    match pattern {
        Pattern::MacroArg { index, .. } => {
            json.key_string("kind", "argument")?;
            json.key_number("index", *index)
        }
        Pattern::Var { var, pos: _ } => push_called(json, "variable", &var.0),
        Pattern::ConstPrim { val, pos: _ } => push_called(json, "constant", &val.0),
        Pattern::ConstBool { val, pos: _ } => {
            json.key_string("kind", "bool")?;
            json.key_flag("value", *val)
        }
        Pattern::ConstInt { val, pos: _ } => {
            json.key_string("kind", "int")?;
            json.key_digits("value", *val)
        }
        Pattern::Wildcard { .. } => json.key_string("kind", "any"),
        Pattern::BindPattern { .. } | Pattern::Term { .. } | Pattern::And { .. } => Ok(()),
    }
}

fn push_called(json: &mut Json, kind: &str, name: &str) -> Result<(), AllocError> {
    json.key_string("kind", kind)?;
    json.key_string("name", name)
}
