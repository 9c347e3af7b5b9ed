//! What a term wants and gives, while its arguments are written.

use crate::analysis::Analysis;
use crate::references::position_in;
use app_messages::refusals::Refusal;
use app_names::contexts::{Context, context_at};
use cranelift_isle::syntax::{Def, Ident};
use report_names::definitions::result_of;
use report_names::mentions::argument_type;
use serde_json::{Value, json};
use std::alloc::{AllocError, Global};

// The most arguments that are shown.
const MOST_ARGUMENTS: usize = 256;

/// The signature of the term whose arguments a place is among: null, where it is among none.
pub fn signature_at(
    alloc: Global,
    analysis: &Analysis,
    file: usize,
    params: &Value,
) -> Result<Value, Refusal> {
    let pos = position_in(analysis, file, params)?;
    let defs = analysis.defs.as_slice();
    let Some(context) = context_at(alloc, analysis.text(file), pos.offset)? else {
        return Ok(Value::Null);
    };
    match term_around(defs, &context) {
        Some((term, number)) => Ok(signature_value(alloc, defs, term, number)?),
        None => Ok(Value::Null),
    }
}

// The term of the innermost list that has one, and the number of its argument at a place. Not that in the head of the list.
fn term_around<'a>(defs: &[Def], context: &'a Context) -> Option<(&'a str, usize)> {
    for up in 0..context.depth() {
        let head = context.head(up);
        if result_of(defs, head).is_some() {
            let behind = if up == 0 { 1 } else { 2 };
            return Some((head, context.count(up).saturating_sub(behind)));
        }
    }
    None
}

// A signature in the protocol's form, with the number of the argument that is written.
fn signature_value(
    alloc: Global,
    defs: &[Def],
    term: &str,
    number: usize,
) -> Result<Value, AllocError> {
    let mut label = format!(in alloc; "({term}")?;
    let mut arguments = Vec::new(alloc);
    for number in 0..MOST_ARGUMENTS {
        let Some(ty) = argument_type(defs, term, number) else {
            break;
        };
        label.push(' ')?;
        let begin = label.len();
        label.push_str(&ty.0)?;
        arguments.push(json!(in alloc; {"label": [begin, label.len()]})?)?;
    }
    label.push_str(") ")?;
    label.push_str(text_of_type(result_of(defs, term)))?;
    json!(in alloc; {
        "signatures": [{"label": label, "parameters": arguments}],
        "activeSignature": 0,
        "activeParameter": number
    })
}

/// The name of a type, or the empty text.
pub(crate) fn text_of_type(ty: Option<&Ident>) -> &str {
    match ty {
        Some(name) => name.0.as_str(),
        None => "",
    }
}
