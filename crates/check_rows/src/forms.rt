//! The forms of objects, as `docs/JSON.md` has them.

use serde_json::Value;
use std::alloc::{AllocError, Global};

// A line for each form: its name, the kinds of it that the line is for, where it has kinds, and all its keys. Behind `=` stands the
// form of the value at a key, behind `*` that of each value of a list, behind `#` the same where each has its place as `id`. A key
// behind `?` may be missing.
const FORMS: &str =
    "trees: schema types*type terms*term constants*constant all_terms*head errors*report
sizes: schema terms*size errors*report
checked refused: schema errors*report
checked accepted: schema errors*report warnings*report
report: kind code message places*place help witness fixes*fix
place: file line column offset end=end text
end: line column offset
fix: title edits*edit
edit: file offset end text
size: name rules sites tests arms returns depth
constant: name type file line column offset end=end
head: kind name signature flags file line column offset end=end constructor extractor
type primitive: name kind declared extern nodebug file line column offset end=end
type enum: name kind declared extern nodebug file line column offset end=end variants*variant
type struct: name kind declared extern nodebug file line column offset end=end fields*field
variant: name file line column offset end=end fields*field
field: name type
term: name signature flags sites#site rules*rule tree*step
site: id what=what bound types answer
what argument: kind index of
what bool int: kind value type of
what constant extract variant struct: kind name of
what call: kind name impure of
what field: kind field ?variant of
what part: kind field of
what each some unwrap: kind of
rule: id name file line column offset end=end priority constraints*constraint equal impure result higher written=written expanded=expanded
constraint: site is=asked
asked variant struct constant: kind name
asked bool int: kind value type
asked some: kind
written: variables*variable arguments*form iflets*iflet right_side=form
expanded: variables*shown arguments*form iflets*iflet right_side=form
variable: id name type
shown: id name type site
iflet: pattern=form value=form
form bind: kind type variable pattern=form
form variable: kind type variable
form bool int: kind value type
form constant: kind name type
form term: kind type name arguments*form
form any: kind type
form and: kind type patterns*form
form let: kind type variables*let body=form
let: variable type value=form
step match: bind test sites arms*arm
step equal loop: bind test sites body*step
step return: bind test sites rule
arm: is=asked fields body*step";

// More objects than any of these documents has.
const OBJECTS: usize = 100_000;

// More steps than any of these trees has, and more forms than any of these rules.
const STEPS: usize = 1_000;

/// Whether a document of the first schema is an object of a form with what is in it.
pub fn is_of_form(alloc: Global, form: &'static str, document: &Value) -> Result<bool, AllocError> {
    let mut waiting = Vec::new(alloc);
    waiting.push((form, document))?;
    let mut holds = document.get("schema").and_then(Value::as_u64) == Some(1);
    let mut count = 0usize;
    for _ in 0..OBJECTS {
        let Some((form, value)) = waiting.pop() else {
            return Ok(holds);
        };
        count = counted(count, form);
        holds = has_keys(&mut waiting, form, value)? && holds && count < STEPS;
    }
    Ok(false)
}

// How many steps or forms there are with an object of this form, where there were so many before. What came last is looked at first:
// the steps of a term's tree right behind the term, and the forms of a typed rule right behind it. So these are counted by
// themselves.
fn counted(count: usize, form: &str) -> usize {
    match form {
        "term" | "written" | "expanded" => 0,
        "step" | "form" => count.saturating_add(1),
        _ => count,
    }
}

// Whether a value is an object with just the keys of a form. The values at these then wait, each with its form.
fn has_keys<'v>(
    waiting: &mut Vec<(&'static str, &'v Value)>,
    form: &str,
    value: &'v Value,
) -> Result<bool, AllocError> {
    let (Some(keys), Some(object)) = (keys_of(form, kind_of(value)), value.as_object()) else {
        return Ok(false);
    };
    let mut count = 0usize;
    for key in keys.split(' ') {
        if push_part(waiting, value, key)? {
            count = count.saturating_add(1);
        } else if !key.starts_with('?') {
            return Ok(false);
        }
    }
    Ok(object.len() == count)
}

// The kind of an object: its `kind` or its `test`; of others, whether it is a document without errors.
fn kind_of(value: &Value) -> &str {
    for key in ["kind", "test"] {
        if let Some(kind) = value.get(key).and_then(Value::as_str) {
            return kind;
        }
    }
    if is_accepted(value) {
        "accepted"
    } else {
        "refused"
    }
}

/// Whether a document has no errors.
pub fn is_accepted(value: &Value) -> bool {
    match value.get("errors").and_then(Value::as_array) {
        Some(errors) => errors.is_empty(),
        None => false,
    }
}

// The keys of a form, which may depend on the kind.
fn keys_of(form: &str, kind: &str) -> Option<&'static str> {
    for line in FORMS.split('\n') {
        if let Some((name, keys)) = line.split_once(": ") {
            if is_for(name, form, kind) {
                return Some(keys);
            }
        }
    }
    None
}

// Whether a line is for a form of a kind.
fn is_for(name: &str, form: &str, kind: &str) -> bool {
    let (name, kinds) = name.split_once(' ').unwrap_or((name, kind));
    for one in kinds.split(' ') {
        if one == kind {
            return name == form;
        }
    }
    false
}

// Whether a value has a key of a form. What stands there then waits.
fn push_part<'v>(
    waiting: &mut Vec<(&'static str, &'v Value)>,
    value: &'v Value,
    key: &'static str,
) -> Result<bool, AllocError> {
    if let Some((key, form)) = key.split_once('*') {
        return push_list(waiting, value, key, form, false);
    }
    if let Some((key, form)) = key.split_once('#') {
        return push_list(waiting, value, key, form, true);
    }
    let (key, form) = key.split_once('=').unwrap_or((key, ""));
    let Some(inner) = value.get(key.strip_prefix("?").unwrap_or(key)) else {
        return Ok(false);
    };
    if !form.is_empty() {
        waiting.push((form, inner))?;
    }
    Ok(true)
}

// Whether a value has a list at a key, in which each value has its place as `id` where `placed` says so. The values then wait.
fn push_list<'v>(
    waiting: &mut Vec<(&'static str, &'v Value)>,
    value: &'v Value,
    key: &str,
    form: &'static str,
    placed: bool,
) -> Result<bool, AllocError> {
    let Some(list) = value.get(key).and_then(Value::as_array) else {
        return Ok(false);
    };
    for (place, inner) in list.iter().enumerate() {
        if placed && inner.get("id").and_then(Value::as_u64) != Some(place as u64) {
            return Ok(false);
        }
        waiting.push((form, inner))?;
    }
    Ok(true)
}
