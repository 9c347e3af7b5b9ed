//! Sites and trees read back from JSON, by the keys of `docs/JSON.md`: they are written as the lines of a text, which is then read.

ghost use Rattle.std.specs.Prelude.{◌≡◌, ◌+◌, IfOk};

use crate::faults::ReadFault;
use crate::names::Tables;
use crate::read_term::ReadTerm;
use crate::text::read_text;
use serde_json::Value;
use std::alloc::Global;

// How deep tests stand in one another, which is more than a reader of JSON takes.
const DEEPEST: usize = 128;

// What the line of a site says, by its kind. A word that begins with a sign stands for what an object has at a key: `$` for a text,
// `+` for a number, `#` for the number of a call, `?` for a truth value, `*` for sites, `_` for fields.
const SITES: [(&str, &str); 15] = [
    ("argument", "arg +index *of"),
    ("bool", "$type ?value *of"),
    ("int", "int $value $type *of"),
    ("constant", "prim $name *of"),
    ("extract", "extract $name *of"),
    ("call", "call $name *of"),
    ("impure call", "call $name #impure *of"),
    ("each", "pick *of"),
    ("variant", "make $name *of"),
    ("struct", "make $name *of"),
    ("field", "field +field of *of"),
    ("field of a variant", "field +field of *of variant +variant"),
    ("part", "part +field of *of"),
    ("some", "some *of"),
    ("unwrap", "unwrap *of"),
];

// What the line of an arm says before its fields, by the kind of what it asks.
const ARMS: [(&str, &str); 6] = [
    ("variant", "variant $name"),
    ("struct", "struct $name"),
    ("bool", "$type ?value"),
    ("int", "int $value $type"),
    ("constant", "prim $name"),
    ("some", "some"),
];

// What the line of a step says, by its test.
const STEPS: [(&str, &str); 4] = [
    ("match", "match *sites"),
    ("equal", "equal *sites"),
    ("loop", "loop *sites"),
    ("return", "return *sites"),
];

/// What an object of a term says, where the object has the term's name. Its parts are objects of sites, of steps and of arms.
pub fn read_json(
    alloc: Global,
    tables: Tables<'_>,
    name: &str,
    source: &str,
    object: &Value,
) -> Result<ReadTerm, ReadFault> {
    let mut text = String::new(alloc);
    let parts = push_term(&mut text, object)?;
    let mut read = read_text(alloc, tables, name, source, &text)?;
    read.parts = parts;
    Ok(read)
}

// Adds the lines of a term, and tells how many objects these are of.
fn push_term(out: &mut String, term: &Value) -> Result<usize, ReadFault> {
    let name = text_at(term, "name")?;
    write!(out, "term {name}")?;
    let sites = list_at(term, "sites")?;
    for site in sites {
        push_site(out, site)?;
    }
    let mut parts = sites.len();
    push_parts(out, &mut parts, term, list_at(term, "tree")?, DEEPEST)?;
    out.push('\n')?;
    Ok(parts)
}

fn push_site(out: &mut String, site: &Value) -> Result<(), ReadFault> {
    push_begin(out, DEEPEST)?;
    push_number(out, " b", value_at(site, "id")?)?;
    out.push_str(" =")?;
    let what = value_at(site, "what")?;
    push_form(out, what, form_of(&SITES, site_kind(what)?)?)
}

// The kind of a site, where a call may be impure, and a field one of a variant.
fn site_kind(what: &Value) -> Result<&str, ReadFault> {
    match text_at(what, "kind")? {
        "call" if what.get("impure").and_then(Value::as_u64) != Some(0) => Ok("impure call"),
        "field" if what.get("variant").is_some() => Ok("field of a variant"),
        kind => Ok(kind),
    }
}

// Adds the lines of steps or of arms, in which so many levels may stand, and of what is in them.
fn push_parts(
    out: &mut String,
    count: &mut usize,
    term: &Value,
    parts: &[Value],
    depth: usize,
) -> Result<(), ReadFault> {
    *count = count.saturating_add(parts.len());
    for part in parts {
        push_head(out, term, part, depth)?;
        push_parts(out, count, term, inner_of(part)?, less_deep(depth)?)?;
    }
    Ok(())
}

// How deep tests may stand in a test.
fn less_deep(depth: usize) -> Result<usize, ReadFault>
    ensures { IfOk result (λ n. n + 1 ≡ depth) }
{
    match depth.checked_sub(1) {
        Some(depth) => Ok(depth),
        None => Err(ReadFault::Unreadable),
    }
}

// Adds the lines of a step or of an arm without what is in it.
fn push_head(out: &mut String, term: &Value, part: &Value, depth: usize) -> Result<(), ReadFault> {
    match part.get("is") {
        Some(asked) => push_arm(out, asked, part, depth),
        None => push_step(out, term, part, depth),
    }
}

fn push_arm(out: &mut String, asked: &Value, arm: &Value, depth: usize) -> Result<(), ReadFault> {
    push_begin(out, depth)?;
    push_form(out, asked, form_of(&ARMS, text_at(asked, "kind")?)?)?;
    push_form(out, arm, "_fields")?;
    out.push(':')?;
    Ok(())
}

fn push_step(out: &mut String, term: &Value, step: &Value, depth: usize) -> Result<(), ReadFault> {
    if !list_at(step, "bind")?.is_empty() {
        push_begin(out, depth)?;
        push_form(out, step, "bind *bind")?;
    }
    push_begin(out, depth)?;
    let test = text_at(step, "test")?;
    push_form(out, step, form_of(&STEPS, test)?)?;
    if test == "return" {
        push_place(out, rule_of(term, number_at(step, "rule")?)?)?;
    }
    Ok(())
}

// The steps or the arms that stand in a step or an arm.
fn inner_of(part: &Value) -> Result<&[Value], ReadFault> {
    match part.get("test").and_then(Value::as_str) {
        Some("return") => Ok(&[]),
        Some("match") => list_at(part, "arms"),
        _ => list_at(part, "body"),
    }
}

// The rule of a number.
fn rule_of(term: &Value, number: usize) -> Result<&Value, ReadFault> {
    for rule in list_at(term, "rules")? {
        if number_at(rule, "id")? == number {
            return Ok(rule);
        }
    }
    Err(ReadFault::Unreadable)
}

// Adds which rule is returned from, by its name, where it has one, and its place.
fn push_place(out: &mut String, rule: &Value) -> Result<(), ReadFault> {
    out.push_str("  ;")?;
    if !value_at(rule, "name")?.is_null() {
        push_form(out, rule, "$name at")?;
    }
    push_form(out, rule, "$file")?;
    push_number(out, ":", value_at(rule, "line")?)?;
    push_number(out, ":", value_at(rule, "column")?)
}

// Begins a line, but for the space before its first word.
fn push_begin(out: &mut String, depth: usize) -> Result<(), ReadFault> {
    out.push_str("\n ")?;
    for _ in depth..DEEPEST {
        out.push_str("  ")?;
    }
    Ok(())
}

// The form of a kind.
fn form_of(forms: &[(&'static str, &'static str)], kind: &str) -> Result<&'static str, ReadFault> {
    for (name, form) in forms {
        if *name == kind {
            return Ok(*form);
        }
    }
    Err(ReadFault::Unreadable)
}

// Adds the words of a form, each behind a space.
fn push_form(out: &mut String, object: &Value, form: &str) -> Result<(), ReadFault> {
    for word in form.split(' ') {
        push_word(out, object, word)?;
    }
    Ok(())
}

fn push_word(out: &mut String, object: &Value, word: &str) -> Result<(), ReadFault> {
    let key = word.get(1..).unwrap_or("");
    match word.as_bytes().first().copied() {
        Some(b'$') => push_text(out, text_at(object, key)?),
        Some(b'+') => push_number(out, " ", value_at(object, key)?),
        Some(b'#') => push_number(out, " #", value_at(object, key)?),
        Some(b'?') => push_text(out, truth(flag_at(object, key)?)),
        Some(b'*') => push_sites(out, list_at(object, key)?),
        Some(b'_') => push_fields(out, list_at(object, key)?),
        _ => push_text(out, word),
    }
}

fn truth(value: bool) -> &'static str {
    if value { "true" } else { "false" }
}

fn push_text(out: &mut String, text: &str) -> Result<(), ReadFault> {
    write!(out, " {text}")?;
    Ok(())
}

// Adds a number behind a sign.
fn push_number(out: &mut String, sign: &str, value: &Value) -> Result<(), ReadFault> {
    let number = as_number(value)?;
    write!(out, "{sign}{number}")?;
    Ok(())
}

fn push_sites(out: &mut String, sites: &[Value]) -> Result<(), ReadFault> {
    for site in sites {
        push_number(out, " b", site)?;
    }
    Ok(())
}

// Adds the sites of fields, of which nothing may use some.
fn push_fields(out: &mut String, fields: &[Value]) -> Result<(), ReadFault> {
    for field in fields {
        if field.is_null() {
            out.push_str(" _")?;
        } else {
            push_number(out, " b", field)?;
        }
    }
    Ok(())
}

// What is looked for, which has to be there.
fn found<T: Drop>(what: Option<T>) -> Result<T, ReadFault> {
    what.ok_or(ReadFault::Unreadable)
}

fn value_at<'v>(value: &'v Value, key: &str) -> Result<&'v Value, ReadFault> {
    found(value.get(key))
}

/// The list at a key.
pub fn list_at<'v>(value: &'v Value, key: &str) -> Result<&'v [Value], ReadFault> {
    match value.get(key).and_then(Value::as_array) {
        Some(list) => Ok(list.as_slice()),
        None => Err(ReadFault::Unreadable),
    }
}

fn text_at<'v>(value: &'v Value, key: &str) -> Result<&'v str, ReadFault> {
    found(value.get(key).and_then(Value::as_str))
}

fn flag_at(value: &Value, key: &str) -> Result<bool, ReadFault> {
    found(value.get(key).and_then(Value::as_bool))
}

fn number_at(value: &Value, key: &str) -> Result<usize, ReadFault> {
    as_number(value_at(value, key)?)
}

fn as_number(value: &Value) -> Result<usize, ReadFault> {
    match value.as_u64() {
        Some(number) => Ok(number as usize),
        None => Err(ReadFault::Unreadable),
    }
}
