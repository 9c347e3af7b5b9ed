//! Which rules make a term, and which terms the rules of a term make: the protocol's call hierarchy.

use crate::analysis::Analysis;
use crate::hints::is_rule_of;
use crate::outline::{declaration_entry, rule_entry};
use crate::ranges::Ranges;
use crate::references::position_in;
use app_messages::messages::{member, text_of};
use app_messages::refusals::Refusal;
use app_names::symbols::{Symbol, mention_at, symbol_of};
use cranelift_isle::syntax::{Decl, Def};
use report_names::definitions::declaration_of;
use report_names::mentions::{MentionKind, Mentions};
use serde_json::{Value, json};
use std::alloc::{AllocError, Global};

/// The term with a declaration at a place, as an item of the hierarchy; null, where there is none.
pub fn prepared_calls(
    alloc: Global,
    analysis: &Analysis,
    file: usize,
    params: &Value,
) -> Result<Value, Refusal> {
    let pos = position_in(analysis, file, params)?;
    let Some(mention) = mention_at(alloc, &analysis.defs, &[], pos)? else {
        return Ok(Value::Null);
    };
    let Symbol::Term(name) = symbol_of(&analysis.defs, &mention) else {
        return Ok(Value::Null);
    };
    let Some(decl) = declaration_of(&analysis.defs, name) else {
        return Ok(Value::Null);
    };
    let ranges = Ranges::new(alloc, analysis)?;
    let mut items = Vec::new(alloc);
    items.push(term_item(alloc, analysis, &ranges, decl)?)?;
    Ok(Value::Array(items))
}

// The item of a term.
fn term_item(
    alloc: Global,
    analysis: &Analysis,
    ranges: &Ranges<'_>,
    decl: &Decl,
) -> Result<Value, AllocError> {
    let entry = declaration_entry(alloc, ranges, decl)?;
    with_uri(alloc, analysis, entry, decl.pos.file)
}

/// The rules that make the term of an item, each as an item with the name of its own term, and with where it makes it.
pub fn callers_of(alloc: Global, analysis: &Analysis, params: &Value) -> Result<Value, Refusal> {
    let term = text_of(member(params, "item")?, "name")?;
    let ranges = Ranges::new(alloc, analysis)?;
    let mut found = Vec::new(alloc);
    for def in &analysis.defs {
        let places = places_made(alloc, &ranges, def, term)?;
        if !places.is_empty() {
            if let Some(entry) = rule_item(alloc, analysis, &ranges, def)? {
                found.push(json!(in alloc; {"from": entry, "fromRanges": places})?)?;
            }
        }
    }
    Ok(Value::Array(found))
}

/// The declared terms that the rules of an item's term make, with where those of the item's file do.
pub fn callees_of(alloc: Global, analysis: &Analysis, params: &Value) -> Result<Value, Refusal> {
    let item = member(params, "item")?;
    let term = text_of(item, "name")?;
    let uri = text_of(item, "uri")?;
    let ranges = Ranges::new(alloc, analysis)?;
    let mut found = Vec::new(alloc);
    for def in &analysis.defs {
        if let Def::Decl(decl) = def {
            let made = decl.term.0.as_str();
            if let Some(places) = places_in_rules(alloc, analysis, &ranges, (term, uri), made)? {
                let entry = term_item(alloc, analysis, &ranges, decl)?;
                found.push(json!(in alloc; {"to": entry, "fromRanges": places})?)?;
            }
        }
    }
    Ok(Value::Array(found))
}

// Where the rules of a term that are in a document make another one. None where no rule of the term makes it.
fn places_in_rules(
    alloc: Global,
    analysis: &Analysis,
    ranges: &Ranges<'_>,
    (term, uri): (&str, &str),
    made: &str,
) -> Result<Option<Vec<Value>>, AllocError> {
    let mut found = Vec::new(alloc);
    let mut makes = false;
    for def in &analysis.defs {
        if is_rule_of(def, term) {
            let mut places = places_made(alloc, ranges, def, made)?;
            makes = makes || !places.is_empty();
            let file = def.place().map_or(usize::MAX, |pos| pos.file);
            if analysis.uri(file) == uri {
                found.append(&mut places)?;
            }
        }
    }
    Ok(if makes { Some(found) } else { None })
}

// Where a rule makes a term, or takes it apart: wherever its name stands, but for the head of the rule's pattern.
fn places_made(
    alloc: Global,
    ranges: &Ranges<'_>,
    def: &Def,
    term: &str,
) -> Result<Vec<Value>, AllocError> {
    let mut found = Vec::new(alloc);
    let Def::Rule(rule) = def else {
        return Ok(found);
    };
    let root = rule.pattern.root_term();
    let mentions = Mentions::of(alloc, def)?;
    for mention in &mentions.names {
        let is_root = root.is_some_and(|root| root.1 == mention.name.1);
        if mention.kind == MentionKind::Term && mention.text() == term && !is_root {
            found.push(ranges.of_name(mention.name)?)?;
        }
    }
    Ok(found)
}

// The item of a rule, by the name of its term.
fn rule_item(
    alloc: Global,
    analysis: &Analysis,
    ranges: &Ranges<'_>,
    def: &Def,
) -> Result<Option<Value>, AllocError> {
    let Def::Rule(rule) = def else {
        return Ok(None);
    };
    let Some(root) = rule.pattern.root_term() else {
        return Ok(None);
    };
    let detail = match &rule.name {
        Some(name) => name.0.as_str(),
        None => "rule",
    };
    let entry = rule_entry(alloc, ranges, (root, detail), rule.pos)?;
    Ok(Some(with_uri(alloc, analysis, entry, rule.pos.file)?))
}

// An entry with the document that it is in.
fn with_uri(
    alloc: Global,
    analysis: &Analysis,
    mut entry: Value,
    file: usize,
) -> Result<Value, AllocError> {
    if let Some(object) = entry.as_object_mut() {
        let uri = Value::try_from_str(alloc, analysis.uri(file))?;
        serde_json::put(object, alloc, "uri", uri)?;
    }
    Ok(entry)
}
