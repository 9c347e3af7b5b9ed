//! What a text doesn't say: the types of variables, priorities that aren't written, and how many rules a term has.

use crate::analysis::Analysis;
use crate::ranges::{Ranges, end_of_name};
use app_messages::messages::{member, range_of};
use app_messages::refusals::Refusal;
use cranelift_isle::syntax::{Def, Rule};
use report_names::definitions::root_of;
use report_names::mentions::{Mention, MentionKind, Mentions, type_needed};
use serde_json::{Value, json};
use std::alloc::{AllocError, Global};
use text_documents::edits::range_at;

/// The types of the variables that are bound in a range, and the priorities that aren't written in its rules.
pub fn hints_in(
    alloc: Global,
    analysis: &Analysis,
    file: usize,
    params: &Value,
) -> Result<Value, Refusal> {
    let (begin, end) = range_of(member(params, "range")?)?;
    let Some((begin, end)) = range_at(analysis.text(file), begin, end) else {
        return Err(Refusal::Outside);
    };
    let ranges = Ranges::new(alloc, analysis)?;
    let mut found = Vec::new(alloc);
    for def in &analysis.defs {
        match def.place() {
            Some(pos) if pos.file == file && begin <= pos.offset && pos.offset <= end => {
                add_hints(alloc, analysis, &ranges, def, &mut found)?;
            }
            _ => {}
        }
    }
    Ok(Value::Array(found))
}

fn add_hints(
    alloc: Global,
    analysis: &Analysis,
    ranges: &Ranges<'_>,
    def: &Def,
    found: &mut Vec<Value>,
) -> Result<(), AllocError> {
    if let Def::Rule(rule) = def {
        if rule.prio.is_none() && has_priorities(&analysis.defs, rule) {
            let pos = rule.pattern.pos();
            let place = ranges.place_value(pos.file, pos.offset)?;
            found.push(json!(in alloc; {"position": place, "label": "0", "paddingRight": true})?)?;
        }
    }
    let mentions = Mentions::of(alloc, def)?;
    for mention in &mentions.names {
        if mention.kind == MentionKind::Variable && mention.defines {
            add_type(alloc, analysis, ranges, mention, found)?;
        }
    }
    Ok(())
}

// Whether another rule of the same term has a priority.
fn has_priorities(defs: &[Def], rule: &Rule) -> bool {
    let term = root_of(rule);
    defs.iter().any(|def| match def {
        Def::Rule(other) => other.prio.is_some() && root_of(other) == term,
        _ => false,
    })
}

// Adds the type of a variable behind its name, unless it stands there, as in a let.
fn add_type(
    alloc: Global,
    analysis: &Analysis,
    ranges: &Ranges<'_>,
    mention: &Mention<'_>,
    found: &mut Vec<Value>,
) -> Result<(), AllocError> {
    let Some(ty) = type_needed(&analysis.defs, mention.need) else {
        return Ok(());
    };
    let ty = ty.0.as_str();
    let file = mention.name.1.file;
    let end = end_of_name(mention.name);
    let behind = analysis.text(file).get(end..).unwrap_or("");
    if !behind.trim_start().starts_with(ty) {
        let place = ranges.place_value(file, end)?;
        let label = format!(in alloc; ": {ty}")?;
        found.push(json!(in alloc; {"position": place, "label": label, "kind": 1})?)?;
    }
    Ok(())
}

/// How many rules each term has that a file declares, above its declaration.
pub fn lenses_of(alloc: Global, analysis: &Analysis, file: usize) -> Result<Value, AllocError> {
    let ranges = Ranges::new(alloc, analysis)?;
    let mut found = Vec::new(alloc);
    for def in &analysis.defs {
        match def {
            Def::Decl(decl) if decl.pos.file == file => {
                let range = ranges.of_name(&decl.term)?;
                let title = rules_text(alloc, &analysis.defs, &decl.term.0)?;
                let command = json!(in alloc; {"title": title, "command": ""})?;
                found.push(json!(in alloc; {"range": range, "command": command})?)?;
            }
            _ => {}
        }
    }
    Ok(Value::Array(found))
}

/// How many rules a term has.
pub(crate) fn rules_text(alloc: Global, defs: &[Def], term: &str) -> Result<String, AllocError> {
    let count = defs.iter().filter(|def| is_rule_of(def, term)).count();
    match count {
        0 => String::from_str(alloc, "no rules"),
        1 => String::from_str(alloc, "1 rule"),
        _ => format!(in alloc; "{count} rules"),
    }
}

/// Whether a definition is a rule of a term.
pub(crate) fn is_rule_of(def: &Def, term: &str) -> bool {
    match def {
        Def::Rule(rule) => root_of(rule) == term,
        _ => false,
    }
}
