//! Rules.

use crate::places::LinePlaces;
use crate::sites::{push_constraint, push_ids};
use cranelift_isle::trie_again::Rule;
use report_names::names::NameTables;
use std::alloc::AllocError;
use text_json::Json;

/// Adds what a rule is, and what it demands and makes.
pub(crate) fn push_rule(
    json: &mut Json,
    places: &LinePlaces<'_>,
    names: NameTables<'_>,
    rule: &Rule,
) -> Result<(), AllocError> {
    json.key_number("id", rule.id.index())?;
    push_rule_name(json, names, rule)?;
    places.push_place(json, rule.pos)?;
    json.key_integer("priority", rule.prio)?;
    push_demands(json, names, rule)?;
    push_ids(json, "impure", &rule.impure)?;
    json.key_number("result", rule.result.index())
}

// Adds the name that a rule is given, or `null`.
fn push_rule_name(json: &mut Json, names: NameTables<'_>, rule: &Rule) -> Result<(), AllocError> {
    match rule.name {
        Some(name) => json.key_string("name", names.sym(name)),
        None => json.key_null("name"),
    }
}

// Adds what a rule demands of sites, and which of them it demands to be equal.
fn push_demands(json: &mut Json, names: NameTables<'_>, rule: &Rule) -> Result<(), AllocError> {
    json.begin_list_at("constraints")?;
    for (site, constraint) in rule.constraints() {
        json.begin_object()?;
        json.key_number("site", site.index())?;
        push_constraint(json, names, *constraint)?;
        json.end()?;
    }
    json.end()?;
    push_classes(json, rule)
}

// Adds the lists of sites with equal values.
fn push_classes(json: &mut Json, rule: &Rule) -> Result<(), AllocError> {
    json.begin_list_at("equal")?;
    for class in rule.classes() {
        json.begin_list()?;
        for site in class {
            json.number(site.index())?;
        }
        json.end()?;
    }
    json.end()
}
