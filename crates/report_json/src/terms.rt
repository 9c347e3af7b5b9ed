//! Terms with rules.

use crate::heads::push_head;
use crate::places::LinePlaces;
use crate::rules::push_rule;
use crate::site_types::types_of_sites;
use crate::sites::push_sites;
use crate::trees::Sources;
use crate::typed_rules::TypedForms;
use cranelift_isle::lower::LoweredTerm;
use cranelift_isle::sema::TypeId;
use cranelift_isle::serialize::{Block, ControlFlow};
use cranelift_isle::trie_again::{BindingId, Rule, RuleSet};
use report_names::names::NameTables;
use report_queries::variable_sites::KnownSites;
use report_ways::explanation::comes_first;
use std::alloc::{AllocError, Global};
use text_json::Json;

/// What terms are shown with.
#[derive(Clone, Copy)]
pub(crate) struct Shown<'a, 'f> {
    pub(crate) alloc: Global,
    /// What names are looked up in.
    pub(crate) names: NameTables<'a>,
    /// The places of files.
    pub(crate) places: &'a LinePlaces<'f>,
    /// The typed rules.
    pub(crate) typed: &'a TypedForms<'a>,
}

/// Adds a term with rules.
pub(crate) fn push_term(
    json: &mut Json,
    shown: &Shown<'_, '_>,
    term: &LoweredTerm,
) -> Result<(), AllocError> {
    json.begin_object()?;
    if let Some(head) = shown.names.terms.get(term.id.index()) {
        push_head(json, shown.names, head)?;
        push_all_sites(json, shown, &head.arg_tys, term)?;
    }
    push_rules(json, shown, &term.rules)?;
    let sources = Sources {
        names: shown.names,
        set: &term.rules,
    };
    sources.push_block(json, "tree", &term.block)?;
    json.end()
}

fn push_all_sites(
    json: &mut Json,
    shown: &Shown<'_, '_>,
    arguments: &[TypeId],
    term: &LoweredTerm,
) -> Result<(), AllocError> {
    let marked = marked_sites(shown.alloc, term)?;
    let types = types_of_sites(shown.alloc, shown.names, arguments, &term.rules.bindings)?;
    push_sites(json, shown.names, &term.rules.bindings, &types, &marked)
}

// Adds the rules of a set, in the order of their numbers.
fn push_rules(json: &mut Json, shown: &Shown<'_, '_>, set: &RuleSet) -> Result<(), AllocError> {
    let sites = KnownSites::new(shown.alloc, shown.names.terms, &set.bindings)?;
    json.begin_list_at("rules")?;
    for rule in &set.rules {
        json.begin_object()?;
        push_rule(json, shown.places, shown.names, rule)?;
        push_higher(json, &set.rules, rule)?;
        shown.typed.push_forms(json, &sites, rule.id)?;
        json.end()?;
    }
    json.end()
}

// Adds the rules that come first where both they and this rule match.
fn push_higher(json: &mut Json, rules: &[Rule], rule: &Rule) -> Result<(), AllocError> {
    json.begin_list_at("higher")?;
    for other in rules {
        if comes_first(rule, other) {
            json.number(other.id.index())?;
        }
    }
    json.end()
}

// Whether some step of a term's tree binds it, of each site.
fn marked_sites(alloc: Global, term: &LoweredTerm) -> Result<Vec<bool>, AllocError> {
    let mut marked = Vec::new(alloc);
    for _ in &term.rules.bindings {
        marked.push(false)?;
    }
    mark_block(&mut marked, &term.block);
    Ok(marked)
}

#[cycle(marks)]
fn mark_block(marked: &mut Vec<bool>, block: &Block) {
    for step in &block.steps {
        mark(marked, &step.bind_order);
        mark_inside(marked, &step.check);
    }
}

#[cycle(marks)]
fn mark_inside(marked: &mut Vec<bool>, check: &ControlFlow) {
    match check {
        ControlFlow::Match { arms, .. } => {
            for arm in arms {
                mark_block(marked, &arm.body);
            }
        }
        ControlFlow::Equal { body, .. } | ControlFlow::Loop { body, .. } => mark_block(
            marked, body,
        ),
        ControlFlow::Return { .. } => {}
    }
}

fn mark(marked: &mut Vec<bool>, sites: &[BindingId]) {
    for site in sites {
        if let Some(entry) = marked.get_mut(site.index()) {
            *entry = true;
        }
    }
}
