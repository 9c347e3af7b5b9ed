//! The returns of trees, each with its rule and the tests on the way to it.

use cranelift_isle::lower::{Lowered, LoweredTerm, lower};
use cranelift_isle::sema::RuleId;
use cranelift_isle::syntax::{Def, Fault};
use cranelift_isle::trie_again::Rule;
use report_queries::answers::TreesOrErrors;
use report_queries::answers_texts::syntax_error_line;
use report_queries::names::{rule_name, term_name};
use report_queries::rules::rule_returned;
use report_queries::texts::{Places, TreeNames, error_lines, names_of, turn_text};
use report_queries::walk::{Turn, steps};
use std::alloc::{AllocError, Global};
use text_reader::errors::ReadFault;
use text_reader::read;

/// The traces of a text's definitions, or one line for each error.
pub fn answer(alloc: Global, text: &str) -> Result<TreesOrErrors, AllocError> {
    match read(alloc, 0, text) {
        Ok(defs) => answer_to_defs(alloc, text, &defs),
        Err(ReadFault::Text(error)) => Ok(TreesOrErrors::Errors(syntax_error_line(
            alloc, text, &error,
        )?)),
        Err(ReadFault::Memory(error)) => Err(error),
    }
}

// The traces of definitions, or one line for each error.
fn answer_to_defs(alloc: Global, text: &str, defs: &[Def]) -> Result<TreesOrErrors, AllocError> {
    let places = Places::Lines(text);
    match lower(alloc, defs, true) {
        Ok(lowered) => Ok(TreesOrErrors::Trees(traces(alloc, &lowered, places)?)),
        Err(Fault::Errors(errors)) => Ok(TreesOrErrors::Errors(error_lines(
            alloc, &errors, places,
        )?)),
        Err(Fault::Memory(error)) => Err(error),
    }
}

fn traces(alloc: Global, lowered: &Lowered, places: Places<'_>) -> Result<String, AllocError> {
    let mut out = String::new(alloc);
    for term in &lowered.terms {
        push_term(alloc, &mut out, lowered, term, places)?;
    }
    Ok(out)
}

// Adds a line for a term, and one for each return of its tree, in the order of the printed tree.
fn push_term(
    alloc: Global,
    out: &mut String,
    lowered: &Lowered,
    term: &LoweredTerm,
    places: Places<'_>,
) -> Result<(), AllocError> {
    out.push_str("term ")?;
    out.push_str(or_nameless(term_name(&lowered.tyenv, &lowered.termenv, term.id)))?;
    out.push('\n')?;
    for visit in &steps(alloc, &term.block)? {
        if let Some(rule) = rule_returned(&term.rules, visit.step) {
            push_rule(out, lowered, rule)?;
            places.push(out, rule.pos)?;
            push_path(alloc, out, names_of(lowered), &visit.path)?;
        }
    }
    Ok(())
}

fn push_rule(out: &mut String, lowered: &Lowered, rule: &Rule) -> Result<(), AllocError> {
    let name = name_of(lowered, rule.id);
    let number = rule.result.index();
    write!(out, "  rule {name} returns b{number}, at ")
}

fn name_of(lowered: &Lowered, id: RuleId) -> &str {
    or_nameless(rule_name(&lowered.tyenv, &lowered.termenv, id))
}

// A name, or a sign where there is none.
fn or_nameless(name: Option<&str>) -> &str {
    match name {
        Some(name) => name,
        None => "_",
    }
}

// Adds the tests on the way, outermost first.
fn push_path(
    alloc: Global,
    out: &mut String,
    names: TreeNames<'_>,
    path: &[Turn],
) -> Result<(), AllocError> {
    for (i, turn) in path.iter().enumerate() {
        out.push_str(if i == 0 { ", where " } else { " and " })?;
        out.push_str(&turn_text(alloc, names, turn)?)?;
    }
    out.push('\n')
}
