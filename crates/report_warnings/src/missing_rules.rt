//! The rule that is missing where no rule takes a call.

use crate::sample_values::Samples;
use cranelift_isle::syntax::{Decl, Def, Files, Pos, Rule};
use cranelift_isle::trie_again;
use report_names::definitions::definition_around;
use report_names::extents::end_of_form;
use report_names::names::priority_of;
use report_print::lines::file_text;
use report_print::report::{Place, Report};
use report_witness::witness::exclude_each_other;
use std::alloc::{AllocError, Global};
use text_reader::errors::ReadFault;
use text_reader::read;

// With how many rules a new one is compared: where a term has more, it is taken to overlap one.
const MOST_COMPARED: usize = 50;

/// Adds the fix that adds a rule for a call which no rule of a term takes: behind the last rule of the term, and below all of them
/// unless it overlaps none. It gives some value of the term's type. Where none is known, there is no such fix.
pub(crate) fn add_rule_for(
    alloc: Global,
    report: &mut Report,
    files: &Files,
    (defs, samples): (&[Def], &mut Samples),
    decl: &Decl,
    rules: &[trie_again::Rule],
    call: &str,
) -> Result<(), AllocError> {
    let rules = rules_at(alloc, defs, rules)?;
    let Some(last) = rules.last() else {
        return Ok(());
    };
    let Some(value) = samples.value_of(alloc, defs, &decl.ret_ty.0)? else {
        return Ok(());
    };
    let Some(priority) = priority_for(alloc, defs, &rules, call, value)? else {
        return Ok(());
    };
    let title = format!(in alloc; "Add a rule for `{call}`")?;
    let text = format!(in alloc; "\n(rule {priority}{call} {value})")?;
    report.add_fix(title, Place::Before(end_of_rule(files, last)), text)
}

// The rules of a term, as they are written.
fn rules_at<'a>(
    alloc: Global,
    defs: &'a [Def],
    rules: &[trie_again::Rule],
) -> Result<Vec<&'a Rule>, AllocError> {
    let mut written = Vec::new(alloc);
    for rule in rules {
        if let Some(Def::Rule(rule)) = definition_around(defs, rule.pos) {
            written.push(rule)?;
        }
    }
    Ok(written)
}

// Where a rule ends.
fn end_of_rule(files: &Files, rule: &Rule) -> Pos {
    let file = rule.pos.file;
    Pos {
        file,
        offset: end_of_form(file_text(files, file), rule.pos.offset),
    }
}

// What is written before a call that a new rule takes and that gives this value: a priority below those of these rules, or nothing
// where the new rule overlaps none of them. None where that is no rule, or has no priority.
fn priority_for(
    alloc: Global,
    defs: &[Def],
    rules: &[&Rule],
    call: &str,
    value: &str,
) -> Result<Option<String>, AllocError> {
    let text = format!(in alloc; "(rule {call} {value})")?;
    let read = definitions_in(alloc, &text)?;
    let [Def::Rule(added)] = read.as_slice() else {
        return Ok(None);
    };
    if is_apart(alloc, defs, rules, added)? {
        return Ok(Some(String::new(alloc)));
    }
    match least_priority(rules).checked_sub(1) {
        Some(priority) => Ok(Some(format!(in alloc; "{priority} ")?)),
        None => Ok(None),
    }
}

// The definitions that a text is; none where it can't be read.
fn definitions_in(alloc: Global, text: &str) -> Result<Vec<Def>, AllocError> {
    match read(alloc, 0, text) {
        Ok(defs) => Ok(defs),
        Err(ReadFault::Text(_error)) => Ok(Vec::new(alloc)),
        Err(ReadFault::Memory(error)) => Err(error),
    }
}

// Whether a rule is known to overlap none of some others.
fn is_apart(
    alloc: Global,
    defs: &[Def],
    rules: &[&Rule],
    added: &Rule,
) -> Result<bool, AllocError> {
    if rules.len() > MOST_COMPARED {
        return Ok(false);
    }
    for rule in rules {
        if !exclude_each_other(alloc, defs, rule, added)? {
            return Ok(false);
        }
    }
    Ok(true)
}

// The least priority of some rules.
fn least_priority(rules: &[&Rule]) -> i64 {
    let mut least = i64::MAX;
    for rule in rules {
        least = least.min(priority_of(rule));
    }
    least
}
