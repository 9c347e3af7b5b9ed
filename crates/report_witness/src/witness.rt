//! What two rules both match, and why no value matches a rule.

use crate::extractors::Extractors;
use crate::forms::{ValueForm, are_apart, is_same};
use crate::parts_text::Writing;
use crate::rule_demands::{parts_of, parts_of_template, parts_without};
use crate::value_parts::{Head, Parts};
use core_syntax::syntax::{Def, Extractor, Pattern, Pos, Rule};
use std::alloc::{AllocError, Global};

// How many conflicts are looked at.
const MOST_CONFLICTS: usize = 1 << 10;

/// The left side of a rule that matches what two rules of a term both match: their patterns meet one by one where they begin
/// alike, and are joined by `and` where they don't; calls that both make are made once. None where none is found: where a
/// value would have to be two constants or two variants, or a part of itself.
pub fn witness(
    alloc: Global,
    defs: &[Def],
    left: &Rule,
    right: &Rule,
) -> Result<Option<String>, AllocError> {
    let parts = parts_of(alloc, &Extractors::none(alloc), &[left, right])?;
    if has_any_conflict(defs, &parts) {
        return Ok(None);
    }
    let mut writing = Writing::new(alloc, &parts, false)?;
    let mut out = String::new(alloc);
    writing.push_left_side(term_of(left), &mut out)?;
    if writing.has_failed() {
        return Ok(None);
    }
    Ok(Some(out))
}

/// Whether no value matches both of two rules of a term, since they ask for two constants or two variants at one place. Where that
/// isn't so, some value may match both.
pub fn exclude_each_other(
    alloc: Global,
    defs: &[Def],
    left: &Rule,
    right: &Rule,
) -> Result<bool, AllocError> {
    let parts = parts_of(alloc, &Extractors::none(alloc), &[left, right])?;
    let found = has_any_conflict(defs, &parts);
    Ok(found)
}

/// The left side of a rule, where only variables that stand there more than once have names; the empty text if it is too long.
///
/// # Errors
///
/// If memory is refused.
pub fn left_side(alloc: Global, rule: &Rule) -> Result<String, AllocError> {
    let parts = parts_of(alloc, &Extractors::none(alloc), &[rule])?;
    let mut writing = Writing::new(alloc, &parts, false)?;
    let mut out = String::new(alloc);
    writing.push_left_side(term_of(rule), &mut out)?;
    if writing.has_failed() {
        return Ok(String::new(alloc));
    }
    Ok(out)
}

/// The name of the term that a rule is of.
pub fn term_of(rule: &Rule) -> &str {
    match &rule.pattern {
        Pattern::Term { sym, .. } => sym.0.as_str(),
        _ => "?",
    }
}

/// Two forms that no value has, and where a rule asks for them.
#[derive(Clone, Copy)]
pub struct Conflict<'a> {
    /// The one, and its place.
    pub first: (ValueForm<'a>, Pos),
    /// The other, and its place.
    pub second: (ValueForm<'a>, Pos),
}

impl<'a> Conflict<'a> {
    /// Whether one pattern asks for both forms: a use of an internal extractor.
    pub fn is_by_one(&self) -> bool {
        self.first.1 == self.second.1
    }
}

/// The pairs of forms that a rule asks of one value and that no value has. These internal extractors ask what their templates
/// do.
///
/// # Errors
///
/// If memory is refused.
pub fn conflicts_in<'a>(
    alloc: Global,
    defs: &[Def],
    extractors: &Extractors<'a>,
    rule: &'a Rule,
) -> Result<Vec<Conflict<'a>>, AllocError> {
    let parts = parts_of(alloc, extractors, &[rule])?;
    conflicts_of(alloc, defs, &parts)
}

/// Whether a rule asks the same two forms of one value even if nothing is known of what an internal extractor asks.
pub(crate) fn stays_without<'a>(
    alloc: Global,
    defs: &[Def],
    extractors: &Extractors<'a>,
    rule: &'a Rule,
    unknown: &Extractor,
    conflict: &Conflict<'_>,
) -> Result<bool, AllocError> {
    let parts = parts_without(alloc, extractors, rule, unknown)?;
    let found = conflicts_of(alloc, defs, &parts)?;
    Ok(
        found
            .iter()
            .take(MOST_CONFLICTS)
            .any(|other| is_same_conflict(other, conflict)),
    )
}

fn is_same_conflict(left: &Conflict<'_>, right: &Conflict<'_>) -> bool {
    is_same_demand(left.first, right.first) && is_same_demand(left.second, right.second)
}

// Whether two patterns are one, and ask for one form.
fn is_same_demand(left: (ValueForm<'_>, Pos), right: (ValueForm<'_>, Pos)) -> bool {
    left.1 == right.1 && is_same(left.0, right.0)
}

/// Two forms that the template of an internal extractor asks of one value by two patterns and that no value has, whatever stands
/// for the extractor's arguments. If one pattern asks both, it is a use of another such extractor.
pub(crate) fn conflict_in_template<'a>(
    alloc: Global,
    defs: &[Def],
    extractors: &Extractors<'a>,
    extractor: &'a Extractor,
) -> Result<Option<Conflict<'a>>, AllocError> {
    let parts = parts_of_template(alloc, extractors, extractor)?;
    let conflicts = conflicts_of(alloc, defs, &parts)?;
    Ok(
        conflicts
            .iter()
            .take(MOST_CONFLICTS)
            .find(|conflict| !conflict.is_by_one())
            .copied(),
    )
}

// Whether parts must have two forms that no value has.
fn has_any_conflict(defs: &[Def], parts: &Parts<'_>) -> bool {
    (0..parts.count()).any(|part| parts.class_of(part) == part
        && has_conflict(defs, parts.heads(part)))
}

fn has_conflict(defs: &[Def], heads: &[Head<'_>]) -> bool {
    for (i, head) in heads.iter().enumerate() {
        if conflict_with(defs, heads, i, head).is_some() {
            return true;
        }
    }
    false
}

// The conflicts of forms that parts must have, part by part.
fn conflicts_of<'a>(
    alloc: Global,
    defs: &[Def],
    parts: &Parts<'a>,
) -> Result<Vec<Conflict<'a>>, AllocError> {
    let mut conflicts = Vec::new(alloc);
    for part in 0..parts.count() {
        if parts.class_of(part) == part {
            add_conflicts(defs, parts.heads(part), &mut conflicts)?;
        }
    }
    Ok(conflicts)
}

// Adds the conflict of each form with the first one before it that no value has together with it.
fn add_conflicts<'a>(
    defs: &[Def],
    heads: &[Head<'a>],
    conflicts: &mut Vec<Conflict<'a>>,
) -> Result<(), AllocError> {
    for (i, head) in heads.iter().enumerate() {
        if let Some(conflict) = conflict_with(defs, heads, i, head) {
            conflicts.push(conflict)?;
        }
    }
    Ok(())
}

// The first of so many forms that no value has together with this one.
fn conflict_with<'a>(
    defs: &[Def],
    heads: &[Head<'a>],
    count: usize,
    second: &Head<'a>,
) -> Option<Conflict<'a>> {
    for first in heads.iter().take(count) {
        if are_apart(defs, first.form, second.form) {
            return Some(Conflict {
                first: (first.form, first.pos),
                second: (second.form, second.pos),
            });
        }
    }
    None
}
