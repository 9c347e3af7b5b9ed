//! Which rule of one version takes what a rule of another one matches.

use crate::versions::{Version, term_called};
use cranelift_isle::lower::Lowered;
use cranelift_isle::sema::{TermId, TypeId};
use cranelift_isle::syntax::{Def, Ident, Pos, Rule};
use report_names::names::priority_of;
use report_queries::names::type_name;
use report_queries::premises::is_multi;
use report_witness::witness::{exclude_each_other, term_of, witness};
use std::alloc::{AllocError, Global};

/// What takes the values that a rule of another version matches. The text is the left side of that rule.
#[derive(Drop)]
pub enum Taker<'a> {
    /// This rule.
    Rule(String, &'a Rule),
    /// No rule.
    Nothing(String),
    /// Several rules may, or what is said of the values can't be told of this version.
    Unknown,
}

/// What takes the values in another version that a rule of a term matches, where its own version takes this rule for all of them.
///
/// # Errors
///
/// Where memory is refused.
pub fn taker_of<'a>(
    alloc: Global,
    term: &str,
    own: Version<'_, '_>,
    other: Version<'a, '_>,
    rule: &Rule,
) -> Result<Taker<'a>, AllocError> {
    if !is_comparable(own.lowered, other.lowered, term) || !knows(alloc, other.lowered, rule)? {
        return Ok(Taker::Unknown);
    }
    match foremost(alloc, own.defs, rule)? {
        Some(first) if first.pos == rule.pos => taker_in(alloc, other.defs, rule),
        _ => Ok(Taker::Unknown),
    }
}

// What takes the values that a rule matches, among the rules of some definitions.
fn taker_in<'a>(alloc: Global, defs: &'a [Def], rule: &Rule) -> Result<Taker<'a>, AllocError> {
    let Some(value) = witness(alloc, defs, rule, rule)? else {
        return Ok(Taker::Unknown);
    };
    let Some(first) = foremost(alloc, defs, rule)? else {
        return Ok(Taker::Nothing(value));
    };
    let Some(both) = witness(alloc, defs, rule, first)? else {
        return Ok(Taker::Unknown);
    };
    if both == value {
        Ok(Taker::Rule(value, first))
    } else {
        Ok(Taker::Unknown)
    }
}

// The rule of the greatest priority that may match what a rule matches.
fn foremost<'a>(
    alloc: Global,
    defs: &'a [Def],
    rule: &Rule,
) -> Result<Option<&'a Rule>, AllocError> {
    let mut first: Option<&'a Rule> = None;
    for def in defs {
        if let Def::Rule(other) = def {
            if may_be_first(alloc, defs, rule, other, first)? {
                first = Some(other);
            }
        }
    }
    Ok(first)
}

// Whether a rule may match what another one does, and has a greater priority than the first one so far.
fn may_be_first(
    alloc: Global,
    defs: &[Def],
    rule: &Rule,
    other: &Rule,
    first: Option<&Rule>,
) -> Result<bool, AllocError> {
    let is_before = match first {
        Some(first) => priority_of(other) > priority_of(first),
        None => true,
    };
    if !is_before || term_of(other) != term_of(rule) {
        return Ok(false);
    }
    let excluded = exclude_each_other(alloc, defs, rule, other)?;
    Ok(!excluded)
}

// Whether the values of a term's arguments are the same in two versions, and one rule is taken for them in both.
fn is_comparable(own: &Lowered, other: &Lowered, term: &str) -> bool {
    let (Some(left), Some(right)) = (term_called(own, term), term_called(other, term)) else {
        return false;
    };
    let one = !is_multi(&own.termenv, left.id) && !is_multi(&other.termenv, right.id);
    one && has_same_types(own, left.id, other, right.id)
}

// Whether the arguments of two terms have types of the same names.
fn has_same_types(own: &Lowered, left: TermId, other: &Lowered, right: TermId) -> bool {
    let (left, right) = (argument_types(own, left), argument_types(other, right));
    if left.len() != right.len() {
        return false;
    }
    for (left, right) in left.iter().zip(right) {
        if name_of_type(own, *left) != name_of_type(other, *right) {
            return false;
        }
    }
    true
}

fn name_of_type(lowered: &Lowered, ty: TypeId) -> &str {
    match type_name(&lowered.tyenv, ty) {
        Some(name) => name,
        None => "?",
    }
}

fn argument_types(lowered: &Lowered, term: TermId) -> &[TypeId] {
    match lowered.termenv.terms.get(term.index()) {
        Some(term) => &term.arg_tys,
        None => &[],
    }
}

// Whether a version has each term that the left side of a rule names.
fn knows(alloc: Global, lowered: &Lowered, rule: &Rule) -> Result<bool, AllocError> {
    let mut terms: Vec<(Pos, &Ident)> = Vec::new(alloc);
    rule.pattern.terms(&mut terms)?;
    for iflet in &rule.iflets {
        iflet.pattern.terms(&mut terms)?;
        iflet.expr.terms(&mut terms)?;
    }
    for (_, name) in &terms {
        if !has_term(lowered, &name.0) {
            return Ok(false);
        }
    }
    Ok(true)
}

fn has_term(lowered: &Lowered, name: &str) -> bool {
    lowered
        .termenv
        .terms
        .iter()
        .any(|term| lowered.tyenv.text_of(term.name) == name)
}
