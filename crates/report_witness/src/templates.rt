//! The internal extractors that rules use, and those among them whose templates no value matches.

use crate::extractors::Extractors;
use crate::witness::{Conflict, conflict_in_template, stays_without};
use core_syntax::syntax::{Def, Extractor, Pattern, Rule};
use std::alloc::{AllocError, Global};

// How many patterns are read. Templates are read once, so that rules and templates of a real size have fewer.
const MOST_PATTERNS: usize = 1 << 24;

/// An internal extractor whose template no value matches.
#[derive(Clone, Copy)]
pub struct Impossible<'a> {
    /// The extractor.
    pub extractor: &'a Extractor,
    /// Two forms that the template asks of one value, and that no value has.
    pub conflict: Conflict<'a>,
}

/// The internal extractors whose own templates no value matches, among those that rules use, directly or in other templates. One
/// that only uses such an extractor isn't among them.
///
/// # Errors
///
/// If memory is refused.
pub fn impossible_in<'a>(
    alloc: Global,
    defs: &[Def],
    extractors: &Extractors<'a>,
    rules: &[&'a Rule],
) -> Result<Vec<Impossible<'a>>, AllocError> {
    let mut impossible = Vec::new(alloc);
    for extractor in &extractors_used(alloc, extractors, rules)? {
        if let Some(conflict) = conflict_in_template(alloc, defs, extractors, *extractor)? {
            impossible.push(Impossible {
                extractor: *extractor,
                conflict,
            })?;
        }
    }
    Ok(impossible)
}

/// The number of the extractor among these because of which a rule asks two forms of one value, if one alone is the cause.
///
/// # Errors
///
/// If memory is refused.
pub fn cause_in<'a>(
    alloc: Global,
    defs: &[Def],
    extractors: &Extractors<'a>,
    rule: &'a Rule,
    impossible: &[Impossible<'_>],
    conflict: &Conflict<'_>,
) -> Result<Option<usize>, AllocError> {
    let used = extractors_used(alloc, extractors, &[rule])?;
    for (number, one) in impossible.iter().enumerate() {
        if has(&used, one.extractor)
            && !stays_without(alloc, defs, extractors, rule, one.extractor, conflict)?
        {
            return Ok(Some(number));
        }
    }
    Ok(None)
}

/// How many rules use an internal extractor, directly or in other templates.
///
/// # Errors
///
/// If memory is refused.
pub fn count_users<'a>(
    alloc: Global,
    defs: &'a [Def],
    extractors: &Extractors<'a>,
    extractor: &Extractor,
) -> Result<usize, AllocError> {
    let mut count = 0usize;
    for def in defs {
        if let Def::Rule(rule) = def {
            let used = extractors_used(alloc, extractors, &[rule])?;
            if has(&used, extractor) {
                count = count.saturating_add(1);
            }
        }
    }
    Ok(count)
}

fn has(extractors: &[&Extractor], extractor: &Extractor) -> bool {
    extractors.iter().any(|other| other.pos == extractor.pos)
}

// The internal extractors that rules use, directly or in other templates, each once.
fn extractors_used<'a>(
    alloc: Global,
    extractors: &Extractors<'a>,
    rules: &[&'a Rule],
) -> Result<Vec<&'a Extractor>, AllocError> {
    let mut used = Vec::new(alloc);
    let mut waiting = Vec::new(alloc);
    for rule in rules {
        add_patterns(&mut waiting, rule)?;
    }
    for _ in 0..MOST_PATTERNS {
        let Some(pattern) = waiting.pop() else {
            return Ok(used);
        };
        add_used(extractors, pattern, &mut used, &mut waiting)?;
    }
    Ok(used)
}

// Adds the patterns of a rule. Its own term is no extractor there.
fn add_patterns<'a>(waiting: &mut Vec<&'a Pattern>, rule: &'a Rule) -> Result<(), AllocError> {
    if let Pattern::Term { args, .. } = &rule.pattern {
        add_all(waiting, args)?;
    }
    for iflet in &rule.iflets {
        waiting.push(&iflet.pattern)?;
    }
    Ok(())
}

// Adds the extractor that a pattern is a use of. What the pattern is made of waits then, and a template that wasn't read before.
fn add_used<'a>(
    extractors: &Extractors<'a>,
    pattern: &'a Pattern,
    used: &mut Vec<&'a Extractor>,
    waiting: &mut Vec<&'a Pattern>,
) -> Result<(), AllocError> {
    match pattern {
        Pattern::BindPattern { subpat, .. } => {
            waiting.push(subpat)?;
            Ok(())
        }
        Pattern::And { subpats, .. } => add_all(waiting, subpats),
        Pattern::Term { sym, args, .. } => {
            add_all(waiting, args)?;
            if let Some(extractor) = extractors.get(&sym.0) {
                if !has(used, extractor) {
                    used.push(extractor)?;
                    waiting.push(&extractor.template)?;
                }
            }
            Ok(())
        }
        Pattern::Var { .. }
        | Pattern::ConstBool { .. }
        | Pattern::ConstInt { .. }
        | Pattern::ConstPrim { .. }
        | Pattern::Wildcard { .. }
        | Pattern::MacroArg { .. } => Ok(()),
    }
}

fn add_all<'a>(waiting: &mut Vec<&'a Pattern>, patterns: &'a [Pattern]) -> Result<(), AllocError> {
    for pattern in patterns {
        waiting.push(pattern)?;
    }
    Ok(())
}
