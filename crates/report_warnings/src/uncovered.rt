//! Values that no rule of a term takes.

use crate::kinds::{Warning, add_place, begun};
use crate::missing_rules::add_rule_for;
use crate::passing::{Fact, passing};
use crate::sample_values::Samples;
use crate::untaken::untaken_call;
use cranelift_isle::lower::{Lowered, LoweredTerm};
use cranelift_isle::sema::Term;
use cranelift_isle::syntax::{Decl, Def, Files};
use report_names::definitions::definition_around;
use report_names::rule_notes::add_help;
use report_print::report::{Place, Report};
use std::alloc::{AllocError, Global};

/// Adds a warning if no rule of a term takes some value, and the term isn't `partial`. It must not be `multi`.
pub(crate) fn add_uncovered(
    alloc: Global,
    reports: &mut Vec<Report>,
    files: &Files,
    (defs, samples): (&[Def], &mut Samples),
    lowered: &Lowered,
    lowered_term: &LoweredTerm,
) -> Result<(), AllocError> {
    let Some(term) = lowered.termenv.terms.get(lowered_term.id.index()) else {
        return Ok(());
    };
    if term.is_partial() {
        return Ok(());
    }
    let bindings = &lowered_term.rules.bindings;
    match passing(alloc, &lowered.tyenv, bindings, &lowered_term.block)? {
        Some(facts) => {
            let defs = (defs, samples);
            let report = uncovered(alloc, files, defs, lowered, lowered_term, term, &facts)?;
            reports.push(report)?;
            Ok(())
        }
        None => Ok(()),
    }
}

// The warning of a term, with a call that no rule takes, by what a run of it found.
fn uncovered(
    alloc: Global,
    files: &Files,
    (defs, samples): (&[Def], &mut Samples),
    lowered: &Lowered,
    lowered_term: &LoweredTerm,
    term: &Term,
    facts: &[Fact],
) -> Result<Report, AllocError> {
    let untaken = untaken_call(alloc, lowered, lowered_term, term, facts)?;
    let (call, conditions) = (&untaken.call, &untaken.conditions);
    let message = format!(in alloc; "no rule takes `{call}`{conditions}")?;
    let mut report = begun(alloc, Warning::Uncovered, message);
    add_place(
        alloc,
        &mut report,
        term.decl_pos,
        "the term isn't partial, so its code panics there",
    )?;
    add_help(
        alloc,
        &mut report,
        "add a rule that takes it, or declare the term partial",
    )?;
    if let Some(decl) = declaration_of(defs, term) {
        let rules = &lowered_term.rules.rules;
        let defs = (defs, samples);
        add_rule_for(alloc, &mut report, files, defs, decl, rules, call)?;
        let name = &decl.term.0;
        let title = format!(in alloc; "Declare `{name}` partial")?;
        let place = Place::Before(decl.term.1);
        report.add_fix(title, place, String::from_str(alloc, "partial ")?)?;
    }
    Ok(report)
}

/// The declaration of a term.
pub(crate) fn declaration_of<'a>(defs: &'a [Def], term: &Term) -> Option<&'a Decl> {
    match definition_around(defs, term.decl_pos) {
        Some(Def::Decl(decl)) => Some(decl),
        _ => None,
    }
}
