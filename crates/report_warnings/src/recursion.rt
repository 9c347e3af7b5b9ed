//! Terms that call themselves.

use crate::calls::{calls_none, calls_of, cycle_of, keep_cycles};
use crate::kinds::{Warning, add_place, begun};
use crate::uncovered::declaration_of;
use cranelift_isle::lower::Lowered;
use cranelift_isle::sema::Term;
use cranelift_isle::syntax::Def;
use report_names::rule_notes::add_help;
use report_print::report::{Edit, Fix, Place, Report, Word};
use std::alloc::{AllocError, Global};
use std::collections::BTreeSet;

/// Adds a warning for each cycle of terms that call one another without `rec`, and one for each term that has `rec` and doesn't
/// call itself.
pub(crate) fn add_recursion(
    alloc: Global,
    reports: &mut Vec<Report>,
    defs: &[Def],
    lowered: &Lowered,
) -> Result<(), AllocError> {
    let mut calls = calls_of(alloc, &lowered.termenv)?;
    keep_cycles(alloc, &mut calls)?;
    // The terms of the cycles that are reported.
    let mut told: BTreeSet<usize> = BTreeSet::new(alloc);
    for (number, term) in lowered.termenv.terms.iter().enumerate() {
        if term.is_recursive() {
            if calls_none(&calls, number) {
                reports.push(needless(alloc, defs, lowered, term)?)?;
            }
        } else if !told.contains(&number) {
            if let Some(cycle) = cycle_of(alloc, &calls, number)? {
                reports.push(recursive(alloc, defs, lowered, term, &cycle)?)?;
                for member in cycle {
                    told.insert(member)?;
                }
            }
        }
    }
    Ok(())
}

// The warning of a term that calls itself by way of these terms.
fn recursive(
    alloc: Global,
    defs: &[Def],
    lowered: &Lowered,
    term: &Term,
    cycle: &[usize],
) -> Result<Report, AllocError> {
    let name = lowered.tyenv.text_of(term.name);
    let mut message = format!(in alloc; "`{name}` calls itself")?;
    for (i, number) in cycle.iter().skip(1).enumerate() {
        message.push_str(if i == 0 { " by " } else { " and " })?;
        push_name(&mut message, lowered, *number)?;
    }
    let mut report = begun(alloc, Warning::Recursion, message);
    let mut edits = Vec::new(alloc);
    for number in cycle {
        add_term(alloc, &mut report, &mut edits, defs, lowered, *number)?;
    }
    let title = String::from_str(alloc, "Add `rec`")?;
    report.fixes.push(Fix { title, edits })?;
    add_help(
        alloc,
        &mut report,
        "add rec to the declaration: the original compiler refuses the cycle without it",
    )?;
    Ok(report)
}

fn push_name(out: &mut String, lowered: &Lowered, number: usize) -> Result<(), AllocError> {
    if let Some(term) = lowered.termenv.terms.get(number) {
        let name = lowered.tyenv.text_of(term.name);
        write!(out, "`{name}`")?;
    }
    Ok(())
}

// Adds the place of a term, and the edit that gives it `rec`, if it has none.
fn add_term(
    alloc: Global,
    report: &mut Report,
    edits: &mut Vec<Edit>,
    defs: &[Def],
    lowered: &Lowered,
    number: usize,
) -> Result<(), AllocError> {
    match lowered.termenv.terms.get(number) {
        Some(term) if !term.is_recursive() => {
            if let Some(decl) = declaration_of(defs, term) {
                let place = Place::Before(decl.term.1);
                let text = String::from_str(alloc, "rec ")?;
                edits.push(Edit { place, text })?;
            }
            add_place(alloc, report, term.decl_pos, "declared without rec")
        }
        _ => Ok(()),
    }
}

// The warning of a term that has `rec` and doesn't call itself.
fn needless(
    alloc: Global,
    defs: &[Def],
    lowered: &Lowered,
    term: &Term,
) -> Result<Report, AllocError> {
    let name = lowered.tyenv.text_of(term.name);
    let message = format!(in alloc; "`{name}` has rec, but never calls itself")?;
    let mut report = begun(alloc, Warning::Recursion, message);
    add_place(alloc, &mut report, term.decl_pos, "declared with rec")?;
    add_help(alloc, &mut report, "remove rec")?;
    if let Some(decl) = declaration_of(defs, term) {
        let title = String::from_str(alloc, "Remove `rec`")?;
        let place = Place::Between(decl.pos, decl.term.1, Word::Rec);
        report.add_fix(title, place, String::new(alloc))?;
    }
    Ok(report)
}
