//! The warnings of definitions that are accepted.

use crate::allowances::is_allowed_above;
use crate::always::add_always;
use crate::constants::{add_beside, add_named};
use crate::kinds::{Warning, is_one_of};
use crate::literals::add_outside;
use crate::priorities::add_idle_priorities;
use crate::recursion::add_recursion;
use crate::returns::add_dead;
use crate::sample_values::Samples;
use crate::uncovered::add_uncovered;
use crate::variables::add_variables;
use cranelift_isle::lower::{Lowered, LoweredTerm};
use cranelift_isle::sema::TypeEnv;
use cranelift_isle::syntax::{Def, Files, Ident, Pos};
use report_names::definitions::constants_of;
use report_names::mentions::Mentions;
use report_print::report::Report;
use report_queries::premises::is_multi;
use std::alloc::{AllocError, Global};

/// The warnings of accepted definitions, without those of the kinds that are `allowed`, and without those that a comment above
/// their definition allows: first what is said of each term with rules, then of calls among terms and of conditions, then of each
/// definition.
///
/// # Errors
///
/// If memory is refused.
pub fn warnings(
    alloc: Global,
    files: &Files,
    defs: &[Def],
    lowered: &Lowered,
    allowed: &[Warning],
) -> Result<Vec<Report>, AllocError> {
    let mut reports = Vec::new(alloc);
    let mut samples = Samples::new(alloc);
    for term in &lowered.terms {
        let defs = (defs, &mut samples);
        add_of_term(alloc, &mut reports, files, defs, lowered, term)?;
    }
    add_recursion(alloc, &mut reports, defs, lowered)?;
    add_always(alloc, &mut reports, defs, lowered)?;
    let constants = constants_of(alloc, defs)?;
    for def in defs {
        if let Def::Rule(_) | Def::Extractor(_) = def {
            let names = Mentions::of(alloc, def)?;
            add_by_itself(
                alloc,
                &mut reports,
                (defs, &lowered.tyenv),
                &constants,
                def,
                &names,
            )?;
            add_named(alloc, &mut reports, lowered, &names)?;
        }
    }
    kept(alloc, files, defs, reports, allowed)
}

/// The warnings that each rule and each extractor gives by itself, of accepted types, whatever the other definitions are: without
/// those at these places, and without those that a comment above allows.
///
/// # Errors
///
/// If memory is refused.
pub fn warnings_of_each(
    alloc: Global,
    files: &Files,
    defs: &[Def],
    tyenv: &TypeEnv,
    except: &[Pos],
) -> Result<Vec<Report>, AllocError> {
    let mut reports = Vec::new(alloc);
    let constants = constants_of(alloc, defs)?;
    for def in defs {
        if is_at_none(def, except) {
            let names = Mentions::of(alloc, def)?;
            add_by_itself(alloc, &mut reports, (defs, tyenv), &constants, def, &names)?;
        }
    }
    kept(alloc, files, defs, reports, &[])
}

// Whether a rule or an extractor stands at none of these places.
fn is_at_none(def: &Def, places: &[Pos]) -> bool {
    match def {
        Def::Rule(rule) => !places.contains(&rule.pos),
        Def::Extractor(extractor) => !places.contains(&extractor.pos),
        _ => false,
    }
}

// Those reports that are of no allowed kind, and that no comment above allows.
fn kept(
    alloc: Global,
    files: &Files,
    defs: &[Def],
    reports: Vec<Report>,
    allowed: &[Warning],
) -> Result<Vec<Report>, AllocError> {
    let mut kept = Vec::new(alloc);
    for report in reports {
        if !is_one_of(&report, allowed) && !is_allowed_above(files, defs, &report) {
            kept.push(shortened(report)?)?;
        }
    }
    Ok(kept)
}

fn shortened(mut report: Report) -> Result<Report, AllocError> {
    report.shorten()?;
    Ok(report)
}

// Adds what a term's rules say together that is likely not meant. Rules of multi terms all run.
fn add_of_term(
    alloc: Global,
    reports: &mut Vec<Report>,
    files: &Files,
    (defs, samples): (&[Def], &mut Samples),
    lowered: &Lowered,
    term: &LoweredTerm,
) -> Result<(), AllocError> {
    if !is_multi(&lowered.termenv, term.id) {
        add_dead(alloc, reports, defs, &term.block)?;
        add_idle_priorities(alloc, reports, defs, &term.rules.rules)?;
        add_uncovered(alloc, reports, files, (defs, samples), lowered, term)?;
    }
    add_beside(alloc, reports, defs, lowered, term)
}

// Adds what a rule or an extractor says by itself that is likely not meant.
fn add_by_itself(
    alloc: Global,
    reports: &mut Vec<Report>,
    (defs, tyenv): (&[Def], &TypeEnv),
    constants: &[(&Ident, &Ident)],
    def: &Def,
    names: &Mentions<'_>,
) -> Result<(), AllocError> {
    if let Def::Rule(_) = def {
        add_variables(alloc, reports, defs, constants, names)?;
    }
    add_outside(alloc, reports, defs, tyenv, names)
}
