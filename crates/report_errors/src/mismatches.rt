//! Where the two types of a mismatch come from.

use crate::reports::Told;
use core_why::{Typed, Why, Wrong};
use report_names::definitions::{place_of_constant, place_of_made};
use report_names::mentions::{Need, type_needed};
use report_print::report::Report;
use std::alloc::{AllocError, Global};

/// Adds the places that the two types of a mismatch come from: where the one is needed, and what has the other; and where a
/// variable was bound that is bound once more.
pub(crate) fn add_types(told: &Told<'_>, report: &mut Report) -> Result<(), AllocError> {
    match told.why {
        Why::Named(name, Wrong::Rebound) => add_binding(told, report, name),
        Why::NoInteger { ty, .. } | Why::NoTruth { ty, .. } => add_need(told, report, ty),
        Why::Mismatch {
            what,
            name,
            want,
            ..
        } => {
            add_need(told, report, want)?;
            add_own(told, report, *what, name)
        }
        _ => Ok(()),
    }
}

// Adds where a type is needed, if it is the one that an error speaks of.
fn add_need(told: &Told<'_>, report: &mut Report, wanted: &str) -> Result<(), AllocError> {
    let need = told.names.need_at(told.pos);
    let Some(ty) = type_needed(told.defs, need) else {
        return Ok(());
    };
    let name = ty.0.as_str();
    if wanted != name {
        return Ok(());
    }
    let text = need_text(told.alloc, need, name)?;
    report.add_new_label(ty.1, text)
}

fn need_text(alloc: Global, need: Need<'_>, ty: &str) -> Result<String, AllocError> {
    match need {
        Need::Nothing => Ok(String::new(alloc)),
        Need::Argument(term, _) | Need::Parameter(term, _) => {
            format!(in alloc; "`{term}` takes {ty} here")
        }
        Need::Answer(term) | Need::Given(term, _) => format!(in alloc; "`{term}` gives {ty}"),
        Need::Binding(def) => {
            let name = &def.var.0;
            format!(in alloc; "`{name}` has the type {ty}")
        }
    }
}

// Adds where what has the other type is defined.
fn add_own(
    told: &Told<'_>,
    report: &mut Report,
    what: Typed,
    name: &str,
) -> Result<(), AllocError> {
    match what {
        Typed::Extractor | Typed::Constructor => add_result(told, report, name),
        Typed::Bound | Typed::Variable => add_binding(told, report, name),
        Typed::MatchedConstant | Typed::Constant => add_constant(told, report, name),
    }
}

// Adds where a constant is declared.
fn add_constant(told: &Told<'_>, report: &mut Report, name: &str) -> Result<(), AllocError> {
    let Some(place) = place_of_constant(told.defs, name) else {
        return Ok(());
    };
    let text = format!(in told.alloc; "`${name}` is declared here")?;
    report.add_new_label(place, text)
}

// Adds where a term's result is declared.
fn add_result(told: &Told<'_>, report: &mut Report, term: &str) -> Result<(), AllocError> {
    let need = Need::Answer(term);
    if let Some(ty) = type_needed(told.defs, need) {
        let text = need_text(told.alloc, need, &ty.0)?;
        return report.add_new_label(ty.1, text);
    }
    if let Some(place) = place_of_made(told.defs, term) {
        let text = format!(in told.alloc; "`{term}` is declared here")?;
        report.add_new_label(place, text)?;
    }
    Ok(())
}

// Adds where the variable of this name is bound that stands at an error's place.
fn add_binding(told: &Told<'_>, report: &mut Report, name: &str) -> Result<(), AllocError> {
    let Some(place) = told.names.binding_at(told.pos) else {
        return Ok(());
    };
    let text = format!(in told.alloc; "`{name}` is bound here")?;
    report.add_new_label(place, text)
}
