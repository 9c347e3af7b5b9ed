//! How what the files of a workspace mean together is worked out: they are read and lowered, and errors and warnings are told.

use crate::readings::{Readings, parts_of};
use app_answers::analysis::{Analysis, LostForms};
use app_answers::diagnostics::{file_of, place_of};
use app_answers::sources::Sources;
use cranelift_isle::environments::Environments;
use cranelift_isle::lower::{Lowered, Refused, lower_or_environments};
use cranelift_isle::sema::TypeEnv;
use cranelift_isle::syntax::{Def, Error, Fault, Files, Pos};
use report_errors::diagnosis::{Amount, Reports, begin_of_error, reports_of};
use report_errors::lost::{come_of_lost, errors_beside};
use report_errors::lost_names::{FormSeen, LostNames};
use report_names::definitions::definition_around;
use report_names::lost_part::LostPart;
use report_print::report::Report;
use report_stack::deep_rule;
use report_warnings::lints::{warnings, warnings_of_each};
use std::alloc::{AllocError, Global};

/// What files mean together, by what they meant before. Of a text that can't be read whole the forms that can be read count, and
/// the last good definitions of the others. Then no warning is told that several rules give, and nothing that comes of a form that
/// can't be read. A rule that takes more than `stack` bytes of stack is reported, and nothing is lowered.
pub fn analysis_of(
    alloc: Global,
    sources: Sources,
    stack: usize,
    previous: Option<&Analysis>,
) -> Result<Analysis, AllocError> {
    let (defs, mut reports, lost) = Readings::of(alloc, &sources, previous)?.into_found();
    let lowered = match deep_rule(alloc, &defs, true, stack)? {
        Some(report) => {
            reports.push(report)?;
            None
        }
        None => lowered_of(alloc, &sources.files, &defs, &lost, &mut reports)?,
    };
    Ok(Analysis {
        sources,
        defs,
        lost,
        lowered,
        reports,
    })
}

// What definitions are lowered to, where nothing is wrong with them. Adds their errors, or else their warnings.
fn lowered_of(
    alloc: Global,
    files: &Files,
    defs: &[Def],
    lost: &[LostForms],
    reports: &mut Vec<Report>,
) -> Result<Option<Lowered>, AllocError> {
    let parts = parts_of(alloc, lost)?;
    match lower_or_environments(alloc, defs, true) {
        Ok(lowered) => {
            add_warnings(alloc, files, defs, &parts, &lowered, reports)?;
            Ok(Some(lowered))
        }
        Err(Refused::Errors(errors, environments)) => {
            let environments = environments.as_ref();
            add_errors(alloc, files, defs, &parts, environments, &errors, reports)?;
            Ok(None)
        }
        Err(Refused::Memory(error)) => Err(error),
    }
}

// Adds the warnings of accepted definitions: where parts of texts are lost, those that rules give by themselves.
fn add_warnings(
    alloc: Global,
    files: &Files,
    defs: &[Def],
    lost: &[LostPart],
    lowered: &Lowered,
    reports: &mut Vec<Report>,
) -> Result<(), AllocError> {
    let told = if lost.is_empty() {
        warnings(alloc, files, defs, lowered, &[])?
    } else {
        warnings_of_each(alloc, files, defs, &lowered.tyenv, &[])?
    };
    add_told(alloc, files, defs, lost, told, reports)
}

// Adds those of some warnings that don't come of lost parts of texts.
fn add_told(
    alloc: Global,
    files: &Files,
    defs: &[Def],
    lost: &[LostPart],
    told: Vec<Report>,
    reports: &mut Vec<Report>,
) -> Result<(), AllocError> {
    let names = LostNames::of(alloc, &files.texts, defs, lost)?;
    let mut seen = FormSeen::none();
    for report in told {
        let comes = match place_of(&report) {
            Some(pos) => names.comes_of(pos, &mut seen),
            None => false,
        };
        if !comes {
            reports.push(report)?;
        }
    }
    Ok(())
}

// Adds the errors of definitions that don't come of lost parts of texts, as `isle check` tells them: without the definitions of
// those that do, if there are some.
fn add_errors(
    alloc: Global,
    files: &Files,
    defs: &[Def],
    lost: &[LostPart],
    environments: Option<&Environments>,
    errors: &[Error],
    reports: &mut Vec<Report>,
) -> Result<(), AllocError> {
    if !come_of_lost(alloc, files, defs, lost, errors)?.contains(&true) {
        return add_reports(alloc, files, defs, lost, environments, errors, reports);
    }
    let mut kept = copied(alloc, defs)?;
    let mut parts = Vec::new(alloc);
    parts.extend_from_slice(lost)?;
    let (errors, environments) = errors_beside(alloc, files, &mut kept, &mut parts, true)?;
    add_reports(
        alloc,
        files,
        &kept,
        &parts,
        environments.as_ref(),
        &errors,
        reports,
    )
}

fn copied(alloc: Global, defs: &[Def]) -> Result<Vec<Def>, AllocError> {
    let mut copied = Vec::new(alloc);
    for def in defs {
        copied.push(def.clone()?)?;
    }
    Ok(copied)
}

// Adds the reports of errors, and the warnings that rules without errors give by themselves.
fn add_reports(
    alloc: Global,
    files: &Files,
    defs: &[Def],
    lost: &[LostPart],
    environments: Option<&Environments>,
    errors: &[Error],
    reports: &mut Vec<Report>,
) -> Result<(), AllocError> {
    let mut found = reports_of(alloc, defs, environments, true, errors, Amount::OfEachFile)?;
    tell_rest(alloc, &mut found)?;
    let mut except = places_of_errors(alloc, defs, errors)?;
    add_places(defs, &found.reports, &mut except)?;
    reports.append(&mut found.reports)?;
    let beside = warnings_beside(alloc, files, defs, &except)?;
    add_told(alloc, files, defs, lost, beside, reports)
}

// Tells with the last report of each file how many errors of the file aren't reported.
fn tell_rest(alloc: Global, found: &mut Reports) -> Result<(), AllocError> {
    let mut told: Vec<usize> = Vec::new(alloc);
    for report in found.reports.iter_mut().rev() {
        let file = file_of(report);
        let rest = found.rest.iter().filter(|other| **other == file).count();
        if !told.contains(&file) {
            told.push(file)?;
            add_rest(alloc, report, rest)?;
        }
    }
    Ok(())
}

/// Adds to the last report of a file how many more errors the file has.
pub(crate) fn add_rest(alloc: Global, report: &mut Report, rest: usize) -> Result<(), AllocError> {
    if rest == 0 {
        return Ok(());
    }
    report.add_note("note", rest_text(alloc, rest)?)
}

// How many errors of a file aren't reported, in words.
fn rest_text(alloc: Global, rest: usize) -> Result<String, AllocError> {
    match rest {
        1 => String::from_str(alloc, "1 more error of this file is not shown"),
        _ => format!(in alloc; "{rest} more errors of this file are not shown"),
    }
}

// The warnings that rules give by themselves, but for those at some places, where the types are right.
fn warnings_beside(
    alloc: Global,
    files: &Files,
    defs: &[Def],
    except: &[Pos],
) -> Result<Vec<Report>, AllocError> {
    match TypeEnv::from_ast(alloc, defs) {
        Ok(tyenv) => warnings_of_each(alloc, files, defs, &tyenv, except),
        Err(Fault::Errors(_)) => Ok(Vec::new(alloc)),
        Err(Fault::Memory(error)) => Err(error),
    }
}

// The places of the definitions in which errors begin.
fn places_of_errors(alloc: Global, defs: &[Def], errors: &[Error]) -> Result<Vec<Pos>, AllocError> {
    let mut places = Vec::new(alloc);
    for error in errors {
        if let Some(place) = begin_of_error(error).and_then(|pos| place_around(defs, pos)) {
            places.push(place)?;
        }
    }
    Ok(places)
}

// Adds the places of the definitions that reports speak of.
fn add_places(defs: &[Def], reports: &[Report], places: &mut Vec<Pos>) -> Result<(), AllocError> {
    for report in reports {
        for label in &report.labels {
            if let Some(place) = place_around(defs, label.pos) {
                places.push(place)?;
            }
        }
    }
    Ok(())
}

// Where the definition begins that a place lies in.
fn place_around(defs: &[Def], pos: Pos) -> Option<Pos> {
    definition_around(defs, pos)?.place()
}
