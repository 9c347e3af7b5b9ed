//! Whole documents.

ghost use Rattle.std.specs.Prelude.{string_bytes, IfOk};
ghost use Rattle.text_json.specs.JsonLine.{IsJsonLine};

use crate::heads::push_all_heads;
use crate::places::LinePlaces;
use crate::reports::push_reports;
use crate::sizes::push_sizes;
use crate::terms::{Shown, push_term};
use crate::typed_rules::TypedForms;
use crate::types::{push_constants, push_types};
use cranelift_isle::environments::{Environments, environments_of};
use cranelift_isle::lower::{Lowered, LoweredTerm};
use cranelift_isle::syntax::{Def, Fault, Files};
use report_names::names::NameTables;
use report_print::report::Report;
use std::alloc::{AllocError, Global};
use text_json::Json;

// The number of the form. It grows where something is taken away or means something else.
const SCHEMA: usize = 1;

/// What a document is made for.
#[derive(Clone, Copy, PartialEq, Eq)]
pub enum DocumentPurpose {
    /// The types, constants, terms, rules and trees of definitions.
    Trees,
    /// Nothing but what is wrong.
    Check,
    /// How large terms are.
    Sizes,
}

/// The document of what is wrong, in one line. Its lists of what definitions have are empty.
pub fn document_of_reports(
    alloc: Global,
    files: &Files,
    reports: &[Report],
    document: DocumentPurpose,
) -> Result<String, AllocError>
    ensures { IfOk result (λ text. IsJsonLine (string_bytes text)) }
{
    let places = LinePlaces::new(alloc, files)?;
    let mut json = begun(alloc)?;
    push_no_entries(&mut json, document)?;
    push_reports(&mut json, &places, "errors", reports)?;
    json.line()
}

/// The document of accepted definitions of which only warnings are asked, in one line.
pub fn document_of_warnings(
    alloc: Global,
    files: &Files,
    warnings: &[Report],
) -> Result<String, AllocError>
    ensures { IfOk result (λ text. IsJsonLine (string_bytes text)) }
{
    let places = LinePlaces::new(alloc, files)?;
    let mut json = begun(alloc)?;
    push_empty(&mut json, "errors")?;
    push_reports(&mut json, &places, "warnings", warnings)?;
    json.line()
}

/// The document of how large the terms of accepted definitions are, in one line.
pub fn document_of_sizes(alloc: Global, lowered: &Lowered) -> Result<String, AllocError>
    ensures { IfOk result (λ text. IsJsonLine (string_bytes text)) }
{
    let mut json = begun(alloc)?;
    push_sizes(alloc, &mut json, lowered)?;
    push_empty(&mut json, "errors")?;
    json.line()
}

/// The document of accepted definitions, in one line: their types and constants, the head of each of their terms, and of each
/// of these terms with rules its sites, its rules and its tree. `defs` are the definitions that were lowered.
pub fn document_of_terms(
    alloc: Global,
    files: &Files,
    defs: &[Def],
    lowered: &Lowered,
    terms: &[&LoweredTerm],
) -> Result<String, AllocError>
    ensures { IfOk result (λ text. IsJsonLine (string_bytes text)) }
{
    let unexpanded = environments_as_written(alloc, defs, lowered)?;
    let places = LinePlaces::new(alloc, files)?;
    let names = NameTables {
        tyenv: &lowered.tyenv,
        terms: &lowered.termenv.terms,
    };
    let typed = TypedForms::new(names, lowered, &unexpanded);
    let shown = Shown {
        alloc,
        names,
        places: &places,
        typed: &typed,
    };
    let mut json = begun(alloc)?;
    push_types(&mut json, names, &places, defs)?;
    push_terms(&mut json, &shown, terms)?;
    push_constants(&mut json, names, &places, defs)?;
    push_all_heads(alloc, &mut json, names, &places)?;
    push_empty(&mut json, "errors")?;
    json.line()
}

// The environments in which internal extractors stand as they are written, where `lowered` has others. None where rules can't
// be typed so.
fn environments_as_written(
    alloc: Global,
    defs: &[Def],
    lowered: &Lowered,
) -> Result<Option<Environments>, AllocError> {
    if !lowered.termenv.expand_internal_extractors {
        return Ok(None);
    }
    match environments_of(alloc, defs, false) {
        Ok(environments) => Ok(Some(environments)),
        Err(Fault::Errors(_)) => Ok(None),
        Err(Fault::Memory(error)) => Err(error),
    }
}

/// A document up to its parts.
pub fn begun(alloc: Global) -> Result<Json, AllocError> {
    let mut json = Json::new(alloc)?;
    json.key_number("schema", SCHEMA)?;
    Ok(json)
}

// Adds the lists of a document, without entries.
fn push_no_entries(json: &mut Json, document: DocumentPurpose) -> Result<(), AllocError> {
    match document {
        DocumentPurpose::Trees => {
            push_empty(json, "types")?;
            push_empty(json, "terms")?;
            push_empty(json, "constants")?;
            push_empty(json, "all_terms")
        }
        DocumentPurpose::Sizes => push_empty(json, "terms"),
        DocumentPurpose::Check => Ok(()),
    }
}

// Adds a list without entries.
fn push_empty(json: &mut Json, key: &str) -> Result<(), AllocError> {
    json.begin_list_at(key)?;
    json.end()
}

fn push_terms(
    json: &mut Json,
    shown: &Shown<'_, '_>,
    terms: &[&LoweredTerm],
) -> Result<(), AllocError> {
    json.begin_list_at("terms")?;
    for term in terms {
        push_term(json, shown, term)?;
    }
    json.end()
}
