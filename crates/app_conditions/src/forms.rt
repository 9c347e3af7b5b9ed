//! What a text says for a verifier, as JSON: docs/JSON.md says in which form.

use cranelift_isle::syntax::Pos;
use report_json::places::LinePlaces;
use std::alloc::{AllocError, Global};
use std::slice;
use text_json::Json;
use text_reader::syntax::VerificationForm;
use text_writer::spec_faults::SpecPrintFault;
use text_writer::verification::print;

/// Adds each of these at the key `specs`, in order: what it is, its place, and its text.
pub(crate) fn push_forms(
    alloc: Global,
    json: &mut Json,
    places: &LinePlaces<'_>,
    forms: &[VerificationForm],
) -> Result<(), AllocError> {
    json.begin_list_at("specs")?;
    for form in forms {
        push_form(alloc, json, places, form)?;
    }
    json.end()
}

// Adds one.
fn push_form(
    alloc: Global,
    json: &mut Json,
    places: &LinePlaces<'_>,
    form: &VerificationForm,
) -> Result<(), AllocError> {
    let text = text_of(alloc, form)?;
    json.begin_object()?;
    json.key_string("kind", kind_of(form))?;
    places.push_place(json, place_of(form))?;
    match &text {
        Some(text) => json.key_string("text", text)?,
        None => json.key_null("text")?,
    }
    json.end()
}

// Its text, on one line with its end; None where no text spells it.
fn text_of(alloc: Global, form: &VerificationForm) -> Result<Option<String>, AllocError> {
    match print(alloc, slice::from_ref(form)) {
        Ok(text) => Ok(Some(text)),
        Err(SpecPrintFault::Memory(error)) => Err(error),
        Err(SpecPrintFault::Unspellable(_) | SpecPrintFault::Unmatched(_)) => Ok(None),
    }
}

// The word that its list begins with.
fn kind_of(form: &VerificationForm) -> &'static str {
    match form {
        VerificationForm::Spec(_) => "spec",
        VerificationForm::Model(_) => "model",
        VerificationForm::Form(_) => "form",
        VerificationForm::Instantiation(_) => "instantiate",
        VerificationForm::Attr(_) => "attr",
        VerificationForm::State(_) => "state",
        VerificationForm::Macro(_) => "macro",
        VerificationForm::Pragma(_) => "pragma",
    }
}

// Where it stands.
fn place_of(form: &VerificationForm) -> Pos {
    match form {
        VerificationForm::Spec(spec) => spec.pos,
        VerificationForm::Model(model) => model.pos,
        VerificationForm::Form(form) => form.pos,
        VerificationForm::Instantiation(instantiation) => instantiation.pos,
        VerificationForm::Attr(attr) => attr.pos,
        VerificationForm::State(state) => state.pos,
        VerificationForm::Macro(definition) => definition.pos,
        VerificationForm::Pragma(pos) => *pos,
    }
}
