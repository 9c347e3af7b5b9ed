//! The forms of a text for a verifier.

ghost use Rattle.std.specs.Prelude.{◌≡◌, ◌++◌, OnOk, map, option_map};
ghost use Rattle.text_reader.specs.Forms.{FormIsWithin, FormsAreWithin};
ghost use Rattle.text_reader.specs.FormViews.{all_view, form_view};
ghost use Rattle.text_reader.specs.PassedOver.{is_passed_over};
ghost use Rattle.text_reader.specs.Views.{Gives};
ghost use Rattle.text_reader.specs.SpecViews.{numbered_view, verification_view};
ghost use Rattle.text_reader.specs.Verifying.{numbered, said_from, said_of, verification_of};

use crate::errors::{Mistake, ReadFault};
use crate::forms::{TextForm, begins_passed_over};
use crate::models::model;
use crate::parts::headed;
use crate::signatures::{attributes, form_of_signatures, instantiation, macro_definition, state};
use crate::source::Source;
use crate::spec_terms::spec;
use crate::syntax::VerificationForm;
use std::alloc::AllocError;

/// Those of some forms that are for a verifier, each with its number among them all.
pub fn verifications(
    at: Source,
    forms: &[TextForm],
) -> Result<Vec<(usize, VerificationForm)>, ReadFault>
    requires { FormsAreWithin at.file at.len forms.now }
    ensures { Gives (λ vs. map numbered_view vs.items) result (said_from 0 (all_view forms.now)) }
{
    let mut found = Vec::new(at.alloc);
    for i in 0..forms.len() {
        let said = said_by(at, &forms[i])?;
        push_said(&mut found, i, said)?;
    }
    Ok(found)
}

// Adds what the form of a number says, if it says something.
fn push_said(
    found: &mut Vec<(usize, VerificationForm)>,
    index: usize,
    said: Option<VerificationForm>,
) -> Result<(), AllocError>
    ensures { OnOk result (map numbered_view found.new.items ≡ map numbered_view found.old.items ++ numbered index (option_map verification_view said)) }
{
    match said {
        Some(form) => {
            found.push((index, form))?;
            Ok(())
        }
        None => Ok(()),
    }
}

fn said_by(at: Source, form: &TextForm) -> Result<Option<VerificationForm>, ReadFault>
    requires { FormIsWithin at.file at.len form.now }
    ensures { Gives (option_map verification_view) result (said_of (form_view form.now)) }
{
    if is_passed_over(form) {
        return Ok(Some(verification(at, form)?));
    }
    Ok(None)
}

// Whether a form is one that definitions are read without.
fn is_passed_over(form: &TextForm) -> bool
    ensures { result ≡ is_passed_over (form_view form.now) }
{
    match form {
        TextForm::Group(parts, _, _) => {
            let parts: &[TextForm] = parts;
            begins_passed_over(parts)
        }
        _ => false,
    }
}

fn verification(at: Source, form: &TextForm) -> Result<VerificationForm, ReadFault>
    requires { FormIsWithin at.file at.len form.now }
    ensures { Gives verification_view result (verification_of (form_view form.now)) }
{
    let (head, rest) = headed(at, form, Mistake::Definition)?;
    match head.0.as_str() {
        "spec" => Ok(VerificationForm::Spec(spec(at, rest)?)),
        "model" => Ok(VerificationForm::Model(model(at, rest)?)),
        "form" => Ok(VerificationForm::Form(form_of_signatures(at, rest)?)),
        "instantiate" => Ok(VerificationForm::Instantiation(instantiation(at, rest)?)),
        "attr" => Ok(VerificationForm::Attr(attributes(at, rest)?)),
        "state" => Ok(VerificationForm::State(state(at, rest)?)),
        "macro" => Ok(VerificationForm::Macro(macro_definition(at, false, rest)?)),
        "spec_macro" => Ok(VerificationForm::Macro(macro_definition(at, true, rest)?)),
        _ => Ok(VerificationForm::Pragma(rest.pos)),
    }
}
