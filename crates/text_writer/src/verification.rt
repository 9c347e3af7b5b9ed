//! What is said for a verifier as text: what `text_reader::verification` reads as the same trees.
//!
//! Each tree stands on a line of its own, with one space between the parts of a list. Some trees no text spells, and these aren't
//! printed: with a name that the notation takes for something else, with bits that are too many or too few for their number, or with
//! a pair where there are none.

ghost use Rattle.std.specs.Prelude.{◌≡◌, ◌++◌, IfErr, IfOk, None, OnOk, map, string_bytes};
ghost use Rattle.text_reader.specs.SpecViews.{verification_view};
ghost use Rattle.text_writer.specs.SpecFaults.{TellsUnspellableSpec};
ghost use Rattle.text_writer.specs.Saying.{ReadsBackVerification, numbered_from};
ghost use Rattle.text_writer.specs.SpecForms.{printed, verification_form};
ghost use Rattle.text_writer.specs.SpellableTrees.{first_unspelled};
ghost use Rattle.text_writer.specs.Texts.{written};

use crate::signatures::{push_attr, push_form, push_instantiation};
use crate::spec_faults::SpecPrintFault;
use crate::spec_terms::{push_macro, push_model, push_spec, push_state};
use crate::spellable::first_unspelled;
pub use crate::woven::print_all;
use std::alloc::{AllocError, Global};
use text_reader::syntax::VerificationForm;

/// The text of trees. A list that is a note becomes `(pragma)`.
///
/// # Errors
///
/// Where the first tree stands that no text spells, and where memory is refused.
#[tactic(auto, using(crate::proofs::ItemsReadBack::printed_says))]
pub fn print(alloc: Global, forms: &[VerificationForm]) -> Result<String, SpecPrintFault>
    // What is printed can be spelled, and is this text.
    ensures spelled { IfOk result (λ s. first_unspelled (map verification_view forms.now) ≡ None) }
    ensures text { IfOk result (λ s. string_bytes s ≡ printed (map verification_view forms.now)) }
    // It says these trees, but for places: the first form is number 0.
    ensures read_back { IfOk result (λ s. ReadsBackVerification (string_bytes s) (numbered_from 0 (map verification_view forms.now))) }
    // An error but for memory tells of the first tree that can't be spelled.
    ensures first { IfErr result (λ e. TellsUnspellableSpec e (first_unspelled (map verification_view forms.now))) }
{
    match first_unspelled(forms) {
        Some(place) => Err(SpecPrintFault::Unspellable(place)),
        None => Ok(text_of(alloc, forms)?),
    }
}

// The text of trees that can be spelled.
fn text_of(alloc: Global, forms: &[VerificationForm]) -> Result<String, AllocError>
    ensures { IfOk result (λ s. string_bytes s ≡ printed (map verification_view forms.now)) }
{
    let mut text = String::new(alloc);
    push_forms(&mut text, forms)?;
    Ok(text)
}

// Adds trees, each on a line of its own.
fn push_forms(out: &mut String, forms: &[VerificationForm]) -> Result<(), AllocError>
    ensures { OnOk result (string_bytes out.new ≡ string_bytes out.old ++ printed (map verification_view forms.now)) }
{
    for form in forms {
        push_verification(out, form)?;
        out.push_str("\n")?;
    }
    Ok(())
}

/// Adds a tree.
pub fn push_verification(out: &mut String, form: &VerificationForm) -> Result<(), AllocError>
    ensures { OnOk result (string_bytes out.new ≡ string_bytes out.old ++ written (verification_form (verification_view form.now))) }
{
    match form {
        VerificationForm::Spec(spec) => push_spec(out, spec),
        VerificationForm::Model(model) => push_model(out, model),
        VerificationForm::Form(form) => push_form(out, form),
        VerificationForm::Instantiation(instantiation) => push_instantiation(out, instantiation),
        VerificationForm::Attr(attr) => push_attr(out, attr),
        VerificationForm::State(state) => push_state(out, state),
        VerificationForm::Macro(definition) => push_macro(out, definition),
        VerificationForm::Pragma(_) => out.push_str("(pragma)"),
    }
}
