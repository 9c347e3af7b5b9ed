//! Forms of signatures, what terms take from them, and attributes as text.

ghost use Rattle.std.specs.Prelude.{◌≡◌, ◌++◌, OnOk, map, option_map, string_bytes};
ghost use Rattle.core_syntax.specs.SyntaxViews.{name_view};
ghost use Rattle.text_writer.specs.SpecForms.{attr_form, attr_kind_form, form_if, forms_by, instantiation_form, model_type_form, signature_form, signatures_form, with_forms};
ghost use Rattle.text_reader.specs.SpecViews.{attr_kind_view, attr_view, instantiation_view, model_type_view, signature_view, signatures_view};
ghost use Rattle.text_writer.specs.Forms.{word_form};
ghost use Rattle.text_writer.specs.Texts.{spaced, written};

use crate::pieces::push_word;
use crate::spec_expressions::push_type;
use core_syntax::syntax::Ident;
use std::alloc::AllocError;
use text_reader::syntax::{Attr, AttrKind, Form, Instantiation, ModelType, Signature};

/// Adds a form of signatures.
pub fn push_form(out: &mut String, form: &Form) -> Result<(), AllocError>
    ensures { OnOk result (string_bytes out.new ≡ string_bytes out.old ++ written (signatures_form (signatures_view form.now))) }
{
    out.push_str("(form")?;
    push_word(out, &form.name.0)?;
    push_signatures(out, &form.signatures)?;
    out.push_str(")")
}

/// Adds the signatures of a term.
pub fn push_instantiation(out: &mut String, instantiation: &Instantiation) -> Result<(), AllocError>
    ensures { OnOk result (string_bytes out.new ≡ string_bytes out.old ++ written (instantiation_form (instantiation_view instantiation.now))) }
{
    out.push_str("(instantiate")?;
    push_word(out, &instantiation.term.0)?;
    push_taken(out, &instantiation.form, &instantiation.signatures)?;
    out.push_str(")")
}

// Adds the name of a form, if it is there, and signatures, each behind a space.
fn push_taken(
    out: &mut String,
    form: &Option<Ident>,
    signatures: &[Signature],
) -> Result<(), AllocError>
    ensures { OnOk result (string_bytes out.new
        ≡ string_bytes out.old ++ spaced (with_forms (form_if word_form (option_map name_view form.now)) (forms_by signature_form (map signature_view signatures.now)))) }
{
    match form {
        Some(form) => {
            push_word(out, &form.0)?;
            push_signatures(out, signatures)
        }
        None => push_signatures(out, signatures),
    }
}

// Adds signatures, each behind a space.
fn push_signatures(out: &mut String, signatures: &[Signature]) -> Result<(), AllocError>
    ensures { OnOk result (string_bytes out.new ≡ string_bytes out.old ++ spaced (forms_by signature_form (map signature_view signatures.now))) }
{
    for signature in signatures {
        out.push_str(" ")?;
        push_signature(out, signature)?;
    }
    Ok(())
}

fn push_signature(out: &mut String, signature: &Signature) -> Result<(), AllocError>
    ensures { OnOk result (string_bytes out.new ≡ string_bytes out.old ++ written (signature_form (signature_view signature.now))) }
{
    out.push_str("((args")?;
    push_types(out, &signature.args)?;
    out.push_str(") (ret ")?;
    push_type(out, &signature.ret)?;
    out.push_str(") (canon ")?;
    push_type(out, &signature.canonical)?;
    out.push_str("))")
}

// Adds types, each behind a space.
fn push_types(out: &mut String, types: &[ModelType]) -> Result<(), AllocError>
    ensures { OnOk result (string_bytes out.new ≡ string_bytes out.old ++ spaced (forms_by model_type_form (map model_type_view types.now))) }
{
    for ty in types {
        out.push_str(" ")?;
        push_type(out, ty)?;
    }
    Ok(())
}

/// Adds attributes.
pub fn push_attr(out: &mut String, attr: &Attr) -> Result<(), AllocError>
    ensures { OnOk result (string_bytes out.new ≡ string_bytes out.old ++ written (attr_form (attr_view attr.now))) }
{
    out.push_str(if attr.is_rule { "(attr rule" } else { "(attr" })?;
    push_word(out, &attr.name.0)?;
    push_kinds(out, &attr.kinds)?;
    out.push_str(")")
}

// Adds the attributes of a term or a rule, each behind a space.
fn push_kinds(out: &mut String, kinds: &[AttrKind]) -> Result<(), AllocError>
    ensures { OnOk result (string_bytes out.new ≡ string_bytes out.old ++ spaced (forms_by attr_kind_form (map attr_kind_view kinds.now))) }
{
    for kind in kinds {
        out.push_str(" ")?;
        push_kind(out, kind)?;
    }
    Ok(())
}

fn push_kind(out: &mut String, kind: &AttrKind) -> Result<(), AllocError>
    ensures { OnOk result (string_bytes out.new ≡ string_bytes out.old ++ written (attr_kind_form (attr_kind_view kind.now))) }
{
    match kind {
        AttrKind::Tag(name, _) => {
            out.push_str("(tag")?;
            push_word(out, &name.0)?;
            out.push_str(")")
        }
        AttrKind::Chain(_) => out.push_str("(veri chain)"),
        AttrKind::Priority(_) => out.push_str("(veri priority)"),
    }
}
