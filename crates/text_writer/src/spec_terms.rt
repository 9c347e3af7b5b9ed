//! Specs of terms, models, states and macros as text.

ghost use Rattle.std.specs.Prelude.{◌≡◌, ◌++◌, OnOk, map, option_map, string_bytes};
ghost use Rattle.core_syntax.specs.SyntaxViews.{name_view};
ghost use Rattle.text_writer.specs.SpecForms.{form_if, forms_by, macro_form, model_form, model_value_form, modifies_form, part_forms, spec_form, spec_parts, state_form, variant_value_form};
ghost use Rattle.text_reader.specs.SpecViews.{exprs_view, macro_view, model_value_view, model_view, modifies_view, spec_view, state_view, variant_value_view};
ghost use Rattle.text_writer.specs.Forms.{word_form};
ghost use Rattle.text_writer.specs.Texts.{spaced, written};

use crate::pieces::{push_use, push_word};
use crate::spec_expressions::{push_last, push_section, push_type};
use core_syntax::syntax::Ident;
use std::alloc::AllocError;
use text_reader::syntax::{
    Macro, Model, ModelValue, Modifies, Spec, SpecExpr, State, VariantValue,
};

/// Adds a spec.
pub fn push_spec(out: &mut String, spec: &Spec) -> Result<(), AllocError>
    ensures { OnOk result (string_bytes out.new ≡ string_bytes out.old ++ written (spec_form (spec_view spec.now))) }
{
    out.push_str("(spec ")?;
    push_use(out, &spec.term, &spec.args)?;
    push_parts(out, spec)?;
    out.push_str(")")
}

// Adds the parts of a spec, each behind a space.
fn push_parts(out: &mut String, spec: &Spec) -> Result<(), AllocError>
    ensures { OnOk result (string_bytes out.new ≡ string_bytes out.old ++ spaced (spec_parts (spec_view spec.now))) }
{
    push_part(out, "match", &spec.matches)?;
    push_part(out, "provide", &spec.provides)?;
    push_part(out, "require", &spec.required)?;
    push_states(out, &spec.modifies)
}

// Adds a part of a spec behind a space, if it is there.
fn push_part(out: &mut String, head: &str, exprs: &Option<Vec<SpecExpr>>) -> Result<(), AllocError>
    ensures { OnOk result (string_bytes out.new ≡ string_bytes out.old ++ spaced (part_forms head.now (exprs_view exprs.now))) }
{
    match exprs {
        Some(exprs) => {
            out.push_str(" ")?;
            push_section(out, head, exprs)
        }
        None => Ok(()),
    }
}

// Adds states that a term changes, each behind a space.
fn push_states(out: &mut String, states: &[Modifies]) -> Result<(), AllocError>
    ensures { OnOk result (string_bytes out.new ≡ string_bytes out.old ++ spaced (forms_by modifies_form (map modifies_view states.now))) }
{
    for modifies in states {
        out.push_str(" ")?;
        push_modifies(out, modifies)?;
    }
    Ok(())
}

// Adds a state that a term changes.
fn push_modifies(out: &mut String, modifies: &Modifies) -> Result<(), AllocError>
    ensures { OnOk result (string_bytes out.new ≡ string_bytes out.old ++ written (modifies_form (modifies_view modifies.now))) }
{
    out.push_str("(modifies")?;
    push_word(out, &modifies.state.0)?;
    push_some_name(out, &modifies.cond)?;
    out.push_str(")")
}

// Adds a name behind a space, if it is there.
fn push_some_name(out: &mut String, name: &Option<Ident>) -> Result<(), AllocError>
    ensures { OnOk result (string_bytes out.new ≡ string_bytes out.old ++ spaced (form_if word_form (option_map name_view name.now))) }
{
    match name {
        Some(name) => push_word(out, &name.0),
        None => Ok(()),
    }
}

/// Adds a model.
pub fn push_model(out: &mut String, model: &Model) -> Result<(), AllocError>
    ensures { OnOk result (string_bytes out.new ≡ string_bytes out.old ++ written (model_form (model_view model.now))) }
{
    out.push_str("(model")?;
    push_word(out, &model.name.0)?;
    out.push_str(" ")?;
    push_value(out, &model.value)?;
    out.push_str(")")
}

// Adds what the values of a type stand for.
fn push_value(out: &mut String, value: &ModelValue) -> Result<(), AllocError>
    ensures { OnOk result (string_bytes out.new ≡ string_bytes out.old ++ written (model_value_form (model_value_view value.now))) }
{
    match value {
        ModelValue::Type(ty) => {
            out.push_str("(type ")?;
            push_type(out, ty)?;
            out.push_str(")")
        }
        ModelValue::Enum(values) => {
            out.push_str("(enum")?;
            push_variants(out, values)?;
            out.push_str(")")
        }
        ModelValue::Const(value) => {
            out.push_str("(const")?;
            push_last(out, value)
        }
    }
}

// Adds what variants stand for, each behind a space.
fn push_variants(out: &mut String, values: &[VariantValue]) -> Result<(), AllocError>
    ensures { OnOk result (string_bytes out.new ≡ string_bytes out.old ++ spaced (forms_by variant_value_form (map variant_value_view values.now))) }
{
    for value in values {
        out.push_str(" ")?;
        push_variant(out, value)?;
    }
    Ok(())
}

fn push_variant(out: &mut String, variant: &VariantValue) -> Result<(), AllocError>
    ensures { OnOk result (string_bytes out.new ≡ string_bytes out.old ++ written (variant_value_form (variant_value_view variant.now))) }
{
    match &variant.value {
        None => out.push_str(&variant.name.0),
        Some(value) => {
            out.push_str("(")?;
            out.push_str(&variant.name.0)?;
            push_last(out, value)
        }
    }
}

/// Adds a state.
pub fn push_state(out: &mut String, state: &State) -> Result<(), AllocError>
    ensures { OnOk result (string_bytes out.new ≡ string_bytes out.old ++ written (state_form (state_view state.now))) }
{
    out.push_str("(state")?;
    push_word(out, &state.name.0)?;
    out.push_str(" (type ")?;
    push_type(out, &state.ty)?;
    out.push_str(") (default")?;
    push_last(out, &state.default)?;
    out.push_str(")")
}

/// Adds a macro.
pub fn push_macro(out: &mut String, definition: &Macro) -> Result<(), AllocError>
    ensures { OnOk result (string_bytes out.new ≡ string_bytes out.old ++ written (macro_form (macro_view definition.now))) }
{
    out.push_str(if definition.is_spec {
        "(spec_macro "
    } else {
        "(macro "
    })?;
    push_use(out, &definition.name, &definition.params)?;
    push_last(out, &definition.body)
}
