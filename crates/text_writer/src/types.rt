//! Definitions of types as text.

ghost use Rattle.std.specs.Prelude.{◌≡◌, ◌∷◌, ◌++◌, map, OnOk, string_bytes};
ghost use Rattle.std.specs.List.{list_all};
ghost use Rattle.core_syntax.specs.SyntaxViews.{field_view, fields_view, name_view, tuple_field_view, type_value_view, type_view, variant_view};
ghost use Rattle.text_reader.specs.FormTrees.{no_form};
ghost use Rattle.text_writer.specs.Forms.{field_forms, fields_forms, tuple_field_forms, type_form, type_words_before, value_form, variant_by, variant_forms};
ghost use Rattle.text_writer.specs.Spellable.{field_is_spellable, fields_are_spellable, tuple_is_spellable, type_is_spellable, value_is_spellable, variant_is_spellable};
ghost use Rattle.text_writer.specs.Texts.{spaced, written};

use crate::pieces::{push_flag, push_word};
use crate::words::is_word;
use core_syntax::syntax::{Fields, StructField, TupleField, Type, TypeValue, Variant};
use std::alloc::AllocError;

/// Whether the definition of a type can be spelled.
pub fn type_is_spellable(ty: &Type) -> bool
    ensures { result ≡ type_is_spellable (type_view ty.now) }
{
    is_word(&ty.name) && value_is_spellable(&ty.ty)
}

fn value_is_spellable(value: &TypeValue) -> bool
    ensures { result ≡ value_is_spellable (type_value_view value.now) }
{
    match value {
        TypeValue::Primitive(name, _) => is_word(name),
        TypeValue::Enum(variants, _) => are_spellable(variants),
        TypeValue::Struct(fields, _) => fields_are_spellable(fields),
    }
}

fn are_spellable(variants: &[Variant]) -> bool
    ensures { result ≡ list_all variant_is_spellable (map variant_view variants.now) }
{
    for variant in variants {
        if !variant_is_spellable(variant) {
            return false;
        }
    }
    true
}

fn variant_is_spellable(variant: &Variant) -> bool
    ensures { result ≡ variant_is_spellable (variant_view variant.now) }
{
    is_word(&variant.name) && fields_are_spellable(&variant.fields)
}

// Whether fields can be spelled: that there are none is said by no kind of fields.
fn fields_are_spellable(fields: &Fields) -> bool
    ensures { result ≡ fields_are_spellable (fields_view fields.now) }
{
    match fields {
        Fields::Unit => true,
        Fields::Struct(fields) => !fields.fields.is_empty() && named_are_spellable(&fields.fields),
        Fields::Tuple(fields) => !fields.fields.is_empty() && tuple_is_spellable(&fields.fields),
    }
}

fn named_are_spellable(fields: &[StructField]) -> bool
    ensures { result ≡ list_all field_is_spellable (map field_view fields.now) }
{
    for field in fields {
        if !field_is_spellable(field) {
            return false;
        }
    }
    true
}

fn field_is_spellable(field: &StructField) -> bool
    ensures { result ≡ field_is_spellable (field_view field.now) }
{
    is_word(&field.name) && is_word(&field.ty)
}

// Whether fields without names can be spelled: each has its place as its number.
fn tuple_is_spellable(fields: &[TupleField]) -> bool
    ensures { result ≡ tuple_is_spellable 0 (map tuple_field_view fields.now) }
{
    for i in 0..fields.len() {
        let field = &fields[i];
        if field.index != i || !is_word(&field.ty) {
            return false;
        }
    }
    true
}

/// Adds the definition of a type.
pub fn push_type(out: &mut String, ty: &Type) -> Result<(), AllocError>
    ensures { OnOk result (string_bytes out.new ≡ string_bytes out.old ++ written (type_form (type_view ty.now))) }
{
    out.push_str("(type")?;
    push_type_words(out, ty)?;
    push_value(out, &ty.ty)?;
    out.push_str(")")
}

// Adds a type's name and its words, each behind a space.
#[tactic(auto, unfolding(crate::specs::Forms::type_words_before, crate::specs::Forms::flag_before))]
fn push_type_words(out: &mut String, ty: &Type) -> Result<(), AllocError>
    ensures { OnOk result (string_bytes out.new ≡ string_bytes out.old ++ spaced (type_words_before (type_view ty.now) no_form)) }
{
    push_word(out, &ty.name.0)?;
    push_flag(out, "extern", ty.is_extern)?;
    push_flag(out, "nodebug", ty.is_nodebug)
}

// Adds what a type is, behind a space.
fn push_value(out: &mut String, value: &TypeValue) -> Result<(), AllocError>
    ensures { OnOk result (string_bytes out.new ≡ string_bytes out.old ++ 32 ∷ written (value_form (type_value_view value.now))) }
{
    match value {
        TypeValue::Primitive(name, _) => {
            out.push_str(" (primitive ")?;
            out.push_str(&name.0)?;
        }
        TypeValue::Enum(variants, _) => {
            out.push_str(" (enum")?;
            push_variants(out, variants)?;
        }
        TypeValue::Struct(fields, _) => {
            out.push_str(" (struct")?;
            push_fields(out, fields)?;
        }
    }
    out.push_str(")")
}

// Adds variants, each behind a space.
fn push_variants(out: &mut String, variants: &[Variant]) -> Result<(), AllocError>
    ensures { OnOk result (string_bytes out.new ≡ string_bytes out.old ++ spaced (variant_forms (map variant_view variants.now))) }
{
    for variant in variants {
        out.push_str(" ")?;
        push_variant(out, variant)?;
    }
    Ok(())
}

// Adds a variant: without fields its name alone.
fn push_variant(out: &mut String, variant: &Variant) -> Result<(), AllocError>
    ensures { OnOk result (string_bytes out.new
        ≡ string_bytes out.old ++ written (variant_by (name_view variant.now.name) (fields_view variant.now.fields))) }
{
    if let Fields::Unit = variant.fields {
        return out.push_str(&variant.name.0);
    }
    out.push_str("(")?;
    out.push_str(&variant.name.0)?;
    push_fields(out, &variant.fields)?;
    out.push_str(")")
}

// Adds fields, each behind a space.
fn push_fields(out: &mut String, fields: &Fields) -> Result<(), AllocError>
    ensures { OnOk result (string_bytes out.new ≡ string_bytes out.old ++ spaced (fields_forms (fields_view fields.now))) }
{
    match fields {
        Fields::Unit => Ok(()),
        Fields::Struct(fields) => push_named_fields(out, &fields.fields),
        Fields::Tuple(fields) => push_tuple_fields(out, &fields.fields),
    }
}

// Adds fields with names, each behind a space.
fn push_named_fields(out: &mut String, fields: &[StructField]) -> Result<(), AllocError>
    ensures { OnOk result (string_bytes out.new ≡ string_bytes out.old ++ spaced (field_forms (map field_view fields.now))) }
{
    for field in fields {
        out.push_str(" (")?;
        out.push_str(&field.name.0)?;
        push_word(out, &field.ty.0)?;
        out.push_str(")")?;
    }
    Ok(())
}

// Adds fields without names, each behind a space.
fn push_tuple_fields(out: &mut String, fields: &[TupleField]) -> Result<(), AllocError>
    ensures { OnOk result (string_bytes out.new ≡ string_bytes out.old ++ spaced (tuple_field_forms (map tuple_field_view fields.now))) }
{
    for field in fields {
        push_word(out, &field.ty.0)?;
    }
    Ok(())
}
