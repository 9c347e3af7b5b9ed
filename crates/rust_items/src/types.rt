//! The types that the code declares.

ghost use Rattle.std.specs.Prelude.{◌≡◌, ◌++◌, OnOk, map, string_bytes};
ghost use Rattle.std.specs.List.{flat_map, list_any};
ghost use Rattle.cranelift_isle.specs.Envs.{names_of};
ghost use Rattle.cranelift_isle.specs.SyntaxViews.{position};
ghost use Rattle.cranelift_isle.specs.TypeViews.{field_view, fields_view, tuple_field_view, type_view, type_views, variant_view};
ghost use Rattle.rust_items.specs.ItemViews.{items_by};
ghost use Rattle.rust_items.specs.LineViews.{lines_view};
ghost use Rattle.rust_items.specs.WrittenItems.{attributes_written, declaration_written, defined_written, derive_written, derived, derived_end, enum_written, fields_written, has_any_field, named_field_written, named_fields_written, struct_written, type_head, types_written, unless, unnamed_field_written, unnamed_fields_written, variant_has_fields, variant_written, variants_written, whole_struct_written};

use crate::names::push_name;
use crate::program::{ALLOWED, Program, push_lead};
use cranelift_isle::sema::{Fields, StructField, Sym, TupleField, Type, Variant};
use cranelift_isle::syntax::Pos;
use std::alloc::AllocError;

/// Adds the enums and structs that aren't declared outside.
pub fn push_types(out: &mut String, program: Program<'_>) -> Result<(), AllocError>
    ensures { OnOk result (string_bytes out.new ≡ string_bytes out.old
        ++ types_written (items_by program.entry) (type_views program.entry.tyenv.now.types.items)) }
{
    for ty in &program.tyenv.types {
        push_declaration(out, program, ty)?;
    }
    Ok(())
}

// Adds a type, where the code declares it.
fn push_declaration(out: &mut String, program: Program<'_>, ty: &Type) -> Result<(), AllocError>
    ensures { OnOk result (string_bytes out.new ≡ string_bytes out.old ++ declaration_written (items_by program.entry) (type_view ty.now)) }
{
    match ty {
        Type::Builtin(_) => Ok(()),
        Type::Primitive(_, _, _) => Ok(()),
        Type::Enum {
            name,
            is_extern,
            is_nodebug,
            variants,
            pos,
            ..
        } => { push_enum(out, program, *name, *is_extern, *is_nodebug, variants, *pos) }
        Type::Struct {
            name,
            is_extern,
            is_nodebug,
            fields,
            pos,
            ..
        } => { push_open_struct(out, program, *name, *is_extern, *is_nodebug, fields, *pos) }
    }
}

// Adds an enum, unless it is declared outside.
fn push_enum(
    out: &mut String,
    program: Program<'_>,
    name: Sym,
    is_extern: bool,
    is_nodebug: bool,
    variants: &[Variant],
    pos: Pos,
) -> Result<(), AllocError>
    ensures { OnOk result (string_bytes out.new ≡ string_bytes out.old
        ++ unless is_extern (enum_written (items_by program.entry) name.0 is_nodebug (map variant_view variants.now) (position pos))) }
{
    if is_extern {
        Ok(())
    } else {
        push_whole_enum(out, program, name, is_nodebug, variants, pos)
    }
}

// Adds a struct, unless it is declared outside.
fn push_open_struct(
    out: &mut String,
    program: Program<'_>,
    name: Sym,
    is_extern: bool,
    is_nodebug: bool,
    fields: &Fields,
    pos: Pos,
) -> Result<(), AllocError>
    ensures { OnOk result (string_bytes out.new ≡ string_bytes out.old
        ++ unless is_extern (whole_struct_written (items_by program.entry) name.0 is_nodebug (fields_view fields.now) (position pos))) }
{
    if is_extern {
        Ok(())
    } else {
        push_whole_struct(out, program, name, is_nodebug, fields, pos)
    }
}

fn push_whole_enum(
    out: &mut String,
    program: Program<'_>,
    name: Sym,
    is_nodebug: bool,
    variants: &[Variant],
    pos: Pos,
) -> Result<(), AllocError>
    ensures { OnOk result (string_bytes out.new ≡ string_bytes out.old
        ++ enum_written (items_by program.entry) name.0 is_nodebug (map variant_view variants.now) (position pos)) }
{
    push_attributes(out, program, have_fields(variants), is_nodebug, pos)?;
    push_head(out, program, "enum ", name)?;
    push_variants(out, program, variants)
}

fn push_whole_struct(
    out: &mut String,
    program: Program<'_>,
    name: Sym,
    is_nodebug: bool,
    fields: &Fields,
    pos: Pos,
) -> Result<(), AllocError>
    ensures { OnOk result (string_bytes out.new ≡ string_bytes out.old
        ++ whole_struct_written (items_by program.entry) name.0 is_nodebug (fields_view fields.now) (position pos)) }
{
    push_attributes(out, program, has_any_field(fields), is_nodebug, pos)?;
    push_head(out, program, "struct ", name)?;
    push_struct(out, program, fields)
}

// Whether one of these variants has a field.
pub(crate) fn have_fields(variants: &[Variant]) -> bool
    ensures { result ≡ list_any variant_has_fields (map variant_view variants.now) }
{
    for variant in variants {
        if has_any_field(&variant.fields) {
            return true;
        }
    }
    false
}

pub(crate) fn has_any_field(fields: &Fields) -> bool
    ensures { result ≡ has_any_field (fields_view fields.now) }
{
    match fields {
        Fields::Unit => false,
        Fields::Struct(_) => true,
        Fields::Tuple(_) => true,
    }
}

// Adds what stands above a type: where it is defined, and what is derived. Nothing else may be: the types of fields may lack
// it, and what is written outside would be there twice.
pub(crate) fn push_attributes(
    out: &mut String,
    program: Program<'_>,
    has_fields: bool,
    is_nodebug: bool,
    pos: Pos,
) -> Result<(), AllocError>
    ensures { OnOk result (string_bytes out.new ≡ string_bytes out.old ++ attributes_written (lines_view program.entry.lines.now) has_fields is_nodebug (position pos)) }
{
    push_defined(out, program, pos)?;
    push_derive(out, has_fields, is_nodebug)
}

// Adds where a type is defined, as a comment.
fn push_defined(out: &mut String, program: Program<'_>, pos: Pos) -> Result<(), AllocError>
    ensures { OnOk result (string_bytes out.new ≡ string_bytes out.old ++ defined_written (lines_view program.entry.lines.now) (position pos)) }
{
    out.push_str("\n/// Defined at ")?;
    program.lines.push(out, pos)?;
    out.push_str(".\n")
}

// Adds the attributes of a type.
fn push_derive(out: &mut String, has_fields: bool, is_nodebug: bool) -> Result<(), AllocError>
    ensures { OnOk result (string_bytes out.new ≡ string_bytes out.old ++ derive_written has_fields is_nodebug) }
{
    out.push_str("#[derive(")?;
    push_derived(out, has_fields)?;
    push_derived_end(out, is_nodebug)?;
    out.push_str(ALLOWED)
}

// Adds what is derived beside `Debug`.
fn push_derived(out: &mut String, has_fields: bool) -> Result<(), AllocError>
    ensures { OnOk result (string_bytes out.new ≡ string_bytes out.old ++ derived has_fields) }
{
    out.push_str(if has_fields {
        "Clone"
    } else {
        "Copy, Clone, PartialEq, Eq"
    })
}

// Adds the end of what is derived.
fn push_derived_end(out: &mut String, is_nodebug: bool) -> Result<(), AllocError>
    ensures { OnOk result (string_bytes out.new ≡ string_bytes out.old ++ derived_end is_nodebug) }
{
    out.push_str(if is_nodebug { ")]\n" } else { ", Debug)]\n" })
}

// Adds the name of a type, after what it is.
pub(crate) fn push_head(
    out: &mut String,
    program: Program<'_>,
    word: &str,
    name: Sym,
) -> Result<(), AllocError>
    ensures { OnOk result (string_bytes out.new ≡ string_bytes out.old ++ type_head (names_of program.entry.tyenv.now) word.now name.0) }
{
    out.push_str("pub ")?;
    out.push_str(word)?;
    push_name(out, program.tyenv.text_of(name))
}

// Adds the variants of an enum, each on its line.
pub(crate) fn push_variants(
    out: &mut String,
    program: Program<'_>,
    variants: &[Variant],
) -> Result<(), AllocError>
    ensures { OnOk result (string_bytes out.new ≡ string_bytes out.old ++ variants_written (items_by program.entry) (map variant_view variants.now)) }
{
    out.push_str(" {\n")?;
    push_all_variants(out, program, variants)?;
    out.push_str("}\n")
}

fn push_all_variants(
    out: &mut String,
    program: Program<'_>,
    variants: &[Variant],
) -> Result<(), AllocError>
    ensures { OnOk result (string_bytes out.new ≡ string_bytes out.old ++ flat_map (variant_written (items_by program.entry)) (map variant_view variants.now)) }
{
    for variant in variants {
        push_variant(out, program, variant)?;
    }
    Ok(())
}

fn push_variant(out: &mut String, program: Program<'_>, variant: &Variant) -> Result<(), AllocError>
    ensures { OnOk result (string_bytes out.new ≡ string_bytes out.old ++ variant_written (items_by program.entry) (variant_view variant.now)) }
{
    out.push_str("    ")?;
    push_name(out, program.tyenv.text_of(variant.name))?;
    push_fields(out, program, &variant.fields, "")?;
    out.push_str(",\n")
}

// Adds the fields of a struct, and ends it.
pub(crate) fn push_struct(
    out: &mut String,
    program: Program<'_>,
    fields: &Fields,
) -> Result<(), AllocError>
    ensures { OnOk result (string_bytes out.new ≡ string_bytes out.old ++ struct_written (items_by program.entry) (fields_view fields.now)) }
{
    push_fields(out, program, fields, "pub ")?;
    match fields {
        Fields::Struct(_) => out.push('\n'),
        Fields::Unit => out.push_str(";\n"),
        Fields::Tuple(_) => out.push_str(";\n"),
    }
}

// Adds fields, each after a word.
fn push_fields(
    out: &mut String,
    program: Program<'_>,
    fields: &Fields,
    word: &str,
) -> Result<(), AllocError>
    ensures { OnOk result (string_bytes out.new ≡ string_bytes out.old ++ fields_written (items_by program.entry) word.now (fields_view fields.now)) }
{
    match fields {
        Fields::Unit => Ok(()),
        Fields::Struct(named) => {
            out.push_str(" {")?;
            push_named(out, program, &named.fields, word)?;
            out.push_str(" }")
        }
        Fields::Tuple(unnamed) => {
            out.push('(')?;
            push_unnamed(out, program, &unnamed.fields, word)?;
            out.push(')')
        }
    }
}

fn push_named(
    out: &mut String,
    program: Program<'_>,
    fields: &[StructField],
    word: &str,
) -> Result<(), AllocError>
    ensures { OnOk result (string_bytes out.new ≡ string_bytes out.old ++ named_fields_written (items_by program.entry) word.now 0 (map field_view fields.now)) }
{
    for (i, field) in fields.iter().enumerate() {
        push_named_field(out, program, word, i, field)?;
    }
    Ok(())
}

// Adds a field with a name, by its place.
fn push_named_field(
    out: &mut String,
    program: Program<'_>,
    word: &str,
    i: usize,
    field: &StructField,
) -> Result<(), AllocError>
    ensures { OnOk result (string_bytes out.new ≡ string_bytes out.old ++ named_field_written (items_by program.entry) word.now i (field_view field.now)) }
{
    push_lead(out, " ", i)?;
    out.push_str(word)?;
    push_name(out, program.tyenv.text_of(field.name))?;
    out.push_str(": ")?;
    program.push_type(out, field.ty)
}

fn push_unnamed(
    out: &mut String,
    program: Program<'_>,
    fields: &[TupleField],
    word: &str,
) -> Result<(), AllocError>
    ensures { OnOk result (string_bytes out.new ≡ string_bytes out.old ++ unnamed_fields_written (items_by program.entry) word.now 0 (map tuple_field_view fields.now)) }
{
    for (i, field) in fields.iter().enumerate() {
        push_unnamed_field(out, program, word, i, field)?;
    }
    Ok(())
}

// Adds a field without a name, by its place.
fn push_unnamed_field(
    out: &mut String,
    program: Program<'_>,
    word: &str,
    i: usize,
    field: &TupleField,
) -> Result<(), AllocError>
    ensures { OnOk result (string_bytes out.new ≡ string_bytes out.old ++ unnamed_field_written (items_by program.entry) word.now i (tuple_field_view field.now)) }
{
    push_lead(out, "", i)?;
    out.push_str(word)?;
    program.push_type(out, field.ty)
}
