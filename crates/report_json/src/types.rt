//! Types and constants.

use crate::places::LinePlaces;
use cranelift_isle::sema::{Fields, Type, Variant};
use cranelift_isle::syntax::{self, Def, Extern, Ident};
use report_names::names::NameTables;
use std::alloc::AllocError;
use text_json::Json;

/// Adds the types that definitions make, in their order.
pub(crate) fn push_types(
    json: &mut Json,
    names: NameTables<'_>,
    places: &LinePlaces<'_>,
    defs: &[Def],
) -> Result<(), AllocError> {
    json.begin_list_at("types")?;
    for def in defs {
        if let Def::TypeDef(defined) = def {
            push_type(json, names, places, defined)?;
        }
    }
    json.end()
}

fn type_of_name<'a>(names: NameTables<'a>, name: &Ident) -> Option<&'a Type> {
    let id = names.tyenv.get_type_by_name(name)?;
    names.tyenv.types.get(id.index())
}

fn push_type(
    json: &mut Json,
    names: NameTables<'_>,
    places: &LinePlaces<'_>,
    defined: &syntax::Type,
) -> Result<(), AllocError> {
    let Some(ty) = type_of_name(names, &defined.name) else {
        return Ok(());
    };
    json.begin_object()?;
    json.key_string("name", names.ty(ty.id()))?;
    json.key_string("kind", word_of_kind(ty))?;
    json.key_string("declared", &defined.name.0)?;
    json.key_flag("extern", defined.is_extern)?;
    json.key_flag("nodebug", defined.is_nodebug)?;
    places.push_place(json, defined.pos)?;
    match ty {
        Type::Builtin(_) | Type::Primitive(..) => {}
        Type::Enum { variants, .. } => push_variants(json, names, places, variants)?,
        Type::Struct { fields, .. } => push_fields(json, names, fields)?,
    }
    json.end()
}

fn word_of_kind(ty: &Type) -> &'static str {
    match ty {
        Type::Builtin(_) => "builtin",
        Type::Primitive(..) => "primitive",
        Type::Enum { .. } => "enum",
        Type::Struct { .. } => "struct",
    }
}

fn push_variants(
    json: &mut Json,
    names: NameTables<'_>,
    places: &LinePlaces<'_>,
    variants: &[Variant],
) -> Result<(), AllocError> {
    json.begin_list_at("variants")?;
    for variant in variants {
        json.begin_object()?;
        json.key_string("name", names.sym(variant.name))?;
        places.push_place(json, variant.pos)?;
        push_fields(json, names, &variant.fields)?;
        json.end()?;
    }
    json.end()
}

// Adds the fields of a struct or a variant.
fn push_fields(json: &mut Json, names: NameTables<'_>, fields: &Fields) -> Result<(), AllocError> {
    json.begin_list_at("fields")?;
    match fields {
        Fields::Unit => {}
        Fields::Struct(fields) => {
            for field in &fields.fields {
                json.begin_object()?;
                json.key_string("name", names.sym(field.name))?;
                end_field(json, names.ty(field.ty))?;
            }
        }
        Fields::Tuple(fields) => {
            for field in &fields.fields {
                json.begin_object()?;
                json.key_null("name")?;
                end_field(json, names.ty(field.ty))?;
            }
        }
    }
    json.end()
}

fn end_field(json: &mut Json, ty: &str) -> Result<(), AllocError> {
    json.key_string("type", ty)?;
    json.end()
}

/// Adds the constants that are declared, in the order of the definitions.
pub(crate) fn push_constants(
    json: &mut Json,
    names: NameTables<'_>,
    places: &LinePlaces<'_>,
    defs: &[Def],
) -> Result<(), AllocError> {
    json.begin_list_at("constants")?;
    for def in defs {
        if let Def::Extern(Extern::Const { name, ty, pos }) = def {
            json.begin_object()?;
            json.key_string("name", &name.0)?;
            json.key_string("type", type_name(names, ty))?;
            places.push_place(json, *pos)?;
            json.end()?;
        }
    }
    json.end()
}

fn type_name<'a>(names: NameTables<'a>, name: &Ident) -> &'a str {
    match type_of_name(names, name) {
        Some(ty) => names.ty(ty.id()),
        None => "?",
    }
}
