//! What changed of types between two versions of definitions.

use cranelift_isle::syntax::{Def, Fields, Type, TypeValue, Variant};
use std::alloc::{AllocError, Global};

// A variant or a field: what it is called, and of a field the name of its type.
struct Part<'a> {
    called: String,
    ty: &'a str,
}

impl<'a> Drop for Part<'a> {
    fn drop(self) {
        let Part { called: _, ty: _ } = self;
    }
}

/// Adds what changed of types: which are new or gone; and of each other one which variants and fields came or went, have another
/// type or stand in another order, or what kind of type it is now.
///
/// # Errors
///
/// Where memory is refused.
pub(crate) fn push_types(
    alloc: Global,
    old: &[Def],
    new: &[Def],
    out: &mut String,
) -> Result<(), AllocError> {
    let before = types_of(alloc, old)?;
    let now = types_of(alloc, new)?;
    for ty in &now {
        let name = ty.name.0.as_str();
        match type_called(&before, name) {
            Some(before) => push_type(alloc, before, ty, out)?,
            None => write!(out, "type {name}: is new\n")?,
        }
    }
    for ty in &before {
        let name = ty.name.0.as_str();
        if type_called(&now, name).is_none() {
            write!(out, "type {name}: is gone\n")?;
        }
    }
    Ok(())
}

fn types_of<'a>(alloc: Global, defs: &'a [Def]) -> Result<Vec<&'a Type>, AllocError> {
    let mut types = Vec::new(alloc);
    for def in defs {
        if let Def::TypeDef(ty) = def {
            types.push(ty)?;
        }
    }
    Ok(types)
}

fn type_called<'a>(types: &[&'a Type], name: &str) -> Option<&'a Type> {
    types.iter().copied().find(|ty| ty.name.0.as_str() == name)
}

// Adds what changed of a type that both versions have.
fn push_type(alloc: Global, before: &Type, now: &Type, out: &mut String) -> Result<(), AllocError> {
    let changes = changes_of(alloc, &before.ty, &now.ty)?;
    if changes.is_empty() {
        return Ok(());
    }
    let name = now.name.0.as_str();
    write!(out, "type {name}: differs\n")?;
    out.push_str(&changes)
}

fn changes_of(alloc: Global, before: &TypeValue, now: &TypeValue) -> Result<String, AllocError> {
    let mut out = String::new(alloc);
    match (before, now) {
        (TypeValue::Enum(before, _), TypeValue::Enum(now, _)) => {
            push_variants(alloc, before, now, &mut out)?
        }
        (TypeValue::Struct(before, _), TypeValue::Struct(now, _)) => {
            push_fields(alloc, before, now, "", &mut out)?
        }
        (TypeValue::Primitive(had, _), TypeValue::Primitive(has, _)) => {
            if had.0 != has.0 {
                let (had, has) = (had.0.as_str(), has.0.as_str());
                write!(out, "  is `{has}` in generated code now, and was `{had}`\n")?;
            }
        }
        _ => {
            let (was, is) = (kind_of(before), kind_of(now));
            write!(out, "  is {is} now, and was {was}\n")?;
        }
    }
    Ok(out)
}

fn kind_of(ty: &TypeValue) -> &'static str {
    match ty {
        TypeValue::Primitive(_, _) => "a primitive type",
        TypeValue::Enum(_, _) => "an enum",
        TypeValue::Struct(_, _) => "a struct",
    }
}

// Adds what changed of the variants of an enum.
fn push_variants(
    alloc: Global,
    before: &[Variant],
    now: &[Variant],
    out: &mut String,
) -> Result<(), AllocError> {
    let (had, has) = (parts_of_enum(alloc, before)?, parts_of_enum(alloc, now)?);
    push_parts(&had, &has, out)?;
    for variant in now {
        if let Some(before) = before.iter().find(|other| other.name.0 == variant.name.0) {
            let name = variant.name.0.as_str();
            let of = format!(in alloc; " of variant `{name}`")?;
            push_fields(alloc, &before.fields, &variant.fields, &of, out)?;
        }
    }
    Ok(())
}

fn parts_of_enum(alloc: Global, variants: &[Variant]) -> Result<Vec<Part<'static>>, AllocError> {
    let mut parts = Vec::new(alloc);
    for variant in variants {
        let name = variant.name.0.as_str();
        let called = format!(in alloc; "variant `{name}`")?;
        parts.push(Part { called, ty: "" })?;
    }
    Ok(parts)
}

// Adds what changed of the fields of a struct, or of a variant.
fn push_fields(
    alloc: Global,
    before: &Fields,
    now: &Fields,
    of: &str,
    out: &mut String,
) -> Result<(), AllocError> {
    let had = parts_of_fields(alloc, before, of)?;
    let has = parts_of_fields(alloc, now, of)?;
    push_parts(&had, &has, out)
}

// Fields by their names, or by their places where they have none.
fn parts_of_fields<'a>(
    alloc: Global,
    fields: &'a Fields,
    of: &str,
) -> Result<Vec<Part<'a>>, AllocError> {
    let mut parts = Vec::new(alloc);
    match fields {
        Fields::Unit => {}
        Fields::Struct(named) => {
            for field in &named.fields {
                let name = field.name.0.as_str();
                let called = format!(in alloc; "field `{name}`{of}")?;
                let ty = field.ty.0.as_str();
                parts.push(Part { called, ty })?;
            }
        }
        Fields::Tuple(unnamed) => {
            for field in &unnamed.fields {
                let place = field.index;
                let called = format!(in alloc; "field {place}{of}")?;
                let ty = field.ty.0.as_str();
                parts.push(Part { called, ty })?;
            }
        }
    }
    Ok(parts)
}

// Adds which parts came, went, have another type, or stand before one that they stood behind.
fn push_parts(before: &[Part<'_>], now: &[Part<'_>], out: &mut String) -> Result<(), AllocError> {
    for part in now {
        if place_in(before, part).is_none() {
            push_line(out, part, "came")?;
        }
    }
    for part in before {
        if place_in(now, part).is_none() {
            push_line(out, part, "went")?;
        }
    }
    push_types_of_parts(before, now, out)?;
    push_moved(before, now, out)
}

fn push_line(out: &mut String, part: &Part<'_>, what: &str) -> Result<(), AllocError> {
    let called = part.called.as_str();
    write!(out, "  {called} {what}\n")
}

fn push_types_of_parts(
    before: &[Part<'_>],
    now: &[Part<'_>],
    out: &mut String,
) -> Result<(), AllocError> {
    for part in now {
        if let Some(old) = place_in(before, part).and_then(|place| before.get(place)) {
            if old.ty != part.ty {
                let (called, has, had) = (part.called.as_str(), part.ty, old.ty);
                write!(out, "  {called} has type {has} now, and had {had}\n")?;
            }
        }
    }
    Ok(())
}

// Adds each part that stands before one now that it stood behind, with nothing between them that both versions have.
fn push_moved(before: &[Part<'_>], now: &[Part<'_>], out: &mut String) -> Result<(), AllocError> {
    let mut last: Option<(usize, &Part<'_>)> = None;
    for part in now {
        if let Some(place) = place_in(before, part) {
            if let Some((other, first)) = last {
                if place < other {
                    let (first, second) = (first.called.as_str(), part.called.as_str());
                    write!(out, "  {first} now stands before {second}\n")?;
                }
            }
            last = Some((place, part));
        }
    }
    Ok(())
}

// The place of a part among others.
fn place_in(parts: &[Part<'_>], part: &Part<'_>) -> Option<usize> {
    parts.iter().position(|other| other.called == part.called)
}
