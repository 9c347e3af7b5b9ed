//! Some value of a type, as an expression.

use cranelift_isle::sema::BuiltinType;
use cranelift_isle::syntax::{Decl, Def, Extern, Fields, Ident, Type, TypeValue, Variant};
use std::alloc::{AllocError, Global};
use std::collections::HashMap;

/// Values of types, as expressions.
#[derive(Drop)]
pub(crate) struct Samples {
    // By the names of the types: a value is looked for once, among all definitions.
    found: HashMap<String, Option<String>>,
}

impl Samples {
    /// None yet.
    pub(crate) fn new(alloc: Global) -> Samples {
        Samples {
            found: HashMap::new(alloc),
        }
    }

    /// An expression for some value of a type: a literal, a variant without fields, or a constant; else a variant, a struct or a call
    /// of a function outside whose arguments are such values. None where the definitions have no such value.
    pub(crate) fn value_of(
        &mut self,
        alloc: Global,
        defs: &[Def],
        ty: &str,
    ) -> Result<Option<&str>, AllocError> {
        if !self.found.contains_key(ty) {
            let value = value_of(alloc, defs, ty)?;
            self.found.insert(String::from_str(alloc, ty)?, value)?;
        }
        match self.found.get(ty) {
            Some(Some(value)) => Ok(Some(value.as_str())),
            _ => Ok(None),
        }
    }
}

fn value_of(alloc: Global, defs: &[Def], ty: &str) -> Result<Option<String>, AllocError> {
    if let Some(value) = plain_value(alloc, defs, ty)? {
        return Ok(Some(value));
    }
    for def in defs {
        if let Some(value) = made_value(alloc, defs, def, ty)? {
            return Ok(Some(value));
        }
    }
    Ok(None)
}

// A value of a type that has no parts.
fn plain_value(alloc: Global, defs: &[Def], ty: &str) -> Result<Option<String>, AllocError> {
    if let Some(text) = literal(ty) {
        return Ok(Some(String::from_str(alloc, text)?));
    }
    for def in defs {
        if let Some(value) = plain_value_in(alloc, def, ty)? {
            return Ok(Some(value));
        }
    }
    Ok(None)
}

// A literal of a built-in type.
fn literal(ty: &str) -> Option<&'static str> {
    for builtin in &BuiltinType::ALL {
        if builtin.name() == ty {
            return Some(match builtin {
                BuiltinType::Bool => "true",
                BuiltinType::Int(_) => "0",
            });
        }
    }
    None
}

// A value of a type that has no parts, if a definition defines one.
fn plain_value_in(alloc: Global, def: &Def, ty: &str) -> Result<Option<String>, AllocError> {
    match def {
        Def::TypeDef(
            Type {
                name,
                ty: TypeValue::Enum(variants, _),
                ..
            },
        ) if name.0.as_str() == ty => plain_variant(alloc, ty, variants),
        Def::Extern(Extern::Const { name, ty: own, .. }) if own.0.as_str() == ty => {
            let name = &name.0;
            Ok(Some(format!(in alloc; "${name}")?))
        }
        _ => Ok(None),
    }
}

// The first variant of an enum without fields.
fn plain_variant(
    alloc: Global,
    ty: &str,
    variants: &[Variant],
) -> Result<Option<String>, AllocError> {
    for variant in variants {
        if let Fields::Unit = &variant.fields {
            let name = &variant.name.0;
            return Ok(Some(format!(in alloc; "({ty}.{name})")?));
        }
    }
    Ok(None)
}

// A value of a type that has parts, if a definition says how one is made.
fn made_value(
    alloc: Global,
    defs: &[Def],
    def: &Def,
    ty: &str,
) -> Result<Option<String>, AllocError> {
    match def {
        Def::TypeDef(own) if own.name.0.as_str() == ty => made_of_type(alloc, defs, own),
        Def::Decl(decl) if decl.ret_ty.0.as_str() == ty && is_made_outside(defs, decl) => {
            let types = texts_of(alloc, &decl.arg_tys)?;
            with_parts(alloc, defs, &decl.term.0, &types)
        }
        _ => Ok(None),
    }
}

// A value of a struct, or of a variant of an enum.
fn made_of_type(alloc: Global, defs: &[Def], ty: &Type) -> Result<Option<String>, AllocError> {
    match &ty.ty {
        TypeValue::Primitive(..) => Ok(None),
        TypeValue::Struct(fields, _) => {
            let types = types_of(alloc, fields)?;
            with_parts(alloc, defs, &ty.name.0, &types)
        }
        TypeValue::Enum(variants, _) => made_of_variants(alloc, defs, ty, variants),
    }
}

fn made_of_variants(
    alloc: Global,
    defs: &[Def],
    ty: &Type,
    variants: &[Variant],
) -> Result<Option<String>, AllocError> {
    for variant in variants {
        let name = Variant::full_name(&ty.name, &variant.name)?;
        let types = types_of(alloc, &variant.fields)?;
        if let Some(value) = with_parts(alloc, defs, &name.0, &types)? {
            return Ok(Some(value));
        }
    }
    Ok(None)
}

// Whether a function outside makes a term, and always gives one value.
fn is_made_outside(defs: &[Def], decl: &Decl) -> bool {
    let term = decl.term.0.as_str();
    !decl.partial
        && !decl.multi
        && defs.iter().any(|def| match def {
            Def::Extern(Extern::Constructor { term: made, .. }) => made.0.as_str() == term,
            _ => false,
        })
}

// The names of the types of fields.
fn types_of<'a>(alloc: Global, fields: &'a Fields) -> Result<Vec<&'a str>, AllocError> {
    let mut types = Vec::new(alloc);
    match fields {
        Fields::Unit => {}
        Fields::Struct(fields) => {
            for field in &fields.fields {
                types.push(field.ty.0.as_str())?;
            }
        }
        Fields::Tuple(fields) => {
            for field in &fields.fields {
                types.push(field.ty.0.as_str())?;
            }
        }
    }
    Ok(types)
}

fn texts_of<'a>(alloc: Global, names: &'a [Ident]) -> Result<Vec<&'a str>, AllocError> {
    let mut texts = Vec::new(alloc);
    for name in names {
        texts.push(name.0.as_str())?;
    }
    Ok(texts)
}

// A call with values of these types that have no parts, if there are some.
fn with_parts(
    alloc: Global,
    defs: &[Def],
    head: &str,
    types: &[&str],
) -> Result<Option<String>, AllocError> {
    let mut text = format!(in alloc; "({head}")?;
    for ty in types {
        let Some(part) = plain_value(alloc, defs, ty)? else {
            return Ok(None);
        };
        text.push(' ')?;
        text.push_str(&part)?;
    }
    text.push(')')?;
    Ok(Some(text))
}
