//! Where the things that errors speak of are defined.

use core_syntax::syntax::{Decl, Def, Extern, Fields, Ident, Pos, Rule, Type, TypeValue, Variant};
use std::alloc::{AllocError, Global};

/// The declaration of a term: the first, where there are several.
pub fn declaration_of<'a>(defs: &'a [Def], term: &str) -> Option<&'a Decl> {
    for def in defs {
        if let Def::Decl(decl) = def {
            if decl.term.0.as_str() == term {
                return Some(decl);
            }
        }
    }
    None
}

/// The variant that makes the term of a name.
pub fn variant_of<'a>(defs: &'a [Def], term: &str) -> Option<&'a Variant> {
    match variant_with_type(defs, term) {
        Some((_, variant)) => Some(variant),
        None => None,
    }
}

/// The variant that makes the term of a name, behind its type.
pub fn variant_with_type<'a>(defs: &'a [Def], term: &str) -> Option<(&'a Type, &'a Variant)> {
    for def in defs {
        if let Def::TypeDef(ty) = def {
            if let Some(variant) = variant_in(ty, term) {
                return Some((ty, variant));
            }
        }
    }
    None
}

/// The variant of a type that makes the term of a name.
pub fn variant_in<'a>(ty: &'a Type, term: &str) -> Option<&'a Variant> {
    let TypeValue::Enum(variants, _) = &ty.ty else {
        return None;
    };
    let short = term.strip_prefix(ty.name.0.as_str())?.strip_prefix(".")?;
    for variant in variants {
        if variant.name.0.as_str() == short {
            return Some(variant);
        }
    }
    None
}

/// The struct of a name.
pub fn struct_of<'a>(defs: &'a [Def], name: &str) -> Option<&'a Type> {
    for def in defs {
        if let Def::TypeDef(ty) = def {
            if is_struct(ty, name) {
                return Some(ty);
            }
        }
    }
    None
}

/// Whether a type is the struct of a name.
pub fn is_struct(ty: &Type, name: &str) -> bool {
    matches!(&ty.ty, TypeValue::Struct(..)) && ty.name.0.as_str() == name
}

/// The fields of the variant or the struct that makes the term of a name.
pub(crate) fn fields_of<'a>(defs: &'a [Def], term: &str) -> Option<&'a Fields> {
    if let Some(variant) = variant_of(defs, term) {
        return Some(&variant.fields);
    }
    match &struct_of(defs, term)?.ty {
        TypeValue::Struct(fields, _) => Some(fields),
        TypeValue::Primitive(..) | TypeValue::Enum(..) => None,
    }
}

/// The name of the type of what the term of a name gives.
pub fn result_of<'a>(defs: &'a [Def], term: &str) -> Option<&'a Ident> {
    if let Some(decl) = declaration_of(defs, term) {
        return Some(&decl.ret_ty);
    }
    if let Some((ty, _)) = variant_with_type(defs, term) {
        return Some(&ty.name);
    }
    Some(&struct_of(defs, term)?.name)
}

/// Where the term of a name is defined.
pub fn place_of_term(defs: &[Def], term: &str) -> Option<Pos> {
    if let Some(decl) = declaration_of(defs, term) {
        return Some(decl.pos);
    }
    place_of_made(defs, term)
}

/// Where the variant or the struct that makes the term of a name is defined.
pub fn place_of_made(defs: &[Def], term: &str) -> Option<Pos> {
    if let Some(variant) = variant_of(defs, term) {
        return Some(variant.pos);
    }
    match struct_of(defs, term) {
        Some(ty) => Some(ty.pos),
        None => None,
    }
}

/// The definition of a constant: the first, where there are several.
pub fn constant_of<'a>(defs: &'a [Def], constant: &str) -> Option<&'a Extern> {
    for def in defs {
        if let Def::Extern(external) = def {
            if let Extern::Const { name, .. } = external {
                if name.0.as_str() == constant {
                    return Some(external);
                }
            }
        }
    }
    None
}

/// The names of the constants that definitions define, in order, each with that of its type.
///
/// # Errors
///
/// Where memory is refused.
pub fn constants_of(alloc: Global, defs: &[Def]) -> Result<Vec<(&Ident, &Ident)>, AllocError> {
    let mut constants = Vec::new(alloc);
    for def in defs {
        if let Def::Extern(Extern::Const { name, ty, .. }) = def {
            constants.push((name, ty))?;
        }
    }
    Ok(constants)
}

/// Where a constant is defined.
pub fn place_of_constant(defs: &[Def], constant: &str) -> Option<Pos> {
    match constant_of(defs, constant)? {
        Extern::Const { pos, .. } => Some(*pos),
        _ => None,
    }
}

/// Where the pattern of a term's internal extractor stands.
pub fn place_of_template(defs: &[Def], term: &str) -> Option<Pos> {
    for def in defs {
        if let Def::Extractor(extractor) = def {
            if extractor.term.0.as_str() == term {
                return Some(extractor.template.pos());
            }
        }
    }
    None
}

/// The definition that a place lies in: the last one of its file that begins there or before. The definitions stand in the order
/// of their places.
pub fn definition_around(defs: &[Def], pos: Pos) -> Option<&Def> {
    let before = defs.get(..count_up_to(defs, pos))?;
    let def = before.iter().rev().find(|def| def.place().is_some())?;
    match def.place() {
        Some(place) if place.file == pos.file => Some(def),
        _ => None,
    }
}

// How many of the first definitions begin at a place or before it: found by halving.
fn count_up_to(defs: &[Def], pos: Pos) -> usize {
    let mut count = 0usize;
    let mut end = defs.len();
    for _ in 0..usize::BITS {
        if count == end {
            break;
        }
        let middle = count.saturating_add(end) / 2;
        match first_placed(defs, middle, end) {
            Some((number, place)) if place <= pos => count = number.saturating_add(1),
            _ => end = middle,
        }
    }
    count
}

// The first definition with a place from a number on up to another one.
fn first_placed(defs: &[Def], from: usize, end: usize) -> Option<(usize, Pos)> {
    for number in from..end {
        if let Some(place) = defs.get(number)?.place() {
            return Some((number, place));
        }
    }
    None
}

/// The rule that a place lies in.
pub fn rule_around(defs: &[Def], pos: Pos) -> Option<&Rule> {
    match definition_around(defs, pos) {
        Some(Def::Rule(rule)) => Some(rule),
        _ => None,
    }
}

/// The name of the term that a rule is of, or the empty text.
pub fn root_of(rule: &Rule) -> &str {
    match rule.pattern.root_term() {
        Some(root) => root.0.as_str(),
        None => "",
    }
}

/// The term that an external function is of, or the type of a constant.
pub fn subject_of(external: &Extern) -> &Ident {
    match external {
        Extern::Constructor { term, .. } | Extern::Extractor { term, .. } => term,
        Extern::Const { ty, .. } => ty,
    }
}
