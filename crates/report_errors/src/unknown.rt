//! The names that errors say aren't known, and those that may be meant.

use crate::declarations::KnownTerms;
use crate::error_order::why_of;
use crate::nearest::{KnownNames, Nearest};
use crate::reports::Told;
use core_syntax::syntax::{Def, Error, Extern, Fields, Pos, Type, TypeValue, Variant};
use core_types::BuiltinType;
use core_why::{NameKind, Why};
use report_names::mentions::{MentionKind, Mentions};
use report_print::report::Report;
use std::alloc::{AllocError, Global};

/// A name that isn't known.
#[derive(Clone, Copy)]
pub(crate) struct Unknown<'a> {
    /// What it would stand for.
    pub kind: NameKind,
    /// The name.
    pub name: &'a str,
    /// Where it stands.
    pub pos: Pos,
}

/// The name that an error says isn't known, where it says so.
pub(crate) fn unknown_in<'a>(told: &Told<'a>) -> Option<Unknown<'a>> {
    let (name, kind) = told.why.unknown()?;
    let pos = match told.why {
        Why::LetType { .. } => place_of_type(&told.names, name, told.pos)?,
        _ => told.place_of(name),
    };
    Some(Unknown { kind, name, pos })
}

// Where a type of a name stands first, at a place or behind it.
fn place_of_type(names: &Mentions<'_>, name: &str, pos: Pos) -> Option<Pos> {
    for mention in &names.names {
        if mention.kind == MentionKind::Type && mention.text() == name && mention.form >= pos {
            return Some(mention.form);
        }
    }
    None
}

/// The names that definitions define, of each kind that a name has which an error says isn't known, and what is known of
/// terms.
pub(crate) struct DefinedNames<'a> {
    kinds: Vec<(NameKind, KnownNames)>,
    pub terms: KnownTerms<'a>,
}

impl<'a> Drop for DefinedNames<'a> {
    fn drop(self) {
        let DefinedNames { kinds: _, terms: _ } = self;
    }
}

impl<'a> DefinedNames<'a> {
    /// Those that may be meant where these errors say that a name isn't known.
    pub(crate) fn for_errors(
        alloc: Global,
        defs: &'a [Def],
        errors: &[Error],
    ) -> Result<DefinedNames<'a>, AllocError> {
        let mut found = DefinedNames {
            kinds: Vec::new(alloc),
            terms: KnownTerms::of(alloc, defs)?,
        };
        for error in errors {
            if let Some((_, kind)) = why_of(error).and_then(Why::unknown) {
                found.add_kind(defs, kind)?;
            }
        }
        Ok(found)
    }

    // Adds the names of a kind, once.
    fn add_kind(&mut self, defs: &[Def], kind: NameKind) -> Result<(), AllocError> {
        if self.of(kind).is_none() {
            let names = defined_names(*self.kinds.allocator(), defs, kind)?;
            self.kinds.push((kind, names))?;
        }
        Ok(())
    }

    // The names of a kind.
    fn of(&self, kind: NameKind) -> Option<&KnownNames> {
        let found = self.kinds.iter().find(|names| names.0 == kind)?;
        Some(&found.1)
    }
}

/// Adds the question whether another name is meant than one that isn't known, where one is near.
pub(crate) fn add_question(
    told: &Told<'_>,
    report: &mut Report,
    unknown: Unknown<'_>,
) -> Result<(), AllocError> {
    let sign = if unknown.kind == NameKind::Constant {
        "$"
    } else {
        ""
    };
    let mut nearest = Nearest::new(told.alloc, sign, unknown.name);
    if unknown.kind == NameKind::Variable {
        nearest.look_through(&variables_at(told, unknown.pos)?)?;
    }
    if let Some(names) = told.defined.of(unknown.kind) {
        nearest.look_through(names)?;
    }
    nearest.add_to(report, unknown.pos)
}

// The names of the variables that can be used at a place.
fn variables_at(told: &Told<'_>, pos: Pos) -> Result<KnownNames, AllocError> {
    let names = &told.names;
    let mut variables = KnownNames::new(told.alloc);
    let place = names.number_at(pos).unwrap_or(names.names.len());
    for (number, mention) in names.names.iter().enumerate() {
        if names.is_in_scope(number, place) {
            variables.push(mention.text())?;
        }
    }
    variables.in_order()
}

// The names of a kind that definitions define, and of types the built-in ones.
fn defined_names(alloc: Global, defs: &[Def], kind: NameKind) -> Result<KnownNames, AllocError> {
    let mut names = KnownNames::new(alloc);
    if kind == NameKind::Type {
        push_builtins(&mut names)?;
    }
    for def in defs {
        push_definition(&mut names, def, kind)?;
    }
    names.in_order()
}

fn push_builtins(names: &mut KnownNames) -> Result<(), AllocError> {
    for builtin in BuiltinType::ALL {
        names.push(builtin.name())?;
    }
    Ok(())
}

// Adds the names of a kind that a definition defines. In the place of a variable a constant may be meant.
fn push_definition(names: &mut KnownNames, def: &Def, kind: NameKind) -> Result<(), AllocError> {
    match def {
        Def::TypeDef(ty) => push_type(names, ty, kind),
        Def::Decl(decl) if kind == NameKind::Term || kind == NameKind::Declared => {
            names.push(&decl.term.0)
        }
        Def::Extern(Extern::Const { name, .. }) if kind == NameKind::Constant => {
            names.push(&name.0)
        }
        Def::Extern(Extern::Const { name, .. }) if kind == NameKind::Variable => {
            names.push_in("$", &name.0, "")
        }
        _ => Ok(()),
    }
}

// Adds the names of a kind that a type defines.
fn push_type(names: &mut KnownNames, ty: &Type, kind: NameKind) -> Result<(), AllocError> {
    match &ty.ty {
        _ if kind == NameKind::Type => names.push(&ty.name.0),
        TypeValue::Enum(variants, _) => {
            for variant in variants {
                push_variant(names, ty, variant, kind)?;
            }
            Ok(())
        }
        TypeValue::Struct(..) if kind == NameKind::Term => names.push(&ty.name.0),
        _ => Ok(()),
    }
}

// Adds a variant: by its full name, or where it is meant by its own name alone. In the place of a variable one without fields may
// be meant.
fn push_variant(
    names: &mut KnownNames,
    ty: &Type,
    variant: &Variant,
    kind: NameKind,
) -> Result<(), AllocError> {
    let name = Variant::full_name(&ty.name, &variant.name)?;
    match kind {
        NameKind::Term => {
            names.push_short(&variant.name.0, &name.0)?;
            names.push(&name.0)
        }
        NameKind::Variable if matches!(&variant.fields, Fields::Unit) => {
            names.push_in("(", &name.0, ")")
        }
        _ => Ok(()),
    }
}
