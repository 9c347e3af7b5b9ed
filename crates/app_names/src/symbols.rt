//! What a name at a place means, and which other names mean the same.

use crate::spec_mentions::mentions_in_spec;
use cranelift_isle::sema::BuiltinType;
use cranelift_isle::syntax::{Def, Ident, Pos, Type};
use report_names::definitions::{declaration_of, struct_of, variant_with_type};
use report_names::mentions::{Mention, MentionKind, Mentions};
use std::alloc::{AllocError, Global};
use text_reader::errors::ReadFault;
use text_reader::syntax::VerificationForm;
use text_reader::verification;

/// What a name means.
#[derive(Clone, Copy)]
pub enum Symbol<'a> {
    /// A type that is no struct.
    Type(&'a str),
    /// A struct, which is a type and a term.
    Struct(&'a str),
    /// A term with a declaration, or one that isn't known.
    Term(&'a str),
    /// A variant of a type, by both names.
    Variant(&'a str, &'a str),
    /// The variants of a type where they are made or taken apart: the name of the type stands in theirs.
    MadeOf(&'a str),
    /// A field, by its name and where it is defined.
    Field(&'a str, Pos),
    /// A rule.
    Rule(&'a str),
    /// A variable, by where it is bound.
    Variable(Pos),
    /// A constant.
    Constant(&'a str),
}

impl<'a> Symbol<'a> {
    /// Whether a name means this.
    pub fn is_meant_by(self, mention: &Mention<'_>) -> bool {
        match self {
            Symbol::Type(name) => mention.kind == MentionKind::Type && mention.text() == name,
            Symbol::Struct(name) => {
                matches!(
                    mention.kind,
                    MentionKind::Type | MentionKind::Term | MentionKind::Made
                ) && mention.text() == name
            }
            Symbol::Term(name) => mention.kind == MentionKind::Term && mention.text() == name,
            Symbol::Variant(ty, name) => is_variant(mention, ty, name),
            Symbol::MadeOf(ty) => {
                matches!(mention.kind, MentionKind::Term | MentionKind::Made)
                    && short_name(mention.text(), ty).is_some()
            }
            Symbol::Field(name, pos) => match mention.kind {
                MentionKind::Field => mention.name.1 == pos,
                MentionKind::Access => mention.text().strip_prefix(":") == Some(name),
                _ => false,
            },
            Symbol::Rule(name) => mention.kind == MentionKind::Rule && mention.text() == name,
            Symbol::Variable(pos) => mention.kind == MentionKind::Variable && mention.home.1 == pos,
            Symbol::Constant(name) => mention.kind == MentionKind::Constant
                && mention.text() == name,
        }
    }
}

fn is_variant(mention: &Mention<'_>, ty: &str, name: &str) -> bool {
    match mention.kind {
        MentionKind::Variant => mention.text() == name && mention.home.0.as_str() == ty,
        MentionKind::Arm => mention.text() == name,
        MentionKind::Term | MentionKind::Made => short_name(mention.text(), ty) == Some(name),
        _ => false,
    }
}

// The name of a variant of a type in the name of its term.
fn short_name<'a>(term: &'a str, ty: &str) -> Option<&'a str> {
    term.strip_prefix(ty)?.strip_prefix(".")
}

/// What is said for a verifier, with its place among the definitions of its file.
pub type Specs = Vec<(usize, VerificationForm)>;

/// What the texts of files say for a verifier, but for those that can't be read.
pub fn specs_of(alloc: Global, texts: &[String]) -> Result<Specs, AllocError> {
    let mut specs = Vec::new(alloc);
    for (number, text) in texts.iter().enumerate() {
        match verification(alloc, number, text) {
            Ok(mut found) => specs.append(&mut found)?,
            Err(ReadFault::Text(_error)) => {}
            Err(ReadFault::Memory(error)) => return Err(error),
        }
    }
    Ok(specs)
}

/// The name that stands at a place, in a definition or in one of these specs.
pub fn mention_at<'a>(
    alloc: Global,
    defs: &'a [Def],
    specs: &'a [(usize, VerificationForm)],
    pos: Pos,
) -> Result<Option<Mention<'a>>, AllocError> {
    let around = Mentions::around(alloc, defs, pos)?;
    if let Some(mention) = one_at(&around.names, pos) {
        return Ok(Some(mention));
    }
    for (_, form) in specs {
        let names = mentions_in_spec(alloc, form)?;
        if let Some(mention) = one_at(&names, pos) {
            return Ok(Some(mention));
        }
    }
    Ok(None)
}

fn one_at<'a>(mentions: &[Mention<'a>], pos: Pos) -> Option<Mention<'a>> {
    mentions.iter().find(|mention| mention.is_at(pos)).copied()
}

/// What a name means.
pub fn symbol_of<'a>(defs: &'a [Def], mention: &Mention<'a>) -> Symbol<'a> {
    let name = mention.text();
    match mention.kind {
        MentionKind::Type => match struct_of(defs, name) {
            Some(_) if declaration_of(defs, name).is_none() => Symbol::Struct(name),
            _ => Symbol::Type(name),
        },
        MentionKind::Term | MentionKind::Made => term_symbol(defs, name),
        MentionKind::Variant => Symbol::Variant(mention.home.0.as_str(), name),
        MentionKind::Arm => Symbol::Term(""),
        MentionKind::Field => Symbol::Field(name, mention.name.1),
        MentionKind::Access => Symbol::Term(""),
        MentionKind::Rule => Symbol::Rule(name),
        MentionKind::Variable => Symbol::Variable(mention.home.1),
        MentionKind::Constant => Symbol::Constant(name),
    }
}

fn term_symbol<'a>(defs: &'a [Def], name: &'a str) -> Symbol<'a> {
    if declaration_of(defs, name).is_some() {
        return Symbol::Term(name);
    }
    if let Some((ty, variant)) = variant_with_type(defs, name) {
        return Symbol::Variant(ty.name.0.as_str(), variant.name.0.as_str());
    }
    match struct_of(defs, name) {
        Some(_) => Symbol::Struct(name),
        None => Symbol::Term(name),
    }
}

/// The type of a name.
pub fn type_named<'a>(defs: &'a [Def], name: &str) -> Option<&'a Type> {
    for def in defs {
        if let Def::TypeDef(ty) = def {
            if ty.name.0.as_str() == name {
                return Some(ty);
            }
        }
    }
    None
}

/// Whether a type needs no definition.
pub fn is_built_in(name: &str) -> bool {
    BuiltinType::ALL
        .iter()
        .any(|builtin| builtin.name() == name)
}

/// The names that mean something, in the order of the definitions, and those in specs behind them.
pub fn names_of<'a>(
    alloc: Global,
    defs: &'a [Def],
    specs: &'a [(usize, VerificationForm)],
    symbol: Symbol<'_>,
) -> Result<Vec<Mention<'a>>, AllocError> {
    let mut found = Vec::new(alloc);
    for def in defs {
        let mentions = Mentions::of(alloc, def)?;
        push_meant(&mut found, &mentions.names, symbol)?;
    }
    for (_, form) in specs {
        let names = mentions_in_spec(alloc, form)?;
        push_meant(&mut found, &names, symbol)?;
    }
    Ok(found)
}

// Adds those of some names that mean something.
fn push_meant<'a>(
    found: &mut Vec<Mention<'a>>,
    mentions: &[Mention<'a>],
    symbol: Symbol<'_>,
) -> Result<(), AllocError> {
    for mention in mentions {
        if symbol.is_meant_by(mention) {
            found.push(*mention)?;
        }
    }
    Ok(())
}

/// Whether a definition has a variable of a name.
pub fn has_variable(alloc: Global, def: &Def, name: &str) -> Result<bool, AllocError> {
    let mentions = Mentions::of(alloc, def)?;
    Ok(
        mentions.names.iter().any(|mention| mention.kind == MentionKind::Variable
            && mention.text() == name),
    )
}

/// Whether a rule has a name.
pub fn has_rule(defs: &[Def], name: &str) -> bool {
    defs.iter().any(|def| is_rule_named(def, name))
}

fn is_rule_named(def: &Def, name: &str) -> bool {
    match def {
        Def::Rule(rule) => match &rule.name {
            Some(Ident(text, _)) => text.as_str() == name,
            None => false,
        },
        _ => false,
    }
}
