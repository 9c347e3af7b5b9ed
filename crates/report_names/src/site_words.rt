//! Sites, and what values are, in words.

use crate::names::NameTables;
use core_rule_sets::trie_again::{Binding, BindingId, Constraint};
use std::alloc::{AllocError, Global};

// The longest text of a site, in bytes. A longer one is cut short, since a site may stand in a text many times.
const LONGEST: usize = 160;

/// What each site stands for, in words, by the sites' numbers.
pub fn site_texts(
    alloc: Global,
    names: NameTables<'_>,
    bindings: &[Binding],
) -> Result<Vec<String>, AllocError> {
    let mut texts = Vec::new(alloc);
    for binding in bindings {
        let text = site_text(alloc, names, binding, &texts)?;
        texts.push(text)?;
    }
    Ok(texts)
}

/// The text of a site, or `?` where it is none of these.
pub fn text_at(texts: &[String], site: BindingId) -> &str {
    match texts.get(site.index()) {
        Some(text) => text.as_str(),
        None => "?",
    }
}

// What a site stands for. These are the texts of the sites before it, and so of those that it is made of.
fn site_text(
    alloc: Global,
    names: NameTables<'_>,
    binding: &Binding,
    texts: &[String],
) -> Result<String, AllocError> {
    let mut out = String::new(alloc);
    push_site(&mut out, names, binding, texts)?;
    if out.len() > LONGEST {
        return String::from_str(alloc, "..");
    }
    Ok(out)
}

/// Adds what a site stands for. These are the texts of the sites before it, and so of those that it is made of.
pub fn push_site(
    out: &mut String,
    names: NameTables<'_>,
    binding: &Binding,
    texts: &[String],
) -> Result<(), AllocError> {
    match binding {
        Binding::ConstBool { val, .. } => push_bool(out, *val),
        Binding::ConstInt { val, .. } => write!(out, "{val}"),
        Binding::ConstPrim { val } => push_two(out, "$", names.sym(*val)),
        Binding::Argument { index } => push_numbered(out, "arg", index.index()),
        Binding::Extractor { term, parameter } => {
            let source = text_at(texts, *parameter);
            let term = names.term(*term);
            write!(out, "(extract {term} {source})")
        }
        Binding::Constructor {
            term,
            parameters,
            ..
        } => push_call(out, names.term(*term), parameters, texts),
        Binding::MakeVariant {
            ty,
            variant,
            fields,
        } => push_call(out, names.variant(*ty, *variant), fields, texts),
        Binding::MakeStruct { ty, fields } => push_call(out, names.ty(*ty), fields, texts),
        Binding::Iterator { source } => push_two(out, "each ", text_at(texts, *source)),
        Binding::MakeSome { inner } => push_two(out, "some ", text_at(texts, *inner)),
        Binding::MatchSome { source } => push_two(out, text_at(texts, *source), "?"),
        Binding::MatchVariant { source, field, .. }
        | Binding::ExtractStruct { source, field }
        | Binding::MatchTuple { source, field } => {
            push_two(out, text_at(texts, *source), ".")?;
            push_numbered(out, "", field.index())
        }
    }
}

// Adds a call of a term, or a value that is made.
fn push_call(
    out: &mut String,
    head: &str,
    sites: &[BindingId],
    texts: &[String],
) -> Result<(), AllocError> {
    out.push('(')?;
    out.push_str(head)?;
    for site in sites {
        out.push(' ')?;
        out.push_str(text_at(texts, *site))?;
    }
    out.push(')')
}

fn push_two(out: &mut String, first: &str, second: &str) -> Result<(), AllocError> {
    out.push_str(first)?;
    out.push_str(second)
}

fn push_numbered(out: &mut String, first: &str, number: usize) -> Result<(), AllocError> {
    out.push_str(first)?;
    write!(out, "{number}")
}

fn push_bool(out: &mut String, val: bool) -> Result<(), AllocError> {
    out.push_str(if val { "true" } else { "false" })
}

/// Adds what a value is that meets a constraint: a literal, or the name of its variant or struct.
pub fn push_head(
    out: &mut String,
    names: NameTables<'_>,
    constraint: Constraint,
) -> Result<(), AllocError> {
    match constraint {
        Constraint::Variant { ty, variant, .. } => out.push_str(names.variant(ty, variant)),
        Constraint::Struct { ty, .. } => out.push_str(names.ty(ty)),
        Constraint::ConstBool { val, .. } => push_bool(out, val),
        Constraint::ConstInt { val, .. } => write!(out, "{val}"),
        Constraint::ConstPrim { val } => push_two(out, "$", names.sym(val)),
        Constraint::Some => out.push_str("there"),
    }
}
