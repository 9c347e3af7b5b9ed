//! The heads of terms: what they take and give, and what makes them and takes them apart.

use crate::places::LinePlaces;
use crate::site_types::word_of_answer;
use crate::templates::push_template;
use cranelift_isle::sema::{ExtractorKind, Term, TermFlags, TermKind, TypeId};
use report_names::names::NameTables;
use std::alloc::{AllocError, Global};
use text_json::Json;

/// Adds all terms, by their ids.
pub(crate) fn push_all_heads(
    alloc: Global,
    json: &mut Json,
    names: NameTables<'_>,
    places: &LinePlaces<'_>,
) -> Result<(), AllocError> {
    json.begin_list_at("all_terms")?;
    for term in names.terms {
        json.begin_object()?;
        json.key_string("kind", word_of_kind(&term.kind))?;
        push_head(json, names, term)?;
        places.push_place(json, term.decl_pos)?;
        push_constructor(alloc, json, names, term)?;
        push_extractor(alloc, json, names, term)?;
        json.end()?;
    }
    json.end()
}

fn word_of_kind(kind: &TermKind) -> &'static str {
    match kind {
        TermKind::EnumVariant { .. } => "variant",
        TermKind::Struct => "struct",
        TermKind::Decl { .. } => "declared",
    }
}

/// Adds the name, the signature and the flags of a term.
pub(crate) fn push_head(
    json: &mut Json,
    names: NameTables<'_>,
    term: &Term,
) -> Result<(), AllocError> {
    json.key_string("name", names.sym(term.name))?;
    json.begin_object_at("signature")?;
    push_type_names(json, names, "arguments", &term.arg_tys)?;
    json.key_string("result", names.ty(term.ret_ty))?;
    json.end()?;
    push_flags(json, flags_of(&term.kind))
}

/// Adds the names of types at a key.
pub(crate) fn push_type_names(
    json: &mut Json,
    names: NameTables<'_>,
    key: &str,
    types: &[TypeId],
) -> Result<(), AllocError> {
    json.begin_list_at(key)?;
    for ty in types {
        json.string(names.ty(*ty))?;
    }
    json.end()
}

// The flags of a term: none where it isn't declared.
fn flags_of(kind: &TermKind) -> TermFlags {
    match kind {
        TermKind::Decl { flags, .. } => *flags,
        TermKind::EnumVariant { .. } | TermKind::Struct => TermFlags {
            pure: false,
            multi: false,
            partial: false,
            rec: false,
        },
    }
}

fn push_flags(json: &mut Json, flags: TermFlags) -> Result<(), AllocError> {
    json.begin_object_at("flags")?;
    json.key_flag("pure", flags.pure)?;
    json.key_flag("multi", flags.multi)?;
    json.key_flag("partial", flags.partial)?;
    json.key_flag("rec", flags.rec)?;
    json.end()
}

// Adds what makes the values of a declared term, or `null` where nothing does and for a term that a type makes.
fn push_constructor(
    alloc: Global,
    json: &mut Json,
    names: NameTables<'_>,
    term: &Term,
) -> Result<(), AllocError> {
    let Some(sig) = term.constructor_sig(alloc, names.tyenv)? else {
        return json.key_null("constructor");
    };
    let kind = if term.has_internal_constructor() {
        "rules"
    } else {
        "extern"
    };
    json.begin_object_at("constructor")?;
    json.key_string("kind", kind)?;
    json.key_string("function", &sig.func_name)?;
    json.key_string("answer", word_of_answer(sig.ret_kind))?;
    json.end()
}

// Adds what takes the values of a declared term apart, or `null` where nothing does and for a term that a type makes.
fn push_extractor(
    alloc: Global,
    json: &mut Json,
    names: NameTables<'_>,
    term: &Term,
) -> Result<(), AllocError> {
    let Some(sig) = term.extractor_sig(alloc, names.tyenv)? else {
        return json.key_null("extractor");
    };
    json.begin_object_at("extractor")?;
    push_taker(json, &term.kind, &sig.func_name)?;
    json.key_string("answer", word_of_answer(sig.ret_kind))?;
    json.end()
}

// Adds a term's template, or the function of this name that takes its values apart.
fn push_taker(json: &mut Json, kind: &TermKind, function: &str) -> Result<(), AllocError> {
    let TermKind::Decl {
        extractor_kind: Some(kind),
        ..
    } = kind
    else {
        return Ok(());
    };
    match kind {
        ExtractorKind::InternalExtractor { template } => {
            json.key_string("kind", "template")?;
            json.key("template")?;
            push_template(json, template)
        }
        ExtractorKind::ExternalExtractor { infallible, .. } => {
            json.key_string("kind", "extern")?;
            json.key_string("function", function)?;
            json.key_flag("infallible", *infallible)
        }
    }
}
