//! Sites, and what is asked of them.

use crate::heads::push_type_names;
use crate::site_types::{SiteTypes, word_of_answer};
use cranelift_isle::sema::TypeId;
use cranelift_isle::trie_again::{Binding, BindingId, Constraint};
use report_names::names::NameTables;
use report_queries::in_place::is_in_place;
use std::alloc::AllocError;
use text_json::Json;

/// Adds the sites of a set, by their numbers, with their types. Those are marked that some step of the tree binds.
pub(crate) fn push_sites(
    json: &mut Json,
    names: NameTables<'_>,
    bindings: &[Binding],
    types: &[SiteTypes],
    marked: &[bool],
) -> Result<(), AllocError> {
    json.begin_list_at("sites")?;
    for (id, binding) in bindings.iter().enumerate() {
        push_site(json, names, id, binding)?;
        json.key_string("bound", bound_where(binding, is_marked(marked, id)))?;
        if let Some(types) = types.get(id) {
            push_types(json, names, types)?;
        }
        json.end()?;
    }
    json.end()
}

fn push_types(json: &mut Json, names: NameTables<'_>, types: &SiteTypes) -> Result<(), AllocError> {
    push_type_names(json, names, "types", &types.types)?;
    json.key_string("answer", word_of_answer(types.answer))
}

// Adds a site up to where it is bound.
fn push_site(
    json: &mut Json,
    names: NameTables<'_>,
    id: usize,
    binding: &Binding,
) -> Result<(), AllocError> {
    json.begin_object()?;
    json.key_number("id", id)?;
    json.begin_object_at("what")?;
    push_parts(json, names, binding)?;
    push_ids(json, "of", binding.sources())?;
    json.end()
}

fn is_marked(marked: &[bool], id: usize) -> bool {
    match marked.get(id) {
        Some(entry) => *entry,
        None => false,
    }
}

// Where a site is bound. `in_step`: some step of the tree binds it.
fn bound_where(binding: &Binding, in_step: bool) -> &'static str {
    if is_in_place(binding) {
        return "in place";
    }
    match binding {
        Binding::Iterator { .. } => "by a loop",
        Binding::MatchVariant { .. } | Binding::ExtractStruct { .. } | Binding::MatchSome { .. } =>
            { if in_step { "by a step" } else { "by an arm" } }
        _ => "by a step",
    }
}

// Adds what a site is, apart from the sites that it is made of.
fn push_parts(json: &mut Json, names: NameTables<'_>, binding: &Binding) -> Result<(), AllocError> {
    match binding {
        Binding::ConstBool { val, ty } => push_bool(json, names, *val, *ty),
        Binding::ConstInt { val, ty } => push_int(json, names, *val, *ty),
        Binding::ConstPrim { val } => push_named(json, "constant", names.sym(*val)),
        Binding::Argument { index } => push_numbered(json, "argument", "index", index.index()),
        Binding::Extractor { term, .. } => push_named(json, "extract", names.term(*term)),
        Binding::Constructor { term, instance, .. } => {
            push_named(json, "call", names.term(*term))?;
            json.key_number("impure", *instance as usize)
        }
        Binding::Iterator { .. } => json.key_string("kind", "each"),
        Binding::MakeVariant { ty, variant, .. } => {
            push_named(json, "variant", names.variant(*ty, *variant))
        }
        Binding::MakeStruct { ty, .. } => push_named(json, "struct", names.ty(*ty)),
        Binding::MatchVariant { variant, field, .. } => {
            push_numbered(json, "field", "field", field.index())?;
            json.key_number("variant", variant.index())
        }
        Binding::ExtractStruct { field, .. } => {
            push_numbered(json, "field", "field", field.index())
        }
        Binding::MakeSome { .. } => json.key_string("kind", "some"),
        Binding::MatchSome { .. } => json.key_string("kind", "unwrap"),
        Binding::MatchTuple { field, .. } => push_numbered(json, "part", "field", field.index()),
    }
}

/// Adds a kind and a name.
pub(crate) fn push_named(json: &mut Json, kind: &str, name: &str) -> Result<(), AllocError> {
    json.key_string("kind", kind)?;
    json.key_string("name", name)
}

fn push_numbered(json: &mut Json, kind: &str, key: &str, number: usize) -> Result<(), AllocError> {
    json.key_string("kind", kind)?;
    json.key_number(key, number)
}

/// Adds a truth value and its type.
pub(crate) fn push_bool(
    json: &mut Json,
    names: NameTables<'_>,
    val: bool,
    ty: TypeId,
) -> Result<(), AllocError> {
    json.key_string("kind", "bool")?;
    json.key_flag("value", val)?;
    json.key_string("type", names.ty(ty))
}

/// Adds an integer and its type.
pub(crate) fn push_int(
    json: &mut Json,
    names: NameTables<'_>,
    val: i128,
    ty: TypeId,
) -> Result<(), AllocError> {
    json.key_string("kind", "int")?;
    json.key_digits("value", val)?;
    json.key_string("type", names.ty(ty))
}

/// Adds a list of sites.
pub(crate) fn push_ids(json: &mut Json, key: &str, sites: &[BindingId]) -> Result<(), AllocError> {
    json.begin_list_at(key)?;
    for site in sites {
        json.number(site.index())?;
    }
    json.end()
}

/// Adds what a constraint asks.
pub(crate) fn push_constraint(
    json: &mut Json,
    names: NameTables<'_>,
    constraint: Constraint,
) -> Result<(), AllocError> {
    json.begin_object_at("is")?;
    push_asked(json, names, constraint)?;
    json.end()
}

// Adds a kind, and what is asked.
fn push_asked(json: &mut Json, names: NameTables<'_>, asked: Constraint) -> Result<(), AllocError> {
    match asked {
        Constraint::Variant { ty, variant, .. } => {
            push_named(json, "variant", names.variant(ty, variant))
        }
        Constraint::Struct { ty, .. } => push_named(json, "struct", names.ty(ty)),
        Constraint::ConstBool { val, ty } => push_bool(json, names, val, ty),
        Constraint::ConstInt { val, ty } => push_int(json, names, val, ty),
        Constraint::ConstPrim { val } => push_named(json, "constant", names.sym(val)),
        Constraint::Some => json.key_string("kind", "some"),
    }
}
