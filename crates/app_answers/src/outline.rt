//! The outline of a file, and the symbols of all files: their definitions.

use crate::analysis::Analysis;
use crate::ranges::{Ranges, end_of_name};
use crate::references::location_of;
use app_messages::messages::text_of;
use app_messages::refusals::Refusal;
use cranelift_isle::syntax::{
    Decl, Def, Extern, Fields, Ident, Pos, Rule, StructFields, Type, TypeValue, Variant,
};
use report_names::mentions::{MentionKind, Mentions};
use serde_json::{Value, json};
use std::alloc::{AllocError, Global};

// What a definition is, in the words of the protocol.
#[derive(Clone, Copy, PartialEq, Eq)]
enum Sort {
    Primitive,
    Enumeration,
    Record,
    Variant,
    Field,
    Term,
    Extractor,
    External,
    Constant,
    Converter,
    Rule,
}

impl Sort {
    // Its number in the protocol.
    fn number(self) -> u8 {
        match self {
            Sort::Primitive => 5,
            Sort::Enumeration => 10,
            Sort::Record => 23,
            Sort::Variant => 22,
            Sort::Field => 8,
            Sort::Term | Sort::External => 12,
            Sort::Extractor => 11,
            Sort::Constant => 14,
            Sort::Converter => 25,
            Sort::Rule => 6,
        }
    }
}

/// The definitions of a file, in the order of its text.
pub fn outline_of(alloc: Global, analysis: &Analysis, file: usize) -> Result<Value, AllocError> {
    let ranges = Ranges::new(alloc, analysis)?;
    let mut found = Vec::new(alloc);
    for def in &analysis.defs {
        if is_in(def, file) {
            push_definition(alloc, &ranges, def, &mut found)?;
        }
    }
    Ok(Value::Array(found))
}

fn is_in(def: &Def, file: usize) -> bool {
    match def.place() {
        Some(pos) => pos.file == file,
        None => false,
    }
}

/// The names that the files of all lists define, but for variables, whose letters have those of a query among them in its order.
pub fn found_symbols(
    alloc: Global,
    analyses: &[Analysis],
    params: &Value,
) -> Result<Value, Refusal> {
    let query = text_of(params, "query")?;
    let mut found = Vec::new(alloc);
    for (number, analysis) in analyses.iter().enumerate() {
        let earlier = analyses.get(..number).unwrap_or(&[]);
        let ranges = Ranges::new(alloc, analysis)?;
        for def in &analysis.defs {
            if !is_in_lists(earlier, analysis, def) {
                add_symbols(alloc, &ranges, def, query, &mut found)?;
            }
        }
    }
    Ok(Value::Array(found))
}

// Whether one of some lists has the file of a definition.
fn is_in_lists(lists: &[Analysis], analysis: &Analysis, def: &Def) -> bool {
    let file = def.place().map_or(usize::MAX, |pos| pos.file);
    match analysis.sources.paths.get(file) {
        Some(path) => lists
            .iter()
            .any(|list| list.sources.number_of(path).is_some()),
        None => false,
    }
}

// Adds the names that a definition defines.
fn add_symbols(
    alloc: Global,
    ranges: &Ranges<'_>,
    def: &Def,
    query: &str,
    found: &mut Vec<Value>,
) -> Result<(), AllocError> {
    let mentions = Mentions::of(alloc, def)?;
    for mention in &mentions.names {
        let kind = symbol_kind(mention.kind);
        let name = mention.text();
        if mention.defines && kind > 0 && is_like(name, query) {
            let location = location_of(ranges, mention)?;
            found.push(json!(in alloc; {"name": name, "kind": kind, "location": location})?)?;
        }
    }
    Ok(())
}

// What a name stands for, in the protocol's numbers; 0 for what is no symbol of the workspace.
fn symbol_kind(kind: MentionKind) -> u8 {
    match kind {
        MentionKind::Type => Sort::Enumeration.number(),
        MentionKind::Term => Sort::Term.number(),
        MentionKind::Variant => Sort::Variant.number(),
        MentionKind::Field => Sort::Field.number(),
        MentionKind::Rule => Sort::Rule.number(),
        MentionKind::Constant => Sort::Constant.number(),
        MentionKind::Variable | MentionKind::Made | MentionKind::Arm | MentionKind::Access => 0,
    }
}

// Whether a name has the letters of a query in its order, small or large.
fn is_like(name: &str, query: &str) -> bool {
    let mut letters = name.chars();
    query
        .chars()
        .all(|c| letters.any(|letter| letter.eq_ignore_ascii_case(&c)))
}

fn push_definition(
    alloc: Global,
    ranges: &Ranges<'_>,
    def: &Def,
    found: &mut Vec<Value>,
) -> Result<(), AllocError> {
    let entry = match def {
        Def::TypeDef(ty) => type_entry(alloc, ranges, ty)?,
        Def::Decl(decl) => declaration_entry(alloc, ranges, decl)?,
        Def::Extractor(extractor) => {
            let detail = "extractor";
            let name = &extractor.term;
            entry_of(
                alloc,
                ranges,
                (name, Sort::Extractor, detail),
                extractor.pos,
            )?
        }
        Def::Converter(converter) => {
            let detail = "conversion";
            let name = &converter.term;
            entry_of(
                alloc,
                ranges,
                (name, Sort::Converter, detail),
                converter.pos,
            )?
        }
        Def::Rule(rule) => named_rule_entry(alloc, ranges, rule)?,
        Def::Extern(external) => external_entry(alloc, ranges, external)?,
        Def::Other => return Ok(()),
    };
    found.push(entry)?;
    Ok(())
}

// An entry of a name, with what is said of it, for the form at a position.
fn entry_of(
    alloc: Global,
    ranges: &Ranges<'_>,
    (name, sort, detail): (&Ident, Sort, &str),
    pos: Pos,
) -> Result<Value, AllocError> {
    let begin = pos.offset.min(name.1.offset);
    let end = ranges.end_of_form(pos).max(end_of_name(name));
    let range = ranges.between(pos.file, begin, end)?;
    let selection = ranges.of_name(name)?;
    json!(in alloc; {
        "name": name.0.as_str(),
        "detail": detail,
        "kind": sort.number(),
        "range": range,
        "selectionRange": selection
    })
}

// The entry of an external function or a constant.
fn external_entry(
    alloc: Global,
    ranges: &Ranges<'_>,
    external: &Extern,
) -> Result<Value, AllocError> {
    match external {
        Extern::Constructor { term, func, pos } => {
            let func = &func.0;
            let detail = format!(in alloc; "constructor {func}")?;
            entry_of(alloc, ranges, (term, Sort::External, &detail), *pos)
        }
        Extern::Extractor {
            term,
            func,
            pos,
            ..
        } => {
            let func = &func.0;
            let detail = format!(in alloc; "extractor {func}")?;
            entry_of(alloc, ranges, (term, Sort::External, &detail), *pos)
        }
        Extern::Const { name, ty, pos } => {
            entry_of(alloc, ranges, (name, Sort::Constant, ty.0.as_str()), *pos)
        }
    }
}

/// The entry of a declaration.
pub(crate) fn declaration_entry(
    alloc: Global,
    ranges: &Ranges<'_>,
    decl: &Decl,
) -> Result<Value, AllocError> {
    let detail = signature_of(alloc, decl)?;
    entry_of(alloc, ranges, (&decl.term, Sort::Term, &detail), decl.pos)
}

/// The types of a term's arguments and of its result, as they are declared.
pub(crate) fn signature_of(alloc: Global, decl: &Decl) -> Result<String, AllocError> {
    let mut text = String::from_str(alloc, "(")?;
    for (number, ty) in decl.arg_tys.iter().enumerate() {
        if number > 0 {
            text.push(' ')?;
        }
        text.push_str(&ty.0)?;
    }
    text.push_str(") ")?;
    text.push_str(&decl.ret_ty.0)?;
    Ok(text)
}

// The entry of a rule: by its name, or by that of its term.
fn named_rule_entry(alloc: Global, ranges: &Ranges<'_>, rule: &Rule) -> Result<Value, AllocError> {
    match (&rule.name, rule.pattern.root_term()) {
        (Some(name), _) => rule_entry(alloc, ranges, (name, "rule"), rule.pos),
        (None, Some(term)) => rule_entry(alloc, ranges, (term, "rule"), rule.pos),
        (None, None) => {
            let name = Ident(String::from_str(alloc, "rule")?, rule.pos);
            rule_entry(alloc, ranges, (&name, "rule"), rule.pos)
        }
    }
}

/// The entry of the rule at a position, by a name, with what is said of it.
pub(crate) fn rule_entry(
    alloc: Global,
    ranges: &Ranges<'_>,
    (name, detail): (&Ident, &str),
    pos: Pos,
) -> Result<Value, AllocError> {
    entry_of(alloc, ranges, (name, Sort::Rule, detail), pos)
}

// The entry of a type, with those of its parts.
fn type_entry(alloc: Global, ranges: &Ranges<'_>, ty: &Type) -> Result<Value, AllocError> {
    match &ty.ty {
        TypeValue::Primitive(..) => {
            entry_of(
                alloc,
                ranges,
                (&ty.name, Sort::Primitive, "primitive"),
                ty.pos,
            )
        }
        TypeValue::Enum(variants, _) => {
            let entry = entry_of(alloc, ranges, (&ty.name, Sort::Enumeration, "enum"), ty.pos)?;
            with_parts(alloc, entry, variant_entries(alloc, ranges, variants)?)
        }
        TypeValue::Struct(fields, _) => {
            let entry = entry_of(alloc, ranges, (&ty.name, Sort::Record, "struct"), ty.pos)?;
            with_parts(alloc, entry, field_entries(alloc, ranges, fields)?)
        }
    }
}

fn with_parts(alloc: Global, mut entry: Value, parts: Vec<Value>) -> Result<Value, AllocError> {
    if let Some(object) = entry.as_object_mut() {
        serde_json::put(object, alloc, "children", Value::Array(parts))?;
    }
    Ok(entry)
}

fn variant_entries(
    alloc: Global,
    ranges: &Ranges<'_>,
    variants: &[Variant],
) -> Result<Vec<Value>, AllocError> {
    let mut found = Vec::new(alloc);
    for variant in variants {
        let head = (&variant.name, Sort::Variant, "variant");
        let entry = entry_of(alloc, ranges, head, variant.pos)?;
        let parts = field_entries(alloc, ranges, &variant.fields)?;
        found.push(with_parts(alloc, entry, parts)?)?;
    }
    Ok(found)
}

// The entries of fields that have names.
fn field_entries(
    alloc: Global,
    ranges: &Ranges<'_>,
    fields: &Fields,
) -> Result<Vec<Value>, AllocError> {
    match fields {
        Fields::Struct(fields) => named_entries(alloc, ranges, fields),
        Fields::Unit | Fields::Tuple(_) => Ok(Vec::new(alloc)),
    }
}

fn named_entries(
    alloc: Global,
    ranges: &Ranges<'_>,
    fields: &StructFields,
) -> Result<Vec<Value>, AllocError> {
    let mut found = Vec::new(alloc);
    for field in &fields.fields {
        let head = (&field.name, Sort::Field, field.ty.0.as_str());
        found.push(entry_of(alloc, ranges, head, field.pos)?)?;
    }
    Ok(found)
}
