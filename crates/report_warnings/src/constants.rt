//! Constants that patterns name, and that may be equal to what trees take them to differ from.

use crate::kinds::{Warning, add_place, begun};
use cranelift_isle::lower::{Lowered, LoweredTerm};
use cranelift_isle::sema::{Sym, Type};
use cranelift_isle::syntax::{Def, Ident, Pos};
use cranelift_isle::trie_again::{BindingId, Constraint};
use report_names::mentions::{MentionKind, Mentions};
use report_names::names::NameTables;
use report_names::rule_notes::{add_help, add_rule};
use report_names::site_words::push_head;
use report_print::report::Report;
use std::alloc::{AllocError, Global};

/// Adds a warning for each pattern of a definition that names a constant of a struct type, or of an enum type with variants.
pub(crate) fn add_named(
    alloc: Global,
    reports: &mut Vec<Report>,
    lowered: &Lowered,
    names: &Mentions<'_>,
) -> Result<(), AllocError> {
    for mention in &names.names {
        if mention.kind == MentionKind::Constant && mention.in_pattern {
            add_constant(alloc, reports, lowered, mention.name, mention.form)?;
        }
    }
    Ok(())
}

// Adds a warning if a constant's type is a struct, or an enum with variants.
fn add_constant(
    alloc: Global,
    reports: &mut Vec<Report>,
    lowered: &Lowered,
    name: &Ident,
    pos: Pos,
) -> Result<(), AllocError> {
    if !has_form(lowered, name) {
        return Ok(());
    }
    let constant = name.0.as_str();
    let message = format!(in alloc;
        "a pattern names `${constant}`, whose type is an enum or a struct"
    )?;
    let mut report = begun(alloc, Warning::Constant, message);
    add_place(
        alloc,
        &mut report,
        pos,
        "taken to differ from what other patterns ask for here",
    )?;
    add_help(
        alloc,
        &mut report,
        "match a variant or fields, or test the constant by an extractor",
    )?;
    reports.push(report)?;
    Ok(())
}

// Whether the type of a constant is a struct, or an enum with variants: what patterns take apart.
fn has_form(lowered: &Lowered, name: &Ident) -> bool {
    match lowered.tyenv.intern(name) {
        Some(name) => match type_of(lowered, name) {
            Some(Type::Enum { variants, .. }) => variants.len() > 0,
            Some(Type::Struct { .. }) => true,
            Some(Type::Builtin(_) | Type::Primitive(..)) | None => false,
        },
        None => false,
    }
}

// The type of a constant.
fn type_of(lowered: &Lowered, name: Sym) -> Option<&Type> {
    let ty = lowered.tyenv.const_types.get(&name).copied()?;
    lowered.tyenv.types.get(ty.index())
}

// What a rule asks of a site, and the place of the rule.
#[derive(Clone, Copy)]
struct Asked {
    constraint: Constraint,
    rule: Pos,
}

/// Adds a warning for each value of a term's rules at which a constant of a built-in type stands beside a literal or another
/// constant, and may be equal to it.
pub(crate) fn add_beside(
    alloc: Global,
    reports: &mut Vec<Report>,
    defs: &[Def],
    lowered: &Lowered,
    term: &LoweredTerm,
) -> Result<(), AllocError> {
    for site in &sites_with_constants(alloc, lowered, term)? {
        add_at(alloc, reports, defs, lowered, term, *site)?;
    }
    Ok(())
}

// The sites that some rule compares with a constant of a built-in type.
fn sites_with_constants(
    alloc: Global,
    lowered: &Lowered,
    term: &LoweredTerm,
) -> Result<Vec<BindingId>, AllocError> {
    let mut sites = Vec::new(alloc);
    for rule in &term.rules.rules {
        for (site, constraint) in rule.constraints() {
            if is_builtin(lowered, *constraint) && !sites.iter().any(|other| *other == *site) {
                sites.push(*site)?;
            }
        }
    }
    Ok(sites)
}

// Whether a constraint asks for a constant of a built-in type.
fn is_builtin(lowered: &Lowered, constraint: Constraint) -> bool {
    match constraint {
        Constraint::ConstPrim { val } => matches!(type_of(lowered, val), Some(Type::Builtin(_))),
        _ => false,
    }
}

// Adds a warning for the first two constants that rules ask of a site and that may be equal.
fn add_at(
    alloc: Global,
    reports: &mut Vec<Report>,
    defs: &[Def],
    lowered: &Lowered,
    term: &LoweredTerm,
    site: BindingId,
) -> Result<(), AllocError> {
    let mut seen: Vec<Asked> = Vec::new(alloc);
    for asked in asked_of(alloc, term, site)? {
        if let Some(other) = first_like(lowered, &seen, &asked.constraint) {
            reports.push(beside(alloc, defs, lowered, other, asked)?)?;
            return Ok(());
        }
        seen.push(asked)?;
    }
    Ok(())
}

fn asked_of(alloc: Global, term: &LoweredTerm, site: BindingId) -> Result<Vec<Asked>, AllocError> {
    let mut all = Vec::new(alloc);
    for rule in &term.rules.rules {
        if let Some(constraint) = rule.get_constraint(site) {
            all.push(Asked {
                constraint,
                rule: rule.pos,
            })?;
        }
    }
    Ok(all)
}

// The first of these that asks for another constant, which may be equal to this one.
fn first_like(lowered: &Lowered, seen: &[Asked], constraint: &Constraint) -> Option<Asked> {
    for asked in seen {
        if may_be_equal(lowered, &asked.constraint, constraint) {
            return Some(*asked);
        }
    }
    None
}

// Whether two different constants may be equal: one has a name, and not both are known.
fn may_be_equal(lowered: &Lowered, first: &Constraint, second: &Constraint) -> bool {
    if first == second || !(is_named(first) || is_named(second)) {
        return false;
    }
    match (known_bool(lowered, first), known_bool(lowered, second)) {
        (Some(first), Some(second)) => first == second,
        _ => true,
    }
}

fn is_named(constraint: &Constraint) -> bool {
    matches!(constraint, Constraint::ConstPrim { .. })
}

// The truth value that a constant is, if it is known. Rust code has `$true` and `$false` as its own.
fn known_bool(lowered: &Lowered, constraint: &Constraint) -> Option<bool> {
    match constraint {
        Constraint::ConstBool { val, .. } => Some(*val),
        Constraint::ConstPrim { val } => match lowered.tyenv.text_of(*val) {
            "true" => Some(true),
            "false" => Some(false),
            _ => None,
        },
        _ => None,
    }
}

// The warning of two constants that rules ask of one value.
fn beside(
    alloc: Global,
    defs: &[Def],
    lowered: &Lowered,
    first: Asked,
    second: Asked,
) -> Result<Report, AllocError> {
    let first_text = quoted(alloc, lowered, first.constraint)?;
    let second_text = quoted(alloc, lowered, second.constraint)?;
    let message = format!(in alloc;
        "{first_text} and {second_text} are taken to differ, but may be equal"
    )?;
    let mut report = begun(alloc, Warning::Constant, message);
    add_asking(alloc, &mut report, defs, second.rule, &second_text)?;
    add_asking(alloc, &mut report, defs, first.rule, &first_text)?;
    add_help(alloc, &mut report, "ask for one of them in both rules")?;
    Ok(report)
}

fn quoted(alloc: Global, lowered: &Lowered, constraint: Constraint) -> Result<String, AllocError> {
    let names = NameTables {
        tyenv: &lowered.tyenv,
        terms: &lowered.termenv.terms,
    };
    let mut text = String::from_str(alloc, "`")?;
    push_head(&mut text, names, constraint)?;
    text.push('`')?;
    Ok(text)
}

fn add_asking(
    alloc: Global,
    report: &mut Report,
    defs: &[Def],
    rule: Pos,
    constant: &str,
) -> Result<(), AllocError> {
    let after = format!(in alloc; " asks for {constant}")?;
    add_rule(alloc, report, defs, rule, "", &after)
}
