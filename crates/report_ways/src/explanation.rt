//! What a rule demands, and when it is taken.

use crate::indented_lines::push_line;
use crate::meant_rules::Called;
use crate::way_text::Sites;
use crate::ways::Search;
use cranelift_isle::lower::{Lowered, LoweredTerm};
use cranelift_isle::syntax::{self, Def};
use cranelift_isle::trie_again::{Overlap, Rule};
use report_names::names::{NameTables, rule_at};
use report_print::layout::push_place;
use report_print::lines::FileLines;
use report_witness::conditions::{Conditions, conditions_of, given_of};
use std::alloc::{AllocError, Global};

/// What is said of a rule that is called by its name, by that of its term, by the number of a line that it stands in, or by
/// the end of its file's path, a colon and that number: its place, what it demands of the term's arguments, in its own words,
/// and what it gives; the tests on the way to each return that takes it; and the rules of the term that come first where both
/// match. Of several rules that are so called each is told. The empty text where there is none.
pub fn explanation(
    alloc: Global,
    lines: &FileLines<'_>,
    defs: &[Def],
    lowered: &Lowered,
    called: &str,
) -> Result<String, AllocError> {
    let files = lines.files();
    let called = Called::new(alloc, files, called)?;
    let mut out = String::new(alloc);
    for term in &lowered.terms {
        for rule in &term.rules.rules {
            if let Some(written) = rule_at(defs, rule.pos) {
                if called.is(files, written) {
                    push_rule(alloc, lines, lowered, (term, rule, written), &mut out)?;
                }
            }
        }
    }
    Ok(out)
}

// The name of a rule, or the empty text.
fn rule_name<'a>(lowered: &'a Lowered, rule: &Rule) -> &'a str {
    match rule.name {
        Some(name) => lowered.tyenv.text_of(name),
        None => "",
    }
}

fn push_rule(
    alloc: Global,
    lines: &FileLines<'_>,
    lowered: &Lowered,
    (term, rule, written): (&LoweredTerm, &Rule, &syntax::Rule),
    out: &mut String,
) -> Result<(), AllocError> {
    let names = NameTables {
        tyenv: &lowered.tyenv,
        terms: &lowered.termenv.terms,
    };
    push_title(lines, lowered, rule, out)?;
    push_two(out, " of term ", names.term(term.id))?;
    out.push('\n')?;
    let conditions = conditions_of(alloc, written)?;
    push_conditions(alloc, &conditions, out)?;
    let given = given_of(alloc, written)?;
    let line = format!(in alloc; "gives {given}")?;
    push_line(out, 2, &line)?;
    out.push_str("  taken after\n")?;
    let search = Search {
        sites: Sites {
            alloc,
            names,
            bindings: &term.rules.bindings,
            arguments: &conditions.arguments,
            shown: &[],
            indent: 4,
        },
        rule: rule.pos,
    };
    search.push_ways(&term.block, out)?;
    push_firsts(lines, lowered, term, rule, out)
}

// Adds what a rule demands, a line each.
fn push_conditions(
    alloc: Global,
    conditions: &Conditions<'_>,
    out: &mut String,
) -> Result<(), AllocError> {
    let call = conditions.call.as_str();
    let title = format!(in alloc; "demands of {call}")?;
    push_line(out, 2, &title)?;
    if conditions.lines.is_empty() {
        out.push_str("    nothing\n")?;
    }
    for line in &conditions.lines {
        push_line(out, 4, line)?;
    }
    Ok(())
}

/// Adds a rule's name, place and priority.
pub fn push_title(
    lines: &FileLines<'_>,
    lowered: &Lowered,
    rule: &Rule,
    out: &mut String,
) -> Result<(), AllocError> {
    push_rule_place(lines, lowered, rule, out)?;
    let priority = rule.prio;
    write!(out, " (priority {priority})")
}

/// Adds a rule's name and place.
pub fn push_rule_place(
    lines: &FileLines<'_>,
    lowered: &Lowered,
    rule: &Rule,
    out: &mut String,
) -> Result<(), AllocError> {
    let name = rule_name(lowered, rule);
    out.push_str("rule ")?;
    if !name.is_empty() {
        write!(out, "`{name}` ")?;
    }
    out.push_str("at ")?;
    push_place(out, lines, rule.pos)
}

fn push_two(out: &mut String, first: &str, second: &str) -> Result<(), AllocError> {
    out.push_str(first)?;
    out.push_str(second)
}

// Adds the rules of a term that come first where both they and this rule match.
fn push_firsts(
    lines: &FileLines<'_>,
    lowered: &Lowered,
    term: &LoweredTerm,
    rule: &Rule,
    out: &mut String,
) -> Result<(), AllocError> {
    if !has_first(term, rule) {
        return Ok(());
    }
    out.push_str("  these rules come first where they match too\n")?;
    for other in &term.rules.rules {
        push_first(lines, lowered, rule, other, out)?;
    }
    Ok(())
}

// Adds a rule, if it comes first where both it and this rule match.
fn push_first(
    lines: &FileLines<'_>,
    lowered: &Lowered,
    rule: &Rule,
    other: &Rule,
    out: &mut String,
) -> Result<(), AllocError> {
    if !comes_first(rule, other) {
        return Ok(());
    }
    out.push_str("    ")?;
    push_title(lines, lowered, other, out)?;
    out.push('\n')
}

// Whether some rule of a term comes first where both it and this rule match.
fn has_first(term: &LoweredTerm, rule: &Rule) -> bool {
    for other in &term.rules.rules {
        if comes_first(rule, other) {
            return true;
        }
    }
    false
}

/// Whether another rule of a set may match together with this one, and comes first then.
pub fn comes_first(rule: &Rule, other: &Rule) -> bool {
    other.prio > rule.prio && overlaps(rule, other)
}

fn overlaps(rule: &Rule, other: &Rule) -> bool {
    match rule.may_overlap(other) {
        Overlap::No => false,
        Overlap::Yes { .. } => true,
    }
}
