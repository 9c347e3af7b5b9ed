//! What changed between two versions of definitions: types, the trees of terms, and rules.

use crate::takers::{Taker, taker_of};
use crate::type_changes::push_types;
use crate::versions::{Version, term_called, term_name};
use cranelift_isle::lower::{Lowered, LoweredTerm};
use cranelift_isle::syntax::{Def, Rule};
use report_names::names::{name_of, priority_of};
use report_print::layout::push_place;
use report_queries::texts::{Comments, names_of, print_term};
use report_witness::rule_text::rule_text;
use report_witness::witness::term_of;
use std::alloc::{AllocError, Global};

// How many of the rules that came to a term, and of those that went, are told with what takes their values: that is looked for
// among all rules of the term.
const MOST_TAKEN: usize = 100;

// A rule of a term, its text without its name, its priority and its place, and its number among the rules of the term.
struct Told<'a> {
    rule: &'a Rule,
    text: String,
    number: usize,
}

impl<'a> Drop for Told<'a> {
    fn drop(self) {
        let Told {
            rule: _,
            text: _,
            number: _,
        } = self;
    }
}

// The rules of a term in two versions.
#[derive(Clone, Copy)]
struct Rules<'a, 'f> {
    alloc: Global,
    term: &'a str,
    old: Version<'a, 'f>,
    new: Version<'a, 'f>,
    before: &'a [Told<'a>],
    now: &'a [Told<'a>],
}

/// What changed from one version of definitions to another: for each type whose variants or fields differ, which came, went, have
/// another type or stand in another order; for each term whose tree differs or whose rules do, which rules came, went or have
/// another priority, and, where the tree differs, which ones stand in another order; and the types and terms that are new or gone.
/// The empty text where nothing changed.
///
/// # Errors
///
/// Where memory is refused.
pub fn changes(
    alloc: Global,
    old: Version<'_, '_>,
    new: Version<'_, '_>,
) -> Result<String, AllocError> {
    let mut out = String::new(alloc);
    push_types(alloc, old.defs, new.defs, &mut out)?;
    for term in &new.lowered.terms {
        push_term(alloc, old, new, term, &mut out)?;
    }
    for term in &old.lowered.terms {
        let name = term_name(old.lowered, term);
        if term_called(new.lowered, name).is_none() {
            write!(out, "term {name}: is gone\n")?;
        }
    }
    Ok(out)
}

// Adds what changed of a term of the new version.
fn push_term(
    alloc: Global,
    old: Version<'_, '_>,
    new: Version<'_, '_>,
    term: &LoweredTerm,
    out: &mut String,
) -> Result<(), AllocError> {
    let name = term_name(new.lowered, term);
    let Some(before) = term_called(old.lowered, name) else {
        return write!(out, "term {name}: is new\n");
    };
    let had = tree_text(alloc, old.lowered, before)?;
    let has = tree_text(alloc, new.lowered, term)?;
    let same = had == has;
    let rules = changes_of_rules(alloc, old, new, name, !same)?;
    if same && rules.is_empty() {
        return Ok(());
    }
    let what = if same { "is the same" } else { "differs" };
    write!(out, "term {name}: the tree {what}\n")?;
    out.push_str(&rules)
}

// The printed tree of a term, without the places of its rules.
fn tree_text(alloc: Global, lowered: &Lowered, term: &LoweredTerm) -> Result<String, AllocError> {
    let mut text = String::new(alloc);
    let names = names_of(lowered);
    let (bindings, block) = (&term.rules.bindings, &term.block);
    print_term(
        &mut text,
        names,
        Comments::Nothing,
        term.id,
        bindings,
        block,
    )?;
    Ok(text)
}

// What changed of the rules of a term, and, where that is to be told, of their order.
fn changes_of_rules(
    alloc: Global,
    old: Version<'_, '_>,
    new: Version<'_, '_>,
    term: &str,
    tells_order: bool,
) -> Result<String, AllocError> {
    let before = rules_of(alloc, old.defs, term)?;
    let now = rules_of(alloc, new.defs, term)?;
    let rules = Rules {
        alloc,
        term,
        old,
        new,
        before: &before,
        now: &now,
    };
    let mut out = String::new(alloc);
    rules.push_came(&mut out)?;
    rules.push_went(&mut out)?;
    rules.push_changed(&mut out)?;
    if tells_order {
        rules.push_moved(&mut out)?;
    }
    Ok(out)
}

fn rules_of<'a>(alloc: Global, defs: &'a [Def], term: &str) -> Result<Vec<Told<'a>>, AllocError> {
    let mut rules = Vec::new(alloc);
    for def in defs {
        if let Def::Rule(rule) = def {
            if term_of(rule) == term {
                let text = rule_text(alloc, rule)?;
                let number = rules.len();
                rules.push(Told { rule, text, number })?;
            }
        }
    }
    Ok(rules)
}

impl<'a, 'f> Rules<'a, 'f> {
    // Adds the rules that the old version doesn't have.
    fn push_came(self, out: &mut String) -> Result<(), AllocError> {
        let mut count = 0usize;
        for (i, told) in self.now.iter().enumerate() {
            if same_in(self.before, self.now, i, told).is_none() {
                push_rule(out, self.new, told.rule)?;
                out.push_str(" came\n")?;
                if count < MOST_TAKEN {
                    self.push_taker(self.new, self.old, told.rule, " was taken by ", out)?;
                }
                count = count.saturating_add(1);
            }
        }
        Ok(())
    }

    // Adds the rules that the new version doesn't have.
    fn push_went(self, out: &mut String) -> Result<(), AllocError> {
        let mut count = 0usize;
        for (i, told) in self.before.iter().enumerate() {
            if same_in(self.now, self.before, i, told).is_none() {
                push_rule(out, self.old, told.rule)?;
                out.push_str(" went\n")?;
                if count < MOST_TAKEN {
                    self.push_taker(self.old, self.new, told.rule, " is now taken by ", out)?;
                }
                count = count.saturating_add(1);
            }
        }
        Ok(())
    }

    // Adds the rules that both versions have and that aren't alike in them.
    fn push_changed(self, out: &mut String) -> Result<(), AllocError> {
        for (i, told) in self.now.iter().enumerate() {
            if let Some(before) = same_in(self.before, self.now, i, told) {
                self.push_change(before, told, out)?;
            }
        }
        Ok(())
    }

    // Adds each rule that stands before one now that it stood behind, with no rule between them that both versions have.
    fn push_moved(self, out: &mut String) -> Result<(), AllocError> {
        let mut last: Option<(usize, &Told<'_>)> = None;
        for (i, told) in self.now.iter().enumerate() {
            if let Some(before) = same_in(self.before, self.now, i, told) {
                if let Some((number, first)) = last {
                    if before.number < number {
                        push_rule(out, self.new, first.rule)?;
                        out.push_str(" now stands before ")?;
                        push_rule_name(out, self.new, told.rule)?;
                        out.push('\n')?;
                    }
                }
                last = Some((before.number, told));
            }
        }
        Ok(())
    }

    fn push_change(
        self,
        before: &Told<'_>,
        told: &Told<'_>,
        out: &mut String,
    ) -> Result<(), AllocError> {
        if before.text != told.text {
            push_rule(out, self.new, told.rule)?;
            out.push_str(" changed\n")?;
        }
        let (had, has) = (priority_of(before.rule), priority_of(told.rule));
        if had == has {
            return Ok(());
        }
        if told.rule.name.is_some() {
            let name = name_of(told.rule);
            write!(out, "  rule `{name}`")?;
        } else {
            push_rule(out, self.new, told.rule)?;
        }
        write!(out, " has priority {has} now, and had {had}\n")
    }

    // Adds which rule of another version takes what a rule matches, where its own version takes this rule for it.
    fn push_taker(
        self,
        version: Version<'_, '_>,
        other: Version<'_, '_>,
        rule: &Rule,
        before: &str,
        out: &mut String,
    ) -> Result<(), AllocError> {
        match taker_of(self.alloc, self.term, version, other, rule)? {
            Taker::Rule(value, found) => {
                write!(out, "    `{value}`{before}")?;
                push_rule_name(out, other, found)?;
                out.push('\n')
            }
            Taker::Nothing(value) => write!(out, "    `{value}`{before}no rule\n"),
            Taker::Unknown => Ok(()),
        }
    }
}

// The rule of another version that is the same as this one, which stands at a place of its list: of several that are the same
// the one that has as many of them before it.
fn same_in<'t, 'a>(
    others: &'t [Told<'a>],
    rules: &[Told<'_>],
    at: usize,
    told: &Told<'_>,
) -> Option<&'t Told<'a>> {
    let before = rules
        .iter()
        .take(at)
        .filter(|other| is_same(other, told))
        .count();
    others
        .iter()
        .filter(|other| is_same(other, told))
        .nth(before)
}

// Whether two rules are the same: they have one name, or no names and one text.
fn is_same(left: &Told<'_>, right: &Told<'_>) -> bool {
    match (&left.rule.name, &right.rule.name) {
        (Some(left), Some(right)) => left.0 == right.0,
        (None, None) => left.text == right.text,
        _ => false,
    }
}

// Begins a line with a rule.
fn push_rule(out: &mut String, version: Version<'_, '_>, rule: &Rule) -> Result<(), AllocError> {
    out.push_str("  ")?;
    push_rule_name(out, version, rule)
}

// Adds a rule's name, where it has one, and its place.
fn push_rule_name(
    out: &mut String,
    version: Version<'_, '_>,
    rule: &Rule,
) -> Result<(), AllocError> {
    let name = name_of(rule);
    out.push_str("rule ")?;
    if !name.is_empty() {
        write!(out, "`{name}` ")?;
    }
    out.push_str("at ")?;
    push_place(out, version.lines, rule.pos)
}
