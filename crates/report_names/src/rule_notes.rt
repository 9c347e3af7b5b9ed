//! What reports say of rules: where they are, what they are called, which are alike, and that one is given a greater priority.

ghost use Rattle.std.specs.Prelude.{OnOk};
ghost use Rattle.report_print.specs.Reports.{HasPlaceMore, SpeaksAlike};

use crate::names::{name_of, priority_of, rule_at};
use core_syntax::syntax::{Def, Pos};
use report_print::report::{Place, Report, Word};
use report_witness::witness::left_side;
use std::alloc::{AllocError, Global};

/// Adds the place of a rule, with its name and priority between two texts.
pub fn add_rule(
    alloc: Global,
    report: &mut Report,
    defs: &[Def],
    pos: Pos,
    before: &str,
    after: &str,
) -> Result<(), AllocError>
    ensures { OnOk result (HasPlaceMore pos report.old report.new) }
{
    let mut text = String::from_str(alloc, before)?;
    push_rule(&mut text, defs, pos)?;
    text.push_str(after)?;
    report.add_label(pos, text)
}

/// Adds a rule's name and priority.
pub fn push_rule(text: &mut String, defs: &[Def], pos: Pos) -> Result<(), AllocError> {
    let Some(rule) = rule_at(defs, pos) else {
        return text.push_str("this rule");
    };
    let name = name_of(rule);
    if name.is_empty() {
        text.push_str("this rule")?;
    } else {
        write!(text, "rule `{name}`")?;
    }
    let priority = priority_of(rule);
    write!(text, " (priority {priority})")
}

/// Adds a line that helps.
pub fn add_help(alloc: Global, report: &mut Report, text: &str) -> Result<(), AllocError>
    ensures { OnOk result (SpeaksAlike report.old report.new) }
{
    report.add_note("help", String::from_str(alloc, text)?)
}

/// The left side of the rule at a place; the empty text if there is none.
pub fn left_side_at(alloc: Global, defs: &[Def], place: Pos) -> Result<String, AllocError> {
    match rule_at(defs, place) {
        Some(rule) => left_side(alloc, rule),
        None => Ok(String::new(alloc)),
    }
}

/// Whether two left sides are known and the same.
pub fn are_one(left: &str, right: &str) -> bool {
    !left.is_empty() && left == right
}

/// What to do about rules that have the same pattern.
pub const ONE_OF_ALIKE: &str =
    "of rules with the same pattern only one is ever taken: remove the others";

/// Whether the rules at two places have the same left side, but for the names of variables that stand there once.
///
/// # Errors
///
/// If memory is refused.
pub fn are_alike(alloc: Global, defs: &[Def], left: Pos, right: Pos) -> Result<bool, AllocError> {
    let first = left_side_at(alloc, defs, left)?;
    let second = left_side_at(alloc, defs, right)?;
    Ok(are_one(&first, &second))
}

/// Adds that the rule at a position is given a priority.
pub fn add_priority(
    alloc: Global,
    report: &mut Report,
    defs: &[Def],
    pos: Pos,
    priority: i64,
) -> Result<(), AllocError>
    ensures { OnOk result (SpeaksAlike report.old report.new) }
{
    let Some(rule) = rule_at(defs, pos) else {
        return Ok(());
    };
    let place = match rule.prio {
        Some(_) => Place::Between(rule.pos, rule.pattern.pos(), Word::Priority),
        None => Place::Before(rule.pattern.pos()),
    };
    let name = match &rule.name {
        Some(name) => name.0.clone()?,
        None => left_side(alloc, rule)?,
    };
    let title = if name.is_empty() {
        format!(in alloc; "Give this rule the priority {priority}")?
    } else {
        format!(in alloc; "Give the rule `{name}` the priority {priority}")?
    };
    report.add_fix(title, place, format!(in alloc; "{priority} ")?)
}

/// A priority above that of the rule at a position, where there is one.
pub fn priority_above(defs: &[Def], pos: Pos) -> i64 {
    match rule_at(defs, pos) {
        Some(rule) => priority_of(rule).saturating_add(1),
        None => 1,
    }
}

/// Adds that the rule at a report's place is given a priority above that of another rule.
pub fn add_first(
    alloc: Global,
    report: &mut Report,
    defs: &[Def],
    other: Pos,
) -> Result<(), AllocError>
    ensures { OnOk result (SpeaksAlike report.old report.new) }
{
    match report.labels.first() {
        Some(label) => {
            let pos = label.pos;
            add_priority(alloc, report, defs, pos, priority_above(defs, other))
        }
        None => Ok(()),
    }
}
