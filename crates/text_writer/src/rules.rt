//! Rules as text.

ghost use Rattle.std.specs.Prelude.{◌≡◌, [], ◌∷◌, ◌++◌, map, OnOk, option_map, string_bytes};
ghost use Rattle.std.specs.List.{list_all};
ghost use Rattle.core_syntax.specs.SyntaxViews.{iflet_view, name_view, pattern_view, rule_view};
ghost use Rattle.text_reader.specs.FormTrees.{no_form};
ghost use Rattle.text_writer.specs.Forms.{if_let_form, if_lets_before, name_before, priority_before, rule_body, rule_form, rule_words_before};
ghost use Rattle.text_writer.specs.Spellable.{begins_with_pattern, if_let_is_spellable, is_no_name_or_word, is_no_priority_or_fits, rule_is_spellable};
ghost use Rattle.text_writer.specs.Texts.{spaced, written};

use crate::expressions::{expr_is_spellable, push_last};
use crate::patterns::{
    is_written_as_number, is_written_as_word, pattern_is_spellable, push_pattern,
};
use crate::pieces::push_word;
use crate::words::is_word;
use core_syntax::syntax::{Ident, IfLet, Pattern, Rule};
use std::alloc::AllocError;

/// Whether a rule can be spelled.
pub fn rule_is_spellable(rule: &Rule) -> bool
    ensures { result ≡ rule_is_spellable (rule_view rule.now) }
{
    is_no_name_or_word(&rule.name)
        && is_no_priority_or_fits(rule.prio)
        && begins_with_pattern(&rule.name, rule.prio, &rule.pattern)
        && pattern_is_spellable(&rule.pattern, 999)
        && if_lets_are_spellable(&rule.iflets)
        && expr_is_spellable(&rule.expr, 999)
}

// Whether a rule's name, if it has one, is written as a word.
fn is_no_name_or_word(name: &Option<Ident>) -> bool
    ensures { result ≡ is_no_name_or_word (option_map name_view name.now) }
{
    match name {
        Some(name) => is_word(name),
        None => true,
    }
}

// Whether a rule's priority can be written: each of 64 bits can, of which one is its sign.
fn is_no_priority_or_fits(_prio: Option<i64>) -> bool
    ensures { result ≡ is_no_priority_or_fits _prio }
{
    true
}

// Whether a rule's pattern isn't taken for its name or its priority.
fn begins_with_pattern(name: &Option<Ident>, prio: Option<i64>, pattern: &Pattern) -> bool
    ensures { result ≡ begins_with_pattern (option_map name_view name.now) prio (pattern_view pattern.now) }
{
    if prio.is_some() {
        return true;
    }
    !is_written_as_number(pattern) && (name.is_some() || !is_written_as_word(pattern))
}

fn if_lets_are_spellable(if_lets: &[IfLet]) -> bool
    ensures { result ≡ list_all if_let_is_spellable (map iflet_view if_lets.now) }
{
    for if_let in if_lets {
        if !if_let_is_spellable(if_let) {
            return false;
        }
    }
    true
}

fn if_let_is_spellable(if_let: &IfLet) -> bool
    ensures { result ≡ if_let_is_spellable (iflet_view if_let.now) }
{
    pattern_is_spellable(&if_let.pattern, 998) && expr_is_spellable(&if_let.expr, 998)
}

/// Adds a rule.
pub fn push_rule(out: &mut String, rule: &Rule) -> Result<(), AllocError>
    ensures { OnOk result (string_bytes out.new ≡ string_bytes out.old ++ written (rule_form (rule_view rule.now))) }
{
    out.push_str("(rule")?;
    push_rule_words(out, rule)?;
    push_rule_body(out, rule)
}

// Adds a rule's name and its priority, if it has them, each behind a space.
#[tactic(auto, unfolding(crate::specs::Forms::rule_words_before, crate::specs::Forms::name_before, crate::specs::Forms::priority_before))]
fn push_rule_words(out: &mut String, rule: &Rule) -> Result<(), AllocError>
    ensures { OnOk result (string_bytes out.new ≡ string_bytes out.old ++ spaced (rule_words_before (rule_view rule.now) no_form)) }
{
    push_name(out, &rule.name)?;
    push_priority(out, rule.prio)
}

// Adds a rule's pattern, its conditions and its expression, each behind a space, and ends the rule.
fn push_rule_body(out: &mut String, rule: &Rule) -> Result<(), AllocError>
    ensures { OnOk result (string_bytes out.new ≡ string_bytes out.old ++ (spaced (rule_body (rule_view rule.now)) ++ 41 ∷ [])) }
{
    out.push_str(" ")?;
    push_pattern(out, &rule.pattern)?;
    push_if_lets(out, &rule.iflets)?;
    push_last(out, &rule.expr)
}

// Adds a rule's name, if it has one, behind a space.
#[tactic(auto, unfolding(crate::specs::Forms::name_before))]
fn push_name(out: &mut String, name: &Option<Ident>) -> Result<(), AllocError>
    ensures { OnOk result (string_bytes out.new ≡ string_bytes out.old ++ spaced (name_before (option_map name_view name.now) no_form)) }
{
    match name {
        Some(name) => push_word(out, &name.0),
        None => Ok(()),
    }
}

// Adds a rule's priority, if it has one, behind a space.
#[tactic(auto, unfolding(crate::specs::Forms::priority_before))]
fn push_priority(out: &mut String, prio: Option<i64>) -> Result<(), AllocError>
    ensures { OnOk result (string_bytes out.new ≡ string_bytes out.old ++ spaced (priority_before prio no_form)) }
{
    match prio {
        Some(prio) => write!(out, " {prio}"),
        None => Ok(()),
    }
}

// Adds conditions, each behind a space.
#[tactic(auto, unfolding(crate::specs::Forms::if_lets_before))]
fn push_if_lets(out: &mut String, if_lets: &[IfLet]) -> Result<(), AllocError>
    ensures { OnOk result (string_bytes out.new ≡ string_bytes out.old ++ spaced (if_lets_before (map iflet_view if_lets.now) no_form)) }
{
    for if_let in if_lets {
        out.push_str(" ")?;
        push_if_let(out, if_let)?;
    }
    Ok(())
}

fn push_if_let(out: &mut String, if_let: &IfLet) -> Result<(), AllocError>
    ensures { OnOk result (string_bytes out.new ≡ string_bytes out.old ++ written (if_let_form (iflet_view if_let.now))) }
{
    out.push_str("(if-let ")?;
    push_pattern(out, &if_let.pattern)?;
    push_last(out, &if_let.expr)
}
