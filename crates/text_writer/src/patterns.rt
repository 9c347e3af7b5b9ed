//! Patterns as text.
#![tactic(auto, using(core_syntax::proofs::PatternViews::pattern_steps))]

ghost use Rattle.std.specs.Prelude.{◌≡◌, ◌∷◌, ◌++◌, ◌^◌, [], nat_lt, OnOk, string_bytes};
ghost use Rattle.core_syntax.specs.SyntaxViews.{pattern_view, pattern_views};
ghost use Rattle.model.specs.lists.Syntax.{macro_arg};
ghost use Rattle.text_reader.specs.Solid.{nowhere};
ghost use Rattle.text_writer.specs.Forms.{pattern_form, pattern_forms};
ghost use Rattle.text_writer.specs.Spellable.{is_written_as_number, is_written_as_word, pattern_is_spellable, patterns_are_spellable};
ghost use Rattle.text_writer.specs.Texts.{spaced, written};

use crate::pieces::{push_constant, push_number, push_truth};
use crate::words::{
    is_constant_name, is_pattern_head, is_pattern_variable, is_signed_128, is_word,
};
use core_syntax::syntax::Pattern;
use std::alloc::AllocError;

/// Whether a pattern can be spelled, where its lists and bindings nest so deep at most.
#[cycle(spellable)]
pub fn pattern_is_spellable(pattern: &Pattern, room: usize) -> bool
    ensures { result ≡ pattern_is_spellable (pattern_view pattern.now) room }
{
    match pattern {
        Pattern::Var { var, .. } => is_pattern_variable(var),
        Pattern::BindPattern { var, subpat, .. } => {
            room > 0 && is_word(var) && pattern_is_spellable(subpat, room - 1)
        }
        Pattern::ConstBool { .. } | Pattern::Wildcard { .. } => true,
        Pattern::ConstInt { val, .. } => is_signed_128(*val),
        Pattern::ConstPrim { val, .. } => is_constant_name(val),
        Pattern::Term { sym, args, .. } => {
            room > 0 && is_pattern_head(sym) && patterns_are_spellable(args, room - 1)
        }
        Pattern::And { subpats, .. } => room > 0 && patterns_are_spellable(subpats, room - 1),
        Pattern::MacroArg { index, .. } => room > 0 && is_argument(*index),
    }
}

#[cycle(spellable)]
fn patterns_are_spellable(patterns: &[Pattern], room: usize) -> bool
    ensures { result ≡ patterns_are_spellable (pattern_views patterns.now) room }
{
    for pattern in patterns {
        if !pattern_is_spellable(pattern, room) {
            return false;
        }
    }
    true
}

// Whether an argument's number can be written: each of 64 bits can.
fn is_argument(_index: usize) -> bool
    ensures { result ≡ nat_lt _index (2 ^ 64) }
{
    true
}

/// Whether a pattern is written as a word.
pub fn is_written_as_word(pattern: &Pattern) -> bool
    ensures { result ≡ is_written_as_word (pattern_view pattern.now) }
{
    matches!(
        pattern,
        Pattern::Var { .. } | Pattern::ConstBool { .. } | Pattern::Wildcard { .. }
    )
}

/// Whether a pattern is written as a number.
pub fn is_written_as_number(pattern: &Pattern) -> bool
    ensures { result ≡ is_written_as_number (pattern_view pattern.now) }
{
    matches!(pattern, Pattern::ConstInt { .. })
}

/// Adds a pattern.
#[cycle(pattern)]
pub fn push_pattern(out: &mut String, pattern: &Pattern) -> Result<(), AllocError>
    ensures { OnOk result (string_bytes out.new ≡ string_bytes out.old ++ written (pattern_form (pattern_view pattern.now))) }
{
    match pattern {
        Pattern::Var { var, .. } => out.push_str(&var.0),
        Pattern::BindPattern { var, subpat, .. } => {
            out.push_str(&var.0)?;
            out.push_str(" @ ")?;
            push_pattern(out, subpat)
        }
        Pattern::ConstBool { val, .. } => push_truth(out, *val),
        Pattern::ConstInt { val, .. } => push_number(out, *val),
        Pattern::ConstPrim { val, .. } => push_constant(out, val),
        Pattern::Term { sym, args, .. } => push_pattern_list(out, &sym.0, args),
        Pattern::Wildcard { .. } => out.push_str("_"),
        Pattern::And { subpats, .. } => push_pattern_list(out, "and", subpats),
        Pattern::MacroArg { index, .. } => push_macro_arg(out, *index),
    }
}

#[cycle(pattern)]
fn push_pattern_list(out: &mut String, head: &str, patterns: &[Pattern]) -> Result<(), AllocError>
    ensures { OnOk result (string_bytes out.new
        ≡ string_bytes out.old ++ 40 ∷ ((head.now ++ spaced (pattern_forms (pattern_views patterns.now))) ++ 41 ∷ [])) }
{
    out.push_str("(")?;
    out.push_str(head)?;
    push_patterns(out, patterns)?;
    out.push_str(")")
}

// Adds patterns, each behind a space.
#[cycle(pattern)]
fn push_patterns(out: &mut String, patterns: &[Pattern]) -> Result<(), AllocError>
    ensures { OnOk result (string_bytes out.new ≡ string_bytes out.old ++ spaced (pattern_forms (pattern_views patterns.now))) }
{
    for pattern in patterns {
        out.push_str(" ")?;
        push_pattern(out, pattern)?;
    }
    Ok(())
}

// Adds an extractor's argument, by its number.
fn push_macro_arg(out: &mut String, index: usize) -> Result<(), AllocError>
    ensures { OnOk result (string_bytes out.new ≡ string_bytes out.old ++ written (pattern_form (macro_arg index nowhere))) }
{
    write!(out, "(macro-arg {index})")
}
