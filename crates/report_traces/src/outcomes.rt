//! Outcomes in words.
#![tactic(auto, using(run_terms::proofs::ContentSteps::content_steps, run_terms::proofs::ValueSteps::value_steps, crate::proofs::OutcomeSteps::outcome_steps))]

ghost use Rattle.std.specs.Prelude.{◌≡◌, ◌++◌, IfOk, OnOk, codes, option_map, string_bytes};
ghost use Rattle.cranelift_isle.specs.Envs.{constant_at, names_of};
ghost use Rattle.run_terms.specs.RunViews.{call_views, content_list, ending_view, outcome_view};
ghost use Rattle.run_terms.specs.ValueViews.{content_view, content_views, value_view, value_views};
ghost use Rattle.report_traces.specs.OutcomeTexts.{calls_words, composed_words, constant_name, content_words, contents_words, each_call, ending_words, name_number, name_or_mark, names_in, outcome_words, value_words, values_words, with_calls};

use crate::echo::constant_number;
use crate::opaque::{has_opaque_values, push_opaque};
use cranelift_isle::lower::Lowered;
use cranelift_isle::sema::{Sym, TypeId};
use report_queries::names::{full_variant_name, sym_name, term_name, type_name};
use run_terms::state::{Call, Ending, Outcome};
use run_terms::values::{Content, Value};
use std::alloc::{AllocError, Global};

/// An outcome in one line: `some` and the result, `none` where no rule matches, of a multi term `all` and its results in
/// order, `failed` where a call that must answer gave nothing, or `stuck`; behind it the impure calls that were made, in
/// order.
///
/// # Errors
///
/// Where memory is refused.
pub fn outcome_text(
    alloc: Global,
    lowered: &Lowered,
    multi: bool,
    outcome: &Outcome,
) -> Result<String, AllocError>
    ensures { IfOk result (λ text. string_bytes text ≡ outcome_words (names_in lowered.now) multi (outcome_view outcome.now)) }
{
    listed_text(alloc, lowered, multi, outcome, &outcome.trace.calls)
}

/// An outcome in one line, where these stand as its impure calls.
///
/// # Errors
///
/// Where memory is refused.
pub fn listed_text(
    alloc: Global,
    lowered: &Lowered,
    multi: bool,
    outcome: &Outcome,
    calls: &[Call],
) -> Result<String, AllocError>
    ensures { IfOk result (λ text. string_bytes text
        ≡ outcome_words (names_in lowered.now) multi (with_calls (call_views calls.now) (outcome_view outcome.now))) }
{
    let mut out = String::from_str(alloc, ending_word(outcome.ending, multi))?;
    push_contents(&mut out, lowered, &outcome.trace.results)?;
    push_calls(&mut out, lowered, calls)?;
    Ok(out)
}

fn ending_word(ending: Ending, multi: bool) -> &'static str
    ensures { result.now ≡ ending_words multi (ending_view ending) }
{
    match ending {
        Ending::Ended => "some",
        Ending::RanThrough => { if multi { "all" } else { "none" } }
        Ending::Failed => "failed",
        Ending::Stuck => "stuck",
    }
}

// Adds the calls that were made, where there is one.
fn push_calls(out: &mut String, lowered: &Lowered, calls: &[Call]) -> Result<(), AllocError>
    ensures { OnOk result (string_bytes out.new ≡ string_bytes out.old ++ calls_words (names_in lowered.now) (call_views calls.now)) }
{
    if calls.is_empty() {
        return Ok(());
    }
    out.push_str(", calls")?;
    push_each_call(out, lowered, calls)
}

// Adds calls, a space before each.
fn push_each_call(out: &mut String, lowered: &Lowered, calls: &[Call]) -> Result<(), AllocError>
    ensures { OnOk result (string_bytes out.new ≡ string_bytes out.old ++ each_call (names_in lowered.now) (call_views calls.now)) }
{
    for call in calls {
        push_call(out, lowered, call)?;
    }
    Ok(())
}

fn push_call(out: &mut String, lowered: &Lowered, call: &Call) -> Result<(), AllocError>
    ensures { OnOk result (string_bytes out.new
        ≡ string_bytes out.old ++ (codes " " ++ composed_words ((names_in lowered.now).term call.now.term.0) (values_words (names_in lowered.now) (value_views call.now.args.items)))) }
{
    let name = term_name(&lowered.tyenv, &lowered.termenv, call.term);
    out.push_str(" ")?;
    push_composed(out, lowered, name, &call.args)
}

/// Adds a content: a value, values in brackets, or what is in one that is there.
///
/// # Errors
///
/// Where memory is refused.
#[cycle(contents)]
pub fn push_content(
    out: &mut String,
    lowered: &Lowered,
    content: &Content,
) -> Result<(), AllocError>
    ensures { OnOk result (string_bytes out.new ≡ string_bytes out.old ++ content_words (names_in lowered.now) (content_view content.now)) }
{
    match content {
        Content::One(value) => push_value(out, lowered, value),
        Content::Parts(values) => {
            out.push_str("[")?;
            push_values(out, lowered, values)?;
            close_brackets(out)
        }
        Content::Nothing => out.push_str("nothing"),
        Content::Just(content) => push_content(out, lowered, content),
        Content::Many(contents) => {
            out.push_str("[")?;
            push_contents(out, lowered, contents)?;
            close_brackets(out)
        }
    }
}

fn close_brackets(out: &mut String) -> Result<(), AllocError>
    ensures { OnOk result (string_bytes out.new ≡ string_bytes out.old ++ codes " ]") }
{
    out.push_str(" ]")
}

// Adds contents, a space before each.
#[cycle(contents)]
fn push_contents(
    out: &mut String,
    lowered: &Lowered,
    contents: &[Content],
) -> Result<(), AllocError>
    ensures { OnOk result (string_bytes out.new ≡ string_bytes out.old ++ contents_words (names_in lowered.now) (content_views contents.now)) }
{
    for content in contents {
        out.push_str(" ")?;
        push_content(out, lowered, content)?;
    }
    Ok(())
}

/// Adds a value.
///
/// # Errors
///
/// Where memory is refused.
#[cycle(values)]
pub fn push_value(out: &mut String, lowered: &Lowered, value: &Value) -> Result<(), AllocError>
    ensures { OnOk result (string_bytes out.new ≡ string_bytes out.old ++ value_words (names_in lowered.now) (value_view value.now)) }
{
    match value {
        Value::Truth(truth) => out.push_str(if *truth { "true" } else { "false" }),
        Value::Atom(ty, number) => push_atom(out, lowered, *ty, *number),
        Value::Variant(ty, variant, fields) => {
            let name = full_variant_name(&lowered.tyenv, *ty, *variant);
            push_composed(out, lowered, name, fields)
        }
        Value::Struct(ty, fields) => {
            push_composed(out, lowered, type_name(&lowered.tyenv, *ty), fields)
        }
    }
}

/// Adds a name with values, in parentheses; a question mark stands where there is no name.
///
/// # Errors
///
/// Where memory is refused.
#[cycle(values)]
pub fn push_composed(
    out: &mut String,
    lowered: &Lowered,
    name: Option<&str>,
    values: &[Value],
) -> Result<(), AllocError>
    ensures { OnOk result (string_bytes out.new ≡ string_bytes out.old
        ++ composed_words (name_or_mark (option_map (λ s. s.now) name.entry)) (values_words (names_in lowered.now) (value_views values.now))) }
{
    open_composed(out, name)?;
    push_values(out, lowered, values)?;
    out.push_str(")")
}

// Adds what stands before the values of a name.
fn open_composed(out: &mut String, name: Option<&str>) -> Result<(), AllocError>
    ensures { OnOk result (string_bytes out.new ≡ string_bytes out.old ++ (codes "(" ++ name_or_mark (option_map (λ s. s.now) name.entry))) }
{
    out.push_str("(")?;
    out.push_str(name_or_mark(name))
}

/// A name, or a question mark.
pub fn name_or_mark(name: Option<&str>) -> &str
    ensures { result.now ≡ name_or_mark (option_map (λ s. s.now) name.entry) }
{
    match name {
        Some(name) => name,
        None => "?",
    }
}

// Adds values, a space before each.
#[cycle(values)]
fn push_values(out: &mut String, lowered: &Lowered, values: &[Value]) -> Result<(), AllocError>
    ensures { OnOk result (string_bytes out.new ≡ string_bytes out.old ++ values_words (names_in lowered.now) (value_views values.now)) }
{
    for value in values {
        out.push_str(" ")?;
        push_value(out, lowered, value)?;
    }
    Ok(())
}

// Adds a number of a type: the constant that it stands for, an opaque value, or the number.
fn push_atom(
    out: &mut String,
    lowered: &Lowered,
    ty: TypeId,
    number: i128,
) -> Result<(), AllocError>
    ensures { OnOk result (string_bytes out.new ≡ string_bytes out.old ++ (names_in lowered.now).number ty.0 number) }
{
    match constant_name(lowered, ty, number) {
        Some(name) => write!(out, "${name}"),
        None if has_opaque_values(&lowered.tyenv, ty) => push_opaque(out, lowered, ty, number),
        None => write!(out, "{number}"),
    }
}

// The name of the constant of a type that a number stands for.
fn constant_name(lowered: &Lowered, ty: TypeId, number: i128) -> Option<&str>
    ensures { option_map (λ s. s.now) result ≡ constant_name (names_of lowered.now.tyenv) (constant_at lowered.now.tyenv) ty.0 number }
{
    let name = name_number(number)?;
    match lowered.tyenv.const_types.get(&name) {
        Some(other) if other.index() == ty.index() => sym_name(&lowered.tyenv, name),
        _ => None,
    }
}

// The name whose constant a number may stand for.
fn name_number(number: i128) -> Option<Sym>
    ensures { option_map (λ s. s.0) result ≡ name_number number }
{
    let place = number.checked_sub(constant_number(Sym(0)))?;
    match usize::try_from(place) {
        Ok(place) => Some(Sym(place)),
        Err(_) => None,
    }
}
