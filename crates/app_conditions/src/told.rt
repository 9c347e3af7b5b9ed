//! A single question: its text for a solver, and the values that a solver gave, in the words of its rule.

use crate::calls::Given;
use cranelift_isle::lower::Lowered;
use cranelift_isle::sema::{ExtractorKind, RuleId, TermId, TermKind};
use cranelift_isle::syntax::{Ident, Pattern, Pos};
use report_print::lines::{FileLines, file_name};
use report_queries::names::{rule_name, term_name};
use spec_questions::questions::Question;
use spec_questions::shown::ShownQuestion;
use std::alloc::{AllocError, Global};
use text_reader::syntax::VerificationForm;

/// The text of a question as a solver reads it, with its formulas and its constants behind it, whose values are asked for.
pub(crate) fn text_for_solver(
    alloc: Global,
    text: &str,
    shown: &ShownQuestion,
) -> Result<String, AllocError> {
    let mut all = String::from_str(alloc, text)?;
    if count_of_values(shown) == 0 {
        return Ok(all);
    }
    all.push_str("(get-value (")?;
    let mut is_first = true;
    for (_, formula) in &shown.values {
        push_formula(&mut all, &mut is_first, formula)?;
    }
    for (name, _) in &shown.names {
        push_formula(&mut all, &mut is_first, name)?;
    }
    all.push_str("))\n")?;
    Ok(all)
}

// Adds a formula behind others.
fn push_formula(out: &mut String, is_first: &mut bool, formula: &str) -> Result<(), AllocError> {
    if !*is_first {
        out.push(' ')?;
    }
    *is_first = false;
    out.push_str(formula)
}

/// How many values are asked for behind a question.
pub(crate) fn count_of_values(shown: &ShownQuestion) -> usize {
    shown.values.len().saturating_add(shown.names.len())
}

/// Adds what values show that are given for a question about a rule of a term: of its variables and its result, of what is to be
/// shown, and of a call.
pub(crate) fn push_given(
    teller: Teller<'_, '_>,
    out: &mut String,
    term: TermId,
    question: &Question,
    shown: &ShownQuestion,
    given: &[String],
) -> Result<(), AllocError> {
    let count = shown.values.len();
    push_values(out, &shown.values, given.get(..count).unwrap_or(&[]))?;
    push_failed(teller, out, question)?;
    let constants = Given {
        names: &shown.names,
        values: given.get(count..).unwrap_or(&[]),
    };
    teller.push_call(out, term, constants)
}

// Adds where a spec says what isn't so.
fn push_failed(
    teller: Teller<'_, '_>,
    out: &mut String,
    question: &Question,
) -> Result<(), AllocError> {
    match question.goal {
        Some(pos) => {
            out.push_str("; what ")?;
            teller.push_place(out, pos)?;
            out.push_str(" says isn't so")
        }
        None => Ok(()),
    }
}

/// How rules are told.
#[derive(Clone, Copy)]
pub(crate) struct Teller<'a, 'f> {
    pub(crate) alloc: Global,
    pub(crate) lines: &'a FileLines<'f>,
    pub(crate) lowered: &'a Lowered,
}

impl<'a, 'f> Teller<'a, 'f> {
    /// Adds which rule this is.
    pub(crate) fn push_rule(
        self,
        out: &mut String,
        rule: RuleId,
        pos: Pos,
        term: TermId,
    ) -> Result<(), AllocError> {
        let (tyenv, termenv) = (&self.lowered.tyenv, &self.lowered.termenv);
        let term = term_name(tyenv, termenv, term).unwrap_or("_");
        out.push_str("rule ")?;
        match rule_name(tyenv, termenv, rule) {
            Some(name) if name != term => write!(out, "{name} ")?,
            _ => {}
        }
        out.push_str("at ")?;
        self.push_place(out, pos)?;
        write!(out, " of {term}")
    }

    /// Adds the file and the line of a place.
    pub(crate) fn push_place(self, out: &mut String, pos: Pos) -> Result<(), AllocError> {
        let file = file_name(self.lines.files(), pos.file);
        let number = self.lines.place(pos).line;
        write!(out, "{file}:{number}")
    }

    /// Adds a line where one of these lists is a spec of an internal extractor that isn't used.
    pub(crate) fn push_if_unused(
        self,
        out: &mut String,
        form: &VerificationForm,
        forms: &[VerificationForm],
    ) -> Result<(), AllocError> {
        match form {
            VerificationForm::Spec(said) if is_replaced(self.lowered, &said.term, forms) => {
                let name = &said.term.0;
                write!(out, "warning: the spec of `{name}` at ")?;
                self.push_place(out, said.term.1)?;
                out.push_str(
                    " isn't used: the extractor that its template calls has one of its own\n",
                )
            }
            _ => Ok(()),
        }
    }
}

// Whether a term of this name is an internal extractor, and no constructor, and questions speak of what its template calls by another
// one of these specs.
fn is_replaced(lowered: &Lowered, name: &Ident, forms: &[VerificationForm]) -> bool {
    match template_of(lowered, name) {
        Some(Pattern::Term { sym, .. }) => {
            template_of(lowered, sym).is_none() && forms.iter().any(|form| is_spec_of(form, sym))
        }
        _ => false,
    }
}

// The template of a term of this name that is an internal extractor, and no constructor.
fn template_of<'a>(lowered: &'a Lowered, name: &Ident) -> Option<&'a Pattern> {
    for term in &lowered.termenv.terms {
        if lowered.tyenv.text_of(term.name) == name.0.as_str() {
            return match &term.kind {
                TermKind::Decl {
                    constructor_kind: None,
                    extractor_kind: Some(ExtractorKind::InternalExtractor { template }),
                    ..
                } => Some(template),
                _ => None,
            };
        }
    }
    None
}

// Whether a list is a spec of a term of this name.
fn is_spec_of(form: &VerificationForm, name: &Ident) -> bool {
    match form {
        VerificationForm::Spec(said) => said.term.0.as_str() == name.0.as_str(),
        _ => false,
    }
}

// Adds the values of a rule's variables, what it gives, and what its spec wants.
fn push_values(
    out: &mut String,
    rows: &[(String, String)],
    values: &[String],
) -> Result<(), AllocError> {
    let result = place_of_result(rows);
    push_variables(out, rows, values, result)?;
    let Some(given) = values.get(result) else {
        return Ok(());
    };
    write!(out, ": gives {given}")?;
    push_wanted(
        out,
        given,
        values.get(result.saturating_add(1)..).unwrap_or(&[]),
    )
}

// Adds what the spec wants in place of what a rule gives, of what it wants by itself. Where that is given, something else fails.
fn push_wanted(out: &mut String, given: &str, wanted: &[String]) -> Result<(), AllocError> {
    match other_than(given, wanted) {
        Some(other) => write!(out, ", the spec wants {other}"),
        None if wanted.is_empty() => Ok(()),
        None => out.push_str(", which isn't all that is wanted"),
    }
}

// The first value that isn't the one that is given.
fn other_than<'v>(given: &str, values: &'v [String]) -> Option<&'v str> {
    for value in values {
        if value.as_str() != given {
            return Some(value.as_str());
        }
    }
    None
}

// Which row is the result: the last that is called so, since a variable may be called so too. Behind it is what the spec wants.
fn place_of_result(rows: &[(String, String)]) -> usize {
    let mut found = rows.len();
    for (place, (name, _)) in rows.iter().enumerate() {
        if name.as_str() == "result" {
            found = place;
        }
    }
    found
}

// Adds the values of the variables, which are so many rows.
fn push_variables(
    out: &mut String,
    rows: &[(String, String)],
    values: &[String],
    count: usize,
) -> Result<(), AllocError> {
    for (place, ((name, _), value)) in rows.iter().zip(values).take(count).enumerate() {
        out.push_str(if place == 0 { ", where " } else { ", " })?;
        write!(out, "{name} is {value}")?;
    }
    Ok(())
}
