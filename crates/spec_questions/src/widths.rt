//! The widths at which a question is asked, and those at which none is.

use crate::asking::Asker;
use crate::faults::NoQuestion;
use crate::questions::{LeftOut, Question};
use crate::shown::{Held, Named, widths_of};
use core_rule_sets::trie_again::Binding;
use core_types::TermId;
use report_queries::names::term_name;
use spec_calls::conditions::Condition;
use spec_cases::arena::Formulas;
use spec_cases::faults::Fault;
use spec_cases::formulas::{Fact, Place, PlaceId};
use std::alloc::{AllocError, Global};

// The name of an argument.
fn argument_name(alloc: Global, place: usize) -> Result<String, AllocError> {
    format!(in alloc; "arg{place}")
}

/// The widths that facts tell: those of arguments first.
pub(crate) fn told_widths(
    formulas: &Formulas,
    asker: Asker<'_>,
    condition: &Condition,
    named: &Named,
    facts: &[Fact],
) -> Result<Vec<(String, usize)>, NoQuestion> {
    let mut arguments = Vec::new(asker.alloc);
    let mut others = Vec::new(asker.alloc);
    for fact in facts {
        if let Fact::AsWide(place, width) = fact {
            let width = *width as usize;
            match formulas.layer_at(*place)? {
                Place::Argument { index } => {
                    add_width(argument_name(asker.alloc, index)?, width, &mut arguments)?
                }
                layer => {
                    let name = name_at(formulas, asker, condition, named, *place, layer)?;
                    add_width(name, width, &mut others)?
                }
            }
        }
    }
    for (name, width) in others {
        arguments.push((name, width))?;
    }
    Ok(arguments)
}

// Adds a width, unless one is told by this name.
fn add_width(
    name: String,
    width: usize,
    widths: &mut Vec<(String, usize)>,
) -> Result<(), AllocError> {
    let is_known = widths
        .iter()
        .any(|(known, _)| known.as_str() == name.as_str());
    if !is_known {
        widths.push((name, width))?;
    }
    Ok(())
}

// What stands at a place that is no argument: a variable, or what a call gives.
fn name_at(
    formulas: &Formulas,
    asker: Asker<'_>,
    condition: &Condition,
    named: &Named,
    place: PlaceId,
    layer: Place,
) -> Result<String, NoQuestion> {
    if let Some(name) = variable_at(formulas, named, place)? {
        return Ok(String::from_str(asker.alloc, name)?);
    }
    let site = match layer {
        Place::Site { site } | Place::Output { site, .. } => site,
        Place::Argument { .. } | Place::VariantField { .. } | Place::StructField { .. } => {
            return Ok(String::from_str(asker.alloc, "a field")?);
        }
    };
    Ok(String::from_str(asker.alloc, called_at(asker, condition, site))?)
}

// The variable that holds what stands at a place.
fn variable_at<'n>(
    formulas: &Formulas,
    named: &'n Named,
    place: PlaceId,
) -> Result<Option<&'n str>, Fault> {
    for (name, held) in &named.variables {
        if let Held::AnyWord(known) = held {
            if formulas.same_place(*known, place)? {
                return Ok(Some(name.as_str()));
            }
        }
    }
    Ok(None)
}

// The name of the term that a site calls.
fn called_at<'a>(asker: Asker<'a>, condition: &Condition, site: u32) -> &'a str {
    let lowered = asker.lowered;
    let name = match condition.bindings.get(site as usize) {
        Some(Binding::Constructor { term, .. } | Binding::Extractor { term, .. }) => {
            term_name(&lowered.tyenv, &lowered.termenv, *term)
        }
        _ => None,
    };
    name.unwrap_or("a value")
}

/// The widths of arguments that no question is asked at: no call takes the rule there.
pub(crate) fn never_taken(
    asker: Asker<'_>,
    term: TermId,
    questions: &[Question],
) -> Result<Vec<LeftOut>, AllocError> {
    let mut left_out = Vec::new(asker.alloc);
    if let Some(known) = asker.lowered.termenv.terms.get(term.index()) {
        for (place, ty) in known.arg_tys.iter().enumerate() {
            let widths = widths_of(&asker.known.data.sorts, *ty);
            add_never_taken(asker.alloc, place, widths, questions, &mut left_out)?;
        }
    }
    Ok(left_out)
}

// Adds the widths of an argument that no question is asked at.
fn add_never_taken(
    alloc: Global,
    place: usize,
    widths: &[u32],
    questions: &[Question],
    left_out: &mut Vec<LeftOut>,
) -> Result<(), AllocError> {
    for width in widths {
        let name = argument_name(alloc, place)?;
        let width = *width as usize;
        if !is_asked_at(questions, &name, width) {
            let mut widths = Vec::new(alloc);
            widths.push((name, width))?;
            left_out.push(LeftOut { widths })?;
        }
    }
    Ok(())
}

// Whether a question is asked where a value is so wide, or at any width of it.
fn is_asked_at(questions: &[Question], name: &str, width: usize) -> bool {
    for question in questions {
        match width_of(&question.widths, name) {
            Some(known) if known != width => {}
            _ => return true,
        }
    }
    false
}

// How wide a value is, by its name.
fn width_of(widths: &[(String, usize)], name: &str) -> Option<usize> {
    for (known, width) in widths {
        if known.as_str() == name {
            return Some(*width);
        }
    }
    None
}
