//! What is known of the trees of a text's terms, as text.

ghost use Rattle.std.specs.Prelude.{true};
ghost use Rattle.cranelift_isle.specs.Lowerings.{IsLowered};
ghost use Rattle.cranelift_isle.specs.SyntaxViews.{definition_views};

use crate::verified::{runs_always, runs_where_apart};
use cranelift_isle::lower::{Lowered, lower};
use cranelift_isle::syntax::{Def, Fault};
use report_queries::answers::TreesOrErrors;
use report_queries::answers_texts::syntax_error_line;
use report_queries::names::term_name;
use report_queries::texts::{Places, error_lines};
use std::alloc::{AllocError, Global};
use text_reader::errors::ReadFault;
use text_reader::read;

/// A line for each term of a text's definitions, or one line for each error.
pub fn answer(alloc: Global, text: &str) -> Result<TreesOrErrors, AllocError> {
    match read(alloc, 0, text) {
        Ok(defs) => answer_to_defs(alloc, text, &defs),
        Err(ReadFault::Text(error)) => Ok(TreesOrErrors::Errors(syntax_error_line(
            alloc, text, &error,
        )?)),
        Err(ReadFault::Memory(error)) => Err(error),
    }
}

// A line for each term of definitions, or one line for each error.
fn answer_to_defs(alloc: Global, text: &str, defs: &[Def]) -> Result<TreesOrErrors, AllocError> {
    match lower(alloc, defs, true) {
        Ok(lowered) => Ok(TreesOrErrors::Trees(verdicts(alloc, defs, &lowered)?)),
        Err(Fault::Errors(errors)) => {
            let lines = error_lines(alloc, &errors, Places::Lines(text))?;
            Ok(TreesOrErrors::Errors(lines))
        }
        Err(Fault::Memory(error)) => Err(error),
    }
}

// A line for each term.
fn verdicts(alloc: Global, defs: &[Def], lowered: &Lowered) -> Result<String, AllocError>
    requires { IsLowered (definition_views defs.now) true lowered.now }
{
    let mut out = String::new(alloc);
    for (place, term) in lowered.terms.iter().enumerate() {
        let name = term_name(&lowered.tyenv, &lowered.termenv, term.id);
        out.push_str(name.unwrap_or("_"))?;
        out.push_str(verdict(defs, lowered, place))?;
    }
    Ok(out)
}

// What is known of the tree at a place.
fn verdict(defs: &[Def], lowered: &Lowered, place: usize) -> &'static str
    requires { IsLowered (definition_views defs.now) true lowered.now }
{
    if runs_always(defs, true, lowered, place).is_some() {
        ": runs as the chosen rule\n"
    } else if runs_where_apart(defs, true, lowered, place).is_some() {
        ": runs as the chosen rule, where different constants have different values\n"
    } else {
        ": is multi\n"
    }
}
