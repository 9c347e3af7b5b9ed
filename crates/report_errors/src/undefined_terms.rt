//! The uses of a term that isn't defined, and those that nobody wrote.

use crate::error_order::{Order, place_of, why_of};
use core_syntax::syntax::{Def, Error, Pos};
use core_why::{Why, Wrong};
use report_names::definitions::definition_around;
use report_names::mentions::Mentions;
use report_print::report::Report;
use std::alloc::{AllocError, Global};

/// Adds to the report of a term that isn't defined how many rules use it, and where the first one does: what is told with the
/// error of this number.
pub fn add_uses(
    alloc: Global,
    report: &mut Report,
    defs: &[Def],
    errors: &[Error],
    order: &Order,
    number: usize,
) -> Result<(), AllocError> {
    let Some(error) = errors.get(number) else {
        return Ok(());
    };
    let Some(Why::Named(term, Wrong::Undefined)) = why_of(error) else {
        return Ok(());
    };
    let places = places_told_with(alloc, errors, order, number)?;
    let Some(first) = places.first() else {
        return Ok(());
    };
    let names = Mentions::around(alloc, defs, *first)?;
    let text = if is_put_in(defs, &names, *first, term) {
        "a conversion puts it in here"
    } else {
        "used here"
    };
    report.add_new_label(*first, String::from_str(alloc, text)?)?;
    let users = users_of(alloc, defs, &places)?;
    let count = users.len();
    let word = word_for(&users);
    let ending = if count == 1 { "" } else { "s" };
    let text = format!(in alloc; "used by {count} {word}{ending}")?;
    report.add_counted("note", text)
}

/// Whether a term is used at a place where nobody wrote it: a conversion puts it in.
pub(crate) fn is_put_in(defs: &[Def], names: &Mentions<'_>, pos: Pos, term: &str) -> bool {
    match names.at(pos) {
        Some(mention) if mention.text() == term => false,
        _ => defs.iter().any(|def| is_conversion_by(def, term)),
    }
}

fn is_conversion_by(def: &Def, term: &str) -> bool {
    match def {
        Def::Converter(converter) => converter.term.0.as_str() == term,
        _ => false,
    }
}

// The places of the errors that are told with one.
fn places_told_with(
    alloc: Global,
    errors: &[Error],
    order: &Order,
    number: usize,
) -> Result<Vec<Pos>, AllocError> {
    let mut places = Vec::new(alloc);
    for (other, (error, leader)) in errors.iter().zip(&order.leaders).enumerate() {
        if *leader == number && other != number {
            if let Some(place) = place_of(error) {
                places.push(place)?;
            }
        }
    }
    Ok(places)
}

// The definitions that places lie in, each once.
fn users_of<'a>(
    alloc: Global,
    defs: &'a [Def],
    places: &[Pos],
) -> Result<Vec<&'a Def>, AllocError> {
    let mut users = Vec::new(alloc);
    for place in places {
        if let Some(def) = definition_around(defs, *place) {
            if !has(&users, def) {
                users.push(def)?;
            }
        }
    }
    Ok(users)
}

// Whether a definition is among these, by its position.
fn has(users: &[&Def], def: &Def) -> bool {
    users.iter().any(|user| user.place() == def.place())
}

// What definitions are called.
fn word_for(users: &[&Def]) -> &'static str {
    if users.iter().all(|user| is_rule(user)) {
        "rule"
    } else {
        "definition"
    }
}

fn is_rule(def: &Def) -> bool {
    matches!(def, Def::Rule(_))
}
