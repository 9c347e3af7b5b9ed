//! The reports of type errors.

use crate::declarations::add_declaration;
use crate::mismatches::add_types;
use crate::repeats::other_places;
use crate::undefined_terms::is_put_in;
use crate::unknown::{DefinedNames, add_question, unknown_in};
use core_syntax::syntax::{Def, Ident, Pos};
use core_why::{NameKind, Typed, Why, Wrong};
use report_names::definitions::{
    constants_of, definition_around, place_of_template, place_of_term, subject_of,
};
use report_names::meanings::meant_by;
use report_names::mentions::Mentions;
use report_print::report::{Level, Report};
use std::alloc::{AllocError, Global};

// How many extractors of a cycle are shown.
const MOST_EXTRACTORS: usize = 5;

/// A type error, and the names of the definition that it stands in.
pub(crate) struct Told<'a> {
    pub alloc: Global,
    pub defs: &'a [Def],
    pub why: &'a Why,
    pub pos: Pos,
    pub names: Mentions<'a>,
    // The names that may be meant in place of one that isn't known.
    pub defined: &'a DefinedNames<'a>,
}

impl<'a> Drop for Told<'a> {
    fn drop(self) {
        let Told {
            alloc: _,
            defs: _,
            why: _,
            pos: _,
            names: _,
            defined: _,
        } = self;
    }
}

impl<'a> Told<'a> {
    /// The name that the error speaks of: at the beginning of a definition the term that it is of, or a constant's type; else the
    /// name of the form there.
    pub(crate) fn subject(&self) -> Option<&'a Ident> {
        match definition_around(self.defs, self.pos)? {
            Def::Rule(rule) if rule.pos == self.pos => rule.pattern.root_term(),
            Def::Extractor(extractor) if extractor.pos == self.pos => Some(&extractor.term),
            Def::Extern(external) => Some(subject_of(external)),
            _ => Some(self.names.at(self.pos)?.name),
        }
    }

    /// Where a name stands: in the form at the place, or the place itself.
    pub(crate) fn place_of(&self, name: &str) -> Pos {
        match self.subject() {
            Some(subject) if subject.0.as_str() == name => subject.1,
            _ => self.pos,
        }
    }
}

/// The report of a type error at a place: in its words, with the names that they lack. If it is explained, too, with the
/// other places that it speaks of, and the names that may be meant in place of an unknown one.
///
/// # Errors
///
/// Where memory is refused.
pub(crate) fn report_of<'a>(
    alloc: Global,
    defs: &'a [Def],
    defined: &'a DefinedNames<'a>,
    why: &'a Why,
    pos: Pos,
    is_explained: bool,
) -> Result<Report, AllocError> {
    let told = Told {
        alloc,
        defs,
        why,
        pos,
        names: Mentions::around(alloc, defs, pos)?,
        defined,
    };
    let mut message = worded(alloc, why)?;
    let term = why.term();
    if let Some(term) = term {
        if is_put_in(defs, &told.names, pos, term) {
            message.push_str(" (a conversion puts it in here)")?;
        }
    }
    let mut report = Report::new(alloc, Level::Error, "type", message);
    report.code = why.code();
    report.add_label(pos, String::new(alloc))?;
    if is_explained {
        add_repeats(&told, &mut report)?;
        add_term(&told, &mut report, term)?;
        add_types(&told, &mut report)?;
        add_cycle(&told, &mut report)?;
        add_meant(&told, &mut report)?;
    }
    Ok(report)
}

// The words of an error, with the name that they lack, and with the sign of a constant.
fn worded(alloc: Global, why: &Why) -> Result<String, AllocError> {
    match why {
        Why::Named(name, wrong) => match around_name(*wrong) {
            Some((before, behind)) => format!(in alloc; "{before}{name}{behind}"),
            None => format!(in alloc; "{why}"),
        },
        Why::Mismatch {
            what: Typed::MatchedConstant,
            name,
            ..
        } => format!(in alloc; "Type mismatch for constant '${name}'"),
        Why::Mismatch {
            what: Typed::Constant,
            name,
            want,
            has,
        } => {
            format!(in alloc;
                "Constant '${name}' has wrong type: expected {want}, but is actually {has}"
            )
        }
        _ => format!(in alloc; "{why}"),
    }
}

// What stands before and behind a name that upstream's words lack.
fn around_name(wrong: Wrong) -> Option<(&'static str, &'static str)> {
    Some(match wrong {
        Wrong::UnknownConstant => ("Unknown constant '$", "'"),
        Wrong::UnknownConstantType => ("Unknown type '", "' for constant"),
        Wrong::UndeclaredRoot => ("Rule LHS root term '", "' is not defined"),
        Wrong::UndeclaredTemplate => {
            (
                "Extractor macro body definition on a non-existent term '",
                "'",
            )
        }
        Wrong::ConstructorTwice => ("Duplicate external constructor definition for '", "'"),
        Wrong::ExtractorTwice => ("Duplicate external extractor definition for '", "'"),
        Wrong::TemplateTwice => ("Duplicate extractor definition for '", "'"),
        _ => return None,
    })
}

// Adds the other places of what is defined more than once.
fn add_repeats(told: &Told<'_>, report: &mut Report) -> Result<(), AllocError> {
    let text = match told.why.named() {
        Some((_, Wrong::ConstructorOfRules)) => "has this rule",
        _ => "also defined here",
    };
    for place in &other_places(told)? {
        report.add_new_label(*place, String::from_str(told.alloc, text)?)?;
    }
    Ok(())
}

// Adds where the term is defined that an error is of.
fn add_term(told: &Told<'_>, report: &mut Report, term: Option<&str>) -> Result<(), AllocError> {
    let Some(term) = term else {
        return Ok(());
    };
    if let Some(place) = place_of_term(told.defs, term) {
        let text = format!(in told.alloc; "`{term}` is declared here")?;
        report.add_new_label(place, text)?;
    }
    Ok(())
}

// Adds where the other extractors of a cycle are defined: a few of them.
fn add_cycle(told: &Told<'_>, report: &mut Report) -> Result<(), AllocError> {
    let Why::Recursion(way) = told.why else {
        return Ok(());
    };
    for name in way.split(' ').take(MOST_EXTRACTORS) {
        if let Some(place) = place_of_template(told.defs, name) {
            let text = format!(in told.alloc; "`{name}` is defined here")?;
            report.add_new_label(place, text)?;
        }
    }
    Ok(())
}

// Adds what may be meant: by a variable that looks like something else, or by a name that isn't known.
fn add_meant(told: &Told<'_>, report: &mut Report) -> Result<(), AllocError> {
    if let Some(mention) = told.names.at(told.pos) {
        let constants = constants_of(told.alloc, told.defs)?;
        if let Some(meant) = meant_by(told.alloc, told.defs, &constants, mention)? {
            return meant.add_to(report, mention);
        }
    }
    match unknown_in(told) {
        Some(unknown) => {
            add_question(told, report, unknown)?;
            match unknown.kind {
                NameKind::Term | NameKind::Declared => {
                    add_declaration(told, report, unknown.name, unknown.pos)
                }
                NameKind::Type | NameKind::Constant | NameKind::Variable => Ok(()),
            }
        }
        None => Ok(()),
    }
}
