//! The declaration of a term that isn't known, by what is known of it where it is used.

use crate::reports::Told;
use core_syntax::syntax::{Def, Extern, Ident, Pos};
use report_names::definitions::{constant_of, definition_around, result_of, root_of};
use report_names::mentions::{LiteralValue, Mention, MentionKind, Need, type_needed};
use report_print::report::{Place, Report};
use std::alloc::{AllocError, Global};
use std::slice;

// A part of a declaration.
#[derive(Clone, Copy, PartialEq, Eq)]
enum Part {
    // The type of the argument of this place, counted from 0.
    Argument(usize),
    // The type of what the term gives.
    Result,
}

/// The terms that are declared, each with its first declaration, those that rules and functions outside make, and those that
/// extractors and functions outside take apart, each in order.
pub(crate) struct KnownTerms<'a> {
    declared: Vec<(&'a str, &'a Def)>,
    made: Vec<&'a str>,
    taken_apart: Vec<&'a str>,
}

impl<'a> Drop for KnownTerms<'a> {
    fn drop(self) {
        let KnownTerms {
            declared: _,
            made: _,
            taken_apart: _,
        } = self;
    }
}

impl<'a> KnownTerms<'a> {
    pub(crate) fn of(alloc: Global, defs: &'a [Def]) -> Result<KnownTerms<'a>, AllocError> {
        let mut terms = KnownTerms {
            declared: Vec::new(alloc),
            made: Vec::new(alloc),
            taken_apart: Vec::new(alloc),
        };
        for def in defs {
            terms.add(def)?;
        }
        terms.declared.sort_by_key(|declared| declared.0)?;
        terms.declared.dedup_by_key(|declared| declared.0);
        terms.made.sort()?;
        terms.taken_apart.sort()?;
        Ok(terms)
    }

    fn add(&mut self, def: &'a Def) -> Result<(), AllocError> {
        match def {
            Def::Decl(decl) => self.declared.push((&decl.term.0, def))?,
            Def::Rule(rule) => self.made.push(root_of(rule))?,
            Def::Extern(Extern::Constructor { term, .. }) => self.made.push(&term.0)?,
            Def::Extractor(extractor) => self.taken_apart.push(&extractor.term.0)?,
            Def::Extern(Extern::Extractor { term, .. }) => self.taken_apart.push(&term.0)?,
            _ => {}
        }
        Ok(())
    }

    // The definition that declares a term.
    fn declaration_of(&self, term: &str) -> Option<&'a Def> {
        let place = self
            .declared
            .binary_search_by(|declared| declared.0.cmp(term))
            .ok()?;
        Some(self.declared.get(place)?.1)
    }

    // Whether a rule or a function outside makes a term.
    fn make(&self, term: &str) -> bool {
        self.made.binary_search_by(|made| (*made).cmp(term)).is_ok()
    }

    // Whether an extractor or a function outside takes a term apart.
    fn take_apart(&self, term: &str) -> bool {
        self.taken_apart
            .binary_search_by(|taken| (*taken).cmp(term))
            .is_ok()
    }
}

/// Adds the fix that declares a term which isn't known, before the rule or the extractor that uses it: with the types that are known
/// there, and with names that say what they are of for the others. A term that nothing makes or takes apart, and that is used so,
/// is made or taken apart outside. A name with a dot is a variant's, and isn't declared.
pub(crate) fn add_declaration(
    told: &Told<'_>,
    report: &mut Report,
    term: &str,
    pos: Pos,
) -> Result<(), AllocError> {
    let Some(def) = definition_around(told.defs, pos) else {
        return Ok(());
    };
    let Some(place) = place_of_user(def) else {
        return Ok(());
    };
    let Some(used) = told
        .names
        .names
        .iter()
        .find(|mention| is_use_of(mention, term))
    else {
        return Ok(());
    };
    if term.contains('.') {
        return Ok(());
    }
    let mut text = String::new(told.alloc);
    push_declaration(told, def, (term, used.count), &mut text)?;
    push_sides(told, def, term, &mut text)?;
    let title = format!(in told.alloc; "Declare `{term}`")?;
    report.add_fix(title, Place::Before(place), text)
}

// Where a rule or an extractor begins.
fn place_of_user(def: &Def) -> Option<Pos> {
    match def {
        Def::Rule(rule) => Some(rule.pos),
        Def::Extractor(extractor) => Some(extractor.pos),
        _ => None,
    }
}

fn is_use_of(mention: &Mention<'_>, term: &str) -> bool {
    mention.kind == MentionKind::Term && mention.text() == term
}

// Adds the declaration of a term with so many arguments.
fn push_declaration(
    told: &Told<'_>,
    def: &Def,
    (term, count): (&str, usize),
    out: &mut String,
) -> Result<(), AllocError> {
    out.push_str("(decl ")?;
    if !told.defined.terms.make(term) && is_in_condition(told, def, term) {
        out.push_str("pure ")?;
    }
    out.push_str(term)?;
    out.push_str(" (")?;
    for number in 0..count {
        if number > 0 {
            out.push(' ')?;
        }
        match type_of_part(told, term, Part::Argument(number)) {
            Some(ty) => out.push_str(ty)?,
            None => {
                let place = number.saturating_add(1);
                write!(out, "type_of_argument_{place}")?;
            }
        }
    }
    let result = type_of_part(told, term, Part::Result).unwrap_or("type_of_result");
    write!(out, ") {result})\n")
}

// Adds who makes a term and takes it apart, where a definition needs it and no other one says it.
fn push_sides(told: &Told<'_>, def: &Def, term: &str, out: &mut String) -> Result<(), AllocError> {
    let uses = &told.names.names;
    if !told.defined.terms.make(term)
        && uses.iter().any(|mention| is_use_of(mention, term)
            && !mention.in_pattern
            && !is_head(def, mention))
    {
        write!(out, "(extern constructor {term} {term})\n")?;
    }
    if !told.defined.terms.take_apart(term)
        && uses.iter().any(|mention| is_use_of(mention, term)
            && mention.in_pattern
            && !is_head(def, mention))
    {
        write!(out, "(extern extractor {term} {term}_parts)\n")?;
    }
    Ok(())
}

// Whether a name is that of the term that a rule or an extractor is of.
fn is_head(def: &Def, mention: &Mention<'_>) -> bool {
    match def {
        Def::Rule(rule) => match rule.pattern.root_term() {
            Some(root) => root.1 == mention.name.1,
            None => false,
        },
        Def::Extractor(extractor) => extractor.term.1 == mention.name.1,
        _ => false,
    }
}

// Whether a condition of a rule makes a term.
fn is_in_condition(told: &Told<'_>, def: &Def, term: &str) -> bool {
    let Def::Rule(rule) = def else {
        return false;
    };
    let end = rule.expr.pos();
    told.names.names.iter().any(|mention| is_use_of(mention, term)
        && !mention.in_pattern
        && mention.form < end)
}

// The name of a type of a term's declaration, by the forms that stand for it.
fn type_of_part<'a>(told: &Told<'a>, term: &str, part: Part) -> Option<&'a str> {
    for mention in &told.names.names {
        if let Some(ty) = type_by(told, mention, term, part) {
            return Some(ty);
        }
    }
    if told.names.literals.iter().any(|literal| is_for(literal.need, term, part)
        && is_truth(literal.value))
    {
        return Some("bool");
    }
    None
}

fn is_truth(value: LiteralValue) -> bool {
    matches!(value, LiteralValue::Truth(_))
}

// The type that a name says a part of a term has: what is needed where the term stands, and the type of what stands for the part.
fn type_by<'a>(told: &Told<'a>, mention: &Mention<'a>, term: &str, part: Part) -> Option<&'a str> {
    if part == Part::Result && is_use_of(mention, term) {
        return text_of(type_by_need(told, mention.need));
    }
    if !is_for(mention.need, term, part) {
        return None;
    }
    match mention.kind {
        MentionKind::Term => {
            let defs = definitions_of(told, mention.text());
            text_of(result_of(defs, mention.text()))
        }
        MentionKind::Constant => match constant_of(told.defs, mention.text())? {
            Extern::Const { ty, .. } => Some(ty.0.as_str()),
            _ => None,
        },
        MentionKind::Variable => type_of_variable(told, mention.home.1),
        _ => None,
    }
}

// The type that is needed, where it is written.
fn type_by_need<'a>(told: &Told<'a>, need: Need<'a>) -> Option<&'a Ident> {
    let defs = match need {
        Need::Argument(term, _) | Need::Parameter(term, _) => definitions_of(told, term),
        Need::Answer(term) | Need::Given(term, _) => definitions_of(told, term),
        Need::Nothing | Need::Binding(_) => told.defs,
    };
    type_needed(defs, need)
}

// The definitions that tell the types of a term: its declaration, or where it has none all.
fn definitions_of<'a>(told: &Told<'a>, term: &str) -> &'a [Def] {
    match told.defined.terms.declaration_of(term) {
        Some(def) => slice::from_ref(def),
        None => told.defs,
    }
}

// Whether what is needed is a part of a term.
fn is_for(need: Need<'_>, term: &str, part: Part) -> bool {
    match need {
        Need::Argument(name, place) | Need::Parameter(name, place) => {
            part == Part::Argument(place) && name == term
        }
        Need::Answer(name) | Need::Given(name, _) => part == Part::Result && name == term,
        Need::Nothing | Need::Binding(_) => false,
    }
}

// The type of the variable that is bound at a place, by where its name stands.
fn type_of_variable<'a>(told: &Told<'a>, home: Pos) -> Option<&'a str> {
    for mention in &told.names.names {
        if mention.kind == MentionKind::Variable && mention.home.1 == home {
            if let Some(ty) = type_by_need(told, mention.need) {
                return Some(ty.0.as_str());
            }
        }
    }
    None
}

fn text_of(name: Option<&Ident>) -> Option<&str> {
    match name {
        Some(name) => Some(name.0.as_str()),
        None => None,
    }
}
