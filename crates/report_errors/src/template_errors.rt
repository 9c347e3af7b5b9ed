//! Errors that stand in the template of an internal extractor: the rule that uses it, and so has the error.

use crate::error_order::{place_of, why_of};
use core_syntax::syntax::{Def, Error, Extractor, Pos, Rule};
use core_why::Why;
use report_names::definitions::{definition_around, root_of};
use report_names::mentions::{MentionKind, Mentions};
use report_print::report::{Label, Report};
use std::alloc::{AllocError, Global};
use std::collections::BTreeMap;

// How many uses of a rule are looked at. Rules within the limits on expansions have fewer.
const MOST_USES: usize = 1 << 16;

/// A use of an internal extractor by a rule.
#[derive(Clone, Copy)]
pub(crate) struct TemplateUse<'a> {
    pub extractor: &'a Extractor,
    pub rule: &'a Rule,
    /// Where the rule uses it, or an extractor whose template does.
    pub pos: Pos,
    // Whether the rule's term is multi.
    is_multi: bool,
}

/// An error in a template: the use that it comes from, and what it says there.
#[derive(Clone, Copy)]
pub(crate) struct UseError<'a> {
    pub of: TemplateUse<'a>,
    // The first error that says the same of the same place.
    first: usize,
    // Whether it says that the extractor's term is multi, and the rule's isn't.
    is_of_multi: bool,
}

impl UseError<'_> {
    // Whether it says the same as another one of the same place: on multi terms for a rule of the same term.
    fn says_as(&self, other: &UseError<'_>) -> bool {
        let is_of_term = !self.is_of_multi || root_of(self.of.rule) == root_of(other.of.rule);
        self.first == other.first && is_of_term
    }
}

/// Of each error what it says in a template, if it stands in one. Nothing where none does.
///
/// The errors of rules stand in the order of the rules, and each use of an extractor has the errors of its template once more. So
/// the errors that say the same of one place are those of the uses, one by one; what says that a term is multi is said where the
/// rule's isn't. A use is counted once, also where it is the argument of a template that has it twice.
///
/// # Errors
///
/// Where memory is refused.
pub(crate) fn uses_behind<'a>(
    alloc: Global,
    defs: &'a [Def],
    errors: &[Error],
) -> Result<Vec<Option<UseError<'a>>>, AllocError> {
    let mut behind = Vec::new(alloc);
    if !errors
        .iter()
        .any(|error| template_of(defs, error).is_some())
    {
        return Ok(behind);
    }
    let uses = all_uses(alloc, defs)?;
    // of errors that say the same of one place the first, and how many there are so far
    let mut counts = BTreeMap::new(alloc);
    for (number, error) in errors.iter().enumerate() {
        let found = match (template_of(defs, error), place_of(error), why_of(error)) {
            (Some(extractor), Some(pos), Some(why)) => {
                let said = (pos, said_by(alloc, why)?);
                let (first, before) = counts.get(&said).copied().unwrap_or((number, 0usize));
                counts.insert(said, (first, before.saturating_add(1)))?;
                use_error(&uses, extractor, why, first, before)
            }
            _ => None,
        };
        behind.push(found)?;
    }
    Ok(behind)
}

// What an error says: the text, or the way of templates that name one another. That may be long, and isn't copied.
fn said_by(alloc: Global, why: &Why) -> Result<(String, &str), AllocError> {
    match why {
        Why::Recursion(way) => Ok((String::new(alloc), way.as_str())),
        _ => Ok((format!(in alloc; "{why}")?, "")),
    }
}

// The extractor in whose template an error stands.
fn template_of<'a>(defs: &'a [Def], error: &Error) -> Option<&'a Extractor> {
    let pos = place_of(error)?;
    match definition_around(defs, pos)? {
        Def::Extractor(extractor) if extractor.template.pos() <= pos => Some(extractor),
        _ => None,
    }
}

// All uses of internal extractors by rules.
fn all_uses<'a>(alloc: Global, defs: &'a [Def]) -> Result<Vec<TemplateUse<'a>>, AllocError> {
    let terms = TermTable::of(alloc, defs)?;
    let mut uses = Vec::new(alloc);
    for def in defs {
        if let Def::Rule(rule) = def {
            add_uses_of(alloc, &mut uses, &terms, rule, &Mentions::of(alloc, def)?)?;
        }
    }
    Ok(uses)
}

// What is looked up of terms: of several definitions of one the first.
struct TermTable<'a> {
    // Whether each declared term is multi.
    multi: BTreeMap<&'a str, bool>,
    // The internal extractors, each with the definition that it is.
    extractors: BTreeMap<&'a str, (&'a Def, &'a Extractor)>,
}

impl<'a> Drop for TermTable<'a> {
    fn drop(self) {
        let TermTable {
            multi: _,
            extractors: _,
        } = self;
    }
}

impl<'a> TermTable<'a> {
    fn of(alloc: Global, defs: &'a [Def]) -> Result<TermTable<'a>, AllocError> {
        let mut table = TermTable {
            multi: BTreeMap::new(alloc),
            extractors: BTreeMap::new(alloc),
        };
        // the first is put in last
        for def in defs.iter().rev() {
            match def {
                Def::Decl(decl) => {
                    table.multi.insert(decl.term.0.as_str(), decl.multi)?;
                }
                Def::Extractor(extractor) => {
                    table
                        .extractors
                        .insert(extractor.term.0.as_str(), (def, extractor))?;
                }
                _ => {}
            }
        }
        Ok(table)
    }

    fn is_multi(&self, term: &'a str) -> bool {
        self.multi.get(&term).copied().unwrap_or(false)
    }

    fn extractor(&self, term: &'a str) -> Option<(&'a Def, &'a Extractor)> {
        self.extractors.get(&term).copied()
    }
}

// Adds the uses by a rule: those in its patterns, each before those in the templates of what it uses.
fn add_uses_of<'a>(
    alloc: Global,
    uses: &mut Vec<TemplateUse<'a>>,
    terms: &TermTable<'a>,
    rule: &'a Rule,
    names: &Mentions<'a>,
) -> Result<(), AllocError> {
    let is_multi = terms.is_multi(root_of(rule));
    let mut waiting = Vec::new(alloc);
    add_terms(&mut waiting, names, None)?;
    // its own term is no extractor there
    let _root = waiting.pop();
    for _ in 0..MOST_USES {
        let Some((term, pos)) = waiting.pop() else {
            return Ok(());
        };
        if let Some((def, extractor)) = terms.extractor(term) {
            uses.push(TemplateUse {
                extractor,
                rule,
                pos,
                is_multi,
            })?;
            add_terms(&mut waiting, &Mentions::of(alloc, def)?, Some(pos))?;
        }
    }
    Ok(())
}

// Adds the terms of patterns, each with the place of its use, or of the use of the template that it stands in. The first is added
// last.
fn add_terms<'a>(
    waiting: &mut Vec<(&'a str, Pos)>,
    names: &Mentions<'a>,
    used_at: Option<Pos>,
) -> Result<(), AllocError> {
    for mention in names.names.iter().rev() {
        if mention.kind == MentionKind::Term && mention.in_pattern {
            waiting.push((mention.text(), used_at.unwrap_or(mention.form)))?;
        }
    }
    Ok(())
}

// What an error says of the use that it comes from: of those of its extractor as many are before it as there are errors like it.
fn use_error<'a>(
    uses: &[TemplateUse<'a>],
    extractor: &Extractor,
    why: &Why,
    first: usize,
    before: usize,
) -> Option<UseError<'a>> {
    let is_of_multi = why.is_of_multi();
    let of = uses
        .iter()
        .filter(|one| one.extractor.pos == extractor.pos && !(is_of_multi && one.is_multi))
        .nth(before)
        .copied()?;
    Some(UseError {
        of,
        first,
        is_of_multi,
    })
}

/// The first error that says the same as the one of a number, which stands in a template: of those on multi terms for a rule of the
/// same term.
pub(crate) fn first_like(uses: &[Option<UseError<'_>>], number: usize) -> Option<usize> {
    let own = use_at(uses, number)?;
    uses.iter().position(|other| match other {
        Some(other) => other.says_as(own),
        None => false,
    })
}

/// What the error of a number says in a template.
pub(crate) fn use_at<'u, 'a>(
    uses: &'u [Option<UseError<'a>>],
    number: usize,
) -> Option<&'u UseError<'a>> {
    match uses.get(number) {
        Some(Some(found)) => Some(found),
        _ => None,
    }
}

/// Adds to the report of an error in a template that it is one of a use of the extractor, whose place comes first then, and how many
/// more uses have it.
///
/// # Errors
///
/// Where memory is refused.
pub(crate) fn add_use(
    alloc: Global,
    report: &mut Report,
    found: &TemplateUse<'_>,
    more: usize,
) -> Result<(), AllocError> {
    let name = &found.extractor.term.0;
    write!(report.message, ", in the expansion of `{name}`")?;
    if let Some(label) = report.labels.get_mut(0) {
        label.text = String::from_str(alloc, "in its template")?;
    }
    let pos = found.pos;
    let text = String::new(alloc);
    report.labels.insert(0, Label { pos, text })?;
    if more > 0 {
        let ending = if more == 1 { " says" } else { "s say" };
        let text = format!(in alloc; "{more} more use{ending} the same")?;
        report.add_counted("note", text)?;
    }
    Ok(())
}
