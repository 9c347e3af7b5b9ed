//! Rules that can't match because no value matches an internal extractor that they use.

use crate::conflicts::RuleConflicts;
use crate::diagnosis::add_form;
use cranelift_isle::syntax::{Def, Error, Rule};
use report_names::names::rule_at;
use report_names::rule_notes::add_help;
use report_print::report::{Level, Report};
use report_witness::extractors::Extractors;
use report_witness::templates::{Impossible, cause_in, count_users, impossible_in};
use std::alloc::{AllocError, Global};

/// The internal extractors that no value matches, and the errors that say no more than this.
pub(crate) struct Templates<'a> {
    impossible: Vec<Impossible<'a>>,
    // Of each error the number of the extractor that it is told with, if there is one.
    causes: Vec<Option<usize>>,
}

impl<'a> Drop for Templates<'a> {
    fn drop(self) {
        let Templates {
            impossible: _,
            causes: _,
        } = self;
    }
}

impl<'a> Templates<'a> {
    /// No error is told with an extractor.
    pub(crate) fn none(alloc: Global) -> Templates<'a> {
        Templates {
            impossible: Vec::new(alloc),
            causes: Vec::new(alloc),
        }
    }

    /// What is behind the errors of definitions whose internal extractors are replaced by their templates.
    pub(crate) fn behind(
        alloc: Global,
        defs: &'a [Def],
        extractors: &Extractors<'a>,
        errors: &[Error],
        before: &[usize],
    ) -> Result<Templates<'a>, AllocError> {
        let rules = rules_of(alloc, defs, errors)?;
        let impossible = impossible_in(alloc, defs, extractors, &rules)?;
        let mut conflicts = RuleConflicts::new(alloc, defs, extractors);
        let mut causes = Vec::new(alloc);
        for (error, before) in errors.iter().zip(before) {
            let cause = cause_of(&mut conflicts, error, *before, &impossible)?;
            causes.push(cause)?;
        }
        Ok(Templates { impossible, causes })
    }

    /// These errors without those that are told with an extractor which one before them is told with.
    pub(crate) fn leading(
        &self,
        alloc: Global,
        numbers: &[usize],
    ) -> Result<Vec<usize>, AllocError> {
        let mut leading = Vec::new(alloc);
        for number in numbers {
            if !self.has_cause_of(&leading, *number) {
                leading.push(*number)?;
            }
        }
        Ok(leading)
    }

    // Whether one of these errors is told with the extractor of another one.
    fn has_cause_of(&self, numbers: &[usize], other: usize) -> bool {
        match self.cause(other) {
            Some(cause) => numbers
                .iter()
                .any(|number| self.cause(*number) == Some(cause)),
            None => false,
        }
    }

    // The number of the extractor that an error is told with.
    fn cause(&self, number: usize) -> Option<usize> {
        match self.causes.get(number) {
            Some(cause) => *cause,
            None => None,
        }
    }

    /// The extractor that an error is told with.
    pub(crate) fn told_with(&self, number: usize) -> Option<&Impossible<'a>> {
        self.impossible.get(self.cause(number)?)
    }
}

// The rules that errors say can't match. The errors of a rule stand together.
fn rules_of<'a>(
    alloc: Global,
    defs: &'a [Def],
    errors: &[Error],
) -> Result<Vec<&'a Rule>, AllocError> {
    let mut rules = Vec::new(alloc);
    let mut last = None;
    for error in errors {
        if let Error::UnreachableError { span, .. } = error {
            if last != Some(span.from) {
                last = Some(span.from);
                if let Some(rule) = rule_at(defs, span.from) {
                    rules.push(rule)?;
                }
            }
        }
    }
    Ok(rules)
}

// The number of the extractor that an error is told with: its rule asks two forms of one value by one pattern, which uses the
// extractor. So many errors before it say that its rule can't match.
fn cause_of(
    conflicts: &mut RuleConflicts<'_, '_>,
    error: &Error,
    before: usize,
    impossible: &[Impossible<'_>],
) -> Result<Option<usize>, AllocError> {
    if impossible.is_empty() {
        return Ok(None);
    }
    let Error::UnreachableError { span, .. } = error else {
        return Ok(None);
    };
    match conflicts.of_rule(span.from, before)? {
        Some(conflict) if conflict.is_by_one() => conflicts.cause_in(impossible, &conflict),
        _ => Ok(None),
    }
}

/// The report of an internal extractor that no value matches.
pub(crate) fn report_of_template<'a>(
    alloc: Global,
    defs: &'a [Def],
    extractors: &Extractors<'a>,
    one: &Impossible<'_>,
) -> Result<Report, AllocError> {
    let name = &one.extractor.term.0;
    let message = format!(in alloc;
        "no value matches the pattern of the internal extractor `{name}`"
    )?;
    let mut report = Report::new(alloc, Level::Error, "unreachable", message);
    add_form(alloc, &mut report, "must be ", one.conflict.first)?;
    add_form(alloc, &mut report, "must be ", one.conflict.second)?;
    let count = count_users(alloc, defs, extractors, one.extractor)?;
    report.add_counted("note", users_text(alloc, count)?)?;
    add_help(
        alloc,
        &mut report,
        "change one of these two patterns: no value has both forms",
    )?;
    Ok(report)
}

// How many rules use an extractor, and so can't match.
fn users_text(alloc: Global, count: usize) -> Result<String, AllocError> {
    if count == 1 {
        return String::from_str(alloc, "1 rule uses it and can't match");
    }
    format!(in alloc; "{count} rules use it and can't match")
}
