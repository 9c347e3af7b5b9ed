//! Why rules can't match, kept from one error of a rule to the next.

use cranelift_isle::syntax::{Def, Error, Pos, Rule};
use report_names::names::rule_at;
use report_witness::extractors::Extractors;
use report_witness::templates::{Impossible, cause_in};
use report_witness::witness::{Conflict, conflicts_in};
use std::alloc::{AllocError, Global};
use std::collections::BTreeMap;

/// The forms that rules ask of one value and that no value has: those of the rule that was asked for last are kept.
pub(crate) struct RuleConflicts<'e, 'a> {
    alloc: Global,
    defs: &'a [Def],
    // Those that are replaced by their templates.
    extractors: &'e Extractors<'a>,
    // The rule that was asked for last.
    rule: Option<&'a Rule>,
    conflicts: Vec<Conflict<'a>>,
}

impl<'e, 'a> Drop for RuleConflicts<'e, 'a> {
    fn drop(self) {
        let RuleConflicts {
            alloc: _,
            defs: _,
            extractors: _,
            rule: _,
            conflicts: _,
        } = self;
    }
}

impl<'e, 'a> RuleConflicts<'e, 'a> {
    /// No rule was asked for.
    pub(crate) fn new(
        alloc: Global,
        defs: &'a [Def],
        extractors: &'e Extractors<'a>,
    ) -> RuleConflicts<'e, 'a> {
        RuleConflicts {
            alloc,
            defs,
            extractors,
            rule: None,
            conflicts: Vec::new(alloc),
        }
    }

    /// The conflict of a number, of those of the rule at a place.
    ///
    /// # Errors
    ///
    /// Where memory is refused.
    pub(crate) fn of_rule(
        &mut self,
        pos: Pos,
        number: usize,
    ) -> Result<Option<Conflict<'a>>, AllocError> {
        if self.rule.map(|rule| rule.pos) != Some(pos) {
            self.rule = rule_at(self.defs, pos);
            self.conflicts = match self.rule {
                Some(rule) => conflicts_in(self.alloc, self.defs, self.extractors, rule)?,
                None => Vec::new(self.alloc),
            };
        }
        Ok(self.conflicts.get(number).copied())
    }

    /// The number of the extractor among these because of which the rule that was asked for last has a conflict, if one alone is
    /// the cause.
    ///
    /// # Errors
    ///
    /// Where memory is refused.
    pub(crate) fn cause_in(
        &self,
        impossible: &[Impossible<'_>],
        conflict: &Conflict<'_>,
    ) -> Result<Option<usize>, AllocError> {
        match self.rule {
            Some(rule) => cause_in(
                self.alloc,
                self.defs,
                self.extractors,
                rule,
                impossible,
                conflict,
            ),
            None => Ok(None),
        }
    }
}

/// Of each error how many before it say that its rule can't match.
///
/// # Errors
///
/// Where memory is refused.
pub(crate) fn times_before(alloc: Global, errors: &[Error]) -> Result<Vec<usize>, AllocError> {
    let mut said = BTreeMap::new(alloc);
    let mut before = Vec::new(alloc);
    for error in errors {
        before.push(count_once_more(&mut said, error)?)?;
    }
    Ok(before)
}

// How many errors before one say that its rule can't match. It is counted then.
fn count_once_more(said: &mut BTreeMap<Pos, usize>, error: &Error) -> Result<usize, AllocError> {
    let Error::UnreachableError { span, .. } = error else {
        return Ok(0);
    };
    let before = said.get(&span.from).copied().unwrap_or(0);
    said.insert(span.from, before.saturating_add(1))?;
    Ok(before)
}
