//! Which calls are looked through: those of terms that have rules and no spec, where one rule takes each call.

use crate::faults::CallFault;
use crate::makers::Maker;
use core_rule_sets::trie_again::{Constraint, Rule};
use core_terms::TermKind;
use core_types::TermId;
use cranelift_isle::lower::{Lowered, LoweredTerm};

/// How deep calls are looked through.
pub(crate) const DEEPEST_CALL: usize = 8;

// The most calls that are looked through for one condition.
const MOST_CALLS: usize = 1000;

/// A rule that stands for a call.
#[derive(Clone, Copy)]
pub(crate) struct CalledRule<'c> {
    /// The term that is called.
    pub(crate) term: &'c LoweredTerm,
    /// Its only rule.
    pub(crate) rule: &'c Rule,
}

impl<'c, 's> Maker<'c, 's> {
    /// The rule that stands for a call of a term, if the term has rules and no spec and is no unknown function. If it has several rules,
    /// say, none does, and why is noted.
    pub(crate) fn rule_through(
        &mut self,
        term: TermId,
        fuel: usize,
    ) -> Result<Option<CalledRule<'c>>, CallFault> {
        if self.is_said(term) || self.is_function(term) {
            return Ok(None);
        }
        let Some(called) = rules_of(self.lowered, term) else {
            return Ok(None);
        };
        match self.only_rule(called, fuel) {
            Ok(rule) => Ok(Some(CalledRule { term: called, rule })),
            Err(why) => {
                self.not_through(term, why)?;
                Ok(None)
            }
        }
    }

    // The rule that a term without a spec is looked through to: it is the only one, and takes each call. Else why there is none.
    fn only_rule(&self, called: &'c LoweredTerm, fuel: usize) -> Result<&'c Rule, &'static str> {
        let [rule] = called.rules.rules.as_slice() else {
            return Err("it has several rules");
        };
        if self.is_multi(called.id) {
            return Err("it is `multi`");
        }
        if !rule.impure.is_empty() {
            return Err("its rule makes impure calls");
        }
        if !takes_each(rule, self.is_partial(called.id)) {
            return Err("its rule doesn't take each call");
        }
        if fuel == 0 || self.passed >= MOST_CALLS {
            return Err("calls of terms without specs nest too deep");
        }
        Ok(rule)
    }

    fn is_multi(&self, term: TermId) -> bool {
        match self.lowered.termenv.terms.get(term.index()) {
            Some(known) => match &known.kind {
                TermKind::Decl { flags, .. } => flags.multi,
                TermKind::EnumVariant { .. } | TermKind::Struct => false,
            },
            None => false,
        }
    }

    fn is_partial(&self, term: TermId) -> bool {
        match self.lowered.termenv.terms.get(term.index()) {
            Some(known) => known.is_partial(),
            None => false,
        }
    }

    // Notes that a term has no spec, and why it isn't looked through.
    fn not_through(&mut self, term: TermId, why: &str) -> Result<(), CallFault> {
        let alloc = self.alloc;
        let name = self.name_of(term);
        self.note(format!(in alloc; "the term `{name}` has no spec, and {why}"))?;
        Ok(())
    }
}

// The rules of a term, if it has some.
fn rules_of(lowered: &Lowered, term: TermId) -> Option<&LoweredTerm> {
    lowered.terms.iter().find(|known| known.id == term)
}

// Whether the only rule of a term takes each call that answers. It may ask for structs, since each value of a struct's type is one. If
// the term is partial, it may ask calls to answer: where they don't, the term's call doesn't.
fn takes_each(rule: &Rule, is_partial: bool) -> bool {
    rule.classes().is_empty()
        && rule
            .constraints()
            .iter()
            .all(|(_, asked)| is_always_met(*asked, is_partial))
}

fn is_always_met(asked: Constraint, is_partial: bool) -> bool {
    match asked {
        Constraint::Struct { .. } => true,
        Constraint::Some => is_partial,
        Constraint::Variant { .. }
        | Constraint::ConstBool { .. }
        | Constraint::ConstInt { .. }
        | Constraint::ConstPrim { .. } => false,
    }
}
