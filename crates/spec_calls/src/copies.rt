//! Copies of the sites of rules: those of a rule, and before each call that is looked through those of the rule that stands for it.

use crate::called_rules::CalledRule;
use crate::faults::CallFault;
use crate::makers::Maker;
use crate::moving::{Copied, entry_at, moved, number, plain_copy, site_at, sites_at};
use core_rule_sets::trie_again::{Binding, BindingId, Constraint, Rule, TupleIndex};
use core_types::TermId;
use spec_asked::marks::{is_marked, mark, no_marks, spread_marks};
use spec_steps::constraints::constraint_of;
use spec_steps::demands::Tested;
use std::alloc::{AllocError, Global};

impl<'c, 's> Maker<'c, 's> {
    /// Copies the needed ones of these sites, in order, and says where each stands. For a rule that stands for a call, its arguments are the
    /// given sites.
    #[cycle(copying)]
    pub(crate) fn copy_sites(
        &mut self,
        bindings: &[Binding],
        needed: &[bool],
        args: Option<&[BindingId]>,
        fuel: usize,
    ) -> Result<Vec<Option<Copied>>, CallFault> {
        let mut placed = Vec::new(self.alloc);
        for (site, binding) in bindings.iter().enumerate() {
            if is_marked(needed, site) {
                let entry = self.copy_site(binding, &placed, args, fuel)?;
                placed.push(Some(entry))?;
            } else {
                placed.push(None)?;
            }
        }
        Ok(placed)
    }

    // Copies a site.
    #[cycle(copying)]
    fn copy_site(
        &mut self,
        binding: &Binding,
        placed: &[Option<Copied>],
        args: Option<&[BindingId]>,
        fuel: usize,
    ) -> Result<Copied, CallFault> {
        match binding {
            Binding::Argument { index } => self.copy_argument(*index, args),
            Binding::Constructor {
                term,
                parameters,
                instance,
            } => self.copy_call(*term, parameters, *instance, placed, fuel),
            Binding::MatchSome { source } => self.copy_answer(*source, placed),
            _ => {
                let copy = moved(self.alloc, binding, placed)?;
                Ok(plain_copy(self.add(copy)?))
            }
        }
    }

    // An argument of the rule itself, or what is handed to a call.
    fn copy_argument(
        &mut self,
        index: TupleIndex,
        args: Option<&[BindingId]>,
    ) -> Result<Copied, CallFault> {
        match args {
            None => Ok(plain_copy(self.add(Binding::Argument { index })?)),
            Some(given) => match given.get(index.index()) {
                Some(site) => Ok(plain_copy(*site)),
                None => Err(CallFault::Foreign),
            },
        }
    }

    // A call, or what stands for it.
    #[cycle(copying)]
    fn copy_call(
        &mut self,
        term: TermId,
        parameters: &[BindingId],
        instance: u32,
        placed: &[Option<Copied>],
        fuel: usize,
    ) -> Result<Copied, CallFault> {
        let parameters = sites_at(self.alloc, placed, parameters)?;
        if let Some(called) = self.rule_through(term, fuel)? {
            if fuel > 0 {
                return self.look_through(called, &parameters, fuel - 1);
            }
        }
        Ok(plain_copy(self.add(Binding::Constructor {
            term,
            parameters,
            instance,
        })?))
    }

    // Copies a rule that stands for a call of these arguments: its result is what the call gives.
    #[cycle(copying)]
    fn look_through(
        &mut self,
        called: CalledRule<'c>,
        args: &[BindingId],
        fuel: usize,
    ) -> Result<Copied, CallFault> {
        self.passed = self.passed.saturating_add(1);
        let bindings = called.term.rules.bindings.as_slice();
        let needed = made_by(self.alloc, bindings, called.rule)?;
        let placed = self.copy_sites(bindings, &needed, Some(args), fuel)?;
        self.copy_tests(called.rule.constraints(), &placed)?;
        Ok(Copied {
            site: site_at(&placed, called.rule.result)?,
            is_through: true,
        })
    }

    // What is in the answer of a call, which is known where the call is looked through.
    fn copy_answer(
        &mut self,
        source: BindingId,
        placed: &[Option<Copied>],
    ) -> Result<Copied, CallFault> {
        let answer = entry_at(placed, source.index())?;
        let source = answer.site;
        if answer.is_through {
            if let Some(inner) = self.inner_of(source) {
                return Ok(plain_copy(inner));
            }
        }
        Ok(plain_copy(self.add(Binding::MatchSome { source })?))
    }

    // The value that a site wraps.
    fn inner_of(&self, site: BindingId) -> Option<BindingId> {
        match self.bindings.get(site.index()) {
            Some(Binding::MakeSome { inner }) => Some(*inner),
            _ => None,
        }
    }

    // Adds what a rule that stands for a call asks of its sites.
    fn copy_tests(
        &mut self,
        tests: &[(BindingId, Constraint)],
        placed: &[Option<Copied>],
    ) -> Result<(), CallFault> {
        for (site, constraint) in tests {
            let entry = entry_at(placed, site.index())?;
            if !is_answered(entry.is_through, *constraint) {
                self.copy_test(entry.site, *constraint)?;
            }
        }
        Ok(())
    }

    // Adds what is asked of a site. What comes of an impure call isn't tested, since tests come before the call: such a test is always met
    // where the call answers, so it says nothing new.
    fn copy_test(&mut self, site: BindingId, constraint: Constraint) -> Result<(), CallFault> {
        if !self.is_late(site) {
            self.constraints.push(Tested {
                site: number(site),
                constraint: constraint_of(constraint),
            })?;
        }
        Ok(())
    }
}

// Whether a test asks a call to answer that is looked through: what the rule that stands for it asks says so.
fn is_answered(is_through: bool, constraint: Constraint) -> bool {
    match constraint {
        Constraint::Some => is_through,
        Constraint::Variant { .. }
        | Constraint::Struct { .. }
        | Constraint::ConstBool { .. }
        | Constraint::ConstInt { .. }
        | Constraint::ConstPrim { .. } => false,
    }
}

// Which sites a rule makes that asks for no equal ones and makes no impure calls.
fn made_by(alloc: Global, bindings: &[Binding], rule: &Rule) -> Result<Vec<bool>, AllocError> {
    let mut made = no_marks(alloc, bindings)?;
    for (site, _) in rule.constraints() {
        mark(&mut made, site.index());
    }
    mark(&mut made, rule.result.index());
    spread_marks(&mut made, bindings);
    Ok(made)
}
