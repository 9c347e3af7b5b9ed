//! A condition that is being made.

use crate::faults::CallFault;
use core_rule_sets::trie_again::{Binding, BindingId};
use core_types::TermId;
use cranelift_isle::lower::Lowered;
use report_queries::names::term_name;
use spec_asked::marks::is_marked;
use spec_data::data::SpecData;
use spec_steps::demands::{Same, Tested};
use spec_tables::specs::Specs;
use std::alloc::{AllocError, Global};

/// A condition that is being made.
pub(crate) struct Maker<'c, 's> {
    pub(crate) alloc: Global,
    pub(crate) lowered: &'c Lowered,
    pub(crate) specs: &'c Specs<'s>,
    pub(crate) data: &'c SpecData,
    /// Its sites. What a site is made of has smaller numbers.
    pub(crate) bindings: Vec<Binding>,
    /// Whether each site is made of what an impure call answers.
    pub(crate) late: Vec<bool>,
    /// What is asked of sites.
    pub(crate) constraints: Vec<Tested>,
    /// Which sites are to be equal.
    pub(crate) equalities: Vec<Same>,
    /// How many calls are looked through.
    pub(crate) passed: usize,
    /// How many specs of internal extractors count.
    pub(crate) counted: usize,
    /// The first reason why not all is followed.
    pub(crate) unfollowed: Option<String>,
}

// Written out, and so proved here once.
impl<'c, 's> Drop for Maker<'c, 's> {
    fn drop(self) {
        let Maker {
            alloc: _,
            lowered: _,
            specs: _,
            data: _,
            bindings: _,
            late: _,
            constraints: _,
            equalities: _,
            passed: _,
            counted: _,
            unfollowed: _,
        } = self;
    }
}

impl<'c, 's> Maker<'c, 's> {
    /// Nothing is made yet.
    pub(crate) fn new(
        alloc: Global,
        lowered: &'c Lowered,
        specs: &'c Specs<'s>,
        data: &'c SpecData,
    ) -> Maker<'c, 's> {
        Maker {
            alloc,
            lowered,
            specs,
            data,
            bindings: Vec::new(alloc),
            late: Vec::new(alloc),
            constraints: Vec::new(alloc),
            equalities: Vec::new(alloc),
            passed: 0,
            counted: 0,
            unfollowed: None,
        }
    }

    /// The sites, what is asked of them, which are to be equal, and the reason that is noted.
    pub(crate) fn into_parts(self) -> (Vec<Binding>, Vec<Tested>, Vec<Same>, Option<String>) {
        let Maker {
            alloc: _,
            lowered: _,
            specs: _,
            data: _,
            bindings,
            late: _,
            constraints,
            equalities,
            passed: _,
            counted: _,
            unfollowed,
        } = self;
        (bindings, constraints, equalities, unfollowed)
    }

    /// Adds a site.
    pub(crate) fn add(&mut self, binding: Binding) -> Result<BindingId, CallFault> {
        let Ok(site) = BindingId::try_from(self.bindings.len()) else {
            return Err(CallFault::Full);
        };
        let late = self.is_made_late(&binding);
        self.bindings.push(binding)?;
        self.late.push(late)?;
        Ok(site)
    }

    /// Whether a site is made of what an impure call answers.
    pub(crate) fn is_late(&self, site: BindingId) -> bool {
        is_marked(&self.late, site.index())
    }

    fn is_made_late(&self, binding: &Binding) -> bool {
        if let Binding::Constructor { instance, .. } = binding {
            if *instance > 0 {
                return true;
            }
        }
        self.is_any_late(binding.sources())
    }

    fn is_any_late(&self, sites: &[BindingId]) -> bool {
        for site in sites {
            if self.is_late(*site) {
                return true;
            }
        }
        false
    }

    /// Whether a text has a spec of a term.
    pub(crate) fn is_said(&self, term: TermId) -> bool {
        match self.data.terms.get(term.index()) {
            Some(said) => said.is_said,
            None => false,
        }
    }

    /// Whether a term without a spec is an unknown function.
    pub(crate) fn is_function(&self, term: TermId) -> bool {
        match self.data.terms.get(term.index()) {
            Some(said) => !said.is_said && !said.provide.is_empty(),
            None => false,
        }
    }

    /// The name of a term.
    pub(crate) fn name_of(&self, term: TermId) -> &'c str {
        let lowered = self.lowered;
        term_name(&lowered.tyenv, &lowered.termenv, term).unwrap_or("_")
    }

    /// Notes why not all is followed, unless a reason is noted.
    pub(crate) fn note(&mut self, reason: Result<String, AllocError>) -> Result<(), AllocError> {
        let text = reason?;
        if self.unfollowed.is_none() {
            self.unfollowed = Some(text);
        }
        Ok(())
    }
}
