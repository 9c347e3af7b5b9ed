//! The condition of a rule, in which calls of terms without specs are looked through.

use crate::called_rules::DEEPEST_CALL;
use crate::faults::CallFault;
use crate::makers::Maker;
use crate::moving::{Copied, entry_at, number};
use core_rule_sets::trie_again::{Binding, Rule};
use cranelift_isle::lower::{Lowered, LoweredTerm};
use spec_asked::demanded::{RuleDemands, rule_demands};
use spec_asked::marks::{mark, no_marks, spread_marks};
use spec_cases::steps::Constraint;
use spec_data::data::SpecData;
use spec_steps::demands::{Same, Tested};
use spec_tables::specs::Specs;
use std::alloc::{AllocError, Global};
use std::mem;

/// The condition of a rule.
#[derive(Drop)]
pub struct Condition {
    /// Its sites. What a site is made of has smaller numbers.
    pub bindings: Vec<Binding>,
    /// What is demanded of them.
    pub demands: RuleDemands,
    /// Where each site of the rule's set stands among these sites. A call that is looked through stands where what it gives does. Sites that
    /// the rule doesn't make may stand nowhere.
    pub sites: Vec<Option<u32>>,
    /// Whether it is the rule's own condition: no call is looked through, and no spec of an internal extractor counts.
    pub is_own: bool,
    /// The first reason why not all that the rule calls is followed, in one line. None where all is.
    pub unfollowed: Option<String>,
}

/// The condition of a rule of a term of lowered definitions. Calls of terms that have rules and no spec are looked through, and specs of
/// internal extractors count. Where there are none of these, it is what the rule demands of its set. Condition: the specs, and the data of
/// them, are of `lowered`, the term is one of its terms, and the rule is one of the term's; else nothing is said of the answer.
///
/// # Errors
///
/// `Foreign` where a number is no site's or no term's, `Full` where there would be more sites than have numbers, `Memory` where memory is
/// refused.
pub fn condition_of(
    alloc: Global,
    lowered: &Lowered,
    specs: &Specs<'_>,
    data: &SpecData,
    term: &LoweredTerm,
    rule: &Rule,
) -> Result<Condition, CallFault> {
    let bindings = term.rules.bindings.as_slice();
    let own = rule_demands(alloc, bindings, rule)?;
    let mut maker = Maker::new(alloc, lowered, specs, data);
    maker.check_arguments(term.id)?;
    let placed = maker.copy_sites(bindings, &own.made, None, DEEPEST_CALL)?;
    let moved = maker.moved_demands(bindings, &own, &placed)?;
    maker.check_tests()?;
    let made = maker.made_for(&moved)?;
    maker.check_sites(&made)?;
    if maker.is_own() {
        return own_condition(alloc, bindings, own, maker.taken_reason());
    }
    maker.changed(moved, &placed)
}

// What a rule does, by the sites of its condition.
#[derive(Drop)]
struct Moved {
    impure: Vec<u32>,
    result: u32,
}

// The condition of a rule as it is.
fn own_condition(
    alloc: Global,
    bindings: &[Binding],
    demands: RuleDemands,
    unfollowed: Option<String>,
) -> Result<Condition, CallFault> {
    Ok(Condition {
        bindings: same_bindings(alloc, bindings)?,
        demands,
        sites: same_places(alloc, bindings)?,
        is_own: true,
        unfollowed,
    })
}

fn same_bindings(alloc: Global, bindings: &[Binding]) -> Result<Vec<Binding>, AllocError> {
    let mut out = Vec::new(alloc);
    for binding in bindings {
        out.push(binding.clone()?)?;
    }
    Ok(out)
}

fn same_places(alloc: Global, bindings: &[Binding]) -> Result<Vec<Option<u32>>, AllocError> {
    let mut out = Vec::new(alloc);
    for site in 0..bindings.len() {
        out.push(u32::try_from(site).ok())?;
    }
    Ok(out)
}

fn places_of(alloc: Global, placed: &[Option<Copied>]) -> Result<Vec<Option<u32>>, AllocError> {
    let mut out = Vec::new(alloc);
    for entry in placed {
        out.push(match entry {
            Some(copy) => Some(number(copy.site)),
            None => None,
        })?;
    }
    Ok(out)
}

impl Condition {
    /// The impure calls themselves, whose answers the demands name.
    ///
    /// # Errors
    ///
    /// Where memory is refused.
    pub fn calls(&self, alloc: Global) -> Result<Vec<u32>, AllocError> {
        let mut calls = Vec::new(alloc);
        for site in &self.demands.impure {
            if let Ok(call) = u32::try_from(call_of(&self.bindings, *site as usize)) {
                calls.push(call)?;
            }
        }
        Ok(calls)
    }
}

impl<'c, 's> Maker<'c, 's> {
    // Whether nothing is changed.
    fn is_own(&self) -> bool {
        self.passed == 0 && self.counted == 0
    }

    // The reason that is noted, which is no longer here then.
    fn taken_reason(&mut self) -> Option<String> {
        mem::replace(&mut self.unfollowed, None)
    }

    // What the rule demands, of the sites that stand for its own.
    fn moved_demands(
        &mut self,
        bindings: &[Binding],
        own: &RuleDemands,
        placed: &[Option<Copied>],
    ) -> Result<Moved, CallFault> {
        self.move_tests(&own.constraints, placed)?;
        self.move_sames(&own.equalities, placed)?;
        Ok(Moved {
            impure: self.moved_calls(bindings, &own.impure, placed)?,
            result: number(entry_at(placed, own.result as usize)?.site),
        })
    }

    // Puts what the rule asks before what is asked by rules that stand for calls.
    fn move_tests(&mut self, tests: &[Tested], placed: &[Option<Copied>]) -> Result<(), CallFault> {
        let none = Vec::new(self.alloc);
        let inner = mem::replace(&mut self.constraints, none);
        for test in tests {
            self.move_test(*test, placed)?;
        }
        self.constraints.extend_from_slice(&inner)?;
        Ok(())
    }

    // Adds a test, unless it asks a call to answer that is looked through: what the rule that stands for it asks says so.
    fn move_test(&mut self, test: Tested, placed: &[Option<Copied>]) -> Result<(), CallFault> {
        let entry = entry_at(placed, test.site as usize)?;
        if entry.is_through && matches!(test.constraint, Constraint::Some) {
            return Ok(());
        }
        self.constraints.push(Tested {
            site: number(entry.site),
            constraint: test.constraint,
        })?;
        Ok(())
    }

    fn move_sames(&mut self, sames: &[Same], placed: &[Option<Copied>]) -> Result<(), CallFault> {
        for same in sames {
            self.equalities.push(Same {
                first: number(entry_at(placed, same.first as usize)?.site),
                second: number(entry_at(placed, same.second as usize)?.site),
            })?;
        }
        Ok(())
    }

    // The impure calls that aren't looked through.
    fn moved_calls(
        &self,
        bindings: &[Binding],
        calls: &[u32],
        placed: &[Option<Copied>],
    ) -> Result<Vec<u32>, CallFault> {
        let mut impure = Vec::new(self.alloc);
        for site in calls {
            let site = *site as usize;
            if !entry_at(placed, call_of(bindings, site))?.is_through {
                impure.push(number(entry_at(placed, site)?.site))?;
            }
        }
        Ok(impure)
    }

    // Which sites a condition makes.
    fn made_for(&self, moved: &Moved) -> Result<Vec<bool>, AllocError> {
        let mut made = no_marks(self.alloc, &self.bindings)?;
        for test in &self.constraints {
            mark(&mut made, test.site as usize);
        }
        for same in &self.equalities {
            mark(&mut made, same.first as usize);
            mark(&mut made, same.second as usize);
        }
        for site in &moved.impure {
            mark(&mut made, *site as usize);
        }
        mark(&mut made, moved.result as usize);
        spread_marks(&mut made, &self.bindings);
        Ok(made)
    }

    // The condition that is made.
    fn changed(self, moved: Moved, placed: &[Option<Copied>]) -> Result<Condition, CallFault> {
        let made = self.made_for(&moved)?;
        let sites = places_of(self.alloc, placed)?;
        let Moved { impure, result } = moved;
        let (bindings, constraints, equalities, unfollowed) = self.into_parts();
        Ok(Condition {
            bindings,
            demands: RuleDemands {
                made,
                constraints,
                equalities,
                impure,
                result,
            },
            sites,
            is_own: false,
            unfollowed,
        })
    }
}

/// The call that an impure call's answer is of, unwrapped or not.
pub(crate) fn call_of(bindings: &[Binding], site: usize) -> usize {
    match bindings.get(site) {
        Some(Binding::MatchSome { source } | Binding::Iterator { source }) => source.index(),
        _ => site,
    }
}
