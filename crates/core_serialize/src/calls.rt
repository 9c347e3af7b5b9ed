//! The calls that rules go over.

ghost use Rattle.std.specs.Prelude.{◌≡◌, ◌≤◌, ◌+◌, ◌||◌, ◌==◌, ℕ, IfOk, OnOk, get_or};
ghost use Rattle.std.specs.List.{filter, list_any};
ghost use Rattle.model.specs.trees.Places.{is_in};
ghost use Rattle.model.specs.trees.Sound.{as_number};
ghost use Rattle.core_rule_sets.specs.SiteViews.{set_rule_view, set_view, site_view};
ghost use Rattle.core_serialize.specs.FieldTests.{is_iterator_of};
ghost use Rattle.core_serialize.specs.Growing.{CanGrow};
ghost use Rattle.core_serialize.specs.PlaceViews.{here_at, set_at};
ghost use Rattle.core_serialize.specs.RuleCalls as RuleCalls;
ghost use Rattle.core_serialize.specs.RuleCalls.{AreCalls, AreCounts};

use crate::parts::keep;
use crate::place::Place;
use crate::tests::goes_over;
use core_rule_sets::trie_again::{Binding, BindingId, Rule, RuleSet};
use std::alloc::{AllocError, Global};

/// The calls whose answers rules go over, by rules: a rule's own set of them can be asked, and can't be walked.
#[derive(Debug, Drop)]
pub struct CallsByRule {
    /// At the number of each rule the calls that it goes over.
    pub by_rule: Vec<Vec<BindingId>>,
}

impl CallsByRule {
    /// The calls that the rule of a number goes over.
    pub fn calls_of(&self, number: usize) -> &[BindingId]
        ensures { result.now ≡ RuleCalls.calls_of self.now number }
    {
        match self.by_rule.get(number) {
            Some(calls) => calls,
            None => &[],
        }
    }
}

// The call for whose answers a site stands, if it does.
fn looped_call(binding: &Binding) -> Option<BindingId>
    ensures { result ≡ RuleCalls.looped_call (site_view binding.now) }
{
    match binding {
        Binding::Iterator { source } => Some(*source),
        _ => None,
    }
}

// Adds the call for whose answers a site stands, if it does.
fn add_looped(calls: &mut Vec<BindingId>, binding: &Binding) -> Result<(), AllocError>
    ensures { OnOk result ((s : ℕ) → is_in s calls.new.items ≡ (is_in s calls.old.items || is_iterator_of s (site_view binding.now))) }
{
    if let Some(call) = looped_call(binding) {
        calls.push(call)?;
    }
    Ok(())
}

// The calls for whose answers a set has sites.
fn looped_calls(alloc: Global, set: &RuleSet) -> Result<Vec<BindingId>, AllocError>
    ensures { IfOk result (λ v. (s : ℕ) → is_in s v.items ≡ list_any (is_iterator_of s) (set_view set.now).sites) }
{
    let mut calls = Vec::new(alloc);
    for binding in &set.bindings {
        add_looped(&mut calls, binding)?;
    }
    Ok(calls)
}

// Those of some calls that a rule goes over.
fn calls_over(alloc: Global, rule: &Rule, calls: &[BindingId]) -> Result<Vec<BindingId>, AllocError>
    ensures { IfOk result (λ v. v.items ≡ filter (λ s. is_in s (set_rule_view rule.now).iterators) calls.now) }
{
    let mut over = Vec::new(alloc);
    for call in calls {
        keep(&mut over, *call, goes_over(rule, *call))?;
    }
    Ok(over)
}

/// The calls that each rule of a set goes over.
pub fn calls_by_rule(alloc: Global, set: &RuleSet) -> Result<CallsByRule, AllocError>
    requires { CanGrow (set_view set.now) }
    ensures { IfOk result (AreCalls (set_view set.now)) }
{
    let calls = looped_calls(alloc, set)?;
    let mut by_rule = Vec::with_capacity(alloc, set.rules.len())?;
    for rule in &set.rules {
        by_rule.push(calls_over(alloc, rule, &calls)?)?;
    }
    Ok(CallsByRule { by_rule })
}

/// How many rules of a place go over a call at most, by their counts.
pub fn count_at(counts: &[usize], call: BindingId, all: usize) -> usize
    ensures { result ≡ get_or counts.now call all }
{
    match counts.get(call.index()) {
        Some(count) => *count,
        None => all,
    }
}

// Counts one rule more that goes over a call, up to a greatest number.
fn count_call(counts: &mut Vec<usize>, call: BindingId, most: usize)
    ensures { (s m : ℕ) → m ≤ most → m ≤ get_or counts.old.items s most + as_number (call == s) → m ≤ get_or counts.new.items s most }
{
    let count = count_at(counts, call, most);
    if count < most {
        counts[call.index()] = count + 1;
    }
}

// Counts one rule more that goes over these calls.
fn count_calls(counts: &mut Vec<usize>, calls: &[BindingId], most: usize)
    ensures { (s m : ℕ) → m ≤ most → m ≤ get_or counts.old.items s most + as_number (is_in s calls.now) → m ≤ get_or counts.new.items s most }
{
    for call in calls {
        count_call(counts, *call, most);
    }
}

/// By calls, how many rules of a place go over each, or more. Where one rule is left, none is counted.
pub fn call_counts(alloc: Global, place: &Place<'_>) -> Result<Vec<usize>, AllocError>
    ensures { IfOk result (λ v. AreCounts (set_at place.now).rules (here_at place.now) v.items) }
{
    let mut counts = Vec::new(alloc);
    if place.here.len() < 2 {
        return Ok(counts);
    }
    counts.resize(place.indexed.set.bindings.len(), 0)?;
    for number in place.here {
        count_calls(
            &mut counts,
            place.indexed.calls.calls_of(*number),
            place.here.len(),
        );
    }
    Ok(counts)
}
