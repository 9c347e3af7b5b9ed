//! How many of the first sites that each rule asks something of are sources of arms around a place. On the way from a tree's root
//! to a place each of these sites is passed over once.

ghost use Rattle.std.specs.Prelude.{◌≡◌, ◌<◌, ◌≤◌, ◌-◌, ℕ, IfOk, OnOk, get_or, length, set, take};
ghost use Rattle.std.specs.List.{prefix_len};
ghost use Rattle.model.specs.trees.Places.{is_in};
ghost use Rattle.core_rule_sets.specs.SiteViews.{set_view};
ghost use Rattle.core_serialize.specs.Matches.{AreMatched, IsRaised, IsUndone};

use crate::parts::{behind, put};
use core_containers::stacks::Stack;
use core_rule_sets::trie_again::{BindingId, Constraint, RuleSet};
use std::alloc::{AllocError, Global};

/// A count that was raised, as it was.
#[derive(Clone, Copy, Debug)]
pub struct Raised {
    /// The number of the rule.
    pub rule: usize,
    /// How many there were.
    pub count: usize,
}

/// By rules, how many of the first sites that each asks something of are sources of arms around, as far as it is known.
#[derive(Debug, Drop)]
pub struct Matched {
    /// At the number of each rule its count. A rule behind the end has none.
    pub counts: Vec<usize>,
    /// The counts that were raised, the latest last.
    pub raised: Vec<Raised>,
}

fn zeros(alloc: Global, count: usize) -> Result<Vec<usize>, AllocError>
    ensures { IfOk result (λ v. (i : ℕ) → get_or v.items i 0 ≡ 0) }
{
    let mut zeros = Vec::with_capacity(alloc, count)?;
    for _ in 0..count {
        zeros.push(0)?;
    }
    Ok(zeros)
}

impl Matched {
    /// Of so many rules none has a source around.
    pub fn new(alloc: Global, rules: usize) -> Result<Matched, AllocError>
        ensures { IfOk result (λ m. (i : ℕ) → get_or m.counts.items i 0 ≡ 0) }
    {
        let counts = zeros(alloc, rules)?;
        Ok(Matched {
            counts,
            raised: Vec::new(alloc),
        })
    }

    /// The count of the rule of a number.
    pub fn count_of(&self, rule: usize) -> usize
        ensures { result ≡ get_or self.now.counts.items rule 0 }
    {
        match self.counts.get(rule) {
            Some(count) => *count,
            None => 0,
        }
    }

    // Raises the count of the rule of a number.
    fn raise(&mut self, rule: usize, count: usize) -> Result<(), AllocError>
        ensures counts { OnOk result (self.new.counts.items ≡ set self.old.counts.items rule count) }
        ensures raised { OnOk result (IsRaised self.old self.new) }
    {
        let before = self.count_of(rule);
        self.raised.push(Raised {
            rule,
            count: before,
        })?;
        put(&mut self.counts, rule, count);
        Ok(())
    }

    // Undoes the latest raise.
    fn undo(&mut self)
        requires { 0 < length self.old.raised.items }
        ensures { IsUndone (length self.old.raised.items - 1) self.old self.new }
    {
        let last = self.raised.len() - 1;
        let raised = self.raised[last];
        put(&mut self.counts, raised.rule, raised.count);
        self.raised.truncate(last);
    }

    /// Makes the counts what they were when so many had been raised.
    pub fn go_back(&mut self, mark: usize)
        ensures { IsUndone mark self.old self.new }
    {
        while self.raised.len() > mark {
            self.undo();
        }
    }
}

fn is_matched(sources: &Stack, asked: &(BindingId, Constraint)) -> bool
    ensures { result ≡ is_in asked.now.0 sources.now }
{
    sources.contains(asked.0.index() as u16)
}

// How many of the first of these sites are sources.
fn matched_count(sources: &Stack, asked: &[(BindingId, Constraint)]) -> usize
    ensures value { result ≡ prefix_len (λ c. is_in c.0 sources.now) asked.now }
    ensures within { result ≤ length asked.now }
{
    asked
        .iter()
        .take_while(|asked| is_matched(sources, asked))
        .count()
}

// Raises the count of the rule of a number, where there are more.
fn raise_rule(
    set: &RuleSet,
    sources: &Stack,
    matched: &mut Matched,
    number: usize,
) -> Result<(), AllocError>
    requires { AreMatched (set_view set.now).rules matched.old.counts.items sources.now }
    ensures matched { OnOk result (AreMatched (set_view set.now).rules matched.new.counts.items sources.now) }
    ensures raised { OnOk result (IsRaised matched.old matched.new) }
{
    let Some(rule) = set.rules.get(number) else {
        return Ok(());
    };
    let count = matched.count_of(number);
    let more = matched_count(sources, behind(rule.constraints(), count));
    if more > 0 {
        matched.raise(number, count + more)?;
    }
    Ok(())
}

/// Raises the counts of these rules, where there are more.
pub fn raise_all(
    set: &RuleSet,
    sources: &Stack,
    matched: &mut Matched,
    here: &[usize],
) -> Result<(), AllocError>
    requires { AreMatched (set_view set.now).rules matched.old.counts.items sources.now }
    ensures matched { OnOk result (AreMatched (set_view set.now).rules matched.new.counts.items sources.now) }
    ensures raised { OnOk result (IsRaised matched.old matched.new) }
{
    for number in here {
        raise_rule(set, sources, matched, *number)?;
    }
    Ok(())
}
