//! Keys that tell most rules of a set apart: numbers of what they ask of one site, or priorities of rules that demand
//! equalities.

ghost use Rattle.std.specs.BTreeMap.{get};
ghost use Rattle.std.specs.Option.{option_cmp};
ghost use Rattle.std.specs.Ordering.{nat_cmp};
ghost use Rattle.std.specs.Prelude.{◌≡◌, ◌+◌, ℕ, List, Option, IfOk, None, Some, replicate, length, slice_get, sum_by, unwrap_or};
ghost use Rattle.core_rule_sets.specs.SiteViews.{set_rule_view, set_rule_views};
ghost use Rattle.core_overlap.specs.Keys.{AreKeyed, AreKeys, AreNext, IsFirst, IsAskedNumber, IsPriorityNumber, TellApart};

use core_rule_sets::trie_again::{BindingId, Constraint, Rule};
use std::alloc::{AllocError, Global};
use std::collections::{BTreeMap, BTreeSet};

// Fewer rules than these are compared at once.
const FEW: usize = 16;

// About as many rules are looked at for a site that tells many apart.
const LOOKED_AT: usize = 64;

/// Keys of the rules of a set, in rule order.
#[derive(Drop)]
pub struct Keys {
    /// Each rule's key, if it has one. Rules of different keys are apart.
    pub of_rules: Vec<Option<usize>>,
    /// Behind each rule, where the next one of its key stands, or of those without; the number of all rules where none does.
    pub next: Vec<usize>,
}

// How many different things are asked of each site, and the site of which the most are asked.
#[derive(Drop)]
struct Asked {
    pairs: BTreeSet<(BindingId, Constraint)>,
    counts: BTreeMap<BindingId, usize>,
    site: BindingId,
    most: usize,
}

impl Asked {
    // Counts what is asked of a site, unless it was counted before.
    fn count(&mut self, site: BindingId, constraint: Constraint) -> Result<(), AllocError> {
        if !self.pairs.insert((site, constraint))? {
            return Ok(());
        }
        let count = self.counts.entry(site)?.or_default();
        *count = count.saturating_add(1);
        if *count > self.most {
            self.most = *count;
            self.site = site;
        }
        Ok(())
    }

    fn count_rule(&mut self, rule: &Rule) -> Result<(), AllocError> {
        for (site, constraint) in rule.constraints() {
            self.count(*site, *constraint)?;
        }
        Ok(())
    }
}

// The site of which some rules, evenly taken, ask the most different things. Any other would do, and would tell fewer
// rules apart.
fn telling_site(alloc: Global, rules: &[Rule]) -> Result<BindingId, AllocError> {
    let mut asked = Asked {
        pairs: BTreeSet::new(alloc),
        counts: BTreeMap::new(alloc),
        site: BindingId::from(0),
        most: 0,
    };
    let step = rules.len() / LOOKED_AT + 1;
    for rule in rules.iter().step_by(step) {
        asked.count_rule(rule)?;
    }
    Ok(asked.site)
}

// A number for each thing that rules ask of a site.
fn numbers_of(
    alloc: Global,
    rules: &[Rule],
    site: BindingId,
) -> Result<BTreeMap<Constraint, usize>, AllocError> {
    let mut numbers = BTreeMap::new(alloc);
    for rule in rules {
        if let Some(asked) = rule.get_constraint(site) {
            let next = numbers.len();
            numbers.entry(asked)?.or_insert(next);
        }
    }
    Ok(numbers)
}

// The number of what a rule asks of a site.
fn key_of(numbers: &BTreeMap<Constraint, usize>, rule: &Rule, site: BindingId) -> Option<usize>
    ensures { (k : ℕ) → result ≡ Some k → IsAskedNumber numbers.now site (set_rule_view rule.now) k }
{
    match rule.get_constraint(site) {
        Some(asked) => numbers.get(&asked).copied(),
        None => None,
    }
}

// The number of what each rule asks of a site.
fn numbered(
    alloc: Global,
    rules: &[Rule],
    numbers: &BTreeMap<Constraint, usize>,
    site: BindingId,
) -> Result<Vec<Option<usize>>, AllocError>
    ensures { IfOk result (λ v. AreKeyed (IsAskedNumber numbers.now site) (set_rule_views rules.now) v.items) }
{
    let mut keys = Vec::with_capacity(alloc, rules.len())?;
    for rule in rules {
        keys.push(key_of(numbers, rule, site))?;
    }
    Ok(keys)
}

/// How many sites a rule demands to equal another one.
pub fn equated(rule: &Rule) -> usize
    ensures { result ≡ sum_by length (set_rule_view rule.now).classes }
{
    rule.total_constraints() - rule.constraints().len()
}

// The priority of a rule that demands equalities, without its sign: such rules mask none and are masked by none, so those
// of different priorities are apart.
fn priority_of(rule: &Rule) -> Option<usize>
    ensures { (k : ℕ) → result ≡ Some k → IsPriorityNumber (set_rule_view rule.now) k }
{
    if equated(rule) == 0 {
        return None;
    }
    Some(rule.prio.unsigned_abs() as usize)
}

// The priority of each rule that demands equalities.
fn priorities(alloc: Global, rules: &[Rule]) -> Result<Vec<Option<usize>>, AllocError>
    ensures { IfOk result (λ v. AreKeyed IsPriorityNumber (set_rule_views rules.now) v.items) }
{
    let mut keys = Vec::with_capacity(alloc, rules.len())?;
    for rule in rules {
        keys.push(priority_of(rule))?;
    }
    Ok(keys)
}

fn count_different(alloc: Global, keys: &[Option<usize>]) -> Result<usize, AllocError> {
    let mut seen = BTreeSet::new(alloc);
    for key in keys {
        seen.insert(*key)?;
    }
    Ok(seen.len())
}

// As many keys that say nothing.
fn no_keys(alloc: Global, count: usize) -> Result<Vec<Option<usize>>, AllocError>
    ensures { IfOk result (λ v. v.items ≡ replicate count None) }
{
    let mut keys = Vec::new(alloc);
    for _ in 0..count {
        keys.push(None)?;
    }
    Ok(keys)
}

// A key for each rule: the priority of those that demand equalities, where that tells most rules apart; else what a rule
// asks of one site, which tells it from rules that ask something else there. Of a few rules none has one: comparing them is
// faster than finding keys.
fn telling_keys(alloc: Global, rules: &[Rule]) -> Result<Vec<Option<usize>>, AllocError>
    ensures { IfOk result (λ v. TellApart (set_rule_views rules.now) v.items) }
{
    if rules.len() < FEW {
        return no_keys(alloc, rules.len());
    }
    let by_priority = priorities(alloc, rules)?;
    let different = count_different(alloc, &by_priority)?;
    let half = rules.len() / 2;
    if half < different {
        return Ok(by_priority);
    }
    let site = telling_site(alloc, rules)?;
    let numbers = numbers_of(alloc, rules, site)?;
    numbered(alloc, rules, &numbers, site)
}

// Where the first rule of a key stands among those that were noted, or the end.
fn first_of(firsts: &BTreeMap<Option<usize>, usize>, key: Option<usize>, end: usize) -> usize
    ensures { result ≡ unwrap_or (get (option_cmp nat_cmp) firsts.now key) end }
{
    match firsts.get(&key) {
        Some(first) => *first,
        None => end,
    }
}

fn ends(alloc: Global, count: usize) -> Result<Vec<usize>, AllocError>
    ensures { IfOk result (λ v. length v.items ≡ count) }
{
    let mut ends = Vec::with_capacity(alloc, count)?;
    for _ in 0..count {
        ends.push(count)?;
    }
    Ok(ends)
}

// Behind each place, where the next one of its key stands, or the end.
fn next_alike(alloc: Global, keys: &[Option<usize>]) -> Result<Vec<usize>, AllocError>
    ensures { IfOk result (λ v. AreNext keys.now v.items) }
{
    let mut next = ends(alloc, keys.len())?;
    let mut firsts = BTreeMap::new(alloc);
    let mut left = keys.len();
    while left > 0 {
        let i = left - 1;
        let key = keys[i];
        next[i] = first_of(&firsts, key, keys.len());
        firsts.insert(key, i)?;
        left = i;
    }
    Ok(next)
}

/// Keys of the rules of a set. Of a few rules none has one.
pub fn keys_of(alloc: Global, rules: &[Rule]) -> Result<Keys, AllocError>
    ensures { IfOk result (λ k. AreKeys (set_rule_views rules.now) k) }
{
    let of_rules = telling_keys(alloc, rules)?;
    let next = next_alike(alloc, &of_rules)?;
    Ok(Keys { of_rules, next })
}

/// Where the first rule without a key stands, or the end.
pub fn first_without(keys: &[Option<usize>]) -> usize
    ensures { IsFirst keys.now 0 None result }
{
    for i in 0..keys.len() {
        if keys[i].is_none() {
            return i;
        }
    }
    keys.len()
}
