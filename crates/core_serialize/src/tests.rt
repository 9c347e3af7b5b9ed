//! What can be tested at a place of a tree, and which test is the greatest. The rules of a place stand in order: by
//! descending priority, then by their numbers.

ghost use Rattle.std.specs.Prelude.{◌≡◌, ◌≤◌, ◌&&◌, ℕ, [], true, false, nat_lt, not, Some, IsTrue, option_map, IfOk, MatchOption, length, slice_get};
ghost use Rattle.std.specs.List.{filter, prefix_len};
ghost use Rattle.model.specs.trees.Best.{descend};
ghost use Rattle.model.specs.trees.Places.{is_in, joins_in};
ghost use Rattle.model.specs.trees.Sound.{as_number};
ghost use Rattle.model.specs.trees.Tests as Tests;
ghost use Rattle.core_rule_sets.specs.SiteViews.{set_rule_view, set_view};
ghost use Rattle.core_serialize.specs.Bars as Bars;
ghost use Rattle.core_serialize.specs.Bars.{reaches};
ghost use Rattle.core_serialize.specs.PlaceViews.{around_at, here_at, set_at};
ghost use Rattle.core_serialize.specs.TestViews.{test_view, counted_score, score_view, greater_test, IsFrom, IsNoBetter, IsScored};

use crate::around::is_emitted;
use crate::parts::part;
use crate::place::Place;
use core_rule_sets::trie_again::{BindingId, Rule, RuleSet};
use std::alloc::{AllocError, Global};

/// What a step can test.
#[derive(Clone, Copy, Debug, PartialEq)]
pub enum Test {
    /// Which constraint a value meets.
    Match {
        /// The value.
        source: BindingId,
    },
    /// That two values are equal.
    Equal {
        /// One value.
        a: BindingId,
        /// The other one, of a greater number.
        b: BindingId,
    },
    /// Each value that a call answered.
    Loop {
        /// The call.
        source: BindingId,
    },
}

/// How good a test is at a place.
#[derive(Clone, Copy, Debug)]
pub struct Score {
    /// How many rules it covers.
    pub count: usize,
    /// Whether its sites are emitted.
    pub is_emitted: bool,
    /// 0 for a match, 1 for an equality, 2 for a loop: the lesser ones are made first.
    pub form: u8,
    /// Its site, or the lesser one of its two.
    pub site: BindingId,
    /// The greater one of its two sites, or 0.
    pub other: BindingId,
}

/// A test and its score at a place.
#[derive(Clone, Copy, Debug)]
pub struct Scored {
    /// The test.
    pub test: Test,
    /// Its score.
    pub score: Score,
}

fn is_equated(rule: &Rule, a: BindingId, b: BindingId) -> bool
    ensures { result ≡ joins_in (set_rule_view rule.now).classes a b }
{
    rule.equals.in_same_set(a, b)
}

/// Whether a rule goes over the answers of a call. No call has a number of more than 16 bits.
pub fn goes_over(rule: &Rule, call: BindingId) -> bool
    ensures { result ≡ is_in call (set_rule_view rule.now).iterators }
{
    call.index() < 65536 && rule.iterators.contains(&call)
}

fn needs(rule: &Rule, test: &Test) -> bool
    ensures { result ≡ Tests.needs (test_view test.now) (set_rule_view rule.now) }
{
    match test {
        Test::Match { source } => rule.get_constraint(*source).is_some(),
        Test::Equal { a, b } => is_equated(rule, *a, *b),
        Test::Loop { source } => goes_over(rule, *source),
    }
}

/// Whether the rule of a number needs a test.
pub fn needs_at(set: &RuleSet, test: &Test, number: usize) -> bool
    ensures { result ≡ Tests.needs_at (set_view set.now).rules (test_view test.now) number }
{
    match set.rules.get(number) {
        Some(rule) => needs(rule, test),
        None => false,
    }
}

/// The priority of the rule of a number, and 0 where there is none.
pub fn priority(set: &RuleSet, number: usize) -> i64
    ensures { result ≡ Tests.priority (slice_get (set_view set.now).rules number) }
{
    match set.rules.get(number) {
        Some(rule) => rule.prio,
        None => 0,
    }
}

/// Whether the first rule has a lower priority than the other one.
pub fn is_lower(set: &RuleSet, number: usize, other: usize) -> bool
    ensures { result ≡ Tests.is_lower (set_view set.now).rules number other }
{
    priority(set, number) < priority(set, other)
}

// Whether a rule of this number is below a bar.
fn is_below(set: &RuleSet, bar: Option<usize>, number: usize) -> bool
    ensures { result ≡ not (reaches (set_view set.now).rules bar number) }
{
    match bar {
        Some(other) => is_lower(set, number, other),
        None => false,
    }
}

/// How many rules at the head of a place aren't below a bar: of rules in order these are all that aren't.
pub fn reach_count(set: &RuleSet, here: &[usize], bar: Option<usize>) -> usize
    ensures value { result ≡ prefix_len (reaches (set_view set.now).rules bar) here.now }
    ensures within { result ≤ length here.now }
{
    here.iter()
        .take_while(|number| !is_below(set, bar, **number))
        .count()
}

// How many rules at the head of a place need a test: of rules in order the one behind them is the test's bar.
fn leading_count(set: &RuleSet, here: &[usize], test: &Test) -> usize
    ensures value { result ≡ prefix_len (Tests.needs_at (set_view set.now).rules (test_view test.now)) here.now }
    ensures within { result ≤ length here.now }
{
    here.iter()
        .take_while(|number| needs_at(set, test, **number))
        .count()
}

// The rule behind so many at the head of a place.
fn behind_leading(here: &[usize], leading: usize) -> Option<usize>
    ensures { result ≡ slice_get here.now leading }
{
    here.get(leading).copied()
}

// Whether a rule isn't below the bar of a test, and needs it.
fn is_at_bar(set: &RuleSet, test: &Test, bar: Option<usize>, number: usize) -> bool
    ensures { result ≡ Bars.is_at_bar (set_view set.now).rules (test_view test.now) bar number }
{
    !is_below(set, bar, number) && needs_at(set, test, number)
}

// The rules of a place that need a test and aren't below a bar, and the others.
fn parted_at(
    alloc: Global,
    set: &RuleSet,
    here: &[usize],
    test: &Test,
    bar: Option<usize>,
) -> Result<(Vec<usize>, Vec<usize>), AllocError>
    ensures reaching { IfOk result (λ p. p.0.items ≡ filter (Bars.is_at_bar (set_view set.now).rules (test_view test.now) bar) here.now) }
    ensures others { IfOk result (λ p. p.1.items ≡ filter (λ i. not (Bars.is_at_bar (set_view set.now).rules (test_view test.now) bar i)) here.now) }
{
    let mut reaching = Vec::with_capacity(alloc, here.len())?;
    let mut others = Vec::with_capacity(alloc, here.len())?;
    for number in here {
        let reaches = is_at_bar(set, test, bar, *number);
        part(&mut reaching, &mut others, *number, reaches)?;
    }
    Ok((reaching, others))
}

// All rules of a place, and none.
fn all_and_none(alloc: Global, here: &[usize]) -> Result<(Vec<usize>, Vec<usize>), AllocError>
    ensures { IfOk result (λ p. (p.0.items ≡ here.now) × (p.1.items ≡ [])) }
{
    let all = Vec::from_slice(alloc, here)?;
    Ok((all, Vec::new(alloc)))
}

/// The rules of a place that a test covers, and those that it doesn't: it covers a rule that needs it, where each rule of
/// the place needs it too or isn't above that one.
pub fn parted(
    alloc: Global,
    set: &RuleSet,
    here: &[usize],
    test: &Test,
) -> Result<(Vec<usize>, Vec<usize>), AllocError>
    requires { IsTrue (descend (set_view set.now).rules here.now) }
    ensures covered { IfOk result (λ p. p.0.items ≡ Tests.cover (set_view set.now).rules here.now (test_view test.now)) }
    ensures others { IfOk result (λ p. p.1.items ≡ filter (λ i. not (Tests.is_covered (set_view set.now).rules here.now (test_view test.now) i)) here.now) }
{
    let leading = leading_count(set, here, test);
    if leading == here.len() {
        return all_and_none(alloc, here);
    }
    let bar = behind_leading(here, leading);
    parted_at(alloc, set, here, test, bar)
}

// How many of some rules need a test.
fn needing_count(set: &RuleSet, numbers: &[usize], test: &Test) -> usize
    ensures { result ≡ length (filter (Tests.needs_at (set_view set.now).rules (test_view test.now)) numbers.now) }
{
    numbers
        .iter()
        .filter(|number| needs_at(set, test, **number))
        .count()
}

// How many rules of a place a test covers. Each rule is asked once: those behind the bar that are below it aren't.
fn cover_count(set: &RuleSet, here: &[usize], test: &Test) -> usize
    requires { IsTrue (descend (set_view set.now).rules here.now) }
    ensures { result ≡ length (Tests.cover (set_view set.now).rules here.now (test_view test.now)) }
{
    let leading = leading_count(set, here, test);
    if leading == here.len() {
        return leading;
    }
    let bar = behind_leading(here, leading);
    let behind = &here[leading + 1..];
    let reaching = reach_count(set, behind, bar);
    leading + needing_count(set, &behind[..reaching], test)
}

// The score of a test at a place, where it covers so many rules.
fn score_by(place: &Place<'_>, test: &Test, count: usize) -> Score
    ensures { score_view result ≡ counted_score (around_at place.now) (test_view test.now) count }
{
    match test {
        Test::Match { source } => Score {
            count,
            is_emitted: is_emitted(place, *source),
            form: 0,
            site: *source,
            other: BindingId::from(0),
        },
        Test::Equal { a, b } => Score {
            count,
            is_emitted: is_emitted(place, *a) && is_emitted(place, *b),
            form: 1,
            site: *a,
            other: *b,
        },
        Test::Loop { source } => Score {
            count,
            is_emitted: is_emitted(place, *source),
            form: 2,
            site: *source,
            other: BindingId::from(0),
        },
    }
}

fn score_of(place: &Place<'_>, test: &Test) -> Score
    ensures { score_view result ≡ Tests.score (set_at place.now) (around_at place.now) (here_at place.now) (test_view test.now) }
{
    let count = cover_count(place.indexed.set, place.here, test);
    score_by(place, test, count)
}

/// Whether a score is greater than another: more rules, then emitted sites, then a match before an equality before a
/// loop, then smaller sites.
pub fn is_greater(x: Score, y: Score) -> bool
    ensures { result ≡ Tests.is_greater (score_view x) (score_view y) }
{
    if x.count != y.count {
        y.count < x.count
    } else if x.is_emitted != y.is_emitted {
        x.is_emitted
    } else if x.form != y.form {
        x.form < y.form
    } else if x.site != y.site {
        x.site.index() < y.site.index()
    } else {
        x.other.index() < y.other.index()
    }
}

fn with_score(place: &Place<'_>, test: &Test) -> Scored
    ensures test { result.test ≡ test.now }
    ensures score { IsScored (set_at place.now) (around_at place.now) (here_at place.now) result }
{
    Scored {
        test: *test,
        score: score_of(place, test),
    }
}

/// Whether a test can't be better than the best so far, where it covers at most so many rules of the place.
pub fn stays_below_with(place: &Place<'_>, best: Option<Scored>, test: &Test, most: usize) -> bool
    ensures { result ≡ true → length (Tests.cover (set_at place.now).rules (here_at place.now) (test_view test.now)) ≤ most → IsNoBetter (set_at place.now) (around_at place.now) (here_at place.now) best (test_view test.now) }
{
    match best {
        Some(best) => !is_greater(score_by(place, test, most), best.score),
        None => false,
    }
}

/// Whether a test can't be better than the best so far, though it covered all rules of the place.
pub fn stays_below(place: &Place<'_>, best: Option<Scored>, test: &Test) -> bool
    ensures { result ≡ true → IsNoBetter (set_at place.now) (around_at place.now) (here_at place.now) best (test_view test.now) }
{
    stays_below_with(place, best, test, place.here.len())
}

// A score that no test of a form, of this site or a later one, exceeds: it covers all rules of the place, and its sites are emitted
// where a site from this one on may be.
fn most_from(place: &Place<'_>, form: u8, site: BindingId) -> Score
    ensures { score_view result ≡ record { count = length (here_at place.now); emitted = as_number (nat_lt site place.now.emitted_end); form = form; site = site; other = 0 } }
{
    Score {
        count: place.here.len(),
        is_emitted: site.index() < place.emitted_end,
        form,
        site,
        other: BindingId::from(0),
    }
}

/// Whether no test of a form, of this site or a later one, can be better than the best so far. Neither the test's own sites nor its
/// rules are looked at.
pub fn all_stay_below(place: &Place<'_>, best: Option<Scored>, form: u8, site: BindingId) -> bool
    ensures { result ≡ true → (u : Tests.Test) → IsFrom form site u → IsNoBetter (set_at place.now) (around_at place.now) (here_at place.now) best u }
{
    match best {
        Some(best) => !is_greater(most_from(place, form, site), best.score),
        None => false,
    }
}

// A score that no equality of a site and another one, or of the site and one behind that, exceeds. It may be known of these that all
// that are emitted are joined: then no equality can have two emitted sites.
fn most_with(place: &Place<'_>, site: BindingId, other: BindingId, are_joined: bool) -> Score
    ensures { score_view result ≡ record { count = length (here_at place.now); emitted = as_number (is_in site (around_at place.now).emitted && not are_joined); form = 1; site = site; other = other } }
{
    Score {
        count: place.here.len(),
        is_emitted: is_emitted(place, site) && !are_joined,
        form: 1,
        site,
        other,
    }
}

/// Whether no equality of a site and another one of its class, or of the site and one behind that, can be better than the best so
/// far, where it is known whether those of the class that are emitted are joined.
pub fn pairs_stay_below(
    place: &Place<'_>,
    best: Option<Scored>,
    a: BindingId,
    other: BindingId,
    are_joined: bool,
) -> bool
    ensures { result ≡ true → (b : ℕ) → other ≤ b → (are_joined ≡ true → (is_in a (around_at place.now).emitted && is_in b (around_at place.now).emitted) ≡ false) → IsNoBetter (set_at place.now) (around_at place.now) (here_at place.now) best (Tests.equal_test a b) }
{
    match best {
        Some(best) => !is_greater(most_with(place, a, other, are_joined), best.score),
        None => false,
    }
}

// The greater one of a test whose score is known and of another one.
fn greater_of_two(place: &Place<'_>, best: Scored, test: &Test) -> Scored
    requires { IsScored (set_at place.now) (around_at place.now) (here_at place.now) best }
    ensures test { result.test ≡ greater_test (set_at place.now) (around_at place.now) (here_at place.now) (Some best.test) test.now }
    ensures score { IsScored (set_at place.now) (around_at place.now) (here_at place.now) result }
{
    let next = with_score(place, test);
    if is_greater(next.score, best.score) {
        next
    } else {
        best
    }
}

/// The greater one of a test and of another one, if there is one.
pub fn greater_of(place: &Place<'_>, best: Option<Scored>, test: &Test) -> Scored
    requires { MatchOption best (Unit {0}) (IsScored (set_at place.now) (around_at place.now) (here_at place.now)) }
    ensures test { result.test ≡ greater_test (set_at place.now) (around_at place.now) (here_at place.now) (option_map (λ s. s.test) best) test.now }
    ensures score { IsScored (set_at place.now) (around_at place.now) (here_at place.now) result }
{
    match best {
        Some(other) => greater_of_two(place, other, test),
        None => with_score(place, test),
    }
}
