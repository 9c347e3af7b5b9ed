//! The open tests of a place that its highest rules need: all other open tests cover no rule.

ghost use Rattle.std.specs.Prelude.{◌≡◌, ◌<◌, ◌≤◌, ◌&&◌, ◌||◌, [], ◌∷◌, false, true, not, nat_lt, None, Some, ℕ, Contains, IfOk, IsTrue, OnOk, drop, get_or, if◌then◌else◌, length, slice_get, take};
ghost use Rattle.std.specs.List.{find, list_any, prefix_len};
ghost use Rattle.model.specs.trees.Places.{available, is_in, joins, waits};
ghost use Rattle.model.specs.trees.Tests as Tests;
ghost use Rattle.core_rule_sets.specs.Listings.{ascends, sites_of};
ghost use Rattle.core_rule_sets.specs.SiteViews.{set_rule_view, set_view};
ghost use Rattle.core_serialize.specs.PlaceViews.{around_at, here_at, set_at};
ghost use Rattle.core_serialize.specs.RuleCalls.{AreCounts};
ghost use Rattle.core_serialize.specs.NeededTests.{AllJoined, AreFoundAt, EmittedAreJoined, IsSearchAt, SearchesAt, IsEqualOf, IsLoop, IsLoopOf, IsMatch, IsMatchAsked, IsMatchOf, IsPair, IsPairOf, IsPairWith, IsTest, IsWanted, OfSome};
ghost use Rattle.core_serialize.specs.TestViews.{test_view, IsBestOpen};

use crate::around::{are_joined, is_brought, is_emitted, is_source, must_wait, number_of};
use crate::binds::sources_of;
use crate::calls::{call_counts, count_at};
use crate::parts::behind;
use crate::place::Place;
use crate::tests::{
    Scored, Test, all_stay_below, greater_of, needs_at, pairs_stay_below, reach_count, stays_below,
    stays_below_with,
};
use core_containers::stacks::Stack;
use core_rule_sets::trie_again::{BindingId, Constraint, Rule, RuleSet};
use std::alloc::{AllocError, Global};
use std::mem;

/// What is kept while the tests of a place are tried.
#[derive(Drop)]
pub struct BestSearch {
    /// Sites that were found to be available.
    pub found: Stack,
    /// The open tests that were scored.
    pub scored: Vec<Test>,
    /// The best of these, with its score.
    pub best: Option<Scored>,
}

impl BestSearch {
    fn new(alloc: Global, mut found: Stack) -> BestSearch
        ensures found { result.found ≡ [] }
        ensures scored { result.scored.items ≡ [] }
        ensures best { result.best ≡ None }
    {
        found.truncate(0);
        BestSearch {
            found,
            scored: Vec::new(alloc),
            best: None,
        }
    }
}

// Whether only an arm or a loop brings the site of a number, or there is none.
fn waits_at(set: &RuleSet, site: BindingId) -> bool
    ensures { result ≡ waits (slice_get (set_view set.now).sites site) }
{
    match set.bindings.get(site.index()) {
        Some(binding) => must_wait(binding),
        None => true,
    }
}

// Whether a site is known to be available: it was brought, or was found to be.
fn is_found(place: &Place<'_>, site: BindingId, found: &Stack) -> bool
    ensures { result ≡ (is_in site (around_at place.now).brought || is_in site found.now) }
{
    is_brought(place, site) || found.contains(number_of(site))
}

// Notes that a site is available, where it is made of others: else that is found again as fast.
fn note(place: &Place<'_>, site: BindingId, found: &mut Stack) -> Result<(), AllocError>
    requires at_hand { available (set_at place.now).sites (around_at place.now) site ≡ true }
    requires found { AreFoundAt place.now found.old }
    ensures { OnOk result (AreFoundAt place.now found.new) }
{
    if sources_of(place.indexed.set, site).is_empty() {
        return Ok(());
    }
    found.insert(number_of(site))?;
    Ok(())
}

// Whether a site is available: it was brought, or none has to bring it, and its sources are available. What is found to
// be is noted, so that no site is asked twice at a place.
fn comes_to_hand(place: &Place<'_>, site: BindingId, found: &mut Stack) -> Result<bool, AllocError>
    requires { AreFoundAt place.now found.old }
    ensures at_hand { IfOk result (λ b. b ≡ available (set_at place.now).sites (around_at place.now) site) }
    ensures found { OnOk result (AreFoundAt place.now found.new) }
{
    if is_found(place, site, found) {
        return Ok(true);
    }
    if waits_at(place.indexed.set, site) {
        return Ok(false);
    }
    for source in sources_of(place.indexed.set, site) {
        if !comes_to_hand(place, *source, found)? {
            return Ok(false);
        }
    }
    note(place, site, found)?;
    Ok(true)
}

// Whether a site of the set is available.
fn is_at_hand(place: &Place<'_>, found: &mut Stack, site: BindingId) -> Result<bool, AllocError>
    requires { AreFoundAt place.now found.old }
    ensures at_hand { IfOk result (λ b. b ≡ Tests.is_at_hand (set_at place.now) (around_at place.now) site) }
    ensures found { OnOk result (AreFoundAt place.now found.new) }
{
    if site.index() >= place.indexed.set.bindings.len() {
        return Ok(false);
    }
    comes_to_hand(place, site, found)
}

// Whether a site is available, and no arm or loop around has it as its source.
fn is_open_site(place: &Place<'_>, found: &mut Stack, site: BindingId) -> Result<bool, AllocError>
    requires { AreFoundAt place.now found.old }
    ensures open_site { IfOk result (λ b. b ≡ Tests.is_open_site (set_at place.now) (around_at place.now) site) }
    ensures found { OnOk result (AreFoundAt place.now found.new) }
{
    if is_source(place, site) {
        return Ok(false);
    }
    is_at_hand(place, found, site)
}

// Whether two sites, the lesser first, are available, and the equalities around don't join them.
fn is_open_pair(
    place: &Place<'_>,
    found: &mut Stack,
    a: BindingId,
    b: BindingId,
) -> Result<bool, AllocError>
    requires { AreFoundAt place.now found.old }
    ensures open_pair { IfOk result (λ x. x ≡ Tests.is_open_pair (set_at place.now) (around_at place.now) a b) }
    ensures found { OnOk result (AreFoundAt place.now found.new) }
{
    if b.index() <= a.index() || are_joined(place, a, b) {
        return Ok(false);
    }
    if !is_at_hand(place, found, a)? {
        return Ok(false);
    }
    is_at_hand(place, found, b)
}

fn is_open(place: &Place<'_>, found: &mut Stack, test: &Test) -> Result<bool, AllocError>
    requires { AreFoundAt place.now found.old }
    ensures open_here { IfOk result (λ x. x ≡ Tests.is_open (set_at place.now) (around_at place.now) (test_view test.now)) }
    ensures found { OnOk result (AreFoundAt place.now found.new) }
{
    match test {
        Test::Match { source } | Test::Loop { source } => is_open_site(place, found, *source),
        Test::Equal { a, b } => is_open_pair(place, found, *a, *b),
    }
}

fn is_one_of(tests: &[Test], test: &Test) -> bool
    ensures { result ≡ true → Contains tests.now test.now }
{
    tests.contains(test)
}

#[tactic(auto, using(crate::proofs::BestSearches::in_first))]
fn is_listed(tests: &[Test], earlier: usize, test: &Test) -> bool
    ensures { result ≡ true → Contains tests.now test.now }
{
    if earlier < tests.len() {
        return is_one_of(&tests[..earlier], test);
    }
    is_one_of(tests, test)
}

// Scores an open test, and keeps it where it is better than the best so far.
fn score_open(place: &Place<'_>, search: &mut BestSearch, test: Test) -> Result<(), AllocError>
    requires search { IsSearchAt place.now search.old }
    requires open_here { Tests.IsOpen (set_at place.now) (around_at place.now) (test_view test) }
    ensures { OnOk result (SearchesAt place.now (IsTest test) search.old search.new) }
{
    search.scored.push(test)?;
    search.best = Some(greater_of(place, search.best, &test));
    Ok(())
}

// Tries a test, where it may be better than the best so far and isn't among the earlier ones: only then is it asked whether
// it is open.
fn try_test(
    place: &Place<'_>,
    search: &mut BestSearch,
    earlier: usize,
    test: Test,
) -> Result<(), AllocError>
    requires { IsSearchAt place.now search.old }
    ensures { OnOk result (SearchesAt place.now (IsTest test) search.old search.new) }
{
    if stays_below(place, search.best, &test) || is_listed(&search.scored, earlier, &test) {
        return Ok(());
    }
    if is_open(place, &mut search.found, &test)? {
        score_open(place, search, test)?;
    }
    Ok(())
}

// Tries the match of a site. Most are left out at once, since an arm around has the site as its source.
fn try_match(
    place: &Place<'_>,
    search: &mut BestSearch,
    site: BindingId,
    earlier: usize,
) -> Result<(), AllocError>
    requires { IsSearchAt place.now search.old }
    ensures { OnOk result (SearchesAt place.now (IsMatch site) search.old search.new) }
{
    if is_source(place, site) {
        return Ok(());
    }
    try_test(place, search, earlier, Test::Match { source: site })
}

// Tries the matches of the sites of which something is asked, by ascending sites: those behind a site are left out where the best
// test so far is better than any match of that site or a later one.
fn try_matches_of(
    place: &Place<'_>,
    search: &mut BestSearch,
    all_asked: &[(BindingId, Constraint)],
    earlier: usize,
) -> Result<(), AllocError>
    requires search { IsSearchAt place.now search.old }
    requires ascending { IsTrue (ascends (sites_of all_asked.now)) }
    ensures { OnOk result (SearchesAt place.now (OfSome IsMatchAsked all_asked.now) search.old search.new) }
{
    for asked in all_asked {
        if all_stay_below(place, search.best, 0, asked.0) {
            return Ok(());
        }
        try_match(place, search, asked.0, earlier)?;
    }
    Ok(())
}

// Tries the matches of the sites of which the rule of a number asks something, but for the first ones that are sources of arms
// around.
fn try_matches(
    place: &Place<'_>,
    search: &mut BestSearch,
    number: usize,
    rule: &Rule,
    earlier: usize,
) -> Result<(), AllocError>
    requires search { IsSearchAt place.now search.old }
    requires numbered { slice_get (set_at place.now).rules number ≡ Some (set_rule_view rule.now) }
    ensures { OnOk result (SearchesAt place.now (IsMatchOf (set_rule_view rule.now)) search.old search.new) }
{
    let count = place.around.matched.count_of(number);
    try_matches_of(place, search, behind(rule.constraints(), count), earlier)?;
    Ok(())
}

// Whether the second of two sites is behind the first, and the equalities around don't join them.
fn is_apart(place: &Place<'_>, a: BindingId, b: BindingId) -> bool
    ensures { result ≡ (nat_lt a b && not (joins (around_at place.now).joined a b)) }
{
    a.index() < b.index() && !are_joined(place, a, b)
}

// Tries the equality of two sites, the lesser first. Most are left out at once, since the equalities around join the two.
fn try_pair(
    place: &Place<'_>,
    search: &mut BestSearch,
    a: BindingId,
    b: BindingId,
    earlier: usize,
) -> Result<(), AllocError>
    requires { IsSearchAt place.now search.old }
    ensures { OnOk result (SearchesAt place.now (IsPair a b) search.old search.new) }
{
    if !is_apart(place, a, b) {
        return Ok(());
    }
    try_test(place, search, earlier, Test::Equal { a, b })
}

// Tries the equalities of a site and others of its class, by ascending sites: those with a site or a later one are left out where
// the best test so far is better than any of them.
fn try_pairs_of(
    place: &Place<'_>,
    search: &mut BestSearch,
    a: BindingId,
    others: &[BindingId],
    are_joined: bool,
    earlier: usize,
) -> Result<(), AllocError>
    requires search { IsSearchAt place.now search.old }
    requires ascending { IsTrue (ascends others.now) }
    requires joined { are_joined ≡ true → EmittedAreJoined (around_at place.now) (a ∷ others.now) }
    ensures { OnOk result (SearchesAt place.now (IsPairWith others.now a) search.old search.new) }
{
    for b in others {
        if pairs_stay_below(place, search.best, a, *b, are_joined) {
            return Ok(());
        }
        try_pair(place, search, a, *b, earlier)?;
    }
    Ok(())
}

// Whether a site is emitted, and isn't joined with another one.
fn is_emitted_apart(place: &Place<'_>, other: BindingId, site: BindingId) -> bool
    ensures { result ≡ (is_in site (around_at place.now).emitted && not (joins (around_at place.now).joined other site)) }
{
    is_emitted(place, site) && !are_joined(place, other, site)
}

fn some_apart(place: &Place<'_>, other: BindingId, sites: &[BindingId]) -> bool
    ensures { result ≡ list_any (λ s. is_in s (around_at place.now).emitted && not (joins (around_at place.now).joined other s)) sites.now }
{
    sites
        .iter()
        .any(|site| is_emitted_apart(place, other, *site))
}

fn first_emitted(place: &Place<'_>, sites: &[BindingId]) -> Option<BindingId>
    ensures { result ≡ find (λ s. is_in s (around_at place.now).emitted) sites.now }
{
    sites.iter().copied().find(|site| is_emitted(place, *site))
}

// Whether all of these sites that are emitted are joined.
fn emitted_are_joined(place: &Place<'_>, sites: &[BindingId]) -> bool
    ensures { result ≡ true → EmittedAreJoined (around_at place.now) sites.now }
{
    match first_emitted(place, sites) {
        Some(first) => !some_apart(place, first, sites),
        None => true,
    }
}

// Whether all sites of a class that are emitted are joined, where so many at its head are.
fn class_is_joined(place: &Place<'_>, class: &[BindingId], joined: usize) -> bool
    requires within { joined ≤ length class.now }
    requires head { AllJoined (around_at place.now) (take joined class.now) }
    ensures { result ≡ true → EmittedAreJoined (around_at place.now) class.now }
{
    let rest = behind(class, joined);
    match first_emitted(place, &class[..joined]) {
        Some(first) => !some_apart(place, first, rest),
        None => emitted_are_joined(place, rest),
    }
}

// How many of these sites at their head are joined with one site.
fn joined_from(place: &Place<'_>, one: BindingId, sites: &[BindingId]) -> usize
    ensures value { result ≡ prefix_len (joins (around_at place.now).joined one) sites.now }
    ensures within { result ≤ length sites.now }
{
    sites
        .iter()
        .take_while(|site| are_joined(place, one, **site))
        .count()
}

// How many sites at the head of a class are joined with its first one.
fn joined_count(place: &Place<'_>, class: &[BindingId]) -> usize
    ensures joined { AllJoined (around_at place.now) (take result class.now) }
    ensures within { result ≤ length class.now }
{
    match class.first() {
        Some(first) => joined_from(place, *first, class),
        None => 0,
    }
}

// The sites of a class that may not be joined with the one at a place of it, where so many at its head are joined.
fn others_at(class: &[BindingId], at: usize, joined: usize) -> &[BindingId]
    ensures { result.now ≡ (if nat_lt at joined then drop joined class.now else class.now) }
{
    if at < joined {
        behind(class, joined)
    } else {
        class
    }
}

// Tries the equalities of the site at a place of a class with the others: of sites that are joined with it none is open.
fn try_pairs_at(
    place: &Place<'_>,
    search: &mut BestSearch,
    class: &[BindingId],
    at: usize,
    a: BindingId,
    joined: usize,
    are_joined: bool,
    earlier: usize,
) -> Result<(), AllocError>
    requires search { IsSearchAt place.now search.old }
    requires within { at < length class.now }
    requires site { a ≡ get_or class.now at a }
    requires ascending { IsTrue (ascends class.now) }
    requires head { AllJoined (around_at place.now) (take joined class.now) }
    requires joined { are_joined ≡ true → EmittedAreJoined (around_at place.now) class.now }
    ensures { OnOk result (SearchesAt place.now (IsPairWith class.now a) search.old search.new) }
{
    let others = others_at(class, at, joined);
    try_pairs_of(place, search, a, others, are_joined, earlier)
}

// Tries the equalities of two sites of a class, by ascending sites: those behind a site are left out where the best test so far is
// better than any equality of that site or a later one.
fn try_pairs_from(
    place: &Place<'_>,
    search: &mut BestSearch,
    class: &[BindingId],
    joined: usize,
    are_joined: bool,
    earlier: usize,
) -> Result<(), AllocError>
    requires search { IsSearchAt place.now search.old }
    requires ascending { IsTrue (ascends class.now) }
    requires head { AllJoined (around_at place.now) (take joined class.now) }
    requires joined { are_joined ≡ true → EmittedAreJoined (around_at place.now) class.now }
    ensures { OnOk result (SearchesAt place.now (IsPairOf class.now) search.old search.new) }
{
    for at in 0..class.len() {
        let a = class[at];
        if all_stay_below(place, search.best, 1, a) {
            return Ok(());
        }
        try_pairs_at(place, search, class, at, a, joined, are_joined, earlier)?;
    }
    Ok(())
}

// Tries the equalities of two sites of a class, where not all of its sites are joined. Joined sites stand at its head, since the
// lesser sites of a class are joined first.
fn try_pairs(
    place: &Place<'_>,
    search: &mut BestSearch,
    class: &[BindingId],
    earlier: usize,
) -> Result<(), AllocError>
    requires search { IsSearchAt place.now search.old }
    requires ascending { IsTrue (ascends class.now) }
    ensures { OnOk result (SearchesAt place.now (IsPairOf class.now) search.old search.new) }
{
    let joined = joined_count(place, class);
    if joined == class.len() {
        return Ok(());
    }
    let are_joined = class_is_joined(place, class, joined);
    try_pairs_from(place, search, class, joined, are_joined, earlier)
}

fn try_equalities(
    place: &Place<'_>,
    search: &mut BestSearch,
    rule: &Rule,
    earlier: usize,
) -> Result<(), AllocError>
    requires { IsSearchAt place.now search.old }
    ensures { OnOk result (SearchesAt place.now (IsEqualOf (set_rule_view rule.now)) search.old search.new) }
{
    if all_stay_below(place, search.best, 1, BindingId::from(0)) {
        return Ok(());
    }
    for class in rule.classes() {
        try_pairs(place, search, class, earlier)?;
    }
    Ok(())
}

// Tries the matches and equalities that the rule of a number needs. No test is one rule's twice, so each is looked for among
// those of earlier rules alone.
fn try_wanted(place: &Place<'_>, search: &mut BestSearch, number: usize) -> Result<(), AllocError>
    requires { IsSearchAt place.now search.old }
    ensures { OnOk result (SearchesAt place.now (IsWanted (set_at place.now).rules number) search.old search.new) }
{
    let Some(rule) = place.indexed.set.rules.get(number) else {
        return Ok(());
    };
    let earlier = search.scored.len();
    try_matches(place, search, number, rule, earlier)?;
    try_equalities(place, search, rule, earlier)?;
    Ok(())
}

// Whether a rule goes over the answers of some call: else it needs no loop.
fn goes_over_some(set: &RuleSet, number: usize) -> bool
    ensures { result ≡ false → (s : ℕ) → Tests.needs_at (set_view set.now).rules (Tests.loop_test s) number ≡ false }
{
    match set.rules.get(number) {
        Some(rule) => rule.iterators.len() > 0,
        None => false,
    }
}

// Whether one of these rules goes over the answers of some call: else none of them needs a loop.
fn some_goes_over(set: &RuleSet, numbers: &[usize]) -> bool
    ensures { result ≡ false → (s : ℕ) → list_any (Tests.needs_at (set_view set.now).rules (Tests.loop_test s)) numbers.now ≡ false }
{
    for number in numbers {
        if goes_over_some(set, *number) {
            return true;
        }
    }
    false
}

// Tries the loop over the answers of a call, where it may be better than the best so far though it covered all rules that go over
// the call.
fn try_loop(
    place: &Place<'_>,
    search: &mut BestSearch,
    counts: &[usize],
    call: BindingId,
) -> Result<(), AllocError>
    requires search { IsSearchAt place.now search.old }
    requires counts { AreCounts (set_at place.now).rules (here_at place.now) counts.now }
    ensures { OnOk result (SearchesAt place.now (IsLoop call) search.old search.new) }
{
    let test = Test::Loop { source: call };
    let most = count_at(counts, call, place.here.len());
    if stays_below_with(place, search.best, &test, most) {
        return Ok(());
    }
    let earlier = search.scored.len();
    try_test(place, search, earlier, test)
}

// Tries the loops that the rule of a number needs.
fn try_loops_of(
    place: &Place<'_>,
    search: &mut BestSearch,
    counts: &[usize],
    number: usize,
) -> Result<(), AllocError>
    requires search { IsSearchAt place.now search.old }
    requires counts { AreCounts (set_at place.now).rules (here_at place.now) counts.now }
    ensures { OnOk result (SearchesAt place.now (IsLoopOf (set_at place.now).rules number) search.old search.new) }
{
    for call in place.indexed.calls.calls_of(number) {
        try_loop(place, search, counts, *call)?;
    }
    Ok(())
}

// Tries the loops that some rules need.
fn try_all_loops(
    place: &Place<'_>,
    search: &mut BestSearch,
    counts: &[usize],
    highest: &[usize],
) -> Result<(), AllocError>
    requires search { IsSearchAt place.now search.old }
    requires counts { AreCounts (set_at place.now).rules (here_at place.now) counts.now }
    ensures { OnOk result (SearchesAt place.now (OfSome (IsLoopOf (set_at place.now).rules) highest.now) search.old search.new) }
{
    for number in highest {
        try_loops_of(place, search, counts, *number)?;
    }
    Ok(())
}

// Tries the loops that some rules need, where one of them goes over the answers of some call.
fn try_loops(
    alloc: Global,
    place: &Place<'_>,
    search: &mut BestSearch,
    highest: &[usize],
) -> Result<(), AllocError>
    requires { IsSearchAt place.now search.old }
    ensures { OnOk result (SearchesAt place.now (OfSome (IsLoopOf (set_at place.now).rules) highest.now) search.old search.new) }
{
    if !some_goes_over(place.indexed.set, highest) {
        return Ok(());
    }
    let counts = call_counts(alloc, place)?;
    try_all_loops(place, search, &counts, highest)
}

// Tries the matches and equalities that some rules need.
fn try_all_wanted(
    place: &Place<'_>,
    search: &mut BestSearch,
    highest: &[usize],
) -> Result<(), AllocError>
    requires { IsSearchAt place.now search.old }
    ensures { OnOk result (SearchesAt place.now (OfSome (IsWanted (set_at place.now).rules) highest.now) search.old search.new) }
{
    for number in highest {
        try_wanted(place, search, *number)?;
    }
    Ok(())
}

/// The best open test of a place that some of its highest rules need, with its score: an open test that none of these needs
/// covers no rule. Sites that are found to be available are noted in `found`, whatever it holds: a table that was made once serves
/// all places.
pub fn best_open(
    alloc: Global,
    place: &Place<'_>,
    found: &mut Stack,
) -> Result<Option<Scored>, AllocError>
    ensures { IfOk result (λ o. IsBestOpen (set_at place.now) (around_at place.now) (here_at place.now) o) }
{
    let count = reach_count(place.indexed.set, place.here, place.here.first().copied());
    let highest = &place.here[..count];
    let mut search = BestSearch::new(alloc, mem::replace(found, Stack::new(alloc)));
    try_all_wanted(place, &mut search, highest)?;
    try_loops(alloc, place, &mut search, highest)?;
    *found = search.found;
    Ok(search.best)
}
