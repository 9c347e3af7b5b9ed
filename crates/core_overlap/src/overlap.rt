//! The check of overlaps: rules of one priority that may both match, and rules that others mask.
ghost use Rattle.std.specs.Prelude.{List, Option, None, true, false, Some, slice_get, if◌then◌else◌, slice_index_or, ◌≡◌, ◌++◌, ◌∷◌, [], ◌+◌, ◌-◌, ◌<◌, ℕ, All, IfOk, OnOk, drop, length, map, nat_lt, cond, vec_len};
ghost use Rattle.model.specs.claims.Refusals.{overlapping, refusal_of};
ghost use Rattle.model.specs.sites.Overlap.{RuleReport, ShadowReport, ascending_positions, by_position, has_end, other_end, overlap_reports, rule_shadows, rules_overlap};
ghost use Rattle.model.specs.sites.SetRules.{is_mask_of, is_subset, overlap_between, overlap_wrongly, shadows_among, wrong_among};
ghost use Rattle.core_syntax.specs.ErrorViews.{error_view, error_views, span_starts};
ghost use Rattle.core_syntax.specs.Positions.{HasSingleSpans, IsSingle};
ghost use Rattle.core_syntax.specs.SyntaxViews.{position};
ghost use Rattle.core_rule_sets.specs.SiteViews.{set_rule_view, set_rule_views};
ghost use Rattle.core_overlap.specs.Comparisons.{AreGrouped, list_views, masked_behind, masked_pair, masked_rows, masked_views, pair_views, positions, shadow_of, shadows_of, wrong_behind, wrong_pair, wrong_rows};
ghost use Rattle.core_overlap.specs.ErrorViews.{error_pos};
ghost use Rattle.core_overlap.specs.ComparedRules.{HaveSingleSpans, found_shadows, found_wrong};
ghost use Rattle.core_overlap.specs.Keys.{AreKeys, AreNext, IsAhead, IsFirst, nearer};
ghost use Rattle.core_overlap.specs.Graphs.{unreported_at, AreQueued, IsQueued, count_left, counts_before, neighbours_at, neighbours, same_pos, position_count, unreported};

use crate::keys::{Keys, equated, first_without, keys_of};
use core_rule_sets::trie_again::{Overlap, Rule};
use core_syntax::syntax::{Error, Pos, Span};
use std::alloc::{AllocError, Global};
use std::collections::{BTreeMap, BTreeSet};

/// What is wrong with rules that were compared: rules of one set and priority that may both match, and rules that are never
/// taken since another one matches wherever they do. Upstream's `Errors`.
pub struct Errors {
    // The places of each two rules of one priority that may both match, the earlier rule first.
    wrong: Vec<(Pos, Pos)>,
    // An error for each rule that masks others.
    shadows: Vec<Error>,
}

impl Drop for Errors {
    fn drop(self) {
        let Self {
            wrong: _,
            shadows: _,
        } = self;
    }
}

impl Errors {
    /// Nothing, before any rules are compared.
    pub fn new(alloc: Global) -> Errors
        ensures wrong { found_wrong result ≡ [] }
        ensures shadows { found_shadows result ≡ [] }
        ensures single { HaveSingleSpans result }
    {
        Errors {
            wrong: Vec::new(alloc),
            shadows: Vec::new(alloc),
        }
    }

    /// Adds what is wrong with the rules of one set: each two of one priority that may both match, in rule order, and each
    /// rule that masks others, with these. Upstream's `check_pair`, for each two rules.
    ///
    /// # Errors
    ///
    /// Where memory is refused.
    pub fn check_rules(&mut self, alloc: Global, rules: &[Rule]) -> Result<(), AllocError>
        ensures wrong { OnOk result (found_wrong self.new ≡ found_wrong self.old ++ wrong_among (set_rule_views rules.now)) }
        ensures shadows { OnOk result (found_shadows self.new
            ≡ found_shadows self.old ++ map refusal_of (map rule_shadows (shadows_among (set_rule_views rules.now)))) }
        ensures single { OnOk result (HaveSingleSpans self.old → HaveSingleSpans self.new) }
    {
        let mut masked = Vec::new(alloc);
        let keys = keys_of(alloc, rules)?;
        check_pairs(rules, &keys, &mut self.wrong, &mut masked)?;
        let lists = masked_by_each(alloc, rules.len(), &masked)?;
        add_shadows(alloc, rules, &lists, &mut self.shadows)?;
        Ok(())
    }

    /// The errors, by the place of their first rule or mask, overlaps before shadows at one place. Of the overlaps, the
    /// rule with the most is reported first, of several the latest, with the others of these overlaps by place; then the
    /// same of the overlaps that are left. A shadow lists the rules that its mask masks, in rule order. Upstream's
    /// `report`, whose further rules come in the order of a hash set.
    ///
    /// # Errors
    ///
    /// Where memory is refused.
    pub fn report(self, alloc: Global) -> Result<Vec<Error>, AllocError>
        ensures single { IfOk result (λ v. HaveSingleSpans self → All HasSingleSpans v.items) }
        ensures reports { IfOk result (λ v. (shadows : List ShadowReport) → found_shadows self ≡ map refusal_of (map rule_shadows shadows)
            → error_views v.items ≡ map refusal_of (by_position (map rules_overlap (overlap_reports (found_wrong self)) ++ map rule_shadows shadows))) }
    {
        let Errors { wrong, mut shadows } = self;
        let mut errors = overlap_errors(alloc, wrong)?;
        errors.append(&mut shadows)?;
        by_place(errors)
    }
}

// Whether two rules have one priority and may both match.
fn overlap_wrongly(left: &Rule, right: &Rule) -> bool
    ensures { result ≡ overlap_wrongly (set_rule_view left.now) (set_rule_view right.now) }
{
    left.prio == right.prio
        && match left.may_overlap(right) {
            Overlap::No => false,
            Overlap::Yes { subset: _ } => true,
        }
}

// Whether two rules are a subset pair.
fn is_subset(rule: &Rule, other: &Rule) -> bool
    ensures { result ≡ is_subset (overlap_between (set_rule_view rule.now) (set_rule_view other.now)) }
{
    match rule.may_overlap(other) {
        Overlap::No => false,
        Overlap::Yes { subset } => subset,
    }
}

// Whether a rule of greater priority matches wherever another one does: all that it asks is asked there too. The
// priorities come first, so of two rules only one is compared with the other, and what two numbers say comes before what
// is found by a walk: rules that demand equalities are no subset pair.
fn masks(mask: &Rule, rule: &Rule) -> bool
    ensures { result ≡ is_mask_of (set_rule_view mask.now) (set_rule_view rule.now) }
{
    rule.prio < mask.prio
        && mask.total_constraints() <= rule.total_constraints()
        && equated(mask) == 0
        && equated(rule) == 0
        && is_subset(mask, rule)
}

fn add_wrong(left: &Rule, right: &Rule, wrong: &mut Vec<(Pos, Pos)>) -> Result<(), AllocError>
    ensures { OnOk result (pair_views wrong.new.items ≡ pair_views wrong.old.items ++ wrong_pair (set_rule_view left.now) (set_rule_view right.now)) }
{
    if overlap_wrongly(left, right) {
        wrong.push((left.pos, right.pos))?;
    }
    Ok(())
}

// Adds the number of a mask and the place of the rule that it masks, where one of two rules masks the other.
fn add_masked(
    i: usize,
    left: &Rule,
    j: usize,
    right: &Rule,
    masked: &mut Vec<(usize, Pos)>,
) -> Result<(), AllocError>
    ensures { OnOk result (masked_views masked.new.items
        ≡ masked_views masked.old.items ++ masked_pair i (set_rule_view left.now) j (set_rule_view right.now)) }
{
    if masks(left, right) {
        masked.push((i, right.pos))?;
    }
    if masks(right, left) {
        masked.push((j, left.pos))?;
    }
    Ok(())
}

// Adds what is found of two rules.
fn compare(
    i: usize,
    left: &Rule,
    j: usize,
    right: &Rule,
    wrong: &mut Vec<(Pos, Pos)>,
    masked: &mut Vec<(usize, Pos)>,
) -> Result<(), AllocError>
    ensures wrong { OnOk result (pair_views wrong.new.items ≡ pair_views wrong.old.items ++ wrong_pair (set_rule_view left.now) (set_rule_view right.now)) }
    ensures masked { OnOk result (masked_views masked.new.items
        ≡ masked_views masked.old.items ++ masked_pair i (set_rule_view left.now) j (set_rule_view right.now)) }
{
    add_wrong(left, right, wrong)?;
    add_masked(i, left, j, right, masked)?;
    Ok(())
}

// Adds what is found of a rule, the one of this number, and those behind it.
fn check_behind(
    i: usize,
    left: &Rule,
    rules: &[Rule],
    wrong: &mut Vec<(Pos, Pos)>,
    masked: &mut Vec<(usize, Pos)>,
) -> Result<(), AllocError>
    requires within { i < length rules.now }
    ensures wrong { OnOk result (pair_views wrong.new.items
        ≡ pair_views wrong.old.items ++ wrong_behind (set_rule_view left.now) (set_rule_views (drop (i + 1) rules.now))) }
    ensures masked { OnOk result (masked_views masked.new.items
        ≡ masked_views masked.old.items ++ masked_behind i (set_rule_view left.now) (i + 1) (set_rule_views (drop (i + 1) rules.now))) }
{
    for j in i + 1..rules.len() {
        compare(i, left, j, &rules[j], wrong, masked)?;
    }
    Ok(())
}

// Where rules stand behind a rule that has a key and that aren't apart from it: the next one of its key, and the next one
// without.
#[derive(Clone, Copy)]
struct Ahead {
    alike: usize,
    bare: usize,
}

impl Ahead {
    fn nearer(&self) -> usize
        ensures { result ≡ nearer self.now }
    {
        if self.alike < self.bare {
            self.alike
        } else {
            self.bare
        }
    }

    // From the nearer one to the next of its key.
    fn go_on(&mut self, next: &[usize])
        requires { nearer self.old < length next.now }
        ensures { (keys : List (Option ℕ)) (key from : ℕ) → AreNext keys next.now → IsAhead keys key from self.old → IsAhead keys key (nearer self.old + 1) self.new }
    {
        if self.alike < self.bare {
            self.alike = next[self.alike];
        } else {
            self.bare = next[self.bare];
        }
    }
}

// Adds what is found of a rule that has a key and those behind it: of these the ones of another key are apart from it.
fn check_alike(
    i: usize,
    left: &Rule,
    rules: &[Rule],
    keys: &Keys,
    mut ahead: Ahead,
    wrong: &mut Vec<(Pos, Pos)>,
    masked: &mut Vec<(usize, Pos)>,
) -> Result<(), AllocError>
    requires left { slice_get (set_rule_views rules.now) i ≡ Some (set_rule_view left.now) }
    requires keys { AreKeys (set_rule_views rules.now) keys.now }
    requires ahead { (key : ℕ) × (slice_get keys.now.of_rules.items i ≡ Some (Some key)) × IsAhead keys.now.of_rules.items key (i + 1) ahead }
    ensures wrong { OnOk result (pair_views wrong.new.items
        ≡ pair_views wrong.old.items ++ wrong_behind (set_rule_view left.now) (set_rule_views (drop (i + 1) rules.now))) }
    ensures masked { OnOk result (masked_views masked.new.items
        ≡ masked_views masked.old.items ++ masked_behind i (set_rule_view left.now) (i + 1) (set_rule_views (drop (i + 1) rules.now))) }
{
    while ahead.nearer() < rules.len() {
        let j = ahead.nearer();
        compare(i, left, j, &rules[j], wrong, masked)?;
        ahead.go_on(&keys.next);
    }
    Ok(())
}

// Adds what is found of a rule and those behind it. The first rule without a key from this one on stands there; the first
// behind this one is given.
fn check_row(
    i: usize,
    rules: &[Rule],
    keys: &Keys,
    bare: usize,
    wrong: &mut Vec<(Pos, Pos)>,
    masked: &mut Vec<(usize, Pos)>,
) -> Result<usize, AllocError>
    requires within { i < length rules.now }
    requires keys { AreKeys (set_rule_views rules.now) keys.now }
    requires bare { IsFirst keys.now.of_rules.items i None bare }
    ensures wrong { OnOk result (pair_views wrong.new.items ++ wrong_rows (set_rule_views (drop (i + 1) rules.now))
        ≡ pair_views wrong.old.items ++ wrong_rows (set_rule_views (drop i rules.now))) }
    ensures masked { OnOk result (masked_views masked.new.items ++ masked_rows (i + 1) (set_rule_views (drop (i + 1) rules.now))
        ≡ masked_views masked.old.items ++ masked_rows i (set_rule_views (drop i rules.now))) }
    ensures bare { IfOk result (λ b. IsFirst keys.now.of_rules.items (i + 1) None b) }
{
    let left = &rules[i];
    let alike = keys.next[i];
    if bare == i {
        check_behind(i, left, rules, wrong, masked)?;
        return Ok(alike);
    }
    let ahead = Ahead { alike, bare };
    check_alike(i, left, rules, keys, ahead, wrong, masked)?;
    Ok(bare)
}

// Adds what is found of each two rules.
fn check_pairs(
    rules: &[Rule],
    keys: &Keys,
    wrong: &mut Vec<(Pos, Pos)>,
    masked: &mut Vec<(usize, Pos)>,
) -> Result<(), AllocError>
    requires { AreKeys (set_rule_views rules.now) keys.now }
    ensures wrong { OnOk result (pair_views wrong.new.items ≡ pair_views wrong.old.items ++ wrong_rows (set_rule_views rules.now)) }
    ensures masked { OnOk result (masked_views masked.new.items ≡ masked_views masked.old.items ++ masked_rows 0 (set_rule_views rules.now)) }
{
    let mut bare = first_without(&keys.of_rules);
    for i in 0..rules.len() {
        bare = check_row(i, rules, keys, bare, wrong, masked)?;
    }
    Ok(())
}

fn empty_lists(alloc: Global, count: usize) -> Result<Vec<Vec<Pos>>, AllocError>
    ensures { IfOk result (λ v. (vec_len v ≡ count) × AreGrouped v.items []) }
{
    let mut lists = Vec::new(alloc);
    for _ in 0..count {
        lists.push(Vec::new(alloc))?;
    }
    Ok(lists)
}

// With each rule's number the places of those that it masks.
fn masked_by_each(
    alloc: Global,
    count: usize,
    masked: &[(usize, Pos)],
) -> Result<Vec<Vec<Pos>>, AllocError>
    requires { All (λ m. m.0 < count) masked.now }
    ensures { IfOk result (λ v. (vec_len v ≡ count) × AreGrouped v.items (masked_views masked.now)) }
{
    let mut lists = empty_lists(alloc, count)?;
    for (mask, place) in masked {
        lists[*mask].push(*place)?;
    }
    Ok(lists)
}

fn spans_of(alloc: Global, places: &[Pos]) -> Result<Vec<Span>, AllocError>
    ensures starts { IfOk result (λ v. span_starts v.items ≡ positions places.now) }
    ensures single { IfOk result (λ v. All IsSingle v.items) }
{
    let mut spans = Vec::new(alloc);
    for place in places {
        spans.push(Span::new_single(*place))?;
    }
    Ok(spans)
}

// Adds the error of a mask, where it masks any rule.
fn add_shadow(
    alloc: Global,
    mask: &Rule,
    masked: &[Pos],
    errors: &mut Vec<Error>,
) -> Result<(), AllocError>
    ensures shadow { OnOk result (error_views errors.new.items ≡ error_views errors.old.items ++ shadow_of (set_rule_view mask.now) (positions masked.now)) }
    ensures single { OnOk result (All HasSingleSpans errors.old.items → All HasSingleSpans errors.new.items) }
{
    if masked.is_empty() {
        return Ok(());
    }
    let shadowed = spans_of(alloc, masked)?;
    errors.push(Error::ShadowedError {
        shadowed,
        mask: Span::new_single(mask.pos),
    })?;
    Ok(())
}

// Adds the errors of masks, in rule order, with the rules that each one masks.
fn add_shadows(
    alloc: Global,
    rules: &[Rule],
    lists: &[Vec<Pos>],
    errors: &mut Vec<Error>,
) -> Result<(), AllocError>
    requires { length lists.now ≡ length rules.now }
    ensures shadows { OnOk result (error_views errors.new.items ≡ error_views errors.old.items ++ shadows_of (set_rule_views rules.now) (list_views lists.now)) }
    ensures single { OnOk result (All HasSingleSpans errors.old.items → All HasSingleSpans errors.new.items) }
{
    for i in 0..rules.len() {
        add_shadow(alloc, &rules[i], &lists[i], errors)?;
    }
    Ok(())
}

// These places ascending, each once.
fn ascending(mut places: Vec<Pos>) -> Result<Vec<Pos>, AllocError>
    ensures { IfOk result (λ v. positions v.items ≡ ascending_positions (positions places.items)) }
{
    places.sort()?;
    places.dedup();
    Ok(places)
}

// How many overlaps of a rule aren't reported yet.
fn count(counts: &BTreeMap<Pos, usize>, place: Pos) -> usize
    ensures { result ≡ unreported_at counts.now place }
{
    match counts.get(&place) {
        Some(count) => *count,
        None => 0,
    }
}

// Adds a rule to those that another one overlaps.
fn add_other(others: &mut BTreeMap<Pos, Vec<Pos>>, place: Pos, other: Pos) -> Result<(), AllocError>
    ensures { OnOk result ((q : Pos) → neighbours_at others.new q ≡ neighbours_at others.old q ++ (if same_pos place q then other ∷ [] else [])) }
{
    others.entry(place)?.or_default().push(other)?;
    Ok(())
}

// Adds each of two rules to those that the other one overlaps.
fn add_both(others: &mut BTreeMap<Pos, Vec<Pos>>, first: Pos, second: Pos) -> Result<(), AllocError>
    ensures { OnOk result ((q : Pos) → positions (neighbours_at others.new q)
        ≡ positions (neighbours_at others.old q)
        ++ (if has_end (position q) (position first, position second) then other_end (position q) (position first, position second) ∷ [] else [])) }
{
    add_other(others, first, second)?;
    if first != second {
        add_other(others, second, first)?;
    }
    Ok(())
}

// The rules that each rule overlaps. The overlaps are freed here: they say no more than these.
fn others_of(alloc: Global, wrong: Vec<(Pos, Pos)>) -> Result<BTreeMap<Pos, Vec<Pos>>, AllocError>
    ensures { IfOk result (λ m. (q : Pos) → positions (neighbours_at m q) ≡ neighbours (pair_views wrong.items) (position q)) }
{
    let mut others = BTreeMap::new(alloc);
    for (first, second) in &wrong {
        add_both(&mut others, *first, *second)?;
    }
    Ok(others)
}

// How many rules each rule overlaps.
fn counts_of(
    alloc: Global,
    others: &BTreeMap<Pos, Vec<Pos>>,
) -> Result<BTreeMap<Pos, usize>, AllocError>
    ensures { IfOk result (λ m. (q : Pos) → unreported_at m q ≡ length (neighbours_at others.now q)) }
{
    let mut counts = BTreeMap::new(alloc);
    for (place, all) in others {
        counts.insert(*place, all.len())?;
    }
    Ok(counts)
}

// An entry for each rule: how many of its overlaps aren't reported, and its place. So the last entry is of the rule that is
// reported first.
fn queue_of(
    alloc: Global,
    counts: &BTreeMap<Pos, usize>,
) -> Result<BTreeSet<(usize, Pos)>, AllocError>
    ensures { IfOk result (λ queue. AreQueued counts.now queue) }
{
    let mut queue = BTreeSet::new(alloc);
    for (place, count) in counts {
        queue.insert((*count, *place))?;
    }
    Ok(queue)
}

// Of rules that have an entry the one that is reported first. The last entry is made anew until it says what its rule has:
// it may say what that had before.
fn foremost(
    counts: &BTreeMap<Pos, usize>,
    queue: &mut BTreeSet<(usize, Pos)>,
) -> Result<Pos, AllocError>
    ensures first { IfOk result (λ first. (q : Pos) → IsQueued counts.now queue.old q → counts_before counts.now q first ≡ false) }
    ensures queued { OnOk result ((q : Pos) → IsQueued counts.now queue.old q → IsQueued counts.now queue.new q) }
{
    while let Some((most, place)) = queue.pop_last() {
        let left = count(counts, place);
        queue.insert((left, place))?;
        if most <= left {
            return Ok(place);
        }
    }
    Ok(Pos::default())
}

// The rules that a rule overlaps.
fn listed(others: &BTreeMap<Pos, Vec<Pos>>, place: Pos) -> &[Pos]
    ensures { result.now ≡ neighbours_at others.now place }
{
    match others.get(&place) {
        Some(all) => all,
        None => &[],
    }
}

// Adds a rule where it has overlaps that aren't reported.
fn add_left(
    counts: &BTreeMap<Pos, usize>,
    place: Pos,
    left: &mut Vec<Pos>,
) -> Result<(), AllocError>
    ensures { OnOk result (left.new.items ≡ left.old.items ++ cond (nat_lt 0 (unreported_at counts.now place)) (place ∷ []) []) }
{
    if count(counts, place) > 0 {
        left.push(place)?;
    }
    Ok(())
}

// The rules that a rule overlaps and that aren't reported, once for each overlap.
fn unreported(
    alloc: Global,
    others: &BTreeMap<Pos, Vec<Pos>>,
    counts: &BTreeMap<Pos, usize>,
    place: Pos,
) -> Result<Vec<Pos>, AllocError>
    ensures { IfOk result (λ v. v.items ≡ unreported others.now counts.now place) }
{
    let mut found = Vec::new(alloc);
    for other in listed(others, place) {
        add_left(counts, *other, &mut found)?;
    }
    Ok(found)
}

// Takes an overlap from those of a rule.
fn take_one(counts: &mut BTreeMap<Pos, usize>, place: Pos)
    ensures { (q : Pos) → unreported_at counts.new q ≡ unreported_at counts.old q - (if same_pos place q then 1 else 0) }
{
    if let Some(count) = counts.get_mut(&place) {
        *count = count.saturating_sub(1);
    }
}

// Takes an overlap from those of each of these rules.
fn take_away(counts: &mut BTreeMap<Pos, usize>, found: &[Pos])
    ensures { (q : Pos) → unreported_at counts.new q ≡ unreported_at counts.old q - position_count q found.now }
{
    for other in found {
        take_one(counts, *other);
    }
}

/// The error of a rule with others that it overlaps.
///
/// # Errors
///
/// Where memory is refused.
pub fn overlap_error(alloc: Global, place: Pos, others: &[Pos]) -> Result<Error, AllocError>
    ensures says { IfOk result (λ e. error_view e ≡ overlapping (position place ∷ positions others.now)) }
    ensures single { IfOk result HasSingleSpans }
{
    let mut rules = Vec::new(alloc);
    rules.push(Span::new_single(place))?;
    let mut others = spans_of(alloc, others)?;
    rules.append(&mut others)?;
    let msg = String::from_str(alloc, "rules are overlapping")?;
    Ok(Error::OverlapError { msg, rules })
}

/// Reports a rule with those that it overlaps and that aren't reported: their overlaps with it are then reported too.
///
/// # Errors
///
/// Where memory is refused.
pub fn report(
    alloc: Global,
    others: &BTreeMap<Pos, Vec<Pos>>,
    counts: &mut BTreeMap<Pos, usize>,
    place: Pos,
    errors: &mut Vec<Error>,
) -> Result<(), AllocError>
    ensures counts { OnOk result ((q : Pos) → unreported_at counts.new q ≡ count_left counts.old place (unreported others.now counts.old place) q) }
    ensures error { OnOk result (error_views errors.new.items
        ≡ error_views errors.old.items ++ overlapping (position place ∷ ascending_positions (positions (unreported others.now counts.old place))) ∷ []) }
    ensures single { OnOk result (All HasSingleSpans errors.old.items → All HasSingleSpans errors.new.items) }
{
    let found = unreported(alloc, others, counts, place)?;
    take_away(counts, &found);
    counts.insert(place, 0)?;
    let listed = ascending(found)?;
    errors.push(overlap_error(alloc, place, &listed)?)?;
    Ok(())
}

// The errors of wrong overlaps. The rule with the most of them is reported first, of several the latest, with all that it
// overlaps; then the same of the overlaps that are left.
fn overlap_errors(alloc: Global, wrong: Vec<(Pos, Pos)>) -> Result<Vec<Error>, AllocError>
    ensures reports { IfOk result (λ v. error_views v.items ≡ map refusal_of (map rules_overlap (overlap_reports (pair_views wrong.items)))) }
    ensures single { IfOk result (λ v. All HasSingleSpans v.items) }
{
    let most = wrong.len();
    let mut errors = Vec::new(alloc);
    let others = others_of(alloc, wrong)?;
    let mut counts = counts_of(alloc, &others)?;
    let mut queue = queue_of(alloc, &counts)?;
    // Each report takes an overlap away, so there are no more reports than overlaps.
    for _ in 0..most {
        let place = foremost(&counts, &mut queue)?;
        if count(&counts, place) == 0 {
            return Ok(errors);
        }
        report(alloc, &others, &mut counts, place, &mut errors)?;
    }
    Ok(errors)
}

fn place_of(error: &Error) -> Pos
    ensures { result ≡ error_pos error.now }
{
    match error {
        Error::OverlapError { rules, .. } => match rules.first() {
            Some(span) => span.from,
            None => Pos::default(),
        },
        Error::ShadowedError { mask, .. } => mask.from,
        Error::TypeError { span, .. }
        | Error::UnreachableError { span, .. }
        | Error::LimitError { span, .. } => span.from,
    }
}

// Errors by place, those of one place as they stood.
fn by_place(mut errors: Vec<Error>) -> Result<Vec<Error>, AllocError>
    ensures reports { IfOk result (λ v. (reports : List RuleReport) → error_views errors.items ≡ map refusal_of reports
        → error_views v.items ≡ map refusal_of (by_position reports)) }
    ensures single { IfOk result (λ v. All HasSingleSpans errors.items → All HasSingleSpans v.items) }
{
    errors.sort_by_key(place_of)?;
    Ok(errors)
}
