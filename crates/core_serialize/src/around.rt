//! What stands around a place of a tree.

ghost use Rattle.std.specs.Prelude.{◌≡◌, ◌<◌, ◌≤◌, [], ℕ, true, Some, IfOk, OnOk, get_or, length, set, take};
ghost use Rattle.model.specs.trees.Places.{nothing_around, is_in, joins, waits};
ghost use Rattle.core_rule_sets.specs.SiteViews.{site_view};
ghost use Rattle.core_serialize.specs.AroundViews.{around_view, named_as, names_before, renamed, NamesClasses};
ghost use Rattle.core_serialize.specs.Changes.{IsCutBack, IsMark, JoinsPair, TakesApart};
ghost use Rattle.core_serialize.specs.PlaceViews.{around_at};

use crate::matched::Matched;
use crate::parts::put;
use crate::place::Place;
use core_containers::stacks::Stack;
use core_rule_sets::trie_again::{Binding, BindingId};
use std::alloc::{AllocError, Global};

/// What the steps around a place of a tree have tested, joined, brought and used. A whole tree is made with one: what a block
/// adds is taken away again at its end.
#[derive(Drop)]
pub struct Around {
    /// The sources of the arms and loops around.
    pub sources: Stack,
    /// The pairs that equalities around joined, the innermost first.
    pub joined: Vec<(BindingId, BindingId)>,
    /// The sites that arms and loops around brought.
    pub brought: Stack,
    /// The sites that are emitted: brought, or used by a step around or before.
    pub emitted: Stack,
    /// Emitted sites below which all is emitted. What a loop brought isn't among them before it is used: its call may be
    /// bound again.
    pub closed: Stack,
    /// By sites, the name of each one's class. A site behind the end is its own name.
    pub names: Vec<BindingId>,
    /// By rules, how many of the first sites that each asks something of are known to be among the sources.
    pub matched: Matched,
}

/// How far the lists of what stands around a place go.
#[derive(Clone, Copy, Debug)]
pub struct Mark {
    /// How many sources there are.
    pub sources: usize,
    /// How many sites were brought.
    pub brought: usize,
    /// How many are emitted.
    pub emitted: usize,
    /// Below how many all is emitted.
    pub closed: usize,
    /// How many counts of rules were raised.
    pub raised: usize,
}

/// The sites that got another name when two sites were joined, and what the table of names was before.
#[derive(Debug, Drop)]
pub struct Renamed {
    /// The sites.
    pub sites: Vec<usize>,
    /// The name that they had.
    pub name: BindingId,
    /// How long the table was.
    pub len: usize,
}

impl Around {
    /// Nothing stands around the first step of a tree of so many rules.
    pub fn new(alloc: Global, rules: usize) -> Result<Around, AllocError>
        ensures view { IfOk result (λ a. around_view a ≡ nothing_around) }
        ensures closed { IfOk result (λ a. a.closed ≡ []) }
        ensures joined { IfOk result (λ a. a.joined.items ≡ []) }
        ensures names { IfOk result (λ a. a.names.items ≡ []) }
        ensures matched { IfOk result (λ a. (i : ℕ) → get_or a.matched.counts.items i 0 ≡ 0) }
    {
        let matched = Matched::new(alloc, rules)?;
        Ok(Around {
            sources: Stack::new(alloc),
            joined: Vec::new(alloc),
            brought: Stack::new(alloc),
            emitted: Stack::new(alloc),
            closed: Stack::new(alloc),
            names: Vec::new(alloc),
            matched,
        })
    }

    /// How far the lists go now.
    pub fn mark(&self) -> Mark
        ensures { IsMark self.now result }
    {
        Mark {
            sources: self.sources.len(),
            brought: self.brought.len(),
            emitted: self.emitted.len(),
            closed: self.closed.len(),
            raised: self.matched.raised.len(),
        }
    }

    /// Cuts the lists to what they were at a mark.
    pub fn go_back(&mut self, mark: Mark)
        ensures { IsCutBack self.old mark self.new }
    {
        self.sources.truncate(mark.sources);
        self.brought.truncate(mark.brought);
        self.emitted.truncate(mark.emitted);
        self.closed.truncate(mark.closed);
        self.matched.go_back(mark.raised);
    }
}

/// The number of a site.
pub fn number_of(site: BindingId) -> u16
    ensures { result ≡ site }
{
    site.index() as u16
}

/// Whether equalities around join two sites.
pub fn are_joined(place: &Place<'_>, a: BindingId, b: BindingId) -> bool
    ensures { result ≡ joins (around_at place.now).joined a b }
{
    name_of(a, &place.around.names) == name_of(b, &place.around.names)
}

/// Whether an arm or a loop around has the site as its source.
pub fn is_source(place: &Place<'_>, site: BindingId) -> bool
    ensures { result ≡ is_in site (around_at place.now).looped }
{
    place.around.sources.contains(number_of(site))
}

/// Whether an arm or a loop around brought the site.
pub fn is_brought(place: &Place<'_>, site: BindingId) -> bool
    ensures { result ≡ is_in site (around_at place.now).brought }
{
    place.around.brought.contains(number_of(site))
}

/// Whether the site is emitted.
pub fn is_emitted(place: &Place<'_>, site: BindingId) -> bool
    ensures { result ≡ is_in site (around_at place.now).emitted }
{
    place.around.emitted.contains(number_of(site))
}

// Behind a site, where that is behind the others.
fn end_with(end: usize, site: u16) -> usize
    ensures others { end ≤ result }
    ensures this { site < result }
{
    let number = site as usize;
    if number < end { end } else { number + 1 }
}

/// The number behind the greatest site that is emitted, and 0 where none is.
pub fn emitted_end(around: &Around) -> usize
    ensures { (s : ℕ) → is_in s around.now.emitted ≡ true → s < result }
{
    let mut end = 0;
    for site in around.emitted.behind(0) {
        end = end_with(end, *site);
    }
    end
}

/// The site of this number.
pub fn site_at(number: usize) -> BindingId
    requires { number < 65536 }
    ensures { result ≡ number }
{
    BindingId::from(number as u16)
}

/// Whether only an arm or a loop brings the site.
pub fn must_wait(binding: &Binding) -> bool
    ensures { result ≡ waits (Some (site_view binding.now)) }
{
    match binding {
        Binding::Iterator { .. }
        | Binding::MatchVariant { .. }
        | Binding::ExtractStruct { .. }
        | Binding::MatchSome { .. } => true,
        Binding::ConstBool { .. }
        | Binding::ConstInt { .. }
        | Binding::ConstPrim { .. }
        | Binding::Argument { .. }
        | Binding::Extractor { .. }
        | Binding::Constructor { .. }
        | Binding::MakeVariant { .. }
        | Binding::MakeStruct { .. }
        | Binding::MakeSome { .. }
        | Binding::MatchTuple { .. } => false,
    }
}

// The name of a site's class, by the table of names: a site behind its end is its own name.
fn name_of(site: BindingId, names: &[BindingId]) -> BindingId
    ensures { result ≡ get_or names.now site site }
{
    match names.get(site.index()) {
        Some(name) => *name,
        None => site,
    }
}

// Makes a table of names go as far as a site: the sites that it had no name for are their own names.
fn grow_to(names: &mut Vec<BindingId>, site: BindingId) -> Result<(), AllocError>
    ensures names { OnOk result ((s : ℕ) → get_or names.new.items s s ≡ get_or names.old.items s s) }
    ensures before { OnOk result (take (length names.old.items) names.new.items ≡ names.old.items) }
    ensures reached { OnOk result (site < length names.new.items) }
{
    while names.len() <= site.index() {
        names.push(site_at(names.len()))?;
    }
    Ok(())
}

// Gives the site of a number another name, where it has this one, and lists it then.
fn rename_at(
    names: &mut Vec<BindingId>,
    sites: &mut Vec<usize>,
    site: usize,
    from: BindingId,
    to: BindingId,
) -> Result<(), AllocError>
    requires { site < length names.old.items }
    ensures names { OnOk result (names.new.items ≡ set names.old.items site (renamed from to (get_or names.old.items site site))) }
    ensures undone { OnOk result (named_as sites.new.items from names.new.items ≡ named_as sites.old.items from names.old.items) }
{
    if names[site] == from {
        names[site] = to;
        sites.push(site)?;
    }
    Ok(())
}

// Gives all sites of one name another one, and lists them.
fn rename(
    alloc: Global,
    names: &mut Vec<BindingId>,
    from: BindingId,
    to: BindingId,
) -> Result<Vec<usize>, AllocError>
    requires { from < length names.old.items }
    ensures names { OnOk result ((s : ℕ) → get_or names.new.items s s ≡ renamed from to (get_or names.old.items s s)) }
    ensures undone { IfOk result (λ v. named_as v.items from names.new.items ≡ names.old.items) }
{
    let mut sites = Vec::new(alloc);
    for site in 0..names.len() {
        rename_at(names, &mut sites, site, from, to)?;
    }
    Ok(sites)
}

/// Joins two sites. Answers how `take_apart` undoes that.
pub fn join(
    alloc: Global,
    around: &mut Around,
    a: BindingId,
    b: BindingId,
) -> Result<Renamed, AllocError>
    requires { NamesClasses around.old.joined.items around.old.names.items }
    ensures before { IfOk result (λ r. names_before r around.new.names.items ≡ around.old.names.items) }
    ensures joins { OnOk result (JoinsPair a b around.old around.new) }
{
    let len = around.names.len();
    let from = name_of(b, &around.names);
    let to = name_of(a, &around.names);
    grow_to(&mut around.names, from)?;
    let sites = rename(alloc, &mut around.names, from, to)?;
    around.joined.insert(0, (a, b))?;
    Ok(Renamed {
        sites,
        name: from,
        len,
    })
}

// Gives some sites a name.
fn put_names(names: &mut Vec<BindingId>, sites: &[usize], name: BindingId)
    ensures { names.new.items ≡ named_as sites.now name names.old.items }
{
    for site in sites {
        put(names, *site, name);
    }
}

/// Takes the pair that was joined last apart: these sites then have the name of before.
pub fn take_apart(around: &mut Around, renamed: Renamed)
    requires { 0 < length around.old.joined.items }
    ensures { TakesApart renamed around.old around.new }
{
    around.joined.remove(0);
    put_names(&mut around.names, &renamed.sites, renamed.name);
    around.names.truncate(renamed.len);
}
