//! The classes of the closure of a rule's demands: sites that must be equal, and the fields of equal sites that are of
//! one variant or struct.
ghost use Rattle.std.specs.Prelude.{◌≡◌, ◌≢◌, ◌⊎◌, ◌↔◌, ℕ, List, true, false, nat_eq, not, Some, Contains, IfOk, IfSome, OnOk, slice_get, ◌++◌, ◌∷◌, [], ◌&&◌, if◌then◌else◌};
ghost use Rattle.std.specs.HashMap.{get};
ghost use Rattle.core_containers.specs.Partition.{IsPartition};
ghost use Rattle.model.specs.sites.Sites.{SiteTerm};
ghost use Rattle.std.specs.Option.{unwrap_or};
ghost use Rattle.core_rule_sets.specs.Endings.{listed_at};
ghost use Rattle.core_rule_sets.specs.FieldParts.{AreClosed, AreCongruent, HaveOneName, IsFieldPart, IsPartAt, IsPartBy, IsPartOfAny, JoinsFirst, JoinsMore, StandsFirst, field_binding, part_of_head};
ghost use Rattle.core_rule_sets.specs.SiteTables.{IsTable, table_sites};
ghost use Rattle.core_rule_sets.specs.SiteViews.{constraint_view, constraint_views};
ghost use Rattle.core_rule_sets.specs.Verdicts.{class_head};
ghost use Rattle.core_rule_sets.specs.contracts.trie_again.BindingPartialEq.TheImpl.{ghosts};

use crate::class_lists::{add_to_list, take_list};
use crate::site_table::SiteTable;
use crate::trie_again::{Binding, BindingId, Constraint, TupleIndex};
use core_containers::disjointsets::DisjointSets;
use core_types::VariantId;
use std::alloc::{AllocError, Global};
use std::collections::{BTreeMap, HashMap};

// How often a part is looked at, at most: once, and each time that its source comes to a class of twice as many of the
// 65,536 sites.
const MOST_LOOKS: usize = 17;

/// The site by which the class of a site goes: the site itself where it must equal no other.
pub(crate) fn class_of(classes: &DisjointSets<BindingId>, site: BindingId) -> BindingId
    ensures head { result ≡ class_head classes.now site }
    ensures partition { IsPartition nat_eq classes.now }
{
    match classes.find(site) {
        Some(head) => head,
        None => site,
    }
}

/// A field of a site: the variant that it is a field of (none for a struct's), its place, and its own site.
#[derive(Clone, Copy)]
pub struct Part {
    pub source: BindingId,
    pub variant: Option<VariantId>,
    pub place: TupleIndex,
    pub field: BindingId,
}

// The field of a site, of a variant or of a struct.
fn field_binding(source: BindingId, variant: Option<VariantId>, field: TupleIndex) -> Binding
    ensures { result ≡ field_binding variant source field }
{
    match variant {
        Some(variant) => Binding::MatchVariant {
            source,
            variant,
            field,
        },
        None => Binding::ExtractStruct { source, field },
    }
}

// The field, of the site by which its source's class goes: parts of one such field are equal.
fn part_of_head(classes: &DisjointSets<BindingId>, part: &Part) -> Binding
    ensures part { result ≡ part_of_head classes.now part.now }
    ensures partition { IsPartition nat_eq classes.now }
{
    field_binding(class_of(classes, part.source), part.variant, part.place)
}

// Two sites must be equal. Whether they weren't yet.
fn join(
    classes: &mut DisjointSets<BindingId>,
    first: BindingId,
    second: BindingId,
) -> Result<bool, AllocError>
    ensures kept { OnOk result (HaveOneName classes.old (class_head classes.new)) }
    ensures joined { OnOk result (class_head classes.new first ≡ class_head classes.new second) }
    ensures least { OnOk result ((name : ℕ → SiteTerm) → HaveOneName classes.old name → name first ≡ name second → HaveOneName classes.new name) }
    ensures stayed { IfOk result (λ r. r ≡ false → classes.new ≡ classes.old) }
    ensures changed { IfOk result (λ r. r ≡ true → class_head classes.old first ≢ class_head classes.old second) }
{
    if class_of(classes, first) == class_of(classes, second) {
        return Ok(false);
    }
    classes.merge(first, second)?;
    Ok(true)
}

// A part is equal to the first one met of its class and place. Whether it wasn't yet.
fn join_part(
    classes: &mut DisjointSets<BindingId>,
    firsts: &mut HashMap<Binding, BindingId>,
    part: &Part,
) -> Result<bool, AllocError>
    ensures kept { OnOk result (HaveOneName classes.old (class_head classes.new)) }
    ensures least { OnOk result ((name : ℕ → SiteTerm) → HaveOneName classes.old name
        → ((first : ℕ) → get ghosts.eq firsts.old (part_of_head classes.old part.now) ≡ Some first → name first ≡ name part.now.field) → HaveOneName classes.new name) }
    ensures stayed { IfOk result (λ r. r ≡ false → (classes.new ≡ classes.old) × StandsFirst classes.new firsts.new part.now) }
    ensures changed { IfOk result (λ r. r ≡ true → JoinsFirst classes.old classes.new firsts.old part.now) }
    ensures firsts { OnOk result ((q : Binding) (first : ℕ) → get ghosts.eq firsts.old q ≡ Some first → get ghosts.eq firsts.new q ≡ Some first) }
    ensures added { OnOk result ((q : Binding) (first : ℕ) → get ghosts.eq firsts.new q ≡ Some first
        → (get ghosts.eq firsts.old q ≡ Some first) ⊎ ((ghosts.eq (part_of_head classes.old part.now) q ≡ true) × (first ≡ part.now.field))) }
    ensures partition { OnOk result (IsPartition nat_eq classes.old) }
{
    let key = part_of_head(classes, part);
    match firsts.get(&key).copied() {
        Some(first) => join(classes, first, part.field),
        None => {
            firsts.insert(key, part.field)?;
            Ok(false)
        }
    }
}

// Parts that are to be looked at, by their numbers.
struct Looks {
    // Those that were looked at, by the site by which the class of their source goes.
    by_class: BTreeMap<BindingId, Vec<usize>>,
    waiting: Vec<usize>,
}

impl Drop for Looks {
    fn drop(self) {
        let Self {
            by_class: _,
            waiting: _,
        } = self;
    }
}

impl Looks {
    // So many parts are to be looked at.
    fn new(alloc: Global, count: usize) -> Result<Looks, AllocError>
        ensures none { IfOk result (λ looks. (class : ℕ) → listed_at looks.by_class class ≡ []) }
    {
        let mut waiting = Vec::new(alloc);
        for number in 0..count {
            waiting.push(number)?;
        }
        Ok(Looks {
            by_class: BTreeMap::new(alloc),
            waiting,
        })
    }

    fn next(&mut self, parts: &[Part]) -> Option<(usize, Part)>
        ensures there { IfSome result (λ x. Contains parts.now x.1) }
        ensures part { IfSome result (λ x. slice_get parts.now x.0 ≡ Some x.1) }
        ensures waiting { IfSome result (λ x. self.old.waiting.items ≡ self.new.waiting.items ++ x.0 ∷ []) }
        ensures kept { self.new.by_class ≡ self.old.by_class }
    {
        let number = self.waiting.pop()?;
        let part = parts.get(number)?;
        Some((number, *part))
    }

    // A part of a class is looked at.
    fn note(&mut self, class: BindingId, number: usize) -> Result<(), AllocError>
        ensures listed { OnOk result ((k : ℕ) → listed_at self.new.by_class k ≡ listed_at self.old.by_class k ++ (if nat_eq class k then number ∷ [] else [])) }
        ensures waiting { self.new.waiting ≡ self.old.waiting }
    {
        add_to_list(*self.waiting.allocator(), &mut self.by_class, class, number)
    }

    // The parts of a class that goes by another site now are to be looked at again.
    fn reopen(&mut self, before: BindingId, now: BindingId) -> Result<(), AllocError>
        ensures waiting { OnOk result (self.new.waiting.items ≡ self.old.waiting.items ++ (if nat_eq before now then [] else listed_at self.old.by_class before)) }
        ensures rest { OnOk result ((k : ℕ) → listed_at self.new.by_class k ≡ (if not (nat_eq before now) && nat_eq before k then [] else listed_at self.old.by_class k)) }
    {
        if before == now {
            return Ok(());
        }
        let mut moved = take_list(*self.waiting.allocator(), &mut self.by_class, before);
        self.waiting.append(&mut moved)?;
        Ok(())
    }
}

// The first part met of the class and place of a part: its own site where none was.
fn first_met(
    classes: &DisjointSets<BindingId>,
    firsts: &HashMap<Binding, BindingId>,
    part: &Part,
) -> BindingId
    ensures { result ≡ unwrap_or (get ghosts.eq firsts.now (part_of_head classes.now part.now)) part.now.field }
{
    let key = part_of_head(classes, part);
    match firsts.get(&key).copied() {
        Some(first) => first,
        None => part.field,
    }
}

// A part is equal to the first one met of its class and place. The parts of the class that goes by another site then are
// to be looked at again.
fn look_at(
    classes: &mut DisjointSets<BindingId>,
    firsts: &mut HashMap<Binding, BindingId>,
    looks: &mut Looks,
    number: usize,
    part: &Part,
) -> Result<(), AllocError>
    ensures kept { OnOk result (HaveOneName classes.old (class_head classes.new)) }
    ensures least { OnOk result ((name : ℕ → SiteTerm) → HaveOneName classes.old name
        → ((first : ℕ) → get ghosts.eq firsts.old (part_of_head classes.old part.now) ≡ Some first → name first ≡ name part.now.field) → HaveOneName classes.new name) }
    ensures firsts { OnOk result ((q : Binding) (first : ℕ) → get ghosts.eq firsts.old q ≡ Some first → get ghosts.eq firsts.new q ≡ Some first) }
    ensures added { OnOk result ((q : Binding) (first : ℕ) → get ghosts.eq firsts.new q ≡ Some first
        → (get ghosts.eq firsts.old q ≡ Some first) ⊎ ((ghosts.eq (part_of_head classes.old part.now) q ≡ true) × (first ≡ part.now.field))) }
    ensures partition { OnOk result (IsPartition nat_eq classes.old) }
{
    let one = class_of(classes, first_met(classes, firsts, part));
    let other = class_of(classes, part.field);
    looks.note(class_of(classes, part.source), number)?;
    join_part(classes, firsts, part)?;
    let now = class_of(classes, part.field);
    looks.reopen(one, now)?;
    looks.reopen(other, now)?;
    Ok(())
}

// Fields of one place of equal sites are made equal from class to class. A part is looked at again only where its class
// goes by another site, and so not once for each round.
fn join_ahead(
    alloc: Global,
    classes: &mut DisjointSets<BindingId>,
    parts: &[Part],
) -> Result<(), AllocError>
    ensures kept { OnOk result (HaveOneName classes.old (class_head classes.new)) }
    ensures least { OnOk result ((name : ℕ → SiteTerm) → AreCongruent parts.now name → HaveOneName classes.old name → HaveOneName classes.new name) }
{
    let mut firsts = HashMap::new(alloc);
    let mut looks = Looks::new(alloc, parts.len())?;
    for _ in 0..parts.len().saturating_mul(MOST_LOOKS) {
        let Some((number, part)) = looks.next(parts) else {
            return Ok(());
        };
        look_at(classes, &mut firsts, &mut looks, number, &part)?;
    }
    Ok(())
}

// Fields of one place of equal sites are equal, for one round over them. Whether any weren't yet.
fn join_round(
    alloc: Global,
    classes: &mut DisjointSets<BindingId>,
    parts: &[Part],
) -> Result<bool, AllocError>
    ensures kept { OnOk result (HaveOneName classes.old (class_head classes.new)) }
    ensures least { OnOk result ((name : ℕ → SiteTerm) → AreCongruent parts.now name → HaveOneName classes.old name → HaveOneName classes.new name) }
    ensures settled { IfOk result (λ r. r ≡ false → AreCongruent parts.now (class_head classes.new)) }
    ensures changed { IfOk result (λ r. r ≡ true → JoinsMore parts.now classes.old classes.new) }
{
    let mut firsts = HashMap::new(alloc);
    let mut changed = false;
    for part in parts {
        if join_part(classes, &mut firsts, part)? {
            changed = true;
        }
    }
    Ok(changed)
}

// Fields of one place of equal sites are equal: the least classes in which it is so. The last round finds nothing left to
// join, and so does mostly the first.
fn join_parts(
    alloc: Global,
    classes: &mut DisjointSets<BindingId>,
    parts: &[Part],
) -> Result<(), AllocError>
    ensures kept { OnOk result (HaveOneName classes.old (class_head classes.new)) }
    ensures congruent { OnOk result (AreCongruent parts.now (class_head classes.new)) }
    ensures least { OnOk result ((name : ℕ → SiteTerm) → AreCongruent parts.now name → HaveOneName classes.old name → HaveOneName classes.new name) }
{
    join_ahead(alloc, classes, parts)?;
    while join_round(alloc, classes, parts)? {}
    Ok(())
}

// The field of a site at a place, where it is a site.
fn add_part(
    table: &SiteTable,
    parts: &mut Vec<Part>,
    source: BindingId,
    variant: Option<VariantId>,
    place: TupleIndex,
) -> Result<(), AllocError>
    requires { IsTable table.now }
    ensures { OnOk result ((p : Part) → Contains parts.new.items p
        ↔ (Contains parts.old.items p ⊎ IsPartAt (table_sites table.now) source variant place p)) }
{
    let binding = field_binding(source, variant, place);
    let Some(field) = table.find(&binding) else {
        return Ok(());
    };
    parts.push(Part {
        source,
        variant,
        place,
        field,
    })?;
    Ok(())
}

// The fields of a site, of a variant or of a struct.
fn add_parts(
    table: &SiteTable,
    parts: &mut Vec<Part>,
    source: BindingId,
    variant: Option<VariantId>,
    fields: TupleIndex,
) -> Result<(), AllocError>
    requires { IsTable table.now }
    ensures { OnOk result ((p : Part) → Contains parts.new.items p
        ↔ (Contains parts.old.items p ⊎ IsFieldPart (table_sites table.now) source variant fields p)) }
{
    for index in 0..fields.0 {
        add_part(table, parts, source, variant, TupleIndex(index))?;
    }
    Ok(())
}

// The fields that a constraint gives a site.
fn add_constrained(
    table: &SiteTable,
    parts: &mut Vec<Part>,
    source: BindingId,
    constraint: Constraint,
) -> Result<(), AllocError>
    requires { IsTable table.now }
    ensures { OnOk result ((p : Part) → Contains parts.new.items p
        ↔ (Contains parts.old.items p ⊎ IsPartBy (table_sites table.now) source (constraint_view constraint) p)) }
{
    match constraint {
        Constraint::Variant {
            variant,
            fields,
            ..
        } => add_parts(table, parts, source, Some(variant), fields),
        Constraint::Struct { fields, .. } => add_parts(table, parts, source, None, fields),
        Constraint::ConstBool { .. }
        | Constraint::ConstInt { .. }
        | Constraint::ConstPrim { .. }
        | Constraint::Some => Ok(()),
    }
}

/// The fields of all sites that are asked to be of a variant or a struct.
///
/// # Errors
///
/// Where memory is refused.
pub(crate) fn list_parts(
    alloc: Global,
    table: &SiteTable,
    constraints: &[(BindingId, Constraint)],
) -> Result<Vec<Part>, AllocError>
    requires { IsTable table.now }
    ensures { IfOk result (λ v. (p : Part) → Contains v.items p ↔ IsPartOfAny (table_sites table.now) (constraint_views constraints.now) p) }
{
    let mut parts = Vec::new(alloc);
    for (site, constraint) in constraints {
        add_constrained(table, &mut parts, *site, *constraint)?;
    }
    Ok(parts)
}

/// The least classes that hold these, and in which fields of one place of equal sites are equal.
///
/// # Errors
///
/// Where memory is refused.
pub(crate) fn close_classes(
    alloc: Global,
    equals: &DisjointSets<BindingId>,
    parts: &[Part],
) -> Result<DisjointSets<BindingId>, AllocError>
    ensures { IfOk result (λ classes. AreClosed parts.now equals.now classes) }
{
    let mut classes = equals.clone()?;
    join_parts(alloc, &mut classes, parts)?;
    Ok(classes)
}
