//! Sets of items that are apart from each other, each with one of its members as its name: what a rule says is equal.
ghost use Rattle.std.specs.Prelude.{nat_eq, ◌%◌, ◌^◌, Vec, Some, None, true, false, ◌≡◌, ◌≢◌, ◌==◌, ℕ, ◌+◌, ◌<◌, ◌≤◌, ◌||◌, ◌&&◌, cond, not, [], ◌∷◌, ◌++◌, ◌↔◌, List, sum_by, length, count_by, slice_get, slice_index_or, vec_len, vec_capacity, IfOk, IsOkAnd, OnOk, OnErr, IfSome, IsSome, is_some, IsFalse, IsNone, IsTrue};
ghost use Rattle.std.proofs.Common.{rules};
ghost use Rattle.std.specs.Cmp.Rules.{comparing, hashing};
ghost use Rattle.std.specs.Hash as fed;
ghost use Rattle.std.specs.Cmp.{partial_order_from_own_ties};
ghost use Rattle.std.specs.Ordering.{as_partial_cmp, nat_cmp, on};
ghost use Rattle.std.specs.HashMap.{get, hash_map_len, spare, Updates};
ghost use Rattle.std.specs.List.{IsDistinct};
ghost use Rattle.std.specs.List.Sorted.{IsPermutation, IsSorted, IsStrictlySortedBy};
ghost use Rattle.core_containers.specs.Partition.{set_of, in_set, together, together_after, added_by, IsPartition};
ghost use Rattle.core_containers.specs.Numbers.{Fit, IsMerge, IsPut, same_number, sets_of, Vacant};

use std::alloc::{AllocError, Global};
use std::collections::HashMap;
use std::fmt::Debug;
use std::hash::Hash;
use std::marker::Model;
use std::mem;

/// Disjoint sets of items, where equal items are one item. A set has two members or more, and only `merge` makes
/// one: an item that nothing was merged with takes no room, and is told from the others by `find`. Upstream's `DisjointSets`.
#[derive(Debug, Drop)]
pub struct DisjointSets<T: Eq + Hash> {
    // the place of each item's set in `members`
    classes: HashMap<T, usize>,
    // the items of each set; a set that is gone leaves an empty place
    members: Vec<Vec<T>>,
    // the empty places, each to be used again before there is a new one
    free: Vec<usize>,
}

impl<T: Eq + Hash> Model for DisjointSets<T> {
    ghost use Rattle.std.specs.Prelude.{List};
    ghost use Rattle.core_containers.specs.Partition.{filled};
    ghost use Rattle.core_containers.specs.Numbers.{Fit, sets_of};

    ghost Value = { List (List T) };

    ghost view = { λ a. filled (sets_of a.members.items) };

    ghost invariant = { λ a. Fit T.eq a.classes a.members.items a.free.items };
}

impl<T: Copy + Debug + Eq + Hash> DisjointSets<T> {
    /// No sets. Takes no memory. Upstream's `DisjointSets::default`.
    pub fn new(alloc: Global) -> DisjointSets<T>
        ensures { result ≡ [] }
    {
        DisjointSets {
            classes: HashMap::new(alloc),
            members: Vec::new(alloc),
            free: Vec::new(alloc),
        }
    }

    /// A member of the item's set, the same for each of its members, and `None` where the item is in no set. Takes
    /// no memory. Upstream's `DisjointSets::find`.
    pub fn find(&self, x: T) -> Option<T>
        ensures value { result ≡ slice_get (set_of T.eq self.now x) 0 }
        ensures none { IsNone result ↔ IsFalse (together T.eq self.now x x) }
        ensures member { IfSome result (λ r. IsTrue (together T.eq self.now x r)) }
        ensures same { (y : T) → IsTrue (together T.eq self.now x y) → slice_get (set_of T.eq self.now y) 0 ≡ result }

        // a set has another item
        ensures another { IsSome result → (y : T) × IsFalse (T.eq x y) × IsTrue (together T.eq self.now x y) }
        ensures partition { IsPartition T.eq self.now }
    {
        let class = *self.classes.get(&x)?;
        let set = &self.members[class];
        Some(set[0])
    }

    /// Whether the two items are in one set. False where either is in no set, also of an item and itself. Takes no
    /// memory. Upstream's `DisjointSets::in_same_set`.
    pub fn in_same_set(&self, x: T, y: T) -> bool
        ensures value { result ≡ together T.eq self.now x y }

        // false where either is in no set
        ensures first { IsFalse (together T.eq self.now x x) → IsFalse result }
        ensures second { IsFalse (together T.eq self.now y y) → IsFalse result }
        ensures partition { IsPartition T.eq self.now }
    {
        is_one_class(self.classes.get(&x).copied(), self.classes.get(&y).copied())
    }

    /// What `find` answers. Takes no memory. Upstream's `DisjointSets::find_mut`, which changes how its value is kept;
    /// here nothing changes.
    pub fn find_mut(&mut self, x: T) -> Option<T>
        ensures value { result ≡ slice_get (set_of T.eq self.old x) 0 }
        ensures none { IsNone result ↔ IsFalse (together T.eq self.old x x) }
        ensures member { IfSome result (λ r. IsTrue (together T.eq self.old x r)) }
        ensures same { (y : T) → IsTrue (together T.eq self.old x y) → slice_get (set_of T.eq self.old y) 0 ≡ result }
        ensures another { IsSome result → (y : T) × IsFalse (T.eq x y) × IsTrue (together T.eq self.old x y) }
        ensures unchanged { self.new ≡ self.old }
        ensures partition { IsPartition T.eq self.new }
    {
        self.find(x)
    }

    /// Makes one set of the sets of two items that differ, where an item in no set counts as one by itself.
    /// Upstream's `DisjointSets::merge`.
    ///
    /// # Errors
    ///
    /// Where memory is refused. The sets are then as they were.
    pub fn merge(&mut self, x: T, y: T) -> Result<(), AllocError>
        requires { T.eq x y ≡ false }
        ensures ok { OnOk result ((a b : T) → together T.eq self.new a b ≡ together_after T.eq self.old x y a b) }
        ensures len { OnOk result (sum_by length self.new ≡ sum_by length self.old + added_by T.eq self.old x + added_by T.eq self.old y) }
        ensures err { OnErr result (self.new ≡ self.old) }
        ensures partition { IsPartition T.eq self.new }
    {
        let first = self.classes.get(&x).copied();
        let second = self.classes.get(&y).copied();
        match (first, second) {
            (None, None) => merge_two_items(
                &mut self.classes,
                &mut self.members,
                &mut self.free,
                x,
                y,
            ),
            (Some(class), None) => add_to_set(&mut self.classes, &mut self.members, class, y),
            (None, Some(class)) => add_to_set(&mut self.classes, &mut self.members, class, x),
            (Some(a), Some(b)) => merge_classes(
                &mut self.classes,
                &mut self.members,
                &mut self.free,
                a,
                b,
            ),
        }
    }

    /// Takes the set of the item away and answers its members in ascending order, each once. Where the item is in no
    /// set there are none, and no memory is taken. Upstream's `DisjointSets::remove_set_of`.
    ///
    /// # Errors
    ///
    /// Where memory is refused. The sets are then as they were.
    pub fn remove_set_of(&mut self, x: T) -> Result<Vec<T>, AllocError>
    where
        T: Ord,
        ensures members { IfOk result (λ set. (y : T) → in_set T.eq set.items y ≡ together T.eq self.old x y) }
        ensures ascending { IfOk result (λ set. IsStrictlySortedBy T.cmp set.items) }

        // the very members, as they were merged
        ensures answer { IfOk result (λ set. IsPermutation (set_of T.eq self.old x) set.items) }

        // the other sets stay
        ensures rest { OnOk result ((a b : T) → together T.eq self.new a b ≡ (together T.eq self.old a b && not (together T.eq self.old x a))) }
        ensures len { IfOk result (λ set. sum_by length self.new + length set.items ≡ sum_by length self.old) }
        ensures none { IsFalse (together T.eq self.old x x) → IsOkAnd result (λ set. set.items ≡ []) × (self.new ≡ self.old) }
        ensures err { OnErr result (self.new ≡ self.old) }
        ensures partition { IsPartition T.eq self.new }
    {
        match self.classes.get(&x).copied() {
            None => Ok(Vec::new(*self.members.allocator())),
            Some(class) => remove(&mut self.classes, &mut self.members, &mut self.free, class),
        }
    }

    /// Whether no set has an item. Takes no memory. Upstream's `DisjointSets::is_empty`.
    pub fn is_empty(&self) -> bool
        ensures value { result ≡ (sum_by length self.now == 0) }
        ensures none { IsTrue result ↔ ((x : T) → IsFalse (together T.eq self.now x x)) }
    {
        self.classes.is_empty()
    }

    /// The number of items in all sets. Takes no memory. Upstream's `DisjointSets::len`.
    pub fn len(&self) -> usize
        ensures value { result ≡ sum_by length self.now }
        ensures small { result < 2 ^ 63 }

        // as many as a list has that has each of them once
        ensures count { (items : List T) × IsDistinct T.eq items × ((y : T) → in_set T.eq items y ≡ together T.eq self.now y y) × (length items ≡ result) }
        ensures partition { IsPartition T.eq self.now }
    {
        self.classes.len()
    }
}

impl<T: Copy + Debug + Eq + Hash> Clone for DisjointSets<T> {
    ghost is_clone = { λ a b. b ≡ a };

    /// The same sets in tables of their own. Upstream derives `Clone`.
    ///
    /// # Errors
    ///
    /// Where memory is refused.
    fn clone(&self) -> Result<DisjointSets<T>, AllocError>
        ensures same { IfOk result (λ copy. copy ≡ self.now) }
        ensures partition { IfOk result (λ copy. IsPartition T.eq copy) }
    {
        let alloc = *self.members.allocator();
        Ok(DisjointSets {
            classes: classes_copied(alloc, &self.classes)?,
            members: members_copied(alloc, &self.members)?,
            free: copied(alloc, &self.free)?,
        })
    }
}

// Whether both items have a class, and it is one class.
fn is_one_class(first: Option<usize>, second: Option<usize>) -> bool
    ensures { result ≡ same_number first second }
{
    match (first, second) {
        (Some(a), Some(b)) => a == b,
        _ => false,
    }
}

fn copied<X: Copy>(alloc: Global, items: &[X]) -> Result<Vec<X>, AllocError>
    ensures { IfOk result (λ copy. copy.items ≡ items.now) }
{
    let mut copy = Vec::new(alloc);
    copy.extend_from_slice(items)?;
    Ok(copy)
}

fn members_copied<T: Copy + Debug>(
    alloc: Global,
    members: &[Vec<T>],
) -> Result<Vec<Vec<T>>, AllocError>
    ensures { IfOk result (λ copy. sets_of copy.items ≡ sets_of members.now) }
{
    let mut copy = Vec::new(alloc);
    for set in members {
        copy.push(copied(alloc, set)?)?;
    }
    Ok(copy)
}

fn classes_copied<T: Copy + Debug + Eq + Hash>(
    alloc: Global,
    classes: &HashMap<T, usize>,
) -> Result<HashMap<T, usize>, AllocError>
    ensures same { IfOk result (λ copy. (q : T) → get T.eq copy q ≡ get T.eq classes.now q) }
    ensures len { IfOk result (λ copy. hash_map_len copy ≡ hash_map_len classes.now) }
{
    let mut copy = HashMap::with_capacity(alloc, classes.len())?;
    copy.extend(classes.iter())?;
    Ok(copy)
}

// Gives the items the class, so far as they have one.
fn renumber<T: Copy + Debug + Eq + Hash>(classes: &mut HashMap<T, usize>, items: &[T], class: usize)
    ensures moved { (q : T) → get T.eq classes.new q ≡ cond (in_set T.eq items.now q && is_some (get T.eq classes.old q)) (Some class) (get T.eq classes.old q) }
    ensures len { hash_map_len classes.new ≡ hash_map_len classes.old }
{
    for item in items {
        if let Some(number) = classes.get_mut(item) {
            *number = class;
        }
    }
}

// Gives an item that has no class this one, for which there is room.
fn put<T: Copy + Debug + Eq + Hash>(classes: &mut HashMap<T, usize>, item: T, class: usize)
    requires room { 0 < spare classes.old }
    requires outside { get T.eq classes.old item ≡ None }
    ensures updates { (q : T) → get T.eq classes.new q ≡ cond (T.eq item q) (Some class) (get T.eq classes.old q) }
    ensures len { hash_map_len classes.new ≡ hash_map_len classes.old + 1 }
    ensures spare { spare classes.old ≤ spare classes.new + 1 }
{
    let _replaced = classes.insert(item, class);
}

// Appends to a vector that has room.
fn push_within<X: Drop>(items: &mut Vec<X>, item: X)
    requires room { vec_len items.old < vec_capacity items.old }
    ensures { items.new.items ≡ items.old.items ++ item ∷ [] }
{
    let _pushed = items.push(item);
}

// Moves the elements of another to the end of a vector that has room for them.
fn append_within<X>(items: &mut Vec<X>, more: &mut Vec<X>)
    requires room { vec_len items.old + vec_len more.old ≤ vec_capacity items.old }
    ensures { items.new.items ≡ items.old.items ++ more.old.items }
{
    let _appended = items.append(more);
}

// Makes room for a new place, where no place is free.
fn reserve_place<X>(members: &mut Vec<X>, free: &Vec<usize>) -> Result<(), AllocError>
    ensures items { members.new.items ≡ members.old.items }
    ensures room { OnOk result (vec_len free.now ≡ 0 → vec_len members.new < vec_capacity members.new) }
{
    if free.is_empty() {
        members.reserve(1)?;
    }
    Ok(())
}

// Puts the set at a free place, or else at a new one, for which there is room, and answers the place.
fn place<T: Copy + Debug>(members: &mut Vec<Vec<T>>, free: &mut Vec<usize>, set: Vec<T>) -> usize
    requires room { vec_len free.old ≡ 0 → vec_len members.old < vec_capacity members.old }
    requires vacant { Vacant free.old.items (sets_of members.old.items) }
    requires filled { 0 < vec_len set }
    ensures put { IsPut (sets_of members.old.items) (sets_of members.new.items) result set.items }
    ensures before { slice_index_or (sets_of members.old.items) result [] ≡ [] }
    ensures vacant { Vacant free.new.items (sets_of members.new.items) }
{
    match free.pop() {
        Some(class) => {
            members[class] = set;
            class
        }
        None => {
            let class = members.len();
            push_within(members, set);
            class
        }
    }
}

fn pair<T: Copy + Debug>(alloc: Global, x: T, y: T) -> Result<Vec<T>, AllocError>
    ensures { IfOk result (λ set. set.items ≡ x ∷ y ∷ []) }
{
    let mut set = Vec::with_capacity(alloc, 2)?;
    set.push(x)?;
    set.push(y)?;
    Ok(set)
}

// Makes a set of two items that are in no set.
fn merge_two_items<T: Copy + Debug + Eq + Hash>(
    classes: &mut HashMap<T, usize>,
    members: &mut Vec<Vec<T>>,
    free: &mut Vec<usize>,
    x: T,
    y: T,
) -> Result<(), AllocError>
    requires fit { Fit T.eq classes.old members.old.items free.old.items }
    requires apart { IsFalse (T.eq x y) }
    requires first { get T.eq classes.old x ≡ None }
    requires second { get T.eq classes.old y ≡ None }
    ensures fit { Fit T.eq classes.new members.new.items free.new.items }
    ensures ok { OnOk result (IsMerge T.eq (get T.eq classes.old) (get T.eq classes.new) x y) }
    ensures len { OnOk result (hash_map_len classes.new ≡ hash_map_len classes.old + 2) }
    ensures err { OnErr result (sets_of members.new.items ≡ sets_of members.old.items) }
{
    let set = pair(*members.allocator(), x, y)?;
    reserve_place(members, free)?;
    classes.reserve(2)?;
    // from here on no memory is taken
    let class = place(members, free, set);
    put(classes, x, class);
    put(classes, y, class);
    Ok(())
}

// Puts an item that is in no set into a set that has some.
fn add_to_set<T: Copy + Debug + Eq + Hash>(
    classes: &mut HashMap<T, usize>,
    members: &mut Vec<Vec<T>>,
    class: usize,
    item: T,
) -> Result<(), AllocError>
    requires outside { get T.eq classes.old item ≡ None }
    requires some { 0 < length (slice_index_or (sets_of members.old.items) class []) }
    ensures fit { (free : List ℕ) → Fit T.eq classes.old members.old.items free → Fit T.eq classes.new members.new.items free }
    ensures ok { OnOk result ((q : T) → get T.eq classes.new q ≡ cond (T.eq item q) (Some class) (get T.eq classes.old q)) }
    ensures len { OnOk result (hash_map_len classes.new ≡ hash_map_len classes.old + 1) }
    ensures err { OnErr result (sets_of members.new.items ≡ sets_of members.old.items) }
{
    classes.reserve(1)?;
    members[class].push(item)?;
    put(classes, item, class);
    Ok(())
}

// Moves the members of one set, and its place becomes free. There is room for them.
fn pour<T: Copy + Debug + Eq + Hash>(
    classes: &mut HashMap<T, usize>,
    members: &mut Vec<Vec<T>>,
    free: &mut Vec<usize>,
    into: usize,
    from: usize,
)
    requires fit { Fit T.eq classes.old members.old.items free.old.items }
    requires apart { into ≢ from }
    requires first { 0 < length (slice_index_or (sets_of members.old.items) into []) }
    requires second { 0 < length (slice_index_or (sets_of members.old.items) from []) }
    requires place { vec_len free.old < vec_capacity free.old }
    requires room { (d : Vec T Global) → vec_len (slice_index_or members.old.items into d) + vec_len (slice_index_or members.old.items from d) ≤ vec_capacity (slice_index_or members.old.items into d) }
    ensures fit { Fit T.eq classes.new members.new.items free.new.items }
    ensures ok { (q : T) → get T.eq classes.new q ≡ cond (same_number (Some from) (get T.eq classes.old q)) (Some into) (get T.eq classes.old q) }
    ensures len { hash_map_len classes.new ≡ hash_map_len classes.old }
{
    let alloc = *members.allocator();
    let mut moved = mem::replace(&mut members[from], Vec::new(alloc));
    renumber(classes, &moved, into);
    append_within(&mut members[into], &mut moved);
    push_within(free, from);
}

// Puts the members of the second set into the first.
fn merge_sets<T: Copy + Debug + Eq + Hash>(
    classes: &mut HashMap<T, usize>,
    members: &mut Vec<Vec<T>>,
    free: &mut Vec<usize>,
    into: usize,
    from: usize,
) -> Result<(), AllocError>
    requires fit { Fit T.eq classes.old members.old.items free.old.items }
    requires apart { into ≢ from }
    requires first { 0 < length (slice_index_or (sets_of members.old.items) into []) }
    requires second { 0 < length (slice_index_or (sets_of members.old.items) from []) }
    ensures fit { Fit T.eq classes.new members.new.items free.new.items }
    ensures ok { OnOk result ((q : T) → get T.eq classes.new q ≡ cond (same_number (Some from) (get T.eq classes.old q)) (Some into) (get T.eq classes.old q)) }
    ensures len { OnOk result (hash_map_len classes.new ≡ hash_map_len classes.old) }
    ensures err { OnErr result (sets_of members.new.items ≡ sets_of members.old.items) }
{
    free.reserve(1)?;
    let more = members[from].len();
    members[into].reserve(more)?;
    // from here on no memory is taken
    pour(classes, members, free, into, from);
    Ok(())
}

// Makes one set of two, and moves the members of the shorter one.
fn merge_classes<T: Copy + Debug + Eq + Hash>(
    classes: &mut HashMap<T, usize>,
    members: &mut Vec<Vec<T>>,
    free: &mut Vec<usize>,
    a: usize,
    b: usize,
) -> Result<(), AllocError>
    requires fit { Fit T.eq classes.old members.old.items free.old.items }
    requires first { 0 < length (slice_index_or (sets_of members.old.items) a []) }
    requires second { 0 < length (slice_index_or (sets_of members.old.items) b []) }
    ensures fit { Fit T.eq classes.new members.new.items free.new.items }
    ensures ok { OnOk result ((x y : T) → get T.eq classes.old x ≡ Some a → get T.eq classes.old y ≡ Some b → IsMerge T.eq (get T.eq classes.old) (get T.eq classes.new) x y) }
    ensures len { OnOk result (hash_map_len classes.new ≡ hash_map_len classes.old) }
    ensures err { OnErr result (sets_of members.new.items ≡ sets_of members.old.items) }
{
    if a == b {
        return Ok(());
    }
    if members[a].len() < members[b].len() {
        merge_sets(classes, members, free, b, a)
    } else {
        merge_sets(classes, members, free, a, b)
    }
}

fn sorted<T: Copy + Debug + Ord>(alloc: Global, items: &[T]) -> Result<Vec<T>, AllocError>
    ensures same { IfOk result (λ set. IsPermutation items.now set.items) }
    ensures ascending { IfOk result (λ set. IsSorted T.cmp set.items) }
{
    let mut set = copied(alloc, items)?;
    set.sort_unstable();
    Ok(set)
}

// Takes the items out, each of which has a class.
fn forget<T: Copy + Debug + Eq + Hash>(classes: &mut HashMap<T, usize>, items: &[T])
    requires distinct { IsDistinct T.eq items.now }
    requires present { (q : T) → in_set T.eq items.now q ≡ true → is_some (get T.eq classes.old q) ≡ true }
    ensures gone { (q : T) → get T.eq classes.new q ≡ cond (in_set T.eq items.now q) None (get T.eq classes.old q) }
    ensures len { hash_map_len classes.new + length items.now ≡ hash_map_len classes.old }
{
    for item in items {
        classes.remove(item);
    }
}

// Takes a set away and answers its members in ascending order.
fn remove<T: Copy + Debug + Eq + Hash + Ord>(
    classes: &mut HashMap<T, usize>,
    members: &mut Vec<Vec<T>>,
    free: &mut Vec<usize>,
    class: usize,
) -> Result<Vec<T>, AllocError>
    requires fit { Fit T.eq classes.old members.old.items free.old.items }
    requires some { 0 < length (slice_index_or (sets_of members.old.items) class []) }
    ensures fit { Fit T.eq classes.new members.new.items free.new.items }
    ensures ok { OnOk result ((q : T) → get T.eq classes.new q ≡ cond (same_number (get T.eq classes.old q) (Some class)) None (get T.eq classes.old q)) }
    ensures members { IfOk result (λ set. (y : T) → in_set T.eq set.items y ≡ same_number (get T.eq classes.old y) (Some class)) }
    ensures ascending { IfOk result (λ set. IsStrictlySortedBy T.cmp set.items) }
    ensures answer { IfOk result (λ set. IsPermutation (slice_index_or (sets_of members.old.items) class []) set.items) }
    ensures len { IfOk result (λ set. hash_map_len classes.new + length set.items ≡ hash_map_len classes.old) }
    ensures err { OnErr result (sets_of members.new.items ≡ sets_of members.old.items) }
{
    let alloc = *members.allocator();
    let set = sorted(alloc, &members[class])?;
    free.reserve(1)?;
    // from here on no memory is taken
    forget(classes, &set);
    members[class] = Vec::new(alloc);
    push_within(free, class);
    Ok(set)
}
