//! Containers beside copies that were made before a call is refused.

use core_containers::disjointsets::DisjointSets;
use core_syntax::stablemapset::{StableMap, StableSet};
use std::alloc::{AllocError, Global};

// Numbers below this one are told apart; twelve are more than a table holds before it grows for the second time.
const NUMBERS: u32 = 12;

/// Whether a set that grows number by number is what its copy is after each refused insert.
pub fn sets_stay(alloc: Global) -> Result<bool, AllocError> {
    let mut set: StableSet<u32> = StableSet::new(alloc);
    let mut stays = true;
    for number in 0..NUMBERS {
        stays = stays_at_insert(&mut set, number)? && stays;
    }
    Ok(stays && set.len() == 12)
}

// Adds a number, after a refusal for the second time. Whether the refusal left what the set had.
fn stays_at_insert(set: &mut StableSet<u32>, number: u32) -> Result<bool, AllocError> {
    let copy = set.clone()?;
    if set.insert(number).is_ok() {
        return Ok(true);
    }
    let stays = is_set(set, &copy);
    set.insert(number)?;
    Ok(stays)
}

// Whether two sets have the same numbers.
fn is_set(set: &StableSet<u32>, copy: &StableSet<u32>) -> bool {
    (0..NUMBERS).all(|number| set.contains(&number) == copy.contains(&number))
        && set.len() == copy.len()
}

/// The same of a map whose keys come twice, with other values.
pub fn maps_stay(alloc: Global) -> Result<bool, AllocError> {
    let mut map: StableMap<u32, u32> = StableMap::new(alloc);
    let mut stays = true;
    for number in 0..NUMBERS {
        stays = stays_at_entry(&mut map, number, 0)? && stays;
        stays = stays_at_entry(&mut map, number, 1)? && stays;
    }
    Ok(stays && map.len() == 12 && map.get(&3) == Some(&1))
}

// Gives a key a value, after a refusal for the second time. Whether the refusal left what the map had.
fn stays_at_entry(map: &mut StableMap<u32, u32>, key: u32, value: u32) -> Result<bool, AllocError> {
    let copy = map.clone()?;
    if map.insert(key, value).is_ok() {
        return Ok(true);
    }
    let stays = is_map(map, &copy);
    map.insert(key, value)?;
    Ok(stays)
}

// Whether two maps have the same keys with the same values.
fn is_map(map: &StableMap<u32, u32>, copy: &StableMap<u32, u32>) -> bool {
    (0..NUMBERS).all(|key| map.get(&key) == copy.get(&key)) && map.len() == copy.len()
}

/// Whether two pairs with one key make a map of the later one, after a refusal at the second try.
pub fn pairs_make_a_map(alloc: Global) -> Result<bool, AllocError> {
    let map = StableMap::from_iter(alloc, Vec::from_array(alloc, [(1u32, 'a'), (1, 'b')])?)?;
    Ok(map.len() == 1 && map.get(&1) == Some(&'b'))
}

// What is merged: two sets, nothing new, one set of both, a member on either side, and two more sets.
const MERGES: [(u32, u32); 8] = [
    (1, 2),
    (1, 2),
    (5, 6),
    (2, 5),
    (0, 1),
    (5, 3),
    (7, 8),
    (9, 10),
];

/// Whether sets that merges make are what their copies are after each refused merge.
pub fn partitions_stay(alloc: Global) -> Result<bool, AllocError> {
    let mut sets: DisjointSets<u32> = DisjointSets::new(alloc);
    let stays = stays_at_merges(&mut sets)?;
    Ok(stays && sets.len() == 10 && sets.in_same_set(0, 3) && !sets.in_same_set(7, 9))
}

// Makes all merges. Whether each refusal left the sets as they were.
fn stays_at_merges(sets: &mut DisjointSets<u32>) -> Result<bool, AllocError> {
    let mut stays = true;
    for (x, y) in MERGES {
        stays = stays_at_merge(sets, x, y)? && stays;
    }
    Ok(stays)
}

// Merges two numbers, after a refusal for the second time. Whether the refusal left the sets as they were.
fn stays_at_merge(sets: &mut DisjointSets<u32>, x: u32, y: u32) -> Result<bool, AllocError> {
    if x == y {
        return Ok(false);
    }
    let copy = sets.clone()?;
    if sets.merge(x, y).is_ok() {
        return Ok(true);
    }
    let stays = is_partition(sets, &copy);
    sets.merge(x, y)?;
    Ok(stays)
}

// Whether the sets are the same, and each has the same name.
fn is_partition(sets: &DisjointSets<u32>, copy: &DisjointSets<u32>) -> bool {
    (0..NUMBERS).all(|x| is_in_the_same(sets, copy, x)) && sets.len() == copy.len()
}

// The same of one number's set.
fn is_in_the_same(sets: &DisjointSets<u32>, copy: &DisjointSets<u32>, x: u32) -> bool {
    (0..NUMBERS).all(|y| sets.in_same_set(x, y) == copy.in_same_set(x, y))
        && sets.find(x) == copy.find(x)
}

/// Whether sets are what their copies are after a refused removal, and a merge can be made after it.
pub fn removals_stay(alloc: Global) -> Result<bool, AllocError> {
    let mut sets: DisjointSets<u32> = DisjointSets::new(alloc);
    sets.merge(1, 2)?;
    sets.merge(5, 6)?;
    sets.merge(2, 5)?;
    let stays = stays_at_removal(&mut sets, 6)?;
    sets.merge(2, 3)?;
    Ok(stays && sets.find(1).is_none() && sets.len() == 2)
}

// Takes the set of four away, after a refusal for the second time. Whether the refusal left the sets as they were.
fn stays_at_removal(sets: &mut DisjointSets<u32>, x: u32) -> Result<bool, AllocError> {
    let copy = sets.clone()?;
    if let Ok(members) = sets.remove_set_of(x) {
        return Ok(is_removed(&members));
    }
    let stays = is_partition(sets, &copy);
    let members = sets.remove_set_of(x)?;
    Ok(stays && is_removed(&members))
}

// Whether these are the members in their order.
fn is_removed(members: &[u32]) -> bool {
    members == [1, 2, 5, 6].as_slice()
}
