//! Merges, of which none may take long.

use cranelift_isle::disjointsets::DisjointSets;
use std::alloc::{AllocError, Global};

/// Adds what becomes of ten thousand merges that make a chain, and of as many that make a set each which is taken away: its place is
/// used again.
pub fn push_merges(alloc: Global, out: &mut String) -> Result<(), AllocError> {
    let mut sets: DisjointSets<u32> = DisjointSets::new(alloc);
    let chain = chained(&mut sets)?;
    let pairs = paired(&mut sets)?;
    write!(out, "{chain} in a chain, {pairs} pairs\n{sets:?}\n")
}

// How many items stand in the set of a chain, if its ends do.
fn chained(sets: &mut DisjointSets<u32>) -> Result<usize, AllocError> {
    for x in 0..10_000 {
        sets.merge(x, x + 1)?;
    }
    if sets.in_same_set(0, 10_000) {
        Ok(sets.remove_set_of(5_000)?.len())
    } else {
        Ok(0)
    }
}

// How many of ten thousand sets have two items. Each is taken away.
fn paired(sets: &mut DisjointSets<u32>) -> Result<usize, AllocError> {
    let mut count = 0usize;
    for x in 0..10_000 {
        sets.merge(x, x + 10_000)?;
        if sets.remove_set_of(x)?.len() == 2 {
            count = count.saturating_add(1);
        }
    }
    Ok(count)
}
