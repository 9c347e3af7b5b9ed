//! Classes of a closure that are parts of themselves, at any depth.
ghost use Rattle.std.specs.Prelude.{◌≡◌, ◌<◌, ◌+◌, ◌-◌, ◌^◌, ◌++◌, ◌∷◌, [], ℕ, List, Contains, true, false, length, nat_eq, IfOk, OnOk, if◌then◌else◌};
ghost use Rattle.core_rule_sets.specs.Endings.{ClassEnds, ClassIsTaken, count_at, count_in, GoOnForEver, listed_at, PartsAreTaken, wholes_in};
ghost use Rattle.core_rule_sets.specs.Verdicts.{class_head};
ghost use Rattle.core_rule_sets.specs.declared.closure_classes.Part.{Part};

use crate::class_lists::{add_to_list, take_list};
use crate::closure_classes::{Part, class_of};
use crate::trie_again::BindingId;
use core_containers::disjointsets::DisjointSets;
use std::alloc::{AllocError, Global};
use std::collections::BTreeMap;

// How many parts of a class are left.
fn count(counts: &BTreeMap<BindingId, usize>, class: BindingId) -> usize
    ensures { result ≡ count_at counts.now class }
{
    match counts.get(&class) {
        Some(count) => *count,
        None => 0,
    }
}

// A class has one part more.
fn add_one(counts: &mut BTreeMap<BindingId, usize>, class: BindingId) -> Result<(), AllocError>
    requires { count_at counts.old class < 2 ^ 64 - 1 }
    ensures { OnOk result ((k : ℕ) → count_at counts.new k ≡ count_at counts.old k + (if nat_eq class k then 1 else 0)) }
{
    let more = count(counts, class) + 1;
    counts.insert(class, more)?;
    Ok(())
}

// How many parts each class has.
fn counts_of(
    alloc: Global,
    classes: &DisjointSets<BindingId>,
    parts: &[Part],
) -> Result<BTreeMap<BindingId, usize>, AllocError>
    requires { length parts.now < 2 ^ 64 }
    ensures { IfOk result (λ m. (class : ℕ) → count_at m class ≡ count_in classes.now parts.now class) }
{
    let mut counts = BTreeMap::new(alloc);
    for part in parts {
        add_one(&mut counts, class_of(classes, part.source))?;
    }
    Ok(counts)
}

// The classes that each class is a part of, once for each part.
fn wholes_of(
    alloc: Global,
    classes: &DisjointSets<BindingId>,
    parts: &[Part],
) -> Result<BTreeMap<BindingId, Vec<BindingId>>, AllocError>
    ensures { IfOk result (λ m. (class : ℕ) → listed_at m class ≡ wholes_in classes.now parts.now class) }
{
    let mut wholes = BTreeMap::new(alloc);
    for part in parts {
        let class = class_of(classes, part.field);
        add_to_list(alloc, &mut wholes, class, class_of(classes, part.source))?;
    }
    Ok(wholes)
}

// The classes of parts, of those that have no parts themselves.
fn last_classes(
    alloc: Global,
    classes: &DisjointSets<BindingId>,
    counts: &BTreeMap<BindingId, usize>,
    parts: &[Part],
) -> Result<Vec<BindingId>, AllocError>
    ensures all { IfOk result (λ v. (p : Part) → Contains parts.now p → count_at counts.now (class_head classes.now p.field) ≡ 0 → Contains v.items (class_head classes.now p.field)) }
    ensures only { IfOk result (λ v. (k : ℕ) → Contains v.items k → count_at counts.now k ≡ 0) }
{
    let mut last = Vec::new(alloc);
    for part in parts {
        let class = class_of(classes, part.field);
        if count(counts, class) == 0 {
            last.push(class)?;
        }
    }
    Ok(last)
}

// A part of a class is left out. The class ends where no other is left.
fn take_part(
    counts: &mut BTreeMap<BindingId, usize>,
    ended: &mut Vec<BindingId>,
    class: BindingId,
) -> Result<(), AllocError>
    ensures counts { OnOk result ((k : ℕ) → count_at counts.new k ≡ count_at counts.old k - (if nat_eq class k then 1 else 0)) }
    ensures ended { OnOk result (ended.new.items ≡ ended.old.items ++ (if nat_eq (count_at counts.new class) 0 then class ∷ [] else [])) }
{
    let left = count(counts, class).saturating_sub(1);
    counts.insert(class, left)?;
    if left == 0 {
        ended.push(class)?;
    }
    Ok(())
}

// A part of each of some classes is left out.
fn take_parts(
    counts: &mut BTreeMap<BindingId, usize>,
    ended: &mut Vec<BindingId>,
    wholes: &[BindingId],
) -> Result<(), AllocError>
    ensures { OnOk result (PartsAreTaken (count_at counts.old) (count_at counts.new) wholes.now ended.old.items ended.new.items) }
{
    for whole in wholes {
        take_part(counts, ended, *whole)?;
    }
    Ok(())
}

// A class that has no parts is left out, as a part of so many.
fn take_class(
    alloc: Global,
    wholes: &mut BTreeMap<BindingId, Vec<BindingId>>,
    counts: &mut BTreeMap<BindingId, usize>,
    ended: &mut Vec<BindingId>,
    class: BindingId,
) -> Result<usize, AllocError>
    ensures { IfOk result (ClassIsTaken (listed_at wholes.old) (listed_at wholes.new) (count_at counts.old) (count_at counts.new) class ended.old.items ended.new.items) }
{
    let above = take_list(alloc, wholes, class);
    take_parts(counts, ended, &above)?;
    Ok(above.len())
}

/// Whether parts, their parts and so on never end: a class is then a part of itself. Parts whose class has none are
/// left out, each once, as long as there are some.
///
/// # Errors
///
/// Where memory is refused.
pub fn has_cycle(
    alloc: Global,
    classes: &DisjointSets<BindingId>,
    parts: &[Part],
) -> Result<bool, AllocError>
    ensures cycle { IfOk result (λ b. b ≡ true → (left : List Part) × GoOnForEver classes.now parts.now left) }
    ensures none { IfOk result (λ b. b ≡ false → (class : ℕ) → ClassEnds classes.now parts.now class) }
{
    let mut left = parts.len();
    let mut wholes = wholes_of(alloc, classes, parts)?;
    let mut counts = counts_of(alloc, classes, parts)?;
    let mut ended = last_classes(alloc, classes, &counts, parts)?;
    while let Some(class) = ended.pop() {
        left -= take_class(alloc, &mut wholes, &mut counts, &mut ended, class)?;
    }
    Ok(left > 0)
}
