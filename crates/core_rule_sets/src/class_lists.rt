//! Lists kept for classes, by the sites by which the classes go.
ghost use Rattle.std.specs.Prelude.{◌≡◌, ◌++◌, ◌∷◌, [], ℕ, nat_eq, OnOk, if◌then◌else◌};
ghost use Rattle.core_rule_sets.specs.Endings.{listed_at};

use crate::trie_again::BindingId;
use std::alloc::{AllocError, Global};
use std::collections::BTreeMap;

/// The list of a class, which is no longer kept for it. It is empty where none was.
pub(crate) fn take_list<T: Copy>(
    alloc: Global,
    lists: &mut BTreeMap<BindingId, Vec<T>>,
    class: BindingId,
) -> Vec<T>
    ensures taken { result.items ≡ listed_at lists.old class }
    ensures rest { (k : ℕ) → listed_at lists.new k ≡ (if nat_eq class k then [] else listed_at lists.old k) }
{
    match lists.remove(&class) {
        Some(taken) => taken,
        None => Vec::new(alloc),
    }
}

/// The list of a class has one item more, at its end.
///
/// # Errors
///
/// Where memory is refused. The list of the class may then be lost.
pub(crate) fn add_to_list<T: Copy>(
    alloc: Global,
    lists: &mut BTreeMap<BindingId, Vec<T>>,
    class: BindingId,
    item: T,
) -> Result<(), AllocError>
    ensures { OnOk result ((k : ℕ) → listed_at lists.new k ≡ listed_at lists.old k ++ (if nat_eq class k then item ∷ [] else [])) }
{
    let mut listed = take_list(alloc, lists, class);
    listed.push(item)?;
    lists.insert(class, listed)?;
    Ok(())
}
