//! Lists that are parted by a test.

ghost use Rattle.std.specs.Prelude.{◌≡◌, ◌∷◌, ◌++◌, [], cond, drop, not, set, OnOk};

use std::alloc::AllocError;

/// Adds an item to a list where it is wanted.
pub fn keep<T: Copy>(list: &mut Vec<T>, item: T, wanted: bool) -> Result<(), AllocError>
    ensures { OnOk result (list.new.items ≡ list.old.items ++ cond wanted (item ∷ []) []) }
{
    if wanted {
        list.push(item)?;
    }
    Ok(())
}

/// Adds a number to the first of two lists, or else to the second.
pub fn part(
    asking: &mut Vec<usize>,
    others: &mut Vec<usize>,
    number: usize,
    asks: bool,
) -> Result<(), AllocError>
    ensures asking { OnOk result (asking.new.items ≡ asking.old.items ++ cond asks (number ∷ []) []) }
    ensures others { OnOk result (others.new.items ≡ others.old.items ++ cond (not asks) (number ∷ []) []) }
{
    keep(asking, number, asks)?;
    keep(others, number, !asks)
}

/// Those behind the first of some items.
pub fn behind<T: Copy>(items: &[T], count: usize) -> &[T]
    ensures { result.now ≡ drop count items.now }
{
    match items.get(count..) {
        Some(rest) => rest,
        None => &[],
    }
}

/// Puts an item at a place of a list, where the list has the place.
pub fn put<T: Copy>(items: &mut Vec<T>, place: usize, item: T)
    ensures { items.new.items ≡ set items.old.items place item }
{
    if place < items.len() {
        items[place] = item;
    }
}
