//! A list of numbers, each once, to which numbers are pushed at its end and from which they are cut off again. A table says
//! at which place each stands, so that none is looked for.
ghost use Rattle.std.specs.Prelude.{◌≡◌, ◌∷◌, ◌++◌, [], ℕ, ◌||◌, false, if◌then◌else◌, None, Some, drop, length, take, slice_get, MatchOption, OnOk, OnErr};
ghost use Rattle.core_containers.specs.Places.{is_at, is_in, HasPlaces, Extends, KeepsPlaces, KeepsOthers};

use std::alloc::{AllocError, Global};
use std::marker::Model;

/// A list of numbers, each once. A contract sees it as the list.
#[derive(Drop)]
pub struct Stack {
    // the numbers, in the order in which they came
    list: Vec<u16>,
    // of each number the place in the list where it was last. What it says of a number that was cut off is refuted by the list
    places: Vec<usize>,
}

impl Model for Stack {
    ghost use Rattle.std.specs.Prelude.{List, ℕ};
    ghost use Rattle.core_containers.specs.Places.{HasPlaces};

    ghost Value = { List ℕ };

    ghost view = { λ s. s.list.items };

    ghost invariant = { λ s. HasPlaces s.list.items s.places.items };
}

impl Stack {
    /// The empty list. Takes no memory.
    pub fn new(alloc: Global) -> Stack
        ensures { result ≡ [] }
    {
        Stack {
            list: Vec::new(alloc),
            places: Vec::new(alloc),
        }
    }

    /// How many numbers the list has.
    pub fn len(&self) -> usize
        ensures { result ≡ length self.now }
    {
        self.list.len()
    }

    /// The numbers behind the first ones, so many.
    pub fn behind(&self, count: usize) -> &[u16]
        ensures { result.now ≡ drop count self.now }
    {
        match self.list.get(count..) {
            Some(rest) => rest,
            None => &[],
        }
    }

    /// At which place of the list a number stands, if it does.
    pub fn place_of(&self, number: u16) -> Option<usize>
        ensures { MatchOption result (is_in number self.now ≡ false) (λ place. slice_get self.now place ≡ Some number) }
    {
        match self.places.get(number as usize) {
            Some(place) => place_if(stands_at(&self.list, *place, number), *place),
            None => None,
        }
    }

    /// Whether the list has a number.
    pub fn contains(&self, number: u16) -> bool
        ensures { result ≡ is_in number self.now }
    {
        self.place_of(number).is_some()
    }

    /// Adds a number that the list doesn't have at its end.
    ///
    /// # Errors
    ///
    /// Where memory is refused: then the list stays.
    pub fn push(&mut self, number: u16) -> Result<(), AllocError>
        requires { is_in number self.old ≡ false }
        ensures pushed { OnOk result (self.new ≡ self.old ++ number ∷ []) }
        ensures kept { OnErr result (self.new ≡ self.old) }
    {
        let place = self.list.len();
        put_place(&mut self.places, number, place)?;
        self.list.push(number)?;
        Ok(())
    }

    /// Adds a number at the end of the list, where it isn't there.
    ///
    /// # Errors
    ///
    /// Where memory is refused: then the list stays.
    pub fn insert(&mut self, number: u16) -> Result<(), AllocError>
        ensures added { OnOk result (self.new ≡ (if is_in number self.old then self.old else self.old ++ number ∷ [])) }
        ensures kept { OnErr result (self.new ≡ self.old) }
    {
        if self.contains(number) {
            return Ok(());
        }
        self.push(number)
    }

    /// Adds each of these numbers at the end of the list, where it isn't there.
    ///
    /// # Errors
    ///
    /// Where memory is refused.
    pub fn insert_all(&mut self, numbers: &[u16]) -> Result<(), AllocError>
        ensures added { OnOk result ((n : ℕ) → is_in n self.new ≡ (is_in n numbers.now || is_in n self.old)) }
        ensures grown { OnOk result (Extends self.old self.new) }
    {
        for number in numbers {
            self.insert(*number)?;
        }
        Ok(())
    }

    /// KeepsPlaces the first of the numbers, so many.
    pub fn truncate(&mut self, len: usize)
        ensures { self.new ≡ take len self.old }
    {
        self.list.truncate(len);
    }
}

fn stands_at(list: &[u16], place: usize, number: u16) -> bool
    ensures { result ≡ is_at list.now place number }
{
    match list.get(place) {
        Some(other) => *other == number,
        None => false,
    }
}

fn place_if(stands: bool, place: usize) -> Option<usize>
    ensures { result ≡ (if stands then Some place else None) }
{
    if stands { Some(place) } else { None }
}

// Notes the place of a number, in a table that grows as far as it must.
fn put_place(places: &mut Vec<usize>, number: u16, place: usize) -> Result<(), AllocError>
    ensures put { OnOk result (slice_get places.new.items number ≡ Some place) }
    ensures others { OnOk result (KeepsOthers number places.old.items places.new.items) }
    ensures kept { OnErr result (KeepsPlaces places.old.items places.new.items) }
{
    let at = number as usize;
    if places.len() <= at {
        places.resize(at + 1, 0)?;
    }
    places[at] = place;
    Ok(())
}
