//! The variables that are bound so far, and what each is bound to.

ghost use Rattle.std.specs.Prelude.{◌≡◌, ◌≤◌, [], IfErr, IfOk, IsTrue, MatchResult, OnErr, OnOk, Some, alloc_error, insert, vec_len};
ghost use Rattle.std.specs.List.Sorted.{IsStrictlySortedBy};
ghost use Rattle.std.specs.Ordering.{nat_cmp};
ghost use Rattle.model.specs.trees.Places.{is_in};
ghost use Rattle.model.specs.visits.Runs.{binds, bound_at, bound_vars};
ghost use Rattle.core_syntax.specs.declared.visit_fault.VisitFault.TheVariants.{Memory};
ghost use Rattle.core_typed.specs.BoundEntries.{FitsAt, StandsAt, by_number};
ghost use Rattle.core_typed.specs.VisitorSteps.{no_memory};

use core_syntax::visit_fault::VisitFault;
use core_types::VarId;
use std::alloc::Global;
use std::marker::Model;

/// Variables, ascending, and what each is bound to. A contract sees them as the list of their numbers, each with its id.
#[derive(Drop)]
pub struct BoundIds<P> {
    // A visit binds variables in the order of their numbers, nearly always: then they come to the end.
    entries: Vec<(VarId, P)>,
}

impl<P> Model for BoundIds<P> {
    ghost use Rattle.std.specs.List.Sorted.{IsStrictlySortedBy};
    ghost use Rattle.std.specs.Ordering.{nat_cmp};
    ghost use Rattle.model.specs.visits.Runs.{BoundIds as Bound, bound_vars};
    ghost use Rattle.core_typed.specs.BoundEntries.{by_number};

    ghost Value = { Bound P };

    ghost view = { λ s. by_number s.entries.items };

    ghost invariant = { λ s. IsStrictlySortedBy nat_cmp (bound_vars (by_number s.entries.items)) };
}

impl<P: Copy> BoundIds<P> {
    /// No variables. Takes no memory.
    pub fn new(alloc: Global) -> BoundIds<P>
        ensures { result ≡ [] }
    {
        BoundIds {
            entries: Vec::new(alloc),
        }
    }

    /// The variables, ascending, each with its id.
    pub fn entries(&self) -> &[(VarId, P)]
        ensures value { by_number result.now ≡ self.now }
        ensures ascending { IsStrictlySortedBy nat_cmp (bound_vars self.now) }
    {
        &self.entries
    }

    /// The id that a variable is bound to. It has to be bound.
    pub fn id_of(&self, var: VarId) -> P
        requires { IsTrue (is_in var.0 (bound_vars self.now)) }
        ensures { bound_at self.now var.0 ≡ Some result }
    {
        match place_of(&self.entries, var) {
            Ok(place) => self.entries[place].1,
            Err(_) => unreachable!(),
        }
    }

    /// Binds a variable to an id, over what it was bound to. `Memory` where memory is refused: then nothing
    /// changes.
    pub fn bind(&mut self, var: VarId, id: P) -> Result<(), VisitFault>
        ensures { binds no_memory var.0 id self.old result self.new }
    {
        match place_of(&self.entries, var) {
            Ok(place) => self.entries[place] = (var, id),
            Err(place) => put_entry(&mut self.entries, place, (var, id))?,
        }
        Ok(())
    }

    /// The same variables in a list of their own.
    ///
    /// # Errors
    ///
    /// `Memory` where memory is refused.
    pub fn copy(&self, alloc: Global) -> Result<BoundIds<P>, VisitFault>
        ensures ok { IfOk result (λ copy. copy ≡ self.now) }
        ensures err { IfErr result (λ fault. fault ≡ Memory alloc_error) }
    {
        let mut entries = Vec::new(alloc);
        for entry in &self.entries {
            entries.push(*entry)?;
        }
        Ok(BoundIds { entries })
    }
}

// Puts an entry at a place: nearly always at the end, where nothing has to move.
fn put_entry<P: Copy>(
    entries: &mut Vec<(VarId, P)>,
    place: usize,
    entry: (VarId, P),
) -> Result<(), VisitFault>
    requires { place ≤ vec_len entries.old }
    ensures items { OnOk result (entries.new.items ≡ insert entries.old.items place entry) }
    ensures kept { OnErr result (entries.new.items ≡ entries.old.items) }
    ensures err { IfErr result (λ fault. fault ≡ Memory alloc_error) }
{
    if place == entries.len() {
        entries.push(entry)?;
    } else {
        entries.insert(place, entry)?;
    }
    Ok(())
}

// The place of a variable among entries that ascend, or the one where it fits.
fn place_of<P>(entries: &[(VarId, P)], var: VarId) -> Result<usize, usize>
    requires { IsStrictlySortedBy nat_cmp (bound_vars (by_number entries.now)) }
    ensures { MatchResult result (StandsAt entries.now var.0) (FitsAt entries.now var.0) }
{
    match entries.last() {
        Some(last) if var <= last.0 => entries.binary_search_by_key(&var, |entry| entry.0),
        _ => Err(entries.len()),
    }
}
