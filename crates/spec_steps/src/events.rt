//! What happens in a condition, in order.
ghost use Rattle.std.specs.Prelude.{◌≡◌, ◌∷◌, ◌++◌, [], map, IfOk, OnOk};
ghost use Rattle.laws_specs.specs.Conditions as C;
ghost use Rattle.model_questions.specs.Steps as S;
ghost use Rattle.spec_cases.specs.Namings.{Naming};
ghost use Rattle.spec_cases.specs.Places.{AreApart};
ghost use Rattle.spec_steps.specs.Demands.{same_views, tested_views, Meant};
ghost use Rattle.spec_steps.specs.Events.{event_view, event_views};
ghost use Rattle.spec_steps.specs.Listing.{sites, Lists};
ghost use Rattle.spec_steps.specs.Sites.{AreSites};

use crate::demands::{Demands, Same, Tested};
use crate::listing::{args_in, call_of, fresh, result_in, tested_in, with_first};
use crate::telling::told_in;
use core_rule_sets::trie_again::Binding;
use spec_cases::faults::Fault;
use std::alloc::Global;

/// What happens.
#[derive(Clone, Copy)]
pub enum Event {
    /// A site is tested.
    Tests(Tested),
    /// Two sites are to be equal.
    Equals(Same),
    /// An impure call is made.
    Calls(u32),
    /// The result is given.
    Gives(u32),
}

// Adds tests.
#[tactic(auto, using(crate::proofs::EventSteps::event_steps))]
fn add_tests(tests: &[Tested], out: &mut Vec<Event>) -> Result<(), Fault>
    ensures { OnOk result ((v : Naming) → event_views v out.new.items ≡ event_views v out.old.items ++ map (λ e. S.tests e.0 e.1) (tested_views v tests.now)) }
{
    match tests {
        [] => Ok(()),
        [first, rest @ ..] => {
            out.push(Event::Tests(*first))?;
            Ok(add_tests(rest, out)?)
        }
    }
}

// Adds equalities.
#[tactic(auto, using(crate::proofs::EventSteps::event_steps))]
fn add_equals(equalities: &[Same], out: &mut Vec<Event>) -> Result<(), Fault>
    ensures { OnOk result ((v : Naming) → event_views v out.new.items ≡ event_views v out.old.items ++ map (λ e. S.equals_at e.0 e.1) (same_views v equalities.now)) }
{
    match equalities {
        [] => Ok(()),
        [first, rest @ ..] => {
            out.push(Event::Equals(*first))?;
            Ok(add_equals(rest, out)?)
        }
    }
}

// Adds impure calls.
#[tactic(auto, using(crate::proofs::EventSteps::event_steps))]
fn add_calls(calls: &[u32], out: &mut Vec<Event>) -> Result<(), Fault>
    ensures { OnOk result ((v : Naming) → event_views v out.new.items ≡ event_views v out.old.items ++ map S.calls (sites v calls.now)) }
{
    match calls {
        [] => Ok(()),
        [first, rest @ ..] => {
            out.push(Event::Calls(*first))?;
            Ok(add_calls(rest, out)?)
        }
    }
}

fn push_event(event: Event, out: &mut Vec<Event>) -> Result<(), Fault>
    ensures { OnOk result (out.new.items ≡ out.old.items ++ event ∷ []) }
{
    out.push(event)?;
    Ok(())
}

/// What happens in the condition.
///
/// # Errors
///
/// `Memory` where memory is refused.
pub fn events_of(alloc: Global, demands: &Demands<'_>) -> Result<Vec<Event>, Fault>
    ensures { IfOk result (λ l. (v : Naming) (m : Meant v demands.now) → event_views v l.items ≡ S.events_of m.c) }
{
    let mut out = Vec::new(alloc);
    add_tests(demands.constraints, &mut out)?;
    add_equals(demands.equalities, &mut out)?;
    add_calls(demands.impure, &mut out)?;
    push_event(Event::Gives(demands.result), &mut out)?;
    Ok(out)
}

fn equal_sites(bindings: &[Binding], same: Same, out: &mut Vec<u32>) -> Result<(), Fault>
    ensures { OnOk result ((v : Naming) → AreSites v bindings.now → Lists v out.old.items out.new.items (S.told_in (v.site same.first) ++ S.told_in (v.site same.second))) }
{
    told_in(bindings, same.first, out)?;
    Ok(told_in(bindings, same.second, out)?)
}

fn called_sites(bindings: &[Binding], site: u32, out: &mut Vec<u32>) -> Result<(), Fault>
    ensures { OnOk result ((v : Naming) → AreSites v bindings.now → Lists v out.old.items out.new.items (S.args_in (C.call_of (v.site site)))) }
{
    let call = call_of(bindings, site)?;
    Ok(args_in(bindings, call, out)?)
}

// Adds the sites that are told of in what happens.
fn add_sites(
    demands: &Demands<'_>,
    done: &[u32],
    event: Event,
    out: &mut Vec<u32>,
) -> Result<(), Fault>
    ensures { OnOk result ((v : Naming) (m : Meant v demands.now) → Lists v out.old.items out.new.items (S.event_sites m.p m.specs m.c (sites v done.now) (event_view v event))) }
{
    match event {
        Event::Tests(test) => Ok(tested_in(demands, test.site, test.constraint, out)?),
        Event::Equals(same) => Ok(equal_sites(demands.bindings, same, out)?),
        Event::Calls(site) => Ok(called_sites(demands.bindings, site, out)?),
        Event::Gives(site) => Ok(result_in(demands, done, site, out)?),
    }
}

// The sites that are told of in what happens.
pub(crate) fn event_sites(
    alloc: Global,
    demands: &Demands<'_>,
    done: &[u32],
    event: Event,
) -> Result<Vec<u32>, Fault>
    ensures { IfOk result (λ l. (v : Naming) (m : Meant v demands.now) → sites v l.items ≡ S.event_sites m.p m.specs m.c (sites v done.now) (event_view v event)) }
{
    let mut out = Vec::new(alloc);
    add_sites(demands, done, event, &mut out)?;
    Ok(out)
}

// Those that weren't seen before.
pub(crate) fn fresh_sites(alloc: Global, seen: &[u32], list: &[u32]) -> Result<Vec<u32>, Fault>
    ensures { IfOk result (λ l. (v : Naming) → AreApart v → sites v l.items ≡ S.fresh (sites v seen.now) (sites v list.now)) }
{
    let mut out = Vec::new(alloc);
    fresh(alloc, seen, list, &mut out)?;
    Ok(out)
}

// An impure call before those that were made.
fn made_call(
    alloc: Global,
    bindings: &[Binding],
    site: u32,
    done: &[u32],
) -> Result<Vec<u32>, Fault>
    ensures { IfOk result (λ l. (v : Naming) → AreSites v bindings.now → sites v l.items ≡ C.call_of (v.site site) ∷ sites v done.now) }
{
    let call = call_of(bindings, site)?;
    Ok(with_first(alloc, call, done)?)
}

// The impure calls that were made after what happened.
pub(crate) fn made_after(
    alloc: Global,
    bindings: &[Binding],
    event: Event,
    done: &[u32],
) -> Result<Vec<u32>, Fault>
    ensures { IfOk result (λ l. (v : Naming) → AreSites v bindings.now → sites v l.items ≡ S.made_after (event_view v event) (sites v done.now)) }
{
    match event {
        Event::Calls(site) => Ok(made_call(alloc, bindings, site, done)?),
        Event::Tests(_) | Event::Equals(_) | Event::Gives(_) => Ok(Vec::from_slice(alloc, done)?),
    }
}
