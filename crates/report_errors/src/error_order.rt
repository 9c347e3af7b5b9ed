//! Which errors a person is shown, and which say no more than another one.

use crate::template_errors::{UseError, first_like};
use core_syntax::syntax::{Def, Error, Pos};
use core_why::{Why, Wrong};
use report_names::definitions::rule_around;
use report_names::mentions::{Mentions, Need};
use std::alloc::{AllocError, Global};
use std::collections::BTreeMap;

/// Which errors are shown, by their numbers.
pub struct Order {
    /// The errors that are shown, in order.
    pub shown: Vec<usize>,
    /// Of each error the one that it is told with: itself, where it is shown.
    pub leaders: Vec<usize>,
}

impl Drop for Order {
    fn drop(self) {
        let Order {
            shown: _,
            leaders: _,
        } = self;
    }
}

impl Order {
    /// All of so many errors are shown.
    ///
    /// # Errors
    ///
    /// Where memory is refused.
    pub fn of_all(alloc: Global, count: usize) -> Result<Order, AllocError> {
        let mut shown = Vec::new(alloc);
        let mut leaders = Vec::new(alloc);
        for number in 0..count {
            shown.push(number)?;
            leaders.push(number)?;
        }
        Ok(Order { shown, leaders })
    }

    /// Of these errors those are shown that say no more than another one. What says that a term can't be used is told with
    /// what says that it isn't defined, which comes first then; a cycle of internal extractors is told once; and so is what is
    /// defined twice, with both places. A variable that isn't known because what binds it has an error is told with this error,
    /// and so is a wrong type that comes from a term without a constructor. Of the calls of a condition that aren't pure the
    /// first is told, and of errors in a template one.
    ///
    /// # Errors
    ///
    /// Where memory is refused.
    pub(crate) fn by_causes(
        alloc: Global,
        defs: &[Def],
        errors: &[Error],
        uses: &[Option<UseError<'_>>],
    ) -> Result<Order, AllocError> {
        let causes = Causes::new(alloc, errors)?;
        let mut leaders = Vec::new(alloc);
        for (number, error) in errors.iter().enumerate() {
            let mut leader = match first_like(uses, number) {
                Some(first) => first,
                None => number,
            };
            if leader == number {
                leader = match causes.of(error) {
                    Some(leader) => leader,
                    None => leader_beside(alloc, defs, errors, &causes, &leaders)?,
                };
            }
            leaders.push(leader)?;
        }
        let shown = shown_of(alloc, &leaders)?;
        Ok(Order { shown, leaders })
    }

    /// How many other errors are told with the one of a number.
    pub(crate) fn told_with(&self, number: usize) -> usize {
        self.leaders
            .iter()
            .filter(|leader| **leader == number)
            .count()
            .saturating_sub(1)
    }
}

// The errors that lead, in the order in which they are led to.
fn shown_of(alloc: Global, leaders: &[usize]) -> Result<Vec<usize>, AllocError> {
    let mut told = Vec::new(alloc);
    for _ in leaders {
        told.push(false)?;
    }
    let mut shown = Vec::new(alloc);
    for leader in leaders {
        if let Some(told) = told.get_mut(*leader) {
            if !*told {
                *told = true;
                shown.push(*leader)?;
            }
        }
    }
    Ok(shown)
}

/// What isn't right, if that is a definition or what it says.
pub(crate) fn why_of(error: &Error) -> Option<&Why> {
    match error {
        Error::TypeError { msg, .. } => Some(msg),
        _ => None,
    }
}

/// Where a type error stands.
pub(crate) fn place_of(error: &Error) -> Option<Pos> {
    match error {
        Error::TypeError { span, .. } => Some(span.from),
        _ => None,
    }
}

// The errors that others may be told with.
struct Causes<'a> {
    // The terms that aren't defined, each with the first error that says so.
    terms: BTreeMap<&'a str, usize>,
    // The places of terms without a constructor, each with the last error that says so.
    unmade: BTreeMap<Pos, usize>,
    // The internal extractors of cycles that errors tell, each with the number of its cycle. A search goes on from an extractor in
    // one way, so cycles have none in common.
    cycles: BTreeMap<&'a str, usize>,
    // The errors that tell the cycles.
    leaders: Vec<Leader>,
}

impl<'a> Drop for Causes<'a> {
    fn drop(self) {
        let Causes {
            terms: _,
            unmade: _,
            cycles: _,
            leaders: _,
        } = self;
    }
}

// The error that tells a cycle: the first that begins with one of the cycle's extractors, or else the first.
#[derive(Clone, Copy)]
struct Leader {
    number: usize,
    closed: bool,
}

impl<'a> Causes<'a> {
    fn new(alloc: Global, errors: &'a [Error]) -> Result<Causes<'a>, AllocError> {
        let mut causes = Causes {
            terms: BTreeMap::new(alloc),
            unmade: BTreeMap::new(alloc),
            cycles: BTreeMap::new(alloc),
            leaders: Vec::new(alloc),
        };
        for (number, error) in errors.iter().enumerate() {
            match why_of(error) {
                Some(Why::Recursion(way)) => causes.add_cycle(way, number)?,
                Some(why) => causes.add_term(why, place_of(error), number)?,
                None => {}
            }
        }
        Ok(causes)
    }

    // Adds the term that the error of a number, at this place, says isn't defined or has no constructor.
    fn add_term(
        &mut self,
        why: &'a Why,
        place: Option<Pos>,
        number: usize,
    ) -> Result<(), AllocError> {
        match (why, place) {
            (Why::Named(term, Wrong::Undefined), _) => {
                if !self.terms.contains_key(&term.as_str()) {
                    self.terms.insert(term.as_str(), number)?;
                }
            }
            (Why::Named(_, Wrong::NoConstructor), Some(pos)) => {
                self.unmade.insert(pos, number)?;
            }
            _ => {}
        }
        Ok(())
    }

    // Adds the cycle that a way ends in, which the error of a number tells.
    fn add_cycle(&mut self, way: &'a str, number: usize) -> Result<(), AllocError> {
        let Some((way, last)) = way.rsplit_once(' ') else {
            return Ok(());
        };
        let closed = way.split(' ').next() == Some(last);
        let leader = Leader { number, closed };
        let Some(known) = self.cycles.get(&last).copied() else {
            self.add_extractors(way, last)?;
            self.leaders.push(leader)?;
            return Ok(());
        };
        if let Some(first) = self.leaders.get_mut(known) {
            if closed && !first.closed {
                *first = leader;
            }
        }
        Ok(())
    }

    // Adds the extractors of the next cycle: those of a way, from one on.
    fn add_extractors(&mut self, way: &'a str, first: &str) -> Result<(), AllocError> {
        let cycle = self.leaders.len();
        for name in way.rsplit(' ') {
            self.cycles.insert(name, cycle)?;
            if name == first {
                break;
            }
        }
        Ok(())
    }

    // The error that one is told with, where it is told with a cause.
    fn of(&self, error: &'a Error) -> Option<usize> {
        match why_of(error)? {
            Why::Named(term, Wrong::NoExtractor | Wrong::NoConstructor) => {
                self.terms.get(&term.as_str()).copied()
            }
            Why::Recursion(way) => {
                let (_, last) = way.rsplit_once(' ')?;
                let cycle = self.cycles.get(&last).copied()?;
                Some(self.leaders.get(cycle)?.number)
            }
            _ => None,
        }
    }
}

// The error that the next one behind those with leaders is told with by what stands in its rule, or beside it. Else itself.
fn leader_beside<'a>(
    alloc: Global,
    defs: &[Def],
    errors: &'a [Error],
    causes: &Causes<'a>,
    leaders: &[usize],
) -> Result<usize, AllocError> {
    let number = leaders.len();
    let Some(error) = errors.get(number) else {
        return Ok(number);
    };
    let Some(pos) = place_of(error) else {
        return Ok(number);
    };
    let cause = match why_of(error) {
        Some(Why::Named(_, Wrong::UnknownVariable)) => {
            cause_of_unknown(alloc, defs, errors, number, pos)?
        }
        Some(Why::Mismatch { .. }) => cause_of_mismatch(alloc, defs, causes, pos)?,
        Some(Why::Named(_, Wrong::Impure)) => match causes.unmade.get(&pos).copied() {
            Some(unmade) => Some(unmade),
            None => first_impure(defs, errors, pos),
        },
        _ => None,
    };
    match cause {
        // what comes later leads itself, or is told with a term that isn't defined
        Some(cause) if cause >= number => Ok(match errors.get(cause) {
            Some(error) => causes.of(error).unwrap_or(cause),
            None => cause,
        }),
        Some(cause) => Ok(leaders.get(cause).copied().unwrap_or(cause)),
        None => Ok(beside(errors, number, leaders)),
    }
}

// The error because of which a variable isn't known though its rule binds it: one in what binds it.
fn cause_of_unknown(
    alloc: Global,
    defs: &[Def],
    errors: &[Error],
    number: usize,
    pos: Pos,
) -> Result<Option<usize>, AllocError> {
    let Some(rule) = rule_around(defs, pos) else {
        return Ok(None);
    };
    let names = Mentions::around(alloc, defs, pos)?;
    match names.binding_at(pos) {
        Some(bound) => Ok(last_before(errors, number, rule.pos, pos, bound)),
        None => Ok(None),
    }
}

// The error because of which a type is wrong at a place: that the term there has no constructor, the term that gives the value of
// the variable there, or the term whose argument is there.
fn cause_of_mismatch(
    alloc: Global,
    defs: &[Def],
    causes: &Causes<'_>,
    pos: Pos,
) -> Result<Option<usize>, AllocError> {
    if causes.unmade.is_empty() {
        return Ok(None);
    }
    let names = Mentions::around(alloc, defs, pos)?;
    for source in [Some(pos), source_of(&names, pos), names.user_of(pos)] {
        if let Some(source) = source {
            if let Some(cause) = causes.unmade.get(&source).copied() {
                return Ok(Some(cause));
            }
        }
    }
    Ok(None)
}

// Where the value stands of the variable at a place.
fn source_of(names: &Mentions<'_>, pos: Pos) -> Option<Pos> {
    match names.need_at(names.binding_at(pos)?) {
        Need::Given(_, source) => Some(source),
        Need::Binding(def) => Some(def.val.pos()),
        _ => None,
    }
}

// The first error that says that a call isn't pure of the condition that a place lies in.
fn first_impure(defs: &[Def], errors: &[Error], pos: Pos) -> Option<usize> {
    let condition = condition_around(defs, pos)?;
    for (number, error) in errors.iter().enumerate() {
        if let (Some(other), Some(Why::Named(_, Wrong::Impure))) = (
            place_of(error),
            why_of(error),
        ) {
            if condition_around(defs, other) == Some(condition) {
                return Some(number);
            }
        }
    }
    None
}

// Where the condition of a rule begins that a place lies in.
fn condition_around(defs: &[Def], pos: Pos) -> Option<Pos> {
    let rule = rule_around(defs, pos)?;
    let iflet = rule.iflets.iter().rev().find(|iflet| iflet.pos <= pos)?;
    Some(iflet.pos)
}

// The last of the first errors, so many, that stands between two places and at a third one or before it; or else the first one
// between the two.
fn last_before(errors: &[Error], count: usize, begin: Pos, end: Pos, bound: Pos) -> Option<usize> {
    let mut found = None;
    for (number, error) in errors.iter().take(count).enumerate() {
        if let Some(place) = place_of(error) {
            let is_before = place.offset <= bound.offset || found.is_none();
            if is_before && is_between(place, begin, end) {
                found = Some(number);
            }
        }
    }
    found
}

// Whether a place is at one place of its file or behind it, and before another one.
fn is_between(place: Pos, begin: Pos, end: Pos) -> bool {
    place.file == begin.file && place.offset >= begin.offset && place.offset < end.offset
}

// The error that one is told with, where the error beside it says the same: the one before it, or that behind it where a type
// has the name of a built-in one. Else itself.
fn beside(errors: &[Error], number: usize, leaders: &[usize]) -> usize {
    let Some((name, wrong)) = named_at(errors, number) else {
        return number;
    };
    let next = number.saturating_add(1);
    if let (Wrong::TypeTwice, Some((behind, Wrong::TypeBuiltin))) = (
        wrong,
        named_at(errors, next),
    ) {
        if name == behind {
            return next;
        }
    }
    let last = number.saturating_sub(1);
    match (named_at(errors, last), leaders.last()) {
        (Some(before), Some(leader)) if *leader == last && says_again(before, (name, wrong)) => {
            last
        }
        _ => number,
    }
}

// The name that the error of a number is of, and how it isn't right.
fn named_at(errors: &[Error], number: usize) -> Option<(&str, Wrong)> {
    why_of(errors.get(number)?)?.named()
}

// Whether an error tells the other place of what the one before it says.
fn says_again(before: (&str, Wrong), error: (&str, Wrong)) -> bool {
    match (before, error) {
        (_, (_, Wrong::FirstExtractor | Wrong::FirstTemplateOfExtractor | Wrong::FirstTemplate)) =>
            true,
        ((name, Wrong::TermTwice), (own, Wrong::TermTwice)) => name == own,
        _ => false,
    }
}
