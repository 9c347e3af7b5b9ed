//! Runs through a tree that get to its end without a return.

use crate::coverage::{constraints_of, cover, ends, only_left};
use cranelift_isle::sema::TypeEnv;
use cranelift_isle::serialize::{Block, ControlFlow, EvalStep, MatchArm};
use cranelift_isle::trie_again::{Binding, BindingId, Constraint, TupleIndex};
use std::alloc::{AllocError, Global};

// How many steps of runs are tried.
const MOST_STEPS: usize = 1 << 12;

/// What a run has found.
#[derive(Clone, Copy, PartialEq, Eq)]
pub(crate) enum Fact {
    /// A value meets a constraint.
    Is(BindingId, Constraint),
    /// A value doesn't meet a constraint.
    Isnt(BindingId, Constraint),
    /// Two values differ.
    Differ(BindingId, BindingId),
}

/// The constraint that a value is known to meet, by what was found.
pub(crate) fn constraint_by(facts: &[Fact], site: BindingId) -> Option<Constraint> {
    for fact in facts {
        if let Fact::Is(of, constraint) = fact {
            if *of == site {
                return Some(*constraint);
            }
        }
    }
    None
}

/// The constraints that a value is known not to meet, by what was found.
pub(crate) fn denied_by(
    alloc: Global,
    facts: &[Fact],
    site: BindingId,
) -> Result<Vec<Constraint>, AllocError> {
    let mut denied = Vec::new(alloc);
    for fact in facts {
        if let Fact::Isnt(of, constraint) = fact {
            if *of == site {
                denied.push(*constraint)?;
            }
        }
    }
    Ok(denied)
}

// A fact, and the one that was found before it.
struct Found {
    fact: Fact,
    before: Option<usize>,
}

impl Drop for Found {
    fn drop(self) {
        let Found { fact: _, before: _ } = self;
    }
}

// Steps that a run has before it: those of a block, and then those around the block.
struct Rest<'a> {
    steps: &'a [EvalStep],
    around: Option<usize>,
}

impl<'a> Drop for Rest<'a> {
    fn drop(self) {
        let Rest {
            steps: _,
            around: _,
        } = self;
    }
}

// Where a run is: the number of the steps that are before it, if there are any, and that of its last fact.
#[derive(Clone, Copy)]
struct State {
    rest: Option<usize>,
    last: Option<usize>,
}

// Runs that are tried. Each test is taken to be independent of those of other values.
struct Search<'a> {
    alloc: Global,
    tyenv: &'a TypeEnv,
    bindings: &'a [Binding],
    found: Vec<Found>,
    rests: Vec<Rest<'a>>,
    waiting: Vec<State>,
}

impl<'a> Drop for Search<'a> {
    fn drop(self) {
        let Search {
            alloc: _,
            tyenv: _,
            bindings: _,
            found: _,
            rests: _,
            waiting: _,
        } = self;
    }
}

/// What the first run finds that gets to the end of a tree over these sites, the last fact first. None if there is no such run,
/// or if none is found in a bounded search.
pub(crate) fn passing<'a>(
    alloc: Global,
    tyenv: &'a TypeEnv,
    bindings: &'a [Binding],
    block: &'a Block,
) -> Result<Option<Vec<Fact>>, AllocError> {
    if ends(alloc, tyenv, block)? {
        return Ok(None);
    }
    let mut search = Search {
        alloc,
        tyenv,
        bindings,
        found: Vec::new(alloc),
        rests: Vec::new(alloc),
        waiting: Vec::new(alloc),
    };
    search.enter(
        block,
        State {
            rest: None,
            last: None,
        },
    )?;
    search.run()
}

impl<'a> Search<'a> {
    // Tries the runs that wait, the last one first.
    fn run(&mut self) -> Result<Option<Vec<Fact>>, AllocError> {
        for _ in 0..MOST_STEPS {
            let Some(state) = self.waiting.pop() else {
                return Ok(None);
            };
            match state.rest {
                Some(rest) => self.go_on(rest, state.last)?,
                None => {
                    let facts = self.facts_of(state.last)?;
                    if self.may_be(&facts)? {
                        return Ok(Some(facts));
                    }
                }
            }
        }
        Ok(None)
    }

    // Makes the next one of the steps that are before a run.
    fn go_on(&mut self, rest: usize, last: Option<usize>) -> Result<(), AllocError> {
        let Some(rest) = self.rests.get(rest) else {
            return Ok(());
        };
        let steps = rest.steps;
        let around = rest.around;
        match steps.split_first() {
            Some((step, steps)) => {
                let rest = self.add_rest(steps, around)?;
                self.pass(
                    &step.check,
                    State {
                        rest: Some(rest),
                        last,
                    },
                )
            }
            None => self.wait(around, last),
        }
    }

    // Passes a test. The run is behind it then.
    fn pass(&mut self, check: &'a ControlFlow, behind: State) -> Result<(), AllocError> {
        match check {
            ControlFlow::Match { source, arms } => self.pass_match(*source, arms, behind),
            ControlFlow::Equal { a, b, body } => self.pass_equal(*a, *b, body, behind),
            ControlFlow::Return { .. } | ControlFlow::Loop { .. } => Ok(()),
        }
    }

    fn pass_match(
        &mut self,
        source: BindingId,
        arms: &'a [MatchArm],
        behind: State,
    ) -> Result<(), AllocError> {
        let facts = self.facts_of(behind.last)?;
        match self.met(&facts, source)? {
            Some(constraint) => self.pass_known(constraint, arms, behind),
            None => {
                let denied = denied_by(self.alloc, &facts, source)?;
                self.pass_arms(source, arms, &denied, behind)?;
                self.pass_none(source, arms, denied, behind)
            }
        }
    }

    // Passes a match of a value that meets a constraint.
    fn pass_known(
        &mut self,
        constraint: Constraint,
        arms: &'a [MatchArm],
        behind: State,
    ) -> Result<(), AllocError> {
        for arm in arms {
            if arm.constraint == constraint {
                return self.enter(&arm.body, behind);
            }
        }
        self.wait(behind.rest, behind.last)
    }

    // Passes a match in each of its arms but those of denied constraints. The run in the first arm is tried first.
    fn pass_arms(
        &mut self,
        source: BindingId,
        arms: &'a [MatchArm],
        denied: &[Constraint],
        behind: State,
    ) -> Result<(), AllocError> {
        for arm in arms.iter().rev() {
            if !denied.iter().any(|other| *other == arm.constraint) {
                let last = self.find(Fact::Is(source, arm.constraint), behind.last)?;
                self.enter(
                    &arm.body,
                    State {
                        rest: behind.rest,
                        last,
                    },
                )?;
            }
        }
        Ok(())
    }

    // Passes a match in no arm, where some value has none.
    fn pass_none(
        &mut self,
        source: BindingId,
        arms: &[MatchArm],
        denied: Vec<Constraint>,
        behind: State,
    ) -> Result<(), AllocError> {
        let mut constraints = constraints_of(self.alloc, arms)?;
        constraints.extend_from_slice(&denied)?;
        if cover(self.alloc, self.tyenv, &constraints)? {
            return Ok(());
        }
        let mut last = behind.last;
        for arm in arms {
            last = self.find(Fact::Isnt(source, arm.constraint), last)?;
        }
        self.wait(behind.rest, last)
    }

    // Passes a test of two values: they differ, if they aren't known to be equal.
    fn pass_equal(
        &mut self,
        a: BindingId,
        b: BindingId,
        body: &'a Block,
        behind: State,
    ) -> Result<(), AllocError> {
        let facts = self.facts_of(behind.last)?;
        if self.are_equal(&facts, a, b)? {
            return self.enter(body, behind);
        }
        let last = self.find(Fact::Differ(a, b), behind.last)?;
        self.wait(behind.rest, last)
    }

    // Whether two values are known to be equal.
    fn are_equal(&self, facts: &[Fact], a: BindingId, b: BindingId) -> Result<bool, AllocError> {
        let first = self.met(facts, a)?;
        let second = self.met(facts, b)?;
        match (first, second) {
            (Some(first), Some(second)) => Ok(first == second && is_whole(first)),
            _ => Ok(false),
        }
    }

    // Whether no two values that differ are known to be equal.
    fn may_be(&self, facts: &[Fact]) -> Result<bool, AllocError> {
        for fact in facts {
            if let Fact::Differ(a, b) = fact {
                if self.are_equal(facts, *a, *b)? {
                    return Ok(false);
                }
            }
        }
        Ok(true)
    }

    // The constraint that a value is known to meet.
    fn met(&self, facts: &[Fact], site: BindingId) -> Result<Option<Constraint>, AllocError> {
        if let Some(constraint) = constraint_by(facts, site) {
            return Ok(Some(constraint));
        }
        if let Some(constraint) = self.made(site) {
            return Ok(Some(constraint));
        }
        let denied = denied_by(self.alloc, facts, site)?;
        only_left(self.alloc, self.tyenv, &denied)
    }

    fn made(&self, site: BindingId) -> Option<Constraint> {
        match self.bindings.get(site.index())? {
            Binding::ConstBool { val, ty } => Some(Constraint::ConstBool { val: *val, ty: *ty }),
            Binding::ConstInt { val, ty } => Some(Constraint::ConstInt { val: *val, ty: *ty }),
            Binding::ConstPrim { val } => Some(Constraint::ConstPrim { val: *val }),
            Binding::MakeVariant {
                ty,
                variant,
                fields,
            } => Some(Constraint::Variant {
                ty: *ty,
                variant: *variant,
                fields: TupleIndex::try_from(fields.len()).ok()?,
            }),
            Binding::MakeStruct { ty, fields } => Some(Constraint::Struct {
                ty: *ty,
                fields: TupleIndex::try_from(fields.len()).ok()?,
            }),
            Binding::MakeSome { .. } => Some(Constraint::Some),
            _ => None,
        }
    }

    // Goes into a block, if a run may get to its end, and then behind it.
    fn enter(&mut self, block: &'a Block, behind: State) -> Result<(), AllocError> {
        if ends(self.alloc, self.tyenv, block)? {
            return Ok(());
        }
        let rest = self.add_rest(&block.steps, behind.rest)?;
        self.wait(Some(rest), behind.last)
    }

    // A run waits here.
    fn wait(&mut self, rest: Option<usize>, last: Option<usize>) -> Result<(), AllocError> {
        self.waiting.push(State { rest, last })?;
        Ok(())
    }

    // The number of some steps, and of those around them.
    fn add_rest(
        &mut self,
        steps: &'a [EvalStep],
        around: Option<usize>,
    ) -> Result<usize, AllocError> {
        let number = self.rests.len();
        self.rests.push(Rest { steps, around })?;
        Ok(number)
    }

    // The number of a fact that is found.
    fn find(&mut self, fact: Fact, before: Option<usize>) -> Result<Option<usize>, AllocError> {
        let number = self.found.len();
        self.found.push(Found { fact, before })?;
        Ok(Some(number))
    }

    // What was found up to a fact, the last fact first.
    fn facts_of(&self, last: Option<usize>) -> Result<Vec<Fact>, AllocError> {
        let mut facts = Vec::new(self.alloc);
        let mut next = last;
        for _ in 0..self.found.len() {
            let Some(found) = self.found_at(next) else {
                return Ok(facts);
            };
            facts.push(found.fact)?;
            next = found.before;
        }
        Ok(facts)
    }

    fn found_at(&self, number: Option<usize>) -> Option<&Found> {
        self.found.get(number?)
    }
}

// Whether all values that meet a constraint are equal.
fn is_whole(constraint: Constraint) -> bool {
    match constraint {
        Constraint::ConstBool { .. } | Constraint::ConstInt { .. } | Constraint::ConstPrim { .. } =>
            true,
        Constraint::Variant { fields, .. } | Constraint::Struct { fields, .. } => {
            fields.index() == 0
        }
        Constraint::Some => false,
    }
}
