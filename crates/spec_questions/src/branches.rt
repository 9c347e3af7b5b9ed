//! Which facts of a question come before its first goal, and which goal it is of.

use crate::asking::Asker;
use core_syntax::syntax::Pos;
use spec_asked::asking::{Asked, AskedCondition};
use spec_cases::expressions::ExprId;
use spec_cases::steps::Step;
use spec_data::data::{SaidAt, SpecData};
use std::alloc::{AllocError, Global};

/// Each step adds as many facts to each question behind it: so how many a question has tells which goal it is of.
#[derive(Drop)]
pub(crate) struct Branches {
    // How many facts questions have, each number once.
    lengths: Vec<usize>,
    // Where specs say what is to be shown, in order.
    goals: Vec<Option<Pos>>,
}

impl Branches {
    /// Those of the questions about a condition.
    pub(crate) fn of(asker: Asker<'_>, found: &AskedCondition) -> Result<Branches, AllocError> {
        Ok(Branches {
            lengths: lengths_of(asker.alloc, &found.questions)?,
            goals: goals_of(asker.alloc, &asker.known.data, &found.steps)?,
        })
    }

    /// How many facts come before the first goal.
    pub(crate) fn before_goals(&self) -> usize {
        let mut least = usize::MAX;
        for length in &self.lengths {
            if *length < least {
                least = *length;
            }
        }
        least.saturating_sub(1)
    }

    /// Which goal a question of so many facts is of.
    pub(crate) fn place(&self, length: usize) -> usize {
        let mut earlier = 0usize;
        for known in &self.lengths {
            if *known < length {
                earlier = earlier.saturating_add(1);
            }
        }
        earlier
    }

    /// Where a spec says what a question of so many facts asks for.
    pub(crate) fn goal(&self, length: usize) -> Option<Pos> {
        match self.goals.get(self.place(length)) {
            Some(goal) => *goal,
            None => None,
        }
    }
}

// How many facts questions have, each number once.
fn lengths_of(alloc: Global, questions: &[Asked]) -> Result<Vec<usize>, AllocError> {
    let mut lengths = Vec::new(alloc);
    for question in questions {
        let length = question.facts.len();
        if !lengths.iter().any(|known| *known == length) {
            lengths.push(length)?;
        }
    }
    Ok(lengths)
}

// Where specs say what is to be shown.
fn goals_of(
    alloc: Global,
    data: &SpecData,
    steps: &[Step],
) -> Result<Vec<Option<Pos>>, AllocError> {
    let mut goals = Vec::new(alloc);
    for step in steps {
        if let Step::Shown(said) = step {
            goals.push(place_of(data, said.expr))?;
        }
    }
    Ok(goals)
}

// Where a spec says an expression.
fn place_of(data: &SpecData, expr: ExprId) -> Option<Pos> {
    for term in &data.terms {
        if let Some(pos) = place_in(&term.require, expr).or(place_in(&term.provide, expr)) {
            return Some(pos);
        }
    }
    None
}

// Where a list says it.
fn place_in(said: &[SaidAt], expr: ExprId) -> Option<Pos> {
    for known in said {
        if known.expr.0 == expr.0 {
            return Some(known.pos);
        }
    }
    None
}
