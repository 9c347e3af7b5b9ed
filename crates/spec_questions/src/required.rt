//! What pure calls on a rule's right side require. The code behind a call may fail where that isn't met, so it is to be shown too.

use crate::asking::{Asked, Asker};
use crate::branches::Branches;
use crate::faults::NoQuestion;
use crate::following::{elsewhere_required, is_asked_elsewhere, steps_to};
use crate::marks::{made_of_impure, marked_below};
use crate::questions::Question;
use crate::shown::Named;
use crate::telling::Teller;
use core_rule_sets::trie_again::Binding;
use spec_asked::asking::{AskedCondition, asked_steps};
use spec_asked::marks::is_marked;
use spec_calls::conditions::Condition;
use spec_cases::arena::Formulas;
use spec_cases::formulas::Fact;
use spec_cases::steps::Constraint;
use spec_steps::demands::Demands;
use spec_steps::steps::steps_of;
use std::alloc::{AllocError, Global};

/// What is asked of pure calls on the right side.
#[derive(Drop)]
pub(crate) struct Required {
    /// The steps up to the last of these goals, and the questions.
    pub(crate) asked: AskedCondition,
    // How many goals come before: of the impure calls that these calls are made of. The rule's own questions ask them.
    others: usize,
}

/// The questions whether pure calls on the right side are as their terms require: none where nothing is required.
pub(crate) fn required_questions(
    formulas: &mut Formulas,
    asker: Asker<'_>,
    asked: Asked<'_>,
    condition: &Condition,
    named: &Named,
    excluded: &[Fact],
) -> Result<Vec<Question>, NoQuestion> {
    let Some(required) = asked_required(formulas, asker, asked, condition)? else {
        return Ok(Vec::new(asker.alloc));
    };
    let first = told(formulas, asker, condition, named, excluded, &required, &[])?;
    if !is_asked_elsewhere(asker, &first) {
        return Ok(first);
    }
    let elsewhere = elsewhere_required(asker, asked, condition)?;
    told(
        formulas, asker, condition, named, excluded, &required, &elsewhere,
    )
}

// The questions in words and texts, with these that ask where all is followed.
fn told(
    formulas: &Formulas,
    asker: Asker<'_>,
    condition: &Condition,
    named: &Named,
    excluded: &[Fact],
    required: &Required,
    elsewhere: &[Option<String>],
) -> Result<Vec<Question>, NoQuestion> {
    let branches = Branches::of(asker, &required.asked)?;
    let teller = Teller {
        formulas,
        asker,
        condition,
        named,
        excluded,
        branches: &branches,
        elsewhere,
        is_required: true,
    };
    let mut questions = Vec::new(asker.alloc);
    teller.add_questions(&required.asked.questions, "", &mut questions)?;
    Ok(behind(asker.alloc, &branches, required.others, questions)?)
}

// The questions of goals behind so many others.
fn behind(
    alloc: Global,
    branches: &Branches,
    others: usize,
    questions: Vec<Question>,
) -> Result<Vec<Question>, AllocError> {
    let mut kept = Vec::new(alloc);
    for question in questions {
        if branches.place(question.facts.len()) >= others {
            kept.push(question)?;
        }
    }
    Ok(kept)
}

/// What is asked of pure calls on the right side, if some require anything and that is wanted.
pub(crate) fn asked_required(
    formulas: &mut Formulas,
    asker: Asker<'_>,
    asked: Asked<'_>,
    condition: &Condition,
) -> Result<Option<Required>, NoQuestion> {
    if asker.wanted.lax {
        return Ok(None);
    }
    let pure = pure_calls(asker, condition)?;
    if pure.is_empty() {
        return Ok(None);
    }
    // They count as impure calls behind the impure ones that they are made of: of such it is asked whether they meet what is required.
    let mut calls = impure_below(asker.alloc, condition, &pure)?;
    let others = goals_of(asker, condition, &calls);
    calls.extend_from_slice(&pure)?;
    let goals = goals_of(asker, condition, &calls);
    let demands = demands_with(asker, asked, condition, &calls);
    Ok(Some(Required {
        asked: asked_up_to(formulas, asker, &demands, goals)?,
        others,
    }))
}

// The tables of a rule's condition, with these calls for its impure ones.
fn demands_with<'d>(
    asker: Asker<'d>,
    asked: Asked<'d>,
    condition: &'d Condition,
    calls: &'d [u32],
) -> Demands<'d> {
    let mut demands = asker.demands(asked, condition);
    demands.impure = calls;
    demands
}

// The pure calls whose answers the result or an argument of an impure call is made of, and no test, and whose terms require something:
// what a call is made of comes before it.
fn pure_calls(asker: Asker<'_>, condition: &Condition) -> Result<Vec<u32>, AllocError> {
    let given = given_sites(asker.alloc, condition)?;
    let tested = tested_sites(asker.alloc, condition)?;
    let mut calls = Vec::new(asker.alloc);
    for site in 0..condition.bindings.len() {
        let is_given = is_marked(&given, site) && !is_marked(&tested, site);
        if is_given && is_pure(condition, site) && count_required(asker, condition, site) > 0 {
            if let Ok(call) = u32::try_from(site) {
                calls.push(call)?;
            }
        }
    }
    Ok(calls)
}

// The sites of which the result and the impure calls are made.
fn given_sites(alloc: Global, condition: &Condition) -> Result<Vec<bool>, AllocError> {
    let mut roots = condition.calls(alloc)?;
    roots.push(condition.demands.result)?;
    marked_below(alloc, &condition.bindings, &roots)
}

// The sites of which tests are made. A test of what an impure call gives asks whether a call on the right side answers, and a struct
// pattern always matches.
fn tested_sites(alloc: Global, condition: &Condition) -> Result<Vec<bool>, AllocError> {
    let later = made_of_impure(alloc, &condition.bindings)?;
    let mut roots = same_sites(alloc, condition)?;
    for test in &condition.demands.constraints {
        if !is_marked(&later, test.site as usize) && may_differ(test.constraint) {
            roots.push(test.site)?;
        }
    }
    marked_below(alloc, &condition.bindings, &roots)
}

// Whether a value may be another one than a test asks for.
fn may_differ(constraint: Constraint) -> bool {
    !matches!(constraint, Constraint::Struct { .. })
}

// The sites that are to be equal to others.
fn same_sites(alloc: Global, condition: &Condition) -> Result<Vec<u32>, AllocError> {
    let mut sites = Vec::new(alloc);
    for same in &condition.demands.equalities {
        sites.push(same.first)?;
        sites.push(same.second)?;
    }
    Ok(sites)
}

fn is_pure(condition: &Condition, site: usize) -> bool {
    match condition.bindings.get(site) {
        Some(Binding::Constructor { instance, .. }) => *instance == 0,
        _ => false,
    }
}

// How much the term of a call requires.
fn count_required(asker: Asker<'_>, condition: &Condition, site: usize) -> usize {
    match condition.bindings.get(site) {
        Some(Binding::Constructor { term, .. }) => match asker.known.said.get(term.index()) {
            Some(said) => said.require.len(),
            None => 0,
        },
        _ => 0,
    }
}

/// Whether an impure call gives several answers and its term requires something: no question asks for that.
pub(crate) fn is_multi_required(asker: Asker<'_>, condition: &Condition) -> bool {
    for site in &condition.demands.impure {
        if let Some(Binding::Iterator { source }) = condition.bindings.get(*site as usize) {
            if count_required(asker, condition, source.index()) > 0 {
                return true;
            }
        }
    }
    false
}

// How many goals calls have.
fn goals_of(asker: Asker<'_>, condition: &Condition, calls: &[u32]) -> usize {
    let mut count = 0usize;
    for call in calls {
        count = count.saturating_add(count_required(asker, condition, *call as usize));
    }
    count
}

// The impure calls of which these calls are made, in order.
fn impure_below(
    alloc: Global,
    condition: &Condition,
    calls: &[u32],
) -> Result<Vec<u32>, AllocError> {
    let below = marked_below(alloc, &condition.bindings, calls)?;
    let mut impure = Vec::new(alloc);
    for call in condition.calls(alloc)? {
        if is_marked(&below, call as usize) {
            impure.push(call)?;
        }
    }
    Ok(impure)
}

// What is asked of a condition up to so many goals.
fn asked_up_to(
    formulas: &mut Formulas,
    asker: Asker<'_>,
    demands: &Demands<'_>,
    goals: usize,
) -> Result<AskedCondition, NoQuestion> {
    let mut steps = Vec::new(asker.alloc);
    steps_of(formulas, demands, true, &mut steps)?;
    let count = steps_to(&steps, goals.saturating_sub(1)).len();
    steps.truncate(count);
    let types = &asker.lowered.tyenv.types;
    let questions = asked_steps(formulas, types, &asker.tables, &steps)?;
    Ok(AskedCondition {
        steps,
        questions,
        excluded: Vec::new(asker.alloc),
    })
}
