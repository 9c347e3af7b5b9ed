//! Which terms with rules call one another.

use cranelift_isle::sema::{Expr, Rule, TermEnv, TermId};
use std::alloc::{AllocError, Global};
use std::collections::BTreeMap;

/// The terms with rules that the rules of each term call, each once: by their numbers.
pub(crate) fn calls_of(alloc: Global, termenv: &TermEnv) -> Result<Vec<Vec<usize>>, AllocError> {
    let mut calls = Vec::new(alloc);
    for _ in &termenv.terms {
        calls.push(Vec::new(alloc))?;
    }
    for rule in &termenv.rules {
        if let Some(called) = calls.get_mut(rule.root_term.index()) {
            add_rule(termenv, rule, called)?;
        }
    }
    Ok(calls)
}

fn add_rule(termenv: &TermEnv, rule: &Rule, called: &mut Vec<usize>) -> Result<(), AllocError> {
    for iflet in &rule.iflets {
        add_expr(termenv, &iflet.rhs, called)?;
    }
    add_expr(termenv, &rule.rhs, called)
}

#[cycle(exprs)]
fn add_expr(termenv: &TermEnv, expr: &Expr, called: &mut Vec<usize>) -> Result<(), AllocError> {
    match expr {
        Expr::Term(_, term, args) => {
            add_term(termenv, *term, called)?;
            for arg in args {
                add_expr(termenv, arg, called)?;
            }
            Ok(())
        }
        Expr::Let { bindings, body, .. } => {
            for binding in bindings {
                add_expr(termenv, &binding.2, called)?;
            }
            add_expr(termenv, body, called)
        }
        Expr::Var(..) | Expr::ConstBool(..) | Expr::ConstInt(..) | Expr::ConstPrim(..) => Ok(()),
    }
}

// Adds a term that is called, if it has rules.
fn add_term(termenv: &TermEnv, term: TermId, called: &mut Vec<usize>) -> Result<(), AllocError> {
    let number = term.index();
    if has_rules(termenv, number) && !called.contains(&number) {
        called.push(number)?;
    }
    Ok(())
}

// Whether a term's values are made by rules.
fn has_rules(termenv: &TermEnv, number: usize) -> bool {
    match termenv.terms.get(number) {
        Some(term) => term.has_internal_constructor(),
        None => false,
    }
}

/// Keeps of these calls the ones from which some way of calls leads back: those of terms that call one another.
pub(crate) fn keep_cycles(alloc: Global, calls: &mut Vec<Vec<usize>>) -> Result<(), AllocError> {
    let groups = groups_of(alloc, calls)?;
    for (number, called) in calls.iter_mut().enumerate() {
        let group = groups.get(number);
        called.retain(|term| groups.get(*term) == group);
    }
    Ok(())
}

// The group of each term: terms that call one another are of one, and any other term of its own.
fn groups_of(alloc: Global, calls: &[Vec<usize>]) -> Result<Vec<Option<usize>>, AllocError> {
    let order = last_first(alloc, calls)?;
    let callers = callers_of(alloc, calls)?;
    let mut groups = Vec::new(alloc);
    for _ in calls {
        groups.push(None)?;
    }
    for start in order {
        let mut reached = Vec::new(alloc);
        join(&mut groups, &mut reached, start, start)?;
        for place in 0..calls.len() {
            let Some(term) = reached.get(place).copied() else {
                break;
            };
            join_each(&mut groups, &mut reached, callers.get(term), start)?;
        }
    }
    Ok(groups)
}

// Adds a term to a group, if it has none.
fn join(
    groups: &mut Vec<Option<usize>>,
    reached: &mut Vec<usize>,
    term: usize,
    group: usize,
) -> Result<(), AllocError> {
    if let Some(place) = groups.get_mut(term) {
        if place.is_none() {
            *place = Some(group);
            reached.push(term)?;
        }
    }
    Ok(())
}

fn join_each(
    groups: &mut Vec<Option<usize>>,
    reached: &mut Vec<usize>,
    terms: Option<&Vec<usize>>,
    group: usize,
) -> Result<(), AllocError> {
    let Some(terms) = terms else {
        return Ok(());
    };
    for term in terms {
        join(groups, reached, *term, group)?;
    }
    Ok(())
}

// The terms that call each term.
fn callers_of(alloc: Global, calls: &[Vec<usize>]) -> Result<Vec<Vec<usize>>, AllocError> {
    let mut callers = Vec::new(alloc);
    for _ in calls {
        callers.push(Vec::new(alloc))?;
    }
    for (caller, called) in calls.iter().enumerate() {
        for term in called {
            if let Some(callers) = callers.get_mut(*term) {
                callers.push(caller)?;
            }
        }
    }
    Ok(callers)
}

// All terms, each before those that a walk along calls leaves earlier.
fn last_first(alloc: Global, calls: &[Vec<usize>]) -> Result<Vec<usize>, AllocError> {
    let mut order = Vec::new(alloc);
    // Of each term how many calls are followed, once it is reached.
    let mut followed: Vec<Option<usize>> = Vec::new(alloc);
    for _ in calls {
        followed.push(None)?;
    }
    for start in 0..calls.len() {
        let mut path = Vec::new(alloc);
        enter(&mut followed, &mut path, start)?;
        for _ in 0..u64::MAX {
            let Some(term) = path.last().copied() else {
                break;
            };
            match follow(calls, &mut followed, term) {
                Some(called) => enter(&mut followed, &mut path, called)?,
                None => {
                    let _ = path.pop();
                    order.push(term)?;
                }
            }
        }
    }
    order.reverse();
    Ok(order)
}

// Goes on to a term, if it wasn't reached.
fn enter(
    followed: &mut Vec<Option<usize>>,
    path: &mut Vec<usize>,
    term: usize,
) -> Result<(), AllocError> {
    if let Some(place) = followed.get_mut(term) {
        if place.is_none() {
            *place = Some(0);
            path.push(term)?;
        }
    }
    Ok(())
}

// The next call of a term, if one is left.
fn follow(calls: &[Vec<usize>], followed: &mut Vec<Option<usize>>, term: usize) -> Option<usize> {
    let count = followed.get_mut(term)?.as_mut()?;
    let called = calls.get(term)?.get(*count).copied();
    *count = count.saturating_add(1);
    called
}

/// The shortest way by which a term calls itself: the terms in the order in which they are called, and this one first. None if
/// it doesn't.
pub(crate) fn cycle_of(
    alloc: Global,
    calls: &[Vec<usize>],
    start: usize,
) -> Result<Option<Vec<usize>>, AllocError> {
    if calls_none(calls, start) {
        return Ok(None);
    }
    let mut callers = BTreeMap::new(alloc);
    let mut reached = Vec::new(alloc);
    reached.push(start)?;
    for number in 0..calls.len() {
        let Some(caller) = reached.get(number).copied() else {
            return Ok(None);
        };
        let called = calls.get(caller);
        if is_among(called, start) {
            return Ok(Some(way_to(alloc, &callers, caller)?));
        }
        reach(&mut callers, &mut reached, caller, called)?;
    }
    Ok(None)
}

/// Whether no call of a term is among these.
pub(crate) fn calls_none(calls: &[Vec<usize>], term: usize) -> bool {
    match calls.get(term) {
        Some(called) => called.is_empty(),
        None => true,
    }
}

fn is_among(called: Option<&Vec<usize>>, term: usize) -> bool {
    match called {
        Some(called) => called.contains(&term),
        None => false,
    }
}

// Notes the caller of each term that a caller is the first to call.
fn reach(
    callers: &mut BTreeMap<usize, usize>,
    reached: &mut Vec<usize>,
    caller: usize,
    called: Option<&Vec<usize>>,
) -> Result<(), AllocError> {
    let Some(called) = called else {
        return Ok(());
    };
    for term in called {
        if !callers.contains_key(term) {
            callers.insert(*term, caller)?;
            reached.push(*term)?;
        }
    }
    Ok(())
}

// The terms from the one without a caller to this one.
fn way_to(
    alloc: Global,
    callers: &BTreeMap<usize, usize>,
    last: usize,
) -> Result<Vec<usize>, AllocError> {
    let mut way = Vec::new(alloc);
    let mut next = Some(last);
    for _ in 0..callers.len().saturating_add(1) {
        if let Some(term) = next {
            way.push(term)?;
            next = callers.get(&term).copied();
        }
    }
    way.reverse();
    Ok(way)
}
