//! The arms of a match: one for each constraint that some rule asks of its source, by ascending constraints.

ghost use Rattle.std.specs.Prelude.{◌≡◌, ◌≤◌, ◌∷◌, [], IfOk, length, option_map};
ghost use Rattle.std.specs.List.{filter, prefix_len};
ghost use Rattle.std.specs.Ordering.{is_lt};
ghost use Rattle.model.specs.trees.Sound as Sound;
ghost use Rattle.core_rule_sets.specs.SiteViews.{constraint_view, set_view};
ghost use Rattle.core_serialize.specs.PlaceViews.{set_in};
ghost use Rattle.core_serialize.specs.ArmOrder as Turns;
ghost use Rattle.core_serialize.specs.ArmOrder.{asked_numbers, asks_that, AreInTurn, AreTurns, IsNextArmOf};

use crate::fields::fields_of;
use crate::place::IndexedSet;
use core_rule_sets::trie_again::{BindingId, Constraint, RuleSet};
use std::alloc::{AllocError, Global};
use std::cmp::Ordering;

/// A rule that asks something of the source of a match.
#[derive(Clone, Copy, Debug)]
pub struct AskingRule {
    /// The rule's number.
    pub number: usize,
    /// What it asks.
    pub constraint: Constraint,
}

/// An arm of a match, but for its body.
#[derive(Debug, Drop)]
pub struct NextArm {
    /// What the arm's rules ask.
    pub constraint: Constraint,
    /// The sites of the fields that the constraint brings.
    pub fields: Vec<Option<BindingId>>,
    /// The rules that ask it.
    pub asking: Vec<usize>,
}

// What the rule of a number asks of a site.
fn asked_at(set: &RuleSet, source: BindingId, number: usize) -> Option<Constraint>
    ensures { option_map constraint_view result ≡ Turns.asked_at (set_view set.now).rules source number }
{
    match set.rules.get(number) {
        Some(rule) => rule.get_constraint(source),
        None => None,
    }
}

// What each of these rules asks of a site, but for those that ask nothing.
fn all_asked(
    alloc: Global,
    set: &RuleSet,
    source: BindingId,
    here: &[usize],
) -> Result<Vec<AskingRule>, AllocError>
    ensures each { IfOk result (λ v. Turns.AreAsked (set_view set.now).rules source v.items) }
    ensures numbers { IfOk result (λ v. asked_numbers v.items ≡ filter (Turns.asks_some (set_view set.now).rules source) here.now) }
{
    let mut turns = Vec::with_capacity(alloc, here.len())?;
    for number in here {
        if let Some(constraint) = asked_at(set, source, *number) {
            turns.push(AskingRule {
                number: *number,
                constraint,
            })?;
        }
    }
    Ok(turns)
}

fn by_constraint(a: &AskingRule, b: &AskingRule) -> Ordering
    ensures { is_lt result ≡ Turns.is_ahead a.now b.now }
{
    a.constraint.cmp(&b.constraint)
}

/// What these rules ask of a site, by ascending constraints: a constraint's rules stand one behind another, and in the
/// order in which they stand here.
pub fn asked_in_turn(
    alloc: Global,
    set: &RuleSet,
    source: BindingId,
    here: &[usize],
) -> Result<Vec<AskingRule>, AllocError>
    ensures { IfOk result (λ v. AreInTurn (set_view set.now).rules source here.now v.items) }
{
    let mut turns = all_asked(alloc, set, source, here)?;
    turns.sort_by(|a, b| by_constraint(a, b))?;
    Ok(turns)
}

fn asks(asked: &AskingRule, constraint: &Constraint) -> bool
    ensures { result ≡ asks_that (constraint_view constraint.now) asked.now }
{
    asked.constraint == *constraint
}

// How many at the head of these ask that.
fn run_len(turns: &[AskingRule], constraint: &Constraint) -> usize
    ensures value { result ≡ prefix_len (asks_that (constraint_view constraint.now)) turns.now }
    ensures within { result ≤ length turns.now }
{
    turns
        .iter()
        .take_while(|asked| asks(asked, constraint))
        .count()
}

// The rules of these.
fn numbers_of(alloc: Global, turns: &[AskingRule]) -> Result<Vec<usize>, AllocError>
    ensures { IfOk result (λ v. v.items ≡ asked_numbers turns.now) }
{
    let mut rules = Vec::with_capacity(alloc, turns.len())?;
    for asked in turns {
        rules.push(asked.number)?;
    }
    Ok(rules)
}

/// The next arm of a match, of the least constraint of those that are left, and none where none is left.
pub fn next_arm(
    alloc: Global,
    indexed: &IndexedSet<'_>,
    source: BindingId,
    left: &[AskingRule],
) -> Result<Option<NextArm>, AllocError>
    requires { AreTurns (set_in indexed.now).rules source left.now }
    ensures { IfOk result (λ o. IsNextArmOf (set_in indexed.now) source (asked_numbers left.now) o) }
{
    let Some(first) = left.first() else {
        return Ok(None);
    };
    let constraint = first.constraint;
    let fields = fields_of(alloc, indexed, source, &constraint)?;
    let count = run_len(left, &constraint);
    let asking = numbers_of(alloc, &left[..count])?;
    Ok(Some(NextArm {
        constraint,
        fields,
        asking,
    }))
}
