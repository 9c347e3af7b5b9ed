//! What terms require and provide, as steps.
ghost use Rattle.std.specs.Prelude.{◌≡◌, ◌++◌, map, slice_get, IfOk, OnOk};
ghost use Rattle.model_questions.specs.Steps as S;
ghost use Rattle.spec_cases.specs.Expressions.{Saying};
ghost use Rattle.spec_cases.specs.Namings.{form_of, Naming};
ghost use Rattle.spec_cases.specs.Steps.{said_views};
ghost use Rattle.spec_steps.specs.Demands.{provided_of, required_of, Meant};
ghost use Rattle.spec_steps.specs.Forming.{perhaps_form};
ghost use Rattle.spec_steps.specs.Saying.{exprs_of, saids_on, Adds};

use crate::demands::{Demands, TermSaid};
use core_types::TermId;
use spec_cases::expressions::ExprId;
use spec_cases::faults::Fault;
use spec_cases::forms::{FieldsId, Form};
use spec_cases::steps::{Said, Step};
use std::alloc::Global;

fn required(said: &[TermSaid], term: TermId) -> &[ExprId]
    ensures { result.now ≡ required_of (slice_get said.now term.0) }
{
    match said.get(term.0) {
        None => &[],
        Some(spec) => &spec.require,
    }
}

fn provided(said: &[TermSaid], term: TermId) -> &[ExprId]
    ensures { result.now ≡ provided_of (slice_get said.now term.0) }
{
    match said.get(term.0) {
        None => &[],
        Some(spec) => &spec.provide,
    }
}

// Adds expressions on arguments, and on a result where there is one.
#[tactic(auto, using(crate::proofs::SayingSteps::said_steps))]
fn add_saids(
    exprs: &[ExprId],
    args: FieldsId,
    answer: Option<Form>,
    out: &mut Vec<Said>,
) -> Result<(), Fault>
    ensures { OnOk result ((v : Naming) (w : Saying) → said_views v w out.new.items ≡ said_views v w out.old.items ++ saids_on (v.fields args.0) (perhaps_form v answer) (exprs_of w exprs.now)) }
{
    match exprs {
        [] => Ok(()),
        [first, rest @ ..] => {
            out.push(Said {
                args,
                answer,
                expr: *first,
            })?;
            Ok(add_saids(rest, args, answer, out)?)
        }
    }
}

fn saids_of(
    alloc: Global,
    exprs: &[ExprId],
    args: FieldsId,
    answer: Option<Form>,
) -> Result<Vec<Said>, Fault>
    ensures { IfOk result (λ l. (v : Naming) (w : Saying) → said_views v w l.items ≡ saids_on (v.fields args.0) (perhaps_form v answer) (exprs_of w exprs.now)) }
{
    let mut out = Vec::new(alloc);
    add_saids(exprs, args, answer, &mut out)?;
    Ok(out)
}

/// What a term requires of arguments.
///
/// # Errors
///
/// `Memory` where memory is refused.
pub fn requires_of(
    alloc: Global,
    demands: &Demands<'_>,
    term: TermId,
    args: FieldsId,
) -> Result<Vec<Said>, Fault>
    ensures { IfOk result (λ l. (v : Naming) (m : Meant v demands.now) → said_views v m.w l.items ≡ S.requires_of m.specs term.0 (v.fields args.0)) }
{
    Ok(saids_of(alloc, required(demands.said, term), args, None)?)
}

/// What a term provides with a result.
///
/// # Errors
///
/// `Memory` where memory is refused.
pub fn provides_of(
    alloc: Global,
    demands: &Demands<'_>,
    term: TermId,
    args: FieldsId,
    answer: Form,
) -> Result<Vec<Said>, Fault>
    ensures { IfOk result (λ l. (v : Naming) (m : Meant v demands.now) → said_views v m.w l.items ≡ S.provides_of m.specs term.0 (v.fields args.0) (form_of v answer)) }
{
    Ok(saids_of(alloc, provided(demands.said, term), args, Some(answer))?)
}

// Adds that each is assumed.
#[tactic(auto, using(crate::proofs::SayingSteps::step_steps))]
pub(crate) fn add_assumed(saids: &[Said], out: &mut Vec<Step>) -> Result<(), Fault>
    ensures { OnOk result ((v : Naming) (w : Saying) → Adds v w out.old.items out.new.items (map S.assumed (said_views v w saids.now))) }
{
    match saids {
        [] => Ok(()),
        [first, rest @ ..] => {
            out.push(Step::Assumed(*first))?;
            Ok(add_assumed(rest, out)?)
        }
    }
}

// Adds that each is assumed where others hold.
#[tactic(auto, using(crate::proofs::SayingSteps::step_steps))]
pub(crate) fn add_under(
    alloc: Global,
    under: &[Said],
    saids: &[Said],
    out: &mut Vec<Step>,
) -> Result<(), Fault>
    ensures { OnOk result ((v : Naming) (w : Saying) → Adds v w out.old.items out.new.items (map (S.assumed_under (said_views v w under.now)) (said_views v w saids.now))) }
{
    match saids {
        [] => Ok(()),
        [first, rest @ ..] => {
            out.push(Step::AssumedUnder {
                under: Vec::from_slice(alloc, under)?,
                said: *first,
            })?;
            Ok(add_under(alloc, under, rest, out)?)
        }
    }
}

// Adds that each is to be shown.
#[tactic(auto, using(crate::proofs::SayingSteps::step_steps))]
pub(crate) fn add_shown(saids: &[Said], out: &mut Vec<Step>) -> Result<(), Fault>
    ensures { OnOk result ((v : Naming) (w : Saying) → Adds v w out.old.items out.new.items (map S.shown (said_views v w saids.now))) }
{
    match saids {
        [] => Ok(()),
        [first, rest @ ..] => {
            out.push(Step::Shown(*first))?;
            Ok(add_shown(rest, out)?)
        }
    }
}
