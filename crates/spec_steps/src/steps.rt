//! The steps in which the condition of a rule of a set is asked.
ghost use Rattle.std.specs.Prelude.{◌≡◌, ◌∷◌, ◌++◌, [], map, IfOk, OnOk};
ghost use Rattle.std.specs.List.{flat_map};
ghost use Rattle.laws_specs.specs.Conditions as C;
ghost use Rattle.model_questions.specs.Steps as S;
ghost use Rattle.spec_cases.specs.Namings.{form_of, forms_of, Naming};
ghost use Rattle.spec_steps.specs.Demands.{Meant, MakesFor};
ghost use Rattle.spec_steps.specs.Events.{event_view, event_views};
ghost use Rattle.spec_steps.specs.Listing.{sites};
ghost use Rattle.spec_steps.specs.Roots.{plan};
ghost use Rattle.spec_steps.specs.Saying.{Adds};

use crate::answering::{answers_each, assume_required, required_steps};
use crate::demands::{Demands, Same};
use crate::events::{Event, event_sites, events_of, fresh_sites, made_after};
use crate::listing::{call_of, joined};
use crate::placing::{form_at, result_form};
use crate::saying::{add_shown, provides_of};
use crate::splitting::{Root, field_splits, split_list, told_steps};
use crate::typing::own_types;
use spec_cases::arena::Formulas;
use spec_cases::faults::Fault;
use spec_cases::forms::{FieldsId, Form};
use spec_cases::opening::Around;
use spec_cases::steps::Step;
use std::alloc::Global;

fn push_step(step: Step, out: &mut Vec<Step>) -> Result<(), Fault>
    ensures { OnOk result (out.new.items ≡ out.old.items ++ step ∷ []) }
{
    out.push(step)?;
    Ok(())
}

// Adds that two sites are the same.
fn same_steps(
    formulas: &mut Formulas,
    demands: &Demands<'_>,
    done: &[u32],
    same: Same,
    out: &mut Vec<Step>,
) -> Result<(), Fault>
    ensures { OnOk result (MakesFor formulas.old formulas.new demands.now (λ v m. Adds v m.w out.old.items out.new.items
        (S.told_same (S.form_at m.p m.specs m.c (sites v done.now) (v.site same.first)) (S.form_at m.p m.specs m.c (sites v done.now) (v.site same.second)) ∷ []))) }
{
    let first = form_at(formulas, demands, done, same.first)?;
    let second = form_at(formulas, demands, done, same.second)?;
    Ok(push_step(Step::ToldSame { first, second }, out)?)
}

// Adds that the require of an impure call, unwrapped or not, is to be shown.
fn call_steps(
    formulas: &mut Formulas,
    demands: &Demands<'_>,
    done: &[u32],
    site: u32,
    out: &mut Vec<Step>,
) -> Result<(), Fault>
    ensures { OnOk result (MakesFor formulas.old formulas.new demands.now (λ v m. Adds v m.w out.old.items out.new.items
        (S.required_steps m.p m.specs m.c (sites v done.now) (C.call_of (v.site site))))) }
{
    let call = call_of(demands.bindings, site)?;
    Ok(required_steps(formulas, demands, done, call, out)?)
}

fn show_provided(
    alloc: Global,
    demands: &Demands<'_>,
    args: FieldsId,
    answer: Form,
    out: &mut Vec<Step>,
) -> Result<(), Fault>
    ensures { OnOk result ((v : Naming) (m : Meant v demands.now) → Adds v m.w out.old.items out.new.items (map S.shown (S.provides_of m.specs m.c.term (v.fields args.0) (form_of v answer)))) }
{
    let saids = provides_of(alloc, demands, demands.term, args, answer)?;
    Ok(add_shown(&saids, out)?)
}

// Adds that what the term provides is to be shown of the result.
fn result_steps(
    formulas: &mut Formulas,
    demands: &Demands<'_>,
    done: &[u32],
    args: FieldsId,
    site: u32,
    out: &mut Vec<Step>,
) -> Result<(), Fault>
    ensures { OnOk result (MakesFor formulas.old formulas.new demands.now (λ v m. Adds v m.w out.old.items out.new.items
        (map S.shown (S.provides_of m.specs m.c.term (v.fields args.0) (S.result_form m.p m.specs m.c (sites v done.now) (v.site site)))))) }
{
    let form = result_form(formulas, demands, done, site)?;
    Ok(show_provided(formulas.alloc(), demands, args, form, out)?)
}

// Adds what follows of what happens.
fn event_steps(
    formulas: &mut Formulas,
    demands: &Demands<'_>,
    done: &[u32],
    args: FieldsId,
    event: Event,
    out: &mut Vec<Step>,
) -> Result<(), Fault>
    ensures { OnOk result (MakesFor formulas.old formulas.new demands.now (λ v m. Adds v m.w out.old.items out.new.items
        (S.event_steps m.p m.specs m.c (sites v done.now) (v.fields args.0) (event_view v event)))) }
{
    match event {
        Event::Tests(_) => Ok(()),
        Event::Equals(same) => Ok(same_steps(formulas, demands, done, same, out)?),
        Event::Calls(site) => Ok(call_steps(formulas, demands, done, site, out)?),
        Event::Gives(site) => Ok(result_steps(formulas, demands, done, args, site, out)?),
    }
}

// Adds what is assumed of sites that weren't seen, and what follows of what happens.
fn new_steps(
    formulas: &mut Formulas,
    demands: &Demands<'_>,
    flag: bool,
    done: &[u32],
    args: FieldsId,
    new: &[u32],
    event: Event,
    out: &mut Vec<Step>,
) -> Result<(), Fault>
    ensures { OnOk result (MakesFor formulas.old formulas.new demands.now (λ v m. Adds v m.w out.old.items out.new.items
        (flat_map (S.answer_steps m.p m.specs m.c (sites v done.now) (plan flag)) (sites v new.now) ++ S.event_steps m.p m.specs m.c (sites v done.now) (v.fields args.0) (event_view v event)))) }
{
    answers_each(formulas, demands, done, flag, new, out)?;
    Ok(event_steps(formulas, demands, done, args, event, out)?)
}

fn told_new(
    formulas: &mut Formulas,
    demands: &Demands<'_>,
    flag: bool,
    done: &[u32],
    args: FieldsId,
    seen: &[u32],
    told: &[u32],
    event: Event,
    out: &mut Vec<Step>,
) -> Result<(), Fault>
    ensures { OnOk result (MakesFor formulas.old formulas.new demands.now (λ v m. Adds v m.w out.old.items out.new.items
        (flat_map (S.answer_steps m.p m.specs m.c (sites v done.now) (plan flag)) (S.fresh (sites v seen.now) (sites v told.now)) ++ S.event_steps m.p m.specs m.c (sites v done.now) (v.fields args.0) (event_view v event)))) }
{
    let new = fresh_sites(formulas.alloc(), seen, told)?;
    Ok(new_steps(formulas, demands, flag, done, args, &new, event, out)?)
}

// Adds the steps of what happens, after what was seen and called before.
fn steps_from(
    formulas: &mut Formulas,
    demands: &Demands<'_>,
    flag: bool,
    args: FieldsId,
    seen: &[u32],
    done: &[u32],
    events: &[Event],
    out: &mut Vec<Step>,
) -> Result<(), Fault>
    ensures { OnOk result (MakesFor formulas.old formulas.new demands.now (λ v m. Adds v m.w out.old.items out.new.items
        (S.steps_from m.p m.specs m.c (plan flag) (v.fields args.0) (sites v seen.now) (sites v done.now) (event_views v events.now)))) }
{
    match events {
        [] => Ok(()),
        [event, rest @ ..] => {
            let told = event_sites(formulas.alloc(), demands, done, *event)?;
            told_new(
                formulas, demands, flag, done, args, seen, &told, *event, out,
            )?;
            let later = joined(formulas.alloc(), &told, seen)?;
            let made = made_after(formulas.alloc(), demands.bindings, *event, done)?;
            Ok(steps_from(formulas, demands, flag, args, &later, &made, rest, out)?)
        }
    }
}

// Adds the steps of all that happens.
fn happening(
    formulas: &mut Formulas,
    demands: &Demands<'_>,
    flag: bool,
    args: FieldsId,
    out: &mut Vec<Step>,
) -> Result<(), Fault>
    ensures { OnOk result (MakesFor formulas.old formulas.new demands.now (λ v m. Adds v m.w out.old.items out.new.items
        (S.steps_from m.p m.specs m.c (plan flag) (v.fields args.0) [] [] (S.events_of m.c)))) }
{
    let events = events_of(formulas.alloc(), demands)?;
    Ok(steps_from(formulas, demands, flag, args, &[], &[], &events, out)?)
}

fn assume_own(
    alloc: Global,
    demands: &Demands<'_>,
    args: FieldsId,
    out: &mut Vec<Step>,
) -> Result<(), Fault>
    ensures { OnOk result ((v : Naming) (m : Meant v demands.now) → Adds v m.w out.old.items out.new.items (map S.assumed (S.requires_of m.specs m.c.term (v.fields args.0)))) }
{
    Ok(assume_required(alloc, demands, demands.term, args, out)?)
}

// The arguments of the term.
fn args_of(formulas: &mut Formulas, demands: &Demands<'_>) -> Result<Vec<Form>, Fault>
    ensures { IfOk result (λ l. MakesFor formulas.old formulas.new demands.now (λ v m. forms_of v l.items ≡ S.args_of m.p m.specs m.c)) }
{
    Ok(formulas.fields_at(Around::Arguments, own_types(demands))?)
}

/// Adds the steps in which a condition is asked, on arguments of the term's types: what its constraints tell, what the term requires, and
/// what happens. By the flag, each place whose type is known is asked at each of its widths by itself, or none is.
///
/// # Errors
///
/// `Foreign` where a number isn't a site's or isn't made of smaller ones, `TooGreat` where an integer is one of a type of words past 127
/// bits, `Full` where no number is left, `Memory` where memory is refused.
pub fn steps_of(
    formulas: &mut Formulas,
    demands: &Demands<'_>,
    flag: bool,
    out: &mut Vec<Step>,
) -> Result<(), Fault>
    ensures { OnOk result (MakesFor formulas.old formulas.new demands.now (λ v m. Adds v m.w out.old.items out.new.items (S.steps_of m.p m.specs m.c (plan flag)))) }
{
    let forms = args_of(formulas, demands)?;
    split_list(flag, &forms, out)?;
    let args = formulas.made_fields(forms)?;
    told_steps(formulas, demands, demands.constraints, out)?;
    field_splits(
        formulas,
        demands,
        flag,
        Root::Arguments,
        demands.constraints,
        out,
    )?;
    assume_own(formulas.alloc(), demands, args, out)?;
    Ok(happening(formulas, demands, flag, args, out)?)
}
