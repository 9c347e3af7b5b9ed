//! What is assumed of the answers of calls.
ghost use Rattle.std.specs.Prelude.{◌≡◌, ◌++◌, true, map, slice_get, IfOk, OnOk};
ghost use Rattle.std.specs.List.{flat_map};
ghost use Rattle.model.specs.sites.Serves.{term_args};
ghost use Rattle.model.specs.sites.Sites.{each_term, layer, pick_of};
ghost use Rattle.core_rule_sets.specs.SiteViews.{site_view};
ghost use Rattle.model_questions.specs.Evaluated as E;
ghost use Rattle.model_questions.specs.Formulas as M;
ghost use Rattle.model_questions.specs.Steps as S;
ghost use Rattle.spec_cases.specs.Namings.{form_of, forms_of, Naming};
ghost use Rattle.spec_steps.specs.Demands.{Meant, MakesFor};
ghost use Rattle.spec_steps.specs.Listing.{sites};
ghost use Rattle.spec_steps.specs.Roots.{plan};
ghost use Rattle.spec_steps.specs.Saying.{Adds};
ghost use Rattle.spec_steps.specs.Sites.{IsBound};

use crate::demands::Demands;
use crate::made::{is_answered, is_pure_made};
use crate::placing::{fields_at, form_at};
use crate::saying::{add_assumed, add_shown, add_under, provides_of, requires_of};
use crate::sites::{binding_at, source_of};
use crate::splitting::{Root, field_splits, split_form, split_list};
use crate::typing::term_types;
use core_rule_sets::trie_again::{Binding, BindingId};
use core_types::TermId;
use spec_cases::arena::Formulas;
use spec_cases::faults::Fault;
use spec_cases::forms::{FieldsId, Form};
use spec_cases::opening::Around;
use spec_cases::steps::Step;
use std::alloc::Global;

// What a term provides with a result, where what it requires holds.
fn assume_under(
    alloc: Global,
    demands: &Demands<'_>,
    term: TermId,
    args: FieldsId,
    answer: Form,
    out: &mut Vec<Step>,
) -> Result<(), Fault>
    ensures { OnOk result ((v : Naming) (m : Meant v demands.now) → Adds v m.w out.old.items out.new.items
        (map (S.assumed_under (S.requires_of m.specs term.0 (v.fields args.0))) (S.provides_of m.specs term.0 (v.fields args.0) (form_of v answer)))) }
{
    let under = requires_of(alloc, demands, term, args)?;
    let saids = provides_of(alloc, demands, term, args, answer)?;
    Ok(add_under(alloc, &under, &saids, out)?)
}

// What a term provides with the answer of a call: of a pure one where what it requires holds; of an impure one, whose require was shown, as
// it stands.
#[tactic(auto, using(crate::proofs::AnsweringSteps::provided_by))]
fn assume_answered(
    alloc: Global,
    demands: &Demands<'_>,
    term: TermId,
    instance: u32,
    args: FieldsId,
    answer: Form,
    out: &mut Vec<Step>,
) -> Result<(), Fault>
    ensures { OnOk result ((v : Naming) (m : Meant v demands.now) → Adds v m.w out.old.items out.new.items
        (S.provided_steps instance (S.requires_of m.specs term.0 (v.fields args.0)) (S.provides_of m.specs term.0 (v.fields args.0) (form_of v answer)))) }
{
    if instance > 0 {
        Ok(assume_provided(alloc, demands, term, args, answer, out)?)
    } else {
        Ok(assume_under(alloc, demands, term, args, answer, out)?)
    }
}

// A constructor's answer is what its term provides, by the call's instance.
fn constructed_steps(
    formulas: &mut Formulas,
    demands: &Demands<'_>,
    done: &[u32],
    flag: bool,
    call: u32,
    term: TermId,
    parameters: &[BindingId],
    instance: u32,
    answer: u32,
    out: &mut Vec<Step>,
) -> Result<(), Fault>
    ensures { OnOk result (MakesFor formulas.old formulas.new demands.now (λ v m. Adds v m.w out.old.items out.new.items
        (S.constructed m.p m.specs m.c (sites v done.now) (plan flag) true term.0 (each_term v.site parameters.now) instance (v.site answer)))) }
{
    let form = form_at(formulas, demands, done, answer)?;
    split_form(flag, form, out)?;
    let args = fields_at(formulas, demands, done, call, parameters)?;
    Ok(assume_answered(formulas.alloc(), demands, term, instance, args, form, out)?)
}

fn constructed(
    formulas: &mut Formulas,
    demands: &Demands<'_>,
    done: &[u32],
    flag: bool,
    answered: bool,
    call: u32,
    term: TermId,
    parameters: &[BindingId],
    instance: u32,
    answer: u32,
    out: &mut Vec<Step>,
) -> Result<(), Fault>
    ensures { OnOk result (MakesFor formulas.old formulas.new demands.now (λ v m. Adds v m.w out.old.items out.new.items
        (S.constructed m.p m.specs m.c (sites v done.now) (plan flag) answered term.0 (each_term v.site parameters.now) instance (v.site answer)))) }
{
    if answered {
        Ok(constructed_steps(
            formulas, demands, done, flag, call, term, parameters, instance, answer, out,
        )?)
    } else {
        Ok(())
    }
}

// The outputs of the call of an extractor, as the arguments of its term.
fn outputs_at(
    formulas: &mut Formulas,
    demands: &Demands<'_>,
    term: TermId,
    answer: u32,
) -> Result<Vec<Form>, Fault>
    ensures { IfOk result (λ l. MakesFor formulas.old formulas.new demands.now (λ v m. forms_of v l.items
        ≡ E.fields_at (M.output_at (v.site answer)) 0 (term_args (slice_get m.p.terms term.0)))) }
{
    let around = Around::Outputs { site: answer };
    Ok(formulas.fields_at(around, term_types(demands, term))?)
}

// Adds that what a term requires of arguments is assumed.
pub(crate) fn assume_required(
    alloc: Global,
    demands: &Demands<'_>,
    term: TermId,
    args: FieldsId,
    out: &mut Vec<Step>,
) -> Result<(), Fault>
    ensures { OnOk result ((v : Naming) (m : Meant v demands.now) → Adds v m.w out.old.items out.new.items (map S.assumed (S.requires_of m.specs term.0 (v.fields args.0)))) }
{
    let saids = requires_of(alloc, demands, term, args)?;
    Ok(add_assumed(&saids, out)?)
}

fn assume_provided(
    alloc: Global,
    demands: &Demands<'_>,
    term: TermId,
    args: FieldsId,
    answer: Form,
    out: &mut Vec<Step>,
) -> Result<(), Fault>
    ensures { OnOk result ((v : Naming) (m : Meant v demands.now) → Adds v m.w out.old.items out.new.items (map S.assumed (S.provides_of m.specs term.0 (v.fields args.0) (form_of v answer)))) }
{
    let saids = provides_of(alloc, demands, term, args, answer)?;
    Ok(add_assumed(&saids, out)?)
}

// What a term requires of arguments, and provides with a result.
fn assume_said(
    alloc: Global,
    demands: &Demands<'_>,
    term: TermId,
    args: FieldsId,
    answer: Form,
    out: &mut Vec<Step>,
) -> Result<(), Fault>
    ensures { OnOk result ((v : Naming) (m : Meant v demands.now) → Adds v m.w out.old.items out.new.items
        (map S.assumed (S.requires_of m.specs term.0 (v.fields args.0)) ++ map S.assumed (S.provides_of m.specs term.0 (v.fields args.0) (form_of v answer)))) }
{
    assume_required(alloc, demands, term, args, out)?;
    Ok(assume_provided(alloc, demands, term, args, answer, out)?)
}

// What an extractor looks at is its term's result, its outputs are the arguments.
fn extracted_steps(
    formulas: &mut Formulas,
    demands: &Demands<'_>,
    done: &[u32],
    flag: bool,
    term: TermId,
    looked: u32,
    answer: u32,
    out: &mut Vec<Step>,
) -> Result<(), Fault>
    ensures { OnOk result (MakesFor formulas.old formulas.new demands.now (λ v m. Adds v m.w out.old.items out.new.items
        (S.extracted m.p m.specs m.c (sites v done.now) (plan flag) true term.0 (v.site looked) (v.site answer)))) }
{
    let outputs = outputs_at(formulas, demands, term, answer)?;
    split_list(flag, &outputs, out)?;
    let args = formulas.made_fields(outputs)?;
    field_splits(
        formulas,
        demands,
        flag,
        Root::Outputs(answer),
        demands.constraints,
        out,
    )?;
    let form = form_at(formulas, demands, done, looked)?;
    Ok(assume_said(formulas.alloc(), demands, term, args, form, out)?)
}

fn extracted(
    formulas: &mut Formulas,
    demands: &Demands<'_>,
    done: &[u32],
    flag: bool,
    answered: bool,
    term: TermId,
    looked: u32,
    answer: u32,
    out: &mut Vec<Step>,
) -> Result<(), Fault>
    ensures { OnOk result (MakesFor formulas.old formulas.new demands.now (λ v m. Adds v m.w out.old.items out.new.items
        (S.extracted m.p m.specs m.c (sites v done.now) (plan flag) answered term.0 (v.site looked) (v.site answer)))) }
{
    if answered {
        Ok(extracted_steps(formulas, demands, done, flag, term, looked, answer, out)?)
    } else {
        Ok(())
    }
}

// Adds what is assumed of the answers that a site picks of a call's.
fn picked(
    formulas: &mut Formulas,
    demands: &Demands<'_>,
    done: &[u32],
    flag: bool,
    call: u32,
    pick: u32,
    out: &mut Vec<Step>,
) -> Result<(), Fault>
    ensures { OnOk result (MakesFor formulas.old formulas.new demands.now (λ v m. v.site pick ≡ pick_of (v.site call) → Adds v m.w out.old.items out.new.items
        (S.picked m.p m.specs m.c (sites v done.now) (plan flag) (v.site call)))) }
{
    let binding = binding_at(demands.bindings, call)?;
    Ok(picked_by(formulas, demands, done, flag, call, pick, binding, out)?)
}

fn picked_by(
    formulas: &mut Formulas,
    demands: &Demands<'_>,
    done: &[u32],
    flag: bool,
    call: u32,
    pick: u32,
    binding: &Binding,
    out: &mut Vec<Step>,
) -> Result<(), Fault>
    ensures { OnOk result (MakesFor formulas.old formulas.new demands.now (λ v m. v.site pick ≡ pick_of (v.site call) → IsBound v call binding.now → Adds v m.w out.old.items out.new.items
        (S.picked m.p m.specs m.c (sites v done.now) (plan flag) (layer v.site (site_view binding.now))))) }
{
    match binding {
        Binding::Constructor {
            term,
            parameters,
            instance,
        } => {
            let answered = is_pure_made(demands, call)?;
            Ok(constructed(
                formulas, demands, done, flag, answered, call, *term, parameters, *instance, pick,
                out,
            )?)
        }
        Binding::Extractor { term, parameter } => {
            let looked = source_of(call, *parameter)?;
            let answered = is_pure_made(demands, call)?;
            Ok(extracted(
                formulas, demands, done, flag, answered, *term, looked, pick, out,
            )?)
        }
        Binding::Iterator { .. }
        | Binding::MakeSome { .. }
        | Binding::MakeVariant { .. }
        | Binding::MakeStruct { .. }
        | Binding::MatchVariant { .. }
        | Binding::ExtractStruct { .. }
        | Binding::MatchSome { .. }
        | Binding::MatchTuple { .. }
        | Binding::ConstBool { .. }
        | Binding::ConstInt { .. }
        | Binding::ConstPrim { .. }
        | Binding::Argument { .. } => Ok(()),
    }
}

// Adds what is assumed of the answer that a site holds.
pub(crate) fn answer_steps(
    formulas: &mut Formulas,
    demands: &Demands<'_>,
    done: &[u32],
    flag: bool,
    site: u32,
    out: &mut Vec<Step>,
) -> Result<(), Fault>
    ensures { OnOk result (MakesFor formulas.old formulas.new demands.now (λ v m. Adds v m.w out.old.items out.new.items
        (S.answer_steps m.p m.specs m.c (sites v done.now) (plan flag) (v.site site)))) }
{
    let binding = binding_at(demands.bindings, site)?;
    Ok(answer_by(formulas, demands, done, flag, site, binding, out)?)
}

fn answer_by(
    formulas: &mut Formulas,
    demands: &Demands<'_>,
    done: &[u32],
    flag: bool,
    site: u32,
    binding: &Binding,
    out: &mut Vec<Step>,
) -> Result<(), Fault>
    ensures { OnOk result (MakesFor formulas.old formulas.new demands.now (λ v m. IsBound v site binding.now → Adds v m.w out.old.items out.new.items
        (S.answer_steps m.p m.specs m.c (sites v done.now) (plan flag) (layer v.site (site_view binding.now))))) }
{
    match binding {
        Binding::Constructor {
            term,
            parameters,
            instance,
        } => {
            let answered = is_answered(demands, done, site)?;
            Ok(constructed(
                formulas, demands, done, flag, answered, site, *term, parameters, *instance, site,
                out,
            )?)
        }
        Binding::Extractor { term, parameter } => {
            let looked = source_of(site, *parameter)?;
            let answered = is_answered(demands, done, site)?;
            Ok(extracted(
                formulas, demands, done, flag, answered, *term, looked, site, out,
            )?)
        }
        Binding::Iterator { source } => {
            let call = source_of(site, *source)?;
            Ok(picked(formulas, demands, done, flag, call, site, out)?)
        }
        Binding::MakeSome { .. }
        | Binding::MakeVariant { .. }
        | Binding::MakeStruct { .. }
        | Binding::MatchVariant { .. }
        | Binding::ExtractStruct { .. }
        | Binding::MatchSome { .. }
        | Binding::MatchTuple { .. }
        | Binding::ConstBool { .. }
        | Binding::ConstInt { .. }
        | Binding::ConstPrim { .. }
        | Binding::Argument { .. } => Ok(()),
    }
}

// Adds what is assumed of the answers that sites hold.
pub(crate) fn answers_each(
    formulas: &mut Formulas,
    demands: &Demands<'_>,
    done: &[u32],
    flag: bool,
    list: &[u32],
    out: &mut Vec<Step>,
) -> Result<(), Fault>
    ensures { OnOk result (MakesFor formulas.old formulas.new demands.now (λ v m. Adds v m.w out.old.items out.new.items
        (flat_map (S.answer_steps m.p m.specs m.c (sites v done.now) (plan flag)) (sites v list.now)))) }
{
    match list {
        [] => Ok(()),
        [first, rest @ ..] => {
            answer_steps(formulas, demands, done, flag, *first, out)?;
            Ok(answers_each(formulas, demands, done, flag, rest, out)?)
        }
    }
}

// Adds that the require of an impure call is to be shown.
pub(crate) fn required_steps(
    formulas: &mut Formulas,
    demands: &Demands<'_>,
    done: &[u32],
    call: u32,
    out: &mut Vec<Step>,
) -> Result<(), Fault>
    ensures { OnOk result (MakesFor formulas.old formulas.new demands.now (λ v m. Adds v m.w out.old.items out.new.items
        (S.required_steps m.p m.specs m.c (sites v done.now) (v.site call)))) }
{
    let binding = binding_at(demands.bindings, call)?;
    Ok(required_by(formulas, demands, done, call, binding, out)?)
}

fn show_all_required(
    alloc: Global,
    demands: &Demands<'_>,
    term: TermId,
    args: FieldsId,
    out: &mut Vec<Step>,
) -> Result<(), Fault>
    ensures { OnOk result ((v : Naming) (m : Meant v demands.now) → Adds v m.w out.old.items out.new.items (map S.shown (S.requires_of m.specs term.0 (v.fields args.0)))) }
{
    let saids = requires_of(alloc, demands, term, args)?;
    Ok(add_shown(&saids, out)?)
}

fn show_required(
    formulas: &mut Formulas,
    demands: &Demands<'_>,
    done: &[u32],
    call: u32,
    term: TermId,
    parameters: &[BindingId],
    out: &mut Vec<Step>,
) -> Result<(), Fault>
    ensures { OnOk result (MakesFor formulas.old formulas.new demands.now (λ v m. Adds v m.w out.old.items out.new.items
        (map S.shown (S.requires_of m.specs term.0 (S.forms_at m.p m.specs m.c (sites v done.now) (each_term v.site parameters.now)))))) }
{
    let args = fields_at(formulas, demands, done, call, parameters)?;
    Ok(show_all_required(formulas.alloc(), demands, term, args, out)?)
}

fn required_by(
    formulas: &mut Formulas,
    demands: &Demands<'_>,
    done: &[u32],
    call: u32,
    binding: &Binding,
    out: &mut Vec<Step>,
) -> Result<(), Fault>
    ensures { OnOk result (MakesFor formulas.old formulas.new demands.now (λ v m. Adds v m.w out.old.items out.new.items
        (S.required_steps m.p m.specs m.c (sites v done.now) (layer v.site (site_view binding.now))))) }
{
    match binding {
        Binding::Constructor {
            term,
            parameters,
            ..
        } => Ok(show_required(formulas, demands, done, call, *term, parameters, out)?),
        Binding::Extractor { .. }
        | Binding::Iterator { .. }
        | Binding::MakeSome { .. }
        | Binding::MakeVariant { .. }
        | Binding::MakeStruct { .. }
        | Binding::MatchVariant { .. }
        | Binding::ExtractStruct { .. }
        | Binding::MatchSome { .. }
        | Binding::MatchTuple { .. }
        | Binding::ConstBool { .. }
        | Binding::ConstInt { .. }
        | Binding::ConstPrim { .. }
        | Binding::Argument { .. } => Ok(()),
    }
}
