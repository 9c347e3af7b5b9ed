//! The run of a tree of tests.

ghost use Rattle.std.specs.Prelude.{◌≡◌, ◌∷◌, IfOk, if◌then◌else◌, map, option_map, slice_get};
ghost use Rattle.model.specs.rules.Outcome.{ended, ran_through, then_option};
ghost use Rattle.model.specs.trees.Run.{for_each, iterated, on_ending, returned, with_content, with_env, run_arms, run, run_check, run_tree};
ghost use Rattle.model.specs.trees.Run as Run;
ghost use Rattle.model.specs.trees.Trees as Trees;
ghost use Rattle.model.specs.trees.Trees.{Tree};
ghost use Rattle.core_serialize.specs.TreeViews.{arms_view, check_view, tree_view};
ghost use Rattle.core_serialize.specs.declared.serialize.MatchArm.{out-MatchArm};
ghost use Rattle.core_rule_sets.specs.SiteViews.{site_view, site_views};
ghost use Rattle.run_terms.specs.RunViews.{IsBeginningOf, arg_views, content_list, ending_view, env_view, equality_by, is_through, many_by};
ghost use Rattle.run_terms.specs.RunViews.{outcome_at, outcome_view, stage_of, stage_view, trace_view, used_in, used_value_in};
ghost use Rattle.run_terms.specs.ValueViews.{content_view};

use crate::binds::bind_all;
use crate::env::{used, used_value};
use crate::externs::Externs;
use crate::fields::{bind_fields, content_fields};
use crate::state::{Bound, Ending, Outcome, Stage, Trace};
use crate::values::{Content, Value, same_value};
use core_rule_sets::trie_again::{Binding, BindingId, RuleSet};
use core_serialize::serialize::{Block, ControlFlow, EvalStep, MatchArm};
use std::alloc::{AllocError, Global};

// Whether two sites hold equal values, where each holds a value.
fn are_equal<E: Externs>(
    stage: &Stage<'_, E>,
    env: &[(BindingId, Content)],
    a: BindingId,
    b: BindingId,
) -> Result<Option<bool>, AllocError>
    ensures { IfOk result (λ o. o ≡ equality_by (used_value_in E.functions stage.now env.now a) (used_value_in E.functions stage.now env.now b)) }
{
    let Some(one) = used_value(stage, env, a)? else {
        return Ok(None);
    };
    let Some(other) = used_value(stage, env, b)? else {
        return Ok(None);
    };
    Ok(Some(same_value(&one, &other)))
}

// The call whose answers a loop of this site goes over.
fn call_of(binding: &Binding) -> Option<BindingId>
    ensures { result ≡ iterated (site_view binding.now) }
{
    match binding {
        Binding::Iterator { source } => Some(*source),
        _ => None,
    }
}

// The answers of the call that a loop of a site goes over.
fn gone_over<E: Externs>(
    stage: &Stage<'_, E>,
    env: &[(BindingId, Content)],
    site: BindingId,
) -> Result<Option<Vec<Content>>, AllocError>
    ensures { IfOk result (λ o. option_map (λ v. content_list v.items) o
        ≡ many_by (then_option (then_option (slice_get (site_views stage.now.sites.now) site) iterated) (used_in E.functions stage.now env.now))) }
{
    let Some(binding) = stage.sites.get(site.index()) else {
        return Ok(None);
    };
    let Some(call) = call_of(binding) else {
        return Ok(None);
    };
    match used(stage, env, call)? {
        Some(content) => Ok(content.into_answers()),
        None => Ok(None),
    }
}

// Whether the next step follows.
fn goes_on(ending: Ending) -> bool
    ensures { result ≡ is_through ending }
{
    match ending {
        Ending::Ended => false,
        Ending::Failed => false,
        Ending::RanThrough => true,
        Ending::Stuck => false,
    }
}

// How a result ends: in a multi term the run goes on.
fn after_result(multi: bool) -> Ending
    ensures { ending_view result ≡ (if multi then ran_through else ended) }
{
    if multi {
        Ending::RanThrough
    } else {
        Ending::Ended
    }
}

fn give<E: Externs>(
    stage: &Stage<'_, E>,
    env: &[(BindingId, Content)],
    trace: &mut Trace,
    site: BindingId,
) -> Result<Ending, AllocError>
    ensures { IfOk result (λ e. outcome_at e trace.new
        ≡ with_content (used_in E.functions stage.now env.now site) (trace_view trace.old) (returned stage.now.multi (trace_view trace.old))) }
{
    match used(stage, env, site)? {
        Some(content) => {
            trace.results.push(content)?;
            Ok(after_result(stage.multi))
        }
        None => Ok(Ending::Stuck),
    }
}

// The steps of a block in turn, until one ends the run.
#[cycle(run)]
fn run_block<E: Externs>(
    block: &Block,
    stage: &Stage<'_, E>,
    env: &mut Vec<(BindingId, Content)>,
    trace: &mut Trace,
) -> Result<Ending, AllocError>
    ensures ran { IfOk result (λ e. outcome_at e trace.new
        ≡ run_tree (tree_view block.now) (stage_view E.functions stage.now) (env_view env.old.items) (trace_view trace.old)) }
    ensures kept { IfOk result (λ e. IsBeginningOf env.old.items env.new.items) }
{
    for step in &block.steps {
        let ending = run_step(step, stage, env, trace)?;
        if !goes_on(ending) {
            return Ok(ending);
        }
    }
    Ok(Ending::RanThrough)
}

// A step: its sites are bound, then its test is made, or the run ends.
#[cycle(run)]
fn run_step<E: Externs>(
    step: &EvalStep,
    stage: &Stage<'_, E>,
    env: &mut Vec<(BindingId, Content)>,
    trace: &mut Trace,
) -> Result<Ending, AllocError>
    ensures ran { IfOk result (λ e. (rest : Tree) → on_ending (ending_view e) (trace_view trace.new)
        (run_tree rest (stage_view E.functions stage.now) (env_view env.new.items))
        ≡ run_tree (Trees.step step.now.bind_order.items (check_view step.now.check) rest) (stage_view E.functions stage.now)
        (env_view env.old.items) (trace_view trace.old)) }
    ensures kept { IfOk result (λ e. IsBeginningOf env.old.items env.new.items) }
{
    match bind_all(stage, env, &mut trace.calls, &step.bind_order)? {
        Bound::All => Ok(run_within(&step.check, stage, env, trace)?),
        Bound::Failed => Ok(Ending::Failed),
        Bound::Missing => Ok(Ending::Stuck),
    }
}

// A test or an end, after which no more is bound than before.
#[cycle(run)]
fn run_within<E: Externs>(
    check: &ControlFlow,
    stage: &Stage<'_, E>,
    env: &mut Vec<(BindingId, Content)>,
    trace: &mut Trace,
) -> Result<Ending, AllocError>
    ensures ran { IfOk result (λ e. outcome_at e trace.new
        ≡ run_check (check_view check.now) (stage_view E.functions stage.now) (env_view env.old.items) (trace_view trace.old)) }
    ensures kept { IfOk result (λ e. env.new.items ≡ env.old.items) }
{
    let depth = env.len();
    let ending = run_check(check, stage, env, trace)?;
    env.truncate(depth);
    Ok(ending)
}

// A test, with what follows it, or an end.
#[cycle(run)]
fn run_check<E: Externs>(
    check: &ControlFlow,
    stage: &Stage<'_, E>,
    env: &mut Vec<(BindingId, Content)>,
    trace: &mut Trace,
) -> Result<Ending, AllocError>
    ensures ran { IfOk result (λ e. outcome_at e trace.new
        ≡ run_check (check_view check.now) (stage_view E.functions stage.now) (env_view env.old.items) (trace_view trace.old)) }
    ensures kept { IfOk result (λ e. IsBeginningOf env.old.items env.new.items) }
{
    match check {
        ControlFlow::Match { source, arms } => match used(stage, env, *source)? {
            Some(content) => Ok(run_arms(arms, &content, stage, env, trace)?),
            None => Ok(Ending::Stuck),
        },
        ControlFlow::Equal { a, b, body } => match are_equal(stage, env, *a, *b)? {
            Some(true) => Ok(run_block(body, stage, env, trace)?),
            Some(false) => Ok(Ending::RanThrough),
            None => Ok(Ending::Stuck),
        },
        ControlFlow::Loop { result, body } => match gone_over(stage, env, *result)? {
            Some(contents) => Ok(run_each(body, *result, &contents, stage, env, trace)?),
            None => Ok(Ending::Stuck),
        },
        ControlFlow::Return { result, .. } => Ok(give(stage, env, trace, *result)?),
    }
}

// The first arm whose constraint the content meets.
#[cycle(run)]
fn run_arms<E: Externs>(
    arms: &[MatchArm],
    content: &Content,
    stage: &Stage<'_, E>,
    env: &mut Vec<(BindingId, Content)>,
    trace: &mut Trace,
) -> Result<Ending, AllocError>
    ensures ran { IfOk result (λ e. outcome_at e trace.new
        ≡ run_arms (arms_view arms.now) (stage_view E.functions stage.now) (content_view content.now) (env_view env.old.items) (trace_view trace.old)) }
    ensures kept { IfOk result (λ e. IsBeginningOf env.old.items env.new.items) }
{
    for arm in arms {
        if let Some(fields) = content_fields(stage, arm.constraint, content)? {
            return Ok(run_arm(arm, &fields, stage, env, trace)?);
        }
    }
    Ok(Ending::RanThrough)
}

// The body of an arm whose constraint brings these fields.
#[cycle(run)]
fn run_arm<E: Externs>(
    arm: &MatchArm,
    fields: &[Content],
    stage: &Stage<'_, E>,
    env: &mut Vec<(BindingId, Content)>,
    trace: &mut Trace,
) -> Result<Ending, AllocError>
    ensures ran { IfOk result (λ e. outcome_at e trace.new
        ≡ with_env (Run.bind_fields (out-MatchArm arm.now).bindings.items (content_list fields.now) (env_view env.old.items)) (trace_view trace.old)
        (λ inside. run_tree (tree_view (out-MatchArm arm.now).body) (stage_view E.functions stage.now) inside (trace_view trace.old))) }
    ensures kept { IfOk result (λ e. IsBeginningOf env.old.items env.new.items) }
{
    if bind_fields(env, &arm.bindings, fields)? {
        Ok(run_block(&arm.body, stage, env, trace)?)
    } else {
        Ok(Ending::Stuck)
    }
}

// The body of a loop for one answer, after which no more is bound than before.
#[cycle(run)]
fn run_once<E: Externs>(
    body: &Block,
    site: BindingId,
    content: &Content,
    stage: &Stage<'_, E>,
    env: &mut Vec<(BindingId, Content)>,
    trace: &mut Trace,
) -> Result<Ending, AllocError>
    ensures ran { IfOk result (λ e. outcome_at e trace.new
        ≡ run_tree (tree_view body.now) (stage_view E.functions stage.now) ((site, content_view content.now) ∷ env_view env.old.items) (trace_view trace.old)) }
    ensures kept { IfOk result (λ e. env.new.items ≡ env.old.items) }
{
    let depth = env.len();
    env.push((site, content.clone()?))?;
    let ending = run_block(body, stage, env, trace)?;
    env.truncate(depth);
    Ok(ending)
}

// The body of a loop for each answer in turn, until one ends the run.
#[cycle(run)]
fn run_each<E: Externs>(
    body: &Block,
    site: BindingId,
    contents: &[Content],
    stage: &Stage<'_, E>,
    env: &mut Vec<(BindingId, Content)>,
    trace: &mut Trace,
) -> Result<Ending, AllocError>
    ensures ran { IfOk result (λ e. outcome_at e trace.new
        ≡ for_each (content_list contents.now)
        (λ c after. run_tree (tree_view body.now) (stage_view E.functions stage.now) ((site, c) ∷ env_view env.old.items) after) (trace_view trace.old)) }
    ensures kept { IfOk result (λ e. env.new.items ≡ env.old.items) }
{
    for content in contents {
        let ending = run_once(body, site, content, stage, env, trace)?;
        if !goes_on(ending) {
            return Ok(ending);
        }
    }
    Ok(Ending::RanThrough)
}

/// The run of a tree on arguments, from nothing, under what is called: the impure calls that were made and the results given,
/// in order, and how it ends. `block` is a tree whose sites are those of `set`, `args` has one value for each argument, and
/// `multi` says whether the term is multi. A site that holds nothing of the form that is used ends it as stuck. No tree that
/// `lower` gives of a term that isn't multi is stuck on well-typed arguments, by well-typed functions that tell constants apart
/// (`runs_by_functions_as_chosen` of `laws_trees`).
///
/// # Errors
///
/// Where memory is refused, by the run or by what it calls.
pub fn run<E: Externs>(
    alloc: Global,
    externs: &E,
    set: &RuleSet,
    block: &Block,
    args: &[Value],
    multi: bool,
) -> Result<Outcome, AllocError>
    ensures { IfOk result (λ o. outcome_view o ≡ run (tree_view block.now) (stage_of (E.functions externs.now) set.now.bindings.items multi args.now)) }
{
    let stage = Stage {
        alloc,
        externs,
        sites: &set.bindings,
        args,
        multi,
    };
    let mut env = Vec::new(alloc);
    let mut trace = Trace {
        calls: Vec::new(alloc),
        results: Vec::new(alloc),
    };
    let ending = run_block(block, &stage, &mut env, &mut trace)?;
    Ok(Outcome { trace, ending })
}
