//! Rules that never run.

ghost use Rattle.std.specs.Prelude.{◌≡◌, ◌++◌, ℕ, map, IfOk, OnOk};
ghost use Rattle.core_syntax.specs.SyntaxViews.{position};
ghost use Rattle.cranelift_isle.specs.Trees.{return_at};
ghost use Rattle.cranelift_isle.specs.TreeViews.{arms_view, check_view, tree_view};
ghost use Rattle.laws_ways.specs.DeadReturns.{dead_returns};
ghost use Rattle.report_warnings.specs.DeadReturns.{dead_among_from, dead_from, place_pair, place_pairs, told_of_dead, PassesStep};
ghost use Rattle.report_warnings.specs.Added.{told_of, AddsTold};

use crate::kinds::{Warning, begun};
use cranelift_isle::serialize::{Block, ControlFlow, MatchArm};
use cranelift_isle::syntax::{Def, Pos};
use report_names::rule_notes::{ONE_OF_ALIKE, add_first, add_help, add_rule, are_alike};
use report_print::report::Report;
use std::alloc::{AllocError, Global};

/// The returns of a block that stand behind another return of their block, or inside what stands behind one, each with the first
/// return that it stands behind. In a term that isn't multi no run comes to them.
///
/// # Errors
///
/// If memory is refused.
pub(crate) fn dead_returns(alloc: Global, block: &Block) -> Result<Vec<(Pos, Pos)>, AllocError>
    ensures { IfOk result (λ v. place_pairs v.items ≡ dead_returns (tree_view block.now)) }
{
    let mut dead = Vec::new(alloc);
    push_dead(&mut dead, block, None)?;
    Ok(dead)
}

// Adds the dead returns of a block that stands behind a return, or behind none.
#[cycle(dead)]
fn push_dead(out: &mut Vec<(Pos, Pos)>, block: &Block, first: Option<Pos>) -> Result<(), AllocError>
    ensures { OnOk result (place_pairs out.new.items ≡ place_pairs out.old.items ++ dead_from first (tree_view block.now)) }
{
    let mut first = first;
    for step in &block.steps {
        first = push_step(out, &step.check, first)?;
    }
    Ok(())
}

// Adds those of a step: the return that the next step of the block stands behind, if there is one.
#[cycle(dead)]
fn push_step(
    out: &mut Vec<(Pos, Pos)>,
    check: &ControlFlow,
    first: Option<Pos>,
) -> Result<Option<Pos>, AllocError>
    ensures { IfOk result (λ after. PassesStep first after (check_view check.now) out.old.items out.new.items) }
{
    match check {
        ControlFlow::Match { arms, .. } => {
            push_arms(out, arms, first)?;
            Ok(first)
        }
        ControlFlow::Equal { body, .. } => {
            push_dead(out, body, first)?;
            Ok(first)
        }
        ControlFlow::Loop { body, .. } => {
            push_dead(out, body, first)?;
            Ok(first)
        }
        ControlFlow::Return { pos, .. } => push_return(out, *pos, first),
    }
}

// Adds those of the arms of a match.
#[cycle(dead)]
fn push_arms(
    out: &mut Vec<(Pos, Pos)>,
    arms: &[MatchArm],
    first: Option<Pos>,
) -> Result<(), AllocError>
    ensures { OnOk result (place_pairs out.new.items ≡ place_pairs out.old.items ++ dead_among_from first (arms_view arms.now)) }
{
    for arm in arms {
        push_dead(out, &arm.body, first)?;
    }
    Ok(())
}

// Adds a return, if it stands behind one: the return that the next step of the block stands behind.
fn push_return(
    out: &mut Vec<(Pos, Pos)>,
    pos: Pos,
    first: Option<Pos>,
) -> Result<Option<Pos>, AllocError>
    ensures { IfOk result (λ after. (site : ℕ)
        → PassesStep first after (return_at (position pos) site) out.old.items out.new.items) }
{
    let Some(first) = first else {
        return Ok(Some(pos));
    };
    out.push((pos, first))?;
    Ok(Some(first))
}

/// Adds a warning for each dead return of a term's tree, in order: its rule never runs.
///
/// # Errors
///
/// If memory is refused.
pub(crate) fn add_dead(
    alloc: Global,
    reports: &mut Vec<Report>,
    defs: &[Def],
    block: &Block,
) -> Result<(), AllocError>
    ensures { OnOk result (AddsTold (map told_of_dead (dead_returns (tree_view block.now))) reports.old.items reports.new.items) }
{
    let dead = dead_returns(alloc, block)?;
    add_reports(alloc, reports, defs, &dead)
}

// Adds a warning for each of these returns, with the return that it stands behind.
fn add_reports(
    alloc: Global,
    reports: &mut Vec<Report>,
    defs: &[Def],
    dead: &[(Pos, Pos)],
) -> Result<(), AllocError>
    ensures { OnOk result (AddsTold (map told_of_dead (place_pairs dead.now)) reports.old.items reports.new.items) }
{
    for places in dead {
        reports.push(dead_report(alloc, defs, places)?)?;
    }
    Ok(())
}

// The warning of a rule that never runs, since another one returns first: their places.
fn dead_report(alloc: Global, defs: &[Def], places: &(Pos, Pos)) -> Result<Report, AllocError>
    ensures { IfOk result (λ report. told_of report ≡ told_of_dead (place_pair places.now)) }
{
    let (pos, first) = *places;
    let message = String::from_str(alloc, "a rule never runs")?;
    let mut report = begun(alloc, Warning::NeverRun, message);
    let is_alike = are_alike(alloc, defs, pos, first)?;
    let (after, help) = if is_alike {
        (" has the same pattern, and never runs", ONE_OF_ALIKE)
    } else {
        (" never runs", FIRST_RETURN)
    };
    add_rule(alloc, &mut report, defs, pos, "", after)?;
    add_rule(
        alloc,
        &mut report,
        defs,
        first,
        "",
        " matches these values too, and returns first",
    )?;
    add_help(alloc, &mut report, help)?;
    if !is_alike {
        add_first(alloc, &mut report, defs, first)?;
    }
    Ok(report)
}

// What to do about a rule that another one returns before.
const FIRST_RETURN: &str = "give the rule that never runs a greater priority, or remove it";
