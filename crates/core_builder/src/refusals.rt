//! The errors of rules that are left out.
ghost use Rattle.std.specs.Prelude.{◌≡◌, ◌++◌, ◌∷◌, [], All, OnOk};
ghost use Rattle.core_syntax.specs.SyntaxViews.{position};
ghost use Rattle.model.specs.claims.Refusals.{past_limit, unreachable};
ghost use Rattle.core_syntax.specs.ErrorViews.{error_views, limit_view};
ghost use Rattle.core_syntax.specs.Positions.{HasSingleSpans};
ghost use Rattle.core_builder.specs.AddedRules.{unreachable_each};

use core_rule_sets::trie_again::Constraint;
use core_rule_sets::verdict;
use core_syntax::syntax::{Error, Limit, Pos, Span};
use core_why::{Asked, Unreachable};
use std::alloc::AllocError;

// What a constraint asks, by ids.
fn asked_by(constraint: Constraint) -> Asked {
    match constraint {
        Constraint::Variant { ty, variant, .. } => Asked::Variant {
            ty: ty.0,
            variant: variant.0,
        },
        Constraint::Struct { ty, .. } => Asked::Struct { ty: ty.0 },
        Constraint::ConstBool { val, ty } => Asked::Bool { ty: ty.0, val },
        Constraint::ConstInt { val, ty } => Asked::Int { ty: ty.0, val },
        Constraint::ConstPrim { val } => Asked::Prim { val: val.0 },
        Constraint::Some => Asked::Some,
    }
}

// What is wrong with a rule that no values can match.
fn unreachable_by(why: verdict::Unreachable) -> Unreachable {
    match why {
        verdict::Unreachable::Conflict { first, second } => Unreachable::Conflict {
            first: asked_by(first),
            second: asked_by(second),
        },
        verdict::Unreachable::Cycle => Unreachable::Cycle,
    }
}

// The rule there can never match.
pub(crate) fn report_unreachable(
    errors: &mut Vec<Error>,
    why: verdict::Unreachable,
    pos: Pos,
) -> Result<(), AllocError>
    ensures says { OnOk result (error_views errors.new.items ≡ error_views errors.old.items ++ unreachable (position pos) ∷ []) }
    ensures single { OnOk result (All HasSingleSpans errors.old.items → All HasSingleSpans errors.new.items) }
{
    let msg = unreachable_by(why);
    let span = Span::new_single(pos);
    errors.push(Error::UnreachableError { msg, span })?;
    Ok(())
}

// Likewise, once for each two constraints of one site.
pub(crate) fn report_conflicts(
    errors: &mut Vec<Error>,
    conflicts: &[(Constraint, Constraint)],
    pos: Pos,
) -> Result<(), AllocError>
    ensures says { OnOk result (error_views errors.new.items ≡ error_views errors.old.items ++ unreachable_each conflicts.now pos) }
    ensures single { OnOk result (All HasSingleSpans errors.old.items → All HasSingleSpans errors.new.items) }
{
    for (first, second) in conflicts {
        let why = verdict::Unreachable::Conflict {
            first: *first,
            second: *second,
        };
        report_unreachable(errors, why, pos)?;
    }
    Ok(())
}

// The rule there passes a limit.
pub(crate) fn report_limit(
    errors: &mut Vec<Error>,
    limit: Limit,
    pos: Pos,
) -> Result<(), AllocError>
    ensures says { OnOk result (error_views errors.new.items ≡ error_views errors.old.items ++ past_limit (limit_view limit) (position pos) ∷ []) }
    ensures single { OnOk result (All HasSingleSpans errors.old.items → All HasSingleSpans errors.new.items) }
{
    let msg = String::from_str(*errors.allocator(), limit.text())?;
    let span = Span::new_single(pos);
    errors.push(Error::LimitError { limit, msg, span })?;
    Ok(())
}
