//! A call that shows an expression to a visitor, under its own clauses.

ghost use Rattle.std.specs.Prelude.{IsTrue};
ghost use Rattle.model.specs.lists.Visitable.{is_visitable_expr};
ghost use Rattle.model.specs.visits.ExprRuns.{ExprRun};
ghost use Rattle.model.specs.visits.Runs.{bound_vars};
ghost use Rattle.core_typed.specs.ExprViews.{expr_view};
ghost use Rattle.core_typed.specs.VisitorSteps.{expr_steps, no_memory};

use core_typed::{BoundIds, Expr, ExprVisitor, UsedTerms, VisitFault};
use std::alloc::Global;

/// `Expr::visit`.
///
/// # Errors
///
/// As it has them.
pub fn shown<V: ExprVisitor, E: UsedTerms>(
    expr: &Expr,
    alloc: Global,
    visitor: &mut V,
    termenv: &E,
    vars: &BoundIds<V::ExprId>,
) -> Result<V::ExprId, VisitFault>
    requires visitable { IsTrue (is_visitable_expr (E.term_entries termenv.now) (expr_view expr.now) (bound_vars vars.now)) }
    ensures run { ExprRun no_memory (expr_steps V.ExprVisitor) (E.term_entries termenv.now)
        (expr_view expr.now) vars.now visitor.old result visitor.new }
{
    expr.visit(alloc, visitor, termenv, vars)
}
