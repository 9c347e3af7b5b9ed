//! The visit of a rule by any visitor.

ghost use Rattle.std.specs.Prelude.{◌≡◌, [], IsTrue, MatchResult, length, map};
ghost use Rattle.model.specs.lists.Setting.{expr_type};
ghost use Rattle.model.specs.visits.ExprRuns.{ExprRun};
ghost use Rattle.core_typed.specs.ExprViews.{expr_view};
ghost use Rattle.model.specs.visits.PatternRuns.{PatternRun};
ghost use Rattle.core_typed.specs.PatternViews.{pattern_view, pattern_views};
ghost use Rattle.model.specs.visits.RuleRuns.{lent_binding, lent_valuing, PatternCall, ExchangeRun, ExprCall, ValueRun, ArgsRun, IfLetsRun, RuleRun};
ghost use Rattle.core_typed.specs.RuleViews.{iflet_view, rule_view};
ghost use Rattle.model.specs.lists.Visitable.{is_visitable_pattern, is_visitable_expr, are_visitable_list, are_visitable_iflets, is_visitable_rule};
ghost use Rattle.core_typed.specs.VisitAnswers.{type_numbers};
ghost use Rattle.model.specs.visits.Runs.{bound_vars};
ghost use Rattle.core_typed.specs.VisitorSteps.{expr_steps, no_memory, pattern_steps, rule_steps, visited_of};

use crate::bound_ids::BoundIds;
use crate::exprs::Expr;
use crate::patterns::Pattern;
use crate::rules::{IfLet, Rule};
use crate::used_terms::UsedTerms;
use crate::visitors::{ExprVisitor, PatternVisitor, RuleVisitor, VisitedExpr};
use core_syntax::visit_fault::VisitFault;
use core_types::TypeId;
use std::alloc::Global;

// What a rule's variables are to its patterns, and to one of its expressions.
type Inputs<V> = BoundIds<<<V as RuleVisitor>::PatternVisitor as PatternVisitor>::PatternId>;

type Values<V> = BoundIds<<<V as RuleVisitor>::ExprVisitor as ExprVisitor>::ExprId>;

// A pattern of the rule, with its input: the variables that are bound then.
fn show_pattern<V: RuleVisitor, E: UsedTerms>(
    alloc: Global,
    visitor: &mut V,
    pattern: &Pattern,
    input: <V::PatternVisitor as PatternVisitor>::PatternId,
    termenv: &E,
    vars: Inputs<V>,
) -> Result<Inputs<V>, VisitFault>
    requires { IsTrue (is_visitable_pattern (E.term_entries termenv.now) (pattern_view pattern.now) (bound_vars vars)) }
    ensures { PatternCall no_memory (rule_steps V.RuleVisitor) (pattern_steps V.PatternVisitor.PatternVisitor) (expr_steps V.ExprVisitor.ExprVisitor)
        (E.term_entries termenv.now) (pattern_view pattern.now) input vars visitor.old result visitor.new }
{
    visitor.add_pattern(
        move |inner: &mut V::PatternVisitor| -> Result<Inputs<V>, VisitFault>
            requires { IsTrue (is_visitable_pattern (E.term_entries termenv.now) (pattern_view pattern.now) (bound_vars vars)) }
            ensures { lent_binding (PatternRun no_memory (pattern_steps V.PatternVisitor.PatternVisitor) (E.term_entries termenv.entry.now)
                (pattern_view pattern.entry.now) input) vars inner.old result inner.new }
        {
            let mut vars = vars;
            pattern.visit(alloc, inner, input, termenv, &mut vars)?;
            Ok(vars)
        },
    )
}

// What each variable is to an expression.
fn exchange<V: RuleVisitor>(
    alloc: Global,
    visitor: &mut V,
    vars: &Inputs<V>,
) -> Result<Values<V>, VisitFault>
    ensures { ExchangeRun no_memory (rule_steps V.RuleVisitor) vars.now visitor.old result visitor.new }
{
    let mut values = BoundIds::new(alloc);
    for entry in vars.entries() {
        let value = visitor.pattern_as_expr(entry.1)?;
        values.bind(entry.0, value)?;
    }
    Ok(values)
}

// An expression of the rule, under its variables.
fn show_expr<V: RuleVisitor, E: UsedTerms>(
    alloc: Global,
    visitor: &mut V,
    expr: &Expr,
    termenv: &E,
    values: &Values<V>,
) -> Result<V::Expr, VisitFault>
    requires { IsTrue (is_visitable_expr (E.term_entries termenv.now) (expr_view expr.now) (bound_vars values.now)) }
    ensures { ExprCall no_memory (rule_steps V.RuleVisitor) (pattern_steps V.PatternVisitor.PatternVisitor) (expr_steps V.ExprVisitor.ExprVisitor)
        (E.term_entries termenv.now) (expr_view expr.now) values.now visitor.old result visitor.new }
{
    visitor.add_expr(
        |inner: &mut V::ExprVisitor| -> Result<
            VisitedExpr<<V::ExprVisitor as ExprVisitor>::ExprId>,
            VisitFault,
        >
            requires { IsTrue (is_visitable_expr (E.term_entries termenv.now) (expr_view expr.now) (bound_vars values.now)) }
            ensures { lent_valuing (ExprRun no_memory (expr_steps V.ExprVisitor.ExprVisitor) (E.term_entries termenv.entry.now) (expr_view expr.entry.now)
                values.entry.now) (expr_type (expr_view expr.entry.now)) inner.old (visited_of result) inner.new }
        {
            let value = expr.visit(alloc, inner, termenv, values)?;
            Ok(VisitedExpr {
                ty: expr.ty(),
                value,
            })
        },
    )
}

// An expression of the rule, with the variables as they are bound for patterns.
fn visit_value<V: RuleVisitor, E: UsedTerms>(
    alloc: Global,
    visitor: &mut V,
    expr: &Expr,
    termenv: &E,
    vars: &Inputs<V>,
) -> Result<V::Expr, VisitFault>
    requires { IsTrue (is_visitable_expr (E.term_entries termenv.now) (expr_view expr.now) (bound_vars vars.now)) }
    ensures { ValueRun no_memory (rule_steps V.RuleVisitor) (pattern_steps V.PatternVisitor.PatternVisitor) (expr_steps V.ExprVisitor.ExprVisitor)
        (E.term_entries termenv.now) (expr_view expr.now) vars.now visitor.old result visitor.new }
{
    let values = exchange(alloc, visitor, vars)?;
    show_expr(alloc, visitor, expr, termenv, &values)
}

// The rule's arguments: the variables that they bind.
fn visit_args<V: RuleVisitor, E: UsedTerms>(
    alloc: Global,
    visitor: &mut V,
    args: &[Pattern],
    tys: &[TypeId],
    termenv: &E,
) -> Result<Inputs<V>, VisitFault>
    requires visitable { IsTrue (are_visitable_list (E.term_entries termenv.now) (pattern_views args.now) []) }
    requires count { length tys.now ≡ length args.now }
    ensures { ArgsRun no_memory (rule_steps V.RuleVisitor) (pattern_steps V.PatternVisitor.PatternVisitor) (expr_steps V.ExprVisitor.ExprVisitor)
        (E.term_entries termenv.now) (pattern_views args.now) (type_numbers tys.now) 0 [] visitor.old result visitor.new }
{
    let mut vars = BoundIds::new(alloc);
    for (i, arg) in args.iter().enumerate() {
        let input = visitor.add_arg(i, tys[i])?;
        vars = show_pattern(alloc, visitor, arg, input, termenv, vars)?;
    }
    Ok(vars)
}

// The rule's if-lets: the variables that are bound after them.
fn visit_iflets<V: RuleVisitor, E: UsedTerms>(
    alloc: Global,
    visitor: &mut V,
    iflets: &[IfLet],
    termenv: &E,
    vars: Inputs<V>,
) -> Result<Inputs<V>, VisitFault>
    requires { IsTrue (are_visitable_iflets (E.term_entries termenv.now) (map iflet_view iflets.now) (bound_vars vars)) }
    ensures { IfLetsRun no_memory (rule_steps V.RuleVisitor) (pattern_steps V.PatternVisitor.PatternVisitor) (expr_steps V.ExprVisitor.ExprVisitor)
        (E.term_entries termenv.now) (map iflet_view iflets.now) vars visitor.old result visitor.new }
{
    let mut bound = vars;
    for iflet in iflets {
        let value = visit_value(alloc, visitor, &iflet.rhs, termenv, &bound)?;
        let input = visitor.expr_as_pattern(value)?;
        bound = show_pattern(alloc, visitor, &iflet.lhs, input, termenv, bound)?;
    }
    Ok(bound)
}

impl Rule {
    /// Shows the rule to a visitor: each argument, its number and type, then its pattern; each if-let, its
    /// expression, then that as the input of its pattern; the right side, whose answer is the visit's. Before
    /// each expression all variables bound so far are handed to `pattern_as_expr`, ascending by their ids.
    ///
    /// `termenv` is the environment of the rule: each term that a pattern uses has an extractor, each that
    /// an expression uses a constructor, or is a variant or a struct, and as many parts as arguments; the
    /// rule has as many argument patterns as its term has arguments; a variable is bound before it is used,
    /// and not bound twice in patterns. A rule that hangs together has all that.
    ///
    /// A fault is the one that a call of the visitor answered, and that call was the last, or `Memory` where
    /// memory is refused. Then the visitor was shown a beginning.
    pub fn visit<V: RuleVisitor, E: UsedTerms>(
        &self,
        alloc: Global,
        visitor: &mut V,
        termenv: &E,
    ) -> Result<V::Expr, VisitFault>
        requires visitable { IsTrue (is_visitable_rule (E.term_entries termenv.now) (rule_view self.now)) }
        ensures run { RuleRun no_memory (rule_steps V.RuleVisitor) (pattern_steps V.PatternVisitor.PatternVisitor)
            (expr_steps V.ExprVisitor.ExprVisitor) (E.term_entries termenv.now) (rule_view self.now) visitor.old result visitor.new }
    {
        let tys = termenv.used_term(self.root_term).arg_tys.as_slice();
        let vars = visit_args(alloc, visitor, &self.args, tys, termenv)?;
        let bound = visit_iflets(alloc, visitor, &self.iflets, termenv, vars)?;
        visit_value(alloc, visitor, &self.rhs, termenv, &bound)
    }
}
