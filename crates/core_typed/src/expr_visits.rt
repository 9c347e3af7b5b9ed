//! The visit of an expression by any visitor.

ghost use Rattle.std.specs.Prelude.{◌≡◌, IfOk, IsTrue, length, slice_get, vec_len};
ghost use Rattle.model.specs.visits.ExprRuns.{ExprRun, InputsRun, LetsRun, Makes};
ghost use Rattle.core_typed.specs.ExprViews.{expr_view, expr_views, expr_parts, let_views, let_parts};
ghost use Rattle.model.specs.lists.Visitable.{is_visitable_expr, are_visitable_args, are_visitable_lets, is_made_of};
ghost use Rattle.core_typed.specs.VisitAnswers.{inputs_of, type_numbers, typed_inputs};
ghost use Rattle.model.specs.visits.Runs.{answering, bound_vars};
ghost use Rattle.core_typed.specs.VisitorSteps.{expr_steps, no_memory};

use crate::bound_ids::BoundIds;
use crate::exprs::Expr;
use crate::used_terms::UsedTerms;
use crate::visitors::ExprVisitor;
use core_syntax::visit_fault::VisitFault;
use core_terms::TermKind;
use core_types::{TermId, TypeId, VarId};
use std::alloc::Global;

// The call for a term, with its arguments.
fn make<V: ExprVisitor, E: UsedTerms>(
    visitor: &mut V,
    termenv: &E,
    ty: TypeId,
    term: TermId,
    inputs: Vec<(V::ExprId, TypeId)>,
) -> Result<V::ExprId, VisitFault>
    requires { IsTrue (is_made_of (E.term_entries termenv.now) term.0 (length inputs.items)) }
    ensures { Makes (expr_steps V.ExprVisitor) ty.0 term.0 (typed_inputs inputs.items)
        (slice_get (E.term_entries termenv.now) term.0) visitor.old result visitor.new }
{
    match &termenv.used_term(term).kind {
        TermKind::EnumVariant { variant } => visitor.add_create_variant(inputs, ty, *variant),
        TermKind::Struct => visitor.add_create_struct(inputs, ty),
        TermKind::Decl {
            flags,
            constructor_kind: Some(_),
            ..
        } => {
            let infallible = !flags.partial;
            visitor.add_construct(
                inputs,
                ty,
                term,
                flags.pure,
                infallible,
                flags.multi,
                flags.rec,
            )
        }
        TermKind::Decl {
            constructor_kind: None,
            ..
        } => unreachable!(),
    }
}

impl Expr {
    /// Shows the expression to a visitor: parts before wholes, arguments left to right, a let's definitions
    /// in order before its body. Answers the expression's id. A variable's is the one that it is bound to.
    ///
    /// `termenv` is the environment of the expression's terms: each has a constructor, or is a variant or a
    /// struct, and as many parts as arguments. `vars` has the ids of the variables bound so far: each that
    /// the expression uses and doesn't bind before.
    ///
    /// A fault is the one that a call of the visitor answered, and that call was the last, or `Memory` where
    /// memory is refused. Then the visitor was shown a beginning.
    #[cycle(visit_expr)]
    pub fn visit<V: ExprVisitor, E: UsedTerms>(
        &self,
        alloc: Global,
        visitor: &mut V,
        termenv: &E,
        vars: &BoundIds<V::ExprId>,
    ) -> Result<V::ExprId, VisitFault>
        requires visitable { IsTrue (is_visitable_expr (E.term_entries termenv.now) (expr_view self.now) (bound_vars vars.now)) }
        ensures run { ExprRun no_memory (expr_steps V.ExprVisitor) (E.term_entries termenv.now)
            (expr_view self.now) vars.now visitor.old result visitor.new }
    {
        match self {
            Expr::Term(ty, term, args) => {
                let tys = termenv.used_term(*term).arg_tys.as_slice();
                let inputs = visit_inputs(alloc, visitor, args, tys, termenv, vars)?;
                make(visitor, termenv, *ty, *term, inputs)
            }
            Expr::Var(_, var) => Ok(vars.id_of(*var)),
            Expr::ConstBool(ty, val) => visitor.add_const_bool(*ty, *val),
            Expr::ConstInt(ty, val) => visitor.add_const_int(*ty, *val),
            Expr::ConstPrim(ty, val) => visitor.add_const_prim(*ty, *val),
            Expr::Let { bindings, body, .. } => {
                let mut inner = vars.copy(alloc)?;
                visit_lets(alloc, visitor, bindings, termenv, &mut inner)?;
                body.visit(alloc, visitor, termenv, &inner)
            }
        }
    }
}

// The visits of a term's arguments: their ids, each with its type.
#[cycle(visit_expr)]
fn visit_inputs<V: ExprVisitor, E: UsedTerms>(
    alloc: Global,
    visitor: &mut V,
    args: &[Expr],
    tys: &[TypeId],
    termenv: &E,
    vars: &BoundIds<V::ExprId>,
) -> Result<Vec<(V::ExprId, TypeId)>, VisitFault>
    requires visitable { IsTrue (are_visitable_args (E.term_entries termenv.now) (expr_parts (expr_views args.now)) (bound_vars vars.now)) }
    requires count { length tys.now ≡ length args.now }
    ensures run { InputsRun no_memory (expr_steps V.ExprVisitor) (E.term_entries termenv.now) (expr_parts (expr_views args.now))
        (type_numbers tys.now) vars.now visitor.old (inputs_of result) visitor.new }
    ensures count { IfOk result (λ inputs. vec_len inputs ≡ length args.now) }
{
    let mut inputs = Vec::new(alloc);
    for (i, arg) in args.iter().enumerate() {
        let value = arg.visit(alloc, visitor, termenv, vars)?;
        inputs.push((value, tys[i]))?;
    }
    Ok(inputs)
}

// The visits of a let's definitions, in order, each bound in `vars` after it.
#[cycle(visit_expr)]
fn visit_lets<V: ExprVisitor, E: UsedTerms>(
    alloc: Global,
    visitor: &mut V,
    bindings: &[(VarId, TypeId, Box<Expr>)],
    termenv: &E,
    vars: &mut BoundIds<V::ExprId>,
) -> Result<(), VisitFault>
    requires { IsTrue (are_visitable_lets (E.term_entries termenv.now) (let_parts (let_views bindings.now)) (bound_vars vars.old)) }
    ensures { LetsRun no_memory (expr_steps V.ExprVisitor) (E.term_entries termenv.now) (let_parts (let_views bindings.now))
        vars.old visitor.old (answering vars.new result) visitor.new }
{
    for binding in bindings {
        let value = binding.2.visit(alloc, visitor, termenv, vars)?;
        vars.bind(binding.0, value)?;
    }
    Ok(())
}
