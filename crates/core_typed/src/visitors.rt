//! What a tool implements to walk typed rules: a visitor answers an id for each part that it is shown, and is
//! handed these ids back with the parts that stand on them. Beside each function stands a relation of the
//! visitor's own, which says what a call may answer and do; `visit` of a pattern, an expression and a rule is
//! proved to be a run through the written calls by these relations, whatever they are.

ghost use Rattle.std.specs.Prelude.{◌≡◌, ℕ, ℤ, List, Bool, Result, IfOk, length, vec_len};
ghost use Rattle.std.specs.Fn.{FnOnceReturnsAtMut};
ghost use Rattle.core_typed.specs.VisitAnswers.{listed, type_numbers, typed_inputs};
ghost use Rattle.model.specs.visits.Runs.{lent_run, taking};
ghost use Rattle.core_syntax.specs.declared.visit_fault.VisitFault.{VisitFault};

use core_syntax::visit_fault::VisitFault;
use core_types::{Sym, TermId, TypeId, VariantId};

/// Is shown a pattern. Its relations name types, terms, variants and names by their numbers; each speaks of
/// the state before, the arguments, the answer and the state after.
pub trait PatternVisitor {
    /// What the visitor knows the parts of a value by.
    type PatternId: Copy;

    ghost match_equal_steps: { Self → Self.PatternId → Self.PatternId → ℕ → Result (Unit {0}) VisitFault → Self → Type 0 };

    ghost match_bool_steps: { Self → Self.PatternId → ℕ → Bool → Result (Unit {0}) VisitFault → Self → Type 0 };

    ghost match_int_steps: { Self → Self.PatternId → ℕ → ℤ → Result (Unit {0}) VisitFault → Self → Type 0 };

    ghost match_prim_steps: { Self → Self.PatternId → ℕ → ℕ → Result (Unit {0}) VisitFault → Self → Type 0 };

    ghost match_variant_steps: { Self → Self.PatternId → ℕ → List ℕ → ℕ → Result (List Self.PatternId) VisitFault → Self → Type 0 };

    ghost extract_struct_steps: { Self → Self.PatternId → ℕ → List ℕ → Result (List Self.PatternId) VisitFault → Self → Type 0 };

    ghost extract_steps: { Self → Self.PatternId → ℕ → List ℕ → ℕ → Bool → Bool → Result (List Self.PatternId) VisitFault → Self → Type 0 };

    /// `a` and `b`, of type `ty`, must be equal. A fault ends the visit.
    fn add_match_equal(
        &mut self,
        a: Self::PatternId,
        b: Self::PatternId,
        ty: TypeId,
    ) -> Result<(), VisitFault>
        ensures { match_equal_steps self.old a b ty.0 result self.new };

    /// `input` must be the truth value `bool_val`. A fault ends the visit.
    fn add_match_bool(
        &mut self,
        input: Self::PatternId,
        ty: TypeId,
        bool_val: bool,
    ) -> Result<(), VisitFault>
        ensures { match_bool_steps self.old input ty.0 bool_val result self.new };

    /// `input` must be the integer `int_val`. A fault ends the visit.
    fn add_match_int(
        &mut self,
        input: Self::PatternId,
        ty: TypeId,
        int_val: i128,
    ) -> Result<(), VisitFault>
        ensures { match_int_steps self.old input ty.0 int_val result self.new };

    /// `input` must be the constant that is named `val`. A fault ends the visit.
    fn add_match_prim(
        &mut self,
        input: Self::PatternId,
        ty: TypeId,
        val: Sym,
    ) -> Result<(), VisitFault>
        ensures { match_prim_steps self.old input ty.0 val.0 result self.new };

    /// `input`, of the enum `input_ty`, must be the variant `variant`. Answers the ids of its fields, in order,
    /// as many as `arg_tys`, which are their types. A fault ends the visit.
    fn add_match_variant(
        &mut self,
        input: Self::PatternId,
        input_ty: TypeId,
        arg_tys: &[TypeId],
        variant: VariantId,
    ) -> Result<Vec<Self::PatternId>, VisitFault>
        ensures steps { match_variant_steps self.old input input_ty.0 (type_numbers arg_tys.now) variant.0 (listed result) self.new }
        ensures count { IfOk result (λ ids. vec_len ids ≡ length arg_tys.now) };

    /// `input`, of the struct `input_ty`, is taken apart. Answers the ids of its fields, in order, as many as
    /// `arg_tys`, which are their types. A fault ends the visit.
    fn add_extract_struct(
        &mut self,
        input: Self::PatternId,
        input_ty: TypeId,
        arg_tys: &[TypeId],
    ) -> Result<Vec<Self::PatternId>, VisitFault>
        ensures steps { extract_struct_steps self.old input input_ty.0 (type_numbers arg_tys.now) (listed result) self.new }
        ensures count { IfOk result (λ ids. vec_len ids ≡ length arg_tys.now) };

    /// The extractor `term` must answer for `input`, a value of `input_ty`. Answers the ids of its outputs, in
    /// order, as many as `output_tys`, which are their types. `infallible` says that the extractor always
    /// answers, `multi` that it may answer many times. A fault ends the visit.
    fn add_extract(
        &mut self,
        input: Self::PatternId,
        input_ty: TypeId,
        output_tys: Vec<TypeId>,
        term: TermId,
        infallible: bool,
        multi: bool,
    ) -> Result<Vec<Self::PatternId>, VisitFault>
        ensures steps { extract_steps self.old input input_ty.0 (type_numbers output_tys.items) term.0 infallible multi (listed result) self.new }
        ensures count { IfOk result (λ ids. vec_len ids ≡ vec_len output_tys) };
}

/// Is shown an expression, parts before wholes. Its relations are as those of `PatternVisitor`.
pub trait ExprVisitor {
    /// What the visitor knows the values of expressions by.
    type ExprId: Copy;

    ghost const_bool_steps: { Self → ℕ → Bool → Result Self.ExprId VisitFault → Self → Type 0 };

    ghost const_int_steps: { Self → ℕ → ℤ → Result Self.ExprId VisitFault → Self → Type 0 };

    ghost const_prim_steps: { Self → ℕ → ℕ → Result Self.ExprId VisitFault → Self → Type 0 };

    ghost create_variant_steps: { Self → List (Self.ExprId × ℕ) → ℕ → ℕ → Result Self.ExprId VisitFault → Self → Type 0 };

    ghost create_struct_steps: { Self → List (Self.ExprId × ℕ) → ℕ → Result Self.ExprId VisitFault → Self → Type 0 };

    ghost construct_steps: { Self → List (Self.ExprId × ℕ) → ℕ → ℕ → Bool → Bool → Bool → Bool → Result Self.ExprId VisitFault → Self → Type 0 };

    /// The truth value `val` of type `ty`. Answers its id. A fault ends the visit.
    fn add_const_bool(&mut self, ty: TypeId, val: bool) -> Result<Self::ExprId, VisitFault>
        ensures { const_bool_steps self.old ty.0 val result self.new };

    /// The integer `val` of type `ty`. Answers its id. A fault ends the visit.
    fn add_const_int(&mut self, ty: TypeId, val: i128) -> Result<Self::ExprId, VisitFault>
        ensures { const_int_steps self.old ty.0 val result self.new };

    /// The constant of type `ty` that is named `val`. Answers its id. A fault ends the visit.
    fn add_const_prim(&mut self, ty: TypeId, val: Sym) -> Result<Self::ExprId, VisitFault>
        ensures { const_prim_steps self.old ty.0 val.0 result self.new };

    /// The variant `variant` of the enum `ty` is made of `inputs`, its fields in order, each with its type.
    /// Answers its id. A fault ends the visit.
    fn add_create_variant(
        &mut self,
        inputs: Vec<(Self::ExprId, TypeId)>,
        ty: TypeId,
        variant: VariantId,
    ) -> Result<Self::ExprId, VisitFault>
        ensures { create_variant_steps self.old (typed_inputs inputs.items) ty.0 variant.0 result self.new };

    /// The struct `ty` is made of `inputs`, its fields in order, each with its type. Answers its id. A fault
    /// ends the visit.
    fn add_create_struct(
        &mut self,
        inputs: Vec<(Self::ExprId, TypeId)>,
        ty: TypeId,
    ) -> Result<Self::ExprId, VisitFault>
        ensures { create_struct_steps self.old (typed_inputs inputs.items) ty.0 result self.new };

    /// The constructor `term` is called with `inputs`, its arguments in order, each with its type. `pure`,
    /// `multi` and `rec` are as the term is declared, and `infallible` says that it isn't partial. Answers the
    /// id of what the call gives, of type `ty`. A fault ends the visit.
    fn add_construct(
        &mut self,
        inputs: Vec<(Self::ExprId, TypeId)>,
        ty: TypeId,
        term: TermId,
        pure: bool,
        infallible: bool,
        multi: bool,
        rec: bool,
    ) -> Result<Self::ExprId, VisitFault>
        ensures { construct_steps self.old (typed_inputs inputs.items) ty.0 term.0 pure infallible multi rec result self.new };
}

/// An expression that was visited.
#[derive(Clone, Copy)]
pub struct VisitedExpr<E> {
    /// The expression's type.
    pub ty: TypeId,
    /// The id that its visitor gave it.
    pub value: E,
}

/// What is done with a lent visitor: every closure `FnOnce(&mut V) -> Result<T, VisitFault>`.
pub trait Body<V> {
    /// What it answers.
    type Answer;

    ghost callable: { Self → Type 0 };

    ghost runs: { Self → V → Result Self.Answer VisitFault → V → Type 0 };

    /// Does it.
    fn run(self, visitor: &mut V) -> Result<Self::Answer, VisitFault>
        requires { callable self }
        ensures { runs self visitor.old result visitor.new };
}

impl<V, T, F: FnOnce(&mut V) -> Result<T, VisitFault>> Body<V> for F {
    type Answer = T;

    ghost callable = { λ f. F.IsAlwaysCallable f };

    ghost runs = { λ f s r t. FnOnceReturnsAtMut F.FnOnce f s r t };

    fn run(self, visitor: &mut V) -> Result<T, VisitFault> {
        self(visitor)
    }
}

/// Is shown a rule, and lends a visitor for each of its patterns and expressions.
///
/// A visitor is lent by `lend_pattern_steps` or `lend_expr_steps`, or there is a fault. It is taken back with the
/// closure's answer by `take_pattern_steps` or `take_expr_steps`; after a fault of the closure the state is that of
/// `leave_pattern_steps` or `leave_expr_steps`.
pub trait RuleVisitor {
    /// What is lent for patterns.
    type PatternVisitor: PatternVisitor;

    /// What is lent for expressions.
    type ExprVisitor: ExprVisitor;

    /// What a whole expression of the rule becomes.
    type Expr;

    ghost arg_steps: { Self → ℕ → ℕ → Result Self.PatternVisitor.PatternId VisitFault → Self → Type 0 };

    ghost expr_as_pattern_steps: { Self → Self.Expr → Result Self.PatternVisitor.PatternId VisitFault → Self → Type 0 };

    ghost pattern_as_expr_steps: { Self → Self.PatternVisitor.PatternId → Result Self.ExprVisitor.ExprId VisitFault → Self → Type 0 };

    ghost lend_pattern_steps: { Self → Result Self.PatternVisitor VisitFault → Self → Type 0 };

    ghost take_pattern_steps: { Self → Self.PatternVisitor → Result (Unit {0}) VisitFault → Self → Type 0 };

    ghost leave_pattern_steps: { Self.PatternVisitor → Self → Self → Type 0 };

    ghost lend_expr_steps: { Self → Result Self.ExprVisitor VisitFault → Self → Type 0 };

    ghost take_expr_steps: { Self → Self.ExprVisitor → ℕ → Self.ExprVisitor.ExprId → Result Self.Expr VisitFault → Self → Type 0 };

    ghost leave_expr_steps: { Self.ExprVisitor → Self → Self → Type 0 };

    /// Argument `index`, from 0, of type `ty`. Answers its id. A fault ends the visit.
    fn add_arg(
        &mut self,
        index: usize,
        ty: TypeId,
    ) -> Result<<Self::PatternVisitor as PatternVisitor>::PatternId, VisitFault>
        ensures { arg_steps self.old index ty.0 result self.new };

    /// Lends a visitor for a pattern to `body`, once. Answers what `body` answers. A fault of its own or of
    /// `body` ends the visit. Whoever implements a visitor writes this one, whoever calls uses `add_pattern`.
    fn with_pattern<T: Drop, B: Body<Self::PatternVisitor, Answer = T> + Drop>(
        &mut self,
        body: B,
    ) -> Result<T, VisitFault>
        requires { B.callable body }
        ensures { lent_run lend_pattern_steps (taking take_pattern_steps) leave_pattern_steps (B.runs body) self.old result self.new };

    /// Lends a visitor for an expression to `body`, once. Answers what the expression becomes. A fault of its
    /// own or of `body` ends the visit. Whoever implements a visitor writes this one, whoever calls uses
    /// `add_expr`.
    fn with_expr<
        B: Body<Self::ExprVisitor, Answer = VisitedExpr<<Self::ExprVisitor as ExprVisitor>::ExprId>>
            + Drop,
    >(&mut self, body: B) -> Result<Self::Expr, VisitFault>
        requires { B.callable body }
        ensures { lent_run lend_expr_steps (λ l x s r t. take_expr_steps s l x.ty.0 x.value r t) leave_expr_steps (B.runs body) self.old result self.new };

    /// What an expression became, as the input of a pattern. Answers that input's id. A fault ends the visit.
    fn expr_as_pattern(
        &mut self,
        expr: Self::Expr,
    ) -> Result<<Self::PatternVisitor as PatternVisitor>::PatternId, VisitFault>
        ensures { expr_as_pattern_steps self.old expr result self.new };

    /// What a variable is bound to, as a value of expressions. Answers that value's id. A fault ends the visit.
    fn pattern_as_expr(
        &mut self,
        pattern: <Self::PatternVisitor as PatternVisitor>::PatternId,
    ) -> Result<<Self::ExprVisitor as ExprVisitor>::ExprId, VisitFault>
        ensures { pattern_as_expr_steps self.old pattern result self.new };

    /// Lends a visitor for a pattern to `visitor`, once. Answers what `visitor` answers. A fault of its own or
    /// of `visitor` ends the visit.
    final fn add_pattern<T: Drop, F>(&mut self, visitor: F) -> Result<T, VisitFault>
    where
        F: FnOnce(&mut Self::PatternVisitor) -> Result<T, VisitFault> + Drop,
        requires { F.IsAlwaysCallable visitor }
        ensures { lent_run lend_pattern_steps (taking take_pattern_steps) leave_pattern_steps (FnOnceReturnsAtMut F.FnOnce visitor) self.old result self.new }
    {
        self.with_pattern(visitor)
    }

    /// Lends a visitor for an expression to `visitor`, once. Answers what the expression becomes. A fault of its
    /// own or of `visitor` ends the visit.
    final fn add_expr<F>(&mut self, visitor: F) -> Result<Self::Expr, VisitFault>
    where
        F: FnOnce(
            &mut Self::ExprVisitor,
        ) -> Result<VisitedExpr<<Self::ExprVisitor as ExprVisitor>::ExprId>, VisitFault>
            + Drop,
        requires { F.IsAlwaysCallable visitor }
        ensures { lent_run lend_expr_steps (λ l x s r t. take_expr_steps s l x.ty.0 x.value r t) leave_expr_steps
            (FnOnceReturnsAtMut F.FnOnce visitor) self.old result self.new }
    {
        self.with_expr(visitor)
    }
}
