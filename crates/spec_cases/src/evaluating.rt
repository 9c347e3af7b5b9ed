//! What an expression of a spec comes to.
ghost use Rattle.std.specs.Prelude.{◌≡◌, ◌<◌, ◌∷◌, ◌++◌, map, option_map, IfOk};
ghost use Rattle.model_questions.specs.Evaluated as E;
ghost use Rattle.model_questions.specs.Forms as MF;
ghost use Rattle.spec_cases.specs.CaseViews.{cases_of, form_cases, list_cases_of};
ghost use Rattle.spec_cases.specs.Combining.{whole_of};
ghost use Rattle.spec_cases.specs.Evaluating.{arm_in, case_in, each_in, evaluated_in, matched_in};
ghost use Rattle.spec_cases.specs.Expressions.{AreSaid, Evaluates};
ghost use Rattle.spec_cases.specs.Namings.{form_of, operator_view, Names};
ghost use Rattle.spec_cases.specs.Tables.{known_in, specs_in, types_in};
ghost use Rattle.spec_cases.specs.Written.{unless_passed, unless_taken};
ghost use Rattle.laws_specs.specs.Specs as L;

use crate::arena::Formulas;
use crate::cases::{Case, Cases, anything, nothing_said, one_case};
use crate::combining::{Whole, wholes};
use crate::expressions::{Expr, ExprId, expr_at};
use crate::faults::Fault;
use crate::fitting::form_at;
use crate::forms::{FieldsId, Form};
use crate::formulas::Fact;
use crate::operators::Operator;
use crate::sorts::widths_of;
use crate::tables::Tables;
use crate::typed::has_variants;
use crate::written::only_key;
use core_types::{TypeId, VariantId};
use std::alloc::Global;

/// What expressions are said of.
#[derive(Clone, Copy)]
pub struct Said<'t> {
    /// What is looked up.
    pub tables: &'t Tables<'t>,
    /// The expressions, by their numbers.
    pub exprs: &'t [Expr],
    /// The arguments.
    pub args: &'t [Form],
    /// The result, where there is one.
    pub answer: Option<Form>,
}

// One more before those that are bound.
fn bound_with(alloc: Global, form: Form, bound: &[Form]) -> Result<Vec<Form>, Fault>
    ensures { IfOk result (λ fs. (v : _) → map (form_of v) fs.items ≡ form_of v form ∷ map (form_of v) bound.now) }
{
    let mut all = Vec::new(alloc);
    all.push(form)?;
    all.extend_from_slice(bound)?;
    Ok(all)
}

// The result, if there is one.
#[tactic(auto, using(crate::proofs::AppliedSteps::case_steps))]
fn answer_said(alloc: Global, answer: Option<Form>) -> Result<Cases<Form>, Fault>
    ensures { IfOk result (λ cs. (v : _) → cases_of v cs ≡ MF.or_nothing (option_map (form_of v) answer)) }
{
    match answer {
        None => Ok(nothing_said(alloc)),
        Some(form) => Ok(one_case(alloc, form)?),
    }
}

// Whether an arm takes what no arm before it took.
#[tactic(auto, using(crate::proofs::EvaluatingSteps::others_steps))]
fn takes_others(exprs: &[Expr], arms: ExprId) -> Result<bool, Fault>
    ensures { IfOk result (λ t. (w : _) → AreSaid w exprs.now → t ≡ E.takes_others (w.arms arms.0)) }
{
    match expr_at(exprs, arms)? {
        Expr::NoArm | Expr::StructArm { .. } => Ok(false),
        Expr::ElseArm { .. } => Ok(true),
        Expr::VariantArm { rest, .. } => Ok(takes_others(exprs, rest)?),
        Expr::Argument(_)
        | Expr::Result
        | Expr::Variable(_)
        | Expr::Written(_)
        | Expr::Operation(_, _)
        | Expr::Unknown(_, _)
        | Expr::VariantSaid(_, _, _)
        | Expr::StructSaid(_, _)
        | Expr::LetIn(_, _)
        | Expr::SwitchOn(_, _)
        | Expr::MatchOn(_, _)
        | Expr::NoExpr
        | Expr::ExprAnd(_, _)
        | Expr::NoCase
        | Expr::CaseAnd(_, _, _) => Err(Fault::Foreign),
    }
}

impl Formulas {
    // What arms look at, opened: of an atom of an enum they say nothing, unless one takes what is no variant.
    fn opened_by(
        &mut self,
        said: &Said<'_>,
        arms: ExprId,
        value: Form,
    ) -> Result<Cases<Form>, Fault>
        ensures { IfOk result (λ cs. Evaluates self.old self.new said.now.exprs.now (λ v w. cases_of v cs ≡ E.matched (types_in said.now.tables.now) (specs_in said.now.tables.now) (known_in v said.now.tables.now) (w.arms arms.0) (form_of v value))) }
    {
        let opened = self.opened(said.tables, value)?;
        let others = takes_others(said.exprs, arms)?;
        if has_variants(said.tables.types, value) && !others {
            Ok(Cases {
                cases: opened.cases,
                rest: Fact::Known(false),
            })
        } else {
            Ok(opened)
        }
    }

    // The fields of a value before those that are bound.
    #[tactic(auto, using(crate::proofs::EvaluatingSteps::bound_steps))]
    fn bound_fields(&self, fields: FieldsId, bound: &[Form]) -> Result<Vec<Form>, Fault>
        ensures { IfOk result (λ fs. (v : _) → Names v self.now → map (form_of v) fs.items ≡ MF.form_list (v.fields fields.0) ++ map (form_of v) bound.now) }
    {
        let mut all = self.list_of(fields)?;
        all.extend_from_slice(bound)?;
        Ok(all)
    }

    /// What an expression comes to, by its number.
    ///
    /// # Errors
    ///
    /// `Foreign` where a number is no expression's or isn't made of smaller ones, `TooGreat` where a width or a number is too great, else
    /// as `made_fact`.
    #[cycle(evaluating)]
    #[tactic(auto, using(crate::proofs::EvaluatingSteps::said_steps))]
    pub fn evaluated(
        &mut self,
        said: &Said<'_>,
        expr: ExprId,
        bound: &[Form],
    ) -> Result<Cases<Form>, Fault>
        ensures { IfOk result (λ cs. Evaluates self.old self.new said.now.exprs.now (λ v w. cases_of v cs ≡ evaluated_in v said.now (w.expr expr.0) (map (form_of v) bound.now))) }
    {
        match expr_at(said.exprs, expr)? {
            Expr::Argument(index) => Ok(form_at(self.alloc(), said.args, index)?),
            Expr::Result => Ok(answer_said(self.alloc(), said.answer)?),
            Expr::Variable(index) => Ok(form_at(self.alloc(), bound, index)?),
            Expr::Written(value) => Ok(one_case(self.alloc(), value.form())?),
            Expr::Operation(operator, of) => {
                Ok(self.operation(said, expr, operator, of, bound)?)
            }
            Expr::Unknown(function, of) => Ok(self.unknown(said, expr, function, of, bound)?),
            Expr::VariantSaid(ty, variant, of) => {
                Ok(self.made(said, expr, Whole::Variant(ty, variant), of, bound)?)
            }
            Expr::StructSaid(ty, of) => Ok(self.made(said, expr, Whole::Struct(ty), of, bound)?),
            Expr::LetIn(first, body) => Ok(self.let_in(said, expr, first, body, bound)?),
            Expr::SwitchOn(first, cases) => Ok(self.switch_on(said, expr, first, cases, bound)?),
            Expr::MatchOn(first, arms) => Ok(self.match_on(said, expr, first, arms, bound)?),
            Expr::NoExpr
            | Expr::ExprAnd(_, _)
            | Expr::NoCase
            | Expr::CaseAnd(_, _, _)
            | Expr::NoArm
            | Expr::VariantArm { .. }
            | Expr::StructArm { .. }
            | Expr::ElseArm { .. } => Err(Fault::Foreign),
        }
    }

    // An operator on expressions.
    #[cycle(evaluating)]
    fn operation(
        &mut self,
        said: &Said<'_>,
        limit: ExprId,
        operator: Operator,
        of: ExprId,
        bound: &[Form],
    ) -> Result<Cases<Form>, Fault>
        requires { of.0 < limit.0 }
        ensures { IfOk result (λ cs. Evaluates self.old self.new said.now.exprs.now (λ v w. cases_of v cs ≡ evaluated_in v said.now (L.operation (operator_view operator) (w.exprs of.0)) (map (form_of v) bound.now))) }
    {
        let lists = self.evaluated_each(said, of, bound)?;
        let widths = widths_of(self.alloc(), said.tables.sorts)?;
        Ok(self.operated_all(said.tables, &widths, operator, &lists)?)
    }

    // An unknown function on expressions.
    #[cycle(evaluating)]
    fn unknown(
        &mut self,
        said: &Said<'_>,
        limit: ExprId,
        function: u32,
        of: ExprId,
        bound: &[Form],
    ) -> Result<Cases<Form>, Fault>
        requires { of.0 < limit.0 }
        ensures { IfOk result (λ cs. Evaluates self.old self.new said.now.exprs.now (λ v w. cases_of v cs ≡ evaluated_in v said.now (L.unknown function (w.exprs of.0)) (map (form_of v) bound.now))) }
    {
        let lists = self.evaluated_each(said, of, bound)?;
        Ok(self.asked_all(said.tables, function, &lists)?)
    }

    // A variant or a struct, made of its fields.
    #[cycle(evaluating)]
    fn made(
        &mut self,
        said: &Said<'_>,
        limit: ExprId,
        whole: Whole,
        of: ExprId,
        bound: &[Form],
    ) -> Result<Cases<Form>, Fault>
        requires { of.0 < limit.0 }
        ensures { IfOk result (λ cs. Evaluates self.old self.new said.now.exprs.now (λ v w. cases_of v cs ≡ MF.then_cases (each_in v said.now (w.exprs of.0) (map (form_of v) bound.now)) (λ fs. MF.one_case (whole_of whole fs)))) }
    {
        let lists = self.evaluated_each(said, of, bound)?;
        Ok(wholes(self.alloc(), whole, &lists)?)
    }

    // An expression that is bound in another.
    #[cycle(evaluating)]
    fn let_in(
        &mut self,
        said: &Said<'_>,
        limit: ExprId,
        first: ExprId,
        body: ExprId,
        bound: &[Form],
    ) -> Result<Cases<Form>, Fault>
        requires first { first.0 < limit.0 }
        requires body { body.0 < limit.0 }
        ensures { IfOk result (λ cs. Evaluates self.old self.new said.now.exprs.now (λ v w. cases_of v cs ≡ evaluated_in v said.now (L.let_in (w.expr first.0) (w.expr body.0)) (map (form_of v) bound.now))) }
    {
        let values = self.evaluated(said, first, bound)?;
        let each = self.let_each(said, &values.cases, body, bound)?;
        Ok(self.with_rest(values.rest, each)?)
    }

    // What comes of each value that is bound.
    #[cycle(evaluating)]
    #[tactic(auto, using(crate::proofs::AppliedSteps::case_steps))]
    fn let_each(
        &mut self,
        said: &Said<'_>,
        cases: &[Case<Form>],
        body: ExprId,
        bound: &[Form],
    ) -> Result<Cases<Form>, Fault>
        ensures { IfOk result (λ cs. Evaluates self.old self.new said.now.exprs.now (λ v w. cases_of v cs ≡ MF.from_each (form_cases v cases.now) (λ x. evaluated_in v said.now (w.expr body.0) (x ∷ map (form_of v) bound.now)))) }
    {
        match cases {
            [] => Ok(nothing_said(self.alloc())),
            [case, rest @ ..] => {
                let inner = bound_with(self.alloc(), case.gives, bound)?;
                let here = self.evaluated(said, body, &inner)?;
                let later = self.let_each(said, rest, body, bound)?;
                Ok(self.from_first(case.guard, &here, &later)?)
            }
        }
    }

    // The first case of an equal value.
    #[cycle(evaluating)]
    fn switch_on(
        &mut self,
        said: &Said<'_>,
        limit: ExprId,
        first: ExprId,
        cases: ExprId,
        bound: &[Form],
    ) -> Result<Cases<Form>, Fault>
        requires first { first.0 < limit.0 }
        requires cases { cases.0 < limit.0 }
        ensures { IfOk result (λ cs. Evaluates self.old self.new said.now.exprs.now (λ v w. cases_of v cs ≡ evaluated_in v said.now (L.switch_on (w.expr first.0) (w.cases cases.0)) (map (form_of v) bound.now))) }
    {
        let values = self.evaluated(said, first, bound)?;
        let each = self.switch_each(said, &values.cases, cases, bound)?;
        Ok(self.with_rest(values.rest, each)?)
    }

    // What comes of each value.
    #[cycle(evaluating)]
    #[tactic(auto, using(crate::proofs::AppliedSteps::case_steps))]
    fn switch_each(
        &mut self,
        said: &Said<'_>,
        values: &[Case<Form>],
        cases: ExprId,
        bound: &[Form],
    ) -> Result<Cases<Form>, Fault>
        ensures { IfOk result (λ cs. Evaluates self.old self.new said.now.exprs.now (λ v w. cases_of v cs ≡ MF.from_each (form_cases v values.now) (λ x. case_in v said.now (w.cases cases.0) x (map (form_of v) bound.now)))) }
    {
        match values {
            [] => Ok(nothing_said(self.alloc())),
            [value, rest @ ..] => {
                let here = self.evaluated_case(said, cases, value.gives, bound)?;
                let later = self.switch_each(said, rest, cases, bound)?;
                Ok(self.from_first(value.guard, &here, &later)?)
            }
        }
    }

    // The arm of each value.
    #[cycle(evaluating)]
    fn match_on(
        &mut self,
        said: &Said<'_>,
        limit: ExprId,
        first: ExprId,
        arms: ExprId,
        bound: &[Form],
    ) -> Result<Cases<Form>, Fault>
        requires first { first.0 < limit.0 }
        requires arms { arms.0 < limit.0 }
        ensures { IfOk result (λ cs. Evaluates self.old self.new said.now.exprs.now (λ v w. cases_of v cs ≡ evaluated_in v said.now (L.match_on (w.expr first.0) (w.arms arms.0)) (map (form_of v) bound.now))) }
    {
        let values = self.evaluated(said, first, bound)?;
        let each = self.match_each(said, &values.cases, arms, bound)?;
        Ok(self.with_rest(values.rest, each)?)
    }

    // What comes of each value, which is opened.
    #[cycle(evaluating)]
    #[tactic(auto, using(crate::proofs::AppliedSteps::case_steps))]
    fn match_each(
        &mut self,
        said: &Said<'_>,
        values: &[Case<Form>],
        arms: ExprId,
        bound: &[Form],
    ) -> Result<Cases<Form>, Fault>
        ensures { IfOk result (λ cs. Evaluates self.old self.new said.now.exprs.now (λ v w. cases_of v cs ≡ MF.from_each (form_cases v values.now) (λ x. matched_in v said.now (w.arms arms.0) x (map (form_of v) bound.now)))) }
    {
        match values {
            [] => Ok(nothing_said(self.alloc())),
            [value, rest @ ..] => {
                let here = self.matched(said, arms, value.gives, bound)?;
                let later = self.match_each(said, rest, arms, bound)?;
                Ok(self.from_first(value.guard, &here, &later)?)
            }
        }
    }

    // The arm of a value, which is opened.
    #[cycle(evaluating)]
    fn matched(
        &mut self,
        said: &Said<'_>,
        arms: ExprId,
        value: Form,
        bound: &[Form],
    ) -> Result<Cases<Form>, Fault>
        ensures { IfOk result (λ cs. Evaluates self.old self.new said.now.exprs.now (λ v w. cases_of v cs ≡ matched_in v said.now (w.arms arms.0) (form_of v value) (map (form_of v) bound.now))) }
    {
        let opened = self.opened_by(said, arms, value)?;
        let each = self.arm_each(said, &opened.cases, arms, bound)?;
        Ok(self.with_rest(opened.rest, each)?)
    }

    // The arm of each opened value.
    #[cycle(evaluating)]
    #[tactic(auto, using(crate::proofs::AppliedSteps::case_steps))]
    fn arm_each(
        &mut self,
        said: &Said<'_>,
        values: &[Case<Form>],
        arms: ExprId,
        bound: &[Form],
    ) -> Result<Cases<Form>, Fault>
        ensures { IfOk result (λ cs. Evaluates self.old self.new said.now.exprs.now (λ v w. cases_of v cs ≡ MF.from_each (form_cases v values.now) (λ y. arm_in v said.now (w.arms arms.0) y (map (form_of v) bound.now)))) }
    {
        match values {
            [] => Ok(nothing_said(self.alloc())),
            [value, rest @ ..] => {
                let here = self.evaluated_arm(said, arms, value.gives, bound)?;
                let later = self.arm_each(said, rest, arms, bound)?;
                Ok(self.from_first(value.guard, &here, &later)?)
            }
        }
    }

    // Expressions, one by one.
    #[cycle(evaluating)]
    fn evaluated_each(
        &mut self,
        said: &Said<'_>,
        exprs: ExprId,
        bound: &[Form],
    ) -> Result<Cases<FieldsId>, Fault>
        ensures { IfOk result (λ cs. Evaluates self.old self.new said.now.exprs.now (λ v w. list_cases_of v cs ≡ each_in v said.now (w.exprs exprs.0) (map (form_of v) bound.now))) }
    {
        match expr_at(said.exprs, exprs)? {
            Expr::NoExpr => Ok(self.no_forms()?),
            Expr::ExprAnd(expr, rest) => {
                let first = self.evaluated(said, expr, bound)?;
                let later = self.evaluated_each(said, rest, bound)?;
                Ok(self.paired(&first, &later)?)
            }
            Expr::Argument(_)
            | Expr::Result
            | Expr::Variable(_)
            | Expr::Written(_)
            | Expr::Operation(_, _)
            | Expr::Unknown(_, _)
            | Expr::VariantSaid(_, _, _)
            | Expr::StructSaid(_, _)
            | Expr::LetIn(_, _)
            | Expr::SwitchOn(_, _)
            | Expr::MatchOn(_, _)
            | Expr::NoCase
            | Expr::CaseAnd(_, _, _)
            | Expr::NoArm
            | Expr::VariantArm { .. }
            | Expr::StructArm { .. }
            | Expr::ElseArm { .. } => Err(Fault::Foreign),
        }
    }

    // The first case of a value.
    #[cycle(evaluating)]
    #[tactic(auto, using(crate::proofs::AppliedSteps::case_steps))]
    fn evaluated_case(
        &mut self,
        said: &Said<'_>,
        cases: ExprId,
        value: Form,
        bound: &[Form],
    ) -> Result<Cases<Form>, Fault>
        ensures { IfOk result (λ cs. Evaluates self.old self.new said.now.exprs.now (λ v w. cases_of v cs ≡ case_in v said.now (w.cases cases.0) (form_of v value) (map (form_of v) bound.now))) }
    {
        match expr_at(said.exprs, cases)? {
            Expr::NoCase => Ok(nothing_said(self.alloc())),
            Expr::CaseAnd(key, body, rest) => {
                Ok(self.case_and(said, cases, key, body, rest, value, bound)?)
            }
            Expr::Argument(_)
            | Expr::Result
            | Expr::Variable(_)
            | Expr::Written(_)
            | Expr::Operation(_, _)
            | Expr::Unknown(_, _)
            | Expr::VariantSaid(_, _, _)
            | Expr::StructSaid(_, _)
            | Expr::LetIn(_, _)
            | Expr::SwitchOn(_, _)
            | Expr::MatchOn(_, _)
            | Expr::NoExpr
            | Expr::ExprAnd(_, _)
            | Expr::NoArm
            | Expr::VariantArm { .. }
            | Expr::StructArm { .. }
            | Expr::ElseArm { .. } => Err(Fault::Foreign),
        }
    }

    // A case before others.
    #[cycle(evaluating)]
    fn case_and(
        &mut self,
        said: &Said<'_>,
        limit: ExprId,
        key: ExprId,
        body: ExprId,
        rest: ExprId,
        value: Form,
        bound: &[Form],
    ) -> Result<Cases<Form>, Fault>
        requires key { key.0 < limit.0 }
        requires body { body.0 < limit.0 }
        requires rest { rest.0 < limit.0 }
        ensures { IfOk result (λ cs. Evaluates self.old self.new said.now.exprs.now (λ v w. cases_of v cs ≡ case_in v said.now (L.case_and (w.expr key.0) (w.expr body.0) (w.cases rest.0)) (form_of v value) (map (form_of v) bound.now))) }
    {
        let keys = self.evaluated(said, key, bound)?;
        let is_key = only_key(&keys.cases, value);
        let first = self.unless_passed(said, body, bound, is_key)?;
        let later = self.unless_taken(said, rest, value, bound, is_key)?;
        let widths = widths_of(self.alloc(), said.tables.sorts)?;
        Ok(self.switched_all(said.tables, &widths, &keys, value, &first, &later)?)
    }

    // What a case gives, unless it is known that the value isn't its key.
    #[cycle(evaluating)]
    fn unless_passed(
        &mut self,
        said: &Said<'_>,
        body: ExprId,
        bound: &[Form],
        is_key: Option<bool>,
    ) -> Result<Cases<Form>, Fault>
        ensures { IfOk result (λ cs. Evaluates self.old self.new said.now.exprs.now (λ v w. cases_of v cs ≡ unless_passed is_key (evaluated_in v said.now (w.expr body.0) (map (form_of v) bound.now)))) }
    {
        match is_key {
            Some(false) => Ok(nothing_said(self.alloc())),
            Some(true) => Ok(self.evaluated(said, body, bound)?),
            None => Ok(self.evaluated(said, body, bound)?),
        }
    }

    // What later cases give, unless it is known that the value is the key before them.
    #[cycle(evaluating)]
    fn unless_taken(
        &mut self,
        said: &Said<'_>,
        rest: ExprId,
        value: Form,
        bound: &[Form],
        is_key: Option<bool>,
    ) -> Result<Cases<Form>, Fault>
        ensures { IfOk result (λ cs. Evaluates self.old self.new said.now.exprs.now (λ v w. cases_of v cs ≡ unless_taken is_key (case_in v said.now (w.cases rest.0) (form_of v value) (map (form_of v) bound.now)))) }
    {
        match is_key {
            Some(true) => Ok(nothing_said(self.alloc())),
            Some(false) => Ok(self.evaluated_case(said, rest, value, bound)?),
            None => Ok(self.evaluated_case(said, rest, value, bound)?),
        }
    }

    // The arm of an opened value.
    #[cycle(evaluating)]
    #[tactic(auto, using(crate::proofs::EvaluatingSteps::arm_steps))]
    fn evaluated_arm(
        &mut self,
        said: &Said<'_>,
        arms: ExprId,
        value: Form,
        bound: &[Form],
    ) -> Result<Cases<Form>, Fault>
        ensures { IfOk result (λ cs. Evaluates self.old self.new said.now.exprs.now (λ v w. cases_of v cs ≡ arm_in v said.now (w.arms arms.0) (form_of v value) (map (form_of v) bound.now))) }
    {
        match expr_at(said.exprs, arms)? {
            Expr::NoArm => Ok(nothing_said(self.alloc())),
            Expr::ElseArm { body } => {
                let inner = bound_with(self.alloc(), value, bound)?;
                Ok(self.evaluated(said, body, &inner)?)
            }
            Expr::StructArm { ty, body } => {
                Ok(self.struct_arm(said, arms, ty, body, value, bound)?)
            }
            Expr::VariantArm {
                ty,
                variant,
                body,
                rest,
            } => Ok(self.variant_arm(said, arms, ty, variant, body, rest, value, bound)?),
            Expr::Argument(_)
            | Expr::Result
            | Expr::Variable(_)
            | Expr::Written(_)
            | Expr::Operation(_, _)
            | Expr::Unknown(_, _)
            | Expr::VariantSaid(_, _, _)
            | Expr::StructSaid(_, _)
            | Expr::LetIn(_, _)
            | Expr::SwitchOn(_, _)
            | Expr::MatchOn(_, _)
            | Expr::NoExpr
            | Expr::ExprAnd(_, _)
            | Expr::NoCase
            | Expr::CaseAnd(_, _, _) => Err(Fault::Foreign),
        }
    }

    // The arm of a struct.
    #[cycle(evaluating)]
    #[tactic(auto, using(crate::proofs::EvaluatingSteps::arm_steps))]
    fn struct_arm(
        &mut self,
        said: &Said<'_>,
        limit: ExprId,
        ty: TypeId,
        body: ExprId,
        value: Form,
        bound: &[Form],
    ) -> Result<Cases<Form>, Fault>
        requires { body.0 < limit.0 }
        ensures { IfOk result (λ cs. Evaluates self.old self.new said.now.exprs.now (λ v w. cases_of v cs ≡ arm_in v said.now (L.struct_arm ty.0 (w.expr body.0)) (form_of v value) (map (form_of v) bound.now))) }
    {
        match value {
            Form::Struct { ty: own, fields } => {
                if own.0 == ty.0 {
                    let inner = self.bound_fields(fields, bound)?;
                    Ok(self.evaluated(said, body, &inner)?)
                } else {
                    Ok(nothing_said(self.alloc()))
                }
            }
            Form::Fact(_) | Form::Integer(_) | Form::Word(_, _) => {
                Ok(nothing_said(self.alloc()))
            }
            Form::Variant { .. } | Form::AnyOf { .. } | Form::SomeAt { .. } => {
                Ok(anything(self.alloc()))
            }
        }
    }

    // The arm of a variant, or another one.
    #[cycle(evaluating)]
    #[tactic(auto, using(crate::proofs::EvaluatingSteps::arm_steps))]
    fn variant_arm(
        &mut self,
        said: &Said<'_>,
        limit: ExprId,
        ty: TypeId,
        variant: VariantId,
        body: ExprId,
        rest: ExprId,
        value: Form,
        bound: &[Form],
    ) -> Result<Cases<Form>, Fault>
        requires body { body.0 < limit.0 }
        requires rest { rest.0 < limit.0 }
        ensures { IfOk result (λ cs. Evaluates self.old self.new said.now.exprs.now (λ v w. cases_of v cs ≡ arm_in v said.now (L.spec_arm_and ty.0 variant.0 (w.expr body.0) (w.arms rest.0)) (form_of v value) (map (form_of v) bound.now))) }
    {
        match value {
            Form::Variant {
                ty: own,
                variant: kind,
                fields,
            } => {
                if own.0 != ty.0 {
                    return Ok(nothing_said(self.alloc()));
                }
                if kind.0 == variant.0 {
                    let inner = self.bound_fields(fields, bound)?;
                    Ok(self.evaluated(said, body, &inner)?)
                } else {
                    Ok(self.evaluated_arm(said, rest, value, bound)?)
                }
            }
            Form::Fact(_) | Form::Integer(_) | Form::Word(_, _) => {
                Ok(nothing_said(self.alloc()))
            }
            Form::Struct { .. } | Form::AnyOf { .. } | Form::SomeAt { .. } => {
                Ok(anything(self.alloc()))
            }
        }
    }
}
