//! The fact that a step adds: what its values and expressions come to.
ghost use Rattle.std.specs.Prelude.{◌≡◌, true, false, option_map, IfOk};
ghost use Rattle.std.specs.Bool.{◌==◌};
ghost use Rattle.laws_specs.specs.Specs as L;
ghost use Rattle.model.specs.rules.Meaning.{look};
ghost use Rattle.model.specs.rules.Outcome.{then_option};
ghost use Rattle.model.specs.sites.Sites as Sites;
ghost use Rattle.model_questions.specs.Evaluated as E;
ghost use Rattle.model_questions.specs.Formulas as M;
ghost use Rattle.model_questions.specs.Forms as MF;
ghost use Rattle.model_questions.specs.Questions as Q;
ghost use Rattle.model_questions.specs.Steps as S;
ghost use Rattle.spec_cases.specs.Asking.{all_surely_in, come_to_in, fact_in, perhaps_in, same_if_in, same_in, surely_in, told_in};
ghost use Rattle.spec_cases.specs.CaseViews.{cases_of, form_cases};
ghost use Rattle.spec_cases.specs.Expressions.{Evaluates};
ghost use Rattle.spec_cases.specs.Literals.{literal_view};
ghost use Rattle.spec_cases.specs.Namings.{fact_of, form_of, Makes};
ghost use Rattle.spec_cases.specs.Places.{MakesApart};
ghost use Rattle.spec_cases.specs.Sorts.{sort_view, type_sorts};
ghost use Rattle.spec_cases.specs.Steps.{constant_views, constraint_view, said_view, said_views, step_view};
ghost use Rattle.spec_cases.specs.Tables.{known_in, specs_in, types_in};

use crate::arena::Formulas;
use crate::cases::{Case, Cases, nothing_said};
use crate::evaluating;
use crate::expressions::Expr;
use crate::faults::Fault;
use crate::forms::Form;
use crate::formulas::Fact;
use crate::literals::Literal;
use crate::operators::Operator;
use crate::sorts::{Sort, TypeSort, widths_of};
use crate::steps::{Constant, Constraint, Said, Step};
use crate::tables::Tables;
use crate::words::word_of;
use core_types::{Sym, TypeId, VariantId};

/// What steps are asked by.
#[derive(Clone, Copy)]
pub struct Asking<'t> {
    /// What evaluation looks things up in.
    pub tables: &'t Tables<'t>,
    /// What named constants stand for.
    pub constants: &'t [Constant],
    /// The expressions, by their numbers.
    pub exprs: &'t [Expr],
}

impl Sort {
    // What an integer stands for in it.
    fn literal(&self, number: i128) -> Result<Option<Literal>, Fault>
        ensures { IfOk result (λ o. option_map literal_view o ≡ L.integer_in (sort_view self.now) number) }
    {
        match self {
            Sort::Integers => Ok(Some(Literal::Integer(number))),
            Sort::Words(width) => {
                let word = word_of(*width, number)?;
                Ok(Some(Literal::Word(*width, word)))
            }
            Sort::Truths | Sort::WordsAmong(_) => Ok(None),
        }
    }
}

/// What an integer of a type stands for, where the type has a sort.
///
/// # Errors
///
/// `TooGreat` where the type is one of words past 127 bits.
#[tactic(auto, using(crate::proofs::AskingSteps::look_steps))]
pub fn literal_of(sorts: &[TypeSort], number: i128, ty: TypeId) -> Result<Option<Literal>, Fault>
    ensures { IfOk result (λ o. option_map literal_view o ≡ then_option (look (λ k. k == ty.0) (type_sorts sorts.now)) (λ s. L.integer_in s number)) }
{
    match sorts {
        [] => Ok(None),
        [first, rest @ ..] => {
            if first.ty.0 == ty.0 {
                Ok(first.sort.literal(number)?)
            } else {
                Ok(literal_of(rest, number, ty)?)
            }
        }
    }
}

/// What a named constant stands for.
#[tactic(auto, using(crate::proofs::AskingSteps::look_steps))]
pub fn constant_of(constants: &[Constant], name: Sym) -> Option<Literal>
    ensures { option_map literal_view result ≡ look (λ k. k == name.0) (constant_views constants.now) }
{
    match constants {
        [] => None,
        [first, rest @ ..] => {
            if first.name.0 == name.0 {
                Some(first.value)
            } else {
                constant_of(rest, name)
            }
        }
    }
}

impl Form {
    // Where it is this variant.
    fn kind_fact(self, variant: VariantId) -> Fact
        ensures { (v : _) → fact_of v result ≡ Q.kind_fact variant.0 (form_of v self) }
    {
        match self {
            Form::AnyOf { place, .. } | Form::SomeAt { place } => Fact::IsKind(place, variant),
            Form::Fact(_)
            | Form::Integer(_)
            | Form::Word(_, _)
            | Form::Variant { .. }
            | Form::Struct { .. } => Fact::Known(true),
        }
    }

    // Where it is true.
    fn true_fact(self) -> Fact
        ensures { (v : _) → fact_of v result ≡ Q.truth_fact true (form_of v self) }
    {
        match self {
            Form::Fact(fact) => fact,
            Form::AnyOf { place, .. } => Fact::At(place),
            Form::Integer(_)
            | Form::Word(_, _)
            | Form::Variant { .. }
            | Form::Struct { .. }
            | Form::SomeAt { .. } => Fact::Known(true),
        }
    }
}

impl Formulas {
    // Where a value is false.
    fn false_fact(&mut self, form: Form) -> Result<Fact, Fault>
        ensures { IfOk result (λ f. Makes self.old self.new (λ v. fact_of v f ≡ Q.truth_fact false (form_of v form))) }
    {
        match form {
            Form::Fact(fact) => Ok(self.none_of(fact)?),
            Form::AnyOf { place, .. } => Ok(self.none_of(Fact::At(place))?),
            Form::Integer(_)
            | Form::Word(_, _)
            | Form::Variant { .. }
            | Form::Struct { .. }
            | Form::SomeAt { .. } => Ok(Fact::Known(true)),
        }
    }

    // Where a value is this truth.
    fn truth_fact(&mut self, truth: bool, form: Form) -> Result<Fact, Fault>
        ensures { IfOk result (λ f. Makes self.old self.new (λ v. fact_of v f ≡ Q.truth_fact truth (form_of v form))) }
    {
        if truth {
            Ok(form.true_fact())
        } else {
            Ok(self.false_fact(form)?)
        }
    }

    // One layer of each value.
    #[tactic(auto, using(crate::proofs::AppliedSteps::case_steps))]
    fn opened_cases(
        &mut self,
        tables: &Tables<'_>,
        cases: &[Case<Form>],
    ) -> Result<Cases<Form>, Fault>
        ensures { IfOk result (λ cs. MakesApart self.old self.new (λ v. cases_of v cs ≡ MF.from_each (form_cases v cases.now) (E.opened (types_in tables.now) (specs_in tables.now) (known_in v tables.now)))) }
    {
        match cases {
            [] => Ok(nothing_said(self.alloc())),
            [case, rest @ ..] => {
                let here = self.opened(tables, case.gives)?;
                let later = self.opened_cases(tables, rest)?;
                Ok(self.from_first(case.guard, &here, &later)?)
            }
        }
    }

    /// What an expression comes to on its arguments and its result, each value with one layer of what stands at a place.
    ///
    /// # Errors
    ///
    /// As `evaluated`.
    pub fn come_to(&mut self, asking: &Asking<'_>, said: Said) -> Result<Cases<Form>, Fault>
        ensures { IfOk result (λ cs. Evaluates self.old self.new asking.now.exprs.now (λ v w. cases_of v cs ≡ come_to_in v asking.now (said_view v w said))) }
    {
        let args = self.list_of(said.args)?;
        let around = evaluating::Said {
            tables: asking.tables,
            exprs: asking.exprs,
            args: &args,
            answer: said.answer,
        };
        let values = self.evaluated(&around, said.expr, &[])?;
        let each = self.opened_cases(asking.tables, &values.cases)?;
        Ok(self.with_rest(values.rest, each)?)
    }

    /// Where two values may be the same.
    ///
    /// # Errors
    ///
    /// As `fitted`.
    pub fn same_fact(
        &mut self,
        asking: &Asking<'_>,
        first: Form,
        second: Form,
    ) -> Result<Fact, Fault>
        ensures { IfOk result (λ f. MakesApart self.old self.new (λ v. fact_of v f ≡ same_in v asking.now (form_of v first) (form_of v second))) }
    {
        let widths = widths_of(self.alloc(), asking.tables.sorts)?;
        let tests = self.operated(asking.tables, &widths, Operator::Equals, &[first, second])?;
        Ok(self.perhaps(&tests)?)
    }

    /// Where a value may be one that is written, if there is one.
    ///
    /// # Errors
    ///
    /// As `fitted`.
    pub fn same_if(
        &mut self,
        asking: &Asking<'_>,
        form: Form,
        literal: Option<Literal>,
    ) -> Result<Fact, Fault>
        ensures { IfOk result (λ f. MakesApart self.old self.new (λ v. fact_of v f ≡ same_if_in v asking.now (form_of v form) (option_map literal_view literal))) }
    {
        match literal {
            None => Ok(Fact::Known(true)),
            Some(value) => Ok(self.same_fact(asking, form, value.form())?),
        }
    }

    // Where a value may be an integer of a type.
    fn integer_fact(
        &mut self,
        asking: &Asking<'_>,
        form: Form,
        number: i128,
        ty: TypeId,
    ) -> Result<Fact, Fault>
        ensures { IfOk result (λ f. MakesApart self.old self.new (λ v. fact_of v f ≡ told_in v asking.now (form_of v form) (Sites.is_int number ty.0))) }
    {
        let literal = literal_of(asking.tables.sorts, number, ty)?;
        Ok(self.same_if(asking, form, literal)?)
    }

    // Where a value may be a named constant.
    fn constant_fact(&mut self, asking: &Asking<'_>, form: Form, name: Sym) -> Result<Fact, Fault>
        ensures { IfOk result (λ f. MakesApart self.old self.new (λ v. fact_of v f ≡ told_in v asking.now (form_of v form) (Sites.is_prim name.0))) }
    {
        let literal = constant_of(asking.constants, name);
        Ok(self.same_if(asking, form, literal)?)
    }

    /// What a constraint tells of a value.
    ///
    /// # Errors
    ///
    /// As `fitted`; `TooGreat` where an integer is one of a type of words past 127 bits.
    pub fn told_fact(
        &mut self,
        asking: &Asking<'_>,
        form: Form,
        constraint: Constraint,
    ) -> Result<Fact, Fault>
        ensures { IfOk result (λ f. MakesApart self.old self.new (λ v. fact_of v f ≡ told_in v asking.now (form_of v form) (constraint_view constraint))) }
    {
        match constraint {
            Constraint::Variant { variant, .. } => Ok(form.kind_fact(variant)),
            Constraint::Struct { .. } | Constraint::Some => Ok(Fact::Known(true)),
            Constraint::ConstBool { val, .. } => Ok(self.truth_fact(val, form)?),
            Constraint::ConstInt { val, ty } => Ok(self.integer_fact(asking, form, val, ty)?),
            Constraint::ConstPrim { val } => Ok(self.constant_fact(asking, form, val)?),
        }
    }

    // Where an expression surely holds.
    fn surely_said(&mut self, asking: &Asking<'_>, said: Said) -> Result<Fact, Fault>
        ensures { IfOk result (λ f. Evaluates self.old self.new asking.now.exprs.now (λ v w. fact_of v f ≡ surely_in v asking.now (said_view v w said))) }
    {
        let cases = self.come_to(asking, said)?;
        Ok(self.surely(&cases)?)
    }

    // Where an expression may hold.
    fn perhaps_said(&mut self, asking: &Asking<'_>, said: Said) -> Result<Fact, Fault>
        ensures { IfOk result (λ f. Evaluates self.old self.new asking.now.exprs.now (λ v w. fact_of v f ≡ perhaps_in v asking.now (said_view v w said))) }
    {
        let cases = self.come_to(asking, said)?;
        Ok(self.perhaps(&cases)?)
    }

    /// Where all of these expressions surely hold.
    ///
    /// # Errors
    ///
    /// As `evaluated`.
    pub fn all_surely(&mut self, asking: &Asking<'_>, saids: &[Said]) -> Result<Fact, Fault>
        ensures { IfOk result (λ f. Evaluates self.old self.new asking.now.exprs.now (λ v w. fact_of v f ≡ all_surely_in v asking.now (said_views v w saids.now))) }
    {
        match saids {
            [] => Ok(Fact::Known(true)),
            [said, rest @ ..] => {
                let here = self.surely_said(asking, *said)?;
                let later = self.all_surely(asking, rest)?;
                Ok(self.both_of(here, later)?)
            }
        }
    }

    // Where an expression may hold, or one of the others not.
    fn under_fact(&mut self, asking: &Asking<'_>, under: &[Said], said: Said) -> Result<Fact, Fault>
        ensures { IfOk result (λ f. Evaluates self.old self.new asking.now.exprs.now (λ v w. fact_of v f ≡ fact_in v asking.now (S.assumed_under (said_views v w under.now) (said_view v w said)))) }
    {
        let all = self.all_surely(asking, under)?;
        let not = self.none_of(all)?;
        let here = self.perhaps_said(asking, said)?;
        Ok(self.one_of(not, here)?)
    }

    /// The fact that a step adds.
    ///
    /// # Errors
    ///
    /// As `evaluated` and `told_fact`.
    pub fn fact_of(&mut self, asking: &Asking<'_>, step: &Step) -> Result<Fact, Fault>
        ensures { IfOk result (λ f. Evaluates self.old self.new asking.now.exprs.now (λ v w. fact_of v f ≡ fact_in v asking.now (step_view v w step.now))) }
    {
        match step {
            Step::SplitAt { .. } => Ok(Fact::Known(true)),
            Step::ToldAs { form, constraint } => Ok(self.told_fact(asking, *form, *constraint)?),
            Step::ToldSame { first, second } => Ok(self.same_fact(asking, *first, *second)?),
            Step::Assumed(said) => Ok(self.perhaps_said(asking, *said)?),
            Step::AssumedUnder { under, said } => Ok(self.under_fact(asking, under, *said)?),
            Step::Shown(said) => Ok(self.surely_said(asking, *said)?),
        }
    }

    // What is shown, and that it isn't so.
    pub(crate) fn shown_facts(
        &mut self,
        asking: &Asking<'_>,
        said: Said,
    ) -> Result<(Fact, Fact), Fault>
        ensures { IfOk result (λ fs. Evaluates self.old self.new asking.now.exprs.now (λ v w. (fact_of v fs.0 ≡ surely_in v asking.now (said_view v w said)) × (fact_of v fs.1 ≡ M.none_of (surely_in v asking.now (said_view v w said))))) }
    {
        let fact = self.surely_said(asking, said)?;
        let not = self.none_of(fact)?;
        Ok((fact, not))
    }
}
