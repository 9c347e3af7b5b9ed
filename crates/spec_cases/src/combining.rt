//! What comes of cases, one by one.
ghost use Rattle.std.specs.Prelude.{◌≡◌, ◌++◌, IfOk, OnOk};
ghost use Rattle.model_questions.specs.Evaluated as E;
ghost use Rattle.model_questions.specs.Forms as MF;
ghost use Rattle.model.specs.rules.Meaning.{look};
ghost use Rattle.std.specs.Bool.{◌==◌};
ghost use Rattle.spec_cases.specs.CaseViews.{cases_of, each_with, form_cases, list_cases_of};
ghost use Rattle.spec_cases.specs.Combining.{forms_cases, rest_with, switch_case, whole_of};
ghost use Rattle.spec_cases.specs.Namings.{fact_of, form_of, forms_of, operator_view, Makes, Names};
ghost use Rattle.spec_cases.specs.Places.{MakesApart};
ghost use Rattle.spec_cases.specs.Tables.{known_in, specs_in, types_in};

use crate::arena::Formulas;
use crate::cases::{Case, Cases, add_case, nothing_said, one_case};
use crate::faults::Fault;
use crate::forms::{FieldsId, Form};
use crate::formulas::Fact;
use crate::operators::Operator;
use crate::tables::Tables;
use core_types::{TypeId, VariantId};
use std::alloc::Global;

// What is made of its fields.
#[derive(Clone, Copy)]
pub(crate) enum Whole {
    // A variant.
    Variant(TypeId, VariantId),
    // A struct.
    Struct(TypeId),
}

impl Whole {
    // Of these fields.
    fn of(self, fields: FieldsId) -> Form
        ensures { (v : _) → form_of v result ≡ whole_of self (v.fields fields.0) }
    {
        match self {
            Whole::Variant(ty, variant) => Form::Variant {
                ty,
                variant,
                fields,
            },
            Whole::Struct(ty) => Form::Struct { ty, fields },
        }
    }
}

// Adds what is made of each list of fields.
#[tactic(auto, using(crate::proofs::CombiningSteps::none_steps))]
fn add_wholes(
    whole: Whole,
    lists: &[Case<FieldsId>],
    out: &mut Vec<Case<Form>>,
) -> Result<(), Fault>
    ensures { OnOk result ((v : _) → form_cases v out.new.items ≡ form_cases v out.old.items ++ each_with (whole_of whole) (forms_cases v lists.now)) }
{
    match lists {
        [] => Ok(()),
        [list, rest @ ..] => {
            add_case(list.guard, whole.of(list.gives), out)?;
            Ok(add_wholes(whole, rest, out)?)
        }
    }
}

// What is made of each list of fields.
pub(crate) fn wholes(
    alloc: Global,
    whole: Whole,
    lists: &Cases<FieldsId>,
) -> Result<Cases<Form>, Fault>
    ensures { IfOk result (λ cs. (v : _) → cases_of v cs ≡ MF.then_cases (list_cases_of v lists.now) (λ fs. MF.one_case (whole_of whole fs))) }
{
    let mut cases = Vec::new(alloc);
    add_wholes(whole, &lists.cases, &mut cases)?;
    Ok(Cases {
        cases,
        rest: lists.rest,
    })
}

impl Formulas {
    // What comes of the first case, and of the later ones.
    #[tactic(auto, using(crate::proofs::AppliedSteps::under_steps))]
    pub(crate) fn from_first(
        &mut self,
        guard: Fact,
        first: &Cases<Form>,
        later: &Cases<Form>,
    ) -> Result<Cases<Form>, Fault>
        ensures { IfOk result (λ cs. Makes self.old self.new (λ v. cases_of v cs ≡ MF.joined_cases (MF.under (fact_of v guard) (cases_of v first.now)) (cases_of v later.now))) }
    {
        let here = self.under(guard, first)?;
        Ok(self.joined_cases(here, later)?)
    }

    // What comes of cases, with their rest.
    pub(crate) fn with_rest(&mut self, rest: Fact, each: Cases<Form>) -> Result<Cases<Form>, Fault>
        ensures { IfOk result (λ cs. Makes self.old self.new (λ v. cases_of v cs ≡ rest_with (fact_of v rest) (cases_of v each))) }
    {
        let all = self.one_of(rest, each.rest)?;
        Ok(Cases {
            cases: each.cases,
            rest: all,
        })
    }

    // The same, of lists.
    #[tactic(auto, using(crate::proofs::CombiningSteps::list_under_steps))]
    fn lists_from_first(
        &mut self,
        guard: Fact,
        first: &Cases<FieldsId>,
        later: &Cases<FieldsId>,
    ) -> Result<Cases<FieldsId>, Fault>
        ensures { IfOk result (λ cs. Makes self.old self.new (λ v. list_cases_of v cs ≡ MF.joined_cases (MF.under (fact_of v guard) (list_cases_of v first.now)) (list_cases_of v later.now))) }
    {
        let here = self.under(guard, first)?;
        Ok(self.joined_cases(here, later)?)
    }

    fn lists_with_rest(
        &mut self,
        rest: Fact,
        each: Cases<FieldsId>,
    ) -> Result<Cases<FieldsId>, Fault>
        ensures { IfOk result (λ cs. Makes self.old self.new (λ v. list_cases_of v cs ≡ rest_with (fact_of v rest) (list_cases_of v each))) }
    {
        let all = self.one_of(rest, each.rest)?;
        Ok(Cases {
            cases: each.cases,
            rest: all,
        })
    }

    // The forms of a list.
    pub(crate) fn list_of(&self, fields: FieldsId) -> Result<Vec<Form>, Fault>
        ensures { IfOk result (λ fs. (v : _) → Names v self.now → v.fields fields.0 ≡ forms_of v fs.items) }
    {
        let list = self.fields(fields)?;
        Ok(Vec::from_slice(self.alloc(), list)?)
    }

    // A form before the forms of a list.
    fn prefixed_list(&mut self, form: Form, fields: FieldsId) -> Result<FieldsId, Fault>
        ensures { IfOk result (λ n. Makes self.old self.new (λ v. v.fields n.0 ≡ MF.form_and (form_of v form) (v.fields fields.0))) }
    {
        let later = self.list_of(fields)?;
        let mut all = Vec::new(self.alloc());
        all.push(form)?;
        all.extend_from_slice(&later)?;
        Ok(self.made_fields(all)?)
    }

    // Adds lists with one form more before each.
    #[tactic(auto, using(crate::proofs::CombiningSteps::none_steps))]
    fn add_prefixed(
        &mut self,
        form: Form,
        cases: &[Case<FieldsId>],
        out: &mut Vec<Case<FieldsId>>,
    ) -> Result<(), Fault>
        ensures { OnOk result (Makes self.old self.new (λ v. forms_cases v out.new.items ≡ forms_cases v out.old.items ++ each_with (MF.form_and (form_of v form)) (forms_cases v cases.now))) }
    {
        match cases {
            [] => Ok(()),
            [case, rest @ ..] => {
                let gives = self.prefixed_list(form, case.gives)?;
                add_case(case.guard, gives, out)?;
                Ok(self.add_prefixed(form, rest, out)?)
            }
        }
    }

    // Lists with one form more before each.
    #[tactic(auto, using(crate::proofs::CombiningSteps::then_one))]
    fn prefixed(&mut self, form: Form, later: &Cases<FieldsId>) -> Result<Cases<FieldsId>, Fault>
        ensures { IfOk result (λ cs. Makes self.old self.new (λ v. list_cases_of v cs ≡ MF.then_cases (list_cases_of v later.now) (λ gs. MF.one_case (MF.form_and (form_of v form) gs)))) }
    {
        let mut cases = Vec::new(self.alloc());
        self.add_prefixed(form, &later.cases, &mut cases)?;
        Ok(Cases {
            cases,
            rest: later.rest,
        })
    }

    // Each form before each list.
    #[tactic(auto, using(crate::proofs::CombiningSteps::list_nothing))]
    fn paired_each(
        &mut self,
        cases: &[Case<Form>],
        later: &Cases<FieldsId>,
    ) -> Result<Cases<FieldsId>, Fault>
        ensures { IfOk result (λ cs. Makes self.old self.new (λ v. list_cases_of v cs ≡ MF.from_each (form_cases v cases.now) (λ g. MF.then_cases (list_cases_of v later.now) (λ gs. MF.one_case (MF.form_and g gs))))) }
    {
        match cases {
            [] => Ok(nothing_said(self.alloc())),
            [case, rest @ ..] => {
                let here = self.prefixed(case.gives, later)?;
                let more = self.paired_each(rest, later)?;
                Ok(self.lists_from_first(case.guard, &here, &more)?)
            }
        }
    }

    // Each form before each list, with what is left open.
    pub(crate) fn paired(
        &mut self,
        first: &Cases<Form>,
        later: &Cases<FieldsId>,
    ) -> Result<Cases<FieldsId>, Fault>
        ensures { IfOk result (λ cs. Makes self.old self.new (λ v. list_cases_of v cs ≡ MF.then_cases (cases_of v first.now) (λ g. MF.then_cases (list_cases_of v later.now) (λ gs. MF.one_case (MF.form_and g gs))))) }
    {
        let each = self.paired_each(&first.cases, later)?;
        Ok(self.lists_with_rest(first.rest, each)?)
    }

    // No forms.
    #[tactic(auto, using(crate::proofs::CombiningSteps::list_one))]
    pub(crate) fn no_forms(&mut self) -> Result<Cases<FieldsId>, Fault>
        ensures { IfOk result (λ cs. Makes self.old self.new (λ v. list_cases_of v cs ≡ MF.one_case MF.no_form)) }
    {
        let list = Vec::new(self.alloc());
        let none = self.made_fields(list)?;
        Ok(one_case(self.alloc(), none)?)
    }

    /// Values, each with one layer of what stands at a place.
    ///
    /// # Errors
    ///
    /// As `made_fact`.
    pub fn opened_each(
        &mut self,
        tables: &Tables<'_>,
        forms: &[Form],
    ) -> Result<Cases<FieldsId>, Fault>
        ensures { IfOk result (λ cs. MakesApart self.old self.new (λ v. list_cases_of v cs ≡ E.opened_each (types_in tables.now) (specs_in tables.now) (known_in v tables.now) (forms_of v forms.now))) }
    {
        match forms {
            [] => Ok(self.no_forms()?),
            [form, rest @ ..] => {
                let first = self.opened(tables, *form)?;
                let later = self.opened_each(tables, rest)?;
                Ok(self.paired(&first, &later)?)
            }
        }
    }

    // An operator on each list.
    #[tactic(auto, using(crate::proofs::AppliedSteps::case_steps))]
    fn fitted_each(
        &mut self,
        widths: &[u32],
        operator: Operator,
        cases: &[Case<FieldsId>],
    ) -> Result<Cases<Form>, Fault>
        ensures { IfOk result (λ cs. Makes self.old self.new (λ v. cases_of v cs ≡ MF.from_each (forms_cases v cases.now) (E.fitted widths.now (operator_view operator)))) }
    {
        match cases {
            [] => Ok(nothing_said(self.alloc())),
            [case, rest @ ..] => {
                let list = self.list_of(case.gives)?;
                let here = self.fitted(widths, operator, &list)?;
                let later = self.fitted_each(widths, operator, rest)?;
                Ok(self.from_first(case.guard, &here, &later)?)
            }
        }
    }

    /// An operator on values, which are opened.
    ///
    /// # Errors
    ///
    /// As `fitted`.
    pub fn operated(
        &mut self,
        tables: &Tables<'_>,
        widths: &[u32],
        operator: Operator,
        forms: &[Form],
    ) -> Result<Cases<Form>, Fault>
        ensures { IfOk result (λ cs. MakesApart self.old self.new (λ v. cases_of v cs ≡ MF.then_cases (E.opened_each (types_in tables.now) (specs_in tables.now) (known_in v tables.now) (forms_of v forms.now)) (E.fitted widths.now (operator_view operator)))) }
    {
        let opened = self.opened_each(tables, forms)?;
        let each = self.fitted_each(widths, operator, &opened.cases)?;
        Ok(self.with_rest(opened.rest, each)?)
    }

    // An operator on each list, whose values are opened.
    #[tactic(auto, using(crate::proofs::AppliedSteps::case_steps))]
    fn operated_each(
        &mut self,
        tables: &Tables<'_>,
        widths: &[u32],
        operator: Operator,
        cases: &[Case<FieldsId>],
    ) -> Result<Cases<Form>, Fault>
        ensures { IfOk result (λ cs. MakesApart self.old self.new (λ v. cases_of v cs ≡ MF.from_each (forms_cases v cases.now) (λ fs. MF.then_cases (E.opened_each (types_in tables.now) (specs_in tables.now) (known_in v tables.now) fs) (E.fitted widths.now (operator_view operator))))) }
    {
        match cases {
            [] => Ok(nothing_said(self.alloc())),
            [case, rest @ ..] => {
                let list = self.list_of(case.gives)?;
                let here = self.operated(tables, widths, operator, &list)?;
                let later = self.operated_each(tables, widths, operator, rest)?;
                Ok(self.from_first(case.guard, &here, &later)?)
            }
        }
    }

    // An operator on lists.
    pub(crate) fn operated_all(
        &mut self,
        tables: &Tables<'_>,
        widths: &[u32],
        operator: Operator,
        lists: &Cases<FieldsId>,
    ) -> Result<Cases<Form>, Fault>
        ensures { IfOk result (λ cs. MakesApart self.old self.new (λ v. cases_of v cs ≡ MF.then_cases (list_cases_of v lists.now) (λ fs. MF.then_cases (E.opened_each (types_in tables.now) (specs_in tables.now) (known_in v tables.now) fs) (E.fitted widths.now (operator_view operator))))) }
    {
        let each = self.operated_each(tables, widths, operator, &lists.cases)?;
        Ok(self.with_rest(lists.rest, each)?)
    }

    // An unknown function on each list.
    #[tactic(auto, using(crate::proofs::AppliedSteps::case_steps))]
    fn answered_each(
        &mut self,
        tables: &Tables<'_>,
        function: u32,
        cases: &[Case<FieldsId>],
    ) -> Result<Cases<Form>, Fault>
        ensures { IfOk result (λ cs. Makes self.old self.new (λ v. cases_of v cs ≡ MF.from_each (forms_cases v cases.now) (λ gs. E.answered_of function (look (λ n. n == function) (specs_in tables.now).unknown_sorts) (E.operands gs)))) }
    {
        match cases {
            [] => Ok(nothing_said(self.alloc())),
            [case, rest @ ..] => {
                let list = self.list_of(case.gives)?;
                let here = self.answered_of(tables.functions, function, &list)?;
                let later = self.answered_each(tables, function, rest)?;
                Ok(self.from_first(case.guard, &here, &later)?)
            }
        }
    }

    // An unknown function on values, which are opened.
    fn answered(
        &mut self,
        tables: &Tables<'_>,
        function: u32,
        forms: &[Form],
    ) -> Result<Cases<Form>, Fault>
        ensures { IfOk result (λ cs. MakesApart self.old self.new (λ v. cases_of v cs ≡ MF.then_cases (E.opened_each (types_in tables.now) (specs_in tables.now) (known_in v tables.now) (forms_of v forms.now)) (λ gs. E.answered_of function (look (λ n. n == function) (specs_in tables.now).unknown_sorts) (E.operands gs)))) }
    {
        let opened = self.opened_each(tables, forms)?;
        let each = self.answered_each(tables, function, &opened.cases)?;
        Ok(self.with_rest(opened.rest, each)?)
    }

    // An unknown function on each list, whose values are opened.
    #[tactic(auto, using(crate::proofs::AppliedSteps::case_steps))]
    fn asked_each(
        &mut self,
        tables: &Tables<'_>,
        function: u32,
        cases: &[Case<FieldsId>],
    ) -> Result<Cases<Form>, Fault>
        ensures { IfOk result (λ cs. MakesApart self.old self.new (λ v. cases_of v cs ≡ MF.from_each (forms_cases v cases.now) (λ fs. MF.then_cases (E.opened_each (types_in tables.now) (specs_in tables.now) (known_in v tables.now) fs) (λ gs. E.answered_of function (look (λ n. n == function) (specs_in tables.now).unknown_sorts) (E.operands gs))))) }
    {
        match cases {
            [] => Ok(nothing_said(self.alloc())),
            [case, rest @ ..] => {
                let list = self.list_of(case.gives)?;
                let here = self.answered(tables, function, &list)?;
                let later = self.asked_each(tables, function, rest)?;
                Ok(self.from_first(case.guard, &here, &later)?)
            }
        }
    }

    // An unknown function on lists.
    pub(crate) fn asked_all(
        &mut self,
        tables: &Tables<'_>,
        function: u32,
        lists: &Cases<FieldsId>,
    ) -> Result<Cases<Form>, Fault>
        ensures { IfOk result (λ cs. MakesApart self.old self.new (λ v. cases_of v cs ≡ MF.then_cases (list_cases_of v lists.now) (λ fs. MF.then_cases (E.opened_each (types_in tables.now) (specs_in tables.now) (known_in v tables.now) fs) (λ gs. E.answered_of function (look (λ n. n == function) (specs_in tables.now).unknown_sorts) (E.operands gs))))) }
    {
        let each = self.asked_each(tables, function, &lists.cases)?;
        Ok(self.with_rest(lists.rest, each)?)
    }

    // A choice by each truth.
    #[tactic(auto, using(crate::proofs::AppliedSteps::case_steps))]
    fn chosen_each(
        &mut self,
        cases: &[Case<Form>],
        x: &Cases<Form>,
        y: &Cases<Form>,
    ) -> Result<Cases<Form>, Fault>
        ensures { IfOk result (λ cs. Makes self.old self.new (λ v. cases_of v cs ≡ MF.from_each (form_cases v cases.now) (E.by_fact (cases_of v x.now) (cases_of v y.now)))) }
    {
        match cases {
            [] => Ok(nothing_said(self.alloc())),
            [case, rest @ ..] => {
                let here = self.by_fact(x, y, case.gives)?;
                let later = self.chosen_each(rest, x, y)?;
                Ok(self.from_first(case.guard, &here, &later)?)
            }
        }
    }

    // A choice by what a test comes to.
    fn chosen(
        &mut self,
        tests: &Cases<Form>,
        x: &Cases<Form>,
        y: &Cases<Form>,
    ) -> Result<Cases<Form>, Fault>
        ensures { IfOk result (λ cs. Makes self.old self.new (λ v. cases_of v cs ≡ MF.then_cases (cases_of v tests.now) (E.by_fact (cases_of v x.now) (cases_of v y.now)))) }
    {
        let each = self.chosen_each(&tests.cases, x, y)?;
        Ok(self.with_rest(tests.rest, each)?)
    }

    // The first where a key is the value, else the second.
    fn switched(
        &mut self,
        tables: &Tables<'_>,
        widths: &[u32],
        key: Form,
        value: Form,
        x: &Cases<Form>,
        y: &Cases<Form>,
    ) -> Result<Cases<Form>, Fault>
        ensures { IfOk result (λ cs. MakesApart self.old self.new (λ v. cases_of v cs ≡ switch_case (types_in tables.now) (specs_in tables.now) (known_in v tables.now) widths.now (form_of v value) (cases_of v x.now) (cases_of v y.now) (form_of v key))) }
    {
        let tests = self.operated(tables, widths, Operator::Equals, &[key, value])?;
        let both = self.chosen(&tests, x, y)?;
        Ok(self.merged(&both)?)
    }

    // The same by each key.
    #[tactic(auto, using(crate::proofs::AppliedSteps::case_steps))]
    fn switched_each(
        &mut self,
        tables: &Tables<'_>,
        widths: &[u32],
        cases: &[Case<Form>],
        value: Form,
        x: &Cases<Form>,
        y: &Cases<Form>,
    ) -> Result<Cases<Form>, Fault>
        ensures { IfOk result (λ cs. MakesApart self.old self.new (λ v. cases_of v cs ≡ MF.from_each (form_cases v cases.now) (switch_case (types_in tables.now) (specs_in tables.now) (known_in v tables.now) widths.now (form_of v value) (cases_of v x.now) (cases_of v y.now)))) }
    {
        match cases {
            [] => Ok(nothing_said(self.alloc())),
            [case, rest @ ..] => {
                let here = self.switched(tables, widths, case.gives, value, x, y)?;
                let later = self.switched_each(tables, widths, rest, value, x, y)?;
                Ok(self.from_first(case.guard, &here, &later)?)
            }
        }
    }

    // The same by what keys come to.
    pub(crate) fn switched_all(
        &mut self,
        tables: &Tables<'_>,
        widths: &[u32],
        keys: &Cases<Form>,
        value: Form,
        x: &Cases<Form>,
        y: &Cases<Form>,
    ) -> Result<Cases<Form>, Fault>
        ensures { IfOk result (λ cs. MakesApart self.old self.new (λ v. cases_of v cs ≡ MF.then_cases (cases_of v keys.now) (switch_case (types_in tables.now) (specs_in tables.now) (known_in v tables.now) widths.now (form_of v value) (cases_of v x.now) (cases_of v y.now)))) }
    {
        let each = self.switched_each(tables, widths, &keys.cases, value, x, y)?;
        Ok(self.with_rest(keys.rest, each)?)
    }
}
