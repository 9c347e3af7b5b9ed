//! Cases of one sort as one, so that a choice among words of one width is one case.
ghost use Rattle.std.specs.Prelude.{◌≡◌, ◌++◌, option_map, IfOk, OnOk};
ghost use Rattle.model_questions.specs.Forms as M;
ghost use Rattle.spec_cases.specs.Namings.{fact_of, form_of, Makes};
ghost use Rattle.spec_cases.specs.CaseViews.{case_of, cases_of, form_cases};
ghost use Rattle.spec_cases.specs.Merging.{choice_of, pair_of};

use crate::arena::Formulas;
use crate::cases::{Case, Cases};
use crate::faults::Fault;
use crate::forms::Form;
use crate::formulas::{Fact, Integer, IntegerNode, Word, WordNode};

/// Two values of one sort.
#[derive(Clone, Copy)]
pub enum Pair {
    /// Truths.
    Facts(Fact, Fact),
    /// Integers.
    Integers(Integer, Integer),
    /// Words of a width.
    Words(u32, Word, Word),
}

impl Form {
    // With a truth.
    fn beside_fact(self, fact: Fact) -> Option<Pair>
        ensures { result ≡ pair_of (Form.Fact fact) self }
    {
        match self {
            Form::Fact(other) => Some(Pair::Facts(fact, other)),
            Form::Integer(_)
            | Form::Word(_, _)
            | Form::Variant { .. }
            | Form::Struct { .. }
            | Form::AnyOf { .. }
            | Form::SomeAt { .. } => None,
        }
    }

    // With an integer.
    fn beside_integer(self, integer: Integer) -> Option<Pair>
        ensures { result ≡ pair_of (Form.Integer integer) self }
    {
        match self {
            Form::Integer(other) => Some(Pair::Integers(integer, other)),
            Form::Fact(_)
            | Form::Word(_, _)
            | Form::Variant { .. }
            | Form::Struct { .. }
            | Form::AnyOf { .. }
            | Form::SomeAt { .. } => None,
        }
    }

    // With a word.
    fn beside_word(self, width: u32, word: Word) -> Option<Pair>
        ensures { result ≡ pair_of (Form.Word width word) self }
    {
        match self {
            Form::Word(other_width, other) => {
                if width == other_width {
                    Some(Pair::Words(width, word, other))
                } else {
                    None
                }
            }
            Form::Fact(_)
            | Form::Integer(_)
            | Form::Variant { .. }
            | Form::Struct { .. }
            | Form::AnyOf { .. }
            | Form::SomeAt { .. } => None,
        }
    }

    // Both, where they are of one sort.
    fn beside(self, other: Form) -> Option<Pair>
        ensures { result ≡ pair_of self other }
    {
        match self {
            Form::Fact(fact) => other.beside_fact(fact),
            Form::Integer(integer) => other.beside_integer(integer),
            Form::Word(width, word) => other.beside_word(width, word),
            Form::Variant { .. } | Form::Struct { .. } | Form::AnyOf { .. } | Form::SomeAt { .. } =>
                None,
        }
    }
}

impl Formulas {
    // The first where the guard is so, else the second.
    fn choice(&mut self, guard: Fact, pair: Pair) -> Result<Form, Fault>
        ensures { IfOk result (λ f. Makes self.old self.new (λ v. form_of v f ≡ choice_of v (fact_of v guard) pair)) }
    {
        match pair {
            Pair::Facts(a, b) => {
                let first = self.both_of(guard, a)?;
                let other = self.none_of(guard)?;
                let second = self.both_of(other, b)?;
                Ok(Form::Fact(self.one_of(first, second)?))
            }
            Pair::Integers(a, b) => Ok(Form::Integer(self.made_integer(IntegerNode::Either(
                guard, a, b,
            ))?)),
            Pair::Words(width, a, b) => Ok(Form::Word(
                width,
                self.made_word(WordNode::Either(guard, a, b))?,
            )),
        }
    }

    // Two cases of one sort as one.
    #[tactic(auto, using(crate::proofs::PairSteps::either_by_pair))]
    fn either_of(&mut self, c: Case<Form>, d: Case<Form>) -> Result<Option<Case<Form>>, Fault>
        ensures { IfOk result (λ o. Makes self.old self.new (λ v. option_map (case_of v) o
            ≡ M.either_of (fact_of v c.guard) (fact_of v d.guard) (form_of v c.gives) (form_of v d.gives))) }
    {
        match c.gives.beside(d.gives) {
            None => Ok(None),
            Some(pair) => {
                let guard = self.one_of(c.guard, d.guard)?;
                let gives = self.choice(c.guard, pair)?;
                Ok(Some(Case { guard, gives }))
            }
        }
    }

    // Adds cases with one more, which is merged into the first of its sort.
    #[tactic(auto, using(crate::proofs::PairSteps::merge_steps))]
    fn add_merged(
        &mut self,
        case: Case<Form>,
        cases: &[Case<Form>],
        out: &mut Vec<Case<Form>>,
    ) -> Result<(), Fault>
        ensures { OnOk result (Makes self.old self.new (λ v. form_cases v out.new.items ≡ form_cases v out.old.items ++ M.merged_in (case_of v case) (form_cases v cases.now))) }
    {
        match cases {
            [] => {
                out.push(case)?;
                Ok(())
            }
            [first, rest @ ..] => match self.either_of(case, *first)? {
                Some(both) => {
                    out.push(both)?;
                    out.extend_from_slice(rest)?;
                    Ok(())
                }
                None => {
                    out.push(*first)?;
                    Ok(self.add_merged(case, rest, out)?)
                }
            },
        }
    }

    // Cases with those of one sort as one.
    fn merged_each(&mut self, cases: &[Case<Form>]) -> Result<Vec<Case<Form>>, Fault>
        ensures { IfOk result (λ cs. Makes self.old self.new (λ v. form_cases v cs.items ≡ M.merged_all (form_cases v cases.now))) }
    {
        match cases {
            [] => Ok(Vec::new(self.alloc())),
            [first, rest @ ..] => {
                let later = self.merged_each(rest)?;
                let mut out = Vec::new(self.alloc());
                self.add_merged(*first, &later, &mut out)?;
                Ok(out)
            }
        }
    }

    /// Cases with those of one sort as one.
    ///
    /// # Errors
    ///
    /// As `made_fact`.
    pub fn merged(&mut self, cases: &Cases<Form>) -> Result<Cases<Form>, Fault>
        ensures { IfOk result (λ cs. Makes self.old self.new (λ v. cases_of v cs ≡ M.merged (cases_of v cases.now))) }
    {
        let each = self.merged_each(&cases.cases)?;
        Ok(Cases {
            cases: each,
            rest: cases.rest,
        })
    }
}
