//! The steps in which a condition is asked: what is assumed of values, in order, and what is shown. Values, places and expressions stand
//! in them by their numbers.
ghost use Rattle.std.specs.Prelude.{◌≡◌};
ghost use Rattle.spec_cases.specs.Steps.{answer_within, said_within, saids_within, step_within, steps_within};

use crate::expressions::ExprId;
use crate::forms::{FieldsId, Form};
use crate::formulas::PlaceId;
use crate::literals::Literal;
use core_types::{Sym, TypeId, VariantId};

/// What a named constant stands for.
#[derive(Clone, Copy)]
pub struct Constant {
    /// Its name.
    pub name: Sym,
    /// What it stands for.
    pub value: Literal,
}

/// What a rule asks of a value: the tests that it may fail, as a rule set has them.
#[derive(Clone, Copy)]
pub enum Constraint {
    /// That it is of this variant.
    Variant {
        /// The enum.
        ty: TypeId,
        /// The variant.
        variant: VariantId,
        /// How many fields the variant has.
        fields: usize,
    },
    /// That it is this struct, as each value of the type is.
    Struct {
        /// The struct.
        ty: TypeId,
        /// How many fields the struct has.
        fields: usize,
    },
    /// That it is this truth value.
    ConstBool {
        /// The value.
        val: bool,
        /// Its type.
        ty: TypeId,
    },
    /// That it is this integer.
    ConstInt {
        /// The value.
        val: i128,
        /// Its type.
        ty: TypeId,
    },
    /// That it is this named constant.
    ConstPrim {
        /// Its name.
        val: Sym,
    },
    /// That it is there.
    Some,
}

/// An expression of a spec, on what arguments and which result.
#[derive(Clone, Copy)]
pub struct Said {
    /// The arguments.
    pub args: FieldsId,
    /// The result, where there is one.
    pub answer: Option<Form>,
    /// The expression.
    pub expr: ExprId,
}

/// A step.
pub enum Step {
    /// A place is asked at each of its widths by itself.
    SplitAt {
        /// The type of what stands there.
        ty: TypeId,
        /// The place.
        place: PlaceId,
    },
    /// What a value is, is told by a constraint.
    ToldAs {
        /// The value.
        form: Form,
        /// The constraint.
        constraint: Constraint,
    },
    /// What a value is, is told by another one.
    ToldSame {
        /// The value.
        first: Form,
        /// The other one.
        second: Form,
    },
    /// An expression is assumed.
    Assumed(Said),
    /// It is assumed where others hold.
    AssumedUnder {
        /// The others.
        under: Vec<Said>,
        /// The expression.
        said: Said,
    },
    /// It is to be shown.
    Shown(Said),
}

impl Drop for Step {
    fn drop(self) {
        match self {
            Step::SplitAt { ty: _, place: _ } => {}
            Step::ToldAs {
                form: _,
                constraint: _,
            } => {}
            Step::ToldSame {
                first: _,
                second: _,
            } => {}
            Step::Assumed(_) => {}
            Step::AssumedUnder { under: _, said: _ } => {}
            Step::Shown(_) => {}
        }
    }
}

fn is_answer_within(answer: Option<Form>, count: usize) -> bool
    ensures { result ≡ answer_within count answer }
{
    match answer {
        None => true,
        Some(form) => form.is_within(count),
    }
}

impl Said {
    // Whether an arena and a list of expressions, of so many each, have its numbers.
    fn is_within(self, count: usize, exprs: usize) -> bool
        ensures { result ≡ said_within count exprs self }
    {
        (self.args.0 as usize) < count
            && is_answer_within(self.answer, count)
            && (self.expr.0 as usize) < exprs
    }
}

fn are_saids_within(saids: &[Said], count: usize, exprs: usize) -> bool
    ensures { result ≡ saids_within count exprs saids.now }
{
    saids.iter().all(|said| said.is_within(count, exprs))
}

impl Step {
    // Whether an arena and a list of expressions, of so many each, have its numbers.
    fn is_within(&self, count: usize, exprs: usize) -> bool
        ensures { result ≡ step_within count exprs self.now }
    {
        match self {
            Step::SplitAt { place, .. } => (place.0 as usize) < count,
            Step::ToldAs { form, .. } => form.is_within(count),
            Step::ToldSame { first, second } => first.is_within(count) && second.is_within(count),
            Step::Assumed(said) | Step::Shown(said) => said.is_within(count, exprs),
            Step::AssumedUnder { under, said } => {
                are_saids_within(under, count, exprs) && said.is_within(count, exprs)
            }
        }
    }
}

/// Whether an arena and a list of expressions, of so many each, have the numbers of all steps. What these stand for is then settled by
/// the arena and the list, whatever is added.
pub fn are_steps_within(steps: &[Step], count: usize, exprs: usize) -> bool
    ensures { result ≡ steps_within count exprs steps.now }
{
    steps.iter().all(|step| step.is_within(count, exprs))
}
