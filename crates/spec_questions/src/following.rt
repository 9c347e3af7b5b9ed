//! Where all is followed that specs say of a rule: only there a question that may be satisfied tells that the rule is wrong.

use crate::above::excluded_among;
use crate::asking::{Asked, Asker, asked_of};
use crate::branches::Branches;
use crate::faults::NoQuestion;
use crate::questions::Question;
use crate::required::asked_required;
use crate::shown::{named_values, with_excluded};
use crate::verdicts::may_be_wrong;
use spec_asked::asking::AskedCondition;
use spec_calls::conditions::Condition;
use spec_cases::arena::Formulas;
use spec_cases::asking::{Asking, constant_of, literal_of};
use spec_cases::faults::Fault;
use spec_cases::forms::Form;
use spec_cases::formulas::Fact;
use spec_cases::known::Known;
use spec_cases::learning::nothing_known;
use spec_cases::operators::Operator;
use spec_cases::sorts::widths_of;
use spec_cases::steps::{Constraint, Said, Step};
use spec_cases::tables::Tables;
use spec_texts::texts::text_of;

/// Whether it is to be asked too where all is followed: answers say that a question may not be so.
pub(crate) fn is_asked_elsewhere(asker: Asker<'_>, questions: &[Question]) -> bool {
    match asker.wanted.answers {
        Some(answers) => may_be_wrong(answers, questions),
        None => false,
    }
}

/// The texts of a rule's questions where all is followed that is said, by their places: none where that is so anyway. It is asked once
/// more for these, in formulas of its own.
pub(crate) fn elsewhere_texts(
    asker: Asker<'_>,
    asked: Asked<'_>,
    condition: &Condition,
) -> Result<Vec<Option<String>>, NoQuestion> {
    let mut formulas = Formulas::new(asker.alloc);
    // As in what was asked, so that constants have the same numbers, by which values are asked for behind a text.
    let _named = named_values(&mut formulas, asker, asked, condition)?;
    let _excluded = excluded_among(&mut formulas, asker, asked, condition)?;
    let _required = asked_required(&mut formulas, asker, asked, condition)?;
    let found = asked_of(&mut formulas, asker, asked, condition)?;
    texts_followed(&mut formulas, asker, &found.excluded, &found)
}

/// The same of the questions about what pure calls require.
pub(crate) fn elsewhere_required(
    asker: Asker<'_>,
    asked: Asked<'_>,
    condition: &Condition,
) -> Result<Vec<Option<String>>, NoQuestion> {
    let mut formulas = Formulas::new(asker.alloc);
    let _named = named_values(&mut formulas, asker, asked, condition)?;
    let excluded = excluded_among(&mut formulas, asker, asked, condition)?;
    match asked_required(&mut formulas, asker, asked, condition)? {
        Some(required) => texts_followed(&mut formulas, asker, &excluded, &required.asked),
        None => Ok(Vec::new(asker.alloc)),
    }
}

// The texts of questions where all is followed that is said.
fn texts_followed(
    formulas: &mut Formulas,
    asker: Asker<'_>,
    excluded: &[Fact],
    found: &AskedCondition,
) -> Result<Vec<Option<String>>, NoQuestion> {
    let branches = Branches::of(asker, found)?;
    let mut texts = Vec::new(asker.alloc);
    for question in &found.questions {
        let place = branches.place(question.facts.len());
        let steps = steps_to(&found.steps, place);
        let text = text_followed(formulas, asker, &question.facts, excluded, steps)?;
        texts.push(text)?;
    }
    Ok(texts)
}

/// The steps up to a goal, by its place among goals.
pub(crate) fn steps_to(steps: &[Step], place: usize) -> &[Step] {
    let mut goals = 0usize;
    let mut count = 0usize;
    for step in steps {
        count = count.saturating_add(1);
        if let Step::Shown(_) = step {
            if goals == place {
                return steps.get(..count).unwrap_or(steps);
            }
            goals = goals.saturating_add(1);
        }
    }
    steps
}

// The text of a question's facts, and that all is followed of the steps up to its goal, unless it is so anyway.
fn text_followed(
    formulas: &mut Formulas,
    asker: Asker<'_>,
    facts: &[Fact],
    excluded: &[Fact],
    steps: &[Step],
) -> Result<Option<String>, NoQuestion> {
    if let Some(Fact::Known(false)) = facts.last() {
        return Ok(None);
    }
    let followed = all_followed(formulas, asker, facts, steps)?;
    if followed.known() == Some(true) {
        return Ok(None);
    }
    let mut all = with_excluded(formulas.alloc(), facts, excluded)?;
    all.push(followed)?;
    Ok(Some(text_of(formulas, &all)?))
}

// That all is followed of steps, by what facts tell. Of a goal before the last step nothing is lost: all of it is assumed.
fn all_followed(
    formulas: &mut Formulas,
    asker: Asker<'_>,
    facts: &[Fact],
    steps: &[Step],
) -> Result<Fact, Fault> {
    let known = known_by(formulas, facts)?;
    let mut all = Fact::Known(true);
    for (place, step) in steps.iter().enumerate() {
        let is_last = place.saturating_add(1) == steps.len();
        if is_last || !matches!(step, Step::Shown(_)) {
            let fact = step_followed(formulas, asker, &known, step)?;
            all = formulas.both_of(all, fact)?;
        }
    }
    Ok(all)
}

// What facts tell of places.
fn known_by(formulas: &Formulas, facts: &[Fact]) -> Result<Known, Fault> {
    let mut known = nothing_known(formulas.alloc());
    for fact in facts {
        known = formulas.learned(*fact, &known)?;
    }
    Ok(known)
}

// That all is followed that a step says: nothing else may come of it.
fn step_followed(
    formulas: &mut Formulas,
    asker: Asker<'_>,
    known: &Known,
    step: &Step,
) -> Result<Fact, Fault> {
    let tables = Tables {
        types: &asker.lowered.tyenv.types,
        sorts: asker.tables.sorts,
        functions: asker.tables.functions,
        known,
    };
    let asking = Asking {
        tables: &tables,
        constants: asker.tables.constants,
        exprs: asker.tables.exprs,
    };
    match step {
        Step::SplitAt { .. } => Ok(Fact::Known(true)),
        Step::ToldAs { constraint, .. } => Ok(Fact::Known(is_told(&asking, *constraint)?)),
        Step::ToldSame { first, second } => same_followed(formulas, &asking, *first, *second),
        Step::Assumed(said) | Step::Shown(said) => said_followed(formulas, &asking, *said),
        Step::AssumedUnder { under, said } => under_followed(formulas, &asking, under, *said),
    }
}

// Whether a constraint tells what a value is: an integer or a constant that stands for nothing tells nothing.
fn is_told(asking: &Asking<'_>, constraint: Constraint) -> Result<bool, Fault> {
    match constraint {
        Constraint::ConstInt { val, ty } => Ok(literal_of(asking.tables.sorts, val, ty)?.is_some()),
        Constraint::ConstPrim { val } => Ok(constant_of(asking.constants, val).is_some()),
        Constraint::Variant { .. }
        | Constraint::Struct { .. }
        | Constraint::ConstBool { .. }
        | Constraint::Some => Ok(true),
    }
}

// That it is followed whether values are the same.
fn same_followed(
    formulas: &mut Formulas,
    asking: &Asking<'_>,
    first: Form,
    second: Form,
) -> Result<Fact, Fault> {
    let widths = widths_of(formulas.alloc(), asking.tables.sorts)?;
    let tests = formulas.operated(asking.tables, &widths, Operator::Equals, &[first, second])?;
    formulas.none_of(tests.rest)
}

// That an expression is followed.
fn said_followed(formulas: &mut Formulas, asking: &Asking<'_>, said: Said) -> Result<Fact, Fault> {
    let cases = formulas.come_to(asking, said)?;
    formulas.none_of(cases.rest)
}

// That an expression is followed, and the others under which it is assumed.
fn under_followed(
    formulas: &mut Formulas,
    asking: &Asking<'_>,
    under: &[Said],
    said: Said,
) -> Result<Fact, Fault> {
    let mut all = said_followed(formulas, asking, said)?;
    for other in under {
        let fact = said_followed(formulas, asking, *other)?;
        all = formulas.both_of(all, fact)?;
    }
    Ok(all)
}
