//! What people are shown of questions: the values of a rule's variables and of its result.

use crate::asking::{Asked, Asker};
use crate::faults::NoQuestion;
use crate::questions::{Question, RuleQuestions};
use core_rule_sets::trie_again::BindingId;
use core_types::{BuiltinType, Type, TypeId};
use spec_calls::conditions::Condition;
use spec_cases::arena::Formulas;
use spec_cases::faults::Fault;
use spec_cases::forms::Form;
use spec_cases::formulas::{Fact, FactNode, Integer, Operand, PlaceId, Word};
use spec_cases::sorts::{Sort, TypeSort};
use spec_steps::placing::{form_at, result_form};
use spec_texts::shown::Shown;
use spec_texts::wanted::wanted_of;
use std::alloc::{AllocError, Global};

/// What a value is to a solver.
#[derive(Clone, Copy)]
pub(crate) enum Held {
    /// A formula.
    Formula(Operand),
    /// The word at a place, which may have any width.
    AnyWord(PlaceId),
    /// Nothing that has a text.
    Nothing,
}

/// What a rule's variables and its result stand for.
#[derive(Drop)]
pub(crate) struct Named {
    /// The variables, by name.
    pub(crate) variables: Vec<(String, Held)>,
    /// The result.
    pub(crate) result: Held,
}

/// What the variables of a rule and its result stand for, in a condition.
pub(crate) fn named_values(
    formulas: &mut Formulas,
    asker: Asker<'_>,
    asked: Asked<'_>,
    condition: &Condition,
) -> Result<Named, NoQuestion> {
    let demands = asker.demands(asked, condition);
    let done = condition.calls(asker.alloc)?;
    let mut variables = Vec::new(asker.alloc);
    for variable in asked.variables {
        if let Some(site) = site_in(condition, variable.site.index()) {
            let form = form_at(formulas, &demands, &done, site)?;
            let name = String::from_str(asker.alloc, variable.name)?;
            variables.push((name, held_by(asker, form)))?;
        }
    }
    let form = result_form(formulas, &demands, &done, demands.result)?;
    Ok(Named {
        variables,
        result: held_by(asker, form),
    })
}

/// Where a site of the rule's set stands in a condition.
pub(crate) fn site_in(condition: &Condition, site: usize) -> Option<u32> {
    match condition.sites.get(site) {
        Some(place) => *place,
        None => None,
    }
}

// What values of a type stand for.
fn sort_of(sorts: &[TypeSort], ty: TypeId) -> Option<&Sort> {
    for known in sorts {
        if known.ty.0 == ty.0 {
            return Some(&known.sort);
        }
    }
    None
}

/// The widths that a type's words have.
pub(crate) fn widths_of(sorts: &[TypeSort], ty: TypeId) -> &[u32] {
    match sort_of(sorts, ty) {
        Some(Sort::WordsAmong(widths)) => widths,
        _ => &[],
    }
}

// What a value is to a solver.
fn held_by(asker: Asker<'_>, form: Form) -> Held {
    match form {
        Form::Fact(fact) => Held::Formula(Operand::Fact(fact)),
        Form::Integer(integer) => Held::Formula(Operand::Integer(integer)),
        Form::Word(width, word) => Held::Formula(Operand::Word(width, word)),
        Form::AnyOf { ty, place } => held_at(asker, ty, place),
        Form::Variant { .. } | Form::Struct { .. } | Form::SomeAt { .. } => Held::Nothing,
    }
}

// What the value of a type at a place is.
fn held_at(asker: Asker<'_>, ty: TypeId, place: PlaceId) -> Held {
    if let Some(Type::Builtin(BuiltinType::Bool)) = asker.lowered.tyenv.types.get(ty.index()) {
        return Held::Formula(Operand::Fact(Fact::At(place)));
    }
    match sort_of(&asker.known.data.sorts, ty) {
        Some(Sort::Truths) => Held::Formula(Operand::Fact(Fact::At(place))),
        Some(Sort::Integers) => Held::Formula(Operand::Integer(Integer::At(place))),
        Some(Sort::Words(width)) => {
            Held::Formula(Operand::Word(*width, Word::At(place, *width)))
        }
        Some(Sort::WordsAmong(_)) => Held::AnyWord(place),
        None => Held::Nothing,
    }
}

// How wide the word at a place is, by facts.
fn width_in(formulas: &Formulas, facts: &[Fact], place: PlaceId) -> Result<Option<u32>, Fault> {
    for fact in facts {
        if let Fact::AsWide(known, width) = fact {
            if formulas.same_place(*known, place)? {
                return Ok(Some(*width));
            }
        }
    }
    Ok(None)
}

impl Held {
    // The formula that it is by these facts.
    fn operand(self, formulas: &Formulas, facts: &[Fact]) -> Result<Option<Operand>, Fault> {
        match self {
            Held::Formula(operand) => Ok(Some(operand)),
            Held::AnyWord(place) => match width_in(formulas, facts, place)? {
                Some(width) => Ok(Some(Operand::Word(width, Word::At(place, width)))),
                None => Ok(None),
            },
            Held::Nothing => Ok(None),
        }
    }
}

/// What people are shown of a question that has an answer `sat`.
#[derive(Drop)]
pub struct ShownQuestion {
    /// The constants of its text, each with the path of what it is: an argument `arg0`, its variant's number from 1 `arg0.tag`, a field of
    /// a variant `arg0.v2.0`, or of a struct `arg0.0`.
    pub names: Vec<(String, String)>,
    /// The variables of the rule, then its `result`, then what its spec wants the result to be, called `wanted`: each with a formula for
    /// it that may stand behind the text.
    pub values: Vec<(String, String)>,
}

impl RuleQuestions {
    /// What people are shown of a question about this rule that has an answer `sat`: nothing where that has no text.
    ///
    /// # Errors
    ///
    /// Where memory is refused.
    pub fn shown(&self, alloc: Global, question: &Question) -> Result<ShownQuestion, AllocError> {
        match self.shown_behind(alloc, question) {
            Ok(shown) => Ok(shown),
            Err(NoQuestion::Memory(refused)) => Err(refused),
            Err(NoQuestion::Because(_)) => Ok(ShownQuestion {
                names: Vec::new(alloc),
                values: Vec::new(alloc),
            }),
        }
    }

    // What is shown behind its text.
    fn shown_behind(
        &self,
        alloc: Global,
        question: &Question,
    ) -> Result<ShownQuestion, NoQuestion> {
        let excluded = if question.is_required {
            &self.beside
        } else {
            &self.excluded
        };
        let all = with_excluded(alloc, &question.facts, excluded)?;
        let mut behind = Shown::of(&self.formulas, &all)?;
        let names = behind.constants()?;
        let mut values = Vec::new(alloc);
        for (name, held) in &self.named.variables {
            let operand = held.operand(&self.formulas, &question.facts)?;
            add_value(alloc, name, operand, &mut behind, &mut values)?;
        }
        let given = self.named.result.operand(&self.formulas, &question.facts)?;
        add_value(alloc, "result", given, &mut behind, &mut values)?;
        let wanted = self.wanted(question, given)?;
        add_value(alloc, "wanted", wanted, &mut behind, &mut values)?;
        Ok(ShownQuestion { names, values })
    }

    // What the goal wants the result to be equal to, if it is so simple. What a pure call requires wants nothing of the result.
    fn wanted(
        &self,
        question: &Question,
        given: Option<Operand>,
    ) -> Result<Option<Operand>, NoQuestion> {
        if question.is_required {
            return Ok(None);
        }
        match (goal_of(&self.formulas, &question.facts)?, given) {
            (Some(goal), Some(given)) => Ok(wanted_of(&self.formulas, goal, given)?),
            _ => Ok(None),
        }
    }
}

/// Facts, and what is so beside them.
pub(crate) fn with_excluded(
    alloc: Global,
    facts: &[Fact],
    excluded: &[Fact],
) -> Result<Vec<Fact>, AllocError> {
    let mut all = Vec::from_slice(alloc, facts)?;
    all.extend_from_slice(excluded)?;
    Ok(all)
}

// Adds a formula, if it has a text.
fn add_value(
    alloc: Global,
    name: &str,
    operand: Option<Operand>,
    behind: &mut Shown<'_>,
    values: &mut Vec<(String, String)>,
) -> Result<(), NoQuestion> {
    if let Some(operand) = operand {
        if let Some(text) = behind.operand(operand)? {
            values.push((String::from_str(alloc, name)?, text))?;
        }
    }
    Ok(())
}

// What a question asks to be shown: its last fact is that it isn't so.
fn goal_of(formulas: &Formulas, facts: &[Fact]) -> Result<Option<Fact>, Fault> {
    match facts.last() {
        Some(Fact::Made(node)) => match formulas.fact_node(*node)? {
            FactNode::No(goal) => Ok(Some(*goal)),
            _ => Ok(None),
        },
        _ => Ok(None),
    }
}
