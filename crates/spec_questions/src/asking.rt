//! What is asked of a rule.
ghost use Rattle.std.specs.Prelude.{◌≡◌, ◌<◌, length, IsTrue, IfOk};
ghost use Rattle.std.specs.List.{list_all};
ghost use Rattle.spec_questions.specs.Right.{asked_facts, facts_in, is_asked_or_plain, AsksFacts};

use crate::above::excluded_among;
use crate::branches::Branches;
use crate::faults::NoQuestion;
use crate::following::{elsewhere_texts, is_asked_elsewhere};
use crate::questions::{Known, LeftOut, Question, Wanted};
use crate::required::{is_multi_required, required_questions};
use crate::shown::{Named, named_values};
use crate::telling::Teller;
use crate::widths::never_taken;
use core_rule_sets::trie_again::{BindingId, Rule};
use core_types::TypeId;
use cranelift_isle::lower::{Lowered, LoweredTerm};
use spec_asked::asking::{AskedCondition, asked_demands};
use spec_asked::lowered::lowered_questions;
use spec_asked::tables::SpecTables;
use spec_calls::conditions::{Condition, condition_of};
use spec_cases::arena::Formulas;
use spec_cases::formulas::Fact;
use spec_steps::demands::Demands;
use spec_tables::specs::Specs;
use std::alloc::{AllocError, Global};

/// What questions are made with.
#[derive(Clone, Copy)]
pub(crate) struct Asker<'a> {
    pub(crate) alloc: Global,
    pub(crate) lowered: &'a Lowered,
    pub(crate) specs: &'a Specs<'a>,
    pub(crate) known: &'a Known,
    pub(crate) tables: SpecTables<'a>,
    pub(crate) wanted: Wanted<'a>,
}

/// A variable of a rule.
#[derive(Clone, Copy)]
pub(crate) struct Variable<'r> {
    /// Its name.
    pub(crate) name: &'r str,
    /// The site that holds its value.
    pub(crate) site: BindingId,
    /// Its type.
    pub(crate) ty: TypeId,
}

/// A rule that is asked about.
#[derive(Clone, Copy)]
pub(crate) struct Asked<'r> {
    pub(crate) term: &'r LoweredTerm,
    pub(crate) rule: &'r Rule,
    pub(crate) variables: &'r [Variable<'r>],
}

/// What was asked of a rule.
#[derive(Drop)]
pub(crate) struct Tried {
    /// The formulas of its questions.
    pub(crate) formulas: Formulas,
    /// What its variables and its result stand for.
    pub(crate) named: Named,
    /// That no rule of greater priority matches, where that is asked.
    pub(crate) excluded: Vec<Fact>,
    /// The same, as the texts of the questions about pure calls have it.
    pub(crate) beside: Vec<Fact>,
    /// Whether the questions are about the rule's own condition.
    pub(crate) is_own: bool,
    /// The questions: one at least.
    pub(crate) questions: Vec<Question>,
    /// Those whether pure calls on its right side are as their terms require.
    pub(crate) required: Vec<Question>,
    /// The widths of arguments at which no call takes it.
    pub(crate) left_out: Vec<LeftOut>,
    /// Why not all that it calls is followed.
    pub(crate) unfollowed: Option<String>,
}

impl<'a> Asker<'a> {
    /// The tables of a rule's condition.
    pub(crate) fn demands<'d>(self, asked: Asked<'d>, condition: &'d Condition) -> Demands<'d>
    where
        'a: 'd,
    {
        Demands {
            types: &self.lowered.tyenv.types,
            signatures: &self.known.signatures,
            sorts: self.tables.sorts,
            constants: self.tables.constants,
            said: self.tables.said,
            bindings: &condition.bindings,
            made: &condition.demands.made,
            term: asked.term.id,
            constraints: &condition.demands.constraints,
            equalities: &condition.demands.equalities,
            impure: &condition.demands.impure,
            result: condition.demands.result,
        }
    }
}

/// The questions about a rule.
///
/// # Errors
///
/// Why there are none.
pub(crate) fn ask(asker: Asker<'_>, asked: Asked<'_>) -> Result<Tried, NoQuestion>
    ensures some { IfOk result (λ tried. 0 < length tried.questions.items) }
    // where the rule's own condition is asked about, these are all questions
    ensures whole { IfOk result (λ tried. IsTrue tried.is_own → AsksFacts asker.entry.lowered.now asker.entry.known.now.signatures.items asker.entry.tables asked.entry.term.now tried.formulas asked.entry.rule.now (facts_in tried.questions.items) tried.excluded.items) }
    ensures plain { IfOk result (λ tried. IsTrue (list_all is_asked_or_plain tried.questions.items)) }
{
    let Asked { term, rule, .. } = asked;
    let condition = condition_of(
        asker.alloc,
        asker.lowered,
        asker.specs,
        &asker.known.data,
        term,
        rule,
    )?;
    if is_multi_required(asker, &condition) {
        return Err(NoQuestion::Because("what its call of a multi term requires isn't asked"));
    }
    let mut formulas = Formulas::new(asker.alloc);
    let named = named_values(&mut formulas, asker, asked, &condition)?;
    let beside = excluded_among(&mut formulas, asker, asked, &condition)?;
    let required = required_questions(&mut formulas, asker, asked, &condition, &named, &beside)?;
    let found = asked_of(&mut formulas, asker, asked, &condition)?;
    let told = told_of(&formulas, asker, asked, &condition, &named, &found)?;
    let (questions, left_out) = told;
    Ok(Tried {
        formulas,
        named,
        excluded: found.excluded,
        beside,
        is_own: condition.is_own,
        questions,
        required,
        left_out,
        unfollowed: condition.unfollowed,
    })
}

/// The facts of all questions, and the steps that they are of.
pub(crate) fn asked_of(
    formulas: &mut Formulas,
    asker: Asker<'_>,
    asked: Asked<'_>,
    condition: &Condition,
) -> Result<AskedCondition, NoQuestion>
    ensures { IfOk result (λ r. IsTrue condition.now.is_own → AsksFacts asker.entry.lowered.now asker.entry.known.now.signatures.items asker.entry.tables asked.entry.term.now formulas.new asked.entry.rule.now (asked_facts r.questions.items) r.excluded.items) }
{
    if condition.is_own {
        return Ok(lowered_questions(
            formulas,
            asker.lowered,
            &asker.known.signatures,
            &asker.tables,
            asked.term,
            asked.rule,
            true,
            asker.wanted.above,
        )?);
    }
    let excluded = excluded_among(formulas, asker, asked, condition)?;
    let demands = asker.demands(asked, condition);
    Ok(asked_demands(formulas, &demands, &asker.tables, true, excluded)?)
}

// The questions in words and texts, and the widths of arguments at which no call takes the rule. Where one may not be so by the answers,
// also whether it is followed.
fn told_of(
    formulas: &Formulas,
    asker: Asker<'_>,
    asked: Asked<'_>,
    condition: &Condition,
    named: &Named,
    found: &AskedCondition,
) -> Result<(Vec<Question>, Vec<LeftOut>), NoQuestion>
    ensures some { IfOk result (λ told. 0 < length told.0.items) }
    ensures same { IfOk result (λ told. facts_in told.0.items ≡ asked_facts found.now.questions.items) }
    ensures plain { IfOk result (λ told. IsTrue (list_all is_asked_or_plain told.0.items)) }
{
    let first = told_with(formulas, asker, asked, condition, named, found, &[])?;
    if !is_asked_elsewhere(asker, &first.0) {
        return Ok(first);
    }
    let elsewhere = elsewhere_texts(asker, asked, condition)?;
    told_with(formulas, asker, asked, condition, named, found, &elsewhere)
}

// The questions in words and texts, with these that ask where all is followed.
fn told_with(
    formulas: &Formulas,
    asker: Asker<'_>,
    asked: Asked<'_>,
    condition: &Condition,
    named: &Named,
    found: &AskedCondition,
    elsewhere: &[Option<String>],
) -> Result<(Vec<Question>, Vec<LeftOut>), NoQuestion>
    ensures some { IfOk result (λ told. 0 < length told.0.items) }
    ensures same { IfOk result (λ told. facts_in told.0.items ≡ asked_facts found.now.questions.items) }
    ensures plain { IfOk result (λ told. IsTrue (list_all is_asked_or_plain told.0.items)) }
{
    let branches = Branches::of(asker, found)?;
    let teller = Teller {
        formulas,
        asker,
        condition,
        named,
        excluded: &found.excluded,
        branches: &branches,
        elsewhere,
        is_required: false,
    };
    let mut questions = Vec::new(asker.alloc);
    teller.add_questions(&found.questions, "", &mut questions)?;
    if questions.is_empty() {
        return Err(NoQuestion::Because("no call takes it, by the specs"));
    }
    let left_out = never_taken(asker, asked.term.id, &questions)?;
    Ok((questions, left_out))
}
