//! The questions about all rules.

ghost use Rattle.std.specs.Prelude.{◌≡◌, ◌<◌, ◌++◌, ℕ, length, map, slice_get, IsTrue, IfOk, OnOk, Some};
ghost use Rattle.std.specs.List.{list_all, list_any};
ghost use Rattle.spec_questions.specs.Right.{asked_in, exprs_in, facts_in, is_asked_or_plain, said_in, AreAskedWhole, AsksFacts, AreKnownTables, IsAskedByTables, IsKnownOf, KeepsWhole, KeepsWholeBy};
ghost use Rattle.spec_questions.specs.Telling.{AreTold, AreAllTold, KeepsTold, has_spec, is_place, is_told, is_wanted_at};

use crate::answers::Answers;
use crate::asking::{Asked, Asker, Tried, Variable, ask};
use crate::faults::NoQuestion;
use crate::shown::Named;
use core_syntax::syntax::Pos;
use cranelift_isle::lower::{Lowered, LoweredTerm};
use cranelift_isle::sema::{BoundVar, RuleId, TermId};
use cranelift_isle::trie_again::{BindingId, Rule};
use report_queries::rules::typed_rule;
use report_queries::variable_sites::KnownSites;
use spec_asked::signatures::signatures_of;
use spec_asked::tables::SpecTables;
use spec_cases::arena::Formulas;
use spec_cases::expressions::ExprId;
use spec_cases::faults::Fault;
use spec_cases::formulas::Fact;
use spec_data::data::{SaidAt, SpecData, TermSaid as SaidTerm};
use spec_data::making::spec_data;
use spec_steps::demands::{Signature, TermSaid};
use spec_tables::faults::SpecError;
use spec_tables::specs::Specs;
use std::alloc::{AllocError, Global};
use std::slice;
use text_reader::syntax::VerificationForm;

/// A question about a rule: whether something that is to be shown isn't so, on one way through the choices of widths.
pub struct Question {
    /// The widths of arguments, variables and answers of calls that may have any: what, and how wide.
    pub widths: Vec<(String, usize)>,
    /// A text that has an answer `sat` if the rule may be taken on this way, by what is told before its first goal.
    pub taken: String,
    /// A text whose answer `unsat` says that what is to be shown is so. None where that is known without a solver: its last fact is known
    /// not to be so.
    pub wrong: Option<String>,
    /// Where not all is followed that is said, and a text `wrong` of the rule has an answer `sat`: the text `wrong`, and that all is. If
    /// only `wrong` has an answer `sat`, the rule isn't told wrong.
    pub elsewhere: Option<String>,
    /// Where a spec says what is to be shown.
    pub goal: Option<Pos>,
    /// The facts that the text `wrong` speaks of, but for those that exclude rules above, by their numbers in the formulas of the rule.
    pub facts: Vec<Fact>,
    /// Whether it is asked whether a pure call is as its term requires.
    pub is_required: bool,
}

impl Drop for Question {
    fn drop(self) {
        let Question {
            widths: _,
            taken: _,
            wrong: _,
            elsewhere: _,
            goal: _,
            facts: _,
            is_required: _,
        } = self;
    }
}

/// A choice of widths at which no call takes a rule, by the specs.
pub struct LeftOut {
    /// The widths of arguments that are words of any width.
    pub widths: Vec<(String, usize)>,
}

impl Drop for LeftOut {
    fn drop(self) {
        let LeftOut { widths: _ } = self;
    }
}

/// What is asked of a rule.
pub struct RuleQuestions {
    /// The rule.
    pub rule: RuleId,
    /// Where it is defined.
    pub pos: Pos,
    /// Its term.
    pub term: TermId,
    /// The questions. There is at least one.
    pub questions: Vec<Question>,
    /// Those whether pure calls on its right side are as their terms require: none where nothing is required, or where that isn't wanted.
    pub required: Vec<Question>,
    /// The widths at which no call takes it.
    pub left_out: Vec<LeftOut>,
    /// Why not all that it calls is followed, in one line: then it can't be told wrong. None where all is.
    pub unfollowed: Option<String>,
    /// Whether the questions are about the rule's own condition: no call is looked through, and no spec of an internal extractor counts.
    pub is_own: bool,
    /// The formulas of the questions.
    pub formulas: Formulas,
    // What its variables and its result stand for.
    pub(crate) named: Named,
    /// That no rule of greater priority matches, where that is asked, as far as it is told. The texts of questions say so too.
    pub excluded: Vec<Fact>,
    // The same, as the texts of the questions about pure calls have it.
    pub(crate) beside: Vec<Fact>,
}

impl Drop for RuleQuestions {
    fn drop(self) {
        let RuleQuestions {
            rule: _,
            pos: _,
            term: _,
            questions: _,
            required: _,
            left_out: _,
            unfollowed: _,
            is_own: _,
            formulas: _,
            named: _,
            excluded: _,
            beside: _,
        } = self;
    }
}

/// A rule without a question, and why it has none.
pub struct Without {
    /// The rule.
    pub rule: RuleId,
    /// Where it is defined.
    pub pos: Pos,
    /// Its term.
    pub term: TermId,
    /// What lacks, in one line.
    pub reason: String,
}

impl Drop for Without {
    fn drop(self) {
        let Without {
            rule: _,
            pos: _,
            term: _,
            reason: _,
        } = self;
    }
}

/// What is asked of rules.
pub struct Questions {
    /// The rules with questions, in the order of terms and rules.
    pub rules: Vec<RuleQuestions>,
    /// The rules of terms with specs that have none.
    pub without: Vec<Without>,
}

impl Drop for Questions {
    fn drop(self) {
        let Questions {
            rules: _,
            without: _,
        } = self;
    }
}

/// Why there are no questions.
#[derive(Drop)]
pub enum QuestionFault {
    /// Memory was refused.
    Memory,
    /// Specs are wrong: each error once.
    Wrong(Vec<SpecError>),
    /// Specs have more expressions than have numbers, or too large numbers.
    TooMany,
}

impl From<AllocError> for QuestionFault {
    fn from(_: AllocError) -> QuestionFault {
        QuestionFault::Memory
    }
}

impl<T: Drop> From<std::alloc::AllocFailed<T>> for QuestionFault {
    fn from(_: std::alloc::AllocFailed<T>) -> QuestionFault {
        QuestionFault::Memory
    }
}

/// Which questions are wanted.
#[derive(Clone, Copy)]
pub struct Wanted<'w> {
    /// Whether rules are asked about where no rule of greater priority matches.
    pub above: bool,
    /// Whether it isn't asked if pure calls on right sides are as their terms require.
    pub lax: bool,
    /// The positions of the rules that are asked about, or None for all.
    pub only: Option<&'w [Pos]>,
    /// What solvers answered, if they were asked: where a question may not be so, it is asked too where all is followed.
    pub answers: Option<&'w Answers>,
}

/// The questions about the rules of terms with specs, of definitions that were lowered with internal extractors expanded.
///
/// # Errors
///
/// What is wrong with the specs, or that memory was refused.
pub fn questions_about(
    alloc: Global,
    lowered: &Lowered,
    forms: &[VerificationForm],
    wanted: Wanted<'_>,
) -> Result<Questions, QuestionFault> {
    let (specs, mut errors) = Specs::of(alloc, lowered, forms)?;
    match spec_data(alloc, lowered, &specs, &mut errors) {
        Ok(data) => questions_if_right(alloc, lowered, &specs, data, wanted, errors),
        Err(fault) => Err(unmade(&fault)),
    }
}

// Why there is no data.
fn unmade(fault: &Fault) -> QuestionFault {
    match fault {
        Fault::Memory(_) => QuestionFault::Memory,
        Fault::Full | Fault::Foreign | Fault::TooGreat | Fault::TooMany => QuestionFault::TooMany,
    }
}

// The questions by these specs, where nothing is wrong with them.
fn questions_if_right(
    alloc: Global,
    lowered: &Lowered,
    specs: &Specs<'_>,
    data: SpecData,
    wanted: Wanted<'_>,
    errors: Vec<SpecError>,
) -> Result<Questions, QuestionFault> {
    if !errors.is_empty() {
        return Err(QuestionFault::Wrong(errors));
    }
    let known = known_of(alloc, lowered, data)?;
    Ok(questions_by(alloc, lowered, specs, &known, wanted)?)
}

/// What is known of lowered definitions and of what specs say.
#[derive(Drop)]
pub struct Known {
    /// What specs say.
    pub data: SpecData,
    /// The types of terms, by the terms' numbers.
    pub signatures: Vec<Signature>,
    /// What the specs of terms say, by the terms' numbers.
    pub said: Vec<TermSaid>,
}

/// What is known of lowered definitions, and of what specs say.
///
/// # Errors
///
/// Where memory is refused.
pub fn known_of(alloc: Global, lowered: &Lowered, data: SpecData) -> Result<Known, AllocError>
    ensures { IfOk result (IsKnownOf lowered.now «data») }
{
    let signatures = signatures_of(alloc, &lowered.termenv.terms)?;
    let said = said_of(alloc, &data.terms)?;
    Ok(Known {
        data,
        signatures,
        said,
    })
}

/// The questions about the rules of terms with these specs, of definitions that were lowered with internal extractors expanded, by what
/// is known of both. Each rule that is asked about has one, or is among those without.
///
/// # Errors
///
/// Where memory is refused.
pub fn questions_by(
    alloc: Global,
    lowered: &Lowered,
    specs: &Specs<'_>,
    known: &Known,
    wanted: Wanted<'_>,
) -> Result<Questions, AllocError>
    ensures told { IfOk result (λ found. AreAllTold wanted.entry specs.now.terms.items found lowered.now.terms.items) }
    // all questions about a rule's own condition are asked, by what is known
    ensures whole { IfOk result (λ found. IsAskedByTables lowered.now known.now found) }
{
    let asker = Asker {
        alloc,
        lowered,
        specs,
        known,
        tables: tables_of(known),
        wanted,
    };
    let mut found = Questions {
        rules: Vec::new(alloc),
        without: Vec::new(alloc),
    };
    add_terms(asker, &mut found)?;
    Ok(found)
}

// What specs say, as tables.
fn tables_of(known: &Known) -> SpecTables<'_>
    ensures { AreKnownTables known.now result }
{
    SpecTables {
        sorts: &known.data.sorts,
        constants: &known.data.constants,
        functions: &known.data.functions,
        exprs: &known.data.exprs,
        said: &known.said,
    }
}

// What is said of each term.
fn said_of(alloc: Global, terms: &[SaidTerm]) -> Result<Vec<TermSaid>, AllocError>
    ensures { IfOk result (λ said. map asked_in said.items ≡ map said_in terms.now) }
{
    let mut said = Vec::new(alloc);
    add_said_terms(alloc, terms, &mut said)?;
    Ok(said)
}

// Adds what is said of terms.
#[tactic(auto, using(crate::proofs::TableSteps::said_steps))]
fn add_said_terms(
    alloc: Global,
    terms: &[SaidTerm],
    out: &mut Vec<TermSaid>,
) -> Result<(), AllocError>
    ensures { OnOk result (map asked_in out.new.items ≡ map asked_in out.old.items ++ map said_in terms.now) }
{
    match terms {
        [] => Ok(()),
        [first, rest @ ..] => {
            out.push(TermSaid {
                require: exprs_of(alloc, &first.require)?,
                provide: exprs_of(alloc, &first.provide)?,
            })?;
            Ok(add_said_terms(alloc, rest, out)?)
        }
    }
}

// What is said, without its places.
fn exprs_of(alloc: Global, said: &[SaidAt]) -> Result<Vec<ExprId>, AllocError>
    ensures { IfOk result (λ exprs. exprs.items ≡ exprs_in said.now) }
{
    let mut exprs = Vec::new(alloc);
    add_exprs(said, &mut exprs)?;
    Ok(exprs)
}

// Adds what is said.
#[tactic(auto, using(crate::proofs::TableSteps::said_steps))]
fn add_exprs(said: &[SaidAt], out: &mut Vec<ExprId>) -> Result<(), AllocError>
    ensures { OnOk result (out.new.items ≡ out.old.items ++ exprs_in said.now) }
{
    match said {
        [] => Ok(()),
        [first, rest @ ..] => {
            out.push(first.expr)?;
            Ok(add_exprs(rest, out)?)
        }
    }
}

// Adds the questions about the rules of all terms with specs.
fn add_terms(asker: Asker<'_>, found: &mut Questions) -> Result<(), AllocError>
    ensures told { OnOk result (AreAllTold asker.entry.wanted asker.entry.specs.now.terms.items found.new asker.entry.lowered.now.terms.items) }
    ensures whole { OnOk result (AreAskedWhole asker.entry.lowered.now asker.entry.known.now.signatures.items asker.entry.tables found.old.rules.items → AreAskedWhole asker.entry.lowered.now asker.entry.known.now.signatures.items asker.entry.tables found.new.rules.items) }
{
    for term in &asker.lowered.terms {
        add_said(asker, term, found)?;
    }
    Ok(())
}

// Adds the questions about the rules of a term, if it has a spec.
fn add_said(asker: Asker<'_>, term: &LoweredTerm, found: &mut Questions) -> Result<(), AllocError>
    ensures told { OnOk result (IsTrue (has_spec asker.entry.specs.now.terms.items term.now.id.0) → AreTold asker.entry.wanted found.new term.now.id.0 term.now.rules.rules.items) }
    ensures kept { OnOk result (KeepsTold found.old found.new) }
    ensures whole { OnOk result (KeepsWhole asker.entry.lowered.now asker.entry.known.now.signatures.items asker.entry.tables term.now found.old found.new) }
{
    if says_of(asker.specs, term.id) {
        add_term(asker, term, found)
    } else {
        Ok(())
    }
}

fn says_of(specs: &Specs<'_>, term: TermId) -> bool
    ensures { result ≡ has_spec specs.now.terms.items term.0 }
{
    match specs.terms.get(term.index()) {
        Some(said) => said.spec.is_some(),
        None => false,
    }
}

// Adds the questions about the rules of a term.
fn add_term(asker: Asker<'_>, term: &LoweredTerm, found: &mut Questions) -> Result<(), AllocError>
    ensures told { OnOk result (AreTold asker.entry.wanted found.new term.now.id.0 term.now.rules.rules.items) }
    ensures kept { OnOk result (KeepsTold found.old found.new) }
    ensures whole { OnOk result (KeepsWhole asker.entry.lowered.now asker.entry.known.now.signatures.items asker.entry.tables term.now found.old found.new) }
{
    let terms = &asker.lowered.termenv.terms;
    let sites = KnownSites::new(asker.alloc, terms, &term.rules.bindings)?;
    for rule in &term.rules.rules {
        add_if_wanted(asker, &sites, term, rule, found)?;
    }
    Ok(())
}

// Adds the questions about a rule, if it is asked about.
fn add_if_wanted(
    asker: Asker<'_>,
    sites: &KnownSites<'_>,
    term: &LoweredTerm,
    rule: &Rule,
    found: &mut Questions,
) -> Result<(), AllocError>
    ensures told { OnOk result (IsTrue (is_wanted_at asker.entry.wanted rule.now.pos) → IsTrue (is_told found.new term.now.id.0 rule.now.id.0)) }
    ensures kept { OnOk result (KeepsTold found.old found.new) }
    ensures whole { OnOk result (KeepsWholeBy asker.entry.lowered.now asker.entry.known.now.signatures.items asker.entry.tables term.now rule.now found.old found.new) }
{
    if is_wanted(asker.wanted, rule) {
        add_rule(asker, sites, term, rule, found)
    } else {
        Ok(())
    }
}

fn is_wanted(wanted: Wanted<'_>, rule: &Rule) -> bool
    ensures { result ≡ is_wanted_at wanted.entry rule.now.pos }
{
    match wanted.only {
        Some(places) => is_among(places, rule.pos),
        None => true,
    }
}

fn is_among(places: &[Pos], pos: Pos) -> bool
    ensures { result ≡ list_any (is_place pos) places.now }
{
    places.iter().any(|place| *place == pos)
}

fn variables_of<'a>(
    asker: Asker<'a>,
    sites: &KnownSites<'_>,
    rule: &Rule,
) -> Result<Vec<Variable<'a>>, AllocError> {
    let mut variables = Vec::new(asker.alloc);
    let lowered = asker.lowered;
    if let Some(typed) = typed_rule(&lowered.termenv, rule.id) {
        let found = sites.of_rule(typed)?;
        for (place, variable) in typed.vars.iter().enumerate() {
            if let Some(Some(site)) = found.get(place) {
                let variable = variable_at(lowered, variable, *site);
                variables.extend_from_slice(slice::from_ref(&variable))?;
            }
        }
    }
    Ok(variables)
}

fn variable_at<'a>(lowered: &'a Lowered, variable: &BoundVar, site: BindingId) -> Variable<'a> {
    Variable {
        name: lowered.tyenv.text_of(variable.name),
        site,
        ty: variable.ty,
    }
}

// Adds the questions about a rule, or why there are none.
fn add_rule(
    asker: Asker<'_>,
    sites: &KnownSites<'_>,
    term: &LoweredTerm,
    rule: &Rule,
    found: &mut Questions,
) -> Result<(), AllocError>
    ensures told { OnOk result (IsTrue (is_told found.new term.now.id.0 rule.now.id.0)) }
    ensures kept { OnOk result (KeepsTold found.old found.new) }
    ensures whole { OnOk result (KeepsWholeBy asker.entry.lowered.now asker.entry.known.now.signatures.items asker.entry.tables term.now rule.now found.old found.new) }
{
    let variables = variables_of(asker, sites, rule)?;
    let asked = Asked {
        term,
        rule,
        variables: &variables,
    };
    match ask(asker, asked) {
        Ok(tried) => found.add_questions(asked, tried),
        Err(fault) => add_fault(asker.alloc, asked, fault, found),
    }
}

// Adds why a rule has no question.
fn add_fault(
    alloc: Global,
    asked: Asked<'_>,
    fault: NoQuestion,
    found: &mut Questions,
) -> Result<(), AllocError>
    ensures told { OnOk result (IsTrue (is_told found.new asked.entry.term.now.id.0 asked.entry.rule.now.id.0)) }
    ensures kept { OnOk result (KeepsTold found.old found.new) }
    ensures rules { OnOk result (found.new.rules.items ≡ found.old.rules.items) }
{
    match fault {
        NoQuestion::Memory(refused) => Err(refused),
        NoQuestion::Because(why) => found.add_without(asked, String::from_str(alloc, why)?),
    }
}

impl Questions {
    fn add_questions(&mut self, asked: Asked<'_>, tried: Tried) -> Result<(), AllocError>
        requires { 0 < length tried.questions.items }
        ensures told { OnOk result (IsTrue (is_told self.new asked.entry.term.now.id.0 asked.entry.rule.now.id.0)) }
        ensures kept { OnOk result (KeepsTold self.old self.new) }
        ensures whole { OnOk result ((lowered : _) (signatures : _) (specs : _) (at : ℕ) (place : ℕ) → slice_get asked.entry.term.now.rules.rules.items at ≡ Some asked.entry.rule.now
            → slice_get lowered.terms.items place ≡ Some asked.entry.term.now
            → (IsTrue tried.is_own → AsksFacts lowered signatures specs asked.entry.term.now tried.formulas asked.entry.rule.now (facts_in tried.questions.items) tried.excluded.items)
            → IsTrue (list_all is_asked_or_plain tried.questions.items)
            → AreAskedWhole lowered signatures specs self.old.rules.items → AreAskedWhole lowered signatures specs self.new.rules.items) }
    {
        let Tried {
            formulas,
            named,
            excluded,
            beside,
            is_own,
            questions,
            required,
            left_out,
            unfollowed,
        } = tried;
        self.rules.push(RuleQuestions {
            rule: asked.rule.id,
            pos: asked.rule.pos,
            term: asked.term.id,
            questions,
            required,
            left_out,
            unfollowed,
            is_own,
            formulas,
            named,
            excluded,
            beside,
        })?;
        Ok(())
    }

    // Adds a rule that has no question.
    fn add_without(&mut self, asked: Asked<'_>, reason: String) -> Result<(), AllocError>
        ensures told { OnOk result (IsTrue (is_told self.new asked.entry.term.now.id.0 asked.entry.rule.now.id.0)) }
        ensures kept { OnOk result (KeepsTold self.old self.new) }
        ensures rules { OnOk result (self.new.rules.items ≡ self.old.rules.items) }
    {
        self.without.push(Without {
            rule: asked.rule.id,
            pos: asked.rule.pos,
            term: asked.term.id,
            reason,
        })?;
        Ok(())
    }
}
