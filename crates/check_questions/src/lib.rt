//! Calls that ask solvers about rules, under their own clauses: each function is one call of the function that its name says.
#![tactic(auto)]

ghost use Rattle.std.specs.Prelude.{◌≡◌, IfOk, IsTrue, OnOk, [], false};
ghost use Rattle.model_questions.specs.Steps as S;
ghost use Rattle.spec_asked.specs.Lowered.{AsksLowered};
ghost use Rattle.spec_cases.specs.Asking.{come_to_in};
ghost use Rattle.spec_cases.specs.CaseViews.{cases_of};
ghost use Rattle.spec_cases.specs.Expressions.{Evaluates};
ghost use Rattle.spec_cases.specs.Steps.{said_view};
ghost use Rattle.spec_questions.specs.Refuting.{is_refuted_by, is_shown_with};
ghost use Rattle.spec_steps.specs.Demands.{MakesFor};
ghost use Rattle.spec_steps.specs.Roots.{plan};
ghost use Rattle.spec_steps.specs.Saying.{Adds};

use core_rule_sets::trie_again::Rule;
use cranelift_isle::lower::{Lowered, LoweredTerm};
use spec_asked::asking::AskedCondition;
use spec_asked::lowered::lowered_questions;
use spec_asked::tables::SpecTables;
use spec_cases::arena::Formulas;
use spec_cases::asking::Asking;
use spec_cases::cases::Cases;
use spec_cases::faults::Fault;
use spec_cases::forms::Form;
use spec_cases::limits::AskingFault;
use spec_cases::steps::{Said, Step};
use spec_questions::answers::Answers;
use spec_questions::questions::Question;
use spec_questions::verdicts::{Verdict, is_refuted, verdict_of};
use spec_steps::demands::{Demands, Signature};
use spec_steps::steps::steps_of;

/// `lowered_questions`, all questions about a rule.
///
/// # Errors
///
/// As it has them.
pub fn questions(
    formulas: &mut Formulas,
    lowered: &Lowered,
    signed: &[Signature],
    specs: &SpecTables<'_>,
    term: &LoweredTerm,
    rule: &Rule,
    flag: bool,
    above: bool,
) -> Result<AskedCondition, AskingFault>
    ensures asked { IfOk result (λ r. AsksLowered lowered.now signed.now specs.now term.now formulas.new rule.now flag r.questions.items r.excluded.items) }
    ensures alone { IfOk result (λ r. above ≡ false → r.excluded.items ≡ []) }
{
    lowered_questions(formulas, lowered, signed, specs, term, rule, flag, above)
}

/// `steps_of`, the steps in which a condition is asked.
///
/// # Errors
///
/// As it has them.
pub fn steps(
    formulas: &mut Formulas,
    demands: &Demands<'_>,
    flag: bool,
    out: &mut Vec<Step>,
) -> Result<(), Fault>
    ensures { OnOk result (MakesFor formulas.old formulas.new demands.now (λ v m. Adds v m.w out.old.items out.new.items (S.steps_of m.p m.specs m.c (plan flag)))) }
{
    steps_of(formulas, demands, flag, out)
}

/// `Formulas::come_to`, what an expression comes to.
///
/// # Errors
///
/// As it has them.
pub fn values(
    formulas: &mut Formulas,
    asking: &Asking<'_>,
    said: Said,
) -> Result<Cases<Form>, Fault>
    ensures { IfOk result (λ cs. Evaluates formulas.old formulas.new asking.now.exprs.now (λ v w. cases_of v cs ≡ come_to_in v asking.now (said_view v w said))) }
{
    formulas.come_to(asking, said)
}

/// `verdict_of`, what answers say of a rule.
pub fn verdict(
    questions: &[Question],
    required: &[Question],
    is_followed: bool,
    answers: &Answers,
) -> Verdict
    ensures shown { IsTrue (is_shown_with answers.now.list.items questions.now required.now is_followed result) }
{
    verdict_of(questions, required, is_followed, answers)
}

/// `is_refuted`, whether a text is refuted.
pub fn refuted(answers: &Answers, text: &str) -> bool
    ensures { result ≡ is_refuted_by answers.now.list.items text.now }
{
    is_refuted(answers, text)
}
