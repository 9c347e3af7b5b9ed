//! What solvers' answers say of a rule.

ghost use Rattle.std.specs.Prelude.{◌≡◌, IsTrue};
ghost use Rattle.std.specs.List.{list_all, list_any};
ghost use Rattle.spec_questions.specs.Refuting as Refuting;
ghost use Rattle.spec_questions.specs.Refuting.{is_possible_by, is_refuted_by, is_so_by, may_fail_by, is_right_by, is_shown_with, is_taken_by, is_untaken_by, is_wrong_by, wrong_by, fails_by};

use crate::answers::Answers;
use crate::questions::Question;

/// What is shown of a rule.
#[derive(Clone, Copy, PartialEq, Eq)]
pub enum Verdict {
    /// It is as specs say, and a call may take it.
    Right,
    /// No call takes it, by the specs.
    Idle,
    /// It may be taken, and something that specs say isn't so.
    Wrong,
    /// Something that specs say may not be so; but not all that it calls is followed.
    Unfollowed,
    /// Neither.
    Unknown,
}

impl Verdict {
    /// Its word, which lines about rules begin with.
    pub fn word(self) -> &'static str {
        match self {
            Verdict::Right => "right",
            Verdict::Idle => "idle",
            Verdict::Wrong => "wrong",
            Verdict::Unfollowed => "without",
            Verdict::Unknown => "unknown",
        }
    }
}

/// What answers say of a rule, by its questions, by those whether pure calls on its right side are as their terms require, and by whether
/// all that it calls is followed.
pub fn verdict_of(
    questions: &[Question],
    required: &[Question],
    is_followed: bool,
    answers: &Answers,
) -> Verdict
    // what the verdict says is so
    ensures shown { IsTrue (is_shown_with answers.now.list.items questions.now required.now is_followed result) }
{
    if is_wrong(questions, answers) || is_wrong(required, answers) {
        wrong_if(is_followed)
    } else if !are_answered(questions, answers) {
        Verdict::Unknown
    } else if !is_taken(questions, answers) {
        Verdict::Idle
    } else if are_right(required, answers) {
        Verdict::Right
    } else {
        Verdict::Unknown
    }
}

// What is said of a rule where something that specs say may not be so.
fn wrong_if(is_followed: bool) -> Verdict
    ensures { result ≡ wrong_by is_followed }
{
    if is_followed {
        Verdict::Wrong
    } else {
        Verdict::Unfollowed
    }
}

// Whether a rule is wrong by one of these questions.
fn is_wrong(questions: &[Question], answers: &Answers) -> bool
    ensures { result ≡ list_any (is_wrong_by answers.now.list.items) questions.now }
{
    questions.iter().any(|question| fails(answers, question))
}

// Whether a rule is as specs say by each of these questions, and answers tell whether a call takes it.
fn are_answered(questions: &[Question], answers: &Answers) -> bool
    ensures { result ≡ Refuting.are_answered answers.now.list.items questions.now }
{
    !questions.is_empty()
        && are_right(questions, answers)
        && (is_taken(questions, answers) || is_untaken(questions, answers))
}

// Whether answers refute that a rule is wrong by each of these questions.
fn are_right(questions: &[Question], answers: &Answers) -> bool
    ensures { result ≡ list_all (is_right_by answers.now.list.items) questions.now }
{
    questions
        .iter()
        .all(|question| is_so(answers, &question.wrong))
}

// Whether a call may take a rule by one of these questions.
fn is_taken(questions: &[Question], answers: &Answers) -> bool
    ensures { result ≡ list_any (is_taken_by answers.now.list.items) questions.now }
{
    questions
        .iter()
        .any(|question| is_possible(answers, &question.taken))
}

// Whether no call takes a rule by these questions.
fn is_untaken(questions: &[Question], answers: &Answers) -> bool
    ensures { result ≡ list_all (is_untaken_by answers.now.list.items) questions.now }
{
    questions
        .iter()
        .all(|question| is_refuted(answers, &question.taken))
}

// Whether what a question asks for is so: it has no text, or its text is refuted.
fn is_so(answers: &Answers, wrong: &Option<String>) -> bool
    ensures { result ≡ is_so_by answers.now.list.items wrong.now }
{
    match wrong {
        Some(text) => is_refuted(answers, text),
        None => true,
    }
}

/// Whether what a question asks for may not be so where all is followed that is said of it.
pub fn fails(answers: &Answers, question: &Question) -> bool
    ensures { result ≡ is_wrong_by answers.now.list.items question.now }
{
    may_fail(answers, &question.wrong) && fails_elsewhere(answers, &question.elsewhere)
}

// Whether it may not be so by the text that says that all is followed, if there is one.
fn fails_elsewhere(answers: &Answers, elsewhere: &Option<String>) -> bool
    ensures { result ≡ fails_by answers.now.list.items elsewhere.now }
{
    match elsewhere {
        Some(text) => is_possible(answers, text),
        None => true,
    }
}

/// Whether what a question asks for may not be so, by the answers to its text.
pub fn may_fail(answers: &Answers, wrong: &Option<String>) -> bool
    ensures { result ≡ may_fail_by answers.now.list.items wrong.now }
{
    match wrong {
        Some(text) => is_possible(answers, text),
        None => false,
    }
}

/// Whether what one of these questions asks for may not be so, by the answers to their texts.
pub fn may_be_wrong(answers: &Answers, questions: &[Question]) -> bool {
    questions
        .iter()
        .any(|question| may_fail(answers, &question.wrong))
}

/// Whether a solver said `unsat` to a text, and none `sat`.
pub fn is_refuted(answers: &Answers, text: &str) -> bool
    ensures { result ≡ is_refuted_by answers.now.list.items text.now }
{
    answers.say_unsat(text) && !answers.say_sat(text)
}

/// Whether a solver said `sat` to a text, and none `unsat`.
pub fn is_possible(answers: &Answers, text: &str) -> bool
    ensures { result ≡ is_possible_by answers.now.list.items text.now }
{
    answers.say_sat(text) && !answers.say_unsat(text)
}

/// Whether a solver said `sat` or `unsat` to a text.
pub fn is_answered(answers: &Answers, text: &str) -> bool {
    answers.say_sat(text) || answers.say_unsat(text)
}
