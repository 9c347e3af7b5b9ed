//! Files of records that name texts of questions.

use spec_questions::answers::push_text;
use spec_questions::questions::{Question, RuleQuestions};
use std::alloc::{AllocError, Global};

/// The records of a file on the questions about a rule, in which lines name texts: `wrong 0` is that of the first question, `taken 0` asks
/// whether a call takes the rule on its way, `elsewhere 0` asks where all is followed, and `begun 0` is `wrong 0` without its last line.
/// `required 0` is as `wrong 0`, of the first question about what a pure call requires. Behind them are records of all questions, where the
/// second and the third of a row's words say what is answered to each text: to `wrong`, and to `taken`.
pub fn records_of(
    alloc: Global,
    words: &[String],
    rule: &RuleQuestions,
    file: &str,
) -> Result<String, AllocError> {
    let mut records = String::new(alloc);
    for line in file.lines() {
        push_line(line, rule, &mut records)?;
    }
    if let (Some(wrong), Some(taken)) = (words.get(1), words.get(2)) {
        for question in &rule.questions {
            if let Some(text) = &question.wrong {
                push_record(text, wrong, &mut records)?;
            }
            push_record(&question.taken, taken, &mut records)?;
        }
    }
    Ok(records)
}

/// Adds that a solver wrote this when it was asked a text.
pub fn push_record(text: &str, said: &str, records: &mut String) -> Result<(), AllocError> {
    push_text(records, text)?;
    write!(records, "= solver\n< {said}\n")
}

// Adds a line, or the text that it names.
fn push_line(line: &str, rule: &RuleQuestions, records: &mut String) -> Result<(), AllocError> {
    let questions = rule.questions.as_slice();
    match line.split_once(' ') {
        Some(("wrong", place)) => push_text(records, wrong_at(questions, place)),
        Some(("begun", place)) => push_text(records, begun(wrong_at(questions, place))),
        Some(("elsewhere", place)) => push_text(records, elsewhere_at(questions, place)),
        Some(("required", place)) => push_text(records, wrong_at(&rule.required, place)),
        Some(("taken", place)) => push_text(records, taken_at(questions, place)),
        _ => write!(records, "{line}\n"),
    }
}

// The question of a number.
fn question_at<'q>(questions: &'q [Question], place: &str) -> Option<&'q Question> {
    match place.parse::<usize>() {
        Ok(place) => questions.get(place),
        Err(_) => None,
    }
}

fn wrong_at<'q>(questions: &'q [Question], place: &str) -> &'q str {
    match question_at(questions, place) {
        Some(
            Question {
                wrong: Some(text),
                ..
            },
        ) => text.as_str(),
        _ => "",
    }
}

// The text that asks where all is followed, or one that nothing asks.
fn elsewhere_at<'q>(questions: &'q [Question], place: &str) -> &'q str {
    match question_at(questions, place) {
        Some(
            Question {
                elsewhere: Some(text),
                ..
            },
        ) => text.as_str(),
        _ => "(another)\n",
    }
}

fn taken_at<'q>(questions: &'q [Question], place: &str) -> &'q str {
    match question_at(questions, place) {
        Some(question) => question.taken.as_str(),
        None => "",
    }
}

// A text without its last line.
fn begun(text: &str) -> &str {
    match text.trim_end().rsplit_once('\n') {
        Some((first, _)) => first,
        None => "",
    }
}
