//! What is asked of a solver about the rules of a row, by what its text says for a verifier, and what a solver's answer is read as.

use crate::asking::{Refused, asked_about};
use crate::facts::push_facts;
use crate::records::{push_record, records_of};
use crate::replies::push_reply;
use crate::words::has_word;
use cranelift_isle::syntax::Pos;
use spec_questions::answers::answers_in;
use spec_questions::questions::{Question, Questions, RuleQuestions, Without};
use spec_questions::verdicts::verdict_of;
use spec_tables::faults::SpecError;
use std::alloc::{AllocError, Global};
use std::collections::BTreeSet;

/// Adds what is asked about the rules of a text: how many questions there are about a rule, what each asks and of which values, and at
/// which widths none is asked; and a line for each rule that has none. Where a text says what is asked, the rest of that line stands.
/// With the word `above` each rule is asked about where no rule of greater priority matches, and with `facts` each fact of a question stands
/// below it. With `lax` it isn't asked whether pure calls on right sides are as their terms require: else lines `requires` say what is.
/// With `failing` each question may fail, and it says what is asked then where all is followed, and each fact of that. A text without rules
/// to ask about is answered by what is wrong with it.
pub fn push_questions(
    alloc: Global,
    words: &[String],
    text: &str,
    out: &mut String,
) -> Result<(), AllocError> {
    let above = has_word(words, "above");
    let lax = has_word(words, "lax");
    match asked_about(alloc, text, above, lax, None) {
        Ok(asked) if has_word(words, "failing") => push_failing(alloc, text, &asked, out),
        Ok(asked) => push_asked(alloc, words, text, &asked, out),
        Err(Refused::Unread) => out.push_str("the text can't be read\n"),
        Err(Refused::Rules) => out.push_str("the rules are refused\n"),
        Err(Refused::TooMany) => out.push_str("the specs are too many\n"),
        Err(Refused::Specs(errors)) => push_errors(text, &errors, out),
        Err(Refused::Memory) => Err(AllocError),
    }
}

/// Adds what the answers of a file of records say of each rule of a text, each behind a word in a line. The file may name texts of
/// questions (`records_of`); two words more answer all questions about each rule. What is asked only where answers say so is asked too.
pub fn push_verdicts(
    alloc: Global,
    words: &[String],
    text: &str,
    file: &str,
    out: &mut String,
) -> Result<(), AllocError> {
    match asked_about(alloc, text, false, false, None) {
        Ok(asked) => {
            for rule in &asked.rules {
                push_verdict(alloc, words, text, rule, file, out)?;
            }
            Ok(())
        }
        Err(Refused::Memory) => Err(AllocError),
        Err(_) => out.push_str("nothing is asked\n"),
    }
}

// Adds what is asked where all is followed, if each question may fail.
fn push_failing(
    alloc: Global,
    text: &str,
    asked: &Questions,
    out: &mut String,
) -> Result<(), AllocError> {
    let mut records = String::new(alloc);
    for rule in &asked.rules {
        push_failed(&rule.questions, &mut records)?;
        push_failed(&rule.required, &mut records)?;
    }
    let answers = answers_in(alloc, &records)?;
    if let Ok(again) = asked_about(alloc, text, false, false, Some(&answers)) {
        for rule in &again.rules {
            push_elsewhere(alloc, text, rule, out)?;
        }
    }
    Ok(())
}

// Adds that each of these questions may fail.
fn push_failed(questions: &[Question], records: &mut String) -> Result<(), AllocError> {
    for question in questions {
        if let Some(wrong) = &question.wrong {
            push_record(wrong, "sat", records)?;
        }
    }
    Ok(())
}

// Adds what is asked about a rule where all is followed.
fn push_elsewhere(
    alloc: Global,
    text: &str,
    rule: &RuleQuestions,
    out: &mut String,
) -> Result<(), AllocError> {
    write!(out, "asked {}\n", line_from(text, rule.pos.offset))?;
    push_each_elsewhere(alloc, text, rule, &rule.questions, out)?;
    push_each_elsewhere(alloc, text, rule, &rule.required, out)
}

// The same of some of its questions.
fn push_each_elsewhere(
    alloc: Global,
    text: &str,
    rule: &RuleQuestions,
    questions: &[Question],
    out: &mut String,
) -> Result<(), AllocError> {
    for question in questions {
        if let Some(elsewhere) = &question.elsewhere {
            write!(out, "elsewhere {}\n", goal_of(text, question.goal))?;
            let shown = rule.shown(alloc, question)?;
            push_facts(alloc, elsewhere, &shown.names, out)?;
        }
    }
    Ok(())
}

// Adds what answers say of a rule, with what is asked only where they say so.
fn push_verdict(
    alloc: Global,
    words: &[String],
    text: &str,
    rule: &RuleQuestions,
    file: &str,
    out: &mut String,
) -> Result<(), AllocError> {
    let records = records_of(alloc, words, rule, file)?;
    let answers = answers_in(alloc, &records)?;
    if let Ok(again) = asked_about(alloc, text, false, false, Some(&answers)) {
        for other in &again.rules {
            if other.rule == rule.rule {
                push_verdict_by(alloc, words, text, other, file, out)?;
            }
        }
    }
    Ok(())
}

// Adds what answers say of a rule by its questions.
fn push_verdict_by(
    alloc: Global,
    words: &[String],
    text: &str,
    rule: &RuleQuestions,
    file: &str,
    out: &mut String,
) -> Result<(), AllocError> {
    let records = records_of(alloc, words, rule, file)?;
    let answers = answers_in(alloc, &records)?;
    let is_followed = rule.unfollowed.is_none();
    let verdict = verdict_of(&rule.questions, &rule.required, is_followed, &answers);
    let place = line_from(text, rule.pos.offset);
    write!(out, "{} {place}\n", verdict.word())
}

/// Adds what it is read as that a solver wrote a text, which was asked for as many values as the last word says.
pub fn push_answer(
    alloc: Global,
    words: &[String],
    text: &str,
    out: &mut String,
) -> Result<(), AllocError> {
    push_reply(alloc, text, number_in(words), out)
}

// The number that a row's line ends with; 0 where it ends with none.
fn number_in(words: &[String]) -> usize {
    match words.last() {
        Some(word) => word.parse::<usize>().unwrap_or(0),
        None => 0,
    }
}

// What stands in a text from this byte on to the end of its line.
fn line_from(text: &str, offset: usize) -> &str {
    match text.get(offset..) {
        Some(rest) => match rest.split_once('\n') {
            Some((line, _)) => line,
            None => rest,
        },
        None => "",
    }
}

// Adds what is wrong with specs, and where.
fn push_errors(text: &str, errors: &[SpecError], out: &mut String) -> Result<(), AllocError> {
    for error in errors {
        let place = line_from(text, error.pos.offset);
        write!(out, "error {}: {}: {place}\n", error.code, error.message)?;
    }
    Ok(())
}

fn push_asked(
    alloc: Global,
    words: &[String],
    text: &str,
    asked: &Questions,
    out: &mut String,
) -> Result<(), AllocError> {
    for rule in &asked.rules {
        push_rule(alloc, words, text, rule, out)?;
    }
    for rule in &asked.without {
        push_without(text, rule, out)?;
    }
    Ok(())
}

// Adds what is asked about a rule.
fn push_rule(
    alloc: Global,
    words: &[String],
    text: &str,
    rule: &RuleQuestions,
    out: &mut String,
) -> Result<(), AllocError> {
    let place = line_from(text, rule.pos.offset);
    let changed = if rule.is_own { "" } else { " changed" };
    write!(out, "asked {}{changed} {place}\n", rule.questions.len())?;
    for question in &rule.questions {
        write!(out, "shows {}\n", goal_of(text, question.goal))?;
        push_question(alloc, words, rule, question, out)?;
    }
    for question in &rule.required {
        write!(out, "requires {}\n", goal_of(text, question.goal))?;
        push_question(alloc, words, rule, question, out)?;
    }
    for choice in &rule.left_out {
        push_widths("never", &choice.widths, out)?;
    }
    match &rule.unfollowed {
        Some(why) => write!(out, "  unfollowed: {why}\n"),
        None => Ok(()),
    }
}

// Adds a question: how wide values are, which constants its text has, by name, and of what it has a formula; or that it has no text, since
// one of its facts is known not to be so.
fn push_question(
    alloc: Global,
    words: &[String],
    rule: &RuleQuestions,
    question: &Question,
    out: &mut String,
) -> Result<(), AllocError> {
    push_widths("at", &question.widths, out)?;
    let Some(wrong) = &question.wrong else {
        return out.push_str("  known\n");
    };
    let shown = rule.shown(alloc, question)?;
    push_paths(alloc, &shown.names, out)?;
    push_named(&shown.values, out)?;
    if has_word(words, "facts") {
        return push_facts(alloc, wrong, &shown.names, out);
    }
    Ok(())
}

// What a text says is to be shown.
fn goal_of(text: &str, goal: Option<Pos>) -> &str {
    match goal {
        Some(pos) => line_from(text, pos.offset),
        None => "nothing",
    }
}

// Adds a line of widths, if there are any.
fn push_widths(word: &str, widths: &[(String, usize)], out: &mut String) -> Result<(), AllocError> {
    if widths.is_empty() {
        return Ok(());
    }
    write!(out, "  {word}")?;
    for (of, width) in widths {
        write!(out, " {of} {width}")?;
    }
    out.push('\n')
}

// Adds a line of the paths of constants, by name, if there are any.
fn push_paths(
    alloc: Global,
    names: &[(String, String)],
    out: &mut String,
) -> Result<(), AllocError> {
    if names.is_empty() {
        return Ok(());
    }
    let mut paths = BTreeSet::new(alloc);
    for (_, path) in names {
        paths.insert(path.as_str())?;
    }
    out.push_str("  of")?;
    for path in &paths {
        write!(out, " {path}")?;
    }
    out.push('\n')
}

// Adds a line of what has a formula, if anything has.
fn push_named(values: &[(String, String)], out: &mut String) -> Result<(), AllocError> {
    if values.is_empty() {
        return Ok(());
    }
    out.push_str("  values")?;
    for (name, _) in values {
        write!(out, " {name}")?;
    }
    out.push('\n')
}

fn push_without(text: &str, rule: &Without, out: &mut String) -> Result<(), AllocError> {
    let place = line_from(text, rule.pos.offset);
    write!(out, "without {place}: {}\n", rule.reason)
}
