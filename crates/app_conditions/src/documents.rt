//! Questions about rules for a solver as JSON: docs/JSON.md says in which form.

ghost use Rattle.std.specs.Prelude.{string_bytes, IfOk};
ghost use Rattle.text_json.specs.JsonLine.{IsJsonLine};

use crate::forms::push_forms;
use crate::judging::{Counts, Judge, NO_COUNTS};
use crate::told::Teller;
use cranelift_isle::lower::Lowered;
use cranelift_isle::sema::{RuleId, TermId};
use cranelift_isle::syntax::{Files, Pos};
use report_json::documents::begun;
use report_json::places::LinePlaces;
use report_queries::names::{rule_name, term_name};
use spec_questions::questions::{Question, Questions, RuleQuestions, Without};
use std::alloc::{AllocError, Global};
use text_json::Json;
use text_reader::syntax::VerificationForm;

/// The document of what is asked of rules, in one line: the questions, the rules without any, and what is said for a verifier.
pub(crate) fn document_of_questions(
    alloc: Global,
    files: &Files,
    lowered: &Lowered,
    forms: &[VerificationForm],
    asked: &Questions,
) -> Result<String, AllocError>
    ensures { IfOk result (λ text. IsJsonLine (string_bytes text)) }
{
    let places = LinePlaces::new(alloc, files)?;
    let writer = Writer {
        alloc,
        lowered,
        places: &places,
    };
    let mut json = begun(alloc)?;
    json.begin_list_at("conditions")?;
    for rule in &asked.rules {
        writer.push_questions(&mut json, rule)?;
    }
    json.end()?;
    json.begin_list_at("left_out")?;
    for rule in &asked.rules {
        writer.push_left_out(&mut json, rule)?;
    }
    json.end()?;
    json.begin_list_at("without")?;
    for rule in &asked.without {
        writer.push_without(&mut json, rule)?;
    }
    json.end()?;
    push_forms(alloc, &mut json, &places, forms)?;
    json.line()
}

/// The document of what answers say of rules, in one line, and how many rules there are of each verdict.
pub(crate) fn document_of_verdicts(
    judge: Judge<'_, '_>,
    out: &mut String,
) -> Result<Counts, AllocError> {
    let Teller {
        alloc,
        lines,
        lowered,
    } = judge.teller;
    let places = LinePlaces::new(alloc, lines.files())?;
    let writer = Writer {
        alloc,
        lowered,
        places: &places,
    };
    let mut counts = NO_COUNTS;
    let mut json = begun(alloc)?;
    json.begin_list_at("verdicts")?;
    for rule in &judge.asked.rules {
        let last = judge.last(rule);
        let mut told = String::new(alloc);
        let verdict = judge.push_told(&mut told, last, &mut counts)?;
        json.begin_object()?;
        writer.push_rule(&mut json, rule.rule, rule.pos, rule.term)?;
        json.key_string("verdict", verdict.word())?;
        json.key_flag("own", last.is_own)?;
        json.key_flag("below", !last.excluded.is_empty())?;
        json.key_string("told", &told)?;
        json.end()?;
    }
    for rule in &judge.asked.without {
        let mut told = String::new(alloc);
        judge.push_without(&mut told, rule, &mut counts)?;
        json.begin_object()?;
        writer.push_rule(&mut json, rule.rule, rule.pos, rule.term)?;
        json.key_string("verdict", "without")?;
        json.key_flag("own", false)?;
        json.key_flag("below", false)?;
        json.key_string("told", &told)?;
        json.end()?;
    }
    json.end()?;
    out.push_str(&json.line()?)?;
    Ok(counts)
}

// What questions are written with.
#[derive(Clone, Copy)]
struct Writer<'a, 'f> {
    alloc: Global,
    lowered: &'a Lowered,
    places: &'a LinePlaces<'f>,
}

impl<'a, 'f> Writer<'a, 'f> {
    // Adds the questions about a rule.
    fn push_questions(self, json: &mut Json, rule: &RuleQuestions) -> Result<(), AllocError> {
        self.push_each(json, rule, &rule.questions)?;
        self.push_each(json, rule, &rule.required)
    }

    // Adds some of the questions about a rule.
    fn push_each(
        self,
        json: &mut Json,
        rule: &RuleQuestions,
        questions: &[Question],
    ) -> Result<(), AllocError> {
        for question in questions {
            self.push_question(json, rule, question)?;
        }
        Ok(())
    }

    // Adds the widths at which no call takes a rule.
    fn push_left_out(self, json: &mut Json, rule: &RuleQuestions) -> Result<(), AllocError> {
        for choice in &rule.left_out {
            json.begin_object()?;
            self.push_rule(json, rule.rule, rule.pos, rule.term)?;
            push_widths(json, &choice.widths)?;
            json.end()?;
        }
        Ok(())
    }

    // Adds a question.
    fn push_question(
        self,
        json: &mut Json,
        rule: &RuleQuestions,
        question: &Question,
    ) -> Result<(), AllocError> {
        json.begin_object()?;
        self.push_rule(json, rule.rule, rule.pos, rule.term)?;
        json.key_flag("requires", question.is_required)?;
        push_widths(json, &question.widths)?;
        json.key_string("taken", &question.taken)?;
        match &question.wrong {
            Some(text) => self.push_wrong(json, rule, question, text)?,
            None => json.key_null("wrong")?,
        }
        json.end()
    }

    // Adds the text of a question, its constants, and the formulas whose values people are shown.
    fn push_wrong(
        self,
        json: &mut Json,
        rule: &RuleQuestions,
        question: &Question,
        text: &str,
    ) -> Result<(), AllocError> {
        let shown = rule.shown(self.alloc, question)?;
        json.key_string("wrong", text)?;
        json.begin_object_at("names")?;
        for (name, path) in &shown.names {
            json.key_string(name, path)?;
        }
        json.end()?;
        json.begin_list_at("values")?;
        for (of, is) in &shown.values {
            json.begin_object()?;
            json.key_string("of", of)?;
            json.key_string("is", is)?;
            json.end()?;
        }
        json.end()
    }

    // Adds a rule that has no question.
    fn push_without(self, json: &mut Json, rule: &Without) -> Result<(), AllocError> {
        json.begin_object()?;
        self.push_rule(json, rule.rule, rule.pos, rule.term)?;
        json.key_string("reason", &rule.reason)?;
        json.end()
    }

    // Adds the name of a rule, its place and the name of its term.
    fn push_rule(
        self,
        json: &mut Json,
        rule: RuleId,
        pos: Pos,
        term: TermId,
    ) -> Result<(), AllocError> {
        let (tyenv, termenv) = (&self.lowered.tyenv, &self.lowered.termenv);
        match rule_name(tyenv, termenv, rule) {
            Some(name) => json.key_string("rule", name)?,
            None => json.key_null("rule")?,
        }
        self.places.push_place(json, pos)?;
        json.key_string("term", term_name(tyenv, termenv, term).unwrap_or("_"))
    }
}

// Adds a choice of widths.
fn push_widths(json: &mut Json, widths: &[(String, usize)]) -> Result<(), AllocError> {
    json.begin_list_at("widths")?;
    for (of, width) in widths {
        json.begin_object()?;
        json.key_string("of", of)?;
        json.key_number("width", *width)?;
        json.end()?;
    }
    json.end()
}
