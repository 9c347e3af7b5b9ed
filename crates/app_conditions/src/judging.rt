//! What solvers' answers say of rules, in lines; and the texts that still lack an answer.

use crate::told::{Teller, count_of_values, push_given, text_for_solver};
use cranelift_isle::sema::{RuleId, TermId};
use cranelift_isle::syntax::Pos;
use spec_questions::above::left_out_above;
use spec_questions::answers::{Answers, push_text};
use spec_questions::questions::{Question, Questions, RuleQuestions, Without};
use spec_questions::replies::{Reply, reply_in};
use spec_questions::verdicts::{
    Verdict, fails, is_answered, is_possible, is_refuted, may_be_wrong, may_fail, verdict_of,
};
use std::alloc::{AllocError, Global};
use text_reader::syntax::VerificationForm;

/// What rules are judged by.
#[derive(Clone, Copy)]
pub(crate) struct Judge<'a, 'f> {
    /// How rules are told.
    pub(crate) teller: Teller<'a, 'f>,
    /// What is expected to be told of rules that aren't right, a line each.
    pub(crate) expected: &'a str,
    /// What solvers answered.
    pub(crate) answers: &'a Answers,
    /// What is asked of rules.
    pub(crate) asked: &'a Questions,
    /// What is asked of those that may be wrong by themselves, where no rule of greater priority matches.
    pub(crate) above: &'a Questions,
}

/// Where the rules stand that may be wrong by themselves.
pub(crate) fn open_places(
    teller: Teller<'_, '_>,
    asked: &Questions,
    answers: &Answers,
) -> Result<Vec<Pos>, AllocError> {
    let mut places = Vec::new(teller.alloc);
    for rule in &asked.rules {
        if may_be_wrong(answers, &rule.questions) || may_be_wrong(answers, &rule.required) {
            places.push(rule.pos)?;
        }
    }
    Ok(places)
}

// What answers say of a rule.
fn verdict_on(rule: &RuleQuestions, answers: &Answers) -> Verdict {
    verdict_of(
        &rule.questions,
        &rule.required,
        rule.unfollowed.is_none(),
        answers,
    )
}

/// How many rules there are of each verdict.
#[derive(Clone, Copy)]
pub(crate) struct Counts {
    pub(crate) right: usize,
    pub(crate) wrong: usize,
    pub(crate) unknown: usize,
    pub(crate) idle: usize,
    pub(crate) without: usize,
    /// Those of which an expected line tells the same.
    pub(crate) expected: usize,
    /// Those that aren't right, and of which none does.
    pub(crate) unexpected: usize,
}

impl Counts {
    // Counts what is told of a rule; None where it has no question.
    fn add(&mut self, verdict: Option<Verdict>, is_expected: bool) {
        let count = match verdict {
            Some(Verdict::Right) => &mut self.right,
            Some(Verdict::Wrong) => &mut self.wrong,
            Some(Verdict::Unknown) => &mut self.unknown,
            Some(Verdict::Idle) => &mut self.idle,
            Some(Verdict::Unfollowed) | None => &mut self.without,
        };
        *count = count.saturating_add(1);
        if is_expected {
            self.expected = self.expected.saturating_add(1);
        } else if verdict != Some(Verdict::Right) {
            self.unexpected = self.unexpected.saturating_add(1);
        }
    }

    /// Whether no rule is wrong, and, where each has to be right, each is.
    pub(crate) fn is_pass(self, deny: bool) -> bool {
        let shown = self.unknown == 0 && self.idle == 0 && self.without == 0;
        self.wrong == 0 && (!deny || shown && self.right > 0)
    }

    // Adds the counts in a line.
    fn push(self, out: &mut String) -> Result<(), AllocError> {
        let Counts {
            right,
            wrong,
            unknown,
            idle,
            without,
            expected: _,
            unexpected: _,
        } = self;
        write!(
            out,
            "{right} right, {wrong} wrong, {unknown} unknown, {idle} never taken, {without} without a question\n"
        )
    }
}

/// No rule is counted.
pub(crate) const NO_COUNTS: Counts = Counts {
    right: 0,
    wrong: 0,
    unknown: 0,
    idle: 0,
    without: 0,
    expected: 0,
    unexpected: 0,
};

impl<'a, 'f> Judge<'a, 'f> {
    /// Adds a line about each rule, one about each spec that isn't used, and then how many rules there are of each verdict.
    pub(crate) fn push_lines(
        self,
        out: &mut String,
        forms: &[VerificationForm],
    ) -> Result<Counts, AllocError> {
        let mut counts = NO_COUNTS;
        for rule in &self.asked.rules {
            self.push_told(out, self.last(rule), &mut counts)?;
        }
        for rule in &self.asked.without {
            self.push_without(out, rule, &mut counts)?;
        }
        for form in forms {
            self.teller.push_if_unused(out, form, forms)?;
        }
        counts.push(out)?;
        Ok(counts)
    }

    /// Whether what is told is what is expected: each rule is right, but for those that lines tell of, of which each is told.
    pub(crate) fn are_expected(self, counts: &Counts) -> bool {
        let mut lines = 0usize;
        for line in self.expected.lines() {
            if line.contains(": rule ") {
                lines = lines.saturating_add(1);
            }
        }
        counts.unexpected == 0 && counts.expected == lines
    }

    // Adds what is told of a rule by a word, and which rule it is, and counts it.
    fn push_head(
        self,
        out: &mut String,
        verdict: Option<Verdict>,
        rule: RuleId,
        pos: Pos,
        term: TermId,
        counts: &mut Counts,
    ) -> Result<(), AllocError> {
        let word = match verdict {
            Some(verdict) => verdict.word(),
            None => "without",
        };
        let mut head = String::from_str(self.teller.alloc, word)?;
        head.push_str(": ")?;
        self.teller.push_rule(&mut head, rule, pos, term)?;
        counts.add(
            verdict,
            self.expected.lines().any(|line| tells(line, &head)),
        );
        out.push_str(&head)
    }

    /// What decides a rule: if it may be wrong by itself, what is asked of it where no rule of greater priority matches.
    pub(crate) fn last(self, rule: &'a RuleQuestions) -> &'a RuleQuestions {
        for other in &self.above.rules {
            if other.rule == rule.rule {
                return other;
            }
        }
        rule
    }

    /// Adds what is told of a rule, by the questions that decide it.
    pub(crate) fn push_told(
        self,
        out: &mut String,
        rule: &RuleQuestions,
        counts: &mut Counts,
    ) -> Result<Verdict, AllocError> {
        let verdict = verdict_on(rule, self.answers);
        let (id, pos, term) = (rule.rule, rule.pos, rule.term);
        self.push_head(out, Some(verdict), id, pos, term, counts)?;
        match verdict {
            Verdict::Right => self.push_right(out, rule)?,
            Verdict::Idle => out.push_str(": no call takes it, by the specs\n")?,
            Verdict::Wrong => self.push_wrong(out, rule)?,
            Verdict::Unfollowed => self.push_unfollowed(out, rule)?,
            Verdict::Unknown => self.push_unknown(out, rule)?,
        }
        Ok(verdict)
    }

    /// Adds that a rule has no question.
    pub(crate) fn push_without(
        self,
        out: &mut String,
        rule: &Without,
        counts: &mut Counts,
    ) -> Result<(), AllocError> {
        self.push_head(out, None, rule.rule, rule.pos, rule.term, counts)?;
        write!(out, ": {}\n", rule.reason)
    }

    // Adds whether a rule is right only below others, at which widths, and at which no call takes it.
    fn push_right(self, out: &mut String, rule: &RuleQuestions) -> Result<(), AllocError> {
        let alloc = self.teller.alloc;
        if !rule.excluded.is_empty() {
            out.push_str(", where no rule of greater priority matches")?;
        }
        let mut told = Vec::new(alloc);
        for question in &rule.questions {
            if is_possible(self.answers, &question.taken) {
                push_choice(alloc, out, "", of_arguments(&question.widths), &mut told)?;
            }
        }
        for question in &rule.questions {
            let mark = if is_refuted(self.answers, &question.taken) {
                "; never taken"
            } else {
                "; nobody knows whether taken"
            };
            push_choice(alloc, out, mark, of_arguments(&question.widths), &mut told)?;
        }
        for choice in &rule.left_out {
            push_choice(alloc, out, "; never taken", &choice.widths, &mut told)?;
        }
        out.push('\n')
    }

    // Adds a choice of widths at which a rule is wrong, and values that show it.
    fn push_wrong(self, out: &mut String, rule: &RuleQuestions) -> Result<(), AllocError> {
        if let Some(question) = self.wrong_of(rule) {
            if rule.questions.len() > 1 {
                push_widths(out, &question.widths)?;
            }
            self.push_shown(out, rule, question)?;
        }
        out.push('\n')?;
        let teller = self.teller;
        for pos in left_out_above(teller.alloc, teller.lowered, rule.term, rule.rule)? {
            out.push_str("  the rule at ")?;
            teller.push_place(out, pos)?;
            out.push_str(" comes first where it matches too; the question leaves that out\n")?;
        }
        Ok(())
    }

    // Adds why a rule isn't told wrong.
    fn push_unfollowed(self, out: &mut String, rule: &RuleQuestions) -> Result<(), AllocError> {
        match &rule.unfollowed {
            Some(why) => write!(out, ": {why}\n"),
            None => out.push('\n'),
        }
    }

    // The first question that says that a rule is wrong.
    fn wrong_of(self, rule: &RuleQuestions) -> Option<&Question> {
        match self.failing(&rule.questions) {
            Some(question) => Some(question),
            None => self.failing(&rule.required),
        }
    }

    // The first of these questions that says so.
    fn failing(self, questions: &[Question]) -> Option<&Question> {
        questions
            .iter()
            .find(|question| fails(self.answers, question))
    }

    // Adds values that show that a rule is wrong, where a solver gave them.
    fn push_shown(
        self,
        out: &mut String,
        rule: &RuleQuestions,
        question: &Question,
    ) -> Result<(), AllocError> {
        let alloc = self.teller.alloc;
        let Some(wrong) = failing_text(question) else {
            return Ok(());
        };
        let shown = rule.shown(alloc, question)?;
        let text = text_for_solver(alloc, wrong, &shown)?;
        for answer in &self.answers.list {
            if answer.text.as_str() == text.as_str() {
                let reply = reply_in(alloc, &answer.written, count_of_values(&shown))?;
                if let Reply::Sat(given) = &reply {
                    return push_given(self.teller, out, rule.term, question, &shown, given);
                }
            }
        }
        Ok(())
    }

    // Adds why nobody knows whether a rule is right: the first question that isn't refuted, and what solvers said.
    fn push_unknown(self, out: &mut String, rule: &RuleQuestions) -> Result<(), AllocError> {
        if self.push_first_open(out, &rule.questions)? {
            return Ok(());
        }
        if self.push_first_open(out, &rule.required)? {
            return Ok(());
        }
        for question in &rule.questions {
            if !is_refuted(self.answers, &question.taken) {
                out.push_str(": whether a call takes it")?;
                push_widths(out, &question.widths)?;
                return self.push_said(out, &question.taken);
            }
        }
        out.push('\n')
    }

    // Adds which of these questions is the first that isn't refuted, and what solvers said of it, if there is one.
    fn push_first_open(self, out: &mut String, questions: &[Question]) -> Result<bool, AllocError> {
        for question in questions {
            if let Some(text) = &question.wrong {
                if !is_refuted(self.answers, text) {
                    push_widths(out, &question.widths)?;
                    self.push_open(out, question, text)?;
                    return Ok(true);
                }
            }
        }
        Ok(false)
    }

    // Adds why nobody knows of a question with this text: what solvers said of it, or of the text that asks where all is followed.
    fn push_open(
        self,
        out: &mut String,
        question: &Question,
        text: &str,
    ) -> Result<(), AllocError> {
        match &question.elsewhere {
            Some(elsewhere) if is_refuted(self.answers, elsewhere) => self.push_lost(out, question),
            Some(elsewhere) if may_fail(self.answers, &question.wrong) => {
                self.push_said(out, elsewhere)
            }
            _ => self.push_said(out, text),
        }
    }

    // Adds that a question may fail only where not all is followed.
    fn push_lost(self, out: &mut String, question: &Question) -> Result<(), AllocError> {
        if let Some(pos) = question.goal {
            out.push_str(": what ")?;
            self.teller.push_place(out, pos)?;
            out.push_str(" says")?;
        } else {
            out.push_str(": what is to be shown")?;
        }
        out.push_str(" may not be so, but not all is followed\n")
    }

    // Adds what solvers said that were asked a text.
    fn push_said(self, out: &mut String, text: &str) -> Result<(), AllocError> {
        let mut is_asked = false;
        for answer in &self.answers.list {
            if answer.text.as_str() == text {
                out.push_str(if is_asked { "; " } else { ": " })?;
                let said = word_of(&answer.reply);
                write!(out, "{} says {said}", answer.solver)?;
                is_asked = true;
            }
        }
        out.push_str(if is_asked {
            "\n"
        } else {
            ": no solver was asked\n"
        })
    }

    /// Adds the texts that the verdicts on rules rest on so far, as lines of a file of records with a blank line behind each: all, or
    /// those without an answer.
    pub(crate) fn push_texts(self, out: &mut String, all: bool) -> Result<(), AllocError> {
        for rule in &self.asked.rules {
            self.push_asked(out, rule, all)?;
            let last = self.last(rule);
            if verdict_on(last, self.answers) == Verdict::Wrong {
                self.push_values_asked(out, last, all)?;
            }
        }
        for rule in &self.above.rules {
            self.push_asked(out, rule, all)?;
        }
        Ok(())
    }

    // Adds the texts of a rule's questions: whether a call takes the rule is asked where all of its own are refuted that may be wrong.
    fn push_asked(
        self,
        out: &mut String,
        rule: &RuleQuestions,
        all: bool,
    ) -> Result<(), AllocError> {
        let is_right = self.push_wrong_asked(out, &rule.questions, all)?;
        self.push_wrong_asked(out, &rule.required, all)?;
        if is_right {
            self.push_taken(out, rule, all)?;
        }
        Ok(())
    }

    // Adds the texts of these questions, and says whether all are refuted.
    fn push_wrong_asked(
        self,
        out: &mut String,
        questions: &[Question],
        all: bool,
    ) -> Result<bool, AllocError> {
        let mut is_right = true;
        for question in questions {
            if let Some(text) = &question.wrong {
                is_right = is_right && is_refuted(self.answers, text);
                self.push_if_asked(out, text, all)?;
                self.push_elsewhere(out, question, all)?;
            }
        }
        Ok(is_right)
    }

    // Adds the text that asks whether a question fails where all is followed, if it may fail.
    fn push_elsewhere(
        self,
        out: &mut String,
        question: &Question,
        all: bool,
    ) -> Result<(), AllocError> {
        match &question.elsewhere {
            Some(text) if may_fail(self.answers, &question.wrong) => {
                self.push_if_asked(out, text, all)
            }
            _ => Ok(()),
        }
    }

    // Adds the texts that ask whether a call takes the rule. Those of one way follow one another, and are the same.
    fn push_taken(
        self,
        out: &mut String,
        rule: &RuleQuestions,
        all: bool,
    ) -> Result<(), AllocError> {
        let mut last = "";
        for question in &rule.questions {
            if question.taken.as_str() != last {
                last = question.taken.as_str();
                self.push_if_asked(out, last, all)?;
            }
        }
        Ok(())
    }

    // Adds a text, if it has no answer or all are wanted.
    fn push_if_asked(self, out: &mut String, text: &str, all: bool) -> Result<(), AllocError> {
        if all || !is_answered(self.answers, text) {
            push_text(out, text)?;
            out.push('\n')?;
        }
        Ok(())
    }

    // Adds the text that asks for the values that show that a rule is wrong, unless a solver wrote something.
    fn push_values_asked(
        self,
        out: &mut String,
        rule: &RuleQuestions,
        all: bool,
    ) -> Result<(), AllocError> {
        let Some(question) = self.wrong_of(rule) else {
            return Ok(());
        };
        let Some(wrong) = failing_text(question) else {
            return Ok(());
        };
        let shown = rule.shown(self.teller.alloc, question)?;
        let text = text_for_solver(self.teller.alloc, wrong, &shown)?;
        if all
            || !self
                .answers
                .list
                .iter()
                .any(|answer| answer.text.as_str() == text.as_str())
        {
            push_text(out, &text)?;
            out.push('\n')?;
        }
        Ok(())
    }
}

// The text of a question by which a rule is told wrong.
fn failing_text(question: &Question) -> Option<&str> {
    match (&question.elsewhere, &question.wrong) {
        (Some(text), _) | (None, Some(text)) => Some(text.as_str()),
        (None, None) => None,
    }
}

// Whether a line tells what another one begins with.
fn tells(line: &str, head: &str) -> bool {
    match line.strip_prefix(head) {
        Some(rest) =>
            !matches!(rest.chars().next(), Some(first) if first.is_alphanumeric() || first == '_'),
        None => false,
    }
}

// The widths of arguments among these: they stand first, and are called `arg0`, `arg1` and so on.
fn of_arguments(widths: &[(String, usize)]) -> &[(String, usize)] {
    let mut count = 0usize;
    for (of, _) in widths {
        if !of.starts_with("arg") {
            break;
        }
        count = count.saturating_add(1);
    }
    widths.get(..count).unwrap_or(&[])
}

// Adds widths behind a mark, unless the same is told already.
fn push_choice(
    alloc: Global,
    out: &mut String,
    mark: &str,
    widths: &[(String, usize)],
    told: &mut Vec<String>,
) -> Result<(), AllocError> {
    let mut words = String::new(alloc);
    push_widths(&mut words, widths)?;
    if words.is_empty() || told.iter().any(|known| known.as_str() == words.as_str()) {
        return Ok(());
    }
    write!(out, "{mark}{words}")?;
    told.push(words)?;
    Ok(())
}

// Adds a choice of widths, as ` (arg0 of 8 bits)`.
fn push_widths(out: &mut String, widths: &[(String, usize)]) -> Result<(), AllocError> {
    for (place, (of, width)) in widths.iter().enumerate() {
        out.push_str(if place == 0 { " (" } else { ", " })?;
        write!(out, "{of} of {width} bits")?;
    }
    if widths.is_empty() {
        return Ok(());
    }
    out.push(')')
}

// What a solver said, as it is told.
fn word_of(reply: &Reply) -> &str {
    match reply {
        Reply::Unsat => "unsat",
        Reply::Sat(_) => "sat",
        Reply::Other(said) => said.as_str(),
    }
}
