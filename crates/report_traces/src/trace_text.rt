//! Traces of runs, a line for each test that is made.

use crate::outcomes::push_content;
use crate::walk::{Event, Walked};
use cranelift_isle::lower::{Lowered, LoweredTerm};
use cranelift_isle::serialize::{Block, ControlFlow, MatchArm};
use cranelift_isle::syntax::Pos;
use cranelift_isle::trie_again::{Binding, BindingId};
use report_names::names::NameTables;
use report_print::lines::FileLines;
use report_queries::rules::rule_behind;
use report_ways::explanation::push_rule_place;
use report_ways::indented_lines::push_line;
use report_ways::way_text::{Sites, Way, WayTest};
use report_ways::ways::test_of;
use run_terms::values::Content;
use std::alloc::{AllocError, Global};

/// Adds the line of a call that is run.
pub fn push_title(out: &mut String, call: &str) -> Result<(), AllocError> {
    push_line(out, 0, call)
}

/// Adds a line for each thing that happened in the run of a term.
pub fn push_events<'x, 'f>(
    alloc: Global,
    (lines, lowered): (&'x FileLines<'f>, &'x Lowered),
    entry: &'x LoweredTerm,
    walked: &'x Walked,
    out: &mut String,
) -> Result<(), AllocError> {
    let shown = shown_answers(alloc, lowered, entry, &walked.answers)?;
    let arguments: Vec<String> = Vec::new(alloc);
    let sites = Sites {
        alloc,
        names: NameTables {
            tyenv: &lowered.tyenv,
            terms: &lowered.termenv.terms,
        },
        bindings: &entry.rules.bindings,
        arguments: &arguments,
        shown: &shown,
        indent: 2,
    };
    let way = Way::new(&sites)?;
    let mut retold = Retold {
        alloc,
        lines,
        lowered,
        entry,
        shown: &shown,
        events: &walked.events,
        next: 0,
        way,
    };
    retold.push_block(&entry.block, out)
}

// A run that is told again along its tree.
struct Retold<'a, 's, 'f> {
    alloc: Global,
    lines: &'a FileLines<'f>,
    lowered: &'a Lowered,
    entry: &'a LoweredTerm,
    shown: &'a [String],
    // What happened, and how much of it is told.
    events: &'a [Event],
    next: usize,
    way: Way<'s, 'a>,
}

impl<'a, 's, 'f> Drop for Retold<'a, 's, 'f> {
    fn drop(self) {
        let Retold {
            alloc: _,
            lines: _,
            lowered: _,
            entry: _,
            shown: _,
            events: _,
            next: _,
            way: _,
        } = self;
    }
}

impl<'a, 's, 'f> Retold<'a, 's, 'f> {
    // What comes next is told.
    fn pass(&mut self) {
        self.next = self.next.saturating_add(1);
    }

    // The outcome of the next test. None where no test came.
    fn outcome(&self) -> Option<bool> {
        match self.events.get(self.next) {
            Some(Event::Test(held)) => Some(*held),
            _ => None,
        }
    }

    // Whether the body of the loop of this site begins next.
    fn begins(&self, site: BindingId) -> bool {
        match self.events.get(self.next) {
            Some(Event::Each(each)) => *each == site,
            _ => false,
        }
    }

    fn is_ended(&self) -> bool {
        self.next >= self.events.len()
    }

    #[cycle(retold)]
    fn push_block(&mut self, block: &Block, out: &mut String) -> Result<(), AllocError> {
        for step in &block.steps {
            if self.is_ended() {
                break;
            }
            self.push_failed(out)?;
            self.push_check(&step.check, out)?;
        }
        Ok(())
    }

    // Adds that a value is taken out of an answer that is none, where that comes next. The run ends there.
    fn push_failed(&mut self, out: &mut String) -> Result<(), AllocError> {
        let events = self.events;
        let Some(Event::Fails(site)) = events.get(self.next) else {
            return Ok(());
        };
        self.pass();
        push_failure(self.alloc, self.entry, &mut self.way, *site, out)
    }

    // Adds what happened at a test, and behind it.
    #[cycle(retold)]
    fn push_check(&mut self, check: &ControlFlow, out: &mut String) -> Result<(), AllocError> {
        match check {
            ControlFlow::Match { source, arms } => self.push_arms(*source, arms, out),
            ControlFlow::Equal { a, b, body } => {
                if self.push_test(&WayTest::Equal(*a, *b), out)? {
                    self.push_block(body, out)?;
                }
                Ok(())
            }
            ControlFlow::Loop { result, body } => self.push_loop(*result, body, out),
            ControlFlow::Return { result, pos } => self.push_given(*result, *pos, out),
        }
    }

    // Adds the tests of arms, up to the one that holds, and what happened behind it.
    #[cycle(retold)]
    fn push_arms(
        &mut self,
        source: BindingId,
        arms: &[MatchArm],
        out: &mut String,
    ) -> Result<(), AllocError> {
        for arm in arms {
            if self.push_test(&test_of(source, arm), out)? {
                return self.push_block(&arm.body, out);
            }
        }
        Ok(())
    }

    // Adds what happened in a loop, for each answer that it came to.
    #[cycle(retold)]
    fn push_loop(
        &mut self,
        site: BindingId,
        body: &Block,
        out: &mut String,
    ) -> Result<(), AllocError> {
        for _ in 0..self.events.len() {
            if !self.begins(site) {
                break;
            }
            self.pass();
            push_held(
                self.alloc,
                &mut self.way,
                self.shown,
                &WayTest::Each(site),
                true,
                out,
            )?;
            self.push_block(body, out)?;
        }
        Ok(())
    }

    // Adds a test with its outcome, if it was made. Whether it holds.
    fn push_test(&mut self, test: &WayTest, out: &mut String) -> Result<bool, AllocError> {
        let Some(held) = self.outcome() else {
            return Ok(false);
        };
        self.pass();
        push_held(self.alloc, &mut self.way, self.shown, test, held, out)?;
        Ok(held)
    }

    // Adds that a rule gives the result, if it did.
    fn push_given(
        &mut self,
        site: BindingId,
        pos: Pos,
        out: &mut String,
    ) -> Result<(), AllocError> {
        if !matches!(self.events.get(self.next), Some(Event::Return(_))) {
            return Ok(());
        }
        self.pass();
        push_return(
            self.alloc,
            self.lines,
            self.lowered,
            self.entry,
            (pos, site),
            out,
        )
    }
}

// The texts of the answers of calls, by their sites. The text of a site that is no call is empty. A call in a loop may have
// several answers.
fn shown_answers(
    alloc: Global,
    lowered: &Lowered,
    entry: &LoweredTerm,
    answers: &[(BindingId, Content)],
) -> Result<Vec<String>, AllocError> {
    let mut shown = Vec::new(alloc);
    for _ in &entry.rules.bindings {
        shown.push(String::new(alloc))?;
    }
    for (site, content) in answers {
        let mut text = String::new(alloc);
        push_content(&mut text, lowered, content)?;
        if let Some(place) = shown.get_mut(site.index()) {
            show(alloc, place, text)?;
        }
    }
    Ok(shown)
}

// Puts the text of an answer to its place, or two points where another answer stands there.
fn show(alloc: Global, place: &mut String, text: String) -> Result<(), AllocError> {
    if place.is_empty() || place.as_str() == text.as_str() {
        *place = text;
    } else {
        *place = String::from_str(alloc, "..")?;
    }
    Ok(())
}

fn push_held(
    alloc: Global,
    way: &mut Way<'_, '_>,
    shown: &[String],
    test: &WayTest,
    held: bool,
    out: &mut String,
) -> Result<(), AllocError> {
    let end = end_of(alloc, shown, test, held)?;
    way.push_test(test, &end, out)
}

// What stands at the end of a test's line: whether it holds, and the value that a call gives.
fn end_of(
    alloc: Global,
    shown: &[String],
    test: &WayTest,
    held: bool,
) -> Result<String, AllocError> {
    if !held {
        return String::from_str(alloc, ": no");
    }
    match test {
        WayTest::Gives(source, _) => match shown.get(source.index()) {
            Some(text) if !text.is_empty() => format!(in alloc; ": yes, {text}"),
            _ => String::from_str(alloc, ": yes"),
        },
        WayTest::Is(..) | WayTest::Equal(..) => String::from_str(alloc, ": yes"),
        WayTest::Each(_) => Ok(String::new(alloc)),
    }
}

// Adds that a call gives no value that must give one.
fn push_failure(
    alloc: Global,
    entry: &LoweredTerm,
    way: &mut Way<'_, '_>,
    site: BindingId,
    out: &mut String,
) -> Result<(), AllocError> {
    let Some(Binding::MatchSome { source }) = entry.rules.bindings.get(site.index()) else {
        return Ok(());
    };
    let call = way.call(*source, out)?;
    let line = format!(in alloc; "fails, since {call} gives nothing")?;
    push_line(out, 2, &line)
}

fn push_return(
    alloc: Global,
    lines: &FileLines<'_>,
    lowered: &Lowered,
    entry: &LoweredTerm,
    (pos, site): (Pos, BindingId),
    out: &mut String,
) -> Result<(), AllocError> {
    let mut line = String::from_str(alloc, "returns by ")?;
    if let Some(rule) = rule_behind(&entry.rules, pos, site) {
        push_rule_place(lines, lowered, rule, &mut line)?;
    }
    push_line(out, 2, &line)
}
