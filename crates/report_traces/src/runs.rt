//! Runs of calls, and of the calls of terms with rules that they make.

ghost use Rattle.std.specs.Prelude.{◌≡◌, IfOk, string_bytes};
ghost use Rattle.cranelift_isle.specs.Envs.{constant_at};
ghost use Rattle.cranelift_isle.specs.Lowerings.{lowered_view};
ghost use Rattle.run_terms.specs.RunViews.{arg_views, call_views, outcome_view};
ghost use Rattle.report_traces.specs.CallAnswers.{is_multi_in, outcome_under};
ghost use Rattle.report_traces.specs.KnownAnswers.{answered};
ghost use Rattle.report_traces.specs.OutcomeTexts.{names_in, outcome_words, with_calls};
ghost use Rattle.report_traces.specs.RunAnswers.{answered_in};

use crate::asked::{AskedCall, Count, Side, asked_text, count_of};
use crate::faults::{TraceFault, fault_saying};
use crate::known::{Answered, Known};
use crate::outcomes::{listed_text, outcome_text};
use crate::replies::Replies;
use crate::trace_text::{push_events, push_title};
use crate::walk::{Event, Walked, walk_over};
use cranelift_isle::lower::{Lowered, LoweredTerm};
use cranelift_isle::sema::{TermId, TypeId};
use cranelift_isle::syntax::Pos;
use report_print::lines::FileLines;
use report_queries::premises::is_multi;
use report_queries::rules::lowered_term;
use run_terms::run::run;
use run_terms::state::{Call, Ending, Outcome};
use run_terms::values::{Content, Value, value_clones};
use std::alloc::{AllocError, Global};
use std::mem;

// How many calls of terms with rules may be in one another.
const DEEPEST: usize = 200;

// How many calls may be answered.
const MOST_CALLS: usize = 20000;

// A run that isn't ended.
struct Frame<'a> {
    entry: &'a LoweredTerm,
    // The call that is run.
    asked: AskedCall,
    // The answers to its impure calls, in order.
    made: Vec<Content>,
    // Its impure calls. A call that was run itself stands here as the calls that it made.
    calls: Vec<Call>,
}

impl<'a> Drop for Frame<'a> {
    fn drop(self) {
        let Self {
            entry: _,
            asked: _,
            made: _,
            calls: _,
        } = self;
    }
}

impl<'a> Frame<'a> {
    fn into_parts(self) -> (AskedCall, Vec<Content>, Vec<Call>) {
        let Self {
            entry: _,
            asked,
            made,
            calls,
        } = self;
        (asked, made, calls)
    }
}

/// What a run came to.
pub struct Ended {
    /// The call that was run.
    pub asked: AskedCall,
    /// The answers to its impure calls, in order.
    pub made: Vec<Content>,
    /// The outcome, which is that of the proved run.
    pub outcome: Outcome,
    /// Its impure calls as they are listed: one that was run itself stands there as the calls that it made.
    pub calls: Vec<Call>,
    /// The places of the rules that returns took.
    pub taken: Vec<Pos>,
}

impl Drop for Ended {
    fn drop(self) {
        let Self {
            asked: _,
            made: _,
            outcome: _,
            calls: _,
            taken: _,
        } = self;
    }
}

impl Ended {
    fn into_parts(self) -> (AskedCall, Outcome, Vec<Call>) {
        let Self {
            asked,
            made: _,
            outcome,
            calls,
            taken: _,
        } = self;
        (asked, outcome, calls)
    }

    /// The outcome in words, with its impure calls as they are listed.
    ///
    /// # Errors
    ///
    /// Where memory is refused.
    pub fn text(&self, alloc: Global, lowered: &Lowered, multi: bool) -> Result<String, AllocError>
        ensures { IfOk result (λ text. string_bytes text
            ≡ outcome_words (names_in lowered.now) multi (with_calls (call_views self.now.calls.items) (outcome_view self.now.outcome))) }
    {
        listed_text(alloc, lowered, multi, &self.outcome, &self.calls)
    }
}

/// Runs, with the answers that are known by now.
pub struct Runs<'a, 'f> {
    alloc: Global,
    lowered: &'a Lowered,
    lines: &'a FileLines<'f>,
    replies: &'a Replies,
    extracted: Vec<Known>,
    called: Vec<Known>,
    frames: Vec<Frame<'a>>,
    // Whether it is told what happens in runs.
    tells: bool,
    told: String,
}

impl<'a, 'f> Drop for Runs<'a, 'f> {
    fn drop(self) {
        let Self {
            alloc: _,
            lowered: _,
            lines: _,
            replies: _,
            extracted: _,
            called: _,
            frames: _,
            tells: _,
            told: _,
        } = self;
    }
}

impl<'a, 'f> Runs<'a, 'f> {
    /// No run. If `tells` is true, `told` will say what happens in runs.
    pub fn new(
        alloc: Global,
        lowered: &'a Lowered,
        lines: &'a FileLines<'f>,
        replies: &'a Replies,
        tells: bool,
    ) -> Runs<'a, 'f> {
        Runs {
            alloc,
            lowered,
            lines,
            replies,
            extracted: Vec::new(alloc),
            called: Vec::new(alloc),
            frames: Vec::new(alloc),
            tells,
            told: String::new(alloc),
        }
    }

    /// What happened in runs, in the order in which they ended.
    pub fn told(&self) -> &str {
        &self.told
    }

    /// The answers that are known, where named constants are those of `lowered`, with these answers to impure calls.
    pub fn answered<'b>(&'b self, lowered: &'b Lowered, made: &'b [Content]) -> Answered<'b>
        ensures { answered (constant_at result.tyenv.now) result.extracted.now result.called.now result.made.now
            ≡ answered_in lowered.now self.now made.now }
    {
        Answered {
            tyenv: &lowered.tyenv,
            extracted: &self.extracted,
            called: &self.called,
            made,
        }
    }

    /// Runs the tree of a term of `lowered` on arguments. The outcome is that of the tree's run by the answers that are known when
    /// it has ended.
    ///
    /// # Errors
    ///
    /// A call that it needs has no answer, or there are too many calls.
    pub fn run(
        &mut self,
        lowered: &Lowered,
        entry: &'a LoweredTerm,
        args: &[Value],
    ) -> Result<Ended, TraceFault>
        ensures { IfOk result (λ ended. outcome_view ended.outcome
            ≡ outcome_under (answered_in lowered.now self.new ended.made.items) (is_multi_in lowered.now entry.now.id.0) (lowered_view entry.now) (arg_views args.now)) }
    {
        self.push_frame(
            entry,
            AskedCall {
                side: Side::Constructor,
                term: entry.id,
                args: value_clones(self.alloc, args)?,
                impure: false,
            },
        )?;
        let (frame, walked) = self.run_all()?;
        self.end(lowered, entry, args, frame, walked)
    }

    /// Makes the answer to a call known that isn't impure.
    ///
    /// # Errors
    ///
    /// There is none, or there are too many calls.
    pub fn learn(&mut self, asked: AskedCall) -> Result<(), TraceFault> {
        self.answer(asked)?;
        if self.frames.is_empty() {
            return Ok(());
        }
        let (frame, walked) = self.run_all()?;
        self.give_end(frame, walked)
    }

    // Begins a run.
    fn push_frame(&mut self, entry: &'a LoweredTerm, asked: AskedCall) -> Result<(), AllocError> {
        let made = Vec::new(self.alloc);
        let calls = Vec::new(self.alloc);
        self.frames.push(Frame {
            entry,
            asked,
            made,
            calls,
        })?;
        Ok(())
    }

    // Runs all that was begun: the first run, and its walk to the end. After a fault no run is begun.
    fn run_all(&mut self) -> Result<(Frame<'a>, Walked), TraceFault> {
        let ran = self.go_on_to_end();
        if ran.is_err() {
            self.frames.clear();
        }
        ran
    }

    fn go_on_to_end(&mut self) -> Result<(Frame<'a>, Walked), TraceFault> {
        for _ in 0..MOST_CALLS {
            match self.go_on()? {
                Some(ran) => return Ok(ran),
                None => {}
            }
        }
        let alloc = self.alloc;
        Err(fault_saying(format!(in alloc; "error[limit]: more than {MOST_CALLS} calls")))
    }

    // Runs the last run from its beginning: it ends, or asks for an answer. The first run, where that ended; the result of another
    // one is given to the run that asked.
    fn go_on(&mut self) -> Result<Option<(Frame<'a>, Walked)>, TraceFault> {
        let mut walked = self.walked()?;
        if let Some(asked) = walked.asked.pop() {
            self.answer(asked)?;
            return Ok(None);
        }
        let Some(frame) = self.frames.pop() else {
            return Ok(None);
        };
        if self.frames.is_empty() {
            return Ok(Some((frame, walked)));
        }
        self.give_end(frame, walked)?;
        Ok(None)
    }

    // Walks the last run.
    fn walked(&self) -> Result<Walked, TraceFault> {
        let alloc = self.alloc;
        let Some(frame) = self.frames.last() else {
            return Err(fault_saying(String::from_str(alloc, "error[call]: nothing to run")));
        };
        let multi = self.is_multi(frame.entry.id);
        let answered = self.answered(self.lowered, &frame.made);
        let walked = walk_over(alloc, &answered, frame.entry, &frame.asked.args, multi)?;
        Ok(walked)
    }

    fn is_multi(&self, term: TermId) -> bool {
        is_multi(&self.lowered.termenv, term)
    }

    // Gives the answer to a call, or begins the call's own run.
    fn answer(&mut self, asked: AskedCall) -> Result<(), TraceFault> {
        let before = match self.frames.last() {
            Some(frame) => frame.made.len(),
            None => 0,
        };
        match self
            .replies
            .answer(self.alloc, self.lowered, &asked, before)?
        {
            Some(content) => {
                let calls = self.listed(&asked)?;
                self.give(asked, content, calls)
            }
            None => self.begin(asked),
        }
    }

    fn listed(&self, asked: &AskedCall) -> Result<Vec<Call>, AllocError> {
        let mut calls = Vec::new(self.alloc);
        if asked.impure {
            let args = value_clones(self.alloc, &asked.args)?;
            calls.push(Call {
                term: asked.term,
                args,
            })?;
        }
        Ok(calls)
    }

    fn begin(&mut self, asked: AskedCall) -> Result<(), TraceFault> {
        let alloc = self.alloc;
        if asked.side == Side::Constructor {
            if let Some(entry) = lowered_term(self.lowered, asked.term) {
                if self.frames.len() < DEEPEST {
                    self.push_frame(entry, asked)?;
                    return Ok(());
                }
                let text = asked_text(alloc, self.lowered, &asked)?;
                return Err(fault_saying(format!(in alloc;
                    "error[limit]: more than {DEEPEST} calls in one another, the last one of {text}"
                )));
            }
        }
        Err(TraceFault::NoAnswer(asked_text(alloc, self.lowered, &asked)?))
    }

    // Makes an answer known. The impure calls that were made for it are listed in the run that asked.
    fn give(
        &mut self,
        mut asked: AskedCall,
        content: Content,
        mut calls: Vec<Call>,
    ) -> Result<(), TraceFault> {
        if asked.impure {
            if let Some(frame) = self.frames.last_mut() {
                frame.made.push(content)?;
                frame.calls.append(&mut calls)?;
            }
            return Ok(());
        }
        let term = asked.term;
        match asked.side {
            Side::Extractor => {
                if let Some(key) = asked.args.pop() {
                    self.extracted.push(Known { term, key, content })?;
                }
            }
            Side::Constructor => {
                let args = value_clones(self.alloc, &asked.args)?;
                let key = Value::Struct(TypeId::BOOL, args);
                self.called.push(Known { term, key, content })?;
            }
        }
        Ok(())
    }

    // Ends a run that was asked for: its result is given to what asked.
    fn give_end(&mut self, frame: Frame<'a>, walked: Walked) -> Result<(), TraceFault> {
        let entry = frame.entry;
        let args = value_clones(self.alloc, &frame.asked.args)?;
        let ended = self.end(self.lowered, entry, &args, frame, walked)?;
        if self.tells {
            self.tell_outcome(&ended)?;
        }
        self.give_result(ended)
    }

    // What the run of a term on arguments came to that was walked so.
    fn end(
        &mut self,
        lowered: &Lowered,
        entry: &LoweredTerm,
        args: &[Value],
        frame: Frame<'a>,
        walked: Walked,
    ) -> Result<Ended, TraceFault>
        ensures { IfOk result (λ ended. outcome_view ended.outcome
            ≡ outcome_under (answered_in lowered.now self.new ended.made.items) (is_multi_in lowered.now entry.now.id.0) (lowered_view entry.now) (arg_views args.now)) }
    {
        if self.tells {
            self.tell(&frame, &walked)?;
        }
        let taken = taken_in(self.alloc, &walked.events)?;
        let (asked, made, calls) = frame.into_parts();
        let multi = is_multi(&lowered.termenv, entry.id);
        let outcome = self.outcome_by(lowered, &made, entry, args, multi)?;
        self.check(asked.term, &outcome, &walked.outcome)?;
        Ok(Ended {
            asked,
            made,
            outcome,
            calls,
            taken,
        })
    }

    // The outcome of a term's tree on arguments by the answers that are known, and these to its impure calls.
    fn outcome_by(
        &self,
        lowered: &Lowered,
        made: &[Content],
        entry: &LoweredTerm,
        args: &[Value],
        multi: bool,
    ) -> Result<Outcome, AllocError>
        ensures { IfOk result (λ o. outcome_view o
            ≡ outcome_under (answered_in lowered.now self.now made.now) multi (lowered_view entry.now) (arg_views args.now)) }
    {
        let answered = self.answered(lowered, made);
        run(
            self.alloc,
            &answered,
            &entry.rules,
            &entry.block,
            args,
            multi,
        )
    }

    // Compares a walk's outcome with that of the run by the same answers.
    fn check(&self, term: TermId, outcome: &Outcome, walked: &Outcome) -> Result<(), TraceFault> {
        let alloc = self.alloc;
        let multi = self.is_multi(term);
        let wanted = outcome_text(alloc, self.lowered, multi, outcome)?;
        let text = outcome_text(alloc, self.lowered, multi, walked)?;
        if text.as_str() == wanted.as_str() {
            return Ok(());
        }
        Err(fault_saying(format!(in alloc;
            "error[internal]: the trace comes to `{text}`, but the run to `{wanted}`"
        )))
    }

    fn tell(&mut self, frame: &Frame<'a>, walked: &Walked) -> Result<(), AllocError> {
        let alloc = self.alloc;
        let title = asked_text(alloc, self.lowered, &frame.asked)?;
        push_title(&mut self.told, &title)?;
        push_events(
            alloc,
            (self.lines, self.lowered),
            frame.entry,
            walked,
            &mut self.told,
        )
    }

    fn tell_outcome(&mut self, ended: &Ended) -> Result<(), AllocError> {
        let multi = self.is_multi(ended.asked.term);
        let text = ended.text(self.alloc, self.lowered, multi)?;
        self.told.push_str(&text)?;
        self.told.push('\n')
    }

    // Gives the result of a run to the run that asked.
    fn give_result(&mut self, ended: Ended) -> Result<(), TraceFault> {
        let (asked, mut outcome, calls) = ended.into_parts();
        let content = self.result_of(&asked, &mut outcome)?;
        self.give(asked, content, calls)
    }

    // The answer to a call whose run came to this.
    fn result_of(&self, asked: &AskedCall, outcome: &mut Outcome) -> Result<Content, TraceFault> {
        let results = &mut outcome.trace.results;
        match (self.count_of(asked.term), outcome.ending) {
            (Count::Many, Ending::RanThrough) => Ok(Content::Many(mem::replace(
                results,
                Vec::new(self.alloc),
            ))),
            (_, Ending::Ended) => match results.pop() {
                Some(content) => Ok(content),
                None => Ok(Content::Nothing),
            },
            (Count::Optional, Ending::RanThrough | Ending::Failed) => Ok(Content::Nothing),
            (_, Ending::RanThrough) => Err(self.no_result(asked, "no rule takes")),
            (_, Ending::Failed) => Err(self.no_result(asked, "there is no result of")),
            (_, Ending::Stuck) => Err(self.no_result(asked, "the run is stuck in")),
        }
    }

    // How many results a term may have.
    fn count_of(&self, term: TermId) -> Count {
        match self.lowered.termenv.terms.get(term.index()) {
            Some(term) => count_of(term, Side::Constructor),
            None => Count::One,
        }
    }

    // That a call that must have a result has none.
    fn no_result(&self, asked: &AskedCall, why: &str) -> TraceFault {
        let alloc = self.alloc;
        match asked_text(alloc, self.lowered, asked) {
            Ok(text) => fault_saying(format!(in alloc; "error[call]: {why} {text}")),
            Err(AllocError) => TraceFault::Memory,
        }
    }
}

// The places of the rules that returns took.
fn taken_in(alloc: Global, events: &[Event]) -> Result<Vec<Pos>, AllocError> {
    let mut taken = Vec::new(alloc);
    for event in events {
        match event {
            Event::Return(pos) => taken.push(*pos)?,
            _ => {}
        }
    }
    Ok(taken)
}
