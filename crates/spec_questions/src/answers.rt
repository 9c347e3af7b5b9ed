//! What solvers wrote, and of which texts: a file of records.
//!
//! A line `> ..` is one of a text. A line `= SOLVER ..` says that a solver was asked the text above it; lines `< ..` behind it are what
//! the solver wrote. Several solvers may be asked one text. A line `> ..` behind an answer begins another text, as does one behind an
//! empty line.

ghost use Rattle.std.specs.Prelude.{ℕ, ◌≡◌, ◌&&◌, ◌||◌, List, IfOk, OnOk, string_bytes};
ghost use Rattle.std.specs.HashSet.{contains_text};
ghost use Rattle.std.specs.List.{list_any};
ghost use Rattle.std.specs.Str.{bytes_eq};
ghost use Rattle.spec_questions.specs.Refuting as Refuting;
ghost use Rattle.spec_questions.specs.Refuting.{says_sat, says_unsat};

use crate::replies::{Reply, reply_in};
use std::alloc::{AllocError, Global};
use std::collections::HashSet;
use std::mem;

/// What a solver wrote that was asked a text.
pub struct Answer {
    /// The text, with all its line ends.
    pub text: String,
    /// The solver's name, and what else stands on that line.
    pub solver: String,
    /// What it wrote.
    pub written: String,
    /// What it says, where it was asked for no values.
    pub reply: Reply,
}

impl Drop for Answer {
    fn drop(self) {
        let Answer {
            text: _,
            solver: _,
            written: _,
            reply: _,
        } = self;
    }
}

impl Answer {
    // Whether it says `unsat`.
    fn is_unsat(&self) -> bool
        ensures { result ≡ Refuting.is_unsat self.now.reply }
    {
        matches!(&self.reply, Reply::Unsat)
    }

    // Whether it says `sat`.
    fn is_sat(&self) -> bool
        ensures { result ≡ Refuting.is_sat self.now.reply }
    {
        matches!(&self.reply, Reply::Sat(_))
    }
}

/// Answers, which are found by the texts that solvers were asked.
pub struct Answers {
    /// All answers, in order.
    pub list: Vec<Answer>,
    // The texts to which an answer says `unsat`.
    unsat: HashSet<String>,
    // The texts to which an answer says `sat`.
    sat: HashSet<String>,
    ghost unsat_texts: { (text : List ℕ) → contains_text unsat text ≡ list_any (says_unsat text) list.items },
    ghost sat_texts: { (text : List ℕ) → contains_text sat text ≡ list_any (says_sat text) list.items },
}

impl Drop for Answers {
    fn drop(self) {
        let Answers {
            list: _,
            unsat: _,
            sat: _,
        } = self;
    }
}

impl Answers {
    /// These answers.
    pub fn of(alloc: Global, list: Vec<Answer>) -> Result<Answers, AllocError>
        ensures { IfOk result (λ answers. answers.list ≡ list) }
    {
        let mut unsat = HashSet::new(alloc);
        let mut sat = HashSet::new(alloc);
        for answer in &list {
            add_if(&mut unsat, &answer.text, answer.is_unsat())?;
            add_if(&mut sat, &answer.text, answer.is_sat())?;
        }
        Ok(Answers { list, unsat, sat })
    }

    /// Whether an answer to a text says `unsat`.
    pub fn say_unsat(&self, text: &str) -> bool
        ensures { result ≡ list_any (says_unsat text.now) self.now.list.items }
    {
        self.unsat.contains(text)
    }

    /// Whether an answer to a text says `sat`.
    pub fn say_sat(&self, text: &str) -> bool
        ensures { result ≡ list_any (says_sat text.now) self.now.list.items }
    {
        self.sat.contains(text)
    }
}

// Adds a text to others, if it is one of them.
fn add_if(texts: &mut HashSet<String>, text: &String, is_one: bool) -> Result<(), AllocError>
    ensures { OnOk result ((other : List ℕ) → contains_text texts.new other ≡ (contains_text texts.old other || (bytes_eq (string_bytes text.now) other && is_one))) }
{
    if is_one {
        texts.insert(text.clone()?)?;
    }
    Ok(())
}

// Reads records, a line at a time.
struct Reader {
    alloc: Global,
    answers: Vec<Answer>,
    // The text that the next answer is to.
    text: String,
    // The answer that is read, if one is: the solver, and what it wrote so far.
    asked: Option<(String, String)>,
}

impl Drop for Reader {
    fn drop(self) {
        let Reader {
            alloc: _,
            answers: _,
            text: _,
            asked: _,
        } = self;
    }
}

/// The answers of a file of records, in order. Lines of another form are passed over.
pub fn answers_in(alloc: Global, records: &str) -> Result<Answers, AllocError> {
    let mut reader = Reader {
        alloc,
        answers: Vec::new(alloc),
        text: String::new(alloc),
        asked: None,
    };
    for line in records.lines() {
        reader.read(line)?;
    }
    reader.end_answer()?;
    Answers::of(alloc, reader.into_answers())
}

impl Reader {
    // Reads a line.
    fn read(&mut self, line: &str) -> Result<(), AllocError> {
        if let Some(rest) = line.strip_prefix("> ") {
            if self.end_answer()? {
                self.text.clear();
            }
            push_line(&mut self.text, rest)
        } else if let Some(solver) = line.strip_prefix("= ") {
            self.end_answer()?;
            self.asked = Some((
                String::from_str(self.alloc, solver)?,
                String::new(self.alloc),
            ));
            Ok(())
        } else if let Some(rest) = line.strip_prefix("< ") {
            match &mut self.asked {
                Some((_, written)) => push_line(written, rest),
                None => Ok(()),
            }
        } else if line.is_empty() {
            self.end_answer()?;
            self.text.clear();
            Ok(())
        } else {
            Ok(())
        }
    }

    // Adds the answer that was read. False if none was.
    fn end_answer(&mut self) -> Result<bool, AllocError> {
        let Some((solver, written)) = mem::replace(&mut self.asked, None) else {
            return Ok(false);
        };
        let reply = reply_in(self.alloc, &written, 0)?;
        self.answers.push(Answer {
            text: self.text.clone()?,
            solver,
            written,
            reply,
        })?;
        Ok(true)
    }

    // The answers.
    fn into_answers(self) -> Vec<Answer> {
        let Reader {
            alloc: _,
            answers,
            text: _,
            asked: _,
        } = self;
        answers
    }
}

// Adds a line with its end.
fn push_line(out: &mut String, line: &str) -> Result<(), AllocError> {
    out.push_str(line)?;
    out.push('\n')
}

/// Adds a text as lines of a file of records.
pub fn push_text(out: &mut String, text: &str) -> Result<(), AllocError> {
    for line in text.lines() {
        out.push_str("> ")?;
        push_line(out, line)?;
    }
    Ok(())
}
