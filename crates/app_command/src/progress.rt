//! What is being done, told while it is done.

use app_words::request::Request;
use cranelift_isle::syntax::{Def, Files};
use report_print::layout::push_reports;
use report_stack::deep_rule;
use std::alloc::{AllocError, Global};
use std::io::Write;

// How it is told what is being done.
#[derive(Clone, Copy, PartialEq, Eq)]
enum Form {
    // Not at all.
    Silent,
    // In lines.
    Lines,
    // In one line of a terminal, which the next one takes the place of.
    OneLine,
}

/// Why there is no answer.
#[derive(Clone, Copy)]
pub enum Unanswered {
    /// Memory was refused.
    Memory,
    /// A rule takes more stack than there is, which was told.
    Stack,
}

/// Tells on a writer what is being done, and that a rule takes more stack than there is. A failure of the writer changes nothing.
pub struct Teller<'a, E> {
    form: Form,
    // The bytes of stack that there are.
    stack: usize,
    // Whether it was told that a rule takes more.
    has_refused: bool,
    err: &'a mut E,
}

impl<'a, E> Drop for Teller<'a, E> {
    fn drop(self) {
        let Self {
            form: _,
            stack: _,
            has_refused: _,
            err: _,
        } = self;
    }
}

impl<'a, E: Write> Teller<'a, E> {
    /// Tells in lines where that is asked for, else on a terminal alone. No rule is refused for its stack.
    pub fn new(asked: bool, terminal: bool, err: &'a mut E) -> Teller<'a, E> {
        Teller::within(usize::MAX, asked, terminal, err)
    }

    /// The same, where there are so many bytes of stack.
    pub fn within(stack: usize, asked: bool, terminal: bool, err: &'a mut E) -> Teller<'a, E> {
        let form = if asked {
            Form::Lines
        } else if terminal {
            Form::OneLine
        } else {
            Form::Silent
        };
        Teller {
            form,
            stack,
            has_refused: false,
            err,
        }
    }

    /// Goes on if each rule takes at most the stack that there is.
    ///
    /// # Errors
    ///
    /// If memory is refused, or a rule takes more stack than there is, which is told then.
    pub fn check_stack(
        &mut self,
        alloc: Global,
        asked: &Request<'_>,
        files: &Files,
        defs: &[Def],
    ) -> Result<(), AllocError> {
        let Some(report) = deep_rule(alloc, defs, asked.expand, self.stack)? else {
            return Ok(());
        };
        let mut text = String::new(alloc);
        push_reports(&mut text, files, &[report], asked.layout())?;
        self.end();
        let _ = self.err.write_all(text.as_bytes());
        self.has_refused = true;
        Err(AllocError)
    }

    /// Why there is no answer, where there is none.
    pub fn why(&self) -> Unanswered {
        if self.has_refused {
            Unanswered::Stack
        } else {
            Unanswered::Memory
        }
    }

    /// Tells what is done from now on, and to what.
    pub fn tell(&mut self, what: &str, name: &str) {
        match self.form {
            Form::Silent => {}
            Form::Lines => self.write(["isle: ", what, " ", name, "\n"]),
            Form::OneLine => self.write(["\r\x1b[Kisle: ", what, " ", name, ""]),
        }
    }

    /// Tells that all is done: what stands in one line of a terminal is taken away.
    pub fn end(&mut self) {
        if self.form == Form::OneLine {
            self.write(["\r\x1b[K", "", "", "", ""]);
        }
    }

    fn write(&mut self, texts: [&str; 5]) {
        for text in texts {
            let _ = self.err.write_all(text.as_bytes());
        }
    }
}
