//! Parts in the notation of rules.

use crate::forms::{ValueForm, is_constant, push_form};
use crate::part_names::PartNames;
use crate::value_parts::{Call, Head, Parts};
use std::alloc::{AllocError, Global};

// How many pieces a text may have.
const MOST_PIECES: usize = 1 << 16;

// A piece of a text.
#[derive(Clone, Copy)]
enum Piece {
    // These characters.
    Text(&'static str),
    // A pattern that says all of a part.
    Pattern(usize),
    // One of the forms of a part, in a pattern.
    Head(usize, usize),
    // The end of a part's pattern.
    End(usize),
    // A part in an expression.
    Value(usize),
    // A form of a part that is taken apart into values.
    Taken(usize, usize),
    // A call.
    Call(usize),
}

// How much of a part's pattern is written.
#[derive(Clone, Copy, PartialEq, Eq)]
enum State {
    Unwritten,
    Begun,
    Written,
}

/// A text that has parts.
pub(crate) struct Writing<'p, 'a> {
    alloc: Global,
    parts: &'p Parts<'a>,
    /// The names of parts in the text.
    pub names: PartNames<'p, 'a>,
    states: Vec<State>,
    // Whether a part has its variable's name, even if it is a constant.
    by_variables: bool,
    // Whether a value is a part of itself, or the text is too long.
    failed: bool,
}

impl<'p, 'a> Drop for Writing<'p, 'a> {
    fn drop(self) {
        let Writing {
            alloc: _,
            parts: _,
            names: _,
            states: _,
            by_variables: _,
            failed: _,
        } = self;
    }
}

impl<'p, 'a> Writing<'p, 'a> {
    /// An empty text. If `by_variables` is true, each part will have its variable's name. Else only a part that the text has
    /// again will have a name.
    pub fn new(
        alloc: Global,
        parts: &'p Parts<'a>,
        by_variables: bool,
    ) -> Result<Writing<'p, 'a>, AllocError> {
        let mut states = Vec::new(alloc);
        for _ in 0..parts.count() {
            states.push(State::Unwritten)?;
        }
        Ok(Writing {
            alloc,
            parts,
            names: PartNames::new(alloc, parts)?,
            states,
            by_variables,
            failed: parts.is_cut(),
        })
    }

    /// Whether the text says nothing, because a value is a part of itself or there is too much to say.
    pub fn has_failed(&self) -> bool {
        self.failed
    }

    // The constant that a part is, where that is all that is asked of it.
    fn constant(&self, part: usize) -> Option<&'p Head<'a>> {
        match self.parts.heads(part) {
            [head] if is_constant(head.form) => Some(head),
            _ => None,
        }
    }

    /// Adds a call of the term with patterns for its arguments, and behind it the further conditions.
    pub fn push_left_side(&mut self, term: &str, out: &mut String) -> Result<(), AllocError> {
        out.push('(')?;
        out.push_str(term)?;
        for part in self.parts.arguments() {
            out.push(' ')?;
            self.push(Piece::Pattern(*part), out)?;
        }
        out.push(')')?;
        for (number, call) in self.parts.calls().iter().enumerate() {
            if call.asked {
                self.push_condition(number, call, out)?;
            }
        }
        Ok(())
    }

    fn push_condition(
        &mut self,
        number: usize,
        call: &Call<'a>,
        out: &mut String,
    ) -> Result<(), AllocError> {
        if is_constant(call.form) {
            return Ok(());
        }
        if self.parts.heads(call.part).is_empty() && !self.names.is_used_again(call.part) {
            out.push_str(" (if ")?;
        } else {
            out.push_str(" (if-let ")?;
            self.push(Piece::Pattern(call.part), out)?;
            out.push(' ')?;
        }
        self.push(Piece::Call(number), out)?;
        out.push(')')
    }

    /// Adds a part as it stands in an expression.
    pub fn push_value(&mut self, part: usize, out: &mut String) -> Result<(), AllocError> {
        self.push(Piece::Value(part), out)
    }

    /// Adds a form of a part, taken apart into values.
    pub fn push_taken(
        &mut self,
        part: usize,
        number: usize,
        out: &mut String,
    ) -> Result<(), AllocError> {
        self.push(Piece::Taken(part, number), out)
    }

    /// Adds a call.
    pub fn push_call(&mut self, number: usize, out: &mut String) -> Result<(), AllocError> {
        self.push(Piece::Call(number), out)
    }

    // Adds a piece with all that it is made of.
    fn push(&mut self, piece: Piece, out: &mut String) -> Result<(), AllocError> {
        let mut waiting = Vec::new(self.alloc);
        waiting.push(piece)?;
        for _ in 0..MOST_PIECES {
            let Some(piece) = waiting.pop() else {
                return Ok(());
            };
            self.push_piece(piece, &mut waiting, out)?;
        }
        self.failed = true;
        Ok(())
    }

    // Adds a piece. What it is made of waits then.
    fn push_piece(
        &mut self,
        piece: Piece,
        waiting: &mut Vec<Piece>,
        out: &mut String,
    ) -> Result<(), AllocError> {
        match piece {
            Piece::Text(text) => out.push_str(text),
            Piece::Pattern(part) => self.push_pattern(part, waiting, out),
            Piece::Head(part, number) => self.push_head(part, number, true, waiting, out),
            Piece::End(part) => {
                self.set_state(part, State::Written);
                Ok(())
            }
            Piece::Value(part) => self.push_one_value(part, waiting, out),
            Piece::Taken(part, number) => self.push_head(part, number, false, waiting, out),
            Piece::Call(number) => self.push_one_call(number, waiting, out),
        }
    }

    fn push_pattern(
        &mut self,
        part: usize,
        waiting: &mut Vec<Piece>,
        out: &mut String,
    ) -> Result<(), AllocError> {
        if let Some(head) = self.constant(part) {
            return push_form(out, head.form);
        }
        let state = self.state(part);
        if state == State::Begun {
            self.failed = true;
        }
        if state == State::Unwritten {
            return self.begin_pattern(part, waiting, out);
        }
        self.names.give_name(part)?;
        out.push_str(self.names.name(part))
    }

    fn begin_pattern(
        &mut self,
        part: usize,
        waiting: &mut Vec<Piece>,
        out: &mut String,
    ) -> Result<(), AllocError> {
        let count = self.parts.heads(part).len();
        if self.names.is_used_again(part) {
            self.names.give_name(part)?;
            out.push_str(self.names.name(part))?;
            out.push_str(if count == 0 { "" } else { " @ " })?;
        } else if count == 0 {
            out.push('_')?;
        }
        self.set_state(part, State::Begun);
        waiting.push(Piece::End(part))?;
        if count > 1 {
            out.push_str("(and ")?;
            waiting.push(Piece::Text(")"))?;
        }
        for number in (0..count).rev() {
            waiting.push(Piece::Head(part, number))?;
            if number > 0 {
                waiting.push(Piece::Text(" "))?;
            }
        }
        Ok(())
    }

    // Adds a form of a part: what it is made of is written as patterns, or else as values.
    fn push_head(
        &mut self,
        part: usize,
        number: usize,
        in_pattern: bool,
        waiting: &mut Vec<Piece>,
        out: &mut String,
    ) -> Result<(), AllocError> {
        let parts = self.parts;
        let Some(head) = parts.heads(part).get(number) else {
            return Ok(());
        };
        if is_constant(head.form) {
            return push_form(out, head.form);
        }
        begin_term(head.form, out)?;
        wait_for(&head.parts, in_pattern, waiting)
    }

    // Adds a part as it stands in an expression.
    fn push_one_value(
        &mut self,
        part: usize,
        waiting: &mut Vec<Piece>,
        out: &mut String,
    ) -> Result<(), AllocError> {
        if !self.names.name(part).is_empty() {
            return out.push_str(self.names.name(part));
        }
        let named = self.by_variables && !self.parts.name(part).is_empty();
        if !named {
            if let Some(head) = self.constant(part) {
                return push_form(out, head.form);
            }
            if let Some(number) = self.call_of(part) {
                return self.push_one_call(number, waiting, out);
            }
            if self.parts.name(part).is_empty() && self.parts.heads(part).is_empty() {
                return out.push('_');
            }
        }
        self.names.give_name(part)?;
        out.push_str(self.names.name(part))
    }

    fn call_of(&self, part: usize) -> Option<usize> {
        let class = self.parts.class_of(part);
        self.parts
            .calls()
            .iter()
            .position(|call| self.parts.class_of(call.part) == class)
    }

    fn push_one_call(
        &mut self,
        number: usize,
        waiting: &mut Vec<Piece>,
        out: &mut String,
    ) -> Result<(), AllocError> {
        let parts = self.parts;
        let Some(call) = parts.calls().get(number) else {
            return Ok(());
        };
        if is_constant(call.form) {
            return push_form(out, call.form);
        }
        begin_term(call.form, out)?;
        wait_for(&call.parts, false, waiting)
    }

    // How much of a part's pattern is written.
    fn state(&self, part: usize) -> State {
        match self.states.get(self.parts.class_of(part)) {
            Some(state) => *state,
            None => State::Written,
        }
    }

    // Notes how much of a part's pattern is written.
    fn set_state(&mut self, part: usize, state: State) {
        let class = self.parts.class_of(part);
        if let Some(place) = self.states.get_mut(class) {
            *place = state;
        }
    }
}

fn begin_term(form: ValueForm<'_>, out: &mut String) -> Result<(), AllocError> {
    out.push('(')?;
    push_form(out, form)
}

// What a term's use is made of waits, and its end.
fn wait_for(parts: &[usize], in_pattern: bool, waiting: &mut Vec<Piece>) -> Result<(), AllocError> {
    waiting.push(Piece::Text(")"))?;
    for part in parts.iter().rev() {
        waiting.push(if in_pattern {
            Piece::Pattern(*part)
        } else {
            Piece::Value(*part)
        })?;
        waiting.push(Piece::Text(" "))?;
    }
    Ok(())
}
