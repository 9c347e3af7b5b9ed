//! The conditions of a rule in its own words, a line for each.

use crate::extractors::Extractors;
use crate::forms::{ValueForm, is_constant};
use crate::parts_text::Writing;
use crate::rule_demands::parts_of;
use crate::value_parts::{Head, Parts};
use crate::witness::term_of;
use core_syntax::syntax::{Expr, LetDef, Rule};
use std::alloc::{AllocError, Global};

// How many parts below one get their conditions.
const MOST_CONDITIONS: usize = 1 << 20;

/// The conditions of a rule, as text.
pub struct Conditions<'a> {
    /// The rule's term with the names of its arguments.
    pub call: String,
    /// The names of the arguments. `_` is an argument without a name or a condition.
    pub arguments: Vec<String>,
    /// The conditions.
    pub lines: Vec<String>,
    /// The values that the arguments are. Equal numbers are equal values.
    pub values: Vec<usize>,
    /// What is demanded of the values, in order.
    pub demands: Vec<Demand<'a>>,
}

impl<'a> Drop for Conditions<'a> {
    fn drop(self) {
        let Conditions {
            call: _,
            arguments: _,
            lines: _,
            values: _,
            demands: _,
        } = self;
    }
}

/// A demand of a rule.
pub struct Demand<'a> {
    /// The demand as text.
    pub text: String,
    /// What is demanded.
    pub what: DemandKind<'a>,
}

impl<'a> Drop for Demand<'a> {
    fn drop(self) {
        let Demand { text: _, what: _ } = self;
    }
}

/// A value that a demand speaks of.
#[derive(Clone, Copy)]
pub enum Spoken<'a> {
    /// The value of this number.
    Value(usize),
    /// A constant.
    Constant(ValueForm<'a>),
}

/// What a rule demands.
#[derive(Drop)]
pub enum DemandKind<'a> {
    /// The value of a number has a form that is made of these.
    Form(usize, ValueForm<'a>, Vec<Spoken<'a>>),
    /// A call of these gives the value of a number.
    Call(ValueForm<'a>, Vec<Spoken<'a>>, usize),
    /// All that is the value of a number is equal.
    Equal(usize),
}

/// The conditions of a rule.
pub fn conditions_of<'a>(alloc: Global, rule: &'a Rule) -> Result<Conditions<'a>, AllocError> {
    let parts = parts_of(alloc, &Extractors::none(alloc), &[rule])?;
    let mut lines = Lines::new(alloc, &parts)?;
    let mut call = String::new(alloc);
    let arguments = lines.push_term(term_of(rule), &mut call)?;
    lines.add_all()?;
    let (lines, demands) = lines.into_parts();
    Ok(Conditions {
        call,
        arguments,
        lines,
        values: classes_of(alloc, &parts)?,
        demands,
    })
}

// The values that the arguments are.
fn classes_of(alloc: Global, parts: &Parts<'_>) -> Result<Vec<usize>, AllocError> {
    let mut values = Vec::new(alloc);
    for part in parts.arguments() {
        values.push(parts.class_of(*part))?;
    }
    Ok(values)
}

// The lines of conditions that are written so far.
struct Lines<'p, 'a> {
    alloc: Global,
    parts: &'p Parts<'a>,
    writing: Writing<'p, 'a>,
    // Whether the conditions of each class are written.
    done: Vec<bool>,
    lines: Vec<String>,
    demands: Vec<Demand<'a>>,
}

impl<'p, 'a> Drop for Lines<'p, 'a> {
    fn drop(self) {
        let Lines {
            alloc: _,
            parts: _,
            writing: _,
            done: _,
            lines: _,
            demands: _,
        } = self;
    }
}

impl<'p, 'a> Lines<'p, 'a> {
    // Nothing is written.
    fn new(alloc: Global, parts: &'p Parts<'a>) -> Result<Lines<'p, 'a>, AllocError> {
        let mut done = Vec::new(alloc);
        for _ in 0..parts.count() {
            done.push(false)?;
        }
        Ok(Lines {
            alloc,
            parts,
            writing: Writing::new(alloc, parts, true)?,
            done,
            lines: Vec::new(alloc),
            demands: Vec::new(alloc),
        })
    }

    fn into_parts(self) -> (Vec<String>, Vec<Demand<'a>>) {
        let Lines {
            alloc: _,
            parts: _,
            writing: _,
            done: _,
            lines,
            demands,
        } = self;
        (lines, demands)
    }

    fn push(&mut self, line: String, what: DemandKind<'a>) -> Result<(), AllocError> {
        let text = line.clone()?;
        self.lines.push(line)?;
        self.demands.push(Demand { text, what })?;
        Ok(())
    }

    // Adds the term with the names of its arguments. The names.
    fn push_term(&mut self, term: &str, out: &mut String) -> Result<Vec<String>, AllocError> {
        let parts = self.parts;
        let mut names = Vec::new(self.alloc);
        out.push('(')?;
        out.push_str(term)?;
        for (place, part) in parts.arguments().iter().enumerate() {
            self.name_argument(place, *part)?;
            let mut name = String::new(self.alloc);
            self.writing.push_value(*part, &mut name)?;
            out.push(' ')?;
            out.push_str(&name)?;
            names.push(name)?;
        }
        out.push(')')?;
        Ok(names)
    }

    // Names an argument by its place, if it has a condition and no name.
    fn name_argument(&mut self, place: usize, part: usize) -> Result<(), AllocError> {
        let named = !self.parts.name(part).is_empty() || !self.writing.names.name(part).is_empty();
        if named || self.parts.heads(part).is_empty() {
            return Ok(());
        }
        let name = format!(in self.alloc; "arg{place}")?;
        if self.parts.is_var(&name) {
            return self.writing.names.give_name(part);
        }
        self.writing.names.set_name(part, name);
        Ok(())
    }

    fn add_all(&mut self) -> Result<(), AllocError> {
        let parts = self.parts;
        for part in parts.arguments() {
            self.add_part(*part)?;
        }
        self.add_calls()?;
        self.add_variables()
    }

    // Adds the further conditions.
    fn add_calls(&mut self) -> Result<(), AllocError> {
        let parts = self.parts;
        let mut first = 0;
        for (number, call) in parts.calls().iter().enumerate() {
            if call.asked && !is_constant(call.form) {
                let text = self.add_call(number, call.part)?;
                self.push_calls(first, number, &text)?;
                first = number.saturating_add(1);
                self.add_part(call.part)?;
            }
        }
        Ok(())
    }

    // Adds the conditions of a part, and of the parts that it is made of.
    fn add_part(&mut self, part: usize) -> Result<(), AllocError> {
        let mut waiting = Vec::new(self.alloc);
        waiting.push(part)?;
        for _ in 0..MOST_CONDITIONS {
            let Some(part) = waiting.pop() else {
                return Ok(());
            };
            self.add_one(part, &mut waiting)?;
        }
        Ok(())
    }

    // Adds the conditions of a part. The parts that it is made of wait then.
    fn add_one(&mut self, part: usize, waiting: &mut Vec<usize>) -> Result<(), AllocError> {
        let parts = self.parts;
        if self.is_done(part) || self.writing.names.name(part).is_empty() {
            return Ok(());
        }
        self.set_done(part);
        self.add_heads(part)?;
        for head in parts.heads(part).iter().rev() {
            push_reversed(&head.parts, waiting)?;
        }
        Ok(())
    }

    fn add_heads(&mut self, part: usize) -> Result<(), AllocError> {
        for number in 0..self.parts.heads(part).len() {
            let mut line = String::from_str(self.alloc, self.writing.names.name(part))?;
            line.push_str(" is ")?;
            self.writing.push_taken(part, number, &mut line)?;
            self.push_form(part, number, line)?;
        }
        Ok(())
    }

    fn push_form(&mut self, part: usize, number: usize, line: String) -> Result<(), AllocError> {
        let parts = self.parts;
        let Some(head) = parts.heads(part).get(number) else {
            return Ok(());
        };
        let taken = self.taken_by(head)?;
        let class = parts.class_of(part);
        self.push(line, DemandKind::Form(class, head.form, taken))
    }

    // What a form is made of, as its text says it: a part that is a constant and has no name stands there as the constant.
    fn taken_by(&self, head: &Head<'a>) -> Result<Vec<Spoken<'a>>, AllocError> {
        let mut taken = Vec::new(self.alloc);
        for part in &head.parts {
            taken.push(if self.writing.names.name(*part).is_empty() {
                self.spoken(*part)
            } else {
                Spoken::Value(self.parts.class_of(*part))
            })?;
        }
        Ok(taken)
    }

    // A part: the constant that it is, or its value.
    fn spoken(&self, part: usize) -> Spoken<'a> {
        match self.parts.heads(part) {
            [head] if is_constant(head.form) => Spoken::Constant(head.form),
            _ => Spoken::Value(self.parts.class_of(part)),
        }
    }

    // Adds that the calls from one number up to another one give their values. Only the last one has a text.
    fn push_calls(&mut self, first: usize, last: usize, text: &str) -> Result<(), AllocError> {
        let parts = self.parts;
        for (number, call) in parts.calls().iter().enumerate() {
            if number >= first && number <= last && !is_constant(call.form) {
                let text = String::from_str(self.alloc, if number == last { text } else { "" })?;
                let mut given = Vec::new(self.alloc);
                for part in &call.parts {
                    given.push(self.spoken(*part))?;
                }
                self.demands.push(Demand {
                    text,
                    what: DemandKind::Call(call.form, given, parts.class_of(call.part)),
                })?;
            }
        }
        Ok(())
    }

    // Whether a part's conditions are written.
    fn is_done(&self, part: usize) -> bool {
        match self.done.get(self.parts.class_of(part)) {
            Some(done) => *done,
            None => true,
        }
    }

    // Notes that a part's conditions are written.
    fn set_done(&mut self, part: usize) {
        let class = self.parts.class_of(part);
        if let Some(done) = self.done.get_mut(class) {
            *done = true;
        }
    }

    // Adds what a call gives. A result without a name is named by its call. The text of it.
    fn add_call(&mut self, number: usize, part: usize) -> Result<String, AllocError> {
        let mut line = String::new(self.alloc);
        let named = !self.parts.name(part).is_empty() || !self.writing.names.name(part).is_empty();
        if named {
            self.writing.names.give_name(part)?;
            line.push_str(self.writing.names.name(part))?;
            line.push_str(" = ")?;
        }
        self.writing.push_call(number, &mut line)?;
        if named {
            self.lines.push(line.clone()?)?;
            return Ok(line);
        }
        let given = format!(in self.alloc; "{line} gives a value")?;
        if self.parts.heads(part).is_empty() {
            self.lines.push(given.clone()?)?;
        } else {
            self.writing.names.set_name(part, line);
        }
        Ok(given)
    }

    // Adds the variables that name a part with another name, and those that are used at several places.
    fn add_variables(&mut self) -> Result<(), AllocError> {
        let parts = self.parts;
        for var in parts.vars() {
            let mut line = String::from_str(self.alloc, var.name)?;
            if self.writing.names.name(var.part).is_empty() {
                self.writing.names.give_name(var.part)?;
            }
            if self.writing.names.name(var.part) != var.name {
                line.push_str(" = ")?;
                line.push_str(self.writing.names.name(var.part))?;
                self.lines.push(line)?;
            } else if parts.is_again(var.part) {
                line.push_str(" is the same value everywhere")?;
                self.push(line, DemandKind::Equal(parts.class_of(var.part)))?;
            }
        }
        Ok(())
    }
}

/// The right side of a rule, as it is written.
pub fn given_of(alloc: Global, rule: &Rule) -> Result<String, AllocError> {
    let mut text = String::new(alloc);
    push_expr(&rule.expr, &mut text)?;
    Ok(text)
}

/// Adds an expression, as it is written.
#[cycle(exprs)]
pub(crate) fn push_expr(expr: &Expr, out: &mut String) -> Result<(), AllocError> {
    match expr {
        Expr::Term { sym, args, .. } => {
            out.push('(')?;
            out.push_str(&sym.0)?;
            push_arguments(args, out)?;
            out.push(')')
        }
        Expr::Var { name, pos: _ } => out.push_str(&name.0),
        Expr::ConstBool { val, .. } => out.push_str(if *val { "true" } else { "false" }),
        Expr::ConstInt { val, .. } => write!(out, "{val}"),
        Expr::ConstPrim { val, .. } => {
            out.push('$')?;
            out.push_str(&val.0)
        }
        Expr::Let { defs, body, .. } => {
            out.push_str("(let (")?;
            push_lets(defs, out)?;
            out.push_str(") ")?;
            push_expr(body, out)?;
            out.push(')')
        }
    }
}

#[cycle(exprs)]
fn push_arguments(args: &[Expr], out: &mut String) -> Result<(), AllocError> {
    for arg in args {
        out.push(' ')?;
        push_expr(arg, out)?;
    }
    Ok(())
}

#[cycle(exprs)]
fn push_lets(defs: &[LetDef], out: &mut String) -> Result<(), AllocError> {
    for (i, def) in defs.iter().enumerate() {
        out.push_str(if i == 0 { "(" } else { " (" })?;
        out.push_str(&def.var.0)?;
        out.push(' ')?;
        out.push_str(&def.ty.0)?;
        out.push(' ')?;
        push_expr(&def.val, out)?;
        out.push(')')?;
    }
    Ok(())
}

fn push_reversed(numbers: &[usize], out: &mut Vec<usize>) -> Result<(), AllocError> {
    for number in numbers.iter().rev() {
        out.push(*number)?;
    }
    Ok(())
}
