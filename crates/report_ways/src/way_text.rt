//! The tests on the way to a return, a line each.

use crate::indented_lines::push_line;
use cranelift_isle::trie_again::{Binding, BindingId, Constraint};
use report_names::names::NameTables;
use report_names::site_words::{push_head, push_site, text_at};
use std::alloc::{AllocError, Global};

/// A test on the way to a return.
#[derive(Clone, Copy)]
pub enum WayTest {
    /// A value meets a constraint.
    Is(BindingId, Constraint),
    /// A call gives a value. The value's site, if it is looked at.
    Gives(BindingId, Option<BindingId>),
    /// Two values are equal.
    Equal(BindingId, BindingId),
    /// A loop over the results of a call. This is one result.
    Each(BindingId),
}

/// The sites of a term, and what names them.
#[derive(Clone, Copy)]
pub struct Sites<'a> {
    /// The memory for texts.
    pub alloc: Global,
    /// The names of terms and types.
    pub names: NameTables<'a>,
    /// The sites.
    pub bindings: &'a [Binding],
    /// The names of the arguments. `_` is none.
    pub arguments: &'a [String],
    /// What calls answered, by their sites, where that is to be told.
    pub shown: &'a [String],
    /// How many spaces stand before each line.
    pub indent: u64,
}

/// The text of a way, as far as it is written.
pub struct Way<'s, 'a> {
    sites: &'s Sites<'a>,
    // The name of each site, or the empty text.
    texts: Vec<String>,
    // The number of the next name.
    next: u64,
}

impl<'s, 'a> Drop for Way<'s, 'a> {
    fn drop(self) {
        let Way {
            sites: _,
            texts: _,
            next: _,
        } = self;
    }
}

impl<'s, 'a> Way<'s, 'a> {
    /// Nothing is written.
    pub fn new(sites: &'s Sites<'a>) -> Result<Way<'s, 'a>, AllocError> {
        let mut texts = Vec::new(sites.alloc);
        for _ in sites.bindings {
            texts.push(String::new(sites.alloc))?;
        }
        Ok(Way {
            sites,
            texts,
            next: 1,
        })
    }

    /// Adds a test, and behind it this end.
    pub fn push_test(
        &mut self,
        test: &WayTest,
        end: &str,
        out: &mut String,
    ) -> Result<(), AllocError> {
        match test {
            WayTest::Is(source, constraint) => self.push_is(*source, constraint, end, out),
            WayTest::Gives(source, value) => self.push_given((*source, *value), end, out),
            WayTest::Equal(left, right) => self.push_equal((*left, *right), end, out),
            WayTest::Each(each) => self.push_each(*each, end, out),
        }
    }

    fn push_line(&self, line: &str, out: &mut String) -> Result<(), AllocError> {
        push_line(out, self.sites.indent, line)
    }

    // Adds that a value meets a constraint. A struct's own form is no test.
    fn push_is(
        &mut self,
        source: BindingId,
        constraint: &Constraint,
        end: &str,
        out: &mut String,
    ) -> Result<(), AllocError> {
        if is_struct(constraint) {
            return Ok(());
        }
        self.name(source, out)?;
        let mut line = self.line_of(source, constraint)?;
        line.push_str(end)?;
        self.push_line(&line, out)
    }

    // The line that says that a value meets a constraint.
    fn line_of(&self, source: BindingId, constraint: &Constraint) -> Result<String, AllocError> {
        let mut line = String::from_str(self.sites.alloc, "test ")?;
        line.push_str(text_at(&self.texts, source))?;
        line.push_str(" is ")?;
        push_head(&mut line, self.sites.names, *constraint)?;
        Ok(line)
    }

    fn push_equal(
        &mut self,
        (left, right): (BindingId, BindingId),
        end: &str,
        out: &mut String,
    ) -> Result<(), AllocError> {
        self.name(left, out)?;
        self.name(right, out)?;
        let left = text_at(&self.texts, left);
        let right = text_at(&self.texts, right);
        let line = format!(in self.sites.alloc; "test {left} = {right}{end}")?;
        self.push_line(&line, out)
    }

    // Adds that a call gives a value.
    fn push_given(
        &mut self,
        (source, value): (BindingId, Option<BindingId>),
        end: &str,
        out: &mut String,
    ) -> Result<(), AllocError> {
        let call = self.call(source, out)?;
        let Some(value) = value else {
            let line = format!(in self.sites.alloc; "test {call} gives a value{end}")?;
            return self.push_line(&line, out);
        };
        let name = self.new_name()?;
        let line = format!(in self.sites.alloc; "test {call} gives {name}{end}")?;
        self.set_text(value, name);
        self.push_line(&line, out)
    }

    // Adds that each answer of a call is gone on with.
    fn push_each(
        &mut self,
        each: BindingId,
        end: &str,
        out: &mut String,
    ) -> Result<(), AllocError> {
        let bindings = self.sites.bindings;
        let Some(Binding::Iterator { source }) = bindings.get(each.index()) else {
            return Ok(());
        };
        let call = self.call(*source, out)?;
        let name = self.new_name()?;
        let line = format!(in self.sites.alloc; "for each {name} of {call}{end}")?;
        self.set_text(each, name);
        self.push_line(&line, out)
    }

    // A name that no site has.
    fn new_name(&mut self) -> Result<String, AllocError> {
        for _ in self.sites.arguments {
            let name = self.next_name()?;
            if !self.is_argument(&name) {
                return Ok(name);
            }
        }
        self.next_name()
    }

    fn is_argument(&self, name: &str) -> bool {
        self.sites
            .arguments
            .iter()
            .any(|other| other.as_str() == name)
    }

    fn next_name(&mut self) -> Result<String, AllocError> {
        let number = self.next;
        self.next = number.saturating_add(1);
        format!(in self.sites.alloc; "t{number}")
    }

    // Names a site so.
    fn set_text(&mut self, site: BindingId, text: String) {
        if let Some(place) = self.texts.get_mut(site.index()) {
            *place = text;
        }
    }

    fn is_named(&self, site: BindingId) -> bool {
        !text_at(&self.texts, site).is_empty()
    }

    /// The text of a call, whose arguments have names then.
    pub fn call(&mut self, site: BindingId, out: &mut String) -> Result<String, AllocError> {
        let bindings = self.sites.bindings;
        let mut text = String::new(self.sites.alloc);
        if let Some(binding) = bindings.get(site.index()) {
            for source in &sources(self.sites.alloc, binding)? {
                self.name(*source, out)?;
            }
            self.push_text(binding, &mut text)?;
        }
        Ok(text)
    }

    // Names a site, and before it those that it is made of: each has a greater number than these.
    fn name(&mut self, site: BindingId, out: &mut String) -> Result<(), AllocError> {
        let mut waiting = Vec::new(self.sites.alloc);
        waiting.push(site)?;
        for _ in 0..MOST_SITES {
            let Some(site) = waiting.pop() else {
                return Ok(());
            };
            self.name_or_wait(site, &mut waiting, out)?;
        }
        Ok(())
    }

    // Names a site, or waits for the first that it is made of and that has no name.
    fn name_or_wait(
        &mut self,
        site: BindingId,
        waiting: &mut Vec<BindingId>,
        out: &mut String,
    ) -> Result<(), AllocError> {
        let bindings = self.sites.bindings;
        let Some(binding) = bindings.get(site.index()) else {
            return Ok(());
        };
        if self.is_named(site) {
            return Ok(());
        }
        for source in &sources(self.sites.alloc, binding)? {
            if !self.is_named(*source) {
                waiting.push(site)?;
                waiting.push(*source)?;
                return Ok(());
            }
        }
        self.name_one(site, binding, out)
    }

    // Names a site that is made of named ones: what is called or made of parts by a line.
    fn name_one(
        &mut self,
        site: BindingId,
        binding: &Binding,
        out: &mut String,
    ) -> Result<(), AllocError> {
        let mut text = String::new(self.sites.alloc);
        self.push_text(binding, &mut text)?;
        if is_call(binding) {
            let name = self.new_name()?;
            let mut line = format!(in self.sites.alloc; "{name} = {text}")?;
            self.push_shown(site, &mut line)?;
            self.push_line(&line, out)?;
            text = name;
        }
        self.set_text(site, text);
        Ok(())
    }

    // Adds what a call answered, where that is to be told.
    fn push_shown(&self, site: BindingId, line: &mut String) -> Result<(), AllocError> {
        match self.sites.shown.get(site.index()) {
            Some(shown) if !shown.is_empty() => {
                line.push_str(": ")?;
                line.push_str(shown)
            }
            _ => Ok(()),
        }
    }

    // Adds what a site stands for, by the names of those that it is made of.
    fn push_text(&self, binding: &Binding, text: &mut String) -> Result<(), AllocError> {
        match binding {
            Binding::Argument { index } => {
                match self.sites.arguments.get(index.index()) {
                    Some(name) if name.as_str() != "_" => text.push_str(name),
                    _ => push_site(text, self.sites.names, binding, &self.texts),
                }
            }
            Binding::Extractor { term, parameter } => {
                let term = self.sites.names.term(*term);
                let source = text_at(&self.texts, *parameter);
                write!(text, "({term} {source})")
            }
            _ => push_site(text, self.sites.names, binding, &self.texts),
        }
    }
}

// How many steps the naming of a site may take: more than twice as many as there may be sites.
const MOST_SITES: usize = 1 << 18;

// Whether a constraint is a struct's own form.
fn is_struct(constraint: &Constraint) -> bool {
    match constraint {
        Constraint::Struct { .. } => true,
        _ => false,
    }
}

// Whether a site is something that is called, or made of parts.
fn is_call(binding: &Binding) -> bool {
    match binding {
        Binding::Extractor { .. } | Binding::Constructor { .. } => true,
        Binding::MakeVariant { fields, .. } | Binding::MakeStruct { fields, .. } => {
            !fields.is_empty()
        }
        _ => false,
    }
}

// The sites that a site is made of.
fn sources(alloc: Global, binding: &Binding) -> Result<Vec<BindingId>, AllocError> {
    match binding {
        Binding::ConstBool { .. }
        | Binding::ConstInt { .. }
        | Binding::ConstPrim { .. }
        | Binding::Argument { .. } => Ok(Vec::new(alloc)),
        Binding::Extractor { parameter, .. } => Ok(vec![in alloc; *parameter]?),
        Binding::Constructor { parameters, .. } => parameters.clone(),
        Binding::MakeVariant { fields, .. } | Binding::MakeStruct { fields, .. } => fields.clone(),
        Binding::Iterator { source }
        | Binding::MatchSome { source }
        | Binding::MatchVariant { source, .. }
        | Binding::ExtractStruct { source, .. }
        | Binding::MatchTuple { source, .. } => Ok(vec![in alloc; *source]?),
        Binding::MakeSome { inner } => Ok(vec![in alloc; *inner]?),
    }
}
