//! What `lower` gave of a list, compared with what is read back from its text and from its JSON.

use crate::documents::{list_at, read_json};
use crate::faults::ReadFault;
use crate::names::Tables;
use crate::read_term::ReadTerm;
use crate::text::read_text;
use cranelift_isle::lower::{Lowered, LoweredTerm, lower};
use cranelift_isle::syntax::{Def, Fault, Files};
use report_json::documents::document_of_terms;
use report_print::lines::{FileLines, file_text};
use report_queries::names::term_name;
use report_queries::trees::push_tree;
use serde_json::Value;
use std::alloc::{AllocError, Global};
use text_reader::errors::ReadFault as TextFault;
use text_reader::read;

/// What is told of lists of definitions, each behind those that all share: each difference, and below them what was read.
pub fn told(alloc: Global, lists: &str) -> Result<String, AllocError> {
    let mut comparison = Comparison {
        alloc,
        out: String::new(alloc),
        list: 0,
        accepted: 0,
        terms: 0,
        sites: 0,
        steps: 0,
        lines: 0,
        objects: 0,
        differences: 0,
    };
    if let Some((shared, lists)) = lists.split_once("\n\n") {
        comparison.compare_lists(shared, lists)?;
    }
    comparison.push_counts()?;
    let Comparison { out, .. } = comparison;
    Ok(out)
}

// What was compared so far.
#[derive(Drop)]
struct Comparison {
    alloc: Global,
    // what is told
    out: String,
    // how many lists were compared before the one that is compared
    list: usize,
    // how many lists are accepted, how many terms with rules they have, and how many sites and steps these have
    accepted: usize,
    terms: usize,
    sites: usize,
    steps: usize,
    // how many lines of sites and of trees were read, and how many objects of sites, of steps and of arms
    lines: usize,
    objects: usize,
    differences: usize,
}

impl Comparison {
    // Compares each of the lists that stand behind those that they share.
    fn compare_lists(&mut self, shared: &str, lists: &str) -> Result<(), AllocError> {
        for list in lists.split("\n\n") {
            let text = format!(in self.alloc; "{shared}\n{list}\n")?;
            let files = one_file(self.alloc, text)?;
            self.compare_list(&files)?;
            self.list = self.list.saturating_add(1);
        }
        Ok(())
    }

    fn compare_list(&mut self, files: &Files) -> Result<(), AllocError> {
        match read(self.alloc, 0, file_text(files, 0)) {
            Ok(defs) => self.compare_definitions(files, &defs),
            Err(TextFault::Text(_)) => self.push_difference("definitions", "all terms", "not read"),
            Err(TextFault::Memory(error)) => Err(error),
        }
    }

    // Compares the terms of definitions, where they are accepted.
    fn compare_definitions(&mut self, files: &Files, defs: &[Def]) -> Result<(), AllocError> {
        match lower(self.alloc, defs, true) {
            Ok(lowered) => self.compare_terms(files, defs, &lowered),
            Err(Fault::Errors(_)) => Ok(()),
            Err(Fault::Memory(error)) => Err(error),
        }
    }

    fn compare_terms(
        &mut self,
        files: &Files,
        defs: &[Def],
        lowered: &Lowered,
    ) -> Result<(), AllocError> {
        self.accepted = self.accepted.saturating_add(1);
        self.compare_texts(files, lowered)?;
        self.compare_document(files, defs, lowered)
    }

    // Compares the text of each term with the term.
    fn compare_texts(&mut self, files: &Files, lowered: &Lowered) -> Result<(), AllocError> {
        let lines = FileLines::new(self.alloc, files)?;
        for term in &lowered.terms {
            self.terms = self.terms.saturating_add(1);
            self.sites = self.sites.saturating_add(term.rules.bindings.len());
            self.compare_text(&lines, lowered, term)?;
        }
        Ok(())
    }

    fn compare_text(
        &mut self,
        lines: &FileLines<'_>,
        lowered: &Lowered,
        term: &LoweredTerm,
    ) -> Result<(), AllocError> {
        let mut text = String::new(self.alloc);
        push_tree(&mut text, lines, lowered, term)?;
        let source = file_text(lines.files(), 0);
        let name = name_of(lowered, term);
        let tables = Tables { lowered, term };
        let read = read_text(self.alloc, tables, name, source, &text);
        if let Ok(read) = &read {
            self.lines = self.lines.saturating_add(read.parts);
            self.steps = self.steps.saturating_add(read.steps);
        }
        self.compare("text", name, term, read)
    }

    // Compares the JSON of each term with the term.
    fn compare_document(
        &mut self,
        files: &Files,
        defs: &[Def],
        lowered: &Lowered,
    ) -> Result<(), AllocError> {
        let terms: Vec<&LoweredTerm> = lowered.terms.iter().collect(self.alloc)?;
        let document = document_of_terms(self.alloc, files, defs, lowered, &terms)?;
        match Value::from_str(self.alloc, &document) {
            Ok(value) => self.compare_objects(files, lowered, &value),
            Err(_) => self.push_difference("JSON", "all terms", "not read"),
        }
    }

    fn compare_objects(
        &mut self,
        files: &Files,
        lowered: &Lowered,
        value: &Value,
    ) -> Result<(), AllocError> {
        let objects = list_at(value, "terms").unwrap_or(&[]);
        if objects.len() != lowered.terms.len() {
            return self.push_difference("JSON", "all terms", "other terms");
        }
        for (object, term) in objects.iter().zip(&lowered.terms) {
            self.compare_object(file_text(files, 0), lowered, term, object)?;
        }
        Ok(())
    }

    fn compare_object(
        &mut self,
        source: &str,
        lowered: &Lowered,
        term: &LoweredTerm,
        object: &Value,
    ) -> Result<(), AllocError> {
        let name = name_of(lowered, term);
        let tables = Tables { lowered, term };
        let read = read_json(self.alloc, tables, name, source, object);
        if let Ok(read) = &read {
            self.objects = self.objects.saturating_add(read.parts);
        }
        self.compare("JSON", name, term, read)
    }

    // Tells what differs, if anything does.
    fn compare(
        &mut self,
        form: &str,
        name: &str,
        term: &LoweredTerm,
        read: Result<ReadTerm, ReadFault>,
    ) -> Result<(), AllocError> {
        match read {
            Ok(read) => match read.difference(term) {
                Some(what) => self.push_difference(form, name, what),
                None => Ok(()),
            },
            Err(ReadFault::Unreadable) => self.push_difference(form, name, "not read"),
            Err(ReadFault::Memory) => Err(AllocError),
        }
    }

    fn push_difference(&mut self, form: &str, name: &str, what: &str) -> Result<(), AllocError> {
        self.differences = self.differences.saturating_add(1);
        let number = self.list;
        write!(self.out, "list {number}, {name}, {form}: {what}\n")
    }

    fn push_counts(&mut self) -> Result<(), AllocError> {
        let (lists, accepted, terms) = (self.list, self.accepted, self.terms);
        write!(self.out, "{lists} lists, {accepted} accepted\n")?;
        let (sites, steps) = (self.sites, self.steps);
        write!(self.out, "{terms} terms, {sites} sites, {steps} steps\n")?;
        let (lines, objects) = (self.lines, self.objects);
        write!(self.out, "{lines} lines and {objects} objects read\n")?;
        let differences = self.differences;
        write!(self.out, "{differences} differences\n")
    }
}

fn name_of<'a>(lowered: &'a Lowered, term: &LoweredTerm) -> &'a str {
    term_name(&lowered.tyenv, &lowered.termenv, term.id).unwrap_or("?")
}

fn one_file(alloc: Global, text: String) -> Result<Files, AllocError> {
    Ok(Files {
        names: Vec::from_array(alloc, [String::from_str(alloc, "a.isle")?])?,
        texts: Vec::from_array(alloc, [text])?,
    })
}
