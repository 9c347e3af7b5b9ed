//! The names of parts in a text.

use crate::value_parts::Parts;
use std::alloc::{AllocError, Global};

// How many names are tried for a part that has none.
const MOST_NAMES: usize = 1 << 16;

/// The names that parts have in a text, and how often the text has each part.
pub(crate) struct PartNames<'p, 'a> {
    alloc: Global,
    parts: &'p Parts<'a>,
    // The name of each class, or the empty text.
    names: Vec<String>,
    // How often the text has each class.
    uses: Vec<usize>,
}

impl<'p, 'a> Drop for PartNames<'p, 'a> {
    fn drop(self) {
        let PartNames {
            alloc: _,
            parts: _,
            names: _,
            uses: _,
        } = self;
    }
}

impl<'p, 'a> PartNames<'p, 'a> {
    /// No part has a name.
    pub fn new(alloc: Global, parts: &'p Parts<'a>) -> Result<PartNames<'p, 'a>, AllocError> {
        let mut names = PartNames {
            alloc,
            parts,
            names: Vec::new(alloc),
            uses: Vec::new(alloc),
        };
        for _ in 0..parts.count() {
            names.names.push(String::new(alloc))?;
            names.uses.push(0)?;
        }
        names.count_all(parts.arguments());
        names.count_heads();
        names.count_calls();
        Ok(names)
    }

    // Counts what the forms of all parts are made of.
    fn count_heads(&mut self) {
        let parts = self.parts;
        for part in 0..parts.count() {
            if parts.class_of(part) == part {
                for head in parts.heads(part) {
                    self.count_all(&head.parts);
                }
            }
        }
    }

    // Counts the arguments of calls, and the results that conditions have as their values.
    fn count_calls(&mut self) {
        let parts = self.parts;
        for call in parts.calls() {
            self.count_all(&call.parts);
            if call.asked {
                self.count_one(call.part);
            }
        }
    }

    fn count_all(&mut self, parts: &[usize]) {
        for part in parts {
            self.count_one(*part);
        }
    }

    fn count_one(&mut self, part: usize) {
        let class = self.parts.class_of(part);
        if let Some(uses) = self.uses.get_mut(class) {
            *uses = uses.saturating_add(1);
        }
    }

    /// Whether the text has a part more than once.
    pub fn is_used_again(&self, part: usize) -> bool {
        match self.uses.get(self.parts.class_of(part)) {
            Some(uses) => *uses > 1,
            None => false,
        }
    }

    /// The name of a part, or the empty text.
    pub fn name(&self, part: usize) -> &str {
        match self.names.get(self.parts.class_of(part)) {
            Some(name) => name,
            None => "",
        }
    }

    /// Names a part.
    pub fn set_name(&mut self, part: usize, name: String) {
        let class = self.parts.class_of(part);
        if let Some(place) = self.names.get_mut(class) {
            *place = name;
        }
    }

    /// Names a part that has no name: as the rule does, or by a number if another part has that name.
    pub fn give_name(&mut self, part: usize) -> Result<(), AllocError> {
        if !self.name(part).is_empty() {
            return Ok(());
        }
        let name = self.new_name(part)?;
        self.set_name(part, name);
        Ok(())
    }

    // A name that no other part has.
    fn new_name(&self, part: usize) -> Result<String, AllocError> {
        let own = self.parts.name(part);
        if !own.is_empty() && !self.is_taken(own) {
            return String::from_str(self.alloc, own);
        }
        for number in 1..MOST_NAMES {
            let name = format!(in self.alloc; "v{number}")?;
            if !self.parts.is_var(&name) && !self.is_taken(&name) {
                return Ok(name);
            }
        }
        String::from_str(self.alloc, "?")
    }

    fn is_taken(&self, name: &str) -> bool {
        self.names.iter().any(|other| other.as_str() == name)
    }
}
