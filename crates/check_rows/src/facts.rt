//! What a question's text says, without the names of numbers: each fact in a line.

use std::alloc::{AllocError, Global};

/// Adds each fact of a text in a line, but those that are just `true`. What the text defines stands in place of its name, a constant is its
/// path, and functions are numbered as they are declared.
pub fn push_facts(
    alloc: Global,
    text: &str,
    paths: &[(String, String)],
    out: &mut String,
) -> Result<(), AllocError> {
    let mut known = Known::new(alloc);
    for (name, path) in paths {
        known.add(name, path)?;
    }
    for line in text.lines() {
        push_line(line, &mut known, out)?;
    }
    Ok(())
}

// What stands for names.
#[derive(Drop)]
struct Known {
    alloc: Global,
    names: Vec<(String, String)>,
    functions: usize,
}

impl Known {
    fn new(alloc: Global) -> Known {
        Known {
            alloc,
            names: Vec::new(alloc),
            functions: 0,
        }
    }

    // Adds what stands for a name.
    fn add(&mut self, name: &str, is: &str) -> Result<(), AllocError> {
        let name = String::from_str(self.alloc, name)?;
        let is = String::from_str(self.alloc, is)?;
        self.names.push((name, is))?;
        Ok(())
    }

    // Adds a function.
    fn add_function(&mut self, name: &str) -> Result<(), AllocError> {
        let number = self.functions;
        self.functions = number.saturating_add(1);
        let is = format!(in self.alloc; "f{number}")?;
        self.add(name, &is)
    }

    // Adds a word, or what stands for it.
    fn push_word(&self, word: &str, out: &mut String) -> Result<(), AllocError> {
        for (name, is) in &self.names {
            if name.as_str() == word {
                return out.push_str(is);
            }
        }
        out.push_str(word)
    }

    // A formula in which names are replaced.
    fn replaced(&self, formula: &str) -> Result<String, AllocError> {
        let mut out = String::new(self.alloc);
        let mut word = String::new(self.alloc);
        for c in formula.chars() {
            if c == '(' || c == ')' || c == ' ' {
                self.push_word(&word, &mut out)?;
                word.clear();
                out.push(c)?;
            } else {
                word.push(c)?;
            }
        }
        self.push_word(&word, &mut out)?;
        Ok(out)
    }
}

// Adds the fact of a line, if it has one, or takes what it says of a name.
fn push_line(line: &str, known: &mut Known, out: &mut String) -> Result<(), AllocError> {
    if let Some(rest) = inner(line, "(assert ") {
        let fact = known.replaced(rest)?;
        return push_fact(&fact, out);
    }
    if let Some(rest) = inner(line, "(define-fun ") {
        return add_defined(rest, known);
    }
    match inner(line, "(declare-fun ") {
        Some(rest) => add_declared(rest, known),
        None => Ok(()),
    }
}

fn push_fact(fact: &str, out: &mut String) -> Result<(), AllocError> {
    if fact == "true" {
        return Ok(());
    }
    write!(out, "    {fact}\n")
}

// What stands in a list behind its first word.
fn inner<'t>(line: &'t str, head: &str) -> Option<&'t str> {
    line.strip_prefix(head)?.strip_suffix(")")
}

// Takes what a name is defined to be: `NAME () SORT FORMULA`.
fn add_defined(rest: &str, known: &mut Known) -> Result<(), AllocError> {
    let Some((name, behind)) = rest.split_once(" () ") else {
        return Ok(());
    };
    let formula = if behind.starts_with("(_ ") {
        behind.split_once(") ")
    } else {
        behind.split_once(' ')
    };
    match formula {
        Some((_, formula)) => {
            let is = known.replaced(formula)?;
            known.add(name, &is)
        }
        None => Ok(()),
    }
}

// Takes the name of a function: `NAME (SORT ..) SORT`.
fn add_declared(rest: &str, known: &mut Known) -> Result<(), AllocError> {
    match rest.split_once(' ') {
        Some((name, _)) => known.add_function(name),
        None => Ok(()),
    }
}
