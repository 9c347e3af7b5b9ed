//! Rules that take more stack than there is: a tree nests as deep as a rule has tests, and typing as deep as its forms nest, both
//! with templates in place of their uses.
#![tactic(auto)]

use core_syntax::syntax::{Converter, Decl, Def, Expr, Extractor, Pattern, Pos, Rule};
use report_print::report::{Level, Report};
use std::alloc::{AllocError, Global};
use std::collections::BTreeMap;
use std::fs;

/// The stack that a program has where nothing says how large it is: 8 MB.
pub const USUAL_STACK: usize = 8 << 20;

// The bytes of stack that a form of a rule may take. Half of them are needed.
const OF_A_FORM: usize = 4096;

// A rule that takes more expansions gets no tree, but an error.
const MOST_EXPANSIONS: usize = 65_536;

// Templates nest no deeper in one another.
const MOST_NESTED: usize = 256;

/// How large the stack may grow, in bytes, as the system says of the program's process: the usual size where it doesn't.
pub fn size_of_stack<R: std::rt::Files + AllocGlobal>(rt: &R) -> usize {
    match fs::read(rt, "/proc/self/limits") {
        Ok(bytes) => match String::from_utf8(bytes) {
            Ok(text) => size_in(&text),
            Err(_) => USUAL_STACK,
        },
        Err(_) => USUAL_STACK,
    }
}

// The size of the stack in the system's list of limits. No limit is the greatest number.
fn size_in(limits: &str) -> usize {
    for line in limits.lines() {
        if let Some(size) = line.strip_prefix("Max stack size") {
            return number_of(size);
        }
    }
    USUAL_STACK
}

fn number_of(words: &str) -> usize {
    let word = words.split_whitespace().next().unwrap_or("");
    if word == "unlimited" {
        return usize::MAX;
    }
    match word.parse() {
        Ok(size) => size,
        Err(_) => USUAL_STACK,
    }
}

// What is counted of forms.
#[derive(Clone, Copy)]
struct Count {
    // The forms that may be tests.
    tests: usize,
    // The expansions.
    expansions: usize,
    // How deep forms nest.
    levels: usize,
}

// A template, as one use of it counts.
#[derive(Drop)]
struct Template {
    own: Count,
    // How often each argument is in it.
    uses: Vec<usize>,
}

// What is known of the definitions.
#[derive(Drop)]
struct Known<'a> {
    // The templates that are counted, by the names of their terms.
    templates: BTreeMap<&'a str, Template>,
    // The terms whose templates aren't counted yet.
    waiting: BTreeMap<&'a str, ()>,
    // The terms whose calls may be tests: partial and multi ones.
    testing: BTreeMap<&'a str, ()>,
    // How much a conversion that isn't written may add to a form.
    conversion: usize,
}

// What was counted so far of a rule or a template.
#[derive(Drop)]
struct Tally {
    tests: usize,
    expansions: usize,
    // How often each argument of the template stands there.
    uses: Vec<usize>,
    // Whether all templates that are used are counted.
    whole: bool,
}

impl Tally {
    fn new(alloc: Global, arguments: usize) -> Result<Tally, AllocError> {
        let mut uses = Vec::new(alloc);
        for _ in 0..arguments {
            uses.push(0)?;
        }
        Ok(Tally {
            tests: 0,
            expansions: 0,
            uses,
            whole: true,
        })
    }

    fn add_tests(&mut self, count: usize, times: usize) {
        self.tests = self.tests.saturating_add(count.saturating_mul(times));
    }
}

impl<'a> Known<'a> {
    // Counts a form that stands so many times, and answers how deep it nests.
    #[cycle(patterns)]
    fn add_pattern(&self, tally: &mut Tally, pattern: &Pattern, times: usize) -> usize {
        match pattern {
            Pattern::Wildcard { .. } => 0,
            Pattern::MacroArg { index, .. } => {
                if let Some(uses) = tally.uses.get_mut(*index) {
                    *uses = uses.saturating_add(times);
                }
                0
            }
            Pattern::Var { .. }
            | Pattern::ConstBool { .. }
            | Pattern::ConstInt { .. }
            | Pattern::ConstPrim { .. } => {
                tally.add_tests(self.of_a_form(), times);
                self.of_a_form()
            }
            Pattern::BindPattern { subpat, .. } => {
                self.add_pattern(tally, subpat, times).saturating_add(1)
            }
            Pattern::And { subpats, .. } => self.add_each(tally, subpats, times).saturating_add(1),
            Pattern::Term { sym, args, .. } => { self.add_term(tally, sym.0.as_str(), args, times) }
        }
    }

    #[cycle(patterns)]
    fn add_each(&self, tally: &mut Tally, patterns: &[Pattern], times: usize) -> usize {
        let mut levels = 0usize;
        for pattern in patterns {
            levels = levels.max(self.add_pattern(tally, pattern, times));
        }
        levels
    }

    #[cycle(patterns)]
    fn add_term(&self, tally: &mut Tally, term: &str, args: &[Pattern], times: usize) -> usize {
        let Some(template) = self.templates.get(term) else {
            if self.waiting.contains_key(term) {
                tally.whole = false;
            }
            tally.add_tests(self.of_a_form(), times);
            return self
                .add_each(tally, args, times)
                .saturating_add(self.of_a_form());
        };
        tally.add_tests(template.own.tests, times);
        let expansions = template.own.expansions.saturating_add(1);
        tally.expansions = tally
            .expansions
            .saturating_add(expansions.saturating_mul(times));
        let mut levels = 0usize;
        for (arg, uses) in args.iter().zip(&template.uses) {
            levels = levels.max(self.add_pattern(tally, arg, times.saturating_mul(*uses)));
        }
        levels.saturating_add(template.own.levels).saturating_add(1)
    }

    // Counts the calls of an expression that may be tests.
    #[cycle(exprs)]
    fn add_expr(&self, tally: &mut Tally, expr: &Expr) {
        match expr {
            Expr::Term { sym, args, .. } => {
                if self.testing.contains_key(sym.0.as_str()) {
                    tally.add_tests(1, 1);
                }
                for arg in args {
                    self.add_expr(tally, arg);
                }
            }
            Expr::Let { defs, body, .. } => {
                for def in defs {
                    self.add_expr(tally, &def.val);
                }
                self.add_expr(tally, body);
            }
            Expr::Var { .. }
            | Expr::ConstBool { .. }
            | Expr::ConstInt { .. }
            | Expr::ConstPrim { .. } => {}
        }
    }

    // What one form counts, with a conversion around it.
    fn of_a_form(&self) -> usize {
        self.conversion.saturating_add(1)
    }

    fn count_of_rule(&self, alloc: Global, rule: &Rule) -> Result<Count, AllocError> {
        let mut tally = Tally::new(alloc, 0)?;
        let mut levels = self.add_pattern(&mut tally, &rule.pattern, 1);
        for iflet in &rule.iflets {
            levels = levels.max(self.add_pattern(&mut tally, &iflet.pattern, 1));
            self.add_expr(&mut tally, &iflet.expr);
        }
        self.add_expr(&mut tally, &rule.expr);
        Ok(Count {
            tests: tally.tests,
            expansions: tally.expansions,
            levels,
        })
    }

    // Counts a template, unless it uses one that isn't counted yet. Answers whether it is counted now.
    fn count_template(
        &mut self,
        alloc: Global,
        extractor: &'a Extractor,
    ) -> Result<bool, AllocError> {
        let name = extractor.term.0.as_str();
        if !self.waiting.contains_key(name) {
            return Ok(false);
        }
        let mut tally = Tally::new(alloc, extractor.args.len())?;
        let levels = self.add_pattern(&mut tally, &extractor.template, 1);
        if !tally.whole {
            return Ok(false);
        }
        let own = Count {
            tests: tally.tests,
            expansions: tally.expansions,
            levels,
        };
        let _ = self.waiting.remove(name);
        self.templates.insert(
            name,
            Template {
                own,
                uses: tally.uses,
            },
        )?;
        Ok(true)
    }

    // Notes what a definition says of terms.
    fn note(&mut self, def: &'a Def) -> Result<(), AllocError> {
        match def {
            Def::Extractor(extractor) => {
                self.waiting.insert(extractor.term.0.as_str(), ())?;
            }
            Def::Decl(decl) => self.note_declared(decl)?,
            Def::Converter(_) => self.conversion = 1,
            _ => {}
        }
        Ok(())
    }

    fn note_declared(&mut self, decl: &'a Decl) -> Result<(), AllocError> {
        if decl.multi || decl.partial {
            self.testing.insert(decl.term.0.as_str(), ())?;
        }
        Ok(())
    }

    // A conversion that isn't written may be a template too.
    fn note_conversion(&mut self, converter: &Converter) {
        if let Some(template) = self.templates.get(converter.term.0.as_str()) {
            let own = template.own.tests.max(template.own.levels);
            self.conversion = self.conversion.max(own);
        }
    }
}

// Counts all templates, those that use others behind these. A template that uses itself isn't counted: it is an error.
fn count_templates<'a>(
    alloc: Global,
    known: &mut Known<'a>,
    defs: &'a [Def],
) -> Result<(), AllocError> {
    for _ in 0..MOST_NESTED {
        let mut counted = false;
        for def in defs {
            if let Def::Extractor(extractor) = def {
                if known.count_template(alloc, extractor)? {
                    counted = true;
                }
            }
        }
        if !counted {
            return Ok(());
        }
    }
    Ok(())
}

fn known_of<'a>(alloc: Global, defs: &'a [Def], expand: bool) -> Result<Known<'a>, AllocError> {
    let mut known = Known {
        templates: BTreeMap::new(alloc),
        waiting: BTreeMap::new(alloc),
        testing: BTreeMap::new(alloc),
        conversion: 0,
    };
    for def in defs {
        known.note(def)?;
    }
    if expand {
        count_templates(alloc, &mut known, defs)?;
    }
    for def in defs {
        if let Def::Converter(converter) = def {
            known.note_conversion(converter);
        }
    }
    Ok(known)
}

/// What is wrong with the first rule that takes more stack than there is, so many bytes, where one does. `expand` says whether uses
/// of internal extractors are replaced by their templates.
///
/// # Errors
///
/// Where memory is refused.
pub fn deep_rule(
    alloc: Global,
    defs: &[Def],
    expand: bool,
    stack: usize,
) -> Result<Option<Report>, AllocError> {
    let most = stack / OF_A_FORM;
    let known = known_of(alloc, defs, expand)?;
    for def in defs {
        if let Def::Rule(rule) = def {
            let count = known.count_of_rule(alloc, rule)?;
            if count.levels > most {
                return Ok(Some(report_of(
                    alloc,
                    rule.pos,
                    "nest in one another",
                    count.levels,
                    most,
                )?));
            }
            if count.tests > most && count.expansions <= MOST_EXPANSIONS {
                return Ok(Some(report_of(alloc, rule.pos, "may be tests", count.tests, most)?));
            }
        }
    }
    Ok(None)
}

fn report_of(
    alloc: Global,
    rule: Pos,
    what: &str,
    count: usize,
    most: usize,
) -> Result<Report, AllocError> {
    let message = format!(in alloc; "this rule takes more stack than there is")?;
    let mut report = Report::new(alloc, Level::Error, "stack", message);
    report.add_label(rule, String::new(alloc))?;
    let note = format!(in alloc;
        "{count} of its forms {what}, with templates in place of their uses, and the stack holds {most}"
    )?;
    report.add_note("note", note)?;
    let help = String::from_str(
        alloc,
        "a larger stack holds more: `ulimit -s 1048576` before the program starts",
    )?;
    report.add_note("help", help)?;
    Ok(report)
}
