//! What rules ask of the values that they look at.

use crate::extractors::Extractors;
use crate::forms::ValueForm;
use crate::value_parts::Parts;
use core_syntax::syntax::{Expr, Extractor, Ident, IfLet, LetDef, Pattern, Pos, Rule};
use std::alloc::{AllocError, Global};

// How many patterns are read below one, templates included. Rules within the limits on expansions have fewer.
const MOST_PATTERNS: usize = 1 << 20;

// What names mean in a rule, or in the template of an extractor that it uses.
#[derive(Clone, Copy)]
struct Scope<'a> {
    // The arguments of the template, and the patterns that the use has for them.
    args: &'a [Ident],
    uses: &'a [Pattern],
    // The scope of these patterns.
    outer: usize,
    // The place of the use, or None in a rule.
    place: Option<Pos>,
}

// A pattern that is to be read, and the part that it is for.
#[derive(Clone, Copy)]
struct Task<'a> {
    part: usize,
    pattern: &'a Pattern,
    scope: usize,
}

// The parts that were read.
struct Reader<'e, 'a> {
    alloc: Global,
    parts: Parts<'a>,
    scopes: Vec<Scope<'a>>,
    // The extractors that are replaced by their templates.
    extractors: &'e Extractors<'a>,
    // Where the one among them is defined that isn't replaced.
    unknown: Option<Pos>,
}

impl<'e, 'a> Drop for Reader<'e, 'a> {
    fn drop(self) {
        let Reader {
            alloc: _,
            parts: _,
            scopes: _,
            extractors: _,
            unknown: _,
        } = self;
    }
}

/// What all of these rules of one term ask together. These extractors are replaced by their templates.
pub(crate) fn parts_of<'a>(
    alloc: Global,
    extractors: &Extractors<'a>,
    rules: &[&'a Rule],
) -> Result<Parts<'a>, AllocError> {
    let mut reader = Reader::new(alloc, extractors, None);
    for rule in rules {
        reader.add_rule(rule)?;
    }
    Ok(reader.into_parts())
}

/// What a rule asks, if nothing is known of what one of these extractors asks. The others are replaced by their templates.
pub(crate) fn parts_without<'a>(
    alloc: Global,
    extractors: &Extractors<'a>,
    rule: &'a Rule,
    unknown: &Extractor,
) -> Result<Parts<'a>, AllocError> {
    let mut reader = Reader::new(alloc, extractors, Some(unknown.pos));
    reader.add_rule(rule)?;
    Ok(reader.into_parts())
}

/// What an internal extractor asks of a value, whatever stands for its arguments. These extractors are replaced by their
/// templates.
pub(crate) fn parts_of_template<'a>(
    alloc: Global,
    extractors: &Extractors<'a>,
    extractor: &'a Extractor,
) -> Result<Parts<'a>, AllocError> {
    let mut reader = Reader::new(alloc, extractors, None);
    reader.add_template(extractor)?;
    Ok(reader.into_parts())
}

impl<'e, 'a> Reader<'e, 'a> {
    fn new(alloc: Global, extractors: &'e Extractors<'a>, unknown: Option<Pos>) -> Reader<'e, 'a> {
        Reader {
            alloc,
            parts: Parts::new(alloc),
            scopes: Vec::new(alloc),
            extractors,
            unknown,
        }
    }

    fn into_parts(self) -> Parts<'a> {
        let Reader {
            alloc: _,
            parts,
            scopes: _,
            extractors: _,
            unknown: _,
        } = self;
        parts
    }

    fn add_rule(&mut self, rule: &'a Rule) -> Result<(), AllocError> {
        let scope = self.scopes.len();
        self.scopes.push(Scope {
            args: &[],
            uses: &[],
            outer: scope,
            place: None,
        })?;
        if let Pattern::Term { args, .. } = &rule.pattern {
            self.add_arguments(args, scope)?;
        }
        for iflet in &rule.iflets {
            self.add_iflet(iflet, scope)?;
        }
        Ok(())
    }

    // Adds what a template asks that no use has patterns for.
    fn add_template(&mut self, extractor: &'a Extractor) -> Result<(), AllocError> {
        let scope = self.scopes.len();
        self.scopes.push(Scope {
            args: &extractor.args,
            uses: &[],
            outer: scope,
            place: None,
        })?;
        let part = self.parts.argument(0)?;
        self.add_pattern(Task {
            part,
            pattern: &extractor.template,
            scope,
        })
    }

    fn add_arguments(&mut self, patterns: &'a [Pattern], scope: usize) -> Result<(), AllocError> {
        for (place, pattern) in patterns.iter().enumerate() {
            let part = self.parts.argument(place)?;
            self.add_pattern(Task {
                part,
                pattern,
                scope,
            })?;
        }
        Ok(())
    }

    fn add_iflet(&mut self, iflet: &'a IfLet, scope: usize) -> Result<(), AllocError> {
        let part = self.add_expr(&iflet.expr, scope)?;
        self.parts.ask(part);
        self.add_pattern(Task {
            part,
            pattern: &iflet.pattern,
            scope,
        })
    }

    #[cycle(exprs)]
    fn add_expr(&mut self, expr: &'a Expr, scope: usize) -> Result<usize, AllocError> {
        match expr {
            Expr::Term { sym, args, .. } => {
                let parts = self.add_exprs(args, scope)?;
                self.parts.call(ValueForm::Term(&sym.0), parts)
            }
            Expr::Var { name, pos: _ } => self.var(&name.0, scope),
            Expr::ConstBool { val, pos } => self.constant(ValueForm::Bool(*val), *pos),
            Expr::ConstInt { val, pos } => self.constant(ValueForm::Int(*val), *pos),
            Expr::ConstPrim { val, pos } => self.constant(ValueForm::Const(&val.0), *pos),
            Expr::Let { defs, body, .. } => {
                self.add_lets(defs, scope)?;
                self.add_expr(body, scope)
            }
        }
    }

    #[cycle(exprs)]
    fn add_exprs(&mut self, exprs: &'a [Expr], scope: usize) -> Result<Vec<usize>, AllocError> {
        let mut parts = Vec::new(self.alloc);
        for expr in exprs {
            let part = self.add_expr(expr, scope)?;
            parts.push(part)?;
        }
        Ok(parts)
    }

    #[cycle(exprs)]
    fn add_lets(&mut self, defs: &'a [LetDef], scope: usize) -> Result<(), AllocError> {
        for def in defs {
            let part = self.add_expr(&def.val, scope)?;
            self.parts.bind(&def.var.0, scope, part)?;
        }
        Ok(())
    }

    // The part that a variable is bound to. An unbound one gets a new part.
    fn var(&mut self, name: &'a str, scope: usize) -> Result<usize, AllocError> {
        match self.parts.bound(name, scope) {
            Some(part) => Ok(part),
            None => {
                let part = self.parts.new_part()?;
                self.bind(name, scope, part)?;
                Ok(part)
            }
        }
    }

    fn constant(&mut self, form: ValueForm<'a>, pos: Pos) -> Result<usize, AllocError> {
        let part = self.parts.call(form, Vec::new(self.alloc))?;
        self.parts.add_constant(part, form, pos)?;
        Ok(part)
    }

    fn add_pattern(&mut self, task: Task<'a>) -> Result<(), AllocError> {
        let mut waiting = Vec::new(self.alloc);
        waiting.push(task)?;
        for _ in 0..MOST_PATTERNS {
            let Some(task) = waiting.pop() else {
                return Ok(());
            };
            self.add_one(task, &mut waiting)?;
        }
        self.parts.set_cut();
        Ok(())
    }

    // Adds what a pattern asks. Its subpatterns wait then.
    fn add_one(&mut self, task: Task<'a>, waiting: &mut Vec<Task<'a>>) -> Result<(), AllocError> {
        match task.pattern {
            Pattern::Var { var, pos: _ } => self.add_var(&var.0, task, waiting),
            Pattern::BindPattern { var, subpat, .. } => {
                waiting.push(Task {
                    pattern: subpat,
                    ..task
                })?;
                self.add_var(&var.0, task, waiting)
            }
            Pattern::ConstBool { val, pos } => self.add_constant(task, ValueForm::Bool(*val), *pos),
            Pattern::ConstInt { val, pos } => self.add_constant(task, ValueForm::Int(*val), *pos),
            Pattern::ConstPrim { val, pos } => self.add_constant(
                task,
                ValueForm::Const(&val.0),
                *pos,
            ),
            Pattern::Term { sym, args, pos } => self.add_term(task, &sym.0, args, *pos, waiting),
            Pattern::And { subpats, .. } => add_all(task, subpats, waiting),
            Pattern::Wildcard { .. } | Pattern::MacroArg { .. } => Ok(()),
        }
    }

    // Adds that a part has a variable's value. In a template the name may mean a pattern of the use, or any pattern where there
    // is no use.
    fn add_var(
        &mut self,
        name: &'a str,
        task: Task<'a>,
        waiting: &mut Vec<Task<'a>>,
    ) -> Result<(), AllocError> {
        if let Some((pattern, scope)) = self.used_for(name, task.scope) {
            waiting.push(Task {
                part: task.part,
                pattern,
                scope,
            })?;
            return Ok(());
        }
        if self.is_argument(name, task.scope) {
            return Ok(());
        }
        match self.parts.bound(name, task.scope) {
            Some(part) => self.parts.use_again(part, task.part),
            None => self.bind(name, task.scope, task.part),
        }
    }

    // The pattern that a use has for an argument of the template, and its scope.
    fn used_for(&self, name: &str, scope: usize) -> Option<(&'a Pattern, usize)> {
        let scope = self.scopes.get(scope)?;
        for (arg, pattern) in scope.args.iter().zip(scope.uses) {
            if arg.0.as_str() == name {
                return Some((pattern, scope.outer));
            }
        }
        None
    }

    // Whether a name is that of an argument of the template.
    fn is_argument(&self, name: &str, scope: usize) -> bool {
        match self.scopes.get(scope) {
            Some(scope) => scope.args.iter().any(|arg| arg.0.as_str() == name),
            None => false,
        }
    }

    // Binds a variable. Those of rules name their parts.
    fn bind(&mut self, name: &'a str, scope: usize, part: usize) -> Result<(), AllocError> {
        if self.place_of(scope).is_none() {
            self.parts.set_name(part, name);
        }
        self.parts.bind(name, scope, part)
    }

    // The place of the use that a scope is of.
    fn place_of(&self, scope: usize) -> Option<Pos> {
        self.scopes.get(scope)?.place
    }

    fn add_constant(
        &mut self,
        task: Task<'a>,
        form: ValueForm<'a>,
        pos: Pos,
    ) -> Result<(), AllocError> {
        let pos = self.place_of(task.scope).unwrap_or(pos);
        self.parts.add_constant(task.part, form, pos)
    }

    // Adds that a term takes a part apart, or what its template asks.
    fn add_term(
        &mut self,
        task: Task<'a>,
        name: &'a str,
        args: &'a [Pattern],
        pos: Pos,
        waiting: &mut Vec<Task<'a>>,
    ) -> Result<(), AllocError> {
        let pos = self.place_of(task.scope).unwrap_or(pos);
        if let Some(extractor) = self.extractor(name) {
            let scope = self.scopes.len();
            self.scopes.push(Scope {
                args: &extractor.args,
                uses: args,
                outer: task.scope,
                place: Some(pos),
            })?;
            waiting.push(Task {
                part: task.part,
                pattern: &extractor.template,
                scope,
            })?;
            return Ok(());
        }
        let parts = self
            .parts
            .add_term(task.part, ValueForm::Term(name), args.len(), pos)?;
        add_each(&parts, args, task.scope, waiting)
    }

    // The extractor of a name that is replaced by its template.
    fn extractor(&self, name: &'a str) -> Option<&'a Extractor> {
        self.extractors
            .get(name)
            .filter(|extractor| Some(extractor.pos) != self.unknown)
    }
}

// Adds patterns for one part. The first one is read first.
fn add_all<'a>(
    task: Task<'a>,
    patterns: &'a [Pattern],
    waiting: &mut Vec<Task<'a>>,
) -> Result<(), AllocError> {
    for pattern in patterns.iter().rev() {
        waiting.push(Task { pattern, ..task })?;
    }
    Ok(())
}

// Adds a pattern for each part. The first one is read first.
fn add_each<'a>(
    parts: &[usize],
    patterns: &'a [Pattern],
    scope: usize,
    waiting: &mut Vec<Task<'a>>,
) -> Result<(), AllocError> {
    for (part, pattern) in parts.iter().zip(patterns).rev() {
        waiting.push(Task {
            part: *part,
            pattern,
            scope,
        })?;
    }
    Ok(())
}
