//! The names and the literals that stand in a definition: what each stands for, where it is bound, and what needs a type there.

use crate::definitions::{declaration_of, definition_around, fields_of, result_of, subject_of};
use core_syntax::syntax::{
    Def, Expr, Extern, Extractor, Fields, Ident, LetDef, Pattern, Pos, Rule, Type, TypeValue,
};
use std::alloc::{AllocError, Global};
use std::collections::BTreeMap;

/// What a name stands for.
#[derive(Clone, Copy, Debug, PartialEq, Eq)]
pub enum MentionKind {
    Type,
    /// A term, or a variant or a struct that is used as one.
    Term,
    /// A variant where it is defined, without the name of its type.
    Variant,
    Field,
    Rule,
    Variable,
    Constant,
    /// A variant or a struct in an expression of a spec, where terms have no meaning.
    Made,
    /// A variant in a match of a spec, without the name of its type.
    Arm,
    /// A field in a spec, behind `:`.
    Access,
}

/// What needs a type where a form stands.
#[derive(Clone, Copy)]
pub enum Need<'a> {
    /// Nothing does: forms of any type may stand there.
    Nothing,
    /// A term: the argument of this place, counted from 0.
    Argument(&'a str, usize),
    /// The term that a rule or an extractor is of: its argument of this place.
    Parameter(&'a str, usize),
    /// The term that a rule or a template is of: its result.
    Answer(&'a str),
    /// A definition of a let: its value.
    Binding(&'a LetDef),
    /// A condition whose expression is this term, at this place: what the term gives.
    Given(&'a str, Pos),
}

/// A name that stands somewhere.
#[derive(Clone, Copy)]
pub struct Mention<'a> {
    /// The name.
    pub name: &'a Ident,
    /// What it stands for.
    pub kind: MentionKind,
    /// Where the form begins that it is the name of: the list of a term that is used, of a variant or of a field, the sign of a
    /// constant; else the name.
    pub form: Pos,
    /// Whether it is defined there.
    pub defines: bool,
    /// Whether it stands in a pattern.
    pub in_pattern: bool,
    /// Of a variable the name where it is bound, of a variant that of its type, of a field that of its variant or its struct; else
    /// the name itself.
    pub home: &'a Ident,
    /// What needs a type there.
    pub need: Need<'a>,
    /// Of a term that is used in a rule or a template, or that an extractor is of, how many arguments it has there; else 0.
    pub count: usize,
    /// The pattern that stands behind a variable, as in `x @ (f _)`.
    pub behind: Option<Pos>,
    /// Of a variable that is bound there whether it stands anywhere else, too.
    pub is_used: bool,
    // The number of the first name behind the let that binds it.
    until: usize,
}

impl<'a> Mention<'a> {
    /// Whether an offset lies in the name, or at its end.
    pub fn is_at(&self, pos: Pos) -> bool {
        let begin = self.name.1;
        let end = begin.offset.saturating_add(self.name.0.len());
        begin.file == pos.file && begin.offset <= pos.offset && pos.offset <= end
    }

    /// The text of the name.
    pub fn text(&self) -> &'a str {
        self.name.0.as_str()
    }
}

/// What a literal says.
#[derive(Clone, Copy, PartialEq, Eq)]
pub enum LiteralValue {
    Integer(i128),
    Truth(bool),
}

/// An integer or a truth value that stands somewhere.
#[derive(Clone, Copy)]
pub struct Literal<'a> {
    /// What it says.
    pub value: LiteralValue,
    /// Where it stands.
    pub pos: Pos,
    /// Whether it stands in a pattern.
    pub in_pattern: bool,
    /// What needs a type there.
    pub need: Need<'a>,
}

/// The names and the literals of a definition, in order; of a condition those of its expression first.
pub struct Mentions<'a> {
    pub names: Vec<Mention<'a>>,
    pub literals: Vec<Literal<'a>>,
    // The variables that can be used, in order.
    scope: Vec<Bound>,
    // Of each name the number of the last variable of this name that can be used, if there is one.
    last: BTreeMap<&'a str, Option<usize>>,
}

// A variable that can be used.
#[derive(Clone, Copy)]
struct Bound {
    // Its number.
    number: usize,
    // The number of the variable of its name that could be used before it.
    before: Option<usize>,
}

impl<'a> Drop for Mentions<'a> {
    fn drop(self) {
        let Mentions {
            names: _,
            literals: _,
            scope: _,
            last: _,
        } = self;
    }
}

/// A name without a home of its own that stands outside of patterns, and is used there.
pub fn plain_mention(name: &Ident, kind: MentionKind) -> Mention<'_> {
    Mention {
        name,
        kind,
        form: name.1,
        defines: false,
        in_pattern: false,
        home: name,
        need: Need::Nothing,
        count: 0,
        behind: None,
        is_used: false,
        until: usize::MAX,
    }
}

impl<'a> Mentions<'a> {
    /// The names and the literals of a definition.
    ///
    /// # Errors
    ///
    /// Where memory is refused.
    pub fn of(alloc: Global, def: &'a Def) -> Result<Mentions<'a>, AllocError> {
        let mut found = Mentions::none(alloc);
        found.add_definition(def)?;
        Ok(found)
    }

    /// Those of the definition that a place lies in, if it lies in one.
    ///
    /// # Errors
    ///
    /// Where memory is refused.
    pub fn around(alloc: Global, defs: &'a [Def], pos: Pos) -> Result<Mentions<'a>, AllocError> {
        match definition_around(defs, pos) {
            Some(def) => Mentions::of(alloc, def),
            None => Ok(Mentions::none(alloc)),
        }
    }

    fn none(alloc: Global) -> Mentions<'a> {
        Mentions {
            names: Vec::new(alloc),
            literals: Vec::new(alloc),
            scope: Vec::new(alloc),
            last: BTreeMap::new(alloc),
        }
    }

    /// The number of the term, the variable or the constant whose form begins at a place.
    pub fn number_at(&self, pos: Pos) -> Option<usize> {
        for (number, mention) in self.names.iter().enumerate() {
            if mention.form == pos && is_form(mention.kind) {
                return Some(number);
            }
        }
        None
    }

    /// The term, the variable or the constant whose form begins at a place.
    pub fn at(&self, pos: Pos) -> Option<&Mention<'a>> {
        self.names.get(self.number_at(pos)?)
    }

    /// What needs a type at a place.
    pub fn need_at(&self, pos: Pos) -> Need<'a> {
        if let Some(mention) = self.at(pos) {
            return mention.need;
        }
        match self.literals.iter().find(|literal| literal.pos == pos) {
            Some(literal) => literal.need,
            None => Need::Nothing,
        }
    }

    /// Where the use begins of the term whose argument stands at a place.
    pub fn user_of(&self, pos: Pos) -> Option<Pos> {
        let Need::Argument(term, _) = self.need_at(pos) else {
            return None;
        };
        let mut found = None;
        for mention in &self.names {
            if mention.kind == MentionKind::Term && mention.text() == term && mention.form < pos {
                found = Some(mention.form);
            }
        }
        found
    }

    /// Where the variable is bound that stands at a place, unless that is there.
    pub fn binding_at(&self, pos: Pos) -> Option<Pos> {
        let mention = self.at(pos)?;
        if mention.kind == MentionKind::Variable && mention.home.1 != mention.name.1 {
            Some(mention.home.1)
        } else {
            None
        }
    }

    /// Whether the variable of this number can be used where the name stands that has another number.
    pub fn is_in_scope(&self, variable: usize, number: usize) -> bool {
        match self.names.get(variable) {
            Some(mention) => {
                mention.kind == MentionKind::Variable
                    && mention.defines
                    && variable < number
                    && number < mention.until
            }
            None => false,
        }
    }

    fn add(&mut self, name: &'a Ident, kind: MentionKind, defines: bool) -> Result<(), AllocError> {
        self.names.push(Mention {
            defines,
            ..plain_mention(name, kind)
        })?;
        Ok(())
    }

    fn add_definition(&mut self, def: &'a Def) -> Result<(), AllocError> {
        match def {
            Def::TypeDef(ty) => self.add_type(ty),
            Def::Decl(decl) => {
                self.add(&decl.term, MentionKind::Term, true)?;
                for ty in &decl.arg_tys {
                    self.add(ty, MentionKind::Type, false)?;
                }
                self.add(&decl.ret_ty, MentionKind::Type, false)
            }
            Def::Extractor(extractor) => self.add_extractor(extractor),
            Def::Converter(converter) => {
                self.add(&converter.inner_ty, MentionKind::Type, false)?;
                self.add(&converter.outer_ty, MentionKind::Type, false)?;
                self.add(&converter.term, MentionKind::Term, false)
            }
            Def::Rule(rule) => self.add_rule(rule),
            Def::Extern(Extern::Const { name, ty, .. }) => {
                self.add(name, MentionKind::Constant, true)?;
                self.add(ty, MentionKind::Type, false)
            }
            Def::Extern(external) => self.add(subject_of(external), MentionKind::Term, false),
            Def::Other => Ok(()),
        }
    }

    // Adds the names of a type's definition.
    fn add_type(&mut self, ty: &'a Type) -> Result<(), AllocError> {
        self.add(&ty.name, MentionKind::Type, true)?;
        match &ty.ty {
            TypeValue::Primitive(..) => Ok(()),
            TypeValue::Enum(variants, _) => {
                for variant in variants {
                    self.add_part(&variant.name, MentionKind::Variant, variant.pos, &ty.name)?;
                    self.add_fields(&variant.fields, &variant.name)?;
                }
                Ok(())
            }
            TypeValue::Struct(fields, _) => self.add_fields(fields, &ty.name),
        }
    }

    // Adds a variant or a field that is defined in a definition.
    fn add_part(
        &mut self,
        name: &'a Ident,
        kind: MentionKind,
        form: Pos,
        home: &'a Ident,
    ) -> Result<(), AllocError> {
        self.names.push(Mention {
            form,
            defines: true,
            home,
            ..plain_mention(name, kind)
        })?;
        Ok(())
    }

    // Adds the names of fields and of their types.
    fn add_fields(&mut self, fields: &'a Fields, home: &'a Ident) -> Result<(), AllocError> {
        match fields {
            Fields::Unit => Ok(()),
            Fields::Struct(fields) => {
                for field in &fields.fields {
                    self.add_part(&field.name, MentionKind::Field, field.pos, home)?;
                    self.add(&field.ty, MentionKind::Type, false)?;
                }
                Ok(())
            }
            Fields::Tuple(fields) => {
                for field in &fields.fields {
                    self.add(&field.ty, MentionKind::Type, false)?;
                }
                Ok(())
            }
        }
    }

    // Adds the names of an extractor. Its arguments are variables of its template.
    fn add_extractor(&mut self, extractor: &'a Extractor) -> Result<(), AllocError> {
        self.add_term(
            &extractor.term,
            extractor.args.len(),
            extractor.term.1,
            false,
            Need::Nothing,
        )?;
        for (number, arg) in extractor.args.iter().enumerate() {
            self.bind(arg, Need::Parameter(&extractor.term.0, number), None, false)?;
        }
        self.add_pattern(&extractor.template, Need::Answer(&extractor.term.0))
    }

    fn add_rule(&mut self, rule: &'a Rule) -> Result<(), AllocError> {
        if let Some(name) = &rule.name {
            self.add(name, MentionKind::Rule, true)?;
        }
        match &rule.pattern {
            Pattern::Term { sym, args, pos } => {
                self.add_term(sym, args.len(), *pos, true, Need::Nothing)?;
                for (number, arg) in args.iter().enumerate() {
                    self.add_pattern(arg, Need::Parameter(&sym.0, number))?;
                }
            }
            pattern => self.add_pattern(pattern, Need::Nothing)?,
        }
        for iflet in &rule.iflets {
            self.add_expr(&iflet.expr, Need::Nothing)?;
            let need = self.given_by(&iflet.expr);
            self.add_pattern(&iflet.pattern, need)?;
        }
        match rule.pattern.root_term() {
            Some(root) => self.add_expr(&rule.expr, Need::Answer(&root.0)),
            None => self.add_expr(&rule.expr, Need::Nothing),
        }
    }

    // What a condition needs whose expression this is.
    fn given_by(&self, expr: &'a Expr) -> Need<'a> {
        match expr {
            Expr::Term { sym, pos, .. } => Need::Given(&sym.0, *pos),
            Expr::Var { name, .. } => match self.bound(name) {
                Some(home) => home.need,
                None => Need::Nothing,
            },
            _ => Need::Nothing,
        }
    }

    // Adds a term that is used with so many arguments.
    fn add_term(
        &mut self,
        name: &'a Ident,
        count: usize,
        form: Pos,
        in_pattern: bool,
        need: Need<'a>,
    ) -> Result<(), AllocError> {
        self.names.push(Mention {
            form,
            in_pattern,
            need,
            count,
            ..plain_mention(name, MentionKind::Term)
        })?;
        Ok(())
    }

    // Adds a constant that is used.
    fn add_constant(
        &mut self,
        name: &'a Ident,
        form: Pos,
        in_pattern: bool,
        need: Need<'a>,
    ) -> Result<(), AllocError> {
        self.names.push(Mention {
            form,
            in_pattern,
            need,
            ..plain_mention(name, MentionKind::Constant)
        })?;
        Ok(())
    }

    // Adds a variable that is bound there, whatever was bound before.
    fn bind(
        &mut self,
        name: &'a Ident,
        need: Need<'a>,
        behind: Option<Pos>,
        in_pattern: bool,
    ) -> Result<(), AllocError> {
        let number = self.names.len();
        let before = self.last_of(name);
        self.scope.push(Bound { number, before })?;
        self.last.insert(&name.0, Some(number))?;
        self.names.push(Mention {
            defines: true,
            in_pattern,
            need,
            behind,
            ..plain_mention(name, MentionKind::Variable)
        })?;
        Ok(())
    }

    // The last variable of a name that can be used.
    fn bound(&self, name: &'a Ident) -> Option<&Mention<'a>> {
        self.names.get(self.last_of(name)?)
    }

    // Its number.
    fn last_of(&self, name: &'a Ident) -> Option<usize> {
        *self.last.get(&name.0.as_str())?
    }

    // Where a variable of a name is bound that is used: the last one that can be.
    fn home_of(&mut self, name: &'a Ident) -> Option<&'a Ident> {
        let number = self.last_of(name)?;
        let bound = self.names.get_mut(number)?;
        bound.is_used = true;
        Some(bound.home)
    }

    // Adds a variable of a pattern: it is bound there, or was bound before.
    fn add_in_pattern(
        &mut self,
        name: &'a Ident,
        need: Need<'a>,
        behind: Option<Pos>,
    ) -> Result<(), AllocError> {
        let Some(home) = self.home_of(name) else {
            return self.bind(name, need, behind, true);
        };
        self.names.push(Mention {
            in_pattern: true,
            home,
            need,
            behind,
            ..plain_mention(name, MentionKind::Variable)
        })?;
        Ok(())
    }

    fn add_in_expr(&mut self, name: &'a Ident, need: Need<'a>) -> Result<(), AllocError> {
        let home = self.home_of(name).unwrap_or(name);
        self.names.push(Mention {
            home,
            need,
            ..plain_mention(name, MentionKind::Variable)
        })?;
        Ok(())
    }

    fn add_literal(
        &mut self,
        value: LiteralValue,
        pos: Pos,
        in_pattern: bool,
        need: Need<'a>,
    ) -> Result<(), AllocError> {
        self.literals.push(Literal {
            value,
            pos,
            in_pattern,
            need,
        })?;
        Ok(())
    }

    #[cycle(patterns)]
    fn add_pattern(&mut self, pattern: &'a Pattern, need: Need<'a>) -> Result<(), AllocError> {
        match pattern {
            Pattern::Var { var, .. } => self.add_in_pattern(var, need, None),
            Pattern::BindPattern { var, subpat, .. } => {
                self.add_in_pattern(var, need, Some(subpat.pos()))?;
                self.add_pattern(subpat, need)
            }
            Pattern::ConstBool { val, pos } => {
                self.add_literal(LiteralValue::Truth(*val), *pos, true, need)
            }
            Pattern::ConstInt { val, pos } => {
                self.add_literal(LiteralValue::Integer(*val), *pos, true, need)
            }
            Pattern::ConstPrim { val, pos } => { self.add_constant(val, *pos, true, need) }
            Pattern::Term { sym, args, pos } => {
                self.add_term(sym, args.len(), *pos, true, need)?;
                for (number, arg) in args.iter().enumerate() {
                    self.add_pattern(arg, Need::Argument(&sym.0, number))?;
                }
                Ok(())
            }
            Pattern::And { subpats, .. } => {
                for part in subpats {
                    self.add_pattern(part, need)?;
                }
                Ok(())
            }
            Pattern::Wildcard { .. } | Pattern::MacroArg { .. } => Ok(()),
        }
    }

    #[cycle(exprs)]
    fn add_expr(&mut self, expr: &'a Expr, need: Need<'a>) -> Result<(), AllocError> {
        match expr {
            Expr::Term { sym, args, pos } => {
                self.add_term(sym, args.len(), *pos, false, need)?;
                for (number, arg) in args.iter().enumerate() {
                    self.add_expr(arg, Need::Argument(&sym.0, number))?;
                }
                Ok(())
            }
            Expr::Var { name, .. } => self.add_in_expr(name, need),
            Expr::ConstBool { val, pos } => {
                self.add_literal(LiteralValue::Truth(*val), *pos, false, need)
            }
            Expr::ConstInt { val, pos } => {
                self.add_literal(LiteralValue::Integer(*val), *pos, false, need)
            }
            Expr::ConstPrim { val, pos } => { self.add_constant(val, *pos, false, need) }
            Expr::Let { defs, body, .. } => {
                let count = self.scope.len();
                self.add_lets(defs)?;
                self.add_expr(body, need)?;
                self.leave(count);
                Ok(())
            }
        }
    }

    // Adds the names of a let. Each value may use what was bound before it.
    #[cycle(exprs)]
    fn add_lets(&mut self, defs: &'a [LetDef]) -> Result<(), AllocError> {
        for def in defs {
            self.add(&def.ty, MentionKind::Type, false)?;
            self.add_expr(&def.val, Need::Binding(def))?;
            self.bind(&def.var, Need::Binding(def), None, false)?;
        }
        Ok(())
    }

    // Only so many variables can be used from now on.
    fn leave(&mut self, count: usize) {
        let end = self.names.len();
        for _ in count..self.scope.len() {
            if let Some(bound) = self.scope.pop() {
                self.forget(bound, end);
            }
        }
    }

    // The last variable that can be used can't be any more from the name of a number on.
    fn forget(&mut self, bound: Bound, end: usize) {
        if let Some(mention) = self.names.get_mut(bound.number) {
            mention.until = end;
            if let Some(last) = self.last.get_mut(&mention.text()) {
                *last = bound.before;
            }
        }
    }
}

// Whether a name of this kind is that of a form in rules and templates.
fn is_form(kind: MentionKind) -> bool {
    matches!(
        kind,
        MentionKind::Term | MentionKind::Variable | MentionKind::Constant
    )
}

/// The name of the type that is needed, where it is written.
pub fn type_needed<'a>(defs: &'a [Def], need: Need<'a>) -> Option<&'a Ident> {
    match need {
        Need::Nothing => None,
        Need::Argument(term, place) | Need::Parameter(term, place) => {
            argument_type(defs, term, place)
        }
        Need::Answer(term) => Some(&declaration_of(defs, term)?.ret_ty),
        Need::Binding(def) => Some(&def.ty),
        Need::Given(term, _) => result_of(defs, term),
    }
}

/// The name of the type of a term's argument, by its place.
pub fn argument_type<'a>(defs: &'a [Def], term: &str, place: usize) -> Option<&'a Ident> {
    if let Some(decl) = declaration_of(defs, term) {
        return decl.arg_tys.get(place);
    }
    match fields_of(defs, term)? {
        Fields::Unit => None,
        Fields::Struct(fields) => Some(&fields.fields.get(place)?.ty),
        Fields::Tuple(fields) => Some(&fields.fields.get(place)?.ty),
    }
}
