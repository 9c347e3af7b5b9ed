//! What names, types, terms and rules are called.

use crate::definitions::rule_around;
use core_syntax::syntax::{Def, Pos, Rule};
use core_terms::Term;
use core_types::{Sym, TermId, Type, TypeEnv, TypeId, VariantId};

/// What names are looked up in.
#[derive(Clone, Copy)]
pub struct NameTables<'a> {
    /// The names and types.
    pub tyenv: &'a TypeEnv,
    /// The terms.
    pub terms: &'a [Term],
}

impl<'a> NameTables<'a> {
    /// A name, or the empty text where it is none of these.
    pub fn sym(self, sym: Sym) -> &'a str {
        self.tyenv.text_of(sym)
    }

    /// The name of a type, or `?` where it is none of these.
    pub fn ty(self, ty: TypeId) -> &'a str {
        match self.tyenv.types.get(ty.index()) {
            Some(Type::Builtin(builtin)) => builtin.name(),
            Some(
                Type::Primitive(_, name, _) | Type::Enum { name, .. } | Type::Struct { name, .. },
            ) => self.sym(*name),
            None => "?",
        }
    }

    /// The name of a variant with that of its type before it, or `?` where it is none of these.
    pub fn variant(self, ty: TypeId, variant: VariantId) -> &'a str {
        let Some(Type::Enum { variants, .. }) = self.tyenv.types.get(ty.index()) else {
            return "?";
        };
        match variants.get(variant.index()) {
            Some(variant) => self.sym(variant.fullname),
            None => "?",
        }
    }

    /// The name of a term, or `?` where it is none of these.
    pub fn term(self, term: TermId) -> &'a str {
        match self.terms.get(term.index()) {
            Some(term) => self.sym(term.name),
            None => "?",
        }
    }

    /// How many arguments a term has.
    pub fn arity(self, term: TermId) -> usize {
        match self.terms.get(term.index()) {
            Some(term) => term.arg_tys.len(),
            None => 0,
        }
    }
}

/// The rule that is defined at a position. The definitions stand in the order of their places.
pub fn rule_at(defs: &[Def], pos: Pos) -> Option<&Rule> {
    rule_around(defs, pos).filter(|rule| rule.pos == pos)
}

/// The name that a rule is given, or the empty text.
pub fn name_of(rule: &Rule) -> &str {
    match &rule.name {
        Some(name) => name.0.as_str(),
        None => "",
    }
}

/// A rule's priority: 0 where none is given.
pub fn priority_of(rule: &Rule) -> i64 {
    match rule.prio {
        Some(priority) => priority,
        None => 0,
    }
}
