//! Names looked up in the tables of what was lowered.

use core_types::{Sym, TermId, TypeId, VariantId};
use cranelift_isle::lower::{Lowered, LoweredTerm};
use cranelift_isle::sema::TermKind;
use cranelift_isle::syntax::Pos;
use report_queries::names::sym_name;

/// Where names are looked up: the tables, and the term that is read.
#[derive(Clone, Copy)]
pub struct Tables<'a> {
    pub lowered: &'a Lowered,
    pub term: &'a LoweredTerm,
}

impl<'a> Tables<'a> {
    /// The name of this text. Constants are told by their names.
    pub fn sym_named(self, name: &str) -> Option<Sym> {
        self.lowered.tyenv.sym_map.get(name).copied()
    }

    /// The term of a name.
    pub fn term_named(self, name: &str) -> Option<TermId> {
        let name = self.sym_named(name)?;
        self.lowered.termenv.term_map.get(&name).copied()
    }

    /// The type of a name.
    pub fn type_named(self, name: &str) -> Option<TypeId> {
        let name = self.sym_named(name)?;
        self.lowered.tyenv.type_map.get(&name).copied()
    }

    /// The variant of a name that begins with its enum's name and a point.
    pub fn variant_named(self, name: &str) -> Option<(TypeId, VariantId)> {
        let term = self.term_named(name)?;
        let term = self.lowered.termenv.terms.get(term.index())?;
        match term.kind {
            TermKind::EnumVariant { variant } => Some((term.ret_ty, variant)),
            _ => None,
        }
    }

    /// The name of the term's rule at a position.
    pub fn rule_name(self, pos: Pos) -> Option<&'a str> {
        for rule in &self.term.rules.rules {
            if rule.pos == pos {
                return sym_name(&self.lowered.tyenv, rule.name?);
            }
        }
        None
    }
}
