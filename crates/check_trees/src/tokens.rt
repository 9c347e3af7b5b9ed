//! Printed lines as tokens.

use core_rule_sets::trie_again::BindingId;
use core_syntax::syntax::Pos;
use core_types::{Sym, TermId, TypeId, VariantId};

/// A word that is the same in all trees. `Nothing` is `_`, `Equals` is `=`.
#[derive(Clone, Copy)]
pub enum Word {
    Bind,
    Match,
    Equal,
    Loop,
    Return,
    Bool,
    Int,
    Prim,
    Arg,
    Extract,
    Call,
    Pick,
    Make,
    Some,
    Unwrap,
    Field,
    Part,
    Of,
    Variant,
    Struct,
    Nothing,
    Equals,
}

/// A token of a line, where a name is the number that it has in the tables.
#[derive(Clone, Copy)]
pub enum Token {
    Word(Word),
    Site(BindingId),
    Truth(bool),
    Count(usize),
    Integer(i128),
    Instance(u32),
    TermName(TermId),
    TypeName(TypeId),
    VariantName(TypeId, VariantId),
    ConstantName(Sym),
}

/// What stands behind the tokens of a line: nothing; the colon of an arm; the place of the rule that a return takes.
#[derive(Clone, Copy)]
pub enum Ending {
    Nothing,
    Colon,
    Comment(Pos),
}

/// A line, set in by so many spaces.
pub struct Line {
    pub depth: usize,
    pub tokens: Vec<Token>,
    pub ending: Ending,
}

impl Drop for Line {
    fn drop(self) {
        let Self {
            depth: _,
            tokens: _,
            ending: _,
        } = self;
    }
}
