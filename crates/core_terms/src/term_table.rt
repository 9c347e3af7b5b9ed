//! The table of all terms.

use crate::term::Term;
use core_syntax::stablemapset::StableMap;
use core_types::{Sym, TermId, TypeId};

/// The terms that definitions speak of: what rules are typed with, before there are any.
#[derive(Drop)]
pub struct TermTable {
    /// The terms: the place of each is its id.
    pub terms: Vec<Term>,
    /// The term of each term's name.
    pub term_map: StableMap<Sym, TermId>,
    /// The term that converts a type, the first one, into another, the second one. It is called where a
    /// rule uses a value of the one type at the other and says no conversion.
    pub converters: StableMap<(TypeId, TypeId), TermId>,
}
