//! What names stand for in an expression.

use crate::kinds::Kind;
use spec_cases::expressions::Expr;
use std::alloc::{AllocError, Global};

// What a name stands for.
#[derive(Clone, Copy)]
enum Meaning {
    // The argument at this place.
    Argument(usize),
    // The result.
    Result,
    // What is bound.
    Bound,
}

#[derive(Clone, Copy)]
struct Named<'e> {
    name: &'e str,
    meaning: Meaning,
    kind: Kind,
}

/// What a name stands for, and of which kind it is.
#[derive(Clone, Copy)]
pub(crate) struct Found {
    pub(crate) expr: Expr,
    pub(crate) kind: Kind,
}

/// What names stand for, the last of a name first. What is bound without a name has an empty one.
pub(crate) struct Scope<'e> {
    names: Vec<Named<'e>>,
}

// Written out, and so proved here once.
impl<'e> Drop for Scope<'e> {
    fn drop(self) {
        let Scope { names: _ } = self;
    }
}

impl<'e> Scope<'e> {
    /// No names.
    pub(crate) fn new(alloc: Global) -> Scope<'e> {
        Scope {
            names: Vec::new(alloc),
        }
    }

    fn add(&mut self, name: &'e str, meaning: Meaning, kind: Kind) -> Result<(), AllocError> {
        self.names.push(Named {
            name,
            meaning,
            kind,
        })?;
        Ok(())
    }

    /// Adds a name for the result.
    pub(crate) fn add_result(&mut self, name: &'e str, kind: Kind) -> Result<(), AllocError> {
        self.add(name, Meaning::Result, kind)
    }

    /// Adds a name for the argument at a place.
    pub(crate) fn add_argument(
        &mut self,
        name: &'e str,
        index: usize,
        kind: Kind,
    ) -> Result<(), AllocError> {
        self.add(name, Meaning::Argument(index), kind)
    }

    /// Adds a name that is bound.
    pub(crate) fn bind(&mut self, name: &'e str, kind: Kind) -> Result<(), AllocError> {
        self.add(name, Meaning::Bound, kind)
    }

    /// Adds what is bound without a name.
    pub(crate) fn bind_unnamed(&mut self) -> Result<(), AllocError> {
        self.add("", Meaning::Bound, Kind::Unknown)
    }

    /// How many names there are.
    pub(crate) fn len(&self) -> usize {
        self.names.len()
    }

    /// Takes names away, so that so many are left.
    pub(crate) fn shorten(&mut self, len: usize) {
        self.names.truncate(len);
    }

    /// What a name stands for: the last that has it. What is bound counts from the last that is bound.
    pub(crate) fn find(&self, name: &str) -> Option<Found> {
        let mut later: usize = 0;
        for known in self.names.iter().rev() {
            if known.name == name {
                let expr = match known.meaning {
                    Meaning::Argument(index) => Expr::Argument(index),
                    Meaning::Result => Expr::Result,
                    Meaning::Bound => Expr::Variable(later),
                };
                return Some(Found {
                    expr,
                    kind: known.kind,
                });
            }
            if let Meaning::Bound = known.meaning {
                later = later.saturating_add(1);
            }
        }
        None
    }
}
