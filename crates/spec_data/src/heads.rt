//! Places of expressions, names in patterns, and what is told of names.

use crate::faults::{Stop, wrong, wrong_as};
use crate::translation::Translation;
use core_syntax::syntax::{Ident, Pos};
use text_reader::syntax::SpecExpr;

/// The place of an expression.
pub(crate) fn pos_of(expr: &SpecExpr) -> Pos {
    match expr {
        SpecExpr::ConstInt { pos, .. }
        | SpecExpr::ConstBitVec { pos, .. }
        | SpecExpr::ConstBool { pos, .. }
        | SpecExpr::ConstUnit { pos }
        | SpecExpr::Var { pos, .. }
        | SpecExpr::Op { pos, .. }
        | SpecExpr::Cases { pos, .. }
        | SpecExpr::Let { pos, .. }
        | SpecExpr::With { pos, .. }
        | SpecExpr::As { pos, .. }
        | SpecExpr::Pair { pos, .. } => *pos,
    }
}

/// The name that an expression is.
pub(crate) fn name_in(expr: &SpecExpr) -> Option<&str> {
    match expr {
        SpecExpr::Var { var, .. } => Some(var.0.as_str()),
        _ => None,
    }
}

/// Whether a key of a switch stands for any other value.
pub(crate) fn is_other(key: &SpecExpr) -> bool {
    match key {
        SpecExpr::Var { var, .. } => var.0.as_str() == "_",
        _ => false,
    }
}

impl<'c, 's> Translation<'c, 's> {
    /// That something isn't supported.
    pub(crate) fn unsupported(&self, what: &str, pos: Pos) -> Stop {
        let alloc = self.alloc;
        wrong(pos, format!(in alloc; "`{what}` isn't supported"))
    }

    /// That `with` isn't supported.
    pub(crate) fn with_unsupported(&self, pos: Pos) -> Stop {
        wrong_as(
            "spec-unsupported",
            pos,
            String::from_str(self.alloc, "`with` isn't supported"),
        )
    }

    /// That a pair is no expression.
    pub(crate) fn no_pair(&self, pos: Pos) -> Stop {
        wrong(
            pos,
            String::from_str(self.alloc, "a pair stands in no case"),
        )
    }

    /// That an expression nests too deep, as a macro that uses itself.
    pub(crate) fn nests_too_deep(&self, pos: Pos) -> Stop {
        wrong(
            pos,
            String::from_str(self.alloc, "expressions nest too deep"),
        )
    }

    /// That a name stands for nothing.
    pub(crate) fn unknown_name(&self, name: &Ident) -> Stop {
        let alloc = self.alloc;
        wrong(
            name.1,
            format!(in alloc; "nothing here is called `{}`", name.0),
        )
    }

    /// That the head of a list stands for nothing.
    pub(crate) fn unknown_operator(&self, op: &Ident) -> Stop {
        let alloc = self.alloc;
        wrong(
            op.1,
            format!(in alloc; "no operator, macro or term is called `{}`", op.0),
        )
    }

    /// That something has more or fewer parameters, arguments or fields than there are here.
    pub(crate) fn miscounted(
        &self,
        name: &Ident,
        what: &str,
        wanted: usize,
        count: usize,
        pos: Pos,
    ) -> Stop {
        let alloc = self.alloc;
        wrong(
            pos,
            format!(in alloc; "`{}` has {wanted} {what}, and here are {count}", name.0),
        )
    }

    /// That a term can't be used in a spec.
    pub(crate) fn no_function(&self, name: &Ident) -> Stop {
        let alloc = self.alloc;
        wrong(
            name.1,
            format!(in alloc;
                "`{}` can't stand in a spec: only pure terms without specs can, whose arguments are truth values, integers and words",
                name.0
            ),
        )
    }

    /// That what is matched has no variant of a name.
    pub(crate) fn no_variant(&self, name: &Ident) -> Stop {
        let alloc = self.alloc;
        wrong_as(
            "spec-variant",
            name.1,
            format!(in alloc; "the value that is matched has no variant `{}`", name.0),
        )
    }

    /// That two arms of a match are of one variant.
    pub(crate) fn arm_twice(&self, pos: Pos) -> Stop {
        wrong_as(
            "spec-variant",
            pos,
            String::from_str(self.alloc, "two arms are of one variant"),
        )
    }
}
