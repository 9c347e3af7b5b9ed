//! Typed patterns: what a rule matches.
ghost use Rattle.std.specs.Prelude.{◌≡◌, IfOk};
ghost use Rattle.core_typed.specs.PatternViews.{pattern_view, pattern_views};
ghost use Rattle.model.specs.lists.Formed.{pattern_type};

use core_types::{Sym, TermId, TypeId, VarId};
use std::alloc::{AllocError, Global};

/// What a value must be. Each form begins with the type of the values that it is for, so that who reads a
/// pattern needs no table to know what it is tested on.
#[derive(Debug, PartialEq, Eq)]
pub enum Pattern {
    /// Binds the value to a variable, and matches it against a pattern. A variable alone is bound over a
    /// wildcard.
    BindPattern(TypeId, VarId, Box<Pattern>),
    /// The value of a variable that is bound already: the two values must be equal.
    Var(TypeId, VarId),
    /// A truth value.
    ConstBool(TypeId, bool),
    /// An integer: at a built-in type a number of the type's range.
    ConstInt(TypeId, i128),
    /// A named constant, whose value is known outside alone.
    ConstPrim(TypeId, Sym),
    /// A variant, a struct or an extractor's answer, with a pattern for each part. The type is that of the
    /// value that is taken apart.
    Term(TypeId, TermId, Vec<Pattern>),
    /// Any value.
    Wildcard(TypeId),
    /// What matches all of these, which are asked of one value.
    And(TypeId, Vec<Pattern>),
}

impl Pattern {
    /// The type that the form holds first.
    pub fn ty(&self) -> TypeId
        ensures { result.0 ≡ pattern_type (pattern_view self.now) }
    {
        match self {
            Pattern::BindPattern(ty, ..)
            | Pattern::Var(ty, ..)
            | Pattern::ConstBool(ty, ..)
            | Pattern::ConstInt(ty, ..)
            | Pattern::ConstPrim(ty, ..)
            | Pattern::Term(ty, ..)
            | Pattern::Wildcard(ty)
            | Pattern::And(ty, ..) => *ty,
        }
    }
}

impl Clone for Pattern {
    ghost use Rattle.std.specs.Prelude.{◌≡◌};
    ghost use Rattle.core_typed.specs.PatternViews.{pattern_view};

    ghost is_clone = { λ p q. pattern_view q ≡ pattern_view p };

    #[cycle(clone_pattern)]
    fn clone(&self) -> Result<Pattern, AllocError> {
        match self {
            Pattern::BindPattern(ty, var, of) => {
                let alloc = *Box::allocator(of);
                Ok(Pattern::BindPattern(*ty, *var, Box::new(alloc, (**of).clone()?)?))
            }
            Pattern::Var(ty, var) => Ok(Pattern::Var(*ty, *var)),
            Pattern::ConstBool(ty, val) => Ok(Pattern::ConstBool(*ty, *val)),
            Pattern::ConstInt(ty, val) => Ok(Pattern::ConstInt(*ty, *val)),
            Pattern::ConstPrim(ty, val) => Ok(Pattern::ConstPrim(*ty, *val)),
            Pattern::Term(ty, term, args) => {
                Ok(Pattern::Term(*ty, *term, clones(*args.allocator(), args)?))
            }
            Pattern::Wildcard(ty) => Ok(Pattern::Wildcard(*ty)),
            Pattern::And(ty, parts) => { Ok(Pattern::And(*ty, clones(*parts.allocator(), parts)?)) }
        }
    }
}

#[cycle(clone_pattern)]
fn clones(alloc: Global, parts: &[Pattern]) -> Result<Vec<Pattern>, AllocError>
    ensures { IfOk result (λ v. pattern_views v.items ≡ pattern_views parts.now) }
{
    let mut out = Vec::new(alloc);
    for part in parts {
        out.push(part.clone()?)?;
    }
    Ok(out)
}

// Written out, and so proved here once: a derived `Drop` is proved again in each crate that drops the
// type.
impl Drop for Pattern {
    #[cycle(drop_pattern)]
    fn drop(self) {
        match self {
            Pattern::BindPattern(_, _, _) => {}
            Pattern::Var(_, _) => {}
            Pattern::ConstBool(_, _) => {}
            Pattern::ConstInt(_, _) => {}
            Pattern::ConstPrim(_, _) => {}
            Pattern::Term(_, _, _) => {}
            Pattern::Wildcard(_) => {}
            Pattern::And(_, _) => {}
        }
    }
}
