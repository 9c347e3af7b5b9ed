//! Typed expressions: what a rule makes.
ghost use Rattle.std.specs.Prelude.{◌≡◌, IfOk};
ghost use Rattle.core_typed.specs.ExprViews.{expr_view, expr_views, let_views};
ghost use Rattle.model.specs.lists.Setting.{expr_type};

use core_types::{Sym, TermId, TypeId, VarId};
use std::alloc::{AllocError, Global};

/// A value to make. Each form begins with the type of the value: a constant keeps it, since the literal
/// alone doesn't say which constant it is.
#[derive(Debug, PartialEq, Eq)]
pub enum Expr {
    /// A variant, a struct or a call, with an expression for each argument.
    Term(TypeId, TermId, Vec<Expr>),
    /// The value of a variable.
    Var(TypeId, VarId),
    /// A truth value.
    ConstBool(TypeId, bool),
    /// An integer: at a built-in type a number of the type's range.
    ConstInt(TypeId, i128),
    /// A named constant.
    ConstPrim(TypeId, Sym),
    /// The body's value, where some variables stand for values. All of these are evaluated, in order, used
    /// or not.
    Let {
        /// The body's type.
        ty: TypeId,
        /// The variables, each with its type and its value, in order.
        bindings: Vec<(VarId, TypeId, Box<Expr>)>,
        /// What is made.
        body: Box<Expr>,
    },
}

impl Expr {
    /// The type that the form holds first.
    pub fn ty(&self) -> TypeId
        ensures { result.0 ≡ expr_type (expr_view self.now) }
    {
        match self {
            Expr::Term(ty, ..)
            | Expr::Var(ty, ..)
            | Expr::ConstBool(ty, ..)
            | Expr::ConstInt(ty, ..)
            | Expr::ConstPrim(ty, ..)
            | Expr::Let { ty, .. } => *ty,
        }
    }
}

impl Clone for Expr {
    ghost use Rattle.std.specs.Prelude.{◌≡◌};
    ghost use Rattle.core_typed.specs.ExprViews.{expr_view};

    ghost is_clone = { λ p q. expr_view q ≡ expr_view p };

    #[cycle(clone_expr)]
    fn clone(&self) -> Result<Expr, AllocError> {
        match self {
            Expr::Term(ty, term, args) => {
                Ok(Expr::Term(*ty, *term, clones(*args.allocator(), args)?))
            }
            Expr::Var(ty, var) => Ok(Expr::Var(*ty, *var)),
            Expr::ConstBool(ty, val) => Ok(Expr::ConstBool(*ty, *val)),
            Expr::ConstInt(ty, val) => Ok(Expr::ConstInt(*ty, *val)),
            Expr::ConstPrim(ty, val) => Ok(Expr::ConstPrim(*ty, *val)),
            Expr::Let { ty, bindings, body } => {
                let alloc = *Box::allocator(body);
                Ok(Expr::Let {
                    ty: *ty,
                    bindings: clone_bindings(*bindings.allocator(), bindings)?,
                    body: Box::new(alloc, (**body).clone()?)?,
                })
            }
        }
    }
}

#[cycle(clone_expr)]
fn clones(alloc: Global, parts: &[Expr]) -> Result<Vec<Expr>, AllocError>
    ensures { IfOk result (λ v. expr_views v.items ≡ expr_views parts.now) }
{
    let mut out = Vec::new(alloc);
    for part in parts {
        out.push(part.clone()?)?;
    }
    Ok(out)
}

#[cycle(clone_expr)]
fn clone_bindings(
    alloc: Global,
    bindings: &[(VarId, TypeId, Box<Expr>)],
) -> Result<Vec<(VarId, TypeId, Box<Expr>)>, AllocError>
    ensures { IfOk result (λ v. let_views v.items ≡ let_views bindings.now) }
{
    let mut out = Vec::new(alloc);
    for binding in bindings {
        let value = Box::new(alloc, (*binding.2).clone()?)?;
        out.push((binding.0, binding.1, value))?;
    }
    Ok(out)
}

// Written out, and so proved here once: a derived `Drop` is proved again in each crate that drops the
// type.
impl Drop for Expr {
    #[cycle(drop_expr)]
    fn drop(self) {
        match self {
            Expr::Term(_, _, _) => {}
            Expr::Var(_, _) => {}
            Expr::ConstBool(_, _) => {}
            Expr::ConstInt(_, _) => {}
            Expr::ConstPrim(_, _) => {}
            Expr::Let {
                ty: _,
                bindings: _,
                body: _,
            } => {}
        }
    }
}
