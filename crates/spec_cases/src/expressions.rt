//! Expressions of specs, each made of earlier ones of a list.
ghost use Rattle.std.specs.Prelude.{◌≡◌, ◌++◌, ◌∷◌, [], true, length, IfOk, OnOk};
ghost use Rattle.spec_cases.specs.Expressions.{is_below, AreSaid, IsSaid};
ghost use Rattle.spec_cases.specs.Sayings.{saying_of, AreBelow};

use crate::faults::Fault;
use crate::literals::Literal;
use crate::operators::Operator;
use core_types::{TypeId, VariantId};

/// The number of an expression, of expressions, of cases or of arms. It means nothing outside its list.
#[derive(Clone, Copy)]
pub struct ExprId(pub u32);

/// An expression, or the first of expressions, of cases or of arms.
#[derive(Clone, Copy)]
pub enum Expr {
    /// An argument.
    Argument(usize),
    /// The result.
    Result,
    /// A variable: the last that was bound is the first.
    Variable(usize),
    /// A value that is written.
    Written(Literal),
    /// An operator on expressions.
    Operation(Operator, ExprId),
    /// An unknown function on expressions.
    Unknown(u32, ExprId),
    /// A variant, made of its fields.
    VariantSaid(TypeId, VariantId, ExprId),
    /// A struct, made of its fields.
    StructSaid(TypeId, ExprId),
    /// The first is bound in the second.
    LetIn(ExprId, ExprId),
    /// The first case of an equal value.
    SwitchOn(ExprId, ExprId),
    /// The arm of a variant or of a struct, in which its fields are bound.
    MatchOn(ExprId, ExprId),
    /// No more expressions.
    NoExpr,
    /// An expression before others.
    ExprAnd(ExprId, ExprId),
    /// No more cases.
    NoCase,
    /// A key and its expression before other cases.
    CaseAnd(ExprId, ExprId, ExprId),
    /// No more arms.
    NoArm,
    /// The arm of a variant before others.
    VariantArm {
        /// The enum.
        ty: TypeId,
        /// The variant.
        variant: VariantId,
        /// What it says.
        body: ExprId,
        /// The other arms.
        rest: ExprId,
    },
    /// The arm of a struct.
    StructArm {
        /// The struct.
        ty: TypeId,
        /// What it says.
        body: ExprId,
    },
    /// What no arm before it took.
    ElseArm {
        /// What it says.
        body: ExprId,
    },
}

impl Expr {
    // Whether all that it is made of has smaller numbers.
    pub(crate) fn is_below(self, limit: u32) -> bool
        ensures { result ≡ is_below limit self }
    {
        match self {
            Expr::Argument(_)
            | Expr::Result
            | Expr::Variable(_)
            | Expr::Written(_)
            | Expr::NoExpr
            | Expr::NoCase
            | Expr::NoArm => true,
            Expr::Operation(_, of)
            | Expr::Unknown(_, of)
            | Expr::VariantSaid(_, _, of)
            | Expr::StructSaid(_, of) => of.0 < limit,
            Expr::LetIn(first, second)
            | Expr::SwitchOn(first, second)
            | Expr::MatchOn(first, second)
            | Expr::ExprAnd(first, second) => first.0 < limit && second.0 < limit,
            Expr::CaseAnd(key, body, rest) => { key.0 < limit && body.0 < limit && rest.0 < limit }
            Expr::VariantArm { body, rest, .. } => body.0 < limit && rest.0 < limit,
            Expr::StructArm { body, .. } | Expr::ElseArm { body } => body.0 < limit,
        }
    }
}

// The expression of a number, made of earlier ones.
#[tactic(auto, using(crate::proofs::ExpressionSteps::said_at))]
pub(crate) fn expr_at(exprs: &[Expr], expr: ExprId) -> Result<Expr, Fault>
    ensures said { IfOk result (λ x. (w : _) → AreSaid w exprs.now → IsSaid w expr.0 x) }
    ensures below { IfOk result (λ x. is_below expr.0 x ≡ true) }
{
    match exprs.get(expr.0 as usize) {
        None => Err(Fault::Foreign),
        Some(found) => {
            if found.is_below(expr.0) {
                Ok(*found)
            } else {
                Err(Fault::Foreign)
            }
        }
    }
}

/// Adds an expression at the end of a list: its number.
///
/// # Errors
///
/// `Full` where no number is left, `Memory` where memory is refused.
pub fn add_expr(exprs: &mut Vec<Expr>, expr: Expr) -> Result<ExprId, Fault>
    ensures grown { OnOk result (exprs.new.items ≡ exprs.old.items ++ expr ∷ []) }
    ensures number { IfOk result (λ n. n.0 ≡ length exprs.old.items) }
{
    let Ok(number) = u32::try_from(exprs.len()) else {
        return Err(Fault::Full);
    };
    exprs.push(expr)?;
    Ok(ExprId(number))
}

/// The numbers of any expressions stand for something.
pub fn expressions_stand(exprs: &[Expr])
    ensures { AreBelow exprs.now → AreSaid (saying_of exprs.now) exprs.now }
{
    let _exprs = exprs;
}
