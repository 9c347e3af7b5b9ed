//! Lists of expressions, and operators on them.

use crate::kinds::{Kind, kind_written};
use crate::translation::{Translation, Typed, of_kind};
use spec_cases::expressions::{Expr, ExprId};
use spec_cases::faults::Fault;
use spec_cases::literals::Literal;
use spec_cases::operators::Operator;

/// A case of a switch.
#[derive(Clone, Copy)]
pub(crate) struct Case {
    pub(crate) key: ExprId,
    pub(crate) body: ExprId,
}

impl<'c, 's> Translation<'c, 's> {
    /// A value that is written.
    pub(crate) fn written(&mut self, literal: Literal) -> Result<Typed, Fault> {
        Ok(Typed {
            expr: self.literal(literal)?,
            kind: kind_written(literal),
            literal: Some(literal),
        })
    }

    /// The value of which there is one alone.
    pub(crate) fn unit(&mut self) -> Result<Typed, Fault> {
        Ok(of_kind(self.number(0)?, Kind::Unit))
    }

    /// A value that is written, as an expression.
    pub(crate) fn literal(&mut self, literal: Literal) -> Result<ExprId, Fault> {
        self.add(Expr::Written(literal))
    }

    /// A truth that is written.
    pub(crate) fn truth(&mut self, truth: bool) -> Result<ExprId, Fault> {
        self.literal(Literal::Truth(truth))
    }

    /// A number that is written.
    pub(crate) fn number(&mut self, number: u32) -> Result<ExprId, Fault> {
        self.literal(Literal::Integer(number as i128))
    }

    /// A variable: the last that was bound is the first.
    pub(crate) fn variable(&mut self, place: usize) -> Result<ExprId, Fault> {
        self.add(Expr::Variable(place))
    }

    /// Expressions, one after another.
    pub(crate) fn list(&mut self, of: &[ExprId]) -> Result<ExprId, Fault> {
        let mut rest = self.add(Expr::NoExpr)?;
        for expr in of.iter().rev() {
            rest = self.add(Expr::ExprAnd(*expr, rest))?;
        }
        Ok(rest)
    }

    /// An operator on expressions.
    pub(crate) fn operation(&mut self, operator: Operator, of: &[ExprId]) -> Result<ExprId, Fault> {
        let list = self.list(of)?;
        self.add(Expr::Operation(operator, list))
    }

    /// An operator between any number of expressions, or this where there are none.
    pub(crate) fn joined(
        &mut self,
        operator: Operator,
        of: &[ExprId],
        empty: bool,
    ) -> Result<ExprId, Fault> {
        let [first, rest @ ..] = of else {
            return self.truth(empty);
        };
        let mut whole = *first;
        for next in rest {
            whole = self.operation(operator, &[whole, *next])?;
        }
        Ok(whole)
    }

    /// The first case of an equal value.
    pub(crate) fn switch(&mut self, value: ExprId, cases: &[Case]) -> Result<ExprId, Fault> {
        let mut rest = self.add(Expr::NoCase)?;
        for case in cases.iter().rev() {
            rest = self.add(Expr::CaseAnd(case.key, case.body, rest))?;
        }
        self.add(Expr::SwitchOn(value, rest))
    }

    /// One of two expressions by a truth.
    pub(crate) fn choice(
        &mut self,
        condition: ExprId,
        first: ExprId,
        second: ExprId,
    ) -> Result<ExprId, Fault> {
        let is_so = Case {
            key: self.truth(true)?,
            body: first,
        };
        let is_not_so = Case {
            key: self.truth(false)?,
            body: second,
        };
        self.switch(condition, &[is_so, is_not_so])
    }

    /// Expressions that are bound one after another, the last in the body.
    pub(crate) fn bound(&mut self, values: &[ExprId], body: ExprId) -> Result<ExprId, Fault> {
        let mut whole = body;
        for value in values.iter().rev() {
            whole = self.add(Expr::LetIn(*value, whole))?;
        }
        Ok(whole)
    }

    /// The width of a word.
    pub(crate) fn width_of(&mut self, word: ExprId) -> Result<ExprId, Fault> {
        self.operation(Operator::WidthOf, &[word])
    }
}
