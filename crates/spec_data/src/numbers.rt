//! Values of enums whose variants stand for numbers.

use crate::arms::Arm;
use crate::kinds::{Kind, kind_written};
use crate::patterns::Taken;
use crate::translation::{Numbers, Translation, Typed};
use cranelift_isle::sema::{TypeId, VariantId};
use spec_cases::expressions::{Expr, ExprId};
use spec_cases::faults::Fault;
use spec_cases::literals::Literal;
use text_reader::syntax::{SpecExpr, VariantValue};

// The number that a variant stands for, if one is said.
fn number_said(said: &VariantValue) -> Option<Literal> {
    match &said.value {
        Some(SpecExpr::ConstInt { val, .. }) => Some(Literal::Integer(*val)),
        Some(SpecExpr::ConstBitVec { val, width, .. }) => match u32::try_from(*width) {
            Ok(width) => Some(Literal::Word(width, *val)),
            Err(_) => None,
        },
        _ => None,
    }
}

impl<'c, 's> Translation<'c, 's> {
    // What is said of the variants of an enum, where each of them stands for a number; else nothing.
    fn numbers_of(&self, ty: TypeId) -> &'s [VariantValue] {
        let said = self.specs.variant_values(ty);
        match self.variants_of(Some(ty)) {
            Some(variants) if variants.len() == said.len() => said,
            _ => &[],
        }
    }

    /// The kind of the numbers that values of a kind stand for. None where they stand for none.
    pub(crate) fn number_kind(&self, kind: Kind) -> Option<Kind> {
        let first = self.numbers_of(kind.own()?).first()?;
        Some(kind_written(number_said(first)?))
    }

    // The number that a variant of an enum stands for.
    fn number_of(&self, ty: TypeId, variant: VariantId) -> Option<Literal> {
        for said in self.numbers_of(ty) {
            match self.variant_called(Some(ty), &said.name) {
                Some(known) if known.id == variant => return number_said(said),
                _ => {}
            }
        }
        None
    }

    // The number that an expression stands for, where it is a variant of an enum that is written.
    fn number_written(&self, expr: ExprId) -> Option<Literal> {
        match self.exprs.get(expr.0 as usize) {
            Some(Expr::VariantSaid(ty, variant, _)) => self.number_of(*ty, *variant),
            _ => None,
        }
    }

    /// A value as a number, where it is of an enum whose variants stand for numbers. Others stay as they are.
    pub(crate) fn as_number(&mut self, value: Typed) -> Result<Typed, Fault> {
        let Some(ty) = value.kind.own() else {
            return Ok(value);
        };
        let Some(kind) = self.number_kind(value.kind) else {
            return Ok(value);
        };
        if let Some(literal) = self.number_written(value.expr) {
            return self.written(literal);
        }
        let arms = self.number_arms(ty)?;
        Ok(Typed {
            expr: self.add(Expr::MatchOn(value.expr, arms))?,
            kind,
            literal: None,
        })
    }

    /// A value among others of a kind: as a number where the others are no values of its enum.
    pub(crate) fn of_common_kind(&mut self, value: Typed, kind: Kind) -> Result<ExprId, Fault> {
        if value.kind == kind {
            Ok(value.expr)
        } else {
            Ok(self.as_number(value)?.expr)
        }
    }

    // The arms that give each variant's number. They are made once.
    fn number_arms(&mut self, ty: TypeId) -> Result<ExprId, Fault> {
        if let Some(known) = self.known_numbers(ty) {
            return Ok(known);
        }
        let arms = self.number_arms_made(ty)?;
        self.numbers.push(Numbers { ty, arms })?;
        Ok(arms)
    }

    fn known_numbers(&self, ty: TypeId) -> Option<ExprId> {
        for known in &self.numbers {
            if known.ty == ty {
                return Some(known.arms);
            }
        }
        None
    }

    fn number_arms_made(&mut self, ty: TypeId) -> Result<ExprId, Fault> {
        let mut arms = Vec::new(self.alloc);
        for said in self.numbers_of(ty) {
            if let Some(arm) = self.number_arm(ty, said)? {
                arms.push(arm)?;
            }
        }
        self.arms(&arms)
    }

    // The arm of a variant, which gives its number. None where there is no such variant, or it has no number.
    fn number_arm(&mut self, ty: TypeId, said: &VariantValue) -> Result<Option<Arm>, Fault> {
        let Some(variant) = self.variant_called(Some(ty), &said.name) else {
            return Ok(None);
        };
        let Some(number) = number_said(said) else {
            return Ok(None);
        };
        let taken = Taken::Variant(ty, variant.id);
        let body = self.literal(number)?;
        Ok(Some(Arm { taken, body }))
    }
}
