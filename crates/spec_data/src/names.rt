//! What names and constants in specs stand for.

use crate::checks::Checker;
use crate::faults::{note_text, report};
use crate::heads::pos_of;
use core_syntax::syntax::{Ident, Pos};
use spec_tables::faults::SpecError;
use spec_tables::models::ValueModel;
use spec_tables::operators::operator_of;
use spec_tables::specs::ConstantModel;
use std::alloc::{AllocError, Global};
use text_reader::syntax::SpecExpr;

// Whether what is written may be of a model. Expressions that aren't written values may be of any.
fn is_of_model(value: &SpecExpr, model: ValueModel) -> bool {
    match (value, model) {
        (SpecExpr::ConstBitVec { width, .. }, ValueModel::Word(known)) => *width == known,
        (SpecExpr::ConstBitVec { .. }, ValueModel::Integer | ValueModel::Truth)
        | (SpecExpr::ConstInt { .. }, ValueModel::Word(_) | ValueModel::AnyWord | ValueModel::Truth)
        | (
            SpecExpr::ConstBool { .. },
            ValueModel::Word(_) | ValueModel::AnyWord | ValueModel::Integer,
        ) => false,
        _ => true,
    }
}

/// Notes that a constant's type has values of another sort.
pub(crate) fn report_other_sort(
    alloc: Global,
    pos: Pos,
    errors: &mut Vec<SpecError>,
) -> Result<(), AllocError> {
    let why = "the constant's type has a model of another sort";
    report(alloc, "spec-model", pos, why, errors)
}

fn is_bound(scope: &[&str], name: &str) -> bool {
    for known in scope {
        if *known == name {
            return true;
        }
    }
    false
}

impl<'c, 's> Checker<'c, 's> {
    /// Checks a name: one that is bound, or that of a constant with a model, a variant or another term.
    pub(crate) fn check_name(
        &self,
        scope: &[&str],
        name: &Ident,
        errors: &mut Vec<SpecError>,
    ) -> Result<(), AllocError> {
        if is_bound(scope, name.0.as_str()) || self.is_known(name) {
            return Ok(());
        }
        let alloc = self.alloc;
        let why = format!(in alloc; "nothing here is called `{}`", name.0)?;
        note_text(errors, "spec", name.1, why)
    }

    /// Checks the head of a list: an operator, a field, a macro or a term.
    pub(crate) fn check_operator(
        &self,
        op: &Ident,
        errors: &mut Vec<SpecError>,
    ) -> Result<(), AllocError> {
        if self.is_head(op) {
            return Ok(());
        }
        let alloc = self.alloc;
        let why = format!(in alloc; "no operator, macro or term is called `{}`", op.0)?;
        note_text(errors, "spec", op.1, why)
    }

    // Whether a name is an operator's, a field's, a macro's or a term's.
    fn is_head(&self, op: &Ident) -> bool {
        let word = op.0.as_str();
        if operator_of(word).is_some() || word.starts_with(':') {
            return true;
        }
        self.specs.macro_of(word).is_some() || self.is_known(op)
    }

    // Whether a name is that of a constant with a model, or of a term.
    fn is_known(&self, name: &Ident) -> bool {
        match self.lowered.tyenv.intern(name) {
            Some(sym) => {
                self.specs.constant(sym).is_some()
                    || self.lowered.termenv.term_map.contains_key(&sym)
            }
            None => false,
        }
    }

    /// Notes that a constant is written in another sort than its type's.
    pub(crate) fn check_constant(
        &self,
        constant: &ConstantModel<'_>,
        errors: &mut Vec<SpecError>,
    ) -> Result<(), AllocError> {
        match self.lowered.tyenv.const_types.get(&constant.name) {
            Some(ty) if !is_of_model(constant.value, self.specs.model(*ty)) => {
                report_other_sort(self.alloc, pos_of(constant.value), errors)
            }
            _ => Ok(()),
        }
    }
}
