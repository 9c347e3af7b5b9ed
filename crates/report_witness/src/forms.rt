//! The forms of values, as rules write them.

use core_syntax::syntax::{Def, TypeValue};
use std::alloc::AllocError;

/// A constant, or a term that makes values or takes them apart.
#[derive(Clone, Copy, PartialEq, Eq, PartialOrd, Ord)]
pub enum ValueForm<'a> {
    /// A truth value.
    Bool(bool),
    /// An integer.
    Int(i128),
    /// A named constant.
    Const(&'a str),
    /// A term.
    Term(&'a str),
}

/// Whether two forms are one.
pub fn is_same(left: ValueForm<'_>, right: ValueForm<'_>) -> bool {
    left == right
}

/// Whether a form is a constant.
pub fn is_constant(form: ValueForm<'_>) -> bool {
    match form {
        ValueForm::Bool(_) | ValueForm::Int(_) | ValueForm::Const(_) => true,
        ValueForm::Term(_) => false,
    }
}

/// Whether no value has both of two forms that differ: both are constants, or variants of one enum.
pub fn are_apart(defs: &[Def], left: ValueForm<'_>, right: ValueForm<'_>) -> bool {
    match (left, right) {
        (ValueForm::Term(left), ValueForm::Term(right)) => are_variants(defs, left, right),
        _ => is_constant(left) && is_constant(right),
    }
}

// Whether two names are those of variants of one enum.
fn are_variants(defs: &[Def], left: &str, right: &str) -> bool {
    match (left.rsplit_once('.'), right.rsplit_once('.')) {
        (Some((left_type, left)), Some((right_type, right))) => {
            left_type == right_type
                && has_variant(defs, left_type, left)
                && has_variant(defs, left_type, right)
        }
        _ => false,
    }
}

// Whether a type is an enum that has a variant of this name.
fn has_variant(defs: &[Def], ty: &str, variant: &str) -> bool {
    for def in defs {
        if let Def::TypeDef(def) = def {
            if let TypeValue::Enum(variants, _) = &def.ty {
                if def.name.0.as_str() == ty {
                    return variants
                        .iter()
                        .any(|other| other.name.0.as_str() == variant);
                }
            }
        }
    }
    false
}

/// Adds a form, without what it is made of.
pub fn push_form(out: &mut String, form: ValueForm<'_>) -> Result<(), AllocError> {
    match form {
        ValueForm::Bool(true) => out.push_str("true"),
        ValueForm::Bool(false) => out.push_str("false"),
        ValueForm::Int(val) => write!(out, "{val}"),
        ValueForm::Const(name) => {
            out.push('$')?;
            out.push_str(name)
        }
        ValueForm::Term(name) => out.push_str(name),
    }
}
