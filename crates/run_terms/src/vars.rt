//! The variables of a rule, each with its value, or as one whose value failed.

ghost use Rattle.std.specs.Prelude.{◌≡◌, IfOk, option_map};
ghost use Rattle.model.specs.rules.Matching.{var_value};
ghost use Rattle.run_terms.specs.ValueViews.{value_view};
ghost use Rattle.run_terms.specs.SourceViews.{vars_view};

use crate::values::Value;
use core_types::VarId;
use std::alloc::{AllocError, Global};

/// The value that a variable was bound to last, where it has one.
pub fn var_value(vars: &[(VarId, Option<Value>)], var: VarId) -> Option<&Value>
    ensures { option_map (λ v. value_view v.now) result ≡ var_value (vars_view vars.now) var.0 }
{
    let mut found = None;
    for entry in vars {
        if entry.0 == var {
            found = entry.1.as_ref();
        }
    }
    found
}

/// The same, as a value of its own.
pub fn value_of(vars: &[(VarId, Option<Value>)], var: VarId) -> Result<Option<Value>, AllocError>
    ensures { IfOk result (λ o. option_map value_view o ≡ var_value (vars_view vars.now) var.0) }
{
    match var_value(vars, var) {
        Some(value) => Ok(Some(value.clone()?)),
        None => Ok(None),
    }
}

fn bound_value(bound: &(VarId, Option<Value>)) -> Result<Option<Value>, AllocError>
    ensures { IfOk result (λ o. option_map value_view o ≡ option_map value_view bound.now.1) }
{
    match &bound.1 {
        Some(value) => Ok(Some(value.clone()?)),
        None => Ok(None),
    }
}

/// Variables, each bound as these are.
pub fn copied(
    alloc: Global,
    vars: &[(VarId, Option<Value>)],
) -> Result<Vec<(VarId, Option<Value>)>, AllocError>
    ensures { IfOk result (λ copy. vars_view copy.items ≡ vars_view vars.now) }
{
    let mut copy = Vec::new(alloc);
    for entry in vars {
        let value = bound_value(entry)?;
        copy.push((entry.0, value))?;
    }
    Ok(copy)
}
