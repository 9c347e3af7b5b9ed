//! Integer literals that are no numbers of their types.

use crate::coverage::int_type;
use crate::kinds::{Warning, add_place, begun};
use cranelift_isle::sema::{IntType, TypeEnv};
use cranelift_isle::syntax::{Def, Pos};
use report_names::mentions::{LiteralValue, Mentions, Need, type_needed};
use report_names::rule_notes::add_help;
use report_print::report::{Place, Report};
use std::alloc::{AllocError, Global};

/// Adds a warning for each integer literal of a definition that is outside the range of its built-in type: it stands for
/// another number.
pub(crate) fn add_outside(
    alloc: Global,
    reports: &mut Vec<Report>,
    defs: &[Def],
    tyenv: &TypeEnv,
    names: &Mentions<'_>,
) -> Result<(), AllocError> {
    for literal in &names.literals {
        match literal.value {
            LiteralValue::Integer(val) if !is_in_all(val) => {
                let ty = int_needed(defs, tyenv, literal.need);
                add_literal(alloc, reports, ty, val, literal.pos)?;
            }
            _ => {}
        }
    }
    Ok(())
}

// Whether a number is one of each integer type, so that no type is looked for.
fn is_in_all(val: i128) -> bool {
    0 <= val && val <= 127
}

// The built-in integer type that is needed.
fn int_needed(defs: &[Def], tyenv: &TypeEnv, need: Need<'_>) -> Option<IntType> {
    let name = type_needed(defs, need)?;
    int_type(tyenv, tyenv.get_type_by_name(name)?)
}

// Adds a warning where a number is outside a type's range.
fn add_literal(
    alloc: Global,
    reports: &mut Vec<Report>,
    ty: Option<IntType>,
    val: i128,
    pos: Pos,
) -> Result<(), AllocError> {
    let Some(ty) = ty else {
        return Ok(());
    };
    let number = ty.reduce(val);
    if number == val {
        return Ok(());
    }
    let name = ty.name();
    let message = format!(in alloc; "{val} is out of range for {name}")?;
    let mut report = begun(alloc, Warning::Literal, message);
    let means = format!(in alloc; "means {number}")?;
    add_place(alloc, &mut report, pos, &means)?;
    let help = format!(in alloc; "write {number} if you mean that")?;
    add_help(alloc, &mut report, &help)?;
    let title = format!(in alloc; "Write `{number}`")?;
    report.add_fix(title, Place::Form(pos), format!(in alloc; "{number}")?)?;
    reports.push(report)?;
    Ok(())
}
