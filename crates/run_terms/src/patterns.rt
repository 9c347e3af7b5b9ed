//! Typed patterns, matched with values.

ghost use Rattle.std.specs.Prelude.{◌≡◌, IfOk, Some, option_map};
ghost use Rattle.model.specs.rules.Program.{a_struct, a_variant, kind};
ghost use Rattle.model.specs.rules.Matching.{all_hold, each_holds, holds, parts_seen};
ghost use Rattle.core_typed.specs.PatternViews.{pattern_parts, pattern_view, pattern_views};
ghost use Rattle.run_terms.specs.ValueViews.{value_view, value_views};
ghost use Rattle.model.specs.rules.Meaning.{total};
ghost use Rattle.run_terms.specs.SourceViews.{of_terms, source_program, meaning_in, if_held, vars_view};

use crate::answers::answered_outputs;
use crate::externs::Externs;
use crate::source::RuleContext;
use crate::values::{Value, same_type, same_value, same_variant, value_clones};
use crate::vars::var_value;
use core_terms::TermKind;
use core_typed::Pattern;
use core_types::{TermId, TypeId, VarId, VariantId};
use std::alloc::AllocError;

fn variant_parts(
    ty: TypeId,
    variant: VariantId,
    value: &Value,
) -> Result<Option<Vec<Value>>, AllocError>
    ensures { IfOk result (λ o. (f : _) (t : _) → option_map (λ v. value_views v.items) o ≡ parts_seen (a_variant ty.0 variant.0) f t (value_view value.now)) }
{
    match value {
        Value::Variant(other, place, fields) => {
            if same_variant(*other, *place, ty, variant) {
                Ok(Some(value_clones(*fields.allocator(), fields)?))
            } else {
                Ok(None)
            }
        }
        _ => Ok(None),
    }
}

fn struct_parts(ty: TypeId, value: &Value) -> Result<Option<Vec<Value>>, AllocError>
    ensures { IfOk result (λ o. (f : _) (t : _) → option_map (λ v. value_views v.items) o ≡ parts_seen (a_struct ty.0) f t (value_view value.now)) }
{
    match value {
        Value::Struct(other, fields) => {
            if same_type(*other, ty) {
                Ok(Some(value_clones(*fields.allocator(), fields)?))
            } else {
                Ok(None)
            }
        }
        _ => Ok(None),
    }
}

// What the parts of a term's pattern are matched with.
fn parts_seen<E: Externs>(
    source: &RuleContext<'_, E>,
    term: TermId,
    value: &Value,
) -> Result<Option<Vec<Value>>, AllocError>
    ensures { IfOk result (λ o. option_map (λ v. value_views v.items) o
        ≡ parts_seen (kind (source_program source.now) term.0) (meaning_in E.functions source.now) term.0 (value_view value.now)) }
{
    match source.terms.get(term.index()) {
        Some(entry) => match &entry.kind {
            TermKind::EnumVariant { variant } => {
                Ok(variant_parts(entry.ret_ty, *variant, value)?)
            }
            TermKind::Struct => Ok(struct_parts(entry.ret_ty, value)?),
            TermKind::Decl { .. } => {
                let answer = source.externs.extractor(source.alloc, term, value)?;
                Ok(answered_outputs(source.alloc, &answer)?)
            }
        },
        None => Ok(None),
    }
}

/// Whether a pattern holds of a value: it binds variables, or it doesn't hold, and then what is bound is of no use.
#[cycle(holds)]
pub fn holds<E: Externs>(
    source: &RuleContext<'_, E>,
    pattern: &Pattern,
    value: &Value,
    vars: &mut Vec<(VarId, Option<Value>)>,
) -> Result<bool, AllocError>
    ensures { IfOk result (λ b. if_held b (vars_view vars.new.items)
        ≡ holds (of_terms source.now.terms.now) (total (E.functions source.now.externs.now)) (pattern_view pattern.now) (value_view value.now)
        (vars_view vars.old.items)) }
{
    match pattern {
        Pattern::BindPattern(_, var, inner) => {
            vars.push((*var, Some(value.clone()?)))?;
            Ok(holds(source, inner, value, vars)?)
        }
        Pattern::Var(_, var) => match var_value(vars, *var) {
            Some(wanted) => Ok(same_value(wanted, value)),
            None => Ok(false),
        },
        Pattern::ConstBool(ty, val) => {
            let wanted = source.externs.bool_literal(source.alloc, *val, *ty)?;
            Ok(same_value(&wanted, value))
        }
        Pattern::ConstInt(ty, val) => {
            let wanted = source.externs.int_literal(source.alloc, *val, *ty)?;
            Ok(same_value(&wanted, value))
        }
        Pattern::ConstPrim(_, val) => {
            let wanted = source.externs.constant(source.alloc, *val)?;
            Ok(same_value(&wanted, value))
        }
        Pattern::Term(_, term, args) => match parts_seen(source, *term, value)? {
            Some(parts) => Ok(each_holds(source, args, &parts, vars)?),
            None => Ok(false),
        },
        Pattern::Wildcard(_) => Ok(true),
        Pattern::And(_, parts) => Ok(all_hold(source, parts, value, vars)?),
    }
}

/// Whether each pattern holds of its own value, where there are as many.
#[cycle(holds)]
pub fn each_holds<E: Externs>(
    source: &RuleContext<'_, E>,
    patterns: &[Pattern],
    values: &[Value],
    vars: &mut Vec<(VarId, Option<Value>)>,
) -> Result<bool, AllocError>
    ensures { IfOk result (λ b. if_held b (vars_view vars.new.items)
        ≡ each_holds (of_terms source.now.terms.now) (total (E.functions source.now.externs.now)) (pattern_parts (pattern_views patterns.now))
        (value_views values.now) (vars_view vars.old.items)) }
{
    let mut place = 0;
    for pattern in patterns {
        match values.get(place) {
            Some(value) => {
                let held = holds(source, pattern, value, vars)?;
                if !held {
                    return Ok(false);
                }
            }
            None => return Ok(false),
        }
        place += 1;
    }
    Ok(values.get(place).is_none())
}

#[cycle(holds)]
fn all_hold<E: Externs>(
    source: &RuleContext<'_, E>,
    patterns: &[Pattern],
    value: &Value,
    vars: &mut Vec<(VarId, Option<Value>)>,
) -> Result<bool, AllocError>
    ensures { IfOk result (λ b. if_held b (vars_view vars.new.items)
        ≡ all_hold (source_program source.now) (meaning_in E.functions source.now) (pattern_parts (pattern_views patterns.now)) (value_view value.now)
        (vars_view vars.old.items)) }
{
    for pattern in patterns {
        let held = holds(source, pattern, value, vars)?;
        if !held {
            return Ok(false);
        }
    }
    Ok(true)
}
