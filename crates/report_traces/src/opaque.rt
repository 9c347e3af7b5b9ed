//! Opaque values: those of an extern enum that are of none of the variants that it declares. Each is written as its type's name, `#`
//! and a number, as `RegMem#3`.

ghost use Rattle.std.specs.Prelude.{◌≡◌, ◌++◌, OnOk, codes, slice_get, string_bytes};
ghost use Rattle.std.specs.Fmt.{signed_decimal};
ghost use Rattle.cranelift_isle.specs.TypeViews.{type_views};
ghost use Rattle.report_traces.specs.OutcomeTexts.{has_opaque_values, names_in};

use crate::outcomes::name_or_mark;
use crate::values::{Unanswered, no_value, wrong};
use cranelift_isle::lower::Lowered;
use cranelift_isle::sema::{Type, TypeEnv, TypeId};
use cranelift_isle::syntax::Ident;
use report_queries::names::type_name;
use run_terms::values::Value;
use std::alloc::{AllocError, Global};

/// Whether a type has opaque values: whether it is an extern enum.
pub fn has_opaque_values(tyenv: &TypeEnv, ty: TypeId) -> bool
    ensures { result ≡ has_opaque_values (slice_get (type_views tyenv.now.types.items) ty.0) }
{
    match tyenv.types.get(ty.index()) {
        Some(Type::Enum { is_extern, .. }) => *is_extern,
        Some(Type::Builtin(_) | Type::Primitive(..) | Type::Struct { .. }) | None => false,
    }
}

/// Adds the opaque value of a type that has this number.
///
/// # Errors
///
/// Where memory is refused.
pub fn push_opaque(
    out: &mut String,
    lowered: &Lowered,
    ty: TypeId,
    number: i128,
) -> Result<(), AllocError>
    ensures { OnOk result (string_bytes out.new ≡ string_bytes out.old ++ ((names_in lowered.now).ty ty.0 ++ (codes "#" ++ signed_decimal number))) }
{
    let name = name_or_mark(type_name(&lowered.tyenv, ty));
    write!(out, "{name}#{number}")
}

/// The opaque value of a type that a word writes. A type's name may have `#` too, so the last one counts.
///
/// # Errors
///
/// There is no `#` in the word, no type has the name before it, that type has no opaque values, there is no number in digits behind
/// `#` or it is past 2^127 - 1, or the type is another one.
pub fn opaque_value(
    alloc: Global,
    lowered: &Lowered,
    word: &Ident,
    ty: TypeId,
) -> Result<Value, Unanswered> {
    let Some((name, digits)) = word.0.rsplit_once('#') else {
        return Err(no_value(alloc, lowered, &word.0, ty));
    };
    let written = type_with_opaque_values(alloc, lowered, word, name)?;
    let number = number_of(alloc, word, name, digits)?;
    if written != ty {
        return Err(no_value(alloc, lowered, &word.0, ty));
    }
    Ok(Value::Atom(ty, number))
}

// The type of this name, which must have opaque values.
fn type_with_opaque_values(
    alloc: Global,
    lowered: &Lowered,
    word: &Ident,
    name: &str,
) -> Result<TypeId, Unanswered> {
    let ident = Ident(String::from_str(alloc, name)?, word.1);
    let Some(ty) = lowered.tyenv.get_type_by_name(&ident) else {
        return Err(wrong(format!(in alloc; "no type is called `{name}`")));
    };
    if !has_opaque_values(&lowered.tyenv, ty) {
        return Err(wrong(format!(in alloc;
            "type `{name}` has no opaque values such as `{}`, since it isn't an extern enum",
            word.0
        )));
    }
    Ok(ty)
}

// The number of an opaque value, in digits.
fn number_of(alloc: Global, word: &Ident, name: &str, digits: &str) -> Result<i128, Unanswered> {
    if digits.is_empty() || !digits.chars().all(|c| c.is_ascii_digit()) {
        return Err(wrong(format!(in alloc;
            "in `{}` there is no number in digits behind `#`, as in `{name}#3`",
            word.0
        )));
    }
    match digits.parse::<i128>() {
        Ok(number) => Ok(number),
        Err(_) => {
            let most = i128::MAX;
            Err(wrong(format!(in alloc; "the number of `{}` is greater than {most}", word.0)))
        }
    }
}

/// That a bare integer is no value of a type that has opaque values, and how these are written.
pub fn bare_integer(alloc: Global, lowered: &Lowered, val: i128, ty: TypeId) -> Unanswered {
    let name = type_name(&lowered.tyenv, ty).unwrap_or("?");
    let number = if val < 0 { 0 } else { val };
    wrong(format!(in alloc;
        "`{val}` isn't a value of type `{name}`, whose opaque values are written as `{name}#{number}`"
    ))
}
