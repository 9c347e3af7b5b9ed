//! What is checked of literals and of counts, in patterns and in expressions alike. What is wrong is noted.

ghost use Rattle.std.specs.Bool.{◌==◌};
ghost use Rattle.std.specs.Prelude.{◌≡◌, true, [], ◌∷◌, OnOk, Some, option_map, slice_get};
ghost use Rattle.core_syntax.specs.Positions.{NotesAt};
ghost use Rattle.core_syntax.specs.SyntaxViews.{position};
ghost use Rattle.model.specs.lists.Ranges.{reduced};
ghost use Rattle.model.specs.rules.Values.{is_atom_type};
ghost use Rattle.core_types.specs.Envs.{constant_at};
ghost use Rattle.core_types.specs.TypeViews.{type_view, type_views};
ghost use Rattle.core_typed.specs.Elaborating.{NotesEachAt, place_unless};

use crate::reports::{report_mismatch, type_text};
use core_syntax::syntax::{Error, Ident, Pos};
use core_types::{BuiltinType, Sym, Type, TypeEnv, TypeId, report};
use core_why::{Typed, Why};
use std::alloc::AllocError;

/// Whether integers stand for values of the type: of a built-in integer type, or of a primitive one.
#[tactic(auto, using(core_syntax::proofs::Positioned::notes_nothing))]
pub fn check_integer(
    tyenv: &TypeEnv,
    errors: &mut Vec<Error>,
    pos: Pos,
    val: i128,
    ty: TypeId,
) -> Result<(), AllocError>
    ensures places { OnOk result (NotesAt (position pos ∷ []) errors.old.items errors.new.items) }
    ensures exact { OnOk result (NotesEachAt (place_unless (is_atom_type (slice_get (type_views tyenv.now.types.items) ty.0)) (position pos)) errors.old.items errors.new.items) }
{
    if has_integers(tyenv, ty) {
        return Ok(());
    }
    let ty = String::from_str(*errors.allocator(), type_text(tyenv, ty))?;
    report(errors, pos, Why::NoInteger { ty, val })
}

// Whether integers stand for values of the type.
fn has_integers(tyenv: &TypeEnv, ty: TypeId) -> bool
    ensures { result ≡ is_atom_type (slice_get (type_views tyenv.now.types.items) ty.0) }
{
    match tyenv.types.get(ty.index()) {
        Some(known) => known.is_int() || known.is_prim(),
        None => false,
    }
}

/// The number that an integer literal of a type stands for: at a built-in integer type the one of its range, else the
/// one that is written.
pub fn literal_number(tyenv: &TypeEnv, ty: TypeId, val: i128) -> i128
    ensures { result ≡ reduced (slice_get (type_views tyenv.now.types.items) ty.0) val }
{
    match tyenv.types.get(ty.index()) {
        Some(known) => number_at(known, val),
        None => val,
    }
}

// The number that an integer literal of a type that is known stands for.
fn number_at(ty: &Type, val: i128) -> i128
    ensures { result ≡ reduced (Some (type_view ty.now)) val }
{
    match ty {
        Type::Builtin(BuiltinType::Int(int)) => int.reduce(val),
        Type::Builtin(BuiltinType::Bool)
        | Type::Primitive(..)
        | Type::Enum { .. }
        | Type::Struct { .. } => val,
    }
}

/// Whether the type is that of truth values.
#[tactic(auto, using(core_syntax::proofs::Positioned::notes_nothing))]
pub fn check_bool(
    tyenv: &TypeEnv,
    errors: &mut Vec<Error>,
    pos: Pos,
    val: bool,
    ty: TypeId,
) -> Result<(), AllocError>
    ensures places { OnOk result (NotesAt (position pos ∷ []) errors.old.items errors.new.items) }
    ensures exact { OnOk result (NotesEachAt (place_unless (ty.0 == 0) (position pos)) errors.old.items errors.new.items) }
{
    if ty == TypeId::BOOL {
        return Ok(());
    }
    let ty = String::from_str(*errors.allocator(), type_text(tyenv, ty))?;
    report(errors, pos, Why::NoTruth { ty, val })
}

/// Whether the type of what has this name is the one that is wanted; else this is noted.
#[tactic(auto, using(core_syntax::proofs::Positioned::notes_nothing))]
pub fn check_same(
    tyenv: &TypeEnv,
    errors: &mut Vec<Error>,
    pos: Pos,
    what: Typed,
    name: &Ident,
    has: TypeId,
    want: TypeId,
) -> Result<(), AllocError>
    ensures places { OnOk result (NotesAt (position pos ∷ []) errors.old.items errors.new.items) }
    ensures exact { OnOk result (NotesEachAt (place_unless (has.0 == want.0) (position pos)) errors.old.items errors.new.items) }
{
    if has == want {
        return Ok(());
    }
    report_mismatch(tyenv, errors, pos, what, name, has, Some(want))
}

/// Whether there are as many arguments as the term has.
#[tactic(auto, using(core_syntax::proofs::Positioned::notes_nothing))]
pub fn check_count(
    errors: &mut Vec<Error>,
    pos: Pos,
    term: &Ident,
    got: usize,
    expect: usize,
) -> Result<(), AllocError>
    ensures places { OnOk result (NotesAt (position pos ∷ []) errors.old.items errors.new.items) }
    ensures exact { OnOk result (NotesEachAt (place_unless (got == expect) (position pos)) errors.old.items errors.new.items) }
{
    if got == expect {
        return Ok(());
    }
    let term = term.0.clone()?;
    report(errors, pos, Why::ArgumentCount { term, got, expect })
}

/// The type of the constant of a name.
pub fn constant_type(tyenv: &TypeEnv, name: Sym) -> Option<TypeId>
    ensures { option_map (λ t. t.0) result ≡ constant_at tyenv.now name.0 }
{
    tyenv.const_types.get(&name).copied()
}
