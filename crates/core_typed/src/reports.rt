//! How types that aren't those that are wanted are noted, and the names of types, for errors.

ghost use Rattle.std.specs.Prelude.{◌≡◌, [], ◌∷◌, ◌++◌, OnOk};
ghost use Rattle.model.specs.claims.Refusals.{ill_typed};
ghost use Rattle.core_syntax.specs.ErrorViews.{error_views};
ghost use Rattle.core_syntax.specs.NotedErrors.{NotesMore};
ghost use Rattle.core_syntax.specs.Positions.{NotesAt};
ghost use Rattle.core_syntax.specs.SyntaxViews.{position};
ghost use Rattle.core_typed.specs.Elaborating.{NotesEachAt};

use core_syntax::syntax::{Error, Ident, Pos};
use core_types::{Type, TypeEnv, TypeId, report};
use core_why::{Typed, Why};
use std::alloc::AllocError;

// Notes that what has this name has another type than is wanted: one error more, which names no limit.
pub fn report_mismatch(
    tyenv: &TypeEnv,
    errors: &mut Vec<Error>,
    pos: Pos,
    what: Typed,
    name: &Ident,
    has: TypeId,
    want: Option<TypeId>,
) -> Result<(), AllocError>
    ensures noted { OnOk result (NotesMore errors.old.items errors.new.items) }
    ensures places { OnOk result (NotesAt (position pos ∷ []) errors.old.items errors.new.items) }
    ensures one { OnOk result (error_views errors.new.items ≡ error_views errors.old.items ++ ill_typed (position pos) ∷ []) }
    ensures exact { OnOk result (NotesEachAt (position pos ∷ []) errors.old.items errors.new.items) }
{
    let alloc = *errors.allocator();
    let name = name.0.clone()?;
    let want = String::from_str(alloc, expected_text(tyenv, want))?;
    let has = String::from_str(alloc, type_text(tyenv, has))?;
    report(
        errors,
        pos,
        Why::Mismatch {
            what,
            name,
            want,
            has,
        },
    )
}

// The name of a type, for errors. Nothing where the id is no type's.
pub fn type_text(tyenv: &TypeEnv, ty: TypeId) -> &str {
    match tyenv.types.get(ty.index()) {
        Some(Type::Builtin(builtin)) => builtin.name(),
        Some(Type::Primitive(_, name, _) | Type::Enum { name, .. } | Type::Struct { name, .. }) => {
            tyenv.text_of(*name)
        }
        None => "",
    }
}

// The name of the type that is expected, for errors. Nothing where none is.
pub fn expected_text(tyenv: &TypeEnv, ty: Option<TypeId>) -> &str {
    match ty {
        Some(ty) => type_text(tyenv, ty),
        None => "",
    }
}
