//! What is written as a path in the code's expressions and patterns: constants, structs, variants, the functions of `Context`, and
//! those of terms with rules.

ghost use Rattle.std.specs.Prelude.{◌≡◌, ◌++◌, ◌∷◌, [], IfOk, OnOk, map, string_bytes};
ghost use Rattle.std.specs.List.{flat_map};
ghost use Rattle.cranelift_isle.specs.Envs.{names_of};
ghost use Rattle.cranelift_isle.specs.TypeViews.{type_view, type_views, variant_view};
ghost use Rattle.rust_items.specs.ClaimViews.{claim_view, claim_views};
ghost use Rattle.rust_items.specs.NamedPrograms.{path_behind, paths_among, struct_path, type_paths, variant_path};

use crate::claims::Claim;
use crate::names::push_name;
use crate::taken::push_claim;
use cranelift_isle::sema::{Sym, Type, TypeEnv, Variant};
use std::alloc::{AllocError, Global};

/// The paths of a program, by the constants, the functions of `Context` and those of terms as things with names: each with a word for
/// its kind.
///
/// # Errors
///
/// Where memory is refused.
pub(crate) fn path_claims(
    alloc: Global,
    tyenv: &TypeEnv,
    types: &[Type],
    constants: &[Claim],
    functions: &[Claim],
    with_rules: &[Claim],
) -> Result<Vec<Claim>, AllocError>
    ensures { IfOk result (λ v. claim_views v.items ≡ paths_among (names_of tyenv.now) (type_views types.now) (claim_views constants.now) (claim_views functions.now) (claim_views with_rules.now)) }
{
    let mut claims = Vec::new(alloc);
    push_all_behind(&mut claims, "", "constant ", constants)?;
    push_all_of_types(tyenv, &mut claims, types)?;
    push_all_behind(&mut claims, "C::", "function ", functions)?;
    push_all_behind(&mut claims, "", "term ", with_rules)?;
    Ok(claims)
}

// Adds what is written as a path of one kind.
fn push_all_behind(
    claims: &mut Vec<Claim>,
    front: &str,
    word: &str,
    named: &[Claim],
) -> Result<(), AllocError>
    ensures { OnOk result (claim_views claims.new.items ≡ claim_views claims.old.items ++ map (path_behind front.now word.now) (claim_views named.now)) }
{
    for claim in named {
        push_behind(claims, front, word, claim)?;
    }
    Ok(())
}

fn push_behind(
    claims: &mut Vec<Claim>,
    front: &str,
    word: &str,
    claim: &Claim,
) -> Result<(), AllocError>
    ensures { OnOk result (claim_views claims.new.items ≡ claim_views claims.old.items ++ path_behind front.now word.now (claim_view claim.now) ∷ []) }
{
    let alloc = *claims.allocator();
    let Claim { written, owner } = claim;
    let path = format!(in alloc; "{front}{written}")?;
    let owner = format!(in alloc; "{word}{owner}")?;
    push_claim(claims, path, &owner)
}

fn push_all_of_types(
    tyenv: &TypeEnv,
    claims: &mut Vec<Claim>,
    types: &[Type],
) -> Result<(), AllocError>
    ensures { OnOk result (claim_views claims.new.items ≡ claim_views claims.old.items ++ flat_map (type_paths (names_of tyenv.now)) (type_views types.now)) }
{
    for ty in types {
        push_of_type(tyenv, claims, ty)?;
    }
    Ok(())
}

// Adds the paths of a type's values.
fn push_of_type(tyenv: &TypeEnv, claims: &mut Vec<Claim>, ty: &Type) -> Result<(), AllocError>
    ensures { OnOk result (claim_views claims.new.items ≡ claim_views claims.old.items ++ type_paths (names_of tyenv.now) (type_view ty.now)) }
{
    match ty {
        Type::Builtin(_) => Ok(()),
        Type::Primitive(_, _, _) => Ok(()),
        Type::Enum { name, variants, .. } => push_variants(tyenv, claims, *name, variants),
        Type::Struct { name, .. } => push_struct(tyenv, claims, *name),
    }
}

fn push_struct(tyenv: &TypeEnv, claims: &mut Vec<Claim>, name: Sym) -> Result<(), AllocError>
    ensures { OnOk result (claim_views claims.new.items ≡ claim_views claims.old.items ++ struct_path (names_of tyenv.now) name.0 ∷ []) }
{
    let alloc = *claims.allocator();
    let name = tyenv.text_of(name);
    let mut path = String::new(alloc);
    push_name(&mut path, name)?;
    let owner = format!(in alloc; "struct {name}")?;
    push_claim(claims, path, &owner)
}

fn push_variants(
    tyenv: &TypeEnv,
    claims: &mut Vec<Claim>,
    ty: Sym,
    variants: &[Variant],
) -> Result<(), AllocError>
    ensures { OnOk result (claim_views claims.new.items ≡ claim_views claims.old.items ++ map (variant_path (names_of tyenv.now) ty.0) (map variant_view variants.now)) }
{
    for variant in variants {
        push_variant(tyenv, claims, ty, variant)?;
    }
    Ok(())
}

fn push_variant(
    tyenv: &TypeEnv,
    claims: &mut Vec<Claim>,
    ty: Sym,
    variant: &Variant,
) -> Result<(), AllocError>
    ensures { OnOk result (claim_views claims.new.items ≡ claim_views claims.old.items ++ variant_path (names_of tyenv.now) ty.0 (variant_view variant.now) ∷ []) }
{
    let alloc = *claims.allocator();
    let ty = tyenv.text_of(ty);
    let variant = tyenv.text_of(variant.name);
    let mut path = String::new(alloc);
    push_name(&mut path, ty)?;
    path.push_str("::")?;
    push_name(&mut path, variant)?;
    let owner = format!(in alloc; "variant {ty}.{variant}")?;
    push_claim(claims, path, &owner)
}
