//! Names that can't be told apart in Rust.

ghost use Rattle.std.specs.Prelude.{◌≡◌, ◌++◌, ◌∷◌, [], All, IfErr, IfOk, OnOk, map, option_map, string_bytes};
ghost use Rattle.std.specs.List.{flat_map};
ghost use Rattle.cranelift_isle.specs.TermViews.{constructor_view, extractor_view, kind_view as term_kind_view, term_view, term_views};
ghost use Rattle.cranelift_isle.specs.Envs.{names_of};
ghost use Rattle.cranelift_isle.specs.TypeViews.{field_view, fields_view, type_view, type_views, variant_view};
ghost use Rattle.rust_items.specs.NamedPrograms.{claim, constant_claim, constructor_claim, constructor_named, constructors_of, extractor_claim, field_claim, field_claims, field_kind, function_claim, functions_of, functions_of_kind, identified, kind_as, kinds, kinds_inside, primitive, purely, term_claim, type_claim, variant_claim, variant_fields, variant_kind};
ghost use Rattle.rust_items.specs.ProgramViews.{constant_or_none, constants_of, named_program};
ghost use Rattle.rust_items.specs.ClaimViews.{claim_views, is_own, kind_views};
ghost use Rattle.rust_items.specs.Claims.{IsWellNamed, TellsFirst};
ghost use Rattle.rust_items.specs.Faults.{TellsOf};

use crate::claims::{Claim, Namespace, Own, check_kinds};
use crate::names::{push_constant, push_name, push_part, push_path};
use crate::options::CodeError;
use crate::paths::path_claims;
use crate::program::Program;
use cranelift_isle::lower::LoweredTerm;
use cranelift_isle::sema::{
    ConstructorKind, ExtractorKind, Fields, StructField, Sym, Term, TermId, TermKind, Type,
    TypeEnv, Variant,
};
use std::alloc::{AllocError, Global};

/// Looks for names that would fall together in Rust, or that the code itself uses.
///
/// # Errors
///
/// `Names` for the first thing of the first kind that can't have its name. The kinds are the types, the variants of each enum, the
/// fields of each variant and struct, the functions of `Context`, the constants, the terms with rules, and the paths: constants,
/// structs, variants, functions of `Context` and those of terms with rules. A function of `Context` is pure for each term that it is
/// called for, or for none.
pub fn check_names(program: Program<'_>, terms: &[LoweredTerm]) -> Result<(), CodeError>
    ensures good { OnOk result (All IsWellNamed (kinds (named_program program.entry.tyenv.now program.entry.terms.now terms.now))) }
    ensures wrong { IfErr result (λ e. TellsOf e (TellsFirst (kinds (named_program program.entry.tyenv.now program.entry.terms.now terms.now)))) }
{
    let kinds = kinds_of(program, terms)?;
    check_kinds(program.alloc, &kinds)
}

// The kinds of a program's things, with how each thing is written.
fn kinds_of(program: Program<'_>, lowered: &[LoweredTerm]) -> Result<Vec<Namespace>, AllocError>
    ensures { IfOk result (λ v. kind_views v.items ≡ kinds (named_program program.entry.tyenv.now program.entry.terms.now lowered.now)) }
{
    let Program {
        alloc,
        tyenv,
        terms,
        ..
    } = program;
    let types: &[Type] = &tyenv.types;
    let of_types = type_claims(alloc, tyenv, types)?;
    let functions = function_claims(alloc, tyenv, terms)?;
    let constants = constant_claims(alloc, tyenv)?;
    let with_rules = term_claims(alloc, tyenv, terms, lowered)?;
    let paths = path_claims(alloc, tyenv, types, &constants, &functions, &with_rules)?;
    let mut kinds = Vec::new(alloc);
    push_kind(&mut kinds, "the types", "type", Own::Types, of_types)?;
    push_insides(alloc, tyenv, &mut kinds, types)?;
    push_kind(
        &mut kinds,
        "the functions",
        "function",
        Own::Nothing,
        functions,
    )?;
    push_kind(
        &mut kinds,
        "the constants",
        "constant",
        Own::Values,
        constants,
    )?;
    push_kind(&mut kinds, "the terms", "term", Own::Nothing, with_rules)?;
    push_kind(&mut kinds, "the paths", "path", Own::Nothing, paths)?;
    Ok(kinds)
}

#[tactic(auto, using(crate::proofs::Grown::pushed_kind))]
fn push_kind(
    kinds: &mut Vec<Namespace>,
    what: &'static str,
    one: &'static str,
    own: Own,
    claims: Vec<Claim>,
) -> Result<(), AllocError>
    ensures { OnOk result (kind_views kinds.new.items ≡ kind_views kinds.old.items ++ kind_as what.now one.now (is_own own) (claim_views claims.items) ∷ []) }
{
    kinds.push(Namespace {
        what,
        one,
        own,
        claims,
    })?;
    Ok(())
}

fn type_claims(alloc: Global, tyenv: &TypeEnv, types: &[Type]) -> Result<Vec<Claim>, AllocError>
    ensures { IfOk result (λ v. claim_views v.items ≡ flat_map (type_claim (names_of tyenv.now)) (type_views types.now)) }
{
    let mut claims = Vec::new(alloc);
    for ty in types {
        push_type(tyenv, &mut claims, ty)?;
    }
    Ok(claims)
}

// Adds a type, unless it is built in.
fn push_type(tyenv: &TypeEnv, claims: &mut Vec<Claim>, ty: &Type) -> Result<(), AllocError>
    ensures { OnOk result (claim_views claims.new.items ≡ claim_views claims.old.items ++ type_claim (names_of tyenv.now) (type_view ty.now)) }
{
    match ty {
        Type::Builtin(_) => Ok(()),
        Type::Primitive(_, name, _) => push_primitive(tyenv, claims, *name),
        Type::Enum { name, .. } => push_identified(tyenv, claims, *name),
        Type::Struct { name, .. } => push_identified(tyenv, claims, *name),
    }
}

// Adds a primitive type, which is told as one.
fn push_primitive(tyenv: &TypeEnv, claims: &mut Vec<Claim>, name: Sym) -> Result<(), AllocError>
    ensures { OnOk result (claim_views claims.new.items ≡ claim_views claims.old.items ++ primitive (names_of tyenv.now) name.0 ∷ []) }
{
    let alloc = *claims.allocator();
    let name = tyenv.text_of(name);
    let mut written = String::new(alloc);
    push_path(&mut written, name)?;
    let owner = format!(in alloc; "primitive {name}")?;
    push_claim(claims, written, &owner)
}

// Adds what is written as an identifier.
fn push_identified(tyenv: &TypeEnv, claims: &mut Vec<Claim>, name: Sym) -> Result<(), AllocError>
    ensures { OnOk result (claim_views claims.new.items ≡ claim_views claims.old.items ++ identified (names_of tyenv.now) name.0 ∷ []) }
{
    let alloc = *claims.allocator();
    let name = tyenv.text_of(name);
    let mut written = String::new(alloc);
    push_name(&mut written, name)?;
    push_claim(claims, written, name)
}

/// Adds what is written so.
#[tactic(auto, using(crate::proofs::Grown::pushed_claim))]
pub(crate) fn push_claim(
    claims: &mut Vec<Claim>,
    written: String,
    owner: &str,
) -> Result<(), AllocError>
    ensures { OnOk result (claim_views claims.new.items ≡ claim_views claims.old.items ++ claim (string_bytes written) owner.now ∷ []) }
{
    let owner = String::from_str(*claims.allocator(), owner)?;
    claims.push(Claim { written, owner })?;
    Ok(())
}

// Adds what is inside of each type: variants and fields.
fn push_insides(
    alloc: Global,
    tyenv: &TypeEnv,
    kinds: &mut Vec<Namespace>,
    types: &[Type],
) -> Result<(), AllocError>
    ensures { OnOk result (kind_views kinds.new.items ≡ kind_views kinds.old.items ++ flat_map (kinds_inside (names_of tyenv.now)) (type_views types.now)) }
{
    for ty in types {
        push_inside(alloc, tyenv, kinds, ty)?;
    }
    Ok(())
}

fn push_inside(
    alloc: Global,
    tyenv: &TypeEnv,
    kinds: &mut Vec<Namespace>,
    ty: &Type,
) -> Result<(), AllocError>
    ensures { OnOk result (kind_views kinds.new.items ≡ kind_views kinds.old.items ++ kinds_inside (names_of tyenv.now) (type_view ty.now)) }
{
    match ty {
        Type::Builtin(_) => Ok(()),
        Type::Primitive(_, _, _) => Ok(()),
        Type::Enum { variants, .. } => push_variants(alloc, tyenv, kinds, variants),
        Type::Struct { fields, .. } => push_fields(alloc, tyenv, kinds, fields),
    }
}

// Adds the variants of an enum, and the fields of each.
fn push_variants(
    alloc: Global,
    tyenv: &TypeEnv,
    kinds: &mut Vec<Namespace>,
    variants: &[Variant],
) -> Result<(), AllocError>
    ensures { OnOk result (kind_views kinds.new.items ≡ kind_views kinds.old.items ++ (variant_kind (names_of tyenv.now) (map variant_view variants.now) ∷ map (variant_fields (names_of tyenv.now)) (map variant_view variants.now))) }
{
    let claims = variant_claims(alloc, tyenv, variants)?;
    push_kind(kinds, "the variants", "variant", Own::Nothing, claims)?;
    push_variant_fields(alloc, tyenv, kinds, variants)
}

fn push_variant_fields(
    alloc: Global,
    tyenv: &TypeEnv,
    kinds: &mut Vec<Namespace>,
    variants: &[Variant],
) -> Result<(), AllocError>
    ensures { OnOk result (kind_views kinds.new.items ≡ kind_views kinds.old.items ++ map (variant_fields (names_of tyenv.now)) (map variant_view variants.now)) }
{
    for variant in variants {
        push_fields(alloc, tyenv, kinds, &variant.fields)?;
    }
    Ok(())
}

fn variant_claims(
    alloc: Global,
    tyenv: &TypeEnv,
    variants: &[Variant],
) -> Result<Vec<Claim>, AllocError>
    ensures { IfOk result (λ v. claim_views v.items ≡ map (variant_claim (names_of tyenv.now)) (map variant_view variants.now)) }
{
    let mut claims = Vec::new(alloc);
    for variant in variants {
        push_identified(tyenv, &mut claims, variant.name)?;
    }
    Ok(claims)
}

// Adds the fields of a struct or of a variant.
fn push_fields(
    alloc: Global,
    tyenv: &TypeEnv,
    kinds: &mut Vec<Namespace>,
    fields: &Fields,
) -> Result<(), AllocError>
    ensures { OnOk result (kind_views kinds.new.items ≡ kind_views kinds.old.items ++ field_kind (names_of tyenv.now) (fields_view fields.now) ∷ []) }
{
    let claims = field_claims(alloc, tyenv, fields)?;
    push_kind(kinds, "the fields", "field", Own::Nothing, claims)
}

// The fields with names, as things with names.
fn field_claims(alloc: Global, tyenv: &TypeEnv, fields: &Fields) -> Result<Vec<Claim>, AllocError>
    ensures { IfOk result (λ v. claim_views v.items ≡ field_claims (names_of tyenv.now) (fields_view fields.now)) }
{
    match fields {
        Fields::Struct(named) => named_claims(alloc, tyenv, &named.fields),
        Fields::Unit => Ok(Vec::new(alloc)),
        Fields::Tuple(_) => Ok(Vec::new(alloc)),
    }
}

fn named_claims(
    alloc: Global,
    tyenv: &TypeEnv,
    fields: &[StructField],
) -> Result<Vec<Claim>, AllocError>
    ensures { IfOk result (λ v. claim_views v.items ≡ map (field_claim (names_of tyenv.now)) (map field_view fields.now)) }
{
    let mut claims = Vec::new(alloc);
    for field in fields {
        push_identified(tyenv, &mut claims, field.name)?;
    }
    Ok(claims)
}

// The functions from outside, as things with names.
fn function_claims(alloc: Global, tyenv: &TypeEnv, terms: &[Term]) -> Result<Vec<Claim>, AllocError>
    ensures { IfOk result (λ v. claim_views v.items ≡ flat_map (functions_of (names_of tyenv.now)) (term_views terms.now)) }
{
    let mut claims = Vec::new(alloc);
    for term in terms {
        push_functions(tyenv, &mut claims, &term.kind)?;
    }
    Ok(claims)
}

fn push_functions(
    tyenv: &TypeEnv,
    claims: &mut Vec<Claim>,
    kind: &TermKind,
) -> Result<(), AllocError>
    ensures { OnOk result (claim_views claims.new.items ≡ claim_views claims.old.items ++ functions_of_kind (names_of tyenv.now) (term_kind_view kind.now)) }
{
    match kind {
        TermKind::EnumVariant { .. } => Ok(()),
        TermKind::Struct => Ok(()),
        TermKind::Decl {
            flags,
            constructor_kind,
            extractor_kind,
        } => {
            push_extractor(tyenv, claims, extractor_kind)?;
            push_constructor(tyenv, claims, flags.pure, constructor_kind)
        }
    }
}

// Adds the function that takes a term's values apart, where it comes from outside.
fn push_extractor(
    tyenv: &TypeEnv,
    claims: &mut Vec<Claim>,
    kind: &Option<ExtractorKind>,
) -> Result<(), AllocError>
    ensures { OnOk result (claim_views claims.new.items ≡ claim_views claims.old.items ++ extractor_claim (names_of tyenv.now) (option_map extractor_view kind.now)) }
{
    match kind {
        Some(ExtractorKind::ExternalExtractor { name, .. }) => {
            push_function(tyenv, claims, true, *name)
        }
        Some(ExtractorKind::InternalExtractor { .. }) => Ok(()),
        None => Ok(()),
    }
}

// Adds the function that makes a term's values, where it comes from outside.
fn push_constructor(
    tyenv: &TypeEnv,
    claims: &mut Vec<Claim>,
    is_pure: bool,
    kind: &Option<ConstructorKind>,
) -> Result<(), AllocError>
    ensures { OnOk result (claim_views claims.new.items ≡ claim_views claims.old.items ++ constructor_claim (names_of tyenv.now) is_pure (option_map constructor_view kind.now)) }
{
    match kind {
        Some(ConstructorKind::ExternalConstructor { name }) => {
            push_function(tyenv, claims, is_pure, *name)
        }
        Some(ConstructorKind::InternalConstructor) => Ok(()),
        None => Ok(()),
    }
}

// Adds a function from outside.
fn push_function(
    tyenv: &TypeEnv,
    claims: &mut Vec<Claim>,
    is_pure: bool,
    name: Sym,
) -> Result<(), AllocError>
    ensures { OnOk result (claim_views claims.new.items ≡ claim_views claims.old.items ++ function_claim (names_of tyenv.now) is_pure name.0 ∷ []) }
{
    let alloc = *claims.allocator();
    let name = tyenv.text_of(name);
    let mut written = String::new(alloc);
    push_name(&mut written, name)?;
    let owner = purely(alloc, is_pure, name)?;
    push_claim(claims, written, &owner)
}

// How a function is told: a pure one as pure.
fn purely(alloc: Global, is_pure: bool, name: &str) -> Result<String, AllocError>
    ensures { IfOk result (λ text. string_bytes text ≡ purely is_pure name.now) }
{
    if is_pure {
        return format!(in alloc; "pure {name}");
    }
    String::from_str(alloc, name)
}

fn constant_claims(alloc: Global, tyenv: &TypeEnv) -> Result<Vec<Claim>, AllocError>
    ensures { IfOk result (λ v. claim_views v.items ≡ map (constant_claim (names_of tyenv.now)) (constants_of tyenv.now)) }
{
    let mut claims = Vec::new(alloc);
    for number in 0..tyenv.syms.len() {
        push_if_constant(tyenv, &mut claims, Sym(number))?;
    }
    Ok(claims)
}

fn push_if_constant(tyenv: &TypeEnv, claims: &mut Vec<Claim>, name: Sym) -> Result<(), AllocError>
    ensures { OnOk result (claim_views claims.new.items ≡ claim_views claims.old.items ++ map (constant_claim (names_of tyenv.now)) (constant_or_none tyenv.now name.0)) }
{
    if !tyenv.const_types.contains_key(&name) {
        return Ok(());
    }
    push_constant_claim(tyenv, claims, name)
}

fn push_constant_claim(
    tyenv: &TypeEnv,
    claims: &mut Vec<Claim>,
    name: Sym,
) -> Result<(), AllocError>
    ensures { OnOk result (claim_views claims.new.items ≡ claim_views claims.old.items ++ constant_claim (names_of tyenv.now) name.0 ∷ []) }
{
    let alloc = *claims.allocator();
    let name = tyenv.text_of(name);
    let mut written = String::new(alloc);
    push_constant(&mut written, name)?;
    push_claim(claims, written, name)
}

// The functions of the terms with rules, as things with names.
fn term_claims(
    alloc: Global,
    tyenv: &TypeEnv,
    terms: &[Term],
    lowered: &[LoweredTerm],
) -> Result<Vec<Claim>, AllocError>
    ensures { IfOk result (λ v. claim_views v.items ≡ flat_map (term_claim (names_of tyenv.now) (term_views terms.now)) (map (λ t. t.id.0) lowered.now)) }
{
    let mut claims = Vec::new(alloc);
    for term in lowered {
        push_lowered(tyenv, &mut claims, terms, term.id)?;
    }
    Ok(claims)
}

// Adds the function of the term of an id, where there is the term.
fn push_lowered(
    tyenv: &TypeEnv,
    claims: &mut Vec<Claim>,
    terms: &[Term],
    id: TermId,
) -> Result<(), AllocError>
    ensures { OnOk result (claim_views claims.new.items ≡ claim_views claims.old.items ++ term_claim (names_of tyenv.now) (term_views terms.now) id.0) }
{
    push_term(tyenv, claims, terms.get(id.index()))
}

// Adds the function of a term, where there is the term.
fn push_term(
    tyenv: &TypeEnv,
    claims: &mut Vec<Claim>,
    term: Option<&Term>,
) -> Result<(), AllocError>
    ensures { OnOk result (claim_views claims.new.items ≡ claim_views claims.old.items ++ constructors_of (names_of tyenv.now) (option_map (λ t. term_view t.now) term.entry)) }
{
    match term {
        Some(term) => push_rules_of(tyenv, claims, term.name),
        None => Ok(()),
    }
}

// Adds the function of the term of a name.
fn push_rules_of(tyenv: &TypeEnv, claims: &mut Vec<Claim>, name: Sym) -> Result<(), AllocError>
    ensures { OnOk result (claim_views claims.new.items ≡ claim_views claims.old.items ++ constructor_named (names_of tyenv.now) name.0 ∷ []) }
{
    let alloc = *claims.allocator();
    let name = tyenv.text_of(name);
    let mut written = String::from_str(alloc, "constructor_")?;
    push_part(&mut written, name)?;
    push_claim(claims, written, name)
}
