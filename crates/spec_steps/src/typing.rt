//! What is known of types, terms and constants.
ghost use Rattle.std.specs.Prelude.{◌≡◌, Some, map, option_map, slice_get, IfOk};
ghost use Rattle.laws_specs.specs.Specs as L;
ghost use Rattle.model.specs.rules.Program.{arg_types};
ghost use Rattle.model.specs.rules.Values.{struct_types, variant_types};
ghost use Rattle.model.specs.sites.Serves.{term_args, term_results};
ghost use Rattle.core_types.specs.TypeViews.{type_view, type_views};
ghost use Rattle.model_questions.specs.Steps as S;
ghost use Rattle.spec_cases.specs.Literals.{literal_view};
ghost use Rattle.spec_cases.specs.Namings.{Naming};
ghost use Rattle.spec_steps.specs.Demands.{args_of, results_of, Meant};
ghost use Rattle.spec_steps.specs.Typing.{type_number, type_numbers};

use crate::demands::{Demands, Signature};
use core_types::{Sym, TermId, Type, TypeId, VariantId};
use spec_cases::asking::{constant_of, literal_of};
use spec_cases::faults::Fault;
use spec_cases::literals::Literal;
use std::alloc::Global;

// What an integer of a type stands for.
pub(crate) fn literal(
    demands: &Demands<'_>,
    number: i128,
    ty: TypeId,
) -> Result<Option<Literal>, Fault>
    ensures { IfOk result (λ o. (v : Naming) (m : Meant v demands.now) → option_map literal_view o ≡ L.literal_of m.specs number ty.0) }
{
    Ok(literal_of(demands.sorts, number, ty)?)
}

// What a named constant stands for.
pub(crate) fn constant(demands: &Demands<'_>, name: Sym) -> Option<Literal>
    ensures { (v : Naming) (m : Meant v demands.now) → option_map literal_view result ≡ L.constant_of m.specs name.0 }
{
    constant_of(demands.constants, name)
}

fn args_of(signatures: &[Signature], term: TermId) -> &[TypeId]
    ensures { type_numbers result.now ≡ args_of (slice_get signatures.now term.0) }
{
    match signatures.get(term.0) {
        None => &[],
        Some(signature) => &signature.args,
    }
}

fn result_of(signatures: &[Signature], term: TermId) -> Option<TypeId>
    ensures { type_number result ≡ S.first_of (results_of (slice_get signatures.now term.0)) }
{
    match signatures.get(term.0) {
        None => None,
        Some(signature) => Some(signature.result),
    }
}

// The types of a term's arguments.
pub(crate) fn term_types<'d>(demands: &Demands<'d>, term: TermId) -> &'d [TypeId]
    ensures { (v : Naming) (m : Meant v demands.now) → type_numbers result.now ≡ term_args (slice_get m.p.terms term.0) }
{
    args_of(demands.signatures, term)
}

// Those of the term whose rule it is.
#[tactic(auto, using(crate::proofs::TypingSteps::types_said))]
pub(crate) fn own_types<'d>(demands: &Demands<'d>) -> &'d [TypeId]
    ensures { (v : Naming) (m : Meant v demands.now) → type_numbers result.now ≡ arg_types m.p m.c.term }
{
    term_types(demands, demands.term)
}

// One of some types.
#[tactic(auto, using(crate::proofs::TypingSteps::type_steps))]
pub(crate) fn type_in(types: &[TypeId], index: usize) -> Option<TypeId>
    ensures { type_number result ≡ slice_get (type_numbers types.now) index }
{
    match types.get(index) {
        None => None,
        Some(ty) => Some(*ty),
    }
}

// The type of a term's argument.
pub(crate) fn arg_type(demands: &Demands<'_>, term: TermId, index: usize) -> Option<TypeId>
    ensures { (v : Naming) (m : Meant v demands.now) → type_number result ≡ slice_get (term_args (slice_get m.p.terms term.0)) index }
{
    type_in(term_types(demands, term), index)
}

// That of an argument of the term whose rule it is.
pub(crate) fn own_type(demands: &Demands<'_>, index: usize) -> Option<TypeId>
    ensures { (v : Naming) (m : Meant v demands.now) → type_number result ≡ slice_get (arg_types m.p m.c.term) index }
{
    type_in(own_types(demands), index)
}

// The type of a term's result.
pub(crate) fn result_type(demands: &Demands<'_>, term: TermId) -> Option<TypeId>
    ensures { (v : Naming) (m : Meant v demands.now) → type_number result ≡ S.first_of (term_results (slice_get m.p.terms term.0)) }
{
    result_of(demands.signatures, term)
}

// The types of a variant's fields, where the type is an enum with that variant.
#[tactic(auto, using(crate::proofs::TypingSteps::field_steps))]
fn variant_types_of(
    alloc: Global,
    entry: &Type,
    variant: VariantId,
) -> Result<Option<Vec<TypeId>>, Fault>
    ensures { IfOk result (λ o. option_map (λ l. type_numbers l.items) o ≡ variant_types (Some (type_view entry.now)) variant.0) }
{
    match entry {
        Type::Enum { variants, .. } => match variants.get(variant.0) {
            None => Ok(None),
            Some(found) => Ok(Some(found.fields.types(alloc)?)),
        },
        Type::Builtin(_) | Type::Primitive(_, _, _) | Type::Struct { .. } => Ok(None),
    }
}

// The types of the fields of a type's variant, where there is one.
#[tactic(auto, using(crate::proofs::TypingSteps::type_steps))]
pub(crate) fn variant_types(
    alloc: Global,
    types: &[Type],
    ty: TypeId,
    variant: VariantId,
) -> Result<Option<Vec<TypeId>>, Fault>
    ensures { IfOk result (λ o. option_map (λ l. type_numbers l.items) o ≡ variant_types (slice_get (type_views types.now) ty.0) variant.0) }
{
    match types.get(ty.0) {
        None => Ok(None),
        Some(entry) => Ok(variant_types_of(alloc, entry, variant)?),
    }
}

#[tactic(auto, using(crate::proofs::TypingSteps::field_steps))]
fn struct_types_of(alloc: Global, entry: &Type) -> Result<Option<Vec<TypeId>>, Fault>
    ensures { IfOk result (λ o. option_map (λ l. type_numbers l.items) o ≡ struct_types (Some (type_view entry.now))) }
{
    match entry {
        Type::Struct { fields, .. } => Ok(Some(fields.types(alloc)?)),
        Type::Builtin(_) | Type::Primitive(_, _, _) | Type::Enum { .. } => Ok(None),
    }
}

// The types of a struct's fields, where the type is one.
#[tactic(auto, using(crate::proofs::TypingSteps::type_steps))]
pub(crate) fn struct_types(
    alloc: Global,
    types: &[Type],
    ty: TypeId,
) -> Result<Option<Vec<TypeId>>, Fault>
    ensures { IfOk result (λ o. option_map (λ l. type_numbers l.items) o ≡ struct_types (slice_get (type_views types.now) ty.0)) }
{
    match types.get(ty.0) {
        None => Ok(None),
        Some(entry) => Ok(struct_types_of(alloc, entry)?),
    }
}

// The type of a field, where the types of all are known.
pub(crate) fn type_at(types: Option<Vec<TypeId>>, index: usize) -> Option<TypeId>
    ensures { type_number result ≡ S.type_at (option_map (λ l. type_numbers l.items) types) index }
{
    match types {
        None => None,
        Some(list) => type_in(&list, index),
    }
}
