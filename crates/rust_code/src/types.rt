//! The types of what sites stand for.

ghost use Rattle.std.specs.Prelude.{◌≡◌, List, Some, map, not, option_map, slice_get};
ghost use Rattle.std.specs.List.{list_all};
ghost use Rattle.model.specs.lists.Tables.{struct_entries, tuple_entries};
ghost use Rattle.model.specs.rules.Values.{field_types, is_composed_type, struct_types, variant_types};
ghost use Rattle.model.specs.sites.Serves.{term_results};
ghost use Rattle.model.specs.sites.Sites.{layer, unfold_site, unfolded};
ghost use Rattle.model_code.specs.SiteTypes.{field_type, is_copied_at, one_type, or_no_types, types_at};
ghost use Rattle.model_code.specs.TreeCode.{place_of};
ghost use Rattle.core_types.specs.TypeViews.{field_view, fields_view, tuple_field_view, type_views};
ghost use Rattle.core_types.specs.Envs.{constant_at};
ghost use Rattle.core_terms.specs.TermViews.{term_views};
ghost use Rattle.core_rule_sets.specs.SiteViews.{site_view, site_views};
ghost use Rattle.rust_code.specs.SeenTypes.{arguments_in, are_without_parts, has_parts, is_sole_with_parts, seen_types, sole, OfTables};

use core_rule_sets::trie_again::{Binding, BindingId, TupleIndex};
use core_terms::Term;
use core_typed::checks::constant_type;
use core_types::{Fields, StructField, Sym, TermId, TupleField, Type, TypeEnv, TypeId, VariantId};

/// What the types of a term's sites are found by.
pub struct Tables<'a> {
    /// The names and types.
    pub tyenv: &'a TypeEnv,
    /// The terms, in the order of their ids.
    pub terms: &'a [Term],
    /// The term.
    pub term: TermId,
    /// The term's sites.
    pub sites: &'a [Binding],
}

impl Drop for Tables<'_> {
    fn drop(self) {
        let Self {
            tyenv: _,
            terms: _,
            term: _,
            sites: _,
        } = self;
    }
}

/// The types of one answer of a site: of a value, or of each of so many outputs.
#[derive(Clone, Copy)]
pub(crate) enum SiteTypes {
    /// None is known.
    Unknown,
    /// One.
    One { ty: TypeId },
    /// Those of a term's arguments.
    OfArguments { term: TermId },
}

// Whether a type is an enum or a struct.
fn is_composed(tyenv: &TypeEnv, ty: TypeId) -> bool
    ensures { result ≡ is_composed_type (slice_get (type_views tyenv.now.types.items) ty.0) }
{
    match tyenv.types.get(ty.index()) {
        Some(Type::Enum { .. }) => true,
        Some(Type::Struct { .. }) => true,
        Some(Type::Builtin(_)) => false,
        Some(Type::Primitive(_, _, _)) => false,
        None => false,
    }
}

// Whether none of these types is an enum or a struct.
fn are_all_copied(tyenv: &TypeEnv, types: &[TypeId]) -> bool
    ensures { result ≡ list_all (λ ty. not (has_parts tyenv.now ty.0)) types.now }
{
    types.iter().all(|ty| !is_composed(tyenv, *ty))
}

/// Whether what has these types counts as `Copy`.
pub(crate) fn are_copied(tables: &Tables<'_>, types: SiteTypes) -> bool
    ensures { result ≡ are_without_parts tables.now.tyenv.now (seen_types tables.now.terms.now types) }
{
    match types {
        SiteTypes::Unknown => true,
        SiteTypes::One { ty } => !is_composed(tables.tyenv, ty),
        SiteTypes::OfArguments { term } => match tables.terms.get(term.index()) {
            Some(term) => are_all_copied(tables.tyenv, &term.arg_tys),
            None => true,
        },
    }
}

fn one(ty: Option<TypeId>) -> SiteTypes
    ensures { (terms : List Term) → seen_types terms result ≡ one_type (option_map (λ t. t.0) ty) }
{
    match ty {
        Some(ty) => SiteTypes::One { ty },
        None => SiteTypes::Unknown,
    }
}

fn type_at(types: &[TypeId], place: TupleIndex) -> SiteTypes
    ensures { (terms : List Term) → seen_types terms result ≡ one_type (slice_get (map (λ ty. ty.0) types.now) place) }
{
    match types.get(place.index()) {
        Some(ty) => SiteTypes::One { ty: *ty },
        None => SiteTypes::Unknown,
    }
}

fn sole_of(tables: &Tables<'_>, types: SiteTypes) -> Option<TypeId>
    ensures { option_map (λ ty. ty.0) result ≡ sole (seen_types tables.now.terms.now types) }
{
    match types {
        SiteTypes::Unknown => None,
        SiteTypes::One { ty } => Some(ty),
        SiteTypes::OfArguments { term } => match tables.terms.get(term.index()) {
            Some(term) => only(&term.arg_tys),
            None => None,
        },
    }
}

fn only(types: &[TypeId]) -> Option<TypeId>
    ensures { option_map (λ ty. ty.0) result ≡ sole (map (λ ty. ty.0) types.now) }
{
    match types {
        [ty] => Some(*ty),
        _ => None,
    }
}

/// Whether these types are one enum or struct.
pub(crate) fn is_one_composed(tables: &Tables<'_>, types: SiteTypes) -> bool
    ensures { result ≡ is_sole_with_parts tables.now.tyenv.now (seen_types tables.now.terms.now types) }
{
    match sole_of(tables, types) {
        Some(ty) => is_composed(tables.tyenv, ty),
        None => false,
    }
}

fn part_of(tables: &Tables<'_>, types: SiteTypes, field: TupleIndex) -> SiteTypes
    ensures { seen_types tables.now.terms.now result ≡ one_type (slice_get (seen_types tables.now.terms.now types) field) }
{
    match types {
        SiteTypes::Unknown => SiteTypes::Unknown,
        SiteTypes::One { ty } => {
            if field.index() == 0 {
                SiteTypes::One { ty }
            } else {
                SiteTypes::Unknown
            }
        }
        SiteTypes::OfArguments { term } => match tables.terms.get(term.index()) {
            Some(term) => type_at(&term.arg_tys, field),
            None => SiteTypes::Unknown,
        },
    }
}

fn argument_of(tables: &Tables<'_>, index: TupleIndex) -> SiteTypes
    ensures { seen_types tables.now.terms.now result ≡ one_type (slice_get (arguments_in tables.now) index) }
{
    part_of(tables, SiteTypes::OfArguments { term: tables.term }, index)
}

fn field_of(fields: &Fields, field: TupleIndex) -> SiteTypes
    ensures { (terms : List Term) → seen_types terms result ≡ one_type (slice_get (field_types (fields_view fields.now)) field) }
{
    match fields {
        Fields::Unit => SiteTypes::Unknown,
        Fields::Struct(named) => named_field(&named.fields, field),
        Fields::Tuple(unnamed) => unnamed_field(&unnamed.fields, field),
    }
}

fn named_field(fields: &[StructField], place: TupleIndex) -> SiteTypes
    ensures { (terms : List Term) → seen_types terms result ≡ one_type (slice_get (field_types (struct_entries (map field_view fields.now))) place) }
{
    match fields.get(place.index()) {
        Some(field) => SiteTypes::One { ty: field.ty },
        None => SiteTypes::Unknown,
    }
}

fn unnamed_field(fields: &[TupleField], place: TupleIndex) -> SiteTypes
    ensures { (terms : List Term) → seen_types terms result ≡ one_type (slice_get (field_types (tuple_entries (map tuple_field_view fields.now))) place) }
{
    match fields.get(place.index()) {
        Some(field) => SiteTypes::One { ty: field.ty },
        None => SiteTypes::Unknown,
    }
}

fn constant_of(tyenv: &TypeEnv, name: Sym) -> SiteTypes
    ensures { (terms : List Term) → seen_types terms result ≡ one_type (constant_at tyenv.now name.0) }
{
    one(constant_type(tyenv, name))
}

// The type of what a term's constructor answers.
fn result_of(terms: &[Term], term: TermId) -> SiteTypes
    ensures { seen_types terms.now result ≡ term_results (slice_get (term_views terms.now) term.0) }
{
    match terms.get(term.index()) {
        Some(term) => SiteTypes::One { ty: term.ret_ty },
        None => SiteTypes::Unknown,
    }
}

// The type of a field of a variant of these types, where they are one enum that has it.
fn variant_field(
    tables: &Tables<'_>,
    types: SiteTypes,
    variant: VariantId,
    field: TupleIndex,
) -> SiteTypes
    ensures { seen_types tables.now.terms.now result
        ≡ field_type (λ ty. variant_types (slice_get (type_views tables.now.tyenv.now.types.items) ty) variant.0) (seen_types tables.now.terms.now types) field }
{
    match sole_of(tables, types) {
        Some(ty) => field_of_variant(tables.tyenv, ty, variant, field),
        None => SiteTypes::Unknown,
    }
}

fn field_of_variant(tyenv: &TypeEnv, ty: TypeId, variant: VariantId, field: TupleIndex) -> SiteTypes
    ensures { (terms : List Term) → seen_types terms result
        ≡ one_type (slice_get (or_no_types (variant_types (slice_get (type_views tyenv.now.types.items) ty.0) variant.0)) field) }
{
    match tyenv.types.get(ty.index()) {
        Some(Type::Enum { variants, .. }) => match variants.get(variant.index()) {
            Some(variant) => field_of(&variant.fields, field),
            None => SiteTypes::Unknown,
        },
        _ => SiteTypes::Unknown,
    }
}

// The type of a field of a struct of these types, where they are one struct that has it.
fn struct_field(tables: &Tables<'_>, types: SiteTypes, field: TupleIndex) -> SiteTypes
    ensures { seen_types tables.now.terms.now result
        ≡ field_type (λ ty. struct_types (slice_get (type_views tables.now.tyenv.now.types.items) ty)) (seen_types tables.now.terms.now types) field }
{
    match sole_of(tables, types) {
        Some(ty) => field_of_struct(tables.tyenv, ty, field),
        None => SiteTypes::Unknown,
    }
}

fn field_of_struct(tyenv: &TypeEnv, ty: TypeId, field: TupleIndex) -> SiteTypes
    ensures { (terms : List Term) → seen_types terms result
        ≡ one_type (slice_get (or_no_types (struct_types (slice_get (type_views tyenv.now.types.items) ty.0))) field) }
{
    match tyenv.types.get(ty.index()) {
        Some(Type::Struct { fields, .. }) => field_of(fields, field),
        _ => SiteTypes::Unknown,
    }
}

// The types of a site, by so many layers of sources.
#[cycle(types)]
fn types_within(tables: &Tables<'_>, layers: usize, site: BindingId) -> SiteTypes
    ensures { OfTables tables.now (λ p. seen_types tables.now.terms.now result
        ≡ types_at p (arguments_in tables.now) (unfolded layers (site_views tables.now.sites.now) site)) }
{
    if layers == 0 {
        return SiteTypes::Unknown;
    }
    match tables.sites.get(site.index()) {
        Some(binding) => types_of(tables, layers - 1, binding),
        None => SiteTypes::Unknown,
    }
}

/// The types of a site that stands for this, by so many layers of its sources.
#[cycle(types)]
pub(crate) fn types_of(tables: &Tables<'_>, layers: usize, binding: &Binding) -> SiteTypes
    ensures { OfTables tables.now (λ p. seen_types tables.now.terms.now result
        ≡ types_at p (arguments_in tables.now) (layer (unfolded layers (site_views tables.now.sites.now)) (site_view binding.now))) }
{
    match binding {
        Binding::ConstBool { ty, .. } => SiteTypes::One { ty: *ty },
        Binding::ConstInt { ty, .. } => SiteTypes::One { ty: *ty },
        Binding::ConstPrim { val } => constant_of(tables.tyenv, *val),
        Binding::Argument { index } => argument_of(tables, *index),
        Binding::Extractor { term, .. } => SiteTypes::OfArguments { term: *term },
        Binding::Constructor { term, .. } => result_of(tables.terms, *term),
        Binding::Iterator { source } => types_within(tables, layers, *source),
        Binding::MakeVariant { ty, .. } => SiteTypes::One { ty: *ty },
        Binding::MatchVariant {
            source,
            variant,
            field,
        } => {
            let types = types_within(tables, layers, *source);
            variant_field(tables, types, *variant, *field)
        }
        Binding::MakeStruct { ty, .. } => SiteTypes::One { ty: *ty },
        Binding::ExtractStruct { source, field } => {
            let types = types_within(tables, layers, *source);
            struct_field(tables, types, *field)
        }
        Binding::MakeSome { inner } => types_within(tables, layers, *inner),
        Binding::MatchSome { source } => types_within(tables, layers, *source),
        Binding::MatchTuple { source, field } => {
            let types = types_within(tables, layers, *source);
            part_of(tables, types, *field)
        }
    }
}

/// The types of the place where a site is read that stands for this: the site's own, or a part of its tuple's.
pub(crate) fn place_types(tables: &Tables<'_>, number: usize, binding: &Binding) -> SiteTypes
    ensures { slice_get (site_views tables.now.sites.now) number ≡ Some (site_view binding.now)
        → OfTables tables.now (λ p. are_without_parts tables.now.tyenv.now (seen_types tables.now.terms.now result)
        ≡ is_copied_at p (arguments_in tables.now) (site_views tables.now.sites.now) (place_of (Some (site_view binding.now)) number)) }
{
    if let Binding::MatchTuple { source, field } = binding {
        let types = types_of_site(tables, source.index());
        part_of(tables, types, *field)
    } else {
        types_of(tables, number, binding)
    }
}

fn types_of_site(tables: &Tables<'_>, number: usize) -> SiteTypes
    ensures { OfTables tables.now (λ p. seen_types tables.now.terms.now result
        ≡ types_at p (arguments_in tables.now) (unfold_site (site_views tables.now.sites.now) number)) }
{
    match tables.sites.get(number) {
        Some(binding) => types_of(tables, number, binding),
        None => SiteTypes::Unknown,
    }
}
