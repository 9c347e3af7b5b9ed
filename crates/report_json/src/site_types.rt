//! The types of sites.

use cranelift_isle::sema::{ExternalSig, Fields, ReturnKind, Type, TypeId, VariantId};
use cranelift_isle::trie_again::{Binding, BindingId};
use report_names::names::NameTables;
use std::alloc::{AllocError, Global};

/// What the values of a site are.
pub(crate) struct SiteTypes {
    /// The type of the value; of what an extractor gives, those of all its outputs.
    pub(crate) types: Vec<TypeId>,
    /// Whether it is a value, or an answer that has at most one or any number.
    pub(crate) answer: ReturnKind,
}

impl Drop for SiteTypes {
    fn drop(self) {
        let SiteTypes {
            types: _,
            answer: _,
        } = self;
    }
}

/// An answer, in a word.
pub(crate) fn word_of_answer(answer: ReturnKind) -> &'static str {
    match answer {
        ReturnKind::Plain => "plain",
        ReturnKind::Option => "option",
        ReturnKind::Iterator => "iterator",
    }
}

/// The types of each site of a term, whose arguments have these types.
pub(crate) fn types_of_sites(
    alloc: Global,
    names: NameTables<'_>,
    arguments: &[TypeId],
    bindings: &[Binding],
) -> Result<Vec<SiteTypes>, AllocError> {
    let mut before = Vec::new(alloc);
    for binding in bindings {
        let types = types_of(alloc, names, arguments, binding, &before)?;
        before.push(types)?;
    }
    Ok(before)
}

// The types of a site, by those of the sites before it.
fn types_of(
    alloc: Global,
    names: NameTables<'_>,
    arguments: &[TypeId],
    binding: &Binding,
    before: &[SiteTypes],
) -> Result<SiteTypes, AllocError> {
    match binding {
        Binding::Extractor { term, .. } => {
            let sig = match names.terms.get(term.index()) {
                Some(term) => term.extractor_sig(alloc, names.tyenv)?,
                None => None,
            };
            given_by(alloc, &sig)
        }
        Binding::Constructor { term, .. } => {
            let sig = match names.terms.get(term.index()) {
                Some(term) => term.constructor_sig(alloc, names.tyenv)?,
                None => None,
            };
            given_by(alloc, &sig)
        }
        Binding::Iterator { source } | Binding::MatchSome { source } => {
            same_types(alloc, before, *source, ReturnKind::Plain)
        }
        Binding::MakeSome { inner } => same_types(alloc, before, *inner, ReturnKind::Option),
        _ => one_type(alloc, type_of(names, arguments, binding, before)),
    }
}

fn given_by(alloc: Global, sig: &Option<ExternalSig>) -> Result<SiteTypes, AllocError> {
    match sig {
        Some(sig) => Ok(SiteTypes {
            types: Vec::from_slice(alloc, &sig.ret_tys)?,
            answer: sig.ret_kind,
        }),
        None => one_type(alloc, None),
    }
}

// The types of a site before, as another answer.
fn same_types(
    alloc: Global,
    before: &[SiteTypes],
    site: BindingId,
    answer: ReturnKind,
) -> Result<SiteTypes, AllocError> {
    match before.get(site.index()) {
        Some(found) => Ok(SiteTypes {
            types: Vec::from_slice(alloc, &found.types)?,
            answer,
        }),
        None => one_type(alloc, None),
    }
}

// A value of one type, where it is known.
fn one_type(alloc: Global, ty: Option<TypeId>) -> Result<SiteTypes, AllocError> {
    let mut types = Vec::new(alloc);
    if let Some(ty) = ty {
        types.push(ty)?;
    }
    Ok(SiteTypes {
        types,
        answer: ReturnKind::Plain,
    })
}

// The type of a site that is a value and no call's.
fn type_of(
    names: NameTables<'_>,
    arguments: &[TypeId],
    binding: &Binding,
    before: &[SiteTypes],
) -> Option<TypeId> {
    match binding {
        Binding::ConstBool { ty, .. }
        | Binding::ConstInt { ty, .. }
        | Binding::MakeVariant { ty, .. }
        | Binding::MakeStruct { ty, .. } => Some(*ty),
        Binding::ConstPrim { val } => names.tyenv.const_types.get(val).copied(),
        Binding::Argument { index } => arguments.get(index.index()).copied(),
        Binding::MatchVariant {
            source,
            variant,
            field,
        } => field_of_variant(names, first_type(before, *source)?, *variant, field.index()),
        Binding::ExtractStruct { source, field } => {
            field_of_struct(names, first_type(before, *source)?, field.index())
        }
        Binding::MatchTuple { source, field } => {
            before
                .get(source.index())?
                .types
                .get(field.index())
                .copied()
        }
        Binding::Extractor { .. }
        | Binding::Constructor { .. }
        | Binding::Iterator { .. }
        | Binding::MakeSome { .. }
        | Binding::MatchSome { .. } => None,
    }
}

// The type of a site before that is one value.
fn first_type(before: &[SiteTypes], site: BindingId) -> Option<TypeId> {
    before.get(site.index())?.types.first().copied()
}

fn field_of_variant(
    names: NameTables<'_>,
    ty: TypeId,
    variant: VariantId,
    field: usize,
) -> Option<TypeId> {
    match names.tyenv.types.get(ty.index()) {
        Some(Type::Enum { variants, .. }) => {
            field_type(&variants.get(variant.index())?.fields, field)
        }
        _ => None,
    }
}

fn field_of_struct(names: NameTables<'_>, ty: TypeId, field: usize) -> Option<TypeId> {
    match names.tyenv.types.get(ty.index()) {
        Some(Type::Struct { fields, .. }) => field_type(fields, field),
        _ => None,
    }
}

fn field_type(fields: &Fields, place: usize) -> Option<TypeId> {
    match fields {
        Fields::Unit => None,
        Fields::Struct(fields) => Some(fields.fields.get(place)?.ty),
        Fields::Tuple(fields) => Some(fields.fields.get(place)?.ty),
    }
}
