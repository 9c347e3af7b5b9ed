//! Where the sites of a set stand among those of a condition.

use crate::faults::CallFault;
use core_rule_sets::trie_again::{Binding, BindingId};
use std::alloc::Global;

/// Where a site of a set stands in a condition.
#[derive(Clone, Copy)]
pub(crate) struct Copied {
    /// The site that stands for it.
    pub(crate) site: BindingId,
    /// Whether it is a call that is looked through.
    pub(crate) is_through: bool,
}

/// A site that stands for one of a set, which is no call that is looked through.
pub(crate) fn plain_copy(site: BindingId) -> Copied {
    Copied {
        site,
        is_through: false,
    }
}

/// The number of a site.
pub(crate) fn number(site: BindingId) -> u32 {
    site.index() as u32
}

/// Where a site of a set stands.
pub(crate) fn entry_at(placed: &[Option<Copied>], site: usize) -> Result<Copied, CallFault> {
    match placed.get(site) {
        Some(Some(entry)) => Ok(*entry),
        _ => Err(CallFault::Foreign),
    }
}

/// The site that stands for one of a set.
pub(crate) fn site_at(placed: &[Option<Copied>], site: BindingId) -> Result<BindingId, CallFault> {
    Ok(entry_at(placed, site.index())?.site)
}

/// The sites that stand for some of a set.
pub(crate) fn sites_at(
    alloc: Global,
    placed: &[Option<Copied>],
    sites: &[BindingId],
) -> Result<Vec<BindingId>, CallFault> {
    let mut out = Vec::new(alloc);
    for site in sites {
        out.push(site_at(placed, *site)?)?;
    }
    Ok(out)
}

/// A binding, of the sites that stand for those that it is made of.
pub(crate) fn moved(
    alloc: Global,
    binding: &Binding,
    placed: &[Option<Copied>],
) -> Result<Binding, CallFault> {
    Ok(match binding {
        Binding::ConstBool { val, ty } => Binding::ConstBool { val: *val, ty: *ty },
        Binding::ConstInt { val, ty } => Binding::ConstInt { val: *val, ty: *ty },
        Binding::ConstPrim { val } => Binding::ConstPrim { val: *val },
        Binding::Argument { index } => Binding::Argument { index: *index },
        Binding::Extractor { term, parameter } => Binding::Extractor {
            term: *term,
            parameter: site_at(placed, *parameter)?,
        },
        Binding::Constructor {
            term,
            parameters,
            instance,
        } => Binding::Constructor {
            term: *term,
            parameters: sites_at(alloc, placed, parameters)?,
            instance: *instance,
        },
        Binding::Iterator { source } => Binding::Iterator {
            source: site_at(placed, *source)?,
        },
        Binding::MakeVariant {
            ty,
            variant,
            fields,
        } => Binding::MakeVariant {
            ty: *ty,
            variant: *variant,
            fields: sites_at(alloc, placed, fields)?,
        },
        Binding::MatchVariant {
            source,
            variant,
            field,
        } => Binding::MatchVariant {
            source: site_at(placed, *source)?,
            variant: *variant,
            field: *field,
        },
        Binding::MakeStruct { ty, fields } => Binding::MakeStruct {
            ty: *ty,
            fields: sites_at(alloc, placed, fields)?,
        },
        Binding::ExtractStruct { source, field } => Binding::ExtractStruct {
            source: site_at(placed, *source)?,
            field: *field,
        },
        Binding::MakeSome { inner } => Binding::MakeSome {
            inner: site_at(placed, *inner)?,
        },
        Binding::MatchSome { source } => Binding::MatchSome {
            source: site_at(placed, *source)?,
        },
        Binding::MatchTuple { source, field } => Binding::MatchTuple {
            source: site_at(placed, *source)?,
            field: *field,
        },
    })
}
