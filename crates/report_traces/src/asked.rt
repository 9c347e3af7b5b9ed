//! Calls whose answers are asked for.

use crate::outcomes::push_composed;
use cranelift_isle::lower::Lowered;
use cranelift_isle::sema::{ExtractorKind, Term, TermFlags, TermId, TermKind};
use report_queries::names::term_name;
use run_terms::values::Value;
use std::alloc::{AllocError, Global};

/// What is called of a term.
#[derive(Clone, Copy, PartialEq, Eq)]
pub enum Side {
    /// What takes a value apart.
    Extractor,
    /// What makes a value.
    Constructor,
}

/// A call whose answer is asked for.
pub struct AskedCall {
    /// What is called of the term.
    pub side: Side,
    /// The term.
    pub term: TermId,
    /// The arguments: of an extractor the value that it takes apart.
    pub args: Vec<Value>,
    /// Whether the call is made for more than its result, and so is listed.
    pub impure: bool,
}

impl Drop for AskedCall {
    fn drop(self) {
        let Self {
            side: _,
            term: _,
            args: _,
            impure: _,
        } = self;
    }
}

/// A call as text, as a file of answers writes it.
pub fn asked_text(
    alloc: Global,
    lowered: &Lowered,
    asked: &AskedCall,
) -> Result<String, AllocError> {
    let mut text = String::new(alloc);
    if asked.side == Side::Extractor && is_made(lowered, asked.term) {
        text.push_str("extract ")?;
    }
    let name = term_name(&lowered.tyenv, &lowered.termenv, asked.term);
    push_composed(&mut text, lowered, name, &asked.args)?;
    Ok(text)
}

// Whether a term has a constructor.
fn is_made(lowered: &Lowered, term: TermId) -> bool {
    match lowered.termenv.terms.get(term.index()) {
        Some(term) => has_constructor(term),
        None => false,
    }
}

/// Whether a declared term has a constructor.
pub fn has_constructor(term: &Term) -> bool {
    match &term.kind {
        TermKind::Decl {
            constructor_kind,
            ..
        } => constructor_kind.is_some(),
        TermKind::EnumVariant { .. } | TermKind::Struct => false,
    }
}

/// Whether a declared term has an extractor that is called: one that isn't replaced by its template.
pub fn has_extractor(term: &Term, expand: bool) -> bool {
    match &term.kind {
        TermKind::Decl { extractor_kind, .. } => match extractor_kind {
            Some(ExtractorKind::ExternalExtractor { .. }) => true,
            Some(ExtractorKind::InternalExtractor { .. }) => !expand,
            None => false,
        },
        TermKind::EnumVariant { .. } | TermKind::Struct => false,
    }
}

/// How many answers a call may have.
#[derive(Clone, Copy, PartialEq, Eq)]
pub enum Count {
    /// Exactly one.
    One,
    /// One or none.
    Optional,
    /// Any number.
    Many,
}

/// How many answers the constructor or the extractor of a term may have.
pub fn count_of(term: &Term, side: Side) -> Count {
    match &term.kind {
        TermKind::Decl {
            flags,
            extractor_kind,
            ..
        } => match side {
            Side::Constructor => count_by(*flags, flags.partial),
            Side::Extractor => count_by(*flags, !is_infallible(extractor_kind)),
        },
        TermKind::EnumVariant { .. } | TermKind::Struct => Count::One,
    }
}

fn count_by(flags: TermFlags, optional: bool) -> Count {
    if flags.multi {
        Count::Many
    } else if optional {
        Count::Optional
    } else {
        Count::One
    }
}

// Whether an extractor always answers.
fn is_infallible(extractor: &Option<ExtractorKind>) -> bool {
    match extractor {
        Some(ExtractorKind::ExternalExtractor { infallible, .. }) => *infallible,
        Some(ExtractorKind::InternalExtractor { .. }) | None => false,
    }
}
