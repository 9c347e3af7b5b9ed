//! Whether internal extractors were expanded: code has no function for them.

ghost use Rattle.std.specs.Prelude.{◌≡◌, None, IfErr, IfOk, OnOk, option_map, string_bytes};
ghost use Rattle.core_rule_sets.specs.SiteViews.{site_view, site_views};
ghost use Rattle.core_terms.specs.TermViews.{kind_view, term_view, term_views};
ghost use Rattle.core_types.specs.Envs.{names_of};
ghost use Rattle.model.specs.lists.Signatures.{text_of};
ghost use Rattle.rust_items.specs.Faults.{TellsOf};
ghost use Rattle.rust_text.specs.Expanded.{TellsInside, called_inside, first_inside, inside_kind, inside_text, lowered_sites, term_inside};

use cranelift_isle::lower::LoweredTerm;
use cranelift_isle::sema::{ExtractorKind, Sym, Term, TermKind};
use cranelift_isle::trie_again::Binding;
use rust_items::options::CodeError;
use rust_items::program::Program;
use std::alloc::{AllocError, Global};

/// Looks for a call of an internal extractor.
pub(crate) fn check_expanded(program: Program<'_>, lowered: &[LoweredTerm]) -> Result<(), CodeError>
    ensures expanded { OnOk result (first_inside (term_views program.entry.terms.now) (lowered_sites lowered.now) ≡ None) }
    ensures told { IfErr result (λ e. TellsOf e (TellsInside (names_of program.entry.tyenv.now) (term_views program.entry.terms.now) (lowered_sites lowered.now))) }
{
    match first_inside(program.terms, lowered) {
        Some(name) => {
            let why = inside_text(program.alloc, program.tyenv.text_of(name))?;
            Err(CodeError::Names(why))
        }
        None => Ok(()),
    }
}

// The name of the first internal extractor that is called.
fn first_inside(terms: &[Term], lowered: &[LoweredTerm]) -> Option<Sym>
    ensures { option_map (λ s. s.0) result ≡ first_inside (term_views terms.now) (lowered_sites lowered.now) }
{
    for of in lowered {
        if let Some(name) = first_of_set(terms, &of.rules.bindings) {
            return Some(name);
        }
    }
    None
}

fn first_of_set(terms: &[Term], sites: &[Binding]) -> Option<Sym>
    ensures { option_map (λ s. s.0) result ≡ first_inside (term_views terms.now) (site_views sites.now) }
{
    for site in sites {
        if let Some(name) = called_inside(terms, site) {
            return Some(name);
        }
    }
    None
}

// The name of the internal extractor that a site calls.
fn called_inside(terms: &[Term], site: &Binding) -> Option<Sym>
    ensures { option_map (λ s. s.0) result ≡ called_inside (term_views terms.now) (site_view site.now) }
{
    if let Binding::Extractor { term, .. } = site {
        return term_inside(terms.get(term.index()));
    }
    None
}

// The name of a term with an internal extractor.
fn term_inside(term: Option<&Term>) -> Option<Sym>
    ensures { option_map (λ s. s.0) result ≡ term_inside (option_map (λ t. term_view t.now) term.entry) }
{
    match term {
        Some(term) => {
            if is_inside(&term.kind) {
                Some(term.name)
            } else {
                None
            }
        }
        None => None,
    }
}

fn is_inside(kind: &TermKind) -> bool
    ensures { result ≡ inside_kind (kind_view kind.now) }
{
    match kind {
        TermKind::EnumVariant { .. } => false,
        TermKind::Struct => false,
        TermKind::Decl { extractor_kind, .. } => match extractor_kind {
            Some(ExtractorKind::InternalExtractor { .. }) => true,
            Some(ExtractorKind::ExternalExtractor { .. }) => false,
            None => false,
        },
    }
}

fn inside_text(alloc: Global, name: &str) -> Result<String, AllocError>
    ensures { IfOk result (λ text. string_bytes text ≡ inside_text name.now) }
{
    format!(in alloc; "the internal extractor `{name}` isn't expanded")
}
