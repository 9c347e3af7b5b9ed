//! The line that names the terms whose calls are answered by echoes.

ghost use Rattle.std.specs.Prelude.{◌≡◌, ◌++◌, ◌==◌, map, codes, string_bytes, IfOk, OnOk};
ghost use Rattle.std.specs.List.{list_any};
ghost use Rattle.cranelift_isle.specs.SiteViews.{site_view, site_views};
ghost use Rattle.report_traces.specs.EchoedTerms.{called_at, each_name, echoed_words, with_site, with_term};
ghost use Rattle.report_traces.specs.OutcomeTexts.{names_in};

use crate::outcomes::name_or_mark;
use cranelift_isle::lower::Lowered;
use cranelift_isle::sema::TermId;
use cranelift_isle::trie_again::Binding;
use report_queries::names::term_name;
use std::alloc::{AllocError, Global};

/// Adds the line that names the terms which sites call, where echoes answer: each once, in the order of the sites. If they call
/// nothing, there is no line.
///
/// # Errors
///
/// Where memory is refused.
pub fn push_echoed(out: &mut String, lowered: &Lowered, sites: &[Binding]) -> Result<(), AllocError>
    ensures { OnOk result (string_bytes out.new
        ≡ string_bytes out.old ++ echoed_words (names_in lowered.now) (called_at (site_views sites.now))) }
{
    let terms = terms_called(*out.allocator(), sites)?;
    push_line(out, lowered, &terms)
}

// The terms that sites call.
fn terms_called(alloc: Global, sites: &[Binding]) -> Result<Vec<TermId>, AllocError>
    ensures { IfOk result (λ terms. map (λ t. t.0) terms.items ≡ called_at (site_views sites.now)) }
{
    let mut terms = Vec::new(alloc);
    for site in sites {
        push_site(&mut terms, site)?;
    }
    Ok(terms)
}

// Adds the term that a site calls.
fn push_site(terms: &mut Vec<TermId>, site: &Binding) -> Result<(), AllocError>
    ensures { OnOk result (map (λ t. t.0) terms.new.items ≡ with_site (map (λ t. t.0) terms.old.items) (site_view site.now)) }
{
    match site {
        Binding::Extractor { term, .. } | Binding::Constructor { term, .. } => {
            push_term(terms, *term)
        }
        _ => Ok(()),
    }
}

// Adds a term, unless it is there already.
fn push_term(terms: &mut Vec<TermId>, term: TermId) -> Result<(), AllocError>
    ensures { OnOk result (map (λ t. t.0) terms.new.items ≡ with_term (map (λ t. t.0) terms.old.items) term.0) }
{
    if is_among(terms, term) {
        return Ok(());
    }
    terms.push(term)?;
    Ok(())
}

fn is_among(terms: &[TermId], term: TermId) -> bool
    ensures { result ≡ list_any (λ other. other.0 == term.0) terms.now }
{
    terms.iter().any(|other| other.index() == term.index())
}

fn push_line(out: &mut String, lowered: &Lowered, terms: &[TermId]) -> Result<(), AllocError>
    ensures { OnOk result (string_bytes out.new ≡ string_bytes out.old ++ echoed_words (names_in lowered.now) (map (λ t. t.0) terms.now)) }
{
    if terms.is_empty() {
        return Ok(());
    }
    out.push_str("echoed calls:")?;
    push_each_name(out, lowered, terms)?;
    out.push_str(" (docs/RUNNING.md)\n")
}

// Adds the names of terms, a space before each.
fn push_each_name(out: &mut String, lowered: &Lowered, terms: &[TermId]) -> Result<(), AllocError>
    ensures { OnOk result (string_bytes out.new ≡ string_bytes out.old ++ each_name (names_in lowered.now) (map (λ t. t.0) terms.now)) }
{
    for term in terms {
        push_name(out, lowered, *term)?;
    }
    Ok(())
}

fn push_name(out: &mut String, lowered: &Lowered, term: TermId) -> Result<(), AllocError>
    ensures { OnOk result (string_bytes out.new ≡ string_bytes out.old ++ (codes " " ++ (names_in lowered.now).term term.0)) }
{
    let name = term_name(&lowered.tyenv, &lowered.termenv, term);
    out.push_str(" ")?;
    out.push_str(name_or_mark(name))
}
