//! The trees of the terms that are wanted, as text.

ghost use Rattle.std.specs.Prelude.{◌≡◌, ◌≤◌, ◌<◌, length, map, option_map, string_bytes, string_len, IfOk};
ghost use Rattle.report_queries.specs.TermTexts.{terms_text};
ghost use Rattle.app_command.specs.TaskAnswers.{AreTrees};
ghost use Rattle.app_command.specs.WantedTerms.{has_term, is_asked, missing_name, name_of, wanted_terms};

use crate::graphs::graph_of;
use crate::progress::Teller;
use app_words::request::Format;
use cranelift_isle::lower::{Lowered, LoweredTerm};
use cranelift_isle::syntax::{Def, Files};
use report_json::documents::document_of_terms;
use report_print::lines::FileLines;
use report_queries::trees::push_tree;
use std::alloc::{AllocError, Global};
use std::io::Write;

/// The terms with rules whose names are asked for, with commas between them: all where none are.
pub(crate) fn wanted<'a>(
    alloc: Global,
    asked: Option<&str>,
    lowered: &'a Lowered,
) -> Result<Vec<&'a LoweredTerm>, AllocError>
    ensures { IfOk result (λ ts. map (λ t. t.now) ts.items ≡ wanted_terms (option_map (λ s. s.now) asked.entry) lowered.now) }
{
    let mut wanted = Vec::new(alloc);
    for term in &lowered.terms {
        if is_asked(asked, term_name(lowered, term)) {
            wanted.push(term)?;
        }
    }
    Ok(wanted)
}

/// The first name that is asked for and that no term with rules has.
pub(crate) fn missing_term<'a>(asked: Option<&'a str>, lowered: &Lowered) -> Option<&'a str>
    ensures { option_map (λ s. s.now) result ≡ missing_name (option_map (λ s. s.now) asked.entry) lowered.now }
{
    match asked {
        Some(names) => names.split(',').find(|name| !has_term(lowered, name)),
        None => None,
    }
}

// Whether a term with rules has a name.
fn has_term(lowered: &Lowered, name: &str) -> bool
    ensures { result ≡ has_term lowered.now name.now }
{
    lowered
        .terms
        .iter()
        .any(|term| term_name(lowered, term) == name)
}

// Whether a name is asked for.
fn is_asked(asked: Option<&str>, name: &str) -> bool
    ensures { result ≡ is_asked (option_map (λ s. s.now) asked.entry) name.now }
{
    match asked {
        Some(names) => names.split(',').any(|other| other == name),
        None => true,
    }
}

fn term_name<'a>(lowered: &'a Lowered, term: &LoweredTerm) -> &'a str
    ensures { result.now ≡ name_of lowered.now term.now }
{
    match lowered.termenv.terms.get(term.id.index()) {
        Some(term) => lowered.tyenv.text_of(term.name),
        None => "",
    }
}

/// The trees of terms, one after another, in a form.
pub(crate) fn text_of_trees<E: Write>(
    alloc: Global,
    format: Format,
    files: &Files,
    defs: &[Def],
    lowered: &Lowered,
    terms: &[&LoweredTerm],
    teller: &mut Teller<'_, E>,
) -> Result<String, AllocError>
    ensures { IfOk result (λ text. AreTrees format files.now lowered.now (map (λ t. t.now) terms.now) (string_bytes text)) }
{
    match format {
        Format::Json => {
            teller.tell("printing", "all terms");
            document_of_terms(alloc, files, defs, lowered, terms)
        }
        Format::Dot => graphs(alloc, files, lowered, terms, teller),
        Format::Text | Format::Line => told(alloc, files, lowered, terms, teller),
    }
}

/// The trees of terms in words, one after another, with the rules that their returns take.
pub(crate) fn told<E: Write>(
    alloc: Global,
    files: &Files,
    lowered: &Lowered,
    terms: &[&LoweredTerm],
    teller: &mut Teller<'_, E>,
) -> Result<String, AllocError>
    ensures { IfOk result (λ text. string_bytes text ≡ terms_text files.now lowered.now (map (λ t. t.now) terms.now)) }
{
    let lines = FileLines::new(alloc, files)?;
    let mut out = String::new(alloc);
    for term in terms {
        teller.tell("printing", term_name(lowered, term));
        push_tree(&mut out, &lines, lowered, term)?;
    }
    Ok(out)
}

// The trees of terms as graphs.
fn graphs<E: Write>(
    alloc: Global,
    files: &Files,
    lowered: &Lowered,
    terms: &[&LoweredTerm],
    teller: &mut Teller<'_, E>,
) -> Result<String, AllocError>
    // none of which is empty
    ensures { IfOk result (λ text. length terms.now ≤ string_len text) }
{
    let lines = FileLines::new(alloc, files)?;
    let mut out = String::new(alloc);
    for term in terms {
        teller.tell("printing", term_name(lowered, term));
        let graph = graph_of(alloc, &lines, lowered, term)?;
        out.push_str(&graph)?;
    }
    Ok(out)
}
