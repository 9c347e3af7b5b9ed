//! Forms to definitions.
#![tactic(auto, using(crate::proofs::Rows::definition_parts))]

ghost use Rattle.std.specs.Prelude.{Err, MatchResult, string_bytes};
ghost use Rattle.core_syntax.specs.SyntaxViews.{definition_view, definition_views, position};
ghost use Rattle.text_reader.specs.Faults.{FaultIsWithin};
ghost use Rattle.text_reader.specs.Forms.{FormIsWithin, FormsAreWithin, IdentIsWithin};
ghost use Rattle.text_reader.specs.Within.{DefinitionsAreWithin, DefinitionIsWithin};
ghost use Rattle.text_reader.specs.FormViews.{all_view, form_view};
ghost use Rattle.text_reader.specs.Definitions.{definition_of, definitions_of};
ghost use Rattle.text_reader.specs.Lexemes.{unknown};
ghost use Rattle.text_reader.specs.Views.{Gives};

use crate::errors::{Mistake, Problem, ReadFault, TextError};
use crate::forms::TextForm;
use crate::heads::is_passed_over;
use crate::parts::headed;
use crate::rules::rule;
use crate::source::Source;
use crate::terms::{conversion, declaration, external, extractor};
use crate::types::type_definition;
use core_syntax::syntax::{Def, Ident};

/// The definitions that forms are.
pub fn definitions(at: Source, forms: &[TextForm]) -> Result<Vec<Def>, ReadFault>
    requires { FormsAreWithin at.file at.len forms.now }
    ensures read { Gives (λ ds. definition_views ds.items) result (definitions_of (all_view forms.now)) }
    ensures within { MatchResult result (λ ds. DefinitionsAreWithin at.file at.len (definition_views ds.items)) (FaultIsWithin at.file at.len) }
{
    let mut defs = Vec::new(at.alloc);
    for form in forms {
        defs.push(definition(at, form)?)?;
    }
    Ok(defs)
}

/// The definition that a form is.
pub fn definition(at: Source, form: &TextForm) -> Result<Def, ReadFault>
    requires { FormIsWithin at.file at.len form.now }
    ensures read { Gives definition_view result (definition_of (form_view form.now)) }
    ensures within { MatchResult result (λ d. DefinitionIsWithin at.file at.len (definition_view d)) (FaultIsWithin at.file at.len) }
{
    let (head, rest) = headed(at, form, Mistake::Definition)?;
    match head.0.as_str() {
        "type" => type_definition(at, rest),
        "decl" => declaration(at, rest),
        "rule" => rule(at, rest),
        "extractor" => extractor(at, rest),
        "extern" => external(at, rest),
        "convert" => conversion(at, rest),
        word if is_passed_over(word) => Ok(Def::Other),
        _ => unknown(at, head),
    }
}

// No definition: a list begins with a word that none begins with.
fn unknown(at: Source, head: &Ident) -> Result<Def, ReadFault>
    requires { IdentIsWithin at.file at.len head.now }
    ensures read { Gives definition_view result (Err (unknown (string_bytes head.now.0), position head.now.1)) }
    ensures within { MatchResult result (λ d. DefinitionIsWithin at.file at.len (definition_view d)) (FaultIsWithin at.file at.len) }
{
    let word = head.0.clone()?;
    Err(ReadFault::Text(TextError {
        problem: Problem::UnknownDefinition(word),
        pos: head.1,
    }))
}
