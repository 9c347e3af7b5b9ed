//! Forms to patterns.
#![tactic(auto, using(crate::proofs::Rows::pattern_parts))]

ghost use Rattle.std.specs.Prelude.{◌≡◌, All, MatchResult, Ok};
ghost use Rattle.model.specs.lists.Syntax.{bind_pattern};
ghost use Rattle.core_syntax.specs.SyntaxViews.{name_view, pattern_view, pattern_views, position};
ghost use Rattle.text_reader.specs.Faults.{FaultIsWithin};
ghost use Rattle.text_reader.specs.Forms.{FormIsWithin, FormsAreWithin, IdentIsWithin, PosIsWithin};
ghost use Rattle.text_reader.specs.Lists.{PartsAreWithin};
ghost use Rattle.text_reader.specs.Within.{PatternIsWithin};
ghost use Rattle.text_reader.specs.FormViews.{all_view, form_view, parts_view};
ghost use Rattle.text_reader.specs.PatternGrammar.{arguments_of, list_pattern_of, macro_arg_of, pattern_of, term_pattern_of, word_pattern_of};
ghost use Rattle.text_reader.specs.Views.{Gives};

use crate::errors::{Mistake, ReadFault, fault};
use crate::forms::TextForm;
use crate::parts::{Parts, head, next, no_more, seen};
use crate::source::Source;
use core_syntax::syntax::{Ident, Pattern, Pos};

/// The pattern that a form is.
#[cycle(pattern)]
pub fn pattern(at: Source, form: &TextForm) -> Result<Pattern, ReadFault>
    requires { FormIsWithin at.file at.len form.now }
    ensures read { Gives pattern_view result (pattern_of (form_view form.now)) }
    ensures within { MatchResult result (λ p. PatternIsWithin at.file at.len (pattern_view p)) (FaultIsWithin at.file at.len) }
{
    match form {
        TextForm::Word(name) => word_pattern(at, name),
        TextForm::Number(val, pos) => Ok(Pattern::ConstInt {
            val: *val,
            pos: *pos,
        }),
        TextForm::Constant(name, pos) => Ok(Pattern::ConstPrim {
            val: name.clone()?,
            pos: *pos,
        }),
        TextForm::Bound(name, of) => bound(at, name, pattern(at, of)?),
        TextForm::Group(forms, pos, end) => {
            let forms: &[TextForm] = forms;
            seen(at, forms);
            let sym = head(at, forms, *end)?;
            let args = arguments(at, forms)?;
            let parts = Parts {
                forms,
                pos: *pos,
                end: *end,
            };
            list_pattern(at, parts, sym, args)
        }
    }
}

// The patterns that a list's parts after its head are.
#[cycle(pattern)]
fn arguments(at: Source, forms: &[TextForm]) -> Result<Vec<Pattern>, ReadFault>
    requires { FormsAreWithin at.file at.len forms.now }
    ensures read { Gives (λ ps. pattern_views ps.items) result (arguments_of (all_view forms.now)) }
    ensures within { MatchResult result (λ ps. All (λ p. PatternIsWithin at.file at.len (pattern_view p)) ps.items) (FaultIsWithin at.file at.len) }
{
    let mut patterns = Vec::new(at.alloc);
    for i in 1..forms.len() {
        patterns.push(pattern(at, &forms[i])?)?;
    }
    Ok(patterns)
}

// The pattern that a list with this head is, given the patterns of its other parts.
fn list_pattern(
    at: Source,
    parts: Parts<'_>,
    sym: Ident,
    args: Vec<Pattern>,
) -> Result<Pattern, ReadFault>
    requires parts { PartsAreWithin at.file at.len parts }
    requires sym { IdentIsWithin at.file at.len sym }
    requires args { All (λ p. PatternIsWithin at.file at.len (pattern_view p)) args.items }
    ensures read { Gives pattern_view result (list_pattern_of (name_view sym) (pattern_views args.items) (parts_view parts.entry)) }
    ensures within { MatchResult result (λ p. PatternIsWithin at.file at.len (pattern_view p)) (FaultIsWithin at.file at.len) }
{
    if sym.0.as_str() == "macro-arg" {
        return macro_arg(at, parts);
    }
    Ok(term(at, sym, args, parts.pos))
}

// A name that is bound to what a pattern matches.
fn bound(at: Source, name: &Ident, of: Pattern) -> Result<Pattern, ReadFault>
    requires name { IdentIsWithin at.file at.len name.now }
    requires of { PatternIsWithin at.file at.len (pattern_view of) }
    ensures read { Gives pattern_view result (Ok (bind_pattern (name_view name.now) (pattern_view of) (position name.now.1))) }
    ensures within { MatchResult result (λ p. PatternIsWithin at.file at.len (pattern_view p)) (FaultIsWithin at.file at.len) }
{
    let pos = name.1;
    Ok(Pattern::BindPattern {
        var: name.clone()?,
        subpat: Box::new(at.alloc, of)?,
        pos,
    })
}

// A term's pattern, or one for all of these.
fn term(at: Source, sym: Ident, args: Vec<Pattern>, pos: Pos) -> Pattern
    requires sym { IdentIsWithin at.file at.len sym }
    requires args { All (λ p. PatternIsWithin at.file at.len (pattern_view p)) args.items }
    requires pos { PosIsWithin at.file at.len pos }
    ensures read { pattern_view result ≡ term_pattern_of (name_view sym) (pattern_views args.items) (position pos) }
    ensures within { PatternIsWithin at.file at.len (pattern_view result) }
{
    if sym.0.as_str() == "and" {
        return Pattern::And { subpats: args, pos };
    }
    Pattern::Term { sym, args, pos }
}

fn word_pattern(at: Source, word: &Ident) -> Result<Pattern, ReadFault>
    requires { IdentIsWithin at.file at.len word.now }
    ensures read { Gives pattern_view result (Ok (word_pattern_of (name_view word.now))) }
    ensures within { MatchResult result (λ p. PatternIsWithin at.file at.len (pattern_view p)) (FaultIsWithin at.file at.len) }
{
    let pos = word.1;
    match word.0.as_str() {
        "_" => Ok(Pattern::Wildcard { pos }),
        "true" => Ok(Pattern::ConstBool { val: true, pos }),
        "false" => Ok(Pattern::ConstBool { val: false, pos }),
        _ => Ok(Pattern::Var {
            var: word.clone()?,
            pos,
        }),
    }
}

// The argument of a template: the list's second part is its number.
fn macro_arg(at: Source, parts: Parts<'_>) -> Result<Pattern, ReadFault>
    requires { PartsAreWithin at.file at.len parts }
    ensures read { Gives pattern_view result (macro_arg_of (parts_view parts.entry)) }
    ensures within { MatchResult result (λ p. PatternIsWithin at.file at.len (pattern_view p)) (FaultIsWithin at.file at.len) }
{
    let (_, rest) = next(at, parts, Mistake::Name)?;
    let (form, rest) = next(at, rest, Mistake::Index)?;
    no_more(at, rest)?;
    let TextForm::Number(n, at_number) = form else {
        return Err(fault(Mistake::Index, form.pos()));
    };
    match usize::try_from(*n) {
        Ok(index) => Ok(Pattern::MacroArg {
            index,
            pos: parts.pos,
        }),
        Err(_) => Err(fault(Mistake::Index, *at_number)),
    }
}
