//! The parts of a list, one after another: what comes next, and that nothing does.
#![tactic(auto, using(crate::proofs::Rows::form_parts))]

ghost use Rattle.std.specs.Prelude.{◌≡◌, MatchResult, map, ⊤};
ghost use Rattle.core_syntax.specs.SyntaxViews.{name_view, position};
ghost use Rattle.text_reader.specs.Faults.{FaultIsWithin};
ghost use Rattle.text_reader.specs.Forms.{FormIsWithin, FormsAreWithin, IdentIsWithin, IdentsAreWithin, PosIsWithin};
ghost use Rattle.text_reader.specs.FormViews.{all_view, form_view, parts_view};
ghost use Rattle.text_reader.specs.Grammar.{ended, head_of, headed_of, list_of, name_of, names_of, next_if_of, next_name_of, next_of, word_at};
ghost use Rattle.text_reader.specs.Lists.{PartsAreWithin};
ghost use Rattle.text_reader.specs.Views.{Gives};

use crate::errors::{Mistake, ReadFault, fault};
use crate::forms::TextForm;
use crate::source::Source;
use core_syntax::syntax::{Ident, Pos};

/// A list of a text: the parts that are left to read.
#[derive(Clone, Copy)]
pub struct Parts<'a> {
    pub forms: &'a [TextForm],
    /// Where the list begins.
    pub pos: Pos,
    /// Where it ends.
    pub end: Pos,
}

/// The next part and the list after it. Where the list ends, the mistake stands at its end.
pub fn next<'a>(
    at: Source,
    parts: Parts<'a>,
    mistake: Mistake,
) -> Result<(&'a TextForm, Parts<'a>), ReadFault>
    requires { PartsAreWithin at.file at.len parts }
    ensures read { Gives (λ p. (form_view p.0.now, parts_view p.1)) result (next_of mistake (parts_view parts.entry)) }
    ensures within { MatchResult result
        (λ p. FormIsWithin at.file at.len p.0.now × PartsAreWithin at.file at.len p.1)
        (FaultIsWithin at.file at.len) }
{
    match parts.forms {
        [first, rest @ ..] => Ok((
            first,
            Parts {
                forms: rest,
                ..parts
            },
        )),
        [] => Err(fault(mistake, parts.end)),
    }
}

/// The next part, a name, and the list after it.
pub fn next_name<'a>(at: Source, parts: Parts<'a>) -> Result<(Ident, Parts<'a>), ReadFault>
    requires { PartsAreWithin at.file at.len parts }
    ensures read { Gives (λ p. (name_view p.0, parts_view p.1)) result (next_name_of (parts_view parts.entry)) }
    ensures within { MatchResult result
        (λ p. IdentIsWithin at.file at.len p.0 × PartsAreWithin at.file at.len p.1)
        (FaultIsWithin at.file at.len) }
{
    let (form, rest) = next(at, parts, Mistake::Name)?;
    Ok((name(at, form)?, rest))
}

/// The name that a form is.
pub fn name(at: Source, form: &TextForm) -> Result<Ident, ReadFault>
    requires { FormIsWithin at.file at.len form.now }
    ensures read { Gives name_view result (name_of (form_view form.now)) }
    ensures within { MatchResult result (IdentIsWithin at.file at.len) (FaultIsWithin at.file at.len) }
{
    match form {
        TextForm::Word(name) => Ok(name.clone()?),
        _ => Err(fault(Mistake::Name, form.pos())),
    }
}

/// The name that a list begins with.
pub fn head(at: Source, forms: &[TextForm], end: Pos) -> Result<Ident, ReadFault>
    requires forms { FormsAreWithin at.file at.len forms.now }
    requires end { PosIsWithin at.file at.len end }
    ensures read { Gives name_view result (head_of (all_view forms.now) (position end)) }
    ensures within { MatchResult result (IdentIsWithin at.file at.len) (FaultIsWithin at.file at.len) }
{
    match forms {
        [first, ..] => name(at, first),
        [] => Err(fault(Mistake::Name, end)),
    }
}

/// Does nothing. Called before a call that goes down a form, so that what that one requires of the parts is known beside what
/// makes the recursion end.
pub fn seen(at: Source, forms: &[TextForm])
    requires { FormsAreWithin at.file at.len forms.now }
    ensures { FormsAreWithin at.file at.len forms.now }
{
    let _ = (at.len, forms.len());
}

/// Whether the next part is this word, and the list after it; or all of the list, where it isn't.
pub fn next_if<'a>(at: Source, parts: Parts<'a>, word: &str) -> (bool, Parts<'a>)
    requires { PartsAreWithin at.file at.len parts }
    ensures read { (result.0, parts_view result.1) ≡ next_if_of word.now (parts_view parts.entry) }
    ensures within { PartsAreWithin at.file at.len result.1 }
{
    match parts.forms {
        [TextForm::Word(name), rest @ ..] if name.0.as_str() == word => (
            true,
            Parts {
                forms: rest,
                ..parts
            },
        ),
        _ => (false, parts),
    }
}

/// Nothing comes next.
pub fn no_more(at: Source, parts: Parts<'_>) -> Result<(), ReadFault>
    requires { PartsAreWithin at.file at.len parts }
    ensures read { Gives (λ _. tt) result (ended (all_view parts.entry.forms.now)) }
    ensures within { MatchResult result (λ _. ⊤) (FaultIsWithin at.file at.len) }
{
    match parts.forms {
        [] => Ok(()),
        [first, ..] => Err(fault(Mistake::End, first.pos())),
    }
}

/// The list that a form is.
pub fn list<'a>(at: Source, form: &'a TextForm, mistake: Mistake) -> Result<Parts<'a>, ReadFault>
    requires { FormIsWithin at.file at.len form.now }
    ensures read { Gives parts_view result (list_of mistake (form_view form.now)) }
    ensures within { MatchResult result (PartsAreWithin at.file at.len) (FaultIsWithin at.file at.len) }
{
    match form {
        TextForm::Group(forms, pos, end) => Ok(Parts {
            forms,
            pos: *pos,
            end: *end,
        }),
        _ => Err(fault(mistake, form.pos())),
    }
}

/// The word that a list begins with, and the list after it.
pub fn headed<'a>(
    at: Source,
    form: &'a TextForm,
    mistake: Mistake,
) -> Result<(&'a Ident, Parts<'a>), ReadFault>
    requires { FormIsWithin at.file at.len form.now }
    ensures read { Gives (λ p. (name_view p.0.now, parts_view p.1)) result (headed_of mistake (form_view form.now)) }
    ensures within { MatchResult result
        (λ p. IdentIsWithin at.file at.len p.0.now × PartsAreWithin at.file at.len p.1)
        (FaultIsWithin at.file at.len) }
{
    let parts = list(at, form, mistake)?;
    match parts.forms {
        [first, rest @ ..] => Ok((
            word(at, first, mistake, parts.pos)?,
            Parts {
                forms: rest,
                ..parts
            },
        )),
        [] => Err(fault(mistake, parts.pos)),
    }
}

// The word that a form is; else there is a mistake at this position.
fn word<'a>(
    at: Source,
    form: &'a TextForm,
    mistake: Mistake,
    pos: Pos,
) -> Result<&'a Ident, ReadFault>
    requires form { FormIsWithin at.file at.len form.now }
    requires pos { PosIsWithin at.file at.len pos }
    ensures read { Gives (λ w. name_view w.now) result (word_at mistake (position pos) (form_view form.now)) }
    ensures within { MatchResult result (λ w. IdentIsWithin at.file at.len w.now) (FaultIsWithin at.file at.len) }
{
    match form {
        TextForm::Word(word) => Ok(word),
        _ => Err(fault(mistake, pos)),
    }
}

/// The names that forms are.
pub fn names(at: Source, forms: &[TextForm]) -> Result<Vec<Ident>, ReadFault>
    requires { FormsAreWithin at.file at.len forms.now }
    ensures read { Gives (λ ns. map name_view ns.items) result (names_of (all_view forms.now)) }
    ensures within { MatchResult result (λ ns. IdentsAreWithin at.file at.len ns.items) (FaultIsWithin at.file at.len) }
{
    let mut names = Vec::new(at.alloc);
    for form in forms {
        names.push(name(at, form)?)?;
    }
    Ok(names)
}
