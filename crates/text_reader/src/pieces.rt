//! Lists of a text: those that begin with a word, their last parts, and names with their arguments.

ghost use Rattle.std.specs.Prelude.{IfOk, map};
ghost use Rattle.core_syntax.specs.SyntaxViews.{name_view};
ghost use Rattle.text_reader.specs.Forms.{FormIsWithin};
ghost use Rattle.text_reader.specs.FormViews.{form_view, parts_view};
ghost use Rattle.text_reader.specs.Lists.{PartsAreWithin};
ghost use Rattle.text_reader.specs.Views.{Gives};
ghost use Rattle.text_reader.specs.SpecGrammar.{last_of, name_list_of, section_of, use_of};

use crate::errors::{Mistake, ReadFault, fault};
use crate::forms::TextForm;
use crate::parts::{Parts, headed, list, names, next, next_name, no_more};
use crate::source::Source;
use core_syntax::syntax::Ident;

/// What follows this word in the list that a form is. Any other form is the mistake, at its beginning.
pub fn section<'a>(
    at: Source,
    form: &'a TextForm,
    word: &str,
    mistake: Mistake,
) -> Result<Parts<'a>, ReadFault>
    requires { FormIsWithin at.file at.len form.now }
    ensures read { Gives parts_view result (section_of word.now mistake (form_view form.now)) }
    ensures within { IfOk result (PartsAreWithin at.file at.len) }
{
    let (head, rest) = headed(at, form, mistake)?;
    if head.0.as_str() == word {
        return Ok(rest);
    }
    Err(fault(mistake, rest.pos))
}

/// The part that comes next, the list's last.
pub fn last<'a>(at: Source, parts: Parts<'a>, mistake: Mistake) -> Result<&'a TextForm, ReadFault>
    requires { PartsAreWithin at.file at.len parts }
    ensures read { Gives (λ f. form_view f.now) result (last_of mistake (parts_view parts.entry)) }
    ensures within { IfOk result (λ f. FormIsWithin at.file at.len f.now) }
{
    let (form, rest) = next(at, parts, mistake)?;
    no_more(at, rest)?;
    Ok(form)
}

/// A name and the names of its arguments: the list that a form is.
pub fn name_use(at: Source, form: &TextForm) -> Result<(Ident, Vec<Ident>), ReadFault>
    requires { FormIsWithin at.file at.len form.now }
    ensures read { Gives (λ u. (name_view u.0, map name_view u.1.items)) result (use_of (form_view form.now)) }
{
    let (name, rest) = next_name(at, list(at, form, Mistake::Names)?)?;
    let args = names(at, rest.forms)?;
    Ok((name, args))
}

/// The names in the list that a form is.
pub fn name_list(at: Source, form: &TextForm) -> Result<Vec<Ident>, ReadFault>
    requires { FormIsWithin at.file at.len form.now }
    ensures read { Gives (λ ns. map name_view ns.items) result (name_list_of (form_view form.now)) }
{
    names(at, list(at, form, Mistake::Names)?.forms)
}
