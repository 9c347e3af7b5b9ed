//! Forms of signatures, what terms take from them, attributes, states and macros.

ghost use Rattle.std.specs.Prelude.{◌≡◌, map};
ghost use Rattle.core_syntax.specs.SyntaxViews.{name_view, position};
ghost use Rattle.text_reader.specs.Forms.{FormIsWithin, FormsAreWithin};
ghost use Rattle.text_reader.specs.FormViews.{all_view, form_view, parts_view};
ghost use Rattle.text_reader.specs.Lists.{PartsAreWithin};
ghost use Rattle.text_reader.specs.Views.{Gives};
ghost use Rattle.text_reader.specs.SpecGrammar.{attr_kind_of, attr_kinds_of, attr_of, begins_with_word, by_form_of, form_of, instantiation_of, macro_of, signature_of, signatures_of, state_of, veri_of};
ghost use Rattle.text_reader.specs.SpecViews.{attr_kind_view, attr_view, instantiation_view, macro_view, signature_view, signatures_view, state_view};

use crate::errors::{Mistake, ReadFault, fault};
use crate::forms::TextForm;
use crate::models::{last_model, model_types};
use crate::parts::{Parts, headed, list, next, next_if, next_name, no_more};
use crate::pieces::{last, name_use, section};
use crate::source::Source;
use crate::spec_expressions::last_expression;
use crate::syntax;
use crate::syntax::{Attr, AttrKind, Instantiation, Macro, Signature, State};
use core_syntax::syntax::{Ident, Pos};

/// The form of signatures with these parts after its head.
pub fn form_of_signatures(at: Source, parts: Parts<'_>) -> Result<syntax::Form, ReadFault>
    requires { PartsAreWithin at.file at.len parts }
    ensures { Gives signatures_view result (form_of (parts_view parts.entry)) }
{
    let (name, rest) = next_name(at, parts)?;
    let signatures = signatures(at, rest.forms)?;
    Ok(syntax::Form {
        name,
        signatures,
        pos: parts.pos,
    })
}

/// The signatures of a term, with these parts after their head: the name of a form, or signatures.
pub fn instantiation(at: Source, parts: Parts<'_>) -> Result<Instantiation, ReadFault>
    requires { PartsAreWithin at.file at.len parts }
    ensures { Gives instantiation_view result (instantiation_of (parts_view parts.entry)) }
{
    let (term, rest) = next_name(at, parts)?;
    if begins_with_word(rest.forms) {
        return by_form(at, term, rest, parts.pos);
    }
    let signatures = signatures(at, rest.forms)?;
    Ok(Instantiation {
        term,
        form: None,
        signatures,
        pos: parts.pos,
    })
}

fn begins_with_word(forms: &[TextForm]) -> bool
    ensures { result ≡ begins_with_word (all_view forms.now) }
{
    matches!(forms, [TextForm::Word(_), ..])
}

// The signatures of a form that is named.
fn by_form(at: Source, term: Ident, parts: Parts<'_>, pos: Pos) -> Result<Instantiation, ReadFault>
    requires { PartsAreWithin at.file at.len parts }
    ensures { Gives instantiation_view result (by_form_of (name_view term) (parts_view parts.entry) (position pos)) }
{
    let (name, rest) = next_name(at, parts)?;
    no_more(at, rest)?;
    Ok(Instantiation {
        term,
        form: Some(name),
        signatures: Vec::new(at.alloc),
        pos,
    })
}

fn signatures(at: Source, forms: &[TextForm]) -> Result<Vec<Signature>, ReadFault>
    requires { FormsAreWithin at.file at.len forms.now }
    ensures { Gives (λ ss. map signature_view ss.items) result (signatures_of (all_view forms.now)) }
{
    let mut signatures = Vec::new(at.alloc);
    for form in forms {
        signatures.push(signature(at, form)?)?;
    }
    Ok(signatures)
}

// `((args MODEL ..) (ret MODEL) (canon MODEL))`.
fn signature(at: Source, form: &TextForm) -> Result<Signature, ReadFault>
    requires { FormIsWithin at.file at.len form.now }
    ensures { Gives signature_view result (signature_of (form_view form.now)) }
{
    let parts = list(at, form, Mistake::Signature)?;
    let (first, rest) = next(at, parts, Mistake::Signature)?;
    let args = model_types(at, section(at, first, "args", Mistake::Signature)?.forms)?;
    let (second, rest) = next(at, rest, Mistake::Signature)?;
    let ret = last_model(at, section(at, second, "ret", Mistake::Signature)?)?;
    let third = last(at, rest, Mistake::Signature)?;
    let canonical = last_model(at, section(at, third, "canon", Mistake::Signature)?)?;
    Ok(Signature {
        args,
        ret,
        canonical,
        pos: parts.pos,
    })
}

/// The attributes with these parts after their head.
pub fn attributes(at: Source, parts: Parts<'_>) -> Result<Attr, ReadFault>
    requires { PartsAreWithin at.file at.len parts }
    ensures { Gives attr_view result (attr_of (parts_view parts.entry)) }
{
    let (is_rule, rest) = next_if(at, parts, "rule");
    let (name, rest) = next_name(at, rest)?;
    let kinds = attribute_kinds(at, rest.forms)?;
    Ok(Attr {
        is_rule,
        name,
        kinds,
        pos: parts.pos,
    })
}

fn attribute_kinds(at: Source, forms: &[TextForm]) -> Result<Vec<AttrKind>, ReadFault>
    requires { FormsAreWithin at.file at.len forms.now }
    ensures { Gives (λ ks. map attr_kind_view ks.items) result (attr_kinds_of (all_view forms.now)) }
{
    let mut kinds = Vec::new(at.alloc);
    for form in forms {
        kinds.push(attribute_kind(at, form)?)?;
    }
    Ok(kinds)
}

// `(tag NAME)`, `(veri chain)` or `(veri priority)`.
fn attribute_kind(at: Source, form: &TextForm) -> Result<AttrKind, ReadFault>
    requires { FormIsWithin at.file at.len form.now }
    ensures { Gives attr_kind_view result (attr_kind_of (form_view form.now)) }
{
    let (head, rest) = headed(at, form, Mistake::Attribute)?;
    let (name, after) = next_name(at, rest)?;
    no_more(at, after)?;
    match head.0.as_str() {
        "tag" => Ok(AttrKind::Tag(name, rest.pos)),
        "veri" => veri(&name, rest.pos),
        _ => Err(fault(Mistake::Attribute, rest.pos)),
    }
}

// `chain` or `priority`, in the list that begins there.
fn veri(name: &Ident, pos: Pos) -> Result<AttrKind, ReadFault>
    ensures { Gives attr_kind_view result (veri_of (position pos) (name_view name.now)) }
{
    match name.0.as_str() {
        "chain" => Ok(AttrKind::Chain(pos)),
        "priority" => Ok(AttrKind::Priority(pos)),
        _ => Err(fault(Mistake::Attribute, name.1)),
    }
}

/// The state with these parts after its head.
pub fn state(at: Source, parts: Parts<'_>) -> Result<State, ReadFault>
    requires { PartsAreWithin at.file at.len parts }
    ensures { Gives state_view result (state_of (parts_view parts.entry)) }
{
    let (name, rest) = next_name(at, parts)?;
    let (first, rest) = next(at, rest, Mistake::StatePart)?;
    let ty = last_model(at, section(at, first, "type", Mistake::StatePart)?)?;
    let second = last(at, rest, Mistake::StatePart)?;
    let default = last_expression(at, section(at, second, "default", Mistake::StatePart)?)?;
    Ok(State {
        name,
        ty,
        default,
        pos: parts.pos,
    })
}

/// The macro with these parts after its head, which is `spec_macro` or `macro`.
pub fn macro_definition(at: Source, is_spec: bool, parts: Parts<'_>) -> Result<Macro, ReadFault>
    requires { PartsAreWithin at.file at.len parts }
    ensures { Gives macro_view result (macro_of is_spec (parts_view parts.entry)) }
{
    let (form, rest) = next(at, parts, Mistake::Names)?;
    let (name, params) = name_use(at, form)?;
    let body = last_expression(at, rest)?;
    Ok(Macro {
        is_spec,
        name,
        params,
        body,
        pos: parts.pos,
    })
}
