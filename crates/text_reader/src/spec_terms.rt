//! Specs of terms.

ghost use Rattle.std.specs.Prelude.{OnErr, Ok};
ghost use Rattle.core_syntax.specs.SyntaxViews.{name_view};
ghost use Rattle.text_reader.specs.Forms.{FormIsWithin, FormsAreWithin};
ghost use Rattle.text_reader.specs.FormViews.{all_view, form_view, parts_view};
ghost use Rattle.text_reader.specs.Lists.{PartsAreWithin};
ghost use Rattle.text_reader.specs.Views.{Gives};
ghost use Rattle.text_reader.specs.SpecViews.{exprs_view, modifies_view, spec_view};
ghost use Rattle.text_reader.specs.TermSpecGrammar.{modifies_of, once_of, spec_of, with_part_of, with_parts_of, with_section};

use crate::errors::{Mistake, ReadFault, fault};
use crate::forms::TextForm;
use crate::parts::{Parts, headed, next, next_name, no_more};
use crate::pieces::name_use;
use crate::source::Source;
use crate::spec_expressions::{expressions, is_empty};
use crate::syntax::{Modifies, Spec, SpecExpr};
use core_syntax::syntax::Ident;

/// The spec with these parts after its head.
pub fn spec(at: Source, parts: Parts<'_>) -> Result<Spec, ReadFault>
    requires { PartsAreWithin at.file at.len parts }
    ensures { Gives spec_view result (spec_of (parts_view parts.entry)) }
{
    let (form, rest) = next(at, parts, Mistake::Names)?;
    let (term, args) = name_use(at, form)?;
    let begun = Spec {
        term,
        args,
        provides: None,
        required: None,
        matches: None,
        modifies: Vec::new(at.alloc),
        pos: parts.pos,
    };
    with_parts(at, begun, rest.forms)
}

fn with_parts(at: Source, begun: Spec, forms: &[TextForm]) -> Result<Spec, ReadFault>
    requires { FormsAreWithin at.file at.len forms.now }
    ensures { Gives spec_view result (with_parts_of (spec_view begun) (all_view forms.now)) }
{
    let mut spec = begun;
    for form in forms {
        add_part(at, &mut spec, form)?;
    }
    Ok(spec)
}

fn add_part(at: Source, spec: &mut Spec, form: &TextForm) -> Result<(), ReadFault>
    requires { FormIsWithin at.file at.len form.now }
    ensures { Gives (λ _. spec_view spec.new) result (with_part_of (spec_view spec.old) (form_view form.now)) }
{
    let (head, rest) = headed(at, form, Mistake::SpecPart)?;
    add_section(at, spec, head, rest)
}

fn add_section(at: Source, spec: &mut Spec, head: &Ident, parts: Parts<'_>) -> Result<(), ReadFault>
    requires { PartsAreWithin at.file at.len parts }
    ensures { Gives (λ _. spec_view spec.new) result (with_section (spec_view spec.old) (name_view head.now) (parts_view parts.entry)) }
{
    match head.0.as_str() {
        "provide" => add_once(at, &mut spec.provides, parts),
        "require" => add_once(at, &mut spec.required, parts),
        "match" => add_once(at, &mut spec.matches, parts),
        "modifies" => {
            spec.modifies.push(modifies(at, parts)?)?;
            Ok(())
        }
        _ => Err(fault(Mistake::SpecPart, parts.pos)),
    }
}

// Reads the expressions of a part that a spec has once.
fn add_once(
    at: Source,
    exprs: &mut Option<Vec<SpecExpr>>,
    parts: Parts<'_>,
) -> Result<(), ReadFault>
    requires { PartsAreWithin at.file at.len parts }
    ensures { Gives (λ _. exprs_view exprs.new) result (once_of (exprs_view exprs.old) (parts_view parts.entry)) }
{
    if let Some(_) = exprs {
        return Err(fault(Mistake::OtherSpecPart, parts.pos));
    }
    *exprs = Some(expressions(at, parts.forms)?);
    Ok(())
}

// `STATE` or `STATE COND`, after `modifies`.
fn modifies(at: Source, parts: Parts<'_>) -> Result<Modifies, ReadFault>
    requires { PartsAreWithin at.file at.len parts }
    ensures { Gives modifies_view result (modifies_of (parts_view parts.entry)) }
{
    let (state, rest) = next_name(at, parts)?;
    if is_empty(rest.forms) {
        return Ok(Modifies {
            state,
            cond: None,
            pos: parts.pos,
        });
    }
    let (cond, rest) = next_name(at, rest)?;
    no_more(at, rest)?;
    Ok(Modifies {
        state,
        cond: Some(cond),
        pos: parts.pos,
    })
}
