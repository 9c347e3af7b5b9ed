//! Models: what the values of types stand for.

ghost use Rattle.std.specs.Prelude.{map};
ghost use Rattle.core_syntax.specs.SyntaxViews.{name_view, position};
ghost use Rattle.text_reader.specs.Forms.{FormIsWithin, FormsAreWithin};
ghost use Rattle.text_reader.specs.FormViews.{all_view, form_view, parts_view};
ghost use Rattle.text_reader.specs.Lists.{PartsAreWithin};
ghost use Rattle.text_reader.specs.Views.{Gives};
ghost use Rattle.text_reader.specs.SpecGrammar.{bits_model_in, bits_model_of, last_model_of, list_model_of, model_of, model_type_of, model_types_of, model_value_of, named_model_of, valued_of, variant_value_of, variant_values_of, word_model_of};
ghost use Rattle.text_reader.specs.SpecViews.{model_type_view, model_value_view, model_view, variant_value_view};

use crate::errors::{Mistake, ReadFault, fault};
use crate::forms::TextForm;
use crate::parts::{Parts, headed, list, next_name, no_more};
use crate::pieces::last;
use crate::source::Source;
use crate::spec_expressions::{is_empty, last_expression};
use crate::syntax::{Model, ModelType, ModelValue, VariantValue};
use core_syntax::syntax::{Ident, Pos};

/// The model with these parts after its head.
pub fn model(at: Source, parts: Parts<'_>) -> Result<Model, ReadFault>
    requires { PartsAreWithin at.file at.len parts }
    ensures { Gives model_view result (model_of (parts_view parts.entry)) }
{
    let (name, rest) = next_name(at, parts)?;
    let value = model_value(at, last(at, rest, Mistake::ModelValue)?)?;
    Ok(Model {
        name,
        value,
        pos: parts.pos,
    })
}

// What the values of a type stand for.
fn model_value(at: Source, form: &TextForm) -> Result<ModelValue, ReadFault>
    requires { FormIsWithin at.file at.len form.now }
    ensures { Gives model_value_view result (model_value_of (form_view form.now)) }
{
    let (head, rest) = headed(at, form, Mistake::ModelValue)?;
    match head.0.as_str() {
        "type" => Ok(ModelValue::Type(last_model(at, rest)?)),
        "enum" => Ok(ModelValue::Enum(variant_values(at, rest.forms)?)),
        "const" => Ok(ModelValue::Const(last_expression(at, rest)?)),
        _ => Err(fault(Mistake::ModelValue, rest.pos)),
    }
}

fn variant_values(at: Source, forms: &[TextForm]) -> Result<Vec<VariantValue>, ReadFault>
    requires { FormsAreWithin at.file at.len forms.now }
    ensures { Gives (λ vs. map variant_value_view vs.items) result (variant_values_of (all_view forms.now)) }
{
    let mut values = Vec::new(at.alloc);
    for form in forms {
        values.push(variant_value(at, form)?)?;
    }
    Ok(values)
}

// `NAME` or `(NAME EXPRESSION)`.
fn variant_value(at: Source, form: &TextForm) -> Result<VariantValue, ReadFault>
    requires { FormIsWithin at.file at.len form.now }
    ensures { Gives variant_value_view result (variant_value_of (form_view form.now)) }
{
    match form {
        TextForm::Word(name) => Ok(VariantValue {
            name: name.clone()?,
            value: None,
            pos: name.1,
        }),
        _ => valued(at, form),
    }
}

// `(NAME EXPRESSION)`.
fn valued(at: Source, form: &TextForm) -> Result<VariantValue, ReadFault>
    requires { FormIsWithin at.file at.len form.now }
    ensures { Gives variant_value_view result (valued_of (form_view form.now)) }
{
    let parts = list(at, form, Mistake::Variant)?;
    let (name, rest) = next_name(at, parts)?;
    let value = last_expression(at, rest)?;
    Ok(VariantValue {
        name,
        value: Some(value),
        pos: parts.pos,
    })
}

/// The types that forms are.
pub fn model_types(at: Source, forms: &[TextForm]) -> Result<Vec<ModelType>, ReadFault>
    requires { FormsAreWithin at.file at.len forms.now }
    ensures { Gives (λ ts. map model_type_view ts.items) result (model_types_of (all_view forms.now)) }
{
    let mut types = Vec::new(at.alloc);
    for form in forms {
        types.push(model_type(at, form)?)?;
    }
    Ok(types)
}

/// The type that is a list's last part.
pub fn last_model(at: Source, parts: Parts<'_>) -> Result<ModelType, ReadFault>
    requires { PartsAreWithin at.file at.len parts }
    ensures { Gives model_type_view result (last_model_of (parts_view parts.entry)) }
{
    model_type(at, last(at, parts, Mistake::ModelType)?)
}

/// The type that a form is.
pub fn model_type(at: Source, form: &TextForm) -> Result<ModelType, ReadFault>
    requires { FormIsWithin at.file at.len form.now }
    ensures { Gives model_type_view result (model_type_of (form_view form.now)) }
{
    match form {
        TextForm::Word(name) => word_model(name),
        _ => list_model(at, form),
    }
}

// `Int`, `Bool` or `Unit`.
fn word_model(word: &Ident) -> Result<ModelType, ReadFault>
    ensures { Gives model_type_view result (word_model_of (name_view word.now)) }
{
    let pos = word.1;
    match word.0.as_str() {
        "Int" => Ok(ModelType::Int(pos)),
        "Bool" => Ok(ModelType::Bool(pos)),
        "Unit" => Ok(ModelType::Unit(pos)),
        _ => Err(fault(Mistake::ModelType, pos)),
    }
}

// `(bv)`, `(bv INT)` or `(named TYPE)`.
fn list_model(at: Source, form: &TextForm) -> Result<ModelType, ReadFault>
    requires { FormIsWithin at.file at.len form.now }
    ensures { Gives model_type_view result (list_model_of (form_view form.now)) }
{
    let (head, rest) = headed(at, form, Mistake::ModelType)?;
    match head.0.as_str() {
        "bv" => bits_model(at, rest),
        "named" => named_model(at, rest),
        _ => Err(fault(Mistake::ModelType, rest.pos)),
    }
}

// Nothing or a width, after `bv`.
fn bits_model(at: Source, parts: Parts<'_>) -> Result<ModelType, ReadFault>
    requires { PartsAreWithin at.file at.len parts }
    ensures { Gives model_type_view result (bits_model_of (parts_view parts.entry)) }
{
    if is_empty(parts.forms) {
        return Ok(ModelType::BitVec(None, parts.pos));
    }
    bits_of_width(last(at, parts, Mistake::Width)?, parts.pos)
}

// Bit vectors of a width, in the list that begins there.
fn bits_of_width(form: &TextForm, pos: Pos) -> Result<ModelType, ReadFault>
    ensures { Gives model_type_view result (bits_model_in (form_view form.now) (position pos)) }
{
    let TextForm::Number(n, place) = form else {
        return Err(fault(Mistake::Width, form.pos()));
    };
    match usize::try_from(*n) {
        Ok(width) => Ok(ModelType::BitVec(Some(width), pos)),
        Err(_) => Err(fault(Mistake::Width, *place)),
    }
}

// A type's name, after `named`.
fn named_model(at: Source, parts: Parts<'_>) -> Result<ModelType, ReadFault>
    requires { PartsAreWithin at.file at.len parts }
    ensures { Gives model_type_view result (named_model_of (parts_view parts.entry)) }
{
    let (name, rest) = next_name(at, parts)?;
    no_more(at, rest)?;
    Ok(ModelType::Named(name, parts.pos))
}
