//! Definitions of types.
#![tactic(auto, using(crate::proofs::Rows::type_parts))]

ghost use Rattle.std.specs.Prelude.{All, MatchResult, map};
ghost use Rattle.core_syntax.specs.SyntaxViews.{definition_view, field_view, fields_view, type_value_view, variant_view};
ghost use Rattle.text_reader.specs.Faults.{FaultIsWithin};
ghost use Rattle.text_reader.specs.Forms.{FormIsWithin, FormsAreWithin};
ghost use Rattle.text_reader.specs.Lists.{PartsAreWithin};
ghost use Rattle.text_reader.specs.Within.{DefinitionIsWithin, FieldIsWithin, FieldsAreWithin, TypeValueIsWithin, VariantIsWithin};
ghost use Rattle.text_reader.specs.FormViews.{all_view, form_view, parts_view};
ghost use Rattle.text_reader.specs.TypeGrammar.{enumeration_of, fields_of, named_field_of, primitive_of, type_definition_of, type_value_of, variant_of, variants_of, with_fields_of, with_names_of, with_numbers_of};
ghost use Rattle.text_reader.specs.Views.{Gives};

use crate::errors::{Mistake, ReadFault, fault};
use crate::forms::TextForm;
use crate::parts::{Parts, headed, list, name, next, next_if, next_name, no_more};
use crate::source::Source;
use core_syntax::syntax::{
    Def, Fields, StructField, StructFields, TupleField, TupleFields, Type, TypeValue, Variant,
};

/// The type with these parts after the head `type`.
pub fn type_definition(at: Source, parts: Parts<'_>) -> Result<Def, ReadFault>
    requires { PartsAreWithin at.file at.len parts }
    ensures read { Gives definition_view result (type_definition_of (parts_view parts.entry)) }
    ensures within { MatchResult result (λ d. DefinitionIsWithin at.file at.len (definition_view d)) (FaultIsWithin at.file at.len) }
{
    let (name, rest) = next_name(at, parts)?;
    let (is_extern, rest) = next_if(at, rest, "extern");
    let (is_nodebug, rest) = next_if(at, rest, "nodebug");
    let (value, rest) = next(at, rest, Mistake::TypeValue)?;
    let ty = type_value(at, value)?;
    no_more(at, rest)?;
    Ok(Def::TypeDef(Type {
        name,
        is_extern,
        is_nodebug,
        ty,
        pos: parts.pos,
    }))
}

fn type_value(at: Source, form: &TextForm) -> Result<TypeValue, ReadFault>
    requires { FormIsWithin at.file at.len form.now }
    ensures read { Gives type_value_view result (type_value_of (form_view form.now)) }
    ensures within { MatchResult result (λ v. TypeValueIsWithin at.file at.len (type_value_view v)) (FaultIsWithin at.file at.len) }
{
    let (head, rest) = headed(at, form, Mistake::TypeValue)?;
    match head.0.as_str() {
        "primitive" => primitive(at, rest),
        "enum" => enumeration(at, rest),
        "struct" => Ok(TypeValue::Struct(fields(at, rest.forms)?, rest.pos)),
        _ => Err(fault(Mistake::TypeValue, rest.pos)),
    }
}

// Variants, after `enum`.
fn enumeration(at: Source, parts: Parts<'_>) -> Result<TypeValue, ReadFault>
    requires { PartsAreWithin at.file at.len parts }
    ensures read { Gives type_value_view result (enumeration_of (parts_view parts.entry)) }
    ensures within { MatchResult result (λ v. TypeValueIsWithin at.file at.len (type_value_view v)) (FaultIsWithin at.file at.len) }
{
    let variants = variants(at, parts.forms)?;
    Ok(TypeValue::Enum(variants, parts.pos))
}

// `NAME`, after `primitive`.
fn primitive(at: Source, parts: Parts<'_>) -> Result<TypeValue, ReadFault>
    requires { PartsAreWithin at.file at.len parts }
    ensures read { Gives type_value_view result (primitive_of (parts_view parts.entry)) }
    ensures within { MatchResult result (λ v. TypeValueIsWithin at.file at.len (type_value_view v)) (FaultIsWithin at.file at.len) }
{
    let (name, rest) = next_name(at, parts)?;
    no_more(at, rest)?;
    Ok(TypeValue::Primitive(name, parts.pos))
}

fn variants(at: Source, forms: &[TextForm]) -> Result<Vec<Variant>, ReadFault>
    requires { FormsAreWithin at.file at.len forms.now }
    ensures read { Gives (λ vs. map variant_view vs.items) result (variants_of (all_view forms.now)) }
    ensures within { MatchResult result (λ vs. All (λ v. VariantIsWithin at.file at.len (variant_view v)) vs.items) (FaultIsWithin at.file at.len) }
{
    let mut variants = Vec::new(at.alloc);
    for form in forms {
        variants.push(variant(at, form)?)?;
    }
    Ok(variants)
}

// The variant that a form is: a name, or a list of a name and fields.
fn variant(at: Source, form: &TextForm) -> Result<Variant, ReadFault>
    requires { FormIsWithin at.file at.len form.now }
    ensures read { Gives variant_view result (variant_of (form_view form.now)) }
    ensures within { MatchResult result (λ v. VariantIsWithin at.file at.len (variant_view v)) (FaultIsWithin at.file at.len) }
{
    match form {
        TextForm::Word(name) => Ok(Variant {
            name: name.clone()?,
            fields: Fields::Unit,
            pos: name.1,
        }),
        _ => variant_with_fields(at, form),
    }
}

// A list of a name and fields.
fn variant_with_fields(at: Source, form: &TextForm) -> Result<Variant, ReadFault>
    requires { FormIsWithin at.file at.len form.now }
    ensures read { Gives variant_view result (with_fields_of (form_view form.now)) }
    ensures within { MatchResult result (λ v. VariantIsWithin at.file at.len (variant_view v)) (FaultIsWithin at.file at.len) }
{
    let parts = list(at, form, Mistake::Variant)?;
    let (name, rest) = next_name(at, parts)?;
    let fields = fields(at, rest.forms)?;
    Ok(Variant {
        name,
        fields,
        pos: parts.pos,
    })
}

// The fields that forms are: with names if the first is a list, else without.
fn fields(at: Source, forms: &[TextForm]) -> Result<Fields, ReadFault>
    requires { FormsAreWithin at.file at.len forms.now }
    ensures read { Gives fields_view result (fields_of (all_view forms.now)) }
    ensures within { MatchResult result (λ fs. FieldsAreWithin at.file at.len (fields_view fs)) (FaultIsWithin at.file at.len) }
{
    match forms {
        [] => Ok(Fields::Unit),
        [TextForm::Group(_, _, _), ..] => named_fields(at, forms),
        _ => tuple_fields(at, forms),
    }
}

fn named_fields(at: Source, forms: &[TextForm]) -> Result<Fields, ReadFault>
    requires { FormsAreWithin at.file at.len forms.now }
    ensures read { Gives fields_view result (with_names_of (all_view forms.now)) }
    ensures within { MatchResult result (λ fs. FieldsAreWithin at.file at.len (fields_view fs)) (FaultIsWithin at.file at.len) }
{
    let mut fields = Vec::new(at.alloc);
    for form in forms {
        fields.push(named_field(at, form)?)?;
    }
    Ok(Fields::Struct(StructFields { fields }))
}

// `(NAME TYPE)`.
fn named_field(at: Source, form: &TextForm) -> Result<StructField, ReadFault>
    requires { FormIsWithin at.file at.len form.now }
    ensures read { Gives field_view result (named_field_of (form_view form.now)) }
    ensures within { MatchResult result (λ f. FieldIsWithin at.file at.len (field_view f)) (FaultIsWithin at.file at.len) }
{
    let parts = list(at, form, Mistake::Field)?;
    let (name, rest) = next_name(at, parts)?;
    let (ty, rest) = next_name(at, rest)?;
    no_more(at, rest)?;
    Ok(StructField {
        name,
        ty,
        pos: parts.pos,
    })
}

// Fields without names, which their places stand for.
fn tuple_fields(at: Source, forms: &[TextForm]) -> Result<Fields, ReadFault>
    requires { FormsAreWithin at.file at.len forms.now }
    ensures read { Gives fields_view result (with_numbers_of (all_view forms.now)) }
    ensures within { MatchResult result (λ fs. FieldsAreWithin at.file at.len (fields_view fs)) (FaultIsWithin at.file at.len) }
{
    let mut fields = Vec::new(at.alloc);
    for form in forms {
        let index = fields.len();
        let ty = name(at, form)?;
        let pos = ty.1;
        fields.push(TupleField { index, ty, pos })?;
    }
    Ok(Fields::Tuple(TupleFields { fields }))
}
