//! Which trees for a verifier a text can spell.

ghost use Rattle.std.specs.Prelude.{◌≡◌, ◌||◌, codes, map, not, option_map};
ghost use Rattle.std.specs.List.{list_all};
ghost use Rattle.core_syntax.specs.SyntaxViews.{name_view, position};
ghost use Rattle.text_reader.specs.Grammar.{reads};
ghost use Rattle.text_reader.specs.SpecTrees.{a_form, an_instantiation};
ghost use Rattle.text_reader.specs.SpecViews.{attr_kind_view, attr_view, exprs_view, instantiation_view, macro_view, model_type_view, model_value_view, model_view, modifies_view, signature_view, signatures_view, spec_expr_view, spec_view, state_view, variant_value_view, verification_view};
ghost use Rattle.text_writer.specs.SpellableTrees.{are_signatures_spellable, attr_is_spellable, attr_kind_is_spellable, can_be_spelled, first_unspelled, is_no_value_or_spellable, macro_is_spellable, model_is_spellable, model_value_is_spellable, modifies_is_spellable, part_is_spellable, place_of_tree, signature_is_spellable, signature_type_is_spellable, signatures_are_spellable, spec_is_spellable, state_is_spellable, variant_value_is_spellable};

use crate::spec_words::{are_any_words, is_any_word, is_no_name_or_any_word};
use crate::spellable_expressions::{expr_is_spellable, exprs_are_spellable, type_is_spellable};
use core_syntax::syntax::{Ident, Pos};
use text_reader::syntax::{
    Attr, AttrKind, Form, Instantiation, Macro, Model, ModelType, ModelValue, Modifies, Signature,
    Spec, SpecExpr, State, VariantValue, VerificationForm,
};

/// Where the first of some trees stands that can't be spelled, if there is one.
pub fn first_unspelled(forms: &[VerificationForm]) -> Option<Pos>
    ensures { option_map position result ≡ first_unspelled (map verification_view forms.now) }
{
    for form in forms {
        if !can_be_spelled(form) {
            return Some(place(form));
        }
    }
    None
}

/// Where a tree stands.
pub fn place(form: &VerificationForm) -> Pos
    ensures { position result ≡ place_of_tree (verification_view form.now) }
{
    match form {
        VerificationForm::Spec(spec) => spec.pos,
        VerificationForm::Model(model) => model.pos,
        VerificationForm::Form(form) => form.pos,
        VerificationForm::Instantiation(instantiation) => instantiation.pos,
        VerificationForm::Attr(attr) => attr.pos,
        VerificationForm::State(state) => state.pos,
        VerificationForm::Macro(definition) => definition.pos,
        VerificationForm::Pragma(pos) => *pos,
    }
}

/// Whether a tree can be spelled.
pub fn can_be_spelled(form: &VerificationForm) -> bool
    ensures { result ≡ can_be_spelled (verification_view form.now) }
{
    match form {
        VerificationForm::Spec(spec) => spec_is_spellable(spec),
        VerificationForm::Model(model) => model_is_spellable(model),
        VerificationForm::Form(form) => form_is_spellable(form),
        VerificationForm::Instantiation(instantiation) => instantiation_is_spellable(instantiation),
        VerificationForm::Attr(attr) => attr_is_spellable(attr),
        VerificationForm::State(state) => state_is_spellable(state),
        VerificationForm::Macro(definition) => macro_is_spellable(definition),
        VerificationForm::Pragma(_) => true,
    }
}

fn spec_is_spellable(spec: &Spec) -> bool
    ensures { result ≡ spec_is_spellable (spec_view spec.now) }
{
    is_any_word(&spec.term)
        && are_any_words(&spec.args)
        && part_is_spellable(&spec.matches)
        && part_is_spellable(&spec.provides)
        && part_is_spellable(&spec.required)
        && states_are_spellable(&spec.modifies)
}

fn part_is_spellable(part: &Option<Vec<SpecExpr>>) -> bool
    ensures { result ≡ part_is_spellable (exprs_view part.now) }
{
    match part {
        Some(exprs) => exprs_are_spellable(exprs, 998),
        None => true,
    }
}

// Whether all states that a term changes can be spelled.
fn states_are_spellable(states: &[Modifies]) -> bool
    ensures { result ≡ list_all modifies_is_spellable (map modifies_view states.now) }
{
    for modifies in states {
        if !modifies_is_spellable(modifies) {
            return false;
        }
    }
    true
}

// Whether a state that a term changes can be spelled.
fn modifies_is_spellable(modifies: &Modifies) -> bool
    ensures { result ≡ modifies_is_spellable (modifies_view modifies.now) }
{
    is_any_word(&modifies.state) && is_no_name_or_any_word(&modifies.cond)
}

fn model_is_spellable(model: &Model) -> bool
    ensures { result ≡ model_is_spellable (model_view model.now) }
{
    is_any_word(&model.name) && value_is_spellable(&model.value)
}

// Whether what the values of a type stand for can be spelled.
fn value_is_spellable(value: &ModelValue) -> bool
    ensures { result ≡ model_value_is_spellable (model_value_view value.now) }
{
    match value {
        ModelValue::Type(ty) => type_is_spellable(ty, 998),
        ModelValue::Enum(values) => variants_are_spellable(values),
        ModelValue::Const(value) => expr_is_spellable(value, 998),
    }
}

fn variants_are_spellable(values: &[VariantValue]) -> bool
    ensures { result ≡ list_all variant_value_is_spellable (map variant_value_view values.now) }
{
    for value in values {
        if !variant_is_spellable(value) {
            return false;
        }
    }
    true
}

fn variant_is_spellable(variant: &VariantValue) -> bool
    ensures { result ≡ variant_value_is_spellable (variant_value_view variant.now) }
{
    is_any_word(&variant.name) && is_no_value_or_spellable(&variant.value)
}

fn is_no_value_or_spellable(value: &Option<SpecExpr>) -> bool
    ensures { result ≡ is_no_value_or_spellable (option_map spec_expr_view value.now) }
{
    match value {
        Some(value) => expr_is_spellable(value, 997),
        None => true,
    }
}

fn form_is_spellable(form: &Form) -> bool
    ensures { result ≡ can_be_spelled (a_form (signatures_view form.now)) }
{
    is_any_word(&form.name) && signatures_are_spellable(&form.signatures)
}

fn signatures_are_spellable(signatures: &[Signature]) -> bool
    ensures { result ≡ signatures_are_spellable (map signature_view signatures.now) }
{
    for signature in signatures {
        if !signature_is_spellable(signature) {
            return false;
        }
    }
    true
}

fn signature_is_spellable(signature: &Signature) -> bool
    ensures { result ≡ signature_is_spellable (signature_view signature.now) }
{
    types_are_spellable(&signature.args)
        && type_is_spellable(&signature.ret, 997)
        && type_is_spellable(&signature.canonical, 997)
}

// Whether all types of a signature's arguments can be spelled.
fn types_are_spellable(types: &[ModelType]) -> bool
    ensures { result ≡ list_all signature_type_is_spellable (map model_type_view types.now) }
{
    for ty in types {
        if !type_is_spellable(ty, 997) {
            return false;
        }
    }
    true
}

fn instantiation_is_spellable(instantiation: &Instantiation) -> bool
    ensures { result ≡ can_be_spelled (an_instantiation (instantiation_view instantiation.now)) }
{
    is_any_word(&instantiation.term)
        && are_signatures_spellable(&instantiation.form, &instantiation.signatures)
}

// Whether either the name of a form or signatures can be spelled.
fn are_signatures_spellable(form: &Option<Ident>, signatures: &[Signature]) -> bool
    ensures { result ≡ are_signatures_spellable (option_map name_view form.now) (map signature_view signatures.now) }
{
    match form {
        Some(form) => signatures.is_empty() && is_any_word(form),
        None => signatures_are_spellable(signatures),
    }
}

// Whether attributes can be spelled: what has the name `rule` is a rule.
fn attr_is_spellable(attr: &Attr) -> bool
    ensures { result ≡ attr_is_spellable (attr_view attr.now) }
{
    is_any_word(&attr.name)
        && is_owner(attr.is_rule, &attr.name)
        && kinds_are_spellable(&attr.kinds)
}

// Whether a name isn't taken for the word that says that the name of a rule follows.
fn is_owner(is_rule: bool, name: &Ident) -> bool
    ensures { result ≡ (is_rule || not (reads (name_view name.now) (codes "rule"))) }
{
    is_rule || name.0.as_str() != "rule"
}

// Whether the attributes of a term or a rule can be spelled.
fn kinds_are_spellable(kinds: &[AttrKind]) -> bool
    ensures { result ≡ list_all attr_kind_is_spellable (map attr_kind_view kinds.now) }
{
    for kind in kinds {
        if !kind_is_spellable(kind) {
            return false;
        }
    }
    true
}

fn kind_is_spellable(kind: &AttrKind) -> bool
    ensures { result ≡ attr_kind_is_spellable (attr_kind_view kind.now) }
{
    match kind {
        AttrKind::Tag(name, _) => is_any_word(name),
        AttrKind::Chain(_) | AttrKind::Priority(_) => true,
    }
}

fn state_is_spellable(state: &State) -> bool
    ensures { result ≡ state_is_spellable (state_view state.now) }
{
    is_any_word(&state.name)
        && type_is_spellable(&state.ty, 998)
        && expr_is_spellable(&state.default, 998)
}

fn macro_is_spellable(definition: &Macro) -> bool
    ensures { result ≡ macro_is_spellable (macro_view definition.now) }
{
    is_any_word(&definition.name)
        && are_any_words(&definition.params)
        && expr_is_spellable(&definition.body, 999)
}
