//! Definitions as text.

ghost use Rattle.std.specs.Prelude.{◌≡◌, ◌++◌, OnOk, option_map, string_bytes};
ghost use Rattle.core_syntax.specs.SyntaxViews.{definition_view, definition_views, position};
ghost use Rattle.text_writer.specs.Forms.{form_of};
ghost use Rattle.text_writer.specs.Spellable.{can_be_spelled, first_unspelled};
ghost use Rattle.text_writer.specs.Texts.{printed, written};

use crate::rules::{push_rule, rule_is_spellable};
use crate::terms::{
    converter_is_spellable, decl_is_spellable, extern_is_spellable, extractor_is_spellable,
    push_converter, push_decl, push_extern, push_extractor,
};
use crate::types::{push_type, type_is_spellable};
use core_syntax::syntax::{Def, Extern, Pos};
use std::alloc::AllocError;

/// Whether a definition can be spelled.
pub fn can_be_spelled(def: &Def) -> bool
    ensures { result ≡ can_be_spelled (definition_view def.now) }
{
    match def {
        Def::TypeDef(ty) => type_is_spellable(ty),
        Def::Decl(decl) => decl_is_spellable(decl),
        Def::Extractor(extractor) => extractor_is_spellable(extractor),
        Def::Converter(converter) => converter_is_spellable(converter),
        Def::Rule(rule) => rule_is_spellable(rule),
        Def::Extern(defined) => extern_is_spellable(defined),
        Def::Other => false,
    }
}

/// Where the first of some definitions stands that can't be spelled, if there is one.
pub fn first_unspelled(defs: &[Def]) -> Option<Option<Pos>>
    ensures { option_map (option_map position) result ≡ first_unspelled (definition_views defs.now) }
{
    for def in defs {
        if !can_be_spelled(def) {
            return Some(def.place());
        }
    }
    None
}

/// Adds definitions, each on a line of its own.
pub fn push_definitions(out: &mut String, defs: &[Def]) -> Result<(), AllocError>
    ensures { OnOk result (string_bytes out.new ≡ string_bytes out.old ++ printed (definition_views defs.now)) }
{
    for def in defs {
        push_definition(out, def)?;
        out.push_str("\n")?;
    }
    Ok(())
}

/// Adds a definition. In place of one for other tools an empty list stands, which can't be spelled.
pub fn push_definition(out: &mut String, def: &Def) -> Result<(), AllocError>
    ensures { OnOk result (string_bytes out.new ≡ string_bytes out.old ++ written (form_of (definition_view def.now))) }
{
    match def {
        Def::TypeDef(ty) => push_type(out, ty),
        Def::Decl(decl) => push_decl(out, decl),
        Def::Extractor(extractor) => push_extractor(out, extractor),
        Def::Converter(converter) => push_converter(out, converter),
        Def::Rule(rule) => push_rule(out, rule),
        Def::Extern(defined) => push_extern(out, defined),
        Def::Other => out.push_str("()"),
    }
}
