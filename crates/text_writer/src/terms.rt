//! Declarations, extractors, conversions, and what is defined outside, as text.

ghost use Rattle.std.specs.Prelude.{◌≡◌, ◌++◌, OnOk, string_bytes};
ghost use Rattle.core_syntax.specs.SyntaxViews.{converter_view, decl_view, extern_view, extractor_view, name_view};
ghost use Rattle.model.specs.lists.Syntax.{extern_const, extern_constructor, extern_extractor};
ghost use Rattle.text_reader.specs.FormTrees.{no_form};
ghost use Rattle.text_reader.specs.Solid.{nowhere};
ghost use Rattle.text_writer.specs.Forms.{converter_form, decl_form, extern_form, extractor_form, flags_before, signature};
ghost use Rattle.text_writer.specs.Spellable.{converter_is_spellable, decl_is_spellable, extern_is_spellable, extractor_is_spellable};
ghost use Rattle.text_writer.specs.Texts.{spaced, written};

use crate::patterns::{pattern_is_spellable, push_pattern};
use crate::pieces::{push_constant, push_flag, push_names, push_use, push_word};
use crate::words::{are_words, is_constant_name, is_word};
use core_syntax::syntax::{Converter, Decl, Extern, Extractor, Ident};
use std::alloc::AllocError;

/// Whether a declaration can be spelled.
pub fn decl_is_spellable(decl: &Decl) -> bool
    ensures { result ≡ decl_is_spellable (decl_view decl.now) }
{
    is_word(&decl.term) && are_words(&decl.arg_tys) && is_word(&decl.ret_ty)
}

/// Whether an extractor can be spelled.
pub fn extractor_is_spellable(extractor: &Extractor) -> bool
    ensures { result ≡ extractor_is_spellable (extractor_view extractor.now) }
{
    is_word(&extractor.term)
        && are_words(&extractor.args)
        && pattern_is_spellable(&extractor.template, 999)
}

/// Whether a conversion can be spelled.
pub fn converter_is_spellable(converter: &Converter) -> bool
    ensures { result ≡ converter_is_spellable (converter_view converter.now) }
{
    is_word(&converter.inner_ty) && is_word(&converter.outer_ty) && is_word(&converter.term)
}

/// Whether what is defined outside can be spelled.
pub fn extern_is_spellable(defined: &Extern) -> bool
    ensures { result ≡ extern_is_spellable (extern_view defined.now) }
{
    match defined {
        Extern::Constructor { term, func, .. } | Extern::Extractor { term, func, .. } => {
            is_word(term) && is_word(func)
        }
        Extern::Const { name, ty, .. } => is_constant_name(name) && is_word(ty),
    }
}

/// Adds a declaration.
pub fn push_decl(out: &mut String, decl: &Decl) -> Result<(), AllocError>
    ensures { OnOk result (string_bytes out.new ≡ string_bytes out.old ++ written (decl_form (decl_view decl.now))) }
{
    out.push_str("(decl")?;
    push_flags(out, decl)?;
    push_signature(out, decl)?;
    out.push_str(")")
}

// Adds the flags of a declaration, each behind a space.
#[tactic(auto, unfolding(crate::specs::Forms::flags_before, crate::specs::Forms::flag_before))]
fn push_flags(out: &mut String, decl: &Decl) -> Result<(), AllocError>
    ensures { OnOk result (string_bytes out.new ≡ string_bytes out.old ++ spaced (flags_before (decl_view decl.now) no_form)) }
{
    push_flag(out, "pure", decl.pure)?;
    push_flag(out, "multi", decl.multi)?;
    push_flag(out, "partial", decl.partial)?;
    push_flag(out, "rec", decl.rec)
}

// Adds the term of a declaration, the list of its arguments' types, and its result's type, each behind a space.
fn push_signature(out: &mut String, decl: &Decl) -> Result<(), AllocError>
    ensures { OnOk result (string_bytes out.new ≡ string_bytes out.old ++ spaced (signature (decl_view decl.now))) }
{
    push_word(out, &decl.term.0)?;
    out.push_str(" (")?;
    push_names(out, &decl.arg_tys)?;
    out.push_str(")")?;
    push_word(out, &decl.ret_ty.0)
}

/// Adds an extractor.
pub fn push_extractor(out: &mut String, extractor: &Extractor) -> Result<(), AllocError>
    ensures { OnOk result (string_bytes out.new ≡ string_bytes out.old ++ written (extractor_form (extractor_view extractor.now))) }
{
    out.push_str("(extractor ")?;
    push_use(out, &extractor.term, &extractor.args)?;
    out.push_str(" ")?;
    push_pattern(out, &extractor.template)?;
    out.push_str(")")
}

/// Adds a conversion.
pub fn push_converter(out: &mut String, converter: &Converter) -> Result<(), AllocError>
    ensures { OnOk result (string_bytes out.new ≡ string_bytes out.old ++ written (converter_form (converter_view converter.now))) }
{
    out.push_str("(convert ")?;
    out.push_str(&converter.inner_ty.0)?;
    push_word(out, &converter.outer_ty.0)?;
    push_word(out, &converter.term.0)?;
    out.push_str(")")
}

/// Adds what is defined outside.
pub fn push_extern(out: &mut String, defined: &Extern) -> Result<(), AllocError>
    ensures { OnOk result (string_bytes out.new ≡ string_bytes out.old ++ written (extern_form (extern_view defined.now))) }
{
    match defined {
        Extern::Constructor { term, func, .. } => push_constructor(out, term, func),
        Extern::Extractor {
            term,
            func,
            infallible,
            ..
        } => push_external_extractor(out, term, func, *infallible),
        Extern::Const { name, ty, .. } => push_external_constant(out, name, ty),
    }
}

// Adds a constructor that is defined outside.
fn push_constructor(out: &mut String, term: &Ident, func: &Ident) -> Result<(), AllocError>
    ensures { OnOk result (string_bytes out.new
        ≡ string_bytes out.old ++ written (extern_form (extern_constructor (name_view term.now) (name_view func.now) nowhere))) }
{
    out.push_str("(extern")?;
    push_word(out, "constructor")?;
    push_word(out, &term.0)?;
    push_word(out, &func.0)?;
    out.push_str(")")
}

#[tactic(auto, unfolding(crate::specs::Forms::flag_before))]
fn push_external_extractor(
    out: &mut String,
    term: &Ident,
    func: &Ident,
    infallible: bool,
) -> Result<(), AllocError>
    ensures { OnOk result (string_bytes out.new
        ≡ string_bytes out.old ++ written (extern_form (extern_extractor (name_view term.now) (name_view func.now) nowhere infallible))) }
{
    out.push_str("(extern")?;
    push_word(out, "extractor")?;
    push_flag(out, "infallible", infallible)?;
    push_word(out, &term.0)?;
    push_word(out, &func.0)?;
    out.push_str(")")
}

fn push_external_constant(out: &mut String, name: &Ident, ty: &Ident) -> Result<(), AllocError>
    ensures { OnOk result (string_bytes out.new
        ≡ string_bytes out.old ++ written (extern_form (extern_const (name_view name.now) (name_view ty.now) nowhere))) }
{
    out.push_str("(extern")?;
    push_word(out, "const")?;
    out.push_str(" ")?;
    push_constant(out, name)?;
    push_word(out, &ty.0)?;
    out.push_str(")")
}
