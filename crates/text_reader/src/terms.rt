//! What terms are: declarations, extractors, conversions, and what is defined outside.
#![tactic(auto, using(crate::proofs::Rows::term_parts))]

ghost use Rattle.std.specs.Prelude.{◌≡◌, MatchResult, Some, ⊤};
ghost use Rattle.core_syntax.specs.SyntaxViews.{definition_view, position};
ghost use Rattle.text_reader.specs.Faults.{FaultIsWithin};
ghost use Rattle.text_reader.specs.Forms.{FormIsWithin, FormsAreWithin, PosIsWithin};
ghost use Rattle.text_reader.specs.Lists.{PartsAreWithin};
ghost use Rattle.text_reader.specs.Within.{DefinitionIsWithin};
ghost use Rattle.text_reader.specs.FormViews.{all_view, form_view, parts_view};
ghost use Rattle.text_reader.specs.FlagViews.{flags_view};
ghost use Rattle.text_reader.specs.TermGrammar.{conversion_of, declaration_of, declared_of, external_constant_of, external_constructor_of, external_extractor_of, external_of, extractor_of, flags_of, infallible_of, no_flags, once_of, with_flag_of};
ghost use Rattle.text_reader.specs.Views.{Gives};

use crate::errors::{Mistake, ReadFault, fault};
use crate::forms::TextForm;
use crate::parts::{Parts, list, name, names, next, next_if, next_name, no_more};
use crate::patterns::pattern;
use crate::source::Source;
use core_syntax::syntax::{Converter, Decl, Def, Extern, Extractor, Pos};

// What a declaration's flags say.
#[derive(Clone, Copy)]
struct Flags {
    pure: bool,
    multi: bool,
    partial: bool,
    rec: bool,
}

/// The declaration with these parts after its head.
pub fn declaration(at: Source, parts: Parts<'_>) -> Result<Def, ReadFault>
    requires { PartsAreWithin at.file at.len parts }
    ensures read { Gives definition_view result (declaration_of (parts_view parts.entry)) }
    ensures within { MatchResult result (λ d. DefinitionIsWithin at.file at.len (definition_view d)) (FaultIsWithin at.file at.len) }
{
    match parts.forms {
        [before @ .., term, args, ret] => declared(at, parts.pos, before, term, args, ret),
        _ => Err(fault(Mistake::Declaration, parts.pos)),
    }
}

// `FLAG .. NAME (TYPE ..) TYPE`, in the list that begins there.
fn declared(
    at: Source,
    pos: Pos,
    before: &[TextForm],
    term: &TextForm,
    args: &TextForm,
    ret: &TextForm,
) -> Result<Def, ReadFault>
    requires pos { PosIsWithin at.file at.len pos }
    requires before { FormsAreWithin at.file at.len before.now }
    requires term { FormIsWithin at.file at.len term.now }
    requires args { FormIsWithin at.file at.len args.now }
    requires ret { FormIsWithin at.file at.len ret.now }
    ensures read { Gives definition_view result
        (declared_of (position pos) (Some (all_view before.now, form_view term.now, form_view args.now, form_view ret.now))) }
    ensures within { MatchResult result (λ d. DefinitionIsWithin at.file at.len (definition_view d)) (FaultIsWithin at.file at.len) }
{
    let flags = read_flags(at, before)?;
    let args = list(at, args, Mistake::Names)?;
    let term = name(at, term)?;
    let arg_tys = names(at, args.forms)?;
    let ret_ty = name(at, ret)?;
    Ok(Def::Decl(Decl {
        term,
        arg_tys,
        ret_ty,
        pure: flags.pure,
        multi: flags.multi,
        partial: flags.partial,
        rec: flags.rec,
        pos,
    }))
}

// What the words before a declaration's name say.
fn read_flags(at: Source, forms: &[TextForm]) -> Result<Flags, ReadFault>
    requires { FormsAreWithin at.file at.len forms.now }
    ensures read { Gives flags_view result (flags_of no_flags (all_view forms.now)) }
    ensures within { MatchResult result (λ _. ⊤) (FaultIsWithin at.file at.len) }
{
    let mut flags = Flags {
        pure: false,
        multi: false,
        partial: false,
        rec: false,
    };
    for form in forms {
        flags = with_flag(at, flags, form)?;
    }
    Ok(flags)
}

fn with_flag(at: Source, flags: Flags, form: &TextForm) -> Result<Flags, ReadFault>
    requires { FormIsWithin at.file at.len form.now }
    ensures read { Gives flags_view result (with_flag_of (flags_view flags) (form_view form.now)) }
    ensures within { MatchResult result (λ _. ⊤) (FaultIsWithin at.file at.len) }
{
    let TextForm::Word(word) = form else {
        return Err(fault(Mistake::Flag, form.pos()));
    };
    match word.0.as_str() {
        "pure" => once(
            at,
            flags.pure,
            word.1,
            Flags {
                pure: true,
                ..flags
            },
        ),
        "multi" => once(
            at,
            flags.multi,
            word.1,
            Flags {
                multi: true,
                ..flags
            },
        ),
        "partial" => once(
            at,
            flags.partial,
            word.1,
            Flags {
                partial: true,
                ..flags
            },
        ),
        "rec" => once(at, flags.rec, word.1, Flags { rec: true, ..flags }),
        _ => Err(fault(Mistake::Flag, word.1)),
    }
}

// These flags, if the one that is new in them wasn't there before.
fn once(at: Source, was: bool, pos: Pos, flags: Flags) -> Result<Flags, ReadFault>
    requires { PosIsWithin at.file at.len pos }
    ensures read { Gives flags_view result (once_of was (position pos) (flags_view flags)) }
    ensures within { MatchResult result (λ _. ⊤) (FaultIsWithin at.file at.len) }
{
    let _ = at.len;
    if was {
        return Err(fault(Mistake::OtherFlag, pos));
    }
    Ok(flags)
}

/// The extractor with these parts after its head.
pub fn extractor(at: Source, parts: Parts<'_>) -> Result<Def, ReadFault>
    requires { PartsAreWithin at.file at.len parts }
    ensures read { Gives definition_view result (extractor_of (parts_view parts.entry)) }
    ensures within { MatchResult result (λ d. DefinitionIsWithin at.file at.len (definition_view d)) (FaultIsWithin at.file at.len) }
{
    let (use_of, rest) = next(at, parts, Mistake::Names)?;
    let (term, args) = next_name(at, list(at, use_of, Mistake::Names)?)?;
    let (form, rest) = next(at, rest, Mistake::Pattern)?;
    let args = names(at, args.forms)?;
    let template = pattern(at, form)?;
    no_more(at, rest)?;
    Ok(Def::Extractor(Extractor {
        term,
        args,
        template,
        pos: parts.pos,
    }))
}

/// The conversion with these parts after its head.
pub fn conversion(at: Source, parts: Parts<'_>) -> Result<Def, ReadFault>
    requires { PartsAreWithin at.file at.len parts }
    ensures read { Gives definition_view result (conversion_of (parts_view parts.entry)) }
    ensures within { MatchResult result (λ d. DefinitionIsWithin at.file at.len (definition_view d)) (FaultIsWithin at.file at.len) }
{
    let (inner_ty, rest) = next_name(at, parts)?;
    let (outer_ty, rest) = next_name(at, rest)?;
    let (term, rest) = next_name(at, rest)?;
    no_more(at, rest)?;
    Ok(Def::Converter(Converter {
        term,
        inner_ty,
        outer_ty,
        pos: parts.pos,
    }))
}

/// What these parts after the head `extern` define outside.
pub fn external(at: Source, parts: Parts<'_>) -> Result<Def, ReadFault>
    requires { PartsAreWithin at.file at.len parts }
    ensures read { Gives definition_view result (external_of (parts_view parts.entry)) }
    ensures within { MatchResult result (λ d. DefinitionIsWithin at.file at.len (definition_view d)) (FaultIsWithin at.file at.len) }
{
    let (kind, rest) = next(at, parts, Mistake::Extern)?;
    let TextForm::Word(word) = kind else {
        return Err(fault(Mistake::Extern, kind.pos()));
    };
    match word.0.as_str() {
        "constructor" => external_constructor(at, rest),
        "extractor" => external_extractor(at, rest),
        "const" => external_constant(at, rest),
        _ => Err(fault(Mistake::Extern, word.1)),
    }
}

// `NAME NAME`, after `extern constructor`.
fn external_constructor(at: Source, parts: Parts<'_>) -> Result<Def, ReadFault>
    requires { PartsAreWithin at.file at.len parts }
    ensures read { Gives definition_view result (external_constructor_of (parts_view parts.entry)) }
    ensures within { MatchResult result (λ d. DefinitionIsWithin at.file at.len (definition_view d)) (FaultIsWithin at.file at.len) }
{
    let (term, rest) = next_name(at, parts)?;
    let (func, rest) = next_name(at, rest)?;
    no_more(at, rest)?;
    Ok(Def::Extern(Extern::Constructor {
        term,
        func,
        pos: parts.pos,
    }))
}

// `infallible? NAME NAME`, after `extern extractor`.
fn external_extractor(at: Source, parts: Parts<'_>) -> Result<Def, ReadFault>
    requires { PartsAreWithin at.file at.len parts }
    ensures read { Gives definition_view result (external_extractor_of (parts_view parts.entry)) }
    ensures within { MatchResult result (λ d. DefinitionIsWithin at.file at.len (definition_view d)) (FaultIsWithin at.file at.len) }
{
    let (infallible, rest) = is_infallible(at, parts);
    let (term, rest) = next_name(at, rest)?;
    let (func, rest) = next_name(at, rest)?;
    no_more(at, rest)?;
    Ok(Def::Extern(Extern::Extractor {
        term,
        func,
        pos: parts.pos,
        infallible,
    }))
}

// Whether `infallible` comes next, and the list after it. Of two words, the first is a name.
fn is_infallible<'a>(at: Source, parts: Parts<'a>) -> (bool, Parts<'a>)
    requires { PartsAreWithin at.file at.len parts }
    ensures read { (result.0, parts_view result.1) ≡ infallible_of (parts_view parts.entry) }
    ensures within { PartsAreWithin at.file at.len result.1 }
{
    if parts.forms.len() <= 2 {
        (false, parts)
    } else {
        next_if(at, parts, "infallible")
    }
}

// `CONST NAME`, after `extern const`.
fn external_constant(at: Source, parts: Parts<'_>) -> Result<Def, ReadFault>
    requires { PartsAreWithin at.file at.len parts }
    ensures read { Gives definition_view result (external_constant_of (parts_view parts.entry)) }
    ensures within { MatchResult result (λ d. DefinitionIsWithin at.file at.len (definition_view d)) (FaultIsWithin at.file at.len) }
{
    let (constant, rest) = next(at, parts, Mistake::Constant)?;
    let TextForm::Constant(name, _) = constant else {
        return Err(fault(Mistake::Constant, constant.pos()));
    };
    let name = name.clone()?;
    let (ty, rest) = next_name(at, rest)?;
    no_more(at, rest)?;
    Ok(Def::Extern(Extern::Const {
        name,
        ty,
        pos: parts.pos,
    }))
}
