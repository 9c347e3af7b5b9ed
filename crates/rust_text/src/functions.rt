//! The function of a term with rules.

ghost use Rattle.std.specs.Prelude.{◌≡◌, ◌++◌, ◌∷◌, [], OnOk, map, string_bytes};
ghost use Rattle.model.specs.lists.Signatures.{constructor_gives, text_of};
ghost use Rattle.model_code.specs.Spelling.{spelled};
ghost use Rattle.model_code.specs.Written.{function_body};
ghost use Rattle.laws_code.specs.TextRuns.{kind_of_giving};
ghost use Rattle.core_types.specs.Envs.{names_of as names_of_env};
ghost use Rattle.core_types.specs.TypeViews.{type_views};
ghost use Rattle.core_terms.specs.TermViews.{flags_view, term_view};
ghost use Rattle.cranelift_isle.specs.Lowerings.{lowered_views};
ghost use Rattle.rust_code.specs.CodeViews.{block_view};
ghost use Rattle.rust_text.specs.LoweredCode.{OfLowered};
ghost use Rattle.rust_text.specs.ProgramNames.{names_of};
ghost use Rattle.rust_text.specs.Settings.{setting_by, setting_by_program};
ghost use Rattle.rust_text.specs.Writers.{gives_view, Says};
ghost use Rattle.rust_text.specs.WrittenFunctions.{function_in, function_of_entry, functions_in, head_written, kind_of_entry, OfAnswer, begin_written, many_written, one_written, option_written, result_written, title_written};

use crate::function_code;
use crate::names::Names;
use crate::notation::Writer;
use crate::pieces::function_pieces;
use crate::spelling::push_pieces;
use cranelift_isle::lower::{Lowered, LoweredTerm};
use cranelift_isle::sema::{ReturnKind, Term, TermFlags, TermKind, TypeId};
use rust_code::code::CodeBlock;
use rust_items::names::push_part;
use rust_items::program::{ALLOWED, Program};
use std::alloc::AllocError;

/// Adds the functions of the terms of an answer, one after another. The program is that of the answer.
pub(crate) fn push_functions(
    out: &mut String,
    program: Program<'_>,
    lowered: &Lowered,
) -> Result<(), AllocError>
    requires tyenv { program.tyenv.now ≡ lowered.now.tyenv }
    requires terms { program.terms.now ≡ lowered.now.termenv.terms.items }
    ensures { OnOk result (OfAnswer lowered.now (λ p. string_bytes out.new ≡ string_bytes out.old
        ++ functions_in (setting_by_program program.entry) p (lowered_views lowered.now.terms.items))) }
{
    for of in &lowered.terms {
        push_function(out, program, lowered, of)?;
    }
    Ok(())
}

// Adds the function of a term of an answer.
fn push_function(
    out: &mut String,
    program: Program<'_>,
    lowered: &Lowered,
    of: &LoweredTerm,
) -> Result<(), AllocError>
    requires tyenv { program.tyenv.now ≡ lowered.now.tyenv }
    requires terms { program.terms.now ≡ lowered.now.termenv.terms.items }
    ensures { OnOk result (OfLowered lowered.now of.now (λ p l. string_bytes out.new ≡ string_bytes out.old
        ++ function_in (setting_by_program program.entry) p l)) }
{
    match program.terms.get(of.id.index()) {
        Some(term) => push_function_of(out, program, lowered, of, term),
        None => Ok(()),
    }
}

// Adds the function of a term: its first lines, and the text of its code's pieces.
fn push_function_of(
    out: &mut String,
    program: Program<'_>,
    lowered: &Lowered,
    of: &LoweredTerm,
    term: &Term,
) -> Result<(), AllocError>
    requires tyenv { program.tyenv.now ≡ lowered.now.tyenv }
    requires terms { program.terms.now ≡ lowered.now.termenv.terms.items }
    ensures { OnOk result (OfLowered lowered.now of.now (λ p l. string_bytes out.new ≡ string_bytes out.old
        ++ function_of_entry (setting_by_program program.entry) p l (term_view term.now))) }
{
    let code = function_code(program.alloc, lowered, of)?;
    let gives = gives_of(term);
    push_head(out, program, term, gives)?;
    push_body(out, &Writer { program, gives }, term, &code)
}

// How many values the function of a term gives.
fn gives_of(term: &Term) -> ReturnKind
    ensures { gives_view result ≡ kind_of_entry (term_view term.now) }
{
    match &term.kind {
        TermKind::Decl { flags, .. } => gives_by(*flags),
        TermKind::EnumVariant { .. } => ReturnKind::Plain,
        TermKind::Struct => ReturnKind::Plain,
    }
}

fn gives_by(flags: TermFlags) -> ReturnKind
    ensures { gives_view result ≡ kind_of_giving (constructor_gives (flags_view flags)) }
{
    if flags.multi {
        ReturnKind::Iterator
    } else if flags.partial {
        ReturnKind::Option
    } else {
        ReturnKind::Plain
    }
}

// Adds the text of a term's function from behind its first line on.
fn push_body(
    out: &mut String,
    writer: &Writer<'_>,
    term: &Term,
    code: &CodeBlock,
) -> Result<(), AllocError>
    ensures { OnOk result (Says writer.now (λ p. string_bytes out.new ≡ string_bytes out.old
        ++ spelled (names_of (setting_by writer.now term.now)) (function_body p (block_view code.now)))) }
{
    let pieces = function_pieces(writer.program.alloc, writer, code)?;
    let names = Names {
        program: writer.program,
        term,
    };
    Ok(push_pieces(out, names, &pieces)?)
}

// Adds a function's lines up to its body.
fn push_head(
    out: &mut String,
    program: Program<'_>,
    term: &Term,
    gives: ReturnKind,
) -> Result<(), AllocError>
    ensures { OnOk result (string_bytes out.new ≡ string_bytes out.old
        ++ head_written (names_of_env program.entry.tyenv.now) (type_views program.entry.tyenv.now.types.items) (gives_view gives)
        (text_of (names_of_env program.entry.tyenv.now) term.now.name.0) (term_view term.now).arg_tys (term.now.ret_ty.0 ∷ [])) }
{
    let name = program.tyenv.text_of(term.name);
    push_lines(out, program, name, &term.arg_tys, gives, term.ret_ty)
}

fn push_lines(
    out: &mut String,
    program: Program<'_>,
    name: &str,
    params: &[TypeId],
    gives: ReturnKind,
    ty: TypeId,
) -> Result<(), AllocError>
    ensures { OnOk result (string_bytes out.new ≡ string_bytes out.old
        ++ head_written (names_of_env program.entry.tyenv.now) (type_views program.entry.tyenv.now.types.items) (gives_view gives) name.now (map (λ t. t.0) params.now) (ty.0 ∷ [])) }
{
    push_title(out, name)?;
    push_begin(out, name)?;
    program.push_parameters(out, params)?;
    push_result(out, program, gives, ty)?;
    out.push_str(" {\n")
}

// Adds the lines above a function.
fn push_title(out: &mut String, name: &str) -> Result<(), AllocError>
    ensures { OnOk result (string_bytes out.new ≡ string_bytes out.old ++ title_written name.now) }
{
    out.push_str("\n/// `")?;
    out.push_str(name)?;
    out.push_str("`\n")?;
    out.push_str(ALLOWED)
}

fn push_begin(out: &mut String, name: &str) -> Result<(), AllocError>
    ensures { OnOk result (string_bytes out.new ≡ string_bytes out.old ++ begin_written name.now) }
{
    out.push_str("pub fn constructor_")?;
    push_part(out, name)?;
    out.push_str("<C: Context>(ctx: &mut C")
}

// Adds the rest of a signature: what a function gives, or puts its results into.
fn push_result(
    out: &mut String,
    program: Program<'_>,
    gives: ReturnKind,
    ty: TypeId,
) -> Result<(), AllocError>
    ensures { OnOk result (string_bytes out.new ≡ string_bytes out.old
        ++ result_written (names_of_env program.entry.tyenv.now) (type_views program.entry.tyenv.now.types.items) (gives_view gives) (ty.0 ∷ [])) }
{
    match gives {
        ReturnKind::Plain => push_one(out, program, ty),
        ReturnKind::Option => push_option(out, program, ty),
        ReturnKind::Iterator => push_many(out, program, ty),
    }
}

fn push_one(out: &mut String, program: Program<'_>, ty: TypeId) -> Result<(), AllocError>
    ensures { OnOk result (string_bytes out.new ≡ string_bytes out.old ++ one_written (names_of_env program.entry.tyenv.now) (type_views program.entry.tyenv.now.types.items) (ty.0 ∷ [])) }
{
    out.push_str(") -> ")?;
    program.push_type(out, ty)
}

fn push_option(out: &mut String, program: Program<'_>, ty: TypeId) -> Result<(), AllocError>
    ensures { OnOk result (string_bytes out.new ≡ string_bytes out.old ++ option_written (names_of_env program.entry.tyenv.now) (type_views program.entry.tyenv.now.types.items) (ty.0 ∷ [])) }
{
    out.push_str(") -> Option<")?;
    program.push_type(out, ty)?;
    out.push_str(">")
}

fn push_many(out: &mut String, program: Program<'_>, ty: TypeId) -> Result<(), AllocError>
    ensures { OnOk result (string_bytes out.new ≡ string_bytes out.old ++ many_written (names_of_env program.entry.tyenv.now) (type_views program.entry.tyenv.now.types.items) (ty.0 ∷ [])) }
{
    out.push_str(", returns: &mut (impl Extend<")?;
    program.push_type(out, ty)?;
    out.push_str("> + Length)) -> ()")
}
