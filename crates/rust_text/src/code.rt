//! The whole code of a program.

ghost use Rattle.std.specs.Prelude.{◌≡◌, ◌⊎◌, ◌++◌, All, None, IfErr, IfOk, OnOk, string_bytes, true};
ghost use Rattle.core_types.specs.Envs.{names_of};
ghost use Rattle.cranelift_isle.specs.Lowerings.{lowered_views};
ghost use Rattle.cranelift_isle.specs.TermViews.{term_views};
ghost use Rattle.rust_items.specs.Claims.{IsWellNamed, TellsFirst};
ghost use Rattle.rust_items.specs.Faults.{TellsOf};
ghost use Rattle.rust_items.specs.ItemViews.{items_by};
ghost use Rattle.rust_items.specs.LineViews.{lines_view};
ghost use Rattle.rust_items.specs.NamedPrograms.{kinds};
ghost use Rattle.rust_items.specs.ProgramViews.{named_program};
ghost use Rattle.rust_items.specs.SourceViews.{sources_view};
ghost use Rattle.rust_items.specs.WrittenItems.{AreAlike, TellsTwoSignatures, context_functions, items_before};
ghost use Rattle.rust_text.specs.Expanded.{TellsInside, first_inside, lowered_sites};
ghost use Rattle.rust_text.specs.Settings.{setting_by_options, setting_by_program, setting_of_included};
ghost use Rattle.rust_text.specs.WholeCode.{IsWholeCode, TellsNames, first_line};
ghost use Rattle.rust_text.specs.WrittenFunctions.{functions_in, OfAnswer};

use crate::expanded::check_expanded;
use crate::functions::push_functions;
use cranelift_isle::lower::{Lowered, LoweredTerm};
use cranelift_isle::syntax::Files;
use rust_items::items::push_items;
use rust_items::lines::Lines;
pub use rust_items::options::{CodeError, CodegenOptions, Prefix};
use rust_items::program::Program;
use rust_items::taken::check_names;
use std::alloc::{AllocError, Global};

/// The Rust code of a program that was lowered with its internal extractors expanded: a trait `Context` of the functions that
/// come from outside, with the traits that it speaks of, the enums and structs that the definitions declare, and for each term
/// with rules a function `constructor_NAME`, which does what the term's tree says. The text is of items, for a module that takes
/// it in by `include!`, and all that it names comes from the module above. `files` are those that the positions of the
/// definitions speak of. `docs/RUST-CODE.md` has the form.
///
/// # Errors
///
/// `CodeError::Names` where two types, variants of an enum, fields, functions from outside, constants or terms would have one
/// name in Rust, where two functions from outside of one name have different signatures, or where a name is taken by the code
/// itself. `CodeError::Memory` where memory is refused.
pub fn rust_code(alloc: Global, lowered: &Lowered, files: &Files) -> Result<String, CodeError>
    // the whole text, where names are told apart
    ensures code { IfOk result (λ code. IsWholeCode lowered.now (setting_of_included lowered.now files.now) true (string_bytes code)) }

    // which names aren't
    ensures wrong { IfErr result (λ e. TellsOf e (TellsNames lowered.now (setting_of_included lowered.now files.now).sources)) }
{
    rust_code_with(alloc, lowered, files, &CodegenOptions::included(alloc))
}

/// The same, written as the options say.
///
/// # Errors
///
/// Those of `rust_code`.
pub fn rust_code_with(
    alloc: Global,
    lowered: &Lowered,
    files: &Files,
    options: &CodegenOptions,
) -> Result<String, CodeError>
    ensures code { IfOk result (λ code. IsWholeCode lowered.now (setting_by_options lowered.now files.now options.now) options.now.exclude_global_allow_pragmas (string_bytes code)) }
    ensures wrong { IfErr result (λ e. TellsOf e (TellsNames lowered.now (sources_view files.now options.now.prefixes.items))) }
{
    let lines = Lines::new(alloc, files, &options.prefixes)?;
    let program = Program {
        alloc,
        tyenv: &lowered.tyenv,
        terms: &lowered.termenv.terms,
        lines: &lines,
        is_logged: options.emit_logging,
    };
    code_in(program, options, lowered)
}

// The code of an answer's program.
fn code_in(
    program: Program<'_>,
    options: &CodegenOptions,
    lowered: &Lowered,
) -> Result<String, CodeError>
    requires tyenv { program.tyenv.now ≡ lowered.now.tyenv }
    requires terms { program.terms.now ≡ lowered.now.termenv.terms.items }
    ensures code { IfOk result (λ code. IsWholeCode lowered.now (setting_by_program program.entry) options.now.exclude_global_allow_pragmas (string_bytes code)) }
    ensures wrong { IfErr result (λ e. TellsOf e (TellsNames lowered.now (lines_view program.entry.lines.now))) }
{
    check_program(program, &lowered.terms)?;
    let mut items = String::from_str(program.alloc, "")?;
    push_code(&mut items, program, options, lowered)?;
    let code = headed(program.alloc, &items)?;
    Ok(code)
}

// Looks for what has no code: names that fall together, and internal extractors.
fn check_program(program: Program<'_>, lowered: &[LoweredTerm]) -> Result<(), CodeError>
    ensures named { OnOk result (All IsWellNamed (kinds (named_program program.entry.tyenv.now program.entry.terms.now lowered.now))) }
    ensures expanded { OnOk result (first_inside (term_views program.entry.terms.now) (lowered_sites lowered.now) ≡ None) }
    ensures wrong { IfErr result (λ e. TellsOf e (λ text. TellsFirst (kinds (named_program program.entry.tyenv.now program.entry.terms.now lowered.now)) text
        ⊎ TellsInside (names_of program.entry.tyenv.now) (term_views program.entry.terms.now) (lowered_sites lowered.now) text)) }
{
    check_names(program, lowered)?;
    check_expanded(program, lowered)
}

// Adds the items of a program, and behind them the functions of its terms.
fn push_code(
    out: &mut String,
    program: Program<'_>,
    options: &CodegenOptions,
    lowered: &Lowered,
) -> Result<(), CodeError>
    requires tyenv { program.tyenv.now ≡ lowered.now.tyenv }
    requires terms { program.terms.now ≡ lowered.now.termenv.terms.items }
    ensures written { OnOk result (OfAnswer lowered.now (λ p. string_bytes out.new ≡ string_bytes out.old
        ++ (items_before (items_by program.entry) options.now.exclude_global_allow_pragmas (term_views program.entry.terms.now)
        ++ functions_in (setting_by_program program.entry) p (lowered_views lowered.now.terms.items)))) }
    ensures alike { OnOk result (AreAlike (context_functions (items_by program.entry) (term_views program.entry.terms.now))) }
    ensures wrong { IfErr result (λ e. TellsOf e (TellsTwoSignatures (lines_view program.entry.lines.now) (context_functions (items_by program.entry) (term_views program.entry.terms.now)))) }
{
    push_items(out, program, options)?;
    push_functions(out, program, lowered)?;
    Ok(())
}

// A text below the first line of the code.
fn headed(alloc: Global, items: &str) -> Result<String, AllocError>
    ensures { IfOk result (λ code. string_bytes code ≡ first_line ++ items.now) }
{
    format!(in alloc; "// GENERATED BY ISLE. DO NOT EDIT!\n{items}")
}
