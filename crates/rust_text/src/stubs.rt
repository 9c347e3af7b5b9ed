//! Stubs of what the code of a program asks of the module above it.

ghost use Rattle.std.specs.Prelude.{◌≢◌, [], string_bytes, IfOk};

use crate::code::{CodeError, CodegenOptions};
use cranelift_isle::lower::Lowered;
use cranelift_isle::syntax::Files;
use rust_items::lines::Lines;
use rust_items::program::Program;
use rust_items::stubs::push_stubs;
use rust_items::taken::check_names;
use std::alloc::Global;

/// Stubs of what the code of a program asks of the module above it, with which it compiles: types, constants, and a `Context` whose
/// functions are `todo!()`. `docs/RUST-CODE.md` has the form. The options are those of the code.
///
/// # Errors
///
/// Those of `rust_code_with`.
pub fn stubs_with(
    alloc: Global,
    lowered: &Lowered,
    files: &Files,
    options: &CodegenOptions,
) -> Result<String, CodeError>
    ensures { IfOk result (λ stubs. string_bytes stubs ≢ []) }
{
    let lines = Lines::new(alloc, files, &options.prefixes)?;
    let program = Program {
        alloc,
        tyenv: &lowered.tyenv,
        terms: &lowered.termenv.terms,
        lines: &lines,
        is_logged: options.emit_logging,
    };
    check_names(program, &lowered.terms)?;
    let mut items = String::new(alloc);
    push_stubs(&mut items, program)?;
    Ok(format!(in alloc; "// Stubs of what the code of these rules asks for:\n{items}")?)
}
