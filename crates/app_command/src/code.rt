//! The Rust code of files.

ghost use Rattle.std.specs.Prelude.{◌≡◌, IfErr, IfOk, Ok};
ghost use Rattle.cranelift_isle.specs.SyntaxViews.{definition_views};
ghost use Rattle.app_command.specs.declared.code.Code.TheVariants.{Text};
ghost use Rattle.app_command.specs.RustCode.{RustCodeIsOfTexts};
ghost use Rattle.app_command.specs.Codes.{AreNames, AreStubs, IsCode, IsCodedBy, IsCodeOf, IsCodeOrStubs};

use crate::reading::Reading;
use cranelift_isle::lower::{Lowered, lower};
use cranelift_isle::syntax::{Def, Fault, Files};
use rust_text::code::{CodeError, CodegenOptions, rust_code_with};
use rust_text::each_term_is_in_its_code;
use rust_text::stubs::stubs_with;
use std::alloc::{AllocError, Global};

/// What comes of accepted definitions whose Rust code is wanted.
#[derive(Drop)]
pub enum Code {
    /// The code.
    Text(String),
    /// There is none, since two of their names would be one: a line that says which.
    Names(String),
}

/// The Rust code of what was read, written as the options say, or None where the texts or the definitions are wrong. Code has
/// no form for internal extractors, so ask with `expand`.
///
/// # Errors
///
/// Where memory is refused.
pub fn code_of(
    alloc: Global,
    expand: bool,
    files: &Files,
    reading: &Reading,
    options: &CodegenOptions,
) -> Result<Option<Code>, AllocError>
    ensures { IfOk result (IsCodeOf expand reading.now files.now options.now) }
{
    match reading {
        Reading::Defs(defs) => code_of_defs(alloc, expand, files, defs, options),
        Reading::Unread(_) => Ok(None),
    }
}

// The Rust code of these definitions, or None where they are wrong.
fn code_of_defs(
    alloc: Global,
    expand: bool,
    files: &Files,
    defs: &[Def],
    options: &CodegenOptions,
) -> Result<Option<Code>, AllocError>
    ensures { IfOk result (IsCodedBy (definition_views defs.now) expand files.now options.now) }
{
    match lower(alloc, defs, expand) {
        Ok(lowered) => Ok(Some(code_of_lowered(alloc, files, &lowered, options)?)),
        Err(Fault::Errors(_)) => Ok(None),
        Err(Fault::Memory(error)) => Err(error),
    }
}

/// The Rust code of lowered definitions, written as the options say.
///
/// # Errors
///
/// Where memory is refused.
pub fn code_of_lowered(
    alloc: Global,
    files: &Files,
    lowered: &Lowered,
    options: &CodegenOptions,
) -> Result<Code, AllocError>
    ensures { IfOk result (IsCode lowered.now files.now options.now) }
{
    let made = rust_code_with(alloc, lowered, files, options);
    code_by(alloc, made)
}

/// The same, or in its place stubs of what it asks for.
///
/// # Errors
///
/// Where memory is refused.
pub(crate) fn code_or_stubs(
    alloc: Global,
    files: &Files,
    lowered: &Lowered,
    options: &CodegenOptions,
    stubs: bool,
) -> Result<Code, AllocError>
    ensures { IfOk result (IsCodeOrStubs stubs lowered.now files.now options.now) }
{
    if stubs {
        stubs_of_lowered(alloc, files, lowered, options)
    } else {
        code_of_lowered(alloc, files, lowered, options)
    }
}

fn stubs_of_lowered(
    alloc: Global,
    files: &Files,
    lowered: &Lowered,
    options: &CodegenOptions,
) -> Result<Code, AllocError>
    ensures { IfOk result AreStubs }
{
    let made = stubs_with(alloc, lowered, files, options);
    code_by(alloc, made)
}

// What comes of making code.
fn code_by(alloc: Global, made: Result<String, CodeError>) -> Result<Code, AllocError>
    // the code that was made is the answer; where none was made, a line says why
    ensures made { IfOk made (λ text. result ≡ Ok (Text text)) }
    ensures none { IfErr made (λ e. IfOk result (AreNames e)) }
{
    match made {
        Ok(text) => Ok(Code::Text(text)),
        Err(CodeError::Names(why)) => Ok(Code::Names(format!(in alloc; "error[names]: {why}\n")?)),
        Err(CodeError::Memory) => Err(AllocError),
    }
}

/// Where `isle rust` ends with the status 0, standard output is code of what the texts of its files spell. A law, without code.
pub fn rust_code_is_of_texts()
    ensures { RustCodeIsOfTexts }
{
    each_term_is_in_its_code();
}
