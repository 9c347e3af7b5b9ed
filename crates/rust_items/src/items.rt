//! The items before the functions of terms, in order.

ghost use Rattle.std.specs.Prelude.{◌≡◌, ◌++◌, IfErr, OnOk, string_bytes};
ghost use Rattle.cranelift_isle.specs.TermViews.{term_views};
ghost use Rattle.cranelift_isle.specs.TypeViews.{type_views};
ghost use Rattle.rust_items.specs.Faults.{TellsOf};
ghost use Rattle.rust_items.specs.ItemViews.{items_by};
ghost use Rattle.rust_items.specs.LineViews.{lines_view};
ghost use Rattle.rust_items.specs.WrittenItems.{AreAlike, TellsTwoSignatures, context_functions, items_before, types_written};

use crate::beside::BESIDE;
use crate::context::push_context;
use crate::head::push_head;
use crate::options::{CodeError, CodegenOptions};
use crate::program::Program;
use crate::types::push_types;
use std::alloc::AllocError;

/// Adds what comes before the functions of terms, but for the first line of the code: the lines of the head, the trait of what
/// comes from outside, the traits beside it, and the types that the definitions declare.
///
/// # Errors
///
/// `Names` for the first function of the trait that has the name of an earlier one and another signature; `Memory` where memory
/// is refused.
pub fn push_items(
    out: &mut String,
    program: Program<'_>,
    options: &CodegenOptions,
) -> Result<(), CodeError>
    ensures written { OnOk result (string_bytes out.new ≡ string_bytes out.old
        ++ items_before (items_by program.entry) options.now.exclude_global_allow_pragmas (term_views program.entry.terms.now)) }
    ensures alike { OnOk result (AreAlike (context_functions (items_by program.entry) (term_views program.entry.terms.now))) }
    ensures wrong { IfErr result (λ e. TellsOf e (TellsTwoSignatures (lines_view program.entry.lines.now) (context_functions (items_by program.entry) (term_views program.entry.terms.now)))) }
{
    push_head(out, program.lines, options)?;
    push_context(out, program)?;
    push_beside(out, program)?;
    Ok(())
}

// Adds what stands behind the trait.
fn push_beside(out: &mut String, program: Program<'_>) -> Result<(), AllocError>
    ensures { OnOk result (string_bytes out.new ≡ string_bytes out.old
        ++ (BESIDE.now ++ types_written (items_by program.entry) (type_views program.entry.tyenv.now.types.items))) }
{
    out.push_str(BESIDE)?;
    push_types(out, program)
}
