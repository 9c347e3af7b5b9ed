//! What comes before the first item.

ghost use Rattle.std.specs.Prelude.{◌≡◌, ◌++◌, OnOk, string_bytes};
ghost use Rattle.rust_items.specs.LineViews.{lines_view};
ghost use Rattle.rust_items.specs.WrittenItems.{head_written, unless};

use crate::lines::Lines;
use crate::options::CodegenOptions;
use std::alloc::AllocError;

/// What the code begins with, below its first line.
pub const FIRST: &str = "//
// Made of the rules in:
";

/// The lints that code in a file of its own allows.
pub const ALLOWS: &str = "
#![allow(dead_code, unreachable_code, unreachable_patterns)]
#![allow(unused_imports, unused_variables, non_snake_case, unused_mut)]
#![allow(irrefutable_let_patterns, unused_assignments, non_camel_case_types)]
";

/// Names that the code doesn't declare come from the module above.
pub const IMPORTS: &str = "
#[allow(unused_imports)]
use super::*;
";

/// Adds the lines before the first item, but for the first line of the code: which files it is made of, attributes, imports.
pub fn push_head(
    out: &mut String,
    lines: &Lines<'_>,
    options: &CodegenOptions,
) -> Result<(), AllocError>
    ensures { OnOk result (string_bytes out.new ≡ string_bytes out.old ++ head_written (lines_view lines.now) options.now.exclude_global_allow_pragmas) }
{
    out.push_str(FIRST)?;
    lines.push_files(out)?;
    push_allows(out, options.exclude_global_allow_pragmas)?;
    out.push_str(IMPORTS)
}

// Adds the attributes of a file, unless there are to be none.
fn push_allows(out: &mut String, excluded: bool) -> Result<(), AllocError>
    ensures { OnOk result (string_bytes out.new ≡ string_bytes out.old ++ unless excluded ALLOWS.now) }
{
    out.push_str(if excluded { "" } else { ALLOWS })
}
