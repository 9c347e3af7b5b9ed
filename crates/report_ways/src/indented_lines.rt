//! Lines of explanations.

use report_print::lines::push_spaces;
use report_print::wrapping::push_wrapped;
use std::alloc::AllocError;

/// Adds a line behind so many spaces. A line that is too long goes on in a new line, behind four more spaces.
pub fn push_line(out: &mut String, indent: u64, text: &str) -> Result<(), AllocError> {
    push_spaces(out, indent)?;
    push_wrapped(out, indent, indent.saturating_add(4), text)?;
    out.push('\n')
}
