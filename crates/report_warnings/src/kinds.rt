//! The kinds of warnings.

ghost use Rattle.std.specs.Prelude.{◌≡◌, [], OnOk};
ghost use Rattle.report_print.specs.Reports.{HasPlaceMore};
ghost use Rattle.report_warnings.specs.Kinds.{kind_name};

use cranelift_isle::syntax::Pos;
use report_print::report::{Level, Report};
use std::alloc::{AllocError, Global};

/// A kind of warning. docs/USING.md has an example of each.
#[derive(Clone, Copy, PartialEq, Eq)]
pub enum Warning {
    /// A rule can never be taken.
    NeverRun,
    /// A priority has no effect.
    Priority,
    /// No rule takes some value, and the term can't fail.
    Uncovered,
    /// A term calls itself without `rec`, or has `rec` and doesn't.
    Recursion,
    /// A constant in a pattern may be equal to what it is taken to differ from.
    Constant,
    /// A variable looks like something else.
    Name,
    /// A variable is never used.
    Unused,
    /// A literal is out of range.
    Literal,
    /// A condition is always true.
    Always,
}

/// All kinds of warnings.
pub const WARNINGS: [Warning; 9] = [
    Warning::NeverRun,
    Warning::Priority,
    Warning::Uncovered,
    Warning::Recursion,
    Warning::Constant,
    Warning::Name,
    Warning::Unused,
    Warning::Literal,
    Warning::Always,
];

impl Warning {
    /// The name of the kind.
    pub fn name(self) -> &'static str
        ensures { result.now ≡ kind_name self }
    {
        match self {
            Warning::NeverRun => "never-run",
            Warning::Priority => "priority",
            Warning::Uncovered => "uncovered",
            Warning::Recursion => "recursion",
            Warning::Constant => "constant",
            Warning::Name => "name",
            Warning::Unused => "unused",
            Warning::Literal => "literal",
            Warning::Always => "always",
        }
    }
}

/// Whether a report is a warning of one of these kinds.
pub fn is_one_of(report: &Report, kinds: &[Warning]) -> bool {
    kinds.iter().any(|kind| kind.name() == report.kind)
}

// A warning with these words and places to come.
pub(crate) fn begun(alloc: Global, kind: Warning, message: String) -> Report
    ensures kind { result.kind.now ≡ kind_name kind }
    ensures places { result.labels.items ≡ [] }
{
    Report::new(alloc, Level::Warning, kind.name(), message)
}

// Adds a place, with these words.
pub(crate) fn add_place(
    alloc: Global,
    report: &mut Report,
    pos: Pos,
    text: &str,
) -> Result<(), AllocError>
    ensures { OnOk result (HasPlaceMore pos report.old report.new) }
{
    report.add_label(pos, String::from_str(alloc, text)?)
}
