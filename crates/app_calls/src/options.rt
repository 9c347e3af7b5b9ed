//! What a call is asked.

ghost use Rattle.std.specs.Prelude.{◌≡◌, is_some, IfSome};
ghost use Rattle.app_calls.specs.Known.{are_options, format_number, go_together, is_format, is_task, is_truth, task_number, truth_number, IsAskedBy};

/// What is wanted, in numbers, as C hands them in.
#[repr(C)]
#[derive(Clone, Copy)]
pub struct Options {
    /// What is to be done. 0: the trees of the terms. 1: nothing but what is likely not meant. 2: the Rust code of the terms.
    pub task: u32,
    /// How trees and reports are written. 0: for a person, reports with the lines that they speak of. 1: the same, each report
    /// in one line. 2: as 0, in a terminal's colours. 3: as JSON.
    pub format: u32,
    /// Whether uses of internal extractors are replaced by their templates: 1, as Rust code wants it, or 0.
    pub expand: u32,
    /// Whether Rust code begins without attributes of its file: 1, as `include!` wants it, or 0.
    pub exclude_global_allow_pragmas: u32,
    /// Whether Rust code logs each result, by the crate `log`: 1 or 0.
    pub emit_logging: u32,
}

/// What is to be done.
#[derive(Clone, Copy, PartialEq, Eq)]
pub enum CallTask {
    /// The trees of the terms.
    Trees,
    /// Nothing but what is likely not meant.
    Check,
    /// The Rust code of the terms.
    Code,
}

/// How trees and reports are written.
#[derive(Clone, Copy, PartialEq, Eq)]
pub enum ReportFormat {
    /// Reports with the lines that they speak of.
    Text,
    /// Each report in one line.
    Line,
    /// Reports with the lines that they speak of, in a terminal's colours.
    Colored,
    /// As JSON.
    Json,
}

/// What is wanted.
#[derive(Clone, Copy)]
pub struct CallRequest {
    /// What is to be done.
    pub task: CallTask,
    /// How trees and reports are written.
    pub format: ReportFormat,
    /// Whether uses of internal extractors are replaced by their templates.
    pub expand: bool,
    /// Whether Rust code begins without attributes of its file.
    pub exclude_global_allow_pragmas: bool,
    /// Whether Rust code logs each result.
    pub emit_logging: bool,
}

/// What these options ask for, or None where a number means nothing or they don't go together.
pub fn asked_by(options: &Options) -> Option<CallRequest>
    ensures known { is_some result ≡ are_options options.now }
    ensures asked { IfSome result (IsAskedBy options.now) }
{
    if !go_together(options) {
        return None;
    }
    let task = task_of(options.task)?;
    let format = format_of(options.format)?;
    let expand = truth_of(options.expand)?;
    let exclude_global_allow_pragmas = truth_of(options.exclude_global_allow_pragmas)?;
    let emit_logging = truth_of(options.emit_logging)?;
    Some(CallRequest {
        task,
        format,
        expand,
        exclude_global_allow_pragmas,
        emit_logging,
    })
}

// Whether options go together: Rust code is made of definitions whose internal extractors are expanded.
fn go_together(options: &Options) -> bool
    ensures { result ≡ go_together options.now }
{
    options.task != 2 || options.expand == 1
}

fn task_of(number: u32) -> Option<CallTask>
    ensures known { is_some result ≡ is_task number }
    ensures number { IfSome result (λ x. number ≡ task_number x) }
{
    match number {
        0 => Some(CallTask::Trees),
        1 => Some(CallTask::Check),
        2 => Some(CallTask::Code),
        _ => None,
    }
}

fn format_of(number: u32) -> Option<ReportFormat>
    ensures known { is_some result ≡ is_format number }
    ensures number { IfSome result (λ x. number ≡ format_number x) }
{
    match number {
        0 => Some(ReportFormat::Text),
        1 => Some(ReportFormat::Line),
        2 => Some(ReportFormat::Colored),
        3 => Some(ReportFormat::Json),
        _ => None,
    }
}

fn truth_of(number: u32) -> Option<bool>
    ensures known { is_some result ≡ is_truth number }
    ensures number { IfSome result (λ x. number ≡ truth_number x) }
{
    match number {
        0 => Some(false),
        1 => Some(true),
        _ => None,
    }
}
