//! Why there is no answer.

use crate::values::Unanswered;
use std::alloc::{AllocError, AllocFailed, Global};

/// Why there is no answer.
#[derive(Drop)]
pub enum TraceFault {
    /// Memory was refused.
    Memory,
    /// This call has no answer.
    NoAnswer(String),
    /// Lines that say what is wrong, the last one without its end.
    Text(String),
}

impl From<AllocError> for TraceFault {
    fn from(_: AllocError) -> TraceFault {
        TraceFault::Memory
    }
}

impl<T: Drop> From<AllocFailed<T>> for TraceFault {
    fn from(_: AllocFailed<T>) -> TraceFault {
        TraceFault::Memory
    }
}

/// A fault with this text.
pub fn fault_saying(text: Result<String, AllocError>) -> TraceFault {
    match text {
        Ok(text) => TraceFault::Text(text),
        Err(AllocError) => TraceFault::Memory,
    }
}

/// The lines that tell a fault, the last one without its end.
///
/// # Errors
///
/// Where memory is or was refused.
pub fn fault_lines(alloc: Global, fault: TraceFault) -> Result<String, AllocError> {
    match fault {
        TraceFault::Memory => Err(AllocError),
        TraceFault::NoAnswer(call) => no_answer_line(alloc, &call),
        TraceFault::Text(text) => Ok(text),
    }
}

/// The line that says that a call has no answer.
///
/// # Errors
///
/// Where memory is refused.
pub fn no_answer_line(alloc: Global, call: &str) -> Result<String, AllocError> {
    format!(in alloc; "error[call]: no answer for {call}")
}

/// That something is wrong with a call.
pub fn fault_of_call(alloc: Global, why: Unanswered) -> TraceFault {
    match why {
        Unanswered::Call(why) => fault_saying(format!(in alloc; "error: {why}")),
        Unanswered::Memory => TraceFault::Memory,
    }
}
