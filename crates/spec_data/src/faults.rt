//! Why an expression becomes no data.

use core_syntax::syntax::Pos;
use spec_cases::faults::Fault;
use spec_tables::faults::{SpecError, SpecFault};
use std::alloc::{AllocError, AllocFailed, Global};

/// Why an expression becomes no data.
#[derive(Drop)]
pub(crate) enum Stop {
    /// There is no data at all.
    Fault(Fault),
    /// The expression is wrong.
    Wrong(SpecError),
}

impl From<Fault> for Stop {
    fn from(fault: Fault) -> Stop {
        Stop::Fault(fault)
    }
}

impl From<AllocError> for Stop {
    fn from(refused: AllocError) -> Stop {
        Stop::Fault(Fault::Memory(refused))
    }
}

impl<T: Drop> From<AllocFailed<T>> for Stop {
    fn from(failed: AllocFailed<T>) -> Stop {
        Stop::Fault(Fault::Memory(AllocError::from(failed)))
    }
}

/// That a spec is wrong at a place.
pub(crate) fn wrong(pos: Pos, message: Result<String, AllocError>) -> Stop {
    wrong_as("spec", pos, message)
}

/// That a spec is wrong at a place, by an error of this kind.
pub(crate) fn wrong_as(code: &'static str, pos: Pos, message: Result<String, AllocError>) -> Stop {
    match message {
        Ok(message) => Stop::Wrong(SpecError {
            code,
            pos,
            message,
            other: None,
        }),
        Err(refused) => Stop::Fault(Fault::Memory(refused)),
    }
}

impl From<SpecFault> for Stop {
    fn from(fault: SpecFault) -> Stop {
        match fault {
            SpecFault::Wrong(error) => Stop::Wrong(error),
            SpecFault::Memory(refused) => Stop::Fault(Fault::Memory(refused)),
        }
    }
}

/// Notes what is wrong at a place with a text.
pub(crate) fn report(
    alloc: Global,
    code: &'static str,
    pos: Pos,
    why: &str,
    errors: &mut Vec<SpecError>,
) -> Result<(), AllocError> {
    let message = String::from_str(alloc, why)?;
    note_text(errors, code, pos, message)
}

/// Notes that something is wrong at a place.
pub(crate) fn note_text(
    errors: &mut Vec<SpecError>,
    code: &'static str,
    pos: Pos,
    message: String,
) -> Result<(), AllocError> {
    note(
        errors,
        SpecError {
            code,
            pos,
            message,
            other: None,
        },
    )
}

/// Notes what is wrong, unless it is noted.
pub(crate) fn note(errors: &mut Vec<SpecError>, error: SpecError) -> Result<(), AllocError> {
    if !is_noted(errors, &error) {
        errors.push(error)?;
    }
    Ok(())
}

/// Notes what is wrong, unless something is noted at its place.
pub(crate) fn note_first(errors: &mut Vec<SpecError>, error: SpecError) -> Result<(), AllocError> {
    for known in &*errors {
        if known.pos == error.pos {
            return Ok(());
        }
    }
    errors.push(error)?;
    Ok(())
}

// Whether the same is noted at the same place.
fn is_noted(errors: &[SpecError], error: &SpecError) -> bool {
    for known in errors {
        if known.pos == error.pos
            && known.code == error.code
            && known.message.as_str() == error.message.as_str()
        {
            return true;
        }
    }
    false
}
