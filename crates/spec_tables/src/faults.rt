//! What is wrong with specs.

use core_syntax::syntax::Pos;
use std::alloc::{AllocError, AllocFailed};

/// What is wrong with a spec, and where.
#[derive(Drop)]
pub struct SpecError {
    /// What kind of error it is: `spec`, or `spec-` and a word.
    pub code: &'static str,
    /// The place that it is told at.
    pub pos: Pos,
    /// What is wrong, in one line.
    pub message: String,
    /// Another place that it speaks of.
    pub other: Option<Pos>,
}

/// Why a list says nothing.
#[derive(Drop)]
pub enum SpecFault {
    /// Memory was refused.
    Memory(AllocError),
    /// It is wrong.
    Wrong(SpecError),
}

impl From<AllocError> for SpecFault {
    fn from(refused: AllocError) -> SpecFault {
        SpecFault::Memory(refused)
    }
}

impl<T: Drop> From<AllocFailed<T>> for SpecFault {
    fn from(failed: AllocFailed<T>) -> SpecFault {
        SpecFault::Memory(AllocError::from(failed))
    }
}

/// That a spec is wrong at a place.
pub(crate) fn wrong(pos: Pos, message: Result<String, AllocError>) -> SpecFault {
    match message {
        Ok(message) => SpecFault::Wrong(SpecError {
            code: "spec",
            pos,
            message,
            other: None,
        }),
        Err(refused) => SpecFault::Memory(refused),
    }
}
