//! Why there is no condition of a rule.

use spec_cases::faults::Fault;
use std::alloc::{AllocError, AllocFailed};

/// Why there is no condition of a rule.
#[derive(Debug, Drop)]
pub enum CallFault {
    /// The allocator refused.
    Memory(AllocError),
    /// A number is no site's, or no term's.
    Foreign,
    /// There would be more sites than have numbers.
    Full,
}

impl From<AllocError> for CallFault {
    fn from(refused: AllocError) -> CallFault {
        CallFault::Memory(refused)
    }
}

impl<T: Drop> From<AllocFailed<T>> for CallFault {
    fn from(failed: AllocFailed<T>) -> CallFault {
        CallFault::Memory(AllocError::from(failed))
    }
}

impl From<Fault> for CallFault {
    fn from(fault: Fault) -> CallFault {
        match &fault {
            Fault::Memory(refused) => CallFault::Memory(*refused),
            Fault::Full => CallFault::Full,
            Fault::Foreign | Fault::TooGreat | Fault::TooMany => CallFault::Foreign,
        }
    }
}
