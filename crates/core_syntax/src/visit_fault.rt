//! Why a visit ended before its end.
ghost use Rattle.std.specs.Prelude.{◌≡◌, alloc_error};
ghost use Rattle.core_syntax.specs.declared.visit_fault.VisitFault.TheVariants.{Memory};

use crate::syntax::Limit;
use std::alloc::{AllocError, AllocFailed};

/// Why a visit ended before its end.
#[derive(Debug)]
pub enum VisitFault {
    /// The allocator refused.
    Memory(AllocError),
    /// The rule passed this limit, and is left out.
    Limit(Limit),
    /// The visitor wanted to see no more. No visitor of these crates gives it: it is for those of others.
    Stopped,
}

impl From<AllocError> for VisitFault {
    ghost from_gives = { λ a e. e ≡ Memory a };

    fn from(e: AllocError) -> VisitFault {
        VisitFault::Memory(e)
    }
}

impl<T: Drop> From<AllocFailed<T>> for VisitFault {
    ghost from_gives = { λ _ e. e ≡ Memory alloc_error };

    fn from(e: AllocFailed<T>) -> VisitFault {
        VisitFault::Memory(AllocError::from(e))
    }
}

// Written out, and so proved here once.
impl Drop for VisitFault {
    fn drop(self) {
        match self {
            VisitFault::Memory(_) => {}
            VisitFault::Limit(_) => {}
            VisitFault::Stopped => {}
        }
    }
}
