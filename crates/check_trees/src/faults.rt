//! Why something isn't read.

ghost use Rattle.std.specs.Prelude.{◌≡◌};
ghost use Rattle.check_trees.specs.declared.faults.ReadFault.TheVariants.{Memory};

use std::alloc::{AllocError, AllocFailed};

/// Why a text or a document isn't read.
#[derive(Clone, Copy)]
pub enum ReadFault {
    /// Memory is refused.
    Memory,
    /// It has not the form of a term.
    Unreadable,
}

impl From<AllocError> for ReadFault {
    ghost from_gives = { λ _ e. e ≡ Memory };

    fn from(_: AllocError) -> ReadFault {
        ReadFault::Memory
    }
}

impl<T: Drop> From<AllocFailed<T>> for ReadFault {
    ghost from_gives = { λ _ e. e ≡ Memory };

    fn from(_: AllocFailed<T>) -> ReadFault {
        ReadFault::Memory
    }
}
