//! Why there is no text.
ghost use Rattle.std.specs.Prelude.{◌≡◌, alloc_error};
ghost use Rattle.spec_texts.specs.declared.faults.Fault.TheVariants.{Memory};

use spec_cases::faults::Fault as Unmade;
use std::alloc::{AllocError, AllocFailed};

/// Why there is no text.
#[derive(Debug, Drop)]
pub enum Fault {
    /// The allocator refused.
    Memory(AllocError),
    /// A formula isn't there, or isn't of the sort that it is used at.
    Foreign,
    /// It has a width or a number that a solver isn't asked about: a word of no bits, a number that a word of its width can't be, or a
    /// width or a variant past 16 bits.
    Unfit,
    /// An operator has no text on such operands.
    Unspelled,
    /// It stands behind a text, and names what the text doesn't declare, or is made of too many others.
    Undeclared,
}

impl From<AllocError> for Fault {
    ghost from_gives = { λ a e. e ≡ Memory a };

    fn from(e: AllocError) -> Fault {
        Fault::Memory(e)
    }
}

impl<T: Drop> From<AllocFailed<T>> for Fault {
    ghost from_gives = { λ _ e. e ≡ Memory alloc_error };

    fn from(e: AllocFailed<T>) -> Fault {
        Fault::Memory(AllocError::from(e))
    }
}

impl From<Unmade> for Fault {
    fn from(e: Unmade) -> Fault {
        match &e {
            Unmade::Memory(error) => Fault::Memory(*error),
            Unmade::Full | Unmade::Foreign => Fault::Foreign,
            Unmade::TooGreat | Unmade::TooMany => Fault::Unfit,
        }
    }
}
