//! Why a formula isn't made.
ghost use Rattle.std.specs.Prelude.{◌≡◌, alloc_error};
ghost use Rattle.spec_cases.specs.declared.faults.Fault.TheVariants.{Memory};

use std::alloc::{AllocError, AllocFailed};

/// Why a formula isn't made.
#[derive(Debug)]
pub enum Fault {
    /// The allocator refused.
    Memory(AllocError),
    /// There are as many formulas as have numbers.
    Full,
    /// It would be made of a formula that isn't there.
    Foreign,
    /// It has a width past 2 to 32, or a number past 2 to 127.
    TooGreat,
    /// A value would come to more cases than are made.
    TooMany,
}

impl From<AllocError> for Fault {
    ghost from_gives = { λ a e. e ≡ Memory a };

    fn from(e: AllocError) -> Fault {
        Fault::Memory(e)
    }
}

impl<T: Drop> From<AllocFailed<T>> for Fault {
    ghost from_gives = { λ _ e. e ≡ Memory alloc_error };

    fn from(e: AllocFailed<T>) -> Fault {
        Fault::Memory(AllocError::from(e))
    }
}

impl Drop for Fault {
    fn drop(self) {
        match self {
            Fault::Memory(_) => {}
            Fault::Full => {}
            Fault::Foreign => {}
            Fault::TooGreat => {}
            Fault::TooMany => {}
        }
    }
}
