//! Why trees for a verifier aren't printed.

ghost use Rattle.std.specs.Prelude.{◌≡◌, alloc_error};
ghost use Rattle.text_writer.specs.declared.spec_faults.SpecPrintFault.TheVariants.{Memory};

use core_syntax::syntax::Pos;
use std::alloc::{AllocError, AllocFailed};

/// Why trees for a verifier aren't printed.
#[derive(Debug, Drop)]
pub enum SpecPrintFault {
    /// The allocator refused.
    Memory(AllocError),
    /// No text spells this tree or this definition, which stands there.
    Unspellable(Pos),
    /// No tree has the number of this definition for other tools, or no such definition has the number of this tree. `print` never
    /// answers so.
    Unmatched(usize),
}

impl From<AllocError> for SpecPrintFault {
    ghost from_gives = { λ a e. e ≡ Memory a };

    fn from(e: AllocError) -> SpecPrintFault {
        SpecPrintFault::Memory(e)
    }
}

impl<T: Drop> From<AllocFailed<T>> for SpecPrintFault {
    ghost from_gives = { λ _ e. e ≡ Memory alloc_error };

    fn from(e: AllocFailed<T>) -> SpecPrintFault {
        SpecPrintFault::Memory(AllocError::from(e))
    }
}
