//! Why definitions aren't printed.

ghost use Rattle.std.specs.Prelude.{◌≡◌, alloc_error};
ghost use Rattle.text_writer.specs.declared.faults.PrintFault.TheVariants.{Memory};

use core_syntax::syntax::Pos;
use std::alloc::{AllocError, AllocFailed};

/// Why definitions aren't printed.
#[derive(Debug, Drop)]
pub enum PrintFault {
    /// The allocator refused.
    Memory(AllocError),
    /// No text spells this definition, which stands there. `None` is a definition for other tools, which keeps neither its list
    /// nor its place.
    Unspellable(Option<Pos>),
}

impl From<AllocError> for PrintFault {
    ghost from_gives = { λ a e. e ≡ Memory a };

    fn from(e: AllocError) -> PrintFault {
        PrintFault::Memory(e)
    }
}

impl<T: Drop> From<AllocFailed<T>> for PrintFault {
    ghost from_gives = { λ _ e. e ≡ Memory alloc_error };

    fn from(e: AllocFailed<T>) -> PrintFault {
        PrintFault::Memory(AllocError::from(e))
    }
}
