//! Why a program has no code.

ghost use Rattle.std.specs.Prelude.{◌≡◌};
ghost use Rattle.rust_items.specs.declared.faults.CodeError.TheVariants.{Memory};

use std::alloc::{AllocError, AllocFailed};

/// Why a program has no code.
#[derive(Debug, Drop)]
pub enum CodeError {
    /// Memory was refused, which says nothing of the program.
    Memory,
    /// Two names would be one in Rust, or a name is one that the code itself uses: a sentence that says which, without a
    /// line's end.
    Names(String),
}

impl From<AllocError> for CodeError {
    ghost from_gives = { λ _ e. e ≡ Memory };

    fn from(_: AllocError) -> CodeError {
        CodeError::Memory
    }
}

impl<T: Drop> From<AllocFailed<T>> for CodeError {
    ghost from_gives = { λ _ e. e ≡ Memory };

    fn from(_: AllocFailed<T>) -> CodeError {
        CodeError::Memory
    }
}
