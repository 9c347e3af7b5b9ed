//! Why words ask nothing.

ghost use Rattle.std.specs.Prelude.{◌≡◌, IfErr, IfOk, string_bytes};
ghost use Rattle.app_words.specs.Refusals.{Tells};
ghost use Rattle.app_words.specs.declared.unasked.Unasked.TheVariants.{Memory};

use std::alloc::{AllocError, AllocFailed, Global};

/// Why words ask nothing.
#[derive(Drop)]
pub enum Unasked {
    /// Memory was refused.
    Memory,
    /// What is wrong with the words, without a line's end.
    Words(String),
}

impl From<AllocError> for Unasked {
    ghost from_gives = { λ _ y. y ≡ Memory };

    fn from(_: AllocError) -> Unasked {
        Unasked::Memory
    }
}

impl<T: Drop> From<AllocFailed<T>> for Unasked {
    ghost from_gives = { λ _ y. y ≡ Memory };

    fn from(_: AllocFailed<T>) -> Unasked {
        Unasked::Memory
    }
}

/// That something is wrong with the words.
pub fn wrong(why: Result<String, AllocError>) -> Unasked
    ensures told { IfOk why (λ text. Tells (string_bytes text) result) }
    ensures refused { IfErr why (λ _. result ≡ Unasked.Memory) }
{
    match why {
        Ok(why) => Unasked::Words(why),
        Err(AllocError) => Unasked::Memory,
    }
}

/// The same, with a fixed text.
pub fn wrong_as(alloc: Global, why: &str) -> Unasked
    ensures { Tells why.now result }
{
    wrong(String::from_str(alloc, why))
}
