//! How code is written, and why a program has none.

ghost use Rattle.std.specs.Prelude.{◌≡◌, [], false, true};

pub use crate::faults::CodeError;
use std::alloc::Global;

/// How code is written. Upstream's `CodegenOptions`.
pub struct CodegenOptions {
    /// Whether the code begins without attributes of its file. `include!` refuses code that has them.
    pub exclude_global_allow_pragmas: bool,
    /// What to show in place of the beginnings of file names. If a name has several of these beginnings, the first one counts.
    pub prefixes: Vec<Prefix>,
    /// Whether each result is logged, by the crate `log`.
    pub emit_logging: bool,
}

/// The beginning of a file name, and what to show in its place. Upstream's `Prefix`.
pub struct Prefix {
    /// The beginning.
    pub prefix: String,
    /// What to show.
    pub name: String,
}

impl Drop for CodegenOptions {
    fn drop(self) {
        let Self {
            exclude_global_allow_pragmas: _,
            prefixes: _,
            emit_logging: _,
        } = self;
    }
}

impl Drop for Prefix {
    fn drop(self) {
        let Self { prefix: _, name: _ } = self;
    }
}

impl CodegenOptions {
    /// The options for code that `include!` takes in: no attributes of the file, whole file names, and no logging.
    pub fn included(alloc: Global) -> CodegenOptions
        ensures excluded { result.exclude_global_allow_pragmas ≡ true }
        ensures prefixes { result.prefixes.items ≡ [] }
        ensures emit_logging { result.emit_logging ≡ false }
    {
        CodegenOptions {
            exclude_global_allow_pragmas: true,
            prefixes: Vec::new(alloc),
            emit_logging: false,
        }
    }
}
