//! The statuses of a call. Those that the command has too mean the same.

/// What is wanted is written.
pub const DONE: u32 = 0;

/// Something is wrong with the definitions, and what it is, is written.
pub const ERRORS: u32 = 1;

/// An option is a number that means nothing, or two options don't go together.
pub const WRONG_OPTION: u32 = 2;

/// Memory was refused, which says nothing of the definitions.
pub const NO_MEMORY: u32 = 3;

/// The lengths of names and texts don't add up to the bytes that are there.
pub const WRONG_LENGTHS: u32 = 5;

/// A name or a text isn't UTF-8.
pub const NOT_UTF8: u32 = 6;

/// The buffer is too small, and nothing is written.
pub const NO_ROOM: u32 = 7;

/// The definitions are accepted, but have no Rust code, since two of their names would be one: what is written says which.
pub const NO_CODE: u32 = 8;

/// The lengths of prefixes don't add up to their bytes, or the bytes of one aren't UTF-8.
pub const WRONG_PREFIX: u32 = 9;
