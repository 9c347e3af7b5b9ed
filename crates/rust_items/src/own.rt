//! The names that the code takes for itself.

ghost use Rattle.std.specs.Prelude.{◌≡◌};
ghost use Rattle.std.specs.Char.{is_ascii_digit};
ghost use Rattle.std.specs.List.{list_all};
ghost use Rattle.rust_items.specs.OwnNames.{is_number, is_numbered, is_own_type, is_own_value, is_variable, own_types, own_values};
ghost use Rattle.rust_items.specs.RustNames.{is_among};

use crate::names::is_among;

// The values that the code uses beside its variables.
const OWN_VALUES: [&str; 5] = ["ctx", "returns", "Some", "None", "MAX_ISLE_RETURNS"];

// The types, traits and crates that the code uses.
const OWN_TYPES: [&str; 11] = [
    "C",
    "Context",
    "ContextIter",
    "IntoContextIter",
    "ContextIterWrapper",
    "ConstructorVec",
    "Length",
    "Option",
    "Default",
    "Extend",
    "isle_alloc",
];

/// Whether a name, as it is written, is that of a type, a trait or a crate that the code uses, or of a value.
pub fn is_own_type(name: &str) -> bool
    ensures { result ≡ is_own_type name.now }
{
    is_type(name) || is_own_value(name)
}

/// Whether a name, as it is written, is that of a variable of the code, or of a variant or a constant that it uses.
pub fn is_own_value(name: &str) -> bool
    ensures { result ≡ is_own_value name.now }
{
    is_value(name) || is_variable(name)
}

// Whether a name is that of a type, a trait or a crate.
fn is_type(name: &str) -> bool
    ensures { result ≡ is_among own_types name.now }
{
    is_among(name, &OWN_TYPES)
}

// Whether a name is that of a value beside the variables.
fn is_value(name: &str) -> bool
    ensures { result ≡ is_among own_values name.now }
{
    is_among(name, &OWN_VALUES)
}

// Whether a name is that of a variable or of a parameter: `v5`, `arg0`.
fn is_variable(name: &str) -> bool
    ensures { result ≡ is_variable name.now }
{
    is_numbered(name, "v") || is_numbered(name, "arg")
}

// Whether a name is this word and a number.
fn is_numbered(name: &str, word: &str) -> bool
    ensures { result ≡ is_numbered word.now name.now }
{
    match name.strip_prefix(word) {
        Some(number) => is_number(number.as_bytes()),
        None => false,
    }
}

// Whether there are only digits, one at least.
fn is_number(bytes: &[u8]) -> bool
    ensures { result ≡ is_number bytes.now }
{
    match bytes {
        [] => false,
        [first, rest @ ..] => first.is_ascii_digit() && are_digits(rest),
    }
}

fn are_digits(bytes: &[u8]) -> bool
    ensures { result ≡ list_all is_ascii_digit bytes.now }
{
    bytes.iter().all(|b| b.is_ascii_digit())
}
