//! Whether values are equal, where they are written.
ghost use Rattle.std.specs.Prelude.{◌≡◌};
ghost use Rattle.spec_cases.specs.Written.{is_integer, is_same, is_truth, only_key};

use crate::cases::Case;
use crate::forms::Form;
use crate::formulas::{Fact, Integer};

impl Form {
    // Whether it is this truth, where it is a written one.
    fn is_truth(self, truth: bool) -> Option<bool>
        ensures { result ≡ is_truth truth self }
    {
        match self {
            Form::Fact(Fact::Known(own)) => Some(truth == own),
            Form::Fact(_)
            | Form::Integer(_)
            | Form::Word(_, _)
            | Form::Variant { .. }
            | Form::Struct { .. }
            | Form::AnyOf { .. }
            | Form::SomeAt { .. } => None,
        }
    }

    // Whether it is this integer, where it is a written one.
    fn is_integer(self, integer: i128) -> Option<bool>
        ensures { result ≡ is_integer integer self }
    {
        match self {
            Form::Integer(Integer::Written(own)) => Some(integer == own),
            Form::Fact(_)
            | Form::Integer(_)
            | Form::Word(_, _)
            | Form::Variant { .. }
            | Form::Struct { .. }
            | Form::AnyOf { .. }
            | Form::SomeAt { .. } => None,
        }
    }

    // Whether a value is this one, where both are written truths or integers.
    fn is_same(self, value: Form) -> Option<bool>
        ensures { result ≡ is_same self value }
    {
        match self {
            Form::Fact(Fact::Known(truth)) => value.is_truth(truth),
            Form::Integer(Integer::Written(integer)) => value.is_integer(integer),
            Form::Fact(_)
            | Form::Integer(_)
            | Form::Word(_, _)
            | Form::Variant { .. }
            | Form::Struct { .. }
            | Form::AnyOf { .. }
            | Form::SomeAt { .. } => None,
        }
    }
}

// Whether a value is the only one of these keys, where both are written truths or integers.
pub(crate) fn only_key(keys: &[Case<Form>], value: Form) -> Option<bool>
    ensures { result ≡ only_key keys.now value }
{
    match keys {
        [key] => key.gives.is_same(value),
        _ => None,
    }
}
