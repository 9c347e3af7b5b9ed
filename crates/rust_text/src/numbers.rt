//! Integers as Rust has them.

ghost use Rattle.std.specs.Prelude.{◌≡◌, [], ◌∷◌, ◌++◌, ◌<◌, Some, OnOk, false, string_bytes};
ghost use Rattle.std.specs.Fmt.{digit_glyph, digits};
ghost use Rattle.core_types.specs.Builtin.{builtin_place};
ghost use Rattle.core_types.specs.declared.builtin.BuiltinType.TheVariants.{Int};
ghost use Rattle.rust_text.specs.ProgramNames.{digits_written, integer_written};

use cranelift_isle::sema::IntType;
use std::alloc::AllocError;

/// Adds an integer of a built-in type with the type's name behind it, one without sign in hexadecimal digits. Of `u128` a negative
/// number stands for the one with the same bits.
#[tactic(auto, using(crate::proofs::IntegerTexts::signed_place, crate::proofs::IntegerTexts::name_at_place))]
pub(crate) fn push_int_of(out: &mut String, val: i128, ty: IntType) -> Result<(), AllocError>
    ensures { OnOk result (string_bytes out.new ≡ string_bytes out.old ++ integer_written val (Some (builtin_place (Int ty)))) }
{
    push_digits(out, val, ty.is_signed())?;
    out.push('_')?;
    out.push_str(ty.name())
}

fn push_digits(out: &mut String, val: i128, is_signed: bool) -> Result<(), AllocError>
    ensures { OnOk result (string_bytes out.new ≡ string_bytes out.old ++ digits_written is_signed val) }
{
    if is_signed {
        return write!(out, "{val}");
    }
    out.push_str("0x")?;
    push_hexadecimal(out, val.cast_unsigned())
}

fn push_hexadecimal(out: &mut String, number: u128) -> Result<(), AllocError>
    ensures { OnOk result (string_bytes out.new ≡ string_bytes out.old ++ digits 16 false number) }
{
    if number < 16 {
        return push_digit(out, number);
    }
    push_hexadecimal(out, number / 16)?;
    push_digit(out, number % 16)
}

fn push_digit(out: &mut String, digit: u128) -> Result<(), AllocError>
    requires { digit < 16 }
    ensures { OnOk result (string_bytes out.new ≡ string_bytes out.old ++ digit_glyph false digit ∷ []) }
{
    out.push(digit_of(digit as u8))
}

fn digit_of(digit: u8) -> char
    requires { digit < 16 }
    ensures same { result ≡ digit_glyph false digit }
    ensures ascii { result < 128 }
{
    char::from(if digit < 10 {
        b'0' + digit
    } else {
        b'a' + (digit - 10)
    })
}
