//! Numbers: a sign, a base, digits with `_` anywhere among them, and the range of 128 bits.

ghost use Rattle.std.specs.Prelude.{◌≡◌, ◌≤◌, ◌<◌, ◌^◌, ◌==◌, not, Ok, Err, MatchResult, SomeIff, ⊤};
ghost use Rattle.text_reader.specs.Faults.{FaultIsWithin};
ghost use Rattle.text_reader.specs.Forms.{PosIsWithin};
ghost use Rattle.std.specs.Char.{digit_value};
ghost use Rattle.std.specs.List.{list_all, list_any};
ghost use Rattle.text_reader.specs.Lexemes.{at_place};
ghost use Rattle.text_reader.specs.Numbers.{number_of, radix_of, are_digits, is_underscore_or_digit, digits_after, grown, sized, unsigned_number};
ghost use Rattle.core_syntax.specs.SyntaxViews.{position};
ghost use Rattle.text_reader.specs.Views.{Gives};

use crate::errors::{Mistake, ReadFault, fault};
use crate::source::Source;
use core_syntax::syntax::Pos;

/// The number that a word is. Past 2^127 - 1 it stands for the number with the same 128 bits.
pub fn number(at: Source, word: &[u8], pos: Pos) -> Result<i128, ReadFault>
    requires { PosIsWithin at.file at.len pos }
    ensures within { MatchResult result (λ _. ⊤) (FaultIsWithin at.file at.len) }
    ensures read { Gives (λ z. z) result (at_place (position pos) (number_of word.now)) }
{
    match number_or_mistake(word) {
        Ok(n) => Ok(n),
        Err(mistake) => Err(fault(mistake, pos)),
    }
}

#[tactic(auto, unfolding(crate::specs::Numbers::number_of))]
fn number_or_mistake(word: &[u8]) -> Result<i128, Mistake>
    ensures { result ≡ number_of word.now }
{
    match word {
        [b'-', unsigned @ ..] => unsigned_number(true, unsigned),
        _ => unsigned_number(false, word),
    }
}

// The number with this sign, of the digits with the mark of their base.
fn unsigned_number(is_negative: bool, word: &[u8]) -> Result<i128, Mistake>
    ensures { result ≡ unsigned_number is_negative (radix_of word.now) }
{
    let (radix, digits) = radix_of(word);
    if !are_digits(digits, radix) {
        return Err(Mistake::Digits);
    }
    match size_of(digits, radix) {
        Some(size) => signed(is_negative, size),
        None => Err(Mistake::NumberRange),
    }
}

// The base that digits are in, and the digits without its mark.
fn radix_of(word: &[u8]) -> (u32, &[u8])
    ensures value { (result.0, result.1.now) ≡ radix_of word.now }
    ensures lower { 2 ≤ result.0 }
    ensures upper { result.0 ≤ 16 }
{
    match word {
        [b'0', b'x' | b'X', digits @ ..] => (16, digits),
        [b'0', b'o' | b'O', digits @ ..] => (8, digits),
        [b'0', b'b' | b'B', digits @ ..] => (2, digits),
        _ => (10, word),
    }
}

// Whether bytes are digits of a base, at least one, and `_` anywhere.
fn are_digits(word: &[u8], radix: u32) -> bool
    ensures { result ≡ are_digits radix word.now }
{
    are_underscores_or_digits(word, radix) && has_more_than_underscores(word)
}

fn are_underscores_or_digits(word: &[u8], radix: u32) -> bool
    ensures { result ≡ list_all (is_underscore_or_digit radix) word.now }
{
    word.iter().all(|b| is_underscore_or_digit(*b, radix))
}

fn is_underscore_or_digit(byte: u8, radix: u32) -> bool
    ensures { result ≡ is_underscore_or_digit radix byte }
{
    byte == b'_' || digit_of(byte) < radix
}

fn has_more_than_underscores(word: &[u8]) -> bool
    ensures { result ≡ list_any (λ b. not (b == 95)) word.now }
{
    word.iter().any(|b| *b != b'_')
}

/// What a byte is as a digit, and 36 where it is none.
pub fn digit_of(byte: u8) -> u32
    ensures { result ≡ digit_value byte }
{
    match byte {
        b'0'..=b'9' => u32::from(byte - 48),
        b'A'..=b'Z' => u32::from(byte - 55),
        b'a'..=b'z' => u32::from(byte - 87),
        _ => 36,
    }
}

// A number with one more digit, if it has 128 bits.
fn with_digit(size: u128, radix: u32, byte: u8) -> Option<u128>
    ensures { SomeIff result (grown radix size byte < 2 ^ 128) (grown radix size byte) }
{
    if byte == b'_' {
        return Some(size);
    }
    let size = size.checked_mul(u128::from(radix))?;
    size.checked_add(u128::from(digit_of(byte)))
}

/// The number that digits spell, if it has 128 bits.
#[tactic(auto, using(crate::proofs::Grown::grown_parts))]
pub fn size_of(word: &[u8], radix: u32) -> Option<u128>
    requires lower { 2 ≤ radix }
    requires upper { radix ≤ 16 }
    ensures { SomeIff result (digits_after radix 0 word.now < 2 ^ 128) (digits_after radix 0 word.now) }
{
    let mut size = 0u128;
    for byte in word {
        size = with_digit(size, radix, *byte)?;
    }
    Some(size)
}

// The number of this size and sign, if it has 128 bits.
fn signed(is_negative: bool, size: u128) -> Result<i128, Mistake>
    ensures { result ≡ sized is_negative size }
{
    if is_negative {
        return match 0i128.checked_sub_unsigned(size) {
            Some(n) => Ok(n),
            None => Err(Mistake::NumberRange),
        };
    }
    Ok(size.cast_signed())
}
