//! Operators on words that are written, as numbers. A number past 2 to 128 is too great, and so is a width past 127.
ghost use Rattle.std.specs.Prelude.{◌≡◌, ◌+◌, ◌-◌, ◌*◌, ◌/◌, ◌%◌, ◌^◌, ◌<◌, pos, int_lt, IfOk};
ghost use Rattle.laws_specs.specs.WordOperators as W;
ghost use Rattle.laws_specs.specs.Words as D;
ghost use Rattle.spec_cases.specs.Literals.{literal_view};

use crate::faults::Fault;
use crate::literals::Literal;

// Two to a width.
fn power(width: u32) -> Result<u128, Fault>
    ensures value { IfOk result (λ n. n ≡ 2 ^ width) }
    ensures positive { IfOk result (λ n. 0 < n) }
{
    match 2u128.checked_pow(width) {
        None => Err(Fault::TooGreat),
        Some(whole) => {
            if whole == 0 {
                Err(Fault::TooGreat)
            } else {
                Ok(whole)
            }
        }
    }
}

fn sum(a: u128, b: u128) -> Result<u128, Fault>
    ensures { IfOk result (λ n. n ≡ a + b) }
{
    match a.checked_add(b) {
        None => Err(Fault::TooGreat),
        Some(n) => Ok(n),
    }
}

fn product(a: u128, b: u128) -> Result<u128, Fault>
    ensures { IfOk result (λ n. n ≡ a * b) }
{
    match a.checked_mul(b) {
        None => Err(Fault::TooGreat),
        Some(n) => Ok(n),
    }
}

// The integer of a number.
pub(crate) fn integer(number: u128) -> Result<i128, Fault>
    ensures { IfOk result (λ z. z ≡ pos number) }
{
    match i128::try_from(number) {
        Err(_) => Err(Fault::TooGreat),
        Ok(n) => Ok(n),
    }
}

pub(crate) fn plus(width: u32, a: u128, b: u128) -> Result<u128, Fault>
    ensures { IfOk result (λ n. n ≡ (a + b) % (2 ^ width)) }
{
    let whole = power(width)?;
    let all = sum(a, b)?;
    Ok(all % whole)
}

pub(crate) fn minus(width: u32, a: u128, b: u128) -> Result<u128, Fault>
    ensures { IfOk result (λ n. n ≡ ((a + 2 ^ width) - b) % (2 ^ width)) }
{
    let whole = power(width)?;
    let all = sum(a, whole)?;
    Ok(all.saturating_sub(b) % whole)
}

pub(crate) fn times(width: u32, a: u128, b: u128) -> Result<u128, Fault>
    ensures { IfOk result (λ n. n ≡ (a * b) % (2 ^ width)) }
{
    let whole = power(width)?;
    let all = product(a, b)?;
    Ok(all % whole)
}

// All bits are set.
fn all_ones(width: u32) -> Result<u128, Fault>
    ensures { IfOk result (λ n. n ≡ W.all_ones width) }
{
    let whole = power(width)?;
    Ok(whole - 1)
}

// The highest bit is set.
fn is_negative(width: u32, number: u128) -> Result<bool, Fault>
    ensures { IfOk result (λ b. b ≡ W.is_negative width number) }
{
    let half = power(width.saturating_sub(1))?;
    Ok(!(number < half))
}

pub(crate) fn not(width: u32, number: u128) -> Result<u128, Fault>
    ensures { IfOk result (λ n. n ≡ W.all_ones width - number) }
{
    let ones = all_ones(width)?;
    Ok(ones.saturating_sub(number))
}

pub(crate) fn negated(width: u32, number: u128) -> Result<u128, Fault>
    ensures { IfOk result (λ n. n ≡ W.negated width number) }
{
    let whole = power(width)?;
    Ok(whole.saturating_sub(number) % whole)
}

// Without its sign.
fn magnitude(width: u32, number: u128) -> Result<u128, Fault>
    ensures { IfOk result (λ n. n ≡ W.magnitude width number) }
{
    if is_negative(width, number)? {
        Ok(negated(width, number)?)
    } else {
        Ok(number)
    }
}

fn with_sign(width: u32, sign: bool, number: u128) -> Result<u128, Fault>
    ensures { IfOk result (λ n. n ≡ W.with_sign width sign number) }
{
    if sign {
        Ok(negated(width, number)?)
    } else {
        Ok(number)
    }
}

#[tactic(auto, using(crate::proofs::WordSteps::quotient_other))]
pub(crate) fn quotient(width: u32, a: u128, b: u128) -> Result<u128, Fault>
    ensures { IfOk result (λ n. n ≡ W.quotient width a b) }
{
    if b == 0 {
        Ok(all_ones(width)?)
    } else {
        Ok(a / b)
    }
}

#[tactic(auto, using(crate::proofs::WordSteps::remainder_other))]
pub(crate) fn remainder(a: u128, b: u128) -> u128
    ensures { result ≡ W.remainder a b }
{
    if b == 0 { a } else { a % b }
}

pub(crate) fn quotient_by_signs(width: u32, a: u128, b: u128) -> Result<u128, Fault>
    ensures { IfOk result (λ n. n ≡ W.quotient_by_signs width a b) }
{
    let first = is_negative(width, a)?;
    let second = is_negative(width, b)?;
    let over = magnitude(width, a)?;
    let under = magnitude(width, b)?;
    let number = quotient(width, over, under)?;
    Ok(with_sign(width, !(first == second), number)?)
}

pub(crate) fn remainder_by_signs(width: u32, a: u128, b: u128) -> Result<u128, Fault>
    ensures { IfOk result (λ n. n ≡ W.remainder_by_signs width a b) }
{
    let sign = is_negative(width, a)?;
    let over = magnitude(width, a)?;
    let under = magnitude(width, b)?;
    Ok(with_sign(width, sign, remainder(over, under))?)
}

pub(crate) fn left_by(width: u32, a: u128, b: u128) -> Result<u128, Fault>
    ensures { IfOk result (λ n. n ≡ W.left_by width a b) }
{
    if b < width as u128 {
        let places = power(b as u32)?;
        Ok(times(width, a, places)?)
    } else {
        Ok(0)
    }
}

pub(crate) fn right_by(width: u32, a: u128, b: u128) -> Result<u128, Fault>
    ensures { IfOk result (λ n. n ≡ W.right_by width a b) }
{
    if b < width as u128 {
        let places = power(b as u32)?;
        Ok(a / places)
    } else {
        Ok(0)
    }
}

pub(crate) fn right_by_sign(width: u32, a: u128, b: u128) -> Result<u128, Fault>
    ensures { IfOk result (λ n. n ≡ W.right_by_sign width a b) }
{
    if is_negative(width, a)? {
        let inverse = not(width, a)?;
        let right = right_by(width, inverse, b)?;
        Ok(not(width, right)?)
    } else {
        Ok(right_by(width, a, b)?)
    }
}

// To the left by fewer places than there are bits.
fn turned(width: u32, a: u128, places: u32) -> Result<u128, Fault>
    ensures { IfOk result (λ n. n ≡ W.turned width a places) }
{
    let left = power(places)?;
    let right = power(width.saturating_sub(places))?;
    let high = times(width, a, left)?;
    Ok(sum(high, a / right)?)
}

// To the left by a number of places; of no bits nothing is turned.
#[tactic(auto, using(crate::proofs::WordSteps::turned_none))]
pub(crate) fn turned_by(width: u32, a: u128, places: u128) -> Result<u128, Fault>
    ensures { IfOk result (λ n. n ≡ W.turned width a (places % width)) }
{
    if width == 0 {
        Ok(a)
    } else {
        Ok(turned(width, a, (places % (width as u128)) as u32)?)
    }
}

// Likewise to the right.
#[tactic(auto, using(crate::proofs::WordSteps::turned_none))]
pub(crate) fn turned_back_by(width: u32, a: u128, places: u128) -> Result<u128, Fault>
    ensures { IfOk result (λ n. n ≡ W.turned_back width a (places % width)) }
{
    if width == 0 {
        Ok(a)
    } else {
        let right = (places % (width as u128)) as u32;
        Ok(turned(width, a, (width - right) % width)?)
    }
}

// An integer modulo a number, from 0 up.
#[tactic(auto, using(crate::proofs::WordSteps::residue_steps))]
fn residue(modulus: u128, z: i128) -> Result<u128, Fault>
    requires { 0 < modulus }
    ensures { IfOk result (λ n. n ≡ W.residue modulus z) }
{
    if z < 0 {
        let past = (z.unsigned_abs() - 1) % modulus;
        Ok((modulus - (past + 1)) % modulus)
    } else {
        Ok((z.unsigned_abs()) % modulus)
    }
}

pub(crate) fn word_of(width: u32, z: i128) -> Result<u128, Fault>
    ensures { IfOk result (λ n. n ≡ W.word_of width z) }
{
    let whole = power(width)?;
    Ok(residue(whole, z)?)
}

#[tactic(auto, using(crate::proofs::WordSteps::turned_none))]
pub(crate) fn turned_by_integer(width: u32, a: u128, z: i128) -> Result<u128, Fault>
    ensures { IfOk result (λ n. n ≡ W.turned width a (W.residue width z)) }
{
    if width == 0 {
        return Ok(a);
    }
    let places = residue(width as u128, z)?;
    match u32::try_from(places) {
        Err(_) => Err(Fault::TooGreat),
        Ok(left) => Ok(turned(width, a, left)?),
    }
}

#[tactic(auto, using(crate::proofs::WordSteps::turned_none))]
pub(crate) fn turned_back_by_integer(width: u32, a: u128, z: i128) -> Result<u128, Fault>
    ensures { IfOk result (λ n. n ≡ W.turned_back width a (W.residue width z)) }
{
    if width == 0 {
        return Ok(a);
    }
    let places = residue(width as u128, z)?;
    match u32::try_from(places) {
        Err(_) => Err(Fault::TooGreat),
        Ok(right) => Ok(turned(width, a, width.saturating_sub(right) % width)?),
    }
}

// The integer that a word is in two's complement.
#[tactic(auto, using(crate::proofs::WordSteps::negative_is))]
pub(crate) fn signed(width: u32, number: u128) -> Result<i128, Fault>
    ensures { IfOk result (λ z. z ≡ W.signed width number) }
{
    if is_negative(width, number)? {
        let whole = power(width)?;
        let below = integer(whole.saturating_sub(number))?;
        Ok(-below)
    } else {
        Ok(integer(number)?)
    }
}

pub(crate) fn signed_less(width: u32, a: u128, b: u128) -> Result<bool, Fault>
    ensures { IfOk result (λ t. t ≡ int_lt (W.signed width a) (W.signed width b)) }
{
    let first = signed(width, a)?;
    let second = signed(width, b)?;
    Ok(first < second)
}

// Both in a row.
pub(crate) fn joined(width: u32, a: u128, other: u32, b: u128) -> Result<Literal, Fault>
    ensures { IfOk result (λ x. literal_view x ≡ D.a_word (width + other) (a * 2 ^ other + b)) }
{
    let Some(both) = width.checked_add(other) else {
        return Err(Fault::TooGreat);
    };
    let whole = power(other)?;
    let high = product(a, whole)?;
    Ok(Literal::Word(both, sum(high, b)?))
}

// So many bits from one on.
pub(crate) fn bits(low: u32, count: u32, a: u128) -> Result<u128, Fault>
    ensures { IfOk result (λ n. n ≡ (a / 2 ^ low) % (2 ^ count)) }
{
    let below = power(low)?;
    let whole = power(count)?;
    Ok((a / below) % whole)
}
