//! Lists of values, as solvers write them, and values as a person reads them.

ghost use Rattle.std.specs.Prelude.{◌≤◌};

use crate::tokens::Token;
use std::alloc::{AllocError, Global};

// Words below this number are told in decimal digits, others in hexadecimal ones.
const FIRST_LONG: u128 = 0x1_0000;

// The first item of some tokens, a word or a list, and what stands behind it.
fn first_item(tokens: &[Token]) -> Option<(&[Token], &[Token])> {
    let end = end_of_item(tokens)?;
    Some((tokens.get(..end)?, tokens.get(end..)?))
}

// Where the first item ends.
fn end_of_item(tokens: &[Token]) -> Option<usize> {
    let mut depth = 0usize;
    for (at, token) in tokens.iter().enumerate() {
        match token {
            Token::Open => depth = depth.saturating_add(1),
            Token::Close => depth = depth.checked_sub(1)?,
            Token::Word(_) => {}
        }
        if depth == 0 {
            return Some(at.saturating_add(1));
        }
    }
    None
}

/// What stands in a list, where the tokens are one list and nothing else.
pub(crate) fn list_in(tokens: &[Token]) -> Option<&[Token]> {
    let (item, rest) = first_item(tokens)?;
    match item {
        [Token::Open, ..] if rest.is_empty() => item.get(1..item.len().saturating_sub(1)),
        _ => None,
    }
}

/// The values of formulas, where the tokens are a list of pairs, each of a formula and its value: the answer to `get-value`. Where
/// there are no tokens, there are no values.
pub(crate) fn values_in(
    alloc: Global,
    tokens: &[Token],
) -> Result<Option<Vec<String>>, AllocError> {
    let mut values = Vec::new(alloc);
    if tokens.is_empty() {
        return Ok(Some(values));
    }
    let Some(mut left) = list_in(tokens) else {
        return Ok(None);
    };
    for _ in tokens {
        let Some((value, rest)) = first_value(left) else {
            break;
        };
        values.push(shown(alloc, value)?)?;
        left = rest;
    }
    Ok(if left.is_empty() { Some(values) } else { None })
}

// The value of the first pair, and what stands behind the pair.
fn first_value(pairs: &[Token]) -> Option<(&[Token], &[Token])> {
    let (pair, rest) = first_item(pairs)?;
    Some((value_in(pair)?, rest))
}

// The value in a pair of a formula and its value.
fn value_in(pair: &[Token]) -> Option<&[Token]> {
    let (_, behind) = first_item(list_in(pair)?)?;
    let (value, rest) = first_item(behind)?;
    if rest.is_empty() { Some(value) } else { None }
}

// A value as a person reads it.
fn shown(alloc: Global, value: &[Token]) -> Result<String, AllocError> {
    match word_in(value) {
        Some(word) if word < FIRST_LONG => format!(in alloc; "{word}"),
        Some(word) => format!(in alloc; "{word:#x}"),
        None => text_of(alloc, value),
    }
}

// The number that a value is of a word of some width: `#xff`, `#b01` or `(_ bv5 64)`.
fn word_in(value: &[Token]) -> Option<u128> {
    match value {
        [Token::Word(word)] => match word.strip_prefix("#x") {
            Some(digits) => number_in(digits, 16),
            None => number_in(word.strip_prefix("#b")?, 2),
        },
        [
            Token::Open,
            Token::Word(mark),
            Token::Word(word),
            Token::Word(_),
            Token::Close,
        ] if mark.as_str() == "_" => number_in(word.strip_prefix("bv")?, 10),
        _ => None,
    }
}

// The number of digits, unless it is too large.
fn number_in(digits: &str, base: u32) -> Option<u128>
    requires lowest { 2 ≤ base }
    requires highest { base ≤ 36 }
{
    if digits.is_empty() {
        return None;
    }
    let mut number = 0u128;
    for c in digits.chars() {
        let digit = c.to_digit(base)?;
        number = number
            .checked_mul(u128::from(base))?
            .checked_add(u128::from(digit))?;
    }
    Some(number)
}

// The text of a value that is no word. A negative integer has its sign before it.
fn text_of(alloc: Global, value: &[Token]) -> Result<String, AllocError> {
    match value {
        [
            Token::Open,
            Token::Word(sign),
            Token::Word(number),
            Token::Close,
        ] if sign.as_str() == "-" => format!(in alloc; "-{number}"),
        _ => joined(alloc, value),
    }
}

// Brackets and words with spaces between them.
fn joined(alloc: Global, tokens: &[Token]) -> Result<String, AllocError> {
    let mut text = String::new(alloc);
    let mut is_first = true;
    for token in tokens {
        if !is_first && !matches!(token, Token::Close) {
            text.push(' ')?;
        }
        text.push_str(written(token))?;
        is_first = matches!(token, Token::Open);
    }
    Ok(text)
}

// A bracket or a word as it was written.
fn written(token: &Token) -> &str {
    match token {
        Token::Open => "(",
        Token::Close => ")",
        Token::Word(word) => word.as_str(),
    }
}
