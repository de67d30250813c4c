//! What a token of a text stands for.

ghost use Rattle.std.specs.Prelude.{◌≡◌, ◌<◌, ◌≤◌, ◌^◌, false, length, pos, IfOk, IsUtf8, OnOk, SomeIff};
ghost use Rattle.token_core.specs.Bytes.{escape_meaning};
ghost use Rattle.token_core.specs.Reading.{bytes_of, comment_meaning, commented, decoded, name_meaning, number_from, string_meaning, IsIntegerOf, IsSpellable, IsTokenOf};

use crate::token::{Token, TokenKind};
use element_store::{Name, Text};
use linker_base::NoMemory;
use std::alloc::Global;

/// The byte for which a backslash with this byte stands.
fn escape_meaning_of(byte: u8) -> u8
    ensures { result ≡ escape_meaning byte }
{
    match byte {
        b'b' => 0x08,
        b'f' => 0x0C,
        b't' => b'\t',
        b'n' => b'\n',
        other => other,
    }
}

/// What stands before the closing quote, without escapes.
fn decode(alloc: Global, bytes: &[u8], quote: u8) -> Result<Vec<u8>, NoMemory>
    ensures { IfOk result (λ v. v.items ≡ decoded quote false bytes.now) }
{
    let mut letters = Vec::new(alloc);
    let mut escaped = false;
    for byte in bytes {
        if escaped {
            letters.push(escape_meaning_of(*byte))?;
            escaped = false;
        } else if *byte == quote {
            break;
        } else if *byte == b'\\' {
            escaped = true;
        } else {
            letters.push(*byte)?;
        }
    }
    Ok(letters)
}

/// The bytes of a token.
fn token_bytes(text: &[u8], token: Token) -> &[u8]
    requires ordered { token.from ≤ token.upto }
    requires within { token.upto ≤ length text.now }
    ensures { result.now ≡ bytes_of text.now token }
{
    &text[token.from as usize..token.upto as usize]
}

/// What the bytes of a basic or quoted name stand for.
fn name_bytes(alloc: Global, bytes: &[u8]) -> Result<Vec<u8>, NoMemory>
    ensures { IfOk result (λ v. v.items ≡ name_meaning bytes.now) }
{
    match bytes {
        [b'\'', rest @ ..] => decode(alloc, rest, b'\''),
        _ => Ok(Vec::from_slice(alloc, bytes)?),
    }
}

/// What the bytes of a string stand for.
fn string_bytes(alloc: Global, bytes: &[u8]) -> Result<Vec<u8>, NoMemory>
    ensures { IfOk result (λ v. v.items ≡ string_meaning bytes.now) }
{
    match bytes {
        [_, rest @ ..] => decode(alloc, rest, b'"'),
        [] => Ok(Vec::new(alloc)),
    }
}

/// The name that a token of the text spells, without quotes and escapes. It can be spelt again.
pub fn name_of(alloc: Global, text: &[u8], token: Token) -> Result<Name, NoMemory>
    requires { IsTokenOf TokenKind.Name text.now token }
    ensures value { IfOk result (λ name. name ≡ name_meaning (bytes_of text.now token)) }
    ensures spellable { IfOk result (λ name. IsSpellable name) }
{
    let bytes = name_bytes(alloc, token_bytes(text, token))?;
    Ok(Name::of(bytes))
}

/// The text that a string of the text spells, without quotes and escapes. It can be spelt again.
pub fn string_of(alloc: Global, text: &[u8], token: Token) -> Result<Text, NoMemory>
    requires { IsTokenOf TokenKind.Quote text.now token }
    ensures value { IfOk result (λ string. string ≡ string_meaning (bytes_of text.now token)) }
    ensures spellable { IfOk result (λ string. IsSpellable string) }
{
    let bytes = string_bytes(alloc, token_bytes(text, token))?;
    Ok(Text::of(bytes))
}

/// What stands between the first two and the last two bytes.
fn inside(bytes: &[u8]) -> &[u8]
    requires { 4 ≤ length bytes.now }
    ensures { result.now ≡ comment_meaning bytes.now }
{
    &bytes[2..bytes.len() - 2]
}

/// What a comment of the text says: the bytes between its `/*` and its `*/`, as they are.
pub fn comment_of(alloc: Global, text: &[u8], token: Token) -> Result<Text, NoMemory>
    requires { IsTokenOf TokenKind.Comment text.now token }
    ensures value { IfOk result (λ comment. comment ≡ comment_meaning (bytes_of text.now token)) }
    ensures utf8 { IfOk result (λ comment. IsUtf8 comment) }
    ensures again { IfOk result (λ comment. commented comment ≡ bytes_of text.now token) }
{
    let bytes = inside(token_bytes(text, token));
    Ok(Text::of(Vec::from_slice(alloc, bytes)?))
}

/// The number for which the digits stand, None where it passes 9,223,372,036,854,775,807.
fn number_of(digits: &[u8]) -> Option<i64>
    ensures { SomeIff result (number_from 0 digits.now < 2 ^ 63) (pos (number_from 0 digits.now)) }
{
    let mut number = 0u64;
    for digit in digits {
        let Some(tenfold) = number.checked_mul(10) else {
            return None;
        };
        // The bytes are digits, so the difference is that of a digit to zero.
        let value = u64::from(digit.saturating_sub(b'0'));
        let Some(sum) = tenfold.checked_add(value) else {
            return None;
        };
        number = sum;
    }
    i64::try_from(number).ok()
}

/// The number for which an integer of the text stands, None exactly where it passes
/// 9,223,372,036,854,775,807.
pub fn integer_of(text: &[u8], token: Token) -> Option<i64>
    requires { IsTokenOf TokenKind.Integer text.now token }
    ensures { IsIntegerOf result (bytes_of text.now token) }
{
    number_of(token_bytes(text, token))
}
