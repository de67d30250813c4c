//! The signs of both languages. A sign is told by its place in its list, from 0 on.

ghost use Rattle.std.specs.Prelude.{◌≡◌, ◌∷◌, [], map};
ghost use Rattle.std.specs.List.{list_all};
ghost use Rattle.token_core.specs.Scan.{goes_on};
ghost use Rattle.token_core.specs.Words.{place_in, signs};

use crate::words::place_among;

/// The signs, in the standard's order.
#[rattlefmt::skip]
static SIGNS: [&[u8]; 43] = [
    b"{", b"}", b"[", b"]", b"(", b")", b"<", b">", b";", b",", b".", b"..", b":", b"::", b":>",
    b":>>", b"::>", b"=", b"==", b"!=", b"===", b"!==", b"<=", b">=", b"+", b"-", b"*", b"**",
    b"/", b"%", b"&", b"|", b"~", b"^", b"@", b"@@", b"#", b"$", b"?", b"??", b"->", b"=>", b":=",
];

/// For each byte the number of the sign that it is alone.
#[rattlefmt::skip]
static SINGLE_SIGNS: [Option<u8>; 256] = [
    None,     None,     None,     None,     None,     None,     None,     None,
    None,     None,     None,     None,     None,     None,     None,     None,
    None,     None,     None,     None,     None,     None,     None,     None,
    None,     None,     None,     None,     None,     None,     None,     None,
    None,     None,     None,     Some(36), Some(37), Some(29), Some(30), None,
    Some(4),  Some(5),  Some(26), Some(24), Some(9),  Some(25), Some(10), Some(28),
    None,     None,     None,     None,     None,     None,     None,     None,
    None,     None,     Some(12), Some(8),  Some(6),  Some(17), Some(7),  Some(38),
    Some(34), None,     None,     None,     None,     None,     None,     None,
    None,     None,     None,     None,     None,     None,     None,     None,
    None,     None,     None,     None,     None,     None,     None,     None,
    None,     None,     None,     Some(2),  None,     Some(3),  Some(33), None,
    None,     None,     None,     None,     None,     None,     None,     None,
    None,     None,     None,     None,     None,     None,     None,     None,
    None,     None,     None,     None,     None,     None,     None,     None,
    None,     None,     None,     Some(0),  Some(31), Some(1),  Some(32), None,
    None,     None,     None,     None,     None,     None,     None,     None,
    None,     None,     None,     None,     None,     None,     None,     None,
    None,     None,     None,     None,     None,     None,     None,     None,
    None,     None,     None,     None,     None,     None,     None,     None,
    None,     None,     None,     None,     None,     None,     None,     None,
    None,     None,     None,     None,     None,     None,     None,     None,
    None,     None,     None,     None,     None,     None,     None,     None,
    None,     None,     None,     None,     None,     None,     None,     None,
    None,     None,     None,     None,     None,     None,     None,     None,
    None,     None,     None,     None,     None,     None,     None,     None,
    None,     None,     None,     None,     None,     None,     None,     None,
    None,     None,     None,     None,     None,     None,     None,     None,
    None,     None,     None,     None,     None,     None,     None,     None,
    None,     None,     None,     None,     None,     None,     None,     None,
    None,     None,     None,     None,     None,     None,     None,     None,
    None,     None,     None,     None,     None,     None,     None,     None,
];

/// The signs, each by its number.
fn all_signs() -> &'static [&'static [u8]]
    ensures { map (λ sign. sign.now) result.now ≡ signs }
{
    &SIGNS
}

/// The number of the sign that this byte is alone.
fn single_sign(byte: u8) -> Option<u8>
    ensures { result ≡ place_in signs (byte ∷ []) }
{
    SINGLE_SIGNS[byte as usize]
}

/// Whether a sign has the byte behind its first.
fn is_behind_first(byte: u8) -> bool
    ensures { result ≡ goes_on byte }
{
    matches!(byte, b'.' | b':' | b'>' | b'=' | b'*' | b'@' | b'?')
}

/// Whether a sign may have each of the bytes behind its first.
fn are_behind_first(bytes: &[u8]) -> bool
    ensures { result ≡ list_all goes_on bytes.now }
{
    bytes.iter().all(|byte| is_behind_first(*byte))
}

/// The number of the sign that is spelt so.
pub fn sign_number(bytes: &[u8]) -> Option<u8>
    ensures { result ≡ place_in signs bytes.now }
{
    let [first, rest @ ..] = bytes else {
        return None;
    };
    if rest.is_empty() {
        return single_sign(*first);
    }
    if !are_behind_first(rest) {
        return None;
    }
    let number = place_among(all_signs(), bytes)?;
    Some(number as u8)
}
