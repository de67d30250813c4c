//! How far the front of a text goes on in one form. These are the loops over bytes.

ghost use Rattle.std.specs.List.{prefix_len};
ghost use Rattle.std.specs.Prelude.{◌≡◌, ◌≤◌, ◌<◌, length, drop, IfSome, false, IsTrue};
ghost use Rattle.token_core.specs.Bytes.{is_digit, is_escape, is_in_line, is_plain, is_space, is_word};
ghost use Rattle.token_core.specs.Scan.{close_end, quote_end};

use crate::classes;

/// Whether it may stand between these quotes as it is.
pub fn is_plain_byte(byte: u8, quote: u8) -> bool
    ensures { result ≡ is_plain quote byte }
{
    byte >= 0x20 && byte != 0x7F && byte != quote && byte != b'\\'
}

/// Whether a backslash and this byte are an escape.
pub fn is_escape_byte(byte: u8) -> bool
    ensures { result ≡ is_escape byte }
{
    byte == b'\''
        || byte == b'"'
        || byte == b'b'
        || byte == b'f'
        || byte == b't'
        || byte == b'n'
        || byte == b'\\'
}

/// How many spaces stand at the front.
pub fn space_length(text: &[u8]) -> usize
    ensures value { result ≡ prefix_len is_space text.now }
    ensures within { result ≤ length text.now }
{
    text.iter()
        .take_while(|byte| classes::is_space_byte(**byte))
        .count()
}

/// How many bytes of a word stand at the front.
pub fn word_length(text: &[u8]) -> usize
    ensures value { result ≡ prefix_len is_word text.now }
    ensures within { result ≤ length text.now }
{
    text.iter()
        .take_while(|byte| classes::is_word_byte(**byte))
        .count()
}

/// How many digits stand at the front.
pub fn digits_length(text: &[u8]) -> usize
    ensures value { result ≡ prefix_len is_digit text.now }
    ensures within { result ≤ length text.now }
{
    text.iter()
        .take_while(|byte| classes::is_digit_byte(**byte))
        .count()
}

/// How many bytes stand at the front before the line ends.
pub fn line_length(text: &[u8]) -> usize
    ensures value { result ≡ prefix_len is_in_line text.now }
    ensures within { result ≤ length text.now }
{
    text.iter()
        .take_while(|byte| **byte != b'\n' && **byte != b'\r')
        .count()
}

/// How many bytes there are up to and with the first `*/`.
pub fn close_length(text: &[u8]) -> Option<usize>
    ensures value { result ≡ close_end false text.now }
    ensures within { IfSome result (λ n. n ≤ length text.now) }
{
    let mut starred = false;
    for (at, byte) in text.iter().enumerate() {
        if starred && *byte == b'/' {
            return Some(at + 1);
        }
        starred = *byte == b'*';
    }
    None
}

/// How many bytes there are up to and with the closing quote. None too where a byte stands before it that
/// may not.
pub fn quote_length(text: &[u8], quote: u8) -> Option<usize>
    ensures value { result ≡ quote_end quote false text.now }
    ensures within { IfSome result (λ n. n ≤ length text.now) }
{
    let mut escaped = false;
    for (at, byte) in text.iter().enumerate() {
        if escaped {
            if !is_escape_byte(*byte) {
                return None;
            }
            escaped = false;
        } else if *byte == quote {
            return Some(at + 1);
        } else if *byte == b'\\' {
            escaped = true;
        } else if !is_plain_byte(*byte, quote) {
            return None;
        }
    }
    None
}
