//! What a byte is, by one look into a table.

ghost use Rattle.std.specs.Prelude.{◌≡◌};
ghost use Rattle.token_core.specs.Bytes.{is_digit, is_letter, is_space, is_word};
ghost use Rattle.token_core.specs.Scan.{class_of};

use crate::pieces::ByteClass::{self, Blank, Digit, Letter, NameQuote, Other, Slash, TextQuote};

/// The class of each byte.
#[rattlefmt::skip]
static CLASSES: [ByteClass; 256] = [
    Other,     Other,     Other,     Other,     Other,     Other,     Other,     Other,
    Other,     Blank,     Blank,     Other,     Blank,     Blank,     Other,     Other,
    Other,     Other,     Other,     Other,     Other,     Other,     Other,     Other,
    Other,     Other,     Other,     Other,     Other,     Other,     Other,     Other,
    Blank,     Other,     TextQuote, Other,     Other,     Other,     Other,     NameQuote,
    Other,     Other,     Other,     Other,     Other,     Other,     Other,     Slash,
    Digit,     Digit,     Digit,     Digit,     Digit,     Digit,     Digit,     Digit,
    Digit,     Digit,     Other,     Other,     Other,     Other,     Other,     Other,
    Other,     Letter,    Letter,    Letter,    Letter,    Letter,    Letter,    Letter,
    Letter,    Letter,    Letter,    Letter,    Letter,    Letter,    Letter,    Letter,
    Letter,    Letter,    Letter,    Letter,    Letter,    Letter,    Letter,    Letter,
    Letter,    Letter,    Letter,    Other,     Other,     Other,     Other,     Letter,
    Other,     Letter,    Letter,    Letter,    Letter,    Letter,    Letter,    Letter,
    Letter,    Letter,    Letter,    Letter,    Letter,    Letter,    Letter,    Letter,
    Letter,    Letter,    Letter,    Letter,    Letter,    Letter,    Letter,    Letter,
    Letter,    Letter,    Letter,    Other,     Other,     Other,     Other,     Other,
    Other,     Other,     Other,     Other,     Other,     Other,     Other,     Other,
    Other,     Other,     Other,     Other,     Other,     Other,     Other,     Other,
    Other,     Other,     Other,     Other,     Other,     Other,     Other,     Other,
    Other,     Other,     Other,     Other,     Other,     Other,     Other,     Other,
    Other,     Other,     Other,     Other,     Other,     Other,     Other,     Other,
    Other,     Other,     Other,     Other,     Other,     Other,     Other,     Other,
    Other,     Other,     Other,     Other,     Other,     Other,     Other,     Other,
    Other,     Other,     Other,     Other,     Other,     Other,     Other,     Other,
    Other,     Other,     Other,     Other,     Other,     Other,     Other,     Other,
    Other,     Other,     Other,     Other,     Other,     Other,     Other,     Other,
    Other,     Other,     Other,     Other,     Other,     Other,     Other,     Other,
    Other,     Other,     Other,     Other,     Other,     Other,     Other,     Other,
    Other,     Other,     Other,     Other,     Other,     Other,     Other,     Other,
    Other,     Other,     Other,     Other,     Other,     Other,     Other,     Other,
    Other,     Other,     Other,     Other,     Other,     Other,     Other,     Other,
    Other,     Other,     Other,     Other,     Other,     Other,     Other,     Other,
];

/// What the byte tells of a piece that begins with it.
pub fn class_of_byte(byte: u8) -> ByteClass
    ensures { result ≡ class_of byte }
{
    CLASSES[byte as usize]
}

/// Whether it is a blank, a tab, a line feed, a form feed or a carriage return.
pub fn is_space_byte(byte: u8) -> bool
    ensures { result ≡ is_space byte }
{
    matches!(class_of_byte(byte), Blank)
}

/// Whether it is an ASCII letter or `_`.
pub fn is_letter_byte(byte: u8) -> bool
    ensures { result ≡ is_letter byte }
{
    matches!(class_of_byte(byte), Letter)
}

/// Whether it is a letter, a digit or `_`.
pub fn is_word_byte(byte: u8) -> bool
    ensures { result ≡ is_word byte }
{
    matches!(class_of_byte(byte), Letter | Digit)
}

/// Whether it is a decimal digit.
pub fn is_digit_byte(byte: u8) -> bool
    ensures { result ≡ is_digit byte }
{
    matches!(class_of_byte(byte), Digit)
}
