//! The piece at the front of a text.

ghost use Rattle.std.specs.Prelude.{◌≡◌, ◌≤◌, ◌<◌, ◌==◌, length, option_map};
ghost use Rattle.token_core.specs.Scan.{found, found_by, note_at, quoted_at, sign_at, sign_of, slash_at, word_at, word_kind};
ghost use Rattle.token_core.specs.Words.{place_in, signs, words};

use crate::token::{PieceKind, TokenKind};
use crate::{classes, scan, sign, words};
use element_store::Language;

/// A piece that begins a text.
#[derive(Clone, Copy, Debug, PartialEq, Eq)]
pub struct Found {
    pub kind: PieceKind,
    /// In bytes, and at least one.
    pub length: usize,
}

/// What the first byte of a piece tells of its form.
#[derive(Clone, Copy, Debug, PartialEq, Eq)]
pub enum ByteClass {
    Blank,
    Letter,
    Digit,
    NameQuote,
    TextQuote,
    Slash,
    Other,
}

/// A basic name or a reserved word, where the text begins with a letter.
fn word_piece(text: &[u8], language: Language) -> Found
    ensures { result ≡ word_at language text.now }
{
    let length = scan::word_length(text);
    let kind = match words::word_number(language, &text[..length]) {
        Some(number) => TokenKind::Word(number),
        None => TokenKind::Name,
    };
    Found {
        kind: PieceKind::Token(kind),
        length,
    }
}

/// A quoted name or a string, where the text begins with its quote.
fn quoted_piece(text: &[u8], kind: TokenKind, quote: u8) -> Option<Found>
    requires { 0 < length text.now }
    ensures { result ≡ quoted_at (PieceKind.Token kind) quote text.now }
{
    let length = scan::quote_length(&text[1..], quote)?;
    Some(Found {
        kind: PieceKind::Token(kind),
        length: 1 + length,
    })
}

/// A note, of which `rest` stands after the two slashes.
fn note_piece(rest: &[u8]) -> Option<Found>
    ensures { result ≡ note_at rest.now }
{
    if rest.first() == Some(&b'*') {
        let length = scan::close_length(&rest[1..])?;
        return Some(Found {
            kind: PieceKind::BlockNote,
            length: 3 + length,
        });
    }
    let length = scan::line_length(rest);
    Some(Found {
        kind: PieceKind::LineNote,
        length: 2 + length,
    })
}

/// A note, a comment or the sign `/`, where the text begins with a slash.
fn slash_piece(text: &[u8]) -> Option<Found>
    ensures { result ≡ slash_at text.now }
{
    match text {
        [_, b'/', rest @ ..] => note_piece(rest),
        [_, b'*', rest @ ..] => {
            let length = scan::close_length(rest)?;
            Some(Found {
                kind: PieceKind::Token(TokenKind::Comment),
                length: 2 + length,
            })
        }
        _ => sign_piece(text),
    }
}

/// The sign of exactly so many bytes.
fn sign_of_length(text: &[u8], length: usize) -> Option<Found>
    ensures { result ≡ sign_of length text.now }
{
    let number = sign::sign_number(text.get(..length)?)?;
    Some(Found {
        kind: PieceKind::Token(TokenKind::Sign(number)),
        length,
    })
}

/// The longest sign. None has more than three bytes.
fn sign_piece(text: &[u8]) -> Option<Found>
    ensures { result ≡ sign_at text.now }
{
    if let Some(found) = sign_of_length(text, 3) {
        return Some(found);
    }
    if let Some(found) = sign_of_length(text, 2) {
        return Some(found);
    }
    sign_of_length(text, 1)
}

/// The longest piece that begins the text, if there is one.
pub fn piece_at(text: &[u8], language: Language) -> Option<Found>
    ensures { result ≡ found language text.now }
{
    match classes::class_of_byte(*text.first()?) {
        ByteClass::Blank => Some(Found {
            kind: PieceKind::Space,
            length: scan::space_length(text),
        }),
        ByteClass::Letter => Some(word_piece(text, language)),
        ByteClass::Digit => Some(Found {
            kind: PieceKind::Token(TokenKind::Integer),
            length: scan::digits_length(text),
        }),
        ByteClass::NameQuote => quoted_piece(text, TokenKind::Name, b'\''),
        ByteClass::TextQuote => quoted_piece(text, TokenKind::Quote, b'"'),
        ByteClass::Slash => slash_piece(text),
        ByteClass::Other => sign_piece(text),
    }
}
