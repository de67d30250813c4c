//! The canonical spelling of names and texts.

ghost use Rattle.std.specs.Prelude.{◌≡◌, ◌++◌, ◌∷◌, IfOk, OnOk};
ghost use Rattle.std.specs.List.{list_all};
ghost use Rattle.token_core.specs.Bytes.{is_word};
ghost use Rattle.token_core.specs.Reading.{name_meaning, string_meaning, IsSpellable};
ghost use Rattle.token_core.specs.Spelling.{escape_letter, is_basic_name, name_spelling, quoted, string_spelling, written, IsOneString, IsOneToken};

use crate::token::TokenKind;
use crate::{classes, words};
use element_store::{Language, Name, Text};
use linker_base::NoMemory;
use std::alloc::Global;

/// The letter of the escape by which the byte is written between these quotes, None where it is written as
/// it is.
fn escape_letter_of(byte: u8, quote: u8) -> Option<u8>
    ensures { result ≡ escape_letter quote byte }
{
    match byte {
        0x08 => Some(b'b'),
        b'\t' => Some(b't'),
        b'\n' => Some(b'n'),
        0x0C => Some(b'f'),
        b'\\' => Some(b'\\'),
        other if other == quote => Some(quote),
        _ => None,
    }
}

/// Appends a byte as it is written between these quotes.
fn push_written(spelling: &mut Vec<u8>, byte: u8, quote: u8) -> Result<(), NoMemory>
    ensures { let bytes = written byte (escape_letter quote byte) in
        OnOk result (spelling.new.items ≡ spelling.old.items ++ bytes) }
{
    match escape_letter_of(byte, quote) {
        Some(letter) => {
            spelling.push(b'\\')?;
            spelling.push(letter)?;
        }
        None => spelling.push(byte)?,
    }
    Ok(())
}

/// The bytes between these quotes.
fn quote_bytes(alloc: Global, bytes: &[u8], quote: u8) -> Result<Vec<u8>, NoMemory>
    ensures { IfOk result (λ v. v.items ≡ quoted quote bytes.now) }
{
    let mut spelling = Vec::new(alloc);
    spelling.push(quote)?;
    for byte in bytes {
        push_written(&mut spelling, *byte, quote)?;
    }
    spelling.push(quote)?;
    Ok(spelling)
}

/// Whether all are letters, digits or `_`.
fn are_word_bytes(bytes: &[u8]) -> bool
    ensures { result ≡ list_all is_word bytes.now }
{
    bytes.iter().all(|byte| classes::is_word_byte(*byte))
}

/// Whether it is a letter or `_`, and then letters, digits and `_`.
fn is_basic(bytes: &[u8]) -> bool
    ensures { result ≡ is_basic_name bytes.now }
{
    match bytes {
        [first, rest @ ..] => classes::is_letter_byte(*first) && are_word_bytes(rest),
        [] => false,
    }
}

/// The bytes of a name's spelling.
fn name_spelling_of(alloc: Global, name: &[u8], language: Language) -> Result<Vec<u8>, NoMemory>
    ensures { IfOk result (λ v. v.items ≡ name_spelling language name.now) }
{
    if is_basic(name) && words::word_number(language, name).is_none() {
        Ok(Vec::from_slice(alloc, name)?)
    } else {
        quote_bytes(alloc, name, b'\'')
    }
}

/// The canonical spelling of a name: without quotes where it is a basic name and no reserved word of the
/// language, otherwise between single quotes, with escapes. Read as one token it gives the name back.
pub fn spell_name(alloc: Global, name: &Name, language: Language) -> Result<Text, NoMemory>
    requires { IsSpellable name.now }
    ensures value { IfOk result (λ text. text ≡ name_spelling language name.now) }
    ensures one { IfOk result (λ text. IsOneToken language TokenKind.Name text) }
    ensures back { IfOk result (λ text. name_meaning text ≡ name.now) }
{
    let spelling = name_spelling_of(alloc, name.bytes(), language)?;
    Ok(Text::of(spelling))
}

/// The canonical spelling of a text: a string between double quotes, with escapes. Read as one token it
/// gives the text back, in both languages.
pub fn spell_string(alloc: Global, text: &Text) -> Result<Text, NoMemory>
    requires { IsSpellable text.now }
    ensures value { IfOk result (λ string. string ≡ string_spelling text.now) }
    ensures one { IfOk result (λ string. IsOneString string) }
    ensures back { IfOk result (λ string. string_meaning string ≡ text.now) }
{
    let spelling = quote_bytes(alloc, text.bytes(), b'"')?;
    Ok(Text::of(spelling))
}
