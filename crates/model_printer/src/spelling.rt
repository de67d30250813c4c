//! The spelling of names and texts, appended to the text that is written. No text is made in between, and
//! nothing is asked of the bytes.
ghost use Rattle.std.specs.Prelude.{◌≡◌, ◌++◌, OnOk};
ghost use Rattle.std.specs.List.{list_all};
ghost use Rattle.token_core.specs.Bytes.{is_word};
ghost use Rattle.token_core.specs.Spelling.{escape_letter, is_basic_name, name_spelling, quoted, written};

use element_store::Language;
use linker_base::NoMemory;
use token_core::word_number;

/// The letter of the escape by which the byte is written between these quotes, None where it is written as
/// it is.
fn escape_letter_of(byte: u8, quote: u8) -> Option<u8>
    ensures { result ≡ escape_letter quote byte }
{
    match byte {
        0x08 => Some(b'b'),
        b'\t' => Some(b't'),
        b'\n' => Some(b'n'),
        0x0C => Some(b'f'),
        b'\\' => Some(b'\\'),
        other if other == quote => Some(quote),
        _ => None,
    }
}

/// Appends a byte as it is written between these quotes.
fn push_written(bytes: &mut Vec<u8>, byte: u8, quote: u8) -> Result<(), NoMemory>
    ensures { OnOk result (bytes.new.items
        ≡ bytes.old.items ++ written byte (escape_letter quote byte)) }
{
    match escape_letter_of(byte, quote) {
        Some(letter) => {
            bytes.push(b'\\')?;
            bytes.push(letter)?;
        }
        None => bytes.push(byte)?,
    }
    Ok(())
}

/// Appends bytes between these quotes, with escapes (KerML 8.2.2.3 and 8.2.2.5).
pub(crate) fn push_quoted(bytes: &mut Vec<u8>, text: &[u8], quote: u8) -> Result<(), NoMemory>
    ensures { OnOk result (bytes.new.items ≡ bytes.old.items ++ quoted quote text.now) }
{
    bytes.push(quote)?;
    for byte in text {
        push_written(bytes, *byte, quote)?;
    }
    bytes.push(quote)?;
    Ok(())
}

/// Whether all are letters, digits or `_`.
fn are_word_bytes(bytes: &[u8]) -> bool
    ensures { result ≡ list_all is_word bytes.now }
{
    bytes.iter().all(|byte| matches!(*byte, b'A'..=b'Z' | b'a'..=b'z' | b'0'..=b'9' | b'_'))
}

/// Whether it is a letter or `_`, and then letters, digits and `_`.
fn is_basic(bytes: &[u8]) -> bool
    ensures { result ≡ is_basic_name bytes.now }
{
    match bytes {
        [first, rest @ ..] => {
            matches!(*first, b'A'..=b'Z' | b'a'..=b'z' | b'_') && are_word_bytes(rest)
        }
        [] => false,
    }
}

/// Appends a name: without quotes where it is a basic name and no reserved word of the language, otherwise
/// between single quotes.
pub(crate) fn push_name(
    bytes: &mut Vec<u8>,
    name: &[u8],
    language: Language,
) -> Result<(), NoMemory>
    ensures { OnOk result (bytes.new.items ≡ bytes.old.items ++ name_spelling language name.now) }
{
    if is_basic(name) && word_number(language, name).is_none() {
        bytes.extend_from_slice(name)?;
        Ok(())
    } else {
        push_quoted(bytes, name, b'\'')
    }
}
