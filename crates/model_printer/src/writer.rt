//! The text that is written, token by token.
ghost use Rattle.std.specs.Prelude.{◌≡◌, ◌++◌, ◌&&◌, [], true, false, cond, codes, OnOk};
ghost use Rattle.std.specs.Fmt.{signed_decimal};
ghost use Rattle.token_core.specs.Spelling.{name_spelling, string_spelling};
ghost use Rattle.print_model.specs.Layout.{indent};
ghost use Rattle.model_printer.specs.Sheets.{put, begun, ended, blank_if, is_plain};
ghost use Rattle.model_printer.specs.Signs.{sign_bytes};

use crate::signs::Sign;
use crate::spelling::{push_name, push_quoted};
use element_store::{Language, Name, Text};
use itoa::Buffer;
use linker_base::NoMemory;
use std::alloc::Global;
use std::marker::Model;

/// The text so far. A token that is written has the space before it that its kind and the token before it
/// ask for. After `NoMemory` a part of a token may stand in it.
#[derive(Drop)]
pub(crate) struct Writer {
    bytes: Vec<u8>,
    // Whether a space may stand behind the last token.
    spaced: bool,
}

impl Model for Writer {
    ghost use Rattle.model_printer.specs.Sheets.{Sheet};

    ghost Value = { Sheet };

    ghost view = { λ w. record { bytes = w.bytes.items; spaced = w.spaced } };
}

impl Writer {
    /// Nothing is written yet.
    pub(crate) fn new(alloc: Global) -> Writer
        ensures { result ≡ record { bytes = []; spaced = false } }
    {
        Writer {
            bytes: Vec::new(alloc),
            spaced: false,
        }
    }

    /// The text that is written.
    pub(crate) fn into_text(self) -> Text
        ensures { result ≡ self.bytes }
    {
        Text::of(self.bytes)
    }

    /// The space before a token, where one stands there.
    fn push_space(&mut self, takes_space: bool) -> Result<(), NoMemory>
        ensures { OnOk result (self.new ≡ record {
          bytes = self.old.bytes ++ blank_if (self.old.spaced && takes_space);
          spaced = self.old.spaced;
        }) }
    {
        if self.spaced && takes_space {
            self.bytes.push(b' ')?;
        }
        Ok(())
    }

    /// Begins a line: four blanks for each body that it stands in.
    pub(crate) fn begin_line(&mut self, level: usize) -> Result<(), NoMemory>
        ensures { OnOk result (self.new ≡ begun self.old level) }
    {
        for _step in 0..level {
            self.bytes.extend_from_slice(b"    ")?;
        }
        self.spaced = false;
        Ok(())
    }

    /// Ends a line.
    pub(crate) fn end_line(&mut self) -> Result<(), NoMemory>
        ensures { OnOk result (self.new ≡ ended self.old) }
    {
        self.bytes.push(b'\n')?;
        self.spaced = false;
        Ok(())
    }

    /// A sign.
    pub(crate) fn sign(&mut self, sign: Sign) -> Result<(), NoMemory>
        ensures { OnOk result (self.new ≡ put self.old (sign_bytes sign) false) }
    {
        self.push_space(!sign.closes())?;
        self.bytes.extend_from_slice(sign.bytes())?;
        self.spaced = !sign.opens();
        Ok(())
    }

    /// A sign with no space behind it.
    pub(crate) fn tight_sign(&mut self, sign: Sign) -> Result<(), NoMemory>
        ensures { OnOk result (self.new ≡ put self.old (sign_bytes sign) true) }
    {
        self.push_space(!sign.closes())?;
        self.bytes.extend_from_slice(sign.bytes())?;
        self.spaced = false;
        Ok(())
    }

    /// A reserved word.
    pub(crate) fn word(&mut self, word: &'static [u8]) -> Result<(), NoMemory>
        requires { is_plain word.now ≡ true }
        ensures { OnOk result (self.new ≡ put self.old word.now false) }
    {
        self.push_space(true)?;
        self.bytes.extend_from_slice(word)?;
        self.spaced = true;
        Ok(())
    }

    /// A reserved word, where this holds.
    pub(crate) fn word_if(&mut self, holds: bool, word: &'static [u8]) -> Result<(), NoMemory>
        requires { is_plain word.now ≡ true }
        ensures { OnOk result (self.new ≡ cond holds (put self.old word.now false) self.old) }
    {
        if holds { self.word(word) } else { Ok(()) }
    }

    /// A name, quoted where it has to be in the language.
    pub(crate) fn name(&mut self, name: &Name, language: Language) -> Result<(), NoMemory>
        ensures { OnOk result (self.new ≡ put self.old (name_spelling language name.now) false) }
    {
        self.push_space(true)?;
        push_name(&mut self.bytes, name.bytes(), language)?;
        self.spaced = true;
        Ok(())
    }

    /// A name with no space behind it.
    pub(crate) fn tight_name(&mut self, name: &Name, language: Language) -> Result<(), NoMemory>
        ensures { OnOk result (self.new ≡ put self.old (name_spelling language name.now) true) }
    {
        self.push_space(true)?;
        push_name(&mut self.bytes, name.bytes(), language)?;
        self.spaced = false;
        Ok(())
    }

    /// A string.
    pub(crate) fn string(&mut self, text: &Text) -> Result<(), NoMemory>
        ensures { OnOk result (self.new ≡ put self.old (string_spelling text.now) false) }
    {
        self.push_space(true)?;
        push_quoted(&mut self.bytes, text.bytes(), b'"')?;
        self.spaced = true;
        Ok(())
    }

    /// A number, in decimal.
    pub(crate) fn number(&mut self, number: i64) -> Result<(), NoMemory>
        ensures { OnOk result (self.new ≡ put self.old (signed_decimal number) false) }
    {
        self.push_space(true)?;
        let mut buffer = Buffer::new();
        self.bytes
            .extend_from_slice(buffer.format(number).as_bytes())?;
        self.spaced = true;
        Ok(())
    }

    /// A comment between its marks.
    pub(crate) fn note(&mut self, bytes: &[u8]) -> Result<(), NoMemory>
        ensures { OnOk result (self.new
            ≡ put self.old (codes "/*" ++ (bytes.now ++ codes "*/")) false) }
    {
        self.push_space(true)?;
        self.bytes.extend_from_slice(b"/*")?;
        self.bytes.extend_from_slice(bytes)?;
        self.bytes.extend_from_slice(b"*/")?;
        self.spaced = true;
        Ok(())
    }
}
