use linker_base::Listing;

/// How many brackets may be open at one place of a text.
pub const NESTING: u32 = 64;

/// The kinds of tokens. Signs and words are numbered from 0 in the order of their lists, the words by the
/// list of the text's language.
#[derive(Clone, Copy, Debug, PartialEq, Eq)]
pub enum TokenKind {
    /// A basic or a quoted name.
    Name,
    /// Decimal digits.
    Integer,
    /// A string between double quotes.
    Quote,
    /// A comment, which is part of the model.
    Comment,
    /// A sign, by its number.
    Sign(u8),
    /// A reserved word, by its number.
    Word(u8),
}

/// A token of a text, and where it stands: its first byte, and the byte after its last, from 0 on.
#[derive(Clone, Copy, Debug, PartialEq, Eq)]
pub struct Token {
    pub kind: TokenKind,
    pub from: u32,
    pub upto: u32,
}

/// The tokens of a text, in order. Contracts see the list of them.
pub type Tokens = Listing<Token>;

/// Why a text has no tokens. The number is the place in bytes, from 0 on.
#[derive(Clone, Copy, Debug, PartialEq, Eq)]
pub enum LexFault {
    /// The text isn't UTF-8: the length of its longest front that is.
    Encoding(u32),
    /// The first place, after whole pieces, at which no piece begins.
    Token(u32),
    /// The bracket that would raise the nesting past `NESTING`.
    TooDeep(u32),
    /// Want of memory.
    NoMemory,
}

/// The forms of a piece of text. Spaces and notes are dropped.
#[derive(Clone, Copy, Debug, PartialEq, Eq)]
pub enum PieceKind {
    Space,
    /// From `//` to the end of the line.
    LineNote,
    /// From `//*` to the first `*/` after it.
    BlockNote,
    Token(TokenKind),
}
