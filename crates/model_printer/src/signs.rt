//! The signs that are written, and where a space stands beside them.
ghost use Rattle.std.specs.Prelude.{◌≡◌};
ghost use Rattle.model_printer.specs.Signs.{sign_bytes, opens_sign, closes_sign};

/// A sign of the notation, by what it stands for.
#[derive(Clone, Copy, Debug, PartialEq, Eq)]
pub(crate) enum Sign {
    OpenBrace,
    CloseBrace,
    OpenBracket,
    CloseBracket,
    OpenParen,
    CloseParen,
    Less,
    Greater,
    Semicolon,
    Comma,
    Dot,
    /// `..`, between bounds.
    Dots,
    Colon,
    ColonColon,
    /// `:>`.
    Subsets,
    /// `:>>`.
    Redefines,
    /// `::>`.
    References,
    /// `=`, before a value.
    Assigned,
    /// `==`.
    Equal,
    NotEqual,
    AtMost,
    AtLeast,
    Plus,
    Minus,
    Star,
    StarStar,
    Slash,
    Percent,
    Amp,
    Bar,
    Dollar,
    Question,
}

impl Sign {
    /// How it is spelt.
    pub(crate) fn bytes(self) -> &'static [u8]
        ensures { result.now ≡ sign_bytes self }
    {
        match self {
            Sign::OpenBrace => b"{",
            Sign::CloseBrace => b"}",
            Sign::OpenBracket => b"[",
            Sign::CloseBracket => b"]",
            Sign::OpenParen => b"(",
            Sign::CloseParen => b")",
            Sign::Less => b"<",
            Sign::Greater => b">",
            Sign::Semicolon => b";",
            Sign::Comma => b",",
            Sign::Dot => b".",
            Sign::Dots => b"..",
            Sign::Colon => b":",
            Sign::ColonColon => b"::",
            Sign::Subsets => b":>",
            Sign::Redefines => b":>>",
            Sign::References => b"::>",
            Sign::Assigned => b"=",
            Sign::Equal => b"==",
            Sign::NotEqual => b"!=",
            Sign::AtMost => b"<=",
            Sign::AtLeast => b">=",
            Sign::Plus => b"+",
            Sign::Minus => b"-",
            Sign::Star => b"*",
            Sign::StarStar => b"**",
            Sign::Slash => b"/",
            Sign::Percent => b"%",
            Sign::Amp => b"&",
            Sign::Bar => b"|",
            Sign::Dollar => b"$",
            Sign::Question => b"?",
        }
    }

    /// Whether no space stands behind it.
    pub(crate) fn opens(self) -> bool
        ensures { result ≡ opens_sign self }
    {
        match self {
            Sign::OpenBracket | Sign::OpenParen | Sign::Dollar => true,
            Sign::ColonColon | Sign::Dot | Sign::Dots => true,
            _ => false,
        }
    }

    /// Whether no space stands before it.
    pub(crate) fn closes(self) -> bool
        ensures { result ≡ closes_sign self }
    {
        match self {
            Sign::Semicolon | Sign::Comma | Sign::CloseBracket | Sign::CloseParen => true,
            Sign::ColonColon | Sign::Dot | Sign::Dots => true,
            _ => false,
        }
    }
}
