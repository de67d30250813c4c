ghost use Rattle.std.specs.Prelude.{◌≡◌, ◌<◌};
ghost use Rattle.token_core.specs.Terminals.{terminal, HasNumber};

use crate::token::TokenKind;

/// The number of a kind of token in the tables of grammars. Each kind has its own, below 65,535: names 0,
/// integers 1, strings 2, comments 3, the sign n 4 + n, and the word n 260 + n.
pub fn terminal_of(kind: TokenKind) -> u16
    ensures value { result ≡ terminal kind }
    ensures below { result < 65535 }
    ensures own { (other : TokenKind) → HasNumber other → terminal other ≡ result → other ≡ kind }
{
    match kind {
        TokenKind::Name => 0,
        TokenKind::Integer => 1,
        TokenKind::Quote => 2,
        TokenKind::Comment => 3,
        TokenKind::Sign(number) => 4 + number as u16,
        TokenKind::Word(number) => 260 + number as u16,
    }
}
