ghost use Rattle.std.specs.Prelude.{◌≡◌, ◌+◌, ◌<◌, ◌^◌, ◌≤◌, ◌++◌, length, IfOk, OnOk};
ghost use Rattle.token_core.specs.Lex.{Lexes, is_closing, is_opening, token_at, too_deep};
ghost use Rattle.token_core.specs.Laws.{OneLexing, TokensRise};
ghost use Rattle.token_core.specs.Reading.{AreTokensOf};

use crate::pieces;
use crate::token::{LexFault, NESTING, PieceKind, Token, TokenKind, Tokens};
use element_store::Language;
use linker_base::NoMemory;
use std::alloc::Global;

/// Whether the sign of this number is `{`, `[` or `(`.
fn is_opening_sign(number: u8) -> bool
    ensures { result ≡ is_opening (TokenKind.Sign number) }
{
    number == 0 || number == 2 || number == 4
}

/// Whether the sign of this number is `}`, `]` or `)`.
fn is_closing_sign(number: u8) -> bool
    ensures { result ≡ is_closing (TokenKind.Sign number) }
{
    number == 1 || number == 3 || number == 5
}

/// Whether it is an opening bracket.
fn opens(kind: TokenKind) -> bool
    ensures { result ≡ is_opening kind }
{
    match kind {
        TokenKind::Sign(number) => is_opening_sign(number),
        _ => false,
    }
}

/// Whether it is a closing bracket.
fn closes(kind: TokenKind) -> bool
    ensures { result ≡ is_closing kind }
{
    match kind {
        TokenKind::Sign(number) => is_closing_sign(number),
        _ => false,
    }
}

/// The place of the bracket that would raise the nesting past the greatest that is allowed.
fn too_deep_place(tokens: &[Token]) -> Option<u32>
    ensures { result ≡ too_deep 0 tokens.now }
{
    let mut nesting = 0u32;
    for token in tokens {
        if opens(token.kind) {
            if nesting == NESTING {
                return Some(token.from);
            }
            nesting += 1;
        } else if closes(token.kind) {
            nesting = nesting.saturating_sub(1);
        }
    }
    None
}

/// Keeps a piece that is a token.
fn keep(tokens: &mut Tokens, kind: PieceKind, at: usize, length: usize) -> Result<(), NoMemory>
    requires { at + length < 2 ^ 32 }
    ensures { OnOk result (tokens.new ≡ tokens.old ++ token_at kind at length) }
{
    if let PieceKind::Token(kind) = kind {
        tokens.push(Token {
            kind,
            from: at as u32,
            upto: (at + length) as u32,
        })?;
    }
    Ok(())
}

/// The tokens of a text of fewer than 2^32 bytes, or the first of its faults: Encoding, then Token, then
/// TooDeep. Each token stands in the text as one of its kind, so what it stands for may be asked.
pub fn lex(alloc: Global, text: &[u8], language: Language) -> Result<Tokens, LexFault>
    requires { length text.now < 2 ^ 32 }
    ensures whole { Lexes language text.now result }
    ensures each { IfOk result (λ tokens. AreTokensOf text.now tokens) }
{
    if let Err(fault) = std::str::from_utf8(text) {
        return Err(LexFault::Encoding(fault.valid_up_to() as u32));
    }
    let mut tokens = Tokens::new(alloc);
    let mut at = 0;
    while at < text.len() {
        let Some(found) = pieces::piece_at(&text[at..], language) else {
            return Err(LexFault::Token(at as u32));
        };
        let Ok(()) = keep(&mut tokens, found.kind, at, found.length) else {
            return Err(LexFault::NoMemory);
        };
        at += found.length;
    }
    if let Some(place) = too_deep_place(tokens.as_slice()) {
        return Err(LexFault::TooDeep(place));
    }
    Ok(tokens)
}

/// A text has one lexing: two answers of which neither is want of memory are the same.
pub fn one_lexing()
    ensures { OneLexing }
{}

/// The tokens of a text stand apart and in rising place within it.
pub fn tokens_rise()
    ensures { TokensRise }
{}
