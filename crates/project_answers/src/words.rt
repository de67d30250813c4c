//! From the words of a finding to the qualified name that they are.

ghost use Rattle.std.specs.Prelude.{◌≡◌, ◌<◌, ◌^◌, IfOk, IfSome, codes, false, length};
ghost use Rattle.token_core.specs.Reading.{AreTokensOf, IsTokenOf};
ghost use Rattle.book_model.specs.AskedNames.{AskFor, is_absolute, is_name, is_sign, name_by, path_from, path_tokens};
ghost use Rattle.project_answers.specs.Words.{IsGoodName, Takes};

use book_model::AskedName;
use element_store::{Language, Segments};
use linker_base::NoMemory;
use std::alloc::Global;
use token_core::{LexFault, Token, TokenKind, lex, name_of};

/// The number of the sign `$`.
const DOLLAR: u8 = 37;

/// The number of the sign `::`.
const COLONS: u8 = 13;

/// Whether the token is a name.
fn is_name(kind: TokenKind) -> bool
    ensures { result ≡ is_name kind }
{
    match kind {
        TokenKind::Name => true,
        _ => false,
    }
}

/// Whether the token is the sign `$`.
fn is_dollar(kind: TokenKind) -> bool
    ensures { result ≡ is_sign (codes "$") kind }
{
    match kind {
        TokenKind::Sign(number) => number == DOLLAR,
        _ => false,
    }
}

/// Whether the token is the sign `::`.
fn is_colons(kind: TokenKind) -> bool
    ensures { result ≡ is_sign (codes "::") kind }
{
    match kind {
        TokenKind::Sign(number) => number == COLONS,
        _ => false,
    }
}

/// Whether `$::` stands at the front.
fn is_absolute(tokens: &[Token]) -> bool
    ensures { result ≡ is_absolute tokens.now }
{
    match tokens {
        [dollar, colons, ..] => is_dollar(dollar.kind) && is_colons(colons.kind),
        _ => false,
    }
}

/// Takes the next token of a path: a name, or `::` where a name stands just before. Says whether the token
/// fits there; a name joins the path.
fn take(
    alloc: Global,
    words: &[u8],
    token: Token,
    named: bool,
    path: &mut Segments,
) -> Result<bool, NoMemory>
    requires { IsTokenOf token.kind words.now token }
    ensures { IfOk result (λ fits. Takes words.now token named path.old path.new fits) }
{
    if named {
        return Ok(is_colons(token.kind));
    }
    if !is_name(token.kind) {
        return Ok(false);
    }
    path.push(name_of(alloc, words, token)?)?;
    Ok(true)
}

/// The names of a path, if the tokens are names with `::` between them.
fn path_of(alloc: Global, words: &[u8], tokens: &[Token]) -> Result<Option<Segments>, NoMemory>
    requires { AreTokensOf words.now tokens.now }
    ensures { IfOk result (λ path. path ≡ path_from false words.now tokens.now) }
{
    let mut path = Segments::new(alloc);
    let mut named = false;
    for token in tokens {
        if !take(alloc, words, *token, named, &mut path)? {
            return Ok(None);
        }
        named = !named;
    }
    if named { Ok(Some(path)) } else { Ok(None) }
}

/// The tokens of the path: those behind `$::`, where that stands.
fn path_tokens(tokens: &[Token]) -> &[Token]
    ensures { result.now ≡ path_tokens tokens.now }
{
    if is_absolute(tokens) {
        &tokens[2..]
    } else {
        tokens
    }
}

/// The qualified name that tokens of words are, if they are one: `[ '$' '::' ] NAME { '::' NAME }` (KerML
/// 8.2.3.5, qualified names).
pub fn name_by(alloc: Global, words: &[u8], tokens: &[Token]) -> Result<Option<AskedName>, NoMemory>
    requires { AreTokensOf words.now tokens.now }
    ensures { IfOk result (λ name. name ≡ name_by words.now tokens.now) }
{
    let absolute = is_absolute(tokens);
    match path_of(alloc, words, path_tokens(tokens))? {
        Some(path) => Ok(Some(AskedName { absolute, path })),
        None => Ok(None),
    }
}

/// The qualified name that words are as SysML, if they are one. None comes where the lexer refuses the words
/// too.
pub fn name_in(alloc: Global, words: &[u8]) -> Result<Option<AskedName>, NoMemory>
    requires { length words.now < 2 ^ 32 }
    ensures asked { IfOk result (λ name. AskFor words.now name) }
    ensures good { IfOk result (λ name. IfSome name IsGoodName) }
{
    match lex(alloc, words, Language::Sysml) {
        Ok(tokens) => name_by(alloc, words, tokens.as_slice()),
        Err(LexFault::NoMemory) => Err(NoMemory),
        Err(LexFault::Encoding(_) | LexFault::Token(_) | LexFault::TooDeep(_)) => Ok(None),
    }
}
