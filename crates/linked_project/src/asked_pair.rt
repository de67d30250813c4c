//! From words to the one qualified name or the two that they are, and their canonical spelling.

ghost use Rattle.std.specs.Prelude.{◌≡◌, ◌<◌, ◌^◌, ◌++◌, IfOk, IfSome, OnOk, Some, length};
ghost use Rattle.std.specs.Option.{option_map};
ghost use Rattle.token_core.specs.Reading.{AreTokensOf};
ghost use Rattle.linked_project.specs.AskedPairs.{AskForPair, IsSpellableName, IsSpellablePair, alone, both, is_in};
ghost use Rattle.linked_project.specs.AskedPairs.{pair_at, pair_by, place_of_in, spelt_name, spelt_pair, spelt_target};

use book_model::AskedName;
use element_store::{Language, Text};
use linker_base::NoMemory;
use project_answers::name_by;
use std::alloc::Global;
use token_core::{LexFault, Token, TokenKind, lex};
use written_names::{write, write_qualified};

/// The number of the word `in`.
const IN: u8 = 58;

/// A qualified name, and the one behind `in`, where that stands.
#[derive(Drop)]
pub struct AskedPair {
    pub name: AskedName,
    pub target: Option<AskedName>,
}

/// Whether the token is the word `in`.
fn is_in(kind: TokenKind) -> bool
    ensures { result ≡ is_in kind }
{
    match kind {
        TokenKind::Word(number) => number == IN,
        _ => false,
    }
}

/// Where the first word `in` stands among the tokens.
fn place_of_in(tokens: &[Token]) -> Option<usize>
    ensures place { result ≡ place_of_in tokens.now }
    ensures within { IfSome result (λ place. place < length tokens.now) }
{
    tokens.iter().position(|token| is_in(token.kind))
}

/// One name alone, if it is one.
fn alone(name: Option<AskedName>) -> Option<AskedPair>
    ensures { result ≡ option_map alone name }
{
    match name {
        Some(name) => Some(AskedPair { name, target: None }),
        None => None,
    }
}

/// Two names, if both are names.
fn both(name: Option<AskedName>, target: Option<AskedName>) -> Option<AskedPair>
    ensures { result ≡ both name target }
{
    let name = name?;
    let target = target?;
    Some(AskedPair {
        name,
        target: Some(target),
    })
}

/// The names before the token of that place and behind it, if both are names.
fn pair_at(
    alloc: Global,
    words: &[u8],
    tokens: &[Token],
    place: usize,
) -> Result<Option<AskedPair>, NoMemory>
    requires tokens { AreTokensOf words.now tokens.now }
    requires within { place < length tokens.now }
    ensures { IfOk result (λ pair. pair ≡ pair_at words.now tokens.now (Some place)) }
{
    let name = name_by(alloc, words, &tokens[..place])?;
    let target = name_by(alloc, words, &tokens[place + 1..])?;
    Ok(both(name, target))
}

/// What the tokens ask for, if they are a qualified name or two with `in` between them.
fn pair_by(alloc: Global, words: &[u8], tokens: &[Token]) -> Result<Option<AskedPair>, NoMemory>
    requires { AreTokensOf words.now tokens.now }
    ensures { IfOk result (λ pair. pair ≡ pair_by words.now tokens.now) }
{
    match place_of_in(tokens) {
        Some(place) => pair_at(alloc, words, tokens, place),
        None => Ok(alone(name_by(alloc, words, tokens)?)),
    }
}

/// The one qualified name or the two with `in` between them that words are as SysML, if they are so.
pub(crate) fn pair_in(alloc: Global, words: &[u8]) -> Result<Option<AskedPair>, NoMemory>
    requires { length words.now < 2 ^ 32 }
    ensures asked { IfOk result (λ pair. AskForPair words.now pair) }
    ensures spellable { IfOk result (λ pair. IfSome pair IsSpellablePair) }
{
    match lex(alloc, words, Language::Sysml) {
        Ok(tokens) => pair_by(alloc, words, tokens.as_slice()),
        Err(LexFault::NoMemory) => Err(NoMemory),
        Err(LexFault::Encoding(_) | LexFault::Token(_) | LexFault::TooDeep(_)) => Ok(None),
    }
}

/// Appends a qualified name in its canonical spelling.
fn write_name(alloc: Global, spelt: &mut Vec<u8>, name: &AskedName) -> Result<(), NoMemory>
    requires { IsSpellableName name.now }
    ensures { OnOk result (spelt.new.items ≡ spelt.old.items ++ spelt_name name.now) }
{
    write_qualified(
        alloc,
        spelt,
        name.absolute,
        name.path.as_slice(),
        Language::Sysml,
    )
}

/// Appends what stands behind the first name.
fn write_target(
    alloc: Global,
    spelt: &mut Vec<u8>,
    target: &Option<AskedName>,
) -> Result<(), NoMemory>
    requires { IfSome target.now IsSpellableName }
    ensures { OnOk result (spelt.new.items ≡ spelt.old.items ++ spelt_target target.now) }
{
    match target {
        Some(name) => {
            write(spelt, b" in ")?;
            write_name(alloc, spelt, name)
        }
        None => Ok(()),
    }
}

/// The canonical spelling of a pair.
pub(crate) fn spelling_of(alloc: Global, pair: &AskedPair) -> Result<Text, NoMemory>
    requires { IsSpellablePair pair.now }
    ensures { IfOk result (λ text. text ≡ spelt_pair pair.now) }
{
    let mut spelt = Vec::new(alloc);
    write_name(alloc, &mut spelt, &pair.name)?;
    write_target(alloc, &mut spelt, &pair.target)?;
    Ok(Text::of(spelt))
}
