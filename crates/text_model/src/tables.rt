ghost use Rattle.std.specs.Prelude.{◌≡◌, slice_index_or};
ghost use Rattle.text_model.specs.Tables.{tables, action_at, meaning_of};

use crate::action::{Action, Meaning};
use crate::kerml_actions::KERML_ACTIONS;
use crate::kerml_meanings::KERML_MEANINGS;
use crate::sign_meanings::SIGN_MEANINGS;
use crate::sysml_actions::SYSML_ACTIONS;
use crate::sysml_meanings::SYSML_MEANINGS;
use element_store::Language;
use token_core::TokenKind;

/// The meaning with this number, or none.
fn meaning_at(meanings: &[Meaning], number: u8) -> Meaning
    ensures { result ≡ slice_index_or meanings.now number Meaning.Nothing }
{
    match meanings.get(usize::from(number)) {
        Some(meaning) => *meaning,
        None => Meaning::Nothing,
    }
}

/// The action with this number, or none.
fn action_in(actions: &[Action], number: u16) -> Action
    ensures { result ≡ slice_index_or actions.now number Action.Group }
{
    match actions.get(usize::from(number)) {
        Some(action) => *action,
        None => Action::Group,
    }
}

/// What the production with this number means in a text of the language.
pub fn action_of(language: Language, production: u16) -> Action
    ensures { result ≡ action_at (tables language) production }
{
    match language {
        Language::Kerml => action_in(&KERML_ACTIONS, production),
        Language::Sysml => action_in(&SYSML_ACTIONS, production),
    }
}

/// What the reserved word with this number means in a text of the language.
fn word_meaning(language: Language, number: u8) -> Meaning
    ensures { result ≡ slice_index_or (tables language).words number Meaning.Nothing }
{
    match language {
        Language::Kerml => meaning_at(&KERML_MEANINGS, number),
        Language::Sysml => meaning_at(&SYSML_MEANINGS, number),
    }
}

/// What the sign with this number means.
fn sign_meaning(language: Language, number: u8) -> Meaning
    ensures { result ≡ slice_index_or (tables language).signs number Meaning.Nothing }
{
    match language {
        Language::Kerml => meaning_at(&SIGN_MEANINGS, number),
        Language::Sysml => meaning_at(&SIGN_MEANINGS, number),
    }
}

/// What a token of this kind means in a text of the language.
pub fn meaning_of(language: Language, kind: TokenKind) -> Meaning
    ensures { result ≡ meaning_of (tables language) kind }
{
    match kind {
        TokenKind::Name => Meaning::Name,
        TokenKind::Integer => Meaning::Integer,
        TokenKind::Quote => Meaning::Text,
        TokenKind::Comment => Meaning::Comment,
        TokenKind::Sign(number) => sign_meaning(language, number),
        TokenKind::Word(number) => word_meaning(language, number),
    }
}
