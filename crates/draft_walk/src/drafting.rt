ghost use Rattle.std.specs.Prelude.{◌≡◌, ◌≢◌, ◌∷◌, ◌++◌, ◌<◌, ◌^◌, [], None, Some, Err, IfErr, IfOk, OnOk, length};
ghost use Rattle.ll_core.specs.Checked.{IsCheckedGrammar};
ghost use Rattle.ll_core.specs.Derives.{StopsAt};
ghost use Rattle.ll_core.specs.Parsing.{IsTold};
ghost use Rattle.ll_core.specs.Table.{table_of};
ghost use Rattle.token_core.specs.Reading.{AreTokensOf};
ghost use Rattle.text_model.specs.Languages.{grammar_of};
ghost use Rattle.text_model.specs.Profile.{token_place};
ghost use Rattle.text_model.specs.Tables.{tables};
ghost use Rattle.draft_walk.specs.Drafted.{IsDrafted, IsFresh, IsHeard, IsTreeFault, IsWhole};
ghost use Rattle.draft_walk.specs.Telling.{told};

use crate::telling::{Drafts, Source, Teller};
use element_store::Language;
use linker_base::NoMemory;
use ll_core::{Event, Grammar, ParseFault, Parser};
use std::alloc::Global;
use text_model::FileFault;
use token_core::terminal_of;

/// Tells one event more.
#[inline(always)]
fn hear(teller: &mut Teller, source: &Source, event: Event) -> Result<(), ParseFault>
    requires { AreTokensOf source.now.text.now teller.old.now.rest }
    ensures ok { OnOk result (teller.new ≡ told (tables source.now.language) source.now.text.now
        teller.old event) }
    ensures known { OnOk result (AreTokensOf source.now.text.now teller.new.now.rest) }
    ensures err { result ≢ Err ParseFault.Syntax }
{
    match teller.tell(source, event) {
        Ok(()) => Ok(()),
        Err(_) => Err(ParseFault::NoMemory),
    }
}

/// Steps until the token is shifted, and tells the events.
fn take(
    parser: &mut Parser,
    teller: &mut Teller,
    source: &Source,
    token: u16,
) -> Result<(), ParseFault>
    requires ahead { parser.old.ahead ≡ None }
    requires fault { parser.old.fault ≡ None }
    requires heard { IsHeard source.now parser.old teller.old }
    ensures table { OnOk result (parser.new.table ≡ parser.old.table) }
    ensures shifted { OnOk result (parser.new.shifted ≡ parser.old.shifted ++ token ∷ []) }
    ensures ahead { OnOk result (parser.new.ahead ≡ None) }
    ensures fault { OnOk result (parser.new.fault ≡ None) }
    ensures heard { OnOk result (IsHeard source.now parser.new teller.new) }
    ensures syntax { result ≡ Err ParseFault.Syntax
        → StopsAt parser.old.table parser.old.shifted (Some token) }
{
    loop {
        match parser.next(Some(token))? {
            Event::Shift => {
                hear(teller, source, Event::Shift)?;
                return Ok(());
            }
            Event::Open(number) => hear(teller, source, Event::Open(number))?,
            Event::Close => hear(teller, source, Event::Close)?,
            Event::End => unreachable!(),
        }
    }
}

/// Steps until the end, and tells the events.
fn finish(parser: &mut Parser, teller: &mut Teller, source: &Source) -> Result<(), ParseFault>
    requires ahead { parser.old.ahead ≡ None }
    requires fault { parser.old.fault ≡ None }
    requires heard { IsHeard source.now parser.old teller.old }
    ensures table { OnOk result (parser.new.table ≡ parser.old.table) }
    ensures shifted { OnOk result (parser.new.shifted ≡ parser.old.shifted) }
    ensures told { OnOk result (IsTold parser.new) }
    ensures heard { OnOk result (IsHeard source.now parser.new teller.new) }
    ensures syntax { result ≡ Err ParseFault.Syntax
        → StopsAt parser.old.table parser.old.shifted None }
{
    loop {
        match parser.next(None)? {
            Event::Shift => unreachable!(),
            Event::Open(number) => hear(teller, source, Event::Open(number))?,
            Event::Close => hear(teller, source, Event::Close)?,
            Event::End => return Ok(()),
        }
    }
}

/// The grammar of the language.
fn grammar_of(language: Language) -> Grammar
    ensures checked { IsCheckedGrammar result }
    ensures table { table_of result ≡ grammar_of language }
{
    match language {
        Language::Kerml => kerml_grammar::grammar(),
        Language::Sysml => sysml_grammar::grammar(),
    }
}

/// The place of the token with this number, or the end of the text.
fn place_of(source: &Source, number: usize) -> u32
    requires { length source.now.text.now < 2 ^ 32 }
    ensures { result ≡ token_place source.now.text.now source.now.tokens.now number }
{
    match source.tokens.get(number) {
        Some(token) => token.from,
        None => source.text.len() as u32,
    }
}

/// Tells all of the tree of the tokens.
fn tell_all(parser: &mut Parser, teller: &mut Teller, source: &Source) -> Result<(), FileFault>
    requires short { length source.now.text.now < 2 ^ 32 }
    requires fresh { IsFresh source.now parser.old teller.old }
    ensures ok { OnOk result (IsWhole source.now parser.new teller.new) }
    ensures err { IfErr result (λ fault. IsTreeFault source.now fault) }
{
    for (number, token) in source.tokens.iter().enumerate() {
        match take(parser, teller, source, terminal_of(token.kind)) {
            Ok(()) => {}
            Err(ParseFault::Syntax) => return Err(FileFault::Syntax(place_of(source, number))),
            Err(ParseFault::NoMemory) => return Err(FileFault::NoMemory),
        }
    }
    match finish(parser, teller, source) {
        Ok(()) => Ok(()),
        Err(ParseFault::Syntax) => Err(FileFault::Syntax(place_of(source, source.tokens.len()))),
        Err(ParseFault::NoMemory) => Err(FileFault::NoMemory),
    }
}

/// The drafts of a text with these tokens. `Syntax` has the place of the first token through which no text
/// of the language begins alike, or of the end of the text.
pub fn draft(alloc: Global, source: &Source) -> Result<Drafts, FileFault>
    requires short { length source.now.text.now < 2 ^ 32 }
    requires tokens { AreTokensOf source.now.text.now source.now.tokens.now }
    ensures ok { IfOk result (λ drafts. IsDrafted source.now drafts) }
    ensures err { IfErr result (λ fault. IsTreeFault source.now fault) }
{
    let Ok(mut parser) = Parser::new(alloc, grammar_of(source.language)) else {
        return Err(FileFault::NoMemory);
    };
    let Ok(mut teller) = Teller::new(alloc, source.tokens) else {
        return Err(FileFault::NoMemory);
    };
    tell_all(&mut parser, &mut teller, source)?;
    Ok(teller.into_drafts())
}
