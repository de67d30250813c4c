ghost use Rattle.std.specs.Prelude.{◌≡◌, ◌≢◌, ◌∷◌, ◌++◌, [], ℕ, List, None, Some, Err, OnOk, IfOk};
ghost use Rattle.ll_core.specs.Checked.{IsCheckedGrammar};
ghost use Rattle.ll_core.specs.Derives.{Forest, IsTree, IsTreeOf, StopsAt, IsSyntaxPlace};
ghost use Rattle.ll_core.specs.Table.{Table, table_of};

use crate::{Event, Grammar, ParseFault, Parser};
use std::alloc::Global;

/// Why a token list was refused.
#[derive(Clone, Copy, Debug, PartialEq, Eq)]
pub enum Refusal {
    /// The list stops beginning any derived list at the token of this number, counted from 0, or at
    /// its end.
    Syntax(usize),
    /// Memory is wanted.
    NoMemory,
}

/// Keeps one event more.
fn keep(events: &mut Vec<Event>, event: Event) -> Result<(), ParseFault>
    ensures ok { OnOk result (events.new.items ≡ events.old.items ++ event ∷ []) }
    ensures err { result ≢ Err ParseFault.Syntax }
{
    match events.push(event) {
        Ok(()) => Ok(()),
        Err(_) => Err(ParseFault::NoMemory),
    }
}

/// Steps until the token is shifted, and keeps the events.
fn take(parser: &mut Parser, events: &mut Vec<Event>, token: u16) -> Result<(), ParseFault>
    requires ahead { parser.old.ahead ≡ None }
    requires fault { parser.old.fault ≡ None }
    requires kept { events.old.items ≡ parser.old.given }
    ensures table { OnOk result (parser.new.table ≡ parser.old.table) }
    ensures shifted { OnOk result (parser.new.shifted ≡ parser.old.shifted ++ token ∷ []) }
    ensures ahead { OnOk result (parser.new.ahead ≡ None) }
    ensures fault { OnOk result (parser.new.fault ≡ None) }
    ensures kept { OnOk result (events.new.items ≡ parser.new.given) }
    ensures syntax { result ≡ Err ParseFault.Syntax
        → StopsAt parser.old.table parser.old.shifted (Some token) }
{
    loop {
        match parser.next(Some(token))? {
            Event::Shift => return keep(events, Event::Shift),
            Event::Open(number) => keep(events, Event::Open(number))?,
            Event::Close => keep(events, Event::Close)?,
            Event::End => unreachable!(),
        }
    }
}

/// Steps until the end, and keeps the events.
fn finish(parser: &mut Parser, events: &mut Vec<Event>) -> Result<(), ParseFault>
    requires ahead { parser.old.ahead ≡ None }
    requires fault { parser.old.fault ≡ None }
    requires kept { events.old.items ≡ parser.old.given }
    ensures ok { OnOk result (IsTreeOf parser.old.table parser.old.shifted events.new.items) }
    ensures syntax { result ≡ Err ParseFault.Syntax
        → StopsAt parser.old.table parser.old.shifted None }
{
    loop {
        match parser.next(None)? {
            Event::Shift => unreachable!(),
            Event::Open(number) => keep(events, Event::Open(number))?,
            Event::Close => keep(events, Event::Close)?,
            Event::End => return Ok(()),
        }
    }
}

/// The events other than End of the one tree of a whole token list.
///
/// The refusal `Syntax` comes exactly where the start symbol doesn't derive the list.
pub fn parse(alloc: Global, grammar: Grammar, tokens: &[u16]) -> Result<Vec<Event>, Refusal>
    requires { IsCheckedGrammar grammar }
    ensures ok { IfOk result (λ events. IsTreeOf (table_of grammar) tokens.now events.items) }
    ensures syntax { (place : ℕ) → result ≡ Err (Refusal.Syntax place)
        → IsSyntaxPlace (table_of grammar) tokens.now place }
{
    let Ok(mut parser) = Parser::new(alloc, grammar) else {
        return Err(Refusal::NoMemory);
    };
    let mut events = Vec::new(alloc);
    for (place, token) in tokens.iter().enumerate() {
        match take(&mut parser, &mut events, *token) {
            Ok(()) => {}
            Err(ParseFault::Syntax) => return Err(Refusal::Syntax(place)),
            Err(ParseFault::NoMemory) => return Err(Refusal::NoMemory),
        }
    }
    match finish(&mut parser, &mut events) {
        Ok(()) => Ok(events),
        Err(ParseFault::Syntax) => Err(Refusal::Syntax(tokens.len())),
        Err(ParseFault::NoMemory) => Err(Refusal::NoMemory),
    }
}

/// A token list stops beginning any derived list at one place, and a derived one at none.
pub fn one_place()
    ensures one { (t : Table) (ks : List ℕ) (m n : ℕ) → IsSyntaxPlace t ks m
        → IsSyntaxPlace t ks n → m ≡ n }
    ensures none { (t : Table) (ks : List ℕ) (n : ℕ) (f : Forest) → IsTree t ks f
        → IsSyntaxPlace t ks n → ⊥ }
{}
