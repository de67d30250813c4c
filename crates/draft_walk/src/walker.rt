ghost use Rattle.std.specs.Prelude.{◌≡◌, OnOk, IfOk};
ghost use Rattle.text_model.specs.Walk.{begun_place, begun_visibility, fresh, next_place, pushed};
ghost use Rattle.text_model.specs.Drafts.{draft};
ghost use Rattle.text_model.specs.Profile.{start};
ghost use Rattle.draft_walk.specs.Telling.{Splits, saved_of};

use element_store::{Items, Kind, Marks, Visibility};
use linker_base::NoMemory;
use std::alloc::Global;
use std::marker::Model;
use std::mem;
use text_model::draft::{Draft, DraftImport, DraftMember, DraftNode, Reading, Row, Seen, What};
use token_core::Token;

/// The walk over the tree of a text, an event at a time. Contracts see its drafts and the tokens to come.
#[derive(Drop)]
pub struct Walker<'a> {
    pub(crate) alloc: Global,
    // All tokens of the text.
    all: &'a [Token],
    // How many tokens were taken.
    at: usize,
    pub(crate) elements: Vec<Draft>,
    pub(crate) members: Vec<DraftMember>,
    pub(crate) imports: Row<DraftImport>,
    // The element that is open.
    pub(crate) current: usize,
    pub(crate) waiting: Option<Seen>,
    pub(crate) reading: Reading,
    pub(crate) large: Row<u32>,
}

impl<'a> Model for Walker<'a> {
    ghost use Rattle.std.specs.Prelude.{◌<◌, drop, length};
    ghost use Rattle.text_model.specs.Walk.{Walk};

    ghost Value = { Walk };

    ghost view = { λ a. record {
      elements = a.elements.items;
      members = a.members.items;
      imports = a.imports;
      current = a.current;
      waiting = a.waiting;
      reading = a.reading;
      large = a.large;
      rest = drop a.at a.all.now;
    } };

    ghost invariant = { λ a. a.current < length a.elements.items };
}

/// What the end of an element or a list needs of its beginning.
#[derive(Drop)]
pub struct Saved {
    pub current: usize,
    pub reading: Reading,
    pub place: u32,
    pub visibility: Option<Visibility>,
}

/// A count as a number. No text is long enough for a count that is none.
pub fn number_of(count: usize) -> Result<u32, NoMemory>
    ensures { IfOk result (λ number. number ≡ count) }
{
    match u32::try_from(count) {
        Ok(number) => Ok(number),
        Err(_) => Err(NoMemory),
    }
}

/// Writes a value in the place of another.
pub fn put<T: Drop>(slot: &mut T, value: T)
    ensures { slot.new ≡ value }
{
    *slot = value;
}

/// An element with nothing in it.
pub fn draft(alloc: Global, kind: Kind, owner: Option<u32>) -> Draft
    ensures { result ≡ draft kind owner }
{
    Draft {
        kind,
        owner,
        short: None,
        name: None,
        marks: Marks::none(),
        body: None,
        locale: None,
        own: Row::new(alloc),
        specs: Row::new(alloc),
        bounds: Row::new(alloc),
        value: None,
        result: None,
        inner: Row::new(alloc),
        items: Items::new(alloc),
    }
}

/// Nothing is read.
pub fn nothing_read(alloc: Global) -> Reading
    ensures { result ≡ fresh }
{
    Reading {
        nodes: Row::new(alloc),
        operator: None,
        start: None,
        root: None,
        short: None,
        name: None,
    }
}

impl<'a> Walker<'a> {
    /// Before the first token: the root alone.
    pub fn new(alloc: Global, tokens: &'a [Token]) -> Result<Walker<'a>, NoMemory>
        ensures { IfOk result (λ walker. walker ≡ start tokens.now) }
    {
        // Most texts have an element for five tokens or more, and so the lists never grow.
        let room = tokens.len() / 5;
        let mut elements = Vec::with_capacity(alloc, room)?;
        elements.push(draft(alloc, Kind::Root, None))?;
        Ok(Walker {
            alloc,
            all: tokens,
            at: 0,
            elements,
            members: Vec::with_capacity(alloc, room)?,
            imports: Row::new(alloc),
            current: 0,
            waiting: None,
            reading: nothing_read(alloc),
            large: Row::new(alloc),
        })
    }

    /// The place of the next token.
    pub fn next_place(&self) -> u32
        ensures { result ≡ next_place self.now.rest }
    {
        match self.all.get(self.at) {
            Some(token) => token.from,
            None => 0,
        }
    }

    /// The place of the item that begins.
    pub fn begun_place(&self) -> u32
        ensures { result ≡ begun_place self.now.waiting self.now.rest }
    {
        match self.waiting {
            Some(seen) => seen.place,
            None => self.next_place(),
        }
    }

    /// The visibility of the item that begins, if a word says it.
    pub fn begun_visibility(&self) -> Option<Visibility>
        ensures { result ≡ begun_visibility self.now.waiting }
    {
        match self.waiting {
            Some(seen) => Some(seen.visibility),
            None => None,
        }
    }

    /// A node is read.
    pub fn push(&mut self, what: What, place: u32) -> Result<(), NoMemory>
        ensures { OnOk result (self.new ≡ pushed what place self.old) }
    {
        self.reading.nodes.push(DraftNode { what, place })
    }

    /// Takes the next token.
    pub fn take_token(&mut self) -> Option<Token>
        ensures token { Splits self.old.rest result self.new.rest }
        ensures rest { self.new ≡ record self.old { rest = self.new.rest } }
    {
        let token = self.all.get(self.at).copied()?;
        self.at += 1;
        Some(token)
    }

    /// What is kept of the element that is open, until one or a list in it ends. Nothing is read then.
    #[inline(never)]
    pub fn save(&mut self) -> Saved
        ensures saved { result ≡ saved_of self.old }
        ensures fresh { self.new ≡ record self.old { reading = fresh } }
    {
        Saved {
            current: self.current,
            place: self.begun_place(),
            visibility: self.begun_visibility(),
            reading: mem::replace(&mut self.reading, nothing_read(self.alloc)),
        }
    }
}
