ghost use Rattle.std.specs.Prelude.{◌≡◌, ◌∷◌, IfOk, OnOk};
ghost use Rattle.token_core.specs.Reading.{AreTokensOf};
ghost use Rattle.text_model.specs.Tables.{tables};
ghost use Rattle.text_model.specs.Walk.{fresh, taken};
ghost use Rattle.draft_walk.specs.Drafted.{HasDrafts};
ghost use Rattle.draft_walk.specs.Telling.{begun, closed, opened, saved_of, told, top};

use crate::walker::{Saved, Walker};
use element_store::Language;
use linker_base::NoMemory;
use ll_core::Event;
use std::alloc::Global;
use std::marker::Model;
use text_model::action::Action;
use text_model::draft::{Draft, DraftImport, DraftMember, Waiting, What};
use text_model::{action_of, meaning_of};
use token_core::{Token, TokenKind, comment_of, integer_of, name_of, string_of};

/// A text, its tokens and its language.
#[derive(Clone, Copy)]
pub struct Source<'a> {
    pub text: &'a [u8],
    pub tokens: &'a [Token],
    pub language: Language,
}

/// What the walk over the tree of a text gives.
#[derive(Drop)]
pub struct Drafts {
    pub elements: Vec<Draft>,
    pub members: Vec<DraftMember>,
    pub imports: Vec<DraftImport>,
    /// The places of integers above the greatest.
    pub large: Vec<u32>,
}

/// A walker, and what stands open: the actions of the productions, what the ends of elements and lists need, and the
/// operators around expressions of their own. Contracts see the innermost first.
#[derive(Drop)]
pub struct Teller<'a> {
    alloc: Global,
    actions: Vec<Action>,
    frames: Vec<Saved>,
    levels: Vec<Option<Waiting>>,
    walker: Walker<'a>,
}

impl<'a> Model for Teller<'a> {
    ghost use Rattle.std.specs.Prelude.{reverse};
    ghost use Rattle.draft_walk.specs.Telling.{Telling};

    ghost Value = { Telling };

    ghost view = { λ a. record {
      actions = reverse a.actions.items;
      frames = reverse a.frames.items;
      levels = reverse a.levels.items;
      now = a.walker;
    } };
}

impl<'a> Teller<'a> {
    /// Before the first event.
    pub fn new(alloc: Global, tokens: &'a [Token]) -> Result<Teller<'a>, NoMemory>
        ensures { IfOk result (λ teller. teller ≡ begun tokens.now) }
    {
        Ok(Teller {
            alloc,
            actions: Vec::new(alloc),
            frames: Vec::new(alloc),
            levels: Vec::new(alloc),
            walker: Walker::new(alloc, tokens)?,
        })
    }

    /// What the end of an element or a list needs is kept, and nothing is read. It stands apart, since a function clears
    /// the room of its locals first, and most productions need none of this.
    #[inline(never)]
    fn keep(&mut self) -> Result<(), NoMemory>
        ensures { OnOk result (self.new ≡ record self.old {
          frames = saved_of self.old.now ∷ self.old.frames;
          now = record self.old.now { reading = fresh };
        }) }
    {
        let saved = self.walker.save();
        self.frames.push(saved)?;
        Ok(())
    }

    /// A production with this action begins.
    #[inline(always)]
    fn open(&mut self, action: Action) -> Result<(), NoMemory>
        ensures { OnOk result (self.new ≡ opened action self.old) }
    {
        match action {
            Action::Element(kind) => {
                self.keep()?;
                self.walker.enter_element(kind)?;
            }
            Action::Take(_) => {
                self.keep()?;
                self.walker.enter_taking();
            }
            Action::Level => {
                let around = self.walker.enter_level();
                self.levels.push(around)?;
            }
            Action::NamedEnd => self.walker.enter_named_end()?,
            Action::Tail => self.walker.enter_tail()?,
            _ => {}
        }
        self.actions.push(action)?;
        Ok(())
    }

    /// The production that was opened last ends.
    #[inline(always)]
    fn close(&mut self) -> Result<(), NoMemory>
        ensures { OnOk result (self.new ≡ closed self.old.actions self.old) }
    {
        match self.actions.pop() {
            Some(Action::Element(_)) => {
                if let Some(saved) = self.frames.pop() {
                    self.walker.leave_element(saved)?;
                }
            }
            Some(Action::Take(taking)) => {
                if let Some(saved) = self.frames.pop() {
                    self.walker.leave_taking(taking, saved)?;
                }
            }
            Some(Action::Level) => {
                if let Some(around) = self.levels.pop() {
                    self.walker.leave_level(around)?;
                }
            }
            _ => {}
        }
        Ok(())
    }

    /// The next token is taken, below the production that was opened last.
    #[inline(always)]
    fn shift(&mut self, source: &Source) -> Result<(), NoMemory>
        requires { AreTokensOf source.now.text.now self.old.now.rest }
        ensures { OnOk result (self.new
            ≡ told (tables source.now.language) source.now.text.now self.old Event.Shift) }
    {
        let action = match self.actions.last() {
            Some(action) => *action,
            None => Action::Group,
        };
        take(&mut self.walker, source, action)
    }

    /// One event more.
    #[inline(always)]
    pub fn tell(&mut self, source: &Source, event: Event) -> Result<(), NoMemory>
        requires { AreTokensOf source.now.text.now self.old.now.rest }
        ensures { OnOk result (self.new
            ≡ told (tables source.now.language) source.now.text.now self.old event) }
    {
        match event {
            Event::Open(production) => self.open(action_of(source.language, production)),
            Event::Shift => self.shift(source),
            Event::Close => self.close(),
            Event::End => Ok(()),
        }
    }
}

impl<'a> Teller<'a> {
    /// What the walk gave.
    pub fn into_drafts(self) -> Drafts
        ensures { HasDrafts result self.entry.now }
    {
        let walker = self.walker;
        Drafts {
            elements: walker.elements,
            members: walker.members,
            imports: walker.imports.into_vec(),
            large: walker.large.into_vec(),
        }
    }
}

/// The next token is taken, below a production with this action.
#[inline(never)]
fn take(walker: &mut Walker, source: &Source, action: Action) -> Result<(), NoMemory>
    requires { AreTokensOf source.now.text.now walker.old.rest }
    ensures { OnOk result (walker.new
        ≡ taken (tables source.now.language) source.now.text.now action walker.old) }
{
    let alloc = walker.alloc;
    let text = source.text;
    let Some(token) = walker.take_token() else {
        return Ok(());
    };
    match token.kind {
        TokenKind::Name => walker.take_name(action, token.from, name_of(alloc, text, token)?),
        TokenKind::Integer => walker.take_integer(integer_of(text, token), token.from),
        TokenKind::Quote => walker.push(What::Text(string_of(alloc, text, token)?), token.from),
        TokenKind::Comment => {
            walker.set_body(comment_of(alloc, text, token)?);
            Ok(())
        }
        kind => walker.take_word(action, meaning_of(source.language, kind), token),
    }
}
