ghost use Rattle.std.specs.Prelude.{◌≡◌, IfOk, OnOk};
ghost use Rattle.book_model.specs.Files.{stored};
ghost use Rattle.library_texts.specs.Texts as texts;
ghost use Rattle.project_book.specs.Held.{IsOpenedOver};
ghost use Rattle.project_answers.specs.Holds.{all_linked, holding_of};

use crate::edits::{answer_drop, answer_put};
use crate::finding::{answer_bad_name, answer_find};
use crate::following::{close, open, place_of};
use crate::implications::answer_implied;
use crate::linking::Linking;
use crate::links::{answer_links, answer_no_links, present};
use crate::printing::answer_print;
use crate::words::name_in;
use crate::wrong::answer_check;
use demand_core::{Ledger, Steps};
use element_store::{FileName, Text};
use library_texts::library;
use linker_base::NoMemory;
use outside_core::Sink;
use project_book::Project;
use session_run::Opening;
use std::alloc::Global;
use std::marker::Model;
use sysml_session::{AnswerFault, Answering};

/// A project that answers a session, over whoever links its files. Its links follow each edit, and are
/// settled when a question comes. Contracts see what the project holds, and the files that are followed.
#[derive(Drop)]
pub struct Desk<G: Linking> {
    alloc: Global,
    project: Project,
    linking: G,
    // Whether the links followed all edits. Want of memory may have kept them from it; then a question links
    // all files anew.
    is_following: bool,
}

impl<G: Linking> Model for Desk<G> {
    ghost use Rattle.project_answers.specs.Holds.{Desked, IsFresh};

    ghost Value = { Desked };

    ghost view = { λ d. record {
      held = d.project;
      follows = G.follows d.linking;
      is_following = d.is_following;
    } };

    ghost invariant = { λ d. IsFresh (record {
      held = d.project;
      follows = G.follows d.linking;
      is_following = d.is_following;
    }) };
}

impl<G: Linking> Desk<G> {
    /// A project without files of its own, over the library of this product. The library is linked with the
    /// first question.
    pub fn new(alloc: Global) -> Result<Self, NoMemory>
        ensures { IfOk result (λ desk. IsOpenedOver texts.library desk.held) }
    {
        let project = Project::open(alloc, library())?;
        Ok(Desk {
            alloc,
            project,
            linking: G::none(alloc),
            is_following: false,
        })
    }

    /// Links what the edits since the last question may have changed.
    fn link(&mut self) -> Result<(), NoMemory>
        ensures held { self.new.held ≡ self.old.held }
        ensures linked { OnOk result (self.new.follows ≡ all_linked (stored self.old.held.files)) }
    {
        let models = self.project.files().models();
        let linked = if self.is_following {
            self.linking.settle(models)
        } else {
            self.linking.link(models)
        };
        self.is_following = linked.is_ok();
        linked
    }
}

impl<G: Linking> Answering for Desk<G> {
    ghost holding = { λ d. holding_of d.held };

    fn put<K: Sink, L: Ledger>(
        &mut self,
        name: FileName,
        text: Text,
        output: &mut K,
        _steps: &mut Steps<L>,
    ) -> Result<(), AnswerFault> {
        let file = place_of(&self.project, &name);
        let follows = self.is_following && close(&mut self.linking, &self.project, file);
        let answered = answer_put(self.alloc, &mut self.project, name, text, output);
        self.is_following = follows && open(&mut self.linking, &self.project, file);
        answered
    }

    fn drop<K: Sink, L: Ledger>(
        &mut self,
        name: FileName,
        output: &mut K,
        _steps: &mut Steps<L>,
    ) -> Result<(), AnswerFault> {
        let file = place_of(&self.project, &name);
        let follows = self.is_following && close(&mut self.linking, &self.project, file);
        let answered = answer_drop(self.alloc, &mut self.project, &name, output);
        self.is_following = follows && open(&mut self.linking, &self.project, file);
        answered
    }

    fn links<K: Sink>(&mut self, name: &FileName, output: &mut K) -> Result<(), AnswerFault> {
        let Some(file) = present(&self.project, name) else {
            return answer_no_links(self.alloc, &self.project, name, output);
        };
        match self.link() {
            Ok(()) => answer_links(self.alloc, &self.project, &self.linking, name, file, output),
            Err(_) => Err(AnswerFault::NoMemory),
        }
    }

    fn check<K: Sink>(&mut self, output: &mut K) -> Result<(), AnswerFault> {
        match self.link() {
            Ok(()) => answer_check(self.alloc, &self.project, &self.linking, output),
            Err(_) => Err(AnswerFault::NoMemory),
        }
    }

    fn implied<K: Sink>(&mut self, output: &mut K) -> Result<(), AnswerFault> {
        match self.link() {
            Ok(()) => answer_implied(self.alloc, &self.project, &self.linking, output),
            Err(_) => Err(AnswerFault::NoMemory),
        }
    }

    fn print<K: Sink>(&mut self, name: &FileName, output: &mut K) -> Result<(), AnswerFault> {
        answer_print(self.alloc, &self.project, name, output)
    }

    fn find<K: Sink>(&mut self, words: &Text, output: &mut K) -> Result<(), AnswerFault> {
        match name_in(self.alloc, words.bytes()) {
            Err(_) => Err(AnswerFault::NoMemory),
            Ok(None) => answer_bad_name(&self.project, words, output),
            Ok(Some(name)) => match self.link() {
                Ok(()) => answer_find(
                    self.alloc,
                    &self.project,
                    &self.linking,
                    words,
                    name,
                    output,
                ),
                Err(_) => Err(AnswerFault::NoMemory),
            },
        }
    }
}

impl<G: Linking> Opening for Desk<G> {
    ghost library = { texts.library };

    fn open<L: Ledger>(alloc: Global, _steps: &mut Steps<L>) -> Result<Self, NoMemory> {
        Desk::new(alloc)
    }
}
