ghost use Rattle.std.specs.Prelude.{◌≡◌, ◌<◌, [], None, Some, false, length, slice_get, IfOk, OnOk};
ghost use Rattle.demand_core.specs.Answers.{IsAnswer};
ghost use Rattle.demand_core.specs.Tables.{entry_of};
ghost use Rattle.element_store.specs.Stored.{with_model};
ghost use Rattle.element_store.specs.declared.models.StoredFile.{StoredFile};
ghost use Rattle.link_model.specs.Keys.{same_key};
ghost use Rattle.link_model.specs.Outside.{keys_of};
ghost use Rattle.link_model.specs.Readers.{is_nil};
ghost use Rattle.kept_links.specs.Kept.{AreKept, AreSettled, HasLetGo, IsRight, IsSettled, MayOpen};

use crate::facts::facts_of;
use crate::keys::{keys_of, push_file};
use crate::pending::standing;
use demand_core::{Answer, Engine, Fact, Ledger, Rules, Steps};
use element_store::{FileNo, Models, Outcome};
use link_model::{LinkFact, LinkKey, LinkTable};
use linker_base::NoMemory;
use std::alloc::Global;
use std::marker::Model;

/// The links of files that are edited. What an edit may change is pending until it is settled; the engine
/// holds all else as the least linking of the files has it. Contracts see the engine and the pending
/// references. After `NoMemory` of any call they mean nothing.
#[derive(Drop)]
pub struct KeptLinks {
    engine: Engine<LinkKey, Outcome, LinkFact>,
    // References that were forgotten or came. Some of them may have gone since.
    pending: Vec<LinkKey>,
}

impl Model for KeptLinks {
    ghost use Rattle.kept_links.specs.Kept.{Kept};

    ghost Value = { Kept };

    ghost view = { λ l. record { engine = l.engine; pending = l.pending.items } };
}

impl KeptLinks {
    /// The links of no files, which takes no memory.
    pub fn new(alloc: Global) -> Self
        ensures { AreSettled [] result }
    {
        KeptLinks {
            engine: Engine::new(alloc),
            pending: Vec::new(alloc),
        }
    }

    /// The links of these files, of which each reference is pending.
    pub fn of(alloc: Global, models: &Models) -> Result<Self, NoMemory>
        ensures { IfOk result (AreKept models.now) }
    {
        // A look at the models tells what holds of all files.
        let _ = models.files();
        let pending = keys_of(alloc, models)?;
        Ok(KeptLinks {
            engine: Engine::new(alloc),
            pending,
        })
    }

    /// Forgets what looked at one of these facts, which is pending then.
    fn let_go(&mut self, facts: &[Fact<LinkKey, LinkFact>]) -> Result<(), NoMemory>
        ensures { OnOk result (HasLetGo facts.now self.old self.new) }
    {
        let gone = self.engine.forget(facts)?;
        self.pending.extend_from_slice(gone.as_slice())?;
        Ok(())
    }

    /// Follows the going of a project file's text, before its model is taken away or replaced.
    pub fn close(&mut self, alloc: Global, models: &Models, file: FileNo) -> Result<(), NoMemory>
        requires within { file.0 < length models.now }
        requires own { (s : StoredFile) → slice_get models.now file.0 ≡ Some s
            → s.library ≡ false }
        requires kept { AreKept models.now self.old }
        ensures { OnOk result (AreKept (with_model models.now file.0 None) self.new) }
    {
        let facts = facts_of(alloc, models, file)?;
        self.let_go(&facts)?;
        Ok(())
    }

    /// Follows the coming of a project file's text, after its model was set. The file had no text before,
    /// or is new.
    pub fn open(&mut self, alloc: Global, models: &Models, file: FileNo) -> Result<(), NoMemory>
        requires within { file.0 < length models.now }
        requires may { MayOpen models.now file self.old }
        ensures { OnOk result (AreKept models.now self.new) }
    {
        // A look at the models tells what holds of all files.
        let _ = models.files();
        let facts = facts_of(alloc, models, file)?;
        self.let_go(&facts)?;
        push_file(models, file, &mut self.pending)?;
        Ok(())
    }

    /// Decides what is pending, by rules whose keys are the references of these files. It asks the pending
    /// references, and those on which they wait.
    pub fn settle<R: Rules<LinkKey, Outcome, LinkFact>, L: Ledger>(
        &mut self,
        alloc: Global,
        models: &Models,
        rules: &R,
        steps: &mut Steps<L>,
    ) -> Result<(), NoMemory>
        requires valid { R.valid rules.now }
        requires keys { (R.meaning rules.now).keys ≡ keys_of models.now }
        requires right { IsRight same_key (R.meaning rules.now) self.old.pending self.old.engine }
        ensures { OnOk result (IsSettled (R.meaning rules.now) self.new) }
    {
        let fresh = standing(alloc, models, &self.pending)?;
        self.engine.settle(rules, &fresh, steps)?;
        self.pending.clear();
        Ok(())
    }

    /// Whether no reference is pending.
    pub fn is_settled(&self) -> bool
        ensures { result ≡ is_nil self.now.pending }
    {
        self.pending.is_empty()
    }

    /// What the engine holds of a reference.
    pub fn answer(&self, key: LinkKey) -> Answer<'_, LinkKey, Outcome>
        ensures { IsAnswer result (entry_of same_key self.now.engine.table key)
            (entry_of same_key self.now.engine.cyclic key) }
    {
        self.engine.answer(key)
    }

    /// Lends the links that the engine holds.
    pub fn table(&self) -> &LinkTable
        ensures { result.now ≡ self.now.engine.table }
    {
        self.engine.table()
    }
}
