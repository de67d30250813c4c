ghost use Rattle.std.specs.Prelude.{◌≡◌, [], IfOk, IfSome, OnOk};
ghost use Rattle.element_store.specs.BaseRules.{StandsIn};
ghost use Rattle.link_model.specs.Readers as readers;
ghost use Rattle.link_walk.specs.Calls.{HasLinks, ReferenceStands};
ghost use Rattle.link_walk.specs.Noted.{noted, Tells};
ghost use Rattle.inheritance.specs.Sights.{IsClear, sees, waits_unless};

use element_store::ElementNo;
use link_model::{LinkKey, View};
use link_walk::{Notes, lead};
use linker_base::NoMemory;

/// What a search reads: the models, and the links decided so far.
#[derive(Clone, Copy)]
pub struct Sight<'a> {
    /// What is seen.
    pub view: &'a View<'a>,
    /// Whether no link is to come any more, so that an open reference counts as refused.
    pub settled: bool,
}

/// Notes a wait on an open reference, unless it counts as refused.
fn wait_unless(settled: bool, reference: LinkKey, notes: &mut Notes) -> Result<(), NoMemory>
    ensures { OnOk result (notes.new ≡ noted (waits_unless settled reference) [] notes.old) }
{
    if !settled {
        notes.wait_on(reference)?;
    }
    Ok(())
}

impl<'a> Sight<'a> {
    /// What is seen through a view. A caller learns here what holds of its files.
    pub fn new(view: &'a View<'a>, settled: bool) -> Self
        requires links { HasLinks view.now }
        ensures view { result.view.now ≡ view.now }
        ensures settled { result.settled ≡ settled }
        ensures clear { IsClear result }
    {
        let _ = view.models.files();
        Sight { view, settled }
    }

    /// The linked target of a reference. None comes where it is refused, and where it is open and
    /// waited on.
    pub fn target(
        &self,
        reference: LinkKey,
        notes: &mut Notes,
    ) -> Result<Option<ElementNo>, NoMemory>
        requires stands { ReferenceStands self.now.view.now.models.now reference.0 }
        ensures told { IfOk result (λ e. Tells (readers.target reference (sees self.now))
            e notes.old notes.new) }
        ensures links { IfOk result (λ e. HasLinks self.now.view.now
            → IfSome e (StandsIn self.now.view.now.models.now)) }
    {
        notes.look_at(reference.0.file)?;
        notes.look_up(reference)?;
        match self.view.table.get(reference) {
            None => {
                wait_unless(self.settled, reference, notes)?;
                Ok(None)
            }
            Some(outcome) => {
                let e = lead(outcome, notes)?;
                Ok(e)
            }
        }
    }
}
