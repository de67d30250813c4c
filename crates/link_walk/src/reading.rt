ghost use Rattle.std.specs.Prelude.{◌≡◌, ◌<◌, [], Some, length, slice_get, List, IfOk, OnOk, IfSome};
ghost use Rattle.element_store.specs.BaseRules.{StandsIn, model_of};
ghost use Rattle.element_store.specs.Condition.{IsModel};
ghost use Rattle.element_store.specs.declared.models.StoredFile.{StoredFile};
ghost use Rattle.demand_core.specs.declared.step.Step.TheVariants.{Done};
ghost use Rattle.link_model.specs.Linking.{Fits};
ghost use Rattle.link_model.specs.Readers as readers;
ghost use Rattle.link_model.specs.Readers.{LinkWorld, listed};
ghost use Rattle.link_walk.specs.Calls.{read_by, HasLinks, HasModel, ReferenceStands, LeadsIn, step_of};
ghost use Rattle.link_walk.specs.Noted.{noted, Reads, Tells};

use crate::notes::Notes;
use element_store::{Element, ElementNo, FileModel, FileNo, Outcome, RefNo};
use link_model::{LinkKey, View};
use linker_base::NoMemory;

/// What a reference leads to, by the links decided so far.
#[derive(Clone, Copy, Debug, PartialEq, Eq)]
pub enum Read {
    /// It is open.
    Open(RefNo),
    /// It is refused.
    Nowhere,
    /// It is linked to this element.
    At(ElementNo),
}

/// Lends the model of a file that has one, and notes the look at the file.
pub fn model<'a>(
    view: &View<'a>,
    file: FileNo,
    notes: &mut Notes,
) -> Result<&'a FileModel, NoMemory>
    requires there { HasModel view.now.models.now file }
    ensures stored { IfOk result (λ d. model_of view.now.models.now file.0 ≡ Some d.now) }
    ensures file { IfOk result (λ d. d.now.file ≡ file) }
    ensures whole { IfOk result (λ d. IsModel d.now) }
    ensures read { IfOk result (λ d. Reads
        (readers.model file (read_by view.now))
        d.now notes.old notes.new) }
{
    notes.look_at(file)?;
    match view.models.model(file) {
        Some(model) => Ok(model),
        None => unreachable!(),
    }
}

/// Lends an element, and notes the look at its file.
pub fn element<'a>(
    view: &View<'a>,
    e: ElementNo,
    notes: &mut Notes,
) -> Result<&'a Element, NoMemory>
    requires stands { StandsIn view.now.models.now e }
    ensures read { IfOk result (λ x. Reads
        (readers.element e (read_by view.now))
        x.now notes.old notes.new) }
{
    let of = model(view, e.file, notes)?;
    Ok(of.element(e.index))
}

/// Where an outcome leads, with the look at the file of the element that it names.
pub fn lead(outcome: &Outcome, notes: &mut Notes) -> Result<Option<ElementNo>, NoMemory>
    ensures read { IfOk result (λ e. (w : LinkWorld) →
        (readers.led_to outcome.now w).step ≡ Done (listed e)) }
    ensures looks { OnOk result ((w : LinkWorld) →
        notes.new ≡ noted [] (readers.led_to outcome.now w).looks notes.old) }
    ensures stands { IfOk result (λ e. (files : List StoredFile) → Fits files outcome.now
        → IfSome e (StandsIn files)) }
{
    match outcome {
        Outcome::Linked { element, .. } => {
            notes.look_at(element.file)?;
            Ok(Some(*element))
        }
        Outcome::Absent { .. } | Outcome::Ambiguous { .. } => Ok(None),
        Outcome::Hidden { .. } | Outcome::Cyclic { .. } => Ok(None),
    }
}

/// Reads the target of a reference, and notes at what it looks. A reference that is open isn't noted
/// as waited on.
pub fn read_target(view: &View, reference: RefNo, notes: &mut Notes) -> Result<Read, NoMemory>
    requires stands { ReferenceStands view.now.models.now reference }
    ensures read { IfOk result (λ read.
        (readers.target (record { 0 = reference }) (read_by view.now)).step ≡ step_of read) }
    ensures looks { OnOk result (notes.new ≡ noted []
        (readers.target (record { 0 = reference }) (read_by view.now)).looks notes.old) }
    ensures links { IfOk result (λ read. HasLinks view.now → LeadsIn view.now.models.now read) }
{
    notes.look_at(reference.file)?;
    notes.look_up(LinkKey(reference))?;
    match view.table.get(LinkKey(reference)) {
        None => Ok(Read::Open(reference)),
        Some(outcome) => match lead(outcome, notes)? {
            Some(e) => Ok(Read::At(e)),
            None => Ok(Read::Nowhere),
        },
    }
}

/// The linked target of a reference. None comes where it is refused, and where it is open: then it is
/// noted as waited on.
pub fn target(
    view: &View,
    reference: LinkKey,
    notes: &mut Notes,
) -> Result<Option<ElementNo>, NoMemory>
    requires stands { ReferenceStands view.now.models.now reference.0 }
    ensures told { IfOk result (λ e. Tells
        (readers.target reference (read_by view.now))
        e notes.old notes.new) }
    ensures links { IfOk result (λ e. HasLinks view.now
        → IfSome e (StandsIn view.now.models.now)) }
{
    match read_target(view, reference.0, notes)? {
        Read::Open(_) => {
            notes.wait_on(reference)?;
            Ok(None)
        }
        Read::Nowhere => Ok(None),
        Read::At(e) => Ok(Some(e)),
    }
}
