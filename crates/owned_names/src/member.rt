ghost use Rattle.std.specs.Prelude.{◌≡◌, [], IfOk, OnOk};
ghost use Rattle.link_model.specs.Linking.{MemberStands};
ghost use Rattle.link_model.specs.Names as names;
ghost use Rattle.link_walk.specs.Calls.{read_by, AnswersOne, AddsLooks, step_of};
ghost use Rattle.link_walk.specs.Noted.{noted};
ghost use Rattle.owned_names.specs.Hits.{AreReferencesThere};

use element_store::{ElementNo, FileNo, MemberNo, RefNo, Target};
use link_model::{LinkLooks, View};
use link_walk::{Found, Notes, Read, Refs, read_target};
use linker_base::NoMemory;
use std::alloc::Global;

/// Where a member's target leads. An alias whose reference is open isn't noted as waited on.
pub(crate) fn leads_to(
    view: &View,
    file: FileNo,
    target: Target,
    notes: &mut Notes,
) -> Result<Read, NoMemory>
    requires stands { AreReferencesThere view.now.models.now file target }
    ensures read { IfOk result (λ read.
        (names.leads_to file target (read_by view.now)).step
        ≡ step_of read) }
    ensures looks { OnOk result (notes.new ≡ noted []
        (names.leads_to file target (read_by view.now)).looks
        notes.old) }
{
    match target {
        Target::Owned(index) => Ok(Read::At(ElementNo { file, index })),
        Target::Alias(index) => read_target(view, RefNo { file, index }, notes),
    }
}

/// Where the member of that number leads.
fn lead(view: &View, member: MemberNo, notes: &mut Notes) -> Result<Read, NoMemory>
    requires stands { MemberStands view.now.models.now member }
    ensures read { IfOk result (λ read.
        (names.member_element member (read_by view.now)).step
        ≡ step_of read) }
    ensures looks { OnOk result (notes.new ≡ noted []
        (names.member_element member (read_by view.now)).looks
        notes.old) }
{
    notes.look_at(member.file)?;
    match view.models.model(member.file) {
        None => Ok(Read::Nowhere),
        Some(model) => leads_to(view, member.file, model.member(member.index).target, notes),
    }
}

/// Where the member of that number leads, with the looks told.
fn lead_told(
    view: &View,
    member: MemberNo,
    notes: &mut Notes,
    looks: &mut LinkLooks,
) -> Result<Read, NoMemory>
    requires stands { MemberStands view.now.models.now member }
    requires empty { notes.old ≡ record { waits = []; looks = [] } }
    ensures read { IfOk result (λ read.
        (names.member_element member (read_by view.now)).step ≡ step_of read) }
    ensures looks { OnOk result (AddsLooks looks.old looks.new
        (names.member_element member (read_by view.now))) }
{
    let read = lead(view, member, notes)?;
    notes.tell(looks)?;
    Ok(read)
}

/// The answer that a reading is.
fn answered(alloc: Global, read: Read) -> Result<Found<Option<ElementNo>>, NoMemory>
    ensures { IfOk result (λ found. AnswersOne found (step_of read)) }
{
    match read {
        Read::Open(reference) => {
            let mut waits = Refs::new(alloc);
            waits.push(reference)?;
            Ok(Found::Waits(waits))
        }
        Read::Nowhere => Ok(Found::Done(None)),
        Read::At(element) => Ok(Found::Done(Some(element))),
    }
}

/// Where a member leads: an owned one to its element, an alias to the target of its reference. `None`
/// comes exactly for an alias whose reference is refused.
pub fn member_element(
    alloc: Global,
    view: &View,
    member: MemberNo,
    looks: &mut LinkLooks,
) -> Result<Found<Option<ElementNo>>, NoMemory>
    requires stands { MemberStands view.now.models.now member }
    ensures found { IfOk result (λ found. AnswersOne found
        (names.member_element member (read_by view.now)).step) }
    ensures looks { OnOk result (AddsLooks looks.old looks.new
        (names.member_element member (read_by view.now))) }
{
    let mut notes = Notes::new(alloc);
    let read = lead_told(view, member, &mut notes, looks)?;
    answered(alloc, read)
}
