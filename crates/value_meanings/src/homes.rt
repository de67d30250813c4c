ghost use Rattle.std.specs.Prelude.{◌≡◌, ◌<◌, ℕ, length, IfOk, MatchOption};
ghost use Rattle.linker_base.specs.Members.{SameMembers};
ghost use Rattle.element_store.specs.BaseRules.{StandsIn};
ghost use Rattle.link_model.specs.Inheritance.{reached as reached_of};
ghost use Rattle.link_model.specs.Outside.{library_of};
ghost use Rattle.link_model.specs.Settled.{in_settled};
ghost use Rattle.link_walk.specs.Calls.{files_of, read_by, HasLinks};
ghost use Rattle.value_meanings.specs.Standing.{IsHome, IsNowhere, IsOwn};

use element_store::{ElementNo, Elements, FileModel};
use inheritance::{Sight, reached};
use link_model::View;
use link_walk::distinct;
use linker_base::NoMemory;
use std::alloc::Global;

/// Lends the model in which an element stands. None comes where it stands nowhere.
pub(crate) fn home<'a>(view: &View<'a>, e: ElementNo) -> Option<&'a FileModel>
    ensures { MatchOption result (IsNowhere (read_by view.now) e)
        (λ model. IsHome view.now e model.now) }
{
    match view.models.model(e.file) {
        None => None,
        Some(model) => {
            if e.index < model.elements() {
                Some(model)
            } else {
                None
            }
        }
    }
}

/// The types that a type reaches by generals, each once.
pub(crate) fn reached_types(alloc: Global, view: &View, of: ElementNo) -> Result<Elements, NoMemory>
    requires stands { StandsIn (files_of view.now) of }
    requires links { HasLinks view.now }
    ensures { IfOk result (λ es. SameMembers es
        (in_settled (reached_of (library_of (files_of view.now)) of) (read_by view.now))) }
{
    let sight = Sight::new(view, true);
    let trail = reached(alloc, &sight, of)?;
    let types = distinct(alloc, trail.found.as_slice())?;
    Ok(types)
}

/// The member by which a type owns a feature, if it does.
pub(crate) fn own_member(model: &FileModel, of: ElementNo, feature: ElementNo) -> Option<u32>
    ensures { MatchOption result
        ((k : ℕ) → feature.index < length model.now.elements → (0 < feature.index)
        → IsOwn model.now of feature k → ⊥)
        (IsOwn model.now of feature) }
{
    if feature.index >= model.elements() {
        return None;
    }
    let index = model.member_of(feature.index)?;
    let owner = ElementNo {
        file: feature.file,
        index: model.member(index).owner,
    };
    if owner == of { Some(index) } else { None }
}
