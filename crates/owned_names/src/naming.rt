ghost use Rattle.std.specs.Prelude.{◌≡◌, ◌<◌, IfOk, IfSome, length, ℕ, suc, not};
ghost use Rattle.element_store.specs.BaseRules.{StandsIn};
ghost use Rattle.element_store.specs.Readings.{is_redefinition, redefinitions_in};
ghost use Rattle.link_model.specs.Names as names;
ghost use Rattle.link_model.specs.Readers.{is_nil};
ghost use Rattle.link_walk.specs.Calls.{read_by, HasLinks};
ghost use Rattle.owned_names.specs.Walked.{first_in, named_by, rest_of, LeadsOn, Leaves};
ghost use Rattle.owned_names.specs.Walked.{IsNamingThere};

use crate::passed::Passed;
use element_store::{Element, ElementNo, FileModel, RefNo, Role};
use link_model::View;
use link_walk::{Notes, Read, model, read_target};
use linker_base::NoMemory;
use std::alloc::Global;

/// Whose declared names are the names of an element.
#[derive(Clone, Copy)]
pub enum Naming {
    /// That hangs on an open reference.
    Open(RefNo),
    /// No element's: it has no names.
    Nameless,
    /// This element's.
    By(ElementNo),
}

/// A step of the way from an element to the one that names it.
#[derive(Clone, Copy)]
pub(crate) enum Stride {
    /// The way ends.
    Ends(Naming),
    /// It goes on at the element that is redefined.
    Goes(ElementNo),
}

/// Whether a reference of that role says what a feature redefines.
fn is_redefinition(role: Role) -> bool
    ensures { result ≡ is_redefinition role }
{
    matches!(role, Role::Redefinition)
}

/// The first redefinition that an element of a model owns.
fn first_redefinition(model: &FileModel, element: u32) -> Option<u32>
    requires { element < length model.now.elements }
    ensures first { result ≡ first_in (redefinitions_in model.now.references element) }
    ensures within { IfSome result (λ index. index < length model.now.references) }
{
    let (first, after) = model.references_of(element);
    for index in first..after {
        let found = is_redefinition(model.reference(index).role);
        if found {
            return Some(index);
        }
    }
    None
}

/// Whether an element has a declared name.
fn has_name(element: &Element) -> bool
    ensures { result ≡ not (is_nil (names.declared_names element.now.short element.now.name)) }
{
    element.short.is_some() || element.name.is_some()
}

/// One step of the way from an element to the one that names it: it ends at an element with a declared
/// name, at one where it was before, and at one without a redefinition that is linked.
fn stride_from(
    view: &View,
    walked: &Passed,
    at: ElementNo,
    notes: &mut Notes,
) -> Result<Stride, NoMemory>
    requires stands { StandsIn view.now.models.now at }
    requires links { HasLinks view.now }
    ensures leaves { IfOk result (λ stride. (n : ℕ) → Leaves notes.old notes.new
        (rest_of view.now.models.now view.now.table.now n walked.now at stride)
        (names.names_from (suc n) walked.now at (read_by view.now))) }
    ensures stands { IfOk result (LeadsOn view.now.models.now) }
{
    let model = model(view, at.file, notes)?;
    let named = has_name(model.element(at.index));
    if named {
        return Ok(Stride::Ends(Naming::By(at)));
    }
    let passed = walked.has(at);
    if passed {
        return Ok(Stride::Ends(Naming::Nameless));
    }
    let Some(index) = first_redefinition(model, at.index) else {
        return Ok(Stride::Ends(Naming::Nameless));
    };
    let reference = RefNo {
        file: at.file,
        index,
    };
    match read_target(view, reference, notes)? {
        Read::Open(reference) => Ok(Stride::Ends(Naming::Open(reference))),
        Read::Nowhere => Ok(Stride::Ends(Naming::Nameless)),
        Read::At(element) => Ok(Stride::Goes(element)),
    }
}

/// Whose declared names are the names of an element: its own, or where it has none, those of what its
/// first redefinition leads to, and so on. Each element is passed once.
pub fn naming_of(
    alloc: Global,
    view: &View,
    element: ElementNo,
    notes: &mut Notes,
) -> Result<Naming, NoMemory>
    requires stands { StandsIn view.now.models.now element }
    requires links { HasLinks view.now }
    ensures names { IfOk result (λ naming. Leaves notes.old notes.new
        (named_by view.now.models.now naming) (names.names element (read_by view.now))) }
    ensures stands { IfOk result (IsNamingThere view.now.models.now) }
{
    let mut walked = Passed::new(alloc);
    let mut at = element;
    // As many steps as the definition has. The way ends long before, since no element is passed twice.
    for _step in 0..u64::MAX {
        match stride_from(view, &walked, at, notes)? {
            Stride::Ends(naming) => return Ok(naming),
            Stride::Goes(next) => {
                walked.pass(at)?;
                at = next;
            }
        }
    }
    match stride_from(view, &walked, at, notes)? {
        Stride::Ends(naming) => Ok(naming),
        Stride::Goes(_) => Ok(Naming::Nameless),
    }
}
