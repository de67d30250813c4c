ghost use Rattle.std.specs.Prelude.{◌≡◌, ◌<◌, ◌++◌, cond, false, length, List, [], Some, IfOk, IfSome, OnOk};
ghost use Rattle.std.specs.List.{flat_map};
ghost use Rattle.demand_core.specs.Computation.{done, joined};
ghost use Rattle.demand_core.specs.Search.{IsAsked};
ghost use Rattle.element_store.specs.BaseRules.{StandsIn, model_of};
ghost use Rattle.element_store.specs.Condition.{imports_of};
ghost use Rattle.link_model.specs.Inheritance as inheritance;
ghost use Rattle.link_model.specs.Lexical as lexical;
ghost use Rattle.link_model.specs.Outside.{library_of};
ghost use Rattle.link_walk.specs.Calls.{files_of, read_by, HasLinks};
ghost use Rattle.link_walk.specs.Noted.{noted};
ghost use Rattle.link_tiers.specs.Tiers.{AreFound, Joins, Tried};
ghost use Rattle.link_tiers.specs.Tiers.{is_taken, import_part, imports_taken, way_from};

use crate::lookups::Lookups;
use crate::tiers::try_tier;
use element_store::{ElementNo, FileModel, FileNo, Import, ImportNo, Name};
use link_model::{Hit, View};
use link_walk::{Gains, Hits, Notes, element, model};
use linker_base::NoMemory;
use std::alloc::Global;

/// What an element inherits, if it is a type.
fn inherited_if<T: Lookups>(
    alloc: Global,
    lookups: &T,
    view: &View,
    is_type: bool,
    at: ElementNo,
    name: &Name,
) -> Result<Gains<Hit>, NoMemory>
    requires stands { StandsIn (files_of view.now) at }
    requires links { HasLinks view.now }
    ensures asked { IfOk result (λ gains. IsAsked gains (cond is_type (inheritance.inherited
        (library_of (files_of view.now)) false name.now at) (done []) (read_by view.now))) }
    ensures found { IfOk result (AreFound (files_of view.now)) }
{
    if is_type {
        let gains = lookups.inherited(alloc, view, at, name, false)?;
        return Ok(gains);
    }
    Ok(Gains::new(alloc))
}

/// The third tier of a namespace: what it inherits, if it is a type.
pub fn inherited_tier<T: Lookups>(
    alloc: Global,
    lookups: &T,
    view: &View,
    at: ElementNo,
    name: &Name,
) -> Result<Gains<Hit>, NoMemory>
    requires stands { StandsIn (files_of view.now) at }
    requires links { HasLinks view.now }
    ensures asked { IfOk result (λ gains. IsAsked gains (inheritance.inherited_tier
        (library_of (files_of view.now)) name.now at (read_by view.now))) }
    ensures found { IfOk result (AreFound (files_of view.now)) }
{
    let mut notes = Notes::new(alloc);
    let of = element(view, at, &mut notes)?;
    let is_type = of.kind.is_type();
    let mut gains = inherited_if(alloc, lookups, view, is_type, at, name)?;
    gains.notes.append(&notes)?;
    Ok(gains)
}

/// Whether an import is written before a reference, if one is given.
fn is_taken(before: Option<u32>, import: &Import) -> bool
    ensures { result ≡ is_taken before import.now }
{
    match before {
        None => true,
        Some(reference) => import.reference < reference,
    }
}

/// Appends hits.
fn append_hits(hits: &mut Hits, more: &[Hit]) -> Result<(), NoMemory>
    ensures { OnOk result (hits.new ≡ hits.old ++ more.now) }
{
    for hit in more {
        hits.push(*hit)?;
    }
    Ok(())
}

/// Adds what the import of that number brings, if it is taken.
fn add_import<T: Lookups>(
    alloc: Global,
    lookups: &T,
    view: &View,
    model: &FileModel,
    at: ElementNo,
    before: Option<u32>,
    name: &Name,
    index: u32,
    gains: &mut Gains<Hit>,
) -> Result<(), NoMemory>
    requires there { model_of (files_of view.now) at.file.0 ≡ Some model.now }
    requires stands { index < length model.now.imports }
    requires links { HasLinks view.now }
    ensures joins { OnOk result (Joins (read_by view.now) (import_part
        (library_of (files_of view.now)) name.now before at model.now index) gains.old gains.new) }
    ensures found { OnOk result (AreFound (files_of view.now) gains.old
        → AreFound (files_of view.now) gains.new) }
{
    let taken = is_taken(before, model.import(index));
    if taken {
        let number = ImportNo {
            file: at.file,
            index,
        };
        let more = lookups.imported(alloc, view, number, name, at)?;
        append_hits(&mut gains.found, more.found.as_slice())?;
        gains.notes.append(&more.notes)?;
        return Ok(());
    }
    Ok(())
}

/// What the imports of a namespace bring that are taken, over its model.
fn all_imported<T: Lookups>(
    alloc: Global,
    lookups: &T,
    view: &View,
    model: &FileModel,
    at: ElementNo,
    before: Option<u32>,
    name: &Name,
) -> Result<Gains<Hit>, NoMemory>
    requires there { model_of (files_of view.now) at.file.0 ≡ Some model.now }
    requires links { HasLinks view.now }
    ensures asked { IfOk result (λ gains. IsAsked gains (joined (import_part
        (library_of (files_of view.now)) name.now before at model.now)
        (imports_of model.now at.index) (read_by view.now))) }
    ensures found { IfOk result (AreFound (files_of view.now)) }
{
    let mut gains = Gains::new(alloc);
    let numbers = model.imports_of(at.index);
    for index in numbers {
        add_import(
            alloc, lookups, view, model, at, before, name, *index, &mut gains,
        )?;
    }
    Ok(gains)
}

/// The fourth tier of a namespace: what all its imports bring, or those that are written before a
/// reference.
pub fn import_tier<T: Lookups>(
    alloc: Global,
    lookups: &T,
    view: &View,
    at: ElementNo,
    before: Option<u32>,
    name: &Name,
) -> Result<Gains<Hit>, NoMemory>
    requires stands { StandsIn (files_of view.now) at }
    requires links { HasLinks view.now }
    ensures asked { IfOk result (λ gains. IsAsked gains (imports_taken
        (library_of (files_of view.now)) name.now before at (read_by view.now))) }
    ensures found { IfOk result (AreFound (files_of view.now)) }
{
    let mut notes = Notes::new(alloc);
    let of = model(view, at.file, &mut notes)?;
    let mut gains = all_imported(alloc, lookups, view, of, at, before, name)?;
    gains.notes.append(&notes)?;
    Ok(gains)
}

/// Tries the four tiers of a namespace.
pub fn try_namespace<T: Lookups>(
    alloc: Global,
    lookups: &T,
    view: &View,
    at: ElementNo,
    name: &Name,
    gains: &mut Gains<Hit>,
) -> Result<bool, NoMemory>
    requires stands { StandsIn (files_of view.now) at }
    requires links { HasLinks view.now }
    ensures tried { IfOk result (λ decided. Tried (read_by view.now) (lexical.tiers
        (library_of (files_of view.now)) name.now at) decided gains.old gains.new) }
    ensures found { IfOk result (λ decided. AreFound (files_of view.now) gains.new) }
{
    let declared = lookups.declared(alloc, view, at, name)?;
    let first = try_tier(gains, declared)?;
    if first {
        return Ok(true);
    }
    let effective = lookups.effective(alloc, view, at, name)?;
    let second = try_tier(gains, effective)?;
    if second {
        return Ok(true);
    }
    let inherited = inherited_tier(alloc, lookups, view, at, name)?;
    let third = try_tier(gains, inherited)?;
    if third {
        return Ok(true);
    }
    let imported = import_tier(alloc, lookups, view, at, None, name)?;
    let decided = try_tier(gains, imported)?;
    Ok(decided)
}

/// Tries the tiers of an element, if one is given, of its owner, and so on up to the root of its file.
pub fn try_outward<T: Lookups>(
    alloc: Global,
    lookups: &T,
    view: &View,
    model: &FileModel,
    file: FileNo,
    from: Option<u32>,
    name: &Name,
    gains: &mut Gains<Hit>,
) -> Result<bool, NoMemory>
    requires there { model_of (files_of view.now) file.0 ≡ Some model.now }
    requires from { IfSome from (λ e. e < length model.now.elements) }
    requires links { HasLinks view.now }
    ensures tried { IfOk result (λ decided. Tried (read_by view.now) (flat_map (lexical.tiers
        (library_of (files_of view.now)) name.now) (way_from model.now file from)) decided
        gains.old gains.new) }
    ensures found { IfOk result (λ decided. AreFound (files_of view.now) gains.old
        → AreFound (files_of view.now) gains.new) }
{
    // A look at the elements tells that each owner stands before its element.
    let _ = model.elements();
    let mut at = from;
    while let Some(index) = at {
        let namespace = ElementNo { file, index };
        let decided = try_namespace(alloc, lookups, view, namespace, name, gains)?;
        if decided {
            return Ok(true);
        }
        at = model.element(index).owner;
    }
    Ok(false)
}
