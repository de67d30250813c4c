ghost use Rattle.std.specs.Prelude.{◌≡◌, ◌<◌, false, length, Some, IfOk, IfSome};
ghost use Rattle.demand_core.specs.Search.{IsAsked};
ghost use Rattle.element_store.specs.BaseRules.{StandsIn, model_of};
ghost use Rattle.link_model.specs.Asking as asking;
ghost use Rattle.link_model.specs.Lexical as lexical;
ghost use Rattle.link_model.specs.Readers.{first_of};
ghost use Rattle.link_walk.specs.Calls.{files_of, read_by, HasLinks};
ghost use Rattle.root_names.specs.Roots.{AreRootsOf};
ghost use Rattle.link_tiers.specs.Tiers.{AreFound, Tried, way_from};
ghost use Rattle.link_asking.specs.Hiding.{library_in};
ghost use Rattle.link_asking.specs.Starts.{begin_of, tiers_from, owner_tiers, body_tiers, node_at};

use element_store::{ElementNo, FileModel, FileNo, Name, RefNo, Reference, Role};
use link_model::{Hit, View};
use link_tiers::{Lookups, import_tier, inherited_tier, try_outward, try_roots, try_tier};
use link_walk::Gains;
use linker_base::NoMemory;
use root_names::RootNames;
use std::alloc::Global;

/// Where the first segment of a reference begins to be looked up.
#[derive(Clone, Copy)]
enum Begin {
    /// At the owner of its context.
    Owner,
    /// There, without what the context's own type gives.
    Redefined,
    /// In the context, without the imports that are written behind.
    Body,
    /// At its context.
    Context,
}

/// Where a role begins.
fn begin_of(role: Role) -> Begin
    ensures { result ≡ begin_of role }
{
    match role {
        Role::Subclass => Begin::Owner,
        Role::Typing => Begin::Owner,
        Role::Subsetting => Begin::Owner,
        Role::ReferenceSubsetting => Begin::Owner,
        Role::Redefinition => Begin::Redefined,
        Role::Import => Begin::Body,
        Role::Alias => Begin::Context,
        Role::About => Begin::Owner,
        Role::Value => Begin::Context,
        Role::Bound => Begin::Context,
    }
}

/// Tries the tiers of an element, if one is given, of its owner, and so on, and then the last two.
fn try_lexical<T: Lookups>(
    alloc: Global,
    lookups: &T,
    view: &View,
    roots: &RootNames,
    model: &FileModel,
    file: FileNo,
    from: Option<u32>,
    library: bool,
    name: &Name,
    gains: &mut Gains<Hit>,
) -> Result<bool, NoMemory>
    requires there { model_of (files_of view.now) file.0 ≡ Some model.now }
    requires from { IfSome from (λ e. e < length model.now.elements) }
    requires links { HasLinks view.now }
    requires roots { AreRootsOf (files_of view.now) roots.now }
    ensures tried { IfOk result (λ decided. Tried (read_by view.now) (lexical.lexical
        (library_in view.now) library name.now (way_from model.now file from))
        decided gains.old gains.new) }
    ensures found { IfOk result (λ decided. AreFound (files_of view.now) gains.old
        → AreFound (files_of view.now) gains.new) }
{
    let decided = try_outward(alloc, lookups, view, model, file, from, name, gains)?;
    if decided {
        return Ok(true);
    }
    let last = try_roots(alloc, view, roots, library, name, gains)?;
    Ok(last)
}

/// Tries what an owner gives for a redefinition in it: a type what it inherits as if its own features
/// redefined nothing, another its tiers without the second.
fn try_owner<T: Lookups>(
    alloc: Global,
    lookups: &T,
    view: &View,
    at: ElementNo,
    is_type: bool,
    name: &Name,
    gains: &mut Gains<Hit>,
) -> Result<bool, NoMemory>
    requires stands { StandsIn (files_of view.now) at }
    requires links { HasLinks view.now }
    ensures tried { IfOk result (λ decided. Tried (read_by view.now) (owner_tiers
        (library_in view.now) is_type name.now at) decided gains.old gains.new) }
    ensures found { IfOk result (λ decided. AreFound (files_of view.now) gains.new) }
{
    if is_type {
        let raw = lookups.inherited(alloc, view, at, name, true)?;
        let only = try_tier(gains, raw)?;
        return Ok(only);
    }
    let declared = lookups.declared(alloc, view, at, name)?;
    let first = try_tier(gains, declared)?;
    if first {
        return Ok(true);
    }
    let inherited = inherited_tier(alloc, lookups, view, at, name)?;
    let second = try_tier(gains, inherited)?;
    if second {
        return Ok(true);
    }
    let imported = import_tier(alloc, lookups, view, at, None, name)?;
    let third = try_tier(gains, imported)?;
    Ok(third)
}

/// Tries the tiers of the body in which an import is written, without the imports behind it.
fn try_body<T: Lookups>(
    alloc: Global,
    lookups: &T,
    view: &View,
    at: ElementNo,
    import: u32,
    name: &Name,
    gains: &mut Gains<Hit>,
) -> Result<bool, NoMemory>
    requires stands { StandsIn (files_of view.now) at }
    requires links { HasLinks view.now }
    ensures tried { IfOk result (λ decided. Tried (read_by view.now) (body_tiers
        (library_in view.now) name.now import at) decided gains.old gains.new) }
    ensures found { IfOk result (λ decided. AreFound (files_of view.now) gains.new) }
{
    let declared = lookups.declared(alloc, view, at, name)?;
    let first = try_tier(gains, declared)?;
    if first {
        return Ok(true);
    }
    let effective = lookups.effective(alloc, view, at, name)?;
    let second = try_tier(gains, effective)?;
    if second {
        return Ok(true);
    }
    let inherited = inherited_tier(alloc, lookups, view, at, name)?;
    let third = try_tier(gains, inherited)?;
    if third {
        return Ok(true);
    }
    let imported = import_tier(alloc, lookups, view, at, Some(import), name)?;
    let fourth = try_tier(gains, imported)?;
    Ok(fourth)
}

/// Tries the tiers for a redefinition, from the owner of its feature on.
fn try_redefined<T: Lookups>(
    alloc: Global,
    lookups: &T,
    view: &View,
    roots: &RootNames,
    model: &FileModel,
    file: FileNo,
    owner: Option<u32>,
    library: bool,
    name: &Name,
    gains: &mut Gains<Hit>,
) -> Result<bool, NoMemory>
    requires there { model_of (files_of view.now) file.0 ≡ Some model.now }
    requires owner { IfSome owner (λ e. e < length model.now.elements) }
    requires links { HasLinks view.now }
    requires roots { AreRootsOf (files_of view.now) roots.now }
    ensures tried { IfOk result (λ decided. Tried (read_by view.now) (asking.from_owner
        (library_in view.now) library name.now model.now
        (way_from model.now file owner)) decided gains.old gains.new) }
    ensures found { IfOk result (λ decided. AreFound (files_of view.now) gains.old
        → AreFound (files_of view.now) gains.new) }
{
    // A look at the elements tells that each owner stands before its element.
    let _ = model.elements();
    let Some(index) = owner else {
        let last = try_roots(alloc, view, roots, library, name, gains)?;
        return Ok(last);
    };
    let at = ElementNo { file, index };
    let of = model.element(index);
    let is_type = of.kind.is_type();
    let first = try_owner(alloc, lookups, view, at, is_type, name, gains)?;
    if first {
        return Ok(true);
    }
    let decided = try_lexical(
        alloc, lookups, view, roots, model, file, of.owner, library, name, gains,
    )?;
    Ok(decided)
}

/// Tries the tiers for an import, from the body in which it is written on.
fn try_import<T: Lookups>(
    alloc: Global,
    lookups: &T,
    view: &View,
    roots: &RootNames,
    model: &FileModel,
    number: RefNo,
    body: u32,
    library: bool,
    name: &Name,
    gains: &mut Gains<Hit>,
) -> Result<bool, NoMemory>
    requires there { model_of (files_of view.now) number.file.0 ≡ Some model.now }
    requires body { body < length model.now.elements }
    requires links { HasLinks view.now }
    requires roots { AreRootsOf (files_of view.now) roots.now }
    ensures tried { IfOk result (λ decided. Tried (read_by view.now) (asking.from_body
        (library_in view.now) library name.now number.index
        (way_from model.now number.file (Some body))) decided gains.old gains.new) }
    ensures found { IfOk result (λ decided. AreFound (files_of view.now) gains.new) }
{
    // A look at the elements tells that each owner stands before its element.
    let _ = model.elements();
    let at = ElementNo {
        file: number.file,
        index: body,
    };
    let of = model.element(body);
    let first = try_body(alloc, lookups, view, at, number.index, name, gains)?;
    if first {
        return Ok(true);
    }
    let decided = try_lexical(
        alloc,
        lookups,
        view,
        roots,
        model,
        number.file,
        of.owner,
        library,
        name,
        gains,
    )?;
    Ok(decided)
}

/// Tries the tiers of a beginning.
fn try_begin<T: Lookups>(
    alloc: Global,
    lookups: &T,
    view: &View,
    roots: &RootNames,
    model: &FileModel,
    number: RefNo,
    begin: Begin,
    context: u32,
    library: bool,
    name: &Name,
    gains: &mut Gains<Hit>,
) -> Result<bool, NoMemory>
    requires there { model_of (files_of view.now) number.file.0 ≡ Some model.now }
    requires context { context < length model.now.elements }
    requires links { HasLinks view.now }
    requires roots { AreRootsOf (files_of view.now) roots.now }
    ensures tried { IfOk result (λ decided. Tried (read_by view.now) (tiers_from
        (library_in view.now) begin library name.now model.now number.index
        (node_at number.file context)) decided gains.old gains.new) }
    ensures found { IfOk result (λ decided. AreFound (files_of view.now) gains.old
        → AreFound (files_of view.now) gains.new) }
{
    // A look at the elements tells that each owner stands before its element.
    let _ = model.elements();
    let owner = model.element(context).owner;
    let file = number.file;
    match begin {
        Begin::Owner => {
            let decided = try_lexical(
                alloc, lookups, view, roots, model, file, owner, library, name, gains,
            )?;
            Ok(decided)
        }
        Begin::Redefined => {
            let decided = try_redefined(
                alloc, lookups, view, roots, model, file, owner, library, name, gains,
            )?;
            Ok(decided)
        }
        Begin::Body => {
            let decided = try_import(
                alloc, lookups, view, roots, model, number, context, library, name, gains,
            )?;
            Ok(decided)
        }
        Begin::Context => {
            let from = Some(context);
            let decided = try_lexical(
                alloc, lookups, view, roots, model, file, from, library, name, gains,
            )?;
            Ok(decided)
        }
    }
}

/// Tries the tiers in which the first segment of a reference is looked up.
fn try_first<T: Lookups>(
    alloc: Global,
    lookups: &T,
    view: &View,
    roots: &RootNames,
    model: &FileModel,
    number: RefNo,
    reference: &Reference,
    library: bool,
    name: &Name,
    gains: &mut Gains<Hit>,
) -> Result<bool, NoMemory>
    requires there { model_of (files_of view.now) number.file.0 ≡ Some model.now }
    requires context { reference.now.context < length model.now.elements }
    requires links { HasLinks view.now }
    requires roots { AreRootsOf (files_of view.now) roots.now }
    ensures tried { IfOk result (λ decided. Tried (read_by view.now) (asking.first_tiers
        (library_in view.now) reference.now library name.now model.now number)
        decided gains.old gains.new) }
    ensures found { IfOk result (λ decided. AreFound (files_of view.now) gains.old
        → AreFound (files_of view.now) gains.new) }
{
    if reference.absolute {
        let last = try_roots(alloc, view, roots, library, name, gains)?;
        return Ok(last);
    }
    let begin = begin_of(reference.role);
    let context = reference.context;
    let decided = try_begin(
        alloc, lookups, view, roots, model, number, begin, context, library, name, gains,
    )?;
    Ok(decided)
}

/// What the first tier gives that isn't empty, for the first segment of a reference.
pub(crate) fn first_hits<T: Lookups>(
    alloc: Global,
    lookups: &T,
    view: &View,
    roots: &RootNames,
    model: &FileModel,
    number: RefNo,
    reference: &Reference,
    library: bool,
    name: &Name,
) -> Result<Gains<Hit>, NoMemory>
    requires there { model_of (files_of view.now) number.file.0 ≡ Some model.now }
    requires context { reference.now.context < length model.now.elements }
    requires links { HasLinks view.now }
    requires roots { AreRootsOf (files_of view.now) roots.now }
    ensures asked { IfOk result (λ gains. IsAsked gains (first_of (asking.first_tiers
        (library_in view.now) reference.now library name.now model.now number)
        (read_by view.now))) }
    ensures found { IfOk result (AreFound (files_of view.now)) }
{
    let mut gains = Gains::new(alloc);
    try_first(
        alloc, lookups, view, roots, model, number, reference, library, name, &mut gains,
    )?;
    Ok(gains)
}

/// What the last two tiers give for a name from outside.
pub(crate) fn root_hits(
    alloc: Global,
    view: &View,
    roots: &RootNames,
    name: &Name,
) -> Result<Gains<Hit>, NoMemory>
    requires links { HasLinks view.now }
    requires roots { AreRootsOf (files_of view.now) roots.now }
    ensures asked { IfOk result (λ gains. IsAsked gains (first_of (lexical.last_tiers
        (library_in view.now) false name.now) (read_by view.now))) }
    ensures found { IfOk result (AreFound (files_of view.now)) }
{
    let mut gains = Gains::new(alloc);
    try_roots(alloc, view, roots, false, name, &mut gains)?;
    Ok(gains)
}
