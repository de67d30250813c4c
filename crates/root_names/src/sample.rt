//! A model for the tests, and files to have it.
ghost use Rattle.std.specs.Prelude.{◌≡◌, Some, None, IfOk, map, codes};
ghost use Rattle.element_store.specs.Model.{data_of};
ghost use Rattle.root_names.specs.Roots.{HaveNoModel};
ghost use Rattle.element_store.specs.declared.kind.Visibility.TheVariants.{Public, Private};
ghost use Rattle.root_names.specs.Sample.{package_of, member_of, elements, root_items, items, members, no_places, sample};

use element_store::{
    Element, FileModel, FileNo, Item, Items, Kind, Language, Member, ModelParts, Models, Name,
    Target, Text, Visibility,
};
use linker_base::NoMemory;
use std::alloc::Global;

fn name(alloc: Global, bytes: &[u8]) -> Result<Option<Name>, NoMemory>
    ensures { IfOk result (λ made. made ≡ Some bytes.now) }
{
    Ok(Some(Name::of(Vec::from_slice(alloc, bytes)?)))
}

fn package(owner: u32, short: Option<Name>, name: Option<Name>) -> Element
    ensures { result ≡ package_of owner short name }
{
    let mut made = Element::root();
    made.kind = Kind::Package;
    made.owner = Some(owner);
    made.short = short;
    made.name = name;
    made
}

fn short_a(alloc: Global) -> Result<Element, NoMemory>
    ensures { IfOk result (λ made. made ≡ package_of 0 (Some (codes "A")) (Some (codes "B"))) }
{
    Ok(package(0, name(alloc, b"A")?, name(alloc, b"B")?))
}

fn named_a(alloc: Global) -> Result<Element, NoMemory>
    ensures { IfOk result (λ made. made ≡ package_of 0 None (Some (codes "A"))) }
{
    Ok(package(0, None, name(alloc, b"A")?))
}

fn elements(alloc: Global) -> Result<Vec<Element>, NoMemory>
    ensures { IfOk result (λ made. made.items ≡ elements) }
{
    let first = short_a(alloc)?;
    let second = named_a(alloc)?;
    let third = named_a(alloc)?;
    let made = vec![in alloc; Element::root(), first, second, third]?;
    Ok(made)
}

fn member(owner: u32, element: u32, short: Option<Name>, name: Option<Name>) -> Member
    ensures { result ≡ member_of owner element short name Public }
{
    Member {
        owner,
        target: Target::Owned(element),
        short,
        name,
        visibility: Visibility::Public,
    }
}

fn private(member: Member) -> Member
    ensures { result ≡ record member { visibility = Private } }
{
    Member {
        owner: member.owner,
        target: member.target,
        short: member.short,
        name: member.name,
        visibility: Visibility::Private,
    }
}

fn short_member(alloc: Global) -> Result<Member, NoMemory>
    ensures { IfOk result (λ made.
        made ≡ member_of 0 1 (Some (codes "A")) (Some (codes "B")) Public) }
{
    Ok(member(0, 1, name(alloc, b"A")?, name(alloc, b"B")?))
}

fn named_member(alloc: Global, element: u32) -> Result<Member, NoMemory>
    ensures { IfOk result (λ made. made ≡ member_of 0 element None (Some (codes "A")) Public) }
{
    Ok(member(0, element, None, name(alloc, b"A")?))
}

fn members(alloc: Global) -> Result<Vec<Member>, NoMemory>
    ensures { IfOk result (λ made. made.items ≡ members) }
{
    let first = short_member(alloc)?;
    let second = private(named_member(alloc, 2)?);
    let third = named_member(alloc, 3)?;
    let made = vec![in alloc; first, second, third]?;
    Ok(made)
}

fn root_items(alloc: Global) -> Result<Items, NoMemory>
    ensures { IfOk result (λ made. made ≡ root_items) }
{
    let mut made = Items::new(alloc);
    made.push(Item::Member(0))?;
    made.push(Item::Member(1))?;
    made.push(Item::Member(2))?;
    Ok(made)
}

fn items(alloc: Global) -> Result<Vec<Items>, NoMemory>
    ensures { IfOk result (λ made. made.items ≡ items) }
{
    let root = root_items(alloc)?;
    let (first, second, third) = (Items::new(alloc), Items::new(alloc), Items::new(alloc));
    let made = vec![in alloc; root, first, second, third]?;
    Ok(made)
}

fn no_places(alloc: Global) -> Result<Vec<Vec<u32>>, NoMemory>
    ensures { IfOk result (λ made. map (λ list. list.items) made.items ≡ no_places) }
{
    let made = vec![in alloc;
        Vec::new(alloc),
        Vec::new(alloc),
        Vec::new(alloc),
        Vec::new(alloc),
    ]?;
    Ok(made)
}

fn parts(alloc: Global, file: FileNo) -> Result<ModelParts, NoMemory>
    ensures { IfOk result (λ made. data_of made ≡ sample file) }
{
    Ok(ModelParts {
        file,
        language: Language::Sysml,
        elements: elements(alloc)?,
        items: items(alloc)?,
        members: members(alloc)?,
        references: Vec::new(alloc),
        imports: Vec::new(alloc),
        member_places: Vec::from_slice(alloc, &[0, 15, 34])?,
        reference_places: Vec::new(alloc),
        value_places: no_places(alloc)?,
        result_places: no_places(alloc)?,
    })
}

/// The model.
pub fn sample(alloc: Global, file: FileNo) -> Result<FileModel, NoMemory>
    ensures { IfOk result (λ made. made ≡ sample file) }
{
    FileModel::of(alloc, parts(alloc, file)?)
}

fn text(alloc: Global, bytes: &[u8]) -> Result<Text, NoMemory>
    ensures { IfOk result (λ made. made ≡ bytes.now) }
{
    Ok(Text::of(Vec::from_slice(alloc, bytes)?))
}

// Three project files and one of the library, which arrive in the order of their names.
fn rising(alloc: Global) -> Result<Models, NoMemory>
    ensures { IfOk result HaveNoModel }
{
    let mut models = Models::new(alloc);
    let _ = models.add(text(alloc, b"a.sysml")?, false)?;
    let _ = models.add(text(alloc, b"b.sysml")?, false)?;
    let _ = models.add(text(alloc, b"c.sysml")?, false)?;
    let _ = models.add(text(alloc, b"$lib/A.sysml")?, true)?;
    Ok(models)
}

// Such files, which arrive in another order.
fn mixed(alloc: Global) -> Result<Models, NoMemory>
    ensures { IfOk result HaveNoModel }
{
    let mut models = Models::new(alloc);
    let _ = models.add(text(alloc, b"c.sysml")?, false)?;
    let _ = models.add(text(alloc, b"$lib/A.sysml")?, true)?;
    let _ = models.add(text(alloc, b"a.sysml")?, false)?;
    let _ = models.add(text(alloc, b"b.sysml")?, false)?;
    Ok(models)
}

/// Files without models: `a`, `b`, `c` and a library file, or `c`, the library file, `a` and `b`.
pub fn files(alloc: Global, in_order: bool) -> Result<Models, NoMemory>
    ensures { IfOk result HaveNoModel }
{
    if in_order {
        rising(alloc)
    } else {
        mixed(alloc)
    }
}
