ghost use Rattle.std.specs.Prelude.{◌≡◌, ◌<◌, ◌++◌, ◌∷◌, [], length, slice_get, IfOk, OnOk};
ghost use Rattle.std.specs.List.{flat_map};
ghost use Rattle.demand_core.specs.declared.looks.Fact.TheVariants.{Outer};
ghost use Rattle.link_model.specs.declared.keys.LinkFact.TheVariants.{RootName};
ghost use Rattle.kept_links.specs.Facts.{name_facts, member_facts, facts_of};

use demand_core::{Copied, Fact};
use element_store::{FileModel, FileNo, Member, Models, Name, Visibility};
use link_model::{LinkFact, LinkKey};
use linker_base::NoMemory;
use std::alloc::Global;

/// Adds the roots under a name, if there is one.
fn push_name(
    alloc: Global,
    name: &Option<Name>,
    facts: &mut Vec<Fact<LinkKey, LinkFact>>,
) -> Result<(), NoMemory>
    ensures { OnOk result (facts.new.items ≡ facts.old.items ++ name_facts name.now) }
{
    if let Some(name) = name {
        let bytes = Vec::from_slice(alloc, name.bytes())?;
        facts.push(Fact::Outer(LinkFact::RootName(Name::of(bytes))))?;
    }
    Ok(())
}

/// Adds the roots under each name of a public member of a root.
fn push_member(
    alloc: Global,
    member: &Member,
    facts: &mut Vec<Fact<LinkKey, LinkFact>>,
) -> Result<(), NoMemory>
    ensures { OnOk result (facts.new.items ≡ facts.old.items ++ member_facts member.now) }
{
    if member.owner != 0 {
        return Ok(());
    }
    match member.visibility {
        Visibility::Public => {
            push_name(alloc, &member.short, facts)?;
            push_name(alloc, &member.name, facts)?;
            Ok(())
        }
        Visibility::Private | Visibility::Protected => Ok(()),
    }
}

/// Adds the roots under each name of a public member of a model's root.
fn push_members(
    alloc: Global,
    model: &FileModel,
    facts: &mut Vec<Fact<LinkKey, LinkFact>>,
) -> Result<(), NoMemory>
    ensures { OnOk result (facts.new.items
        ≡ facts.old.items ++ flat_map member_facts model.now.members) }
{
    for index in 0..model.members() {
        push_member(alloc, model.member(index), facts)?;
    }
    Ok(())
}

/// What the going or coming of a file's text changes: the file, and the roots under each name of a public
/// member of its root.
pub(crate) fn facts_of(
    alloc: Global,
    models: &Models,
    file: FileNo,
) -> Result<Vec<Fact<LinkKey, LinkFact>>, NoMemory>
    requires { file.0 < length models.now }
    ensures { IfOk result (λ facts. facts.items ≡ facts_of file (slice_get models.now file.0)) }
{
    let mut facts = Vec::new(alloc);
    facts.push(Fact::Outer(LinkFact::File(file)))?;
    if let Some(model) = models.model(file) {
        push_members(alloc, model, &mut facts)?;
    }
    Ok(facts)
}
