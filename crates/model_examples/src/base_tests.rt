ghost use Rattle.std.specs.Prelude.{◌≡◌, IfOk, Some};
ghost use Rattle.element_store.specs.BaseRules.{model_of};
ghost use Rattle.model_examples.specs.Worked as worked;

use crate::models::{colors, library};
use element_store::{Bases, ElementNo, FileModel, FileNo, Kind, Language, Models, Text};
use linker_base::NoMemory;
use std::alloc::Global;

// A book of a library file, a second one of a lesser name, and a project file.
fn shelf(alloc: Global) -> Result<Models, NoMemory>
    ensures { IfOk result (λ made. model_of made 2 ≡ Some (worked.colors (record { 0 = 2 }))) }
{
    let mut models = Models::new(alloc);
    let second = models.add(Text::of(Vec::from_slice(alloc, b"$lib/B.sysml")?), true)?;
    let first = models.add(Text::of(Vec::from_slice(alloc, b"$lib/A.sysml")?), true)?;
    let project = models.add(Text::of(Vec::from_slice(alloc, b"a.sysml")?), false)?;
    models.set(second, Some(library(alloc, second)?));
    models.set(first, Some(library(alloc, first)?));
    models.set(project, Some(colors(alloc, project)?));
    Ok(models)
}

#[test]
fn bases_are_found_in_the_library(rt: HostRuntime) {
    let Ok(models) = shelf(rt.alloc()) else {
        panic!(rt; "no memory for the book");
    };
    let part = ElementNo {
        file: FileNo(1),
        index: 3,
    };
    let expected = [
        (Kind::PartDef, Some(part)),
        (Kind::Part, None),
        (Kind::ItemDef, None),
        (Kind::PortDef, None),
        (Kind::EnumDef, None),
        (Kind::Package, None),
    ];
    for (kind, base) in expected {
        assert!(rt; Bases::find(&models, kind) == base);
    }
}

#[test]
fn an_enumerated_value_has_its_owner_as_base(rt: HostRuntime) {
    let Ok(models) = shelf(rt.alloc()) else {
        panic!(rt; "no memory for the book");
    };
    let file = FileNo(2);
    let color = ElementNo { file, index: 1 };
    assert!(rt; Bases::of(&models, ElementNo { file, index: 2 }) == Some(color));
    assert!(rt; Bases::of(&models, color).is_none());
    assert!(rt; Bases::of(&models, ElementNo { file, index: 0 }).is_none());
}

// Whether no kind has a base where one file stands, with nothing in it.
fn lacks_bases(alloc: Global, library: bool) -> Option<bool> {
    let mut models = Models::new(alloc);
    let name = Text::of(Vec::from_slice(alloc, b"a.sysml").ok()?);
    let Ok(file) = models.add(name, library) else {
        return None;
    };
    let Ok(model) = FileModel::bare(alloc, file, Language::Sysml) else {
        return None;
    };
    models.set(file, Some(model));
    let mut kinds = [Kind::Package, Kind::PartDef, Kind::Attribute, Kind::EnumDef].iter();
    let root = ElementNo { file, index: 0 };
    let lacks = kinds.all(|kind| Bases::find(&models, *kind).is_none());
    Some(lacks && Bases::of(&models, root).is_none())
}

#[test]
fn bare_files_keep_no_bases(rt: HostRuntime) {
    assert!(rt; lacks_bases(rt.alloc(), true) == Some(true));
    assert!(rt; lacks_bases(rt.alloc(), false) == Some(true));
}
