ghost use Rattle.std.specs.Prelude.{◌≡◌, ◌<◌, ◌++◌, Some, length, map, slice_get, IfOk, OnOk};
ghost use Rattle.element_store.specs.Numbers.{places_from};
ghost use Rattle.element_store.specs.declared.models.StoredFile.{StoredFile as Stored};
ghost use Rattle.link_model.specs.Outside.{keys_in, keys_of};
ghost use Rattle.link_model.specs.Readers.{key};

use element_store::{FileModel, FileNo, Models, RefNo};
use link_model::LinkKey;
use linker_base::NoMemory;
use std::alloc::Global;

/// Appends the references of a model.
fn push_model(model: &FileModel, file: FileNo, keys: &mut Vec<LinkKey>) -> Result<(), NoMemory>
    ensures { OnOk result (keys.new.items ≡ keys.old.items
        ++ map (key file) (places_from 0 model.now.references)) }
{
    for index in 0..model.references() {
        keys.push(LinkKey(RefNo { file, index }))?;
    }
    Ok(())
}

/// Appends the references of a file.
pub(crate) fn push_file(
    models: &Models,
    file: FileNo,
    keys: &mut Vec<LinkKey>,
) -> Result<(), NoMemory>
    requires within { file.0 < length models.now }
    ensures { OnOk result ((s : Stored) → slice_get models.now file.0 ≡ Some s
        → keys.new.items ≡ keys.old.items ++ keys_in (record { number = file; file = s })) }
{
    match models.model(file) {
        Some(model) => {
            push_model(model, file, keys)?;
            Ok(())
        }
        None => Ok(()),
    }
}

/// The references of all files, in the order of files and of their numbers: the keys of the rules of links.
pub fn keys_of(alloc: Global, models: &Models) -> Result<Vec<LinkKey>, NoMemory>
    ensures { IfOk result (λ keys. keys.items ≡ keys_of models.now) }
{
    let mut keys = Vec::new(alloc);
    for file in 0..models.files() {
        push_file(models, FileNo(file), &mut keys)?;
    }
    Ok(keys)
}
