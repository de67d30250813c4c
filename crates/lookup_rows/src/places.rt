ghost use Rattle.std.specs.Prelude.{IfSome};
ghost use Rattle.element_store.specs.BaseRules.{StandsIn};
ghost use Rattle.link_model.specs.Linking.{MemberStands};
ghost use Rattle.link_walk.specs.Calls.{ImportStands};

use element_store::{ElementNo, FileNo, ImportNo, MemberNo, Models, Name};
use std::alloc::Global;

/// The two numbers that are written with a colon between them: that of a file, and one in the file.
pub(crate) fn numbers_of(word: &str) -> Option<(FileNo, u32)> {
    let (file, index) = word.split_once(":")?;
    let file = file.parse::<u32>().ok()?;
    let index = index.parse::<u32>().ok()?;
    Some((FileNo(file), index))
}

/// The element with these numbers, if it stands.
pub(crate) fn element_at(models: &Models, word: &str) -> Option<ElementNo>
    ensures { IfSome result (StandsIn models.now) }
{
    let (file, index) = numbers_of(word)?;
    let model = models.model(file)?;
    if index >= model.elements() {
        return None;
    }
    Some(ElementNo { file, index })
}

/// The member with these numbers, if it stands.
pub(crate) fn member_at(models: &Models, word: &str) -> Option<MemberNo>
    ensures { IfSome result (MemberStands models.now) }
{
    let (file, index) = numbers_of(word)?;
    let model = models.model(file)?;
    if index >= model.members() {
        return None;
    }
    Some(MemberNo { file, index })
}

/// The import with these numbers, if it stands.
pub(crate) fn import_at(models: &Models, word: &str) -> Option<ImportNo>
    ensures { IfSome result (ImportStands models.now) }
{
    let (file, index) = numbers_of(word)?;
    let model = models.model(file)?;
    if index >= model.imports() {
        return None;
    }
    Some(ImportNo { file, index })
}

/// A name of these bytes.
pub(crate) fn name_of(alloc: Global, word: &str) -> Option<Name> {
    let bytes = Vec::from_slice(alloc, word.as_bytes()).ok()?;
    Some(Name::of(bytes))
}
