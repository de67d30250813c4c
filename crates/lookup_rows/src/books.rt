ghost use Rattle.std.specs.Prelude.{◌≡◌, ◌<◌, false, map, length, List, IfSome, OnSome, OnOk};
ghost use Rattle.element_store.specs.declared.models.StoredFile.{StoredFile};
ghost use Rattle.linker_base.specs.Members.{IsMember};
ghost use Rattle.element_store.specs.BaseRules.{StandsIn};
ghost use Rattle.link_walk.specs.Calls.{AreLinks};

use crate::places::{element_at, numbers_of};
use element_store::{ElementNo, Elements, FileNo, Language, Models, Outcome, RefNo, Text};
use link_model::{LinkKey, LinkTable};
use linker_base::NoMemory;
use model_build::build;

/// The longest text that is read, in bytes.
const LONGEST: usize = 16_777_216;

/// The most files of a book.
const MOST_FILES: u32 = 256;

/// Whether a file has that name.
fn is_there(models: &Models, name: &Text) -> bool
    ensures { result ≡ false → IsMember (map (λ x. x.name) models.now) name.now → ⊥ }
{
    for file in 0..models.files() {
        if models.name(FileNo(file)).bytes() == name.bytes() {
            return true;
        }
    }
    false
}

/// Gives a file the model of that text, which it must have.
fn put_text(
    rt: &HostRuntime,
    models: &mut Models,
    file: FileNo,
    language: Language,
    text: &str,
) -> Option<()>
    requires within { file.0 < length models.old }
{
    if text.len() > LONGEST {
        return None;
    }
    match build(rt.alloc(), file, text.as_bytes(), language) {
        Ok(model) => {
            models.set(file, Some(model));
            Some(())
        }
        Err(_) => None,
    }
}

/// Adds a file of that name and text. Files of the library begin with `$`.
fn add_file(rt: &HostRuntime, models: &mut Models, language: Language, rest: &str) -> Option<()> {
    let (word, text) = rest.split_once(" ")?;
    let name = Text::of(Vec::from_slice(rt.alloc(), word.as_bytes()).ok()?);
    let known = is_there(models, &name);
    if known {
        return None;
    }
    if models.files() >= MOST_FILES {
        return None;
    }
    let file = models.add(name, word.starts_with("$")).ok()?;
    put_text(rt, models, file, language, text)
}

/// The files that the lines tell.
pub(crate) fn models_of(rt: &HostRuntime, lines: &[String]) -> Option<Models> {
    let mut models = Models::new(rt.alloc());
    for line in lines {
        if let Some(rest) = line.strip_prefix("kerml ") {
            add_file(rt, &mut models, Language::Kerml, rest)?;
        }
        if let Some(rest) = line.strip_prefix("sysml ") {
            add_file(rt, &mut models, Language::Sysml, rest)?;
        }
    }
    Some(models)
}

/// Puts that a reference is refused.
fn refuse(key: LinkKey, table: &mut LinkTable) -> Result<(), NoMemory>
    ensures { OnOk result ((files : List StoredFile) → AreLinks files table.old
        → AreLinks files table.new) }
{
    table.put(key, Outcome::Absent { segment: 1 })?;
    Ok(())
}

/// Puts that a reference is linked to that element, which is no root.
fn link(
    rt: &HostRuntime,
    models: &Models,
    key: LinkKey,
    element: ElementNo,
    table: &mut LinkTable,
) -> Result<(), NoMemory>
    requires stands { StandsIn models.now element }
    requires below { 0 < element.index }
    ensures { OnOk result (AreLinks models.now table.old → AreLinks models.now table.new) }
{
    let steps = Elements::new(rt.alloc());
    table.put(key, Outcome::Linked { steps, element })?;
    Ok(())
}

/// Puts what a line `link REFERENCE ELEMENT` says, without its first word.
fn link_line(rt: &HostRuntime, models: &Models, rest: &str, table: &mut LinkTable) -> Option<()>
    ensures { OnSome result (AreLinks models.now table.old → AreLinks models.now table.new) }
{
    let (word, target) = rest.split_once(" ")?;
    let (file, index) = numbers_of(word)?;
    let element = element_at(models, target)?;
    if element.index == 0 {
        return None;
    }
    link(rt, models, LinkKey(RefNo { file, index }), element, table).ok()?;
    Some(())
}

/// Puts the outcome that a line tells, if it tells one.
fn decide_line(rt: &HostRuntime, models: &Models, line: &str, table: &mut LinkTable) -> Option<()>
    ensures { OnSome result (AreLinks models.now table.old → AreLinks models.now table.new) }
{
    if let Some(word) = line.strip_prefix("refuse ") {
        let (file, index) = numbers_of(word)?;
        refuse(LinkKey(RefNo { file, index }), table).ok()?;
        return Some(());
    }
    if let Some(rest) = line.strip_prefix("link ") {
        link_line(rt, models, rest, table)?;
        return Some(());
    }
    Some(())
}

/// The outcomes that the lines tell.
pub(crate) fn table_of(rt: &HostRuntime, models: &Models, lines: &[String]) -> Option<LinkTable>
    ensures { IfSome result (AreLinks models.now) }
{
    let mut table = LinkTable::new(rt.alloc());
    for line in lines {
        decide_line(rt, models, line, &mut table)?;
    }
    Some(table)
}
