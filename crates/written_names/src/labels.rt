ghost use Rattle.std.specs.Prelude.{◌≡◌, ◌<◌, ◌++◌, All, IfOk, OnOk, codes, length, map};
ghost use Rattle.std.specs.Option.{option_copied};
ghost use Rattle.element_store.specs.BaseRules.{first_of};
ghost use Rattle.book_model.specs.Labels.{label_of, parts_of};
ghost use Rattle.book_model.specs.Spelling.{joined};
ghost use Rattle.written_names.specs.Spellable.{AreNamesSpellable, own_part_at};

use crate::writing::{write, write_name, write_number, write_separator};
use element_store::{Element, FileModel, Name};
use linker_base::NoMemory;
use std::alloc::Global;

/// An element and those around it, the outermost first, without the root.
fn path_to(alloc: Global, model: &FileModel, element: u32) -> Result<Vec<u32>, NoMemory>
    requires { element < length model.now.elements }
    ensures parts { IfOk result (λ path. parts_of model.now element
        ≡ map (own_part_at model.now) path.items) }
    ensures stand { IfOk result (λ path. All (λ e. e < length model.now.elements) path.items) }
{
    // A look at a model tells what holds of every model.
    let _ = model.elements();
    let mut path = Vec::new(alloc);
    let mut at = element;
    while let Some(owner) = model.element(at).owner {
        path.push(at)?;
        at = owner;
    }
    path.reverse();
    Ok(path)
}

/// The name of an element, or else its short name.
fn own_name(element: &Element) -> Option<&Name>
    ensures { option_copied result ≡ first_of element.now.name element.now.short }
{
    match &element.name {
        Some(name) => Some(name),
        None => element.short.as_ref(),
    }
}

/// Appends an element's own part of its label: its name, or else its short name, or else `#` and its
/// number.
fn write_own_part(
    alloc: Global,
    answer: &mut Vec<u8>,
    model: &FileModel,
    element: u32,
) -> Result<(), NoMemory>
    requires stands { element < length model.now.elements }
    requires spellable { AreNamesSpellable model.now }
    ensures { OnOk result (answer.new.items ≡ answer.old.items ++ own_part_at model.now element) }
{
    match own_name(model.element(element)) {
        Some(name) => write_name(alloc, answer, name, model.language()),
        None => {
            write(answer, b"#")?;
            write_number(answer, element as usize)
        }
    }
}

/// Appends the parts of a path, with `::` between them.
fn write_parts(
    alloc: Global,
    answer: &mut Vec<u8>,
    model: &FileModel,
    path: &[u32],
) -> Result<(), NoMemory>
    requires stand { All (λ e. e < length model.now.elements) path.now }
    requires spellable { AreNamesSpellable model.now }
    ensures { OnOk result (answer.new.items ≡ answer.old.items
        ++ joined (codes "::") (map (own_part_at model.now) path.now)) }
{
    for (index, part) in path.iter().enumerate() {
        write_separator(answer, index > 0)?;
        write_own_part(alloc, answer, model, *part)?;
    }
    Ok(())
}

/// Appends the label of the element of that number, spelt in the language of its file: its path from
/// below the root, joined by `::`.
pub fn write_label(
    alloc: Global,
    answer: &mut Vec<u8>,
    model: &FileModel,
    element: u32,
) -> Result<(), NoMemory>
    requires stands { element < length model.now.elements }
    requires spellable { AreNamesSpellable model.now }
    ensures { OnOk result (answer.new.items ≡ answer.old.items ++ label_of model.now element) }
{
    let path = path_to(alloc, model, element)?;
    write_parts(alloc, answer, model, &path)?;
    Ok(())
}
