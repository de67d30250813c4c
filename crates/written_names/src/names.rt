ghost use Rattle.std.specs.Prelude.{◌≡◌, ◌<◌, ◌++◌, [], All, List, Some, cond, codes, length, slice_get, OnOk};
ghost use Rattle.element_store.specs.declared.records.Reference.{Reference};
ghost use Rattle.token_core.specs.Reading.{IsSpellable};
ghost use Rattle.book_model.specs.Queries.{written_in};
ghost use Rattle.book_model.specs.Spelling.{spelt_chain, spelt_path, written_name};
ghost use Rattle.written_names.specs.Spellable.{AreNamesSpellable};

use crate::writing::{write, write_name, write_separator};
use element_store::{FileModel, Language, Name};
use linker_base::NoMemory;
use std::alloc::Global;

/// Appends `$::` where a name begins at the roots of all files.
fn write_start(answer: &mut Vec<u8>, absolute: bool) -> Result<(), NoMemory>
    ensures { OnOk result (answer.new.items ≡ answer.old.items ++ cond absolute (codes "$::") []) }
{
    if absolute {
        write(answer, b"$::")
    } else {
        Ok(())
    }
}

/// Appends the segments of a path, with `::` between them.
fn write_path(
    alloc: Global,
    answer: &mut Vec<u8>,
    path: &[Name],
    language: Language,
) -> Result<(), NoMemory>
    requires { All IsSpellable path.now }
    ensures { OnOk result (answer.new.items ≡ answer.old.items ++ spelt_path language path.now) }
{
    for (index, name) in path.iter().enumerate() {
        write_separator(answer, index > 0)?;
        write_name(alloc, answer, name, language)?;
    }
    Ok(())
}

/// Appends the steps of a chain, each behind a `.`.
fn write_chain(
    alloc: Global,
    answer: &mut Vec<u8>,
    chain: &[Name],
    language: Language,
) -> Result<(), NoMemory>
    requires { All IsSpellable chain.now }
    ensures { OnOk result (answer.new.items ≡ answer.old.items ++ spelt_chain language chain.now) }
{
    for step in chain {
        write(answer, b".")?;
        write_name(alloc, answer, step, language)?;
    }
    Ok(())
}

/// Appends a qualified name as it is written, spelt in a language: `$::` where that stands, and the segments
/// of its path.
pub fn write_qualified(
    alloc: Global,
    answer: &mut Vec<u8>,
    absolute: bool,
    path: &[Name],
    language: Language,
) -> Result<(), NoMemory>
    requires { All IsSpellable path.now }
    ensures { OnOk result (answer.new.items
        ≡ answer.old.items ++ written_name language absolute path.now []) }
{
    write_start(answer, absolute)?;
    write_path(alloc, answer, path, language)
}

/// Appends the reference of that number as it is written, spelt in the language of its file: `$::` where
/// that stands, the segments of its path, and the steps of its chain.
pub fn write_reference(
    alloc: Global,
    answer: &mut Vec<u8>,
    model: &FileModel,
    index: u32,
) -> Result<(), NoMemory>
    requires stands { index < length model.now.references }
    requires spellable { AreNamesSpellable model.now }
    ensures { OnOk result ((reference : Reference)
        → slice_get model.now.references index ≡ Some reference
        → answer.new.items ≡ answer.old.items ++ written_in model.now reference) }
{
    let reference = model.reference(index);
    let language = model.language();
    write_start(answer, reference.absolute)?;
    write_path(alloc, answer, reference.path.as_slice(), language)?;
    write_chain(alloc, answer, reference.chain.as_slice(), language)?;
    Ok(())
}
