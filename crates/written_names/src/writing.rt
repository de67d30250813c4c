ghost use Rattle.std.specs.Prelude.{◌≡◌, ◌++◌, [], cond, codes, OnOk};
ghost use Rattle.std.specs.Fmt.{decimal};
ghost use Rattle.token_core.specs.Reading.{IsSpellable};
ghost use Rattle.token_core.specs.Spelling.{name_spelling};

use element_store::{Language, Name};
use itoa::Buffer;
use linker_base::NoMemory;
use std::alloc::Global;
use token_core::spell_name;

/// Appends bytes to an answer.
pub fn write(answer: &mut Vec<u8>, bytes: &[u8]) -> Result<(), NoMemory>
    ensures { OnOk result (answer.new.items ≡ answer.old.items ++ bytes.now) }
{
    answer.extend_from_slice(bytes)?;
    Ok(())
}

/// Appends a number in decimal to an answer.
pub fn write_number(answer: &mut Vec<u8>, number: usize) -> Result<(), NoMemory>
    ensures { OnOk result (answer.new.items ≡ answer.old.items ++ decimal number) }
{
    let mut buffer = Buffer::new();
    write(answer, buffer.format(number).as_bytes())
}

/// Appends `::` behind a part.
pub fn write_separator(answer: &mut Vec<u8>, behind: bool) -> Result<(), NoMemory>
    ensures { OnOk result (answer.new.items ≡ answer.old.items ++ cond behind (codes "::") []) }
{
    if behind { write(answer, b"::") } else { Ok(()) }
}

/// Appends a name as it is spelt in a language.
pub fn write_name(
    alloc: Global,
    answer: &mut Vec<u8>,
    name: &Name,
    language: Language,
) -> Result<(), NoMemory>
    requires { IsSpellable name.now }
    ensures { OnOk result (answer.new.items ≡ answer.old.items ++ name_spelling language name.now) }
{
    let spelt = spell_name(alloc, name, language)?;
    write(answer, spelt.bytes())
}
