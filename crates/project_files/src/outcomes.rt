ghost use Rattle.std.specs.Prelude.{◌≡◌, ◌<◌, ◌++◌, OnOk, length};
ghost use Rattle.book_model.specs.Live.{IsLiveElement, IsLiveMember, IsLiveReference, NamesLive};
ghost use Rattle.book_model.specs.Printed.{element_text, implication_text, outcome_text, place_text, role_text, row_text, spot_text};
ghost use Rattle.book_model.specs.Queries.{label, member_place, reference_place, text_of_reference};

use crate::files::ProjectFiles;
use book_model::{LinkRow, Place};
use element_store::{ElementNo, FileNo, MemberNo, Outcome, RefNo, Role};
use linker_base::NoMemory;
use std::alloc::Global;
use written_names::{write, write_label, write_number, write_reference};

/// Appends a place as `LINE:COLUMN`.
pub fn write_place(answer: &mut Vec<u8>, place: Place) -> Result<(), NoMemory>
    ensures { OnOk result (answer.new.items ≡ answer.old.items ++ place_text place) }
{
    write_number(answer, place.line as usize)?;
    write(answer, b":")?;
    write_number(answer, place.column as usize)
}

/// The word of a role.
fn role_word(role: Role) -> &'static [u8]
    ensures { result.now ≡ role_text role }
{
    match role {
        Role::Subclass => b"subclass",
        Role::Typing => b"typing",
        Role::Subsetting => b"subset",
        Role::Redefinition => b"redefine",
        Role::ReferenceSubsetting => b"reference",
        Role::Import => b"import",
        Role::Alias => b"alias",
        Role::About => b"about",
        Role::Value => b"value",
        Role::Bound => b"bound",
    }
}

/// Appends a place of a file as `FILE:LINE:COLUMN`.
fn write_spot(
    answer: &mut Vec<u8>,
    files: &ProjectFiles,
    file: FileNo,
    place: Place,
) -> Result<(), NoMemory>
    requires { file.0 < length files.now }
    ensures { OnOk result (answer.new.items ≡ answer.old.items ++ spot_text files.now file place) }
{
    write(answer, files.name(file).bytes())?;
    write(answer, b":")?;
    write_place(answer, place)
}

/// Appends an element as `FILE LABEL`.
fn write_element(
    alloc: Global,
    answer: &mut Vec<u8>,
    files: &ProjectFiles,
    element: ElementNo,
) -> Result<(), NoMemory>
    requires { IsLiveElement files.now element }
    ensures { OnOk result (answer.new.items ≡ answer.old.items ++ element_text files.now element) }
{
    write(answer, files.name(element.file).bytes())?;
    write(answer, b" ")?;
    write_label(alloc, answer, files.model(element.file), element.index)
}

/// Appends a member as the place of its first token.
fn write_member(
    answer: &mut Vec<u8>,
    files: &ProjectFiles,
    member: MemberNo,
) -> Result<(), NoMemory>
    requires { IsLiveMember files.now member }
    ensures { OnOk result (answer.new.items
        ≡ answer.old.items ++ spot_text files.now member.file (member_place files.now member)) }
{
    write_spot(answer, files, member.file, files.member_place(member))
}

/// Appends the label of an element.
fn write_type(
    alloc: Global,
    answer: &mut Vec<u8>,
    files: &ProjectFiles,
    element: ElementNo,
) -> Result<(), NoMemory>
    requires { IsLiveElement files.now element }
    ensures { OnOk result (answer.new.items ≡ answer.old.items ++ label files.now element) }
{
    write_label(alloc, answer, files.model(element.file), element.index)
}

/// Appends an implied specialisation: the place of the member that owns the type, the type, and its base.
pub fn write_implication(
    alloc: Global,
    answer: &mut Vec<u8>,
    files: &ProjectFiles,
    of: ElementNo,
    member: MemberNo,
    base: ElementNo,
) -> Result<(), NoMemory>
    requires of { IsLiveElement files.now of }
    requires member { IsLiveMember files.now member }
    requires base { IsLiveElement files.now base }
    ensures { OnOk result (answer.new.items ≡ answer.old.items
        ++ implication_text files.now (record { of = of; member = member; base = base })) }
{
    write_member(answer, files, member)?;
    write(answer, b" ")?;
    write_type(alloc, answer, files, of)?;
    write(answer, b" -> ")?;
    write_element(alloc, answer, files, base)
}

/// Appends what became of a reference: where it leads, or the segment that is refused and why, or the
/// reference on which it hangs.
pub fn write_outcome(
    alloc: Global,
    answer: &mut Vec<u8>,
    files: &ProjectFiles,
    outcome: &Outcome,
) -> Result<(), NoMemory>
    requires { NamesLive files.now outcome.now }
    ensures { OnOk result (answer.new.items
        ≡ answer.old.items ++ outcome_text files.now outcome.now) }
{
    match outcome {
        Outcome::Linked { element, .. } => {
            write(answer, b"linked ")?;
            write_element(alloc, answer, files, *element)
        }
        Outcome::Absent { segment } => {
            write(answer, b"absent ")?;
            write_number(answer, *segment as usize)
        }
        Outcome::Ambiguous {
            segment,
            first,
            second,
        } => {
            write(answer, b"ambiguous ")?;
            write_number(answer, *segment as usize)?;
            write(answer, b" ")?;
            write_member(answer, files, *first)?;
            write(answer, b" ")?;
            write_member(answer, files, *second)
        }
        Outcome::Hidden { segment, member } => {
            write(answer, b"hidden ")?;
            write_number(answer, *segment as usize)?;
            write(answer, b" ")?;
            write_member(answer, files, *member)
        }
        Outcome::Cyclic { on } => {
            write(answer, b"cyclic ")?;
            write_spot(answer, files, on.file, files.reference_place(*on))
        }
    }
}

/// Appends a reference as it is written.
fn write_text(
    alloc: Global,
    answer: &mut Vec<u8>,
    files: &ProjectFiles,
    reference: RefNo,
) -> Result<(), NoMemory>
    requires { IsLiveReference files.now reference }
    ensures { OnOk result (answer.new.items
        ≡ answer.old.items ++ text_of_reference files.now reference) }
{
    write_reference(alloc, answer, files.model(reference.file), reference.index)?;
    Ok(())
}

/// Appends a row of `links`: the place of a reference, its role, how it is written, and what became of it.
pub fn write_row(
    alloc: Global,
    answer: &mut Vec<u8>,
    files: &ProjectFiles,
    row: &LinkRow,
) -> Result<(), NoMemory>
    requires stands { IsLiveReference files.now row.now.reference }
    requires names { NamesLive files.now row.now.outcome }
    ensures { OnOk result (answer.new.items ≡ answer.old.items ++ row_text files.now row.now) }
{
    write_place(answer, row.place)?;
    write(answer, b" ")?;
    write(answer, role_word(row.role))?;
    write(answer, b" ")?;
    write_text(alloc, answer, files, row.reference)?;
    write(answer, b" -> ")?;
    write_outcome(alloc, answer, files, &row.outcome)
}
