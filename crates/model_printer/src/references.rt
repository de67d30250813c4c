//! References, and the lists of them that stand in a head.
ghost use Rattle.std.specs.Prelude.{◌≡◌, ◌<◌, ◌++◌, true, length, cond, codes, OnOk, None};
ghost use Rattle.element_store.specs.declared.outcome.Language.{Language};
ghost use Rattle.print_model.specs.Trees.{behind, headed, named, rooted};
ghost use Rattle.print_model.specs.Heads.{abouts, goes_on, is_about, is_specialisation, listed, specialisations, path_at, path_in, references_in, role_sign};
ghost use Rattle.model_printer.specs.Lists.{in_list, lead, stands_in};
ghost use Rattle.model_printer.specs.Sheets.{puts};
ghost use Rattle.model_printer.specs.Signs.{sign_bytes};

use crate::signs::Sign;
use crate::writer::Writer;
use element_store::{FileModel, Language, Name, Reference, Role};
use linker_base::NoMemory;

/// What begins an absolute name.
fn write_root(writer: &mut Writer, absolute: bool) -> Result<(), NoMemory>
    ensures { OnOk result (writer.new ≡ puts writer.old (rooted absolute)) }
{
    if absolute {
        writer.sign(Sign::Dollar)?;
        writer.sign(Sign::ColonColon)?;
    }
    Ok(())
}

/// Segments, each behind its sign.
fn write_behind(
    writer: &mut Writer,
    language: Language,
    mark: Sign,
    segments: &[Name],
) -> Result<(), NoMemory>
    ensures { OnOk result (writer.new
        ≡ puts writer.old (behind language (sign_bytes mark) segments.now)) }
{
    for segment in segments {
        writer.sign(mark)?;
        writer.name(segment, language)?;
    }
    Ok(())
}

/// The segments of a path.
fn write_path(writer: &mut Writer, language: Language, path: &[Name]) -> Result<(), NoMemory>
    ensures { OnOk result (writer.new ≡ puts writer.old (headed language path.now)) }
{
    match path.split_first() {
        None => Ok(()),
        Some((first, rest)) => {
            writer.name(first, language)?;
            write_behind(writer, language, Sign::ColonColon, rest)
        }
    }
}

/// A qualified name or chain (KerML 8.2.3.5).
#[tactic(auto, using(crate::proofs::SheetLaws::puts_append, crate::proofs::SheetLaws::puts_cond))]
fn write_name(
    writer: &mut Writer,
    language: Language,
    reference: &Reference,
) -> Result<(), NoMemory>
    ensures { OnOk result (writer.new ≡ puts writer.old (named language (path_in reference.now))) }
{
    write_root(writer, reference.absolute)?;
    write_path(writer, language, reference.path.as_slice())?;
    write_behind(writer, language, Sign::Dot, reference.chain.as_slice())?;
    Ok(())
}

/// The name that the reference of this number is.
pub(crate) fn write_reference(
    writer: &mut Writer,
    model: &FileModel,
    number: u32,
) -> Result<(), NoMemory>
    requires { number < length model.now.references }
    ensures { OnOk result (writer.new
        ≡ puts writer.old (named model.now.language (path_at model.now number))) }
{
    write_name(writer, model.language(), model.reference(number))
}

/// A list of references in a head.
#[derive(Clone, Copy, Debug, PartialEq, Eq)]
pub(crate) enum Listed {
    /// Those that an element specialises, each behind the sign of its role, or behind a comma where it goes
    /// on the list before it.
    Specialised,
    /// Those that an end of a connector has, with commas between them.
    Ends,
    /// What a comment is about.
    Abouts,
}

/// Whether references of this role stand in the list.
fn stands_in(list: Listed, role: Role) -> bool
    ensures { result ≡ stands_in list role }
{
    match (list, role) {
        (Listed::Abouts, _) => matches!(role, Role::About),
        (_, Role::Subclass | Role::Typing | Role::Subsetting) => true,
        (_, Role::Redefinition | Role::ReferenceSubsetting) => true,
        _ => false,
    }
}

/// Whether a reference goes on the list of the role before it.
fn goes_on(before: Option<Role>, role: Role) -> bool
    ensures { result ≡ goes_on before role }
{
    match (before, role) {
        (Some(Role::Subclass), Role::Subclass) => true,
        (Some(Role::Typing), Role::Typing) => true,
        (Some(Role::Subsetting), Role::Subsetting) => true,
        (Some(Role::Redefinition), Role::Redefinition) => true,
        _ => false,
    }
}

/// The sign before what is specialised: a comma where it goes on a list, else that of its role.
fn specialisation_sign(before: Option<Role>, role: Role) -> Sign
    ensures { sign_bytes result ≡ cond (goes_on before role) (codes ",") (role_sign role) }
{
    if goes_on(before, role) {
        return Sign::Comma;
    }
    match role {
        Role::Typing => Sign::Colon,
        Role::Redefinition => Sign::Redefines,
        Role::ReferenceSubsetting => Sign::References,
        _ => Sign::Subsets,
    }
}

/// What stands before a reference of a list, by the role of the one before it.
fn write_lead(
    writer: &mut Writer,
    list: Listed,
    before: Option<Role>,
    role: Role,
) -> Result<(), NoMemory>
    ensures { OnOk result ((l : Language)
        → writer.new ≡ puts writer.old (lead l list before role)) }
{
    match (list, before) {
        (Listed::Specialised, _) => {
            writer.sign(specialisation_sign(before, role))?;
            Ok(())
        }
        (Listed::Ends, None) => Ok(()),
        (Listed::Abouts, None) => writer.word(b"about"),
        (_, Some(_)) => writer.sign(Sign::Comma),
    }
}

/// The references of an element that stand in a list.
fn write_list(
    writer: &mut Writer,
    model: &FileModel,
    list: Listed,
    element: u32,
) -> Result<(), NoMemory>
    requires { element < length model.now.elements }
    ensures { OnOk result (writer.new ≡ puts writer.old
        (in_list model.now.language list None
        (references_in model.now (stands_in list) element))) }
{
    let language = model.language();
    let (first, after) = model.references_of(element);
    let mut before = None;
    for number in first..after {
        let reference = model.reference(number);
        if !stands_in(list, reference.role) {
            continue;
        }
        write_lead(writer, list, before, reference.role)?;
        write_name(writer, language, reference)?;
        before = Some(reference.role);
    }
    Ok(())
}

/// What an element specialises, in runs.
pub(crate) fn write_specialisations(
    writer: &mut Writer,
    model: &FileModel,
    element: u32,
) -> Result<(), NoMemory>
    requires { element < length model.now.elements }
    ensures { OnOk result (writer.new ≡ puts writer.old
        (specialisations model.now.language None
        (references_in model.now is_specialisation element))) }
{
    write_list(writer, model, Listed::Specialised, element)?;
    Ok(())
}

/// What an end of a connector refers to.
pub(crate) fn write_listed(
    writer: &mut Writer,
    model: &FileModel,
    element: u32,
) -> Result<(), NoMemory>
    requires { element < length model.now.elements }
    ensures { OnOk result (writer.new ≡ puts writer.old
        (listed model.now.language (references_in model.now is_specialisation element))) }
{
    write_list(writer, model, Listed::Ends, element)?;
    Ok(())
}

/// What a comment is about.
pub(crate) fn write_abouts(
    writer: &mut Writer,
    model: &FileModel,
    element: u32,
) -> Result<(), NoMemory>
    requires { element < length model.now.elements }
    ensures { OnOk result (writer.new ≡ puts writer.old
        (abouts model.now.language (references_in model.now is_about element))) }
{
    write_list(writer, model, Listed::Abouts, element)?;
    Ok(())
}
