//! The words before a name: visibility, part, prefixes, kind.
ghost use Rattle.std.specs.Prelude.{◌≡◌, true, OnOk};
ghost use Rattle.element_store.specs.declared.outcome.Language.{Language};
ghost use Rattle.element_store.specs.declared.outcome.Language.TheVariants.{Kerml, Sysml};
ghost use Rattle.print_model.specs.Heads.{direction_words, is_end, is_note, kind_words, member_visibility, part_words, prefixes, visibility_word};
ghost use Rattle.model_printer.specs.Kinds.{first_word, is_definition};
ghost use Rattle.model_printer.specs.Sheets.{is_plain, puts};

use crate::writer::Writer;
use element_store::{Direction, Kind, Language, Marks, PartOf, Visibility};
use linker_base::NoMemory;

/// The word of a visibility.
pub(crate) fn visibility_word(visibility: Visibility) -> &'static [u8]
    ensures word { result.now ≡ visibility_word visibility }
    ensures plain { is_plain result.now ≡ true }
{
    match visibility {
        Visibility::Public => b"public",
        Visibility::Protected => b"protected",
        Visibility::Private => b"private",
    }
}

/// A member's visibility, where it isn't public.
pub(crate) fn write_visibility(writer: &mut Writer, visibility: Visibility) -> Result<(), NoMemory>
    ensures { OnOk result ((l : Language)
        → writer.new ≡ puts writer.old (member_visibility l visibility)) }
{
    match visibility {
        Visibility::Public => Ok(()),
        Visibility::Protected => writer.word(b"protected"),
        Visibility::Private => writer.word(b"private"),
    }
}

/// `return`, `assume` or `require`.
pub(crate) fn write_part(writer: &mut Writer, part: PartOf) -> Result<(), NoMemory>
    ensures { OnOk result ((l : Language) → writer.new ≡ puts writer.old (part_words l part)) }
{
    match part {
        PartOf::Return => writer.word(b"return"),
        PartOf::Assume => writer.word(b"assume"),
        PartOf::Require => writer.word(b"require"),
        PartOf::Plain | PartOf::Subject => Ok(()),
    }
}

/// `in`, `out` or `inout`.
fn write_direction(writer: &mut Writer, direction: Direction) -> Result<(), NoMemory>
    ensures { OnOk result ((l : Language)
        → writer.new ≡ puts writer.old (direction_words l direction)) }
{
    match direction {
        Direction::In => writer.word(b"in"),
        Direction::Out => writer.word(b"out"),
        Direction::InOut => writer.word(b"inout"),
        Direction::None => Ok(()),
    }
}

/// The prefixes of SysML.
#[tactic(auto, using(crate::proofs::SheetLaws::puts_append, crate::proofs::SheetLaws::puts_cond))]
fn write_sysml_prefixes(writer: &mut Writer, marks: &Marks) -> Result<(), NoMemory>
    ensures { OnOk result (writer.new ≡ puts writer.old (prefixes Sysml marks.now)) }
{
    writer.word_if(marks.end, b"end")?;
    write_direction(writer, marks.direction)?;
    writer.word_if(marks.derived, b"derived")?;
    writer.word_if(marks.is_abstract, b"abstract")?;
    writer.word_if(marks.constant, b"constant")?;
    writer.word_if(marks.reference, b"ref")?;
    Ok(())
}

/// The prefixes of KerML.
#[tactic(auto, using(crate::proofs::SheetLaws::puts_append, crate::proofs::SheetLaws::puts_cond))]
fn write_kerml_prefixes(writer: &mut Writer, marks: &Marks) -> Result<(), NoMemory>
    ensures { OnOk result (writer.new ≡ puts writer.old (prefixes Kerml marks.now)) }
{
    write_direction(writer, marks.direction)?;
    writer.word_if(marks.derived, b"derived")?;
    writer.word_if(marks.is_abstract, b"abstract")?;
    writer.word_if(marks.composite, b"composite")?;
    writer.word_if(marks.constant, b"const")?;
    writer.word_if(marks.end, b"end")?;
    Ok(())
}

/// The prefixes, in the order of the language's grammar.
pub(crate) fn write_prefixes(
    writer: &mut Writer,
    language: Language,
    marks: &Marks,
) -> Result<(), NoMemory>
    ensures { OnOk result (writer.new ≡ puts writer.old (prefixes language marks.now)) }
{
    match language {
        Language::Kerml => write_kerml_prefixes(writer, marks),
        Language::Sysml => write_sysml_prefixes(writer, marks),
    }
}

/// The word of a kind, without `def`; none for a root, a connector's end and a usage without a word.
fn first_word(kind: Kind) -> &'static [u8]
    ensures word { result.now ≡ first_word kind }
    ensures plain { is_plain result.now ≡ true }
{
    match kind {
        Kind::Namespace => b"namespace",
        Kind::Package => b"package",
        Kind::Comment => b"comment",
        Kind::Documentation => b"doc",
        Kind::AttributeDef | Kind::Attribute => b"attribute",
        Kind::EnumDef | Kind::Enumeration => b"enum",
        Kind::OccurrenceDef | Kind::Occurrence => b"occurrence",
        Kind::ItemDef | Kind::Item => b"item",
        Kind::PartDef | Kind::Part => b"part",
        Kind::PortDef | Kind::Port => b"port",
        Kind::ConnectionDef | Kind::Connection => b"connection",
        Kind::InterfaceDef | Kind::Interface => b"interface",
        Kind::ActionDef | Kind::Action => b"action",
        Kind::CalcDef | Kind::Calc => b"calc",
        Kind::ConstraintDef | Kind::Constraint => b"constraint",
        Kind::RequirementDef | Kind::Requirement => b"requirement",
        Kind::Binding => b"binding",
        Kind::AnyType => b"type",
        Kind::Classifier => b"classifier",
        Kind::Class => b"class",
        Kind::Struct => b"struct",
        Kind::Datatype => b"datatype",
        Kind::Assoc => b"assoc",
        Kind::Behavior => b"behavior",
        Kind::Function => b"function",
        Kind::Feature => b"feature",
        Kind::Step => b"step",
        Kind::Root | Kind::Reference | Kind::ConnectorEnd => b"",
    }
}

/// Whether `def` follows the kind's word.
fn is_definition(kind: Kind) -> bool
    ensures { result ≡ is_definition kind }
{
    match kind {
        Kind::AttributeDef | Kind::EnumDef | Kind::OccurrenceDef | Kind::ItemDef => true,
        Kind::PartDef | Kind::PortDef | Kind::ConnectionDef | Kind::InterfaceDef => true,
        Kind::ActionDef | Kind::CalcDef | Kind::ConstraintDef | Kind::RequirementDef => true,
        _ => false,
    }
}

/// Whether it is an end of a connector.
pub(crate) fn is_end(kind: Kind) -> bool
    ensures { result ≡ is_end kind }
{
    matches!(kind, Kind::ConnectorEnd)
}

/// Whether it is a comment or documentation.
pub(crate) fn is_note(kind: Kind) -> bool
    ensures { result ≡ is_note kind }
{
    matches!(kind, Kind::Comment | Kind::Documentation)
}

/// `subject` in place of the kind's word; nothing for a usage without one.
pub(crate) fn write_kind(writer: &mut Writer, part: PartOf, kind: Kind) -> Result<(), NoMemory>
    ensures { OnOk result ((l : Language) → writer.new ≡ puts writer.old (kind_words l part kind)) }
{
    match (part, kind) {
        (PartOf::Subject, _) => writer.word(b"subject"),
        (_, Kind::Reference) => Ok(()),
        (_, kind) => {
            writer.word(first_word(kind))?;
            writer.word_if(is_definition(kind), b"def")
        }
    }
}
