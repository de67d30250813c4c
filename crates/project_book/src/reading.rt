ghost use Rattle.std.specs.Prelude.{◌≡◌, ◌<◌, ◌≤◌, ◌^◌, IfOk, length};
ghost use Rattle.linker_base.specs.declared.limits.TheConstants.{FILE_BYTES};
ghost use Rattle.project_book.specs.Named.{IsReadAs, known};

use element_store::{FileModel, FileNo, Language, Text};
use linker_base::NoMemory;
use model_build::build;
use source_text::SourceText;
use std::alloc::Global;
use text_model::FileFault;

/// A text, with what it is read as: its model, or its fault with the model of an empty file.
#[derive(Drop)]
pub(crate) struct ReadText {
    pub text: SourceText,
    pub fault: Option<FileFault>,
    pub model: FileModel,
}

/// The model of a text, or its fault with the model of an empty file.
#[derive(Drop)]
struct Found {
    fault: Option<FileFault>,
    model: FileModel,
}

/// The fault, unless it is want of memory.
fn known(fault: FileFault) -> Option<FileFault>
    ensures { result ≡ known fault }
{
    match fault {
        FileFault::NoMemory => None,
        other => Some(other),
    }
}

/// Finds the model of a text.
fn find(alloc: Global, file: FileNo, text: &[u8], language: Language) -> Result<Found, NoMemory>
    requires { length text.now < 2 ^ 32 }
    ensures { IfOk result (λ found. IsReadAs file language text.now found.fault found.model) }
{
    match build(alloc, file, text, language) {
        Ok(model) => Ok(Found { fault: None, model }),
        Err(fault) => match known(fault) {
            Some(fault) => Ok(Found {
                fault: Some(fault),
                model: FileModel::bare(alloc, file, language)?,
            }),
            None => Err(NoMemory),
        },
    }
}

/// Reads the text of a file.
pub(crate) fn read(
    alloc: Global,
    file: FileNo,
    text: Text,
    language: Language,
) -> Result<ReadText, NoMemory>
    requires { length text ≤ FILE_BYTES }
    ensures as_read { IfOk result (λ read. IsReadAs file language text read.fault read.model) }
    ensures text { IfOk result (λ read. read.text ≡ text) }
{
    let text = SourceText::of(alloc, text)?;
    let Found { fault, model } = find(alloc, file, text.bytes(), language)?;
    Ok(ReadText { text, fault, model })
}
