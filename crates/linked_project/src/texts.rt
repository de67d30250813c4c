ghost use Rattle.std.specs.Prelude.{◌≡◌, ◌<◌, IfOk, length};
ghost use Rattle.book_model.specs.Files.{name_at};
ghost use Rattle.book_model.specs.Live.{IsLiveElement, IsLiveReference};
ghost use Rattle.book_model.specs.Queries.{label, text_of_reference};

use element_store::{ElementNo, FileNo, RefNo, Text};
use linker_base::NoMemory;
use project_files::ProjectFiles;
use std::alloc::Global;
use written_names::{write_label, write_reference};

/// The label of an element.
pub(crate) fn label_text(
    alloc: Global,
    files: &ProjectFiles,
    element: ElementNo,
) -> Result<Text, NoMemory>
    requires { IsLiveElement files.now element }
    ensures { IfOk result (λ text. text ≡ label files.now element) }
{
    let mut label = Vec::new(alloc);
    write_label(alloc, &mut label, files.model(element.file), element.index)?;
    Ok(Text::of(label))
}

/// A reference as it is written.
pub(crate) fn reference_text(
    alloc: Global,
    files: &ProjectFiles,
    reference: RefNo,
) -> Result<Text, NoMemory>
    requires { IsLiveReference files.now reference }
    ensures { IfOk result (λ text. text ≡ text_of_reference files.now reference) }
{
    let mut written = Vec::new(alloc);
    write_reference(
        alloc,
        &mut written,
        files.model(reference.file),
        reference.index,
    )?;
    Ok(Text::of(written))
}

/// The name of a file.
pub(crate) fn name_text(alloc: Global, files: &ProjectFiles, file: FileNo) -> Result<Text, NoMemory>
    requires { file.0 < length files.now }
    ensures { IfOk result (λ text. text ≡ name_at files.now file) }
{
    let bytes = Vec::from_slice(alloc, files.name(file).bytes())?;
    Ok(Text::of(bytes))
}
