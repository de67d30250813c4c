ghost use Rattle.std.specs.Prelude.{◌≡◌, ◌<◌, ◌++◌, [], All as Each, IfOk, OnOk, length};
ghost use Rattle.std.specs.List.{flat_map};
ghost use Rattle.book_model.specs.Files.{name_at};
ghost use Rattle.book_model.specs.Queries.{names_query};
ghost use Rattle.project_book.specs.Named.{AreOfBook, IsOwn};
ghost use Rattle.linked_project.specs.Listed.{present_names};

use element_store::{FileName, FileNo};
use linker_base::{Listing, NoMemory};
use project_answers::in_order;
use project_files::ProjectFiles;
use std::alloc::Global;

/// The names of files. Contracts see the list of them.
pub type FileNames = Listing<FileName>;

/// The name of a file of the book.
pub(crate) fn name_of(
    alloc: Global,
    files: &ProjectFiles,
    file: FileNo,
) -> Result<FileName, NoMemory>
    requires { file.0 < length files.now }
    ensures { IfOk result (λ name. name ≡ name_at files.now file) }
{
    match FileName::read(alloc, files.name(file).bytes()) {
        Ok(name) => Ok(name),
        // What the book holds under a name is read as one again, so that nothing but memory is wanting.
        Err(_) => Err(NoMemory),
    }
}

/// Appends the name of a file, if its text is present.
fn push_name(
    alloc: Global,
    files: &ProjectFiles,
    file: FileNo,
    names: &mut FileNames,
) -> Result<(), NoMemory>
    requires own { IsOwn files.now file }
    requires stands { file.0 < length files.now }
    ensures { OnOk result (names.new ≡ names.old ++ present_names files.now file) }
{
    match files.size(file) {
        Some(_) => names.push(name_of(alloc, files, file)?),
        None => Ok(()),
    }
}

/// The names of these files, as far as their texts are present.
fn names_at(alloc: Global, files: &ProjectFiles, numbers: &[FileNo]) -> Result<FileNames, NoMemory>
    requires own { Each (IsOwn files.now) numbers.now }
    requires stand { Each (λ n. n.0 < length files.now) numbers.now }
    ensures { IfOk result (λ names. names ≡ flat_map (present_names files.now) numbers.now) }
{
    let mut names = FileNames::new(alloc);
    for number in numbers {
        push_name(alloc, files, *number, &mut names)?;
    }
    Ok(names)
}

/// The names of the present files, in byte order.
pub(crate) fn file_names(alloc: Global, files: &ProjectFiles) -> Result<FileNames, NoMemory>
    requires { AreOfBook files.now }
    ensures { IfOk result (λ names. names ≡ names_query files.now) }
{
    let order = in_order(alloc, files)?;
    names_at(alloc, files, &order)
}
