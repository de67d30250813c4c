ghost use Rattle.std.specs.Prelude.{◌≡◌, ◌<◌, All as Each, IfOk, length};
ghost use Rattle.book_model.specs.Files.{ranked};
ghost use Rattle.project_answers.specs.Wrong.{presents};
ghost use Rattle.project_book.specs.Named.{AreOfBook, IsOwn};

use element_store::FileNo;
use linker_base::NoMemory;
use project_files::ProjectFiles;
use std::alloc::Global;

/// The numbers of the files of a book, those of its library left out, in the byte order of their names; those
/// whose text is gone are among them.
pub fn in_order(alloc: Global, files: &ProjectFiles) -> Result<Vec<FileNo>, NoMemory>
    requires { AreOfBook files.now }
    ensures ranked { IfOk result (λ order. presents files.now order.items ≡ ranked files.now) }
    ensures stand { IfOk result (λ order. Each (λ n. n.0 < length files.now) order.items) }
    ensures own { IfOk result (λ order. Each (IsOwn files.now) order.items) }
    ensures few { IfOk result (λ order. length order.items < 4294967296) }
{
    let models = files.models();
    let mut order = Vec::new(alloc);
    // A look at the files tells what holds of all of them.
    let _ = models.files();
    // The models keep the order of the files over all edits, with the library's last.
    for rank in 0..models.project_files() {
        order.push(models.at_rank(rank))?;
    }
    Ok(order)
}
