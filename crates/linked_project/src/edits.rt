ghost use Rattle.std.specs.Prelude.{◌≡◌, IfOk, OnOk, Ok, false};
ghost use Rattle.book_model.specs.declared.edit.Edit.TheVariants.{Drop as Dropped, Put};
ghost use Rattle.book_model.specs.Files.{stored};
ghost use Rattle.project_answers.specs.Holds.{FollowedBefore, all_linked};
ghost use Rattle.project_book.specs.Held.{IsApplied};

use element_store::{FileName, FileNo, Text};
use linker_base::NoMemory;
use project_answers::{Linking, close, open, place_of};
use project_book::{Applied, Project};

/// Follows the coming of a file's text, and links what it may have changed.
fn link_again<G: Linking>(links: &mut G, book: &Project, file: FileNo) -> Result<(), NoMemory>
    requires { FollowedBefore (G.follows links.old).files book.now.files file }
    ensures { OnOk result (G.follows links.new ≡ all_linked (stored book.now.files)) }
{
    if !open(links, book, file) {
        return Err(NoMemory);
    }
    links.settle(book.files().models())
}

/// Puts a text that has room, and links what that may have changed.
pub(crate) fn put_linked<G: Linking>(
    links: &mut G,
    book: &mut Project,
    name: FileName,
    text: Text,
) -> Result<Applied, NoMemory>
    requires { G.follows links.old ≡ all_linked (stored book.old.files) }
    ensures put { IfOk result (λ applied.
        IsApplied book.old book.new (Put name text) (Ok applied)) }
    ensures linked { OnOk result (G.follows links.new ≡ all_linked (stored book.new.files)) }
{
    let file = place_of(book, &name);
    if !close(links, book, file) {
        return Err(NoMemory);
    }
    match book.put(name, text) {
        Ok(_) => {
            link_again(links, book, file)?;
            Ok(Applied::Changed)
        }
        // The text has room, so that nothing but memory is wanting.
        Err(_) => Err(NoMemory),
    }
}

/// Drops the text under a name, and links what that may have changed.
pub(crate) fn drop_linked<G: Linking>(
    links: &mut G,
    book: &mut Project,
    name: &FileName,
) -> Result<Applied, NoMemory>
    requires { G.follows links.old ≡ all_linked (stored book.old.files) }
    ensures dropped { IfOk result (λ applied.
        IsApplied book.old book.new (Dropped name.now) (Ok applied)) }
    ensures linked { OnOk result (G.follows links.new ≡ all_linked (stored book.new.files)) }
{
    let file = place_of(book, name);
    if !close(links, book, file) {
        return Err(NoMemory);
    }
    match book.remove(name) {
        Ok(applied) => {
            link_again(links, book, file)?;
            Ok(applied)
        }
        // The project isn't broken, so that nothing but memory is wanting.
        Err(_) => Err(NoMemory),
    }
}
