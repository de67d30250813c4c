ghost use Rattle.std.specs.Prelude.{◌≡◌, None, true};
ghost use Rattle.element_store.specs.Stored.{with_model};
ghost use Rattle.book_model.specs.Files.{number_under, stored};
ghost use Rattle.project_book.specs.Named.{IsOwn};
ghost use Rattle.project_answers.specs.Holds.{FollowedBefore};

use crate::linking::Linking;
use element_store::{FileName, FileNo};
use project_book::Project;

/// The number of the file under a name. A new name will have the number after the last one.
pub fn place_of(project: &Project, name: &FileName) -> FileNo
    ensures place { result.0 ≡ number_under project.now.files name.now }
    ensures own { IsOwn project.now.files result }
{
    match project.number(name) {
        Some(file) => file,
        None => FileNo(project.files().count()),
    }
}

/// Follows the going of the text of a file, if it is one of the project's. Says whether the links still
/// follow.
pub fn close<G: Linking>(linking: &mut G, project: &Project, file: FileNo) -> bool
    requires over { (G.follows linking.old).files ≡ stored project.now.files }
    requires own { IsOwn project.now.files file }
    ensures { result ≡ true
        → (G.follows linking.new).files ≡ with_model (stored project.now.files) file.0 None }
{
    let files = project.files();
    if file.0 >= files.count() {
        return true;
    }
    linking.close(files.models(), file).is_ok()
}

/// Follows the coming of the text of a file, if it is one of the project's now. Says whether the links still
/// follow.
pub fn open<G: Linking>(linking: &mut G, project: &Project, file: FileNo) -> bool
    requires { FollowedBefore (G.follows linking.old).files project.now.files file }
    ensures { result ≡ true → (G.follows linking.new).files ≡ stored project.now.files }
{
    let files = project.files();
    if file.0 >= files.count() {
        return true;
    }
    linking.open(files.models(), file).is_ok()
}
