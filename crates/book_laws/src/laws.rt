//! Laws of the book that stand on those of texts. Each is a function with nothing to run: what it
//! ensures holds of the definitions alone.
ghost use Rattle.std.specs.Prelude.{ℕ, ◌<◌, ◌^◌, List, length};
ghost use Rattle.element_store.specs.declared.numbers.FileNo.{FileNo};
ghost use Rattle.element_store.specs.declared.outcome.Language.{Language};
ghost use Rattle.element_store.specs.Model.{Data};
ghost use Rattle.text_model.specs.Profile.{InProfile};
ghost use Rattle.element_store.specs.declared.numbers.RefNo.{RefNo};
ghost use Rattle.element_store.specs.Stored.{AreFiles};
ghost use Rattle.book_model.specs.Answers.{Command};
ghost use Rattle.book_model.specs.Book.{Book};
ghost use Rattle.book_model.specs.Files.{AreFilesOf, LibraryTexts, ProjectFile, stored};
ghost use Rattle.book_model.specs.Laws.{IsSmall};
ghost use Rattle.book_laws.specs.Exactly.{HasOneAnswer, HasOneListOfFiles, HasOutcome};
ghost use Rattle.book_laws.specs.Texts.{HasRisingRows};

/// A law: a book over a library has exactly one list of files. Where names stand once and texts are
/// short, these are files as the laws of links want them.
pub fn book_has_files()
    ensures one { (book : Book) (library : LibraryTexts) → HasOneListOfFiles book library }
    ensures files { (book : Book) (library : LibraryTexts) (files : List ProjectFile)
        → IsSmall book library → AreFilesOf book library files → AreFiles (stored files) }
{}

/// A law: whatever the outcomes, each reference of a text within the profile has one row, and the rows
/// rise as they are printed.
pub fn rows_of_texts_rise()
    ensures { (file : FileNo) (language : Language) (text : List ℕ) (d : Data)
        → length text < 2 ^ 32 → InProfile file language text d → HasRisingRows text d }
{}

/// A law: commands over a book have exactly one list of answers.
pub fn commands_have_answers()
    ensures { (library : LibraryTexts) (book : Book) (commands : List Command)
        → HasOneAnswer library book commands }
{}

/// A law: each reference of a book has its entry in the least linking, which names what stands, or is
/// cyclic on the least reference on which it waits.
pub fn book_references_have_outcomes()
    ensures { (book : Book) (library : LibraryTexts) (files : List ProjectFile) (r : RefNo)
        → IsSmall book library × AreFilesOf book library files → HasOutcome (stored files) r }
{}
