//! Laws of the book. Each is a function with nothing to run: what it ensures holds of the definitions
//! alone.
ghost use Rattle.std.specs.Prelude.{◌≡◌, [], true, ◌≤◌, ◌<◌, ℕ, List, Option, Some, length, slice_get, option_map};
ghost use Rattle.std.specs.Map.{keys_of as names_of};
ghost use Rattle.element_store.specs.declared.records.Element.{Element};
ghost use Rattle.element_store.specs.Condition.{IsModel};
ghost use Rattle.element_store.specs.Model.{Data};
ghost use Rattle.element_store.specs.Stored.{AreFiles};
ghost use Rattle.element_store.specs.declared.models.StoredFile.{StoredFile};
ghost use Rattle.element_store.specs.declared.numbers.RefNo.{RefNo};
ghost use Rattle.link_model.specs.Outside.{keys_of};
ghost use Rattle.linker_base.specs.Members.{IsEachOnce, IsMember};
ghost use Rattle.linker_base.specs.Orders.{AreInOrder};
ghost use Rattle.book_model.specs.declared.edit.Edit.{Edit};
ghost use Rattle.book_model.specs.Answers.{AreAnswers, Command, IsAnswer};
ghost use Rattle.book_model.specs.Book.{Book, Edited, edited, left_by, text_in, with_entry};
ghost use Rattle.book_model.specs.Files.{AreFilesOf, Content, LibraryTexts, ProjectFile};
ghost use Rattle.book_model.specs.Files.{content_under, ranked, stored, with_content};
ghost use Rattle.book_model.specs.Labels.{own_part, parts_of, parts_under};
ghost use Rattle.book_model.specs.Laws.{AreRanked, AreRising, AreWithin, ChangesOneFile, HasOneOutcome};
ghost use Rattle.book_model.specs.Laws.{HasOneRowEach};
ghost use Rattle.book_model.specs.Laws.{IsBelow, IsDone, IsPrintedBefore, IsRowBefore, IsSmall};
ghost use Rattle.book_model.specs.Proper.{IsProperBook, IsProperLibrary, IsWithin};
ghost use Rattle.book_model.specs.Laws.{IsContentUnder, IsFoundAfter, IsStoredAfter, OneReading};
ghost use Rattle.book_model.specs.Laws.{name_in, TextsHaveModels};
ghost use Rattle.element_store.specs.FileNames.{is_file_name};
ghost use Rattle.book_model.specs.Live.{IsLiveReference, NamesLive};
ghost use Rattle.book_model.specs.Outcomes.{IsOutcome, found_of, outcome_of};
ghost use Rattle.book_model.specs.Rows.{Outcomes, rising, rows_in};

/// A law: an edit that is refused, or finds nothing to drop, changes nothing. Any other leaves its text
/// under its name and what stood under every other, keeps the names in their order, and leaves a book
/// within its limits.
pub fn edits_are_exact()
    ensures refused { (book : Book) (e : Edit) (number : ℕ) → edited book e ≡ Edited.Limit number
        → left_by book (edited book e) ≡ book }
    ensures missing { (book : Book) (e : Edit) → edited book e ≡ Edited.NotThere
        → left_by book (edited book e) ≡ book }
    ensures changed { (book : Book) (e : Edit) (changed : Book)
        → edited book e ≡ Edited.Changed changed → IsDone book e changed }
    ensures within { (book : Book) (e : Edit) (changed : Book) → IsWithin book
        → edited book e ≡ Edited.Changed changed → IsWithin changed }
{}

/// A law: the books that edits of the names of files make from the empty one are proper, and over a
/// proper library such a book is small.
pub fn edited_books_are_proper()
    ensures empty { IsProperBook [] }
    ensures kept { (book : Book) (e : Edit) (changed : Book)
        → IsProperBook book × (is_file_name (name_in e) ≡ true)
        → edited book e ≡ Edited.Changed changed → IsProperBook changed }
    ensures small { (book : Book) (library : LibraryTexts) → IsProperBook book
        → IsProperLibrary library → IsSmall book library }
{}

/// A law: where texts have one outcome, a book over a library has at most one list of files.
pub fn one_list_of_files()
    ensures reading { HasOneOutcome → OneReading }
    ensures files { OneReading → (book : Book) (library : LibraryTexts) (a b : List ProjectFile)
        → AreFilesOf book library a × AreFilesOf book library b → a ≡ b }
{}

/// A law: and each command has at most one answer, and so have commands one after the other.
pub fn one_answer_each()
    ensures one { OneReading → (library : LibraryTexts) (book : Book) (c : Command) (a b : List ℕ)
        → IsAnswer library book c a × IsAnswer library book c b → a ≡ b }
    ensures all { OneReading → (library : LibraryTexts) (book : Book) (cs : List Command)
        (a b : List ℕ) → AreAnswers library book cs a × AreAnswers library book cs b → a ≡ b }
{}

/// A law: the files of a book hold under each name the text that the book has there, or none.
pub fn texts_are_found()
    ensures { (book : Book) (library : LibraryTexts) (files : List ProjectFile) (name : List ℕ)
        → AreFilesOf book library files
        → option_map (λ c. c.text) (content_under files name) ≡ text_in book name }
{}

/// A law: an edit of one entry changes one file, or adds one after the others: its name has the new
/// content and every other its old one, and links see one model replaced, or one file more.
pub fn edits_change_one_file()
    ensures files { (book : Book) (library : LibraryTexts) (files : List ProjectFile)
        (name : List ℕ) → AreFilesOf book library files
        → ChangesOneFile book library files name }
    ensures found { (files : List ProjectFile) (name : List ℕ) (c : Option Content)
        → IsFoundAfter files name c }
    ensures stored { (files : List ProjectFile) (name : List ℕ) (c : Option Content)
        → IsStoredAfter files name c }
{}

/// A law: where the models of texts are models, the files of a book are files as the laws of links want
/// them.
pub fn stored_files_are_files()
    ensures { TextsHaveModels → (book : Book) (library : LibraryTexts) (files : List ProjectFile)
        → IsSmall book library × AreFilesOf book library files → AreFiles (stored files) }
{}

/// A law: a reference that stands has the entry of the least linking, which names what stands; or it is
/// cyclic, on the least reference on which it waits, and that is open too.
pub fn references_have_outcomes()
    ensures { (files : List StoredFile) (r : RefNo) → AreFiles files
        → IsMember (keys_of files) (record { 0 = r }) → IsOutcome files r (outcome_of files r) }
{}

/// A law: the keys of links are live references, and what their outcomes name is live: elements that have
/// a label, members and references that have a place. So is what a qualified name finds.
pub fn outcomes_name_what_stands()
    ensures keys { (files : List ProjectFile) (r : RefNo)
        → IsMember (keys_of (stored files)) (record { 0 = r }) → IsLiveReference files r }
    ensures named { (files : List ProjectFile) (r : RefNo) → AreFiles (stored files)
        → IsMember (keys_of (stored files)) (record { 0 = r })
        → NamesLive files (outcome_of (stored files) r) }
    ensures found { (files : List ProjectFile) (path : List (List ℕ)) → AreFiles (stored files)
        → NamesLive files (found_of (stored files) path) }
{}

/// A law: the present files are ranked in byte order of their names, and where each name stands once in
/// the book these names rise.
pub fn files_are_ranked()
    ensures order { (files : List ProjectFile) → AreRanked files (ranked files) }
    ensures rising { (book : Book) (library : LibraryTexts) (files : List ProjectFile)
        → IsEachOnce (names_of book) → AreFilesOf book library files
        → AreInOrder IsBelow (ranked files) }
{}

/// A law: the references of a file are listed in rising order of places, and then of numbers. Where each
/// has a place, each has one row, whatever the outcomes; and where the places stand within the text, the
/// rows rise as they are printed.
pub fn rows_are_exact()
    ensures references { (d : Data) → AreRising d (rising d) }
    ensures each { (outcomes : Outcomes) (text : List ℕ) (d : Data)
        → length d.reference_places ≡ length d.references
        → HasOneRowEach d (rows_in outcomes text d) }
    ensures rising { (outcomes : Outcomes) (text : List ℕ) (d : Data)
        → AreWithin text d.reference_places → AreInOrder IsRowBefore (rows_in outcomes text d) }
{}

/// A law: a later place of a text is printed with a later line, or with a later column of the same line.
pub fn later_places_print_later()
    ensures { (text : List ℕ) (p q : ℕ) → p < q → q ≤ length text → IsPrintedBefore text p q }
{}

/// A law: the steps of a label are enough. The parts of an element of a model are those of its owner,
/// and its own; the root has none.
pub fn labels_have_steps()
    ensures { (d : Data) (e : ℕ) (x : Element) → IsModel d → slice_get d.elements e ≡ Some x
        → parts_of d e ≡ parts_under (parts_of d) (own_part d.language e x) x.owner }
{}
