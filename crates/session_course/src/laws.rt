//! Laws of the course of a session. Each is a function with nothing to run: what it ensures holds of the
//! definitions alone.
ghost use Rattle.std.specs.Prelude.{◌≡◌, ℕ, Bool, List};
ghost use Rattle.book_model.specs.Book.{Book};
ghost use Rattle.book_model.specs.Files.{LibraryTexts};
ghost use Rattle.book_model.specs.Laws.{OneReading};
ghost use Rattle.session_course.specs.Answers.{AreAnswers, HasAnswers, IsAnswer, SomeReading};
ghost use Rattle.session_course.specs.Commands.{Command};
ghost use Rattle.session_course.specs.Cut.{IsCut};
ghost use Rattle.session_course.specs.Stops.{AreSame, Course, HasOneCourse, IsDoneByEnd};
ghost use Rattle.session_course.specs.Stops.{IsForGood, IsOpen, Stop};

/// A law: over one book an input has at most one cut, so that its commands and their answers are fixed
/// by its bytes.
pub fn one_cut()
    ensures { (ended : Bool) (from : Book) (cs ds : List Command) (bytes rest left : List ℕ)
        → IsCut ended from cs bytes rest → IsCut ended from ds bytes left
        → (cs ≡ ds) × (rest ≡ left) }
{}

/// A law: over any book each input has a cut.
pub fn cut_exists()
    ensures { (ended : Bool) (from : Book) (bytes : List ℕ)
        → (commands : List Command) × (rest : List ℕ) × IsCut ended from commands bytes rest }
{}

/// A law: over one book an input has at most one course: one cut and one stop.
pub fn one_course()
    ensures { (ended : Bool) (from : Book) (bytes : List ℕ) (a b : Course ended from bytes)
        → AreSame a b }
{}

/// A law: over any book each input has exactly one course, so that the clauses on a session's endings
/// speak of what there is.
pub fn each_input_has_a_course()
    ensures { (ended : Bool) (from : Book) (bytes : List ℕ) → HasOneCourse ended from bytes }
{}

/// A law: after commands of which none is `end`, a row of the table that holds whatever follows ends the
/// cut: a long line, a line without form, a number above its limit, a put without its LF, or a refused
/// edit.
pub fn rows_end_the_cut()
    ensures { (ended : Bool) (from : Book) (cs : List Command) (bytes rest : List ℕ) (s : Stop)
        → IsOpen ended from cs bytes rest → IsForGood from cs bytes rest s
        → IsCut ended from cs bytes rest }
{}

/// A law: a session is done exactly where its commands end with `end`.
pub fn done_by_end_alone()
    ensures { (ended : Bool) (from : Book) (bytes : List ℕ) (c : Course ended from bytes)
        → IsDoneByEnd c }
{}

/// A law: where texts have one reading, each command has at most one answer, and so have commands one
/// after the other.
pub fn one_answer_each()
    ensures one { OneReading → (library : LibraryTexts) (book : Book) (c : Command) (a b : List ℕ)
        → IsAnswer library book c a × IsAnswer library book c b → a ≡ b }
    ensures all { OneReading → (library : LibraryTexts) (book : Book) (cs : List Command)
        (a b : List ℕ) → AreAnswers library book cs a × AreAnswers library book cs b → a ≡ b }
{}

/// A law: where each text has a reading, commands have answers.
pub fn answers_exist()
    ensures { SomeReading → (library : LibraryTexts) (book : Book) (cs : List Command)
        → HasAnswers library book cs }
{}
