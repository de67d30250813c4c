//! Laws of the course of a session that stand on those of texts. Each is a function with nothing to run:
//! what it ensures holds of the definitions alone.
ghost use Rattle.std.specs.Prelude.{ℕ, Bool, List};
ghost use Rattle.book_model.specs.Book.{Book};
ghost use Rattle.book_model.specs.Files.{LibraryTexts};
ghost use Rattle.session_course.specs.Commands.{Command};
ghost use Rattle.session_course.specs.Stops.{Course};
ghost use Rattle.course_laws.specs.Exactly.{HasOneAnswer, HasOneCourseAnswer};

/// A law: the commands of a session over a book have exactly one list of answers, and so has each course.
pub fn each_course_has_one_answer()
    ensures commands { (library : LibraryTexts) (from : Book) (cs : List Command)
        → HasOneAnswer library from cs }
    ensures course { (library : LibraryTexts) (ended : Bool) (from : Book) (bytes : List ℕ)
        (c : Course ended from bytes) → HasOneCourseAnswer library c }
{}
