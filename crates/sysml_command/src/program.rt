ghost use Rattle.std.specs.Prelude.{◌≡◌, ◌⊎◌, false, map, string_bytes};
ghost use Rattle.library_texts.specs.Texts.{library};
ghost use Rattle.session_streams.specs.Running.{HasCause, is_session};
ghost use Rattle.session_run.specs.Clauses.{HasRan, Quiet, io};
ghost use Rattle.sysml_session.specs.Answered.{across};

use book_links::BookLinks;
use demand_core::{Ledger, Steps};
use outside_core::{Shelf, Sink, Source};
use project_answers::Desk;
use session_run::Status;
use std::alloc::Global;

/// The program: a script on `input`, its answers on `output`, one line on `errors` where it fails. Its project stands
/// over the library of this product.
///
/// `words` are the program's name and the word `session`.
pub fn run<F: Shelf, S: Source, K: Sink, E: Sink, L: Ledger>(
    alloc: Global,
    words: &[String],
    shelf: &mut F,
    input: &mut S,
    output: &mut K,
    errors: &mut E,
    steps: &mut Steps<L>,
) -> Status
    // Where no count of faults rises: output, errors and status are those of the words and of the course of the input,
    // or memory was wanting.
    ensures quiet { Quiet library (map string_bytes words.now) (io
        (across S.left S.faults input.old input.new)
        (across K.given K.faults output.old output.new)
        (across E.given E.faults errors.old errors.new)) result }
    // By the status, also after a fault.
    ensures ran { HasRan library (map string_bytes words.now) (io
        (across S.left S.faults input.old input.new)
        (across K.given K.faults output.old output.new)
        (across E.given E.faults errors.old errors.new)) result }
    // Each status has its cause.
    ensures causes { HasCause (io (across S.left S.faults input.old input.new)
        (across K.given K.faults output.old output.new)
        (across E.given E.faults errors.old errors.new)) result }
    ensures usage { result ≡ Status.Usage → is_session (map string_bytes words.now) ≡ false }
    ensures refused { is_session (map string_bytes words.now) ≡ false → (input.new ≡ input.old)
        × (output.new ≡ output.old) × ((result ≡ Status.Usage) ⊎ (result ≡ Status.WriteFault)) }
    ensures shelf { shelf.new ≡ shelf.old }
{
    session_run::run::<Desk<BookLinks>, F, S, K, E, L>(
        alloc, words, shelf, input, output, errors, steps,
    )
}
