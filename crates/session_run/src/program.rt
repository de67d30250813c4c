ghost use Rattle.std.specs.Prelude.{◌≡◌, ◌⊎◌, false, map, string_bytes};
ghost use Rattle.session_streams.specs.Running.{HasCause, is_session};
ghost use Rattle.session_streams.specs.Serving.{ServedFor};
ghost use Rattle.sysml_session.specs.Answered.{across};
ghost use Rattle.sysml_session.specs.Turns.{ending_of};
ghost use Rattle.session_run.specs.Clauses.{HasRan, Quiet, ServesNew, io};

use crate::opening::Opening;
use crate::saying::{report, say};
use demand_core::{Ledger, Steps};
use outside_core::{Shelf, Sink, Source};
use session_streams::Status;
use std::alloc::Global;
use sysml_session::{ServeFault, serve};

/// Whether the words are two with `session` as the second.
fn are_session(words: &[String]) -> bool
    ensures { result ≡ is_session (map string_bytes words.now) }
{
    words.len() == 2 && words[1].as_bytes() == b"session".as_slice()
}

/// Serves the script on `input` over a new project.
fn serve_project<P: Opening + Drop, S: Source, K: Sink, L: Ledger>(
    alloc: Global,
    input: &mut S,
    output: &mut K,
    steps: &mut Steps<L>,
) -> Result<(), ServeFault>
    ensures served { ServesNew P.library (across S.left S.faults input.old input.new)
        (across K.given K.faults output.old output.new) (ending_of result) }
    ensures causes { ServedFor (across S.left S.faults input.old input.new)
        (across K.given K.faults output.old output.new) (ending_of result) }
{
    match P::open(alloc, steps) {
        Ok(mut project) => serve(alloc, &mut project, input, output, steps),
        Err(_) => Err(ServeFault::NoMemory),
    }
}

/// The program: a script on `input`, its answers on `output`, one line on `errors` where it fails.
///
/// `words` are the program's name and the word `session`.
pub fn run<P: Opening + Drop, F: Shelf, S: Source, K: Sink, E: Sink, L: Ledger>(
    alloc: Global,
    words: &[String],
    shelf: &mut F,
    input: &mut S,
    output: &mut K,
    errors: &mut E,
    steps: &mut Steps<L>,
) -> Status
    // Where no count of faults rises: output, errors and status are those of the words and of the course of the input,
    // or memory was wanting.
    ensures quiet { Quiet P.library (map string_bytes words.now) (io
        (across S.left S.faults input.old input.new)
        (across K.given K.faults output.old output.new)
        (across E.given E.faults errors.old errors.new)) result }
    // By the status, also after a fault.
    ensures ran { HasRan P.library (map string_bytes words.now) (io
        (across S.left S.faults input.old input.new)
        (across K.given K.faults output.old output.new)
        (across E.given E.faults errors.old errors.new)) result }
    // Each status has its cause.
    ensures causes { HasCause (io (across S.left S.faults input.old input.new)
        (across K.given K.faults output.old output.new)
        (across E.given E.faults errors.old errors.new)) result }
    ensures usage { result ≡ Status.Usage → is_session (map string_bytes words.now) ≡ false }
    ensures refused { is_session (map string_bytes words.now) ≡ false → (input.new ≡ input.old)
        × (output.new ≡ output.old) × ((result ≡ Status.Usage) ⊎ (result ≡ Status.WriteFault)) }
    ensures shelf { shelf.new ≡ shelf.old }
{
    let _ = shelf;
    if !are_session(words) {
        return say(
            errors,
            b"usage: sysml session | check FILE.. | links FILE.. | print FILE..\n",
            Status::Usage,
        );
    }
    let ended = serve_project::<P, S, K, L>(alloc, input, output, steps);
    report(errors, ended)
}
