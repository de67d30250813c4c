ghost use Rattle.std.specs.Prelude.{◌≡◌, ◌++◌, [], codes};
ghost use Rattle.std.specs.Fmt.{decimal};
ghost use Rattle.session_streams.specs.Moves.{GivesAll};
ghost use Rattle.session_streams.specs.Running.{line_of, status_of, Said};
ghost use Rattle.sysml_session.specs.Answered.{across};
ghost use Rattle.sysml_session.specs.Turns.{ending_of, fault_ending};

use itoa::Buffer;
use outside_core::{Failed, Sink, give_all};
use session_streams::Status;
use sysml_session::ServeFault;

/// Gives a whole piece. After a failure some front of it was given.
fn give<E: Sink>(errors: &mut E, piece: &[u8]) -> Result<(), Failed>
    ensures { GivesAll (across E.given E.faults errors.old errors.new) result piece.now }
{
    match give_all(errors, piece) {
        Ok(()) => Ok(()),
        Err(failed) => Err(failed),
    }
}

/// Gives a line, and then the status is this one. A failure to write it is a write fault.
pub(crate) fn say<E: Sink>(errors: &mut E, line: &[u8], status: Status) -> Status
    requires { line.now ≡ [] → ⊥ }
    ensures { Said (across E.given E.faults errors.old errors.new) line.now status result }
{
    match give(errors, line) {
        Ok(()) => status,
        Err(_) => Status::WriteFault,
    }
}

/// Gives a line of a text, a number and LF, and then the status is this one.
fn say_number<E: Sink>(errors: &mut E, text: &[u8], number: u64, status: Status) -> Status
    ensures { Said (across E.given E.faults errors.old errors.new)
        ((text.now ++ decimal number) ++ codes "\n") status result }
{
    let mut buffer = Buffer::new();
    let digits = buffer.format(number).as_bytes();
    match give(errors, text) {
        Err(_) => Status::WriteFault,
        Ok(()) => match give(errors, digits) {
            Err(_) => Status::WriteFault,
            Ok(()) => match give(errors, b"\n") {
                Err(_) => Status::WriteFault,
                Ok(()) => status,
            },
        },
    }
}

/// Says why a session didn't end with `end`.
fn say_fault<E: Sink>(errors: &mut E, fault: ServeFault) -> Status
    ensures { Said (across E.given E.faults errors.old errors.new) (line_of (fault_ending fault))
        (status_of (fault_ending fault)) result }
{
    match fault {
        ServeFault::ReadFault => say(errors, b"read fault\n", Status::ReadFault),
        ServeFault::WriteFault => Status::WriteFault,
        ServeFault::Script { at } => say_number(errors, b"script fault at ", at, Status::Script),
        ServeFault::Limit { number } => say_number(errors, b"limit ", number, Status::Limit),
        ServeFault::NoMemory => say(errors, b"no memory\n", Status::NoMemory),
    }
}

/// Says how a session ended.
pub(crate) fn report<E: Sink>(errors: &mut E, ended: Result<(), ServeFault>) -> Status
    ensures { Said (across E.given E.faults errors.old errors.new) (line_of (ending_of ended))
        (status_of (ending_of ended)) result }
{
    match ended {
        Ok(()) => Status::Done,
        Err(fault) => say_fault(errors, fault),
    }
}
