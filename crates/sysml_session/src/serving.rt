ghost use Rattle.std.specs.Prelude.{◌≡◌, ◌+◌, ◌≤◌, [], false, length};
ghost use Rattle.linker_base.specs.declared.limits.TheConstants.{INPUT_BYTES};
ghost use Rattle.session_streams.specs.Serving.{ServedFor};
ghost use Rattle.script_commands.specs.Lines.{command_of};
ghost use Rattle.script_commands.specs.Reading.{IsGood};
ghost use Rattle.sysml_session.specs.Answered.{across};
ghost use Rattle.sysml_session.specs.Turns.{sight, ending_of, fault_after, IsAnswered, IsTurnFrom};
ghost use Rattle.sysml_session.specs.Turns.{IsForward, HasCauses, HasServed, IsWritten, flow_after};

use crate::answering::{AnswerFault, Answering};
use crate::fault::ServeFault;
use demand_core::{Ledger, Steps};
use linker_base::limits::{FILE_BYTES, INPUT_BYTES, LINE_BYTES};
use outside_core::{Sink, Source, give_all};
use script_commands::{Command, ReadStop, ScriptReader};
use std::alloc::Global;

/// Whether a session goes on after a command.
#[derive(Clone, Copy, Debug, PartialEq, Eq)]
pub(crate) enum Flow {
    GoesOn,
    Ended,
}

/// Whether a session goes on after a command that isn't `end`.
fn flow_after(answered: Result<(), AnswerFault>) -> Result<Flow, ServeFault>
    ensures { result ≡ flow_after answered }
{
    match answered {
        Ok(()) => Ok(Flow::GoesOn),
        Err(AnswerFault::Limit { number }) => Err(ServeFault::Limit { number }),
        Err(AnswerFault::WriteFault) => Err(ServeFault::WriteFault),
        Err(AnswerFault::NoMemory) => Err(ServeFault::NoMemory),
    }
}

/// Why a session ends whose reading stopped.
fn after_stop(reader: &ScriptReader, stop: ReadStop) -> ServeFault
    ensures fault { result ≡ fault_after reader.now stop }
    ensures within { reader.now.used + length reader.now.pending ≤ INPUT_BYTES }
{
    let taken = reader.taken();
    match stop {
        ReadStop::LongLine => ServeFault::Limit {
            number: LINE_BYTES as u64,
        },
        ReadStop::NoForm | ReadStop::NoLineFeed => ServeFault::Script { at: reader.used() },
        ReadStop::LongText => ServeFault::Limit {
            number: FILE_BYTES as u64,
        },
        ReadStop::LongInput => ServeFault::Limit {
            number: INPUT_BYTES,
        },
        ReadStop::CutShort => ServeFault::Script { at: taken },
        ReadStop::ReadFault => ServeFault::ReadFault,
        ReadStop::NoMemory => ServeFault::NoMemory,
    }
}

/// Gives the answer of `end`.
fn give_end<K: Sink>(output: &mut K) -> Result<Flow, ServeFault>
    ensures { IsWritten (across K.given K.faults output.old output.new) result }
{
    match give_all(output, b"end\n") {
        Ok(()) => Ok(Flow::Ended),
        Err(_) => Err(ServeFault::WriteFault),
    }
}

/// Does a command, and gives its answer.
fn answer<P: Answering, K: Sink, L: Ledger>(
    project: &mut P,
    command: Command,
    output: &mut K,
    steps: &mut Steps<L>,
) -> Result<Flow, ServeFault>
    requires whole { (P.holding project.old).broken ≡ false }
    requires good { IsGood (command_of command) }
    ensures { IsAnswered (P.holding project.old) (P.holding project.new) (command_of command)
        (across K.given K.faults output.old output.new) result }
{
    match command {
        Command::Put { name, text } => flow_after(project.put(name, text, output, steps)),
        Command::Drop { name } => flow_after(project.drop(name, output, steps)),
        Command::Links { name } => flow_after(project.links(&name, output)),
        Command::Check => flow_after(project.check(output)),
        Command::Find { words } => flow_after(project.find(&words, output)),
        Command::Implied => flow_after(project.implied(output)),
        Command::Print { name } => flow_after(project.print(&name, output)),
        Command::End => give_end(output),
    }
}

/// Reads a command, does it and gives its answer.
fn turn<P: Answering, S: Source, K: Sink, L: Ledger>(
    reader: &mut ScriptReader,
    project: &mut P,
    input: &mut S,
    output: &mut K,
    steps: &mut Steps<L>,
) -> Result<Flow, ServeFault>
    requires whole { (P.holding project.old).broken ≡ false }
    ensures turned { IsTurnFrom
        (sight (P.holding project.old) reader.old (S.left input.old) (K.given output.old))
        (sight (P.holding project.new) reader.new (S.left input.new) (K.given output.new)) result }
    ensures forward { IsForward reader.old reader.new (P.holding project.new) result }
    ensures causes { HasCauses (across S.left S.faults input.old input.new)
        (across K.given K.faults output.old output.new) result }
{
    match reader.next(input) {
        Err(stop) => Err(after_stop(reader, stop)),
        Ok(command) => {
            let _ = reader.taken();
            answer(project, command, output, steps)
        }
    }
}

/// Serves with a reader that has read nothing.
fn serve_with<P: Answering, S: Source, K: Sink, L: Ledger>(
    reader: &mut ScriptReader,
    project: &mut P,
    input: &mut S,
    output: &mut K,
    steps: &mut Steps<L>,
) -> Result<(), ServeFault>
    requires whole { (P.holding project.old).broken ≡ false }
    requires fresh { reader.old ≡ record { used = 0; pending = [] } }
    ensures served { HasServed (P.holding project.old) (P.holding project.new)
        (across S.left S.faults input.old input.new)
        (across K.given K.faults output.old output.new) result }
    ensures causes { ServedFor (across S.left S.faults input.old input.new)
        (across K.given K.faults output.old output.new) (ending_of result) }
{
    loop {
        match turn(reader, project, input, output, steps) {
            Ok(Flow::GoesOn) => {}
            Ok(Flow::Ended) => return Ok(()),
            Err(fault) => return Err(fault),
        }
    }
}

/// Reads commands from the input, does each over the project and gives its answer to the output, until `end`.
///
/// Where nothing failed, the answers of the course of the input were given, and `Ok`, `Script` or `Limit` is
/// its ending. After `ReadFault` the answers of all commands that are whole in the bytes taken were given,
/// after `WriteFault` and `NoMemory` those of some first commands and a front of the next one's.
pub fn serve<P: Answering, S: Source, K: Sink, L: Ledger>(
    alloc: Global,
    project: &mut P,
    input: &mut S,
    output: &mut K,
    steps: &mut Steps<L>,
) -> Result<(), ServeFault>
    requires whole { (P.holding project.old).broken ≡ false }
    // What the session did, by its ending, and which book it left; over an input that tells its bytes.
    ensures served { HasServed (P.holding project.old) (P.holding project.new)
        (across S.left S.faults input.old input.new)
        (across K.given K.faults output.old output.new) result }
    // A read fault comes where the input failed alone, a write fault where the output did, and any other answer where
    // neither did.
    ensures causes { ServedFor (across S.left S.faults input.old input.new)
        (across K.given K.faults output.old output.new) (ending_of result) }
{
    match ScriptReader::new(alloc) {
        Ok(mut reader) => serve_with(&mut reader, project, input, output, steps),
        Err(_) => Err(ServeFault::NoMemory),
    }
}
