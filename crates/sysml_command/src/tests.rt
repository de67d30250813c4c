//! Rows of the specification through the top call, in pieces, and the same with each object failing.

ghost use Rattle.std.specs.Prelude.{Some};

use crate::{Status, run};
use demand_core::{Counted, Steps};
use outside_core::{Failed, MemorySink, MemorySource, Sink, Source, SteadyShelf};
use std::alloc::Global;

/// The calls that an object saw.
#[derive(Clone, Copy, Debug, PartialEq, Eq)]
struct Calls {
    made: u64,
    /// The number of the first one that failed.
    failed: Option<u64>,
}

const NO_CALLS: Calls = Calls {
    made: 0,
    failed: None,
};

impl Calls {
    /// These and one more.
    fn with(self, is_fault: bool) -> Calls {
        let made = self.made.saturating_add(1);
        let failed = match self.failed {
            None if is_fault => Some(made),
            before => before,
        };
        Calls { made, failed }
    }

    /// Whether this call was the first that failed and the last one.
    fn end_at_the_fault(self, call: u64) -> bool {
        self.made == call && self.failed == Some(call)
    }

    /// Whether there were so many, of which none failed.
    fn are_unharmed(self, made: u64) -> bool {
        self.made == made && self.failed.is_none()
    }
}

/// The calls of a run on each of its objects.
#[derive(Clone, Copy, Debug, PartialEq, Eq)]
struct RunCalls {
    input: Calls,
    output: Calls,
    errors: Calls,
}

/// A source that counts its calls.
#[derive(Drop)]
struct CountedSource {
    source: MemorySource,
    calls: Calls,
}

impl Source for CountedSource {
    ghost left = { λ s. Some s.source.left };

    ghost faults = { λ s. s.source.faults };

    fn take(&mut self, into: &mut [u8]) -> Result<usize, Failed> {
        let taken = self.source.take(into);
        self.calls = self.calls.with(taken.is_err());
        taken
    }
}

/// A sink that counts its calls.
#[derive(Drop)]
struct CountedSink {
    sink: MemorySink,
    calls: Calls,
}

impl Sink for CountedSink {
    ghost given = { λ s. Some s.sink.given };

    ghost faults = { λ s. s.sink.faults };

    fn give(&mut self, piece: &[u8]) -> Result<usize, Failed> {
        let given = self.sink.give(piece);
        self.calls = self.calls.with(given.is_err());
        given
    }
}

/// How the objects of a run move bytes and fail.
#[derive(Clone, Copy)]
struct Plan {
    /// The greatest number of bytes of a call.
    piece: usize,
    /// The calls that fail, by their numbers from 1; 0 for none.
    input: u64,
    output: u64,
    errors: u64,
    /// For how many bytes the output has room.
    room: usize,
}

/// More bytes than any input or output here has.
const WHOLE: usize = 500;

const STEADY: Plan = Plan {
    piece: WHOLE,
    input: 0,
    output: 0,
    errors: 0,
    room: WHOLE,
};

/// What a run left.
#[derive(Drop)]
struct Ran {
    status: Status,
    input: CountedSource,
    output: CountedSink,
    errors: CountedSink,
}

impl Ran {
    /// Whether these are the status, the output and the errors.
    fn is(&self, status: Status, output: &[u8], errors: &[u8]) -> bool {
        self.status == status
            && self.output.sink.given() == output
            && self.errors.sink.given() == errors
    }

    fn calls(&self) -> RunCalls {
        RunCalls {
            input: self.input.calls,
            output: self.output.calls,
            errors: self.errors.calls,
        }
    }
}

/// As many cuts of this size as there may be calls.
fn cuts(alloc: Global, piece: usize) -> Option<Vec<usize>> {
    vec![in alloc; piece; WHOLE].ok()
}

fn source(alloc: Global, script: &[u8], plan: Plan) -> Option<CountedSource> {
    let bytes = script.to_vec(alloc).ok()?;
    let fails = [plan.input].to_vec(alloc).ok()?;
    Some(CountedSource {
        source: MemorySource::new(bytes, cuts(alloc, plan.piece)?, fails),
        calls: NO_CALLS,
    })
}

fn sink(alloc: Global, room: usize, piece: usize, fail: u64) -> Option<CountedSink> {
    let fails = [fail].to_vec(alloc).ok()?;
    Some(CountedSink {
        sink: MemorySink::new(alloc, room, cuts(alloc, piece)?, fails).ok()?,
        calls: NO_CALLS,
    })
}

/// Runs the program on these words and this script; None for want of memory before it.
fn run_on(alloc: Global, words: &[&str], script: &[u8], plan: Plan) -> Option<Ran> {
    let mut owned = Vec::new(alloc);
    for word in words {
        owned.push(word.to_string(alloc).ok()?).ok()?;
    }
    let mut shelf = SteadyShelf::new(Vec::new(alloc), Vec::new(alloc));
    let mut input = source(alloc, script, plan)?;
    let mut output = sink(alloc, plan.room, plan.piece, plan.output)?;
    let mut errors = sink(alloc, WHOLE, plan.piece, plan.errors)?;
    let mut steps = Steps::new(Counted::new());
    let status = run(
        alloc,
        &owned,
        &mut shelf,
        &mut input,
        &mut output,
        &mut errors,
        &mut steps,
    );
    Some(Ran {
        status,
        input,
        output,
        errors,
    })
}

/// A script, and what a session makes of it.
#[derive(Clone, Copy)]
struct Row {
    script: &'static [u8],
    output: &'static [u8],
    errors: &'static [u8],
    status: Status,
}

const LINKED: Row = Row {
    script: b"put a.sysml 42\npackage P { part def A; part def B :> A; }\nlinks a.sysml\nend\n",
    output: b"put a.sysml elements 3 references 1\n1:39 subclass A -> linked a.sysml P::A\nlinks a.sysml 1\nend\n",
    errors: b"",
    status: Status::Done,
};

const AMBIGUOUS: Row = Row {
    script: b"put a.sysml 54\npackage P { part def A; part def A; part def B :> A; }\nlinks a.sysml\nend\n",
    output: b"put a.sysml elements 4 references 1\n1:51 subclass A -> ambiguous 1 a.sysml:1:13 a.sysml:1:25\nlinks a.sysml 1\nend\n",
    errors: b"",
    status: Status::Done,
};

const UNFINISHED: Row = Row {
    script: b"links x.sysml\nChecks\n",
    output: b"links x.sysml no file\n",
    errors: b"script fault at 14\n",
    status: Status::Script,
};

/// Both languages, a file that is refused, a drop, and what is wrong then.
const ALL_COMMANDS: Row = Row {
    script: b"put a.kerml 22\nclass A; class B :> Z;\nput b.sysml 15\npart x : A;\nend\ncheck\ndrop a.kerml\ndrop a.kerml\nput c.sysml 15\npart y : x::~X;\nput b.sysml 11\npart x : A;\ncheck\nend",
    output: b"put a.kerml elements 2 references 1\nput b.sysml refused 2:4 Syntax\na.kerml:1:21 subclass Z -> absent 1\nb.sysml:2:4 refused Syntax\ncheck files 2 references 1 faults 2\ndrop a.kerml done\ndrop a.kerml no file\nput c.sysml refused 1:13 Syntax\nput b.sysml elements 1 references 1\nb.sysml:1:10 typing A -> absent 1\nc.sysml:1:13 refused Syntax\ncheck files 2 references 1 faults 2\nend\n",
    errors: b"",
    status: Status::Done,
};

/// The file that was put last has the least member.
const OTHER_ORDER: Row = Row {
    script: b"put b.sysml 25\npackage P { part def A; }\nput a.sysml 25\npackage P { part def Z; }\nput c.sysml 30\npackage Q { part def B :> P; }\nlinks c.sysml\nend\n",
    output: b"put b.sysml elements 2 references 0\nput a.sysml elements 2 references 0\nput c.sysml elements 2 references 1\n1:27 subclass P -> ambiguous 1 a.sysml:1:1 b.sysml:1:1\nlinks c.sysml 1\nend\n",
    errors: b"",
    status: Status::Done,
};

/// A name that hangs on itself.
const CYCLIC: Row = Row {
    script: b"put a.kerml 29\nalias a for b; alias b for a;\nlinks a.kerml\nend\n",
    output: b"put a.kerml elements 0 references 2\n1:13 alias b -> cyclic a.kerml:1:28\n1:28 alias a -> cyclic a.kerml:1:13\nlinks a.kerml 2\nend\n",
    errors: b"",
    status: Status::Done,
};

/// Names that are asked for, two of which are none.
const FINDS: Row = Row {
    script: b"put a.sysml 50\npackage P { part def 'a b'; part def B :> 'a b'; }\nfind P::B\nfind $::P::'a b' // x\nfind P::C\nfind \nfind P::\nend\n",
    output: b"put a.sysml elements 3 references 1\nfind P::B -> linked a.sysml P::B\nfind $::P::'a b' -> linked a.sysml P::'a b'\nfind P::C -> absent 2\nfind bad name\nfind bad name\nend\n",
    errors: b"",
    status: Status::Done,
};

/// A text is longer than it may be.
const LONG_TEXT: Row = Row {
    script: b"put a.kerml 1048577\nclass",
    output: b"",
    errors: b"limit 1048576\n",
    status: Status::Limit,
};

/// Runs a session on the row's script.
fn session(alloc: Global, row: Row, plan: Plan) -> Option<Ran> {
    run_on(alloc, &["sysml", "session"], row.script, plan)
}

/// Whether a session in pieces of this size makes of the script what the row says.
fn is_answered(alloc: Global, row: Row, piece: usize) -> bool {
    match session(alloc, row, Plan { piece, ..STEADY }) {
        Some(ran) => ran.is(row.status, row.output, row.errors),
        None => false,
    }
}

#[test]
fn rows_are_answered_in_pieces_of_any_size(rt: HostRuntime) {
    let rows = [
        LINKED,
        AMBIGUOUS,
        UNFINISHED,
        ALL_COMMANDS,
        OTHER_ORDER,
        CYCLIC,
        FINDS,
        LONG_TEXT,
    ];
    for (number, row) in rows.iter().enumerate() {
        for piece in [WHOLE, 1, 7] {
            assert!(rt;
                is_answered(rt.alloc(), *row, piece),
                "row {number} in pieces of {piece}"
            );
        }
    }
}

const USAGE: &[u8] = b"usage: sysml session | check FILE.. | links FILE.. | print FILE..\n";

/// Whether these words get the usage line, and nothing is asked of the input and the output. The errors
/// fail at this call.
fn is_refused(alloc: Global, words: &[&str], errors: u64) -> bool {
    let Some(ran) = run_on(alloc, words, LINKED.script, Plan { errors, ..STEADY }) else {
        return false;
    };
    let calls = ran.calls();
    let is_right = if errors == 0 {
        ran.is(Status::Usage, b"", USAGE)
    } else {
        ran.is(Status::WriteFault, b"", b"") && calls.errors.end_at_the_fault(errors)
    };
    is_right && calls.input == NO_CALLS && calls.output == NO_CALLS && calls.errors.made == 1
}

#[test]
fn other_words_get_the_usage_line(rt: HostRuntime) {
    let lists: [&[&str]; 6] = [
        &[],
        &["session"],
        &["sysml", "session", "session"],
        &["sysml", "check"],
        &["sysml", "Session"],
        &["sysml", "sessions"],
    ];
    for (number, words) in lists.iter().enumerate() {
        for errors in [0, 1] {
            assert!(rt; is_refused(rt.alloc(), words, errors), "words {number}");
        }
    }
}

/// What a run leaves: its status, and how many bytes of the row's output and of the line on the errors.
#[derive(Clone, Copy)]
struct Left {
    status: Status,
    output: usize,
    errors: usize,
}

/// Whether these are the first bytes of the whole, and so many.
fn is_front(given: &[u8], whole: &[u8], count: usize) -> bool {
    given.len() == count && whole.starts_with(given)
}

/// The calls of a session on the row's script, if it leaves this; `line` is the line on the errors.
fn calls_of(alloc: Global, row: Row, line: &[u8], plan: Plan, left: Left) -> Option<RunCalls> {
    let ran = session(alloc, row, plan)?;
    let is_left = ran.status == left.status
        && is_front(ran.output.sink.given(), row.output, left.output)
        && is_front(ran.errors.sink.given(), line, left.errors);
    if is_left { Some(ran.calls()) } else { None }
}

const READ_FAULT: &[u8] = b"read fault\n";

/// Of the linked row: how many bytes of output answer the commands that are whole in so many bytes of input.
fn answered(taken: usize) -> usize {
    match taken {
        0..58 => 0,
        58..72 => 36,
        72..76 => 91,
        _ => 95,
    }
}

/// Whether the linked row in pieces of this size is a read fault where the input fails after so many calls.
fn is_read_fault(alloc: Global, piece: usize, before: u64) -> bool {
    let call = before.saturating_add(1);
    let plan = Plan {
        piece,
        input: call,
        ..STEADY
    };
    let left = Left {
        status: Status::ReadFault,
        output: answered(piece.saturating_mul(before as usize)),
        errors: 11,
    };
    match calls_of(alloc, LINKED, READ_FAULT, plan, left) {
        Some(calls) => calls.input.end_at_the_fault(call) && calls.output.failed.is_none(),
        None => false,
    }
}

/// The number of calls on the input and on the output of the linked row in pieces of this size, where none
/// of them fails before the next one.
fn whole_calls(alloc: Global, piece: usize, input: u64, output: u64) -> bool {
    let plan = Plan {
        piece,
        input: input.saturating_add(1),
        output: output.saturating_add(1),
        ..STEADY
    };
    let left = Left {
        status: Status::Done,
        output: 95,
        errors: 0,
    };
    match calls_of(alloc, LINKED, b"", plan, left) {
        Some(calls) => {
            calls.input.are_unharmed(input)
                && calls.output.are_unharmed(output)
                && calls.errors == NO_CALLS
        }
        None => false,
    }
}

#[test]
fn a_failing_input_leaves_the_whole_answers(rt: HostRuntime) {
    for (piece, input, output) in [(7, 11, 16), (1, 76, 95), (WHOLE, 1, 4)] {
        for before in 0..input {
            assert!(rt;
                is_read_fault(rt.alloc(), piece, before),
                "call {before} in pieces of {piece}"
            );
        }
        assert!(rt;
            whole_calls(rt.alloc(), piece, input, output),
            "in pieces of {piece}"
        );
    }
}

/// Whether a row in pieces of this size is a write fault after so many bytes of output, where the output
/// fails at this call.
fn is_write_fault(alloc: Global, row: Row, plan: Plan, call: u64, given: usize) -> bool {
    let left = Left {
        status: Status::WriteFault,
        output: given,
        errors: 0,
    };
    match calls_of(alloc, row, b"", plan, left) {
        Some(calls) => {
            calls.input.failed.is_none()
                && calls.output.end_at_the_fault(call)
                && calls.errors == NO_CALLS
        }
        None => false,
    }
}

#[test]
fn a_failing_output_leaves_a_prefix(rt: HostRuntime) {
    let sevens = [0, 7, 14, 21, 28, 35, 36, 43, 50, 57, 64, 71, 75, 82, 89, 91];
    for (before, given) in sevens.iter().enumerate() {
        let call = (before as u64).saturating_add(1);
        let plan = Plan {
            piece: 7,
            output: call,
            ..STEADY
        };
        assert!(rt;
            is_write_fault(rt.alloc(), LINKED, plan, call, *given),
            "call {call}"
        );
    }
    // The pieces end at 36, 75, 91 and 95. Each call gives all that there is room for, and the next one fails.
    for room in 0..95 {
        let calls = if room < 36 {
            1
        } else if room < 75 {
            2
        } else if room < 91 {
            3
        } else {
            4
        };
        let is_at_an_end = room == 0 || room == 36 || room == 75 || room == 91;
        let call = if is_at_an_end { calls } else { calls + 1 };
        let plan = Plan { room, ..STEADY };
        assert!(rt;
            is_write_fault(rt.alloc(), LINKED, plan, call, room),
            "room for {room}"
        );
    }
}

/// Whether failing errors make a write fault of a row's session, after so many bytes of output and of the line.
fn is_unsaid(alloc: Global, row: Row, line: &[u8], plan: Plan, output: usize, said: usize) -> bool {
    let left = Left {
        status: Status::WriteFault,
        output,
        errors: said,
    };
    match calls_of(alloc, row, line, plan, left) {
        Some(calls) => {
            (plan.input == 0 || calls.input.end_at_the_fault(plan.input))
                && calls.output.failed.is_none()
                && calls.errors.end_at_the_fault(plan.errors)
        }
        None => false,
    }
}

#[test]
fn failing_errors_are_a_write_fault(rt: HostRuntime) {
    for (errors, said) in [(1, 0), (2, 7)] {
        for (input, output) in [(1, 0), (9, 0), (10, 36), (11, 36)] {
            let plan = Plan {
                piece: 7,
                input,
                errors,
                ..STEADY
            };
            assert!(rt;
                is_unsaid(rt.alloc(), LINKED, READ_FAULT, plan, output, said),
                "{input} {errors}"
            );
        }
    }
    // The line with the place is given in three parts.
    for (errors, said) in [(1, 0), (2, 16), (3, 18)] {
        let plan = Plan { errors, ..STEADY };
        assert!(rt;
            is_unsaid(rt.alloc(), UNFINISHED, UNFINISHED.errors, plan, 22, said),
            "{errors}"
        );
    }
}

/// What is found is given in one piece each.
#[test]
fn a_failing_output_leaves_a_prefix_of_what_is_found(rt: HostRuntime) {
    let ends = [0, 36, 69, 113, 135, 149, 163];
    for (before, given) in ends.iter().enumerate() {
        let call = (before as u64).saturating_add(1);
        let plan = Plan {
            output: call,
            ..STEADY
        };
        assert!(rt;
            is_write_fault(rt.alloc(), FINDS, plan, call, *given),
            "call {call}"
        );
    }
    // In pieces of one byte each call gives one.
    for given in 0..167 {
        let call = (given as u64).saturating_add(1);
        let plan = Plan {
            piece: 1,
            output: call,
            ..STEADY
        };
        assert!(rt;
            is_write_fault(rt.alloc(), FINDS, plan, call, given),
            "after {given}"
        );
    }
}
