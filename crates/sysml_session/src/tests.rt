//! Sessions over a project that has no room for texts, in pieces, and the same with each object failing.

ghost use Rattle.std.specs.Prelude.{◌≡◌, [], false, IfOk};
ghost use Rattle.book_model.specs.Answers.{line, no_file};

use crate::{AnswerFault, Answering, ServeFault, give_piece, serve};
use demand_core::{Counted, Ledger, Steps};
use element_store::{FileName, Text};
use linker_base::NoMemory;
use outside_core::{MemorySink, MemorySource, Sink};
use std::alloc::{AllocError, Global};
use std::test::Fail;

/// The sizes of pieces in which each script is read and each answer written.
const SIZES: [usize; 3] = [65_536, 1, 7];

/// A project without library and files. It has no memory for a text.
#[derive(Drop)]
struct Bare {
    alloc: Global,
}

/// The line that says that no text is present under a name.
fn no_file_line(alloc: Global, command: &[u8], name: &[u8]) -> Result<Vec<u8>, AllocError>
    ensures { IfOk result (λ v. v.items ≡ line command.now name.now no_file) }
{
    let mut text = command.to_vec(alloc)?;
    text.extend_from_slice(b" ")?;
    text.extend_from_slice(name)?;
    text.extend_from_slice(b" ")?;
    text.extend_from_slice(b"no file")?;
    text.extend_from_slice(b"\n")?;
    Ok(text)
}

impl Answering for Bare {
    ghost holding = { λ _. record { library = []; book = []; broken = false } };

    fn put<K: Sink, L: Ledger>(
        &mut self,
        _name: FileName,
        _text: Text,
        _output: &mut K,
        _steps: &mut Steps<L>,
    ) -> Result<(), AnswerFault> {
        Err(AnswerFault::NoMemory)
    }

    fn drop<K: Sink, L: Ledger>(
        &mut self,
        name: FileName,
        output: &mut K,
        _steps: &mut Steps<L>,
    ) -> Result<(), AnswerFault> {
        match no_file_line(self.alloc, b"drop", name.bytes()) {
            Ok(text) => give_piece(output, &text),
            Err(_) => Err(AnswerFault::NoMemory),
        }
    }

    fn links<K: Sink>(&mut self, name: &FileName, output: &mut K) -> Result<(), AnswerFault> {
        match no_file_line(self.alloc, b"links", name.bytes()) {
            Ok(text) => give_piece(output, &text),
            Err(_) => Err(AnswerFault::NoMemory),
        }
    }

    fn check<K: Sink>(&mut self, output: &mut K) -> Result<(), AnswerFault> {
        give_piece(output, b"check files 0 references 0 faults 0\n")
    }

    fn find<K: Sink>(&mut self, _words: &Text, _output: &mut K) -> Result<(), AnswerFault> {
        Err(AnswerFault::NoMemory)
    }

    fn implied<K: Sink>(&mut self, output: &mut K) -> Result<(), AnswerFault> {
        give_piece(output, b"implied 0\n")
    }

    fn print<K: Sink>(&mut self, name: &FileName, output: &mut K) -> Result<(), AnswerFault> {
        match no_file_line(self.alloc, b"print", name.bytes()) {
            Ok(text) => give_piece(output, &text),
            Err(_) => Err(AnswerFault::NoMemory),
        }
    }
}

/// How a session over the bare project ends, with objects that move at most `size` bytes a call, of which
/// the ones with these numbers fail.
fn ends(
    alloc: Global,
    script: &[u8],
    size: usize,
    fails: [&[u64]; 2],
    want: (&[u8], Result<(), ServeFault>),
) -> Result<bool, NoMemory> {
    let cuts = vec![in alloc; size; script.len() + 1]?;
    let mut input = MemorySource::new(script.to_vec(alloc)?, cuts, fails[0].to_vec(alloc)?);
    let cuts = vec![in alloc; size; 200]?;
    let mut output = MemorySink::new(alloc, 200, cuts, fails[1].to_vec(alloc)?)?;
    let mut steps = Steps::new(Counted::new());
    let result = serve(
        alloc,
        &mut Bare { alloc },
        &mut input,
        &mut output,
        &mut steps,
    );
    Ok(result == want.1 && output.given() == want.0)
}

/// With ample memory no call answers `NoMemory` but for a text, which this project can't keep.
#[test]
fn sessions_end_as_the_table_says(rt: HostRuntime) -> Result<(), Fail> {
    let counts = b"check files 0 references 0 faults 0\n".as_slice();
    let cases = [
        (b"end".as_slice(), b"end\n".as_slice(), Ok(())),
        (b"end\nmore", b"end\n", Ok(())),
        (b"", b"", Err(ServeFault::Script { at: 0 })),
        (
            b"drop a.kerml\nend\n",
            b"drop a.kerml no file\nend\n",
            Ok(()),
        ),
        (
            b"print a.sysml\nend\n",
            b"print a.sysml no file\nend\n",
            Ok(()),
        ),
        (
            b"links a.sysml\nen",
            b"links a.sysml no file\n",
            Err(ServeFault::Script { at: 16 }),
        ),
        (b"check\nEnd\n", counts, Err(ServeFault::Script { at: 6 })),
        (
            b"check\nput a.sysml 3\nabcd\n",
            counts,
            Err(ServeFault::Script { at: 23 }),
        ),
        (
            b"check\nput a.sysml 1048577\nabc",
            counts,
            Err(ServeFault::Limit { number: 1_048_576 }),
        ),
        (
            b"check\nput a.sysml 3\nabc\nend\n",
            counts,
            Err(ServeFault::NoMemory),
        ),
    ];
    for (script, answers, result) in cases {
        for size in SIZES {
            let ended = ends(rt.alloc(), script, size, [&[], &[]], (answers, result))?;
            assert!(rt; ended, "{script:?}, in pieces of {size}");
        }
    }
    Ok(())
}

/// The answers of commands that only ask.
#[test]
fn questions_are_answered(rt: HostRuntime) -> Result<(), Fail> {
    let cases = [
        (
            b"implied\nend\n".as_slice(),
            b"implied 0\nend\n".as_slice(),
            Ok(()),
        ),
        (b"implied \n", b"", Err(ServeFault::Script { at: 0 })),
    ];
    for (script, answers, result) in cases {
        for size in SIZES {
            let ended = ends(rt.alloc(), script, size, [&[], &[]], (answers, result))?;
            assert!(rt; ended, "{script:?}, in pieces of {size}");
        }
    }
    Ok(())
}

/// A line of 2,049 bytes is above its limit, and one of 2,048 is awaited.
#[test]
fn a_long_line_ends_the_session(rt: HostRuntime) -> Result<(), Fail> {
    for (count, want) in [
        (2048, ServeFault::Script { at: 2048 }),
        (2049, ServeFault::Limit { number: 2048 }),
    ] {
        let line = vec![in rt.alloc(); b'a'; count]?;
        for size in SIZES {
            assert!(rt; ends(rt.alloc(), &line, size, [&[], &[]], (b"", Err(want)))?);
        }
    }
    Ok(())
}

/// Each take fails in turn, and each give: a read fault with the answers of what is whole, a write fault
/// with a front of them.
#[test]
fn failing_objects_end_the_session(rt: HostRuntime) -> Result<(), Fail> {
    let script = b"links a.sysml\nend".as_slice();
    let answers = b"links a.sysml no file\nend\n".as_slice();
    for call in 1..19u64 {
        let given = if call <= 14 {
            &answers[..0]
        } else {
            &answers[..22]
        };
        let want = (given, Err(ServeFault::ReadFault));
        assert!(rt; ends(rt.alloc(), script, 1, [&[call], &[]], want)?);
    }
    for call in 1..27u64 {
        let want = (&answers[..call as usize - 1], Err(ServeFault::WriteFault));
        assert!(rt; ends(rt.alloc(), script, 1, [&[], &[call]], want)?);
    }
    assert!(rt; ends(rt.alloc(), script, 1, [&[19], &[27]], (answers, Ok(())))?);
    Ok(())
}
