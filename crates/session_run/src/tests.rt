//! The program over a project that has no room for texts, in pieces, and with wrong words.

ghost use Rattle.std.specs.Prelude.{◌≡◌, [], false, IfOk};
ghost use Rattle.book_model.specs.Answers.{line, no_file};

use crate::{Opening, Status, exit_code, run};
use demand_core::{Counted, Ledger, Steps};
use element_store::{FileName, Text};
use linker_base::NoMemory;
use outside_core::{MemorySink, MemorySource, Sink, SteadyShelf};
use std::alloc::{AllocError, Global};
use std::test::Fail;
use sysml_session::{AnswerFault, Answering, give_piece};

/// The sizes of pieces in which each script is read and each answer written.
const SIZES: [usize; 3] = [65_536, 1, 7];

/// A project without library and files. It has no memory for a text.
#[derive(Drop)]
struct Bare {
    alloc: Global,
}

/// The line that says that no text is present under a name.
fn no_file_line(alloc: Global, command: &[u8], name: &[u8]) -> Result<Vec<u8>, AllocError>
    ensures { IfOk result (λ v. v.items ≡ line command.now name.now no_file) }
{
    let mut text = command.to_vec(alloc)?;
    text.extend_from_slice(b" ")?;
    text.extend_from_slice(name)?;
    text.extend_from_slice(b" ")?;
    text.extend_from_slice(b"no file")?;
    text.extend_from_slice(b"\n")?;
    Ok(text)
}

impl Answering for Bare {
    ghost holding = { λ _. record { library = []; book = []; broken = false } };

    fn put<K: Sink, L: Ledger>(
        &mut self,
        _name: FileName,
        _text: Text,
        _output: &mut K,
        _steps: &mut Steps<L>,
    ) -> Result<(), AnswerFault> {
        Err(AnswerFault::NoMemory)
    }

    fn drop<K: Sink, L: Ledger>(
        &mut self,
        name: FileName,
        output: &mut K,
        _steps: &mut Steps<L>,
    ) -> Result<(), AnswerFault> {
        match no_file_line(self.alloc, b"drop", name.bytes()) {
            Ok(text) => give_piece(output, &text),
            Err(_) => Err(AnswerFault::NoMemory),
        }
    }

    fn links<K: Sink>(&mut self, name: &FileName, output: &mut K) -> Result<(), AnswerFault> {
        match no_file_line(self.alloc, b"links", name.bytes()) {
            Ok(text) => give_piece(output, &text),
            Err(_) => Err(AnswerFault::NoMemory),
        }
    }

    fn check<K: Sink>(&mut self, output: &mut K) -> Result<(), AnswerFault> {
        give_piece(output, b"check files 0 references 0 faults 0\n")
    }

    fn find<K: Sink>(&mut self, _words: &Text, _output: &mut K) -> Result<(), AnswerFault> {
        Err(AnswerFault::NoMemory)
    }

    fn implied<K: Sink>(&mut self, output: &mut K) -> Result<(), AnswerFault> {
        give_piece(output, b"implied 0\n")
    }

    fn print<K: Sink>(&mut self, name: &FileName, output: &mut K) -> Result<(), AnswerFault> {
        match no_file_line(self.alloc, b"print", name.bytes()) {
            Ok(text) => give_piece(output, &text),
            Err(_) => Err(AnswerFault::NoMemory),
        }
    }
}

impl Opening for Bare {
    ghost library = { [] };

    fn open<L: Ledger>(alloc: Global, _steps: &mut Steps<L>) -> Result<Bare, NoMemory> {
        Ok(Bare { alloc })
    }
}

/// What a run gives: its answers, the line on the errors, and the status.
#[derive(Clone, Copy)]
struct Ran<'a> {
    answers: &'a [u8],
    errors: &'a [u8],
    status: Status,
}

/// Whether a run over these words and this script gives that, with objects that move at most `size` bytes a
/// call.
fn gives(
    alloc: Global,
    words: &[&str],
    script: &[u8],
    size: usize,
    want: &Ran,
) -> Result<bool, NoMemory> {
    let mut owned = Vec::new(alloc);
    for word in words {
        owned.push(word.to_string(alloc)?)?;
    }
    let mut shelf = SteadyShelf::new(Vec::new(alloc), Vec::new(alloc));
    let cuts = vec![in alloc; size; script.len() + 1]?;
    let mut input = MemorySource::new(script.to_vec(alloc)?, cuts, Vec::new(alloc));
    let cuts = vec![in alloc; size; 200]?;
    let mut output = MemorySink::new(alloc, 200, cuts, Vec::new(alloc))?;
    let cuts = vec![in alloc; size; 200]?;
    let mut errors = MemorySink::new(alloc, 200, cuts, Vec::new(alloc))?;
    let mut steps = Steps::new(Counted::new());
    let status = run::<Bare, _, _, _, _, _>(
        alloc,
        &owned,
        &mut shelf,
        &mut input,
        &mut output,
        &mut errors,
        &mut steps,
    );
    Ok(status == want.status && output.given() == want.answers && errors.given() == want.errors)
}

/// Whether a run gives that in pieces of each size.
fn gives_always(
    alloc: Global,
    words: &[&str],
    script: &[u8],
    want: &Ran,
) -> Result<bool, NoMemory> {
    for size in SIZES {
        if !gives(alloc, words, script, size, want)? {
            return Ok(false);
        }
    }
    Ok(true)
}

/// With ample memory no run ends for want of it.
#[test]
fn runs_end_as_their_scripts_say(rt: HostRuntime) -> Result<(), Fail> {
    let cases = [
        (
            b"end".as_slice(),
            b"end\n".as_slice(),
            b"".as_slice(),
            Status::Done,
        ),
        (
            b"drop a.kerml\nEnd\n",
            b"drop a.kerml no file\n",
            b"script fault at 13\n",
            Status::Script,
        ),
        (
            b"put a.sysml 1048577\nabc",
            b"",
            b"limit 1048576\n",
            Status::Limit,
        ),
    ];
    for (script, answers, errors, status) in cases {
        let want = Ran {
            answers,
            errors,
            status,
        };
        let right = gives_always(rt.alloc(), &["sysml", "session"], script, &want)?;
        assert!(rt; right, "{script:?}");
    }
    Ok(())
}

/// Other words get the usage line, and no script is read.
#[test]
fn other_words_get_the_usage_line(rt: HostRuntime) -> Result<(), Fail> {
    let want = Ran {
        answers: b"",
        errors: b"usage: sysml session | check FILE.. | links FILE.. | print FILE..\n",
        status: Status::Usage,
    };
    assert!(rt; gives_always(rt.alloc(), &["sysml"], b"end", &want)?);
    assert!(rt; gives_always(rt.alloc(), &["sysml", "session", "now"], b"end", &want)?);
    Ok(())
}

/// Each status has an exit code of its own.
#[test]
fn exit_codes_are_the_documented_ones(rt: HostRuntime) -> Result<(), Fail> {
    assert!(rt; exit_code(Status::Done) == 0 && exit_code(Status::Limit) == 7);
    Ok(())
}
