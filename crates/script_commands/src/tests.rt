use crate::{Command, ReadStop, ScriptReader};
use outside_core::MemorySource;
use std::alloc::{AllocError, Global};
use std::test::Fail;

/// The sizes of pieces in which each script is read: whole, byte by byte, and across the bounds of lines.
const SIZES: [usize; 3] = [65_536, 1, 7];

/// A source of these bytes that moves at most `size` bytes a call, and fails at these calls.
fn source(
    alloc: Global,
    bytes: &[u8],
    size: usize,
    fails: &[u64],
) -> Result<MemorySource, AllocError> {
    let cuts = vec![in alloc; size; bytes.len()]?;
    Ok(MemorySource::new(bytes.to_vec(alloc)?, cuts, fails.to_vec(alloc)?))
}

/// Whether this is the command with this word, name and text.
fn is_command(command: &Command, (word, name, text): (&[u8], &[u8], &[u8])) -> bool {
    match command {
        Command::Put {
            name: put,
            text: held,
        } => { word == b"put".as_slice() && put.bytes() == name && held.bytes() == text }
        Command::Drop { name: dropped } => word == b"drop".as_slice() && dropped.bytes() == name,
        Command::Links { name: listed } => word == b"links".as_slice() && listed.bytes() == name,
        Command::Check => word == b"check".as_slice(),
        Command::Find { words } => word == b"find".as_slice() && words.bytes() == text,
        Command::Implied => word == b"implied".as_slice(),
        Command::Print { name: printed } => word == b"print".as_slice() && printed.bytes() == name,
        Command::End => word == b"end".as_slice(),
    }
}

/// With ample memory no call answers `NoMemory`.
#[test]
fn each_command_is_read_in_pieces_of_any_size(rt: HostRuntime) -> Result<(), Fail> {
    let script =
        b"put a.sysml 10\npackage P;\nput b.kerml 0\n\ndrop a.sysml\nlinks b.kerml\ncheck\nfind a::b \r\nimplied\nprint b.kerml\nend\nmore";
    let commands = [
        (
            b"put".as_slice(),
            b"a.sysml".as_slice(),
            b"package P;".as_slice(),
            26,
        ),
        (b"put", b"b.kerml", b"", 41),
        (b"drop", b"a.sysml", b"", 54),
        (b"links", b"b.kerml", b"", 68),
        (b"check", b"", b"", 74),
        (b"find", b"", b"a::b \r", 86),
        (b"implied", b"", b"", 94),
        (b"print", b"b.kerml", b"", 108),
        (b"end", b"", b"", 112),
    ];
    for size in SIZES {
        let mut input = source(rt.alloc(), script, size, &[])?;
        let mut reader = ScriptReader::new(rt.alloc())?;
        for (word, name, text, used) in commands {
            let Ok(command) = reader.next(&mut input) else {
                panic!(rt; "a command, in pieces of {size}")
            };
            assert!(rt;
                is_command(&command, (word, name, text)),
                "in pieces of {size}"
            );
            assert!(rt; reader.used() == used, "in pieces of {size}");
        }
        assert!(rt; reader.next(&mut input).err() == Some(ReadStop::CutShort));
    }
    Ok(())
}

/// What stands where a reading stops, why it stops, and where the reader stands then.
#[test]
fn other_scripts_stop_for_their_reason(rt: HostRuntime) -> Result<(), Fail> {
    let cases = [
        (b"put a.sysml 03\nabc\n".as_slice(), ReadStop::NoForm, 0),
        (b"put a.sysml 1048577\n", ReadStop::LongText, 0),
        (b"put a.sysml 9999999999\n", ReadStop::LongText, 0),
        (b"put a.sysml 10000000000\n", ReadStop::NoForm, 0),
        (b"put a.sysml 1048576\n", ReadStop::CutShort, 20),
        (b"put a.sysml 3\nabcd\n", ReadStop::NoLineFeed, 17),
        (b"put a.sysml 3\nabc", ReadStop::CutShort, 17),
        (b"put a.sysml 3\nab", ReadStop::CutShort, 16),
        (b"put a.sysml 3 \nabc\n", ReadStop::NoForm, 0),
        (b"put a.sysml\nabc\n", ReadStop::NoForm, 0),
        (b"put -a.sysml 3\nabc\n", ReadStop::NoForm, 0),
        (b"links a.sysml", ReadStop::CutShort, 0),
        (b"links\n", ReadStop::NoForm, 0),
        (b"drop a.xml\n", ReadStop::NoForm, 0),
        (b"check \n", ReadStop::NoForm, 0),
        (b"End\n", ReadStop::NoForm, 0),
        (b"en", ReadStop::CutShort, 0),
        (b"", ReadStop::CutShort, 0),
    ];
    for (script, want, used) in cases {
        for size in SIZES {
            let mut input = source(rt.alloc(), script, size, &[])?;
            let mut reader = ScriptReader::new(rt.alloc())?;
            let stop = reader.next(&mut input).err();
            assert!(rt; stop == Some(want), "{script:?}, in pieces of {size}");
            assert!(rt; reader.used() == used, "{script:?}, in pieces of {size}");
        }
    }
    Ok(())
}

/// The last line may lack its LF where it is `end`; a line of 2,049 bytes isn't awaited any longer, and one
/// of 2,048 is.
#[test]
fn lines_without_a_line_feed(rt: HostRuntime) -> Result<(), Fail> {
    for size in SIZES {
        let mut input = source(rt.alloc(), b"end", size, &[])?;
        let mut reader = ScriptReader::new(rt.alloc())?;
        assert!(rt; matches!(reader.next(&mut input), Ok(Command::End)));
        assert!(rt; reader.used() == 3);
        for (count, want) in [(2048, ReadStop::CutShort), (2049, ReadStop::LongLine)] {
            let line = vec![in rt.alloc(); b'a'; count]?;
            let mut input = source(rt.alloc(), &line, size, &[])?;
            let stop = ScriptReader::new(rt.alloc())?.next(&mut input).err();
            assert!(rt; stop == Some(want), "{count} bytes, in pieces of {size}");
        }
    }
    Ok(())
}

/// A failed take is a read fault, also where `end` is pending.
#[test]
fn a_failed_take_is_a_read_fault(rt: HostRuntime) -> Result<(), Fail> {
    for call in 1..4 {
        let mut input = source(rt.alloc(), b"end", 1, &[call])?;
        let mut reader = ScriptReader::new(rt.alloc())?;
        assert!(rt; reader.next(&mut input).err() == Some(ReadStop::ReadFault));
    }
    let mut input = source(rt.alloc(), b"end", 1, &[4])?;
    let stop = ScriptReader::new(rt.alloc())?.next(&mut input).err();
    assert!(rt; stop == Some(ReadStop::ReadFault));
    Ok(())
}
