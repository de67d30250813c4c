use crate::{
    Failed, MemorySink, MemorySource, Shelf, ShelfFault, Sink, Source, StdSink, StdSource,
    SteadyShelf, give_all,
};
use std::io::{self, ErrorKind, Read, Write};
use std::test::Fail;

/// A stream of which each call fails.
#[derive(Drop)]
struct Broken;

impl Read for Broken {
    fn read(&mut self, _buf: &mut [u8]) -> io::Result<usize> {
        Err(io::Error::from(ErrorKind::Other))
    }
}

/// A writer that takes nothing.
#[derive(Drop)]
struct Full;

impl Write for Full {
    fn write(&mut self, _buf: &[u8]) -> io::Result<usize> {
        Ok(0)
    }

    fn flush(&mut self) -> io::Result<()> {
        Ok(())
    }
}

#[test]
fn a_source_in_memory_moves_in_cuts_and_fails(rt: HostRuntime) -> Result<(), Fail> {
    let alloc = rt.alloc();
    let bytes = b"abcdef".to_vec(alloc)?;
    let cuts = [0, 2].to_vec(alloc)?;
    let mut source = MemorySource::new(bytes, cuts, [2].to_vec(alloc)?);
    let mut buffer = [0; 4];
    for want in [Ok(1), Err(Failed), Ok(4), Ok(1), Ok(0)] {
        assert!(rt; source.take(&mut buffer) == want);
    }
    Ok(())
}

#[test]
fn a_sink_in_memory_keeps_a_prefix(rt: HostRuntime) -> Result<(), Fail> {
    let alloc = rt.alloc();
    let cuts = [2].to_vec(alloc)?;
    let mut sink = MemorySink::new(alloc, 5, cuts, [2].to_vec(alloc)?)?;
    assert!(rt; give_all(&mut sink, b"abc") == Err(Failed));
    assert!(rt; sink.given() == b"ab".as_slice());
    assert!(rt; give_all(&mut sink, b"cde") == Ok(()));
    assert!(rt; give_all(&mut sink, b"f") == Err(Failed));
    assert!(rt; give_all(&mut sink, b"") == Ok(()));
    assert!(rt; sink.given() == b"abcde".as_slice());
    Ok(())
}

#[test]
fn a_steady_shelf_gives_its_texts(rt: HostRuntime) -> Result<(), Fail> {
    let alloc = rt.alloc();
    let names = vec![in alloc; "a.sysml".to_string(alloc)?]?;
    let texts = vec![in alloc; b"package A;".to_vec(alloc)?]?;
    assert!(rt; names.len() == 1 && texts.len() == 1);
    let mut shelf = SteadyShelf::new(names, texts);
    let text = shelf.fetch(alloc, "a.sysml", 10)?;
    assert!(rt; text.as_slice() == b"package A;".as_slice());
    assert!(rt; shelf.fetch(alloc, "a.sysml", 9).err() == Some(ShelfFault::TooLong));
    let text = shelf.fetch(alloc, "b.sysml", 0)?;
    assert!(rt; text.is_empty());
    Ok(())
}

#[test]
fn streams_move_bytes_and_fail(rt: HostRuntime) {
    let mut buffer = [0; 4];
    let mut source = StdSource::new(b"abc".as_slice());
    assert!(rt; source.take(&mut buffer) == Ok(3));
    assert!(rt; buffer == *b"abc\0");
    assert!(rt; source.take(&mut buffer) == Ok(0));
    assert!(rt; StdSource::new(Broken).take(&mut buffer) == Err(Failed));

    let mut room = [0; 4];
    let mut sink = StdSink::new(room.as_mut_slice());
    assert!(rt; give_all(&mut sink, b"abcd") == Ok(()));
    assert!(rt; sink.give(b"e") == Err(Failed));
    assert!(rt; StdSink::new(Full).give(b"a") == Err(Failed));
}
