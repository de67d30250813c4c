ghost use Rattle.std.specs.Prelude.{◌≡◌, ◌++◌, codes};
ghost use Rattle.script_commands.specs.Lines.{IsPlaceOf, IsNumber, IsNamed, IsHeading};

use crate::command::ReadStop;
use element_store::{FileName, NameFault, Text};
use itoa::Buffer;
use linker_base::limits::FILE_BYTES;
use memchr::memchr;
use std::alloc::Global;
use std::str;

/// A number of a command is below this one: it has at most ten digits.
const NUMBERS: usize = 10_000_000_000;

/// What the line of a command says; of a put, how many bytes follow it.
#[derive(Drop)]
pub(crate) enum Heading {
    Put { name: FileName, count: usize },
    Drop { name: FileName },
    Links { name: FileName },
    Check,
    Find { words: Text },
    Implied,
    Print { name: FileName },
    End,
}

/// The first place of a byte.
pub(crate) fn place_of(byte: u8, bytes: &[u8]) -> Option<usize>
    ensures { IsPlaceOf byte bytes.now result }
{
    memchr(byte, bytes)
}

/// The number that the digits say: at most ten, and without a leading zero but for `0` itself.
fn number(digits: &[u8]) -> Option<usize>
    ensures { IsNumber digits.now result }
{
    let Ok(text) = str::from_utf8(digits) else {
        return None;
    };
    let Ok(count) = text.parse::<usize>() else {
        return None;
    };
    if count >= NUMBERS || Buffer::new().format(count).as_bytes() != digits {
        return None;
    }
    Some(count)
}

/// Reads the name of a file. `NoForm` comes exactly where the bytes are none.
fn file_name(alloc: Global, bytes: &[u8]) -> Result<FileName, ReadStop>
    ensures { IsNamed bytes.now result }
{
    match FileName::read(alloc, bytes) {
        Ok(name) => Ok(name),
        Err(NameFault::Bad) => Err(ReadStop::NoForm),
        Err(NameFault::NoMemory) => Err(ReadStop::NoMemory),
    }
}

/// Reads what follows `put `.
fn read_put(alloc: Global, words: &[u8]) -> Result<Heading, ReadStop>
    ensures { IsHeading (codes "put " ++ words.now) result }
{
    let Some(space) = place_of(b' ', words) else {
        return Err(ReadStop::NoForm);
    };
    let Some(count) = number(&words[space + 1..]) else {
        return Err(ReadStop::NoForm);
    };
    match file_name(alloc, &words[..space]) {
        Err(stop) => Err(stop),
        Ok(name) => {
            if count > FILE_BYTES {
                return Err(ReadStop::LongText);
            }
            Ok(Heading::Put { name, count })
        }
    }
}

/// Reads what follows `drop `.
fn read_drop(alloc: Global, name: &[u8]) -> Result<Heading, ReadStop>
    ensures { IsHeading (codes "drop " ++ name.now) result }
{
    match file_name(alloc, name) {
        Ok(name) => Ok(Heading::Drop { name }),
        Err(stop) => Err(stop),
    }
}

/// Reads what follows `links `.
fn read_links(alloc: Global, name: &[u8]) -> Result<Heading, ReadStop>
    ensures { IsHeading (codes "links " ++ name.now) result }
{
    match file_name(alloc, name) {
        Ok(name) => Ok(Heading::Links { name }),
        Err(stop) => Err(stop),
    }
}

/// Reads what follows `print `.
fn read_print(alloc: Global, name: &[u8]) -> Result<Heading, ReadStop>
    ensures { IsHeading (codes "print " ++ name.now) result }
{
    match file_name(alloc, name) {
        Ok(name) => Ok(Heading::Print { name }),
        Err(stop) => Err(stop),
    }
}

/// Reads what follows `find `: any words.
fn read_find(alloc: Global, words: &[u8]) -> Result<Heading, ReadStop>
    ensures { IsHeading (codes "find " ++ words.now) result }
{
    match Vec::from_slice(alloc, words) {
        Ok(words) => Ok(Heading::Find {
            words: Text::of(words),
        }),
        Err(_) => Err(ReadStop::NoMemory),
    }
}

/// Reads a line, without its LF. `NoForm` comes exactly where no command has this line, `LongText` exactly
/// where it is that of a put whose text would pass the limit of a file.
pub(crate) fn read_heading(alloc: Global, line: &[u8]) -> Result<Heading, ReadStop>
    ensures { IsHeading line.now result }
{
    if line == b"end".as_slice() {
        return Ok(Heading::End);
    }
    if line == b"check".as_slice() {
        return Ok(Heading::Check);
    }
    if line == b"implied".as_slice() {
        return Ok(Heading::Implied);
    }
    if let Some(name) = line.strip_prefix(b"drop ") {
        return read_drop(alloc, name);
    }
    if let Some(name) = line.strip_prefix(b"links ") {
        return read_links(alloc, name);
    }
    if let Some(name) = line.strip_prefix(b"print ") {
        return read_print(alloc, name);
    }
    if let Some(words) = line.strip_prefix(b"find ") {
        return read_find(alloc, words);
    }
    match line.strip_prefix(b"put ") {
        Some(words) => read_put(alloc, words),
        None => Err(ReadStop::NoForm),
    }
}
