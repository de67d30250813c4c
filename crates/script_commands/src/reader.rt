ghost use Rattle.std.specs.Prelude.{◌≡◌, ◌+◌, ◌<◌, ◌≤◌, [], length, drop, IfOk};
ghost use Rattle.script_commands.specs.Reading.{HasTaken, HasReadCause, IsNext, IsFilled, IsLined};
ghost use Rattle.script_commands.specs.Reading.{IsHeaded, IsText, IsAwaited, IsClosed, IsBody};
ghost use Rattle.script_commands.specs.Reading.{IsLineEnd, IsFree, HasMoved, IsBareEnd};

use crate::command::{Command, ReadStop};
use crate::line::{Heading, place_of, read_heading};
use crate::piece::{PIECE, Piece};
use element_store::Text;
use linker_base::NoMemory;
use linker_base::limits::{FILE_BYTES, INPUT_BYTES, LINE_BYTES};
use outside_core::Source;
use std::alloc::Global;
use std::marker::Model;

/// A reader of commands. It keeps the bytes that were taken and belong to no command yet, at most 64 KB.
#[derive(Drop)]
pub struct ScriptReader {
    alloc: Global,
    piece: Piece,
    used: u64,
}

impl Model for ScriptReader {
    ghost use Rattle.std.specs.Prelude.{◌≤◌, ◌+◌, length};
    ghost use Rattle.linker_base.specs.declared.limits.TheConstants.{INPUT_BYTES};
    ghost use Rattle.script_commands.specs.Pieces.{IsPiece, pending_of};
    ghost use Rattle.script_commands.specs.Reading.{Window};

    ghost Value = { Window };

    ghost view = { λ r. record { used = r.used; pending = pending_of r.piece } };

    ghost invariant = { λ r. IsPiece r.piece
        × (r.used + length (pending_of r.piece) ≤ INPUT_BYTES) };
}

impl ScriptReader {
    /// A reader that has taken nothing. It takes the memory of its one piece here.
    pub fn new(alloc: Global) -> Result<ScriptReader, NoMemory>
        ensures { IfOk result (λ r. r ≡ record { used = 0; pending = [] }) }
    {
        Ok(ScriptReader {
            alloc,
            piece: Piece::new(alloc)?,
            used: 0,
        })
    }

    /// How many bytes of the input were used up so far.
    pub fn used(&self) -> u64
        ensures { result ≡ self.now.used }
    {
        self.used
    }

    /// How many bytes of the input were taken so far.
    pub fn taken(&self) -> u64
        ensures count { result ≡ self.now.used + length self.now.pending }
        ensures within { result ≤ INPUT_BYTES }
    {
        self.used + self.pending().len() as u64
    }

    /// Reads the next command.
    pub fn next<S: Source>(&mut self, input: &mut S) -> Result<Command, ReadStop>
        ensures read { HasTaken self.old (S.left input.old) (S.left input.new)
            (IsNext self.old self.new (S.left input.new) result) }
        ensures cause { HasReadCause (S.faults input.old) (S.faults input.new) result }
    {
        match self.read_line(input) {
            Ok(Heading::Put { name, count }) => match self.read_body(input, count) {
                Ok(text) => Ok(Command::Put { name, text }),
                Err(stop) => Err(stop),
            },
            Ok(Heading::Drop { name }) => Ok(Command::Drop { name }),
            Ok(Heading::Links { name }) => Ok(Command::Links { name }),
            Ok(Heading::Check) => Ok(Command::Check),
            Ok(Heading::Find { words }) => Ok(Command::Find { words }),
            Ok(Heading::Implied) => Ok(Command::Implied),
            Ok(Heading::Print { name }) => Ok(Command::Print { name }),
            Ok(Heading::End) => Ok(Command::End),
            Err(ReadStop::CutShort) => self.read_bare_end(),
            Err(stop) => Err(stop),
        }
    }

    /// Where the input ended, an `end` may lack its LF.
    fn read_bare_end(&mut self) -> Result<Command, ReadStop>
        ensures { IsBareEnd self.old self.new result }
    {
        if self.pending() != b"end".as_slice() {
            return Err(ReadStop::CutShort);
        }
        self.use_up(3);
        Ok(Command::End)
    }

    /// The bytes taken that belong to no command yet.
    fn pending(&self) -> &[u8]
        ensures lent { result.now ≡ self.now.pending }
        ensures within { self.now.used + length self.now.pending ≤ INPUT_BYTES }
    {
        &self.piece.bytes[self.piece.at..self.piece.end]
    }

    /// So many more bytes are used up.
    fn use_up(&mut self, size: usize)
        requires { size ≤ length self.old.pending }
        ensures after { self.new ≡ record {
          used = self.old.used + size;
          pending = drop size self.old.pending;
        } }
        ensures within { self.new.used + length self.new.pending ≤ INPUT_BYTES }
    {
        self.used += size as u64;
        self.piece.at += size;
    }

    /// How many bytes an input may still have.
    fn free(&self) -> u64
        ensures { result + (self.now.used + length self.now.pending) ≡ INPUT_BYTES }
    {
        INPUT_BYTES - self.taken()
    }

    /// Looks whether a byte comes after the greatest length of an input, which was taken.
    fn look_beyond<S: Source>(&mut self, input: &mut S) -> Result<(), ReadStop>
        requires { self.old.used + length self.old.pending ≡ INPUT_BYTES }
        ensures read { HasTaken self.old (S.left input.old) (S.left input.new)
            (IsFilled self.old self.new (S.left input.new) result) }
        ensures cause { HasReadCause (S.faults input.old) (S.faults input.new) result }
    {
        let mut byte = [0];
        match input.take(&mut byte) {
            Err(_) => Err(ReadStop::ReadFault),
            Ok(0) => Err(ReadStop::CutShort),
            Ok(_) => Err(ReadStop::LongInput),
        }
    }

    /// Takes a piece after the bytes that are pending.
    fn fill<S: Source>(&mut self, input: &mut S) -> Result<(), ReadStop>
        requires { length self.old.pending ≤ LINE_BYTES }
        ensures read { HasTaken self.old (S.left input.old) (S.left input.new)
            (IsFilled self.old self.new (S.left input.new) result) }
        ensures cause { HasReadCause (S.faults input.old) (S.faults input.new) result }
    {
        let free = self.free();
        if free == 0 {
            return self.look_beyond(input);
        }
        let most = free.min(PIECE as u64) as usize;
        match self.piece.take(input, most) {
            Err(_) => Err(ReadStop::ReadFault),
            Ok(0) => Err(ReadStop::CutShort),
            Ok(_) => Ok(()),
        }
    }

    /// Takes pieces until a whole line is pending, and says the place of its LF.
    fn await_line<S: Source>(&mut self, input: &mut S) -> Result<usize, ReadStop>
        ensures read { HasTaken self.old (S.left input.old) (S.left input.new)
            (IsLined self.old self.new (S.left input.new) result) }
        ensures cause { HasReadCause (S.faults input.old) (S.faults input.new) result }
    {
        let mut clear = 0;
        loop {
            match line_end(self.pending(), clear) {
                Ok(Some(place)) => return Ok(place),
                Err(stop) => return Err(stop),
                Ok(None) => {}
            }
            clear = self.pending().len();
            match self.fill(input) {
                Ok(()) => {}
                Err(stop) => return Err(stop),
            }
        }
    }

    /// Reads a line with its LF, and what it says. Nothing is used up where the reading stops.
    fn read_line<S: Source>(&mut self, input: &mut S) -> Result<Heading, ReadStop>
        ensures read { HasTaken self.old (S.left input.old) (S.left input.new)
            (IsHeaded self.old self.new (S.left input.new) result) }
        ensures cause { HasReadCause (S.faults input.old) (S.faults input.new) result }
    {
        match self.await_line(input) {
            Err(stop) => Err(stop),
            Ok(place) => match read_heading(self.alloc, &self.pending()[..place]) {
                Err(stop) => Err(stop),
                Ok(heading) => {
                    self.use_up(place + 1);
                    Ok(heading)
                }
            },
        }
    }

    /// Moves bytes that are pending to the end of a text, until it has so many or nothing is pending.
    fn move_into(&mut self, text: &mut Vec<u8>, count: usize) -> Result<(), ReadStop>
        requires { length text.old.items ≤ count }
        ensures { HasMoved self.old self.new text.old.items text.new.items count result }
    {
        let size = self.pending().len().min(count - text.len());
        match text.extend_from_slice(&self.pending()[..size]) {
            Err(_) => Err(ReadStop::NoMemory),
            Ok(_) => {
                self.use_up(size);
                Ok(())
            }
        }
    }

    /// Takes pieces until the text has so many bytes, or the reading stops.
    fn fill_text<S: Source>(
        &mut self,
        input: &mut S,
        text: &mut Vec<u8>,
        count: usize,
    ) -> Result<(), ReadStop>
        requires none { text.old.items ≡ [] }
        ensures read { HasTaken self.old (S.left input.old) (S.left input.new)
            (IsText count self.old self.new text.new.items (S.left input.new) result) }
        ensures cause { HasReadCause (S.faults input.old) (S.faults input.new) result }
    {
        loop {
            match self.move_into(text, count) {
                Ok(()) => {}
                Err(stop) => return Err(stop),
            }
            if text.len() == count {
                return Ok(());
            }
            match self.fill(input) {
                Ok(()) => {}
                Err(stop) => return Err(stop),
            }
        }
    }

    /// Takes a piece if nothing is pending.
    fn await_byte<S: Source>(&mut self, input: &mut S) -> Result<(), ReadStop>
        ensures read { HasTaken self.old (S.left input.old) (S.left input.new)
            (IsAwaited self.old self.new (S.left input.new) result) }
        ensures cause { HasReadCause (S.faults input.old) (S.faults input.new) result }
    {
        if !self.pending().is_empty() {
            return Ok(());
        }
        self.fill(input)
    }

    /// Reads the LF after a text.
    fn read_feed<S: Source>(&mut self, input: &mut S) -> Result<(), ReadStop>
        ensures read { HasTaken self.old (S.left input.old) (S.left input.new)
            (IsClosed self.old self.new (S.left input.new) result) }
        ensures cause { HasReadCause (S.faults input.old) (S.faults input.new) result }
    {
        match self.await_byte(input) {
            Err(stop) => Err(stop),
            Ok(()) => {
                if self.pending()[0] != b'\n' {
                    return Err(ReadStop::NoLineFeed);
                }
                self.use_up(1);
                Ok(())
            }
        }
    }

    /// Reads the text of a put, which has so many bytes, and the LF after it.
    fn read_body<S: Source>(&mut self, input: &mut S, count: usize) -> Result<Text, ReadStop>
        requires { count ≤ FILE_BYTES }
        ensures read { HasTaken self.old (S.left input.old) (S.left input.new)
            (IsBody count self.old self.new (S.left input.new) result) }
        ensures cause { HasReadCause (S.faults input.old) (S.faults input.new) result }
    {
        let mut text = match Vec::with_capacity(self.alloc, count) {
            Ok(text) => text,
            Err(_) => return Err(ReadStop::NoMemory),
        };
        match self.fill_text(input, &mut text, count) {
            Err(stop) => Err(stop),
            Ok(()) => match self.read_feed(input) {
                Err(stop) => Err(stop),
                Ok(()) => Ok(Text::of(text)),
            },
        }
    }
}

/// The place of the LF that ends the line at the front of these bytes, if it is there; the first `clear` of
/// them hold none. `LongLine` comes exactly where the first 2,049 hold none.
fn line_end(pending: &[u8], clear: usize) -> Result<Option<usize>, ReadStop>
    requires within { clear ≤ length pending.now }
    requires free { IsFree clear pending.now }
    ensures { IsLineEnd pending.now result }
{
    match place_of(b'\n', &pending[clear..]) {
        Some(place) => {
            if clear + place > LINE_BYTES {
                return Err(ReadStop::LongLine);
            }
            Ok(Some(clear + place))
        }
        None => {
            if pending.len() > LINE_BYTES {
                return Err(ReadStop::LongLine);
            }
            Ok(None)
        }
    }
}
