ghost use Rattle.std.specs.Prelude.{◌≡◌, ◌<◌, ◌≤◌, [], length, IfOk};
ghost use Rattle.linker_base.specs.Counts.{HasCause};
ghost use Rattle.script_commands.specs.Pieces.{IsPiece, pending_of, TookMore};

use linker_base::NoMemory;
use outside_core::{Failed, Source};
use std::alloc::Global;

/// How many bytes are asked of the input at once, at most: 64 KB.
pub(crate) const PIECE: usize = 65_536;

/// The bytes that were taken and belong to no command yet: those of a buffer of one piece from `at` to `end`.
#[derive(Drop)]
pub(crate) struct Piece {
    pub(crate) bytes: Vec<u8>,
    pub(crate) at: usize,
    pub(crate) end: usize,
}

impl Piece {
    /// A buffer in which nothing is pending.
    pub(crate) fn new(alloc: Global) -> Result<Piece, NoMemory>
        ensures piece { IfOk result (λ p. IsPiece p) }
        ensures none { IfOk result (λ p. pending_of p ≡ []) }
    {
        Ok(Piece {
            bytes: vec![in alloc; 0; PIECE]?,
            at: 0,
            end: 0,
        })
    }

    /// Makes room after the bytes that are pending: where none is left, or nothing is pending, these move to
    /// the front.
    fn make_room(&mut self)
        requires piece { IsPiece self.old }
        requires few { length (pending_of self.old) < PIECE }
        ensures piece { IsPiece self.new }
        ensures room { self.new.end < PIECE }
        ensures same { pending_of self.new ≡ pending_of self.old }
    {
        if self.at == self.end || self.end == PIECE {
            self.bytes.copy_within(self.at..self.end, 0);
            self.end -= self.at;
            self.at = 0;
        }
    }

    /// Takes at most so many bytes after those that are pending. After `Failed` nothing was taken.
    pub(crate) fn take<S: Source>(&mut self, input: &mut S, most: usize) -> Result<usize, Failed>
        requires piece { IsPiece self.old }
        requires few { length (pending_of self.old) < PIECE }
        requires some { 0 < most }
        requires most { most ≤ PIECE }
        ensures piece { IsPiece self.new }
        ensures bound { IfOk result (λ n. n ≤ most) }
        ensures told { TookMore self.old self.new (S.left input.old) (S.left input.new) result }
        ensures cause { HasCause (S.faults input.old) (S.faults input.new) result }
    {
        self.make_room();
        let upto = PIECE.min(self.end + most);
        let count = input.take(&mut self.bytes[self.end..upto])?;
        self.end += count;
        Ok(count)
    }
}
