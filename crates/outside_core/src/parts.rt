// The parts of which the objects over memory are made.
ghost use Rattle.std.specs.Prelude.{◌≡◌, ◌≤◌, ◌+◌, ◌++◌, ◌↔◌, [], length, take, drop, IsTrue, Contains};
ghost use Rattle.linker_base.specs.Counts.{counted_once};
ghost use Rattle.outside_core.specs.Memory.{within_cut, next_call};

use std::marker::Model;

/// Bytes that are taken from their front. Contracts see those that are left.
#[derive(Drop)]
pub(crate) struct Rest {
    bytes: Vec<u8>,
    at: usize,
}

impl Model for Rest {
    ghost use Rattle.std.specs.Prelude.{ℕ, List, drop, length, ◌≤◌};

    ghost Value = { List ℕ };

    ghost view = { λ r. drop r.at r.bytes.items };

    ghost invariant = { λ r. r.at ≤ length r.bytes.items };
}

impl Rest {
    pub(crate) fn new(bytes: Vec<u8>) -> Self
        ensures { result ≡ bytes.items }
    {
        Rest { bytes, at: 0 }
    }

    pub(crate) fn len(&self) -> usize
        ensures { result ≡ length self.now }
    {
        self.bytes.len() - self.at
    }

    /// Moves the next `count` bytes into the front of `into`.
    pub(crate) fn move_into(&mut self, into: &mut [u8], count: usize)
        requires left { count ≤ length self.old }
        requires fits { count ≤ length into.old }
        ensures bytes { take count into.new ≡ take count self.old }
        ensures rest { self.new ≡ drop count self.old }
        ensures len { length into.new ≡ length into.old }
    {
        let upto = self.at + count;
        into[..count].copy_from_slice(&self.bytes[self.at..upto]);
        self.at = upto;
    }
}

/// Room for bytes, filled from its front. Contracts see the bytes that were given, and the room in all.
#[derive(Drop)]
pub(crate) struct Room {
    bytes: Vec<u8>,
    used: usize,
}

impl Model for Room {
    ghost use Rattle.std.specs.Prelude.{take, length, ◌≤◌};
    ghost use Rattle.outside_core.specs.Memory.{Filled};

    ghost Value = { Filled };

    ghost view = { λ r. record { given = take r.used r.bytes.items; room = length r.bytes.items } };

    ghost invariant = { λ r. r.used ≤ length r.bytes.items };
}

impl Room {
    pub(crate) fn new(bytes: Vec<u8>) -> Self
        ensures given { result.given ≡ [] }
        ensures room { result.room ≡ length bytes.items }
    {
        Room { bytes, used: 0 }
    }

    /// For how many bytes there is still room.
    pub(crate) fn free(&self) -> usize
        ensures { length self.now.given + result ≡ self.now.room }
    {
        self.bytes.len() - self.used
    }

    pub(crate) fn given(&self) -> &[u8]
        ensures { result.now ≡ self.now.given }
    {
        &self.bytes[..self.used]
    }

    /// Keeps the first `count` bytes of `piece`.
    pub(crate) fn fill(&mut self, piece: &[u8], count: usize)
        requires room { length self.old.given + count ≤ self.old.room }
        requires piece { count ≤ length piece.now }
        ensures given { self.new.given ≡ self.old.given ++ take count piece.now }
        ensures room { self.new.room ≡ self.old.room }
    {
        let upto = self.used + count;
        self.bytes[self.used..upto].copy_from_slice(&piece[..count]);
        self.used = upto;
    }
}

/// The greatest sizes of successive calls. Contracts see those of the calls to come.
#[derive(Drop)]
pub(crate) struct Cuts {
    sizes: Vec<usize>,
    at: usize,
}

impl Model for Cuts {
    ghost use Rattle.std.specs.Prelude.{ℕ, List, drop};

    ghost Value = { List ℕ };

    ghost view = { λ c. drop c.at c.sizes.items };
}

impl Cuts {
    pub(crate) fn new(sizes: Vec<usize>) -> Self
        ensures { result ≡ sizes.items }
    {
        Cuts { sizes, at: 0 }
    }

    /// How many of `count` bytes the call that begins may move.
    pub(crate) fn begin(&mut self, count: usize) -> usize
        ensures value { result ≡ within_cut self.old count }
        ensures rest { self.new ≡ drop 1 self.old }
    {
        if self.at < self.sizes.len() {
            let cut = self.sizes[self.at].max(1);
            self.at += 1;
            cut.min(count)
        } else {
            count
        }
    }
}

/// The calls of an object: how many were made, which fail, and how many failed.
#[derive(Drop)]
pub(crate) struct Calls {
    pub(crate) fails: Vec<u64>,
    pub(crate) made: u64,
    pub(crate) faults: u64,
}

impl Calls {
    pub(crate) fn new(fails: Vec<u64>) -> Self
        ensures { result ≡ record { fails = fails; made = 0; faults = 0 } }
    {
        Calls {
            fails,
            made: 0,
            faults: 0,
        }
    }

    /// Counts the call that begins, and says whether it is to fail.
    pub(crate) fn begin(&mut self) -> bool
        ensures fails { IsTrue result ↔ Contains self.old.fails.items (next_call self.old.made) }
        ensures made { self.new.made ≡ next_call self.old.made }
        ensures same { (self.new.fails ≡ self.old.fails) × (self.new.faults ≡ self.old.faults) }
    {
        self.made = self.made.saturating_add(1);
        self.fails.contains(&self.made)
    }

    /// Counts a fault.
    pub(crate) fn fault(&mut self)
        ensures faults { self.new.faults ≡ counted_once self.old.faults }
        ensures same { (self.new.fails ≡ self.old.fails) × (self.new.made ≡ self.old.made) }
    {
        self.faults = self.faults.saturating_add(1);
    }
}
