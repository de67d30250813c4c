ghost use Rattle.std.specs.Prelude.{◌≡◌, ◌-◌, ◌<◌, ◌≤◌, ◌↔◌, ◌⊎◌, Some, [], length, drop, min, IfOk, OnErr, IsErr, Contains, vec_items};
ghost use Rattle.linker_base.specs.Counts.{HasCause, counted_once};
ghost use Rattle.outside_core.specs.Streams.{Takes, Gives};
ghost use Rattle.outside_core.specs.Memory.{next_call, within_cut};

use crate::faults::Failed;
use crate::parts::{Calls, Cuts, Rest, Room};
use crate::sink::Sink;
use crate::source::Source;
use linker_base::NoMemory;
use std::alloc::Global;
use std::marker::Model;

/// A source over bytes in memory, which moves them in cuts and fails at chosen calls. It tells its content.
/// Its call number and its count of faults stand still at their last value.
#[derive(Drop)]
pub struct MemorySource {
    rest: Rest,
    cuts: Cuts,
    calls: Calls,
}

impl Model for MemorySource {
    ghost use Rattle.outside_core.specs.Memory.{Feed};

    ghost Value = { Feed };

    ghost view = { λ s. record {
      left = s.rest;
      cuts = s.cuts;
      fails = s.calls.fails.items;
      calls = s.calls.made;
      faults = s.calls.faults;
    } };
}

impl MemorySource {
    /// A source of these bytes. `cuts` are the greatest sizes of successive calls, of which 0 counts as 1; after
    /// the last one there is no limit. `fails` are the numbers of the calls that fail, counted from 1.
    pub fn new(bytes: Vec<u8>, cuts: Vec<usize>, fails: Vec<u64>) -> MemorySource
        ensures { result ≡ record {
          left = bytes.items;
          cuts = cuts.items;
          fails = fails.items;
          calls = 0;
          faults = 0;
        } }
    {
        MemorySource {
            rest: Rest::new(bytes),
            cuts: Cuts::new(cuts),
            calls: Calls::new(fails),
        }
    }
}

impl Source for MemorySource {
    ghost left = { λ s. Some s.left };

    ghost faults = { λ s. s.faults };

    fn take(&mut self, into: &mut [u8]) -> Result<usize, Failed>
        requires { 0 < length into.old }
        ensures bound { IfOk result (λ n. n ≤ length into.new) }
        ensures told { Takes (Some self.old.left) (Some self.new.left) result into.new }
        ensures cause { HasCause self.old.faults self.new.faults result }

        // Which calls fail, each of which is counted, and how many bytes the others move.
        ensures failed { IsErr result ↔ Contains self.old.fails (next_call self.old.calls) }
        ensures counted { OnErr result (self.new.faults ≡ counted_once self.old.faults) }
        ensures moved { IfOk result (λ n. n ≡ within_cut self.old.cuts
            (min (length into.old) (length self.old.left))) }

        // Each call uses up its number and its cut.
        ensures calls { self.new.calls ≡ next_call self.old.calls }
        ensures cuts { self.new.cuts ≡ drop 1 self.old.cuts }
        ensures fails { self.new.fails ≡ self.old.fails }
    {
        let count = self.cuts.begin(into.len().min(self.rest.len()));
        if self.calls.begin() {
            self.calls.fault();
            return Err(Failed);
        }
        self.rest.move_into(into, count);
        Ok(count)
    }
}

/// A sink over memory that is taken when it is made. It keeps bytes in cuts, and fails at chosen calls and
/// where its room is used up. It tells its content. Its call number and its count of faults stand still at
/// their last value.
#[derive(Drop)]
pub struct MemorySink {
    room: Room,
    cuts: Cuts,
    calls: Calls,
}

impl Model for MemorySink {
    ghost use Rattle.outside_core.specs.Memory.{Tray};

    ghost Value = { Tray };

    ghost view = { λ s. record {
      given = s.room.given;
      room = s.room.room;
      cuts = s.cuts;
      fails = s.calls.fails.items;
      calls = s.calls.made;
      faults = s.calls.faults;
    } };
}

impl MemorySink {
    /// A sink with room for `room` bytes, for which it takes the memory here. `cuts` and `fails` are as those
    /// of a `MemorySource`.
    pub fn new(
        alloc: Global,
        room: usize,
        cuts: Vec<usize>,
        fails: Vec<u64>,
    ) -> Result<MemorySink, NoMemory>
        ensures { IfOk result (λ sink. sink
            ≡ record {
              given = [];
              room = room;
              cuts = cuts.items;
              fails = fails.items;
              calls = 0;
              faults = 0;
            }) }
    {
        Ok(MemorySink {
            room: Room::new(vec![in alloc; 0; room]?),
            cuts: Cuts::new(cuts),
            calls: Calls::new(fails),
        })
    }

    /// Lends the bytes that were given.
    pub fn given(&self) -> &[u8]
        ensures { result.now ≡ self.now.given }
    {
        self.room.given()
    }
}

impl Sink for MemorySink {
    ghost given = { λ s. Some s.given };

    ghost faults = { λ s. s.faults };

    fn give(&mut self, piece: &[u8]) -> Result<usize, Failed>
        requires { 0 < length piece.now }
        ensures some { IfOk result (λ n. 0 < n) }
        ensures bound { IfOk result (λ n. n ≤ length piece.now) }
        ensures told { Gives (Some self.old.given) (Some self.new.given) result piece.now }
        ensures cause { HasCause self.old.faults self.new.faults result }

        // Which calls fail, each of which is counted, and how many bytes the others move.
        ensures failed { IsErr result ↔ (Contains self.old.fails (next_call self.old.calls)
            ⊎ (self.old.room ≤ length self.old.given)) }
        ensures counted { OnErr result (self.new.faults ≡ counted_once self.old.faults) }
        ensures moved { IfOk result (λ n. n ≡ within_cut self.old.cuts
            (min (length piece.now) (self.old.room - length self.old.given))) }

        // Each call uses up its number and its cut.
        ensures calls { self.new.calls ≡ next_call self.old.calls }
        ensures cuts { self.new.cuts ≡ drop 1 self.old.cuts }
        ensures fails { self.new.fails ≡ self.old.fails }
        ensures room { self.new.room ≡ self.old.room }
    {
        let free = self.room.free();
        let count = self.cuts.begin(piece.len().min(free));
        if self.calls.begin() || free == 0 {
            self.calls.fault();
            return Err(Failed);
        }
        self.room.fill(piece, count);
        Ok(count)
    }
}
