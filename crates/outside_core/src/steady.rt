ghost use Rattle.std.specs.Prelude.{◌≡◌, ◌<◌, ◌≤◌, Some, None, Ok, length, drop, min, map, IfOk, IsOk, IsErrOf, vec_items, vec_len, string_bytes};
ghost use Rattle.linker_base.specs.Counts.{HasCause};
ghost use Rattle.linker_base.specs.Members.{IsEachOnce};
ghost use Rattle.outside_core.specs.Streams.{Takes, Gives};
ghost use Rattle.outside_core.specs.Shelves.{Fetches, HasShelfCause, StandsBeside, steady_text, steady_told};
ghost use Rattle.outside_core.specs.Memory.{within_cut};

use crate::faults::{Failed, ShelfFault};
use crate::parts::{Cuts, Rest};
use crate::shelf::Shelf;
use crate::sink::Sink;
use crate::source::Source;
use std::alloc::Global;
use std::marker::Model;

/// A source over bytes in memory that never fails. It tells its content.
#[derive(Drop)]
pub struct SteadySource {
    rest: Rest,
    cuts: Cuts,
}

impl Model for SteadySource {
    ghost use Rattle.outside_core.specs.Memory.{Stream};

    ghost Value = { Stream };

    ghost view = { λ s. record { left = s.rest; cuts = s.cuts } };
}

impl SteadySource {
    /// A source of these bytes. `cuts` are the greatest sizes of successive calls, of which 0 counts as 1; after
    /// the last one there is no limit.
    pub fn new(bytes: Vec<u8>, cuts: Vec<usize>) -> SteadySource
        ensures { result ≡ record { left = bytes.items; cuts = cuts.items } }
    {
        SteadySource {
            rest: Rest::new(bytes),
            cuts: Cuts::new(cuts),
        }
    }
}

impl Source for SteadySource {
    ghost left = { λ s. Some s.left };

    ghost faults = { λ _. 0 };

    fn take(&mut self, into: &mut [u8]) -> Result<usize, Failed>
        requires { 0 < length into.old }
        ensures bound { IfOk result (λ n. n ≤ length into.new) }
        ensures told { Takes (Some self.old.left) (Some self.new.left) result into.new }
        ensures cause { HasCause 0 0 result }

        // No call fails. Each moves as many bytes as it may, and uses up its cut.
        ensures moved { result ≡ Ok (within_cut self.old.cuts
            (min (length into.old) (length self.old.left))) }
        ensures cuts { self.new.cuts ≡ drop 1 self.old.cuts }
    {
        let count = self.cuts.begin(into.len().min(self.rest.len()));
        self.rest.move_into(into, count);
        Ok(count)
    }
}

/// A sink that never fails. It takes each piece whole, keeps nothing and tells nothing.
#[derive(Clone, Copy, Debug)]
pub struct SteadySink;

impl SteadySink {
    /// A sink that keeps nothing.
    pub fn new() -> SteadySink {
        SteadySink
    }
}

impl Sink for SteadySink {
    ghost given = { λ _. None };

    ghost faults = { λ _. 0 };

    fn give(&mut self, piece: &[u8]) -> Result<usize, Failed>
        requires { 0 < length piece.now }
        ensures some { IfOk result (λ n. 0 < n) }
        ensures bound { IfOk result (λ n. n ≤ length piece.now) }
        ensures told { Gives None None result piece.now }
        ensures cause { HasCause 0 0 result }
        ensures whole { result ≡ Ok (length piece.now) }
    {
        Ok(piece.len())
    }
}

/// A shelf over texts in memory that never fails. It holds the empty text under every name that is none of
/// its own, and tells its content.
#[derive(Drop)]
pub struct SteadyShelf {
    names: Vec<String>,
    texts: Vec<Vec<u8>>,
}

impl Model for SteadyShelf {
    ghost use Rattle.std.specs.Prelude.{◌≡◌, length, map, string_bytes, vec_items};
    ghost use Rattle.outside_core.specs.Shelves.{Library};

    ghost Value = { Library };

    ghost view = { λ s. record {
      names = map string_bytes s.names.items;
      texts = map vec_items s.texts.items;
    } };

    ghost invariant = { λ s. length s.names.items ≡ length s.texts.items };
}

impl SteadyShelf {
    /// A shelf with each text under the name at its place.
    pub fn new(names: Vec<String>, texts: Vec<Vec<u8>>) -> SteadyShelf
        requires as_many { vec_len names ≡ vec_len texts }
        requires distinct { IsEachOnce (map string_bytes names.items) }
        ensures value { result ≡ record {
          names = map string_bytes names.items;
          texts = map vec_items texts.items;
        } }
        ensures held { StandsBeside (map string_bytes names.items) (map vec_items texts.items)
            (steady_text result) }
    {
        SteadyShelf { names, texts }
    }
}

impl Shelf for SteadyShelf {
    ghost held = { λ s. steady_told s };

    ghost faults = { λ _. 0 };

    ghost last_failed = { λ _. None };

    fn fetch(&mut self, alloc: Global, name: &str, max: usize) -> Result<Vec<u8>, ShelfFault>
        requires { length name.now ≤ 200 }
        ensures bound { IfOk result (λ text. vec_len text ≤ max) }
        ensures told { Fetches (steady_told self.old) name.now max result }
        ensures cause { HasShelfCause 0 0 None None name.now result }
        ensures same { self.new ≡ self.old }
        ensures held { steady_told self.new ≡ steady_told self.old }
        ensures steady { IsErrOf result ShelfFault.Failed → ⊥ }
    {
        let text = text_under(&self.names, &self.texts, name);
        if text.len() > max {
            return Err(ShelfFault::TooLong);
        }
        Ok(text.to_vec(alloc)?)
    }
}

/// The text beside the first such name, or the empty text.
fn text_under<'a>(names: &[String], texts: &'a [Vec<u8>], name: &str) -> &'a [u8]
    requires { length names.now ≡ length texts.now }
    ensures { result.now ≡ steady_text
        (record { names = map string_bytes names.now; texts = map vec_items texts.now }) name.now }
{
    let mut i = 0;
    while i < names.len() {
        if names[i].as_str() == name {
            return &texts[i];
        }
        i += 1;
    }
    &[]
}
