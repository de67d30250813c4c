ghost use Rattle.std.specs.Prelude.{◌≡◌, ◌<◌, ◌≤◌, ℕ, List, Option, None, length, IfOk, OnErr};
ghost use Rattle.std.specs.Io.KnownBytes.{WriteAppends};
ghost use Rattle.linker_base.specs.Counts.{HasCause, counted_once};
ghost use Rattle.outside_core.specs.Streams.{Gives, GivesAll};

use crate::faults::Failed;
use std::io::Write;
use std::marker::Model;

/// Where bytes go.
pub trait Sink {
    /// The bytes that were given, where they are told. No call changes whether they are.
    ghost given: { Self → Option (List ℕ) };

    /// How often a call has failed.
    ghost faults: { Self → ℕ };

    /// Gives the first bytes of `piece`, at least one, and says how many. After `Failed` nothing was given.
    fn give(&mut self, piece: &[u8]) -> Result<usize, Failed>
        requires { 0 < length piece.now }
        ensures some { IfOk result (λ n. 0 < n) }
        ensures bound { IfOk result (λ n. n ≤ length piece.now) }
        ensures told { Gives (given self.old) (given self.new) result piece.now }
        ensures cause { HasCause (faults self.old) (faults self.new) result };
}

/// Gives the whole piece. After `Failed` some prefix of it was given.
pub fn give_all<K: Sink>(sink: &mut K, piece: &[u8]) -> Result<(), Failed>
    ensures told { GivesAll (K.given sink.old) (K.given sink.new) result piece.now }
    ensures cause { HasCause (K.faults sink.old) (K.faults sink.new) result }
{
    let mut done = 0;
    while done < piece.len() {
        done += sink.give(&piece[done..])?;
    }
    Ok(())
}

/// A sink over a std writer. As a sink it tells no content, since a writer may begin to tell its own at any
/// call. Contracts see the writer with a count of faults, which stands still at its last value: each error
/// of the writer raises it, and so does a writer that takes nothing. What the writer tells, each `give`
/// appends to as it says.
#[derive(Drop)]
pub struct StdSink<W: Write> {
    writer: W,
    faults: u64,
}

impl<W: Write> Model for StdSink<W> {
    ghost use Rattle.outside_core.specs.Streams.{Adapted};

    ghost Value = { Adapted W };

    ghost view = { λ s. record { stream = s.writer; faults = s.faults } };
}

impl<W: Write> StdSink<W> {
    /// A sink over this writer, without faults so far.
    pub fn new(writer: W) -> Self
        ensures { result ≡ record { stream = writer; faults = 0 } }
    {
        StdSink { writer, faults: 0 }
    }
}

impl<W: Write> Sink for StdSink<W> {
    ghost given = { λ _. None };

    ghost faults = { λ s. s.faults };

    fn give(&mut self, piece: &[u8]) -> Result<usize, Failed>
        requires { 0 < length piece.now }
        ensures some { IfOk result (λ n. 0 < n) }
        ensures bound { IfOk result (λ n. n ≤ length piece.now) }
        ensures told { Gives None None result piece.now }
        ensures cause { HasCause self.old.faults self.new.faults result }
        ensures counted { OnErr result (self.new.faults ≡ counted_once self.old.faults) }
        ensures bytes { WriteAppends (W.contents self.old.stream)
            (W.contents self.new.stream) result piece.now }
    {
        match self.writer.write(piece) {
            Ok(count) if count > 0 => Ok(count),
            _ => {
                self.faults = self.faults.saturating_add(1);
                Err(Failed)
            }
        }
    }
}
