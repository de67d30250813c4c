ghost use Rattle.std.specs.Prelude.{◌≡◌, ◌<◌, ◌++◌, ◌∷◌, [], length, slice_set, IfOk, OnOk, OnErr};
ghost use Rattle.linker_base.specs.Members.{SameMembers};
ghost use Rattle.demand_core.specs.Again.{HoldsAll};
ghost use Rattle.demand_core.specs.Computed.{ordered_step};
ghost use Rattle.demand_core.specs.Computation.{read_step};
ghost use Rattle.demand_core.specs.Least.{HoldsLeast, KeepsLeast};
ghost use Rattle.demand_core.specs.Rounds.{RoseAlike};
ghost use Rattle.rules_example.specs.Numbers.{numbers, same_number};
ghost use Rattle.rules_example.specs.Order.{is_below, in_order};
ghost use Rattle.rules_example.specs.Example.{example_meaning, example_lawful, example_ordered};
ghost use Rattle.rules_example.specs.Example.{over, answer_of, greater};

use crate::number::Number;
use demand_core::{Engine, Fact, Keys, Ledger, Looks, Rules, Step, Steps, Table, rounds};
use linker_base::{Listing, NoMemory};
use std::alloc::Global;
use std::cmp::max;
use std::marker::Model;

/// Two numbers that are read at once.
#[derive(Clone, Copy)]
pub struct Pair {
    pub left: Number,
    pub right: Number,
}

/// A row of pairs for each number. Contracts see the rows, in order.
#[derive(Drop)]
pub struct Example {
    alloc: Global,
    rows: Vec<Listing<Pair>>,
}

impl Model for Example {
    ghost use Rattle.std.specs.Prelude.{List};
    ghost use Rattle.rules_example.specs.declared.example.Pair.{Pair};

    ghost Value = { List (List Pair) };

    ghost view = { λ t. t.rows.items };
}

impl Example {
    /// No rows yet. It takes no memory.
    pub fn new(alloc: Global) -> Example
        ensures { result ≡ [] }
    {
        Example {
            alloc,
            rows: Vec::new(alloc),
        }
    }

    /// Adds the row of the next number. After `NoMemory` the rows are as they were.
    pub fn push(&mut self, row: Listing<Pair>) -> Result<(), NoMemory>
        ensures ok { OnOk result (self.new ≡ self.old ++ row ∷ []) }
        ensures err { OnErr result (self.new ≡ self.old) }
    {
        self.rows.push(row)?;
        Ok(())
    }

    /// How many numbers have a row.
    pub fn len(&self) -> usize
        ensures { result ≡ length self.now }
    {
        self.rows.len()
    }

    /// Decides the answer of each number that has a row, by rounds.
    pub fn solve<L: Ledger>(
        &self,
        steps: &mut Steps<L>,
    ) -> Result<Engine<Number, usize, Number>, NoMemory>
        ensures least { IfOk result
            (λ engine. HoldsLeast same_number (example_meaning self.now) engine) }
        ensures first { IfOk result
            (λ engine. KeepsLeast same_number (example_meaning self.now) is_below engine) }
        ensures asked { IfOk result
            (λ engine. RoseAlike 0 engine.asked (L.count steps.old) (L.count steps.new)) }
    {
        let keys = self.keys()?;
        rounds(self.alloc, self, keys.as_slice(), steps)
    }

    /// Decides the answer of each number that has a row on demand, beginning with the first number
    /// or with the last one.
    pub fn settle<L: Ledger>(
        &self,
        backward: bool,
        steps: &mut Steps<L>,
    ) -> Result<Engine<Number, usize, Number>, NoMemory>
        ensures { IfOk result
            (λ engine. HoldsAll same_number (example_meaning self.now) engine) }
    {
        let keys = self.keys_in(backward)?;
        let mut engine = Engine::new(self.alloc);
        engine.settle(self, keys.as_slice(), steps)?;
        Ok(engine)
    }

    /// Changes the row of a number, forgets what looked at it, and decides that again. Gives the
    /// keys that were forgotten.
    pub fn change<L: Ledger>(
        &mut self,
        engine: &mut Engine<Number, usize, Number>,
        place: Number,
        row: Listing<Pair>,
        steps: &mut Steps<L>,
    ) -> Result<Keys<Number>, NoMemory>
        requires place { place.0 < length self.old }
        requires holds { HoldsAll same_number (example_meaning self.old) engine.old }
        ensures row { self.new ≡ slice_set self.old place.0 row }
        ensures holds { OnOk result
            (HoldsAll same_number (example_meaning self.new) engine.new) }
    {
        self.rows[place.0] = row;
        let gone = engine.forget(&[Fact::Outer(place)])?;
        engine.settle(self, gone.as_slice(), steps)?;
        Ok(gone)
    }

    /// The numbers that have a row, in order or backward.
    fn keys_in(&self, backward: bool) -> Result<Keys<Number>, NoMemory>
        ensures { IfOk result (λ keys. SameMembers keys (numbers (length self.now))) }
    {
        if backward {
            self.keys_backward()
        } else {
            self.keys()
        }
    }

    /// The numbers that have a row, in order.
    fn keys(&self) -> Result<Keys<Number>, NoMemory>
        ensures { IfOk result (λ keys. keys ≡ numbers (length self.now)) }
    {
        let mut keys = Keys::new(self.alloc);
        for place in 0..self.rows.len() {
            keys.push(Number(place))?;
        }
        Ok(keys)
    }

    /// The numbers that have a row, the last one first.
    fn keys_backward(&self) -> Result<Keys<Number>, NoMemory>
        ensures { IfOk result (λ keys. SameMembers keys (numbers (length self.now))) }
    {
        let mut keys = Keys::new(self.alloc);
        let count = self.len();
        for place in 0..count {
            keys.push(Number(count - 1 - place))?;
        }
        Ok(keys)
    }

    /// Reads the answer of a number, if it has one; that of a number without a row is 0.
    fn read(
        &self,
        table: &Table<Number, usize>,
        key: Number,
        looks: &mut Looks<Number, Number>,
    ) -> Result<Option<usize>, NoMemory>
        ensures answer { IfOk result (λ answer. read_step key answer
            ≡ (answer_of (length self.now) key (over self.now table.now)).step) }
        ensures looks { OnOk result (looks.new
            ≡ looks.old ++ (answer_of (length self.now) key (over self.now table.now)).looks) }
    {
        if key.0 < self.rows.len() {
            looks.add(Fact::Key(key))?;
            Ok(table.get(key).copied())
        } else {
            Ok(Some(0))
        }
    }

    /// The greater of the answers of two numbers, or those of them on which it waits.
    fn read_pair(
        &self,
        alloc: Global,
        table: &Table<Number, usize>,
        pair: Pair,
        looks: &mut Looks<Number, Number>,
    ) -> Result<Step<Number, usize>, NoMemory>
        ensures answer { IfOk result (λ step. step
            ≡ ordered_step in_order
            (greater (length self.now) pair (over self.now table.now)).step) }
        ensures looks { OnOk result (looks.new
            ≡ looks.old ++ (greater (length self.now) pair (over self.now table.now)).looks) }
    {
        let left = self.read(table, pair.left, looks)?;
        let right = self.read(table, pair.right, looks)?;
        let mut waits = Keys::new(alloc);
        match (left, right) {
            (Some(one), Some(other)) => return Ok(Step::Done(max(one, other))),
            (None, Some(_)) => waits.push(pair.left)?,
            (Some(_), None) => waits.push(pair.right)?,
            (None, None) => return Ok(Step::Waits(two_in_order(alloc, pair)?)),
        }
        Ok(Step::Waits(waits))
    }
}

/// The two numbers of a pair, the least first, or the one number that both are.
fn two_in_order(alloc: Global, pair: Pair) -> Result<Keys<Number>, NoMemory>
    ensures { IfOk result (λ keys. keys ≡ in_order (pair.left ∷ pair.right ∷ [])) }
{
    let mut keys = Keys::new(alloc);
    if pair.left.0 < pair.right.0 {
        keys.push(pair.left)?;
        keys.push(pair.right)?;
    } else {
        keys.push(pair.right)?;
        if pair.right.0 < pair.left.0 {
            keys.push(pair.left)?;
        }
    }
    Ok(keys)
}

impl Rules<Number, usize, Number> for Example {
    ghost meaning = { example_meaning };

    ghost before = { λ rows. is_below };

    ghost valid = { λ rows. Unit {0} };

    fn ask<L: Ledger>(
        &self,
        alloc: Global,
        table: &Table<Number, usize>,
        key: Number,
        looks: &mut Looks<Number, Number>,
        steps: &mut Steps<L>,
    ) -> Result<Step<Number, usize>, NoMemory> {
        steps.tick();
        looks.add(Fact::Outer(key))?;
        let rows = self.rows.as_slice();
        if key.0 < rows.len() {
            for pair in rows[key.0].as_slice() {
                match self.read_pair(alloc, table, *pair, looks)? {
                    Step::Done(value) => {
                        if value != 0 {
                            return Ok(Step::Done(value));
                        }
                    }
                    Step::Waits(waits) => return Ok(Step::Waits(waits)),
                }
            }
        }
        Ok(Step::Done(key.0))
    }

    ghost lawful = { λ rows valid. example_lawful rows };

    ghost ordered = { λ rows valid. example_ordered rows };
}

#[cfg(test)]
mod tests;
