ghost use Rattle.demand_core.specs.Again.{HoldsAll};
ghost use Rattle.rules_example.specs.Example.{example_meaning};
ghost use Rattle.rules_example.specs.Numbers.{same_number};

use super::{Example, Pair};
use crate::number::Number;
use demand_core::{Answer, Counted, Engine, Fact, Steps};
use linker_base::{Listing, NoMemory};
use std::alloc::Global;

/// A row of which each pair is given by its two places.
fn row_of(alloc: Global, pairs: &[(usize, usize)]) -> Result<Listing<Pair>, NoMemory> {
    let mut row = Listing::new(alloc);
    for (left, right) in pairs {
        row.push(Pair {
            left: Number(*left),
            right: Number(*right),
        })?;
    }
    Ok(row)
}

/// An example with these rows.
fn example_of(alloc: Global, rows: &[&[(usize, usize)]]) -> Result<Example, NoMemory> {
    let mut example = Example::new(alloc);
    for row in rows {
        example.push(row_of(alloc, row)?)?;
    }
    Ok(example)
}

/// Each number names the next one, up to the last of so many, which names none.
fn chain(alloc: Global, count: usize) -> Result<Example, NoMemory> {
    let mut example = Example::new(alloc);
    for next in 1..count {
        example.push(row_of(alloc, &[(next, next)])?)?;
    }
    example.push(Listing::new(alloc))?;
    Ok(example)
}

/// What the example's engine says of a number: its answer, or the number that is kept of it plus
/// 100.
fn told(answer: Answer<'_, Number, usize>) -> Option<usize> {
    match answer {
        Answer::Open => None,
        Answer::Decided(value) => Some(*value),
        Answer::Cyclic(on) => Some(on.0.saturating_add(100)),
    }
}

/// Whether the engine says this of the first numbers, and nothing of the next one.
fn says(engine: &Engine<Number, usize, Number>, expected: &[usize]) -> bool {
    for (place, value) in expected.iter().enumerate() {
        if told(engine.answer(Number(place))) != Some(*value) {
            return false;
        }
    }
    told(engine.answer(Number(expected.len()))).is_none()
}

/// Eleven numbers, and what is answered of each by hand.
const ROWS: [&[(usize, usize)]; 11] = [
    // 0 has its own answer, and 1, which names it, too, since that is 0; 2 names 3
    &[],
    &[(0, 0)],
    &[(3, 3)],
    &[],
    // 4 reads two at once
    &[(2, 3)],
    // a circle of three
    &[(6, 6)],
    &[(7, 7)],
    &[(5, 5)],
    // a circle of two with a way out: 8 has an answer from 3 before 9 is reached
    &[(0, 3), (9, 9)],
    &[(8, 8)],
    // 10 waits on the circle and on itself, in that order, whichever it names first
    &[(10, 6)],
];

const ANSWERS: [usize; 11] = [0, 1, 3, 3, 3, 106, 107, 105, 3, 3, 106];

/// What rounds say of these rows, and how often they asked.
fn by_rounds(
    alloc: Global,
    rows: &[&[(usize, usize)]],
    expected: &[usize],
) -> Result<(bool, u64), NoMemory> {
    let example = example_of(alloc, rows)?;
    let mut steps = Steps::new(Counted::new());
    let engine = example.solve(&mut steps)?;
    Ok((says(&engine, expected), steps.ledger().count()))
}

/// What settling says of these rows, from the first number on or from the last, and how often it
/// asked.
fn on_demand(
    alloc: Global,
    rows: &[&[(usize, usize)]],
    expected: &[usize],
    backward: bool,
) -> Result<(bool, u64), NoMemory> {
    let example = example_of(alloc, rows)?;
    let mut steps = Steps::new(Counted::new());
    let engine = example.settle(backward, &mut steps)?;
    Ok((says(&engine, expected), steps.ledger().count()))
}

#[test]
fn rows_are_decided_as_by_hand(rt: HostRuntime) {
    // 11 in the first round, then the 6 that waited, then the 4 that are left, and each of these
    // once more
    assert!(rt; by_rounds(rt.alloc(), &ROWS, &ANSWERS) == Ok((true, 25)));
    assert!(rt; on_demand(rt.alloc(), &ROWS, &ANSWERS, false) == Ok((true, 16)));
    assert!(rt; on_demand(rt.alloc(), &ROWS, &ANSWERS, true) == Ok((true, 18)));
}

#[test]
fn circles_are_found_in_either_order(rt: HostRuntime) {
    let circle: [&[(usize, usize)]; 2] = [&[(1, 1)], &[(0, 0)]];
    assert!(rt; on_demand(rt.alloc(), &circle, &[101, 100], false) == Ok((true, 4)));
    assert!(rt; on_demand(rt.alloc(), &circle, &[101, 100], true) == Ok((true, 4)));
    // 0 has an answer from 2 before it reaches 1, which names it
    let way_out: [&[(usize, usize)]; 3] = [&[(2, 2), (1, 1)], &[(0, 0)], &[]];
    assert!(rt; on_demand(rt.alloc(), &way_out, &[2, 2, 2], false) == Ok((true, 4)));
    assert!(rt; on_demand(rt.alloc(), &way_out, &[2, 2, 2], true) == Ok((true, 4)));
}

/// How often a chain of so many is asked by settling; and whether the first one has the last one's
/// answer.
fn chain_settled(alloc: Global, count: usize, backward: bool) -> Result<(bool, u64), NoMemory> {
    let example = chain(alloc, count)?;
    let mut steps = Steps::new(Counted::new());
    let engine = example.settle(backward, &mut steps)?;
    let last = Some(count.saturating_sub(1));
    Ok((
        told(engine.answer(Number(0))) == last,
        steps.ledger().count(),
    ))
}

#[test]
fn chains_are_decided_from_their_ends(rt: HostRuntime) {
    // each but the last is asked twice, or once where what it names is decided
    assert!(rt; chain_settled(rt.alloc(), 1_000, false) == Ok((true, 1_999)));
    assert!(rt; chain_settled(rt.alloc(), 10_000, false) == Ok((true, 19_999)));
    assert!(rt; chain_settled(rt.alloc(), 10_000, true) == Ok((true, 10_000)));
}

/// How many numbers are forgotten with this one, and what is said then of the one before and after.
fn forgotten_with(
    alloc: Global,
    example: &Example,
    key: usize,
) -> Result<(usize, Option<usize>, Option<usize>), NoMemory> {
    let mut steps = Steps::new(Counted::new());
    let mut engine = example.settle(false, &mut steps)?;
    let gone = engine.forget(&[Fact::Key(Number(key))])?;
    let before = told(engine.answer(Number(key.saturating_sub(1))));
    Ok((
        gone.as_slice().len(),
        before,
        told(engine.answer(Number(key.saturating_add(1)))),
    ))
}

/// Whether the keys that go with this one in a chain of 1,000 are those before it.
fn chain_forgets(alloc: Global, key: usize) -> Result<bool, NoMemory> {
    let example = chain(alloc, 1_000)?;
    Ok(forgotten_with(alloc, &example, key)? == (key, None, Some(999)))
}

/// Whether all of the circle of three go with one of them, and the key that waits on it.
fn circle_forgets(alloc: Global) -> Result<bool, NoMemory> {
    let example = example_of(alloc, &ROWS)?;
    Ok(forgotten_with(alloc, &example, 6)? == (4, None, None))
}

#[test]
fn readers_are_forgotten(rt: HostRuntime) {
    assert!(rt; chain_forgets(rt.alloc(), 500) == Ok(true));
    assert!(rt; circle_forgets(rt.alloc()) == Ok(true));
}

/// The next of the numbers that begin with a seed.
fn next_random(state: &mut u32) -> usize {
    *state = state.wrapping_mul(1_664_525).wrapping_add(1_013_904_223);
    (*state >> 16) as usize
}

/// A row of at most two pairs of numbers below ten.
fn random_row(alloc: Global, state: &mut u32) -> Result<Listing<Pair>, NoMemory> {
    let mut row = Listing::new(alloc);
    for _ in 0..next_random(state) % 3 {
        let left = Number(next_random(state) % 10);
        let right = Number(next_random(state) % 10);
        row.push(Pair { left, right })?;
    }
    Ok(row)
}

/// Whether two engines say the same of the first nine numbers.
fn agree(one: &Engine<Number, usize, Number>, other: &Engine<Number, usize, Number>) -> bool {
    for place in 0..9 {
        if told(one.answer(Number(place))) != told(other.answer(Number(place))) {
            return false;
        }
    }
    true
}

/// Nine rows by the state.
fn random_example(alloc: Global, state: &mut u32) -> Result<Example, NoMemory> {
    let mut example = Example::new(alloc);
    for _ in 0..9 {
        example.push(random_row(alloc, state)?)?;
    }
    Ok(example)
}

/// Whether the engine says what rounds say anew.
fn as_by_rounds(
    example: &Example,
    engine: &Engine<Number, usize, Number>,
) -> Result<bool, NoMemory> {
    let anew = example.solve(&mut Steps::new(Counted::new()))?;
    Ok(agree(engine, &anew))
}

/// Whether the engine says what rounds say after one of nine rows changed, and asked each key that
/// was forgotten at most as often as 2 and the keys at which it looks.
fn change_agrees(
    alloc: Global,
    example: &mut Example,
    engine: &mut Engine<Number, usize, Number>,
    state: &mut u32,
) -> Result<bool, NoMemory>
    requires { HoldsAll same_number (example_meaning example.old) engine.old }
{
    let place = Number(next_random(state) % 9);
    let row = random_row(alloc, state)?;
    if place.0 >= example.len() {
        return Ok(false);
    }
    let mut steps = Steps::new(Counted::new());
    let gone = example.change(engine, place, row, &mut steps)?;
    let most = gone.as_slice().len() as u64;
    Ok(as_by_rounds(example, engine)? && steps.ledger().count() / 6 <= most)
}

/// Whether settling nine random rows says what rounds say, and asks each key at most as often as 2
/// and the keys at which it looks; and again after one of the rows changed.
fn instance_agrees(alloc: Global, seed: u32) -> Result<bool, NoMemory> {
    let mut state = seed;
    let mut example = random_example(alloc, &mut state)?;
    let mut steps = Steps::new(Counted::new());
    let mut engine = example.settle(seed % 2 == 0, &mut steps)?;
    if !as_by_rounds(&example, &engine)? || steps.ledger().count() > 54 {
        return Ok(false);
    }
    change_agrees(alloc, &mut example, &mut engine, &mut state)
}

#[test]
fn changes_are_settled_as_by_rounds(rt: HostRuntime) {
    for seed in 0..200 {
        assert!(rt; instance_agrees(rt.alloc(), seed) == Ok(true));
    }
}
