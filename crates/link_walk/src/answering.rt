ghost use Rattle.std.specs.Prelude.{◌≡◌, List, IfOk, OnOk};
ghost use Rattle.demand_core.specs.Search.{IsAsked};
ghost use Rattle.link_walk.specs.Calls.{Answers, IsAnswer, AddsLooks, keys_for};
ghost use Rattle.link_walk.specs.Noted.{Asks};

use crate::gains::Gains;
use element_store::RefNo;
use link_model::{Hit, LinkKey, LinkLooks};
use linker_base::{Listing, NoMemory};
use std::alloc::Global;

/// Hits, in order.
pub type Hits = Listing<Hit>;

/// References, in order.
pub type Refs = Listing<RefNo>;

/// What a lookup gives: an answer, or the open references on which it waits.
#[derive(Drop)]
pub enum Found<T> {
    Done(T),
    Waits(Refs),
}

/// Copies what is waited on.
fn references(alloc: Global, keys: &[LinkKey]) -> Result<Refs, NoMemory>
    ensures { IfOk result (λ refs. keys_for refs ≡ keys.now) }
{
    let mut refs = Refs::new(alloc);
    for key in keys {
        refs.push(key.0)?;
    }
    Ok(refs)
}

/// What an asking found or waits on. Its looks are added to those of the caller.
pub fn answer<B: Drop>(
    alloc: Global,
    gains: Gains<B>,
    looks: &mut LinkLooks,
) -> Result<Found<Listing<B>>, NoMemory>
    ensures found { IfOk result (λ found. (a : Asks (List B)) → IsAsked gains a
        → Answers found a.step) }
    ensures given { IfOk result (IsAnswer gains.found) }
    ensures looks { OnOk result ((a : Asks (List B)) → IsAsked gains a
        → AddsLooks looks.old looks.new a) }
{
    gains.notes.tell(looks)?;
    if gains.notes.is_waiting() {
        return Ok(Found::Waits(references(alloc, gains.notes.waits())?));
    }
    Ok(Found::Done(gains.found))
}
