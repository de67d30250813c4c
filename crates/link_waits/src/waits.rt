ghost use Rattle.std.specs.Prelude.{◌≡◌, length, map, None, IfOk, OnOk};
ghost use Rattle.std.specs.List.Sorted.{IsPermutation};
ghost use Rattle.linker_base.specs.Members.{SameMembers};
ghost use Rattle.linker_base.specs.Orders.{AreInOrder};
ghost use Rattle.link_model.specs.Linking.{ComesBefore};
ghost use Rattle.link_waits.specs.Ranks.{AreRanksOf};
ghost use Rattle.link_waits.specs.Waits.{HaveFiles, place_of, is_last, keys_from, Rises};

use crate::ranks::Ranks;
use demand_core::Keys;
use element_store::Models;
use link_model::LinkKey;
use linker_base::NoMemory;
use std::alloc::Global;

/// A reference with the rank of its file.
#[derive(Clone, Copy)]
struct Place {
    rank: u32,
    key: LinkKey,
}

/// The references with the ranks of their files.
fn ranked(alloc: Global, ranks: &Ranks, waits: &[LinkKey]) -> Result<Vec<Place>, NoMemory>
    requires { HaveFiles (length ranks.now) waits.now }
    ensures { IfOk result (λ places. places.items ≡ map (place_of ranks.now) waits.now) }
{
    let mut places = Vec::new(alloc);
    for key in waits {
        let rank = ranks.rank(key.0.file);
        places.push(Place { rank, key: *key })?;
    }
    Ok(places)
}

/// Puts places in order: by their ranks, and within each file by their numbers.
fn put_in_order(places: &mut Vec<Place>) -> Result<(), NoMemory>
    ensures order { OnOk result (Rises places.new.items) }
    ensures same { OnOk result (IsPermutation places.old.items places.new.items) }
{
    places.sort_by_key(|place| place.key.0.index)?;
    places.sort_by_key(|place| place.rank)?;
    Ok(())
}

/// Whether a reference is the last one, if there is one.
fn is_last(last: Option<LinkKey>, key: LinkKey) -> bool
    ensures { result ≡ is_last last key }
{
    match last {
        None => false,
        Some(last) => key == last,
    }
}

/// The references at places, without one that stands right behind itself.
fn keys_at(alloc: Global, places: &[Place]) -> Result<Keys<LinkKey>, NoMemory>
    ensures { IfOk result (λ keys. keys ≡ keys_from None places.now) }
{
    let mut keys = Keys::new(alloc);
    let mut last = None;
    for place in places {
        let doubled = is_last(last, place.key);
        if doubled {
            continue;
        }
        keys.push(place.key)?;
        last = Some(place.key);
    }
    Ok(keys)
}

/// The references of a list in their order, the least first, and each once: those of project files
/// before those of library files, within each in the byte order of names, then by their numbers.
pub fn in_order(
    alloc: Global,
    models: &Models,
    ranks: &Ranks,
    waits: &[LinkKey],
) -> Result<Keys<LinkKey>, NoMemory>
    requires ranks { AreRanksOf models.now ranks.now }
    requires files { HaveFiles (length models.now) waits.now }
    ensures order { IfOk result (AreInOrder (ComesBefore models.now)) }
    ensures same { IfOk result (λ keys. SameMembers keys waits.now) }
{
    // A look at the files tells that no name stands twice among them.
    let _ = models.files();
    let mut places = ranked(alloc, ranks, waits)?;
    put_in_order(&mut places)?;
    let keys = keys_at(alloc, places.as_slice())?;
    Ok(keys)
}
