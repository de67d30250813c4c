ghost use Rattle.std.specs.Prelude.{◌≡◌, ◌<◌, IfOk, length};
ghost use Rattle.project_answers.specs.Spots.{rising_spots, spots_of};

use element_store::FileModel;
use linker_base::NoMemory;
use std::alloc::Global;

/// Where a reference of a model stands: the place of its first token, in bytes of the text, and its number.
#[derive(Clone, Copy, Debug, PartialEq, Eq)]
pub struct Spot {
    pub place: u32,
    pub number: u32,
}

/// Where the references of a model stand, in the order of their numbers.
fn spots(alloc: Global, model: &FileModel) -> Result<Vec<Spot>, NoMemory>
    ensures spots { IfOk result (λ spots. spots.items ≡ spots_of model.now) }
    ensures few { IfOk result (λ spots. length spots.items < 4294967296) }
{
    // A look at a model tells what holds of every model.
    let _ = model.elements();
    let mut spots = Vec::with_capacity(alloc, model.references() as usize)?;
    for number in 0..model.references() {
        let place = model.place_of_reference(number);
        spots.push(Spot { place, number })?;
    }
    Ok(spots)
}

/// Where the references of a model stand, in rising order of places, and then of numbers: one for each.
pub fn rising(alloc: Global, model: &FileModel) -> Result<Vec<Spot>, NoMemory>
    ensures spots { IfOk result (λ spots. spots.items ≡ rising_spots model.now) }
    ensures few { IfOk result (λ spots. length spots.items < 4294967296) }
{
    let mut spots = spots(alloc, model)?;
    // The numbers rise already, and references at one place keep their order.
    spots.sort_by_key(|spot| spot.place)?;
    Ok(spots)
}
