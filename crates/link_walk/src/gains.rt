ghost use Rattle.std.specs.Prelude.{◌≡◌, []};

use crate::notes::Notes;
use linker_base::Listing;
use std::alloc::Global;
use std::marker::Model;

/// What an asking found, waits on and looked at. Contracts see it as a trail without nodes.
#[derive(Drop)]
pub struct Gains<B> {
    pub found: Listing<B>,
    pub notes: Notes,
}

impl<B> Model for Gains<B> {
    ghost use Rattle.std.specs.Prelude.{[]};
    ghost use Rattle.link_walk.specs.Noted.{LinkTrail, trail_of};

    ghost Value = { LinkTrail B };

    ghost view = { λ t. trail_of [] t.found t.notes };
}

impl<B> Gains<B> {
    /// Nothing yet. It takes no memory.
    pub fn new(alloc: Global) -> Self
        ensures { result ≡ record { nodes = []; found = []; waits = []; looks = [] } }
    {
        Gains {
            found: Listing::new(alloc),
            notes: Notes::new(alloc),
        }
    }
}
