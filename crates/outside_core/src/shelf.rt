ghost use Rattle.std.specs.Prelude.{◌≡◌, ◌≤◌, ℕ, List, Option, length, IfOk, vec_len};
ghost use Rattle.outside_core.specs.Shelves.{Told, Fetches, HasShelfCause};

use crate::faults::ShelfFault;
use std::alloc::Global;

/// Where named texts stand.
pub trait Shelf {
    /// The text under each name, where the texts are told. No call changes what is held or whether it is told.
    ghost held: { Self → Told };

    /// How often a fetch has failed.
    ghost faults: { Self → ℕ };

    /// The name of the last fetch that failed.
    ghost last_failed: { Self → Option (List ℕ) };

    /// The text under the name, which may have at most `max` bytes.
    fn fetch(&mut self, alloc: Global, name: &str, max: usize) -> Result<Vec<u8>, ShelfFault>
        requires { length name.now ≤ 200 }
        ensures held { held self.new ≡ held self.old }
        ensures bound { IfOk result (λ text. vec_len text ≤ max) }
        ensures told { Fetches (held self.old) name.now max result }
        ensures cause { HasShelfCause (faults self.old) (faults self.new) (last_failed self.old)
            (last_failed self.new) name.now result };
}
