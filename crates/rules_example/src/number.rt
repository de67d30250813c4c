ghost use Rattle.rules_example.specs.Numbers.{number_exact};

use demand_core::{Copied, Same};
use linker_base::NoMemory;
use std::alloc::Global;

/// A key of the example: the place of its row, from 0.
#[derive(Clone, Copy, PartialEq, Eq, Hash)]
pub struct Number(pub usize);

impl Same for Number {
    ghost exact = { number_exact };
}

impl Copied for Number {
    fn copied(&self, _alloc: Global) -> Result<Self, NoMemory> {
        Ok(*self)
    }
}
