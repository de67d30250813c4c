//! What every crate of the linker shares: the answer for want of memory, the one list type over which
//! all its public lists stand, and, in `specs/`, the words that many contracts use: lists seen as
//! sets (`Members`), counts that stand still and causes of faults (`Counts`).
#![tactic(auto)]

pub mod limits;
mod listing;
mod no_memory;

pub use listing::Listing;
pub use no_memory::NoMemory;
