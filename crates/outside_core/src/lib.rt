//! The outside as the linker sees it: sources of bytes, sinks for bytes and shelves of named texts, each
//! with a count of its faults. Objects over memory tell contracts what they hold; the adapters over std's
//! readers and writers tell no content and are the trusted edge.
#![tactic(auto)]

mod faults;
mod memory;
mod parts;
mod shelf;
mod sink;
mod source;
mod steady;
#[cfg(test)]
mod tests;

pub use faults::{Failed, ShelfFault};
pub use memory::{MemorySink, MemorySource};
pub use shelf::Shelf;
pub use sink::{Sink, StdSink, give_all};
pub use source::{Source, StdSource};
pub use steady::{SteadyShelf, SteadySink, SteadySource};
