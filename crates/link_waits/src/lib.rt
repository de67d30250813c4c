//! The order of references: what an asking waits on, each once, the least first. Files stand in the
//! order of their ranks, which are read in constant time.
#![tactic(auto)]

#[cfg(test)]
mod order_tests;
mod ranks;
mod waits;

pub use ranks::Ranks;
pub use waits::in_order;
