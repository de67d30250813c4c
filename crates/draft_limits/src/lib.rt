//! The limits of a text, each at the least place where it is passed.
#![tactic(auto)]

mod limits;

pub use limits::{deepest, least, lesser, place_over};

#[cfg(test)]
mod tests;
