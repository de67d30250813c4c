//! From the drafts of a text to the lists of its model: references get their numbers, element by element.
#![tactic(auto)]

mod numbering;
mod references;

pub use numbering::{Heading, number};

#[cfg(test)]
mod tests;
