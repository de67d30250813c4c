//! The files of a project as it keeps them: each with its text, the ends of its lines, its fault if it has
//! one, and its model. Here are the answers that rest on one file or one number alone: names, places,
//! labels, references as they are written, outcomes.
#![tactic(auto)]

mod files;
mod outcomes;
#[cfg(test)]
mod tests;

pub use files::{Kept, ProjectFiles};
pub use outcomes::{write_implication, write_outcome, write_place, write_row};
