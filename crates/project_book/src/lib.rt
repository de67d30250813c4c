//! The project over models: a book of files, each read to its model or its fault, and the edits of the book.
#![tactic(auto)]

mod faults;
mod named;
mod project;
mod reading;
#[cfg(test)]
mod tests;

pub use faults::{Applied, ApplyFault};
pub use project::Project;
