//! The texts of the model library of both languages: the bases of all kinds, and the scalar values.
#![tactic(auto)]

mod file;
mod texts;

pub use file::{LibraryFile, library};
