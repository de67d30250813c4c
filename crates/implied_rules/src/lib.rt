//! The specialisations that a model's library implies (KerML 8.4.2): which types specialise the base of
//! their kind by no relationship of their own, and the library itself.
#![tactic(auto)]

mod implying;
mod rows;

pub use implying::implied;
pub use library_texts::{LibraryFile, library};
pub use rows::{ImpliedRow, ImpliedRows};
