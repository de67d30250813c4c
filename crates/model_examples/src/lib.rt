//! Hand-made models and books of models, and what the readers of `element_store` tell of them. Nothing
//! stands on this crate.
//!
//! A model is a table (`sketches`), from which the tests make it and against which they read it back.
//! `specs/Drawn` says which lists a table draws; `specs/Worked` has the same models written out, and
//! shows by evaluation that all that holds of models holds of them.
#![tactic(auto)]

#[cfg(test)]
mod base_tests;
#[cfg(test)]
mod book_tests;
#[cfg(test)]
mod drawing;
pub mod library_sketches;
#[cfg(test)]
mod models;
#[cfg(test)]
mod name_tests;
#[cfg(test)]
mod reader_tests;
#[cfg(test)]
mod reading;
pub mod sketch;
pub mod sketches;
