//! Which public members of the roots of files bear a name: what a name means that is found in no
//! namespace around it (KerML 8.2.3.5). `RootNames` stands beside the models of a project and is changed
//! with each file, so that a look-up of a name asks no file.
//!
//! `specs/Roots` says which members these are, over the files of a project.
#![tactic(auto)]

mod placing;
mod root_names;
mod root_table;
#[cfg(test)]
mod root_tests;
#[cfg(test)]
mod sample;
mod taking;

pub use root_names::RootNames;
