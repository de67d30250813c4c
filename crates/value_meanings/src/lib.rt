//! Which feature is meant for a feature in a target (KerML 8.3.3.3, Features), by the links of a
//! project of which no more come: `inheritance` finds the types of a target and what features
//! redefine.
//!
//! `value_model` defines it (specs/Meant, `meant`).
#![tactic(auto)]

mod candidates;
mod homes;
mod meanings;
mod sole;

pub use meanings::LinkMeanings;
