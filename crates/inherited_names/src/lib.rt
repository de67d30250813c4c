//! What a type inherits under a name (KerML 8.3.3.1.10, Type::inheritedMemberships and
//! removeRedefinedFeatures): the members of the types that it reaches by generals, without those that
//! are private and those that are redefined away.
//!
//! What the features of the types redefine is asked by one search from all of them, and the conditions
//! are read off sets, so that a long chain of redefinitions costs no fact for each pair.
#![tactic(auto)]

mod calls;
mod conditions;
mod open_types;

pub use calls::{inherited, inherited_hits, inherited_raw};
