//! What the features of a type and of those that it reaches by generals redefine (KerML 8.3.3.3.10,
//! Redefinition), directly and on the way: what they redefine on the way is asked by one search from
//! all of them, so that a long chain of redefinitions costs no fact for each pair.
#![tactic(auto)]

mod element_set;
mod facts;
mod heir;
mod searches;

pub use element_set::{ElementSet, is_same, set_of};
pub use facts::{Direct, Facts, Redefiner, ask_all, directs, is_private, redefiners};
pub use heir::{Candidate, Heir};
pub use searches::{redefined_by_all, targets, types};
