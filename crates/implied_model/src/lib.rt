//! Which types specialise the base of their kind by implication (KerML 8.4.2): the definitions, and laws
//! that tie them to files by rank and to members that own.
#![tactic(auto)]

mod laws;

pub use laws::{owners_are_found, ranks_are_the_order};
