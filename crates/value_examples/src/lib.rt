//! Worked rows of values: small models written out, with the least linking of each, what its features
//! are worth, and that the list of keys is closed. Each row is evaluated by the checker. Nothing stands
//! on this crate.
#![tactic(auto)]
