//! Worked rows of links: small models written out, with the outcome of each reference in the least
//! linking, what cyclic references wait on, what names are found, and what askings look at. Each row
//! is evaluated by the checker. Nothing stands on this crate.
#![tactic(auto)]
