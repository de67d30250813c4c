//! What becomes of a reference, over the lookups in one namespace: where each role starts, the later
//! segments and chain steps, what is hidden, and the outcome (KerML 8.2.3.5, name resolution).
#![tactic(auto)]

mod asking;
mod course;
mod hiding;
mod outcomes;
mod searching;
mod starts;
mod turns;

pub use asking::{ask, find};
pub use course::Course;
pub use hiding::hidden;
pub use turns::Written;
