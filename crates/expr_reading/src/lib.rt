//! Reads one expression over a table of values: from left to right, each part only where it is
//! needed, without recursion. `Source` tells what the nodes mean; `worth` gives the step of the
//! reading and adds what it looked at.
//!
//! A first pass over the nodes in postfix order finds where each part begins (`positions`). Then
//! turns follow, with a stack of what is pending (`turns`): a part that isn't needed is never entered.
#![tactic(auto)]

mod following;
mod positions;
mod reading;
mod source;
mod turns;

pub use reading::worth;
pub use source::{Lead, Source};
