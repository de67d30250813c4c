//! Asks one key for its value over a table of values: the feature meant, the expression that
//! decides, names led through their chains, and the reading of the expression.
//!
//! Which feature is meant in a target is told by a trait, `Meanings`: it hangs on walks over links.
#![tactic(auto)]

mod asking;
mod chains;
mod leads;
mod meanings;
mod source;

pub use asking::ask;
pub use leads::lead;
pub use meanings::Meanings;
