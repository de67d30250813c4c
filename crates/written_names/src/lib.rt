//! How an answer names what stands in a model: the label of an element, a reference as it is written, and a
//! qualified name.
#![tactic(auto)]

mod labels;
mod names;
mod writing;

pub use labels::write_label;
pub use names::{write_qualified, write_reference};
pub use writing::{write, write_number};
